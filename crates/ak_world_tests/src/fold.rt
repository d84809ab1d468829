ghost use Rattle.std.specs.Prelude.{◌+◌, ◌<◌, length};

use crate::story::{Cluster, FIRST_JOIN, Story, TWO_UPDATES_MERGE, apply_line, is_so};
use ak_gossip::Gossip;
use ak_history::View;
use ak_settings::Strategy;
use ak_wire::Message;
use ak_world::World;
use std::alloc::{AllocError, Global};
use std::test::Fail;

pub(crate) const CLUSTER: Cluster = Cluster {
    hosts: "abcd",
    strategy: Strategy::StaticQuorum(3),
    deadline: 9,
};

// The members and tombstones of a gossip are those of the view, and it has as many rows.
fn same(view: &View, gossip: &Gossip) -> bool {
    let one = &view.members;
    let other = gossip.members();
    for index in 0..one.uniques() {
        if let (Some((who, standing)), Some((whose, known))) = (
            one.pair(index),
            other.pair(index),
        ) {
            if !who.compare(whose).is_eq() || standing != known {
                return false;
            }
        }
    }
    one.uniques() == other.uniques() && view.rows.len() == gossip.rows().len()
}

// Whether a gossip is what its version shows of the history.
fn is_fold(alloc: Global, world: &World, gossip: &Gossip) -> Result<bool, AllocError> {
    let view = world.history().view(alloc, gossip.version())?;
    Ok(same(&view, gossip))
}

fn nodes_fold(alloc: Global, world: &World) -> Result<bool, AllocError> {
    for number in 0..4 {
        if let Some(node) = world.node(number) {
            if !is_fold(alloc, world, node.gossip())? {
                return Ok(false);
            }
        }
    }
    Ok(true)
}

fn packets_fold(alloc: Global, world: &World) -> Result<bool, AllocError> {
    for number in 1..20 {
        if let Some(envelope) = world.envelope(number) {
            if let Message::Welcome(gossip) | Message::Gossip(gossip) = &envelope.message {
                if !is_fold(alloc, world, gossip)? {
                    return Ok(false);
                }
            }
        }
    }
    Ok(true)
}

// What each node knows, and each gossip that was sent, is what its version shows of the history.
fn folds(alloc: Global, world: &World) -> Result<bool, AllocError> {
    Ok(nodes_fold(alloc, world)? && packets_fold(alloc, world)?)
}

// How many updates there are after some more events, each of which leaves every node with the fold of the history.
fn updates_in(alloc: Global, world: &mut World, lines: &[&str]) -> Result<usize, Fail>
    requires { length world.old.events + length lines.now < 1000 }
{
    'lines: for line in lines {
        apply_line(alloc, world, *line)?;
        if !folds(alloc, world)? {
            return Err("a node is not at the fold of the history")?;
        }
    }
    Ok(world.history().len())
}

fn updates_are(
    alloc: Global,
    world: &mut World,
    lines: &[&str],
    wanted: usize,
) -> Result<bool, Fail>
    requires { length world.old.events + length lines.now < 1000 }
{
    Ok(updates_in(alloc, world, lines)? == wanted)
}

pub(crate) fn is_fold_of_first_join(alloc: Global, world: &mut World) -> Result<bool, Fail>
    requires { length world.old.events < 10 }
{
    updates_are(alloc, world, &FIRST_JOIN, 2)
}

pub(crate) fn is_fold_of_two_updates(alloc: Global, world: &mut World) -> Result<bool, Fail>
    requires { length world.old.events < 10 }
{
    updates_are(alloc, world, &TWO_UPDATES_MERGE, 4)
}

#[test]
fn nodes_know_the_fold_of_the_history(rt: HostRuntime) -> Result<(), Fail> {
    assert!(rt; is_so(rt.alloc(), Story::FoldOfFirstJoin)?);
    assert!(rt; is_so(rt.alloc(), Story::FoldOfTwoUpdates)?);
    Ok(())
}
