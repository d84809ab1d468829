ghost use Rattle.std.specs.Prelude.{◌+◌, ◌<◌, length};

use crate::story::{FIRST_JOIN, Story, TWO_UPDATES_MERGE, apply_line, is_so};
use ak_address::{Unique, Uniques, parse_unique};
use ak_clock::{Relation, Version};
use ak_node::Node;
use ak_wire::Message;
use ak_world::World;
use std::alloc::{AllocError, Global};
use std::test::Fail;

// A process, and a version that it held.
#[derive(Drop)]
struct Holding {
    who: Unique,
    version: Version,
}

// The process held exactly this version.
fn held(past: &[Holding], who: &Unique, version: &Version) -> bool {
    for holding in past {
        if holding.who.compare(who).is_eq() && holding.version.compare(version) == Relation::Same {
            return true;
        }
    }
    false
}

// Each process of a seen set held exactly the version that it is told to have seen.
fn all_held(past: &[Holding], seen: &Uniques, version: &Version) -> bool {
    for index in 0..seen.len() {
        if let Some(who) = seen.at(index) {
            if !held(past, who, version) {
                return false;
            }
        }
    }
    true
}

fn nodes_tell_the_truth(past: &[Holding], world: &World) -> bool {
    for number in 0..4 {
        if let Some(node) = world.node(number) {
            if !all_held(past, node.gossip().seen(), node.gossip().version()) {
                return false;
            }
        }
    }
    true
}

fn packets_tell_the_truth(past: &[Holding], world: &World) -> bool {
    for number in 1..20 {
        if let Some(envelope) = world.envelope(number) {
            if let Message::Welcome(gossip) | Message::Gossip(gossip) = &envelope.message {
                if !all_held(past, gossip.seen(), gossip.version()) {
                    return false;
                }
            }
        }
    }
    true
}

fn holding_of(alloc: Global, node: &Node) -> Result<Holding, AllocError> {
    let who = node.me().copy(alloc)?;
    let version = node.gossip().version().copy(alloc)?;
    Ok(Holding { who, version })
}

// Each node holds what it knows now.
fn hold(alloc: Global, world: &World, past: &mut Vec<Holding>) -> Result<(), AllocError> {
    for number in 0..4 {
        if let Some(node) = world.node(number) {
            past.push(holding_of(alloc, node)?)?;
        }
    }
    Ok(())
}

// How many have seen what each node knows.
fn seen_at(world: &World) -> [usize; 3] {
    let mut seen = [0; 3];
    for number in 0..3 {
        if let Some(node) = world.node(number) {
            seen[number as usize] = node.gossip().seen().len();
        }
    }
    seen
}

// Applies the events; no seen set may tell an untruth after any of them.
fn apply_each(
    alloc: Global,
    world: &mut World,
    past: &mut Vec<Holding>,
    lines: &[&str],
) -> Result<(), Fail>
    requires { length world.old.events + length lines.now < 1000 }
{
    'lines: for line in lines {
        apply_line(alloc, world, *line)?;
        hold(alloc, world, past)?;
        if !nodes_tell_the_truth(past, world) || !packets_tell_the_truth(past, world) {
            return Err("a process in a seen set did not hold the version")?;
        }
    }
    Ok(())
}

fn seen_in(alloc: Global, world: &mut World, lines: &[&str]) -> Result<[usize; 3], Fail>
    requires { length world.old.events + length lines.now < 1000 }
{
    let mut past = Vec::new(alloc);
    apply_each(alloc, world, &mut past, lines)?;
    Ok(seen_at(world))
}

// Packets come again, and after a admitted c an old gossip that both a and b have seen changes nothing at a.
static OLD_GOSSIP_COMES_AGAIN: [&str; 14] = [
    "start a:1#1",
    "start b:1#1",
    "start c:1#1",
    "found a:1#1",
    "join b:1#1 a:1",
    "deliver 1",
    "deliver 2",
    "deliver 3",
    "deliver 2",
    "deliver 1",
    "deliver 5",
    "join c:1#1 a:1",
    "deliver 6",
    "deliver 4",
];

pub(crate) fn first_join_is_seen(alloc: Global, world: &mut World) -> Result<bool, Fail>
    requires { length world.old.events < 10 }
{
    Ok(seen_in(alloc, world, &FIRST_JOIN)? == [2, 2, 0])
}

// Where a and b each admitted c and a merged, nobody but a is known to know both updates, until b hears of it.
pub(crate) fn two_updates_are_seen(alloc: Global, world: &mut World) -> Result<bool, Fail>
    requires { length world.old.events < 10 }
{
    Ok(seen_in(alloc, world, &TWO_UPDATES_MERGE)? == [1, 2, 0])
}

pub(crate) fn old_gossip_changes_nothing(alloc: Global, world: &mut World) -> Result<bool, Fail>
    requires { length world.old.events < 10 }
{
    Ok(seen_in(alloc, world, &OLD_GOSSIP_COMES_AGAIN)? == [1, 2, 0])
}

#[test]
fn who_is_in_a_seen_set_held_the_version(rt: HostRuntime) -> Result<(), Fail> {
    assert!(rt; is_so(rt.alloc(), Story::SeenAtFirstJoin)?);
    assert!(rt; is_so(rt.alloc(), Story::SeenAtTwoUpdates)?);
    assert!(rt; is_so(rt.alloc(), Story::SeenAtOldGossip)?);
    Ok(())
}

// The version that counts so many entries of one author.
fn version_of(alloc: Global, author: &Unique, count: u64) -> Result<Version, AllocError>
    requires { count < 10 }
{
    let mut version = Version::empty(alloc);
    version.reach(alloc, author, count)?;
    Ok(version)
}

// The process of this name, when it held that version.
fn held_by(alloc: Global, name: &str, author: &Unique, count: u64) -> Result<Holding, Fail>
    requires { count < 10 }
{
    let who = parse_unique(alloc, name.as_bytes())?;
    let version = version_of(alloc, author, count)?;
    Ok(Holding { who, version })
}

fn push_past(alloc: Global, past: &mut Vec<Holding>, author: &Unique) -> Result<(), Fail> {
    past.push(held_by(alloc, "a:1#1", author, 1)?)?;
    past.push(held_by(alloc, "a:1#1", author, 2)?)?;
    past.push(held_by(alloc, "b:1#1", author, 1)?)?;
    Ok(())
}

// a held what it made, twice; b heard of the first alone.
fn past_of_two(alloc: Global, author: &Unique) -> Result<Vec<Holding>, Fail> {
    let mut past = Vec::new(alloc);
    push_past(alloc, &mut past, author)?;
    Ok(past)
}

fn set_of(alloc: Global, one: &Unique, other: &Unique) -> Result<Uniques, AllocError> {
    let mut set = Uniques::empty(alloc);
    set.insert(alloc, one)?;
    set.insert(alloc, other)?;
    Ok(set)
}

// Whether the author and the other one may be in the seen set of what the other one held.
fn may_have_seen(
    alloc: Global,
    past: &[Holding],
    author: &Unique,
    other: &Holding,
) -> Result<bool, Fail> {
    let seen = set_of(alloc, author, &other.who)?;
    Ok(all_held(past, &seen, &other.version))
}

fn may_have_seen_after(
    alloc: Global,
    past: &[Holding],
    author: &Unique,
    count: u64,
) -> Result<bool, Fail>
    requires { count < 10 }
{
    let other = held_by(alloc, "b:1#1", author, count)?;
    may_have_seen(alloc, past, author, &other)
}

fn author_may_have_seen(alloc: Global, author: &Unique, count: u64) -> Result<bool, Fail>
    requires { count < 10 }
{
    let past = past_of_two(alloc, author)?;
    may_have_seen_after(alloc, &past, author, count)
}

// Whether both may be in the seen set of a version that counts so many entries.
fn both_may_have_seen(alloc: Global, count: u64) -> Result<bool, Fail>
    requires { count < 10 }
{
    let author = parse_unique(alloc, b"a:1#1")?;
    author_may_have_seen(alloc, &author, count)
}

#[test]
fn an_untrue_seen_set_is_found(rt: HostRuntime) -> Result<(), Fail> {
    assert!(rt; both_may_have_seen(rt.alloc(), 1)?);
    assert!(rt; !both_may_have_seen(rt.alloc(), 2)?);
    assert!(rt; !both_may_have_seen(rt.alloc(), 3)?);
    Ok(())
}
