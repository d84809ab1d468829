ghost use Rattle.std.specs.Prelude.{◌<◌, length};

use crate::margin::margin_after;
use crate::story::{Cluster, Story, is_so};
use ak_settings::Strategy;
use ak_world::World;
use std::alloc::Global;
use std::test::Fail;

// Two are needed for a quorum.
pub(crate) const CLUSTER: Cluster = Cluster {
    hosts: "ab",
    strategy: Strategy::StaticQuorum(2),
    deadline: 1,
};

// a founds, and b joins: a join and a welcome are sent.
static JOINED: [&str; 5] = [
    "start a:1#1",
    "start b:1#1",
    "found a:1#1",
    "join b:1#1 a:1",
    "deliver 1",
];

// a sends the same heartbeat at each tick.
static TICKS: [&str; 4] = [
    "tick a:1#1 0",
    "tick a:1#1 0",
    "tick a:1#1 0",
    "tick a:1#1 0",
];

// How many packets were sent, and how many different ones.
fn sent(world: &World) -> (u64, u64) {
    (world.packets(), world.stored())
}

pub(crate) fn is_stored_once(alloc: Global, world: &mut World) -> Result<bool, Fail>
    requires { length world.old.events < 10 }
{
    let first = sent(world) == (0, 0);
    margin_after(alloc, world, &JOINED)?;
    let joined = sent(world) == (2, 2);
    margin_after(alloc, world, &TICKS)?;
    let ticked = sent(world) == (6, 3);
    Ok(first && joined && ticked)
}

#[test]
fn a_heartbeat_that_is_sent_again_is_stored_once(rt: HostRuntime) -> Result<(), Fail> {
    assert!(rt; is_so(rt.alloc(), Story::StoredOnce)?);
    Ok(())
}
