ghost use Rattle.std.specs.Prelude.{◌<◌, length};

use crate::margin::margin_after;
use crate::story::{Cluster, Story, is_so};
use ak_settings::Strategy;
use ak_world::{Double, World};
use std::alloc::Global;
use std::test::Fail;

// Each side of a split goes on.
pub(crate) const CLUSTER: Cluster = Cluster {
    hosts: "ab",
    strategy: Strategy::StaticQuorum(1),
    deadline: 1,
};

// a founds, is active, and starts an entity; b joins, comes Up, downs a, which does not hear of it, and is active too.
static ACTIVE: [&str; 21] = [
    "start a:1#1",
    "start b:1#1",
    "found a:1#1",
    "tick a:1#1 0",
    "offer a:1#1 cart 5",
    "tick a:1#1 0",
    "deliver 1",
    "deliver 2",
    "deliver 4",
    "join b:1#1 a:1",
    "deliver 5",
    "deliver 6",
    "tick a:1#1 0",
    "deliver 9",
    "down b:1#1 a:1#1",
    "tick b:1#1 0",
    "tick b:1#1 0",
    "tick b:1#1 0",
    "tick b:1#1 0",
    "tick b:1#1 0",
    "offer b:1#1 cart 6",
];

// b asks itself for the home of the shard, places it there, and hosts it: the entity starts.
static PLACED: [&str; 3] = ["tick b:1#1 0", "deliver 18", "deliver 19"];

// What comes later changes nothing.
static STOPPED: [&str; 1] = ["stop b:1#1"];

fn is_first(double: Option<&Double>) -> bool {
    let Some(double) = double else {
        return false;
    };
    let nodes = double.first == 0 && double.second == 1;
    double.entity.bytes() == b"cart".as_slice() && nodes && double.step == 24
}

pub(crate) fn starts_twice(alloc: Global, world: &mut World) -> Result<bool, Fail>
    requires { length world.old.events < 10 }
{
    margin_after(alloc, world, &ACTIVE)?;
    let none = world.first_double().is_none();
    margin_after(alloc, world, &PLACED)?;
    let first = is_first(world.first_double());
    margin_after(alloc, world, &STOPPED)?;
    Ok(none && first && is_first(world.first_double()))
}

#[test]
fn an_entity_that_is_active_on_two_nodes_is_found(rt: HostRuntime) -> Result<(), Fail> {
    assert!(rt; is_so(rt.alloc(), Story::StartsTwice)?);
    Ok(())
}
