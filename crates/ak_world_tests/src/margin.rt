ghost use Rattle.std.specs.Prelude.{◌+◌, ◌<◌, ◌≤◌, length, IfOk};

use crate::story::{Cluster, Story, apply_line, is_so};
use ak_settings::Strategy;
use ak_world::{Margin, World};
use std::alloc::Global;
use std::test::Fail;

// A tombstone waits for two ticks.
pub(crate) const CLUSTER: Cluster = Cluster {
    hosts: "ab",
    strategy: Strategy::DownAll,
    deadline: 1,
};

// a founds, b joins, both are Up, and b downs a, which does not hear of it.
static DOWNED: [&str; 11] = [
    "start a:1#1",
    "start b:1#1",
    "found a:1#1",
    "tick a:1#1 0",
    "join b:1#1 a:1",
    "tick a:1#1 0",
    "deliver 1",
    "deliver 2",
    "tick a:1#1 0",
    "deliver 5",
    "down b:1#1 a:1#1",
];

// b finds a silent, removes it, and waits; at its fifth tick the margin ends.
static REMOVED: [&str; 3] = ["tick b:1#1 0", "tick b:1#1 0", "tick b:1#1 0"];

static WAITED: [&str; 2] = ["tick b:1#1 0", "tick b:1#1 0"];

// a stops after its margin ended.
static LATE: [&str; 2] = ["stop a:1#1", "tick b:1#1 0"];

// a stops a tick before that.
static IN_TIME: [&str; 3] = ["tick b:1#1 0", "stop a:1#1", "tick b:1#1 0"];

// a hears from b that it is Down, and stops.
static TOLD: [&str; 2] = ["deliver 5", "deliver 7"];

// The margin after some more lines.
pub(crate) fn margin_after(alloc: Global, world: &mut World, lines: &[&str]) -> Result<Margin, Fail>
    requires { length world.old.events + length lines.now < 1000 }
    ensures { IfOk result (λ margin. length world.new.events ≤ length world.old.events + length lines.now) }
{
    'lines: for line in lines {
        apply_line(alloc, world, *line)?;
    }
    Ok(world.margin())
}

const BROKEN: Margin = Margin::Broken {
    step: 16,
    node: 1,
    member: 0,
};

pub(crate) fn ends_too_early(alloc: Global, world: &mut World) -> Result<bool, Fail>
    requires { length world.old.events < 10 }
{
    let first = world.margin() == Margin::Kept;
    let downed = margin_after(alloc, world, &DOWNED)? == Margin::Kept;
    let removed = margin_after(alloc, world, &REMOVED)? == Margin::Kept;
    let waited = margin_after(alloc, world, &WAITED)? == BROKEN;
    let late = margin_after(alloc, world, &LATE)? == BROKEN;
    Ok(first && downed && removed && waited && late)
}

pub(crate) fn stops_in_time(alloc: Global, world: &mut World) -> Result<bool, Fail>
    requires { length world.old.events < 10 }
{
    margin_after(alloc, world, &DOWNED)?;
    margin_after(alloc, world, &REMOVED)?;
    Ok(margin_after(alloc, world, &IN_TIME)? == Margin::Kept)
}

pub(crate) fn is_told(alloc: Global, world: &mut World) -> Result<bool, Fail>
    requires { length world.old.events < 10 }
{
    margin_after(alloc, world, &DOWNED)?;
    margin_after(alloc, world, &TOLD)?;
    margin_after(alloc, world, &REMOVED)?;
    Ok(margin_after(alloc, world, &WAITED)? == Margin::Kept)
}

#[test]
fn a_margin_that_ends_before_a_member_is_told_is_broken(rt: HostRuntime) -> Result<(), Fail> {
    assert!(rt; is_so(rt.alloc(), Story::EndsTooEarly)?);
    Ok(())
}

#[test]
fn a_margin_that_ends_after_a_member_has_stopped_is_kept(rt: HostRuntime) -> Result<(), Fail> {
    assert!(rt; is_so(rt.alloc(), Story::StopsInTime)?);
    assert!(rt; is_so(rt.alloc(), Story::IsTold)?);
    Ok(())
}
