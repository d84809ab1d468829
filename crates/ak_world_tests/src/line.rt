ghost use Rattle.std.specs.Prelude.{◌+◌, ◌<◌, ◌≤◌, length, OnOk};

use crate::story::{Cluster, Row, Story, apply_line, is_so, rows_that_go};
use ak_address::{Unique, parse_unique};
use ak_settings::Strategy;
use ak_world::World;
use std::alloc::Global;
use std::test::Fail;

// One member is enough for a settled view, and there is one address.
pub(crate) const ALONE: Cluster = Cluster {
    hosts: "a",
    strategy: Strategy::StaticQuorum(1),
    deadline: 9,
};

// Both members are needed for a settled view.
pub(crate) const BOTH: Cluster = Cluster {
    hosts: "ab",
    strategy: Strategy::StaticQuorum(2),
    deadline: 9,
};

// How many updates of a:1#1 and of b:1#1 a version counts.
#[derive(Clone, Copy, PartialEq, Eq)]
struct Updates(u64, u64);

const NOTHING: Updates = Updates(0, 0);

// A line of a schedule, and the versions of the settled views that the first and the second node have noted by its end.
#[derive(Clone, Copy)]
struct Noted(&'static str, Updates, Updates);

// A founder comes Up alone, leaves, and stops: its view settles twice, each time at a later version, and the one in which it
// is Exiting is noted by nobody.
static FOUNDER_LEAVES: [Noted; 5] = [
    Noted("start a:1#1", NOTHING, NOTHING),
    Noted("found a:1#1", NOTHING, NOTHING),
    Noted("tick a:1#1 0", Updates(2, 0), NOTHING),
    Noted("leave a:1#1 a:1#1", Updates(3, 0), NOTHING),
    Noted("tick a:1#1 0", Updates(3, 0), NOTHING),
];

// a founds, b joins, and both come Up: what b hears of it is settled, and then what a hears from b.
static BOTH_RISE: [Noted; 12] = [
    Noted("start a:1#1", NOTHING, NOTHING),
    Noted("start b:1#1", NOTHING, NOTHING),
    Noted("found a:1#1", NOTHING, NOTHING),
    Noted("join b:1#1 a:1", NOTHING, NOTHING),
    Noted("deliver 1", NOTHING, NOTHING),
    Noted("deliver 2", NOTHING, NOTHING),
    Noted("deliver 3", NOTHING, NOTHING),
    Noted("tick a:1#1 0", NOTHING, NOTHING),
    Noted("tick a:1#1 0", NOTHING, NOTHING),
    Noted("tick a:1#1 0", NOTHING, NOTHING),
    Noted("deliver 7", NOTHING, Updates(3, 0)),
    Noted("deliver 8", Updates(3, 0), Updates(3, 0)),
];

// b leaves, and tells: the next settled view is later than the first, at both.
static ONE_LEAVES: [Noted; 5] = [
    Noted("leave b:1#1 b:1#1", Updates(3, 0), Updates(3, 0)),
    Noted("deliver 3", Updates(3, 0), Updates(3, 0)),
    Noted("deliver 9", Updates(3, 0), Updates(3, 0)),
    Noted("deliver 10", Updates(3, 1), Updates(3, 0)),
    Noted("deliver 11", Updates(3, 1), Updates(3, 1)),
];

// What a node has noted.
fn noted_by(world: &World, number: u32, a: &Unique, b: &Unique) -> Updates {
    match world.node(number) {
        Some(node) => {
            let version = node.settled().version();
            Updates(version.count(a), version.count(b))
        }
        None => NOTHING,
    }
}

impl Row for Noted {
    fn goes(&self, alloc: Global, world: &mut World) -> Result<bool, Fail>
        requires { length world.old.events < 1000 }
        ensures { OnOk result (length world.new.events ≤ length world.old.events + 1) }
    {
        apply_line(alloc, world, self.0)?;
        let a = parse_unique(alloc, b"a:1#1")?;
        let b = parse_unique(alloc, b"b:1#1")?;
        Ok(noted_by(world, 0, &a, &b) == self.1 && noted_by(world, 1, &a, &b) == self.2)
    }
}

// Whether all these rows go as they say, and then all the others.
fn all_go_in(
    alloc: Global,
    world: &mut World,
    rows: &[Noted],
    others: &[Noted],
) -> Result<bool, Fail>
    requires { length world.old.events + length rows.now + length others.now < 1000 }
{
    if rows_that_go(alloc, world, rows)? < rows.len() {
        return Ok(false);
    }
    Ok(rows_that_go(alloc, world, others)? == others.len())
}

pub(crate) fn founder_leaves(alloc: Global, world: &mut World) -> Result<bool, Fail>
    requires { length world.old.events < 10 }
{
    all_go_in(alloc, world, &FOUNDER_LEAVES, &[])
}

pub(crate) fn both_rise(alloc: Global, world: &mut World) -> Result<bool, Fail>
    requires { length world.old.events < 10 }
{
    all_go_in(alloc, world, &BOTH_RISE, &ONE_LEAVES)
}

#[test]
fn settled_versions_of_a_founder_that_leaves(rt: HostRuntime) -> Result<(), Fail> {
    assert!(rt; is_so(rt.alloc(), Story::FounderLeaves)?);
    Ok(())
}

#[test]
fn two_members_settle_one_after_another(rt: HostRuntime) -> Result<(), Fail> {
    assert!(rt; is_so(rt.alloc(), Story::BothRise)?);
    Ok(())
}
