ghost use Rattle.std.specs.Prelude.{◌+◌, ◌<◌, ◌≤◌, length, OnOk};

use crate::story::{Cluster, Outcome, Row, Story, is_so, rows_that_go, try_line};
use ak_address::{Unique, parse_unique};
use ak_member::{Standing, Status};
use ak_settings::Strategy;
use ak_world::{Reason, World};
use std::alloc::Global;
use std::test::Fail;

// One member is enough for a settled view.
pub(crate) const CLUSTER: Cluster = Cluster {
    hosts: "abc",
    strategy: Strategy::DownAll,
    deadline: 9,
};

// What is known of a process.
const NOTHING: Option<Standing> = None;

const JOINING: Option<Standing> = Some(Standing::Member(Status::Joining, 0));

const UP: Option<Standing> = Some(Standing::Member(Status::Up, 2));

const LEAVING: Option<Standing> = Some(Standing::Member(Status::Leaving, 2));

const EXITING: Option<Standing> = Some(Standing::Member(Status::Exiting, 2));

const DOWN: Option<Standing> = Some(Standing::Member(Status::Down, 2));

const REMOVED: Option<Standing> = Some(Standing::Buried(true));

// A line of a schedule, the node that acts then, what the founder knows of b:1#1 after it, and whether b:1#1 has stopped.
#[derive(Clone, Copy)]
struct Life(&'static str, Option<u32>, Option<Standing>, bool);

// a founds, b joins, and both come Up; a knows so alone.
static FOUNDED: [Life; 8] = [
    Life("start a:1#1", Some(0), NOTHING, false),
    Life("start b:1#1", Some(1), NOTHING, false),
    Life("found a:1#1", Some(0), NOTHING, false),
    Life("join b:1#1 a:1", Some(1), NOTHING, false),
    Life("deliver 1", Some(0), JOINING, false),
    Life("deliver 2", Some(1), JOINING, false),
    Life("deliver 3", Some(0), JOINING, false),
    Life("tick a:1#1 0", Some(0), UP, false),
];

// An old packet comes again wherever a node is to tell the other what it knows now. b leaves, and the view settles; then a, the
// leader, makes it Exiting. b hears of that, says at its tick that it stops, and stops; a removes it as one that has stopped.
// A packet for b:1#1 is dead then. A second process starts at its address and joins, and a packet for whoever is at that
// address reaches it, though the one that has stopped stands before it.
static LEAVES: [Life; 21] = [
    Life("deliver 3", Some(0), UP, false),
    Life("deliver 5", Some(1), UP, false),
    Life("deliver 6", Some(0), UP, false),
    Life("leave b:1#1 b:1#1", Some(1), UP, false),
    Life("deliver 5", Some(1), UP, false),
    Life("deliver 7", Some(0), LEAVING, false),
    Life("deliver 8", Some(1), LEAVING, false),
    Life("tick a:1#1 0", Some(0), EXITING, false),
    Life("deliver 7", Some(0), EXITING, false),
    Life("deliver 11", Some(1), EXITING, false),
    Life("tick b:1#1 0", Some(1), EXITING, true),
    Life("deliver 14", Some(0), EXITING, true),
    Life("tick a:1#1 0", Some(0), REMOVED, true),
    Life("deliver 10", None, REMOVED, true),
    Life("start b:1#2", Some(2), REMOVED, true),
    Life("join b:1#2 a:1", Some(2), REMOVED, true),
    Life("deliver 17", Some(0), REMOVED, true),
    Life("deliver 18", Some(2), REMOVED, true),
    Life("start c:1#1", Some(3), REMOVED, true),
    Life("join c:1#1 b:1", Some(3), REMOVED, true),
    Life("deliver 20", Some(2), REMOVED, true),
];

// b stops at once. Its successor asks to join, and so a learns that b has stopped: it goes Down, and the successor waits.
static REPLACED: [Life; 6] = [
    Life("stop b:1#1", Some(1), UP, true),
    Life("start b:1#2", Some(2), UP, true),
    Life("join b:1#2 a:1", Some(2), UP, true),
    Life("deliver 5", Some(0), DOWN, true),
    Life("deliver 5", Some(0), DOWN, true),
    Life("deliver 2", None, DOWN, true),
];

// b is downed by hand, and stops as soon as it hears of it.
static DOWNED: [Life; 3] = [
    Life("down a:1#1 b:1#1", Some(0), DOWN, false),
    Life("deliver 3", Some(0), DOWN, false),
    Life("deliver 5", Some(1), DOWN, true),
];

// What the founder knows of the process.
pub(crate) fn known_of(world: &World, who: &Unique) -> Option<Standing> {
    let members = world.node(0)?.gossip().members();
    if let Some(member) = members.get(who) {
        return Some(Standing::Member(member.status, member.up_number));
    }
    Some(Standing::Buried(members.tombstone(who)?))
}

// The second node has stopped.
fn second_has_stopped(world: &World) -> bool {
    match world.node(1) {
        Some(node) => node.stopped(),
        None => false,
    }
}

impl Row for Life {
    fn goes(&self, alloc: Global, world: &mut World) -> Result<bool, Fail>
        requires { length world.old.events < 1000 }
        ensures { OnOk result (length world.new.events ≤ length world.old.events + 1) }
    {
        let Outcome::Acts(acting) = try_line(alloc, world, self.0)? else {
            return Err("an event was refused")?;
        };
        let who = parse_unique(alloc, b"b:1#1")?;
        let known = known_of(world, &who);
        Ok(acting == self.1 && known == self.2 && second_has_stopped(world) == self.3)
    }
}

// a founds and b joins, and all rows of that go as they say.
fn found(alloc: Global, world: &mut World) -> Result<(), Fail>
    requires { length world.old.events < 10 }
    ensures { OnOk result (length world.new.events < 20) }
{
    if rows_that_go(alloc, world, &FOUNDED)? < FOUNDED.len() {
        return Err("the cluster is not founded")?;
    }
    Ok(())
}

// Whether all these rows go as they say in a founded world.
fn all_go_in(alloc: Global, world: &mut World, rows: &[Life]) -> Result<bool, Fail>
    requires small { length world.old.events < 10 }
    requires few { length rows.now < 900 }
    ensures { OnOk result (length world.new.events < 20 + length rows.now) }
{
    found(alloc, world)?;
    Ok(rows_that_go(alloc, world, rows)? == rows.len())
}

pub(crate) fn is_replaced(alloc: Global, world: &mut World) -> Result<bool, Fail>
    requires { length world.old.events < 10 }
{
    all_go_in(alloc, world, &REPLACED)
}

pub(crate) fn is_downed(alloc: Global, world: &mut World) -> Result<bool, Fail>
    requires { length world.old.events < 10 }
{
    all_go_in(alloc, world, &DOWNED)
}

// Whether an event is refused for this reason.
fn is_refused(alloc: Global, world: &mut World, line: &str, reason: Reason) -> Result<bool, Fail>
    requires { length world.old.events < 1000 }
    ensures { OnOk result (length world.new.events ≤ length world.old.events + 1) }
{
    match try_line(alloc, world, line)? {
        Outcome::Acts(_) => Ok(false),
        Outcome::Refused(why) => Ok(why == reason),
    }
}

// b, which has stopped, does nothing and does not start again, and nobody else starts where its successor runs.
fn refuses_what_is_over(alloc: Global, world: &mut World) -> Result<bool, Fail>
    requires { length world.old.events < 900 }
{
    let stopped = is_refused(alloc, world, "tick b:1#1 0", Reason::NodeStopped)?;
    let used = is_refused(alloc, world, "start b:1#1", Reason::UniqueUsed)?;
    let taken = is_refused(alloc, world, "start b:1#3", Reason::AddressInUse)?;
    Ok(stopped && used && taken)
}

// The founder is the active singleton with its first ballot, and b, which has stopped, is not.
fn founder_is_active(world: &World) -> bool {
    let (Some(founder), Some(other)) = (world.node(0), world.node(1)) else {
        return false;
    };
    match founder.active() {
        Some(ballot) => ballot.term == 1 && other.active().is_none(),
        None => false,
    }
}

pub(crate) fn leaves(alloc: Global, world: &mut World) -> Result<bool, Fail>
    requires { length world.old.events < 10 }
{
    if all_go_in(alloc, world, &LEAVES)? && founder_is_active(world) {
        return refuses_what_is_over(alloc, world);
    }
    Ok(false)
}

#[test]
fn a_member_leaves_and_another_takes_its_address(rt: HostRuntime) -> Result<(), Fail> {
    assert!(rt; is_so(rt.alloc(), Story::Leaves)?);
    Ok(())
}

#[test]
fn a_successor_downs_the_process_before_it(rt: HostRuntime) -> Result<(), Fail> {
    assert!(rt; is_so(rt.alloc(), Story::IsReplaced)?);
    Ok(())
}

#[test]
fn a_downed_process_stops(rt: HostRuntime) -> Result<(), Fail> {
    assert!(rt; is_so(rt.alloc(), Story::IsDowned)?);
    Ok(())
}
