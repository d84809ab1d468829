ghost use Rattle.std.specs.Prelude.{◌+◌, ◌<◌, ◌≤◌, length, OnOk};

// The stories of all tests of worlds, and how one goes.
use crate::{double, fold, life, line, margin, seen, stored, voters};
use ak_address::{Address, parse_address};
use ak_schedule::{Event, LineFault, read_line};
use ak_settings::{Settings, Strategy};
use ak_world::{Reason, Refused, World};
use std::alloc::Global;
use std::test::Fail;

// In what the settings of the stories without a role differ: the hosts whose port 1 is listed, the strategy and the deadline.
#[derive(Clone, Copy)]
pub(crate) struct Cluster {
    pub(crate) hosts: &'static str,
    pub(crate) strategy: Strategy,
    pub(crate) deadline: u32,
}

fn listed(alloc: Global, hosts: &str) -> Result<Vec<Address>, Fail> {
    let mut listed = Vec::new(alloc);
    'hosts: for host in hosts.as_bytes() {
        listed.push(parse_address(alloc, &[*host, b':', b'1'])?)?;
    }
    Ok(listed)
}

fn settings_with(alloc: Global, cluster: Cluster) -> Result<Settings, Fail> {
    let listed = listed(alloc, cluster.hosts)?;
    let made = Settings::of_membership(alloc, listed, cluster.strategy, 2, cluster.deadline, 9)?;
    let mut settings = made.ok_or("the settings are out of range")?;
    settings.shards = 10;
    settings.buffer = 2;
    settings.limit = 1;
    Ok(settings)
}

// What comes of an event: the node that acts, or why it is refused.
#[derive(Clone, Copy)]
pub(crate) enum Outcome {
    Acts(Option<u32>),
    Refused(Reason),
}

// What comes of the event of a line.
pub(crate) fn try_line(alloc: Global, world: &mut World, line: &str) -> Result<Outcome, Fail>
    requires { length world.old.events < 1000 }
    ensures { OnOk result (length world.new.events ≤ length world.old.events + 1) }
{
    try_read(alloc, world, &read_line(alloc, line.as_bytes()))
}

fn try_read(
    alloc: Global,
    world: &mut World,
    read: &Result<Event, LineFault>,
) -> Result<Outcome, Fail>
    requires { length world.old.events < 1000 }
    ensures { OnOk result (length world.new.events ≤ length world.old.events + 1) }
{
    match read {
        Ok(event) => try_event(alloc, world, event),
        Err(_) => Err("a line is malformed")?,
    }
}

fn try_event(alloc: Global, world: &mut World, event: &Event) -> Result<Outcome, Fail>
    requires { length world.old.events < 1000 }
    ensures { OnOk result (length world.new.events ≤ length world.old.events + 1) }
{
    match world.apply(alloc, event) {
        Ok(step) => Ok(Outcome::Acts(step.node)),
        Err(Refused::Invalid(why)) => Ok(Outcome::Refused(why)),
        Err(Refused::NoMemory(_)) => Err("out of memory")?,
    }
}

pub(crate) fn apply_line(alloc: Global, world: &mut World, line: &str) -> Result<(), Fail>
    requires { length world.old.events < 1000 }
    ensures { OnOk result (length world.new.events ≤ length world.old.events + 1) }
{
    match try_line(alloc, world, line)? {
        Outcome::Acts(_) => Ok(()),
        Outcome::Refused(_) => Err("an event was refused")?,
    }
}

// A line of a schedule, and what is to be true after it.
pub(crate) trait Row {
    // Whether it is so when the line has happened.
    fn goes(&self, alloc: Global, world: &mut World) -> Result<bool, Fail>
        requires { length world.old.events < 1000 }
        ensures { OnOk result (length world.new.events ≤ length world.old.events + 1) };
}

// How many of the rows go as they say, one after another: all, or those before the first that does not.
pub(crate) fn rows_that_go<R: Row>(
    alloc: Global,
    world: &mut World,
    rows: &[R],
) -> Result<usize, Fail>
    requires { length world.old.events + length rows.now < 1000 }
    ensures { OnOk result (length world.new.events ≤ length world.old.events + length rows.now) }
{
    'rows: for (index, row) in rows.iter().enumerate() {
        if !row.goes(alloc, world)? {
            return Ok(index);
        }
    }
    Ok(rows.len())
}

pub(crate) static FIRST_JOIN: [&str; 7] = [
    "start a:1#1",
    "start b:1#1",
    "found a:1#1",
    "join b:1#1 a:1",
    "deliver 1",
    "deliver 2",
    "deliver 3",
];

// c is admitted by a and by b, neither of which knows the other's update; then a merges both.
pub(crate) static TWO_UPDATES_MERGE: [&str; 14] = [
    "start a:1#1",
    "start b:1#1",
    "start c:1#1",
    "found a:1#1",
    "join b:1#1 a:1",
    "deliver 1",
    "deliver 2",
    "join c:1#1 a:1",
    "join c:1#1 b:1",
    "deliver 4",
    "deliver 5",
    "deliver 2",
    "deliver 8",
    "deliver 9",
];

// What happens in a new world, in all tests of worlds.
#[derive(Clone, Copy)]
pub(crate) enum Story {
    FoldOfFirstJoin,
    FoldOfTwoUpdates,
    SeenAtFirstJoin,
    SeenAtTwoUpdates,
    SeenAtOldGossip,
    EndsTooEarly,
    StopsInTime,
    IsTold,
    StartsTwice,
    FounderLeaves,
    BothRise,
    Leaves,
    IsReplaced,
    IsDowned,
    StoredOnce,
    SettleWithoutOthers,
    WaitForAVoter,
}

fn cluster_of(story: Story) -> Cluster {
    match story {
        Story::EndsTooEarly | Story::StopsInTime | Story::IsTold => margin::CLUSTER,
        Story::StartsTwice => double::CLUSTER,
        Story::FounderLeaves => line::ALONE,
        Story::BothRise => line::BOTH,
        Story::Leaves | Story::IsReplaced | Story::IsDowned => life::CLUSTER,
        Story::StoredOnce => stored::CLUSTER,
        _ => fold::CLUSTER,
    }
}

fn settings_of(alloc: Global, story: Story) -> Result<Settings, Fail> {
    match story {
        Story::SettleWithoutOthers | Story::WaitForAVoter => voters::settings(alloc),
        _ => settings_with(alloc, cluster_of(story)),
    }
}

fn goes_so(alloc: Global, world: &mut World, story: Story) -> Result<bool, Fail>
    requires { length world.old.events < 10 }
{
    match story {
        Story::FoldOfFirstJoin => fold::is_fold_of_first_join(alloc, world),
        Story::FoldOfTwoUpdates => fold::is_fold_of_two_updates(alloc, world),
        Story::SeenAtFirstJoin => seen::first_join_is_seen(alloc, world),
        Story::SeenAtTwoUpdates => seen::two_updates_are_seen(alloc, world),
        Story::SeenAtOldGossip => seen::old_gossip_changes_nothing(alloc, world),
        Story::EndsTooEarly => margin::ends_too_early(alloc, world),
        Story::StopsInTime => margin::stops_in_time(alloc, world),
        Story::IsTold => margin::is_told(alloc, world),
        Story::StartsTwice => double::starts_twice(alloc, world),
        Story::FounderLeaves => line::founder_leaves(alloc, world),
        Story::BothRise => line::both_rise(alloc, world),
        Story::Leaves => life::leaves(alloc, world),
        Story::IsReplaced => life::is_replaced(alloc, world),
        Story::IsDowned => life::is_downed(alloc, world),
        Story::StoredOnce => stored::is_stored_once(alloc, world),
        Story::SettleWithoutOthers => voters::settle_without_others(alloc, world),
        Story::WaitForAVoter => voters::wait_for_a_voter(alloc, world),
    }
}

// Whether the story goes so in a new world. A function that owns a world is proved to let it go at each of its ends, which takes
// long, so this one alone owns one, and the others borrow it.
pub(crate) fn is_so(alloc: Global, story: Story) -> Result<bool, Fail> {
    let mut world = World::new(alloc, settings_of(alloc, story)?);
    goes_so(alloc, &mut world, story)
}
