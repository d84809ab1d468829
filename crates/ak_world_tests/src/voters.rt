ghost use Rattle.std.specs.Prelude.{◌+◌, ◌<◌, ◌≤◌, length, OnOk};

use crate::life::known_of;
use crate::story::{Row, Story, apply_line, is_so, rows_that_go};
use ak_address::{Unique, parse_unique};
use ak_member::{Standing, Status};
use ak_schedule::{Draft, LineFault};
use ak_settings::Settings;
use ak_world::World;
use std::alloc::Global;
use std::test::Fail;

// Of three that are listed two have the role, and both are needed for a settled view.
static HEADERS: [&str; 9] = [
    "listed a:1 b:1 c:1",
    "strategy static-quorum 2",
    "margin 2",
    "deadline 9",
    "stable 9",
    "shards 10",
    "buffer 2",
    "threshold 1",
    "limit 1",
];

const ROLE: &[u8] = b"role a:1 c:1";

fn headers(alloc: Global) -> Result<Draft, LineFault> {
    let mut draft = Draft::new(alloc);
    'headers: for line in &HEADERS {
        if draft.headers_read() < 9 {
            draft.header(alloc, line.as_bytes())?;
        }
    }
    if draft.headers_read() == 9 {
        draft.extra(alloc, ROLE)?;
    }
    Ok(draft)
}

pub(crate) fn settings(alloc: Global) -> Result<Settings, Fail> {
    match headers(alloc)?.finish() {
        Ok(settings) => Ok(settings),
        Err(_) => Err("a header is missing")?,
    }
}

// What the founder knows of b, which does not have the role.
const NOTHING: Option<Standing> = None;

const JOINING: Option<Standing> = Some(Standing::Member(Status::Joining, 0));

const UP: Option<Standing> = Some(Standing::Member(Status::Up, 2));

const DOWN: Option<Standing> = Some(Standing::Member(Status::Down, 2));

// A line of a schedule, what the founder knows of b after it, and how many updates of the founder the settled views of a, of b
// and of c count.
#[derive(Clone, Copy)]
struct Noted(&'static str, Option<Standing>, [u64; 3]);

// a founds, and b joins: all that are Joining agree, but only one of them has the role. When c has joined too, all come Up at
// one tick, and their view settles where all three have seen it, b too.
static FOUNDED: [Noted; 19] = [
    Noted("start a:1#1", NOTHING, [0, 0, 0]),
    Noted("start b:1#1", NOTHING, [0, 0, 0]),
    Noted("start c:1#1", NOTHING, [0, 0, 0]),
    Noted("found a:1#1", NOTHING, [0, 0, 0]),
    Noted("join b:1#1 a:1", NOTHING, [0, 0, 0]),
    Noted("deliver 1", JOINING, [0, 0, 0]),
    Noted("deliver 2", JOINING, [0, 0, 0]),
    Noted("deliver 3", JOINING, [0, 0, 0]),
    Noted("tick a:1#1 0", JOINING, [0, 0, 0]),
    Noted("join c:1#1 a:1", JOINING, [0, 0, 0]),
    Noted("deliver 5", JOINING, [0, 0, 0]),
    Noted("deliver 6", JOINING, [0, 0, 0]),
    Noted("deliver 7", JOINING, [0, 0, 0]),
    Noted("tick a:1#1 0", UP, [0, 0, 0]),
    Noted("deliver 10", UP, [0, 0, 0]),
    Noted("deliver 11", UP, [0, 0, 0]),
    Noted("tick a:1#1 0", UP, [0, 0, 0]),
    Noted("deliver 14", UP, [0, 0, 4]),
    Noted("deliver 15", UP, [4, 0, 4]),
];

// b is downed by hand: a and c settle the view without it.
static WITHOUT_OTHERS: [Noted; 4] = [
    Noted("down a:1#1 b:1#1", DOWN, [4, 0, 4]),
    Noted("tick a:1#1 1", DOWN, [4, 0, 4]),
    Noted("deliver 20", DOWN, [4, 0, 5]),
    Noted("deliver 21", DOWN, [5, 0, 5]),
];

// c is downed by hand: a and b agree on the view, and are two, but it does not settle.
static WITHOUT_A_VOTER: [Noted; 4] = [
    Noted("down a:1#1 c:1#1", UP, [4, 0, 4]),
    Noted("tick a:1#1 0", UP, [4, 0, 4]),
    Noted("deliver 20", UP, [4, 0, 4]),
    Noted("deliver 21", UP, [4, 0, 4]),
];

// How many updates of the founder the settled view of a node counts.
fn noted_by(world: &World, number: u32, founder: &Unique) -> u64 {
    match world.node(number) {
        Some(node) => node.settled().version().count(founder),
        None => 0,
    }
}

fn all_noted(world: &World, founder: &Unique) -> [u64; 3] {
    [
        noted_by(world, 0, founder),
        noted_by(world, 1, founder),
        noted_by(world, 2, founder),
    ]
}

impl Row for Noted {
    fn goes(&self, alloc: Global, world: &mut World) -> Result<bool, Fail>
        requires { length world.old.events < 1000 }
        ensures { OnOk result (length world.new.events ≤ length world.old.events + 1) }
    {
        apply_line(alloc, world, self.0)?;
        let founder = parse_unique(alloc, b"a:1#1")?;
        let other = parse_unique(alloc, b"b:1#1")?;
        Ok(known_of(world, &other) == self.1 && all_noted(world, &founder) == self.2)
    }
}

// Whether all rows of the founding go as they say, and then all the others.
fn all_go_in(alloc: Global, world: &mut World, rows: &[Noted]) -> Result<bool, Fail>
    requires small { length world.old.events < 10 }
    requires few { length rows.now < 900 }
{
    if rows_that_go(alloc, world, &FOUNDED)? < FOUNDED.len() {
        return Ok(false);
    }
    Ok(rows_that_go(alloc, world, rows)? == rows.len())
}

pub(crate) fn settle_without_others(alloc: Global, world: &mut World) -> Result<bool, Fail>
    requires { length world.old.events < 10 }
{
    all_go_in(alloc, world, &WITHOUT_OTHERS)
}

pub(crate) fn wait_for_a_voter(alloc: Global, world: &mut World) -> Result<bool, Fail>
    requires { length world.old.events < 10 }
{
    all_go_in(alloc, world, &WITHOUT_A_VOTER)
}

#[test]
fn members_with_the_role_found_and_settle(rt: HostRuntime) -> Result<(), Fail> {
    assert!(rt; is_so(rt.alloc(), Story::SettleWithoutOthers)?);
    Ok(())
}

#[test]
fn a_view_without_enough_that_have_the_role_is_not_settled(rt: HostRuntime) -> Result<(), Fail> {
    assert!(rt; is_so(rt.alloc(), Story::WaitForAVoter)?);
    Ok(())
}
