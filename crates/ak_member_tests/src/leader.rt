use crate::build::{Known, Seen, letter, members_of, rows_of, set_of};
use ak_clock::BOUND;
use ak_leader::{actions, founding, leader, weak_effects};
use ak_member::{Effect, Effects, Members, Standing, Status};
use ak_reach::Rows;
use std::alloc::Global;
use std::test::Fail;

// What is looked at of an effect.
type Found = (u8, u8, u64);

// Whom an effect is about, the rank of the status that it rises to and its number; of a removal 0 and whether it is
// confirmed; zeros where there is no effect.
fn parts_of(effect: Option<&Effect>) -> Found {
    match effect {
        Some(Effect::Rise(who, status, number)) => (letter(Some(who)), status.rank(), *number),
        Some(Effect::Removed(who, confirmed)) => (letter(Some(who)), 0, u64::from(*confirmed)),
        Some(Effect::Joined(who)) => (letter(Some(who)), 1, 0),
        Some(Effect::Observed(_)) => (0, 1, 0),
        None => (0, 0, 0),
    }
}

static MEMBERS: [Known; 4] = [
    ("a:1#1", Standing::Member(Status::Joining, 0)),
    ("b:1#1", Standing::Member(Status::Up, 2)),
    ("c:1#1", Standing::Member(Status::Leaving, 1)),
    ("d:1#1", Standing::Member(Status::Down, 3)),
];

// Rows, and the letter of the leader where b is Up, c is Leaving and these rows are there; 0 where nobody leads.
static LEADERS: [(&[Seen], u8); 4] = [
    (&[], b'b'),
    (&[("c:1#1", 1, "b:1#1")], b'c'),
    (&[("d:1#1", 1, "b:1#1")], b'b'),
    (&[("a:1#1", 1, "b:1#1"), ("b:1#1", 1, "c:1#1")], 0),
];

fn led_over(members: &Members, rows: &Rows) -> u8 {
    letter(leader(members, rows))
}

fn led_by(alloc: Global, rows: &[Seen]) -> Result<u8, Fail> {
    let members = members_of(alloc, &MEMBERS)?;
    let rows = rows_of(alloc, rows)?;
    Ok(led_over(&members, &rows))
}

#[test]
fn the_first_reachable_member_leads(rt: HostRuntime) -> Result<(), Fail> {
    for (rows, wanted) in &LEADERS {
        assert!(rt; led_by(rt.alloc(), rows)? == *wanted, "{wanted}");
    }
    Ok(())
}

// Whether the effects are these, and no more.
fn are(effects: &Effects, wanted: &[Found]) -> bool {
    for (index, found) in wanted.iter().enumerate() {
        if parts_of(effects.at(index)) != *found {
            return false;
        }
    }
    effects.at(wanted.len()).is_none()
}

// Whether a leader makes these effects where c and e are confirmed to have stopped.
fn makes(alloc: Global, members: &Members, rows: &Rows, wanted: &[Found]) -> Result<bool, Fail> {
    let confirmed = set_of(alloc, &["c:1#1", "e:1#1"])?;
    let effects = actions(alloc, members, rows, &confirmed)?;
    Ok(are(&effects, wanted))
}

// The same of these members, where f is unreachable.
fn leads_to(alloc: Global, lines: &[Known], wanted: &[Found]) -> Result<bool, Fail> {
    let members = members_of(alloc, lines)?;
    let rows = rows_of(alloc, &[("b:1#1", 1, "f:1#1")])?;
    makes(alloc, &members, &rows, wanted)
}

static ALL_KINDS: [Known; 8] = [
    ("a:1#1", Standing::Member(Status::Joining, 0)),
    ("b:1#1", Standing::Member(Status::Leaving, 3)),
    ("c:1#1", Standing::Member(Status::Exiting, 7)),
    ("d:1#1", Standing::Member(Status::Exiting, 4)),
    ("e:1#1", Standing::Member(Status::Down, 5)),
    ("f:1#1", Standing::Member(Status::Down, 0)),
    ("g:1#1", Standing::Member(Status::Down, 6)),
    ("h:1#1", Standing::Member(Status::WeaklyUp, 0)),
];

static MOVED_ON: [Found; 6] = [
    (b'a', 3, 8),
    (b'b', 5, 0),
    (b'c', 0, 1),
    (b'e', 0, 1),
    (b'f', 0, 0),
    (b'h', 3, 9),
];

#[test]
fn a_leader_moves_members_on(rt: HostRuntime) -> Result<(), Fail> {
    assert!(rt; leads_to(rt.alloc(), &ALL_KINDS, &MOVED_ON)?);
    Ok(())
}

static NEAR_THE_BOUND: [Known; 4] = [
    ("a:1#1", Standing::Member(Status::Joining, 0)),
    ("b:1#1", Standing::Member(Status::Up, BOUND - 1)),
    ("c:1#1", Standing::Member(Status::WeaklyUp, 0)),
    ("d:1#1", Standing::Member(Status::Leaving, 1)),
];

static ONE_NUMBER_LEFT: [Found; 2] = [(b'a', 3, BOUND), (b'd', 5, 0)];

#[test]
fn numbers_end_at_the_bound(rt: HostRuntime) -> Result<(), Fail> {
    assert!(rt; leads_to(rt.alloc(), &NEAR_THE_BOUND, &ONE_NUMBER_LEFT)?);
    Ok(())
}

static FOUNDERS: [Known; 3] = [
    ("a:1#1", Standing::Member(Status::Up, 7)),
    ("b:1#1", Standing::Member(Status::Joining, 0)),
    ("c:1#1", Standing::Member(Status::Joining, 0)),
];

static FOUNDED: [Found; 2] = [(b'b', 3, 1), (b'c', 3, 2)];

fn founds(alloc: Global, members: &Members, wanted: &[Found]) -> Result<bool, Fail> {
    let effects = founding(alloc, members)?;
    Ok(are(&effects, wanted))
}

#[test]
fn a_founding_counts_from_one(rt: HostRuntime) -> Result<(), Fail> {
    let members = members_of(rt.alloc(), &FOUNDERS)?;
    assert!(rt; founds(rt.alloc(), &members, &FOUNDED)?);
    Ok(())
}

// f is unreachable.
static LET_IN: [Known; 6] = [
    ("a:1#1", Standing::Member(Status::Joining, 0)),
    ("b:1#1", Standing::Member(Status::Up, 1)),
    ("c:1#1", Standing::Member(Status::WeaklyUp, 0)),
    ("d:1#1", Standing::Member(Status::Down, 0)),
    ("f:1#1", Standing::Member(Status::Joining, 0)),
    ("g:1#1", Standing::Member(Status::Joining, 0)),
];

static WHO_IS_LET_IN: [Found; 2] = [(b'a', 2, 0), (b'g', 2, 0)];

fn lets_in(alloc: Global, members: &Members, wanted: &[Found]) -> Result<bool, Fail> {
    let rows = rows_of(alloc, &[("b:1#1", 1, "f:1#1")])?;
    let effects = weak_effects(alloc, members, &rows)?;
    Ok(are(&effects, wanted))
}

#[test]
fn whoever_is_joining_and_reached_is_let_in(rt: HostRuntime) -> Result<(), Fail> {
    let members = members_of(rt.alloc(), &LET_IN)?;
    assert!(rt; lets_in(rt.alloc(), &members, &WHO_IS_LET_IN)?);
    Ok(())
}
