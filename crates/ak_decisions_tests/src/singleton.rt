use crate::build::{ballot, is_of, letter, members_of, note, process, version};
use ak_address::Unique;
use ak_clock::Version;
use ak_member::{Standing, Status};
use ak_promise::{Answer, Ballot};
use ak_settled::Settled;
use ak_singleton::{Phase, Singleton, Steps};
use std::alloc::{AllocError, Global};
use std::test::Fail;

const MARGIN: u32 = 3;

const UP: Standing = Standing::Member(Status::Up, 3);

const EXITING: Standing = Standing::Member(Status::Exiting, 3);

const TOMBSTONE: Standing = Standing::Buried(false);

const STOPPED: Standing = Standing::Buried(true);

// What happens to the node c, and what comes of it. Ballots are a term and a letter, versions so many entries of a.
#[derive(Clone, Copy)]
enum Turn {
    // A view of b, c, d and so on is noted.
    Note(u32, &'static [Standing]),
    // The margin counters tick.
    Margin,
    // A tick: whom it asks, whom it tells of a release, and the term of the ballot that it wants.
    Tick(Status, &'static [u8], &'static [u8], u64),
    Ask(u32, u8, Answer),
    // A process grants a ballot of c.
    Grant(u8, u32, bool),
    // A ballot of c is older than one of d.
    Old(u32, u32, bool),
    Done(u32, u8, bool),
    Release(u32, u8, bool),
    Activate(bool),
    End(u64),
}

// Notes these standings of b, c, d and so on where the version covers the noted one.
fn note_standings(
    alloc: Global,
    settled: &mut Settled,
    count: u32,
    standings: &[Standing],
) -> Result<bool, Fail> {
    let members = members_of(alloc, b"bcdefgh", standings)?;
    note(alloc, settled, count, &members)
}

// The term of a ballot; 0 for none.
fn term_of(ballot: Option<&Ballot>) -> u64 {
    match ballot {
        Some(ballot) => ballot.term,
        None => 0,
    }
}

fn are(steps: &Steps, ask: &[u8], release: &[u8], term: u64) -> bool {
    is_of(&steps.ask, ask)
        && is_of(&steps.release, release)
        && term_of(steps.hand_over_to.as_ref()) == term
}

fn steps_at(
    alloc: Global,
    c: &mut Singleton,
    settled: &Settled,
    status: Status,
) -> Result<Steps, Fail> {
    let me = process(alloc, b'c')?;
    Ok(c.on_tick(alloc, &me, settled, status, MARGIN)?)
}

// Whether a tick asks these and tells these of a release, and wants the ballot of this term.
fn ticks_so(
    alloc: Global,
    c: &mut Singleton,
    settled: &Settled,
    status: Status,
    wanted: (&[u8], &[u8], u64),
) -> Result<bool, Fail> {
    let steps = steps_at(alloc, c, settled, status)?;
    Ok(are(&steps, wanted.0, wanted.1, wanted.2))
}

fn activates(alloc: Global, c: &mut Singleton, settled: &Settled) -> Result<bool, Fail> {
    let me = process(alloc, b'c')?;
    Ok(c.try_activate(alloc, &me, settled, MARGIN)?)
}

fn is_asked(
    alloc: Global,
    c: &mut Singleton,
    settled: &Settled,
    term: u32,
    letter: u8,
) -> Result<Answer, Fail> {
    let ballot = ballot(alloc, term, letter)?;
    Ok(c.on_ask(ballot, settled, MARGIN))
}

fn grant(alloc: Global, c: &mut Singleton, from: &Unique, ballot: &Ballot) -> Result<bool, Fail> {
    let floor = version(alloc, 2)?;
    Ok(c.on_granted(alloc, from, ballot, &floor)?)
}

fn is_granted(alloc: Global, c: &mut Singleton, from: u8, term: u32) -> Result<bool, Fail> {
    let from = process(alloc, from)?;
    let ballot = ballot(alloc, term, b'c')?;
    grant(alloc, c, &from, &ballot)
}

fn outdo(alloc: Global, c: &mut Singleton, own: &Ballot, last: u32) -> Result<bool, Fail> {
    let last = ballot(alloc, last, b'd')?;
    Ok(c.on_old(alloc, own, &last)?)
}

fn is_outdone(alloc: Global, c: &mut Singleton, term: u32, last: u32) -> Result<bool, Fail> {
    let own = ballot(alloc, term, b'c')?;
    outdo(alloc, c, &own, last)
}

fn release_at(
    alloc: Global,
    c: &mut Singleton,
    is_done: bool,
    ballot: &Ballot,
    floor: &Version,
) -> Result<bool, AllocError> {
    if is_done {
        return c.on_done(alloc, ballot, floor);
    }
    c.on_release(alloc, ballot, floor)
}

fn release(alloc: Global, c: &mut Singleton, is_done: bool, ballot: &Ballot) -> Result<bool, Fail> {
    let floor = version(alloc, 2)?;
    Ok(release_at(alloc, c, is_done, ballot, &floor)?)
}

fn is_released(
    alloc: Global,
    c: &mut Singleton,
    is_done: bool,
    term: u32,
    letter: u8,
) -> Result<bool, Fail> {
    let ballot = ballot(alloc, term, letter)?;
    release(alloc, c, is_done, &ballot)
}

// Whether what another node says comes to what the turn says.
fn is_told(alloc: Global, c: &mut Singleton, settled: &Settled, turn: Turn) -> Result<bool, Fail> {
    match turn {
        Turn::Ask(term, letter, answer) => Ok(is_asked(alloc, c, settled, term, letter)? == answer),
        Turn::Grant(from, term, first) => Ok(is_granted(alloc, c, from, term)? == first),
        Turn::Old(term, last, outdone) => Ok(is_outdone(alloc, c, term, last)? == outdone),
        Turn::Done(term, letter, done) => Ok(is_released(alloc, c, true, term, letter)? == done),
        Turn::Release(term, letter, released) => {
            Ok(is_released(alloc, c, false, term, letter)? == released)
        }
        _ => Ok(false),
    }
}

// Whether the turn comes to what it says.
fn comes_so(
    alloc: Global,
    c: &mut Singleton,
    settled: &mut Settled,
    turn: Turn,
) -> Result<bool, Fail> {
    match turn {
        Turn::Note(count, standings) => note_standings(alloc, settled, count, standings),
        Turn::Margin => {
            settled.tick(MARGIN);
            Ok(true)
        }
        Turn::Tick(status, ask, tell, term) => {
            ticks_so(alloc, c, settled, status, (ask, tell, term))
        }
        Turn::Activate(active) => Ok(activates(alloc, c, settled)? == active),
        Turn::End(term) => Ok(c.end(alloc, settled)?.unwrap_or(0) == term),
        _ => is_told(alloc, c, settled, turn),
    }
}

// Whether the node is in this phase, with a live ballot of this term, the last one of this term, and these that granted.
fn is_at(c: &Singleton, phase: Phase, live: u64, last: u64, granted: &[u8]) -> bool {
    c.phase() == phase
        && term_of(c.live()) == live
        && term_of(c.promise().last()) == last
        && is_of(c.granted(), granted)
}

// A turn, and after it the phase, the term of the live ballot and of the last that was promised, and who granted.
type Row = (Turn, Phase, u64, u64, &'static [u8]);

fn rows_go(
    alloc: Global,
    c: &mut Singleton,
    settled: &mut Settled,
    rows: &[Row],
) -> Result<bool, Fail> {
    'rows: for &(turn, phase, live, last, granted) in rows.iter() {
        if !comes_so(alloc, c, settled, turn)? || !is_at(c, phase, live, last, granted) {
            return Ok(false);
        }
    }
    Ok(true)
}

// Whether the node c comes through these turns so.
fn runs_so(alloc: Global, rows: &[Row]) -> Result<bool, Fail> {
    let mut c = Singleton::new(alloc);
    let mut settled = Settled::none(alloc);
    rows_go(alloc, &mut c, &mut settled, rows)
}

fn waits_for(alloc: Global, settled: &Settled, needed: &[u8]) -> Result<bool, Fail> {
    let them = settled.needed(alloc, MARGIN)?;
    Ok(is_of(&them, needed))
}

// Whether a view of these standings has this oldest member, and waits for these.
fn waits_in(
    alloc: Global,
    settled: &mut Settled,
    standings: &[Standing],
    oldest: u8,
    needed: &[u8],
) -> Result<bool, Fail> {
    let noted = note_standings(alloc, settled, 2, standings)?;
    let has_oldest = letter(settled.candidate()) == oldest;
    Ok(noted && has_oldest && waits_for(alloc, settled, needed)?)
}

fn waits_so(
    alloc: Global,
    standings: &[Standing],
    oldest: u8,
    needed: &[u8],
) -> Result<bool, Fail> {
    let mut settled = Settled::none(alloc);
    waits_in(alloc, &mut settled, standings, oldest, needed)
}

#[test]
fn the_oldest_and_the_needed(rt: HostRuntime) -> Result<(), Fail> {
    assert!(rt; waits_so(rt.alloc(), &[TOMBSTONE, UP, UP], b'c', b"bcd")?);
    assert!(rt; waits_so(rt.alloc(), &[STOPPED, UP, UP], b'c', b"cd")?);
    Ok(())
}

static PROMISE_CASES: [Row; 12] = [
    (
        Turn::Note(2, &[TOMBSTONE, UP, UP]),
        Phase::Younger,
        0,
        0,
        b"",
    ),
    (
        Turn::Tick(Status::Up, b"bd", b"", 0),
        Phase::Asking,
        1,
        1,
        b"c",
    ),
    (Turn::Ask(1, b'd', Answer::Busy), Phase::Asking, 1, 1, b"c"),
    (Turn::Ask(1, b'b', Answer::Old), Phase::Asking, 1, 1, b"c"),
    (
        Turn::Ask(1, b'c', Answer::Granted),
        Phase::Asking,
        1,
        1,
        b"c",
    ),
    (Turn::Grant(b'd', 1, true), Phase::Asking, 1, 1, b"cd"),
    (Turn::Grant(b'd', 1, false), Phase::Asking, 1, 1, b"cd"),
    (Turn::Margin, Phase::Asking, 1, 1, b"cd"),
    (Turn::Margin, Phase::Asking, 1, 1, b"cd"),
    (Turn::Activate(false), Phase::Asking, 1, 1, b"cd"),
    (Turn::Margin, Phase::Asking, 1, 1, b"cd"),
    (Turn::Activate(true), Phase::Active, 1, 1, b"cd"),
];

#[test]
fn promise_cases(rt: HostRuntime) -> Result<(), Fail> {
    assert!(rt; runs_so(rt.alloc(), &PROMISE_CASES)?);
    Ok(())
}

static THE_FLOOR_HAS_TO_BE_SETTLED: [Row; 9] = [
    (Turn::Activate(false), Phase::Younger, 0, 0, b""),
    (Turn::Note(1, &[STOPPED, UP, UP]), Phase::Younger, 0, 0, b""),
    (
        Turn::Tick(Status::Up, b"d", b"", 0),
        Phase::Asking,
        1,
        1,
        b"c",
    ),
    (Turn::Grant(b'd', 1, true), Phase::Asking, 1, 1, b"cd"),
    (Turn::Activate(false), Phase::Asking, 1, 1, b"cd"),
    (
        Turn::Note(2, &[STOPPED, UP, UP]),
        Phase::Asking,
        1,
        1,
        b"cd",
    ),
    (Turn::Activate(true), Phase::Active, 1, 1, b"cd"),
    (
        Turn::Tick(Status::Up, b"", b"", 0),
        Phase::Active,
        1,
        1,
        b"cd",
    ),
    (Turn::End(1), Phase::Ended, 0, 1, b""),
];

#[test]
fn the_floor_has_to_be_settled(rt: HostRuntime) -> Result<(), Fail> {
    assert!(rt; runs_so(rt.alloc(), &THE_FLOOR_HAS_TO_BE_SETTLED)?);
    Ok(())
}

static AN_ASKING_WAITS_FOR_THE_LAST_BALLOT: [Row; 13] = [
    (
        Turn::Tick(Status::Up, b"", b"", 0),
        Phase::Younger,
        0,
        0,
        b"",
    ),
    (Turn::Note(1, &[UP, UP, UP]), Phase::Younger, 0, 0, b""),
    (
        Turn::Tick(Status::Up, b"", b"", 0),
        Phase::Younger,
        0,
        0,
        b"",
    ),
    (
        Turn::Ask(4, b'd', Answer::Granted),
        Phase::Younger,
        0,
        4,
        b"",
    ),
    (
        Turn::Note(2, &[TOMBSTONE, UP, UP]),
        Phase::Younger,
        0,
        4,
        b"",
    ),
    (
        Turn::Tick(Status::Exiting, b"", b"", 0),
        Phase::Younger,
        0,
        4,
        b"",
    ),
    (
        Turn::Tick(Status::Up, b"", b"", 4),
        Phase::Younger,
        0,
        4,
        b"",
    ),
    (Turn::Done(4, b'b', false), Phase::Younger, 0, 4, b""),
    (Turn::Done(4, b'd', true), Phase::Younger, 0, 4, b""),
    (
        Turn::Tick(Status::Leaving, b"bd", b"", 0),
        Phase::Asking,
        5,
        5,
        b"c",
    ),
    (Turn::Grant(b'd', 4, false), Phase::Asking, 5, 5, b"c"),
    (Turn::Grant(b'd', 5, true), Phase::Asking, 5, 5, b"cd"),
    (
        Turn::Tick(Status::Up, b"b", b"", 0),
        Phase::Asking,
        5,
        5,
        b"cd",
    ),
];

#[test]
fn an_asking_waits_for_the_last_ballot(rt: HostRuntime) -> Result<(), Fail> {
    assert!(rt; runs_so(rt.alloc(), &AN_ASKING_WAITS_FOR_THE_LAST_BALLOT)?);
    Ok(())
}

static AN_ASKING_IS_RENEWED_AND_CLOSED: [Row; 10] = [
    (Turn::Note(1, &[EXITING, UP, UP]), Phase::Younger, 0, 0, b""),
    (
        Turn::Tick(Status::Up, b"bd", b"", 0),
        Phase::Asking,
        1,
        1,
        b"c",
    ),
    (Turn::Grant(b'b', 1, true), Phase::Asking, 1, 1, b"bc"),
    (Turn::Old(1, 1, true), Phase::Asking, 2, 2, b"c"),
    (Turn::Old(1, 9, false), Phase::Asking, 2, 2, b"c"),
    (Turn::Old(2, 1, false), Phase::Asking, 2, 2, b"c"),
    (Turn::Old(2, 7, true), Phase::Asking, 8, 8, b"c"),
    (Turn::Note(2, &[UP, UP, UP]), Phase::Asking, 8, 8, b"c"),
    (
        Turn::Tick(Status::Up, b"", b"bd", 0),
        Phase::Younger,
        0,
        8,
        b"",
    ),
    (Turn::Release(8, b'c', true), Phase::Younger, 0, 8, b""),
];

#[test]
fn an_asking_is_renewed_and_closed(rt: HostRuntime) -> Result<(), Fail> {
    assert!(rt; runs_so(rt.alloc(), &AN_ASKING_IS_RENEWED_AND_CLOSED)?);
    Ok(())
}

static PHASES_END: [Row; 4] = [
    (Turn::Note(2, &[STOPPED, UP]), Phase::Younger, 0, 0, b""),
    (Turn::End(0), Phase::Ended, 0, 0, b""),
    (Turn::Tick(Status::Up, b"", b"", 0), Phase::Ended, 0, 0, b""),
    (Turn::End(0), Phase::Ended, 0, 0, b""),
];

#[test]
fn phases_end(rt: HostRuntime) -> Result<(), Fail> {
    assert!(rt; runs_so(rt.alloc(), &PHASES_END)?);
    Ok(())
}
