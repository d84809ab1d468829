use crate::build::{is_of, letter, members_of, note, process};
use ak_member::{Standing, Status};
use ak_settled::Settled;
use std::alloc::Global;
use std::test::Fail;

const JOINING: Standing = Standing::Member(Status::Joining, 0);

const WEAKLY_UP: Standing = Standing::Member(Status::WeaklyUp, 0);

const UP: Standing = Standing::Member(Status::Up, 1);

const UNCONFIRMED: Standing = Standing::Buried(false);

const CONFIRMED: Standing = Standing::Buried(true);

const MARGIN: u32 = 3;

// What happens to the settled view.
#[derive(Clone, Copy)]
enum Turn {
    Tick,
    // It is noted at so many entries of a, with these standings of a, b, c and so on.
    Note(u32, &'static [Standing]),
}

// Notes these standings of a, b, c and so on where the version covers the noted one.
fn note_standings(
    alloc: Global,
    settled: &mut Settled,
    count: u32,
    standings: &[Standing],
) -> Result<(), Fail> {
    let members = members_of(alloc, b"abcdefgh", standings)?;
    note(alloc, settled, count, &members)?;
    Ok(())
}

fn take(alloc: Global, settled: &mut Settled, turn: Turn) -> Result<(), Fail> {
    match turn {
        Turn::Tick => {
            settled.tick(MARGIN);
            Ok(())
        }
        Turn::Note(count, standings) => note_standings(alloc, settled, count, standings),
    }
}

fn is_finished(alloc: Global, settled: &Settled, letter: u8) -> Result<bool, Fail> {
    let who = process(alloc, letter)?;
    Ok(settled.finished(&who, MARGIN))
}

fn are_finished(alloc: Global, settled: &Settled, letters: &[u8]) -> Result<bool, Fail> {
    'letters: for letter in letters {
        if !is_finished(alloc, settled, *letter)? {
            return Ok(false);
        }
    }
    Ok(true)
}

// Whether these are needed, and those finished.
fn sees(alloc: Global, settled: &Settled, needed: &[u8], finished: &[u8]) -> Result<bool, Fail> {
    let them = settled.needed(alloc, MARGIN)?;
    Ok(is_of(&them, needed) && are_finished(alloc, settled, finished)?)
}

// Whether no view is noted, and nobody is needed or finished.
fn is_at_first(alloc: Global, settled: &Settled) -> Result<bool, Fail> {
    let nobody = !settled.exists() && settled.candidate().is_none();
    let nothing = settled.version().len() == 0 && settled.members().uniques() == 0;
    Ok(nobody && nothing && sees(alloc, settled, b"", b"")?)
}

#[test]
fn nothing_is_noted_at_first(rt: HostRuntime) -> Result<(), Fail> {
    let settled = Settled::none(rt.alloc());
    assert!(rt; is_at_first(rt.alloc(), &settled)?);
    Ok(())
}

// A turn, whose counter it ends, and who is needed and who finished then.
type Line = (Turn, u8, &'static [u8], &'static [u8]);

static COUNTED: [Line; 8] = [
    (
        Turn::Note(1, &[UP, UNCONFIRMED, CONFIRMED, JOINING]),
        0,
        b"ab",
        b"c",
    ),
    (Turn::Tick, 0, b"ab", b"c"),
    (Turn::Tick, 0, b"ab", b"c"),
    (
        Turn::Note(2, &[UP, UNCONFIRMED, CONFIRMED, WEAKLY_UP, UNCONFIRMED]),
        0,
        b"abde",
        b"c",
    ),
    (Turn::Tick, b'b', b"ade", b"bc"),
    (Turn::Tick, 0, b"ade", b"bc"),
    (Turn::Tick, b'e', b"ad", b"bce"),
    (Turn::Tick, 0, b"ad", b"bce"),
];

fn goes_so(alloc: Global, settled: &mut Settled, line: &Line) -> Result<bool, Fail> {
    let (turn, ended, needed, finished) = line;
    take(alloc, settled, *turn)?;
    Ok(letter(settled.just_ended(0)) == *ended && sees(alloc, settled, needed, finished)?)
}

#[test]
fn counters_run_to_the_margin(rt: HostRuntime) -> Result<(), Fail> {
    let mut settled = Settled::none(rt.alloc());
    for (index, line) in COUNTED.iter().enumerate() {
        assert!(rt; goes_so(rt.alloc(), &mut settled, line)?, "{index}");
    }
    assert_eq!(rt; letter(settled.candidate()), b'a');
    Ok(())
}
