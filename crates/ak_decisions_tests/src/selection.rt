use crate::build::{all_up, letter, process, set_of};
use ak_address::{Unique, Uniques};
use ak_member::Members;
use ak_reach::Rows;
use ak_select::peer;
use std::alloc::Global;
use std::test::Fail;

fn set_row(alloc: Global, rows: &mut Rows, observer: &Unique, subjects: &[u8]) -> Result<(), Fail> {
    let subjects = set_of(alloc, subjects)?;
    Ok(rows.set_row(alloc, observer, 1, &subjects)?)
}

// The row of b has these subjects.
fn rows_of(alloc: Global, subjects: &[u8]) -> Result<Rows, Fail> {
    let mut rows = Rows::empty(alloc);
    let b = process(alloc, b'b')?;
    set_row(alloc, &mut rows, &b, subjects)?;
    Ok(rows)
}

// Whom a chooses by a word among these.
fn chosen(
    alloc: Global,
    word: u32,
    members: &Members,
    rows: &Rows,
    seen: &Uniques,
) -> Result<u8, Fail> {
    let me = process(alloc, b'a')?;
    Ok(letter(peer(word, members, rows, seen, &me)))
}

// A word, and the letter of whom it chooses; 0 where there is nobody.
type Choice = (u32, u8);

fn chooses(
    alloc: Global,
    choices: &[Choice],
    members: &Members,
    rows: &Rows,
    seen: &Uniques,
) -> Result<bool, Fail> {
    'choices: for (word, wanted) in choices {
        if chosen(alloc, *word, members, rows, seen)? != *wanted {
            return Ok(false);
        }
    }
    Ok(true)
}

fn chooses_over(
    alloc: Global,
    choices: &[Choice],
    rows: &Rows,
    seen: &Uniques,
) -> Result<bool, Fail> {
    let members = all_up(alloc, b"abcd")?;
    chooses(alloc, choices, &members, rows, seen)
}

// Whether a, of the Up members a to d, chooses so where these are unreachable and these have seen.
fn chooses_so(
    alloc: Global,
    unreachable: &[u8],
    seen: &[u8],
    choices: &[Choice],
) -> Result<bool, Fail> {
    let rows = rows_of(alloc, unreachable)?;
    let seen = set_of(alloc, seen)?;
    chooses_over(alloc, choices, &rows, &seen)
}

static OF_ALL: [Choice; 5] = [
    (0, b'b'),
    (1, b'c'),
    (2, b'd'),
    (3, b'b'),
    (4294967295, b'b'),
];

static OF_C_AND_D: [Choice; 3] = [(0, b'c'), (1, b'd'), (2, b'c')];

#[test]
fn the_word_chooses_who_has_not_seen(rt: HostRuntime) -> Result<(), Fail> {
    assert!(rt; chooses_so(rt.alloc(), b"", b"", &OF_ALL)?);
    assert!(rt; chooses_so(rt.alloc(), b"", b"abcd", &OF_ALL)?);
    assert!(rt; chooses_so(rt.alloc(), b"", b"ab", &OF_C_AND_D)?);
    Ok(())
}

static OF_B_AND_D: [Choice; 3] = [(0, b'b'), (1, b'd'), (2, b'b')];

static OF_NOBODY: [Choice; 1] = [(5, 0)];

#[test]
fn an_unreachable_member_is_not_chosen(rt: HostRuntime) -> Result<(), Fail> {
    assert!(rt; chooses_so(rt.alloc(), b"c", b"", &OF_B_AND_D)?);
    assert!(rt; chooses_so(rt.alloc(), b"bcd", b"", &OF_NOBODY)?);
    Ok(())
}
