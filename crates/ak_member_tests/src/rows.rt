use crate::build::{Seen, letter, rows_of, set_of};
use ak_address::{Uniques, parse_unique};
use ak_reach::Rows;
use std::alloc::Global;
use std::test::Fail;

// The observer, the number and the first subject at an index, zeros past the end.
fn row(rows: &Rows, index: usize) -> (u8, u64, u8) {
    match rows.at(index) {
        Some((observer, row)) => (
            letter(Some(observer)),
            row.number,
            letter(row.subjects.at(0)),
        ),
        None => (0, 0, 0),
    }
}

// Whether the first two indices have these rows.
fn hold(rows: &Rows, first: (u8, u64, u8), second: (u8, u64, u8)) -> bool {
    row(rows, 0) == first && row(rows, 1) == second
}

// Whether of this row and a first one with number 2 the wanted one stays.
fn keep(alloc: Global, number: u64, wanted: (u8, u64, u8)) -> Result<bool, Fail> {
    let lines = [("a:1#1", 2, "c:1#1"), ("a:1#1", number, "d:1#1")];
    Ok(hold(&rows_of(alloc, &lines)?, wanted, (0, 0, 0)))
}

#[test]
fn the_greater_number_stays(rt: HostRuntime) -> Result<(), Fail> {
    for (number, wanted) in [
        (1, (b'a', 2, b'c')),
        (2, (b'a', 2, b'c')),
        (5, (b'a', 5, b'd')),
    ] {
        assert!(rt; keep(rt.alloc(), number, wanted)?, "{number}");
    }
    Ok(())
}

fn copy_of(alloc: Global, lines: &[Seen]) -> Result<Rows, Fail> {
    let rows = rows_of(alloc, lines)?;
    Ok(rows.copy(alloc)?)
}

fn merge_in(alloc: Global, both: &mut Rows, lines: &[Seen]) -> Result<(), Fail> {
    let other = rows_of(alloc, lines)?;
    Ok(both.merge(alloc, &other)?)
}

// Whether the rows of the two merge to those with the greater number.
fn merge(alloc: Global, left: &[Seen], right: &[Seen]) -> Result<bool, Fail> {
    let mut both = copy_of(alloc, left)?;
    merge_in(alloc, &mut both, right)?;
    Ok(hold(&both, (b'a', 3, b'd'), (b'b', 4, b'e')))
}

#[test]
fn rows_are_merged(rt: HostRuntime) -> Result<(), Fail> {
    let left = [("a:1#1", 2, "c:1#1"), ("b:1#1", 4, "e:1#1")];
    let right = [("a:1#1", 3, "d:1#1")];
    assert!(rt; merge(rt.alloc(), &left, &right)?);
    assert!(rt; merge(rt.alloc(), &right, &left)?);
    Ok(())
}

// Whether one of the observers has the subject in its row.
fn reported(alloc: Global, rows: &Rows, observers: &[&str], subject: &str) -> Result<bool, Fail> {
    let observers = set_of(alloc, observers)?;
    let subject = parse_unique(alloc, subject.as_bytes())?;
    Ok(rows.reported(&observers, &subject))
}

// Observers, a subject, and whether one of them has it in its row.
static REPORTED: [(&[&str], &str, bool); 4] = [
    (&["a:1#1", "b:1#1", "e:1#1"], "c:1#1", true),
    (&["a:1#1", "b:1#1", "e:1#1"], "d:1#1", true),
    (&["a:1#1", "b:1#1", "e:1#1"], "f:1#1", false),
    (&["a:1#1", "e:1#1"], "d:1#1", false),
];

fn are_reported(alloc: Global, rows: &Rows) -> Result<bool, Fail> {
    'cases: for (observers, subject, wanted) in &REPORTED {
        if reported(alloc, rows, observers, subject)? != *wanted {
            return Ok(false);
        }
    }
    Ok(true)
}

// Whether of these subjects the observers find c unreachable, and nobody else.
fn find_c(
    alloc: Global,
    rows: &Rows,
    observers: &Uniques,
    subjects: &Uniques,
) -> Result<bool, Fail> {
    let them = rows.unreachable(alloc, observers, subjects)?;
    Ok(letter(them.at(0)) == b'c' && letter(them.at(1)) == 0)
}

// The same of a alone and of three subjects.
fn finds_c(alloc: Global, rows: &Rows) -> Result<bool, Fail> {
    let observers = set_of(alloc, &["a:1#1"])?;
    let subjects = set_of(alloc, &["c:1#1", "d:1#1", "e:1#1"])?;
    find_c(alloc, rows, &observers, &subjects)
}

// The observer a has c in its row, and b has d.
#[test]
fn one_observer_is_enough(rt: HostRuntime) -> Result<(), Fail> {
    let rows = rows_of(rt.alloc(), &[("a:1#1", 1, "c:1#1"), ("b:1#1", 1, "d:1#1")])?;
    assert!(rt; are_reported(rt.alloc(), &rows)?);
    assert!(rt; finds_c(rt.alloc(), &rows)?);
    Ok(())
}
