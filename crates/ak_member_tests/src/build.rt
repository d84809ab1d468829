// What the tests are made of, from texts.
use ak_address::{Address, Unique, Uniques, parse_address, parse_unique};
use ak_member::{Members, Standing};
use ak_reach::Rows;
use std::alloc::{AllocError, Global};
use std::test::Fail;

// A process, and what is known of it.
pub(crate) type Known = (&'static str, Standing);

// The row of an observer: its number, and its one subject.
pub(crate) type Seen = (&'static str, u64, &'static str);

fn insert(alloc: Global, set: &mut Uniques, text: &str) -> Result<(), Fail> {
    let who = parse_unique(alloc, text.as_bytes())?;
    Ok(set.insert(alloc, &who)?)
}

pub(crate) fn set_of(alloc: Global, texts: &[&str]) -> Result<Uniques, Fail> {
    let mut set = Uniques::empty(alloc);
    'texts: for text in texts {
        insert(alloc, &mut set, text)?;
    }
    Ok(set)
}

// The addresses of these texts.
pub(crate) fn addresses_of(alloc: Global, texts: &[&str]) -> Result<Vec<Address>, Fail> {
    let mut addresses = Vec::new(alloc);
    'texts: for text in texts {
        addresses.push(parse_address(alloc, text.as_bytes())?)?;
    }
    Ok(addresses)
}

fn set_row(alloc: Global, rows: &mut Rows, observer: &Unique, seen: &Seen) -> Result<(), Fail> {
    let subjects = set_of(alloc, &[seen.2])?;
    Ok(rows.set_row(alloc, observer, seen.1, &subjects)?)
}

fn see(alloc: Global, rows: &mut Rows, seen: &Seen) -> Result<(), Fail> {
    let observer = parse_unique(alloc, seen.0.as_bytes())?;
    set_row(alloc, rows, &observer, seen)
}

// The rows of these observers, set from the left.
pub(crate) fn rows_of(alloc: Global, all: &[Seen]) -> Result<Rows, Fail> {
    let mut rows = Rows::empty(alloc);
    'rows: for seen in all {
        see(alloc, &mut rows, seen)?;
    }
    Ok(rows)
}

// The standing of this process is noted.
pub(crate) fn note(
    alloc: Global,
    members: &mut Members,
    who: &Unique,
    standing: Standing,
) -> Result<(), AllocError> {
    match standing {
        Standing::Member(status, number) => members.raise(alloc, who, status, number),
        Standing::Buried(confirmed) => members.bury(alloc, who, confirmed),
    }
}

fn note_text(
    alloc: Global,
    members: &mut Members,
    text: &str,
    standing: Standing,
) -> Result<(), Fail> {
    let who = parse_unique(alloc, text.as_bytes())?;
    Ok(note(alloc, members, &who, standing)?)
}

// The members of these processes with their standings, noted from the left.
pub(crate) fn members_of(alloc: Global, all: &[(&str, Standing)]) -> Result<Members, Fail> {
    let mut members = Members::empty(alloc);
    'all: for &(text, standing) in all {
        note_text(alloc, &mut members, text, standing)?;
    }
    Ok(members)
}

// The first letter of a process, 0 where there is none.
pub(crate) fn letter(who: Option<&Unique>) -> u8 {
    match who {
        Some(who) => who.address.host.bytes().first().copied().unwrap_or(0),
        None => 0,
    }
}
