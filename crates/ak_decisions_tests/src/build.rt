// What the tests are made of, from letters and numbers.
use ak_address::{Address, Unique, Uniques, parse_address, parse_unique};
use ak_clock::Version;
use ak_member::{Members, Standing, Status};
use ak_promise::Ballot;
use ak_settled::Settled;
use std::alloc::{AllocError, Global};
use std::test::Fail;

// The process whose host is this letter.
pub(crate) fn process(alloc: Global, letter: u8) -> Result<Unique, Fail> {
    Ok(parse_unique(alloc, &[letter, b':', b'1', b'#', b'1'])?)
}

// The first letter of a process, 0 where there is none.
pub(crate) fn letter(who: Option<&Unique>) -> u8 {
    match who {
        Some(who) => who.address.host.bytes().first().copied().unwrap_or(0),
        None => 0,
    }
}

fn insert(alloc: Global, set: &mut Uniques, letter: u8) -> Result<(), Fail> {
    let who = process(alloc, letter)?;
    Ok(set.insert(alloc, &who)?)
}

pub(crate) fn set_of(alloc: Global, letters: &[u8]) -> Result<Uniques, Fail> {
    let mut set = Uniques::empty(alloc);
    'letters: for letter in letters {
        insert(alloc, &mut set, *letter)?;
    }
    Ok(set)
}

// Whether a set is of these letters.
pub(crate) fn is_of(set: &Uniques, letters: &[u8]) -> bool {
    for (index, &wanted) in letters.iter().enumerate() {
        if letter(set.at(index)) != wanted {
            return false;
        }
    }
    set.len() == letters.len()
}

// Port 1 of the hosts of these letters.
pub(crate) fn addresses_of(alloc: Global, letters: &[u8]) -> Result<Vec<Address>, Fail> {
    let mut addresses = Vec::new(alloc);
    'letters: for letter in letters {
        addresses.push(parse_address(alloc, &[*letter, b':', b'1'])?)?;
    }
    Ok(addresses)
}

fn stand(
    alloc: Global,
    members: &mut Members,
    who: &Unique,
    standing: Standing,
) -> Result<(), AllocError> {
    match standing {
        Standing::Member(status, number) => members.raise(alloc, who, status, number),
        Standing::Buried(confirmed) => members.bury(alloc, who, confirmed),
    }
}

// The process of this letter stands so.
pub(crate) fn stand_letter(
    alloc: Global,
    members: &mut Members,
    letter: u8,
    standing: Standing,
) -> Result<(), Fail> {
    let who = process(alloc, letter)?;
    Ok(stand(alloc, members, &who, standing)?)
}

// The members of these letters with these standings, as many as there are of both.
pub(crate) fn members_of(
    alloc: Global,
    letters: &[u8],
    standings: &[Standing],
) -> Result<Members, Fail> {
    let mut members = Members::empty(alloc);
    'letters: for (&letter, &standing) in letters.iter().zip(standings.iter()) {
        stand_letter(alloc, &mut members, letter, standing)?;
    }
    Ok(members)
}

static ALL_UP: [Standing; 8] = [Standing::Member(Status::Up, 1); 8];

// Up members of these letters, eight at most.
pub(crate) fn all_up(alloc: Global, letters: &[u8]) -> Result<Members, Fail> {
    members_of(alloc, letters, &ALL_UP)
}

fn reach(alloc: Global, version: &mut Version, count: u32) -> Result<(), Fail> {
    let a = process(alloc, b'a')?;
    Ok(version.reach(alloc, &a, u64::from(count))?)
}

// So many entries of a.
pub(crate) fn version(alloc: Global, count: u32) -> Result<Version, Fail> {
    let mut version = Version::empty(alloc);
    reach(alloc, &mut version, count)?;
    Ok(version)
}

pub(crate) fn ballot(alloc: Global, term: u32, letter: u8) -> Result<Ballot, Fail> {
    let unique = process(alloc, letter)?;
    let term = u64::from(term).max(1);
    Ok(Ballot { term, unique })
}

// Notes the view where its version covers the noted one.
fn note_view(
    alloc: Global,
    settled: &mut Settled,
    version: &Version,
    members: &Members,
) -> Result<bool, AllocError> {
    if version.covers(settled.version()) {
        settled.note(alloc, version, members)?;
        return Ok(true);
    }
    Ok(false)
}

// The same at so many entries of a.
pub(crate) fn note(
    alloc: Global,
    settled: &mut Settled,
    count: u32,
    members: &Members,
) -> Result<bool, Fail> {
    let version = version(alloc, count)?;
    Ok(note_view(alloc, settled, &version, members)?)
}
