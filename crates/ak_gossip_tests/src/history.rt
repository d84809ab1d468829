use ak_address::{Unique, Uniques, parse_unique};
use ak_clock::{BOUND, Version};
use ak_history::{History, View};
use ak_member::{Effect, Effects, Status};
use std::alloc::{AllocError, Global};
use std::test::Fail;

fn joined(alloc: Global, who: &str) -> Result<Effect, Fail> {
    Ok(Effect::Joined(parse_unique(alloc, who.as_bytes())?))
}

fn down(alloc: Global, who: &str) -> Result<Effect, Fail> {
    let who = parse_unique(alloc, who.as_bytes())?;
    Ok(Effect::Rise(who, Status::Down, 0))
}

fn removed(alloc: Global, who: &str) -> Result<Effect, Fail> {
    Ok(Effect::Removed(parse_unique(alloc, who.as_bytes())?, false))
}

fn insert(alloc: Global, subjects: &mut Uniques, subject: &str) -> Result<(), Fail> {
    let subject = parse_unique(alloc, subject.as_bytes())?;
    Ok(subjects.insert(alloc, &subject)?)
}

fn observed(alloc: Global, subject: &str) -> Result<Effect, Fail> {
    let mut subjects = Uniques::empty(alloc);
    insert(alloc, &mut subjects, subject)?;
    Ok(Effect::Observed(subjects))
}

fn one(alloc: Global, effect: Effect) -> Result<Effects, AllocError> {
    let mut effects = Effects::empty(alloc);
    effects.push(effect)?;
    Ok(effects)
}

// An entry of this author: the effects are made after all else that may fail, and so are owned on one path.
fn push(
    alloc: Global,
    history: &mut History,
    author: &Unique,
    effects: Effects,
) -> Result<(), Fail> {
    history.push(alloc, author, effects)?;
    Ok(())
}

// `a` joins itself and then `b`, and `b` takes `a` down.
fn push_three(
    alloc: Global,
    history: &mut History,
    first: &Unique,
    second: &Unique,
) -> Result<(), Fail> {
    push(alloc, history, first, one(alloc, joined(alloc, "a:1#1")?)?)?;
    push(alloc, history, first, one(alloc, joined(alloc, "b:1#1")?)?)?;
    push(alloc, history, second, one(alloc, down(alloc, "a:1#1")?)?)
}

fn push_entries(alloc: Global, history: &mut History) -> Result<(), Fail> {
    let first = parse_unique(alloc, b"a:1#1")?;
    let second = parse_unique(alloc, b"b:1#1")?;
    push_three(alloc, history, &first, &second)
}

fn three_entries(alloc: Global) -> Result<History, Fail> {
    let mut history = History::empty(alloc);
    push_entries(alloc, &mut history)?;
    Ok(history)
}

// `b` is removed, and two are observed in turn: `a`, and then `b`.
fn push_observations(alloc: Global, effects: &mut Effects) -> Result<(), Fail> {
    effects.push(removed(alloc, "b:1#1")?)?;
    effects.push(observed(alloc, "a:1#1")?)?;
    effects.push(observed(alloc, "b:1#1")?)?;
    Ok(())
}

fn observations(alloc: Global) -> Result<Effects, Fail> {
    let mut effects = Effects::empty(alloc);
    push_observations(alloc, &mut effects)?;
    Ok(effects)
}

// `a` joins itself, and its second entry removes `b` and observes twice: itself, and then `b`.
fn push_two(alloc: Global, history: &mut History) -> Result<(), Fail> {
    let author = parse_unique(alloc, b"a:1#1")?;
    push(
        alloc,
        history,
        &author,
        one(alloc, joined(alloc, "a:1#1")?)?,
    )?;
    push(alloc, history, &author, observations(alloc)?)
}

fn two_entries(alloc: Global) -> Result<History, Fail> {
    let mut history = History::empty(alloc);
    push_two(alloc, &mut history)?;
    Ok(history)
}

fn reach(alloc: Global, version: &mut Version, who: &[u8], count: u64) -> Result<(), Fail> {
    let who = parse_unique(alloc, who)?;
    Ok(version.reach(alloc, &who, count.min(BOUND))?)
}

// The version that counts this many entries of `a` and of `b`.
fn version(alloc: Global, counts: (u64, u64)) -> Result<Version, Fail> {
    let mut version = Version::empty(alloc);
    reach(alloc, &mut version, b"a:1#1", counts.0)?;
    reach(alloc, &mut version, b"b:1#1", counts.1)?;
    Ok(version)
}

// What that version shows.
fn shown(alloc: Global, history: &History, counts: (u64, u64)) -> Result<View, Fail> {
    let version = version(alloc, counts)?;
    Ok(history.view(alloc, &version)?)
}

// The letter of the author's host and the number of the entry at an index; zeros past the end.
fn entry(history: &History, index: usize) -> (u8, u64) {
    match history.at(index) {
        Some(entry) => (letter(&entry.author), entry.number),
        None => (0, 0),
    }
}

fn letter(who: &Unique) -> u8 {
    match who.address.host.bytes().first() {
        Some(byte) => *byte,
        None => 0,
    }
}

// The rank of the status of a member at an index, with the letter of its host; zeros past the end.
fn member(view: &View, index: usize) -> (u8, u8) {
    match view.members.at(index) {
        Some(member) => (letter(member.unique), member.status.rank()),
        None => (0, 0),
    }
}

// The observer, the number and the first subject of the row at an index; zeros past the end.
fn row(view: &View, index: usize) -> (u8, u64, u8) {
    match view.rows.at(index) {
        Some((observer, row)) => (letter(observer), row.number, first_of(&row.subjects)),
        None => (0, 0, 0),
    }
}

fn first_of(set: &Uniques) -> u8 {
    match set.at(0) {
        Some(who) => letter(who),
        None => 0,
    }
}

// The letter of the first tombstone, and whether it is confirmed.
fn tombstone(view: &View) -> (u8, bool) {
    match view.members.buried_at(0) {
        Some(tombstone) => (letter(tombstone.unique), tombstone.confirmed),
        None => (0, false),
    }
}

fn count_by_author(history: &History) -> bool {
    let first = entry(history, 0) == (b'a', 1) && entry(history, 1) == (b'a', 2);
    let second = entry(history, 2) == (b'b', 1) && entry(history, 3) == (0, 0);
    history.len() == 3 && first && second
}

#[test]
fn each_author_counts_its_own(rt: HostRuntime) -> Result<(), Fail> {
    assert!(rt; count_by_author(&three_entries(rt.alloc())?));
    Ok(())
}

// Whether there are two members, `b` Joining, and the status of `a` has this rank.
fn has_two_members(view: &View, rank: u8) -> bool {
    let first = member(view, 0) == (b'a', rank);
    first && member(view, 1) == (b'b', 1) && member(view, 2) == (0, 0)
}

fn shows_members(
    alloc: Global,
    history: &History,
    counts: (u64, u64),
    rank: u8,
) -> Result<bool, Fail> {
    Ok(has_two_members(&shown(alloc, history, counts)?, rank))
}

#[test]
fn versions_show_what_they_cover(rt: HostRuntime) -> Result<(), Fail> {
    let history = three_entries(rt.alloc())?;
    assert!(rt; shows_members(rt.alloc(), &history, (2, 0), 1)?);
    assert!(rt; shows_members(rt.alloc(), &history, (2, 1), 6)?);
    Ok(())
}

fn has_no_row(view: &View) -> bool {
    row(view, 0) == (0, 0, 0) && tombstone(view) == (0, false)
}

fn has_the_last_row(view: &View) -> bool {
    let rows = row(view, 0) == (b'a', 2, b'b') && row(view, 1) == (0, 0, 0);
    rows && tombstone(view) == (b'b', false)
}

#[test]
fn the_last_observation_counts(rt: HostRuntime) -> Result<(), Fail> {
    let history = two_entries(rt.alloc())?;
    assert!(rt; has_no_row(&shown(rt.alloc(), &history, (1, 0))?));
    assert!(rt; has_the_last_row(&shown(rt.alloc(), &history, (2, 0))?));
    Ok(())
}
