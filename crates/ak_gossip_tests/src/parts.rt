use ak_address::{Address, Text, Unique, Uniques};
use ak_gossip::{Gossip, Indices, Part, Parts, parts_valid};
use ak_member::Status;
use std::alloc::{AllocError, Global};
use std::test::Fail;

// A part of the process with this uid, from 1 on.
#[derive(Clone, Copy)]
pub(crate) struct Line {
    pub(crate) uid: u32,
    pub(crate) count: u64,
    pub(crate) state: u8,
    pub(crate) up_number: u64,
    pub(crate) seen: bool,
    pub(crate) row_number: u64,
    pub(crate) subjects: &'static [u8],
}

// The process of this uid; 0 counts as 1.
pub(crate) fn process(alloc: Global, uid: u32) -> Result<Unique, AllocError> {
    let host = Text::from_bytes(alloc, b"a")?;
    let address = Address { host, port: 1 };
    let uid = u64::from(uid.max(1));
    Ok(Unique { address, uid })
}

fn indices(alloc: Global, list: &[u8]) -> Result<Indices, AllocError> {
    let mut indices = Vec::new(alloc);
    for index in list {
        indices.push(*index)?;
    }
    Ok(Indices::new(indices))
}

fn push_line(alloc: Global, line: Line, parts: &mut Parts) -> Result<(), AllocError> {
    let unique = process(alloc, line.uid)?;
    let subjects = indices(alloc, line.subjects)?;
    parts.push(Part {
        unique,
        count: line.count,
        state: line.state,
        up_number: line.up_number,
        seen: line.seen,
        row_number: line.row_number,
        subjects,
    })
}

fn parts(alloc: Global, lines: &[Line]) -> Result<Parts, AllocError> {
    let mut parts = Parts::empty(alloc);
    for line in lines {
        push_line(alloc, *line, &mut parts)?;
    }
    Ok(parts)
}

fn is_line(part: &Part, line: &Line) -> bool {
    let counts = part.count == line.count && part.row_number == line.row_number;
    let standing = part.state == line.state && part.up_number == line.up_number;
    let seen = part.seen == line.seen && part.subjects.as_slice() == line.subjects;
    part.unique.uid == u64::from(line.uid) && counts && standing && seen
}

fn are_lines(parts: &Parts, lines: &[Line]) -> bool {
    for (index, line) in lines.iter().enumerate() {
        match parts.at(index) {
            Some(part) => {
                if !is_line(part, line) {
                    return false;
                }
            }
            None => return false,
        }
    }
    parts.len() == lines.len()
}

fn valid(alloc: Global, lines: &[Line]) -> Result<bool, AllocError> {
    let parts = parts(alloc, lines)?;
    Ok(parts_valid(parts.as_slice()))
}

// The gossip of these lines, where they are valid, and else the empty one.
pub(crate) fn gossip(alloc: Global, lines: &[Line]) -> Result<Gossip, AllocError> {
    let parts = parts(alloc, lines)?;
    gossip_of(alloc, &parts)
}

fn gossip_of(alloc: Global, parts: &Parts) -> Result<Gossip, AllocError> {
    if parts_valid(parts.as_slice()) {
        return Gossip::from_parts(alloc, parts.as_slice());
    }
    Ok(Gossip::empty(alloc))
}

pub(crate) fn plain(uid: u32, state: u8, up_number: u64) -> Line {
    Line {
        uid,
        count: 3,
        state,
        up_number,
        seen: false,
        row_number: 0,
        subjects: &[],
    }
}

fn observer(uid: u32, row_number: u64, subjects: &'static [u8]) -> Line {
    Line {
        uid,
        count: 3,
        state: 2,
        up_number: 1,
        seen: true,
        row_number,
        subjects,
    }
}

pub(crate) fn counted(uid: u32, count: u64) -> Line {
    Line {
        uid,
        count,
        state: 1,
        up_number: 0,
        seen: false,
        row_number: 0,
        subjects: &[],
    }
}

pub(crate) fn seen(uid: u32, state: u8) -> Line {
    Line {
        uid,
        count: 3,
        state,
        up_number: 0,
        seen: true,
        row_number: 0,
        subjects: &[],
    }
}

fn lines() -> [Line; 6] {
    [
        observer(1, 2, &[1, 3]),
        plain(2, 6, 0),
        plain(3, 7, 0),
        seen(4, 1),
        counted(5, 0),
        plain(6, 8, 0),
    ]
}

fn has_uid(set: &Uniques, index: usize) -> u64 {
    match set.at(index) {
        Some(who) => who.uid,
        None => 0,
    }
}

// The number of the first row, and the uids of its subjects.
fn first_row(gossip: &Gossip) -> (u64, u64, u64, usize) {
    match gossip.rows().at(0) {
        Some((_, row)) => {
            let subjects = &row.subjects;
            (
                row.number,
                has_uid(subjects, 0),
                has_uid(subjects, 1),
                subjects.len(),
            )
        }
        None => (0, 0, 0, 0),
    }
}

// The status and the number of the member at an index.
fn member(gossip: &Gossip, index: usize) -> Option<(Status, u64)> {
    match gossip.members().at(index) {
        Some(member) => Some((member.status, member.up_number)),
        None => None,
    }
}

fn tombstone(gossip: &Gossip, index: usize) -> Option<(u64, bool)> {
    match gossip.members().buried_at(index) {
        Some(tombstone) => {
            let who = tombstone.unique;
            Some((who.uid, tombstone.confirmed))
        }
        None => None,
    }
}

#[test]
fn parts_come_back(rt: HostRuntime) -> Result<(), Fail> {
    let alloc = rt.alloc();
    let lines = lines();
    let gossip = gossip(alloc, &lines)?;
    let parts = gossip.to_parts(alloc)?;
    assert!(rt; are_lines(&parts, &lines));
    Ok(())
}

fn has_the_members(gossip: &Gossip) -> bool {
    let first = member(gossip, 0) == Some((Status::Up, 1));
    let second = member(gossip, 1) == Some((Status::Joining, 0));
    first && second && member(gossip, 3) == Some((Status::WeaklyUp, 0))
}

fn has_the_tombstones(gossip: &Gossip) -> bool {
    let first = tombstone(gossip, 0) == Some((2, false));
    first && tombstone(gossip, 1) == Some((3, true))
}

fn has_the_seen_set(gossip: &Gossip) -> bool {
    has_uid(gossip.seen(), 0) == 1 && has_uid(gossip.seen(), 1) == 4
}

const MANY: &[u8] = &[0, 1, 2, 3, 4, 5, 6, 7, 8, 9, 10, 11, 12, 13, 14, 15, 16];

// Observers of which two have the same subjects, and so many that are only counted after them.
fn observed_lines(alloc: Global, counted_too: u32) -> Result<Vec<Line>, AllocError> {
    let observers = [
        observer(1, 2, MANY),
        observer(2, 1, &[0]),
        observer(3, 3, MANY),
        observer(4, 1, &[]),
    ];
    let mut lines = observers.to_vec(alloc)?;
    for more in 0..counted_too {
        lines.push(counted(more.wrapping_add(5), 1))?;
    }
    Ok(lines)
}

#[test]
fn parts_with_many_subjects_come_back(rt: HostRuntime) -> Result<(), Fail> {
    let alloc = rt.alloc();
    let lines = observed_lines(alloc, 14)?;
    let gossip = gossip(alloc, &lines)?;
    let parts = gossip.to_parts(alloc)?;
    assert!(rt; are_lines(&parts, &lines));
    Ok(())
}

#[test]
fn a_gossip_is_made_of_parts(rt: HostRuntime) -> Result<(), Fail> {
    let gossip = gossip(rt.alloc(), &lines())?;
    assert!(rt; has_the_members(&gossip));
    assert!(rt; has_the_tombstones(&gossip));
    assert!(rt; first_row(&gossip) == (2, 2, 4, 2));
    assert!(rt; has_the_seen_set(&gossip));
    assert!(rt; gossip.version().len() == 5 && gossip.rows().len() == 1);
    Ok(())
}

fn all_valid(alloc: Global, cases: &[[Line; 2]]) -> Result<bool, AllocError> {
    'cases: for case in cases {
        if !valid(alloc, case)? {
            return Ok(false);
        }
    }
    Ok(true)
}

#[test]
fn valid_states_are_accepted(rt: HostRuntime) -> Result<(), Fail> {
    let cases = [
        [plain(1, 2, 1), plain(2, 1, 0)],
        [plain(1, 3, 9), plain(2, 4, 9)],
        [plain(1, 5, 0), plain(2, 5, 4611686018427387904)],
        [plain(1, 8, 0), seen(2, 8)],
    ];
    assert!(rt; all_valid(rt.alloc(), &cases)?);
    Ok(())
}

#[test]
fn valid_counts_and_rows_are_accepted(rt: HostRuntime) -> Result<(), Fail> {
    let cases = [
        [plain(1, 6, 0), plain(2, 7, 0)],
        [counted(1, 4611686018427387904), counted(2, 0)],
        [observer(1, 3, &[0, 1]), observer(2, 1, &[])],
    ];
    assert!(rt; all_valid(rt.alloc(), &cases)?);
    assert!(rt; valid(rt.alloc(), &[])?);
    Ok(())
}

// After a plain first part each of these is refused.
fn none_valid(alloc: Global, seconds: &[Line]) -> Result<bool, AllocError> {
    'seconds: for second in seconds {
        if valid(alloc, &[plain(1, 1, 0), *second])? {
            return Ok(false);
        }
    }
    Ok(true)
}

#[test]
fn other_states_are_refused(rt: HostRuntime) -> Result<(), Fail> {
    let seconds = [
        plain(2, 0, 0),
        plain(2, 8, 1),
        plain(2, 9, 0),
        plain(2, 2, 0),
        plain(2, 2, 4611686018427387905),
        plain(2, 1, 1),
        plain(2, 6, 1),
        seen(2, 6),
        counted(2, 4611686018427387905),
    ];
    assert!(rt; none_valid(rt.alloc(), &seconds)?);
    Ok(())
}

#[test]
fn other_rows_are_refused(rt: HostRuntime) -> Result<(), Fail> {
    let seconds = [
        observer(2, 4, &[]),
        observer(2, 0, &[0]),
        observer(2, 1, &[1, 0]),
        observer(2, 1, &[1, 1]),
        observer(2, 1, &[2]),
    ];
    assert!(rt; none_valid(rt.alloc(), &seconds)?);
    Ok(())
}

#[test]
fn parts_out_of_order_are_refused(rt: HostRuntime) -> Result<(), Fail> {
    assert!(rt; !valid(rt.alloc(), &[plain(2, 1, 0), plain(1, 1, 0)])?);
    assert!(rt; !valid(rt.alloc(), &[plain(1, 1, 0), plain(1, 1, 0)])?);
    Ok(())
}

// So many Joining processes, with uids from the first on.
fn many_parts(alloc: Global, first: u32, many: u32) -> Result<Parts, AllocError> {
    let mut parts = Parts::empty(alloc);
    for more in 0..many {
        push_line(alloc, plain(first.saturating_add(more), 1, 0), &mut parts)?;
    }
    Ok(parts)
}

fn many_valid(alloc: Global, many: u32) -> Result<bool, AllocError> {
    let parts = many_parts(alloc, 1, many)?;
    Ok(parts_valid(parts.as_slice()))
}

// The gossip of so many, where they are not too many, and else the empty one.
pub(crate) fn crowd(alloc: Global, first: u32, many: u32) -> Result<Gossip, AllocError> {
    let parts = many_parts(alloc, first, many)?;
    gossip_of(alloc, &parts)
}

#[test]
fn at_most_128_parts_are_valid(rt: HostRuntime) -> Result<(), Fail> {
    assert!(rt; many_valid(rt.alloc(), 128)?);
    assert!(rt; !many_valid(rt.alloc(), 129)?);
    Ok(())
}
