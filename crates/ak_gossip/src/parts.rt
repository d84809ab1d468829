ghost use Rattle.std.specs.Prelude.{◌≡◌, ◌↔◌, ◌≤◌, ◌++◌, ℕ, [], Some, None, IsTrue, IfOk, OnOk, length, slice_get, option_copied, option_to_list, if◌then◌else◌};
ghost use Rattle.std.specs.FinMap as map;
ghost use Rattle.ak_address.specs.Uniques.{no_one, with_one};
ghost use Rattle.ak_member.specs.Standing.{nobody};
ghost use Rattle.ak_clock.specs.declared.version.TheConstants.{BOUND};
ghost use Rattle.ak_gossip.specs.Gossip.{GossipState, IsGossip, IsNumber, most_uniques};
ghost use Rattle.ak_gossip.specs.Parts.{state_of_status, state_of, number_of, row_number_of, indices_of, subjects_of, part_of, parts_of, IsState, IsPart, AreParts};
ghost use Rattle.ak_gossip.specs.PartsWalk.{standing_of, ascend_from, is_above, ascend_after, index_among, with_counts, with_known, with_standings, with_seen, with_process, with_indices, with_part_row, with_part_rows};

use crate::cursor::Cursor;
use crate::gossip::{Gossip, MOST_UNIQUES};
use crate::known::{Known, Tables};
use crate::part::{Indices, Part, Parts};
use ak_address::{Unique, Uniques};
use ak_clock::{BOUND, Version};
use ak_member::{Members, Standing, Status};
use ak_reach::{Row, Rows};
use std::alloc::{AllocError, Global};

impl Gossip {
    /// The gossip as parts, one for each process, in the order of processes; they are valid. Only memory can fail.
    pub fn to_parts(&self, alloc: Global) -> Result<Parts, AllocError>
        ensures parts { IfOk result (λ parts. parts ≡ parts_of self.now) }
        ensures valid { IfOk result (λ parts. AreParts parts) }
    {
        let members = self.known.members();
        let mut parts = Parts::with_capacity(alloc, members.uniques())?;
        let mut cursor = Cursor::start();
        'indices: for index in 0..members.uniques() {
            if let Some((who, standing)) = members.pair(index) {
                let part = self.part_of(alloc, who, standing, &mut cursor)?;
                parts.push(part)?;
            }
        }
        Ok(parts)
    }

    // The part of a process that has this standing.
    fn part_of(
        &self,
        alloc: Global,
        who: &Unique,
        standing: Standing,
        cursor: &mut Cursor,
    ) -> Result<Part, AllocError>
        ensures { IfOk result (λ part. part ≡ part_of self.now (who.now, standing)) }
    {
        let unique = who.copy(alloc)?;
        let row = cursor.row(self.known.rows(), who);
        let subjects = subjects_of(alloc, row, self.known.members())?;
        Ok(Part {
            unique,
            count: cursor.count(self.known.version(), who),
            state: state_of(standing),
            up_number: number_of(standing),
            seen: cursor.has_seen(self.known.seen(), who),
            row_number: row_number_of(row),
            subjects,
        })
    }

    /// The gossip of these parts: of the parts of a gossip that gossip again. Only memory can fail.
    pub fn from_parts(alloc: Global, parts: &[Part]) -> Result<Gossip, AllocError>
        requires { AreParts parts.now }
        ensures parts { IfOk result (λ gossip. parts_of gossip ≡ parts.now) }
        ensures back { IfOk result (λ gossip. (g : GossipState) → IsGossip g → parts_of g ≡ parts.now → gossip ≡ g) }
    {
        let version = version_of(alloc, parts)?;
        let members = members_of(alloc, parts)?;
        let rows = rows_of(alloc, parts)?;
        let seen = seen_of(alloc, parts)?;
        let tables = Tables {
            version,
            members,
            rows,
        };
        let known = Known::of_tables(alloc, tables, seen)?;
        Ok(Gossip { known })
    }
}

/// Whether the parts keep the ranges and the order of a gossip's parts (this project's choice): at most 128 of them,
/// their processes ascending; a count at most 4611686018427387904; a state from 1 to 8, an up number that is 0 while
/// Joining or WeaklyUp and of a tombstone, from 1 to the greatest count of an Up, Leaving or Exiting member, and up to it of
/// one that is Down; seen by members alone; a row's number at most the count; without a row no subjects, and else indices of
/// parts that ascend. Takes no memory.
pub fn parts_valid(parts: &[Part]) -> bool
    ensures { IsTrue result ↔ AreParts parts.now }
{
    if parts.len() > MOST_UNIQUES || !each_valid(parts) {
        return false;
    }
    uniques_ascend(parts)
}

fn each_valid(parts: &[Part]) -> bool
    ensures { IsTrue result ↔ ((i : ℕ) (part : Part) → slice_get parts.now i ≡ Some part → IsPart (length parts.now) part) }
{
    let many = parts.len();
    'parts: for part in parts {
        if !part_valid(many, part) {
            return false;
        }
    }
    true
}

// Whether a part is one of so many that are in their ranges.
fn part_valid(many: usize, part: &Part) -> bool
    ensures { IsTrue result ↔ IsPart many part.now }
{
    if part.count > BOUND || !state_valid(part.state, part.up_number, part.seen) {
        return false;
    }
    row_valid(part) && indices_ascend(part.subjects.as_slice(), many)
}

// Whether there is a standing of this state and number, which may have seen a gossip where it has.
fn state_valid(state: u8, up_number: u64, seen: bool) -> bool
    ensures { IsTrue result ↔ IsState state up_number seen }
{
    match standing_of(state, up_number) {
        Some(Standing::Member(status, number)) => number_valid(status, number),
        Some(Standing::Buried(_)) => up_number == 0 && !seen,
        None => false,
    }
}

// The standing of a state, with this number where it is a member's.
fn standing_of(state: u8, up_number: u64) -> Option<Standing>
    ensures { result ≡ standing_of state up_number }
{
    match state {
        1 => Some(Standing::Member(Status::Joining, up_number)),
        2 => Some(Standing::Member(Status::Up, up_number)),
        3 => Some(Standing::Member(Status::Leaving, up_number)),
        4 => Some(Standing::Member(Status::Exiting, up_number)),
        5 => Some(Standing::Member(Status::Down, up_number)),
        6 => Some(Standing::Buried(false)),
        7 => Some(Standing::Buried(true)),
        8 => Some(Standing::Member(Status::WeaklyUp, up_number)),
        _ => None,
    }
}

fn number_valid(status: Status, number: u64) -> bool
    ensures { IsTrue result ↔ IsNumber status number }
{
    match status {
        Status::Joining => number == 0,
        Status::WeaklyUp => number == 0,
        Status::Up => 1 <= number && number <= BOUND,
        Status::Leaving => 1 <= number && number <= BOUND,
        Status::Exiting => 1 <= number && number <= BOUND,
        Status::Down => number <= BOUND,
    }
}

// Whether a row is of an entry that is counted, and no row has no subjects.
fn row_valid(part: &Part) -> bool
    ensures { IsTrue result ↔ ((part.now.row_number ≤ part.now.count) × (part.now.row_number ≡ 0 → part.now.subjects ≡ [])) }
{
    if part.row_number > part.count {
        return false;
    }
    part.row_number > 0 || part.subjects.as_slice().is_empty()
}

// Whether the indices ascend below the end.
fn indices_ascend(indices: &[u8], end: usize) -> bool
    ensures { result ≡ ascend_from 0 end indices.now }
{
    let mut least = 0;
    'indices: for index in indices {
        let index = usize::from(*index);
        if index < least || end <= index {
            return false;
        }
        least = index + 1;
    }
    true
}

// Whether the processes of the parts ascend.
fn uniques_ascend(parts: &[Part]) -> bool
    ensures { result ≡ ascend_after None parts.now }
{
    let mut last = None;
    'parts: for part in parts {
        if !is_above(last, &part.unique) {
            return false;
        }
        last = Some(&part.unique);
    }
    true
}

// Whether the process is above the last one, where there is one.
fn is_above(last: Option<&Unique>, who: &Unique) -> bool
    ensures { result ≡ is_above (option_copied last.entry) who.now }
{
    match last {
        Some(last) => last.compare(who).is_lt(),
        None => true,
    }
}

fn state_of(standing: Standing) -> u8
    ensures { result ≡ state_of standing }
{
    match standing {
        Standing::Member(status, _) => state_of_status(status),
        Standing::Buried(false) => 6,
        Standing::Buried(true) => 7,
    }
}

fn state_of_status(status: Status) -> u8
    ensures { result ≡ state_of_status status }
{
    match status {
        Status::Joining => 1,
        Status::WeaklyUp => 8,
        Status::Up => 2,
        Status::Leaving => 3,
        Status::Exiting => 4,
        Status::Down => 5,
    }
}

fn number_of(standing: Standing) -> u64
    ensures { result ≡ number_of standing }
{
    match standing {
        Standing::Member(_, up_number) => up_number,
        Standing::Buried(_) => 0,
    }
}

// The number of a row, 0 where there is none.
fn row_number_of(row: Option<&Row>) -> u64
    ensures { result ≡ row_number_of (option_copied row.entry) }
{
    match row {
        Some(row) => row.number,
        None => 0,
    }
}

// The indices of a row's subjects among all that are known; no index where there is no row.
fn subjects_of(alloc: Global, row: Option<&Row>, everybody: &Members) -> Result<Indices, AllocError>
    requires { map.len everybody.now ≤ most_uniques }
    ensures { IfOk result (λ indices. indices ≡ subjects_of (option_copied row.entry) (map.keys everybody.now)) }
{
    match row {
        Some(row) => indices_of(alloc, &row.subjects, everybody),
        None => Ok(Indices::empty(alloc)),
    }
}

// The indices of those that are in the set, among all that are known.
fn indices_of(alloc: Global, set: &Uniques, everybody: &Members) -> Result<Indices, AllocError>
    requires { map.len everybody.now ≤ most_uniques }
    ensures { IfOk result (λ indices. indices ≡ indices_of set.now 0 (map.keys everybody.now)) }
{
    let mut indices = Indices::with_capacity(alloc, set.len())?;
    'subjects: for place in 0..set.len() {
        if let Some(who) = set.at(place) {
            push_index(everybody, who, &mut indices)?;
        }
    }
    Ok(indices)
}

// Appends the index of a process among all that are known, where it is known.
fn push_index(everybody: &Members, who: &Unique, indices: &mut Indices) -> Result<(), AllocError>
    requires { map.len everybody.now ≤ most_uniques }
    ensures { OnOk result (indices.new ≡ indices.old ++ option_to_list (index_among everybody.now who.now)) }
{
    match everybody.place(who) {
        Ok(index) => indices.push(index as u8),
        Err(_) => Ok(()),
    }
}

fn version_of(alloc: Global, parts: &[Part]) -> Result<Version, AllocError>
    requires { AreParts parts.now }
    ensures { IfOk result (λ version. version ≡ with_counts map.empty parts.now) }
{
    let mut version = Version::with_capacity(alloc, parts.len())?;
    'parts: for part in parts {
        version.reach(alloc, &part.unique, part.count)?;
    }
    Ok(version)
}

fn members_of(alloc: Global, parts: &[Part]) -> Result<Members, AllocError>
    ensures { IfOk result (λ members. members ≡ with_standings nobody parts.now) }
{
    let mut members = Members::with_capacity(alloc, parts.len())?;
    'parts: for part in parts {
        add_standing(alloc, part, &mut members)?;
    }
    Ok(members)
}

// The process of the part becomes the member or the tombstone that the part says.
fn add_standing(alloc: Global, part: &Part, members: &mut Members) -> Result<(), AllocError>
    ensures { OnOk result (members.new ≡ with_known members.old part.now.unique (standing_of part.now.state part.now.up_number)) }
{
    match standing_of(part.state, part.up_number) {
        Some(Standing::Member(status, up_number)) => {
            members.raise(alloc, &part.unique, status, up_number)
        }
        Some(Standing::Buried(confirmed)) => members.bury(alloc, &part.unique, confirmed),
        None => Ok(()),
    }
}

fn seen_of(alloc: Global, parts: &[Part]) -> Result<Uniques, AllocError>
    ensures { IfOk result (λ seen. seen ≡ with_seen no_one parts.now) }
{
    let mut seen = Uniques::with_capacity(alloc, parts.len())?;
    'parts: for part in parts {
        add_seen(alloc, part, &mut seen)?;
    }
    Ok(seen)
}

fn add_seen(alloc: Global, part: &Part, seen: &mut Uniques) -> Result<(), AllocError>
    ensures { OnOk result (seen.new ≡ (if part.now.seen then with_one seen.old part.now.unique else seen.old)) }
{
    if part.seen {
        return seen.insert(alloc, &part.unique);
    }
    Ok(())
}

// The subjects of the last row that was made, and their indices. Observers often have the same subjects, which are then not
// made again.
#[derive(Drop)]
struct Subjects<'a> {
    indices: &'a [u8],
    them: Uniques,
}

fn rows_of(alloc: Global, parts: &[Part]) -> Result<Rows, AllocError>
    ensures { IfOk result (λ rows. rows ≡ with_part_rows parts.now map.empty parts.now) }
{
    let mut rows = Rows::with_capacity(alloc, parts.len())?;
    let mut last = Subjects {
        indices: &[],
        them: Uniques::empty(alloc),
    };
    'parts: for part in parts {
        add_row(alloc, parts, part, &mut last, &mut rows)?;
    }
    Ok(rows)
}

// Adds the row of the part, where it has one.
fn add_row<'a>(
    alloc: Global,
    parts: &[Part],
    part: &'a Part,
    last: &mut Subjects<'a>,
    rows: &mut Rows,
) -> Result<(), AllocError>
    requires { last.old.them ≡ with_indices parts.now no_one last.old.indices.now }
    ensures row { OnOk result (rows.new ≡ with_part_row parts.now rows.old part.now) }
    ensures last { OnOk result (last.new.them ≡ with_indices parts.now no_one last.new.indices.now) }
{
    if part.row_number == 0 {
        return Ok(());
    }
    turn_to(alloc, parts, part.subjects.as_slice(), last)?;
    rows.set_row(alloc, &part.unique, part.row_number, &last.them)
}

// The last subjects become the processes of the parts at these indices.
fn turn_to<'a>(
    alloc: Global,
    parts: &[Part],
    indices: &'a [u8],
    last: &mut Subjects<'a>,
) -> Result<(), AllocError>
    requires { last.old.them ≡ with_indices parts.now no_one last.old.indices.now }
    ensures them { OnOk result (last.new.them ≡ with_indices parts.now no_one indices.now) }
    ensures indices { OnOk result (last.new.indices.now ≡ indices.now) }
{
    if last.indices == indices {
        return Ok(());
    }
    last.them = those_at(alloc, parts, indices)?;
    last.indices = indices;
    Ok(())
}

// The processes of the parts at these indices.
fn those_at(alloc: Global, parts: &[Part], indices: &[u8]) -> Result<Uniques, AllocError>
    ensures { IfOk result (λ them. them ≡ with_indices parts.now no_one indices.now) }
{
    let mut them = Uniques::with_capacity(alloc, indices.len())?;
    'indices: for index in indices {
        add_at(alloc, parts, usize::from(*index), &mut them)?;
    }
    Ok(them)
}

// Adds the process of the part at an index.
fn add_at(alloc: Global, parts: &[Part], index: usize, them: &mut Uniques) -> Result<(), AllocError>
    ensures { OnOk result (them.new ≡ with_process them.old (slice_get parts.now index)) }
{
    match parts.get(index) {
        Some(part) => them.insert(alloc, &part.unique),
        None => Ok(()),
    }
}
