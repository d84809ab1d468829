ghost use Rattle.std.specs.Prelude.{◌≡◌, ◌≢◌, ◌↔◌, IsTrue, IfOk, OnOk, OnErr, slice_get, option_map, option_to_list};
ghost use Rattle.std.specs.List.{list_any};
ghost use Rattle.std.specs.FinMap as map;
ghost use Rattle.ak_address.specs.Uniques.{has, no_one};
ghost use Rattle.ak_member.specs.Standing.{is_member, has_status, members_with};
ghost use Rattle.ak_reach.specs.Reach.{reported};
ghost use Rattle.ak_reach.specs.Unreachable.{observes, unreachable_members, IsUnreachable};
ghost use Rattle.ak_reach.specs.Walk.{row_shows, with_reported};

use crate::rows::Rows;
use ak_address::{Unique, Uniques};
use ak_member::{Member, Members, Status};
use std::alloc::{AllocError, Global};

/// Whether the process is an unreachable member: one that a member which is not Down has in its row (Akka's Cluster
/// Specification, "Failure Detector"; that the rows of Down members do not count is this project's choice). Every other
/// member is reachable. Takes no memory.
pub fn is_unreachable(members: &Members, rows: &Rows, who: &Unique) -> bool
    ensures value { result ≡ has (unreachable_members (record { standings = members.now; rows = rows.now })) who.now }
    ensures meaning { IsTrue result ↔ IsUnreachable (record { standings = members.now; rows = rows.now }) who.now }
{
    if is_observed(members, rows, who) {
        return members.get(who).is_some();
    }
    false
}

/// Whether a member that is not Down has the process in its row: of a member, whether it is unreachable, with no look
/// whether it is a member (Akka's Cluster Specification, "Failure Detector"; that the rows of Down members do not count is
/// this project's choice). Takes no memory.
pub fn is_observed(members: &Members, rows: &Rows, who: &Unique) -> bool
    ensures value { result ≡ reported rows.now (members_with observes members.now) who.now }
    ensures member { IsTrue (is_member members.now who.now) → result ≡ has (unreachable_members (record { standings = members.now; rows = rows.now })) who.now }
{
    'rows: for index in 0..rows.len() {
        if shows_at(members, rows, index, who) {
            return true;
        }
    }
    false
}

/// The unreachable members, as a set. Only memory can fail, and only where there is one.
pub fn unreachable_members(
    alloc: Global,
    members: &Members,
    rows: &Rows,
) -> Result<Uniques, AllocError>
    ensures ok { IfOk result (λ them. them ≡ unreachable_members (record { standings = members.now; rows = rows.now })) }
    ensures memory { OnErr result (unreachable_members (record { standings = members.now; rows = rows.now }) ≢ no_one) }
{
    let mut them = Uniques::empty(alloc);
    'pairs: for pair in 0..members.uniques() {
        add_unreachable(alloc, members, rows, pair, &mut them)?;
    }
    Ok(them)
}

// Adds the process at an index among all that are known, where it is an unreachable member.
fn add_unreachable(
    alloc: Global,
    members: &Members,
    rows: &Rows,
    pair: usize,
    them: &mut Uniques,
) -> Result<(), AllocError>
    ensures ok { OnOk result (them.new ≡ with_reported (has (unreachable_members (record { standings = members.now; rows = rows.now }))) (option_map (λ e. e.0) (slice_get (map.entries members.now) pair)) them.old) }
    ensures memory { OnErr result (IsTrue (list_any (has (unreachable_members (record { standings = members.now; rows = rows.now }))) (option_to_list (option_map (λ e. e.0) (slice_get (map.entries members.now) pair))))) }
{
    match members.pair(pair) {
        Some((who, _)) => {
            if is_unreachable(members, rows, who) {
                return them.insert(alloc, who);
            }
            Ok(())
        }
        None => Ok(()),
    }
}

// There is a row at the index, of a member that is not Down, and the process is in it.
fn shows_at(members: &Members, rows: &Rows, index: usize, who: &Unique) -> bool
    ensures { result ≡ list_any (row_shows members.now who.now) (option_to_list (slice_get (map.entries rows.now) index)) }
{
    match rows.at(index) {
        Some((observer, row)) => {
            if row.subjects.contains(who) {
                return observes(members.get(observer));
            }
            false
        }
        None => false,
    }
}

// There is a member, and it is not Down.
fn observes(member: Option<Member<'_>>) -> bool
    ensures { result ≡ has_status observes (option_map (λ m. (m.status, m.up_number)) member.entry) }
{
    match member {
        Some(member) => match member.status {
            Status::Joining => true,
            Status::WeaklyUp => true,
            Status::Up => true,
            Status::Leaving => true,
            Status::Exiting => true,
            Status::Down => false,
        },
        None => false,
    }
}
