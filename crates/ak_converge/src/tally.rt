//! How far a view is from convergence, in numbers that are kept when it changes.

ghost use Rattle.std.specs.Prelude.{◌≡◌, ◌≤◌, ◌<◌, ◌^◌, IsTrue, OnOk, OnErr, IsOk, List, slice_get, option_to_list, length};
ghost use Rattle.std.specs.FinMap as map;
ghost use Rattle.std.specs.List.{filter};
ghost use Rattle.ak_address.specs.Unique.{AddressModel};
ghost use Rattle.ak_address.specs.Uniques.{UniqueSet};
ghost use Rattle.ak_member.specs.Standing.{member_pairs};
ghost use Rattle.ak_member.specs.View.{View};
ghost use Rattle.ak_reach.specs.Unreachable.{unreachable_members};
ghost use Rattle.ak_converge.specs.Convergence.{is_converged, is_settled};
ghost use Rattle.ak_converge.specs.Tally.{nothing_tallied, is_missing, one_if, changed, uses_at, with_use, without_use, misses, blocks, missing_in, blocking_in, tally_of};

use crate::converge::is_passed_over;
use crate::uses::Uses;
use ak_address::{Address, Uniques};
use ak_member::Members;
use ak_reach::{Rows, is_observed};
use std::alloc::{AllocError, Global};
use std::marker::Model;

/// How one member stands to a view's convergence.
#[derive(Clone, Copy, Debug, PartialEq, Eq)]
pub struct Stand {
    /// It is Up or Leaving.
    pub counted: bool,
    /// It has seen the view.
    pub seen: bool,
    /// It is unreachable, and neither Down nor Exiting.
    pub blocking: bool,
}

/// How many counted members have not seen a view, how many members block its convergence, and how often each address is used
/// by the counted ones with the role (this project's choice): so whether the view is settled is read and not walked for. At most
/// 1,000 addresses are in use: an invariant of the type.
#[derive(Drop)]
pub struct Tally {
    missing: u32,
    blocking: u32,
    uses: Uses,
}

impl Model for Tally {
    ghost use Rattle.std.specs.Coded.{codes};
    ghost use Rattle.ak_converge.specs.Tally.{TallyModel, coded_tally, coded_uses};

    ghost Value = { TallyModel };

    ghost coded = { coded_tally };

    ghost view = { λ t. record { missing = t.missing; blocking = t.blocking; uses = t.uses } };
}

impl Tally {
    /// The tally of a view that knows nobody. Takes no memory.
    pub fn empty(alloc: Global) -> Tally
        ensures { result ≡ nothing_tallied }
    {
        Tally {
            missing: 0,
            blocking: 0,
            uses: Uses::none(alloc),
        }
    }

    /// How many counted members have not seen the view. Takes no memory.
    pub fn missing(&self) -> u32
        ensures { result ≡ self.now.missing }
    {
        self.missing
    }

    /// How many members are unreachable, and neither Down nor Exiting. Takes no memory.
    pub fn blocking(&self) -> u32
        ensures { result ≡ self.now.blocking }
    {
        self.blocking
    }

    /// How many addresses are in use, at most 1,000. Takes no memory.
    pub fn addresses(&self) -> u32
        ensures value { result ≡ map.len self.now.uses }
        ensures few { result ≤ 1000 }
    {
        self.uses.len()
    }

    /// Whether the view whose tally it is is converged: every counted member has seen it, and nobody blocks (Akka's Cluster
    /// Specification, "Gossip Convergence"). Takes no memory.
    pub fn converged(&self) -> bool
        ensures { (role : List AddressModel) (v : View) (seen : UniqueSet) → self.now ≡ tally_of role v seen → result ≡ is_converged v seen }
    {
        self.missing == 0 && self.blocking == 0
    }

    /// Whether the view whose tally it is is settled: it is converged, and at least so many addresses are in use (this project's
    /// choice). Takes no memory.
    pub fn settled_by(&self, quorum: u32) -> bool
        ensures { (role : List AddressModel) (v : View) (seen : UniqueSet) → self.now ≡ tally_of role v seen → result ≡ is_settled quorum role v seen }
    {
        self.converged() && quorum <= self.addresses()
    }

    /// A member that stood so stands otherwise: the first stand is taken out of the numbers, and the second put in. Takes no
    /// memory.
    pub fn change(&mut self, before: &Stand, after: &Stand)
        requires missing { one_if (is_missing before.now) ≤ self.old.missing }
        requires blocking { one_if before.now.blocking ≤ self.old.blocking }
        requires few_missing { self.old.missing < 1000 }
        requires few_blocking { self.old.blocking < 1000 }
        ensures { self.new ≡ changed before.now after.now self.old }
    {
        self.missing = self.missing - one_if(is_missing(before)) + one_if(is_missing(after));
        self.blocking = self.blocking - one_if(before.blocking) + one_if(after.blocking);
    }

    /// One use more of the address, of which fewer than 1,000 stand, and fewer than 1,000 addresses are in use. After an error
    /// the tally is as it was; only memory can fail, and an address that is in use takes none.
    pub fn enter(&mut self, alloc: Global, at: &Address) -> Result<(), AllocError>
        requires few { map.len self.old.uses < 1000 }
        requires often { uses_at self.old.uses at.now < 1000 }
        ensures ok { OnOk result (self.new ≡ record self.old { uses = with_use self.old.uses at.now }) }
        ensures err { OnErr result (self.new ≡ self.old) }
        ensures memory { 1 ≤ uses_at self.old.uses at.now → IsOk result }
    {
        self.uses.enter(alloc, at)
    }

    /// One use less of the address, which is in use; one that is used no more is forgotten. Takes no memory.
    pub fn leave(&mut self, at: &Address)
        requires { 1 ≤ uses_at self.old.uses at.now }
        ensures { self.new ≡ record self.old { uses = without_use self.old.uses at.now } }
    {
        self.uses.leave(at);
    }

    /// How many uses the address has. Takes no memory.
    pub fn uses_at(&self, at: &Address) -> u32
        ensures { result ≡ uses_at self.now.uses at.now }
    {
        self.uses.at(at)
    }

    /// Counts anew how many counted members of a view have not seen it, and how many block it; the uses of addresses stay. One
    /// walk along the members for each. Takes no memory.
    pub fn recount(&mut self, members: &Members, rows: &Rows, seen: &Uniques)
        requires { map.len members.now < 2 ^ 32 }
        ensures { self.new ≡ record self.old { missing = missing_in (record { standings = members.now; rows = rows.now }) seen.now; blocking = blocking_in (record { standings = members.now; rows = rows.now }) } }
    {
        self.missing = missing_in(members, seen);
        self.blocking = blocking_in(members, rows);
    }
}

fn one_if(b: bool) -> u32
    ensures { result ≡ one_if b }
{
    if b { 1 } else { 0 }
}

// It counts, and has not seen the view.
fn is_missing(stand: &Stand) -> bool
    ensures { result ≡ is_missing stand.now }
{
    stand.counted && !stand.seen
}

// At a pair stands a counted member that has not seen the view.
fn misses_at(members: &Members, seen: &Uniques, pair: usize) -> bool
    ensures { one_if result ≡ length (filter (misses seen.now) (member_pairs (option_to_list (slice_get (map.entries members.now) pair)))) }
{
    match members.member_at_pair(pair) {
        Some(member) => member.status.counts() && !seen.contains(member.unique),
        None => false,
    }
}

fn missing_in(members: &Members, seen: &Uniques) -> u32
    requires { map.len members.now < 2 ^ 32 }
    ensures { result ≡ length (filter (misses seen.now) (member_pairs (map.entries members.now))) }
{
    let mut count = 0;
    'pairs: for pair in 0..members.uniques() {
        if misses_at(members, seen, pair) {
            count += 1;
        }
    }
    count
}

// At a pair stands an unreachable member that is not passed over.
fn blocks_at(members: &Members, rows: &Rows, pair: usize) -> bool
    ensures { one_if result ≡ length (filter (blocks (unreachable_members (record { standings = members.now; rows = rows.now }))) (member_pairs (option_to_list (slice_get (map.entries members.now) pair)))) }
{
    match members.member_at_pair(pair) {
        Some(member) => {
            !is_passed_over(member.status) && is_observed(members, rows, member.unique)
        }
        None => false,
    }
}

// Where there is no row, nobody is unreachable.
fn blocking_in(members: &Members, rows: &Rows) -> u32
    requires { map.len members.now < 2 ^ 32 }
    ensures { result ≡ blocking_in (record { standings = members.now; rows = rows.now }) }
{
    if rows.len() == 0 {
        return 0;
    }
    let mut count = 0;
    'pairs: for pair in 0..members.uniques() {
        if blocks_at(members, rows, pair) {
            count += 1;
        }
    }
    count
}
