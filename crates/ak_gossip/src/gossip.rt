ghost use Rattle.std.specs.Prelude.{◌≡◌, ◌+◌, ◌<◌, ◌≤◌, if◌then◌else◌, Some, option_copied, IfOk, OnOk, OnErr, IsFalse, IsTrue};
ghost use Rattle.std.specs.FinMap as map;
ghost use Rattle.ak_address.specs.Unique.{UniqueModel};
ghost use Rattle.ak_address.specs.Uniques.{has, no_one, with_one, those, union};
ghost use Rattle.ak_clock.specs.declared.version.TheConstants.{BOUND};
ghost use Rattle.ak_clock.specs.Version.{count, bumped, merged, Relates};
ghost use Rattle.ak_member.specs.Standing.{is_member, merged_standings};
ghost use Rattle.ak_member.specs.View.{observed, after_observed, merged_rows};
ghost use Rattle.ak_reach.specs.Reach.{is_as_new};
ghost use Rattle.ak_gossip.specs.Gossip.{GossipState, IsGossip, most_uniques, nothing_known, MayUpdate, updated, seen_by, same, both};
ghost use Rattle.ak_gossip.specs.Ownership.{said_by};
ghost use Rattle.ak_gossip.specs.GossipContracts.{Receives, excess_of, foreign_of};

use crate::known::{Known, Tables};
use ak_address::{Unique, Uniques};
use ak_clock::{Relation, Version};
use ak_member::{Effects, Members};
use ak_reach::Rows;
use std::alloc::{AllocError, Global};
use std::marker::Model;

/// How a gossip that was taken was related to what the node knew (Akka's Cluster Specification, "Gossip": by their
/// vector clocks).
#[derive(Clone, Copy, Debug, PartialEq, Eq)]
pub enum Received {
    /// Both knew the same.
    Same,
    /// The gossip knew all that the node knew, and more.
    Newer,
    /// The node knew all that the gossip knew, and more.
    Older,
    /// Each knew what the other did not.
    Merged,
}

/// Why a gossip is refused (this project's choice).
#[derive(Clone, Copy, Debug, PartialEq, Eq)]
pub enum GossipFault {
    /// It counts more updates of the receiving node than the node made.
    ForeignCount { own: u64, theirs: u64 },
    /// Together with it the node would hold more than 128 uniques.
    TooManyUniques { union: u32 },
    /// Memory ran out: what is known is as it was.
    NoMemory(AllocError),
}

/// What a node knows (Akka's Cluster Specification, "Gossip" and "Gossip Convergence"): the version of the entries that
/// it has seen, the members, tombstones and rows that they show, and which members are known to know exactly the same.
/// Every process in it is a member or a tombstone, at most 128 of them, those that have seen it are members, and a
/// row's number is at most what is counted of its observer: invariants of the type.
#[derive(Drop)]
pub struct Gossip {
    pub(crate) known: Known,
}

impl Model for Gossip {
    ghost use Rattle.ak_gossip.specs.Gossip.{GossipState, coded_gossip, IsGossip};

    ghost Value = { GossipState };

    ghost coded = { coded_gossip };

    ghost view = { λ g. g.known };

    // So that each part of it has an index among its processes, and a row is of an entry that is counted.
    ghost invariant = { λ g. IsGossip g.known };
}

impl Gossip {
    /// Nothing is known. Takes no memory.
    pub fn empty(alloc: Global) -> Gossip
        ensures { result ≡ nothing_known }
    {
        Gossip {
            known: Known::nothing(alloc),
        }
    }

    /// How many entries of each author are seen.
    pub fn version(&self) -> &Version
        ensures { result.now ≡ self.now.version }
    {
        self.known.version()
    }

    /// The members and tombstones after the entries that are seen.
    pub fn members(&self) -> &Members
        ensures { result.now ≡ self.now.view.standings }
    {
        self.known.members()
    }

    /// Whom the observers found unreachable by then.
    pub fn rows(&self) -> &Rows
        ensures { result.now ≡ self.now.view.rows }
    {
        self.known.rows()
    }

    /// Which members are known to know exactly this (Akka's Cluster Specification, "Gossip Convergence": the seen set).
    pub fn seen(&self) -> &Uniques
        ensures { result.now ≡ self.now.seen }
    {
        self.known.seen()
    }

    /// How many processes are in it, members and tombstones together, at most 128. Takes no memory.
    pub fn uniques(&self) -> u32
        ensures value { result ≡ map.len self.now.view.standings }
        ensures few { result ≤ most_uniques }
    {
        self.known.members().uniques() as u32
    }

    /// Tells a proof what is true of every gossip. It does nothing.
    pub fn invariant(&self)
        ensures { IsGossip self.now }
    {
        let _known = &self.known;
    }

    /// An equal gossip, which shares all with this one. Only memory can fail.
    pub fn copy(&self, alloc: Global) -> Result<Gossip, AllocError>
        ensures { IfOk result (λ copy. copy ≡ self.now) }
    {
        let known = self.known.copy(alloc)?;
        Ok(Gossip { known })
    }

    /// The author makes an entry with these effects and answers its number; only the author has seen what is known then
    /// (Akka's Cluster Specification, "Gossip": each change of the state raises the own count and clears the seen set).
    /// Of several Observed the last one counts. After an error the gossip is as it was; only memory can fail.
    pub fn update(
        &mut self,
        alloc: Global,
        author: &Unique,
        effects: &Effects,
    ) -> Result<u64, AllocError>
        requires { MayUpdate author.now effects.now self.old }
        ensures number { IfOk result (λ number. number ≡ count self.old.version author.now + 1) }
        ensures ok { OnOk result (self.new ≡ updated author.now effects.now self.old) }
        ensures err { OnErr result (self.new ≡ self.old) }
    {
        let (tables, number) = self.tables_after(alloc, author, effects)?;
        let mut only_author = Uniques::empty(alloc);
        only_author.insert(alloc, author)?;
        let known = Known::of_tables(alloc, tables, only_author)?;
        *self = Gossip { known };
        Ok(number)
    }

    // The tables after the author's entry with these effects, and the number of that entry.
    fn tables_after(
        &self,
        alloc: Global,
        author: &Unique,
        effects: &Effects,
    ) -> Result<(Tables, u64), AllocError>
        requires { MayUpdate author.now effects.now self.now }
        ensures tables { IfOk result (λ made. said_by made.0 (with_one no_one author.now) ≡ updated author.now effects.now self.now) }
        ensures lawful { IfOk result (λ made. IsGossip (said_by made.0 (with_one no_one author.now))) }
        ensures number { IfOk result (λ made. made.1 ≡ count self.now.version author.now + 1) }
    {
        let (version, number) = bumped_version(alloc, self.known.version(), author)?;
        let rows = rows_after(alloc, author, number, effects, self.known.rows())?;
        let members = self.known.members().copy(alloc)?.after(alloc, effects)?;
        let tables = Tables {
            version,
            members,
            rows,
        };
        Ok((tables, number))
    }

    /// Takes in a gossip that came to the node `me` (Akka's Cluster Specification, "Gossip": the same, the newer one,
    /// the own one, or both merged), or refuses it: `ForeignCount` exactly where it counts more entries of `me` than
    /// are known here, and else `TooManyUniques` exactly where both together hold more than 128 processes. After an
    /// error the gossip is as it was.
    pub fn receive(
        &mut self,
        alloc: Global,
        me: &Unique,
        incoming: &Gossip,
    ) -> Result<Received, GossipFault>
        ensures { Receives me.now self.old incoming.now result self.new }
    {
        let relation = self.known.version().compare(incoming.known.version());
        if let Some((own, theirs)) = self.foreign(me, incoming, relation) {
            return Err(GossipFault::ForeignCount { own, theirs });
        }
        if let Some(union) = self.excess(alloc, incoming)? {
            return Err(GossipFault::TooManyUniques { union });
        }
        match relation {
            Relation::Same => Ok(self.take_same(alloc, me, incoming)?),
            Relation::Before => Ok(self.take_newer(alloc, me, incoming)?),
            Relation::After => Ok(Received::Older),
            Relation::Concurrent => Ok(self.take_both(alloc, me, incoming)?),
        }
    }

    // Both know the same: who has seen it there, and is a member here, has seen it here.
    fn take_same(
        &mut self,
        alloc: Global,
        me: &Unique,
        incoming: &Gossip,
    ) -> Result<Received, AllocError>
        ensures ok { OnOk result (self.new ≡ seen_by me.now (same self.old incoming.now)) }
        ensures answer { IfOk result (λ r. r ≡ Received.Same) }
        ensures err { OnErr result (self.new ≡ self.old) }
    {
        if self.is_seen(me, incoming) {
            return Ok(Received::Same);
        }
        let members = self.known.members();
        let mut seen = self.known.seen().copy(alloc)?;
        add_members(alloc, incoming.known.seen(), members, &mut seen)?;
        add_member(alloc, me, members, &mut seen)?;
        let known = self.known.with_seen(alloc, seen)?;
        *self = Gossip { known };
        Ok(Received::Same)
    }

    // Whether all who would be added are among those that have seen it, where both know the same: a settled cluster hears
    // little else, and nothing is copied then.
    fn is_seen(&self, me: &Unique, incoming: &Gossip) -> bool
        ensures { IsTrue result → self.now ≡ seen_by me.now (same self.now incoming.now) }
    {
        let seen = self.known.seen();
        are_among(incoming.known.seen(), seen) && has_member(me, self.known.members(), seen)
    }

    // What came replaces what was known.
    fn take_newer(
        &mut self,
        alloc: Global,
        me: &Unique,
        incoming: &Gossip,
    ) -> Result<Received, AllocError>
        ensures ok { OnOk result (self.new ≡ seen_by me.now incoming.now) }
        ensures answer { IfOk result (λ r. r ≡ Received.Newer) }
        ensures err { OnErr result (self.new ≡ self.old) }
    {
        let known = seen_by(alloc, me, &incoming.known)?;
        *self = Gossip { known };
        Ok(Received::Newer)
    }

    // Each knows what the other does not.
    fn take_both(
        &mut self,
        alloc: Global,
        me: &Unique,
        incoming: &Gossip,
    ) -> Result<Received, AllocError>
        requires { map.len (merged_standings self.old.view.standings incoming.now.view.standings) ≤ most_uniques }
        ensures ok { OnOk result (self.new ≡ seen_by me.now (both self.old incoming.now)) }
        ensures answer { IfOk result (λ r. r ≡ Received.Merged) }
        ensures err { OnErr result (self.new ≡ self.old) }
    {
        let tables = self.tables_of_both(alloc, incoming)?;
        let mut seen = Uniques::empty(alloc);
        add_member(alloc, me, &tables.members, &mut seen)?;
        let known = Known::of_tables(alloc, tables, seen)?;
        *self = Gossip { known };
        Ok(Received::Merged)
    }

    // The tables of what either knows.
    fn tables_of_both(&self, alloc: Global, incoming: &Gossip) -> Result<Tables, AllocError>
        requires { map.len (merged_standings self.now.view.standings incoming.now.view.standings) ≤ most_uniques }
        ensures tables { IfOk result (λ tables. said_by tables no_one ≡ both self.now incoming.now) }
        ensures lawful { IfOk result (λ tables. IsGossip (said_by tables no_one)) }
    {
        let version = both_versions(alloc, self.known.version(), incoming.known.version())?;
        let members = both_members(alloc, self.known.members(), incoming.known.members())?;
        let rows = both_rows(alloc, self.known.rows(), incoming.known.rows())?;
        Ok(Tables {
            version,
            members,
            rows,
        })
    }

    // What is counted of the node here and there, where the gossip counts more of it. One that brings nothing new does not.
    fn foreign(&self, me: &Unique, incoming: &Gossip, relation: Relation) -> Option<(u64, u64)>
        requires { Relates relation self.now.version incoming.now.version }
        ensures { result ≡ foreign_of (count self.now.version me.now) (count incoming.now.version me.now) }
    {
        match relation {
            Relation::Same => return None,
            Relation::Before => {}
            Relation::After => return None,
            Relation::Concurrent => {}
        }
        let own = self.known.version().count(me);
        let theirs = incoming.known.version().count(me);
        if own < theirs {
            return Some((own, theirs));
        }
        None
    }

    // How many processes both know together, where a gossip may not hold so many.
    fn excess(&self, alloc: Global, incoming: &Gossip) -> Result<Option<u32>, AllocError>
        ensures { IfOk result (λ excess. excess ≡ excess_of (map.len (merged_standings self.now.view.standings incoming.now.view.standings))) }
    {
        let own = self.known.members().uniques();
        let theirs = incoming.known.members().uniques();
        if own + theirs <= MOST_UNIQUES {
            return Ok(None);
        }
        let union = both_members(alloc, self.known.members(), incoming.known.members())?.uniques();
        if union <= MOST_UNIQUES {
            return Ok(None);
        }
        Ok(Some(union as u32))
    }
}

// A gossip may hold this many processes, members and tombstones together: so that one fits into a datagram, and a process has an
// index of one byte there.
pub(crate) const MOST_UNIQUES: usize = 128;

// The version with one entry more of the author, and the number of that entry.
fn bumped_version(
    alloc: Global,
    version: &Version,
    author: &Unique,
) -> Result<(Version, u64), AllocError>
    requires { count version.now author.now < BOUND }
    ensures version { IfOk result (λ made. made.0 ≡ bumped version.now author.now) }
    ensures number { IfOk result (λ made. made.1 ≡ count version.now author.now + 1) }
{
    let mut version = version.copy(alloc)?;
    let number = version.bump(alloc, author)?;
    Ok((version, number))
}

// The rows with that of the author after its entry of this number, where that observes.
fn rows_after(
    alloc: Global,
    author: &Unique,
    number: u64,
    effects: &Effects,
    rows: &Rows,
) -> Result<Rows, AllocError>
    requires { IsFalse (is_as_new (map.get rows.now author.now) number) }
    ensures { IfOk result (λ after. after ≡ after_observed author.now number (observed effects.now) rows.now) }
{
    let mut rows = rows.copy(alloc)?;
    if let Some(subjects) = effects.observed() {
        rows.set_row(alloc, author, number, subjects)?;
    }
    Ok(rows)
}

fn both_versions(alloc: Global, one: &Version, other: &Version) -> Result<Version, AllocError>
    ensures { IfOk result (λ both. both ≡ merged one.now other.now) }
{
    let mut both = one.copy(alloc)?;
    both.merge(alloc, other)?;
    Ok(both)
}

fn both_members(alloc: Global, one: &Members, other: &Members) -> Result<Members, AllocError>
    ensures { IfOk result (λ both. both ≡ merged_standings one.now other.now) }
{
    let mut both = one.copy(alloc)?;
    both.merge(alloc, other)?;
    Ok(both)
}

fn both_rows(alloc: Global, one: &Rows, other: &Rows) -> Result<Rows, AllocError>
    ensures { IfOk result (λ both. both ≡ merged_rows one.now other.now) }
{
    let mut both = one.copy(alloc)?;
    both.merge(alloc, other)?;
    Ok(both)
}

// What is known, and seen by the node where it is a member of that.
fn seen_by(alloc: Global, me: &Unique, known: &Known) -> Result<Known, AllocError>
    ensures { IfOk result (λ seen. seen ≡ seen_by me.now known.now) }
{
    if has_member(me, known.members(), known.seen()) {
        let same = known.copy(alloc)?;
        return Ok(same);
    }
    let mut seen = known.seen().copy(alloc)?;
    add_member(alloc, me, known.members(), &mut seen)?;
    known.with_seen(alloc, seen)
}

// Whether the process is there, or is no member.
fn has_member(who: &Unique, members: &Members, seen: &Uniques) -> bool
    ensures { IsTrue result → seen.now ≡ (if is_member members.now who.now then with_one seen.now who.now else seen.now) }
{
    if seen.contains(who) {
        return true;
    }
    members.get(who).is_none()
}

// Whether all of these are among those: one walk along both.
fn are_among(others: &Uniques, seen: &Uniques) -> bool
    ensures { IsTrue result → (who : UniqueModel) → IsTrue (has others.now who) → IsTrue (has seen.now who) }
{
    let mut found = 0;
    'seen: for index in 0..seen.len() {
        if is_the_same(others.at(found), seen.at(index)) {
            found += 1;
        }
    }
    found >= others.len()
}

// Whether both are there and the same process.
fn is_the_same(one: Option<&Unique>, other: Option<&Unique>) -> bool
    ensures { IsTrue result → (who : UniqueModel) → option_copied one.entry ≡ Some who → option_copied other.entry ≡ Some who }
{
    match (one, other) {
        (Some(one), Some(other)) => one.is(other),
        _ => false,
    }
}

// Adds a process that is a member.
fn add_member(
    alloc: Global,
    who: &Unique,
    members: &Members,
    seen: &mut Uniques,
) -> Result<(), AllocError>
    ensures { OnOk result (seen.new ≡ (if is_member members.now who.now then with_one seen.old who.now else seen.old)) }
{
    if members.get(who).is_some() {
        return seen.insert(alloc, who);
    }
    Ok(())
}

// Adds those that are members.
fn add_members(
    alloc: Global,
    others: &Uniques,
    members: &Members,
    seen: &mut Uniques,
) -> Result<(), AllocError>
    ensures { OnOk result (seen.new ≡ union seen.old (those others.now (is_member members.now))) }
{
    'others: for index in 0..others.len() {
        if let Some(who) = others.at(index) {
            add_member(alloc, who, members, seen)?;
        }
    }
    Ok(())
}

impl From<AllocError> for GossipFault {
    ghost use Rattle.ak_gossip.specs.declared.gossip.GossipFault.TheVariants.{NoMemory};

    ghost from_gives = { λ error fault. fault ≡ NoMemory error };

    fn from(error: AllocError) -> GossipFault {
        GossipFault::NoMemory(error)
    }
}
