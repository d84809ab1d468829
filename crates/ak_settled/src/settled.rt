ghost use Rattle.std.specs.Prelude.{◌≡◌, ◌≢◌, ◌⊎◌, [], IfOk, OnOk, OnErr, length, slice_get, option_copied, option_to_list, is_some};
ghost use Rattle.std.specs.List.{fold};
ghost use Rattle.std.specs.FinMap as map;
ghost use Rattle.ak_address.specs.Uniques.{no_one, set_of};
ghost use Rattle.ak_address.specs.Changed.{changed};
ghost use Rattle.ak_address.specs.Counters.{counter, with_each};
ghost use Rattle.ak_clock.specs.Version.{Covers};
ghost use Rattle.ak_member.specs.Standing.{nobody};
ghost use Rattle.ak_settled.specs.Settled.{version_of, standings_of, unconfirmed, unconfirmed_pairs, unsettled, after_note, after_tick, is_finished, is_needed_as, needed_pairs, needed, candidate};
ghost use Rattle.ak_settled.specs.Ticks.{counts_of, unmarked, with_unmarked, marked_pairs, marked};

use crate::ticks::Ticks;
use ak_address::{Table, Unique, Uniques};
use ak_clock::Version;
use ak_member::{Members, Standing, Status};
use std::alloc::{AllocError, Global};
use std::marker::Model;

/// The last view of the cluster that a node noted as settled, if it noted one, and for each tombstone in it that is not
/// confirmed the ticks since it was noted. All of it is this project's choice: a removed process that did not say that it
/// stops is waited for as long as a margin.
#[derive(Drop)]
pub struct Settled {
    exists: bool,
    version: Version,
    members: Members,
    counters: Table<Ticks>,
}

impl Model for Settled {
    ghost use Rattle.ak_settled.specs.SettledView.{SettledModel, coded_settled};
    ghost use Rattle.ak_settled.specs.Ticks.{IsKept, settled_of};

    ghost Value = { SettledModel };

    ghost coded = { coded_settled };

    ghost view = { λ s. settled_of s.exists s.version s.members s.counters };

    // Where no view is noted nothing stands in its tables, so that what is kept is one value for each settled view.
    ghost invariant = { λ s. IsKept s.exists s.version s.members s.counters };
}

impl Settled {
    /// No view is noted yet. Takes no memory.
    pub fn none(alloc: Global) -> Settled
        ensures { result ≡ unsettled }
    {
        let version = Version::empty(alloc);
        let members = Members::empty(alloc);
        let counters = Table::empty(alloc);
        Settled {
            exists: false,
            version,
            members,
            counters,
        }
    }

    /// Whether a view was noted. Takes no memory.
    pub fn exists(&self) -> bool
        ensures { result ≡ is_some self.now.view }
    {
        self.exists
    }

    /// The version of the settled view; the empty one where there is none. Takes no memory.
    pub fn version(&self) -> &Version
        ensures { result.now ≡ version_of self.now.view }
    {
        &self.version
    }

    /// The members and the tombstones of the settled view; nobody where there is none. Takes no memory.
    pub fn members(&self) -> &Members
        ensures { result.now ≡ standings_of self.now.view }
    {
        &self.members
    }

    /// The settled view becomes this one. An unconfirmed tombstone keeps its counter, a new one begins at 0, and nobody
    /// has just ended. After an error the settled view is as it was. Only memory can fail, and only where the version counts
    /// somebody or somebody is known: a member or a tombstone.
    pub fn note(
        &mut self,
        alloc: Global,
        version: &Version,
        members: &Members,
    ) -> Result<(), AllocError>
        requires { Covers version.now (version_of self.old.view) }
        ensures ok { OnOk result (self.new ≡ after_note version.now members.now self.old) }
        ensures err { OnErr result (self.new ≡ self.old) }
        ensures memory { OnErr result ((version.now ≢ map.empty) ⊎ (members.now ≢ nobody)) }
    {
        let counters = counters_for(alloc, &self.counters, members)?;
        let version = version.copy(alloc)?;
        let members = members.copy(alloc)?;
        self.exists = true;
        self.version = version;
        self.members = members;
        self.counters = counters;
        Ok(())
    }

    /// One tick: each counter rises by one, up to the margin. Takes no memory.
    pub fn tick(&mut self, margin: u32)
        ensures { self.new ≡ after_tick margin self.old }
    {
        self.counters.raise_all(margin);
    }

    /// How many have a counter that reached the margin in the last tick. Takes no memory.
    pub fn just_ended_len(&self) -> usize
        ensures { result ≡ length self.now.just_ended }
    {
        marked_in(&self.counters)
    }

    /// Of those whose counter reached the margin in the last tick the one at an index, from 0 on in the order of
    /// processes; none past the end. Takes no memory.
    pub fn just_ended(&self, index: usize) -> Option<&Unique>
        ensures { option_copied result ≡ slice_get self.now.just_ended index }
    {
        marked_at(&self.counters, index)
    }

    /// Whether the process is over by the settled view: it is a tombstone there, and it is confirmed that it has stopped,
    /// or its counter is the margin. Takes no memory.
    pub fn finished(&self, who: &Unique, margin: u32) -> bool
        ensures { result ≡ is_finished margin self.now.view who.now }
    {
        match self.members.tombstone(who) {
            Some(confirmed) => confirmed || count_of(&self.counters, who) == margin,
            None => false,
        }
    }

    /// Whom the node waits for: the members of the settled view that are not Joining, and its tombstones that are not
    /// finished. Only memory can fail, and only where there is one.
    pub fn needed(&self, alloc: Global, margin: u32) -> Result<Uniques, AllocError>
        ensures ok { IfOk result (λ them. them ≡ needed margin self.now.view) }
        ensures memory { OnErr result (needed margin self.now.view ≢ no_one) }
    {
        needed_in(alloc, &self.members, &self.counters, margin)
    }

    /// The oldest member of the settled view; none where it has no Up or Leaving member, or there is no view (Akka's
    /// "Cluster Singleton": the oldest member runs it). Takes no memory.
    pub fn candidate(&self) -> Option<&Unique>
        ensures { option_copied result ≡ candidate self.now.view }
    {
        self.members.oldest()
    }
}

// The counter of a process, 0 where it has none.
fn count_of(counters: &Table<Ticks>, who: &Unique) -> u32
    ensures { result ≡ counter (counts_of counters.now) who.now }
{
    match counters.get(who) {
        Some(ticks) => ticks.count,
        None => 0,
    }
}

// The marked one at a pair of the table, where there is one.
fn marked_in_pair(counters: &Table<Ticks>, pair: usize) -> Option<&Unique>
    ensures { option_to_list (option_copied result) ≡ marked_pairs (option_to_list (slice_get (map.entries counters.now) pair)) }
{
    match counters.at(pair) {
        Some((who, ticks)) => {
            if ticks.has_just_ended {
                return Some(who);
            }
            None
        }
        None => None,
    }
}

fn marked_in(counters: &Table<Ticks>) -> usize
    ensures { result ≡ length (marked counters.now) }
{
    let mut count = 0;
    'pairs: for pair in 0..counters.len() {
        if marked_in_pair(counters, pair).is_some() {
            count += 1;
        }
    }
    count
}

fn marked_at(counters: &Table<Ticks>, index: usize) -> Option<&Unique>
    ensures { option_copied result ≡ slice_get (marked counters.now) index }
{
    let mut left = index;
    'pairs: for pair in 0..counters.len() {
        let found = marked_in_pair(counters, pair);
        if found.is_some() {
            if left == 0 {
                return found;
            }
            left -= 1;
        }
    }
    None
}

// A counter for each unconfirmed tombstone: the one that it has, or 0. Only memory can fail, and only where there is one.
fn counters_for(
    alloc: Global,
    before: &Table<Ticks>,
    members: &Members,
) -> Result<Table<Ticks>, AllocError>
    ensures ok { IfOk result (λ counters. counters ≡ changed unmarked (with_each (counts_of before.now) (unconfirmed members.now) map.empty)) }
    ensures memory { OnErr result (unconfirmed members.now ≢ []) }
{
    let mut counters = Table::empty(alloc);
    'pairs: for pair in 0..members.uniques() {
        add_counter(alloc, before, unconfirmed_at(members, pair), &mut counters)?;
    }
    Ok(counters)
}

// The unconfirmed tombstone at a pair, where there is one.
fn unconfirmed_at(members: &Members, pair: usize) -> Option<&Unique>
    ensures { option_to_list (option_copied result) ≡ unconfirmed_pairs (option_to_list (slice_get (map.entries members.now) pair)) }
{
    match members.pair(pair) {
        Some((who, Standing::Buried(false))) => Some(who),
        Some((_, Standing::Buried(true))) => None,
        Some((_, Standing::Member(_, _))) => None,
        None => None,
    }
}

// Adds the counter of the process, if there is one; where there is none it takes no memory.
fn add_counter(
    alloc: Global,
    before: &Table<Ticks>,
    who: Option<&Unique>,
    counters: &mut Table<Ticks>,
) -> Result<(), AllocError>
    ensures ok { OnOk result (counters.new ≡ fold (with_unmarked (counts_of before.now)) counters.old (option_to_list (option_copied who.entry))) }
    ensures memory { OnErr result (option_to_list (option_copied who.entry) ≢ []) }
{
    match who {
        Some(who) => {
            let count = count_of(before, who);
            let who = who.copy(alloc)?;
            let ticks = Ticks {
                count,
                has_just_ended: false,
            };
            counters.insert(who, ticks)
        }
        None => Ok(()),
    }
}

// The processes of the pairs that are needed.
fn needed_in(
    alloc: Global,
    members: &Members,
    counters: &Table<Ticks>,
    margin: u32,
) -> Result<Uniques, AllocError>
    ensures ok { IfOk result (λ them. them ≡ set_of (needed_pairs margin (counts_of counters.now) (map.entries members.now))) }
    ensures memory { OnErr result (set_of (needed_pairs margin (counts_of counters.now) (map.entries members.now)) ≢ no_one) }
{
    let mut them = Uniques::empty(alloc);
    'pairs: for pair in 0..members.uniques() {
        them.insert_if_some(alloc, needed_at(members, counters, margin, pair))?;
    }
    Ok(them)
}

// The process at a pair, where it is needed.
fn needed_at<'a>(
    members: &'a Members,
    counters: &Table<Ticks>,
    margin: u32,
    pair: usize,
) -> Option<&'a Unique>
    ensures { option_to_list (option_copied result) ≡ needed_pairs margin (counts_of counters.now) (option_to_list (slice_get (map.entries members.now) pair)) }
{
    match members.pair(pair) {
        Some((who, standing)) => {
            if is_needed(standing, count_of(counters, who), margin) {
                return Some(who);
            }
            None
        }
        None => None,
    }
}

fn is_needed(standing: Standing, count: u32, margin: u32) -> bool
    ensures { result ≡ is_needed_as margin count standing }
{
    match standing {
        Standing::Member(Status::Joining, _) => false,
        Standing::Member(_, _) => true,
        Standing::Buried(confirmed) => !(confirmed || count == margin),
    }
}
