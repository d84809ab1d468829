ghost use Rattle.std.specs.Prelude.{◌≡◌, ◌≢◌, ◌⊎◌, ◌↔◌, ◌<◌, ◌≤◌, ◌-◌, ◌^◌, ℕ, IfOk, OnOk, OnErr, IsTrue, slice_get, option_copied, option_to_list};
ghost use Rattle.std.specs.List.{fold, filter};
ghost use Rattle.std.specs.FinMap as map;
ghost use Rattle.ak_address.specs.Changed.{keys_of};
ghost use Rattle.ak_address.specs.Counters.{counter, with_each};
ghost use Rattle.ak_address.specs.Uniques.{has, no_one, with_one, in_order};
ghost use Rattle.ak_member.specs.Standing.{is_member};
ghost use Rattle.ak_detector.specs.Detector.{silent, watching, watch_ring, heard, ticked};
ghost use Rattle.ak_detector.specs.Sides.{above_pairs};

use crate::ring::{is_ring, watch_ring};
use ak_address::{Table, Unique, Uniques};
use ak_member::Members;
use std::alloc::{AllocError, Global};
use std::marker::Model;

/// The members that a node watches, each with the ticks since it was heard (Akka's Cluster Specification, "Failure
/// Detector"; that ticks are counted up to a deadline is this project's choice).
#[derive(Drop)]
pub struct Detector {
    watched: Uniques,
    counters: Table<u32>,
}

impl Model for Detector {
    ghost use Rattle.std.specs.Prelude.{◌≡◌};
    ghost use Rattle.ak_address.specs.Changed.{keys_of};
    ghost use Rattle.ak_address.specs.Counters.{Counters, coded_counters};

    ghost Value = { Counters };

    ghost coded = { coded_counters };

    ghost view = { λ d. d.counters };

    // The set is kept beside the counters so that the ring is compared with it, and nobody need make it anew.
    ghost invariant = { λ d. d.watched ≡ keys_of d.counters };
}

impl Detector {
    /// Nobody is watched. Takes no memory.
    pub fn new(alloc: Global) -> Detector
        ensures { result ≡ map.empty }
    {
        let watched = Uniques::empty(alloc);
        let counters = Table::empty(alloc);
        Detector { watched, counters }
    }

    /// The detector that watches the node's ring, and on whoever is silent by this deadline and still a member: one that is
    /// silent is reported until it is heard or removed (this project's choice). A counter is kept, a new one is 0. Only memory
    /// can fail, and only where there is another member, or somebody silent.
    pub fn watching(
        &self,
        alloc: Global,
        me: &Unique,
        members: &Members,
        deadline: u32,
    ) -> Result<Detector, AllocError>
        ensures ok { IfOk result (λ detector. detector ≡ watching me.now members.now deadline self.now) }
        ensures memory { OnErr result ((watch_ring me.now members.now ≢ no_one) ⊎ (silent deadline self.now ≢ no_one)) }
    {
        let mut watched = watch_ring(alloc, me, members)?;
        let silent = silent_in(alloc, &self.counters, deadline)?;
        add_members(alloc, members, &silent, &mut watched)?;
        let counters = counters_for(alloc, &self.counters, &watched)?;
        Ok(Detector { watched, counters })
    }

    /// Whether whom it watches is the node's ring by these members. Then the detector that watches by them is this one, at any
    /// deadline; after a no it may be so too, where whoever is watched off the ring is silent and still a member. Takes no
    /// memory.
    pub fn watches_already(&self, me: &Unique, members: &Members) -> bool
        ensures same { (deadline : ℕ) → IsTrue result → watching me.now members.now deadline self.now ≡ self.now }
        ensures ring { IsTrue result ↔ keys_of self.now ≡ watch_ring me.now members.now }
    {
        is_ring(me, members, &self.watched)
    }

    /// Watches so from now on. After an error the detector is as it was; only memory can fail, and only where whom it watches is
    /// not the ring, and there is another member, or somebody silent.
    pub fn watch(
        &mut self,
        alloc: Global,
        me: &Unique,
        members: &Members,
        deadline: u32,
    ) -> Result<(), AllocError>
        ensures ok { OnOk result (self.new ≡ watching me.now members.now deadline self.old) }
        ensures err { OnErr result (self.new ≡ self.old) }
        ensures memory { OnErr result ((keys_of self.old ≢ watch_ring me.now members.now) × ((watch_ring me.now members.now ≢ no_one) ⊎ (silent deadline self.old ≢ no_one))) }
    {
        if self.watches_already(me, members) {
            return Ok(());
        }
        *self = self.watching(alloc, me, members, deadline)?;
        Ok(())
    }

    /// A process is heard: its counter is 0 where it is watched; whether it is. Takes no memory.
    pub fn heard(&mut self, who: &Unique) -> bool
        ensures watched { result ≡ map.contains_key self.old who.now }
        ensures after { self.new ≡ heard who.now self.old }
    {
        self.counters.update(who, 0)
    }

    /// One tick: each counter rises by one, up to one above the deadline. Takes no memory.
    pub fn tick(&mut self, deadline: u32)
        requires { deadline < 2 ^ 32 - 1 }
        ensures { self.new ≡ ticked deadline self.old }
    {
        self.counters.raise_all(deadline + 1);
    }

    /// Those whose counter is above the deadline: they were not heard for so long. Only memory can fail, and only where there
    /// is one.
    pub fn silent(&self, alloc: Global, deadline: u32) -> Result<Uniques, AllocError>
        ensures ok { IfOk result (λ them. them ≡ silent deadline self.now) }
        ensures memory { OnErr result (silent deadline self.now ≢ no_one) }
    {
        silent_in(alloc, &self.counters, deadline)
    }

    /// Those that will be silent after one more tick. Only memory can fail, and only where there is one.
    pub fn silent_next(&self, alloc: Global, deadline: u32) -> Result<Uniques, AllocError>
        requires { 1 ≤ deadline }
        ensures ok { IfOk result (λ them. them ≡ silent deadline (ticked deadline self.now)) }
        ensures memory { OnErr result (silent deadline (ticked deadline self.now) ≢ no_one) }
    {
        let them = silent_in(alloc, &self.counters, deadline - 1)?;
        Ok(them)
    }

    /// Whether the process will be silent after one more tick. Takes no memory.
    pub fn is_silent_next(&self, who: &Unique, deadline: u32) -> bool
        requires { 1 ≤ deadline }
        ensures { result ≡ has (silent deadline (ticked deadline self.now)) who.now }
    {
        is_above(&self.counters, who, deadline - 1)
    }

    /// Those that are watched. Takes no memory.
    pub fn watched(&self) -> &Uniques
        ensures { result.now ≡ keys_of self.now }
    {
        &self.watched
    }
}

fn silent_in(alloc: Global, counters: &Table<u32>, deadline: u32) -> Result<Uniques, AllocError>
    ensures ok { IfOk result (λ them. them ≡ silent deadline counters.now) }
    ensures memory { OnErr result (silent deadline counters.now ≢ no_one) }
{
    let mut them = Uniques::empty(alloc);
    'pairs: for pair in 0..counters.len() {
        them.insert_if_some(alloc, silent_at(counters, pair, deadline))?;
    }
    Ok(them)
}

// The process at a pair, where its counter is above the deadline.
fn silent_at(counters: &Table<u32>, pair: usize, deadline: u32) -> Option<&Unique>
    ensures { option_to_list (option_copied result) ≡ above_pairs deadline (option_to_list (slice_get (map.entries counters.now) pair)) }
{
    match counters.at(pair) {
        Some((who, ticks)) => {
            if *ticks > deadline {
                return Some(who);
            }
            None
        }
        None => None,
    }
}

// Whether the process has a counter above the deadline.
fn is_above(counters: &Table<u32>, who: &Unique, deadline: u32) -> bool
    ensures { result ≡ has (silent deadline counters.now) who.now }
{
    match counters.get(who) {
        Some(ticks) => *ticks > deadline,
        None => false,
    }
}

// Adds those of the processes that are members.
fn add_members(
    alloc: Global,
    members: &Members,
    whos: &Uniques,
    them: &mut Uniques,
) -> Result<(), AllocError>
    ensures ok { OnOk result (them.new ≡ fold with_one them.old (filter (is_member members.now) (in_order whos.now))) }
    ensures memory { OnErr result (whos.now ≢ no_one) }
{
    'whos: for index in 0..whos.len() {
        them.insert_if_some(alloc, member_at(members, whos, index))?;
    }
    Ok(())
}

// The process at an index, where it is a member.
fn member_at<'a>(members: &Members, whos: &'a Uniques, index: usize) -> Option<&'a Unique>
    ensures { option_to_list (option_copied result) ≡ filter (is_member members.now) (option_to_list (slice_get (in_order whos.now) index)) }
{
    match whos.at(index) {
        Some(who) => {
            if members.get(who).is_some() {
                return Some(who);
            }
            None
        }
        None => None,
    }
}

// A counter for each of the watched: the one that it has, or 0.
fn counters_for(
    alloc: Global,
    before: &Table<u32>,
    watched: &Uniques,
) -> Result<Table<u32>, AllocError>
    ensures ok { IfOk result (λ counters. counters ≡ with_each before.now (in_order watched.now) map.empty) }
    ensures memory { OnErr result (watched.now ≢ no_one) }
{
    let mut counters = Table::empty(alloc);
    'watched: for index in 0..watched.len() {
        add_counter(alloc, before, watched.at(index), &mut counters)?;
    }
    Ok(counters)
}

// Adds the counter of the process, if there is one.
fn add_counter(
    alloc: Global,
    before: &Table<u32>,
    who: Option<&Unique>,
    counters: &mut Table<u32>,
) -> Result<(), AllocError>
    ensures { OnOk result (counters.new ≡ fold (λ c who. map.insert c who (counter before.now who)) counters.old (option_to_list (option_copied who.entry))) }
{
    match who {
        Some(who) => {
            let ticks = count_of(before, who);
            let who = who.copy(alloc)?;
            counters.insert(who, ticks)
        }
        None => Ok(()),
    }
}

// The counter of a process, 0 where it has none.
fn count_of(counters: &Table<u32>, who: &Unique) -> u32
    ensures { result ≡ counter counters.now who.now }
{
    match counters.get(who) {
        Some(ticks) => *ticks,
        None => 0,
    }
}
