ghost use Rattle.std.specs.Prelude.{◌≡◌, ◌+◌, ◌<◌, ◌≤◌, ◌↔◌, IfOk, OnOk, OnErr, IsOk, IfSome, IsTrue, Ok, Err, slice_get, option_map};
ghost use Rattle.std.specs.FinMap as map;
ghost use Rattle.ak_address.specs.Pairs.{index};
ghost use Rattle.ak_address.specs.Unique.{UniqueModel, unique_cmp};
ghost use Rattle.ak_clock.specs.Version.{count, covers, Covers, relation, relation_by, Relates, merged, bumped, reaching};
ghost use Rattle.ak_clock.specs.Walk.{reached};

use ak_address::{Table, Unique};
use std::alloc::{AllocError, Global};
use std::marker::Model;

/// The greatest count of one process: 4611686018427387904, the bound of all that is counted (this project's choice,
/// so that sums of counts fit 64 bits).
pub const BOUND: u64 = 4611686018427387904;

/// How one version stands to another.
#[derive(Clone, Copy, Debug, PartialEq, Eq)]
pub enum Relation {
    /// They are equal.
    Same,
    /// The first is below the second.
    Before,
    /// The second is below the first.
    After,
    /// Neither covers the other.
    Concurrent,
}

/// A version: for each process, how many entries of its history are counted, from 1 to `BOUND`; a process that it
/// does not have counts 0 (Akka's Cluster Specification, "Gossip": the vector clock of a gossip).
#[derive(Drop)]
pub struct Version {
    counts: Table<u64>,
}

impl Model for Version {
    ghost use Rattle.std.specs.Coded.{coded_ℕ};
    ghost use Rattle.std.specs.FinMap as map;
    ghost use Rattle.ak_address.specs.Unique.{coded_unique};
    ghost use Rattle.ak_clock.specs.Version.{Counts, IsVersion};

    ghost Value = { Counts };

    ghost coded = { map.code coded_unique coded_ℕ };

    ghost view = { λ v. v.counts };

    // A count of 0 would be another spelling of none, and equal versions are to be equal tables.
    ghost invariant = { λ v. IsVersion v.counts };
}

impl Version {
    /// The version that counts nothing. Takes no memory.
    pub fn empty(alloc: Global) -> Version
        ensures { result ≡ map.empty }
    {
        let counts = Table::empty(alloc);
        Version { counts }
    }

    /// The version that counts nothing, with memory for so many processes. Only memory can fail; memory for none takes none.
    pub fn with_capacity(alloc: Global, many: usize) -> Result<Version, AllocError>
        ensures ok { IfOk result (λ version. version ≡ map.empty) }
        ensures memory { many ≡ 0 → IsOk result }
    {
        let counts = Table::with_capacity(alloc, many)?;
        Ok(Version { counts })
    }

    /// How many entries of this process are counted: 0 where it has none, and at most `BOUND`.
    pub fn count(&self, who: &Unique) -> u64
        ensures value { result ≡ count self.now who.now }
        ensures bounded { result ≤ BOUND }
    {
        count_in(&self.counts, who)
    }

    /// How many processes have a count.
    pub fn len(&self) -> usize
        ensures { result ≡ map.len self.now }
    {
        self.counts.len()
    }

    /// The process and its count, from 1 to `BOUND`, at an index, from 0 on in the order of processes; none past
    /// the end.
    pub fn at(&self, index: usize) -> Option<(&Unique, u64)>
        ensures pair { option_map (λ pair. (pair.0.now, pair.1)) result ≡ slice_get (map.entries self.now) index }
        ensures counted { IfSome result (λ pair. (1 ≤ pair.1) × (pair.1 ≤ BOUND)) }
    {
        match self.counts.at(index) {
            Some((who, n)) => Some((who, *n)),
            None => None,
        }
    }

    /// An equal version. Only memory can fail; that of the version that counts nothing takes none.
    pub fn copy(&self, alloc: Global) -> Result<Version, AllocError>
        ensures ok { IfOk result (λ copy. copy ≡ self.now) }
        ensures memory { self.now ≡ map.empty → IsOk result }
    {
        let counts = self.counts.copy(alloc)?;
        Ok(Version { counts })
    }

    /// Whether each count of the other version is at most that of this one. Takes no memory.
    pub fn covers(&self, other: &Version) -> bool
        ensures value { result ≡ covers self.now other.now }
        ensures meaning { IsTrue result ↔ Covers self.now other.now }
    {
        reaches(&self.counts, &other.counts)
    }

    /// How this version stands to the other one. Takes no memory.
    pub fn compare(&self, other: &Version) -> Relation
        ensures value { result ≡ relation self.now other.now }
        ensures meaning { Relates result self.now other.now }
    {
        if is_same(&self.counts, &other.counts) {
            return Relation::Same;
        }
        let covers = reaches(&self.counts, &other.counts);
        let is_covered = reaches(&other.counts, &self.counts);
        relation_by(covers, is_covered)
    }

    /// Takes in the other version: the greater count of each process. After an error the version is as it was; one that it
    /// covers brings nothing and takes no memory.
    pub fn merge(&mut self, alloc: Global, other: &Version) -> Result<(), AllocError>
        ensures ok { OnOk result (self.new ≡ merged self.old other.now) }
        ensures err { OnErr result (self.new ≡ self.old) }
        ensures memory { Covers self.old other.now → IsOk result }
    {
        if reaches(&self.counts, &other.counts) {
            return Ok(());
        }
        self.counts.merge(alloc, &other.counts)
    }

    /// One more entry of this process: answers its new count. After an error the version is as it was; only the first entry of a
    /// process takes memory.
    pub fn bump(&mut self, alloc: Global, author: &Unique) -> Result<u64, AllocError>
        requires { count self.old author.now < BOUND }
        ensures ok { IfOk result (λ n. (n ≡ count self.old author.now + 1) × (self.new ≡ bumped self.old author.now)) }
        ensures err { OnErr result (self.new ≡ self.old) }
        ensures memory { OnErr result (count self.old author.now ≡ 0) }
    {
        bump_in(alloc, &mut self.counts, author)
    }

    /// At least so many entries of this process, up to `BOUND`. After an error the version is as it was; where it counts
    /// as many already it stays as it is and takes no memory, and neither does any process that has a count.
    pub fn reach(&mut self, alloc: Global, who: &Unique, least: u64) -> Result<(), AllocError>
        requires { least ≤ BOUND }
        ensures ok { OnOk result (self.new ≡ reaching self.old who.now least) }
        ensures err { OnErr result (self.new ≡ self.old) }
        ensures reached { least ≤ count self.old who.now → IsOk result }
        ensures memory { OnErr result (count self.old who.now ≡ 0) }
    {
        reach_in(alloc, &mut self.counts, who, least)
    }
}

// How two versions stand, by whether the first covers the second, and the second the first.
fn relation_by(covers: bool, is_covered: bool) -> Relation
    ensures { result ≡ relation_by covers is_covered }
{
    match (covers, is_covered) {
        (true, true) => Relation::Same,
        (true, false) => Relation::After,
        (false, true) => Relation::Before,
        (false, false) => Relation::Concurrent,
    }
}

// The count of a process, 0 where it has none.
fn count_in(counts: &Table<u64>, who: &Unique) -> u64
    ensures { result ≡ count counts.now who.now }
{
    match counts.get(who) {
        Some(n) => *n,
        None => 0,
    }
}

// One more of this process: its new count.
fn bump_in(alloc: Global, counts: &mut Table<u64>, author: &Unique) -> Result<u64, AllocError>
    requires { count counts.old author.now < BOUND }
    ensures ok { IfOk result (λ n. (n ≡ count counts.old author.now + 1) × (counts.new ≡ bumped counts.old author.now)) }
    ensures err { OnErr result (counts.new ≡ counts.old) }
    ensures memory { OnErr result (count counts.old author.now ≡ 0) }
{
    match counts.place(author) {
        Ok(place) => {
            let next = count_at(counts, place) + 1;
            counts.set_at(place, next);
            Ok(next)
        }
        Err(place) => {
            let who = author.copy(alloc)?;
            counts.insert_at(place, who, 1)?;
            Ok(1)
        }
    }
}

// At least so many of this process.
fn reach_in(
    alloc: Global,
    counts: &mut Table<u64>,
    who: &Unique,
    least: u64,
) -> Result<(), AllocError>
    ensures ok { OnOk result (counts.new ≡ reaching counts.old who.now least) }
    ensures err { OnErr result (counts.new ≡ counts.old) }
    ensures reached { least ≤ count counts.old who.now → IsOk result }
    ensures memory { OnErr result (count counts.old who.now ≡ 0) }
{
    match counts.place_from_end(who) {
        Ok(place) => {
            if count_at(counts, place) < least {
                counts.set_at(place, least);
            }
            Ok(())
        }
        Err(place) => {
            if least == 0 {
                return Ok(());
            }
            let who = who.copy(alloc)?;
            counts.insert_at(place, who, least)
        }
    }
}

// The count of the process that stands at a place.
fn count_at(counts: &Table<u64>, place: usize) -> u64
    ensures { (who : UniqueModel) → Ok place ≡ index unique_cmp who (map.entries counts.now) → result ≡ count counts.now who }
{
    let Some((_, n)) = counts.at(place) else {
        return 0;
    };
    *n
}

// Whether each count of the second table is at most that of the first: one walk along both.
fn reaches(counts: &Table<u64>, others: &Table<u64>) -> bool
    ensures { result ≡ reached (map.entries counts.now) (map.entries others.now) }
{
    let mut j = 0;
    'pairs: for i in 0..counts.len() {
        let Some((who, least)) = others.at(j) else {
            return true;
        };
        let Some((mine, n)) = counts.at(i) else {
            return false;
        };
        if mine.is(who) {
            if *n < *least {
                return false;
            }
            j += 1;
        } else if mine.compare(who).is_gt() {
            return false;
        }
    }
    others.at(j).is_none()
}

// Whether both have the same processes with the same counts. Most versions that meet do, and it is told sooner than which
// covers which.
fn is_same(counts: &Table<u64>, others: &Table<u64>) -> bool
    ensures { IsTrue result → counts.now ≡ others.now }
{
    are_same(counts.pairs(), others.pairs())
}

fn are_same(pairs: &[(Unique, u64)], others: &[(Unique, u64)]) -> bool
    ensures { IsTrue result → pairs.now ≡ others.now }
{
    let many = pairs.len();
    if others.len() != many {
        return false;
    }
    'pairs: for index in 0..many {
        if !is_same_pair(&pairs[index], &others[index]) {
            return false;
        }
    }
    true
}

fn is_same_pair(pair: &(Unique, u64), other: &(Unique, u64)) -> bool
    ensures { IsTrue result → pair.now ≡ other.now }
{
    pair.1 == other.1 && pair.0.is(&other.0)
}
