ghost use Rattle.std.specs.Prelude.{◌≡◌, ◌<◌, ℕ, IfOk, OnOk, OnErr, IsOk, IsSome, IsTrue, Ok, Err, [], ◌∷◌, ◌++◌, length, slice_get, option_map, option_copied, if◌then◌else◌};
ghost use Rattle.std.specs.Prelude as list;
ghost use Rattle.std.specs.FinMap as map;
ghost use Rattle.ak_address.specs.Unique.{UniqueModel, unique_cmp};
ghost use Rattle.ak_address.specs.Pairs.{index, woven};
ghost use Rattle.ak_address.specs.Table.{merged_tables};
ghost use Rattle.ak_address.specs.Changed.{changed};

use crate::address::Unique;
use std::alloc::{AllocError, Global};
use std::marker::Model;

/// A value of which an equal one can be made.
pub trait Duplicate: Sized {
    /// An equal value. Only memory can fail.
    fn copy(&self, alloc: Global) -> Result<Self, AllocError>
        ensures { IfOk result (λ copy. copy ≡ self.now) };
}

/// A value that can be merged with another of its kind, as the greater of two counts.
pub trait Merge: Duplicate {
    /// What the two come to.
    ghost merged: { Self → Self → Self };

    /// The merge of the two values, which stay as they are. Only memory can fail.
    fn merged(&self, alloc: Global, other: &Self) -> Result<Self, AllocError>
        ensures { IfOk result (λ both. both ≡ merged self.now other.now) };
}

/// A value that can be raised up to a most, as a counter of ticks.
pub trait Raise {
    /// What the value is raised to.
    ghost raised: { ℕ → Self → Self };

    /// Raises the value, up to the most. Takes no memory.
    fn raise(&mut self, most: u32)
        ensures { self.new ≡ raised most self.old };
}

/// A finite map from processes to values, in the order of processes. All that is kept by process
/// stands on it: counts, members, rows of observers.
#[derive(Drop)]
pub struct Table<V> {
    entries: Vec<(Unique, V)>,
}

impl<V> Model for Table<V> {
    ghost use Rattle.std.specs.Prelude.{IsTrue};
    ghost use Rattle.std.specs.FinMap as map;
    ghost use Rattle.ak_address.specs.Unique.{unique_cmp, coded_unique};

    ghost Value = { map.FinMap unique_cmp V };

    ghost coded = { map.code coded_unique V.code };

    ghost view = { λ t. map.from_sorted t.entries.items };

    // In order, and each process once: so a search goes by halves, and a merge is one walk along both.
    ghost invariant = { λ t. IsTrue (map.is_sorted unique_cmp t.entries.items) };
}

// Of so few processes each is looked at sooner than they are searched by halves.
const FEW: usize = 8;

impl<V> Table<V> {
    /// The table that has no process. Takes no memory.
    pub fn empty(alloc: Global) -> Self
        ensures { result ≡ map.empty }
    {
        let entries = Vec::new(alloc);
        Table { entries }
    }

    /// The table that has no process, with memory for so many. Only memory can fail; memory for none takes none.
    pub fn with_capacity(alloc: Global, many: usize) -> Result<Self, AllocError>
        ensures ok { IfOk result (λ table. table ≡ map.empty) }
        ensures memory { many ≡ 0 → IsOk result }
    {
        let entries = Vec::with_capacity(alloc, many)?;
        Ok(Table { entries })
    }

    /// What the table has at a process. Takes no memory.
    pub fn get(&self, who: &Unique) -> Option<&V>
        ensures { option_copied result ≡ map.get self.now who.now }
    {
        value_of(&self.entries, who)
    }

    /// How many processes it has.
    pub fn len(&self) -> usize
        ensures { result ≡ map.len self.now }
    {
        self.entries.len()
    }

    /// The process and the value at an index, from 0 on in the order of processes; none past the end.
    pub fn at(&self, index: usize) -> Option<(&Unique, &V)>
        ensures { option_map (λ pair. (pair.0.now, pair.1.now)) result ≡ slice_get (map.entries self.now) index }
    {
        pair_at(&self.entries, index)
    }

    /// The processes and their values, in the order of processes.
    pub fn pairs(&self) -> &[(Unique, V)]
        ensures { result.now ≡ map.entries self.now }
    {
        &self.entries
    }

    /// The index at which the process stands, from 0 on in the order of processes, or as an error the one at which it would
    /// stand. Takes no memory.
    pub fn place(&self, who: &Unique) -> Result<usize, usize>
        ensures { result ≡ index unique_cmp who.now (map.entries self.now) }
    {
        index_of(&self.entries, who)
    }

    /// The same; whoever comes after all others is found to do so at once. Takes no memory.
    pub fn place_from_end(&self, who: &Unique) -> Result<usize, usize>
        ensures { result ≡ index unique_cmp who.now (map.entries self.now) }
    {
        index_from_end(&self.entries, who)
    }
}

impl<V: Raise> Table<V> {
    /// Raises each value, up to the most. Takes no memory.
    pub fn raise_all(&mut self, most: u32)
        ensures { self.new ≡ changed (V.raised most) self.old }
    {
        raise_each(&mut self.entries, most);
    }
}

impl<V: Drop> Table<V> {
    /// Gives the process this value, whether the table had it or not. After an error the table is as it was;
    /// a process that is there already takes no memory.
    pub fn insert(&mut self, who: Unique, value: V) -> Result<(), AllocError>
        ensures ok { OnOk result (self.new ≡ map.insert self.old who value) }
        ensures err { OnErr result (self.new ≡ self.old) }
        ensures present { IsSome (map.get self.old who) → IsOk result }
    {
        match index_from_end(&self.entries, &who) {
            Ok(index) => {
                self.entries[index] = (who, value);
                Ok(())
            }
            Err(index) => Ok(self.entries.insert(index, (who, value))?),
        }
    }

    /// Gives a process that the table has not this value: the process is put at its place, without another search. After an
    /// error the table is as it was.
    pub fn insert_at(&mut self, place: usize, who: Unique, value: V) -> Result<(), AllocError>
        requires { Err place ≡ index unique_cmp who (map.entries self.old) }
        ensures ok { OnOk result (self.new ≡ map.insert self.old who value) }
        ensures err { OnErr result (self.new ≡ self.old) }
    {
        if place == self.entries.len() {
            return Ok(self.entries.push((who, value))?);
        }
        Ok(self.entries.insert(place, (who, value))?)
    }

    /// Gives the process that stands at a place this value. Takes no memory.
    pub fn set_at(&mut self, place: usize, value: V)
        requires { place < map.len self.old }
        ensures { (who : UniqueModel) → Ok place ≡ index unique_cmp who (map.entries self.old) → self.new ≡ map.insert self.old who value }
    {
        self.entries[place].1 = value;
    }

    /// Gives the process this value where the table has it; whether it has. Takes no memory.
    pub fn update(&mut self, who: &Unique, value: V) -> bool
        ensures has { result ≡ map.contains_key self.old who.now }
        ensures after { self.new ≡ (if result then map.insert self.old who.now value else self.old) }
    {
        match index_of(&self.entries, who) {
            Ok(index) => {
                self.entries[index].1 = value;
                true
            }
            Err(_) => false,
        }
    }

    /// Takes the process out, if the table has it. Takes no memory.
    pub fn remove(&mut self, who: &Unique)
        ensures { self.new ≡ map.remove self.old who.now }
    {
        match index_of(&self.entries, who) {
            Ok(index) => {
                let _ = self.entries.remove(index);
            }
            Err(_) => {}
        }
    }
}

impl<V: Duplicate + Drop> Table<V> {
    /// An equal table. Only memory can fail; that of a table that has no process takes none.
    pub fn copy(&self, alloc: Global) -> Result<Table<V>, AllocError>
        ensures ok { IfOk result (λ copy. copy ≡ self.now) }
        ensures memory { self.now ≡ map.empty → IsOk result }
    {
        if self.entries.len() == 0 {
            return Ok(Table::empty(alloc));
        }
        let mut entries = Vec::with_capacity(alloc, self.entries.len())?;
        push_copies(alloc, &mut entries, &self.entries)?;
        Ok(Table { entries })
    }
}

impl<V: Merge + Drop> Table<V> {
    /// Takes in another table: a process that one of the two has keeps its value, and where both have it, the
    /// values are merged. After an error the table is as it was; one that has no process brings nothing and takes no memory.
    pub fn merge(&mut self, alloc: Global, other: &Table<V>) -> Result<(), AllocError>
        ensures ok { OnOk result (self.new ≡ merged_tables V.merged self.old other.now) }
        ensures err { OnErr result (self.new ≡ self.old) }
        ensures memory { other.now ≡ map.empty → IsOk result }
    {
        if other.entries.len() == 0 {
            return Ok(());
        }
        let entries = weave(alloc, &self.entries, &other.entries)?;
        self.entries = entries;
        Ok(())
    }
}

// Where the process stands, or as an error where it would go: at the end, where whoever adds processes in their order is
// answered at once, or where a search finds it.
fn index_from_end<V>(entries: &[(Unique, V)], who: &Unique) -> Result<usize, usize>
    requires { IsTrue (map.is_sorted unique_cmp entries.now) }
    ensures { result ≡ index unique_cmp who.now entries.now }
{
    if is_past(entries, who) {
        return Err(entries.len());
    }
    index_of(entries, who)
}

// The same by a search by halves alone, for whoever asks about processes that mostly stand there.
fn index_of<V>(entries: &[(Unique, V)], who: &Unique) -> Result<usize, usize>
    requires { IsTrue (map.is_sorted unique_cmp entries.now) }
    ensures { result ≡ index unique_cmp who.now entries.now }
{
    let mut low = 0;
    let mut high = entries.len();
    'halves: while low < high {
        let middle = low + (high - low) / 2;
        let order = who.compare(&entries[middle].0);
        if order.is_eq() {
            return Ok(middle);
        }
        if order.is_lt() {
            high = middle;
        } else {
            low = middle + 1;
        }
    }
    Err(low)
}

// Whether the process comes after all that stand here.
fn is_past<V>(entries: &[(Unique, V)], who: &Unique) -> bool
    requires { IsTrue (map.is_sorted unique_cmp entries.now) }
    ensures { IsTrue result → index unique_cmp who.now entries.now ≡ Err (length entries.now) }
{
    let many = entries.len();
    if many == 0 {
        return true;
    }
    who.compare(&entries[many - 1].0).is_gt()
}

// The value of the process.
fn value_of<'a, V>(entries: &'a [(Unique, V)], who: &Unique) -> Option<&'a V>
    requires { IsTrue (map.is_sorted unique_cmp entries.now) }
    ensures { option_copied result ≡ map.find unique_cmp who.now entries.now }
{
    if entries.len() <= FEW {
        return value_along(entries, who);
    }
    match index_of(entries, who) {
        Ok(index) => Some(&entries[index].1),
        Err(_) => None,
    }
}

// The same by a look at each pair.
fn value_along<'a, V>(entries: &'a [(Unique, V)], who: &Unique) -> Option<&'a V>
    ensures { option_copied result ≡ map.find unique_cmp who.now entries.now }
{
    'entries: for entry in entries {
        if who.is(&entry.0) {
            return Some(&entry.1);
        }
    }
    None
}

// Raises the value of each pair.
fn raise_each<V: Raise>(entries: &mut [(Unique, V)], most: u32)
    ensures { entries.new ≡ list.map (λ e. (e.0, V.raised most e.1)) entries.old }
{
    'entries: for entry in entries.iter_mut() {
        entry.1.raise(most);
    }
}

fn pair_at<V>(entries: &[(Unique, V)], index: usize) -> Option<(&Unique, &V)>
    ensures { option_map (λ pair. (pair.0.now, pair.1.now)) result ≡ slice_get entries.now index }
{
    if index < entries.len() {
        let entry = &entries[index];
        return Some((&entry.0, &entry.1));
    }
    None
}

// Appends an equal pair.
fn push_copy<V: Duplicate + Drop>(
    alloc: Global,
    pairs: &mut Vec<(Unique, V)>,
    pair: &(Unique, V),
) -> Result<(), AllocError>
    ensures { OnOk result (pairs.new.items ≡ pairs.old.items ++ pair.now ∷ []) }
{
    let who = pair.0.copy(alloc)?;
    let value = pair.1.copy(alloc)?;
    pairs.push((who, value))?;
    Ok(())
}

// Appends equal pairs.
fn push_copies<V: Duplicate + Drop>(
    alloc: Global,
    pairs: &mut Vec<(Unique, V)>,
    more: &[(Unique, V)],
) -> Result<(), AllocError>
    ensures { OnOk result (pairs.new.items ≡ pairs.old.items ++ more.now) }
{
    'pairs: for pair in more {
        push_copy(alloc, pairs, pair)?;
    }
    Ok(())
}

// The pairs of both lists in order, two of one process merged: one walk along both.
fn weave<V: Merge + Drop>(
    alloc: Global,
    left: &[(Unique, V)],
    right: &[(Unique, V)],
) -> Result<Vec<(Unique, V)>, AllocError>
    ensures { IfOk result (λ pairs. pairs.items ≡ woven unique_cmp V.merged left.now right.now) }
{
    let mut pairs = Vec::with_capacity(alloc, left.len().max(right.len()))?;
    let mut i = 0;
    let mut j = 0;
    'pairs: while i < left.len() && j < right.len() {
        let order = left[i].0.compare(&right[j].0);
        if order.is_lt() {
            push_copy(alloc, &mut pairs, &left[i])?;
            i += 1;
        } else if order.is_eq() {
            push_merge(alloc, &mut pairs, &left[i], &right[j])?;
            i += 1;
            j += 1;
        } else {
            push_copy(alloc, &mut pairs, &right[j])?;
            j += 1;
        }
    }
    push_copies(alloc, &mut pairs, &left[i..])?;
    push_copies(alloc, &mut pairs, &right[j..])?;
    Ok(pairs)
}

// Appends the pair that two pairs of one process come to.
fn push_merge<V: Merge + Drop>(
    alloc: Global,
    pairs: &mut Vec<(Unique, V)>,
    left: &(Unique, V),
    right: &(Unique, V),
) -> Result<(), AllocError>
    ensures { OnOk result (pairs.new.items ≡ pairs.old.items ++ (left.now.0, V.merged left.now.1 right.now.1) ∷ []) }
{
    let who = left.0.copy(alloc)?;
    let value = left.1.merged(alloc, &right.1)?;
    pairs.push((who, value))?;
    Ok(())
}
