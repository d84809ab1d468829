//! The processes that are known, each in a slot with what is known of it.

ghost use Rattle.std.specs.Prelude.{◌≡◌, ◌↔◌, ℕ, ◌+◌, ◌-◌, ◌<◌, ◌≤◌, IfOk, OnOk, OnErr, IsOk, Ok, Err, None, Some, [], ◌∷◌, ◌++◌, length, get_or, slice_get, option_map, option_copied, MatchOption, IsTrue};
ghost use Rattle.std.specs.List.{AllByRecursion};
ghost use Rattle.std.specs.FinMap as map;
ghost use Rattle.ak_address.specs.Unique.{UniqueModel, unique_cmp};
ghost use Rattle.ak_address.specs.Pairs.{index};
ghost use Rattle.ak_member.specs.declared.standing.Standing.{Standing};
ghost use Rattle.ak_member.specs.Age.{IsOldest};
ghost use Rattle.ak_member.specs.Slots.{standings_of, picked, no_slot};

use crate::ages::{enter, leave};
use crate::standing::Standing;
use ak_address::Unique;
use indexmap::IndexMap;
use std::alloc::{AllocError, Global};
use std::marker::Model;

/// Processes, each in a slot with its standing: the slots are numbered from 0 on in the order in which processes came, a process
/// is found by a look at each slot where there are few, and by its hash where there are more, and the places of the slots are kept
/// in the order of processes, and those of the members that count also by age (this project's choice).
#[derive(Drop)]
pub(crate) struct Slots {
    slots: IndexMap<Unique, Standing>,
    order: Vec<usize>,
    by_age: Vec<usize>,
}

impl Model for Slots {
    ghost use Rattle.std.specs.HashMap.{spare};
    ghost use Rattle.ak_member.specs.Ages.{KeepsSlots};
    ghost use Rattle.ak_member.specs.Slots.{SlotsModel, coded_slots};
    ghost use Rattle.std.specs.Prelude.{min, ◌-◌, length};

    ghost Value = { SlotsModel };

    ghost coded = { coded_slots };

    ghost view = { λ s. record { entries = s.slots.entries; room = min (spare s.slots) (min (s.order.cap - s.order.len) (s.by_age.cap - length s.slots.entries)) } };

    // Each slot has one place, and the places go by process: so an index in the order of processes is one look, and a process is
    // placed by halves. Those that count stand once in the list by age, the oldest first: so the oldest is the first. That list has
    // room for all slots: so a rise takes no memory.
    ghost invariant = { λ s. KeepsSlots s.slots.entries s.order.items s.by_age.items s.by_age.cap };
}

// Of so few slots each is looked at sooner than a hash is made.
const FEW: usize = 8;

impl Slots {
    /// No slot. Takes no memory.
    pub(crate) fn empty(alloc: Global) -> Slots
        ensures { result.entries ≡ [] }
    {
        Slots {
            slots: IndexMap::new(alloc),
            order: Vec::new(alloc),
            by_age: Vec::new(alloc),
        }
    }

    /// No slot, with room for so many. Only memory can fail; room for none takes none.
    pub(crate) fn with_capacity(alloc: Global, many: usize) -> Result<Slots, AllocError>
        ensures ok { IfOk result (λ slots. slots.entries ≡ []) }
        ensures memory { many ≡ 0 → IsOk result }
    {
        let slots = IndexMap::with_capacity(alloc, many)?;
        let order = Vec::with_capacity(alloc, many)?;
        let by_age = Vec::with_capacity(alloc, many)?;
        Ok(Slots {
            slots,
            order,
            by_age,
        })
    }

    /// How many processes are known.
    pub(crate) fn len(&self) -> usize
        ensures { result ≡ map.len (standings_of self.now.entries) }
    {
        self.order.len()
    }

    /// The slot of the process; none where it has none. Takes no memory.
    pub(crate) fn slot_of(&self, who: &Unique) -> Option<usize>
        ensures { MatchOption result (map.get (standings_of self.now.entries) who.now ≡ None) (λ slot. (x : Standing) × (slice_get self.now.entries slot ≡ Some (who.now, x)) × (map.get (standings_of self.now.entries) who.now ≡ Some x)) }
    {
        match self.slots.get_full(who) {
            Some((slot, _, _)) => Some(slot),
            None => None,
        }
    }

    /// The slot of the process, as `slot_of` answers it. The slot at this index in the order of processes is looked at before anything
    /// is hashed: two views mostly know the same processes, so whoever walks along one of them is mostly right. Takes no memory.
    pub(crate) fn slot_near(&self, index: usize, who: &Unique) -> Option<usize>
        ensures { MatchOption result (map.get (standings_of self.now.entries) who.now ≡ None) (λ slot. (x : Standing) × (slice_get self.now.entries slot ≡ Some (who.now, x)) × (map.get (standings_of self.now.entries) who.now ≡ Some x)) }
    {
        if let Some(slot) = self.order.get(index) {
            if self.has_at(*slot, who) {
                return Some(*slot);
            }
        }
        self.slot_of(who)
    }

    // Whether this is the slot of the process. A yes says what is known of it, too.
    fn has_at(&self, slot: usize, who: &Unique) -> bool
        ensures { IsTrue result → (x : Standing) × (slice_get self.now.entries slot ≡ Some (who.now, x)) × (map.get (standings_of self.now.entries) who.now ≡ Some x) }
    {
        // `len` is called for its clause that no process has two slots.
        let _ = self.slots.len();
        match self.slots.get_index(slot) {
            Some((there, _)) => there.is(who),
            None => false,
        }
    }

    /// What is known of the process. Takes no memory.
    pub(crate) fn get(&self, who: &Unique) -> Option<&Standing>
        ensures { option_copied result ≡ map.get (standings_of self.now.entries) who.now }
    {
        // A node that knows nobody yet is asked often, and no hash is needed for it.
        if self.slots.len() == 0 {
            return None;
        }
        self.slots.get(who)
    }

    /// The process as its slot has it, and what is known of it; none where it has no slot. Takes no memory.
    #[inline(always)]
    pub(crate) fn find(&self, who: &Unique) -> Option<(&Unique, &Standing)>
        ensures { option_map (λ pair. (pair.0.now, pair.1.now)) result ≡ option_map {U = UniqueModel × Standing} (λ x. (who.now, x)) (map.get (standings_of self.now.entries) who.now) }
    {
        if self.slots.len() <= FEW {
            return found_along(&self.slots, who);
        }
        found_by_hash(&self.slots, who)
    }

    /// The process of a slot, and what is known of it; none past the last. Takes no memory.
    pub(crate) fn at_slot(&self, slot: usize) -> Option<(&Unique, &Standing)>
        ensures { option_map (λ pair. (pair.0.now, pair.1.now)) result ≡ slice_get self.now.entries slot }
    {
        self.slots.get_index(slot)
    }

    /// The process at an index, from 0 on in the order of processes, and what is known of it; none past the end. Takes no memory.
    pub(crate) fn at(&self, index: usize) -> Option<(&Unique, &Standing)>
        ensures { option_map (λ pair. (pair.0.now, pair.1.now)) result ≡ slice_get (map.entries (standings_of self.now.entries)) index }
    {
        match self.order.get(index) {
            Some(slot) => self.slots.get_index(*slot),
            None => None,
        }
    }

    /// The index at which the process stands, from 0 on in the order of processes, or as an error the one at which it would stand.
    /// Takes no memory.
    pub(crate) fn place(&self, who: &Unique) -> Result<usize, usize>
        ensures { result ≡ index unique_cmp who.now (map.entries (standings_of self.now.entries)) }
    {
        index_of(&self.slots, &self.order, who)
    }

    /// Makes room for so many more slots. Only memory can fail; the slots stay as they are.
    pub(crate) fn reserve(&mut self, more: usize) -> Result<(), AllocError>
        ensures same { self.new.entries ≡ self.old.entries }
        ensures ok { OnOk result (more ≤ self.new.room) }
    {
        self.order.reserve(more)?;
        self.by_age
            .reserve(self.slots.len() - self.by_age.len() + more)?;
        self.slots.reserve(more)
    }

    /// Gives a process that has none a slot, the last. Only memory can fail, and only where there is no room; after an error the
    /// slots are as they were.
    pub(crate) fn add(&mut self, who: Unique, standing: Standing) -> Result<(), AllocError>
        requires { map.get (standings_of self.old.entries) who ≡ None }
        ensures ok { OnOk result (self.new.entries ≡ self.old.entries ++ (who, standing) ∷ []) }
        ensures err { OnErr result (self.new.entries ≡ self.old.entries) }
        ensures succeeds { 0 < self.old.room → IsOk result }
        ensures room { self.old.room ≤ self.new.room + 1 }
    {
        let index = new_index(&self.slots, &self.order, &who);
        let slot = self.slots.len();
        self.by_age.reserve(slot - self.by_age.len() + 1)?;
        self.order.reserve(1)?;
        self.slots.insert(who, standing)?;
        self.order.insert(index, slot)?;
        enter(&self.slots, &mut self.by_age, slot);
        Ok(())
    }

    /// Puts another standing into a slot. Takes no memory.
    pub(crate) fn set(&mut self, slot: usize, standing: Standing)
        requires { slot < length self.old.entries }
        ensures room { self.new.room ≡ self.old.room }
        ensures known { (who : UniqueModel) (x : Standing) → slice_get self.old.entries slot ≡ Some (who, x) → standings_of self.new.entries ≡ map.insert (standings_of self.old.entries) who standing }
    {
        leave(&self.slots, &mut self.by_age, slot);
        let (_, known) = self.slots.pair_mut(slot);
        *known = standing;
        enter(&self.slots, &mut self.by_age, slot);
    }

    /// The oldest of the members that count; none where none counts. Takes no memory.
    pub(crate) fn oldest(&self) -> Option<&Unique>
        ensures { IsOldest (standings_of self.now.entries) (option_copied result) }
    {
        // `len` is called for its clause that no process has two slots.
        let _ = self.slots.len();
        match self.by_age.first() {
            Some(slot) => process_of(&self.slots, *slot),
            None => None,
        }
    }

    /// Whether both have the same processes in the same slots, and know the same of each. Takes no memory.
    pub(crate) fn has_slots_of(&self, other: &Slots) -> bool
        ensures { IsTrue result ↔ self.now.entries ≡ other.now.entries }
    {
        are_same(&self.slots, &other.slots)
    }

    /// Equal slots, with room for as many. Only memory can fail; a copy of no slot takes none.
    pub(crate) fn copy(&self, alloc: Global) -> Result<Slots, AllocError>
        ensures ok { IfOk result (λ copy. copy.entries ≡ self.now.entries) }
        ensures memory { self.now.entries ≡ [] → IsOk result }
    {
        if self.slots.len() == 0 {
            return Ok(Slots::empty(alloc));
        }
        let slots = copied(alloc, &self.slots)?;
        let mut order = Vec::with_capacity(alloc, self.order.len())?;
        order.extend_from_slice(&self.order)?;
        let mut by_age = Vec::with_capacity(alloc, slots.len())?;
        by_age.extend_from_slice(&self.by_age)?;
        Ok(Slots {
            slots,
            order,
            by_age,
        })
    }
}

// The process of a slot.
fn process_of(slots: &IndexMap<Unique, Standing>, slot: usize) -> Option<&Unique>
    ensures { option_copied result ≡ option_map {T = UniqueModel × Standing} (λ pair. pair.0) (slice_get slots.now.entries slot) }
{
    match slots.get_index(slot) {
        Some((who, _)) => Some(who),
        None => None,
    }
}

// The process and what is known of it. Apart, so that a walk along few slots stays small.
#[inline(never)]
fn found_by_hash<'a>(
    slots: &'a IndexMap<Unique, Standing>,
    who: &Unique,
) -> Option<(&'a Unique, &'a Standing)>
    ensures { option_map (λ pair. (pair.0.now, pair.1.now)) result ≡ option_map {U = UniqueModel × Standing} (λ x. (who.now, x)) (map.get (standings_of slots.now.entries) who.now) }
{
    slots.get_key_value(who)
}

// The same by a look at each slot.
#[inline(always)]
fn found_along<'a>(
    slots: &'a IndexMap<Unique, Standing>,
    who: &Unique,
) -> Option<(&'a Unique, &'a Standing)>
    ensures { option_map (λ pair. (pair.0.now, pair.1.now)) result ≡ option_map {U = UniqueModel × Standing} (λ x. (who.now, x)) (map.get (standings_of slots.now.entries) who.now) }
{
    'slots: for slot in 0..slots.len() {
        if let Some((there, standing)) = slots.get_index(slot) {
            if there.is(who) {
                return Some((there, standing));
            }
        }
    }
    None
}

// An equal map, with room for as many.
fn copied(
    alloc: Global,
    slots: &IndexMap<Unique, Standing>,
) -> Result<IndexMap<Unique, Standing>, AllocError>
    ensures { IfOk result (λ copy. copy.entries ≡ slots.now.entries) }
{
    let mut copy = IndexMap::with_capacity(alloc, slots.len())?;
    'slots: for slot in 0..slots.len() {
        if let Some((who, standing)) = slots.get_index(slot) {
            copy.insert(who.copy(alloc)?, *standing)?;
        }
    }
    Ok(copy)
}

// Where a process that has no slot would go in the order of processes: at the end, where whoever adds processes in their order is
// answered at once, or where a search finds it.
fn new_index(slots: &IndexMap<Unique, Standing>, order: &[usize], who: &Unique) -> usize
    requires placed { AllByRecursion (λ place. place < length slots.now.entries) order.now }
    requires sorted { IsTrue (map.is_sorted unique_cmp (picked order.now slots.now.entries)) }
    requires absent { map.find unique_cmp who.now (picked order.now slots.now.entries) ≡ None }
    ensures { Err result ≡ index unique_cmp who.now (picked order.now slots.now.entries) }
{
    if is_past(slots, order, who) {
        return order.len();
    }
    match index_of(slots, order, who) {
        Ok(index) => index,
        Err(index) => index,
    }
}

// Where the process stands among the slots at these places, or as an error where it would go: a search by halves.
fn index_of(
    slots: &IndexMap<Unique, Standing>,
    order: &[usize],
    who: &Unique,
) -> Result<usize, usize>
    requires placed { AllByRecursion (λ place. place < length slots.now.entries) order.now }
    requires sorted { IsTrue (map.is_sorted unique_cmp (picked order.now slots.now.entries)) }
    ensures { result ≡ index unique_cmp who.now (picked order.now slots.now.entries) }
{
    let mut low = 0;
    let mut high = order.len();
    'halves: while low < high {
        let middle = low + (high - low) / 2;
        let compared = who.compare(process_at(slots, order, middle));
        if compared.is_eq() {
            return Ok(middle);
        }
        if compared.is_lt() {
            high = middle;
        } else {
            low = middle + 1;
        }
    }
    Err(low)
}

// Whether the process comes after all that stand at these places.
fn is_past(slots: &IndexMap<Unique, Standing>, order: &[usize], who: &Unique) -> bool
    requires placed { AllByRecursion (λ place. place < length slots.now.entries) order.now }
    requires sorted { IsTrue (map.is_sorted unique_cmp (picked order.now slots.now.entries)) }
    ensures { IsTrue result → index unique_cmp who.now (picked order.now slots.now.entries) ≡ Err (length order.now) }
{
    let many = order.len();
    if many == 0 {
        return true;
    }
    who.compare(process_at(slots, order, many - 1)).is_gt()
}

// The process of the slot at a place.
fn process_at<'a>(slots: &'a IndexMap<Unique, Standing>, order: &[usize], at: usize) -> &'a Unique
    requires placed { AllByRecursion (λ place. place < length slots.now.entries) order.now }
    requires within { at < length order.now }
    ensures { result.now ≡ (get_or (picked order.now slots.now.entries) at no_slot).0 }
{
    let (who, _) = slots.get_index(order[at]).unwrap();
    who
}

// Whether both have the same pairs in the same order.
fn are_same(one: &IndexMap<Unique, Standing>, other: &IndexMap<Unique, Standing>) -> bool
    ensures { IsTrue result ↔ one.now.entries ≡ other.now.entries }
{
    let many = one.len();
    if other.len() != many {
        return false;
    }
    'slots: for slot in 0..many {
        if !is_same_slot(one.get_index(slot), other.get_index(slot)) {
            return false;
        }
    }
    true
}

// Whether both are none, or both the same process of which the same is known.
fn is_same_slot(one: Option<(&Unique, &Standing)>, other: Option<(&Unique, &Standing)>) -> bool
    ensures { IsTrue result ↔ option_map {U = UniqueModel × Standing} (λ pair. (pair.0.now, pair.1.now)) one.entry ≡ option_map {U = UniqueModel × Standing} (λ pair. (pair.0.now, pair.1.now)) other.entry }
{
    match (one, other) {
        (None, None) => true,
        (Some((one, standing)), Some((other, known))) => *standing == *known && one.is(other),
        _ => false,
    }
}
