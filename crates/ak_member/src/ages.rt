//! The places of the slots of the members that count, the oldest first.

ghost use Rattle.std.specs.Prelude.{◌≡◌, ℕ, ◌<◌, ◌≤◌, true, get_or, length, option_map, IsTrue};
ghost use Rattle.std.specs.List.{AllByRecursion};
ghost use Rattle.std.specs.FinMap as map;
ghost use Rattle.std.specs.Vec.{vec_capacity};
ghost use Rattle.ak_address.specs.Pairs.{index};
ghost use Rattle.ak_address.specs.Unique.{UniqueModel};
ghost use Rattle.ak_member.specs.Ages.{age_cmp, age_at, has_age, has_age_but, key_at, keyed, Lists, AreByAge};
ghost use Rattle.ak_member.specs.Slots.{no_slot};

use crate::standing::Standing;
use ak_address::Unique;
use indexmap::IndexMap;
use std::cmp::Ordering;

/// Takes a slot out of the list by age, if it counts. Takes no memory.
pub(crate) fn leave(slots: &IndexMap<Unique, Standing>, by_age: &mut Vec<usize>, slot: usize)
    requires { AreByAge slots.now.entries by_age.old.items }
    ensures left { Lists (has_age_but slot slots.now.entries) (key_at slots.now.entries) by_age.new.items }
    ensures room { vec_capacity by_age.new ≡ vec_capacity by_age.old }
{
    let Some((number, who)) = age_of(slots, slot) else {
        return;
    };
    if let Ok(index) = index_of_age(slots, by_age, number, who) {
        let _ = by_age.remove(index);
    }
}

/// Puts a slot into the list by age, if it counts: there is room for it. Takes no memory.
pub(crate) fn enter(slots: &IndexMap<Unique, Standing>, by_age: &mut Vec<usize>, slot: usize)
    requires left { Lists (has_age_but slot slots.now.entries) (key_at slots.now.entries) by_age.old.items }
    requires room { length slots.now.entries ≤ vec_capacity by_age.old }
    ensures all { AreByAge slots.now.entries by_age.new.items }
    ensures room { vec_capacity by_age.new ≡ vec_capacity by_age.old }
{
    // `len` is called for its clause that no process has two slots.
    let _ = slots.len();
    let Some((number, who)) = age_of(slots, slot) else {
        return;
    };
    if let Err(index) = index_of_age(slots, by_age, number, who) {
        // It cannot fail, since there is room.
        let _ = by_age.insert(index, slot);
    }
}

// The up number and the process of a slot, if it counts.
fn age_of(slots: &IndexMap<Unique, Standing>, slot: usize) -> Option<(u64, &Unique)>
    ensures { option_map (λ a. (a.0, a.1.now)) result ≡ option_map {U = ℕ × UniqueModel} (λ number. (number, (get_or slots.now.entries slot no_slot).0)) (age_at slots.now.entries slot) }
{
    match slots.get_index(slot) {
        Some((who, Standing::Member(status, number))) => {
            if status.counts() {
                return Some((*number, who));
            }
            None
        }
        Some((_, Standing::Buried(_))) => None,
        None => None,
    }
}

// Where a slot with this number and process stands in the list by age, or as an error where it would go: a search by halves.
fn index_of_age(
    slots: &IndexMap<Unique, Standing>,
    by_age: &[usize],
    number: u64,
    who: &Unique,
) -> Result<usize, usize>
    requires counted { AllByRecursion (λ place. has_age slots.now.entries place ≡ true) by_age.now }
    requires sorted { IsTrue (map.is_sorted age_cmp (keyed (key_at slots.now.entries) by_age.now)) }
    ensures { result ≡ index age_cmp (number, who.now) (keyed (key_at slots.now.entries) by_age.now) }
{
    let mut low = 0;
    let mut high = by_age.len();
    'halves: while low < high {
        let middle = low + (high - low) / 2;
        let (other_number, other) = age_in(slots, by_age, middle);
        let compared = compare_ages(number, who, other_number, other);
        if compared.is_eq() {
            return Ok(middle);
        }
        if compared.is_lt() {
            high = middle;
        } else {
            low = middle + 1;
        }
    }
    Err(low)
}

// By the up number, then by process.
fn compare_ages(number: u64, who: &Unique, other_number: u64, other: &Unique) -> Ordering
    ensures { result ≡ age_cmp (number, who.now) (other_number, other.now) }
{
    match number.cmp(&other_number) {
        Ordering::Less => Ordering::Less,
        Ordering::Equal => who.compare(other),
        Ordering::Greater => Ordering::Greater,
    }
}

// The up number and the process of the slot at an index of the list by age.
fn age_in<'a>(
    slots: &'a IndexMap<Unique, Standing>,
    by_age: &[usize],
    at: usize,
) -> (u64, &'a Unique)
    requires counted { AllByRecursion (λ place. has_age slots.now.entries place ≡ true) by_age.now }
    requires within { at < length by_age.now }
    ensures { ◌≡◌ {A = ℕ × UniqueModel} (result.0, result.1.now) (key_at slots.now.entries (get_or by_age.now at 0)) }
{
    age_of(slots, by_age[at]).unwrap()
}
