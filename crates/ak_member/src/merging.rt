//! What two views come to: of each process what both know of it.

ghost use Rattle.std.specs.Prelude.{◌≡◌, ◌++◌, IfOk, OnOk, IsOk, IsTrue, Some, reverse, slice_get, option_to_list};
ghost use Rattle.std.specs.FinMap as map;
ghost use Rattle.ak_address.specs.Unique.{UniqueModel};
ghost use Rattle.ak_member.specs.declared.standing.Standing.{Standing};
ghost use Rattle.ak_member.specs.Merging.{noted, all_noted, unknown, CanBeAdded};
ghost use Rattle.ak_member.specs.Slots.{standings_of};
ghost use Rattle.ak_member.specs.Standing.{merged_standing};

use crate::slots::Slots;
use crate::standing::Standing;
use ak_address::Unique;
use std::alloc::{AllocError, Global};

/// Merges the standing with what is known of the process, where something is; whether something is. The slot at this index in the order
/// of processes is looked at first. Takes no memory.
pub(crate) fn note_known(slots: &mut Slots, near: usize, who: &Unique, standing: Standing) -> bool
    ensures has { result ≡ map.contains_key (standings_of slots.old.entries) who.now }
    ensures after { standings_of slots.new.entries ≡ noted (standings_of slots.old.entries) (who.now, standing) }
    ensures room { slots.new.room ≡ slots.old.room }
{
    let Some(slot) = slots.slot_near(near, who) else {
        return false;
    };
    let merged = with_known(slots, slot, standing);
    if has_standing(slots, slot, merged) {
        return true;
    }
    slots.set(slot, merged);
    true
}

// Whether the slot has this standing already: then nothing is to be written, as mostly in a merge.
fn has_standing(slots: &Slots, slot: usize, standing: Standing) -> bool
    ensures { IsTrue result → (who : UniqueModel) (x : Standing) → slice_get slots.now.entries slot ≡ Some (who, x) → x ≡ standing }
{
    match slots.at_slot(slot) {
        Some((_, known)) => *known == standing,
        None => false,
    }
}

// The standing, merged with what is known of the process of a slot.
fn with_known(slots: &Slots, slot: usize, standing: Standing) -> Standing
    ensures { (who : UniqueModel) (x : Standing) → slice_get slots.now.entries slot ≡ Some (who, x) → result ≡ merged_standing x standing }
{
    let Some((_, before)) = slots.at_slot(slot) else {
        return standing;
    };
    before.with(&standing)
}

/// Merges each standing with what is known of its process, where something is. Takes no memory.
pub(crate) fn note_all(slots: &mut Slots, other: &Slots)
    ensures after { standings_of slots.new.entries ≡ all_noted (map.entries (standings_of other.now.entries)) (standings_of slots.old.entries) }
    ensures room { slots.new.room ≡ slots.old.room }
{
    // Where the process stands here, if those before it are known to both alike.
    let mut near = 0_usize;
    'pairs: for pair in 0..other.len() {
        if let Some((who, standing)) = other.at(pair) {
            if note_known(slots, near, who, *standing) {
                near = near.saturating_add(1);
            }
        }
    }
}

/// Copies of the standings of those of whom nothing is known here, the last process first. Only memory can fail.
pub(crate) fn unknown_of(
    alloc: Global,
    slots: &Slots,
    other: &Slots,
) -> Result<Vec<(Unique, Standing)>, AllocError>
    ensures { IfOk result (λ new. reverse new.items ≡ unknown (standings_of slots.now.entries) (map.entries (standings_of other.now.entries))) }
{
    let mut new = Vec::new(alloc);
    let mut pair = other.len();
    // How many processes of the other view are left, if both know the same.
    let mut near = slots.len();
    'pairs: while pair > 0 {
        pair -= 1;
        if let Some((who, standing)) = other.at(pair) {
            near = push_unknown(alloc, &mut new, slots, near, who, *standing)?;
        }
    }
    Ok(new)
}

// Appends a copy, where nothing is known of the process. It stands before this index, if both views know the same: the answer is the
// index for the process before it.
fn push_unknown(
    alloc: Global,
    new: &mut Vec<(Unique, Standing)>,
    slots: &Slots,
    near: usize,
    who: &Unique,
    standing: Standing,
) -> Result<usize, AllocError>
    ensures { OnOk result (new.new.items ≡ new.old.items ++ unknown (standings_of slots.now.entries) (option_to_list (Some (who.now, standing)))) }
{
    let before = near.saturating_sub(1);
    if slots.slot_near(before, who).is_some() {
        return Ok(before);
    }
    new.push((who.copy(alloc)?, standing))?;
    Ok(near)
}

/// Gives each of these processes a slot, the last of them first, which is the first process: so most go to the end. Nothing is known
/// of them, and there is room, so it takes no memory.
pub(crate) fn add_all(slots: &mut Slots, new: Vec<(Unique, Standing)>) -> Result<(), AllocError>
    requires { CanBeAdded (standings_of slots.old.entries) slots.old.room (reverse new.items) }
    ensures done { IsOk result }
    ensures after { slots.new.entries ≡ slots.old.entries ++ reverse new.items }
{
    let mut left = new;
    'new: while let Some((who, standing)) = left.pop() {
        slots.add(who, standing)?;
    }
    Ok(())
}
