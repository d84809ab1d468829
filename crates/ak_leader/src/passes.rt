ghost use Rattle.std.specs.Prelude.{◌≡◌, ◌≢◌, ◌||◌, IsTrue, ◌+◌, [], ◌∷◌, ◌++◌, true, false, if◌then◌else◌, IfOk, OnOk, OnErr, slice_get, option_to_list};
ghost use Rattle.std.specs.FinMap as map;
ghost use Rattle.ak_member.specs.Standing.{member_pairs, members_of};
ghost use Rattle.ak_member.specs.declared.effect.Effect.TheVariants.{Rise, Removed};
ghost use Rattle.ak_member.specs.declared.status.Status.TheVariants.{Up};
ghost use Rattle.ak_reach.specs.Unreachable.{unreachable_members};
ghost use Rattle.ak_leader.specs.Leader.{greatest_number, number_after, has_next, all_led, leaders_effects};
ghost use Rattle.ak_leader.specs.Walk.{number_past};

use ak_address::{Unique, Uniques};
use ak_clock::BOUND;
use ak_member::{Effect, Effects, Members, Standing, Status};
use ak_reach::{Rows, is_unreachable};
use std::alloc::{AllocError, Global};

/// What the leader makes of a view on which all agree, in one pass in the order of processes: a Joining or WeaklyUp member
/// comes Up with the next number above all up numbers of the view, from 1 to `BOUND` (past that, it stays as it is); a Leaving
/// one exits; an Exiting or Down one that is among those confirmed to have stopped is removed as confirmed; any other Down one
/// that is unreachable is removed unconfirmed (Akka's Cluster Specification, "Leader"; the confirmation is this project's
/// choice). Only memory can fail, and only where there is an effect.
pub fn actions(
    alloc: Global,
    members: &Members,
    rows: &Rows,
    confirmed: &Uniques,
) -> Result<Effects, AllocError>
    ensures ok { IfOk result (λ effects. effects ≡ leaders_effects (record { standings = members.now; rows = rows.now }) confirmed.now) }
    ensures memory { OnErr result (leaders_effects (record { standings = members.now; rows = rows.now }) confirmed.now ≢ []) }
{
    let mut effects = Effects::empty(alloc);
    let mut number = greatest_number(members);
    'pairs: for pair in 0..members.uniques() {
        let effect = effect_at(alloc, members, rows, confirmed, pair, number)?;
        add(&mut effects, effect)?;
        number = number_past(members, pair, number);
    }
    Ok(effects)
}

// The greatest up number of a member, 0 where no member has one.
fn greatest_number(members: &Members) -> u64
    ensures { result ≡ greatest_number (members_of members.now) }
{
    let mut greatest = 0;
    'pairs: for pair in 0..members.uniques() {
        greatest = number_at(members, pair).max(greatest);
    }
    greatest
}

// The up number of the member at an index among all that are known, 0 where there is none.
fn number_at(members: &Members, pair: usize) -> u64
    ensures { result ≡ greatest_number (member_pairs (option_to_list (slice_get (map.entries members.now) pair))) }
{
    match members.pair(pair) {
        Some((_, Standing::Member(_, number))) => number,
        Some((_, Standing::Buried(_))) => 0,
        None => 0,
    }
}

// What the leader makes of the member at an index among all that are known, after this number was given.
fn effect_at(
    alloc: Global,
    members: &Members,
    rows: &Rows,
    confirmed: &Uniques,
    pair: usize,
    number: u64,
) -> Result<Option<Effect>, AllocError>
    ensures ok { IfOk result (λ effect. option_to_list effect ≡ all_led (unreachable_members (record { standings = members.now; rows = rows.now })) confirmed.now number (member_pairs (option_to_list (slice_get (map.entries members.now) pair)))) }
    ensures memory { OnErr result (all_led (unreachable_members (record { standings = members.now; rows = rows.now })) confirmed.now number (member_pairs (option_to_list (slice_get (map.entries members.now) pair))) ≢ []) }
{
    match members.pair(pair) {
        Some((who, Standing::Member(Status::Joining, _))) => rise(alloc, who, number),
        Some((who, Standing::Member(Status::WeaklyUp, _))) => rise(alloc, who, number),
        Some((_, Standing::Member(Status::Up, _))) => Ok(None),
        Some((who, Standing::Member(Status::Leaving, _))) => {
            Ok(Some(Effect::Rise(who.copy(alloc)?, Status::Exiting, 0)))
        }
        Some((who, Standing::Member(Status::Exiting, _))) => {
            removal(alloc, who, confirmed.contains(who), false)
        }
        Some((who, Standing::Member(Status::Down, _))) => {
            let lost = is_unreachable(members, rows, who);
            removal(alloc, who, confirmed.contains(who), lost)
        }
        Some((_, Standing::Buried(_))) => Ok(None),
        None => Ok(None),
    }
}

// A member that waits comes Up with the next number, if that is within the bound.
fn rise(alloc: Global, who: &Unique, number: u64) -> Result<Option<Effect>, AllocError>
    ensures ok { IfOk result (λ effect. option_to_list effect ≡ if has_next number then Rise who.now Up (number + 1) ∷ [] else []) }
    ensures memory { OnErr result (IsTrue (has_next number)) }
{
    if number < BOUND {
        return Ok(Some(Effect::Rise(who.copy(alloc)?, Status::Up, number + 1)));
    }
    Ok(None)
}

// A member that is on its way out is removed, where it is confirmed that it stops, or where it is lost.
fn removal(
    alloc: Global,
    who: &Unique,
    confirmed: bool,
    lost: bool,
) -> Result<Option<Effect>, AllocError>
    ensures ok { IfOk result (λ effect. option_to_list effect ≡ if confirmed then Removed who.now true ∷ [] else (if lost then Removed who.now false ∷ [] else [])) }
    ensures memory { OnErr result (IsTrue (confirmed || lost)) }
{
    if confirmed || lost {
        return Ok(Some(Effect::Removed(who.copy(alloc)?, confirmed)));
    }
    Ok(None)
}

// The last number given after the member at an index among all that are known.
fn number_past(members: &Members, pair: usize, number: u64) -> u64
    ensures { result ≡ number_past number (member_pairs (option_to_list (slice_get (map.entries members.now) pair))) }
{
    match members.pair(pair) {
        Some((_, Standing::Member(status, _))) => number_after(number, status),
        Some((_, Standing::Buried(_))) => number,
        None => number,
    }
}

// The last number given after a member with this status.
fn number_after(number: u64, status: Status) -> u64
    ensures { result ≡ number_after number status }
{
    match status {
        Status::Joining => number_next(number),
        Status::WeaklyUp => number_next(number),
        Status::Up => number,
        Status::Leaving => number,
        Status::Exiting => number,
        Status::Down => number,
    }
}

// The last number given after a member that waits.
fn number_next(number: u64) -> u64
    ensures { result ≡ if has_next number then number + 1 else number }
{
    if number < BOUND {
        return number + 1;
    }
    number
}

// Appends the effect, if there is one.
fn add(effects: &mut Effects, effect: Option<Effect>) -> Result<(), AllocError>
    ensures ok { OnOk result (effects.new ≡ effects.old ++ option_to_list effect) }
    ensures memory { OnErr result (option_to_list effect ≢ []) }
{
    match effect {
        Some(effect) => effects.push(effect),
        None => Ok(()),
    }
}
