ghost use Rattle.std.specs.Prelude.{◌≡◌, ◌≢◌, ℕ, IfOk, OnErr, not, Some, slice_get, option_copied, option_to_list};
ghost use Rattle.std.specs.List.{filter, list_all};
ghost use Rattle.std.specs.FinMap as map;
ghost use Rattle.ak_address.specs.Uniques.{no_one, has, in_order};
ghost use Rattle.ak_member.specs.Standing.{tombstone_of};
ghost use Rattle.ak_settled.specs.Settled.{standings_of, counters_of, is_over, is_needed_as, needed_pairs, needed};
ghost use Rattle.ak_singleton.specs.Singleton.{needed_but};

use ak_address::{Unique, Uniques};
use ak_member::{Standing, Status};
use ak_settled::Settled;
use std::alloc::{AllocError, Global};

// Whether a process is needed, by what is known of it and whether it is finished.
fn is_needed(standing: Standing, is_finished: bool) -> bool
    ensures { (margin ticks : ℕ) → is_finished ≡ is_over margin ticks (tombstone_of (Some standing)) → result ≡ is_needed_as margin ticks standing }
{
    match standing {
        Standing::Member(Status::Joining, _) => false,
        Standing::Member(_, _) => true,
        Standing::Buried(_) => !is_finished,
    }
}

// The process at a pair of the settled view, where it is needed.
fn needed_at<'a>(settled: &'a Settled, margin: u32, pair: usize) -> Option<&'a Unique>
    ensures { option_to_list (option_copied result) ≡ needed_pairs margin (counters_of settled.now.view) (option_to_list (slice_get (map.entries (standings_of settled.now.view)) pair)) }
{
    match settled.members().pair(pair) {
        Some((who, standing)) => {
            if is_needed(standing, settled.finished(who, margin)) {
                return Some(who);
            }
            None
        }
        None => None,
    }
}

// The same, where it is none of the others.
fn left_at<'a>(
    settled: &'a Settled,
    margin: u32,
    others: &Uniques,
    pair: usize,
) -> Option<&'a Unique>
    ensures { option_to_list (option_copied result) ≡ filter (λ who. not (has others.now who)) (needed_pairs margin (counters_of settled.now.view) (option_to_list (slice_get (map.entries (standings_of settled.now.view)) pair))) }
{
    match needed_at(settled, margin, pair) {
        Some(who) => {
            if others.contains(who) {
                return None;
            }
            Some(who)
        }
        None => None,
    }
}

// Whom the node needs, but for the others.
pub fn needed_but(
    alloc: Global,
    settled: &Settled,
    margin: u32,
    others: &Uniques,
) -> Result<Uniques, AllocError>
    ensures them { IfOk result (λ them. them ≡ needed_but margin settled.now.view others.now) }
    ensures memory { OnErr result (needed_but margin settled.now.view others.now ≢ no_one) }
{
    let mut them = Uniques::empty(alloc);
    'pairs: for pair in 0..settled.members().uniques() {
        them.insert_if_some(alloc, left_at(settled, margin, others, pair))?;
    }
    Ok(them)
}

// Whether each that the node needs is one of these.
pub fn has_all_needed(settled: &Settled, margin: u32, these: &Uniques) -> bool
    ensures { result ≡ list_all (has these.now) (in_order (needed margin settled.now.view)) }
{
    'pairs: for pair in 0..settled.members().uniques() {
        if let Some(_who) = left_at(settled, margin, these, pair) {
            return false;
        }
    }
    true
}
