ghost use Rattle.std.specs.Prelude.{◌≡◌, ◌<◌, ◌+◌, drop, length};
ghost use Rattle.ak_allocation.specs.Allocation.{load_cmp, first_of, lightest, overloaded, IsIndexOf};

use crate::load::Load;
use std::cmp::Ordering;

/// Who gets the next shard: the index of the load with the fewest shards, of several the first in the order of processes
/// (Akka's Cluster Sharding, "Shard allocation": the least shard allocation; the order of ties is this project's choice).
/// None exactly where there is no load. Takes no memory.
pub fn choose(loads: &[Load]) -> Option<usize>
    ensures { IsIndexOf loads.now result (lightest loads.now) }
{
    first_by(Side::Lightest, loads)
}

/// Who gives a shard away: the index of the load with the most shards, of several the first in the order of processes,
/// exactly where it has more shards than the lightest load and the threshold together; else none (this project's choice,
/// in place of the limits of Akka's Cluster Sharding, "Shard allocation"). Takes no memory.
pub fn rebalance(loads: &[Load], threshold: u32) -> Option<usize>
    ensures { IsIndexOf loads.now result (overloaded loads.now threshold) }
{
    let lightest = first_by(Side::Lightest, loads)?;
    let heaviest = first_by(Side::Heaviest, loads)?;
    let excess = loads[heaviest]
        .shards
        .saturating_sub(loads[lightest].shards);
    if excess > threshold {
        return Some(heaviest);
    }
    None
}

// At which side of the order of loads one is looked for.
#[derive(Clone, Copy)]
enum Side {
    Lightest,
    Heaviest,
}

// The order of loads from a side on.
fn compare(side: Side, one: &Load, other: &Load) -> Ordering
    ensures { result ≡ load_cmp side one.now other.now }
{
    let shards = match side {
        Side::Lightest => one.shards.cmp(&other.shards),
        Side::Heaviest => other.shards.cmp(&one.shards),
    };
    if shards.is_eq() {
        return one.unique.compare(&other.unique);
    }
    shards
}

// The index of the first load from a side on.
fn first_by(side: Side, loads: &[Load]) -> Option<usize>
    ensures { IsIndexOf loads.now result (first_of side loads.now) }
{
    let mut first = None;
    // From the last one on: what was passed is then the rest of the list, as the definition takes it.
    'loads: for index in (0..loads.len()).rev() {
        first = Some(first_with(side, loads, index, first));
    }
    first
}

// The index of the first one of the load at an index and of another, where there is another.
fn first_with(side: Side, loads: &[Load], index: usize, other: Option<usize>) -> usize
    requires within { index < length loads.now }
    requires other { IsIndexOf loads.now other (first_of side (drop (index + 1) loads.now)) }
    ensures { IsIndexOf loads.now (Some result) (first_of side (drop index loads.now)) }
{
    match other {
        Some(other) => {
            if compare(side, &loads[other], &loads[index]).is_lt() {
                return other;
            }
            index
        }
        None => index,
    }
}
