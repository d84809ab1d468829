ghost use Rattle.std.specs.Prelude.{◌≡◌, ◌↔◌, ℕ, None, Some, IsTrue, option_copied, slice_get};
ghost use Rattle.std.specs.FinMap as map;
ghost use Rattle.ak_address.specs.Unique.{UniqueModel, IsUnique};
ghost use Rattle.ak_gossip.specs.declared.part.Part.{Part};
ghost use Rattle.ak_field.specs.Ranges.{IsNumber};
ghost use Rattle.ak_field.specs.Lists.{IsShort, AreReports};
ghost use Rattle.ak_field.specs.Parts.{AreSpelled};
ghost use Rattle.ak_field.specs.Walk.{report_passes, reports_pass};

use ak_address::Unique;
use ak_clock::{BOUND, Version};
use ak_gossip::{Part, parts_valid};
use ak_shard_id::Report;

const MOST_PROCESSES: usize = 128;

const MOST_SHARD: u32 = 999;

const MOST_REPORTS: usize = 1000;

/// Whether a version has a spelling: at most 128 processes have a count. Takes no memory.
pub fn is_short(counts: &Version) -> bool
    ensures { IsTrue result ↔ IsShort counts.now }
{
    if counts.len() > MOST_PROCESSES {
        return false;
    }
    are_counted(counts)
}

// Whether each process and its count are in their ranges.
fn are_counted(counts: &Version) -> bool
    ensures { IsTrue result ↔ ((i : ℕ) (pair : UniqueModel × ℕ) → slice_get (map.entries counts.now) i ≡ Some pair → IsUnique pair.0 × IsNumber pair.1) }
{
    'counts: for index in 0..counts.len() {
        if let Some((who, count)) = counts.at(index) {
            if !is_counted(who, count) {
                return false;
            }
        }
    }
    true
}

fn is_counted(who: &Unique, count: u64) -> bool
    ensures { IsTrue result ↔ (IsUnique who.now × IsNumber count) }
{
    who.uid >= 1 && count >= 1 && count <= BOUND
}

/// Whether parts have a spelling: they are those of a gossip, as `parts_valid` of ak_gossip says. Takes no memory.
pub fn are_parts(list: &[Part]) -> bool
    ensures { IsTrue result ↔ AreSpelled list.now }
{
    if !parts_valid(list) {
        return false;
    }
    have_processes(list)
}

// Whether the process of each part is in its ranges.
fn have_processes(list: &[Part]) -> bool
    ensures { IsTrue result ↔ ((i : ℕ) (p : Part) → slice_get list.now i ≡ Some p → IsUnique p.unique) }
{
    'list: for one in list {
        if !is_process(&one.unique) {
            return false;
        }
    }
    true
}

fn is_process(who: &Unique) -> bool
    ensures { IsTrue result ↔ IsUnique who.now }
{
    who.uid >= 1
}

/// Whether reports have a spelling: at most 1000, their shards ascending up to 999, their numbers from 1 to
/// 4611686018427387904. Takes no memory.
pub fn are_reports(list: &[Report]) -> bool
    ensures { IsTrue result ↔ AreReports list.now }
{
    if list.len() > MOST_REPORTS {
        return false;
    }
    all_pass(list)
}

fn all_pass(list: &[Report]) -> bool
    ensures { result ≡ reports_pass None list.now }
{
    let mut last = None;
    'list: for one in list {
        if !passes(last, one) {
            return false;
        }
        last = Some(one);
    }
    true
}

// Whether the report is in its ranges, and after the last one.
fn passes(last: Option<&Report>, one: &Report) -> bool
    ensures { result ≡ report_passes (option_copied last.entry) one.now }
{
    if one.shard > MOST_SHARD || one.number < 1 || one.number > BOUND {
        return false;
    }
    match last {
        Some(last) => last.shard < one.shard,
        None => true,
    }
}
