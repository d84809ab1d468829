ghost use Rattle.std.specs.Prelude.{◌≡◌, ◌≤◌, ℕ, Some, length, slice_get};
ghost use Rattle.std.specs.FinMap as map;
ghost use Rattle.std.specs.List.{flat_map};
ghost use Rattle.ak_gossip.specs.declared.part.Part.{Part};
ghost use Rattle.ak_gossip.specs.Parts.{AreParts};
ghost use Rattle.ak_field.specs.Spelling.{counted, version, reports};
ghost use Rattle.ak_field.specs.Parts as spelled;

use crate::write::process_len;
use ak_clock::Version;
use ak_gossip::Part;
use ak_shard_id::Report;

/// How many bytes spell a version of at most 128 processes. Takes no memory.
pub fn version_len(counts: &Version) -> usize
    requires { map.len counts.now ≤ 128 }
    ensures is { result ≡ length (version counts.now) }
    ensures few { result ≤ 10625 }
{
    counts_len(counts) + 1
}

fn counts_len(counts: &Version) -> usize
    requires { map.len counts.now ≤ 128 }
    ensures is { result ≡ length (flat_map counted (map.entries counts.now)) }
    ensures few { result ≤ 10624 }
{
    let mut total = 0;
    'counts: for index in 0..counts.len() {
        if let Some((who, _)) = counts.at(index) {
            total += process_len(&who.address) + 8;
        }
    }
    total
}

/// How many bytes spell at most 1000 reports. Takes no memory.
pub fn reports_len(list: &[Report]) -> usize
    requires { length list.now ≤ 1000 }
    ensures is { result ≡ length (reports list.now) }
    ensures few { result ≤ 11002 }
{
    2 + 11 * list.len()
}

/// How many bytes spell the parts of a gossip. Takes no memory.
pub fn parts_len(list: &[Part]) -> usize
    requires { AreParts list.now }
    ensures is { result ≡ length (spelled.parts list.now) }
    ensures few { result ≤ 29441 }
{
    each_part_len(list) + 1
}

fn each_part_len(list: &[Part]) -> usize
    requires few { length list.now ≤ 128 }
    requires subjects { (i : ℕ) (p : Part) → slice_get list.now i ≡ Some p → length p.subjects ≤ 128 }
    ensures is { result ≡ length (flat_map spelled.part list.now) }
    ensures few { result ≤ 29440 }
{
    let mut total = 0;
    'list: for one in list {
        total += part_len(one);
    }
    total
}

fn part_len(one: &Part) -> usize
    requires { length one.now.subjects ≤ 128 }
    ensures is { result ≡ length (spelled.part one.now) }
    ensures few { result ≤ 230 }
{
    process_len(&one.unique.address) + 26 + subjects_len(one.row_number, one.subjects.as_slice())
}

fn subjects_len(number: u64, indices: &[u8]) -> usize
    requires { length indices.now ≤ 128 }
    ensures is { result ≡ length (spelled.subjects number indices.now) }
    ensures few { result ≤ 129 }
{
    if number == 0 {
        return 0;
    }
    indices.len() + 1
}
