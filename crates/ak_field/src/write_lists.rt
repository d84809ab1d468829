ghost use Rattle.std.specs.Prelude.{◌≡◌, ℕ, ◌≤◌, ◌++◌, Some, OnOk, length, slice_get};
ghost use Rattle.std.specs.FinMap as map;
ghost use Rattle.std.specs.List.{flat_map};
ghost use Rattle.ak_gossip.specs.declared.part.Part.{Part};
ghost use Rattle.ak_gossip.specs.Parts.{AreParts};
ghost use Rattle.ak_shard_id.specs.declared.report.Report.{Report};
ghost use Rattle.ak_field.specs.Ranges.{IsShard};
ghost use Rattle.ak_field.specs.Spelling.{counted, version, report, reports};
ghost use Rattle.ak_field.specs.Lists.{AreReports};
ghost use Rattle.ak_field.specs.Parts as spelled;

use crate::write::{write_byte, write_flag, write_number, write_shard, write_unique};
use ak_address::Unique;
use ak_clock::Version;
use ak_gossip::Part;
use ak_shard_id::Report;
use std::alloc::AllocError;

/// Appends a version of at most 128 processes. Where memory runs out some of it may stand at the end of `out`, here and in
/// each call that appends a list.
pub fn write_version(counts: &Version, out: &mut Vec<u8>) -> Result<(), AllocError>
    requires { map.len counts.now ≤ 128 }
    ensures { OnOk result (out.new.items ≡ out.old.items ++ version counts.now) }
{
    write_byte(counts.len() as u8, out)?;
    write_counts(counts, out)?;
    Ok(())
}

fn write_counts(counts: &Version, out: &mut Vec<u8>) -> Result<(), AllocError>
    ensures { OnOk result (out.new.items ≡ out.old.items ++ flat_map counted (map.entries counts.now)) }
{
    'counts: for index in 0..counts.len() {
        if let Some((who, count)) = counts.at(index) {
            write_counted(who, count, out)?;
        }
    }
    Ok(())
}

fn write_counted(who: &Unique, count: u64, out: &mut Vec<u8>) -> Result<(), AllocError>
    ensures { OnOk result (out.new.items ≡ out.old.items ++ counted (who.now, count)) }
{
    write_unique(who, out)?;
    write_number(count, out)?;
    Ok(())
}

/// Appends reports that are valid: at most 1000, their shards ascending.
pub fn write_reports(list: &[Report], out: &mut Vec<u8>) -> Result<(), AllocError>
    requires { AreReports list.now }
    ensures { OnOk result (out.new.items ≡ out.old.items ++ reports list.now) }
{
    out.extend_from_slice(&(list.len() as u16).to_be_bytes())?;
    write_each_report(list, out)?;
    Ok(())
}

fn write_each_report(list: &[Report], out: &mut Vec<u8>) -> Result<(), AllocError>
    requires { (i : ℕ) (r : Report) → slice_get list.now i ≡ Some r → IsShard r.shard }
    ensures { OnOk result (out.new.items ≡ out.old.items ++ flat_map report list.now) }
{
    'list: for one in list {
        write_report(one, out)?;
    }
    Ok(())
}

fn write_report(one: &Report, out: &mut Vec<u8>) -> Result<(), AllocError>
    requires { IsShard one.now.shard }
    ensures { OnOk result (out.new.items ≡ out.old.items ++ report one.now) }
{
    write_shard(one.shard, out)?;
    write_number(one.number, out)?;
    write_flag(one.hosted, out)?;
    Ok(())
}

/// Appends the parts of a gossip.
pub fn write_parts(list: &[Part], out: &mut Vec<u8>) -> Result<(), AllocError>
    requires { AreParts list.now }
    ensures { OnOk result (out.new.items ≡ out.old.items ++ spelled.parts list.now) }
{
    write_byte(list.len() as u8, out)?;
    write_each_part(list, out)?;
    Ok(())
}

fn write_each_part(list: &[Part], out: &mut Vec<u8>) -> Result<(), AllocError>
    requires { (i : ℕ) (p : Part) → slice_get list.now i ≡ Some p → length p.subjects ≤ 128 }
    ensures { OnOk result (out.new.items ≡ out.old.items ++ flat_map spelled.part list.now) }
{
    'list: for one in list {
        write_part(one, out)?;
    }
    Ok(())
}

fn write_part(one: &Part, out: &mut Vec<u8>) -> Result<(), AllocError>
    requires { length one.now.subjects ≤ 128 }
    ensures { OnOk result (out.new.items ≡ out.old.items ++ spelled.part one.now) }
{
    write_unique(&one.unique, out)?;
    write_number(one.count, out)?;
    write_byte(one.state, out)?;
    write_number(one.up_number, out)?;
    write_flag(one.seen, out)?;
    write_number(one.row_number, out)?;
    write_subjects(one.row_number, one.subjects.as_slice(), out)?;
    Ok(())
}

fn write_subjects(number: u64, indices: &[u8], out: &mut Vec<u8>) -> Result<(), AllocError>
    requires { length indices.now ≤ 128 }
    ensures { OnOk result (out.new.items ≡ out.old.items ++ spelled.subjects number indices.now) }
{
    if number == 0 {
        return Ok(());
    }
    write_byte(indices.len() as u8, out)?;
    out.extend_from_slice(indices)?;
    Ok(())
}
