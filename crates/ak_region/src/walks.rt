ghost use Rattle.std.specs.Prelude.{◌≡◌, ◌≢◌, ◌≤◌, [], IfOk, OnOk, OnErr, is_some, ◌++◌};
ghost use Rattle.std.specs.Prelude as list;
ghost use Rattle.std.specs.List.{list_any};
ghost use Rattle.ak_region.specs.Shards.{ShardSlot};
ghost use Rattle.ak_region.specs.Slot.{without_stranger};
ghost use Rattle.ak_region.specs.Region.{report_of, reports_from};

use crate::slot::Slot;
use ak_member::Members;
use ak_shard_id::Report;
use std::alloc::{AllocError, Global};

pub(crate) fn forget_strangers(slots: &mut [Slot], members: &Members)
    ensures { slots.new ≡ list.map (without_stranger members.now) slots.old }
{
    'slots: for slot in slots.iter_mut() {
        slot.forget(members);
    }
}

pub(crate) fn any_hosted(slots: &[Slot]) -> bool
    ensures { result ≡ list_any (λ (slot : ShardSlot). is_some slot.hosted) slots.now }
{
    slots.iter().any(|slot| slot.hosted.is_some())
}

// Appends the report of a shard, where there is one.
fn push_report(reports: &mut Vec<Report>, shard: u32, slot: &Slot) -> Result<(), AllocError>
    ensures pushed { OnOk result (reports.new.items ≡ reports.old.items ++ report_of shard slot.now) }
    ensures memory { OnErr result (report_of shard slot.now ≢ []) }
{
    if slot.mark == 0 {
        return Ok(());
    }
    reports.push(Report {
        shard,
        number: slot.mark,
        hosted: slot.hosted.is_some(),
    })?;
    Ok(())
}

pub(crate) fn reports_of(alloc: Global, slots: &[Slot]) -> Result<Vec<Report>, AllocError>
    requires { list.length slots.now ≤ 1000 }
    ensures found { IfOk result (λ reports. reports.items ≡ reports_from 0 slots.now) }
    ensures memory { OnErr result (reports_from 0 slots.now ≢ []) }
{
    let mut reports = Vec::new(alloc);
    'slots: for shard in 0..slots.len() {
        push_report(&mut reports, shard as u32, &slots[shard])?;
    }
    Ok(reports)
}
