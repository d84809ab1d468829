ghost use Rattle.std.specs.Prelude.{◌≡◌, ◌≢◌, ◌≤◌, ◌<◌, ◌⊎◌, [], length, slice_get, option_copied, option_to_list, IfOk, OnOk, OnErr, IfSome, IsSome};
ghost use Rattle.std.specs.Prelude as list;
ghost use Rattle.std.specs.List.{filter, list_any};
ghost use Rattle.ak_address.specs.Uniques.{no_one, in_order};
ghost use Rattle.ak_member.specs.Standing.{members_of};
ghost use Rattle.ak_settled.specs.Settled.{standings_of};
ghost use Rattle.ak_coordinator.specs.Entry.{moves};
ghost use Rattle.ak_coordinator.specs.Coordinator.{entry_of, loads_of};
ghost use Rattle.ak_coordinator.specs.Tick.{is_unfinished, unfinished, noticed, IsPartlyNoticed, hurried, is_exiting_pair, leaves_exiting, leaves_node, first_from, first_leaver, after_begin, moving, orders_from, AnyWaited, ComparesLoads};

use crate::entries::Entries;
use crate::loads::loads_in;
use ak_address::{Unique, Uniques};
use ak_allocation::rebalance;
use ak_member::Members;
use ak_settings::Settings;
use ak_settled::Settled;
use std::alloc::{AllocError, Global};

// Those of the nodes that are not finished. Takes memory only where there is one.
pub(crate) fn unfinished(
    alloc: Global,
    settled: &Settled,
    margin: u32,
    whos: &Uniques,
) -> Result<Uniques, AllocError>
    ensures ok { IfOk result (λ left. left ≡ unfinished margin settled.now.view whos.now) }
    ensures memory { OnErr result (unfinished margin settled.now.view whos.now ≢ no_one) }
{
    let mut left = Uniques::empty(alloc);
    'whos: for index in 0..whos.len() {
        let who = unfinished_at(settled, margin, whos, index);
        left.insert_if_some(alloc, who)?;
    }
    Ok(left)
}

pub(crate) fn notice_each(
    alloc: Global,
    entries: &mut Entries,
    settled: &Settled,
    margin: u32,
) -> Result<(), AllocError>
    ensures ok { OnOk result (entries.new ≡ list.map (noticed margin settled.now.view) entries.old) }
    ensures lost { OnErr result (IsPartlyNoticed margin settled.now.view entries.old entries.new) }
    ensures memory { OnErr result (AnyWaited (list.map (noticed margin settled.now.view) entries.old)) }
{
    // Whoever is finished was removed, and where nobody was, no shard is looked at.
    if settled.members().buried_len() == 0 {
        return Ok(());
    }
    'shards: for shard in 0..entries.len() {
        entries.at_mut(shard).notice(alloc, settled, margin)?;
    }
    Ok(())
}

pub(crate) fn hurry_each(entries: &mut Entries)
    ensures { entries.new ≡ list.map hurried entries.old }
{
    'shards: for shard in 0..entries.len() {
        entries.at_mut(shard).hurry();
    }
}

// How many shards move.
fn moving(entries: &Entries) -> usize
    ensures { result ≡ moving entries.now }
{
    let mut moving = 0;
    'shards: for shard in 0..entries.len() {
        if entries.at(shard).moves() {
            moving += 1;
        }
    }
    moving
}

// Whether any member is Exiting.
fn any_exiting(members: &Members) -> bool
    ensures { result ≡ list_any is_exiting_pair (members_of members.now) }
{
    'pairs: for pair in 0..members.uniques() {
        if let Some(member) = members.member_at_pair(pair) {
            if member.status.is_exiting() {
                return true;
            }
        }
    }
    false
}

// The first shard that does not move and whose home is Exiting.
fn first_exiting(entries: &Entries, members: &Members) -> Option<usize>
    ensures first { result ≡ first_from 0 (leaves_exiting members.now) entries.now }
    ensures placed { IfSome result (λ shard. (shard < length entries.now) × IsSome (entry_of entries.now shard).home) }
{
    // Mostly no member is Exiting, and then no shard is looked at.
    if !any_exiting(members) {
        return None;
    }
    'shards: for shard in 0..entries.len() {
        if entries.at(shard).leaves_exiting(members) {
            return Some(shard);
        }
    }
    None
}

// The first shard that does not move and whose home is the node.
fn first_of_node(entries: &Entries, who: &Unique) -> Option<usize>
    ensures first { result ≡ first_from 0 (leaves_node who.now) entries.now }
    ensures placed { IfSome result (λ shard. (shard < length entries.now) × IsSome (entry_of entries.now shard).home) }
{
    'shards: for shard in 0..entries.len() {
        if entries.at(shard).leaves_node(who) {
            return Some(shard);
        }
    }
    None
}

// The shard that begins to move. Takes memory only where there is a load.
fn first_leaver(
    alloc: Global,
    entries: &Entries,
    granted: &Uniques,
    settled: &Settled,
    threshold: u32,
) -> Result<Option<usize>, AllocError>
    requires { length entries.now ≤ 1000 }
    ensures first { IfOk result (λ shard. shard ≡ first_leaver granted.now (standings_of settled.now.view) threshold entries.now) }
    ensures placed { IfOk result (λ found. IfSome found (λ shard. (shard < length entries.now) × IsSome (entry_of entries.now shard).home)) }
    ensures memory { OnErr result (loads_of entries.now granted.now (standings_of settled.now.view) ≢ []) }
{
    let exiting = first_exiting(entries, settled.members());
    if exiting.is_some() {
        return Ok(exiting);
    }
    let loads = loads_in(alloc, entries, granted, settled.members())?;
    match rebalance(&loads, threshold) {
        Some(heaviest) => Ok(first_of_node(entries, &loads[heaviest].unique)),
        None => Ok(None),
    }
}

// Where fewer shards move than may, one begins. Takes memory only where loads are compared, or a shard begins, of which
// something is then ordered.
pub(crate) fn begin_one(
    alloc: Global,
    entries: &mut Entries,
    granted: &Uniques,
    settled: &Settled,
    settings: &Settings,
) -> Result<(), AllocError>
    requires { length entries.old ≤ 1000 }
    ensures after { OnOk result (entries.new ≡ after_begin granted.now settled.now.view settings.now.margin settings.now.threshold settings.now.limit entries.old) }
    ensures many { length entries.new ≡ length entries.old }
    ensures err { OnErr result (entries.new ≡ entries.old) }
    ensures memory { OnErr result (ComparesLoads granted.now settled.now.view settings.now.limit entries.old ⊎ (orders_from 0 (list.map hurried (after_begin granted.now settled.now.view settings.now.margin settings.now.threshold settings.now.limit entries.old)) ≢ [])) }
{
    if moving(entries) >= settings.limit as usize {
        return Ok(());
    }
    let Some(shard) = first_leaver(alloc, entries, granted, settled, settings.threshold)? else {
        return Ok(());
    };
    let waits = unfinished(alloc, settled, settings.margin, granted)?;
    entries.at_mut(shard).begin(waits);
    Ok(())
}

// The node at an index, where it is not finished.
fn unfinished_at<'a>(
    settled: &Settled,
    margin: u32,
    whos: &'a Uniques,
    index: usize,
) -> Option<&'a Unique>
    ensures { option_to_list (option_copied result) ≡ filter (is_unfinished margin settled.now.view) (option_to_list (slice_get (in_order whos.now) index)) }
{
    match whos.at(index) {
        Some(who) => {
            if settled.finished(who, margin) {
                return None;
            }
            Some(who)
        }
        None => None,
    }
}
