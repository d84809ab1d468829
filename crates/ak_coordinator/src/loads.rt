ghost use Rattle.std.specs.Prelude.{◌≡◌, ◌≢◌, ◌+◌, ◌≤◌, ◌<◌, ◌++◌, ◌∷◌, [], length, IfOk, OnOk, OnErr, Ok, option_to_list, slice_get};
ghost use Rattle.std.specs.Prelude as list;
ghost use Rattle.std.specs.List.{list_any};
ghost use Rattle.std.specs.FinMap as map;
ghost use Rattle.ak_address.specs.Counters.{counter};
ghost use Rattle.ak_address.specs.Pairs.{index};
ghost use Rattle.ak_address.specs.Unique.{UniqueModel, unique_cmp};
ghost use Rattle.ak_member.specs.Standing.{member_pairs, members_of};
ghost use Rattle.ak_coordinator.specs.Coordinator.{less_one, may_host, loads_among};
ghost use Rattle.ak_coordinator.specs.Homes.{with_home, AreHomes, loads_counted};

use crate::entries::Entries;
use crate::entry::Entry;
use ak_address::{Table, Unique, Uniques};
use ak_allocation::Load;
use ak_member::Members;
use std::alloc::{AllocError, Global};

// Appends the load, with one shard less where it is the node's.
fn push_lightened(
    alloc: Global,
    loads: &mut Vec<Load>,
    load: &Load,
    from: &Unique,
) -> Result<(), AllocError>
    ensures { OnOk result (loads.new.items ≡ loads.old.items ++ less_one from.now load.now ∷ []) }
{
    let unique = load.unique.copy(alloc)?;
    let shards = if load.unique.is(from) {
        load.shards.saturating_sub(1)
    } else {
        load.shards
    };
    loads.push(Load { unique, shards })?;
    Ok(())
}

// The loads, of which that of the node has one shard less. Takes memory only where there is one.
pub(crate) fn lightened(
    alloc: Global,
    loads: &[Load],
    from: &Unique,
) -> Result<Vec<Load>, AllocError>
    ensures ok { IfOk result (λ lightened. lightened.items ≡ list.map (less_one from.now) loads.now) }
    ensures memory { OnErr result (loads.now ≢ []) }
{
    let mut lightened = Vec::with_capacity(alloc, loads.len())?;
    'loads: for load in loads {
        push_lightened(alloc, &mut lightened, load, from)?;
    }
    Ok(lightened)
}

// The shards that were counted at the node; 0 where none was.
fn count_of(counts: &Table<u32>, who: &Unique) -> u32
    ensures { result ≡ counter counts.now who.now }
{
    match counts.get(who) {
        Some(count) => *count,
        None => 0,
    }
}

// The shards that were counted at the node that stands at a place.
fn count_at(counts: &Table<u32>, place: usize) -> u32
    ensures { (who : UniqueModel) → Ok place ≡ index unique_cmp who (map.entries counts.now) → result ≡ counter counts.now who }
{
    match counts.at(place) {
        Some((_, count)) => *count,
        None => 0,
    }
}

// One shard more at the node, which is looked up once.
fn count_one(alloc: Global, counts: &mut Table<u32>, who: &Unique) -> Result<(), AllocError>
    requires { counter counts.old who.now < 1000 }
    ensures { OnOk result (counts.new ≡ map.insert counts.old who.now (counter counts.old who.now + 1)) }
{
    match counts.place(who) {
        Ok(place) => {
            let count = count_at(counts, place) + 1;
            counts.set_at(place, count);
            Ok(())
        }
        Err(place) => {
            let who = who.copy(alloc)?;
            counts.insert_at(place, who, 1)?;
            Ok(())
        }
    }
}

// One shard more at the home of a shard, where it has one.
fn count_home(alloc: Global, counts: &mut Table<u32>, entry: &Entry) -> Result<(), AllocError>
    requires { (who : UniqueModel) → counter counts.old who < 1000 }
    ensures { OnOk result (counts.new ≡ with_home counts.old entry.now.home) }
{
    match &entry.home {
        Some(home) => count_one(alloc, counts, &home.owner),
        None => Ok(()),
    }
}

// How many shards have their home at each node: one walk along the shards, each home looked up by halves.
fn homes_in(alloc: Global, entries: &Entries) -> Result<Table<u32>, AllocError>
    requires { length entries.now ≤ 1000 }
    ensures { IfOk result (λ counts. AreHomes entries.now counts) }
{
    let mut counts = Table::empty(alloc);
    'shards: for shard in 0..entries.len() {
        count_home(alloc, &mut counts, entries.at(shard))?;
    }
    Ok(counts)
}

// The load of the member at a pair, where it is Up and has granted.
fn load_at(
    alloc: Global,
    counts: &Table<u32>,
    granted: &Uniques,
    members: &Members,
    pair: usize,
) -> Result<Option<Load>, AllocError>
    ensures { IfOk result (λ load. option_to_list load ≡ loads_counted counts.now granted.now (option_to_list (slice_get (map.entries members.now) pair))) }
{
    let Some(member) = members.member_at_pair(pair) else {
        return Ok(None);
    };
    if !member.status.is_up() || !granted.contains(member.unique) {
        return Ok(None);
    }
    let unique = member.unique.copy(alloc)?;
    let shards = count_of(counts, member.unique);
    Ok(Some(Load { unique, shards }))
}

// Appends what there is.
fn push_load(loads: &mut Vec<Load>, load: Option<Load>) -> Result<(), AllocError>
    ensures { OnOk result (loads.new.items ≡ loads.old.items ++ option_to_list load) }
{
    if let Some(load) = load {
        loads.push(load)?;
    }
    Ok(())
}

// The loads of the Up members that have granted, as counted.
fn loads_by(
    alloc: Global,
    counts: &Table<u32>,
    granted: &Uniques,
    members: &Members,
) -> Result<Vec<Load>, AllocError>
    ensures { IfOk result (λ loads. loads.items ≡ loads_counted counts.now granted.now (map.entries members.now)) }
{
    let mut loads = Vec::new(alloc);
    'pairs: for pair in 0..members.uniques() {
        let load = load_at(alloc, counts, granted, members, pair)?;
        push_load(&mut loads, load)?;
    }
    Ok(loads)
}

// Whether the member at a pair, where there is one, is Up and has granted.
fn hosts_at(granted: &Uniques, members: &Members, pair: usize) -> bool
    ensures { result ≡ list_any (may_host granted.now) (member_pairs (option_to_list (slice_get (map.entries members.now) pair))) }
{
    match members.member_at_pair(pair) {
        Some(member) => member.status.is_up() && granted.contains(member.unique),
        None => false,
    }
}

// Whether any Up member has granted.
fn any_host(granted: &Uniques, members: &Members) -> bool
    ensures { result ≡ list_any (may_host granted.now) (members_of members.now) }
{
    'pairs: for pair in 0..members.uniques() {
        if hosts_at(granted, members, pair) {
            return true;
        }
    }
    false
}

// The loads of the Up members that have granted. Takes memory only where there is one.
pub(crate) fn loads_in(
    alloc: Global,
    entries: &Entries,
    granted: &Uniques,
    members: &Members,
) -> Result<Vec<Load>, AllocError>
    requires { length entries.now ≤ 1000 }
    ensures ok { IfOk result (λ loads. loads.items ≡ loads_among entries.now granted.now (map.entries members.now)) }
    ensures memory { OnErr result (loads_among entries.now granted.now (map.entries members.now) ≢ []) }
{
    // Where nobody can host, no home is counted.
    if !any_host(granted, members) {
        return Ok(Vec::new(alloc));
    }
    let counts = homes_in(alloc, entries)?;
    loads_by(alloc, &counts, granted, members)
}
