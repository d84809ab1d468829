ghost use Rattle.std.specs.Prelude.{◌≤◌};

use ak_address::{Address, Table, Text, Unique, Uniques};
use std::alloc::{AllocError, Global};
use std::test::Fail;

fn process(alloc: Global, uid: u32) -> Result<Unique, AllocError>
    requires { 1 ≤ uid }
{
    let host = Text::from_bytes(alloc, b"a")?;
    let address = Address { host, port: 1 };
    let uid = u64::from(uid);
    Ok(Unique { address, uid })
}

// The table of these uids and counts, put in from the left.
fn table_of(alloc: Global, pairs: &[(u32, u64)]) -> Result<Table<u64>, AllocError> {
    let mut table = Table::empty(alloc);
    for &(uid, count) in pairs {
        if uid >= 1 {
            let who = process(alloc, uid)?;
            table.insert(who, count)?;
        }
    }
    Ok(table)
}

fn merged(
    alloc: Global,
    left: &[(u32, u64)],
    right: &[(u32, u64)],
) -> Result<Table<u64>, AllocError> {
    let left = table_of(alloc, left)?;
    let right = table_of(alloc, right)?;
    let mut both = left.copy(alloc)?;
    both.merge(alloc, &right)?;
    Ok(both)
}

fn set_of(alloc: Global, uids: &[u32]) -> Result<Uniques, AllocError> {
    let mut set = Uniques::empty(alloc);
    for &uid in uids {
        if uid >= 1 {
            let who = process(alloc, uid)?;
            set.insert(alloc, &who)?;
        }
    }
    set.copy(alloc)
}

// The uid and the count at an index, zeros past the end.
fn pair(table: &Table<u64>, index: usize) -> (u64, u64) {
    match table.at(index) {
        Some((who, count)) => (who.uid, *count),
        None => (0, 0),
    }
}

fn uid(set: &Uniques, index: usize) -> u64 {
    match set.at(index) {
        Some(who) => who.uid,
        None => 0,
    }
}

// Whether the first three indices hold these uids and counts.
fn holds(table: &Table<u64>, wanted: &[(u64, u64); 3]) -> bool {
    [pair(table, 0), pair(table, 1), pair(table, 2)] == *wanted
}

#[test]
fn tables_stand_in_order_and_merge(rt: HostRuntime) -> Result<(), Fail> {
    let table = table_of(rt.alloc(), &[(3, 30), (1, 10), (3, 31)])?;
    assert!(rt; holds(&table, &[(1, 10), (3, 31), (0, 0)]));
    let both = merged(rt.alloc(), &[(3, 31), (1, 10)], &[(3, 29), (2, 20)])?;
    assert!(rt; holds(&both, &[(1, 10), (2, 20), (3, 31)]));
    Ok(())
}

// Whether the first three indices hold these uids.
fn lists(set: &Uniques, wanted: &[u64; 3]) -> bool {
    [uid(set, 0), uid(set, 1), uid(set, 2)] == *wanted
}

// Whether the process is in the set no more once it is removed.
fn removes(set: &mut Uniques, who: &Unique) -> bool {
    set.remove(who);
    !set.contains(who)
}

#[test]
fn sets_stand_in_order(rt: HostRuntime) -> Result<(), Fail> {
    let first = process(rt.alloc(), 1)?;
    let mut set = set_of(rt.alloc(), &[2, 1, 2])?;
    assert!(rt; lists(&set, &[1, 2, 0]));
    assert!(rt; removes(&mut set, &first));
    Ok(())
}

// The counters of these uids.
fn counters_of(alloc: Global, pairs: &[(u32, u32)]) -> Result<Table<u32>, AllocError> {
    let mut counters = Table::empty(alloc);
    'pairs: for &(uid, count) in pairs {
        if uid >= 1 {
            counters.insert(process(alloc, uid)?, count)?;
        }
    }
    Ok(counters)
}

fn counts(alloc: Global, counters: &Table<u32>, uid: u32) -> Result<Option<u32>, AllocError>
    requires { 1 ≤ uid }
{
    Ok(counters.get(&process(alloc, uid)?).copied())
}

#[test]
fn counters_are_raised_up_to_a_most(rt: HostRuntime) -> Result<(), Fail> {
    let mut counters = counters_of(rt.alloc(), &[(1, 0), (2, 4), (3, 5), (4, 9)])?;
    counters.raise_all(5);
    for (uid, wanted) in [(1, 1), (2, 5), (3, 5), (4, 5)] {
        assert!(rt;
            counts(rt.alloc(), &counters, uid)? == Some(wanted),
            "{uid}"
        );
    }
    Ok(())
}
