use ak_address::{Unique, parse_unique};
use ak_clock::{BOUND, Relation, Version};
use std::alloc::{AllocError, Global};
use std::test::Fail;

fn bump_by(
    alloc: Global,
    version: &mut Version,
    who: &Unique,
    times: u64,
) -> Result<(), AllocError> {
    for _ in 0..times {
        if version.count(who) < BOUND {
            version.bump(alloc, who)?;
        }
    }
    Ok(())
}

// So many entries more of the process of this text are seen.
fn see(alloc: Global, version: &mut Version, who: &[u8], times: u64) -> Result<(), Fail> {
    let who = parse_unique(alloc, who)?;
    Ok(bump_by(alloc, version, &who, times)?)
}

// The version that has seen this many entries of two processes.
fn seen(alloc: Global, entries: (u64, u64)) -> Result<Version, Fail> {
    let mut version = Version::empty(alloc);
    see(alloc, &mut version, b"a:1#2", entries.1)?;
    see(alloc, &mut version, b"a:1#1", entries.0)?;
    Ok(version)
}

fn relation(alloc: Global, left: (u64, u64), right: (u64, u64)) -> Result<Relation, Fail> {
    let left = seen(alloc, left)?;
    let right = seen(alloc, right)?;
    Ok(left.compare(&right))
}

fn merge_in(alloc: Global, version: &mut Version, entries: (u64, u64)) -> Result<(), Fail> {
    let other = seen(alloc, entries)?;
    Ok(version.merge(alloc, &other)?)
}

// A copy of the first, merged with the second.
fn merged(alloc: Global, left: (u64, u64), right: (u64, u64)) -> Result<Version, Fail> {
    let mut both = seen(alloc, left)?.copy(alloc)?;
    merge_in(alloc, &mut both, right)?;
    Ok(both)
}

fn pair(version: &Version, index: usize) -> (u64, u64) {
    match version.at(index) {
        Some((who, count)) => (who.uid, count),
        None => (0, 0),
    }
}

// Whether so many entries of the two are counted.
fn counts(version: &Version, entries: (u64, u64)) -> bool {
    pair(version, 0) == (1, entries.0) && pair(version, 1) == (2, entries.1)
}

#[test]
fn versions_are_compared(rt: HostRuntime) -> Result<(), Fail> {
    let cases = [
        ((2, 1), (1, 2), Relation::Concurrent),
        ((0, 0), (2, 1), Relation::Before),
        ((2, 1), (0, 0), Relation::After),
        ((0, 1), (2, 1), Relation::Before),
        ((2, 1), (2, 0), Relation::After),
        ((0, 3), (1, 0), Relation::Concurrent),
        ((2, 1), (2, 1), Relation::Same),
    ];
    for (left, right, wanted) in cases {
        assert!(rt;
            relation(rt.alloc(), left, right)? == wanted,
            "{left:?} {right:?}"
        );
    }
    Ok(())
}

#[test]
fn versions_are_merged(rt: HostRuntime) -> Result<(), Fail> {
    let cases = [((2, 1), (1, 2), (2, 2)), ((0, 3), (1, 0), (1, 3))];
    for (left, right, wanted) in cases {
        assert!(rt; counts(&merged(rt.alloc(), left, right)?, wanted));
    }
    Ok(())
}

// The version of two and one entries, where the count of the first is reached.
fn reached(alloc: Global, least: u64) -> Result<Version, Fail> {
    let mut version = seen(alloc, (2, 1))?;
    reach(alloc, &mut version, least)?;
    Ok(version)
}

fn reach(alloc: Global, version: &mut Version, least: u64) -> Result<(), Fail> {
    let who = parse_unique(alloc, b"a:1#1")?;
    Ok(version.reach(alloc, &who, least.min(BOUND))?)
}

// A count is raised where it was less, and else stays.
#[test]
fn counts_are_reached(rt: HostRuntime) -> Result<(), Fail> {
    for (least, wanted) in [(0, 2), (2, 2), (5, 5)] {
        assert!(rt; counts(&reached(rt.alloc(), least)?, (wanted, 1)));
    }
    Ok(())
}
