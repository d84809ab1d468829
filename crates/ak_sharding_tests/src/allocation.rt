use ak_address::parse_unique;
use ak_allocation::{Load, choose, rebalance};
use std::alloc::Global;
use std::test::Fail;

fn loads(alloc: Global, counts: &[(&str, u32)]) -> Result<Vec<Load>, Fail> {
    let mut loads = Vec::new(alloc);
    for (text, shards) in counts {
        let unique = parse_unique(alloc, text.as_bytes())?;
        loads.push(Load {
            unique,
            shards: *shards,
        })?;
    }
    Ok(loads)
}

#[test]
fn the_lightest_is_chosen(rt: HostRuntime) -> Result<(), Fail> {
    for (counts, wanted) in [
        ([("a:1#1", 2), ("b:1#1", 1), ("c:1#1", 1)], 1),
        ([("a:1#1", 2), ("b:1#1", 1), ("c:1#1", 0)], 2),
        ([("a:1#1", 0), ("b:1#1", 0), ("c:1#1", 0)], 0),
        ([("c:1#1", 1), ("b:1#2", 1), ("b:1#1", 1)], 2),
    ] {
        let loads = loads(rt.alloc(), &counts)?;
        assert_eq!(rt; choose(&loads), Some(wanted));
    }
    assert_eq!(rt; choose(&[]), None);
    Ok(())
}

#[test]
fn an_overload_is_found(rt: HostRuntime) -> Result<(), Fail> {
    for (counts, threshold, wanted) in [
        ([("a:1#1", 2), ("b:1#1", 1), ("c:1#1", 1)], 1, None),
        ([("a:1#1", 3), ("b:1#1", 1), ("c:1#1", 1)], 1, Some(0)),
        ([("a:1#1", 1), ("b:1#1", 9), ("c:1#1", 9)], 7, Some(1)),
        ([("a:1#1", 1), ("b:1#1", 9), ("c:1#1", 9)], 8, None),
        ([("c:1#1", 9), ("b:1#1", 9), ("a:1#1", 0)], 1, Some(1)),
        (
            [("a:1#1", 4294967295), ("b:1#1", 1), ("c:1#1", 1)],
            4294967295,
            None,
        ),
    ] {
        let loads = loads(rt.alloc(), &counts)?;
        assert_eq!(rt; rebalance(&loads, threshold), wanted);
    }
    assert_eq!(rt; rebalance(&[], 0), None);
    Ok(())
}
