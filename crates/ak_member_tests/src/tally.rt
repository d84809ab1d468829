use ak_address::{Address, parse_address};
use ak_converge::{Stand, Tally};
use std::alloc::{AllocError, Global};
use std::test::Fail;

// One use more of the address, where there is room for it.
fn enter(alloc: Global, tally: &mut Tally, at: &Address) -> Result<(), AllocError> {
    if tally.addresses() < 1000 && tally.uses_at(at) < 1000 {
        tally.enter(alloc, at)?;
    }
    Ok(())
}

// One use less of the address, where it is in use.
fn leave(tally: &mut Tally, at: &Address) {
    if tally.uses_at(at) >= 1 {
        tally.leave(at);
    }
}

// How many addresses are in use once the first is used twice and the other once, and after each use of the first that ends.
fn in_use(alloc: Global, twice: &Address, once: &Address) -> Result<[u32; 3], AllocError> {
    let mut tally = Tally::empty(alloc);
    enter(alloc, &mut tally, twice)?;
    enter(alloc, &mut tally, once)?;
    enter(alloc, &mut tally, twice)?;
    let both = tally.addresses();
    leave(&mut tally, twice);
    let still = tally.addresses();
    leave(&mut tally, twice);
    Ok([both, still, tally.addresses()])
}

#[test]
fn an_address_stays_in_use_until_nobody_uses_it(rt: HostRuntime) -> Result<(), Fail> {
    let twice = parse_address(rt.alloc(), b"a:1")?;
    let once = parse_address(rt.alloc(), b"b:1")?;
    assert!(rt; in_use(rt.alloc(), &twice, &once)? == [2, 2, 1]);
    Ok(())
}

// Nobody.
const NOBODY: Stand = Stand {
    counted: false,
    seen: false,
    blocking: false,
};

// How many miss the view and how many block it, of one member that stands so.
fn numbers(alloc: Global, stand: Stand) -> (u32, u32) {
    let mut tally = Tally::empty(alloc);
    tally.change(&NOBODY, &stand);
    (tally.missing(), tally.blocking())
}

// How a member stands (whether it counts, has seen the view, blocks it), and what is counted of it.
static STANDS: [((bool, bool, bool), (u32, u32)); 5] = [
    ((true, false, false), (1, 0)),
    ((true, true, false), (0, 0)),
    ((false, false, false), (0, 0)),
    ((true, false, true), (1, 1)),
    ((false, true, true), (0, 1)),
];

#[test]
fn who_counts_and_has_not_seen_is_missing(rt: HostRuntime) -> Result<(), Fail> {
    for ((counted, seen, blocking), wanted) in &STANDS {
        let stand = Stand {
            counted: *counted,
            seen: *seen,
            blocking: *blocking,
        };
        assert!(rt; numbers(rt.alloc(), stand) == *wanted);
    }
    Ok(())
}
