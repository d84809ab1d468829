use ak_address::{Address, Unique, parse_address, parse_unique};
use ak_membership::Membership;
use ak_settings::{Settings, Strategy};
use std::alloc::Global;
use std::test::Fail;

fn listed(alloc: Global) -> Result<Vec<Address>, Fail> {
    let mut listed = Vec::new(alloc);
    listed.push(parse_address(alloc, b"a:1")?)?;
    Ok(listed)
}

// The membership of a process that has founded its cluster.
fn founded(alloc: Global, me: Unique) -> Result<Membership, Fail> {
    let made = Settings::of_membership(alloc, listed(alloc)?, Strategy::StaticQuorum(1), 2, 9, 9)?;
    let settings = made.ok_or("the settings are out of range")?;
    let mut membership = Membership::start(alloc, me, &settings)?;
    let _ = membership.found(alloc)?;
    Ok(membership)
}

// How many members miss its view, how many block it, and how many addresses are counted.
fn numbers(membership: &Membership) -> (u32, u32, u32) {
    let tally = membership.tally();
    (tally.missing(), tally.blocking(), tally.addresses())
}

#[test]
fn a_founder_agrees_with_itself_and_has_settled_nothing(rt: HostRuntime) -> Result<(), Fail> {
    let membership = founded(rt.alloc(), parse_unique(rt.alloc(), b"a:1#1")?)?;
    // It is Joining, and so does not count yet.
    assert!(rt; numbers(&membership) == (0, 0, 0));
    assert!(rt; membership.converged());
    assert!(rt; !membership.settled_now());
    Ok(())
}
