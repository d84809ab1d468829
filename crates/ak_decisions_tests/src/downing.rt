use crate::build::addresses_of;
use crate::decision::downed;
use ak_address::{Address, Unique, Uniques, parse_unique};
use ak_downing::{Decision, decide, downs, reachable_addresses};
use ak_member::{Members, Status};
use ak_reach::Rows;
use ak_settings::Strategy;
use std::alloc::Global;
use std::test::Fail;

// Sides are written in bits: the last one is a's.
const NAMES: [&str; 6] = ["a:1#1", "b:1#1", "c:1#1", "d:1#1", "e:1#1", "f:1#1"];

const HOSTS: &[u8] = b"abcdef";

fn members_of(alloc: Global, texts: &[&str]) -> Result<Members, Fail> {
    let mut members = Members::empty(alloc);
    for text in texts {
        members.raise(alloc, &parse_unique(alloc, text.as_bytes())?, Status::Up, 1)?;
    }
    Ok(members)
}

fn side_of(alloc: Global, bits: u32) -> Result<Uniques, Fail> {
    let mut side = Uniques::empty(alloc);
    let mut rest = bits;
    for name in NAMES {
        if rest % 2 == 1 {
            side.insert(alloc, &parse_unique(alloc, name.as_bytes())?)?;
        }
        rest /= 2;
    }
    Ok(side)
}

fn first_of(bits: u32) -> &'static str {
    let mut rest = bits;
    for name in NAMES {
        if rest % 2 == 1 {
            return name;
        }
        rest /= 2;
    }
    NAMES[0]
}

// The one row that there is: this observer's, with those of the other side.
fn rows_of(alloc: Global, observer: &Unique, other: u32) -> Result<Rows, Fail> {
    let mut rows = Rows::empty(alloc);
    rows.set_row(alloc, observer, 1, &side_of(alloc, other)?)?;
    Ok(rows)
}

// What the first node of a side decides, which finds the other side unreachable; none where there are too many to count.
fn decided(
    alloc: Global,
    strategy: &Strategy,
    role: &[Address],
    members: &Members,
    side: u32,
    other: u32,
) -> Result<Option<Decision>, Fail> {
    let me = parse_unique(alloc, first_of(side).as_bytes())?;
    let rows = rows_of(alloc, &me, other)?;
    if members.uniques() < 100 {
        return Ok(Some(decide(strategy, role, members, &rows, &me)));
    }
    Ok(None)
}

// The first three that the decision downs at that node.
fn first_downed(alloc: Global, decision: Decision, side: u32, other: u32) -> Result<[u8; 3], Fail> {
    let members = members_of(alloc, &NAMES[..5])?;
    let me = parse_unique(alloc, first_of(side).as_bytes())?;
    let rows = rows_of(alloc, &me, other)?;
    let effects = downs(alloc, decision, &members, &rows, &me)?;
    Ok([
        downed(effects.at(0)),
        downed(effects.at(1)),
        downed(effects.at(2)),
    ])
}

#[test]
fn quorum_decisions(rt: HostRuntime) -> Result<(), Fail> {
    let role = addresses_of(rt.alloc(), HOSTS)?;
    let members = members_of(rt.alloc(), &NAMES[..5])?;
    for (quorum, side, other, wanted) in [
        (3, 0b00111, 0b11000, Decision::DownUnreachable),
        (3, 0b11000, 0b00111, Decision::DownReachable),
        (2, 0b00111, 0b11000, Decision::DownAll),
        (0, 0b00111, 0b11000, Decision::DownAll),
        (4294967295, 0b00111, 0b11000, Decision::DownReachable),
    ] {
        let strategy = Strategy::StaticQuorum(quorum);
        let decision = decided(rt.alloc(), &strategy, &role, &members, side, other)?;
        assert_eq!(rt; decision, Some(wanted), "{quorum}");
    }
    Ok(())
}

#[test]
fn majority_decisions(rt: HostRuntime) -> Result<(), Fail> {
    let role = addresses_of(rt.alloc(), HOSTS)?;
    let members = members_of(rt.alloc(), &NAMES[..4])?;
    for (side, other, wanted) in [
        (0b0011, 0b1100, Decision::DownUnreachable),
        (0b1100, 0b0011, Decision::DownReachable),
        (0b1110, 0b0001, Decision::DownUnreachable),
    ] {
        let strategy = Strategy::KeepMajority;
        let decision = decided(rt.alloc(), &strategy, &role, &members, side, other)?;
        assert_eq!(rt; decision, Some(wanted));
    }
    Ok(())
}

#[test]
fn a_decision_downs_its_members(rt: HostRuntime) -> Result<(), Fail> {
    let unreachable = first_downed(rt.alloc(), Decision::DownUnreachable, 0b00111, 0b11000)?;
    assert_eq!(rt; unreachable, [b'd', b'e', 0]);
    let reachable = first_downed(rt.alloc(), Decision::DownReachable, 0b11000, 0b00111)?;
    assert_eq!(rt; reachable, [b'd', b'e', 0]);
    let all = first_downed(rt.alloc(), Decision::DownAll, 0b00111, 0b11000)?;
    assert_eq!(rt; all, [b'a', b'b', b'c']);
    Ok(())
}

fn reached(
    alloc: Global,
    role: &[u8],
    members: &Members,
    rows: &Rows,
    me: &Unique,
) -> Result<u32, Fail> {
    let role = addresses_of(alloc, role)?;
    if members.uniques() < 100 {
        return Ok(reachable_addresses(&role, members, rows, me));
    }
    Err("too many members")?
}

// Of the two processes at the address of a one is reachable, b is, and c is the node.
#[test]
fn an_address_counts_once(rt: HostRuntime) -> Result<(), Fail> {
    let members = members_of(rt.alloc(), &["a:1#1", "a:1#2", "b:1#1", "c:1#1", "d:1#1"])?;
    let me = parse_unique(rt.alloc(), b"c:1#1")?;
    let rows = rows_of(rt.alloc(), &me, 0b1101)?;
    for (role, wanted) in [
        (HOSTS, 3),
        (b"ca", 2),
        (b"a", 1),
        (b"c", 1),
        (b"d", 0),
        (b"z", 0),
    ] {
        assert_eq!(rt; reached(rt.alloc(), role, &members, &rows, &me)?, wanted);
    }
    Ok(())
}

// Whether both sides of a split go on.
fn both_go_on(
    alloc: Global,
    strategy: &Strategy,
    role: &[Address],
    members: &Members,
    side: u32,
    other: u32,
) -> Result<bool, Fail> {
    let one = decided(alloc, strategy, role, members, side, other)?;
    let another = decided(alloc, strategy, role, members, other, side)?;
    Ok(one == Some(Decision::DownUnreachable) && another == one)
}

// Whether some split in two of the members that these bits name goes on at both sides.
fn some_split_goes_on_twice(
    alloc: Global,
    strategy: &Strategy,
    role: &[Address],
    members: &Members,
    all: u32,
) -> Result<bool, Fail> {
    for side in 1..all {
        if both_go_on(alloc, strategy, role, members, side, all - side)? {
            return Ok(true);
        }
    }
    Ok(false)
}

// None of these lets both sides of a split go on.
static SAFE: [Strategy; 6] = [
    Strategy::StaticQuorum(3),
    Strategy::StaticQuorum(4),
    Strategy::KeepMajority,
    Strategy::KeepOldest(true),
    Strategy::KeepOldest(false),
    Strategy::DownAll,
];

// Whether some strategy lets both sides of a split of these members go on where these hosts have the role.
fn some_strategy_goes_on_twice(
    alloc: Global,
    role: &[u8],
    members: &Members,
    all: u32,
) -> Result<bool, Fail> {
    let role = addresses_of(alloc, role)?;
    for strategy in &SAFE {
        if some_split_goes_on_twice(alloc, strategy, &role, members, all)? {
            return Ok(true);
        }
    }
    Ok(false)
}

#[test]
fn no_split_goes_on_twice(rt: HostRuntime) -> Result<(), Fail> {
    let five = members_of(rt.alloc(), &NAMES[..5])?;
    let six = members_of(rt.alloc(), &NAMES)?;
    for role in [HOSTS, b"bcef", b"da", b"z"] {
        assert!(rt; !some_strategy_goes_on_twice(rt.alloc(), role, &five, 0b11111)?);
        assert!(rt; !some_strategy_goes_on_twice(rt.alloc(), role, &six, 0b111111)?);
    }
    Ok(())
}
