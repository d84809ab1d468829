ghost use Rattle.std.specs.Prelude.{◌≤◌};

use crate::coordinator::settings;
use ak_address::{Text, Unique, parse_unique};
use ak_member::{Members, Status};
use ak_region::{Hosting, Offered, Region};
use std::alloc::Global;
use std::test::Fail;

// The shard of `cart` out of ten, and that of `zzzzzz`.
const CART: u32 = 6;

const OTHER: u32 = 4;

// What is done with a region at a.
#[derive(Clone, Copy)]
enum Turn {
    Offer(&'static str, u64),
    Home(u32, &'static str),
    Host(u32, u64),
    Begin(u32),
    HandOff(u32, u64),
    Flush(u32),
}

fn process(alloc: Global, text: &str) -> Result<Unique, Fail> {
    Ok(parse_unique(alloc, text.as_bytes())?)
}

// d where the message is delivered, the first letter of the home where it is forwarded, w where it waits, and x where it is
// dropped.
fn offer(alloc: Global, region: &mut Region, entity: &str, payload: u64) -> Result<u8, Fail> {
    let me = process(alloc, "a:1#1")?;
    let entity = Text::from_bytes(alloc, entity.as_bytes())?;
    match region.offer(alloc, &me, entity, payload)? {
        Offered::Delivered(_) => Ok(b'd'),
        Offered::Forwarded(home, _) => {
            Ok(home.address.host.bytes().first().copied().unwrap_or(0))
        }
        Offered::Buffered => Ok(b'w'),
        Offered::Dropped(_) => Ok(b'x'),
    }
}

fn home(alloc: Global, region: &mut Region, shard: u32, owner: &str) -> Result<u8, Fail> {
    let owner = process(alloc, owner)?;
    if shard < region.shards() {
        region.on_home(alloc, shard, &owner)?;
    }
    Ok(b'-')
}

// n where the shard is newly hosted, a where it is so again, and i where the order is ignored.
fn host(alloc: Global, region: &mut Region, shard: u32, number: u64) -> Result<u8, Fail> {
    let me = process(alloc, "a:1#1")?;
    if shard >= region.shards() {
        return Ok(b'-');
    }
    match region.on_host(alloc, &me, shard, number)? {
        Hosting::New => Ok(b'n'),
        Hosting::Again => Ok(b'a'),
        Hosting::Ignored => Ok(b'i'),
    }
}

fn begin(region: &mut Region, shard: u32) -> u8 {
    if shard < region.shards() {
        region.on_begin(shard);
    }
    b'-'
}

// g where the shard is gone.
fn hand_off(region: &mut Region, shard: u32, number: u64) -> u8 {
    if shard < region.shards() && region.on_hand_off(shard, number) {
        return b'g';
    }
    b'-'
}

// The payloads that leave the buffer, as digits of a number.
fn flush(alloc: Global, region: &mut Region, shard: u32) -> Result<u8, Fail> {
    let me = process(alloc, "a:1#1")?;
    let mut digits: u8 = 0;
    if shard < region.shards() {
        for waiting in &region.flush(alloc, &me, shard)? {
            digits = digits
                .wrapping_mul(10)
                .wrapping_add((waiting.payload % 10) as u8);
        }
    }
    Ok(digits)
}

fn take(alloc: Global, region: &mut Region, turn: Turn) -> Result<u8, Fail> {
    match turn {
        Turn::Offer(entity, payload) => offer(alloc, region, entity, payload),
        Turn::Home(shard, owner) => home(alloc, region, shard, owner),
        Turn::Host(shard, number) => host(alloc, region, shard, number),
        Turn::Begin(shard) => Ok(begin(region, shard)),
        Turn::HandOff(shard, number) => Ok(hand_off(region, shard, number)),
        Turn::Flush(shard) => flush(alloc, region, shard),
    }
}

// Whether each turn is answered so, one after another.
fn all_go(alloc: Global, region: &mut Region, turns: &[(Turn, u8)]) -> Result<bool, Fail> {
    'turns: for (turn, wanted) in turns {
        if take(alloc, region, *turn)? != *wanted {
            return Ok(false);
        }
    }
    Ok(true)
}

fn reports(alloc: Global, region: &Region, wanted: &[(u32, u64, bool)]) -> Result<bool, Fail> {
    let mut found = Vec::new(alloc);
    for report in &region.reports(alloc)? {
        found.push((report.shard, report.number, report.hosted))?;
    }
    Ok(found.as_slice() == wanted)
}

fn wants(alloc: Global, region: &Region, shards: &[u32]) -> Result<bool, Fail> {
    Ok(region.wanted(alloc)?.as_slice() == shards)
}

// A shard is hosted again only with a greater number than it was handed off with.
static LATE_ORDERS: [(Turn, u8); 9] = [
    (Turn::Host(6, 1), b'n'),
    (Turn::HandOff(6, 1), b'g'),
    (Turn::Host(6, 1), b'i'),
    (Turn::HandOff(7, 3), b'-'),
    (Turn::Host(7, 3), b'i'),
    (Turn::Host(7, 4), b'n'),
    (Turn::Host(7, 4), b'a'),
    (Turn::Host(7, 5), b'i'),
    (Turn::HandOff(7, 3), b'-'),
];

// A region of 10 shards, in which so many messages may wait.
fn region_of(alloc: Global, buffer: u32) -> Result<Region, Fail>
    requires least { 1 ≤ buffer }
    requires most { buffer ≤ 100000 }
{
    let mut settings = settings(alloc)?;
    settings.buffer = buffer;
    Ok(Region::new(alloc, &settings)?)
}

#[test]
fn late_orders_are_ignored(rt: HostRuntime) -> Result<(), Fail> {
    let alloc = rt.alloc();
    let mut region = region_of(alloc, 2)?;
    assert!(rt; all_go(alloc, &mut region, &LATE_ORDERS)?);
    assert!(rt; reports(alloc, &region, &[(6, 1, false), (7, 4, true)])?);
    assert!(rt; region.hosts_any());
    Ok(())
}

// Two may wait from the beginning of the hand-off until the shard is hosted again.
static HANDED_OFF: [(Turn, u8); 12] = [
    (Turn::Host(CART, 1), b'n'),
    (Turn::Offer("cart", 5), b'd'),
    (Turn::Begin(CART), b'-'),
    (Turn::Offer("cart", 6), b'w'),
    (Turn::Offer("cart", 7), b'w'),
    (Turn::Offer("cart", 8), b'x'),
    (Turn::Flush(CART), 0),
    (Turn::HandOff(CART, 1), b'g'),
    (Turn::Flush(CART), 0),
    (Turn::Host(CART, 2), b'n'),
    (Turn::Flush(CART), 67),
    (Turn::Flush(CART), 0),
];

#[test]
fn messages_wait_during_a_hand_off(rt: HostRuntime) -> Result<(), Fail> {
    let alloc = rt.alloc();
    let mut region = region_of(alloc, 2)?;
    assert!(rt; all_go(alloc, &mut region, &HANDED_OFF)?);
    assert!(rt; wants(alloc, &region, &[])?);
    Ok(())
}

// Messages of two shards, what each turn answers, and the shards whose home is wanted after it.
static UNKNOWN_HOMES: [(Turn, u8, &[u32]); 12] = [
    (Turn::Offer("cart", 1), b'w', &[CART]),
    (Turn::Offer("zzzzzz", 2), b'w', &[CART, OTHER]),
    (Turn::Offer("cart", 3), b'w', &[CART, OTHER]),
    (Turn::Offer("zzzzzz", 4), b'w', &[CART, OTHER]),
    (Turn::Home(OTHER, "b:1#1"), b'-', &[CART, OTHER]),
    (Turn::Flush(OTHER), 24, &[CART]),
    (Turn::Offer("zzzzzz", 5), b'b', &[CART]),
    (Turn::Home(CART, "a:1#1"), b'-', &[CART]),
    (Turn::Flush(CART), 0, &[CART]),
    (Turn::Offer("cart", 6), b'w', &[CART]),
    (Turn::Host(CART, 1), b'n', &[]),
    (Turn::Flush(CART), 136, &[]),
];

// Whether each turn is answered so, and leaves these shards wanted.
fn all_go_and_want(
    alloc: Global,
    region: &mut Region,
    turns: &[(Turn, u8, &[u32])],
) -> Result<bool, Fail> {
    'turns: for (turn, wanted, shards) in turns {
        if take(alloc, region, *turn)? != *wanted || !wants(alloc, region, shards)? {
            return Ok(false);
        }
    }
    Ok(true)
}

#[test]
fn messages_wait_until_the_home_is_known(rt: HostRuntime) -> Result<(), Fail> {
    let alloc = rt.alloc();
    let mut region = region_of(alloc, 100)?;
    assert!(rt; all_go_and_want(alloc, &mut region, &UNKNOWN_HOMES)?);
    Ok(())
}

// Both shards have their home at b:1; only its first process is a member.
fn forgets(alloc: Global, region: &mut Region, members: &Members) -> Result<bool, Fail> {
    home(alloc, region, CART, "b:1#1")?;
    home(alloc, region, OTHER, "b:1#2")?;
    region.forget(members);
    let known = offer(alloc, region, "cart", 1)? == b'b';
    let forgotten = offer(alloc, region, "zzzzzz", 1)? == b'w';
    Ok(known && forgotten)
}

fn members_with(alloc: Global, who: &str) -> Result<Members, Fail> {
    let mut members = Members::empty(alloc);
    members.raise(alloc, &process(alloc, who)?, Status::Up, 1)?;
    Ok(members)
}

#[test]
fn homes_that_are_no_members_are_forgotten(rt: HostRuntime) -> Result<(), Fail> {
    let alloc = rt.alloc();
    let members = members_with(alloc, "b:1#1")?;
    let mut region = region_of(alloc, 1)?;
    assert!(rt; forgets(alloc, &mut region, &members)?);
    Ok(())
}

#[test]
fn a_buffer_grows_to_what_may_wait(rt: HostRuntime) -> Result<(), Fail> {
    let alloc = rt.alloc();
    let mut region = region_of(alloc, 40)?;
    for payload in 0..40 {
        assert_eq!(rt; offer(alloc, &mut region, "cart", payload)?, b'w');
    }
    assert_eq!(rt; offer(alloc, &mut region, "cart", 40)?, b'x');
    Ok(())
}
