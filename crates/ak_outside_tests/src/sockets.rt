use ak_address::{Address, Text, parse_address};
use ak_link::UdpLink;
use ak_outside::{Bound, Heard, Link, Looked, Sent};
use std::alloc::{AllocError, Global};
use std::net::Net;
use std::test::Fail;

// As long as a datagram of a node may be.
const LONGEST: usize = 29_596;

fn on_loopback(alloc: Global, port: u16) -> Result<Address, AllocError> {
    let host = Text::from_bytes(alloc, b"127.0.0.1")?;
    Ok(Address {
        host,
        port: port.max(1),
    })
}

// Its address, once it is bound; port 1 where it is not.
fn bound<R: Net>(alloc: Global, link: &mut UdpLink<'_, R>) -> Result<Address, AllocError> {
    let ready = link.bind(None) == Bound::Ready;
    match link.port() {
        Some(port) => {
            if ready {
                return on_loopback(alloc, port);
            }
            on_loopback(alloc, 1)
        }
        None => on_loopback(alloc, 1),
    }
}

// What comes next, of a hundred receives.
fn hear<R: Net>(link: &mut UdpLink<'_, R>, buffer: &mut [u8]) -> Heard {
    'receives: for _ in 0..100 {
        let heard = link.receive(buffer);
        if heard != Heard::Quiet {
            return heard;
        }
    }
    Heard::Quiet
}

fn comes_whole<R: Net>(
    from: &mut UdpLink<'_, R>,
    to: &mut UdpLink<'_, R>,
    at: &Address,
    bytes: &[u8],
) -> bool {
    let mut buffer = [0; 65536];
    let sent = from.send(at, bytes) == Sent::Sent;
    let heard = hear(to, &mut buffer) == Heard::Packet(bytes.len());
    sent && heard && buffer.starts_with(bytes)
}

fn comes_cut<R: Net>(from: &mut UdpLink<'_, R>, to: &mut UdpLink<'_, R>, at: &Address) -> bool {
    let mut buffer = [0; 2];
    let sent = from.send(at, b"abc") == Sent::Sent;
    sent && hear(to, &mut buffer) == Heard::Packet(2) && buffer == *b"ab"
}

#[test]
fn datagrams_come_over_loopback(rt: HostRuntime) -> Result<(), Fail> {
    let mut one = UdpLink::new(&rt, rt.alloc());
    let mut other = UdpLink::new(&rt, rt.alloc());
    let at_one = bound(rt.alloc(), &mut one)?;
    let at_other = bound(rt.alloc(), &mut other)?;
    assert!(rt; comes_whole(&mut one, &mut other, &at_other, b"there"));
    assert!(rt; comes_whole(&mut other, &mut one, &at_one, b"back"));
    let longest = vec![in rt.alloc(); 7; LONGEST]?;
    assert!(rt; comes_whole(&mut one, &mut other, &at_other, &longest));
    assert!(rt; comes_cut(&mut one, &mut other, &at_other));
    Ok(())
}

// A port at which nobody listens any more.
fn left_port<R: Net>(rt: &R, alloc: Global) -> Result<Address, AllocError> {
    bound(alloc, &mut UdpLink::new(rt, alloc))
}

#[test]
fn nobody_listens(rt: HostRuntime) -> Result<(), Fail> {
    let at = left_port(&rt, rt.alloc())?;
    let mut link = UdpLink::new(&rt, rt.alloc());
    assert!(rt; link.send(&at, b"early") == Sent::Failed && link.losses() == 1);
    let mut buffer = [0; 16];
    assert!(rt; link.receive(&mut buffer) == Heard::Failed && link.faults() == 1);
    bound(rt.alloc(), &mut link)?;
    assert!(rt; link.send(&at, b"lost") == Sent::Sent);
    assert!(rt; link.receive(&mut buffer) == Heard::Quiet);
    assert!(rt; link.faults() == 1 && link.losses() == 1);
    Ok(())
}

// The address of this text, at another port.
fn at_port(alloc: Global, text: &[u8], port: u16) -> Result<Address, Fail> {
    let mut at = parse_address(alloc, text)?;
    at.port = port.max(1);
    Ok(at)
}

// A packet to a name comes once the name was looked up, and is lost before.
fn comes_by_name<R: Net>(
    from: &mut UdpLink<'_, R>,
    to: &mut UdpLink<'_, R>,
    name: &Address,
) -> bool {
    let lost = from.send(name, b"early") == Sent::Failed && from.losses() == 1;
    let known = from.look_up(name) == Looked::Known && from.look_up(name) == Looked::Known;
    lost && known && comes_whole(from, to, name, b"by name")
}

#[test]
fn names_are_sent_to_once_they_are_looked_up(rt: HostRuntime) -> Result<(), Fail> {
    let mut one = UdpLink::new(&rt, rt.alloc());
    let mut other = UdpLink::new(&rt, rt.alloc());
    bound(rt.alloc(), &mut one)?;
    let at_other = bound(rt.alloc(), &mut other)?;
    let name = at_port(rt.alloc(), b"localhost:1", at_other.port)?;
    assert!(rt; comes_by_name(&mut one, &mut other, &name));
    // The same host at another port needs no look-up of its own.
    let elsewhere = parse_address(rt.alloc(), b"localhost:9")?;
    assert!(rt; one.send(&elsewhere, b"x") == Sent::Sent);
    // Written otherwise it is another name.
    let written = at_port(rt.alloc(), b"LOCALHOST:1", at_other.port)?;
    assert!(rt; one.send(&written, b"x") == Sent::Failed);
    assert!(rt; one.faults() == 0 && one.losses() == 2);
    Ok(())
}

#[test]
fn what_is_not_found_is_lost(rt: HostRuntime) -> Result<(), Fail> {
    // No byte `_` stands in the name of a host of the network, so no name server is asked for long.
    let nobody = parse_address(rt.alloc(), b"no_host.invalid:1")?;
    let mut link = UdpLink::new(&rt, rt.alloc());
    assert!(rt; link.look_up(&nobody) == Looked::Unknown);
    assert!(rt; link.bind(Some(&nobody)) == Bound::Failed && link.faults() == 1);
    bound(rt.alloc(), &mut link)?;
    assert!(rt; link.send(&nobody, b"lost") == Sent::Failed && link.losses() == 1);
    assert!(rt; link.faults() == 1);
    Ok(())
}

// A packet to another address of this machine, at the port of the link, comes to it.
fn hears_elsewhere<R: Net>(
    alloc: Global,
    from: &mut UdpLink<'_, R>,
    link: &mut UdpLink<'_, R>,
) -> Result<bool, Fail> {
    let mut buffer = [0; 16];
    let elsewhere = at_port(alloc, b"127.0.0.2:1", link.port().unwrap_or(1))?;
    let sent = from.send(&elsewhere, b"to the port") == Sent::Sent;
    Ok(sent && hear(link, &mut buffer) == Heard::Packet(11))
}

// A link without an address of its own, which asks for this one.
fn asking<'a, R: Net>(rt: &'a R, alloc: Global, at: &Address) -> UdpLink<'a, R> {
    let mut asking = UdpLink::new(rt, alloc);
    let _known = asking.look_up(at);
    let _bound = asking.bind(None);
    asking
}

#[test]
fn without_an_address_one_alone_is_taken(rt: HostRuntime) -> Result<(), Fail> {
    let mut from = UdpLink::new(&rt, rt.alloc());
    let at = at_port(rt.alloc(), b"0.0.0.0:1", left_port(&rt, rt.alloc())?.port)?;
    assert!(rt; from.port() == None && from.bind(Some(&at)) == Bound::Ready);
    // One at all addresses hears what comes to any.
    let at = at_port(rt.alloc(), b"0.0.0.0:1", left_port(&rt, rt.alloc())?.port)?;
    let mut all = UdpLink::new(&rt, rt.alloc());
    assert!(rt; all.bind(Some(&at)) == Bound::Ready);
    assert!(rt; hears_elsewhere(rt.alloc(), &mut from, &mut all)?);
    // One that asks has one alone, and what it sends comes.
    let number = at_port(rt.alloc(), b"127.0.0.1:1", at.port)?;
    let mut asker = asking(&rt, rt.alloc(), &number);
    assert!(rt; comes_whole(&mut asker, &mut all, &number, b"asked"));
    assert!(rt; !hears_elsewhere(rt.alloc(), &mut from, &mut asker)?);
    let name = at_port(rt.alloc(), b"localhost:1", at.port)?;
    let mut asker = asking(&rt, rt.alloc(), &name);
    assert!(rt; comes_whole(&mut asker, &mut all, &name, b"asked"));
    assert!(rt; !hears_elsewhere(rt.alloc(), &mut from, &mut asker)?);
    Ok(())
}
