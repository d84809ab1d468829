// A link over the system's UDP socket, at the edge. What is done with its answers is proved. What is trusted:
// - that the runtime finds the addresses of a host's name, and binds a socket to one of them and a port, and to any free port
//   where the port is 0; that to name the one peer of a socket sends nothing, and tells from which own address it is reached;
// - that a receive waits as long as was set, less only where a datagram comes, and answers `WouldBlock` or `TimedOut` where none
//   came; that it puts a datagram's first bytes into the buffer, all of them or as many as have room, and says how many;
// - that a send gives the bytes to the system as one datagram to the address, and that what is refused of it later, which the
//   system may say of the next call, is of the kind `ConnectionRefused`;
// - that a call with an address in numbers looks up no name;
// - that each answers an error exactly where the system does, of the kind `Interrupted` for a signal.
ghost use Rattle.std.specs.Prelude.{◌≡◌, ◌≤◌, [], None};
ghost use Rattle.ak_outside.specs.Link.{BindCause, SendCause, HearCause, FitsRoom};
ghost use Rattle.ak_link.specs.Names.{AddsFound, LooksUp, LosesUnfound};

use crate::calls::{receive, send};
use crate::names::{Found, find, goes_to, host_of, is_found, looked};
use ak_address::Address;
use ak_outside::{Bound, Heard, Link, Looked, Sent};
use std::alloc::Global;
use std::io;
use std::io::ErrorKind;
use std::net::{IpAddr, Ipv4Addr, Ipv6Addr, Net, UdpSocket};
use std::time::Duration;

// For how long a receive waits.
const WAIT_MILLISECONDS: u64 = 10;

// The port of a host that is asked for nothing but the way to it.
const DISCARD_PORT: u16 = 9;

/// A link over a UDP socket. Nothing of what it sends and receives is known. It asks the system for a name where that is looked
/// up, and for its own where it is bound; a packet goes to an address in numbers or to a name that was found, and is lost else.
#[derive(Drop)]
pub struct UdpLink<'a, R: Net> {
    runtime: &'a R,
    alloc: Global,
    found: Vec<Found>,
    socket: Option<Opened>,
    fault_count: u64,
    loss_count: u64,
}

// A socket, and whether it is one over IPv4.
#[derive(Drop)]
struct Opened {
    socket: UdpSocket,
    v4: bool,
}

impl<'a, R: Net> UdpLink<'a, R> {
    /// A link that has no address yet and knows no name: until it is bound each receive and each send fails. It has not failed.
    pub fn new(rt: &'a R, alloc: Global) -> Self
        ensures faults { ⟦<UdpLink<'a, R> as Link>⟧.faults result ≡ 0 }
        ensures losses { ⟦<UdpLink<'a, R> as Link>⟧.losses result ≡ 0 }
        ensures unbound { result.socket ≡ None }
        ensures names { result.found.items ≡ [] }
    {
        UdpLink {
            runtime: rt,
            alloc,
            found: Vec::new(alloc),
            socket: None,
            fault_count: 0,
            loss_count: 0,
        }
    }

    /// How many binds and receives have failed, at most 2^64 - 1.
    pub fn faults(&self) -> u64
        ensures { result ≡ ⟦<UdpLink<'a, R> as Link>⟧.faults self.now }
    {
        self.fault_count
    }

    /// How many sends have failed, at most 2^64 - 1.
    pub fn losses(&self) -> u64
        ensures { result ≡ ⟦<UdpLink<'a, R> as Link>⟧.losses self.now }
    {
        self.loss_count
    }

    /// The port that it has, where it is bound and the system says it. None where it was never bound.
    pub fn port(&self) -> Option<u16>
        ensures { self.now.socket ≡ None → result ≡ None }
    {
        match &self.socket {
            Some(opened) => match opened.socket.local_addr() {
                Ok(own) => Some(own.port()),
                Err(_) => None,
            },
            None => None,
        }
    }
}

impl<'a, R: Net> Link for UdpLink<'a, R> {
    ghost bound = { λ _. None };

    ghost sends = { λ _. None };

    ghost coming = { λ _. None };

    ghost faults = { λ s. s.fault_count };

    ghost losses = { λ s. s.loss_count };

    /// Asks the system for the host's name, which may take as long as a name server takes. A host in numbers is known, and one
    /// that was found is not asked for again; one that was not, or for which memory ran out, is `Unknown`.
    fn look_up(&mut self, at: &Address) -> Looked
        ensures faults { self.new.fault_count ≡ self.old.fault_count }
        ensures losses { self.new.loss_count ≡ self.old.loss_count }
        ensures adds { AddsFound at.now.host self.old.found.items self.new.found.items }
        ensures known { LooksUp at.now.host self.new.found.items result }
    {
        if !is_found(&self.found, &at.host) {
            let _added = find(self.runtime, self.alloc, at, &mut self.found);
        }
        looked(&self.found, at)
    }

    /// Takes the address, in place of the one before; its own name is asked for. Without an address it takes any free port, at the
    /// one own address from which the first host is reached that was looked up, or on loopback where none was.
    fn bind(&mut self, at: Option<&Address>) -> Bound
        ensures count { self.old.fault_count ≤ self.new.fault_count }
        ensures cause { BindCause self.old.fault_count self.new.fault_count result }
        ensures losses { self.new.loss_count ≡ self.old.loss_count }
        ensures kept { self.new.found ≡ self.old.found }
    {
        match open_at(self.runtime, at, &self.found) {
            Ok(opened) => {
                self.socket = Some(opened);
                Bound::Ready
            }
            Err(_) => {
                self.fault_count = self.fault_count.saturating_add(1);
                Bound::Failed
            }
        }
    }

    /// One datagram, to the host where it is an address in numbers, and else to where it was found: to the first of its addresses
    /// over the protocol (IPv4 or IPv6) over which the link is bound. To any other name it is lost at once. A call that was
    /// interrupted, or that says what was refused of an earlier one, is tried again, at most 100 times; another that fails is
    /// counted, and so is one without an address.
    fn send(&mut self, to: &Address, bytes: &[u8]) -> Sent
        ensures count { self.old.loss_count ≤ self.new.loss_count }
        ensures cause { SendCause self.old.loss_count self.new.loss_count result }
        ensures faults { self.new.fault_count ≡ self.old.fault_count }
        ensures kept { self.new.found ≡ self.old.found }
        ensures unfound { LosesUnfound self.old.found.items to.now.host result }
    {
        let sent = match &mut self.socket {
            Some(opened) => send_to(opened, &self.found, to, bytes),
            None => Sent::Failed,
        };
        if sent == Sent::Failed {
            self.loss_count = self.loss_count.saturating_add(1);
        }
        sent
    }

    /// Waits for a datagram for 10 milliseconds. A call that was interrupted, or that says what was refused of a send, is tried
    /// again, at most 100 times; another that fails is counted, and so is one without an address.
    fn receive(&mut self, buffer: &mut [u8]) -> Heard
        ensures count { self.old.fault_count ≤ self.new.fault_count }
        ensures cause { HearCause self.old.fault_count self.new.fault_count result }
        ensures losses { self.new.loss_count ≡ self.old.loss_count }
        ensures fits { FitsRoom result buffer.new }
        ensures kept { self.new.found ≡ self.old.found }
    {
        let heard = match &mut self.socket {
            Some(opened) => hear(opened, buffer),
            None => Heard::Failed,
        };
        if heard == Heard::Failed {
            self.fault_count = self.fault_count.saturating_add(1);
        }
        heard
    }
}

// A socket with this address, or any free port.
fn open_at<R: Net>(rt: &R, at: Option<&Address>, found: &[Found]) -> io::Result<Opened> {
    let socket = match at {
        Some(at) => UdpSocket::bind(rt, (host_of(at), at.port))?,
        None => UdpSocket::bind(rt, (nearest(rt, found), 0))?,
    };
    socket.set_read_timeout(Some(Duration::from_millis(WAIT_MILLISECONDS)))?;
    let v4 = socket.local_addr()?.is_ipv4();
    Ok(Opened { socket, v4 })
}

// The own address from which the first of these addresses is reached to which there is a way; loopback where there is none.
fn nearest<R: Net>(rt: &R, found: &[Found]) -> IpAddr {
    'addresses: for one in found {
        if let Ok(own) = way_to(rt, one.at.ip()) {
            return own;
        }
    }
    IpAddr::V4(Ipv4Addr::LOCALHOST)
}

// The own address from which a host is reached. Nothing is sent for it.
fn way_to<R: Net>(rt: &R, host: IpAddr) -> io::Result<IpAddr> {
    let any = match host {
        IpAddr::V4(_) => IpAddr::V4(Ipv4Addr::UNSPECIFIED),
        IpAddr::V6(_) => IpAddr::V6(Ipv6Addr::UNSPECIFIED),
    };
    let probe = UdpSocket::bind(rt, (any, 0))?;
    probe.connect((host, DISCARD_PORT))?;
    Ok(probe.local_addr()?.ip())
}

fn send_to(opened: &mut Opened, found: &[Found], to: &Address, bytes: &[u8]) -> Sent
    ensures { LosesUnfound found.now to.now.host result }
{
    let Some(at) = goes_to(found, opened.v4, to) else {
        return Sent::Failed;
    };
    match send(&mut opened.socket, bytes, at) {
        Ok(count) => whole(count, bytes),
        Err(_) => Sent::Failed,
    }
}

fn whole(count: usize, bytes: &[u8]) -> Sent {
    if count == bytes.len() {
        return Sent::Sent;
    }
    Sent::Failed
}

fn hear(opened: &mut Opened, buffer: &mut [u8]) -> Heard
    ensures { FitsRoom result buffer.new }
{
    match receive(&mut opened.socket, buffer) {
        Ok(count) => Heard::Packet(count),
        Err(e) => {
            if is_quiet(e.kind()) {
                return Heard::Quiet;
            }
            Heard::Failed
        }
    }
}

// No datagram came.
fn is_quiet(kind: ErrorKind) -> bool {
    match kind {
        ErrorKind::WouldBlock => true,
        ErrorKind::TimedOut => true,
        _ => false,
    }
}
