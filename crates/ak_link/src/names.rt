// Where hosts are, as it was found when they were looked up.
ghost use Rattle.std.specs.Prelude.{◌≡◌};
ghost use Rattle.ak_link.specs.Names.{AddsFound, GoesTo, LooksUp, address_of, is_found, is_over};

use ak_address::{Address, Text};
use ak_outside::Looked;
use std::alloc::{AllocError, Global};
use std::net::{IpAddr, Net, SocketAddr, ToSocketAddrs};

/// A host, and an address that was found of it. Of a host that has several there is one for each, in the order in which the
/// system gives them.
#[derive(Drop)]
pub(crate) struct Found {
    host: Text,
    pub(crate) at: SocketAddr,
}

/// Whether an address was found of the host.
pub(crate) fn is_found(found: &[Found], host: &Text) -> bool
    ensures { result ≡ is_found host.now found.now }
{
    'hosts: for one in found {
        if one.host.is(host) {
            return true;
        }
    }
    false
}

// Whether a socket over IPv4, or one over IPv6, reaches the address.
fn is_over(v4: bool, at: &SocketAddr) -> bool
    ensures { result ≡ is_over v4 at.now }
{
    if v4 {
        return at.is_ipv4();
    }
    at.is_ipv6()
}

// The first address of the host that such a socket reaches.
fn address_of(found: &[Found], host: &Text, v4: bool) -> Option<SocketAddr>
    ensures { result ≡ address_of host.now v4 found.now }
{
    'hosts: for one in found {
        if one.host.is(host) && is_over(v4, &one.at) {
            return Some(one.at);
        }
    }
    None
}

/// Where a packet to this address goes, over a socket over IPv4 or one over IPv6; none where that is not known.
pub(crate) fn goes_to(found: &[Found], v4: bool, to: &Address) -> Option<SocketAddr>
    ensures { GoesTo found.now v4 to.now result }
{
    if let Ok(ip) = IpAddr::parse_ascii(to.host.bytes()) {
        return Some(SocketAddr::new(ip, to.port));
    }
    let mut at = address_of(found, &to.host, v4)?;
    at.set_port(to.port);
    Some(at)
}

/// What is known of where packets to this address go.
pub(crate) fn looked(found: &[Found], at: &Address) -> Looked
    ensures { LooksUp at.now.host found.now result }
{
    if IpAddr::parse_ascii(at.host.bytes()).is_ok() || is_found(found, &at.host) {
        return Looked::Known;
    }
    Looked::Unknown
}

/// Asks the system for the addresses of a host, and adds them. Where memory runs out some are missing.
pub(crate) fn find<R: Net>(
    rt: &R,
    alloc: Global,
    at: &Address,
    found: &mut Vec<Found>,
) -> Result<(), AllocError>
    ensures { AddsFound at.now.host found.old.items found.new.items }
{
    let Ok(addresses) = (host_of(at), at.port).to_socket_addrs(rt) else {
        return Ok(());
    };
    'addresses: for address in addresses {
        let host = at.host.copy(alloc)?;
        found.push(Found { host, at: address })?;
    }
    Ok(())
}

/// Its host as text: letters, digits and signs, and so UTF-8.
pub(crate) fn host_of(at: &Address) -> &str {
    match std::str::from_utf8(at.host.bytes()) {
        Ok(host) => host,
        Err(_) => "",
    }
}
