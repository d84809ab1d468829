ghost use Rattle.std.specs.Prelude.{◌≡◌, ◌↔◌, ◌++◌, IfOk, OnOk, OnErr, IsTrue, Contains, option_copied};
ghost use Rattle.std.specs.Ordering.{is_eq};
ghost use Rattle.ak_address.specs.Unique.{address_cmp, unique_cmp};
ghost use Rattle.ak_address.specs.Distinct.{is_among, is_at_address};
ghost use Rattle.ak_address.specs.Spelling.{address_text, unique_text};

use crate::print::{print_address, print_unique};
use crate::text::Text;
use std::alloc::{AllocError, Global};
use std::cmp::Ordering;
use std::marker::Model;

/// Where a process is reached: a host of 1 to 64 bytes out of letters, digits, `.`, `-` and `_`, and a
/// port from 1 on. Both are invariants of the type.
#[derive(Debug, Drop)]
pub struct Address {
    pub host: Text,
    pub port: u16,
}

impl Model for Address {
    ghost use Rattle.ak_address.specs.Unique.{AddressModel, coded_address, IsAddress};

    ghost Value = { AddressModel };

    ghost coded = { coded_address };

    ghost view = { λ a. record { host = a.host; port = a.port } };

    // How long a host is fits in one byte of a packet, and it has no byte that parts the words of a line; port 0 is none.
    ghost invariant = { λ a. IsAddress (record { host = a.host; port = a.port }) };
}

impl Address {
    /// The order of addresses: by the bytes of the host, then by the port (Akka orders members by host and port;
    /// that hosts are compared by bytes is this project's choice). Takes no memory.
    #[inline(always)]
    pub fn compare(&self, other: &Address) -> Ordering
        ensures { result ≡ address_cmp self.now other.now }
    {
        let hosts = self.host.compare(&other.host);
        if hosts.is_eq() {
            return self.port.cmp(&other.port);
        }
        hosts
    }

    /// Whether both are the same address. It is told sooner than their order. Takes no memory.
    #[inline(always)]
    pub fn is(&self, other: &Address) -> bool
        ensures value { result ≡ is_eq (address_cmp self.now other.now) }
        ensures meaning { IsTrue result ↔ self.now ≡ other.now }
    {
        self.port == other.port && self.host.is(&other.host)
    }

    /// An equal address. Only memory can fail.
    pub fn copy(&self, alloc: Global) -> Result<Address, AllocError>
        ensures { IfOk result (λ copy. copy ≡ self.now) }
    {
        let host = self.host.copy(alloc)?;
        let port = self.port;
        Ok(Address { host, port })
    }

    /// Appends the address as `host:port`. Where memory runs out `out` is as it was.
    pub fn print_into(&self, out: &mut Vec<u8>) -> Result<(), AllocError>
        ensures ok { OnOk result (out.new.items ≡ out.old.items ++ address_text self.now) }
        ensures err { OnErr result (out.new.items ≡ out.old.items) }
    {
        print_address(self.host.bytes(), self.port, out)
    }
}

/// One process: its address, and a uid from 1 to 9223372036854775807. A process that starts again at
/// an address has another uid. The ranges are invariants of the type.
#[derive(Debug, Drop)]
pub struct Unique {
    pub address: Address,
    pub uid: u64,
}

impl Model for Unique {
    ghost use Rattle.ak_address.specs.Unique.{UniqueModel, coded_unique, IsUnique};

    ghost Value = { UniqueModel };

    ghost coded = { coded_unique };

    ghost view = { λ u. record { address = u.address; uid = u.uid } };

    // Uid 0 is no process, and a uid fits in a signed number of 64 bits, which is what a configuration holds.
    ghost invariant = { λ u. IsUnique (record { address = u.address; uid = u.uid }) };
}

impl Unique {
    /// The order of processes: by address, then by uid (Akka's order of unique addresses). Takes no memory.
    #[inline(always)]
    pub fn compare(&self, other: &Unique) -> Ordering
        ensures { result ≡ unique_cmp self.now other.now }
    {
        let addresses = self.address.compare(&other.address);
        if addresses.is_eq() {
            return self.uid.cmp(&other.uid);
        }
        addresses
    }

    /// Whether both are the same process. It is told sooner than their order. Takes no memory.
    #[inline(always)]
    pub fn is(&self, other: &Unique) -> bool
        ensures value { result ≡ is_eq (unique_cmp self.now other.now) }
        ensures meaning { IsTrue result ↔ self.now ≡ other.now }
    {
        self.uid == other.uid && self.address.is(&other.address)
    }

    /// An equal unique. Only memory can fail.
    pub fn copy(&self, alloc: Global) -> Result<Unique, AllocError>
        ensures { IfOk result (λ copy. copy ≡ self.now) }
    {
        let address = self.address.copy(alloc)?;
        let uid = self.uid;
        Ok(Unique { address, uid })
    }

    /// Appends the unique as `host:port#uid`. Where memory runs out `out` is as it was.
    pub fn print_into(&self, out: &mut Vec<u8>) -> Result<(), AllocError>
        ensures ok { OnOk result (out.new.items ≡ out.old.items ++ unique_text self.now) }
        ensures err { OnErr result (out.new.items ≡ out.old.items) }
    {
        print_unique(self.address.host.bytes(), self.address.port, self.uid, out)
    }
}

// The first process, where there is one, is at the address of the second.
pub(crate) fn shares_address(first: Option<&Unique>, second: &Unique) -> bool
    ensures { result ≡ is_at_address (option_copied first.entry) second.now }
{
    match first {
        Some(first) => first.address.is(&second.address),
        None => false,
    }
}

/// True exactly where the address is one of these. Takes no memory.
pub fn contains_address(list: &[Address], at: &Address) -> bool
    ensures value { result ≡ is_among list.now at.now }
    ensures meaning { IsTrue result ↔ Contains list.now at.now }
{
    is_among(list, at)
}

fn is_among(list: &[Address], at: &Address) -> bool
    ensures { result ≡ is_among list.now at.now }
{
    list.iter().any(|each| each.is(at))
}
