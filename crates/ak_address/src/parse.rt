ghost use Rattle.std.specs.Prelude.{◌≡◌, ℕ, ◌<◌, ◌≤◌, ◌^◌, ◌==◌, ◌↔◌, IsTrue, IfSome, IfNone, IfOk, IsErrOf, SomeIff};
ghost use Rattle.std.specs.List.{position_or_len, list_all};
ghost use Rattle.std.specs.Str.Parse.{AllDigits, digits_value};
ghost use Rattle.ak_address.specs.declared.parse.AddressFault.TheVariants.{NoMemory};
ghost use Rattle.ak_address.specs.Unique.{AddressModel, UniqueModel, IsHost, is_host_byte};
ghost use Rattle.ak_address.specs.Spelling.{IsNumber, IsPort, IsUid, SpellsAddress, SpellsUnique, ReadsAs, RanOut, SomeAddress, SomeUnique, ChecksPort, before_byte, after_byte};

use crate::address::{Address, Unique};
use crate::text::Text;
use std::alloc::{AllocError, Global};
use thiserror::Error;

/// Why bytes were not read as an address or a unique. It shows as its code.
#[derive(Debug, Drop, Error)]
pub enum AddressFault {
    /// The bytes before the first `:`, or all bytes where there is none, are no host.
    #[error("A1")]
    BadHost,
    /// The host is good, and what follows it is no port.
    #[error("A2")]
    BadPort,
    /// Host and port are good, and what follows them is no uid.
    #[error("A3")]
    BadUid,
    /// Memory ran out.
    #[error("memory")]
    NoMemory(AllocError),
}

impl From<AllocError> for AddressFault {
    ghost from_gives = { λ error fault. fault ≡ NoMemory error };

    fn from(error: AllocError) -> AddressFault {
        AddressFault::NoMemory(error)
    }
}

// Port 0 is none that a datagram reaches, and a port has 16 bits.
const LEAST_PORT: u64 = 1;

const MOST_PORT: u64 = 65535;

// Uid 0 is no process, and the greatest is the greatest integer of a configuration, 2^63 - 1.
const LEAST_UID: u64 = 1;

const MOST_UID: u64 = 9223372036854775807;

// As many as the greatest number of 64 bits has: more digits would have to be zeros before it.
const MOST_DIGITS: usize = 20;

// So that a packet has a greatest length, whatever hosts are in it.
const MOST_HOST_BYTES: usize = 64;

/// The number that these bytes are: 1 to 20 decimal digits, leading zeros allowed, of a value from `least` to
/// `most`. None exactly where they are not that. Takes no memory.
pub fn parse_number(bytes: &[u8], least: u64, most: u64) -> Option<u64>
    ensures found { IfSome result (λ n. IsNumber bytes.now n × (least ≤ n) × (n ≤ most)) }
    ensures none { IfNone result ((n : ℕ) → IsNumber bytes.now n → least ≤ n → n ≤ most → ⊥) }
{
    if bytes.is_empty() || bytes.len() > MOST_DIGITS {
        return None;
    }
    let Some(number) = digits_in(bytes) else {
        return None;
    };
    if number < least || number > most {
        return None;
    }
    Some(number)
}

// The value of bytes that are all digits and whose value fits.
fn digits_in(bytes: &[u8]) -> Option<u64>
    ensures { let value = digits_value 10 bytes.now in
        SomeIff result (AllDigits 10 bytes.now × (value < 2 ^ 64)) value }
{
    let mut value: u64 = 0;
    'digits: for byte in bytes {
        if *byte < b'0' || *byte > b'9' {
            return None;
        }
        let Some(tens) = value.checked_mul(10) else {
            return None;
        };
        let Some(next) = tens.checked_add(u64::from(*byte - b'0')) else {
            return None;
        };
        value = next;
    }
    Some(value)
}

/// The address that these bytes spell: a host, `:` and a port from 1 to 65535 of at most 20 digits. Refused as
/// `BadHost` exactly where the bytes before the first `:`, or all where there is none, are no host; as
/// `BadPort` exactly where the host is good and there is no `:` or the rest is no port; never as `BadUid`. What
/// is spelled so is read, or memory runs out: each refusal comes before anything is allocated.
pub fn parse_address(alloc: Global, bytes: &[u8]) -> Result<Address, AddressFault>
    ensures read { IfOk result (λ a. SpellsAddress bytes.now a) }
    ensures host { IsErrOf result AddressFault.BadHost ↔ (¬ IsHost (before_byte 58 bytes.now)) }
    ensures port { IsErrOf result AddressFault.BadPort
        ↔ (IsHost (before_byte 58 bytes.now) × (¬ IsPort (after_byte 58 bytes.now))) }
    ensures no_uid { ¬ IsErrOf result AddressFault.BadUid }
    ensures only { (a : AddressModel) → SpellsAddress bytes.now a → ReadsAs result a }
    ensures memory { RanOut result → SomeAddress bytes.now }
{
    let (host, port) = split_at_byte(bytes, b':');
    let port = checked_port(host, port)?;
    let host = Text::from_bytes(alloc, host)?;
    Ok(Address { host, port })
}

/// The unique that these bytes spell: an address, `#` and a uid from 1 to 9223372036854775807 of at most 20
/// digits. `BadHost` as for an address; `BadPort` exactly where the host is good and there is no `:` or the
/// bytes after the first `:`, up to the next `#` or the end, are no port; `BadUid` exactly where these are good
/// and there is no `#` or the rest is no uid. What is spelled so is read, or memory runs out.
pub fn parse_unique(alloc: Global, bytes: &[u8]) -> Result<Unique, AddressFault>
    ensures read { IfOk result (λ u. SpellsUnique bytes.now u) }
    ensures host { IsErrOf result AddressFault.BadHost ↔ (¬ IsHost (before_byte 58 bytes.now)) }
    ensures port { IsErrOf result AddressFault.BadPort
        ↔ (IsHost (before_byte 58 bytes.now) × (¬ IsPort (before_byte 35 (after_byte 58 bytes.now)))) }
    ensures uid { IsErrOf result AddressFault.BadUid
        ↔ (IsHost (before_byte 58 bytes.now) × IsPort (before_byte 35 (after_byte 58 bytes.now))
        × (¬ IsUid (after_byte 35 (after_byte 58 bytes.now)))) }
    ensures only { (u : UniqueModel) → SpellsUnique bytes.now u → ReadsAs result u }
    ensures memory { RanOut result → SomeUnique bytes.now }
{
    let (host, rest) = split_at_byte(bytes, b':');
    let (port, uid) = split_at_byte(rest, b'#');
    let port = checked_port(host, port)?;
    let Some(uid) = parse_number(uid, LEAST_UID, MOST_UID) else {
        return Err(AddressFault::BadUid);
    };
    let host = Text::from_bytes(alloc, host)?;
    let address = Address { host, port };
    Ok(Unique { address, uid })
}

/// Whether these bytes spell an address, as `parse_address` reads it. Takes no memory.
pub fn is_address(bytes: &[u8]) -> bool
    ensures { IsTrue result ↔ SomeAddress bytes.now }
{
    let (host, port) = split_at_byte(bytes, b':');
    checked_port(host, port).is_ok()
}

/// Whether these bytes spell a unique, as `parse_unique` reads it. Takes no memory.
pub fn is_unique(bytes: &[u8]) -> bool
    ensures { IsTrue result ↔ SomeUnique bytes.now }
{
    let (host, rest) = split_at_byte(bytes, b':');
    let (port, uid) = split_at_byte(rest, b'#');
    match checked_port(host, port) {
        Ok(_) => parse_number(uid, LEAST_UID, MOST_UID).is_some(),
        Err(_) => false,
    }
}

// The port after a good host.
fn checked_port(host: &[u8], port: &[u8]) -> Result<u16, AddressFault>
    ensures { ChecksPort host.now port.now result }
{
    if !is_host(host) {
        return Err(AddressFault::BadHost);
    }
    let Some(number) = parse_number(port, LEAST_PORT, MOST_PORT) else {
        return Err(AddressFault::BadPort);
    };
    Ok(number as u16)
}

// Whether these bytes are a host.
fn is_host(bytes: &[u8]) -> bool
    ensures { IsTrue result ↔ IsHost bytes.now }
{
    !bytes.is_empty() && bytes.len() <= MOST_HOST_BYTES && all_host_bytes(bytes)
}

fn all_host_bytes(bytes: &[u8]) -> bool
    ensures { result ≡ list_all is_host_byte bytes.now }
{
    bytes.iter().all(|b| matches!(*b, b'a'..=b'z' | b'A'..=b'Z' | b'0'..=b'9' | b'-' | b'.' | b'_'))
}

// What stands before the first of a byte, or all bytes, and what stands after it, or nothing.
fn split_at_byte(bytes: &[u8], separator: u8) -> (&[u8], &[u8])
    ensures before { result.0.now ≡ before_byte separator bytes.now }
    ensures after { result.1.now ≡ after_byte separator bytes.now }
{
    let index = index_of(bytes, separator);
    if index < bytes.len() {
        return (&bytes[..index], &bytes[index + 1..]);
    }
    (bytes, &[])
}

fn index_of(bytes: &[u8], separator: u8) -> usize
    ensures { result ≡ position_or_len (λ b. b == separator) bytes.now }
{
    'bytes: for (i, byte) in bytes.iter().enumerate() {
        if *byte == separator {
            return i;
        }
    }
    bytes.len()
}
