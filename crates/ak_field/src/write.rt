ghost use Rattle.std.specs.Prelude.{◌≡◌, ℕ, ◌+◌, ◌≤◌, ◌<◌, ◌++◌, OnOk, OnErr, length, take, vec_len};
ghost use Rattle.ak_field.specs.Ranges.{IsEntity, IsShard};
ghost use Rattle.ak_field.specs.Spelling.{byte, eight_bytes, format, header, process, ballot, shard, flag, entity};

use ak_address::{Address, Text, Unique};
use ak_promise::Ballot;
use std::alloc::AllocError;

/// The version of the format that is written.
pub const FORMAT: u8 = 2;

/// Appends the first five bytes of a datagram, with the version of the format that is written. Where memory runs out, what `out`
/// had is still at its front, here and in each call that appends a field.
pub fn write_header(kind: u8, out: &mut Vec<u8>) -> Result<(), AllocError>
    ensures ok { OnOk result (out.new.items ≡ out.old.items ++ header (format, kind)) }
    ensures err { OnErr result (take (vec_len out.old) out.new.items ≡ out.old.items) }
{
    out.extend_from_slice(&[b'A', b'K', b'C', FORMAT, kind])
}

/// Appends a number of one byte.
pub fn write_byte(number: u8, out: &mut Vec<u8>) -> Result<(), AllocError>
    ensures ok { OnOk result (out.new.items ≡ out.old.items ++ byte number) }
    ensures err { OnErr result (take (vec_len out.old) out.new.items ≡ out.old.items) }
{
    out.push(number)?;
    Ok(())
}

/// Appends a number of eight bytes.
pub fn write_number(number: u64, out: &mut Vec<u8>) -> Result<(), AllocError>
    ensures ok { OnOk result (out.new.items ≡ out.old.items ++ eight_bytes number) }
    ensures err { OnErr result (take (vec_len out.old) out.new.items ≡ out.old.items) }
{
    out.extend_from_slice(&number.to_be_bytes())
}

/// Appends a shard.
pub fn write_shard(number: u32, out: &mut Vec<u8>) -> Result<(), AllocError>
    requires { IsShard number }
    ensures ok { OnOk result (out.new.items ≡ out.old.items ++ shard number) }
    ensures err { OnErr result (take (vec_len out.old) out.new.items ≡ out.old.items) }
{
    out.extend_from_slice(&(number as u16).to_be_bytes())
}

/// Appends whether something holds.
pub fn write_flag(holds: bool, out: &mut Vec<u8>) -> Result<(), AllocError>
    ensures ok { OnOk result (out.new.items ≡ out.old.items ++ flag holds) }
    ensures err { OnErr result (take (vec_len out.old) out.new.items ≡ out.old.items) }
{
    if holds {
        return write_byte(1, out);
    }
    write_byte(0, out)
}

/// Appends a process.
pub fn write_unique(who: &Unique, out: &mut Vec<u8>) -> Result<(), AllocError>
    ensures ok { OnOk result (out.new.items ≡ out.old.items ++ process who.now) }
    ensures err { OnErr result (take (vec_len out.old) out.new.items ≡ out.old.items) }
{
    write_receiver(&who.address, who.uid, out)
}

/// Appends a receiver: an address, and a uid that is 0 where the message is for any process there.
pub fn write_receiver(address: &Address, uid: u64, out: &mut Vec<u8>) -> Result<(), AllocError>
    ensures ok { OnOk result (out.new.items ≡ out.old.items ++ process (record { address = address.now; uid = uid })) }
    ensures err { OnErr result (take (vec_len out.old) out.new.items ≡ out.old.items) }
{
    let host = address.host.bytes();
    out.push(host.len() as u8)?;
    out.extend_from_slice(host)?;
    out.extend_from_slice(&address.port.to_be_bytes())?;
    out.extend_from_slice(&uid.to_be_bytes())?;
    Ok(())
}

/// Appends a ballot.
pub fn write_ballot(asked: &Ballot, out: &mut Vec<u8>) -> Result<(), AllocError>
    ensures ok { OnOk result (out.new.items ≡ out.old.items ++ ballot asked.now) }
    ensures err { OnErr result (take (vec_len out.old) out.new.items ≡ out.old.items) }
{
    write_number(asked.term, out)?;
    write_unique(&asked.unique, out)?;
    Ok(())
}

/// Appends what an entity is called.
pub fn write_entity(name: &Text, out: &mut Vec<u8>) -> Result<(), AllocError>
    requires { IsEntity name.now }
    ensures ok { OnOk result (out.new.items ≡ out.old.items ++ entity name.now) }
    ensures err { OnErr result (take (vec_len out.old) out.new.items ≡ out.old.items) }
{
    let name = name.bytes();
    out.push(name.len() as u8)?;
    out.extend_from_slice(name)?;
    Ok(())
}

/// How many bytes spell a process or a receiver at this address. Takes no memory.
pub fn process_len(address: &Address) -> usize
    ensures length { (uid : ℕ) → result ≡ length (process (record { address = address.now; uid = uid })) }
    ensures few { result ≤ 75 }
{
    address.host.bytes().len() + 11
}

/// How many bytes spell the ballot. Takes no memory.
pub fn ballot_len(asked: &Ballot) -> usize
    ensures is { result ≡ length (ballot asked.now) }
    ensures few { result ≤ 83 }
{
    process_len(&asked.unique.address) + 8
}

/// How many bytes spell what an entity is called. Takes no memory.
pub fn entity_len(name: &Text) -> usize
    requires { IsEntity name.now }
    ensures is { result ≡ length (entity name.now) }
    ensures few { result ≤ 98 }
{
    name.bytes().len() + 1
}
