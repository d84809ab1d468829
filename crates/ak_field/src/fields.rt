ghost use Rattle.std.specs.Prelude.{◌≡◌, ◌≤◌, ◌<◌, IfOk, length};
ghost use Rattle.std.specs.Int.{w16, w64};
ghost use Rattle.ak_field.specs.Reading.{GivesExactly, GivesExactlyAs, bytes_at, byte_at, wide_at};
ghost use Rattle.ak_field.specs.Fields.{length_at, number_at, shard_at, flag_at};
ghost use Rattle.ak_field.specs.Laws.{IsBytes};

use crate::fault::WireFault;
use std::marker::Model;

/// The bytes of a datagram that are still to be read. A call that reads a field answers its value and goes on to the bytes
/// after it, or answers the first fault; after a fault there is nothing more to read.
#[derive(Drop)]
pub struct Fields<'a> {
    rest: &'a [u8],
}

impl<'a> Model for Fields<'a> {
    ghost use Rattle.std.specs.Prelude.{List, ℕ};

    ghost Value = { List ℕ };

    ghost view = { λ f. f.rest.now };
}

impl<'a> Fields<'a> {
    /// The fields of these bytes. Takes no memory.
    pub fn new(bytes: &'a [u8]) -> Fields<'a>
        ensures { result ≡ bytes.now }
    {
        Fields { rest: bytes }
    }

    /// How many bytes are left.
    pub fn len(&self) -> usize
        ensures { result ≡ length self.now }
    {
        self.rest.len()
    }

    /// Tells a proof that each byte is one. It does nothing.
    pub fn invariant(&self)
        ensures { IsBytes self.now }
    {
        are_bytes(self.rest);
    }

    // The next bytes, so many.
    #[tactic(auto, unfolding(crate::specs::Reading::bytes_at))]
    pub(crate) fn take(&mut self, width: usize) -> Result<&'a [u8], WireFault>
        ensures { GivesExactlyAs (λ bytes. bytes.now) result self.new (bytes_at width self.old) }
    {
        if self.rest.len() < width {
            return Err(WireFault::Short);
        }
        let (field, rest) = self.rest.split_at(width);
        self.rest = rest;
        Ok(field)
    }

    /// A number of one byte. Takes no memory.
    #[tactic(auto, unfolding(crate::specs::Reading::byte_at))]
    pub fn byte(&mut self) -> Result<u8, WireFault>
        ensures { GivesExactly result self.new (byte_at self.old) }
    {
        match self.rest {
            [] => Err(WireFault::Short),
            [byte, rest @ ..] => {
                self.rest = rest;
                Ok(*byte)
            }
        }
    }

    #[tactic(auto, unfolding(crate::specs::Reading::wide_at, crate::specs::Reading::bytes_at))]
    pub(crate) fn two_bytes(&mut self) -> Result<u16, WireFault>
        ensures { GivesExactly result self.new (wide_at w16 self.old) }
    {
        let bytes = self.take(2)?;
        Ok(u16::from_be_bytes([bytes[0], bytes[1]]))
    }

    /// A number of eight bytes, the greatest first. Takes no memory.
    #[tactic(auto, unfolding(crate::specs::Reading::wide_at, crate::specs::Reading::bytes_at))]
    pub fn eight_bytes(&mut self) -> Result<u64, WireFault>
        ensures { GivesExactly result self.new (wide_at w64 self.old) }
    {
        let bytes = self.take(8)?;
        Ok(u64::from_be_bytes([
            bytes[0], bytes[1], bytes[2], bytes[3], bytes[4], bytes[5], bytes[6], bytes[7],
        ]))
    }

    /// A length of one byte in this range. Takes no memory.
    #[tactic(auto, unfolding(crate::specs::Fields::length_at))]
    pub fn length(&mut self, least: u8, most: u8) -> Result<u8, WireFault>
        ensures read { GivesExactly result self.new (length_at least most self.old) }
        ensures range { IfOk result (λ n. (least ≤ n) × (n ≤ most)) }
    {
        let number = self.byte()?;
        if number < least || number > most {
            return Err(WireFault::Count);
        }
        Ok(number)
    }

    /// A number of eight bytes in this range. Takes no memory.
    #[tactic(auto, unfolding(crate::specs::Fields::number_at))]
    pub fn number(&mut self, least: u64, most: u64) -> Result<u64, WireFault>
        ensures read { GivesExactly result self.new (number_at least most self.old) }
        ensures range { IfOk result (λ n. (least ≤ n) × (n ≤ most)) }
    {
        let number = self.eight_bytes()?;
        if number < least || number > most {
            return Err(WireFault::Range);
        }
        Ok(number)
    }

    /// A shard, from 0 to 999. Takes no memory.
    #[tactic(auto, unfolding(crate::specs::Fields::shard_at))]
    pub fn shard(&mut self) -> Result<u32, WireFault>
        ensures read { GivesExactly result self.new (shard_at self.old) }
        ensures range { IfOk result (λ n. n ≤ 999) }
    {
        let number = self.two_bytes()?;
        if number > 999 {
            return Err(WireFault::Range);
        }
        Ok(u32::from(number))
    }

    /// Whether something holds: 0 where it does not, 1 where it does. Takes no memory.
    #[tactic(auto, unfolding(crate::specs::Fields::flag_at))]
    pub fn flag(&mut self) -> Result<bool, WireFault>
        ensures { GivesExactly result self.new (flag_at self.old) }
    {
        match self.byte()? {
            0 => Ok(false),
            1 => Ok(true),
            _ => Err(WireFault::Range),
        }
    }
}

fn are_bytes(bytes: &[u8])
    ensures { IsBytes bytes.now }
{
    let _len = bytes.len();
}
