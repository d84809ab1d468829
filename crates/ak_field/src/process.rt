ghost use Rattle.std.specs.Prelude.{◌≡◌, ◌≤◌, ◌<◌, ◌-◌, IfOk, length};
ghost use Rattle.std.specs.List.{list_all};
ghost use Rattle.ak_address.specs.Unique.{is_host_byte};
ghost use Rattle.ak_field.specs.Reading.{Gives, GivesAs, IsThere, checked};
ghost use Rattle.ak_field.specs.declared.fault.WireFault.TheVariants.{Range};
ghost use Rattle.ak_field.specs.Ranges.{is_process};
ghost use Rattle.ak_field.specs.Fields.{process_bytes_at, process_at, unique_at, receiver_at};

use crate::fault::WireFault;
use crate::fields::Fields;
use ak_address::{Address, Text, Unique};
use std::alloc::Global;

const MOST_HOST_BYTES: u8 = 64;

const MOST_UID: u64 = 9223372036854775807;

impl<'a> Fields<'a> {
    /// A process: the length of its host, from 1 to 64, and then its host, its port from 1 on and its uid from 1 to
    /// 9223372036854775807, which are one field.
    pub fn unique(&mut self, alloc: Global) -> Result<Unique, WireFault>
        ensures read { Gives result self.new (unique_at self.old) }
        ensures memory { IsThere result (unique_at self.old) }
    {
        let (address, uid) = self.process(alloc, 1, MOST_UID)?;
        Ok(Unique { address, uid })
    }

    /// A receiver: a process as `unique` reads it, or, where the message is for any process at an address, an address with
    /// uid 0.
    pub fn receiver(&mut self, alloc: Global, anybody: bool) -> Result<(Address, u64), WireFault>
        ensures read { GivesAs (λ pair. record { address = pair.0; uid = pair.1 }) result self.new (receiver_at anybody self.old) }
        ensures memory { IsThere result (receiver_at anybody self.old) }
    {
        if anybody {
            return self.process(alloc, 0, 0);
        }
        self.process(alloc, 1, MOST_UID)
    }

    #[tactic(auto, using(crate::proofs::Steps::fails_exactly), unfolding(crate::specs::Fields::process_at))]
    fn process(&mut self, alloc: Global, least: u64, most: u64) -> Result<(Address, u64), WireFault>
        ensures read { GivesAs (λ pair. record { address = pair.0; uid = pair.1 }) result self.new (process_at least most self.old) }
        ensures memory { IsThere result (process_at least most self.old) }
        ensures range { IfOk result (λ pair. (least ≤ pair.1) × (pair.1 ≤ most)) }
    {
        let host = self.length(1, MOST_HOST_BYTES)?;
        self.process_bytes(alloc, host, least, most)
    }

    // The host of so many bytes, the port and the uid.
    #[tactic(auto, using(crate::proofs::Steps::fails_exactly_before, crate::proofs::Steps::fails_exactly), unfolding(crate::specs::Fields::process_bytes_at, crate::specs::Reading::bytes_at))]
    fn process_bytes(
        &mut self,
        alloc: Global,
        host: u8,
        least: u64,
        most: u64,
    ) -> Result<(Address, u64), WireFault>
        requires { (1 ≤ host) × (host ≤ 64) }
        ensures read { GivesAs (λ pair. record { address = pair.0; uid = pair.1 }) result self.new (checked Range (is_process least most) (process_bytes_at host self.old)) }
        ensures memory { IsThere result (checked Range (is_process least most) (process_bytes_at host self.old)) }
        ensures range { IfOk result (λ pair. (least ≤ pair.1) × (pair.1 ≤ most)) }
    {
        let bytes = self.take(usize::from(host) + 10)?;
        let (host, numbers) = bytes.split_at(usize::from(host));
        let (port, uid) = numbers.split_at(2);
        let port = u16::from_be_bytes([port[0], port[1]]);
        let uid = u64::from_be_bytes([
            uid[0], uid[1], uid[2], uid[3], uid[4], uid[5], uid[6], uid[7],
        ]);
        if !are_host_bytes(host) || port < 1 || uid < least || uid > most {
            return Err(WireFault::Range);
        }
        let host = Text::from_bytes(alloc, host)?;
        Ok((Address { host, port }, uid))
    }
}

fn are_host_bytes(bytes: &[u8]) -> bool
    ensures { result ≡ list_all is_host_byte bytes.now }
{
    bytes.iter().all(|b| matches!(*b, b'a'..=b'z' | b'A'..=b'Z' | b'0'..=b'9' | b'-' | b'.' | b'_'))
}
