// A packet that is received, as an envelope.
ghost use Rattle.std.specs.Prelude.{◌≡◌, ◌≤◌, length};
ghost use Rattle.ak_link.specs.declared.received.Got.TheVariants.{NoMemory};
ghost use Rattle.ak_link.specs.Received.{GotOf, GotCause, GotSome, Receives};

use ak_outside::{Heard, Link};
use ak_wire::{Envelope, decode};
use std::alloc::{AllocError, Global};

/// The answer of a receive.
#[derive(Drop)]
pub enum Got {
    /// The envelope that the packet spells.
    Envelope(Envelope),
    /// The packet spells none: the number of its first fault, 1 to 8.
    Bad(u8),
    /// No packet has come.
    Quiet,
    /// The link has failed and counted it.
    Failed,
    /// Memory ran out as the packet was read; it is lost.
    NoMemory(AllocError),
}

impl From<AllocError> for Got {
    ghost from_gives = { λ error got. got ≡ NoMemory error };

    fn from(error: AllocError) -> Got {
        Got::NoMemory(error)
    }
}

/// Receives once. A packet that the buffer has no room for is cut to it, and then spells nothing: no spelling begins another.
pub fn receive_envelope<L: Link>(alloc: Global, link: &mut L, buffer: &mut [u8]) -> Got
    ensures count { L.faults link.old ≤ L.faults link.new }
    ensures cause { GotCause (L.faults link.old) (L.faults link.new) result }
    ensures losses { L.losses link.new ≡ L.losses link.old }
    ensures bound { L.bound link.new ≡ L.bound link.old }
    ensures sends { L.sends link.new ≡ L.sends link.old }
    ensures some { GotSome result }
    ensures receives { Receives (L.coming link.old) (L.coming link.new) (length buffer.new) result }
{
    match link.receive(buffer) {
        Heard::Packet(count) => got_of(alloc, &buffer[..count]),
        Heard::Quiet => Got::Quiet,
        Heard::Failed => Got::Failed,
    }
}

// What the bytes of a packet are.
fn got_of(alloc: Global, bytes: &[u8]) -> Got
    ensures { GotOf bytes.now result }
{
    match decode(alloc, bytes) {
        Ok(envelope) => Got::Envelope(envelope),
        Err(fault) => match fault.number() {
            Ok(number) => Got::Bad(number),
            Err(error) => Got::from(error),
        },
    }
}
