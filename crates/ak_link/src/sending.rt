// An envelope as a packet that is sent.
ghost use Rattle.std.specs.Prelude.{◌≡◌, ◌≤◌, IfOk, OnErr};
ghost use Rattle.ak_wire.specs.Datagram.{datagram, IsValid};
ghost use Rattle.ak_outside.specs.Link.{SendCause, TakesPacket};

use ak_outside::{Link, Sent};
use ak_wire::{Envelope, encode};
use std::alloc::{AllocError, Global};

/// Sends the spelling of a valid envelope to its receiver, in one send, and answers as the link does. Where memory runs out
/// nothing is sent.
pub fn send_envelope<L: Link>(
    alloc: Global,
    link: &mut L,
    envelope: &Envelope,
) -> Result<Sent, AllocError>
    requires { IsValid envelope.now }
    ensures count { L.losses link.old ≤ L.losses link.new }
    ensures cause { IfOk result (SendCause (L.losses link.old) (L.losses link.new)) }
    ensures faults { L.faults link.new ≡ L.faults link.old }
    ensures bound { L.bound link.new ≡ L.bound link.old }
    ensures coming { L.coming link.new ≡ L.coming link.old }
    ensures sends { IfOk result (TakesPacket (L.sends link.old) (L.sends link.new) envelope.now.to (datagram envelope.now)) }
    ensures unsent { OnErr result (link.new ≡ link.old) }
{
    let bytes = encode(alloc, envelope)?;
    Ok(link.send(&envelope.to, &bytes))
}
