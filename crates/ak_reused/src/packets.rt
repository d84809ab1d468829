//! The packets that a node sends again and again.

ghost use Rattle.std.specs.Prelude.{◌≡◌, ◌↔◌, IfOk, IsTrue};
ghost use Rattle.ak_reused.specs.Reused.{heartbeat, request};

use ak_address::{Address, Unique};
use ak_wire::{Cover, Envelope, Message, SharedEnvelope};
use std::alloc::{AllocError, Global};

/// The packet is a request of this process to be let in at this address.
pub(crate) fn is_request(envelope: &Envelope, from: &Unique, to: &Address) -> bool
    ensures { IsTrue result ↔ envelope.now ≡ request from.now to.now }
{
    match envelope.message {
        Message::Join => envelope.uid == 0 && envelope.to.is(to) && envelope.from.is(from),
        _ => false,
    }
}

/// The packet is a heartbeat from the one process to the other.
pub(crate) fn is_beat(envelope: &Envelope, from: &Unique, to: &Unique) -> bool
    ensures { IsTrue result ↔ envelope.now ≡ heartbeat from.now to.now }
{
    match envelope.message {
        Message::Heartbeat => {
            envelope.uid == to.uid && envelope.to.is(&to.address) && envelope.from.is(from)
        }
        _ => false,
    }
}

/// What a process sends to an address to be let in.
pub(crate) fn new_request(
    alloc: Global,
    from: &Unique,
    to: &Address,
) -> Result<SharedEnvelope, AllocError>
    ensures { IfOk result (λ sent. sent ≡ request from.now to.now) }
{
    Cover::to_any(alloc, from, to)?.packet(alloc, Message::Join)
}

/// A heartbeat from one process to another.
pub(crate) fn new_beat(
    alloc: Global,
    from: &Unique,
    to: &Unique,
) -> Result<SharedEnvelope, AllocError>
    ensures { IfOk result (λ sent. sent ≡ heartbeat from.now to.now) }
{
    Cover::between(alloc, from, to)?.packet(alloc, Message::Heartbeat)
}
