//! Whether a packet is for a process.

ghost use Rattle.std.specs.Prelude.{◌≡◌};
ghost use Rattle.ak_node.specs.Node as rules;

use crate::node::NodeEvent;
use ak_address::Unique;
use ak_wire::Envelope;

/// A packet is for this process, or for whichever is at its address.
pub fn is_for(me: &Unique, envelope: &Envelope) -> bool
    ensures { result ≡ rules.is_for me.now envelope.now }
{
    if !envelope.to.is(&me.address) {
        return false;
    }
    envelope.uid == 0 || envelope.uid == me.uid
}

// An event is dead where it is a packet for another process.
pub(crate) fn is_dead(me: &Unique, event: &NodeEvent) -> bool
    ensures { result ≡ rules.is_dead me.now event.now }
{
    match event {
        NodeEvent::Packet(envelope) => !is_for(me, envelope),
        _ => false,
    }
}
