// What comes to a node.
use ak_address::Address;
use ak_wire::Envelope;

/// What comes to a node on the network, and is one numbered step of what it prints: this project's choice.
#[derive(Drop)]
pub enum Happening {
    /// It founds the cluster.
    Found,
    /// It joins the cluster through an address.
    Join(Address),
    /// Time goes on by a tick; the word chooses to whom it gossips.
    Tick(u32),
    /// A packet comes.
    Packet(Envelope),
    /// A packet comes that spells none: the number of its first fault, 1 to 8. It gives the node no event.
    Bad(u8),
}
