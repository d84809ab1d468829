ghost use Rattle.std.specs.Prelude.{◌≤◌, length};
ghost use Rattle.ak_wire.specs.declared.envelope.Envelope.{Envelope};
ghost use Rattle.ak_wire.specs.Datagram.{datagram, IsValid};

/// The longest datagram of a valid envelope has at most 29,596 bytes: a gossip of 128 processes, each of which has a row of 128.
/// So each has room in a buffer of 65,536 bytes, and in a UDP datagram.
pub fn datagrams_have_room()
    ensures { (e : Envelope) → IsValid e → length (datagram e) ≤ 29596 }
{}
