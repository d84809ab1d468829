//! Laws of packets.

ghost use Rattle.std.specs.Prelude.{◌≡◌, ◌↔◌, IsTrue};
ghost use Rattle.ak_wire.specs.declared.envelope.Envelope.{Envelope};
ghost use Rattle.ak_packet.specs.Alike.{bare, is_alike};

/// Two packets are alike exactly where they are the same without what the versions in them show.
pub fn alike_packets_say_the_same()
    ensures { (d e : Envelope) → IsTrue (is_alike d e) ↔ bare d ≡ bare e }
{}
