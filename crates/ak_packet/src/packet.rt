ghost use Rattle.std.specs.Prelude.{◌≡◌, IfOk};
ghost use Rattle.std.specs.Cmp.{partial_equiv_from_equiv};
ghost use Rattle.ak_wire.specs.Datagram.{IsValid, SpellsIn};
ghost use Rattle.ak_field.specs.Spelling.{format};
ghost use Rattle.ak_packet.specs.Alike.{bare, is_alike};
ghost use Rattle.ak_packet.specs.Hashed.{hashed};
ghost use Rattle.ak_packet.specs.AlikeLaws.{alike_decides, alike_equiv};
ghost use Rattle.std.proofs.Common.{ap};

use crate::alike::is_alike;
use crate::hashing::hash_envelope;
use ak_wire::{Envelope, SharedEnvelope, encode};
use std::alloc::{AllocError, Global};
use std::hash::{Hash, Hasher};
use std::marker::Model;

/// A packet that was sent: an envelope that has a spelling as bytes (an invariant of the type). Contracts see the envelope.
/// The bytes are made when they are asked for: the envelope is shared with the action that sent it, and its gossip with whoever
/// knew it then; bytes would not be.
#[derive(Drop)]
pub struct Packet {
    envelope: SharedEnvelope,
}

impl Model for Packet {
    ghost use Rattle.std.specs.Coded.{codes};
    ghost use Rattle.ak_address.specs.Unique.{coded_address, coded_unique};
    ghost use Rattle.ak_gossip.specs.Gossip.{coded_gossip};
    ghost use Rattle.ak_member.specs.View.{coded_uniques};
    ghost use Rattle.ak_promise.specs.Ballot.{coded_ballot};
    ghost use Rattle.ak_clock.specs.Version.{coded_counts};
    ghost use Rattle.ak_wire.specs.Datagram.{IsValid};
    ghost use Rattle.ak_wire.specs.declared.envelope.Envelope.{Envelope};

    ghost Value = { Envelope };

    ghost coded = { Prim.hlevel (codes, coded_address, coded_unique, coded_uniques, coded_gossip, coded_ballot, coded_counts) };

    ghost view = { λ p. p.envelope };

    ghost invariant = { λ p. IsValid p.envelope };
}

impl Packet {
    /// The packet of a valid envelope, which it shares. It fails only as `share` does.
    pub fn of(envelope: &SharedEnvelope) -> Result<Packet, AllocError>
        requires { IsValid envelope.now }
        ensures { IfOk result (λ packet. packet ≡ envelope.now) }
    {
        let envelope = envelope.share()?;
        Ok(Packet { envelope })
    }

    /// The same packet once more, whose envelope both share. It fails only as `share` of an envelope does.
    pub fn share(&self) -> Result<Packet, AllocError>
        ensures { IfOk result (λ packet. packet ≡ self.now) }
    {
        let envelope = self.envelope.share()?;
        Ok(Packet { envelope })
    }

    /// What it says: an envelope that has a spelling, as each packet does.
    pub fn envelope(&self) -> &Envelope
        ensures same { result.now ≡ self.now }
        ensures valid { IsValid result.now }
    {
        self.envelope.get()
    }

    /// Its bytes: the one spelling of its envelope, which `decode` reads again. Only memory can fail.
    pub fn bytes(&self, alloc: Global) -> Result<Vec<u8>, AllocError>
        ensures { IfOk result (λ bytes. SpellsIn format bytes.items self.now) }
    {
        encode(alloc, self.envelope.get())
    }
}

/// Two packets are equal where they say the same, but for what the versions in them show: what is known is what its version shows
/// of the history of its cluster, so that packets of one cluster that are equal have the same bytes. Whoever keeps packets as keys
/// need not compare what each process of a gossip is known as.
impl PartialEq for Packet {
    ghost eq = { is_alike };

    ghost laws = { partial_equiv_from_equiv alike_equiv };

    #[inline(always)]
    fn eq(&self, other: &Packet) -> bool {
        is_alike(self.envelope.get(), other.envelope.get())
    }
}

impl Eq for Packet {
    ghost laws = { alike_equiv };
}

/// A hash is fed with who sends it to whom, with its kind and with numbers of what it carries (this project's choice).
impl Hash for Packet {
    ghost hash_input = { λ p. hashed (bare p) };

    ghost respects_eq = { λ x y same. ap hashed ((alike_decides x y).0 same) };

    fn hash<H: Hasher>(&self, state: &mut H) {
        hash_envelope(self.envelope.get(), state);
    }
}
