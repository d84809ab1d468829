ghost use Rattle.std.specs.Prelude.{◌≡◌, IfOk, Ok};
ghost use Rattle.ak_field.specs.Reading.{Gives};
ghost use Rattle.ak_wire.specs.declared.envelope.Envelope.{Envelope};
ghost use Rattle.ak_wire.specs.Datagram.{Spells};
ghost use Rattle.ak_wire.specs.ReadingDatagram.{is_kind_for_anybody, datagram_at, read, GivesWhole, IsBegun};

use crate::bodies::body;
use crate::envelope::Envelope;
use ak_field::{Fields, WireFault};
use std::alloc::Global;

/// The envelope that the bytes spell, in any version of the format that is read (this project's format). Where they spell none it
/// answers the first fault, W1 to W8, that reading them from left to right meets; that memory ran out says no more of them than
/// that their header and their sender have no fault.
pub fn decode(alloc: Global, bytes: &[u8]) -> Result<Envelope, WireFault>
    ensures read { GivesWhole result (read bytes.now) }
    ensures spelled { IfOk result (λ e. Spells bytes.now e) }
    ensures only { (e : Envelope) → Spells bytes.now e → GivesWhole result (Ok e) }
    ensures memory { IsBegun result bytes.now }
{
    read(alloc, bytes)
}

// A datagram, and no byte after it.
#[tactic(auto, using(crate::proofs::Steps::fails_first), unfolding(crate::specs::ReadingDatagram::read))]
fn read(alloc: Global, bytes: &[u8]) -> Result<Envelope, WireFault>
    ensures read { GivesWhole result (read bytes.now) }
    ensures memory { IsBegun result bytes.now }
{
    let mut fields = Fields::new(bytes);
    let (_, envelope) = envelope(alloc, &mut fields)?;
    if fields.len() > 0 {
        return Err(WireFault::Trailing);
    }
    Ok(envelope)
}

// A datagram, with the version of its format.
#[tactic(auto, using(crate::proofs::Steps::fails_first, crate::proofs::Steps::fails_exactly), unfolding(crate::specs::ReadingDatagram::datagram_at))]
fn envelope(alloc: Global, fields: &mut Fields<'_>) -> Result<(u8, Envelope), WireFault>
    ensures read { Gives result fields.new (datagram_at fields.old) }
    ensures memory { IsBegun result fields.old }
{
    let (version, kind) = fields.header()?;
    let from = fields.unique(alloc)?;
    let (to, uid) = fields.receiver(alloc, is_kind_for_anybody(kind))?;
    let message = body(alloc, version, kind, fields)?;
    let envelope = Envelope {
        from,
        to,
        uid,
        message,
    };
    Ok((version, envelope))
}

fn is_kind_for_anybody(kind: u8) -> bool
    ensures { result ≡ is_kind_for_anybody kind }
{
    kind == 1 || kind == 23 || kind == 24 || kind == 25
}
