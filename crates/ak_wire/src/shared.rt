ghost use Rattle.std.specs.Prelude.{◌≡◌, IfOk};

use crate::envelope::Envelope;
use std::alloc::{AllocError, Global};
use std::marker::Model;
use std::rc::Rc;

/// An envelope that several hold: the action that sends it, and the packet that is sent. Contracts see the envelope.
pub struct SharedEnvelope {
    envelope: Rc<Envelope>,
}

impl Model for SharedEnvelope {
    ghost use Rattle.std.specs.Coded.{codes};
    ghost use Rattle.ak_address.specs.Unique.{coded_address, coded_unique};
    ghost use Rattle.ak_gossip.specs.Gossip.{coded_gossip};
    ghost use Rattle.ak_member.specs.View.{coded_uniques};
    ghost use Rattle.ak_promise.specs.Ballot.{coded_ballot};
    ghost use Rattle.ak_clock.specs.Version.{coded_counts};
    ghost use Rattle.ak_wire.specs.declared.envelope.Envelope.{Envelope};

    ghost Value = { Envelope };

    ghost coded = { Prim.hlevel (codes, coded_address, coded_unique, coded_uniques, coded_gossip, coded_ballot, coded_counts) };

    ghost view = { λ s. s.envelope.value };
}

impl SharedEnvelope {
    /// Shares this envelope. Only memory can fail, and then the envelope is gone.
    pub fn of(alloc: Global, envelope: Envelope) -> Result<SharedEnvelope, AllocError>
        ensures { IfOk result (λ shared. shared ≡ envelope) }
    {
        let envelope = Rc::new(alloc, envelope)?;
        Ok(SharedEnvelope { envelope })
    }

    /// What it says.
    pub fn get(&self) -> &Envelope
        ensures { result.now ≡ self.now }
    {
        self.envelope.as_ref()
    }

    /// The same envelope once more. Takes no memory; it fails only where more hold it than can be counted.
    pub fn share(&self) -> Result<SharedEnvelope, AllocError>
        ensures { IfOk result (λ other. other ≡ self.now) }
    {
        let envelope = self.envelope.clone()?;
        Ok(SharedEnvelope { envelope })
    }
}

// By hand, so that for a proof a drop is one step, wherever it stands.
impl Drop for SharedEnvelope {
    fn drop(self) {
        let SharedEnvelope { envelope } = self;
        drop(envelope);
    }
}
