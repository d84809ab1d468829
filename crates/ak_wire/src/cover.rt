ghost use Rattle.std.specs.Prelude.{◌≡◌, IfOk};

use crate::action::Action;
use crate::envelope::{Envelope, Message};
use crate::shared::SharedEnvelope;
use ak_address::{Address, Unique};
use std::alloc::{AllocError, Global};

/// What stands on the outside of a packet: from whom it is, and to whom. The message comes last, so that no error lets one go.
#[derive(Drop)]
pub struct Cover {
    from: Unique,
    to: Address,
    uid: u64,
}

impl Cover {
    /// From one process to another. Only memory can fail.
    pub fn between(alloc: Global, from: &Unique, to: &Unique) -> Result<Cover, AllocError>
        ensures { IfOk result (λ cover. cover ≡ record { from = from.now; to = to.now.address; uid = to.now.uid }) }
    {
        let from = from.copy(alloc)?;
        let address = to.address.copy(alloc)?;
        let uid = to.uid;
        Ok(Cover {
            from,
            to: address,
            uid,
        })
    }

    /// From a process to whichever one is at an address. Only memory can fail.
    pub fn to_any(alloc: Global, from: &Unique, to: &Address) -> Result<Cover, AllocError>
        ensures { IfOk result (λ cover. cover ≡ record { from = from.now; to = to.now; uid = 0 }) }
    {
        let from = from.copy(alloc)?;
        let to = to.copy(alloc)?;
        Ok(Cover { from, to, uid: 0 })
    }

    /// The packet with the message so. Only memory can fail.
    pub fn packet(self, alloc: Global, message: Message) -> Result<SharedEnvelope, AllocError>
        ensures { IfOk result (λ packet. packet ≡ record { from = self.from; to = self.to; uid = self.uid; message = message }) }
    {
        let Cover { from, to, uid } = self;
        let envelope = Envelope {
            from,
            to,
            uid,
            message,
        };
        SharedEnvelope::of(alloc, envelope)
    }

    /// The action that sends the message so. Only memory can fail.
    pub fn around(self, alloc: Global, message: Message) -> Result<Action, AllocError>
        ensures { IfOk result (λ action. action ≡ Action.Send (record { from = self.from; to = self.to; uid = self.uid; message = message })) }
    {
        Ok(Action::Send(self.packet(alloc, message)?))
    }
}
