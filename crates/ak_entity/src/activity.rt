ghost use Rattle.std.specs.Prelude.{◌≡◌, [], IfOk, OnOk, OnErr};
ghost use Rattle.ak_entity.specs.Entities.{with_payload, started};

use std::alloc::{AllocError, Global};
use std::marker::Model;

// One active entity: its shard, and the payloads that were delivered to it, the first one first.
#[derive(Drop)]
pub(crate) struct Activity {
    pub(crate) shard: u32,
    pub(crate) payloads: Vec<u64>,
}

impl Model for Activity {
    ghost use Rattle.ak_entity.specs.Active.{ActiveEntity, coded_active};

    ghost Value = { ActiveEntity };

    ghost coded = { coded_active };

    ghost view = { λ a. record { shard = a.shard; log = a.payloads.items } };
}

impl Activity {
    // An entity that begins with a payload.
    pub(crate) fn start(alloc: Global, shard: u32, payload: u64) -> Result<Activity, AllocError>
        ensures { IfOk result (λ active. active ≡ started shard payload) }
    {
        let mut payloads = Vec::new(alloc);
        payloads.push(payload)?;
        Ok(Activity { shard, payloads })
    }

    // One more payload. After an error the entity is as it was.
    pub(crate) fn take(&mut self, payload: u64) -> Result<(), AllocError>
        ensures ok { OnOk result (self.new ≡ with_payload payload self.old) }
        ensures err { OnErr result (self.new ≡ self.old) }
    {
        self.payloads.push(payload)?;
        Ok(())
    }
}
