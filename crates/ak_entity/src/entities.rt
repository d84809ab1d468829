ghost use Rattle.std.specs.Prelude.{◌≡◌, IfOk, OnOk, OnErr, option_copied, option_map, not};
ghost use Rattle.std.specs.FinMap as map;
ghost use Rattle.ak_entity.specs.Active.{ActiveEntities};
ghost use Rattle.ak_entity.specs.Entities.{after_delivery, without_shard};

use crate::activity::Activity;
use ak_address::Text;
use std::alloc::{AllocError, Global};
use std::collections::BTreeMap;
use std::marker::Model;

/// The entities that are active at a node, each with its shard and the payloads that were delivered to it (Akka's Cluster
/// Sharding: an entity is started by the first message to it, and stopped with its shard).
#[derive(Drop)]
pub struct Entities {
    active: BTreeMap<Vec<u8>, Activity>,
}

impl Model for Entities {
    ghost use Rattle.std.specs.Prelude.{IsTrue};
    ghost use Rattle.std.specs.FinMap as map;
    ghost use Rattle.ak_entity.specs.Active.{ActiveEntities, entity_cmp, coded_entities};
    ghost use Rattle.ak_entity.specs.Stored.{pairs_of};

    ghost Value = { ActiveEntities };

    ghost coded = { coded_entities };

    ghost view = { λ e. map.from_sorted (pairs_of e.active.entries) };

    // Each entity stands once, in the order of names: so it has one log, and is found by it.
    ghost invariant = { λ e. IsTrue (map.is_sorted entity_cmp (pairs_of e.active.entries)) };
}

impl Entities {
    /// No entity is active. Takes no memory.
    pub fn empty(alloc: Global) -> Entities
        ensures { result ≡ map.empty }
    {
        let active = BTreeMap::new(alloc);
        Entities { active }
    }

    /// Delivers a payload to an entity: an active one takes it at the end of its log, and another is started in the shard
    /// with this payload alone. Whether it was started. After an error nothing has changed; only memory can fail.
    pub fn deliver(
        &mut self,
        alloc: Global,
        shard: u32,
        entity: &Text,
        payload: u64,
    ) -> Result<bool, AllocError>
        ensures started { IfOk result (λ started. started ≡ not (map.contains_key self.old entity.now)) }
        ensures ok { OnOk result (self.new ≡ after_delivery self.old shard entity.now payload) }
        ensures err { OnErr result (self.new ≡ self.old) }
    {
        if let Some(active) = self.active.get_mut(entity.bytes()) {
            active.take(payload)?;
            return Ok(false);
        }
        let active = Activity::start(alloc, shard, payload)?;
        let mut key = Vec::new(alloc);
        key.extend_from_slice(entity.bytes())?;
        self.active.insert(key, active)?;
        Ok(true)
    }

    /// Every entity of the shard ends. Takes no memory.
    pub fn stop_shard(&mut self, shard: u32)
        ensures { self.new ≡ without_shard self.old shard }
    {
        self.active.retain(|_, active| active.shard != shard);
    }

    /// The payloads that were delivered to the entity since it was started, the first one first; none exactly where it is
    /// not active. Takes no memory.
    pub fn log(&self, entity: &Text) -> Option<&[u64]>
        ensures { option_copied result ≡ option_map (λ active. active.log) (map.get self.now entity.now) }
    {
        match self.active.get(entity.bytes()) {
            Some(active) => Some(active.payloads.as_slice()),
            None => None,
        }
    }
}
