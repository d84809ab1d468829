ghost use Rattle.std.specs.Prelude.{◌≡◌, ◌++◌, ◌∷◌, [], ◌<◌, length, OnOk};
ghost use Rattle.ak_wire.specs.declared.envelope.Message.TheVariants.{Forward};
ghost use Rattle.ak_sharding.specs.Sharding as rules;
ghost use Rattle.ak_sharding.specs.Hosts as hosts;

use crate::sends::forward;
use crate::sharding::Sharding;
use crate::surroundings::Around;
use ak_address::{Text, Unique};
use ak_field::EntityId;
use ak_region::{Offered, Waiting};
use ak_wire::{Action, Actions};
use std::alloc::{AllocError, Global};

impl Sharding {
    /// A payload for an entity, from outside or from another node: it is delivered where the entity's shard is hosted here and
    /// not held, and the entity starts with its first payload; it is forwarded where the shard is not held and has its home
    /// at another node; else it waits, or is lost where as many wait as may (Akka's Cluster Sharding, "How it works"). Adds what
    /// it does; only memory can fail.
    pub fn offer(
        &mut self,
        alloc: Global,
        around: &Around,
        entity: &EntityId,
        payload: u64,
        actions: &mut Actions,
    ) -> Result<(), AllocError>
        ensures state { OnOk result (self.new ≡ (hosts.on_offer around.now entity.now payload self.old).0) }
        ensures actions { OnOk result (actions.new ≡ actions.old ++ (hosts.on_offer around.now entity.now payload self.old).1) }
    {
        self.routes(alloc, around.me, entity.name(), payload, actions)
    }

    // The route of a message.
    pub(crate) fn routes(
        &mut self,
        alloc: Global,
        me: &Unique,
        entity: &Text,
        payload: u64,
        actions: &mut Actions,
    ) -> Result<(), AllocError>
        ensures state { OnOk result (self.new ≡ (rules.routes me.now (record { entity = entity.now; payload = payload }) self.old).0) }
        ensures actions { OnOk result (actions.new ≡ actions.old ++ (rules.routes me.now (record { entity = entity.now; payload = payload }) self.old).1) }
    {
        let offered = self.region.offer(alloc, me, entity.copy(alloc)?, payload)?;
        match offered {
            Offered::Delivered(_) => self.delivers(alloc, entity, payload, actions),
            Offered::Forwarded(home, _) => forwards(alloc, me, &home, entity, payload, actions),
            Offered::Buffered => actions.push(Action::Buffer(entity.copy(alloc)?, payload)),
            Offered::Dropped(_) => actions.push(Action::Drop(entity.copy(alloc)?, payload)),
        }
    }

    // Delivers a payload to its entity, which starts where it is not active.
    fn delivers(
        &mut self,
        alloc: Global,
        entity: &Text,
        payload: u64,
        actions: &mut Actions,
    ) -> Result<(), AllocError>
        ensures state { OnOk result (self.new ≡ (rules.delivers entity.now payload self.old).0) }
        ensures actions { OnOk result (actions.new ≡ actions.old ++ (rules.delivers entity.now payload self.old).1) }
    {
        let shard = self.region.shard_of(entity);
        if self.entities.deliver(alloc, shard, entity, payload)? {
            actions.push(Action::Entity(entity.copy(alloc)?))?;
        }
        actions.push(Action::Deliver(entity.copy(alloc)?, payload))
    }

    // The messages that wait for a shard leave the buffer in order and are routed, where they may.
    pub(crate) fn flushes(
        &mut self,
        alloc: Global,
        me: &Unique,
        shard: u32,
        actions: &mut Actions,
    ) -> Result<(), AllocError>
        requires { shard < length self.old.region.slots }
        ensures state { OnOk result (self.new ≡ (rules.flushes me.now shard self.old).0) }
        ensures actions { OnOk result (actions.new ≡ actions.old ++ (rules.flushes me.now shard self.old).1) }
    {
        let gone = self.region.flush(alloc, me, shard)?;
        self.routes_each(alloc, me, &gone, actions)
    }

    fn routes_each(
        &mut self,
        alloc: Global,
        me: &Unique,
        messages: &[Waiting],
        actions: &mut Actions,
    ) -> Result<(), AllocError>
        ensures state { OnOk result (self.new ≡ (rules.routes_each me.now messages.now self.old).0) }
        ensures actions { OnOk result (actions.new ≡ actions.old ++ (rules.routes_each me.now messages.now self.old).1) }
    {
        'messages: for message in messages {
            self.routes(alloc, me, &message.entity, message.payload, actions)?;
        }
        Ok(())
    }
}

// Adds that a payload goes to another node, and sends it there.
fn forwards(
    alloc: Global,
    me: &Unique,
    home: &Unique,
    entity: &Text,
    payload: u64,
    actions: &mut Actions,
) -> Result<(), AllocError>
    ensures { OnOk result (actions.new ≡ actions.old ++ Action.Forward entity.now payload ∷ rules.to_process me.now home.now (Forward entity.now payload) ∷ []) }
{
    actions.push(Action::Forward(entity.copy(alloc)?, payload))?;
    forward(alloc, me, home, entity.copy(alloc)?, payload, actions)
}
