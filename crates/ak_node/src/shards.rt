ghost use Rattle.std.specs.Prelude.{◌≡◌, ◌++◌, IfOk, OnOk};
ghost use Rattle.ak_sharding.specs.Coordinates as coordinates;
ghost use Rattle.ak_sharding.specs.Hosts as hosts;
ghost use Rattle.ak_sharding.specs.Packets as packets;
ghost use Rattle.ak_node.specs.Node as rules;
ghost use Rattle.ak_node.specs.NodeContracts.{Does, IsSameProcess};

use crate::node::State;
use ak_address::{Text, Unique};
use ak_field::EntityId;
use ak_membership::Membership;
use ak_reused::Reused;
use ak_sharding::Around;
use ak_singleton::Singleton;
use ak_wire::{Actions, Message};
use std::alloc::{AllocError, Global};

// What the rules of shards read of a node.
pub(crate) fn around<'a>(membership: &'a Membership, singleton: &'a Singleton) -> Around<'a>
    ensures { result ≡ record { me = membership.now.me; settings = membership.now.settings; settled = membership.now.settled.view; members = membership.now.gossip.view.standings; singleton = singleton.now } }
{
    Around {
        me: membership.me(),
        settings: membership.settings(),
        settled: membership.settled(),
        members: membership.gossip().members(),
        singleton,
    }
}

impl State {
    // What a message of the shards does.
    pub(crate) fn on_shard_message(
        &mut self,
        alloc: Global,
        from: &Unique,
        message: &Message,
        reused: &mut Reused,
    ) -> Result<Actions, AllocError>
        ensures does { IfOk result (λ actions. Does (rules.shards_do (λ a s. packets.on_shard_message a from.now message.now s) self.old) self.new actions) }
        ensures same { IsSameProcess self.old self.new }
    {
        let mut actions = reused.list(alloc);
        let around = around(&self.membership, &self.singleton);
        self.sharding
            .on_message(alloc, &around, from, message, &mut actions)?;
        Ok(actions)
    }

    // A message of the shards is heard by members alone.
    pub(crate) fn on_shards(
        &mut self,
        alloc: Global,
        from: &Unique,
        message: &Message,
        reused: &mut Reused,
    ) -> Result<Actions, AllocError>
        ensures does { IfOk result (λ actions. Does (rules.on_shards from.now message.now self.old) self.new actions) }
        ensures same { IsSameProcess self.old self.new }
    {
        if self.membership.is_member() {
            return self.on_shard_message(alloc, from, message, reused);
        }
        Ok(Actions::empty(alloc))
    }

    // Whether a text is an entity in the node's settings.
    fn is_entity(&self, entity: &Text) -> bool
        ensures { result ≡ rules.is_entity_at entity.now self.now }
    {
        self.membership.settings().entity_ok(entity.bytes())
    }

    // A message that was forwarded for this text; one for what is no entity is passed over.
    pub(crate) fn on_forward(
        &mut self,
        alloc: Global,
        from: &Unique,
        message: &Message,
        entity: &Text,
        reused: &mut Reused,
    ) -> Result<Actions, AllocError>
        ensures does { IfOk result (λ actions. Does (rules.of_entity entity.now (rules.on_shards from.now message.now) self.old) self.new actions) }
        ensures same { IsSameProcess self.old self.new }
    {
        if !self.is_entity(entity) {
            return Ok(Actions::empty(alloc));
        }
        self.on_shards(alloc, from, message, reused)
    }

    // A message that offers a payload for this text; one for what is no entity is passed over.
    pub(crate) fn on_offer(
        &mut self,
        alloc: Global,
        from: &Unique,
        message: &Message,
        entity: &Text,
        reused: &mut Reused,
    ) -> Result<Actions, AllocError>
        ensures does { IfOk result (λ actions. Does (rules.of_entity entity.now (rules.shards_do (λ a s. packets.on_shard_message a from.now message.now s)) self.old) self.new actions) }
        ensures same { IsSameProcess self.old self.new }
    {
        if !self.is_entity(entity) {
            return Ok(Actions::empty(alloc));
        }
        self.on_shard_message(alloc, from, message, reused)
    }

    // A payload is offered for an entity.
    pub(crate) fn offer(
        &mut self,
        alloc: Global,
        entity: &EntityId,
        payload: u64,
        reused: &mut Reused,
    ) -> Result<Actions, AllocError>
        ensures does { IfOk result (λ actions. Does (rules.offer entity.now payload self.old) self.new actions) }
        ensures same { IsSameProcess self.old self.new }
    {
        let mut actions = reused.list(alloc);
        let around = around(&self.membership, &self.singleton);
        self.sharding
            .offer(alloc, &around, entity, payload, &mut actions)?;
        Ok(actions)
    }

    // The coordinator's part of a tick.
    pub(crate) fn coordinates(
        &mut self,
        alloc: Global,
        actions: &mut Actions,
    ) -> Result<(), AllocError>
        ensures state { OnOk result (self.new ≡ (rules.shards_do coordinates.coordinates self.old).0) }
        ensures actions { OnOk result (actions.new ≡ actions.old ++ (rules.shards_do coordinates.coordinates self.old).1) }
        ensures same { IsSameProcess self.old self.new }
    {
        let around = around(&self.membership, &self.singleton);
        self.sharding.coordinate(alloc, &around, actions)
    }

    // Adds that the homes are asked for of those shards for which messages wait.
    pub(crate) fn asks_homes(&self, alloc: Global, actions: &mut Actions) -> Result<(), AllocError>
        ensures { OnOk result (actions.new ≡ actions.old ++ (rules.shards_do hosts.asks_homes self.now).1) }
    {
        let around = around(&self.membership, &self.singleton);
        self.sharding.ask_homes(alloc, &around, actions)
    }

    // Whether nobody counts who could host a shard.
    fn is_alone(&self) -> bool
        ensures { result ≡ rules.is_empty (rules.counted_members self.now) }
    {
        self.membership.gossip().members().oldest().is_none()
    }

    // A node that exits may leave where it hosts no shard, or where nobody counts who could host one.
    pub(crate) fn may_leave(&self) -> bool
        ensures { result ≡ rules.may_leave self.now }
    {
        !self.sharding.hosts_any() || self.is_alone()
    }

    // In a node that goes on, homes that are no members are forgotten.
    pub(crate) fn forgets(&mut self)
        ensures after { self.new ≡ rules.forgets self.old }
        ensures same { IsSameProcess self.old self.new }
    {
        if self.runs {
            let around = around(&self.membership, &self.singleton);
            self.sharding.forget_strangers(&around);
        }
    }
}
