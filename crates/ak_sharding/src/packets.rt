ghost use Rattle.std.specs.Prelude.{◌≡◌, ◌++◌, OnOk, OnErr};
ghost use Rattle.ak_sharding.specs.Packets as rules;

use crate::sharding::Sharding;
use crate::surroundings::Around;
use ak_address::Unique;
use ak_wire::{Actions, Message};
use std::alloc::{AllocError, Global};

impl Sharding {
    /// A message of the shards from a process: to a region, whose coordinator has the ballot that the node promised last, it is a
    /// home, an order to host, to hold or to hand off; to the coordinator, with the ballot with which it is active, that a home
    /// is asked for, or that a node hosts, holds or has handed off; or it is a payload for an entity (Akka's Cluster Sharding,
    /// "How it works"). A message about a shard that the node has not, with another ballot, and any other, changes nothing and takes
    /// no memory; as coordinator the node takes it only where somebody is told something, or where the shard is to be placed and
    /// there is a load. Adds what it does; only memory can fail.
    pub fn on_message(
        &mut self,
        alloc: Global,
        around: &Around,
        from: &Unique,
        message: &Message,
        actions: &mut Actions,
    ) -> Result<(), AllocError>
        ensures state { OnOk result (self.new ≡ (rules.on_shard_message around.now from.now message.now self.old).0) }
        ensures actions { OnOk result (actions.new ≡ actions.old ++ (rules.on_shard_message around.now from.now message.now self.old).1) }
        ensures memory { OnErr result (rules.TakesRoom around.now from.now message.now self.old) }
    {
        match message {
            Message::GetHome(ballot, shard) => self.on_get_home(
                alloc, around, from, ballot, *shard, actions,
            ),
            Message::Home(ballot, shard, owner) => self.on_home(
                alloc, around, ballot, *shard, owner, actions,
            ),
            Message::HostShard(ballot, shard, number) => self.on_host_shard(
                alloc, around, from, ballot, *shard, *number, actions,
            ),
            Message::ShardStarted(ballot, shard, number) => {
                self.on_shard_started(around, from, ballot, *shard, *number);
                Ok(())
            }
            Message::BeginHandOff(ballot, shard, number) => self.on_begin_hand_off(
                alloc, around, from, ballot, *shard, *number, actions,
            ),
            Message::BeginHandOffAck(ballot, shard, number) => self.on_ack(
                alloc, around, from, ballot, *shard, *number, actions,
            ),
            Message::HandOff(ballot, shard, number) => self.on_hand_off(
                alloc, around, from, ballot, *shard, *number, actions,
            ),
            Message::ShardStopped(ballot, shard, number) => self.on_shard_stopped(
                alloc, around, from, ballot, *shard, *number, actions,
            ),
            Message::Forward(entity, payload) => self.routes(
                alloc, around.me, entity, *payload, actions,
            ),
            Message::Offer(entity, payload) => self.routes(
                alloc, around.me, entity, *payload, actions,
            ),
            _ => Ok(()),
        }
    }
}
