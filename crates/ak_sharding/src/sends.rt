ghost use Rattle.std.specs.Prelude.{◌≡◌, ◌++◌, ◌∷◌, [], OnOk};
ghost use Rattle.ak_sharding.specs.Sharding.{to_process};

use ak_address::{Text, Unique};
use ak_promise::Ballot;
use ak_wire::{Actions, Cover, Message};
use std::alloc::{AllocError, Global};

// Each adds a message from the process to another one. The message is made last, so that no error lets one go.

pub(crate) fn ask_home(
    alloc: Global,
    me: &Unique,
    to: &Unique,
    ballot: &Ballot,
    shard: u32,
    actions: &mut Actions,
) -> Result<(), AllocError>
    ensures { OnOk result (actions.new ≡ actions.old ++ to_process me.now to.now (Message.GetHome ballot.now shard) ∷ []) }
{
    let cover = Cover::between(alloc, me, to)?;
    let ballot = ballot.copy(alloc)?;
    actions.push(cover.around(alloc, Message::GetHome(ballot, shard))?)
}

pub(crate) fn tell_home(
    alloc: Global,
    me: &Unique,
    to: &Unique,
    ballot: &Ballot,
    shard: u32,
    owner: &Unique,
    actions: &mut Actions,
) -> Result<(), AllocError>
    ensures { OnOk result (actions.new ≡ actions.old ++ to_process me.now to.now (Message.Home ballot.now shard owner.now) ∷ []) }
{
    let cover = Cover::between(alloc, me, to)?;
    let ballot = ballot.copy(alloc)?;
    let owner = owner.copy(alloc)?;
    actions.push(cover.around(alloc, Message::Home(ballot, shard, owner))?)
}

pub(crate) fn forward(
    alloc: Global,
    me: &Unique,
    to: &Unique,
    entity: Text,
    payload: u64,
    actions: &mut Actions,
) -> Result<(), AllocError>
    ensures { OnOk result (actions.new ≡ actions.old ++ to_process me.now to.now (Message.Forward entity payload) ∷ []) }
{
    let cover = Cover::between(alloc, me, to)?;
    actions.push(cover.around(alloc, Message::Forward(entity, payload))?)
}

pub(crate) fn order_host(
    alloc: Global,
    me: &Unique,
    to: &Unique,
    ballot: &Ballot,
    shard: u32,
    number: u64,
    actions: &mut Actions,
) -> Result<(), AllocError>
    ensures { OnOk result (actions.new ≡ actions.old ++ to_process me.now to.now (Message.HostShard ballot.now shard number) ∷ []) }
{
    let cover = Cover::between(alloc, me, to)?;
    let ballot = ballot.copy(alloc)?;
    actions.push(cover.around(alloc, Message::HostShard(ballot, shard, number))?)
}

pub(crate) fn tell_started(
    alloc: Global,
    me: &Unique,
    to: &Unique,
    ballot: &Ballot,
    shard: u32,
    number: u64,
    actions: &mut Actions,
) -> Result<(), AllocError>
    ensures { OnOk result (actions.new ≡ actions.old ++ to_process me.now to.now (Message.ShardStarted ballot.now shard number) ∷ []) }
{
    let cover = Cover::between(alloc, me, to)?;
    let ballot = ballot.copy(alloc)?;
    actions.push(cover.around(alloc, Message::ShardStarted(ballot, shard, number))?)
}

pub(crate) fn order_hold(
    alloc: Global,
    me: &Unique,
    to: &Unique,
    ballot: &Ballot,
    shard: u32,
    number: u64,
    actions: &mut Actions,
) -> Result<(), AllocError>
    ensures { OnOk result (actions.new ≡ actions.old ++ to_process me.now to.now (Message.BeginHandOff ballot.now shard number) ∷ []) }
{
    let cover = Cover::between(alloc, me, to)?;
    let ballot = ballot.copy(alloc)?;
    actions.push(cover.around(alloc, Message::BeginHandOff(ballot, shard, number))?)
}

pub(crate) fn tell_held(
    alloc: Global,
    me: &Unique,
    to: &Unique,
    ballot: &Ballot,
    shard: u32,
    number: u64,
    actions: &mut Actions,
) -> Result<(), AllocError>
    ensures { OnOk result (actions.new ≡ actions.old ++ to_process me.now to.now (Message.BeginHandOffAck ballot.now shard number) ∷ []) }
{
    let cover = Cover::between(alloc, me, to)?;
    let ballot = ballot.copy(alloc)?;
    actions.push(cover.around(alloc, Message::BeginHandOffAck(ballot, shard, number))?)
}

pub(crate) fn order_hand_off(
    alloc: Global,
    me: &Unique,
    to: &Unique,
    ballot: &Ballot,
    shard: u32,
    number: u64,
    actions: &mut Actions,
) -> Result<(), AllocError>
    ensures { OnOk result (actions.new ≡ actions.old ++ to_process me.now to.now (Message.HandOff ballot.now shard number) ∷ []) }
{
    let cover = Cover::between(alloc, me, to)?;
    let ballot = ballot.copy(alloc)?;
    actions.push(cover.around(alloc, Message::HandOff(ballot, shard, number))?)
}

pub(crate) fn tell_stopped(
    alloc: Global,
    me: &Unique,
    to: &Unique,
    ballot: &Ballot,
    shard: u32,
    number: u64,
    actions: &mut Actions,
) -> Result<(), AllocError>
    ensures { OnOk result (actions.new ≡ actions.old ++ to_process me.now to.now (Message.ShardStopped ballot.now shard number) ∷ []) }
{
    let cover = Cover::between(alloc, me, to)?;
    let ballot = ballot.copy(alloc)?;
    actions.push(cover.around(alloc, Message::ShardStopped(ballot, shard, number))?)
}
