ghost use Rattle.std.specs.Prelude.{◌≡◌};
ghost use Rattle.std.specs.Option.{option_copied};
ghost use Rattle.ak_packet.specs.Carried.{carries_nothing, ballot_in, promised_in, version_in, reports_in, process_in, entity_in, shard_in, number_in};

use ak_address::{Text, Unique};
use ak_clock::Version;
use ak_promise::Ballot;
use ak_wire::{Message, Reports};

/// Whether its kind is all that a message says, as of most.
pub(crate) fn carries_nothing(message: &Message) -> bool
    ensures { result ≡ carries_nothing message.now }
{
    matches!(
        message,
        Message::Join | Message::Heartbeat | Message::HeartbeatReply | Message::ExitingConfirmed
    )
}

/// The ballot that it carries, of two the one that asked.
pub(crate) fn ballot_in(message: &Message) -> Option<&Ballot>
    ensures { option_copied result ≡ ballot_in message.now }
{
    match message {
        Message::Ask(ballot) => Some(ballot),
        Message::Granted(ballot, _, _) => Some(ballot),
        Message::Busy(ballot, _) => Some(ballot),
        Message::Old(ballot, _) => Some(ballot),
        Message::HandOverToMe(ballot) => Some(ballot),
        Message::HandOverDone(ballot, _) => Some(ballot),
        Message::Release(ballot, _) => Some(ballot),
        Message::GetHome(ballot, _) => Some(ballot),
        Message::Home(ballot, _, _) => Some(ballot),
        Message::HostShard(ballot, _, _) => Some(ballot),
        Message::ShardStarted(ballot, _, _) => Some(ballot),
        Message::BeginHandOff(ballot, _, _) => Some(ballot),
        Message::BeginHandOffAck(ballot, _, _) => Some(ballot),
        Message::HandOff(ballot, _, _) => Some(ballot),
        Message::ShardStopped(ballot, _, _) => Some(ballot),
        _ => None,
    }
}

/// The ballot that was promised, beside the one that asked.
pub(crate) fn promised_in(message: &Message) -> Option<&Ballot>
    ensures { option_copied result ≡ promised_in message.now }
{
    match message {
        Message::Busy(_, promised) => Some(promised),
        Message::Old(_, promised) => Some(promised),
        _ => None,
    }
}

/// The version that it carries beside a ballot.
pub(crate) fn version_in(message: &Message) -> Option<&Version>
    ensures { option_copied result ≡ version_in message.now }
{
    match message {
        Message::Granted(_, version, _) => Some(version),
        Message::HandOverDone(_, version) => Some(version),
        Message::Release(_, version) => Some(version),
        _ => None,
    }
}

/// What it reports of shards.
pub(crate) fn reports_in(message: &Message) -> Option<&Reports>
    ensures { option_copied result ≡ reports_in message.now }
{
    match message {
        Message::Granted(_, _, reports) => Some(reports),
        _ => None,
    }
}

/// The process that it names.
pub(crate) fn process_in(message: &Message) -> Option<&Unique>
    ensures { option_copied result ≡ process_in message.now }
{
    match message {
        Message::Home(_, _, owner) => Some(owner),
        Message::Leave(who) => Some(who),
        Message::Down(who) => Some(who),
        _ => None,
    }
}

/// What the entity is called that it names.
pub(crate) fn entity_in(message: &Message) -> Option<&Text>
    ensures { option_copied result ≡ entity_in message.now }
{
    match message {
        Message::Forward(entity, _) => Some(entity),
        Message::Offer(entity, _) => Some(entity),
        _ => None,
    }
}

/// The shard that it names.
pub(crate) fn shard_in(message: &Message) -> Option<u64>
    ensures { result ≡ shard_in message.now }
{
    match message {
        Message::GetHome(_, shard) => Some(u64::from(*shard)),
        Message::Home(_, shard, _) => Some(u64::from(*shard)),
        Message::HostShard(_, shard, _) => Some(u64::from(*shard)),
        Message::ShardStarted(_, shard, _) => Some(u64::from(*shard)),
        Message::BeginHandOff(_, shard, _) => Some(u64::from(*shard)),
        Message::BeginHandOffAck(_, shard, _) => Some(u64::from(*shard)),
        Message::HandOff(_, shard, _) => Some(u64::from(*shard)),
        Message::ShardStopped(_, shard, _) => Some(u64::from(*shard)),
        _ => None,
    }
}

/// The number of its shard, or what is for its entity.
pub(crate) fn number_in(message: &Message) -> Option<u64>
    ensures { result ≡ number_in message.now }
{
    match message {
        Message::HostShard(_, _, number) => Some(*number),
        Message::ShardStarted(_, _, number) => Some(*number),
        Message::BeginHandOff(_, _, number) => Some(*number),
        Message::BeginHandOffAck(_, _, number) => Some(*number),
        Message::HandOff(_, _, number) => Some(*number),
        Message::ShardStopped(_, _, number) => Some(*number),
        Message::Forward(_, payload) => Some(*payload),
        Message::Offer(_, payload) => Some(*payload),
        _ => None,
    }
}
