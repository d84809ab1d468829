ghost use Rattle.std.specs.Prelude.{◌≡◌};
ghost use Rattle.ak_wire.specs.Wire.{kind_text};

use crate::reports::Reports;
use ak_address::{Address, Text, Unique};
use ak_clock::Version;
use ak_gossip::Gossip;
use ak_promise::Ballot;

/// What one node says to another: one variant for each kind of datagram, in the order of the kinds, 1 to 25, with the fields of
/// its body.
#[derive(Drop)]
pub enum Message {
    /// The sender asks to become a member.
    Join,
    /// The answer to a join, with what the sender knows.
    Welcome(Gossip),
    /// What the sender knows.
    Gossip(Gossip),
    /// The sender asks whether the receiver is there.
    Heartbeat,
    /// The answer to a heartbeat.
    HeartbeatReply,
    /// The sender is Exiting, and stops.
    ExitingConfirmed,
    /// The sender asks for a promise, so that it may run the singleton.
    Ask(Ballot),
    /// The promise is given, with what the sender has seen settled, and what it reports of its shards.
    Granted(Ballot, Version, Reports),
    /// The promise is another's, whose process is not finished: the ballot that asked, and the one promised.
    Busy(Ballot, Ballot),
    /// The ballot that asked is below the one promised, which is the second.
    Old(Ballot, Ballot),
    /// Whoever holds the ballot is asked to hand over.
    HandOverToMe(Ballot),
    /// The holder has handed over: its ballot, and its settled version.
    HandOverDone(Ballot, Version),
    /// The ballot is held no more: whoever asks next knows the version.
    Release(Ballot, Version),
    /// The sender asks where a shard is.
    GetHome(Ballot, u32),
    /// A shard is at a process.
    Home(Ballot, u32, Unique),
    /// The receiver is to host a shard, with a number.
    HostShard(Ballot, u32, u64),
    /// The sender hosts a shard, with a number.
    ShardStarted(Ballot, u32, u64),
    /// A shard is about to move: the receiver is to hold what is for it.
    BeginHandOff(Ballot, u32, u64),
    /// The sender holds what is for the shard.
    BeginHandOffAck(Ballot, u32, u64),
    /// The receiver is to stop a shard that it hosts.
    HandOff(Ballot, u32, u64),
    /// The sender hosts the shard no more.
    ShardStopped(Ballot, u32, u64),
    /// A payload for an entity, passed on to where its shard is.
    Forward(Text, u64),
    /// The receiver is asked that a process leaves.
    Leave(Unique),
    /// The receiver is asked to down a process.
    Down(Unique),
    /// A payload for an entity, from outside.
    Offer(Text, u64),
}

impl Message {
    /// The name of its kind, as a replay prints it.
    pub fn kind(&self) -> &'static [u8]
        ensures { result.now ≡ kind_text self.now }
    {
        match self {
            Message::Join => b"join",
            Message::Welcome(_) => b"welcome",
            Message::Gossip(_) => b"gossip",
            Message::Heartbeat => b"heartbeat",
            Message::HeartbeatReply => b"heartbeat-reply",
            Message::ExitingConfirmed => b"exiting-confirmed",
            Message::Ask(_) => b"ask",
            Message::Granted(_, _, _) => b"granted",
            Message::Busy(_, _) => b"busy",
            Message::Old(_, _) => b"old",
            Message::HandOverToMe(_) => b"hand-over-to-me",
            Message::HandOverDone(_, _) => b"hand-over-done",
            Message::Release(_, _) => b"release",
            Message::GetHome(_, _) => b"get-home",
            Message::Home(_, _, _) => b"home",
            Message::HostShard(_, _, _) => b"host-shard",
            Message::ShardStarted(_, _, _) => b"shard-started",
            Message::BeginHandOff(_, _, _) => b"begin-hand-off",
            Message::BeginHandOffAck(_, _, _) => b"begin-hand-off-ack",
            Message::HandOff(_, _, _) => b"hand-off",
            Message::ShardStopped(_, _, _) => b"shard-stopped",
            Message::Forward(_, _) => b"forward",
            Message::Leave(_) => b"leave",
            Message::Down(_) => b"down",
            Message::Offer(_, _) => b"offer",
        }
    }
}

/// A message with its sender and its receiver. A uid of 0 means any process at the address.
#[derive(Drop)]
pub struct Envelope {
    pub from: Unique,
    pub to: Address,
    pub uid: u64,
    pub message: Message,
}
