ghost use Rattle.std.specs.Prelude.{◌≡◌, ◌↔◌, ◌<◌, ◌^◌, ℕ, Some, IsTrue, slice_get};
ghost use Rattle.std.specs.FinMap as map;
ghost use Rattle.ak_address.specs.Unique.{IsUnique, IsAddress};
ghost use Rattle.ak_promise.specs.Ballot.{IsBallot};
ghost use Rattle.ak_field.specs.Ranges.{IsEntity, IsNumber, IsShard};
ghost use Rattle.ak_field.specs.Lists.{IsShort, AreReports};
ghost use Rattle.ak_wire.specs.Datagram.{is_for_anybody, Process, IsSendable, IsBody, IsReceiverUid, IsValid};

use crate::envelope::{Envelope, Message};
use crate::reports::Reports;
use ak_address::{Address, Text, Unique};
use ak_clock::{BOUND, Version};
use ak_field::{are_reports, is_entity, is_short};
use ak_gossip::Gossip;
use ak_member::Members;
use ak_promise::Ballot;

const MOST_UID: u64 = 9223372036854775807;

const MOST_SHARD: u32 = 999;

/// Whether an envelope can be spelled as bytes (this project's format): its uid is 0 exactly where its message is for any
/// process at an address, that is of a join, a leave, a down and an offer, and else at most 9223372036854775807; its versions
/// have at most 128 processes, its reports are at most 1000 and ascend, its shards are at most 999, its numbers from 1 to
/// 4611686018427387904, and its entities are called by 1 to 97 bytes from `!` to `~`. Takes no memory.
pub fn valid(envelope: &Envelope) -> bool
    ensures { IsTrue result ↔ IsValid envelope.now }
{
    if !is_process(&envelope.from) || !is_address(&envelope.to) {
        return false;
    }
    if !is_receiver_uid(is_for_anybody(&envelope.message), envelope.uid) {
        return false;
    }
    is_body(&envelope.message)
}

fn is_process(who: &Unique) -> bool
    ensures { IsTrue result ↔ IsUnique who.now }
{
    who.uid >= 1
}

fn is_address(address: &Address) -> bool
    ensures { IsTrue result ↔ IsAddress address.now }
{
    address.port >= 1
}

fn is_ballot(ballot: &Ballot) -> bool
    ensures { IsTrue result ↔ IsBallot ballot.now }
{
    ballot.term >= 1
}

fn is_receiver_uid(anybody: bool, uid: u64) -> bool
    ensures { IsTrue result ↔ IsReceiverUid anybody uid }
{
    if anybody {
        return uid == 0;
    }
    uid >= 1 && uid <= MOST_UID
}

fn is_for_anybody(message: &Message) -> bool
    ensures { result ≡ is_for_anybody message.now }
{
    match message {
        Message::Join => true,
        Message::Leave(_) => true,
        Message::Down(_) => true,
        Message::Offer(_, _) => true,
        _ => false,
    }
}

fn is_body(message: &Message) -> bool
    ensures { IsTrue result ↔ IsBody message.now }
{
    match message {
        Message::Join => true,
        Message::Welcome(gossip) => is_sendable(gossip),
        Message::Gossip(gossip) => is_sendable(gossip),
        Message::Heartbeat => true,
        Message::HeartbeatReply => true,
        Message::ExitingConfirmed => true,
        Message::Ask(ballot) => is_ballot(ballot),
        Message::Granted(ballot, version, reports) => is_granted(ballot, version, reports),
        Message::Busy(asked, promised) => are_ballots(asked, promised),
        Message::Old(asked, promised) => are_ballots(asked, promised),
        Message::HandOverToMe(ballot) => is_ballot(ballot),
        Message::HandOverDone(ballot, version) => is_ending(ballot, version),
        Message::Release(ballot, version) => is_ending(ballot, version),
        Message::GetHome(ballot, shard) => is_seeking(ballot, *shard),
        Message::Home(ballot, shard, owner) => is_homing(ballot, *shard, owner),
        Message::HostShard(ballot, shard, number) => is_placing(ballot, *shard, *number),
        Message::ShardStarted(ballot, shard, number) => is_placing(ballot, *shard, *number),
        Message::BeginHandOff(ballot, shard, number) => is_placing(ballot, *shard, *number),
        Message::BeginHandOffAck(ballot, shard, number) => is_placing(ballot, *shard, *number),
        Message::HandOff(ballot, shard, number) => is_placing(ballot, *shard, *number),
        Message::ShardStopped(ballot, shard, number) => is_placing(ballot, *shard, *number),
        Message::Forward(entity, payload) => is_carrying(entity, *payload),
        Message::Leave(who) => is_process(who),
        Message::Down(who) => is_process(who),
        Message::Offer(entity, payload) => is_carrying(entity, *payload),
    }
}

fn is_sendable(gossip: &Gossip) -> bool
    ensures { IsTrue result ↔ IsSendable gossip.now }
{
    sendable(gossip);
    true
}

// Tells a proof that each process of a gossip is in its ranges, as every process is, so that the gossip can be spelled. It
// looks at each of them.
fn sendable(gossip: &Gossip)
    ensures { IsSendable gossip.now }
{
    gossip.invariant();
    processes(gossip.members());
}

fn processes(members: &Members)
    ensures { (i : ℕ) (pair : Process) → slice_get (map.entries members.now) i ≡ Some pair → IsUnique pair.0 }
{
    'members: for index in 0..members.uniques() {
        if let Some((who, _standing)) = members.pair(index) {
            process(who);
        }
    }
}

fn process(who: &Unique)
    ensures { IsUnique who.now }
{
    let _uid = who.uid;
}

fn is_granted(ballot: &Ballot, version: &Version, reports: &Reports) -> bool
    ensures { IsTrue result ↔ (IsBallot ballot.now × (IsShort version.now × AreReports reports.now)) }
{
    is_ballot(ballot) && is_short(version) && are_reports(reports.as_slice())
}

fn are_ballots(asked: &Ballot, promised: &Ballot) -> bool
    ensures { IsTrue result ↔ (IsBallot asked.now × IsBallot promised.now) }
{
    is_ballot(asked) && is_ballot(promised)
}

fn is_ending(ballot: &Ballot, version: &Version) -> bool
    ensures { IsTrue result ↔ (IsBallot ballot.now × IsShort version.now) }
{
    is_ballot(ballot) && is_short(version)
}

fn is_seeking(ballot: &Ballot, shard: u32) -> bool
    ensures { IsTrue result ↔ (IsBallot ballot.now × IsShard shard) }
{
    is_ballot(ballot) && shard <= MOST_SHARD
}

fn is_homing(ballot: &Ballot, shard: u32, owner: &Unique) -> bool
    ensures { IsTrue result ↔ (IsBallot ballot.now × (IsShard shard × IsUnique owner.now)) }
{
    is_ballot(ballot) && shard <= MOST_SHARD && is_process(owner)
}

fn is_placing(ballot: &Ballot, shard: u32, number: u64) -> bool
    ensures { IsTrue result ↔ (IsBallot ballot.now × (IsShard shard × IsNumber number)) }
{
    is_ballot(ballot) && shard <= MOST_SHARD && number >= 1 && number <= BOUND
}

fn is_carrying(entity: &Text, payload: u64) -> bool
    ensures { IsTrue result ↔ (IsEntity entity.now × (payload < 2 ^ 64)) }
{
    let _payload = payload;
    is_entity(entity.bytes())
}
