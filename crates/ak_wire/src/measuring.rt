ghost use Rattle.std.specs.Prelude.{◌≡◌, ◌≤◌, ◌++◌, length};
ghost use Rattle.ak_field.specs.Ranges.{IsEntity};
ghost use Rattle.ak_field.specs.Lists.{IsShort, AreReports};
ghost use Rattle.ak_field.specs.Spelling as spelling;
ghost use Rattle.ak_field.specs.Parts as spelled;
ghost use Rattle.ak_gossip.specs.Parts.{parts_of};
ghost use Rattle.ak_wire.specs.Datagram.{parts_in, placed, payload, body, datagram, IsBody, IsValid};

use crate::envelope::{Envelope, Message};
use crate::reports::Reports;
use ak_address::{Text, Unique};
use ak_clock::Version;
use ak_field::{ballot_len, entity_len, parts_len, process_len, reports_len, version_len};
use ak_gossip::{Gossip, Part};
use ak_promise::Ballot;

const HEADER_LEN: usize = 5;

/// How many bytes spell a valid envelope, of whose message these are the parts. Takes no memory.
pub(crate) fn datagram_len(envelope: &Envelope, parts: &[Part]) -> usize
    requires valid { IsValid envelope.now }
    requires parts { parts.now ≡ parts_in envelope.now.message }
    ensures { result ≡ length (datagram envelope.now) }
{
    let processes = unique_len(&envelope.from) + process_len(&envelope.to);
    HEADER_LEN + processes + body_len(&envelope.message, parts)
}

fn body_len(message: &Message, parts: &[Part]) -> usize
    requires body { IsBody message.now }
    requires parts { parts.now ≡ parts_in message.now }
    ensures is { result ≡ length (body message.now) }
    ensures few { result ≤ 29441 }
{
    match message {
        Message::Join => 0,
        Message::Welcome(gossip) => gossip_len(gossip, parts),
        Message::Gossip(gossip) => gossip_len(gossip, parts),
        Message::Heartbeat => 0,
        Message::HeartbeatReply => 0,
        Message::ExitingConfirmed => 0,
        Message::Ask(ballot) => ballot_len(ballot),
        Message::Granted(ballot, version, reports) => granted_len(ballot, version, reports),
        Message::Busy(asked, promised) => ballots_len(asked, promised),
        Message::Old(asked, promised) => ballots_len(asked, promised),
        Message::HandOverToMe(ballot) => ballot_len(ballot),
        Message::HandOverDone(ballot, version) => ending_len(ballot, version),
        Message::Release(ballot, version) => ending_len(ballot, version),
        Message::GetHome(ballot, shard) => seeking_len(ballot, *shard),
        Message::Home(ballot, shard, owner) => homing_len(ballot, *shard, owner),
        Message::HostShard(ballot, shard, number) => placed_len(ballot, *shard, *number),
        Message::ShardStarted(ballot, shard, number) => placed_len(ballot, *shard, *number),
        Message::BeginHandOff(ballot, shard, number) => placed_len(ballot, *shard, *number),
        Message::BeginHandOffAck(ballot, shard, number) => placed_len(ballot, *shard, *number),
        Message::HandOff(ballot, shard, number) => placed_len(ballot, *shard, *number),
        Message::ShardStopped(ballot, shard, number) => placed_len(ballot, *shard, *number),
        Message::Forward(entity, payload) => payload_len(entity, *payload),
        Message::Leave(who) => unique_len(who),
        Message::Down(who) => unique_len(who),
        Message::Offer(entity, payload) => payload_len(entity, *payload),
    }
}

// How many bytes spell a gossip, of which these are the parts.
fn gossip_len(gossip: &Gossip, list: &[Part]) -> usize
    requires { list.now ≡ parts_of gossip.now }
    ensures is { result ≡ length (spelled.parts (parts_of gossip.now)) }
    ensures few { result ≤ 29441 }
{
    gossip.invariant();
    parts_len(list)
}

fn unique_len(who: &Unique) -> usize
    ensures is { result ≡ length (spelling.process who.now) }
    ensures few { result ≤ 75 }
{
    process_len(&who.address)
}

fn granted_len(ballot: &Ballot, version: &Version, reports: &Reports) -> usize
    requires version { IsShort version.now }
    requires reports { AreReports reports.now }
    ensures is { result ≡ length (spelling.ballot ballot.now ++ (spelling.version version.now ++ spelling.reports reports.now)) }
    ensures few { result ≤ 29441 }
{
    ballot_len(ballot) + version_len(version) + reports_len(reports.as_slice())
}

fn ballots_len(asked: &Ballot, promised: &Ballot) -> usize
    ensures is { result ≡ length (spelling.ballot asked.now ++ spelling.ballot promised.now) }
    ensures few { result ≤ 29441 }
{
    ballot_len(asked) + ballot_len(promised)
}

fn ending_len(ballot: &Ballot, version: &Version) -> usize
    requires { IsShort version.now }
    ensures is { result ≡ length (spelling.ballot ballot.now ++ spelling.version version.now) }
    ensures few { result ≤ 29441 }
{
    ballot_len(ballot) + version_len(version)
}

fn seeking_len(ballot: &Ballot, shard: u32) -> usize
    ensures is { result ≡ length (spelling.ballot ballot.now ++ spelling.shard shard) }
    ensures few { result ≤ 29441 }
{
    ballot_len(ballot) + 2
}

fn homing_len(ballot: &Ballot, shard: u32, owner: &Unique) -> usize
    ensures is { result ≡ length (spelling.ballot ballot.now ++ (spelling.shard shard ++ spelling.process owner.now)) }
    ensures few { result ≤ 29441 }
{
    ballot_len(ballot) + unique_len(owner) + 2
}

fn placed_len(ballot: &Ballot, shard: u32, number: u64) -> usize
    ensures is { result ≡ length (placed ballot.now shard number) }
    ensures few { result ≤ 29441 }
{
    ballot_len(ballot) + 10
}

fn payload_len(entity: &Text, bits: u64) -> usize
    requires { IsEntity entity.now }
    ensures is { result ≡ length (payload entity.now bits) }
    ensures few { result ≤ 29441 }
{
    entity_len(entity) + 8
}
