ghost use Rattle.std.specs.Prelude.{◌≡◌, ◌++◌, IfOk, OnOk};
ghost use Rattle.ak_field.specs.Ranges.{IsEntity, IsShard};
ghost use Rattle.ak_field.specs.Spelling as spelling;
ghost use Rattle.ak_field.specs.Parts as spelled;
ghost use Rattle.ak_field.specs.Lists.{IsShort, AreReports};
ghost use Rattle.ak_gossip.specs.Parts.{parts_of};
ghost use Rattle.ak_wire.specs.Datagram.{kind_number, parts_in, placed, payload, body, datagram, IsBody, IsValid};

use crate::envelope::{Envelope, Message};
use crate::measuring::datagram_len;
use crate::reports::Reports;
use ak_address::{Text, Unique};
use ak_clock::Version;
use ak_field::{
    write_ballot, write_entity, write_header, write_number, write_parts, write_receiver,
    write_reports, write_shard, write_unique, write_version,
};
use ak_gossip::{Gossip, Part, Parts};
use ak_promise::Ballot;
use std::alloc::{AllocError, Global};

/// The bytes that spell a valid envelope, in the newest version of the format (this project's format): all that `decode` reads
/// again. They are measured first, so that memory for them is asked for once. Only memory can fail.
pub fn encode(alloc: Global, envelope: &Envelope) -> Result<Vec<u8>, AllocError>
    requires { IsValid envelope.now }
    ensures { IfOk result (λ bytes. bytes.items ≡ datagram envelope.now) }
{
    let parts = parts_in(alloc, &envelope.message)?;
    let parts = parts.as_slice();
    let mut out = Vec::with_capacity(alloc, datagram_len(envelope, parts))?;
    write_header(kind_number(&envelope.message), &mut out)?;
    write_unique(&envelope.from, &mut out)?;
    write_receiver(&envelope.to, envelope.uid, &mut out)?;
    write_body(&envelope.message, parts, &mut out)?;
    Ok(out)
}

// The parts of the gossip that the message carries; none where it carries none.
fn parts_in(alloc: Global, message: &Message) -> Result<Parts, AllocError>
    ensures { IfOk result (λ parts. parts ≡ parts_in message.now) }
{
    match message {
        Message::Welcome(gossip) => gossip.to_parts(alloc),
        Message::Gossip(gossip) => gossip.to_parts(alloc),
        _ => Ok(Parts::empty(alloc)),
    }
}

/// The number of its kind, from 1 to 25: what a datagram has of it (this project's format). Takes no memory.
pub fn kind_number(message: &Message) -> u8
    ensures { result ≡ kind_number message.now }
{
    match message {
        Message::Join => 1,
        Message::Welcome(_) => 2,
        Message::Gossip(_) => 3,
        Message::Heartbeat => 4,
        Message::HeartbeatReply => 5,
        Message::ExitingConfirmed => 6,
        Message::Ask(_) => 7,
        Message::Granted(_, _, _) => 8,
        Message::Busy(_, _) => 9,
        Message::Old(_, _) => 10,
        Message::HandOverToMe(_) => 11,
        Message::HandOverDone(_, _) => 12,
        Message::Release(_, _) => 13,
        Message::GetHome(_, _) => 14,
        Message::Home(_, _, _) => 15,
        Message::HostShard(_, _, _) => 16,
        Message::ShardStarted(_, _, _) => 17,
        Message::BeginHandOff(_, _, _) => 18,
        Message::BeginHandOffAck(_, _, _) => 19,
        Message::HandOff(_, _, _) => 20,
        Message::ShardStopped(_, _, _) => 21,
        Message::Forward(_, _) => 22,
        Message::Leave(_) => 23,
        Message::Down(_) => 24,
        Message::Offer(_, _) => 25,
    }
}

// Appends the body of a message; a gossip is its parts.
fn write_body(message: &Message, parts: &[Part], out: &mut Vec<u8>) -> Result<(), AllocError>
    requires body { IsBody message.now }
    requires parts { parts.now ≡ parts_in message.now }
    ensures { OnOk result (out.new.items ≡ out.old.items ++ body message.now) }
{
    match message {
        Message::Join => Ok(()),
        Message::Welcome(gossip) => write_gossip(gossip, parts, out),
        Message::Gossip(gossip) => write_gossip(gossip, parts, out),
        Message::Heartbeat => Ok(()),
        Message::HeartbeatReply => Ok(()),
        Message::ExitingConfirmed => Ok(()),
        Message::Ask(ballot) => write_ballot(ballot, out),
        Message::Granted(ballot, version, reports) => write_granted(ballot, version, reports, out),
        Message::Busy(asked, promised) => write_ballots(asked, promised, out),
        Message::Old(asked, promised) => write_ballots(asked, promised, out),
        Message::HandOverToMe(ballot) => write_ballot(ballot, out),
        Message::HandOverDone(ballot, version) => write_ending(ballot, version, out),
        Message::Release(ballot, version) => write_ending(ballot, version, out),
        Message::GetHome(ballot, shard) => write_seeking(ballot, *shard, out),
        Message::Home(ballot, shard, owner) => write_homing(ballot, *shard, owner, out),
        Message::HostShard(ballot, shard, number) => write_placed(ballot, *shard, *number, out),
        Message::ShardStarted(ballot, shard, number) => write_placed(ballot, *shard, *number, out),
        Message::BeginHandOff(ballot, shard, number) => write_placed(ballot, *shard, *number, out),
        Message::BeginHandOffAck(ballot, shard, number) => write_placed(
            ballot, *shard, *number, out,
        ),
        Message::HandOff(ballot, shard, number) => write_placed(ballot, *shard, *number, out),
        Message::ShardStopped(ballot, shard, number) => write_placed(ballot, *shard, *number, out),
        Message::Forward(entity, payload) => write_payload(entity, *payload, out),
        Message::Leave(who) => write_unique(who, out),
        Message::Down(who) => write_unique(who, out),
        Message::Offer(entity, payload) => write_payload(entity, *payload, out),
    }
}

// Appends a gossip, of which these are the parts.
fn write_gossip(gossip: &Gossip, list: &[Part], out: &mut Vec<u8>) -> Result<(), AllocError>
    requires { list.now ≡ parts_of gossip.now }
    ensures { OnOk result (out.new.items ≡ out.old.items ++ spelled.parts (parts_of gossip.now)) }
{
    gossip.invariant();
    write_parts(list, out)
}

fn write_granted(
    ballot: &Ballot,
    version: &Version,
    reports: &Reports,
    out: &mut Vec<u8>,
) -> Result<(), AllocError>
    requires version { IsShort version.now }
    requires reports { AreReports reports.now }
    ensures { OnOk result (out.new.items ≡ out.old.items ++ (spelling.ballot ballot.now ++ (spelling.version version.now ++ spelling.reports reports.now))) }
{
    write_ballot(ballot, out)?;
    write_version(version, out)?;
    write_reports(reports.as_slice(), out)?;
    Ok(())
}

fn write_ballots(asked: &Ballot, promised: &Ballot, out: &mut Vec<u8>) -> Result<(), AllocError>
    ensures { OnOk result (out.new.items ≡ out.old.items ++ (spelling.ballot asked.now ++ spelling.ballot promised.now)) }
{
    write_ballot(asked, out)?;
    write_ballot(promised, out)?;
    Ok(())
}

fn write_ending(ballot: &Ballot, version: &Version, out: &mut Vec<u8>) -> Result<(), AllocError>
    requires { IsShort version.now }
    ensures { OnOk result (out.new.items ≡ out.old.items ++ (spelling.ballot ballot.now ++ spelling.version version.now)) }
{
    write_ballot(ballot, out)?;
    write_version(version, out)?;
    Ok(())
}

fn write_seeking(ballot: &Ballot, shard: u32, out: &mut Vec<u8>) -> Result<(), AllocError>
    requires { IsShard shard }
    ensures { OnOk result (out.new.items ≡ out.old.items ++ (spelling.ballot ballot.now ++ spelling.shard shard)) }
{
    write_ballot(ballot, out)?;
    write_shard(shard, out)?;
    Ok(())
}

fn write_homing(
    ballot: &Ballot,
    shard: u32,
    owner: &Unique,
    out: &mut Vec<u8>,
) -> Result<(), AllocError>
    requires { IsShard shard }
    ensures { OnOk result (out.new.items ≡ out.old.items ++ (spelling.ballot ballot.now ++ (spelling.shard shard ++ spelling.process owner.now))) }
{
    write_ballot(ballot, out)?;
    write_shard(shard, out)?;
    write_unique(owner, out)?;
    Ok(())
}

fn write_placed(
    ballot: &Ballot,
    shard: u32,
    number: u64,
    out: &mut Vec<u8>,
) -> Result<(), AllocError>
    requires { IsShard shard }
    ensures { OnOk result (out.new.items ≡ out.old.items ++ placed ballot.now shard number) }
{
    write_ballot(ballot, out)?;
    write_shard(shard, out)?;
    write_number(number, out)?;
    Ok(())
}

fn write_payload(entity: &Text, bits: u64, out: &mut Vec<u8>) -> Result<(), AllocError>
    requires { IsEntity entity.now }
    ensures { OnOk result (out.new.items ≡ out.old.items ++ payload entity.now bits) }
{
    write_entity(entity, out)?;
    write_number(bits, out)?;
    Ok(())
}
