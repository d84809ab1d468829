ghost use Rattle.std.specs.Prelude.{◌≡◌};
ghost use Rattle.ak_field.specs.Reading.{Gives, GivesAs};
ghost use Rattle.ak_wire.specs.ReadingDatagram.{made_at, gossip_at, granted_at, two_ballots_at, done_at, get_home_at, home_at, placed_at, payload_at, bare, told, asking, granting, refusing, ending, seeking, homing, placing, carrying, naming, early_body_at, late_body_at, body_at};
ghost use Rattle.ak_field.specs.Fields.{ballot_at, unique_at};

use crate::envelope::Message;
use crate::reports::Reports;
use ak_clock::BOUND;
use ak_field::{Fields, WireFault};
use ak_gossip::Gossip;
use ak_promise::Ballot;
use std::alloc::Global;

/// The body of a message of this kind, from 1 to 25, in a version of the format.
#[tactic(auto, unfolding(crate::specs::ReadingDatagram::body_at))]
pub(crate) fn body(
    alloc: Global,
    version: u8,
    kind: u8,
    fields: &mut Fields<'_>,
) -> Result<Message, WireFault>
    ensures { Gives result fields.new (body_at version kind fields.old) }
{
    if kind <= 13 {
        return early_body(alloc, kind, fields);
    }
    late_body(alloc, version, kind, fields)
}

#[tactic(auto, unfolding(crate::specs::ReadingDatagram::early_body_at))]
fn early_body(alloc: Global, kind: u8, fields: &mut Fields<'_>) -> Result<Message, WireFault>
    ensures { Gives result fields.new (early_body_at kind fields.old) }
{
    if kind == 2 || kind == 3 {
        return told(alloc, kind, fields);
    }
    if kind == 7 || kind == 11 {
        return asking(alloc, kind, fields);
    }
    if kind == 8 {
        return granting(alloc, fields);
    }
    if kind == 9 || kind == 10 {
        return refusing(alloc, kind, fields);
    }
    if kind == 12 || kind == 13 {
        return ending(alloc, kind, fields);
    }
    Ok(bare(kind))
}

#[tactic(auto, unfolding(crate::specs::ReadingDatagram::late_body_at))]
fn late_body(
    alloc: Global,
    version: u8,
    kind: u8,
    fields: &mut Fields<'_>,
) -> Result<Message, WireFault>
    ensures { Gives result fields.new (late_body_at version kind fields.old) }
{
    if kind == 14 {
        return seeking(alloc, fields);
    }
    if kind == 15 {
        return homing(alloc, fields);
    }
    if kind == 22 || kind == 25 {
        return carrying(alloc, version, kind, fields);
    }
    if kind == 23 || kind == 24 {
        return naming(alloc, kind, fields);
    }
    placing(alloc, kind, fields)
}

// A message that has no body.
fn bare(kind: u8) -> Message
    ensures { result ≡ bare kind }
{
    match kind {
        1 => Message::Join,
        4 => Message::Heartbeat,
        5 => Message::HeartbeatReply,
        _ => Message::ExitingConfirmed,
    }
}

#[tactic(auto, using(crate::proofs::Steps::fails_made), unfolding(crate::specs::ReadingDatagram::made_at))]
fn told(alloc: Global, kind: u8, fields: &mut Fields<'_>) -> Result<Message, WireFault>
    ensures { Gives result fields.new (made_at (told kind) (gossip_at fields.old)) }
{
    let gossip = gossip(alloc, fields)?;
    match kind {
        2 => Ok(Message::Welcome(gossip)),
        _ => Ok(Message::Gossip(gossip)),
    }
}

#[tactic(auto, using(crate::proofs::Steps::fails_made), unfolding(crate::specs::ReadingDatagram::gossip_at))]
fn gossip(alloc: Global, fields: &mut Fields<'_>) -> Result<Gossip, WireFault>
    ensures { Gives result fields.new (gossip_at fields.old) }
{
    fields.invariant();
    let parts = fields.parts(alloc)?;
    Ok(Gossip::from_parts(alloc, parts.as_slice())?)
}

#[tactic(auto, using(crate::proofs::Steps::fails_made), unfolding(crate::specs::ReadingDatagram::made_at))]
fn asking(alloc: Global, kind: u8, fields: &mut Fields<'_>) -> Result<Message, WireFault>
    ensures { Gives result fields.new (made_at (asking kind) (ballot_at fields.old)) }
{
    let ballot = fields.ballot(alloc)?;
    match kind {
        7 => Ok(Message::Ask(ballot)),
        _ => Ok(Message::HandOverToMe(ballot)),
    }
}

#[tactic(auto, using(crate::proofs::Steps::fails_first), unfolding(crate::specs::ReadingDatagram::pair_at, crate::specs::ReadingDatagram::made_at))]
fn granting(alloc: Global, fields: &mut Fields<'_>) -> Result<Message, WireFault>
    ensures { Gives result fields.new (made_at granting (granted_at fields.old)) }
{
    let ballot = fields.ballot(alloc)?;
    let version = fields.version(alloc)?;
    let reports = fields.reports(alloc)?;
    Ok(Message::Granted(ballot, version, Reports::of(reports)))
}

#[tactic(auto, using(crate::proofs::Steps::fails_first), unfolding(crate::specs::ReadingDatagram::pair_at, crate::specs::ReadingDatagram::made_at))]
fn refusing(alloc: Global, kind: u8, fields: &mut Fields<'_>) -> Result<Message, WireFault>
    ensures { Gives result fields.new (made_at (refusing kind) (two_ballots_at fields.old)) }
{
    let asked = fields.ballot(alloc)?;
    let promised = fields.ballot(alloc)?;
    match kind {
        9 => Ok(Message::Busy(asked, promised)),
        _ => Ok(Message::Old(asked, promised)),
    }
}

#[tactic(auto, using(crate::proofs::Steps::fails_first), unfolding(crate::specs::ReadingDatagram::pair_at, crate::specs::ReadingDatagram::made_at))]
fn ending(alloc: Global, kind: u8, fields: &mut Fields<'_>) -> Result<Message, WireFault>
    ensures { Gives result fields.new (made_at (ending kind) (done_at fields.old)) }
{
    let ballot = fields.ballot(alloc)?;
    let version = fields.version(alloc)?;
    match kind {
        12 => Ok(Message::HandOverDone(ballot, version)),
        _ => Ok(Message::Release(ballot, version)),
    }
}

#[tactic(auto, using(crate::proofs::Steps::fails_first, crate::proofs::Steps::fails_exactly), unfolding(crate::specs::ReadingDatagram::pair_at, crate::specs::ReadingDatagram::made_at))]
fn seeking(alloc: Global, fields: &mut Fields<'_>) -> Result<Message, WireFault>
    ensures { Gives result fields.new (made_at seeking (get_home_at fields.old)) }
{
    let ballot = fields.ballot(alloc)?;
    let shard = fields.shard()?;
    Ok(Message::GetHome(ballot, shard))
}

#[tactic(auto, using(crate::proofs::Steps::fails_first, crate::proofs::Steps::fails_exactly), unfolding(crate::specs::ReadingDatagram::pair_at, crate::specs::ReadingDatagram::made_at))]
fn homing(alloc: Global, fields: &mut Fields<'_>) -> Result<Message, WireFault>
    ensures { Gives result fields.new (made_at homing (home_at fields.old)) }
{
    let ballot = fields.ballot(alloc)?;
    let shard = fields.shard()?;
    let owner = fields.unique(alloc)?;
    Ok(Message::Home(ballot, shard, owner))
}

// A ballot, a shard and a number.
#[tactic(auto, using(crate::proofs::Steps::fails_first, crate::proofs::Steps::fails_exactly), unfolding(crate::specs::ReadingDatagram::pair_at))]
fn placed(alloc: Global, fields: &mut Fields<'_>) -> Result<(Ballot, u32, u64), WireFault>
    ensures { GivesAs (λ x. (x.0, (x.1, x.2))) result fields.new (placed_at fields.old) }
{
    let ballot = fields.ballot(alloc)?;
    let shard = fields.shard()?;
    let number = fields.number(1, BOUND)?;
    Ok((ballot, shard, number))
}

#[tactic(auto, using(crate::proofs::Steps::fails_made), unfolding(crate::specs::ReadingDatagram::made_at))]
fn placing(alloc: Global, kind: u8, fields: &mut Fields<'_>) -> Result<Message, WireFault>
    ensures { Gives result fields.new (made_at (placing kind) (placed_at fields.old)) }
{
    let (ballot, shard, number) = placed(alloc, fields)?;
    Ok(placed_message(kind, ballot, shard, number))
}

fn placed_message(kind: u8, ballot: Ballot, shard: u32, number: u64) -> Message
    ensures { result ≡ placing kind (ballot, (shard, number)) }
{
    match kind {
        16 => Message::HostShard(ballot, shard, number),
        17 => Message::ShardStarted(ballot, shard, number),
        18 => Message::BeginHandOff(ballot, shard, number),
        19 => Message::BeginHandOffAck(ballot, shard, number),
        20 => Message::HandOff(ballot, shard, number),
        _ => Message::ShardStopped(ballot, shard, number),
    }
}

#[tactic(auto, using(crate::proofs::Steps::fails_first, crate::proofs::Steps::fails_exactly), unfolding(crate::specs::ReadingDatagram::pair_at, crate::specs::ReadingDatagram::made_at))]
fn carrying(
    alloc: Global,
    version: u8,
    kind: u8,
    fields: &mut Fields<'_>,
) -> Result<Message, WireFault>
    ensures { Gives result fields.new (made_at (carrying kind) (payload_at version fields.old)) }
{
    let entity = fields.entity(alloc, version)?;
    let payload = fields.eight_bytes()?;
    match kind {
        22 => Ok(Message::Forward(entity, payload)),
        _ => Ok(Message::Offer(entity, payload)),
    }
}

#[tactic(auto, using(crate::proofs::Steps::fails_made), unfolding(crate::specs::ReadingDatagram::made_at))]
fn naming(alloc: Global, kind: u8, fields: &mut Fields<'_>) -> Result<Message, WireFault>
    ensures { Gives result fields.new (made_at (naming kind) (unique_at fields.old)) }
{
    let who = fields.unique(alloc)?;
    match kind {
        23 => Ok(Message::Leave(who)),
        _ => Ok(Message::Down(who)),
    }
}
