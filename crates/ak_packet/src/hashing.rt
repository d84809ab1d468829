ghost use Rattle.std.specs.Prelude.{◌≡◌, fold};
ghost use Rattle.std.specs.Option.{option_copied};
ghost use Rattle.ak_packet.specs.Hashed.{total, total_of, term_of, uid_of, name_of, hashed_gossip, hashed_fields, hashed_carried, hashed_message, hashed};

use crate::carried::{
    ballot_in, carries_nothing, entity_in, number_in, process_in, shard_in, version_in,
};
use ak_address::{Text, Unique};
use ak_clock::Version;
use ak_gossip::Gossip;
use ak_promise::Ballot;
use ak_wire::{Envelope, Message, kind_number};
use std::hash::{Hash, Hasher};

/// Feeds a hash with an envelope: with who sends it to whom, its kind, and numbers of what it carries. Takes no memory.
pub(crate) fn hash_envelope<H: Hasher>(envelope: &Envelope, state: &mut H)
    ensures { state.new ≡ fold H.write state.old (hashed envelope.now) }
{
    envelope.from.hash(state);
    envelope.to.hash(state);
    state.write_u64(envelope.uid);
    hash_message(&envelope.message, state);
}

fn hash_message<H: Hasher>(message: &Message, state: &mut H)
    ensures { state.new ≡ fold H.write state.old (hashed_message message.now) }
{
    state.write_u8(kind_number(message));
    if !carries_nothing(message) {
        hash_carried(message, state);
    }
}

fn hash_carried<H: Hasher>(message: &Message, state: &mut H)
    ensures { state.new ≡ fold H.write state.old (hashed_carried message.now) }
{
    match message {
        Message::Welcome(gossip) => hash_gossip(gossip, state),
        Message::Gossip(gossip) => hash_gossip(gossip, state),
        _ => hash_fields(message, state),
    }
}

// How many entries it knows, and how many have seen it.
fn hash_gossip<H: Hasher>(gossip: &Gossip, state: &mut H)
    ensures { state.new ≡ fold H.write state.old (hashed_gossip gossip.now) }
{
    state.write_u64(total(gossip.version()));
    state.write_u64(gossip.seen().len() as u64);
}

fn hash_fields<H: Hasher>(message: &Message, state: &mut H)
    ensures { state.new ≡ fold H.write state.old (hashed_fields message.now) }
{
    state.write_u64(total_of(version_in(message)));
    state.write_u64(term_of(ballot_in(message)));
    state.write_u64(uid_of(process_in(message)));
    state.write_u64(shard_in(message).unwrap_or(0));
    state.write_u64(number_in(message).unwrap_or(0));
    state.write(name_of(entity_in(message)));
}

// How many entries a version counts, up to what 64 bits hold.
fn total(version: &Version) -> u64
    ensures { result ≡ total version.now }
{
    let mut sum = 0_u64;
    'counts: for index in 0..version.len() {
        if let Some((_, count)) = version.at(index) {
            sum = sum.saturating_add(count);
        }
    }
    sum
}

fn total_of(version: Option<&Version>) -> u64
    ensures { result ≡ total_of (option_copied version.entry) }
{
    match version {
        Some(version) => total(version),
        None => 0,
    }
}

fn term_of(ballot: Option<&Ballot>) -> u64
    ensures { result ≡ term_of (option_copied ballot.entry) }
{
    match ballot {
        Some(ballot) => ballot.term,
        None => 0,
    }
}

fn uid_of(who: Option<&Unique>) -> u64
    ensures { result ≡ uid_of (option_copied who.entry) }
{
    match who {
        Some(who) => who.uid,
        None => 0,
    }
}

fn name_of(entity: Option<&Text>) -> &[u8]
    ensures { result.now ≡ name_of (option_copied entity.entry) }
{
    match entity {
        Some(entity) => entity.bytes(),
        None => &[],
    }
}
