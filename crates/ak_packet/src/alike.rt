ghost use Rattle.std.specs.Prelude.{◌≡◌, ◌↔◌, IsTrue};
ghost use Rattle.ak_packet.specs.Alike.{bare, bare_gossip, bare_message};
ghost use Rattle.ak_packet.specs.Carried.{ballot_in, promised_in, version_in, reports_in, process_in, entity_in, shard_in, number_in, CarriesSame};

use crate::carried::{
    ballot_in, carries_nothing, entity_in, number_in, process_in, promised_in, reports_in,
    shard_in, version_in,
};
use crate::same::{Same, is_same_option};
use ak_gossip::Gossip;
use ak_wire::{Envelope, Message, kind_number};

/// Whether two packets say the same, but for what the versions in them show. Takes no memory.
pub(crate) fn is_alike(one: &Envelope, other: &Envelope) -> bool
    ensures { IsTrue result ↔ bare one.now ≡ bare other.now }
{
    one.uid == other.uid
        && one.from.is(&other.from)
        && one.to.is(&other.to)
        && says_alike(&one.message, &other.message)
}

// Most packets carry a gossip or nothing, so that these are told first.
fn says_alike(one: &Message, other: &Message) -> bool
    ensures { IsTrue result ↔ bare_message one.now ≡ bare_message other.now }
{
    match (one, other) {
        (Message::Welcome(one), Message::Welcome(other)) => is_alike_gossip(one, other),
        (Message::Gossip(one), Message::Gossip(other)) => is_alike_gossip(one, other),
        _ => {
            kind_number(one) == kind_number(other)
                && (carries_nothing(one) || carries_same(one, other))
        }
    }
}

// Whether both are the same version, which the same have seen.
fn is_alike_gossip(one: &Gossip, other: &Gossip) -> bool
    ensures { IsTrue result ↔ bare_gossip one.now ≡ bare_gossip other.now }
{
    one.version().is_same(other.version()) && one.seen().is_same(other.seen())
}

// Whether two messages carry the same, beside their kinds and a gossip.
fn carries_same(one: &Message, other: &Message) -> bool
    ensures { IsTrue result ↔ CarriesSame one.now other.now }
{
    reports_same(one, other)
        && asks_same(one, other)
        && names_same(one, other)
        && numbers_same(one, other)
}

fn reports_same(one: &Message, other: &Message) -> bool
    ensures { IsTrue result ↔ ((version_in one.now ≡ version_in other.now) × (reports_in one.now ≡ reports_in other.now)) }
{
    is_same_option(version_in(one), version_in(other))
        && is_same_option(reports_in(one), reports_in(other))
}

fn asks_same(one: &Message, other: &Message) -> bool
    ensures { IsTrue result ↔ ((ballot_in one.now ≡ ballot_in other.now) × (promised_in one.now ≡ promised_in other.now)) }
{
    is_same_option(ballot_in(one), ballot_in(other))
        && is_same_option(promised_in(one), promised_in(other))
}

fn names_same(one: &Message, other: &Message) -> bool
    ensures { IsTrue result ↔ ((process_in one.now ≡ process_in other.now) × (entity_in one.now ≡ entity_in other.now)) }
{
    is_same_option(process_in(one), process_in(other))
        && is_same_option(entity_in(one), entity_in(other))
}

fn numbers_same(one: &Message, other: &Message) -> bool
    ensures { IsTrue result ↔ ((shard_in one.now ≡ shard_in other.now) × (number_in one.now ≡ number_in other.now)) }
{
    is_same_number(shard_in(one), shard_in(other))
        && is_same_number(number_in(one), number_in(other))
}

fn is_same_number(one: Option<u64>, other: Option<u64>) -> bool
    ensures { IsTrue result ↔ one ≡ other }
{
    match (one, other) {
        (None, None) => true,
        (Some(one), Some(other)) => one == other,
        _ => false,
    }
}
