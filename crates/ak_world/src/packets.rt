//! The packets of a world.

ghost use Rattle.std.specs.Prelude.{◌≡◌, ◌<◌, ◌^◌, ◌++◌, ◌∷◌, [], length, IfSome, OnOk, OnErr};
ghost use Rattle.std.specs.Option.{option_copied};
ghost use Rattle.ak_wire.specs.Datagram.{IsValid};
ghost use Rattle.ak_world.specs.World.{numbered};
ghost use Rattle.ak_world.specs.Stored.{AreToldApart, StandsAt, different, place_at};

use crate::world::MOST_STARTS;
use ak_packet::Packet;
use ak_wire::{Message, SharedEnvelope};
use indexmap::IndexSet;
use std::alloc::{AllocError, Global};
use std::marker::Model;

/// The packets that were sent, in their order. Each different one is stored once, and each that was sent has the place of it, so
/// that a heartbeat that is sent again and again takes a number and no more (this project's choice). The set hashes as std does
/// where nothing is said: the same in each run, and no hasher of the kit asks less of a processor. Contracts see the packets.
#[derive(Drop)]
pub(crate) struct Packets {
    stored: IndexSet<Packet>,
    places: Vec<usize>,
    // By their start numbers, the place of what each node sent last: a node that asks to be let in sends the same at each tick.
    last: [usize; MOST_STARTS],
}

impl Model for Packets {
    ghost use Rattle.std.specs.Prelude.{List};
    ghost use Rattle.std.specs.Coded.{codes};
    ghost use Rattle.ak_address.specs.Unique.{coded_address, coded_unique};
    ghost use Rattle.ak_gossip.specs.Gossip.{coded_gossip};
    ghost use Rattle.ak_member.specs.View.{coded_uniques};
    ghost use Rattle.ak_promise.specs.Ballot.{coded_ballot};
    ghost use Rattle.ak_clock.specs.Version.{coded_counts};
    ghost use Rattle.ak_wire.specs.declared.envelope.Envelope.{Envelope};
    ghost use Rattle.ak_world.specs.Stored.{at_places, AreStored};

    ghost Value = { List Envelope };

    ghost coded = { Prim.hlevel (codes, coded_address, coded_unique, coded_uniques, coded_gossip, coded_ballot, coded_counts) };

    ghost view = { λ p. at_places p.stored.keys p.places.items };

    ghost invariant = { λ p. AreStored p.stored.keys p.places.items };
}

impl Packets {
    /// No packet. Takes no memory.
    pub(crate) fn none(alloc: Global) -> Packets
        ensures { result ≡ [] }
    {
        Packets {
            stored: IndexSet::new(alloc),
            places: Vec::new(alloc),
            last: [0; MOST_STARTS],
        }
    }

    /// How many packets were sent.
    pub(crate) fn len(&self) -> usize
        ensures value { result ≡ length self.now }
        ensures small { result < 2 ^ 63 }
    {
        self.places.len()
    }

    /// How many different packets are stored: those with the same bytes count once.
    pub(crate) fn stored(&self) -> u64
        ensures { result ≡ different self.now }
    {
        self.stored.len() as u64
    }

    /// The packet of a number from 1 on.
    pub(crate) fn at(&self, number: u64) -> Option<&Packet>
        ensures { option_copied result ≡ numbered self.now number }
    {
        match place_at(&self.places, number) {
            Some(place) => self.stored.get_index(place),
            None => None,
        }
    }

    /// One more packet, which is shared, of the node of this start number. It is stored where none with the same bytes is; that is
    /// asked by its hash, so that nobody looks at all packets, and by the versions of gossips, so that nobody compares what two
    /// show: among packets of one world, those that are alike are the same. A request is compared first with what the node sent
    /// last. An error leaves the packets as they were; only memory can fail.
    pub(crate) fn push(&mut self, from: usize, envelope: &SharedEnvelope) -> Result<(), AllocError>
        requires valid { IsValid envelope.now }
        requires apart { AreToldApart (self.old ++ envelope.now ∷ []) }
        ensures ok { OnOk result (self.new ≡ self.old ++ envelope.now ∷ []) }
        ensures err { OnErr result (self.new ≡ self.old) }
    {
        let packet = Packet::of(envelope)?;
        self.places.reserve(1)?;
        if let Some(place) = asked_before(&self.stored, self.last.get(from), &packet) {
            self.places.push_reserved(place);
            return Ok(());
        }
        let (place, _) = self.stored.insert_full(packet)?;
        self.places.push_reserved(place);
        note(&mut self.last, from, place);
        Ok(())
    }

    /// No packet any more.
    pub(crate) fn clear(&mut self)
        ensures { self.new ≡ [] }
    {
        self.stored.clear();
        self.places.clear();
    }
}

// The place of what a node sent last is noted by its start number.
fn note(last: &mut [usize], from: usize, place: usize) {
    if let Some(noted) = last.get_mut(from) {
        *noted = place;
    }
}

// The place of a request to be let in, where it is what its node sent last.
fn asked_before(stored: &IndexSet<Packet>, last: Option<&usize>, packet: &Packet) -> Option<usize>
    ensures { IfSome result (StandsAt stored.now.keys packet.now) }
{
    let Message::Join = packet.envelope().message else {
        return None;
    };
    let place = *last?;
    if packet == stored.get_index(place)? {
        return Some(place);
    }
    None
}

// The place of the packet of a number from 1 on.
fn place_at(places: &[usize], number: u64) -> Option<usize>
    ensures { result ≡ place_at places.now number }
{
    if number == 0 {
        return None;
    }
    let index = usize::try_from(number - 1).ok()?;
    places.get(index).copied()
}
