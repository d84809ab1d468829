ghost use Rattle.std.specs.Prelude.{◌≡◌, ◌-◌, ◌∷◌, ◌++◌, codes, IfSome};
ghost use Rattle.ak_address.specs.Spelling.{SpellsAddress, SpellsUnique};
ghost use Rattle.ak_schedule.specs.Line.{words};
ghost use Rattle.ak_schedule.specs.Reading.{Reads, SpellsOne, SpellsTwo};
ghost use Rattle.ak_schedule.specs.Schedule.{SpellsEvent, SpellsWords};

use crate::event::Event;
use crate::fault::LineFault;
use crate::kind::is_text;
use crate::line::{MOST_BYTES, next_word, one_word, three_words, two_words};
use ak_address::{
    Address, AddressFault, Text, Unique, is_address, is_unique, parse_address, parse_number,
    parse_unique,
};
use ak_field::{EntityId, is_entity};
use std::alloc::Global;

const MOST_TICK_WORD: u64 = 4294967295;

const MOST_NUMBER: u64 = 9223372036854775807;

/// The event that the line spells. Refused as `Malformed` exactly where it spells none, whether or not memory would be
/// found; a line that is passed over spells none. Only memory can fail besides, for a line that spells an event. The
/// spellings are this project's choice.
pub fn read_line(alloc: Global, line: &[u8]) -> Result<Event, LineFault>
    ensures { Reads (SpellsEvent line.now) result }
{
    if line.len() > MOST_BYTES {
        return Err(LineFault::Malformed);
    }
    if let Some(packet) = delivered(line) {
        return Ok(Event::Deliver(packet));
    }
    let Some((name, rest)) = next_word(line) else {
        return Err(LineFault::Malformed);
    };
    if is_text(name, b"deliver") {
        return read_deliver(rest);
    }
    read_other(alloc, name, rest)
}

// The packet of a line that is `deliver`, one space and a number, as nearly all lines are: nobody looks for its words. Other lines
// may spell a delivery too, with more spaces.
fn delivered(line: &[u8]) -> Option<u64>
    ensures { IfSome result (λ packet. SpellsWords (words line.now) (Event.Deliver packet)) }
{
    let digits = after_deliver(line)?;
    parse_number(digits, 0, MOST_NUMBER)
}

// What stands after `deliver` and one space.
fn after_deliver(line: &[u8]) -> Option<&[u8]>
    ensures { IfSome result (λ digits. line.now ≡ codes "deliver " ++ digits.now) }
{
    match line {
        [b'd', b'e', b'l', b'i', b'v', b'e', b'r', b' ', digits @ ..] => Some(digits),
        _ => None,
    }
}

// An event that is no delivery, from the first word of its line and the words after it.
fn read_other(alloc: Global, name: &[u8], rest: &[u8]) -> Result<Event, LineFault>
    requires { name.now ≡ codes "deliver" → ⊥ }
    ensures { Reads (SpellsWords (name.now ∷ words rest.now)) result }
{
    if is_text(name, b"start") {
        return read_start(alloc, rest);
    }
    if is_text(name, b"found") {
        return read_found(alloc, rest);
    }
    if is_text(name, b"join") {
        return read_join(alloc, rest);
    }
    if is_text(name, b"tick") {
        return read_tick(alloc, rest);
    }
    if is_text(name, b"leave") {
        return read_leave(alloc, rest);
    }
    if is_text(name, b"down") {
        return read_down(alloc, rest);
    }
    if is_text(name, b"offer") {
        return read_offer(alloc, rest);
    }
    if is_text(name, b"stop") {
        return read_stop(alloc, rest);
    }
    Err(LineFault::Malformed)
}

fn read_start(alloc: Global, rest: &[u8]) -> Result<Event, LineFault>
    ensures { Reads (SpellsWords (codes "start" ∷ words rest.now)) result }
{
    match one_unique(alloc, rest) {
        Ok(who) => return Ok(Event::Start(who)),
        Err(fault) => return Err(fault),
    }
}

fn read_found(alloc: Global, rest: &[u8]) -> Result<Event, LineFault>
    ensures { Reads (SpellsWords (codes "found" ∷ words rest.now)) result }
{
    match one_unique(alloc, rest) {
        Ok(who) => return Ok(Event::Found(who)),
        Err(fault) => return Err(fault),
    }
}

fn read_stop(alloc: Global, rest: &[u8]) -> Result<Event, LineFault>
    ensures { Reads (SpellsWords (codes "stop" ∷ words rest.now)) result }
{
    match one_unique(alloc, rest) {
        Ok(who) => return Ok(Event::Stop(who)),
        Err(fault) => return Err(fault),
    }
}

fn read_leave(alloc: Global, rest: &[u8]) -> Result<Event, LineFault>
    ensures { Reads (SpellsWords (codes "leave" ∷ words rest.now)) result }
{
    match two_uniques(alloc, rest) {
        Ok((who, member)) => return Ok(Event::Leave(who, member)),
        Err(fault) => return Err(fault),
    }
}

fn read_down(alloc: Global, rest: &[u8]) -> Result<Event, LineFault>
    ensures { Reads (SpellsWords (codes "down" ∷ words rest.now)) result }
{
    match two_uniques(alloc, rest) {
        Ok((who, member)) => return Ok(Event::Down(who, member)),
        Err(fault) => return Err(fault),
    }
}

fn read_join(alloc: Global, rest: &[u8]) -> Result<Event, LineFault>
    ensures { Reads (SpellsWords (codes "join" ∷ words rest.now)) result }
{
    let Some((who, target)) = two_words(rest) else {
        return Err(LineFault::Malformed);
    };
    if !is_address(target) {
        return Err(LineFault::Malformed);
    }
    match unique_of(alloc, who) {
        Err(fault) => return Err(fault),
        Ok(who) => match address_of(alloc, target) {
            Ok(target) => return Ok(Event::Join(who, target)),
            Err(fault) => return Err(fault),
        },
    }
}

fn read_tick(alloc: Global, rest: &[u8]) -> Result<Event, LineFault>
    ensures { Reads (SpellsWords (codes "tick" ∷ words rest.now)) result }
{
    let Some((who, word)) = two_words(rest) else {
        return Err(LineFault::Malformed);
    };
    let Some(word) = parse_number(word, 0, MOST_TICK_WORD) else {
        return Err(LineFault::Malformed);
    };
    match unique_of(alloc, who) {
        Ok(who) => return Ok(Event::Tick(who, word as u32)),
        Err(fault) => return Err(fault),
    }
}

fn read_deliver(rest: &[u8]) -> Result<Event, LineFault>
    ensures { Reads (SpellsWords (codes "deliver" ∷ words rest.now)) result }
{
    let Some(packet) = one_word(rest) else {
        return Err(LineFault::Malformed);
    };
    match parse_number(packet, 0, MOST_NUMBER) {
        Some(packet) => return Ok(Event::Deliver(packet)),
        None => return Err(LineFault::Malformed),
    }
}

fn read_offer(alloc: Global, rest: &[u8]) -> Result<Event, LineFault>
    ensures { Reads (SpellsWords (codes "offer" ∷ words rest.now)) result }
{
    let Some((who, entity, payload)) = three_words(rest) else {
        return Err(LineFault::Malformed);
    };
    if !is_entity(entity) {
        return Err(LineFault::Malformed);
    }
    let Some(payload) = parse_number(payload, 0, MOST_NUMBER) else {
        return Err(LineFault::Malformed);
    };
    match unique_of(alloc, who) {
        Err(fault) => return Err(fault),
        Ok(who) => match Text::from_bytes(alloc, entity) {
            Ok(name) => return Ok(Event::Offer(who, EntityId::of(name), payload)),
            Err(error) => return Err(error.into()),
        },
    }
}

// The one word, as a unique.
fn one_unique(alloc: Global, rest: &[u8]) -> Result<Unique, LineFault>
    ensures { Reads (SpellsOne (words rest.now)) result }
{
    match one_word(rest) {
        Some(word) => return unique_of(alloc, word),
        None => return Err(LineFault::Malformed),
    }
}

// The two words, as uniques.
fn two_uniques(alloc: Global, rest: &[u8]) -> Result<(Unique, Unique), LineFault>
    ensures { Reads (SpellsTwo (words rest.now)) result }
{
    let Some((one, other)) = two_words(rest) else {
        return Err(LineFault::Malformed);
    };
    if !is_unique(other) {
        return Err(LineFault::Malformed);
    }
    match unique_of(alloc, one) {
        Err(fault) => return Err(fault),
        Ok(one) => match unique_of(alloc, other) {
            Ok(other) => return Ok((one, other)),
            Err(fault) => return Err(fault),
        },
    }
}

fn unique_of(alloc: Global, word: &[u8]) -> Result<Unique, LineFault>
    ensures { Reads (SpellsUnique word.now) result }
{
    match parse_unique(alloc, word) {
        Ok(unique) => return Ok(unique),
        Err(AddressFault::BadHost) => return Err(LineFault::Malformed),
        Err(AddressFault::BadPort) => return Err(LineFault::Malformed),
        Err(AddressFault::BadUid) => return Err(LineFault::Malformed),
        Err(AddressFault::NoMemory(error)) => return Err(error.into()),
    }
}

fn address_of(alloc: Global, word: &[u8]) -> Result<Address, LineFault>
    ensures { Reads (SpellsAddress word.now) result }
{
    match parse_address(alloc, word) {
        Ok(address) => return Ok(address),
        Err(AddressFault::BadHost) => return Err(LineFault::Malformed),
        Err(AddressFault::BadPort) => return Err(LineFault::Malformed),
        Err(AddressFault::BadUid) => return Err(LineFault::Malformed),
        Err(AddressFault::NoMemory(error)) => return Err(error.into()),
    }
}
