ghost use Rattle.std.specs.Prelude.{◌≡◌, ◌≢◌, ◌≤◌, ◌<◌, ◌++◌, ◌∷◌, [], nat_le, true, false, if◌then◌else◌, slice_index_or, slice_set, length, map, IfOk, OnOk, OnErr};
ghost use Rattle.ak_shard_id.specs.Division.{many_shards};
ghost use Rattle.ak_region.specs.Slot.{receives};
ghost use Rattle.ak_region.specs.Stored.{all_slots};
ghost use Rattle.ak_region.specs.Region.{kept, those_for, others_than_for};
ghost use Rattle.ak_region.specs.Turns.{after_wait, turn_left, turn_gone, wanted_among};

use crate::region::{Offered, Waiting};
use crate::slot::Slot;
use crate::told::receives_at;
use ak_address::Text;
use ak_shard_id::Division;
use circular_buffer::HeapCircularBuffer;
use std::alloc::{AllocError, Global};

// How many messages a buffer has room for at first.
const FIRST_CAPACITY: usize = 16;

// Room for one more message, where fewer wait than may: a full buffer becomes twice as large.
fn make_room(buffer: &mut HeapCircularBuffer<Waiting>, most: usize) -> Result<(), AllocError>
    requires { length buffer.old.items < most }
    ensures room { OnOk result (length buffer.new.items < buffer.new.capacity) }
    ensures same { buffer.new.items ≡ buffer.old.items }
{
    let capacity = buffer.capacity();
    if buffer.len() < capacity {
        return Ok(());
    }
    buffer.resize((capacity * 2).max(FIRST_CAPACITY).min(most))
}

// The message waits at the end, where there is room.
pub(crate) fn wait(
    buffer: &mut HeapCircularBuffer<Waiting>,
    most: u32,
    entity: Text,
    payload: u64,
) -> Result<Offered, AllocError>
    ensures answer { IfOk result (λ offered. offered ≡ kept (nat_le most (length buffer.old.items)) entity None) }
    ensures after { IfOk result (λ offered. buffer.new.items ≡ after_wait offered (record { entity = entity; payload = payload }) buffer.old.items) }
    ensures err { OnErr result ((nat_le most (length buffer.old.items) ≡ false) × (buffer.new.items ≡ buffer.old.items)) }
{
    if buffer.len() >= most as usize {
        return Ok(Offered::Dropped(entity));
    }
    make_room(buffer, most as usize)?;
    match buffer.try_push_back(Waiting { entity, payload }) {
        Ok(()) => Ok(Offered::Buffered),
        Err(waiting) => Ok(Offered::Dropped(waiting.entity)),
    }
}

// The first message goes, where it is for the shard; else it goes to the end.
fn turn(
    buffer: &mut HeapCircularBuffer<Waiting>,
    gone: &mut Vec<Waiting>,
    division: &Division,
    shard: u32,
) -> Result<(), AllocError>
    requires within { length buffer.old.items ≤ buffer.old.capacity }
    ensures left { OnOk result (buffer.new.items ≡ turn_left division.now shard buffer.old.items) }
    ensures gone { OnOk result (gone.new.items ≡ gone.old.items ++ turn_gone division.now shard buffer.old.items) }
    ensures memory { OnErr result (turn_gone division.now shard buffer.old.items ≢ []) }
    ensures shorter { length buffer.new.items ≤ length buffer.old.items }
    ensures capacity { buffer.new.capacity ≡ buffer.old.capacity }
{
    if let Some(waiting) = buffer.pop_front() {
        if division.shard_in(waiting.entity.bytes()) == shard {
            gone.push(waiting)?;
        } else {
            let _ = buffer.try_push_back(waiting);
        }
    }
    Ok(())
}

// The messages for the shard leave the buffer, and the others keep their order: each has its turn.
pub(crate) fn take_those_for(
    alloc: Global,
    buffer: &mut HeapCircularBuffer<Waiting>,
    division: &Division,
    shard: u32,
) -> Result<Vec<Waiting>, AllocError>
    ensures gone { IfOk result (λ gone. gone.items ≡ those_for division.now shard buffer.old.items) }
    ensures left { OnOk result (buffer.new.items ≡ others_than_for division.now shard buffer.old.items) }
    ensures memory { OnErr result (those_for division.now shard buffer.old.items ≢ []) }
    ensures shorter { length buffer.new.items ≤ length buffer.old.items }
{
    let mut gone = Vec::new(alloc);
    'turns: for _turn in 0..buffer.len() {
        turn(buffer, &mut gone, division, shard)?;
    }
    Ok(gone)
}

// Notes a shard as wanted, where it was not passed over; from then on it is.
fn note(passed: &mut Vec<bool>, wanted: &mut Vec<u32>, shard: u32) -> Result<(), AllocError>
    requires { shard < length passed.old.items }
    ensures passed { passed.new.items ≡ slice_set passed.old.items shard true }
    ensures wanted { OnOk result (wanted.new.items ≡ (if slice_index_or passed.old.items shard false then wanted.old.items else wanted.old.items ++ shard ∷ [])) }
{
    let has_passed = passed[shard as usize];
    passed[shard as usize] = true;
    if has_passed {
        return Ok(());
    }
    wanted.push(shard)?;
    Ok(())
}

// Which of so many shards receive.
fn receiving(alloc: Global, told: &[Slot], shards: u32) -> Result<Vec<bool>, AllocError>
    requires { length told.now ≤ shards }
    ensures { IfOk result (λ passed. passed.items ≡ map receives (all_slots shards told.now)) }
{
    let mut passed = Vec::with_capacity(alloc, shards as usize)?;
    'told: for slot in told {
        passed.push(slot.receives())?;
    }
    'untold: for _shard in told.len()..shards as usize {
        passed.push(false)?;
    }
    Ok(passed)
}

// Whether a message waits for a shard that does not receive. Mostly the first one does.
fn any_wanted(
    told: &[Slot],
    division: &Division,
    shards: u32,
    buffer: &HeapCircularBuffer<Waiting>,
) -> bool
    requires all { shards ≡ many_shards division.now }
    requires told { length told.now ≤ shards }
    ensures none { result ≡ false → wanted_among division.now (all_slots shards told.now) buffer.now.items ≡ [] }
    ensures some { result ≡ true → wanted_among division.now (all_slots shards told.now) buffer.now.items ≢ [] }
{
    'messages: for index in 0..buffer.len() {
        if let Some(waiting) = buffer.get(index) {
            let shard = division.shard_in(waiting.entity.bytes());
            if !receives_at(told, shard) {
                return true;
            }
        }
    }
    false
}

// The shards for which a message waits and which do not receive.
pub(crate) fn wanted_in(
    alloc: Global,
    told: &[Slot],
    division: &Division,
    shards: u32,
    buffer: &HeapCircularBuffer<Waiting>,
) -> Result<Vec<u32>, AllocError>
    requires all { shards ≡ many_shards division.now }
    requires told { length told.now ≤ shards }
    ensures found { IfOk result (λ wanted. wanted.items ≡ wanted_among division.now (all_slots shards told.now) buffer.now.items) }
    ensures memory { OnErr result (wanted_among division.now (all_slots shards told.now) buffer.now.items ≢ []) }
{
    if !any_wanted(told, division, shards, buffer) {
        return Ok(Vec::new(alloc));
    }
    let mut passed = receiving(alloc, told, shards)?;
    let mut wanted = Vec::new(alloc);
    'messages: for index in 0..buffer.len() {
        if let Some(waiting) = buffer.get(index) {
            let shard = division.shard_in(waiting.entity.bytes());
            note(&mut passed, &mut wanted, shard)?;
        }
    }
    Ok(wanted)
}
