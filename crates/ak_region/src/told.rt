ghost use Rattle.std.specs.Prelude.{◌≡◌, ◌<◌, ◌+◌, ◌-◌, ◌++◌, length, replicate, slice_index_or, vec_capacity, option_copied, IfSome};
ghost use Rattle.ak_region.specs.Slot.{untold, receives, other_home, can_flush, is_known_at, host_answer};

use crate::slot::{Hosting, Slot};
use ak_address::Unique;

// What is known of a shard by the slots of those that were told of. Of a shard past their end nothing was told.

// Whether messages to the shard are delivered here.
pub(crate) fn receives_at(told: &[Slot], shard: u32) -> bool
    ensures { result ≡ receives (slice_index_or told.now shard untold) }
{
    match told.get(shard as usize) {
        Some(slot) => slot.receives(),
        None => false,
    }
}

// The other node to which messages to the shard are forwarded, where there is one.
pub(crate) fn home_at<'a>(told: &'a [Slot], me: &Unique, shard: u32) -> Option<&'a Unique>
    ensures { option_copied result ≡ other_home me.now (slice_index_or told.now shard untold) }
{
    match told.get(shard as usize) {
        Some(slot) => slot.other_home(me),
        None => None,
    }
}

// Whether messages that wait for the shard may go.
pub(crate) fn can_flush_at(told: &[Slot], me: &Unique, shard: u32) -> bool
    ensures { result ≡ can_flush me.now (slice_index_or told.now shard untold) }
{
    match told.get(shard as usize) {
        Some(slot) => slot.can_flush(me),
        None => false,
    }
}

// The number with which the shard is hosted, which is its mark.
pub(crate) fn hosted_at(told: &[Slot], shard: u32) -> Option<u64>
    ensures hosted { result ≡ (slice_index_or told.now shard untold).hosted }
    ensures marked { IfSome result (λ number. number ≡ (slice_index_or told.now shard untold).mark) }
{
    match told.get(shard as usize) {
        Some(slot) => slot.hosted,
        None => None,
    }
}

// Whether the shard's home is known to be there, and the shard is not held.
pub(crate) fn is_known_at(told: &[Slot], shard: u32, home: &Unique) -> bool
    ensures { result ≡ is_known_at home.now (slice_index_or told.now shard untold) }
{
    match told.get(shard as usize) {
        Some(slot) => slot.is_known_at(home),
        None => false,
    }
}

// What comes of the order to host the shard with a number.
pub(crate) fn hosting_at(told: &[Slot], shard: u32, number: u64) -> Hosting
    ensures { result ≡ host_answer number (slice_index_or told.now shard untold) }
{
    match told.get(shard as usize) {
        Some(slot) => slot.hosting(number),
        None => Slot::untold().hosting(number),
    }
}

// The slots reach to the shard, for which there is room. Takes no memory.
pub(crate) fn reach(told: &mut Vec<Slot>, shard: u32)
    requires { shard < vec_capacity told.old }
    ensures reached { shard < length told.new.items }
    ensures told { told.new.items ≡ told.old.items ++ replicate (shard + 1 - length told.old.items) untold }
    ensures room { vec_capacity told.new ≡ vec_capacity told.old }
{
    'shards: for _shard in told.len()..shard as usize + 1 {
        told.push_reserved(Slot::untold());
    }
}
