ghost use Rattle.std.specs.Prelude.{◌≡◌, ◌≢◌, ◌↔◌, ℕ, ◌<◌, ◌≤◌, List, length, slice_get, Contains, false, None, Some};
ghost use Rattle.ak_address.specs.Unique.{UniqueModel};
ghost use Rattle.ak_member.specs.Standing.{Standings};
ghost use Rattle.ak_shard_id.specs.declared.report.Report.{Report};
ghost use Rattle.ak_region.specs.declared.slot.Hosting.{Hosting};
ghost use Rattle.ak_region.specs.Shards.{ShardSlot, IsSlot};
ghost use Rattle.ak_region.specs.Slot.{untold, receives, at_home, host_answer, after_host, begun, handed_off, without_stranger};
ghost use Rattle.ak_region.specs.RegionModel.{RegionModel};
ghost use Rattle.ak_region.specs.Region.{slot_of, with_slot, route, after_offer, after_flush, after_forget, waiting_shards, wanted, reports};
ghost use Rattle.ak_region.specs.Reported.{IsReported};

use crate::slot::Hosting;

/// The mark of a shard never falls, whatever is done with the shard; after it is newly hosted its mark is that number, and
/// after it is handed off it is at least that number.
pub fn marks_never_fall()
    ensures hosted { (me : UniqueModel) (number : ℕ) (slot : ShardSlot) → slot.mark ≤ (after_host me number (host_answer number slot) slot).mark }
    ensures newly { (me : UniqueModel) (number : ℕ) (slot : ShardSlot) → host_answer number slot ≡ Hosting.New → (after_host me number (host_answer number slot) slot).mark ≡ number }
    ensures handed_off { (number : ℕ) (slot : ShardSlot) → (slot.mark ≤ (handed_off number slot).mark) × (number ≤ (handed_off number slot).mark) }
    ensures held { (slot : ShardSlot) → (begun slot).mark ≡ slot.mark }
    ensures at_home { (home : UniqueModel) (slot : ShardSlot) → (at_home home slot).mark ≡ slot.mark }
    ensures forgotten { (s : Standings) (slot : ShardSlot) → (without_stranger s slot).mark ≡ slot.mark }
{}

/// A hosted shard's mark is its hosted number, which is positive, and it stays so whatever is done with the shard.
pub fn hosted_numbers_are_marks()
    ensures untold { IsSlot untold }
    ensures hosted { (me : UniqueModel) (number : ℕ) (slot : ShardSlot) → IsSlot slot → IsSlot (after_host me number (host_answer number slot) slot) }
    ensures handed_off { (number : ℕ) (slot : ShardSlot) → IsSlot slot → IsSlot (handed_off number slot) }
    ensures held { (slot : ShardSlot) → IsSlot slot → IsSlot (begun slot) }
    ensures at_home { (home : UniqueModel) (slot : ShardSlot) → IsSlot slot → IsSlot (at_home home slot) }
    ensures forgotten { (s : Standings) (slot : ShardSlot) → IsSlot slot → IsSlot (without_stranger s slot) }
{}

/// A shard is newly hosted exactly where it is not hosted and the number is above its mark. After a hand-off it is hosted
/// exactly where it was, with a number above that of the hand-off; and no number up to that one is hosted newly.
pub fn numbers_fence_late_orders()
    ensures newly { (number : ℕ) (slot : ShardSlot) → (host_answer number slot ≡ Hosting.New) ↔ ((slot.hosted ≡ None) × (slot.mark < number)) }
    ensures again { (number : ℕ) (slot : ShardSlot) → (host_answer number slot ≡ Hosting.Again) ↔ (slot.hosted ≡ Some number) }
    ensures left { (number m : ℕ) (slot : ShardSlot) → ((handed_off number slot).hosted ≡ Some m) ↔ ((slot.hosted ≡ Some m) × (number < m)) }
    ensures fenced { (number late : ℕ) (slot : ShardSlot) → late ≤ number → host_answer late (handed_off number slot) ≢ Hosting.New }
{}

/// What is done with one shard changes no other; and that strangers are forgotten is done with each.
pub fn shards_are_by_themselves()
    ensures own { (region : RegionModel) (shard : ℕ) (slot : ShardSlot) → shard < length region.slots → slot_of (with_slot region shard slot) shard ≡ slot }
    ensures others { (region : RegionModel) (shard other : ℕ) (slot : ShardSlot) → other ≢ shard → slot_of (with_slot region shard slot) other ≡ slot_of region other }
    ensures forgotten { (s : Standings) (region : RegionModel) (shard : ℕ) → slot_of (after_forget s region) shard ≡ without_stranger s (slot_of region shard) }
{}

/// A report stands among those of a region exactly where it is that of one of its shards whose mark is not 0, with the mark,
/// and whether it is hosted; and they ascend by shard.
pub fn reports_are_the_marks()
    ensures exact { (region : RegionModel) (report : Report) → Contains (reports region) report ↔ IsReported region report }
    ensures rising { (region : RegionModel) (i j : ℕ) (a b : Report) → i < j → slice_get (reports region) i ≡ Some a → slice_get (reports region) j ≡ Some b → a.shard < b.shard }
{}

/// A shard is wanted exactly where a message waits for it and it does not receive.
pub fn wanted_shards_have_messages()
    ensures { (region : RegionModel) (shard : ℕ) → Contains (wanted region) shard ↔ (Contains (waiting_shards region) shard × (receives (slot_of region shard) ≡ false)) }
{}

/// No more messages wait than may: a message waits only where there is room, and what leaves makes room.
pub fn no_more_wait_than_may()
    ensures offered { (me : UniqueModel) (region : RegionModel) (entity : List ℕ) (payload : ℕ) → length region.messages ≤ region.most → length (after_offer (route me region entity) (record { entity = entity; payload = payload }) region).messages ≤ region.most }
    ensures flushed { (me : UniqueModel) (shard : ℕ) (region : RegionModel) → length region.messages ≤ region.most → length (after_flush me shard region).messages ≤ region.most }
{}
