ghost use Rattle.std.specs.Prelude.{◌≡◌, ◌↔◌, ◌⊎◌, ℕ, ◌+◌, ◌^◌, ◌<◌, ◌≤◌, max, Bool, true, false, List, [], length, Contains, None, Some, if◌then◌else◌};
ghost use Rattle.ak_address.specs.Unique.{UniqueModel};
ghost use Rattle.ak_allocation.specs.declared.load.Load.{Load};
ghost use Rattle.ak_allocation.specs.Meaning.{IsLightest};
ghost use Rattle.ak_settled.specs.SettledView.{SettledView};
ghost use Rattle.ak_settled.specs.Settled.{is_finished};
ghost use Rattle.ak_shard_id.specs.declared.report.Report.{Report};
ghost use Rattle.ak_coordinator.specs.declared.orders.Order.{Order};
ghost use Rattle.ak_coordinator.specs.Table.{Home, ShardEntry, ShardTable, IsEntry};
ghost use Rattle.ak_coordinator.specs.Entry.{unplaced, moves, learnt, allotted, after_get_home, after_started, after_ack, awaits_stop};
ghost use Rattle.ak_coordinator.specs.Coordinator.{entry_of, learnt_all, after_stopped};
ghost use Rattle.ak_coordinator.specs.Tick.{noticed, hurried, orders_of, orders_from};
ghost use Rattle.ak_coordinator.specs.Meaning.{claimed, learnt_of, IsFor};

/// The last number of a shard never falls.
pub fn last_numbers_never_fall()
    ensures learnt { (asking : Bool) (from : UniqueModel) (report : Report) (entry : ShardEntry) → entry.last ≤ (learnt asking from report entry).last }
    ensures asked { (loads : List Load) (entry : ShardEntry) → entry.last ≤ (after_get_home loads entry).last }
    ensures started { (from : UniqueModel) (number : ℕ) (entry : ShardEntry) → (after_started from number entry).last ≡ entry.last }
    ensures acked { (from : UniqueModel) (number : ℕ) (entry : ShardEntry) → (after_ack from number entry).last ≡ entry.last }
    ensures stopped { (from : UniqueModel) (number : ℕ) (loads : List Load) (entry : ShardEntry) → entry.last ≤ (after_stopped from number loads entry).last }
    ensures noticed { (margin : ℕ) (settled : SettledView) (entry : ShardEntry) → (noticed margin settled entry).last ≡ entry.last }
    ensures hurried { (entry : ShardEntry) → (hurried entry).last ≡ entry.last }
{}

/// A home's number is at most the shard's last number, and a shard without a home does not move; it stays so whatever is
/// done with the shard.
pub fn home_numbers_are_within()
    ensures unplaced { IsEntry unplaced }
    ensures learnt { (asking : Bool) (from : UniqueModel) (report : Report) (entry : ShardEntry) → IsEntry entry → IsEntry (learnt asking from report entry) }
    ensures asked { (loads : List Load) (entry : ShardEntry) → IsEntry entry → IsEntry (after_get_home loads entry) }
    ensures started { (from : UniqueModel) (number : ℕ) (entry : ShardEntry) → IsEntry entry → IsEntry (after_started from number entry) }
    ensures acked { (from : UniqueModel) (number : ℕ) (entry : ShardEntry) → IsEntry entry → IsEntry (after_ack from number entry) }
    ensures stopped { (from : UniqueModel) (number : ℕ) (loads : List Load) (entry : ShardEntry) → IsEntry entry → IsEntry (after_stopped from number loads entry) }
    ensures noticed { (margin : ℕ) (settled : SettledView) (entry : ShardEntry) → IsEntry entry → IsEntry (noticed margin settled entry) }
    ensures hurried { (entry : ShardEntry) → IsEntry entry → IsEntry (hurried entry) }
{}

/// Learning takes the greater number; and where the node hosts the shard, it is the home, with that number, where there is
/// none, or, only while the coordinator asks, where its number is greater or equal and it is the later process. What is
/// learnt of one shard is what its own reports say.
pub fn learning_takes_the_greater()
    ensures last { (asking : Bool) (from : UniqueModel) (report : Report) (entry : ShardEntry) → (learnt asking from report entry).last ≡ max entry.last report.number }
    ensures home { (asking : Bool) (from : UniqueModel) (report : Report) (entry : ShardEntry) → (learnt asking from report entry).home ≡ (if report.hosted then claimed asking from report.number entry.home else entry.home) }
    ensures each { (asking : Bool) (from : UniqueModel) (reports : List Report) (table : ShardTable) (shard : ℕ) → shard < length table → entry_of (learnt_all asking from reports table) shard ≡ learnt_of asking from shard reports (entry_of table shard) }
    ensures many { (asking : Bool) (from : UniqueModel) (reports : List Report) (table : ShardTable) → length (learnt_all asking from reports table) ≡ length table }
{}

/// A shard is placed at the lightest of the given loads, with its last number plus one, which is at most
/// 4611686018427387904; it is placed nowhere exactly where there is no load or its last number is that bound already.
pub fn shards_are_placed_at_given_loads()
    ensures placed { (loads : List Load) (entry : ShardEntry) (home : Home) → allotted loads entry ≡ Some home → ((load : Load) × IsLightest loads load × (home.owner ≡ load.unique)) × (home.number ≡ entry.last + 1) × (home.number ≤ 2 ^ 62) }
    ensures nowhere { (loads : List Load) (entry : ShardEntry) → (allotted loads entry ≡ None) ↔ ((loads ≡ []) ⊎ (2 ^ 62 ≤ entry.last)) }
{}

/// A stop is awaited exactly where the shard moves, and its home and number are those; any other changes nothing. A tick
/// frees only a shard whose home is finished.
pub fn only_awaited_stops_free()
    ensures awaited { (from : UniqueModel) (number : ℕ) (entry : ShardEntry) → (awaits_stop from number entry ≡ true) ↔ ((moves entry ≡ true) × (entry.home ≡ Some (record { owner = from; number = number }))) }
    ensures others { (from : UniqueModel) (number : ℕ) (loads : List Load) (entry : ShardEntry) → awaits_stop from number entry ≡ false → after_stopped from number loads entry ≡ entry }
    ensures noticed { (margin : ℕ) (settled : SettledView) (entry : ShardEntry) (home : Home) → entry.home ≡ Some home → (noticed margin settled entry).home ≡ (if is_finished margin settled home.owner then None else Some home) }
{}

/// What is ordered is ordered of one of the shards: the home is told to host or to hand off, and whoever is waited for that
/// the hand-off begins, each with the home's number.
pub fn orders_are_for_homes()
    ensures each { (table : ShardTable) (given : Order) → Contains (orders_from 0 table) given ↔ ((shard : ℕ) × (shard < length table) × Contains (orders_of shard (entry_of table shard)) given) }
    ensures meaning { (shard : ℕ) (entry : ShardEntry) (given : Order) → Contains (orders_of shard entry) given → IsFor shard entry given }
{}
