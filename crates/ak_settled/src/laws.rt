ghost use Rattle.std.specs.Prelude.{◌≡◌, ◌≢◌, ◌↔◌, ◌≤◌, ◌⊎◌, ℕ, Bool, true, false, not, Some, None, IsSome, IsTrue, Contains};
ghost use Rattle.std.specs.FinMap as map;
ghost use Rattle.ak_address.specs.Counters.{counter};
ghost use Rattle.ak_address.specs.Unique.{UniqueModel};
ghost use Rattle.ak_address.specs.Uniques.{has};
ghost use Rattle.ak_clock.specs.Version.{Counts, Covers};
ghost use Rattle.ak_member.specs.Standing.{Standings, member_of, tombstone_of};
ghost use Rattle.ak_settled.specs.SettledView.{SettledView};
ghost use Rattle.ak_settled.specs.Settled.{version_of, standings_of, counters_of, noted_as, ticked, ending, is_finished, needed, candidate, IsCounting};

use ak_member::Status;

/// Who is finished is a tombstone of the settled view, confirmed or with its counter at the margin.
pub fn finished_are_tombstones()
    ensures { (margin : ℕ) (settled : SettledView) (who : UniqueModel) → IsTrue (is_finished margin settled who) → (confirmed : Bool) × (tombstone_of (map.get (standings_of settled) who) ≡ Some confirmed) × (IsTrue confirmed ⊎ (counter (counters_of settled) who ≡ margin)) }
{}

/// Of those whom the settled view knows, a Joining member is neither needed nor finished, any other member is needed and
/// not finished, and a tombstone is either needed or finished and never both. Nobody else is needed or finished.
pub fn known_ones_are_needed_or_finished()
    ensures joining { (margin : ℕ) (settled : SettledView) (who : UniqueModel) (number : ℕ) → member_of (map.get (standings_of settled) who) ≡ Some (Status.Joining, number) → (has (needed margin settled) who ≡ false) × (is_finished margin settled who ≡ false) }
    ensures member { (margin : ℕ) (settled : SettledView) (who : UniqueModel) (status : Status) (number : ℕ) → member_of (map.get (standings_of settled) who) ≡ Some (status, number) → status ≢ Status.Joining → IsTrue (has (needed margin settled) who) × (is_finished margin settled who ≡ false) }
    ensures tombstone { (margin : ℕ) (settled : SettledView) (who : UniqueModel) → IsSome (tombstone_of (map.get (standings_of settled) who)) → has (needed margin settled) who ≡ not (is_finished margin settled who) }
    ensures unknown { (margin : ℕ) (settled : SettledView) (who : UniqueModel) → map.get (standings_of settled) who ≡ None → (has (needed margin settled) who ≡ false) × (is_finished margin settled who ≡ false) }
{}

/// Without a settled view nobody is needed or finished, and nobody is the candidate.
pub fn nobody_is_needed_without_a_view()
    ensures { (margin : ℕ) (who : UniqueModel) → (has (needed margin None) who ≡ false) × (is_finished margin None who ≡ false) × (candidate None ≡ None) }
{}

/// The candidate is needed, and is no tombstone of the settled view.
pub fn candidate_is_needed()
    ensures { (margin : ℕ) (settled : SettledView) (who : UniqueModel) → candidate settled ≡ Some who → IsTrue (has (needed margin settled) who) × (tombstone_of (map.get (standings_of settled) who) ≡ None) }
{}

/// A noted version covers the one before. An unconfirmed tombstone keeps its counter, 0 where it had none. Whoever is
/// finished after a note is confirmed there, or was finished before.
pub fn notes_finish_confirmed_ones()
    ensures covers { (version : Counts) (s : Standings) (before : SettledView) → Covers version (version_of before) → Covers (version_of (noted_as version s before)) (version_of before) }
    ensures counter { (version : Counts) (s : Standings) (before : SettledView) (who : UniqueModel) → tombstone_of (map.get s who) ≡ Some false → counter (counters_of (noted_as version s before)) who ≡ counter (counters_of before) who }
    ensures finished { (margin : ℕ) (version : Counts) (s : Standings) (before : SettledView) (who : UniqueModel) → 1 ≤ margin → IsCounting margin before → IsTrue (is_finished margin (noted_as version s before) who) → (tombstone_of (map.get s who) ≡ Some true) ⊎ IsTrue (is_finished margin before who) }
{}

/// Whoever is finished after a tick was finished before or is among those that just ended, and back; and those were not
/// finished before.
pub fn ticks_finish_the_just_ended()
    ensures finished { (margin : ℕ) (settled : SettledView) (who : UniqueModel) → IsCounting margin settled → IsTrue (is_finished margin (ticked margin settled) who) ↔ (IsTrue (is_finished margin settled who) ⊎ Contains (ending margin settled) who) }
    ensures ended { (margin : ℕ) (settled : SettledView) (who : UniqueModel) → IsCounting margin settled → Contains (ending margin settled) who → is_finished margin settled who ≡ false }
{}

/// Counters that are counted towards one margin stay so: none exceeds it, and only unconfirmed tombstones have one.
pub fn counting_goes_on()
    ensures none { (margin : ℕ) → IsCounting margin None }
    ensures noted { (margin : ℕ) (version : Counts) (s : Standings) (before : SettledView) → IsCounting margin before → IsCounting margin (noted_as version s before) }
    ensures ticked { (margin : ℕ) (settled : SettledView) → IsCounting margin settled → IsCounting margin (ticked margin settled) }
{}
