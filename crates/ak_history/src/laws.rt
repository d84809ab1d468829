ghost use Rattle.std.specs.Prelude.{◌≡◌, ◌+◌, ◌≤◌, List, ◌∷◌, ◌++◌, Option, Some};
ghost use Rattle.std.specs.FinMap as map;
ghost use Rattle.ak_address.specs.Unique.{UniqueModel};
ghost use Rattle.ak_clock.specs.Version.{Counts, count, Covers, merged, bumped};
ghost use Rattle.ak_member.specs.declared.effect.Effect.{Effect};
ghost use Rattle.ak_member.specs.declared.standing.Standing.{Standing};
ghost use Rattle.ak_member.specs.View.{Row, after_entry, merged_views, RowsAgree};
ghost use Rattle.ak_history.specs.declared.entry.Entry.{Entry};
ghost use Rattle.ak_history.specs.History.{entries_of, IsNumbered, IsBounded, view};
ghost use Rattle.ak_history.specs.Shown.{Stands, Observes};

/// The join of what two versions show is what their merge shows (Akka's Cluster Specification, "Gossip": the state of a
/// cluster converges as updates are gossiped).
pub fn views_are_merged()
    ensures { (history : List Entry) (v w : Counts) → IsNumbered history → merged_views (view history v) (view history w) ≡ view history (merged v w) }
{}

/// Entries that are made later change nothing for a version that counts no more entries than the history has.
pub fn later_entries_change_nothing()
    ensures { (more history : List Entry) (v : Counts) → IsNumbered (more ++ history) → IsBounded history v → view (more ++ history) v ≡ view history v }
{}

/// The author's next entry adds what it says to what its version showed, where that counts all of the author's entries.
pub fn an_update_adds_its_entry()
    ensures { (author : UniqueModel) (effects : List Effect) (history : List Entry) (v : Counts) → IsNumbered history → count v author ≡ entries_of author history
        → view (record { author = author; number = count v author + 1; effects = effects } ∷ history) (bumped v author) ≡ after_entry author (count v author + 1) effects (view history v) }
{}

/// A row's number is from 1 on, and at most what the version counts of its observer and how many entries the observer
/// has.
pub fn rows_are_counted()
    ensures { (history : List Entry) (v : Counts) (o : UniqueModel) (row : Row) → IsNumbered history → map.get (view history v).rows o ≡ Some row
        → (1 ≤ row.number) × (row.number ≤ count v o) × (row.number ≤ entries_of o history) }
{}

/// A version that covers another shows whatever that one shows: merged with the greater view nothing changes.
pub fn covering_versions_show_more()
    ensures { (history : List Entry) (v w : Counts) → IsNumbered history → Covers w v → merged_views (view history v) (view history w) ≡ view history w }
{}

/// In one history, rows of one observer and one number are one row, whatever the versions.
pub fn rows_of_a_history_agree()
    ensures { (history : List Entry) (v w : Counts) → IsNumbered history → RowsAgree (view history v).rows (view history w).rows }
{}

/// What a version shows is what the entries did that it covers: a process is a tombstone where one of them removed it,
/// and else a member where one of them names it, with the greatest status and the least number other than 0 of them;
/// the row of an observer is that of its last entry that observes.
pub fn views_show_entries()
    ensures standing { (history : List Entry) (v : Counts) (who : UniqueModel) → Stands history v who (map.get (view history v).standings who) }
    ensures row { (history : List Entry) (v : Counts) (observer : UniqueModel) → IsNumbered history → Observes history v observer (map.get (view history v).rows observer) }
{}

/// The entries that a version covers allow one standing of a process and one row of an observer, so what the version
/// shows is all that can be said by them.
pub fn entries_allow_one_view()
    ensures standing { (history : List Entry) (v : Counts) (who : UniqueModel) (one other : Option Standing) → Stands history v who one → Stands history v who other → one ≡ other }
    ensures row { (history : List Entry) (v : Counts) (observer : UniqueModel) (one other : Option Row) → IsNumbered history → Observes history v observer one → Observes history v observer other → one ≡ other }
{}
