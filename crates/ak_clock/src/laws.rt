ghost use Rattle.std.specs.Prelude.{◌≡◌, ◌≢◌, ℕ, ◌+◌, ◌↔◌, max};
ghost use Rattle.ak_address.specs.Unique.{UniqueModel};
ghost use Rattle.ak_clock.specs.Version.{Counts, count, Covers, IsVersion, relation, Relates, merged, bumped, reaching};

use crate::version::Relation;

/// Covering is a partial order of versions: each covers itself, covers what a covered one covers, and two that
/// cover each other are equal.
pub fn covering_is_an_order()
    ensures reflexive { (v : Counts) → Covers v v }
    ensures transitive { (u v w : Counts) → Covers u v → Covers v w → Covers u w }
    ensures antisymmetric { (v w : Counts) → IsVersion v → IsVersion w → Covers v w → Covers w v → v ≡ w }
{}

/// The merge counts the greater of two counts, covers both versions, and is covered by each version that does.
pub fn merge_is_the_least_cover()
    ensures counts { (v w : Counts) (u : UniqueModel) → count (merged v w) u ≡ max (count v u) (count w u) }
    ensures covers { (v w : Counts) → Covers (merged v w) v × Covers (merged v w) w }
    ensures least { (u v w : Counts) → Covers u v → Covers u w → Covers u (merged v w) }
{}

/// The order and the grouping of merges do not matter, nor does a merge that comes twice.
pub fn merges_in_any_order()
    ensures commutative { (v w : Counts) → merged v w ≡ merged w v }
    ensures associative { (u v w : Counts) → merged (merged u v) w ≡ merged u (merged v w) }
    ensures idempotent { (v : Counts) → merged v v ≡ v }
{}

/// A bump adds one to the count of its author and keeps all others.
pub fn bump_raises_one_count()
    ensures author { (v : Counts) (u : UniqueModel) → count (bumped v u) u ≡ count v u + 1 }
    ensures others { (v : Counts) (u q : UniqueModel) → q ≢ u → count (bumped v u) q ≡ count v q }
{}

/// Reaching a count raises the count of one process to it, where it was less, and keeps all others.
pub fn reaching_raises_one_count()
    ensures there { (v : Counts) (u : UniqueModel) (n : ℕ) → count (reaching v u n) u ≡ max n (count v u) }
    ensures others { (v : Counts) (u q : UniqueModel) (n : ℕ) → q ≢ u → count (reaching v u n) q ≡ count v q }
{}

/// Of the four relations exactly one holds between two versions, the one that `relation` names.
pub fn relations_are_exact()
    ensures { (r : Relation) (v w : Counts) → IsVersion v → IsVersion w → (relation v w ≡ r) ↔ Relates r v w }
{}
