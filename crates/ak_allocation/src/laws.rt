ghost use Rattle.std.specs.Prelude.{◌≡◌, ◌↔◌, ℕ, ◌+◌, ◌<◌, ◌≤◌, List, [], None, Some};
ghost use Rattle.ak_allocation.specs.declared.load.Load.{Load};
ghost use Rattle.ak_allocation.specs.Allocation.{lightest, heaviest, overloaded};
ghost use Rattle.ak_allocation.specs.Meaning.{IsLightest, IsHeaviest};

/// Whoever gets a shard has the fewest, and of those with as many is the first process; there is nobody exactly where there
/// is no load. Whoever gives one away has the most, and of those with as many is the first process, and exceeds the
/// lightest by more than the threshold; nobody does exactly where no load exceeds it so.
pub fn the_chosen_have_least_and_most()
    ensures least { (loads : List Load) (load : Load) → lightest loads ≡ Some load → IsLightest loads load }
    ensures nobody { (loads : List Load) → (lightest loads ≡ None) ↔ (loads ≡ []) }
    ensures most { (loads : List Load) (threshold : ℕ) (load : Load) → overloaded loads threshold ≡ Some load → IsHeaviest loads load × ((light : Load) × IsLightest loads light × (light.shards + threshold < load.shards)) }
    ensures within { (loads : List Load) (threshold : ℕ) → overloaded loads threshold ≡ None → (heavy light : Load) → heaviest loads ≡ Some heavy → lightest loads ≡ Some light → heavy.shards ≤ light.shards + threshold }
{}
