ghost use Rattle.std.specs.Prelude.{◌≡◌, ◌≢◌, List, Some};
ghost use Rattle.std.specs.FinMap as map;
ghost use Rattle.ak_address.specs.Unique.{UniqueModel};
ghost use Rattle.ak_address.specs.Table.{merged_at, value_with};
ghost use Rattle.ak_member.specs.declared.effect.Effect.{Effect};
ghost use Rattle.ak_member.specs.declared.standing.Standing.{Standing};
ghost use Rattle.ak_member.specs.Standing.{Standings, merged_standing, merged_standings, known};
ghost use Rattle.ak_member.specs.View.{View, merged_views, after_effects, RowsAgree};

/// Two standings of one process come to one, in any order and grouping, and the same twice is the same.
pub fn standings_are_merged()
    ensures commutative { (x y : Standing) → merged_standing x y ≡ merged_standing y x }
    ensures associative { (x y z : Standing) → merged_standing (merged_standing x y) z ≡ merged_standing x (merged_standing y z) }
    ensures idempotent { (x : Standing) → merged_standing x x ≡ x }
{}

/// Of each process the merge of two views knows what both know of it. So members and tombstones come to one in any
/// order and grouping too, and the same twice is the same.
pub fn members_are_merged()
    ensures pointwise { (s t : Standings) (who : UniqueModel) → map.get (merged_standings s t) who ≡ merged_at merged_standing (map.get s who) (map.get t who) }
    ensures commutative { (s t : Standings) → merged_standings s t ≡ merged_standings t s }
    ensures associative { (s t u : Standings) → merged_standings (merged_standings s t) u ≡ merged_standings s (merged_standings t u) }
    ensures idempotent { (s : Standings) → merged_standings s s ≡ s }
{}

/// Views come to one in any grouping, and the same twice is the same. They come to one in any order too, where an
/// observer's rows of one number are one row.
pub fn views_are_merged()
    ensures idempotent { (v : View) → merged_views v v ≡ v }
    ensures associative { (u v w : View) → merged_views (merged_views u v) w ≡ merged_views u (merged_views v w) }
    ensures commutative { (v w : View) → RowsAgree v.rows w.rows → merged_views v w ≡ merged_views w v }
{}

/// What effects add to one of two views, or to both, they add to the merge.
pub fn effects_add_to_merges()
    ensures one { (effects : List Effect) (s t : Standings) → after_effects effects (merged_standings s t) ≡ merged_standings (after_effects effects s) t }
    ensures both { (effects : List Effect) (s t : Standings) → after_effects effects (merged_standings s t) ≡ merged_standings (after_effects effects s) (after_effects effects t) }
{}

/// A rise or a removal says something of its process alone: there the standing is merged with what was known, and of
/// every other process the same is known as before.
pub fn effects_change_one_process()
    ensures there { (s : Standings) (who : UniqueModel) (x : Standing) → map.get (known s who x) who ≡ Some (value_with merged_standing (map.get s who) x) }
    ensures elsewhere { (s : Standings) (who other : UniqueModel) (x : Standing) → other ≢ who → map.get (known s who x) other ≡ map.get s other }
{}
