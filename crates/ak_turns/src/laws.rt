ghost use Rattle.std.specs.Prelude.{◌≡◌, ℕ, List};
ghost use Rattle.ak_config.specs.declared.config.Config.{Config};
ghost use Rattle.ak_turns.specs.declared.happening.Happening.{Happening};
ghost use Rattle.ak_turns.specs.Turns.{Turn, Come, HearBytes};

/// What comes to a node is determined by its configuration, the first reading of its clock and its turns. So the steps of a run, its
/// text and its packets follow from what the node heard, what its clock read and which of its sends were lost.
pub fn turns_determine_what_comes()
    ensures { (c : Config) (first : ℕ) (turns : List Turn) (one other : List Happening) → HearBytes turns → Come c first turns one → Come c first turns other → one ≡ other }
{}
