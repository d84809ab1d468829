ghost use Rattle.std.specs.Prelude.{◌≡◌, ℕ, ◌*◌, ◌<◌, ◌⊎◌, ◌++◌, List, Option, length};
ghost use Rattle.ak_settings.specs.declared.settings.Strategy.TheVariants.{StaticQuorum};
ghost use Rattle.ak_settings.specs.Settings.{IsRole};
ghost use Rattle.ak_driver.specs.ReplayText.{IsReplay, IsFirstSteps, IsTextOfEnded, ReplaysAs, Replays, Accepts, Progress, Ending, Finished};
ghost use Rattle.ak_world.specs.declared.margin.Margin.{Margin};
ghost use Rattle.ak_world.specs.Double.{Doubled};
ghost use Rattle.ak_world.specs.SettledLine.{IsOverHalf};
ghost use Rattle.ak_world.specs.World.{run};
ghost use Rattle.ak_driver.specs.Worked.{empty_schedule, empty_text, founding_schedule, founding_text};

/// A schedule has exactly one replay text and one status, and the status is 0, 1 or 4. (Which line is refused, with which
/// code, the steps before it and the summary are all determined by the bytes.)
pub fn replays_are_determined()
    ensures one { (bytes : List ℕ) (s t : ℕ) (x y : List ℕ) → IsReplay bytes s x → IsReplay bytes t y → (s ≡ t) × (x ≡ y) }
    ensures status { (bytes : List ℕ) (s : ℕ) (x : List ℕ) → IsReplay bytes s x → (s ≡ 0) ⊎ ((s ≡ 1) ⊎ (s ≡ 4)) }
    ensures some { (bytes : List ℕ) → (s : ℕ) × (x : List ℕ) × IsReplay bytes s x }
{}

/// The world that a replay has reached after its last line is the run of the settings over the events that it accepted.
pub fn replays_reach_runs()
    ensures { (bytes : List ℕ) (steps : List (List ℕ)) (end : Progress) (margin : Margin) (double : Option Doubled) → ReplaysAs bytes steps (Finished end margin double) → end.world ≡ run end.settings end.events }
{}

/// The headline asks that fewer addresses have the role than twice the quorum, and is so kept where fewer are listed: at the end of
/// each replay those that have the role are different ones, and listed.
pub fn the_headlines_premise_is_weaker()
    ensures role { (bytes : List ℕ) (steps : List (List ℕ)) (end : Progress) (margin : Margin) (double : Option Doubled) → ReplaysAs bytes steps (Finished end margin double) → IsRole end.settings.listed end.settings.role }
    ensures listed { (bytes : List ℕ) (steps : List (List ℕ)) (end : Progress) (margin : Margin) (double : Option Doubled) (quorum : ℕ) → ReplaysAs bytes steps (Finished end margin double)
        → end.settings.strategy ≡ StaticQuorum quorum → length end.settings.listed < 2 * quorum → IsOverHalf end.settings quorum }
{}

/// What a replay has printed when its source fails is how the replay of the whole schedule begins, whatever bytes were still to come:
/// the texts of its first steps, each whole. For the steps of accepted lines are the first ones of each replay that begins with these
/// lines, and the others are those of the lines that are left.
pub fn failed_reads_print_first_steps()
    ensures steps { (p q : Progress) (ended others steps all : List (List ℕ)) (ending : Ending) → Accepts p ended steps q → Replays p (ended ++ others) all ending
        → (rest : List (List ℕ)) × (all ≡ steps ++ rest) × Replays q others rest ending }
    ensures text { (given more text : List ℕ) → IsTextOfEnded given text → IsFirstSteps (given ++ more) text }
{}

/// What the definitions say that two small schedules print: one without an event, and one in which two nodes start and
/// one founds the cluster.
pub fn worked_schedules()
    ensures empty { IsReplay empty_schedule 0 empty_text }
    ensures founding { IsReplay founding_schedule 0 founding_text }
{}
