ghost use Rattle.std.specs.Prelude.{◌≡◌, ℕ, List};
ghost use Rattle.ak_schedule.specs.declared.event.Event.{Event};
ghost use Rattle.ak_sweep.specs.declared.line.Line.{Line};
ghost use Rattle.ak_sweeps.specs.GeneratedRun.{IsRun, IsLineOf, KeepsApart};
ghost use Rattle.ak_sweeps.specs.SweepText.{AreLines};

/// Each seed has one run of at most so many events, and one line; and so a sweep has one list of lines, and one text.
pub fn each_seed_has_one_line()
    ensures run { (seed most : ℕ) → (events : List Event) × IsRun seed most events }
    ensures one_run { (seed most : ℕ) (one other : List Event) → IsRun seed most one → IsRun seed most other → one ≡ other }
    ensures line { (seed most : ℕ) → (line : Line) × IsLineOf seed most line }
    ensures one_line { (seed most : ℕ) (one other : Line) → IsLineOf seed most one → IsLineOf seed most other → one ≡ other }
    ensures lines { (first count most : ℕ) → (lines : List Line) × AreLines first count most lines }
    ensures one_list { (first count most : ℕ) (one other : List Line) → AreLines first count most one → AreLines first count most other → one ≡ other }
{}

/// A line that says that the margin was kept says that there is no double: in a generated run, whose static quorum is of more than
/// half of the listed addresses, no entity starts at a node while it is active at another one, unless the margin was broken.
pub fn kept_margins_mean_no_doubles()
    ensures { (seed most : ℕ) (line : Line) → IsLineOf seed most line → KeepsApart line }
{}
