ghost use Rattle.std.specs.Prelude.{◌≡◌, ◌≢◌, ◌↔◌, ℕ, List, [], ◌∷◌, ◌++◌, All, codes};
ghost use Rattle.std.specs.List.Sorted.{IsPermutation};
ghost use Rattle.ak_schedule.specs.Schedule.{SpellsEvent};
ghost use Rattle.ak_options.specs.Options.{Pair, words_of};
ghost use Rattle.ak_options.specs.Requests.{some_process, event_at, SpellsRequest};
ghost use Rattle.ak_options.specs.CommandLine.{AsksFor};

use crate::command::{Command, Request};

/// Words ask for one command at most.
pub fn words_ask_for_one_command()
    ensures { (words : List (List ℕ)) (one other : Command) → AsksFor words one → AsksFor words other → one ≡ other }
{}

/// In which order the pairs stand does not matter.
pub fn pairs_come_in_any_order()
    ensures { (name : List ℕ) (pairs others : List Pair) (command : Command) → IsPermutation pairs others → AsksFor (name ∷ words_of pairs) command → AsksFor (name ∷ words_of others) command }
{}

/// A text asks something of a node exactly where it is a line of a schedule that asks it of the process `a:1#1`, once that is put
/// after the first word.
pub fn requests_are_lines()
    ensures { (first rest : List ℕ) (request : Request) → All (λ b. b ≢ 32) first → first ≢ []
        → SpellsRequest (first ++ 32 ∷ rest) request ↔ SpellsEvent (first ++ codes " a:1#1 " ++ rest) (event_at some_process request) }
{}
