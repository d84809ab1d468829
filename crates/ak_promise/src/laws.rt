ghost use Rattle.std.specs.Prelude.{◌≡◌, ◌≢◌, ◌↔◌, ◌⊎◌, Bool, true, IsTrue, Some};
ghost use Rattle.std.specs.Cmp.{IsTotalOrder};
ghost use Rattle.std.specs.FinMap.{IsAntisymmetric};
ghost use Rattle.ak_clock.specs.Version.{Counts, Covers};
ghost use Rattle.ak_promise.specs.Ballot.{BallotModel, ballot_cmp};
ghost use Rattle.ak_promise.specs.Promise.{PromiseModel, Answers, answer_to, asked, released_by};

use crate::promise::Answer;
use std::cmp::Ordering;

/// The order of ballots is total, and only equal ones tie.
pub fn ballots_are_ordered()
    ensures total { IsTotalOrder ballot_cmp }
    ensures exact { IsAntisymmetric ballot_cmp }
{}

/// Of the three answers exactly one fits a promise and a ballot, the one that is given.
pub fn answers_are_exact()
    ensures { (answer : Answer) (promise : PromiseModel) (ballot : BallotModel) (finished : Bool) → (answer_to promise ballot finished ≡ answer) ↔ Answers answer promise ballot finished }
{}

/// After a promise no other ballot is granted but a higher one, and that only where the promise was released, the ballot is of the
/// same process, or the holder is finished. A ballot that was released is not granted again.
pub fn promises_bind()
    ensures others { (promise : PromiseModel) (last ballot : BallotModel) (finished : Bool) → promise.last ≡ Some last → answer_to promise ballot finished ≡ Answer.Granted → ballot ≢ last → (ballot_cmp ballot last ≡ Ordering.Greater) × ((promise.released ≡ true) ⊎ (last.unique ≡ ballot.unique) ⊎ IsTrue finished) }
    ensures released { (promise : PromiseModel) (last : BallotModel) (finished : Bool) → promise.last ≡ Some last → promise.released ≡ true → answer_to promise last finished ≡ Answer.Old }
{}

/// The last ballot never falls, whatever is asked, and a release keeps it.
pub fn last_ballots_never_fall()
    ensures asked { (promise : PromiseModel) (last ballot : BallotModel) (finished : Bool) → promise.last ≡ Some last → (next : BallotModel) × ((asked promise ballot finished).last ≡ Some next) × (ballot_cmp next last ≢ Ordering.Less) }
    ensures released { (promise : PromiseModel) (ballot : BallotModel) (version : Counts) → (released_by promise ballot version).last ≡ promise.last }
{}

/// The floor only grows: whatever is asked keeps it, and a release covers it; a release of the last ballot covers its version too.
pub fn floors_only_grow()
    ensures asked { (promise : PromiseModel) (ballot : BallotModel) (finished : Bool) → (asked promise ballot finished).floor ≡ promise.floor }
    ensures released { (promise : PromiseModel) (ballot : BallotModel) (version : Counts) → Covers (released_by promise ballot version).floor promise.floor }
    ensures covers { (promise : PromiseModel) (ballot : BallotModel) (version : Counts) → promise.last ≡ Some ballot → Covers (released_by promise ballot version).floor version }
{}
