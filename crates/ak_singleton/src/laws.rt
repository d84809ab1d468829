ghost use Rattle.std.specs.Prelude.{◌≡◌, ◌&&◌, ◌↔◌, ℕ, not, IsTrue, Some};
ghost use Rattle.ak_address.specs.Unique.{UniqueModel};
ghost use Rattle.ak_address.specs.Uniques.{has};
ghost use Rattle.ak_promise.specs.Ballot.{BallotModel, ballot_cmp};
ghost use Rattle.ak_promise.specs.Promise.{PromiseModel};
ghost use Rattle.ak_settled.specs.SettledView.{SettledView};
ghost use Rattle.ak_settled.specs.Settled.{needed};
ghost use Rattle.ak_singleton.specs.Rules.{Applies, IsFirstGrant, IsOutdone, MayActivate};
ghost use Rattle.ak_singleton.specs.Singleton.{SingletonModel, after_old, is_first_grant, is_outdone, may_activate, opened, own_ballot, steps_of, tick_rule};

use crate::phase::TickRule;
use ak_member::Status;
use std::cmp::Ordering;

/// Of the five things that a tick may do exactly one applies, the one that it does.
pub fn tick_rules_are_exact()
    ensures { (rule : TickRule) (me : UniqueModel) (settled : SettledView) (status : Status) (margin : ℕ) (s : SingletonModel) → (tick_rule me settled status margin s ≡ rule) ↔ Applies me settled status margin s rule }
{}

/// A tick after which the node asks or is active, and has a part in the singleton, asks exactly those that it needs and that have
/// not granted; one that ends an asking tells exactly those that it needs, but for the node itself.
pub fn ticks_reach_all_that_are_needed()
    ensures begun { (me : UniqueModel) (settled : SettledView) (margin : ℕ) (s : SingletonModel) (who : UniqueModel) → has (steps_of TickRule.Opens me settled margin s).ask who ≡ (has (needed margin settled) who && not (has (opened me settled s).granted who)) }
    ensures asked { (me : UniqueModel) (settled : SettledView) (margin : ℕ) (s : SingletonModel) (who : UniqueModel) → has (steps_of TickRule.Asks me settled margin s).ask who ≡ (has (needed margin settled) who && not (has s.granted who)) }
    ensures told { (me : UniqueModel) (settled : SettledView) (margin : ℕ) (s : SingletonModel) (who : UniqueModel) → IsTrue (has (steps_of TickRule.Closes me settled margin s).release who) ↔ (IsTrue (has (needed margin settled) who) × ¬ (who ≡ me)) }
{}

/// A grant counts exactly where it is the first of the live ballot from its process, and an older ballot is outdone exactly where
/// the node asks with it, and a ballot above it was promised that has a term after it.
pub fn grants_and_older_ballots_are_exact()
    ensures grants { (from : UniqueModel) (ballot : BallotModel) (s : SingletonModel) → IsTrue (is_first_grant from ballot s) ↔ IsFirstGrant from ballot s }
    ensures older { (ballot last : BallotModel) (s : SingletonModel) → IsTrue (is_outdone ballot last s) ↔ IsOutdone ballot last s }
{}

/// A node becomes active exactly where it asks, is the candidate, each that it needs has granted, and what it has settled covers
/// the floor. Then every process that the settled view needs has granted, and nobody is left out but those that are finished.
pub fn activations_are_exact()
    ensures { (me : UniqueModel) (settled : SettledView) (margin : ℕ) (s : SingletonModel) → IsTrue (may_activate me settled margin s) ↔ MayActivate me settled margin s }
{}

/// Each new ballot of a node is above the last one that it promised, and one that it makes since its ballot was outdone is above that
/// ballot and the other.
pub fn new_ballots_are_higher()
    ensures opened { (me : UniqueModel) (promise : PromiseModel) (last : BallotModel) → promise.last ≡ Some last → ballot_cmp (own_ballot me promise) last ≡ Ordering.Greater }
    ensures renewed { (ballot last next : BallotModel) (s : SingletonModel) → IsTrue (is_outdone ballot last s) → (after_old (is_outdone ballot last s) ballot last s).live ≡ Some next → (ballot_cmp next last ≡ Ordering.Greater) × (ballot_cmp next ballot ≡ Ordering.Greater) }
{}
