//! Whether whom a node finds silent is not what its own row says. It is asked without memory, since mostly nothing is new.

ghost use Rattle.std.specs.Prelude.{◌≡◌, ◌&&◌, not, slice_get, option_to_list};
ghost use Rattle.std.specs.List.{list_any};
ghost use Rattle.ak_address.specs.Changed.{keys_of};
ghost use Rattle.ak_address.specs.Uniques.{has, in_order, those};
ghost use Rattle.ak_member.specs.Standing.{is_member};
ghost use Rattle.ak_membership.specs.Tick as ticks;

use crate::state::MembershipState;
use ak_address::{Unique, Uniques};

impl MembershipState {
    // The process will be silent after this tick.
    fn is_silent(&self, who: &Unique) -> bool
        ensures { result ≡ has (ticks.silent self.now) who.now }
    {
        self.settings.invariant();
        self.detector.is_silent_next(who, self.settings.deadline)
    }

    // The process is a member that the node's own row names.
    fn is_own_subject(&self, who: &Unique) -> bool
        ensures { result ≡ has (ticks.own_subjects self.now) who.now }
    {
        match self.gossip.rows().row(&self.me) {
            Some(row) => row.subjects.contains(who) && self.has_member(who),
            None => false,
        }
    }

    // Of those that are watched, one that is silent stands at the index, and the node's own row does not name it.
    fn is_found_at(&self, index: usize) -> bool
        ensures { result ≡ list_any (λ who. has (ticks.silent self.now) who && not (has (ticks.own_subjects self.now) who)) (option_to_list (slice_get (in_order (keys_of self.now.detector)) index)) }
    {
        match self.detector.watched().at(index) {
            Some(who) => self.is_silent(who) && !self.is_own_subject(who),
            None => false,
        }
    }

    // One is silent whom the node's own row does not name.
    fn finds_one(&self) -> bool
        ensures { result ≡ ticks.lacks (ticks.own_subjects self.now) (ticks.silent self.now) }
    {
        'indices: for index in 0..self.detector.watched().len() {
            if self.is_found_at(index) {
                return true;
            }
        }
        false
    }

    // Of the subjects, a member that is not silent stands at the index.
    fn is_heard_at(&self, subjects: &Uniques, index: usize) -> bool
        ensures { result ≡ list_any (λ who. is_member self.now.gossip.view.standings who && not (has (ticks.silent self.now) who)) (option_to_list (slice_get (in_order subjects.now) index)) }
    {
        match subjects.at(index) {
            Some(who) => self.has_member(who) && !self.is_silent(who),
            None => false,
        }
    }

    // One of the subjects is a member that is not silent.
    fn hears_one_of(&self, subjects: &Uniques) -> bool
        ensures { result ≡ ticks.lacks (ticks.silent self.now) (those subjects.now (is_member self.now.gossip.view.standings)) }
    {
        'subjects: for index in 0..subjects.len() {
            if self.is_heard_at(subjects, index) {
                return true;
            }
        }
        false
    }

    // One that the node's own row names is not silent.
    fn hears_one(&self) -> bool
        ensures { result ≡ ticks.lacks (ticks.silent self.now) (ticks.own_subjects self.now) }
    {
        match self.gossip.rows().row(&self.me) {
            Some(row) => self.hears_one_of(&row.subjects),
            None => false,
        }
    }

    /// Whether whom the node finds silent is not what its own row says. Takes no memory.
    pub(crate) fn observes(&self) -> bool
        ensures { result ≡ ticks.observes self.now }
    {
        self.finds_one() || self.hears_one()
    }
}
