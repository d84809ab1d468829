//! What is due after an event.

ghost use Rattle.std.specs.Prelude.{◌≡◌, IfOk, OnErr, OnOk, IsTrue, MatchOption, false, if◌then◌else◌};
ghost use Rattle.ak_address.specs.Changed.{keys_of};
ghost use Rattle.ak_clock.specs.Version.{Covers};
ghost use Rattle.ak_detector.specs.Detector.{watching, watch_ring};
ghost use Rattle.ak_settled.specs.Settled.{version_of, after_note};
ghost use Rattle.ak_membership.specs.Closing as closing;
ghost use Rattle.ak_sight.specs.Counted.{IsTallyOf};
ghost use Rattle.ak_membership.specs.MembershipContracts.{Closes, MayTake, IsAtRest, RestsIf, WatchesAnew};

use crate::change::Closing;
use crate::state::MembershipState;
use ak_clock::{Relation, Version};
use ak_detector::Detector;
use ak_sight::KeptTally;
use std::alloc::{AllocError, Global};

fn is_other(old: &Version, new: &Version) -> bool
    ensures value { result ≡ closing.is_other old.now new.now }
    ensures same { result ≡ false → new.now ≡ old.now }
{
    match old.compare(new) {
        Relation::Same => false,
        Relation::Before => true,
        Relation::After => true,
        Relation::Concurrent => true,
    }
}

impl MembershipState {
    // A settled view is to be noted.
    pub(crate) fn is_noted(&self, tally: &KeptTally) -> bool
        requires { IsTallyOf self.now.settings.role tally.now self.now.gossip }
        ensures { result ≡ closing.is_noted self.now }
    {
        if self.settled.exists() && !is_other(self.settled.version(), self.gossip.version()) {
            return false;
        }
        self.has_settled(tally)
    }

    // Notes the settled view, where it is to be noted. An error leaves it as it was.
    fn note(&mut self, alloc: Global, settled: bool) -> Result<(), AllocError>
        requires { Covers self.old.gossip.version (version_of self.old.settled.view) }
        ensures ok { OnOk result (self.new ≡ record self.old { settled = if settled then after_note self.old.gossip.version self.old.gossip.view.standings self.old.settled else self.old.settled }) }
        ensures err { OnErr result (self.new ≡ self.old) }
        ensures memory { OnErr result (IsTrue settled) }
    {
        if settled {
            return self
                .settled
                .note(alloc, self.gossip.version(), self.gossip.members());
        }
        Ok(())
    }

    // The detector that watches by what is known now, where it is another.
    fn watching(&self, alloc: Global) -> Result<Option<Detector>, AllocError>
        ensures memory { OnErr result (WatchesAnew self.now) }
        ensures ok { IfOk result (λ detector. MatchOption detector ((watching self.now.me self.now.gossip.view.standings self.now.settings.deadline self.now.detector ≡ self.now.detector) × (keys_of self.now.detector ≡ watch_ring self.now.me self.now.gossip.view.standings)) (λ other. other ≡ watching self.now.me self.now.gossip.view.standings self.now.settings.deadline self.now.detector)) }
    {
        let members = self.gossip.members();
        if self.detector.watches_already(&self.me, members) {
            return Ok(None);
        }
        let deadline = self.settings.deadline;
        let detector = self.detector.watching(alloc, &self.me, members, deadline)?;
        Ok(Some(detector))
    }

    // The version that is shown from now on, where it is another.
    fn newly_shown(&self, alloc: Global, viewed: bool) -> Result<Option<Version>, AllocError>
        requires { viewed ≡ false → self.now.gossip.version ≡ self.now.shown }
        ensures ok { IfOk result (λ shown. MatchOption shown (self.now.gossip.version ≡ self.now.shown) (λ version. version ≡ self.now.gossip.version)) }
        ensures memory { OnErr result (IsTrue viewed) }
    {
        if !viewed {
            return Ok(None);
        }
        let version = self.gossip.version().copy(alloc)?;
        Ok(Some(version))
    }

    // Where members are shown otherwise than at the last closing, the view stood still for no tick.
    fn begin_anew(&mut self)
        ensures { self.new ≡ record self.old { stable = closing.stable_after self.old; moved = false } }
    {
        if self.moved {
            self.stable = 0;
            self.moved = false;
        }
    }

    // A closing where it is known that nothing is due: that members were shown otherwise since the last one is all that is forgotten.
    pub(crate) fn close_at_rest(&mut self) -> Closing
        requires { IsAtRest self.old }
        ensures { Closes (closing.close false self.old) self.new result }
    {
        self.begin_anew();
        Closing {
            viewed: false,
            stopped: false,
            settled: false,
        }
    }

    // What is due, and whether it is known that all is at rest then.
    pub(crate) fn close(
        &mut self,
        alloc: Global,
        stopping: bool,
        tally: &KeptTally,
    ) -> Result<(Closing, bool), AllocError>
        requires tally { IsTallyOf self.old.settings.role tally.now self.old.gossip }
        requires covers { Covers self.old.gossip.version (version_of self.old.settled.view) }
        ensures ok { IfOk result (λ r. Closes (closing.close stopping self.old) self.new r.0) }
        ensures rest { IfOk result (λ r. RestsIf r.1 self.new) }
        ensures err { OnErr result (self.new ≡ self.old) }
        ensures memory { OnErr result (MayTake stopping self.old) }
    {
        let viewed = is_other(&self.shown, self.gossip.version());
        let stopped = stopping || self.is_gone();
        let settled = !stopped && self.is_noted(tally);
        let shown = self.newly_shown(alloc, viewed)?;
        let detector = self.watching(alloc)?;
        self.note(alloc, settled)?;
        let at_rest = !stopped && !settled && detector.is_none();
        if let Some(detector) = detector {
            self.detector = detector;
        }
        if let Some(shown) = shown {
            self.shown = shown;
        }
        self.begin_anew();
        let due = Closing {
            viewed,
            stopped,
            settled,
        };
        Ok((due, at_rest))
    }
}
