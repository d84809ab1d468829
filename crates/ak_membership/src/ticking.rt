//! What a tick does, and which updates it makes.

ghost use Rattle.std.specs.Prelude.{◌≡◌, ◌≢◌, ◌<◌, ◌^◌, [], ◌∷◌, IfOk, OnErr, IsTrue, true, false, option_copied};
ghost use Rattle.ak_leader.specs.Leader as leads;
ghost use Rattle.ak_sight.specs.Counted.{IsTallyOf};
ghost use Rattle.ak_membership.specs.Membership as rules;
ghost use Rattle.ak_membership.specs.MembershipContracts.{Makes, IsWatching};
ghost use Rattle.ak_membership.specs.Tick as ticks;

use crate::change::Change;
use crate::lost::{has_lost, some_counts};
use crate::members::{is_joining, joining_addresses};
use crate::state::{MembershipState, one, role_of, unchanged};
use ak_address::{Unique, Uniques};
use ak_downing::{decide, downs};
use ak_leader::{actions, founding, leader, weak_effects};
use ak_member::{Effect, Effects};
use ak_select::peer;
use ak_settings::Strategy;
use ak_sight::KeptTally;
use std::alloc::{AllocError, Global};

impl MembershipState {
    // The founder, Joining itself, founds the cluster.
    fn founds(&self, tally: &KeptTally) -> bool
        requires tally { IsTallyOf self.now.settings.role tally.now self.now.gossip }
        ensures { result ≡ ticks.founds self.now }
    {
        if !self.founder {
            return false;
        }
        if !is_joining(self.gossip.members(), &self.me) {
            return false;
        }
        if !tally.numbers().converged() {
            return false;
        }
        self.gossip.invariant();
        self.settings.settling() <= joining_addresses(tally, self.gossip.members())
    }

    pub(crate) fn has_settled(&self, tally: &KeptTally) -> bool
        requires tally { IsTallyOf self.now.settings.role tally.now self.now.gossip }
        ensures { result ≡ ticks.has_settled self.now }
    {
        tally.numbers().settled_by(self.settings.settling())
    }

    fn is_leader(&self) -> bool
        ensures { result ≡ ticks.is_process self.now.me (leads.leader self.now.gossip.view) }
    {
        match leader(self.gossip.members(), self.gossip.rows()) {
            Some(who) => who.is(&self.me),
            None => false,
        }
    }

    // The node leads, in a settled view.
    fn leads(&self, tally: &KeptTally) -> bool
        requires tally { IsTallyOf self.now.settings.role tally.now self.now.gossip }
        ensures { result ≡ ticks.leads self.now }
    {
        if self.has_settled(tally) {
            return self.is_leader();
        }
        false
    }

    // The Joining members become the first that are Up.
    fn establish(&mut self, alloc: Global, tally: &mut KeptTally) -> Result<Change, AllocError>
        requires member { IsTrue (rules.is_member self.old) }
        requires tally { IsTallyOf self.old.settings.role tally.old self.old.gossip }
        ensures ok { IfOk result (λ change. Makes (rules.update (leads.founding_effects self.old.gossip.view.standings) self.old) self.new change) }
        ensures err { OnErr result (self.new ≡ self.old) }
        ensures tally { IsTallyOf self.new.settings.role tally.new self.new.gossip }
    {
        self.gossip.invariant();
        let effects = founding(alloc, self.gossip.members())?;
        self.update(alloc, effects, tally)
    }

    // What the leader does.
    fn lead(&mut self, alloc: Global, tally: &mut KeptTally) -> Result<Change, AllocError>
        requires member { IsTrue (rules.is_member self.old) }
        requires leads { true ≡ ticks.leads self.old }
        requires tally { IsTallyOf self.old.settings.role tally.old self.old.gossip }
        ensures ok { IfOk result (λ change. Makes (rules.update_any (leads.leaders_effects self.old.gossip.view self.old.confirmed) self.old) self.new change) }
        ensures err { OnErr result (self.new ≡ self.old) }
        ensures memory { OnErr result (IsTrue (ticks.has_effect (leads.leaders_effects self.old.gossip.view self.old.confirmed))) }
        ensures tally { IsTallyOf self.new.settings.role tally.new self.new.gossip }
    {
        self.gossip.invariant();
        let effects = self.leaders_effects(alloc)?;
        self.update_any(alloc, effects, tally)
    }

    fn leaders_effects(&self, alloc: Global) -> Result<Effects, AllocError>
        ensures ok { IfOk result (λ effects. effects ≡ leads.leaders_effects self.now.gossip.view self.now.confirmed) }
        ensures memory { OnErr result (leads.leaders_effects self.now.gossip.view self.now.confirmed ≢ []) }
    {
        actions(
            alloc,
            self.gossip.members(),
            self.gossip.rows(),
            &self.confirmed,
        )
    }

    // How long the view did not settle with this tick.
    fn waited(&self, tally: &KeptTally) -> u32
        requires tally { IsTallyOf self.now.settings.role tally.now self.now.gossip }
        ensures { result ≡ ticks.waited self.now }
    {
        let settled = self.has_settled(tally);
        if settled {
            return 0;
        }
        if self.weak < self.settings.weakly {
            return self.weak + 1;
        }
        self.settings.weakly
    }

    // The settings let members in, the view did not settle for long enough, and the node leads.
    fn lets_in(&self, tally: &KeptTally) -> bool
        requires tally { IsTallyOf self.now.settings.role tally.now self.now.gossip }
        ensures { result ≡ ticks.lets_in self.now }
    {
        if self.settings.weakly == 0 || self.waited(tally) != self.settings.weakly {
            return false;
        }
        self.is_leader()
    }

    // The Joining members that can be reached are let in.
    fn let_in(&mut self, alloc: Global, tally: &mut KeptTally) -> Result<Change, AllocError>
        requires member { IsTrue (rules.is_member self.old) }
        requires tally { IsTallyOf self.old.settings.role tally.old self.old.gossip }
        ensures ok { IfOk result (λ change. Makes (rules.update_any (leads.weak_effects self.old.gossip.view) self.old) self.new change) }
        ensures err { OnErr result (self.new ≡ self.old) }
        ensures memory { OnErr result (IsTrue (ticks.has_effect (leads.weak_effects self.old.gossip.view))) }
        ensures tally { IsTallyOf self.new.settings.role tally.new self.new.gossip }
    {
        self.gossip.invariant();
        let effects = self.weak_effects(alloc)?;
        self.update_any(alloc, effects, tally)
    }

    fn weak_effects(&self, alloc: Global) -> Result<Effects, AllocError>
        ensures ok { IfOk result (λ effects. effects ≡ leads.weak_effects self.now.gossip.view) }
        ensures memory { OnErr result (leads.weak_effects self.now.gossip.view ≢ []) }
    {
        weak_effects(alloc, self.gossip.members(), self.gossip.rows())
    }

    // Whom the node finds silent with this tick.
    fn silent(&self, alloc: Global) -> Result<Uniques, AllocError>
        ensures { IfOk result (λ them. them ≡ ticks.silent self.now) }
    {
        self.settings.invariant();
        let them = self.detector.silent_next(alloc, self.settings.deadline)?;
        Ok(them)
    }

    // The node observes whom it finds silent.
    fn observe(&mut self, alloc: Global, tally: &mut KeptTally) -> Result<Change, AllocError>
        requires member { IsTrue (rules.is_member self.old) }
        requires watching { IsWatching self.old }
        requires tally { IsTallyOf self.old.settings.role tally.old self.old.gossip }
        ensures ok { IfOk result (λ change. Makes (rules.update (Effect.Observed (ticks.silent self.old) ∷ []) self.old) self.new change) }
        ensures err { OnErr result (self.new ≡ self.old) }
        ensures tally { IsTallyOf self.new.settings.role tally.new self.new.gossip }
    {
        self.gossip.invariant();
        let silent = self.silent(alloc)?;
        let effects = one(alloc, Effect::Observed(silent))?;
        self.update(alloc, effects, tally)
    }

    // How long the view stood still with this tick.
    fn stood(&self) -> u32
        ensures { result ≡ ticks.stood self.now }
    {
        if self.stable < self.settings.stable {
            return self.stable + 1;
        }
        self.settings.stable
    }

    // The resolver decides.
    fn decides(&self) -> bool
        ensures { result ≡ ticks.decides self.now }
    {
        if self.stood() != self.settings.stable {
            return false;
        }
        some_counts(self.gossip.members())
            && has_lost(self.gossip.members(), self.gossip.rows(), &self.me)
    }

    fn strategy(&self) -> Strategy
        ensures { result ≡ self.now.settings.strategy }
    {
        self.settings.strategy
    }

    fn decided(&self, alloc: Global) -> Result<Effects, AllocError>
        ensures { IfOk result (λ effects. effects ≡ ticks.decided self.now) }
    {
        self.gossip.invariant();
        let members = self.gossip.members();
        let rows = self.gossip.rows();
        let decision = decide(
            &self.strategy(),
            role_of(&self.settings),
            members,
            rows,
            &self.me,
        );
        let effects = downs(alloc, decision, members, rows, &self.me)?;
        Ok(effects)
    }

    // Whom the decision is against goes Down.
    fn resolve(&mut self, alloc: Global, tally: &mut KeptTally) -> Result<Change, AllocError>
        requires member { IsTrue (rules.is_member self.old) }
        requires tally { IsTallyOf self.old.settings.role tally.old self.old.gossip }
        ensures ok { IfOk result (λ change. Makes (rules.update (ticks.decided self.old) self.old) self.new change) }
        ensures err { OnErr result (self.new ≡ self.old) }
        ensures tally { IsTallyOf self.new.settings.role tally.new self.new.gossip }
    {
        self.gossip.invariant();
        let effects = self.decided(alloc)?;
        self.update(alloc, effects, tally)
    }

    // At most one update, the first that applies, where a number is left for it.
    fn updates(&mut self, alloc: Global, tally: &mut KeptTally) -> Result<Change, AllocError>
        requires member { IsTrue (rules.is_member self.old) }
        requires watching { IsWatching self.old }
        requires tally { IsTallyOf self.old.settings.role tally.old self.old.gossip }
        ensures ok { IfOk result (λ change. Makes (ticks.updates self.old) self.new change) }
        ensures err { OnErr result (self.new ≡ self.old) }
        ensures memory { OnErr result (IsTrue (ticks.is_due self.old)) }
        ensures tally { IsTallyOf self.new.settings.role tally.new self.new.gossip }
    {
        if !self.may_count() {
            return Ok(unchanged(alloc));
        }
        if self.observes() {
            return self.observe(alloc, tally);
        }
        if self.decides() {
            return self.resolve(alloc, tally);
        }
        if self.founds(tally) {
            return self.establish(alloc, tally);
        }
        if self.leads(tally) {
            return self.lead(alloc, tally);
        }
        if self.lets_in(tally) {
            return self.let_in(alloc, tally);
        }
        Ok(unchanged(alloc))
    }

    // The tick is counted. It comes after what may fail, so that a tick that fails changes nothing.
    fn count(&mut self, weak: u32)
        requires { self.old.ticks < 2 ^ 62 }
        ensures { self.new ≡ ticks.counted weak self.old }
    {
        self.settings.invariant();
        self.ticks += 1;
        self.stable = self.stood();
        self.weak = weak;
        self.settled.tick(self.settings.margin);
        self.detector.tick(self.settings.deadline);
    }

    pub(crate) fn tick(
        &mut self,
        alloc: Global,
        tally: &mut KeptTally,
    ) -> Result<Change, AllocError>
        requires ticks { self.old.ticks < 2 ^ 62 }
        requires watching { IsWatching self.old }
        requires tally { IsTallyOf self.old.settings.role tally.old self.old.gossip }
        ensures ok { IfOk result (λ change. Makes (ticks.tick self.old) self.new change) }
        ensures err { OnErr result (self.new ≡ self.old) }
        ensures memory { OnErr result (IsTrue (rules.is_member self.old) × IsTrue (ticks.is_due self.old)) }
        ensures tally { IsTallyOf self.new.settings.role tally.new self.new.gossip }
    {
        if !self.is_member() {
            return Ok(unchanged(alloc));
        }
        let weak = self.waited(tally);
        let change = self.updates(alloc, tally)?;
        self.count(weak);
        Ok(change)
    }

    pub(crate) fn gossip_peer(&self, word: u32) -> Option<&Unique>
        ensures { option_copied result ≡ ticks.gossip_peer word self.now }
    {
        if !self.gossips() {
            return None;
        }
        let gossip = &self.gossip;
        peer(
            word,
            gossip.members(),
            gossip.rows(),
            gossip.seen(),
            &self.me,
        )
    }

    // The node gossips at every third tick, and while fewer than half of the members have seen what it knows.
    fn gossips(&self) -> bool
        ensures { result ≡ ticks.gossips self.now }
    {
        if self.ticks % 3 == 0 {
            return true;
        }
        let seen = self.gossip.seen().len();
        let members = self.gossip.members().len();
        seen < members && seen < members - seen
    }
}
