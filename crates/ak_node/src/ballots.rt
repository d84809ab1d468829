ghost use Rattle.std.specs.Prelude.{◌≡◌, ◌++◌, ◌∷◌, [], IfOk, OnOk, Some, is_some, option_copied};
ghost use Rattle.ak_address.specs.Uniques.{in_order};
ghost use Rattle.ak_promise.specs.Promise.{is_some_ballot};
ghost use Rattle.ak_settled.specs.Settled.{version_of};
ghost use Rattle.ak_node.specs.Node as rules;
ghost use Rattle.ak_node.specs.NodeContracts.{Does, IsSameProcess};

use crate::node::State;
use crate::shards::around;
use ak_address::{Unique, Uniques};
use ak_clock::Version;
use ak_promise::{Answer, Ballot};
use ak_shard_id::Report;
use ak_singleton::{Phase, Steps};
use ak_wire::{Action, Actions, Message, Reports};
use std::alloc::{AllocError, Global};

// A version of more processes fits into no packet.
const MOST_IN_VERSION: usize = 128;

fn fits_packet(version: &Version) -> bool
    ensures { result ≡ rules.fits_packet version.now }
{
    version.len() <= MOST_IN_VERSION
}

impl State {
    // Adds that the process of a ballot is asked to hand it over.
    fn hand_over(
        &self,
        alloc: Global,
        ballot: &Ballot,
        actions: &mut Actions,
    ) -> Result<(), AllocError>
        ensures { OnOk result (actions.new ≡ actions.old ++ rules.told_its_own (Some ballot.now) self.now) }
    {
        let cover = self.cover(alloc, &ballot.unique)?;
        let ballot = ballot.copy(alloc)?;
        actions.push(cover.around(alloc, Message::HandOverToMe(ballot))?)
    }

    // Adds that each of these is asked for a ballot.
    fn asks_each(
        &self,
        alloc: Global,
        live: &Ballot,
        to: &Uniques,
        actions: &mut Actions,
    ) -> Result<(), AllocError>
        ensures { OnOk result (actions.new ≡ actions.old ++ rules.to_each self.now (in_order to.now) (Message.Ask live.now)) }
    {
        'asked: for index in 0..to.len() {
            if let Some(who) = to.at(index) {
                let cover = self.cover(alloc, who)?;
                let ballot = live.copy(alloc)?;
                actions.push(cover.around(alloc, Message::Ask(ballot))?)?;
            }
        }
        Ok(())
    }

    // Adds that each of these is told that a ballot was released, with a floor.
    fn tells_release(
        &self,
        alloc: Global,
        ballot: &Ballot,
        floor: &Version,
        to: &Uniques,
        actions: &mut Actions,
    ) -> Result<(), AllocError>
        ensures { OnOk result (actions.new ≡ actions.old ++ rules.to_each self.now (in_order to.now) (Message.Release ballot.now floor.now)) }
    {
        'told: for index in 0..to.len() {
            if let Some(who) = to.at(index) {
                let cover = self.cover(alloc, who)?;
                let ballot = ballot.copy(alloc)?;
                let floor = floor.copy(alloc)?;
                actions.push(cover.around(alloc, Message::Release(ballot, floor))?)?;
            }
        }
        Ok(())
    }

    fn releases(&self, alloc: Global, to: &Uniques, actions: &mut Actions) -> Result<(), AllocError>
        ensures { OnOk result (actions.new ≡ actions.old ++ rules.releases to.now self.now) }
    {
        match self.singleton.promise().last() {
            Some(last) => {
                self.tells_release(
                    alloc,
                    last,
                    self.membership.settled().version(),
                    to,
                    actions,
                )
            }
            None => Ok(()),
        }
    }

    fn asks_for_live(
        &self,
        alloc: Global,
        to: &Uniques,
        actions: &mut Actions,
    ) -> Result<(), AllocError>
        ensures { OnOk result (actions.new ≡ actions.old ++ rules.told_to_each self.now.singleton.live (λ b. Message.Ask b) to.now self.now) }
    {
        match self.singleton.live() {
            Some(live) => self.asks_each(alloc, live, to, actions),
            None => Ok(()),
        }
    }

    fn needed_others(&self, alloc: Global) -> Result<Uniques, AllocError>
        ensures { IfOk result (λ others. others ≡ rules.needed_others self.now) }
    {
        let mut needed = self
            .membership
            .settled()
            .needed(alloc, self.membership.margin())?;
        needed.remove(self.me());
        Ok(needed)
    }

    // Adds what a tick of the singleton sends.
    fn tells_steps(
        &self,
        alloc: Global,
        steps: &Steps,
        actions: &mut Actions,
    ) -> Result<(), AllocError>
        ensures { OnOk result (actions.new ≡ actions.old ++ (rules.told_its_own steps.now.hand_over_to self.now ++ rules.releases steps.now.release self.now ++ rules.told_to_each self.now.singleton.live (λ b. Message.Ask b) steps.now.ask self.now)) }
    {
        if let Some(held) = &steps.hand_over_to {
            self.hand_over(alloc, held, actions)?;
        }
        self.releases(alloc, &steps.release, actions)?;
        self.asks_for_live(alloc, &steps.ask, actions)
    }

    // Its part of a tick.
    pub(crate) fn asks_as(&mut self, alloc: Global, actions: &mut Actions) -> Result<(), AllocError>
        ensures state { OnOk result (self.new ≡ (rules.asks_as (rules.status_of self.old) self.old).0) }
        ensures actions { OnOk result (actions.new ≡ actions.old ++ (rules.asks_as (rules.status_of self.old) self.old).1) }
        ensures same { IsSameProcess self.old self.new }
    {
        match self.membership.my_status() {
            Some(status) => {
                let me = self.membership.me();
                let settled = self.membership.settled();
                let margin = self.membership.margin();
                let rule = self.singleton.tick_rule(me, settled, status, margin);
                let steps = self.singleton.on_tick(alloc, me, settled, status, margin)?;
                self.sharding.follow_tick(alloc, rule, me)?;
                self.tells_steps(alloc, &steps, actions)
            }
            None => Ok(()),
        }
    }

    // Adds the release of the last ballot, by the phase before.
    fn lets_go(&self, alloc: Global, phase: Phase, actions: &mut Actions) -> Result<(), AllocError>
        ensures { OnOk result (actions.new ≡ actions.old ++ rules.let_go phase self.now) }
    {
        match phase {
            Phase::Younger => return Ok(()),
            Phase::Ended => return Ok(()),
            Phase::Asking => (),
            Phase::Active => (),
        }
        let others = self.needed_others(alloc)?;
        self.releases(alloc, &others, actions)
    }

    // The end of its phase.
    pub(crate) fn ends_phase(
        &mut self,
        alloc: Global,
        actions: &mut Actions,
    ) -> Result<(), AllocError>
        ensures state { OnOk result (self.new ≡ (rules.ends_phase self.old).0) }
        ensures actions { OnOk result (actions.new ≡ actions.old ++ (rules.ends_phase self.old).1) }
        ensures same { IsSameProcess self.old self.new }
    {
        let phase = self.singleton.phase();
        if let Some(term) = self.singleton.end(alloc, self.membership.settled())? {
            actions.push(Action::Ended(term))?;
        }
        self.sharding.end_phase(phase);
        self.lets_go(alloc, phase, actions)
    }

    // A node that runs becomes active, where it may.
    pub(crate) fn activates(
        &mut self,
        alloc: Global,
        actions: &mut Actions,
    ) -> Result<(), AllocError>
        ensures state { OnOk result (self.new ≡ (rules.activates self.old).0) }
        ensures actions { OnOk result (actions.new ≡ actions.old ++ (rules.activates self.old).1) }
        ensures same { IsSameProcess self.old self.new }
    {
        if !self.runs {
            return Ok(());
        }
        let margin = self.membership.margin();
        if !self.singleton.try_activate(
            alloc,
            self.membership.me(),
            self.membership.settled(),
            margin,
        )? {
            return Ok(());
        }
        self.tells_active(actions)
    }

    fn tells_active(&self, actions: &mut Actions) -> Result<(), AllocError>
        ensures { OnOk result (actions.new ≡ actions.old ++ rules.told_active self.now.singleton.live) }
    {
        match self.singleton.live() {
            Some(live) => actions.push(Action::Active(live.term)),
            None => Ok(()),
        }
    }

    // The ballot with which it is active, where it runs.
    pub(crate) fn active(&self) -> Option<&Ballot>
        ensures { option_copied result ≡ rules.active self.now }
    {
        if !self.runs {
            return None;
        }
        match self.singleton.phase() {
            Phase::Younger => None,
            Phase::Asking => None,
            Phase::Active => self.singleton.live(),
            Phase::Ended => None,
        }
    }

    // The floor that a grant carries.
    fn floor(&self, alloc: Global) -> Result<Version, AllocError>
        ensures { IfOk result (λ floor. floor ≡ rules.floor_of self.now) }
    {
        let mut floor = self.singleton.promise().floor().copy(alloc)?;
        floor.merge(alloc, self.membership.settled().version())?;
        Ok(floor)
    }

    fn is_live(&self, ballot: &Ballot) -> bool
        ensures { result ≡ is_some_ballot self.now.singleton.live ballot.now }
    {
        match self.singleton.live() {
            Some(live) => live.compare(ballot).is_eq(),
            None => false,
        }
    }

    fn is_buried(&self, who: &Unique) -> bool
        ensures { result ≡ rules.is_buried self.now who.now }
    {
        self.membership.settled().members().tombstone(who).is_some()
    }

    // Adds a grant, with a floor and what the node reports of its shards.
    fn grants(
        &self,
        alloc: Global,
        to: &Unique,
        ballot: &Ballot,
        floor: Version,
        actions: &mut Actions,
    ) -> Result<(), AllocError>
        ensures { OnOk result (actions.new ≡ actions.old ++ rules.to_process self.now to.now (Message.Granted ballot.now floor (rules.reports_of self.now)) ∷ []) }
    {
        let cover = self.cover(alloc, to)?;
        let ballot = ballot.copy(alloc)?;
        let reports = Reports::of(self.sharding.reports(alloc)?);
        actions.push(cover.around(alloc, Message::Granted(ballot, floor, reports))?)
    }

    // Adds that the last ballot is above the one that was asked for.
    fn tells_old(
        &self,
        alloc: Global,
        to: &Unique,
        ballot: &Ballot,
        actions: &mut Actions,
    ) -> Result<(), AllocError>
        ensures { OnOk result (actions.new ≡ actions.old ++ rules.told_of self.now.singleton.promise.last (λ last. Message.Old ballot.now last) to.now self.now) }
    {
        match self.singleton.promise().last() {
            Some(last) => {
                let cover = self.cover(alloc, to)?;
                let ballot = ballot.copy(alloc)?;
                let last = last.copy(alloc)?;
                actions.push(cover.around(alloc, Message::Old(ballot, last))?)
            }
            None => Ok(()),
        }
    }

    // Adds that the last ballot binds against the one that was asked for.
    fn tells_busy(
        &self,
        alloc: Global,
        to: &Unique,
        ballot: &Ballot,
        actions: &mut Actions,
    ) -> Result<(), AllocError>
        ensures { OnOk result (actions.new ≡ actions.old ++ rules.told_of self.now.singleton.promise.last (λ last. Message.Busy ballot.now last) to.now self.now) }
    {
        match self.singleton.promise().last() {
            Some(last) => {
                let cover = self.cover(alloc, to)?;
                let ballot = ballot.copy(alloc)?;
                let last = last.copy(alloc)?;
                actions.push(cover.around(alloc, Message::Busy(ballot, last))?)
            }
            None => Ok(()),
        }
    }

    fn answers_ask(
        &mut self,
        alloc: Global,
        from: &Unique,
        ballot: &Ballot,
        floor: Version,
    ) -> Result<Actions, AllocError>
        requires { floor ≡ rules.floor_of self.old }
        ensures does { IfOk result (λ actions. Does (rules.answers_ask from.now ballot.now self.old) self.new actions) }
        ensures same { IsSameProcess self.old self.new }
    {
        let mut actions = Actions::empty(alloc);
        let asked = ballot.copy(alloc)?;
        let margin = self.membership.margin();
        match self
            .singleton
            .on_ask(asked, self.membership.settled(), margin)
        {
            Answer::Granted => self.grants(alloc, from, ballot, floor, &mut actions)?,
            Answer::Old => self.tells_old(alloc, from, ballot, &mut actions)?,
            Answer::Busy => self.tells_busy(alloc, from, ballot, &mut actions)?,
        }
        Ok(actions)
    }

    // A ballot is asked for by its own process, and the floor of a grant fits into a packet.
    fn is_asked(&self, from: &Unique, ballot: &Ballot, floor: &Version) -> bool
        requires { floor.now ≡ rules.floor_of self.now }
        ensures { result ≡ rules.is_asked from.now ballot.now self.now }
    {
        self.membership.is_member() && ballot.unique.is(from) && fits_packet(floor)
    }

    pub(crate) fn on_ask(
        &mut self,
        alloc: Global,
        from: &Unique,
        ballot: &Ballot,
    ) -> Result<Actions, AllocError>
        ensures does { IfOk result (λ actions. Does (rules.on_ask from.now ballot.now self.old) self.new actions) }
        ensures same { IsSameProcess self.old self.new }
    {
        let floor = self.floor(alloc)?;
        if self.is_asked(from, ballot, &floor) {
            return self.answers_ask(alloc, from, ballot, floor);
        }
        Ok(Actions::empty(alloc))
    }

    // A member takes a grant of who is no tombstone of the settled view, where each report is of one of the shards.
    fn takes_grant(&self, from: &Unique, told: &[Report]) -> bool
        ensures { result ≡ rules.takes_grant from.now told.now self.now }
    {
        self.membership.is_member() && !self.is_buried(from) && self.sharding.has_shards(told)
    }

    pub(crate) fn on_granted(
        &mut self,
        alloc: Global,
        from: &Unique,
        ballot: &Ballot,
        floor: &Version,
        told: &[Report],
    ) -> Result<Actions, AllocError>
        ensures does { IfOk result (λ actions. Does (rules.on_granted from.now ballot.now floor.now told.now self.old) self.new actions) }
        ensures same { IsSameProcess self.old self.new }
    {
        if self.takes_grant(from, told) {
            let first = self.singleton.on_granted(alloc, from, ballot, floor)?;
            let around = around(&self.membership, &self.singleton);
            self.sharding.learn_if(alloc, first, &around, from, told)?;
        }
        Ok(Actions::empty(alloc))
    }

    pub(crate) fn on_busy(
        &mut self,
        alloc: Global,
        ballot: &Ballot,
        held: &Ballot,
    ) -> Result<Actions, AllocError>
        ensures does { IfOk result (λ actions. Does (rules.on_busy ballot.now held.now self.old) self.new actions) }
        ensures same { IsSameProcess self.old self.new }
    {
        let mut actions = Actions::empty(alloc);
        if !self.membership.is_member() || !self.is_live(ballot) {
            return Ok(actions);
        }
        self.hand_over(alloc, held, &mut actions)?;
        Ok(actions)
    }

    pub(crate) fn on_old(
        &mut self,
        alloc: Global,
        ballot: &Ballot,
        last: &Ballot,
    ) -> Result<Actions, AllocError>
        ensures does { IfOk result (λ actions. Does (rules.on_old ballot.now last.now self.old) self.new actions) }
        ensures same { IsSameProcess self.old self.new }
    {
        if self.membership.is_member() {
            let outdone = self.singleton.on_old(alloc, ballot, last)?;
            self.sharding
                .begin_if(alloc, outdone, self.membership.me())?;
        }
        Ok(Actions::empty(alloc))
    }

    fn hands_over(&self, alloc: Global, to: &Unique, ballot: &Ballot) -> Result<Actions, AllocError>
        ensures { IfOk result (λ actions. actions ≡ rules.to_process self.now to.now (Message.HandOverDone ballot.now (version_of (rules.settled_of self.now))) ∷ []) }
    {
        let mut actions = Actions::empty(alloc);
        let cover = self.cover(alloc, to)?;
        let ballot = ballot.copy(alloc)?;
        let floor = self.membership.settled().version().copy(alloc)?;
        actions.push(cover.around(alloc, Message::HandOverDone(ballot, floor))?)?;
        Ok(actions)
    }

    pub(crate) fn on_hand_over(
        &mut self,
        alloc: Global,
        from: &Unique,
        ballot: &Ballot,
    ) -> Result<Actions, AllocError>
        ensures does { IfOk result (λ actions. Does (rules.on_hand_over from.now ballot.now self.old) self.new actions) }
        ensures same { IsSameProcess self.old self.new }
    {
        if !self.membership.is_member() || !ballot.unique.is(self.me()) || self.is_live(ballot) {
            return Ok(Actions::empty(alloc));
        }
        self.hands_over(alloc, from, ballot)
    }

    pub(crate) fn on_done(
        &mut self,
        alloc: Global,
        ballot: &Ballot,
        floor: &Version,
    ) -> Result<Actions, AllocError>
        ensures does { IfOk result (λ actions. Does (rules.on_done ballot.now floor.now self.old) self.new actions) }
        ensures same { IsSameProcess self.old self.new }
    {
        let mut actions = Actions::empty(alloc);
        if !self.membership.is_member() {
            return Ok(actions);
        }
        let others = self.needed_others(alloc)?;
        self.tells_release(alloc, ballot, floor, &others, &mut actions)?;
        self.singleton.on_done(alloc, ballot, floor)?;
        Ok(actions)
    }

    pub(crate) fn on_release(
        &mut self,
        alloc: Global,
        ballot: &Ballot,
        floor: &Version,
    ) -> Result<Actions, AllocError>
        ensures does { IfOk result (λ actions. Does (rules.on_release ballot.now floor.now self.old) self.new actions) }
        ensures same { IsSameProcess self.old self.new }
    {
        if self.membership.is_member() {
            self.singleton.on_release(alloc, ballot, floor)?;
        }
        Ok(Actions::empty(alloc))
    }
}
