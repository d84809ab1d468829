//! What a node does at a tick, where it is a member.

ghost use Rattle.std.specs.Prelude.{◌≡◌, ◌<◌, ◌^◌, ◌++◌, IfOk, OnOk, IsTrue};
ghost use Rattle.ak_membership.specs.MembershipContracts.{IsWatching};
ghost use Rattle.ak_membership.specs.Tick as rules_of_ticks;
ghost use Rattle.ak_node.specs.Node as rules;
ghost use Rattle.ak_node.specs.NodeContracts.{Does, IsSameProcess};

use crate::actions::tell;
use crate::node::State;
use ak_membership::Change;
use ak_reused::Reused;
use ak_wire::{Action, Actions, Message};
use std::alloc::{AllocError, Global};

impl State {
    // Adds a message to each member that counts: the node stops.
    fn confirms(&self, alloc: Global, actions: &mut Actions) -> Result<(), AllocError>
        ensures { OnOk result (actions.new ≡ actions.old ++ rules.to_each self.now (rules.counted_members self.now) Message.ExitingConfirmed) }
    {
        let members = self.membership.gossip().members();
        'pairs: for pair in 0..members.uniques() {
            if let Some((to, _)) = members.counted_at_pair(pair) {
                let cover = self.cover(alloc, to)?;
                actions.push(cover.around(alloc, Message::ExitingConfirmed)?)?;
            }
        }
        Ok(())
    }

    // Adds what is known, told to one member, where there is one to tell it to.
    fn gossips(&self, alloc: Global, word: u32, actions: &mut Actions) -> Result<(), AllocError>
        ensures { OnOk result (actions.new ≡ actions.old ++ (rules.gossips_to (rules_of_ticks.gossip_peer word self.now.membership) self.now).1) }
    {
        match self.membership.gossip_peer(word) {
            Some(to) => {
                let cover = self.cover(alloc, to)?;
                let gossip = self.membership.gossip().copy(alloc)?;
                let message = Message::Gossip(gossip);
                actions.push(cover.around(alloc, message)?)
            }
            None => Ok(()),
        }
    }

    // Its part for the singleton, as the coordinator, and for whom messages wait; and then it gossips.
    fn rest(&mut self, alloc: Global, word: u32, actions: &mut Actions) -> Result<(), AllocError>
        ensures state { OnOk result (self.new ≡ (rules.rest word self.old).0) }
        ensures actions { OnOk result (actions.new ≡ actions.old ++ (rules.rest word self.old).1) }
        ensures same { IsSameProcess self.old self.new }
    {
        self.asks_as(alloc, actions)?;
        self.coordinates(alloc, actions)?;
        self.asks_homes(alloc, actions)?;
        self.gossips(alloc, word, actions)
    }

    // A node that exits says so, and stops (Akka's Cluster Specification, "Leaving"), where it may leave already.
    fn leaves(&mut self, alloc: Global, word: u32, actions: &mut Actions) -> Result<(), AllocError>
        ensures state { OnOk result (self.new ≡ (rules.leaves word self.old).0) }
        ensures actions { OnOk result (actions.new ≡ actions.old ++ (rules.leaves word self.old).1) }
        ensures same { IsSameProcess self.old self.new }
    {
        if !self.may_leave() {
            return self.rest(alloc, word, actions);
        }
        self.confirms(alloc, actions)?;
        self.runs = false;
        Ok(())
    }

    // What follows the update of a tick: nothing where the node is Down now; one that is Exiting ends its phase, and leaves
    // where it may; any other does the rest.
    fn goes_on(&mut self, alloc: Global, word: u32, actions: &mut Actions) -> Result<(), AllocError>
        ensures state { OnOk result (self.new ≡ (rules.goes_on word self.old).0) }
        ensures actions { OnOk result (actions.new ≡ actions.old ++ (rules.goes_on word self.old).1) }
        ensures same { IsSameProcess self.old self.new }
    {
        if self.membership.is_gone() {
            return Ok(());
        }
        let members = self.membership.gossip().members();
        if members.is_exiting(self.membership.me()) {
            self.ends_phase(alloc, actions)?;
            return self.leaves(alloc, word, actions);
        }
        self.rest(alloc, word, actions)
    }

    // Adds an action for each tombstone that has waited for as long as the margin now.
    fn ends(&self, alloc: Global, actions: &mut Actions) -> Result<(), AllocError>
        ensures { OnOk result (actions.new ≡ actions.old ++ rules.ends self.now) }
    {
        let settled = self.membership.settled();
        'ended: for index in 0..settled.just_ended_len() {
            if let Some(who) = settled.just_ended(index) {
                let who = who.copy(alloc)?;
                actions.push(Action::MarginEnd(who))?;
            }
        }
        Ok(())
    }

    // Adds a heartbeat to each watched member.
    fn beats(
        &self,
        alloc: Global,
        reused: &mut Reused,
        actions: &mut Actions,
    ) -> Result<(), AllocError>
        ensures { OnOk result (actions.new ≡ actions.old ++ rules.beats self.now) }
    {
        let watched = self.membership.detector().watched();
        'watched: for index in 0..watched.len() {
            if let Some(to) = watched.at(index) {
                actions.push(reused.beat(alloc, index, self.me(), to)?)?;
            }
        }
        Ok(())
    }

    // What a tick of the membership is told by.
    fn tells_of_tick(
        &self,
        alloc: Global,
        change: Change,
        reused: &mut Reused,
    ) -> Result<Actions, AllocError>
        ensures { IfOk result (λ actions. actions ≡ rules.ends self.now ++ rules.beats self.now ++ rules.update_by change.number change.effects) }
    {
        let mut actions = reused.list(alloc);
        self.ends(alloc, &mut actions)?;
        self.beats(alloc, reused, &mut actions)?;
        tell(change, &mut actions)?;
        Ok(actions)
    }

    // A tick of a member.
    pub(crate) fn tick(
        &mut self,
        alloc: Global,
        word: u32,
        reused: &mut Reused,
    ) -> Result<Actions, AllocError>
        requires member { IsTrue (rules.is_member self.old) }
        requires ticks { self.old.membership.ticks < 2 ^ 62 }
        requires watching { IsWatching self.old.membership }
        ensures does { IfOk result (λ actions. Does (rules.tick word self.old) self.new actions) }
        ensures same { IsSameProcess self.old self.new }
    {
        let change = self.membership.tick(alloc)?;
        let mut actions = self.tells_of_tick(alloc, change, reused)?;
        self.goes_on(alloc, word, &mut actions)?;
        Ok(actions)
    }
}
