ghost use Rattle.std.specs.Prelude.{◌≡◌, ◌⊎◌, ◌<◌, ◌≤◌, ◌^◌, ◌+◌, ◌++◌, [], not, true, false, IfOk, OnOk, OnErr, IsTrue, option_copied, option_map};
ghost use Rattle.ak_membership.specs.MembershipContracts.{IsWatching};
ghost use Rattle.std.specs.FinMap as finmap;
ghost use Rattle.ak_region.specs.Region as regions;
ghost use Rattle.ak_node.specs.Node as rules;
ghost use Rattle.ak_node.specs.Sends.{AreValid, ComesValid, IsOffered, IsProcess};
ghost use Rattle.ak_node.specs.NodeContracts.{Does, IsSameProcess, IsLeftOver, IsSilent, IsConcluded, ServesWhileItRuns, is_idle, is_asking, may_ask};

use crate::actions::{push_due, refuse, told};
use crate::given::{Given, Tick, happens};
use crate::own::{is_dead, is_for};
use crate::ranges::{address, process};
use ak_address::{Address, Text, Unique};
use ak_field::EntityId;
use ak_gossip::Gossip;
use ak_membership::{Change, Membership, Reply};
use ak_promise::Ballot;
use ak_reused::Reused;
use ak_settings::Settings;
use ak_settled::Settled;
use ak_sharding::Sharding;
use ak_singleton::Singleton;
use ak_wire::{Action, Actions, Cover, Envelope, Message};
use std::alloc::{AllocError, Global};
use std::marker::Model;

/// What may happen to a node.
#[derive(Drop)]
pub enum NodeEvent {
    /// It founds the cluster.
    Found,
    /// It joins the cluster through an address.
    Join(Address),
    /// Time goes on by a tick; the word chooses to whom it gossips.
    Tick(u32),
    /// A packet arrives.
    Packet(Envelope),
    /// It is asked that a process leaves.
    Leave(Unique),
    /// It is asked to down a process.
    Down(Unique),
    /// A payload is offered for the entity of this id.
    Offer(EntityId, u64),
    /// It stops at once.
    Stop,
}

/// The state of a node, as plain data.
#[derive(Drop)]
pub struct State {
    /// What it knows of the cluster.
    pub membership: Membership,
    /// What it promised, and how far it is with the singleton.
    pub singleton: Singleton,
    /// What it keeps of the shards.
    pub sharding: Sharding,
    /// It has not stopped.
    pub runs: bool,
    /// How many events it was given while it ran.
    pub steps: u64,
}

impl State {
    fn process(&self)
        ensures { IsProcess self.now }
    {
        process(self.me());
        if let Some(target) = self.membership.target() {
            address(target);
        }
    }

    pub(crate) fn me(&self) -> &Unique
        ensures { result.now ≡ rules.me_of self.now }
    {
        self.membership.me()
    }

    // The outside of a packet to one process.
    pub(crate) fn cover(&self, alloc: Global, to: &Unique) -> Result<Cover, AllocError>
        ensures { IfOk result (λ cover. cover ≡ record { from = rules.me_of self.now; to = to.now.address; uid = to.now.uid }) }
    {
        Cover::between(alloc, self.me(), to)
    }

    // Adds the answer to who asked, with what is known now.
    fn answer(
        &self,
        alloc: Global,
        reply: Reply,
        to: &Unique,
        actions: &mut Actions,
    ) -> Result<(), AllocError>
        ensures { OnOk result (actions.new ≡ actions.old ++ rules.answer reply to.now self.now) }
    {
        match reply {
            Reply::Nothing => Ok(()),
            Reply::Welcome => {
                let cover = self.cover(alloc, to)?;
                let gossip = self.membership.gossip().copy(alloc)?;
                actions.push(cover.around(alloc, Message::Welcome(gossip))?)
            }
            Reply::Gossip => {
                let cover = self.cover(alloc, to)?;
                let gossip = self.membership.gossip().copy(alloc)?;
                actions.push(cover.around(alloc, Message::Gossip(gossip))?)
            }
        }
    }

    // What the membership did for who asked.
    fn tells_for(
        &self,
        alloc: Global,
        from: &Unique,
        change: Change,
        reused: &mut Reused,
    ) -> Result<Actions, AllocError>
        ensures { IfOk result (λ actions. actions ≡ rules.update_by change.number change.effects ++ rules.answer change.reply from.now self.now) }
    {
        let reply = change.reply;
        let mut actions = told(alloc, change, reused)?;
        self.answer(alloc, reply, from, &mut actions)?;
        Ok(actions)
    }

    pub(crate) fn found(
        &mut self,
        alloc: Global,
        reused: &mut Reused,
    ) -> Result<Actions, AllocError>
        ensures does { IfOk result (λ actions. Does (rules.found self.old) self.new actions) }
        ensures same { IsSameProcess self.old self.new }
    {
        let change = self.membership.found(alloc)?;
        told(alloc, change, reused)
    }

    pub(crate) fn join(
        &mut self,
        alloc: Global,
        target: &Address,
        reused: &mut Reused,
    ) -> Result<Actions, AllocError>
        ensures does { IfOk result (λ actions. Does (rules.join target.now self.old) self.new actions) }
        ensures same { IsSameProcess self.old self.new }
    {
        if self.membership.is_member() {
            return Ok(Actions::empty(alloc));
        }
        let kept = target.copy(alloc)?;
        let actions = reused.asking(alloc, self.me(), target)?;
        self.membership.join(kept);
        Ok(actions)
    }

    pub(crate) fn leave(
        &mut self,
        alloc: Global,
        who: &Unique,
        reused: &mut Reused,
    ) -> Result<Actions, AllocError>
        ensures does { IfOk result (λ actions. Does (rules.leave who.now self.old) self.new actions) }
        ensures same { IsSameProcess self.old self.new }
    {
        match self.membership.leave(alloc, who) {
            Ok(change) => return told(alloc, change, reused),
            Err(fault) => return refuse(alloc, fault, reused),
        }
    }

    pub(crate) fn down(
        &mut self,
        alloc: Global,
        who: &Unique,
        reused: &mut Reused,
    ) -> Result<Actions, AllocError>
        ensures does { IfOk result (λ actions. Does (rules.down who.now self.old) self.new actions) }
        ensures same { IsSameProcess self.old self.new }
    {
        match self.membership.down(alloc, who) {
            Ok(change) => return told(alloc, change, reused),
            Err(fault) => return refuse(alloc, fault, reused),
        }
    }

    fn on_join(
        &mut self,
        alloc: Global,
        from: &Unique,
        reused: &mut Reused,
    ) -> Result<Actions, AllocError>
        ensures does { IfOk result (λ actions. Does (rules.on_join from.now self.old) self.new actions) }
        ensures same { IsSameProcess self.old self.new }
    {
        match self.membership.on_join(alloc, from) {
            Ok(change) => return self.tells_for(alloc, from, change, reused),
            Err(fault) => return refuse(alloc, fault, reused),
        }
    }

    fn on_gossip(
        &mut self,
        alloc: Global,
        from: &Unique,
        incoming: &Gossip,
        reused: &mut Reused,
    ) -> Result<Actions, AllocError>
        ensures does { IfOk result (λ actions. Does (rules.on_gossip from.now incoming.now self.old) self.new actions) }
        ensures same { IsSameProcess self.old self.new }
    {
        match self.membership.on_gossip(alloc, incoming) {
            Ok(change) => return self.tells_for(alloc, from, change, reused),
            Err(fault) => return refuse(alloc, fault, reused),
        }
    }

    fn on_heartbeat(
        &mut self,
        alloc: Global,
        from: &Unique,
        reused: &mut Reused,
    ) -> Result<Actions, AllocError>
        ensures does { IfOk result (λ actions. Does (rules.on_heartbeat from.now self.old) self.new actions) }
        ensures same { IsSameProcess self.old self.new }
    {
        if !self.membership.is_member() {
            return Ok(Actions::empty(alloc));
        }
        let cover = self.cover(alloc, from)?;
        reused.one(alloc, cover.around(alloc, Message::HeartbeatReply)?)
    }

    fn on_heard(&mut self, alloc: Global, from: &Unique) -> Actions
        ensures does { Does (rules.on_heard from.now self.old) self.new result }
        ensures same { IsSameProcess self.old self.new }
    {
        if self.membership.is_member() {
            self.membership.on_heard(from);
        }
        Actions::empty(alloc)
    }

    fn on_confirmed(&mut self, alloc: Global, from: &Unique) -> Result<Actions, AllocError>
        ensures does { IfOk result (λ actions. Does (rules.on_confirmed from.now self.old) self.new actions) }
        ensures same { IsSameProcess self.old self.new }
    {
        if self.membership.is_member() {
            self.membership.on_confirmed(alloc, from)?;
        }
        Ok(Actions::empty(alloc))
    }

    pub(crate) fn stop(&mut self, alloc: Global) -> Result<Actions, AllocError>
        ensures does { IfOk result (λ actions. Does (rules.stop self.old) self.new actions) }
        ensures same { IsSameProcess self.old self.new }
    {
        self.runs = false;
        Ok(Actions::empty(alloc))
    }

    pub(crate) fn on_packet(
        &mut self,
        alloc: Global,
        envelope: &Envelope,
        reused: &mut Reused,
    ) -> Result<Actions, AllocError>
        ensures does { IfOk result (λ actions. Does (rules.rule (NodeEvent.Packet envelope.now) self.old) self.new actions) }
        ensures same { IsSameProcess self.old self.new }
    {
        match &envelope.message {
            Message::Join => self.on_join(alloc, &envelope.from, reused),
            Message::Welcome(gossip) => self.on_gossip(alloc, &envelope.from, gossip, reused),
            Message::Gossip(gossip) => self.on_gossip(alloc, &envelope.from, gossip, reused),
            Message::Heartbeat => self.on_heartbeat(alloc, &envelope.from, reused),
            Message::HeartbeatReply => Ok(self.on_heard(alloc, &envelope.from)),
            Message::ExitingConfirmed => self.on_confirmed(alloc, &envelope.from),
            Message::Leave(who) => self.leave(alloc, who, reused),
            Message::Down(who) => self.down(alloc, who, reused),
            Message::Ask(ballot) => self.on_ask(alloc, &envelope.from, ballot),
            Message::Granted(ballot, floor, told) => self.on_granted(
                alloc,
                &envelope.from,
                ballot,
                floor,
                told.as_slice(),
            ),
            Message::Busy(ballot, held) => self.on_busy(alloc, ballot, held),
            Message::Old(ballot, last) => self.on_old(alloc, ballot, last),
            Message::HandOverToMe(ballot) => self.on_hand_over(alloc, &envelope.from, ballot),
            Message::HandOverDone(ballot, floor) => self.on_done(alloc, ballot, floor),
            Message::Release(ballot, floor) => self.on_release(alloc, ballot, floor),
            Message::Forward(entity, _) => {
                self.on_forward(alloc, &envelope.from, &envelope.message, entity, reused)
            }
            Message::Offer(entity, _) => {
                self.on_offer(alloc, &envelope.from, &envelope.message, entity, reused)
            }
            _ => self.on_shards(alloc, &envelope.from, &envelope.message, reused),
        }
    }

    // The closing after a rule: the view where it is another, and then that the node stops, or that its view is settled.
    fn closes(&mut self, alloc: Global, actions: &mut Actions) -> Result<(), AllocError>
        ensures state { OnOk result (self.new ≡ (rules.closes self.old).0) }
        ensures actions { OnOk result (actions.new ≡ actions.old ++ (rules.closes self.old).1) }
        ensures same { IsSameProcess self.old self.new }
    {
        let due = self.membership.close(alloc, !self.runs)?;
        self.runs = !due.stopped;
        push_due(due, actions)
    }

    // One event: its rule and then the closing. A node that has stopped does nothing, and a packet for another process is dead.
    // Where the event changes nothing, nothing is due either, since the step before was concluded.
    pub(crate) fn step<E: Given>(
        &mut self,
        alloc: Global,
        event: &E,
        dead: bool,
        reused: &mut Reused,
    ) -> Result<Actions, AllocError>
        requires dead { dead ≡ rules.is_dead (rules.me_of self.old) (E.event event.now) }
        requires steps { self.old.steps < 2 ^ 62 }
        requires ticked { self.old.membership.ticks ≤ self.old.steps }
        requires watching { IsWatching self.old.membership }
        requires concluded { IsConcluded self.old }
        requires asked { self.old.runs ≡ true → is_asking (E.event event.now) self.old ≡ false }
        ensures does { IfOk result (λ actions. Does (rules.step (E.event event.now) self.old) self.new actions) }
        ensures same { IsSameProcess self.old self.new }
        ensures memory { OnErr result (IsTrue (may_ask (E.event event.now) self.old)) }
    {
        if !self.runs {
            return Ok(Actions::empty(alloc));
        }
        self.steps += 1;
        if event.is_idle(self) {
            return Ok(Actions::empty(alloc));
        }
        self.running_step(alloc, event, dead, reused)
    }

    // The event of a node that runs.
    fn running_step<E: Given>(
        &mut self,
        alloc: Global,
        event: &E,
        dead: bool,
        reused: &mut Reused,
    ) -> Result<Actions, AllocError>
        requires dead { dead ≡ rules.is_dead (rules.me_of self.old) (E.event event.now) }
        requires ticks { self.old.membership.ticks < 2 ^ 62 }
        requires watching { IsWatching self.old.membership }
        requires asked { is_asking (E.event event.now) self.old ≡ false }
        ensures does { IfOk result (λ actions. Does (rules.running_step (E.event event.now) self.old) self.new actions) }
        ensures same { IsSameProcess self.old self.new }
    {
        if dead {
            return reused.one(alloc, Action::Dead);
        }
        self.acts(alloc, event, reused)
    }

    fn acts<E: Given>(
        &mut self,
        alloc: Global,
        event: &E,
        reused: &mut Reused,
    ) -> Result<Actions, AllocError>
        requires ticks { self.old.membership.ticks < 2 ^ 62 }
        requires watching { IsWatching self.old.membership }
        requires asked { is_asking (E.event event.now) self.old ≡ false }
        ensures does { IfOk result (λ actions. Does (rules.and_then rules.concludes (rules.rule (E.event event.now) self.old)) self.new actions) }
        ensures same { IsSameProcess self.old self.new }
    {
        let mut actions = event.rule(alloc, self, reused)?;
        self.closes(alloc, &mut actions)?;
        self.forgets();
        self.activates(alloc, &mut actions)?;
        Ok(actions)
    }
}

/// A node. Once out of memory it is spent: it is the same process with the same settings and knows nothing, and each later
/// step answers that it is out of memory. It had no more ticks than steps: an invariant of the type.
#[derive(Drop)]
pub struct Node {
    state: State,
    // What it keeps so that a later step need not make it anew.
    reused: Reused,
    // The error with which it ran out of memory.
    failed: Option<AllocError>,
}

impl Model for Node {
    ghost use Rattle.std.specs.Prelude.{is_some};
    ghost use Rattle.std.specs.Prelude.{◌≡◌, false};
    ghost use Rattle.ak_node.specs.NodeContracts.{NodeModel, IsNode, HasForgotten, IsConcluded};
    ghost use Rattle.ak_node.specs.Sends.{KnowsProcesses, KeepsBallots, KeepsSettled, KeepsShards};
    ghost use Rattle.std.specs.Coded.{codes};
    ghost use Rattle.ak_membership.specs.contracts.membership.Membership as membership;
    ghost use Rattle.ak_singleton.specs.SingletonView.{coded_singleton};
    ghost use Rattle.ak_sharding.specs.ShardingView.{coded_sharding};

    ghost Value = { NodeModel };

    ghost coded = { Prim.hlevel (codes, membership.the_row.coded, coded_singleton, coded_sharding) };

    ghost view = { λ n. record { state = n.state; spent = is_some n.failed } };

    ghost invariant = { λ n. IsNode n.state × HasForgotten (is_some n.failed) n.state × KnowsProcesses n.state × KeepsBallots n.state.singleton × KeepsSettled n.state × KeepsShards n.state × (is_some n.failed ≡ false → IsConcluded n.state) };
}

impl Node {
    /// A process that starts, and knows nothing yet. Only memory can fail.
    pub fn start(alloc: Global, me: Unique, settings: &Settings) -> Result<Node, AllocError>
        ensures { IfOk result (λ node. node ≡ record { state = rules.started me settings.now; spent = false }) }
    {
        settings.invariant();
        let membership = Membership::start(alloc, me, settings)?;
        let singleton = Singleton::new(alloc);
        let sharding = Sharding::new(alloc, settings)?;
        let state = State {
            membership,
            singleton,
            sharding,
            runs: true,
            steps: 0,
        };
        Ok(Node {
            state,
            reused: Reused::nothing(alloc),
            failed: None,
        })
    }

    /// Gives the node one event, and answers its actions; a node that has stopped answers none, and knows what it knew. A packet
    /// that comes has to be valid, as `decode` answers it; then each packet that the node sends is valid too: it has a spelling
    /// as bytes. A text that is offered has to be an entity in its settings; a packet for a text that is none is passed over.
    /// While it runs and knows anybody, it is a member of its own view, and not Down. Memory is asked for while it runs alone, and
    /// not where a member is to join. Once out of memory the node is spent: it still shows its process and its settings, whether
    /// it runs and how many steps it made before, and has forgotten what it knew.
    pub fn step(&mut self, alloc: Global, event: NodeEvent) -> Result<Actions, AllocError>
        requires steps { self.old.state.steps < 2 ^ 62 }
        requires comes { ComesValid event }
        requires offered { IsOffered self.old.state.membership.settings event }
        ensures ok { IfOk result (λ actions. Does (rules.step event self.old.state) self.new.state actions) }
        ensures valid { IfOk result (λ actions. AreValid actions) }
        ensures silent { IfOk result (λ actions. IsSilent self.old.state self.new.state actions) }
        ensures serves { OnOk result (ServesWhileItRuns self.new.state) }
        ensures alive { OnOk result (self.old.spent ≡ false) × OnOk result (self.new.spent ≡ false) }
        ensures spent { OnErr result ((self.new.spent ≡ true) × IsLeftOver self.old.state self.new.state) }
        ensures memory { OnErr result (self.old.spent ≡ true ⊎ IsTrue (may_ask event self.old.state)) }
    {
        let done = self.step_on(alloc, &event);
        drop(event);
        done
    }

    /// Gives the node one event, as `step` does; the event stays with whoever gave it.
    pub fn step_on(&mut self, alloc: Global, event: &NodeEvent) -> Result<Actions, AllocError>
        requires steps { self.old.state.steps < 2 ^ 62 }
        requires comes { ComesValid event.now }
        requires offered { IsOffered self.old.state.membership.settings event.now }
        ensures ok { IfOk result (λ actions. Does (rules.step event.now self.old.state) self.new.state actions) }
        ensures valid { IfOk result (λ actions. AreValid actions) }
        ensures silent { IfOk result (λ actions. IsSilent self.old.state self.new.state actions) }
        ensures serves { OnOk result (ServesWhileItRuns self.new.state) }
        ensures alive { OnOk result (self.old.spent ≡ false) × OnOk result (self.new.spent ≡ false) }
        ensures spent { OnErr result ((self.new.spent ≡ true) × IsLeftOver self.old.state self.new.state) }
        ensures memory { OnErr result (self.old.spent ≡ true ⊎ IsTrue (may_ask event.now self.old.state)) }
    {
        let dead = is_dead(self.me(), event);
        self.take(alloc, event, dead)
    }

    /// Gives the node a tick, as `step` does with such an event; the word chooses to whom it gossips.
    pub fn tick(&mut self, alloc: Global, word: u32) -> Result<Actions, AllocError>
        requires steps { self.old.state.steps < 2 ^ 62 }
        ensures ok { IfOk result (λ actions. Does (rules.step (NodeEvent.Tick word) self.old.state) self.new.state actions) }
        ensures valid { IfOk result (λ actions. AreValid actions) }
        ensures silent { IfOk result (λ actions. IsSilent self.old.state self.new.state actions) }
        ensures serves { OnOk result (ServesWhileItRuns self.new.state) }
        ensures alive { OnOk result (self.old.spent ≡ false) × OnOk result (self.new.spent ≡ false) }
        ensures spent { OnErr result ((self.new.spent ≡ true) × IsLeftOver self.old.state self.new.state) }
        ensures memory { OnErr result (self.old.spent ≡ true ⊎ IsTrue self.old.state.runs) }
    {
        self.take(alloc, &Tick { word }, false)
    }

    // The event is taken, and stays with whoever gave it, who says whether it is a packet for another process.
    #[inline(always)]
    fn take<E: Given>(
        &mut self,
        alloc: Global,
        event: &E,
        dead: bool,
    ) -> Result<Actions, AllocError>
        requires dead { dead ≡ rules.is_dead (rules.me_of self.old.state) (E.event event.now) }
        requires steps { self.old.state.steps < 2 ^ 62 }
        requires comes { ComesValid (E.event event.now) }
        ensures ok { IfOk result (λ actions. Does (rules.step (E.event event.now) self.old.state) self.new.state actions) }
        ensures valid { IfOk result (λ actions. AreValid actions) }
        ensures silent { IfOk result (λ actions. IsSilent self.old.state self.new.state actions) }
        ensures serves { OnOk result (ServesWhileItRuns self.new.state) }
        ensures alive { OnOk result (self.old.spent ≡ false) × OnOk result (self.new.spent ≡ false) }
        ensures spent { OnErr result ((self.new.spent ≡ true) × IsLeftOver self.old.state self.new.state) }
        ensures memory { OnErr result (self.old.spent ≡ true ⊎ IsTrue (may_ask (E.event event.now) self.old.state)) }
    {
        if let Some(error) = self.failed {
            return Err(error);
        }
        event.said();
        self.state.process();
        let runs = self.state.runs;
        let steps = self.state.steps;
        let done = happens(alloc, event, dead, &mut self.state, &mut self.reused);
        match done {
            Ok(actions) => {
                self.state.membership.invariant();
                self.state.membership.gossip().invariant();
                Ok(actions)
            }
            Err(error) => {
                self.state.membership.forget(alloc);
                self.state.singleton = Singleton::new(alloc);
                self.state.sharding.forget(alloc);
                self.state.runs = runs;
                self.state.steps = steps;
                self.reused = Reused::nothing(alloc);
                self.failed = Some(error);
                Err(error)
            }
        }
    }

    /// Gives the node a valid packet, as `step` does with such an event; the packet stays with whoever gave it. One that has
    /// stopped asks for no memory.
    pub fn receive(&mut self, alloc: Global, envelope: &Envelope) -> Result<Actions, AllocError>
        requires steps { self.old.state.steps < 2 ^ 62 }
        requires comes { ComesValid (NodeEvent.Packet envelope.now) }
        ensures ok { IfOk result (λ actions. Does (rules.step (NodeEvent.Packet envelope.now) self.old.state) self.new.state actions) }
        ensures valid { IfOk result (λ actions. AreValid actions) }
        ensures silent { IfOk result (λ actions. IsSilent self.old.state self.new.state actions) }
        ensures serves { OnOk result (ServesWhileItRuns self.new.state) }
        ensures alive { OnOk result (self.old.spent ≡ false) × OnOk result (self.new.spent ≡ false) }
        ensures spent { OnErr result ((self.new.spent ≡ true) × IsLeftOver self.old.state self.new.state) }
        ensures memory { OnErr result (self.old.spent ≡ true ⊎ IsTrue self.old.state.runs) }
    {
        let dead = !is_for(self.me(), envelope);
        self.take(alloc, envelope, dead)
    }

    /// Gives the node a valid packet that is for it, as `receive` does; whoever found that it is asked already.
    pub fn receive_own(&mut self, alloc: Global, envelope: &Envelope) -> Result<Actions, AllocError>
        requires own { IsTrue (rules.is_for (rules.me_of self.old.state) envelope.now) }
        requires steps { self.old.state.steps < 2 ^ 62 }
        requires comes { ComesValid (NodeEvent.Packet envelope.now) }
        ensures ok { IfOk result (λ actions. Does (rules.step (NodeEvent.Packet envelope.now) self.old.state) self.new.state actions) }
        ensures valid { IfOk result (λ actions. AreValid actions) }
        ensures silent { IfOk result (λ actions. IsSilent self.old.state self.new.state actions) }
        ensures serves { OnOk result (ServesWhileItRuns self.new.state) }
        ensures alive { OnOk result (self.old.spent ≡ false) × OnOk result (self.new.spent ≡ false) }
        ensures spent { OnErr result ((self.new.spent ≡ true) × IsLeftOver self.old.state self.new.state) }
        ensures memory { OnErr result (self.old.spent ≡ true ⊎ IsTrue self.old.state.runs) }
    {
        self.take(alloc, envelope, false)
    }

    /// Takes back what a step answered, which serves a later step: as it is, or with its actions dropped and their room alone. Takes no
    /// memory, and changes nothing that the node shows.
    pub fn take_back(&mut self, actions: Actions)
        ensures { self.new ≡ self.old }
    {
        self.reused.take_back(actions);
    }

    /// The process that it is.
    pub fn me(&self) -> &Unique
        ensures { result.now ≡ rules.me_of self.now.state }
    {
        self.state.membership.me()
    }

    /// Whether it has stopped.
    pub fn stopped(&self) -> bool
        ensures { result ≡ not self.now.state.runs }
    {
        !self.state.runs
    }

    /// How many events it was given while it ran.
    pub fn steps(&self) -> u64
        ensures { result ≡ self.now.state.steps }
    {
        self.state.steps
    }

    /// Whether the text is an entity in its settings, so that a payload for it may be offered. Takes no memory.
    pub fn entity_ok(&self, entity: &[u8]) -> bool
        ensures { result ≡ rules.is_entity_at entity.now self.now.state }
    {
        self.state.membership.settings().entity_ok(entity)
    }

    /// What it knows.
    pub fn gossip(&self) -> &Gossip
        ensures { result.now ≡ rules.known self.now.state }
    {
        self.state.membership.gossip()
    }

    /// The last view that it noted as settled.
    pub fn settled(&self) -> &Settled
        ensures { result.now ≡ self.now.state.membership.settled }
    {
        self.state.membership.settled()
    }

    /// The ballot with which it is the active singleton: from the step that told `Active` on, until one tells that it ended or
    /// stopped; none exactly where it is not (Akka's "Cluster Singleton"). Takes no memory.
    pub fn active(&self) -> Option<&Ballot>
        ensures { option_copied result ≡ rules.active self.now.state }
    {
        self.state.active()
    }

    /// The number with which it hosts the shard; none where it does not, or where there is no such shard (Akka's Cluster
    /// Sharding, "How it works"; the numbers are this project's choice). Takes no memory.
    pub fn hosts(&self, shard: u32) -> Option<u64>
        ensures { result ≡ (regions.slot_of self.now.state.sharding.region shard).hosted }
    {
        self.state.sharding.hosts(shard)
    }

    /// The payloads that were delivered to the entity since it was started here, the first one first; none exactly where the
    /// entity is not active here. Takes no memory.
    pub fn log(&self, entity: &Text) -> Option<&[u64]>
        ensures { option_copied result ≡ option_map (λ active. active.log) (finmap.get self.now.state.sharding.entities entity.now) }
    {
        self.state.sharding.log(entity)
    }
}
