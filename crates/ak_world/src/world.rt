ghost use Rattle.std.specs.Prelude.{◌≡◌, ℕ, ◌+◌, ◌-◌, ◌<◌, ◌≤◌, ◌^◌, ◌++◌, [], true, false, length, take, slice_get, IfOk, IfErr, OnOk, Option, None, Some, Result, Ok, Err, IsTrue};
ghost use Rattle.std.specs.Option.{option_copied, option_map};
ghost use Rattle.ak_wire.specs.Wire.{sent};
ghost use Rattle.ak_world.specs.World as rules;
ghost use Rattle.ak_world.specs.Margin.{IsMargin};
ghost use Rattle.ak_world.specs.Singletons.{FinishedHaveStopped, OneIsActive};
ghost use Rattle.ak_world.specs.declared.margin.Margin.TheVariants.{Kept};
ghost use Rattle.ak_world.specs.MarginMark as mark;
ghost use Rattle.ak_address.specs.Unique.{IsUnique, UniqueModel};
ghost use Rattle.ak_address.specs.Uniques.{has};
ghost use Rattle.ak_clock.specs.Version.{Counts, Covers};
ghost use Rattle.ak_history.specs.declared.entry.Entry.{Entry};
ghost use Rattle.ak_history.specs.History.{is_covered};
ghost use Rattle.ak_world.specs.Held.{Holds, Held, Made};
ghost use Rattle.ak_world.specs.Fold.{IsFold, IsIn};
ghost use Rattle.ak_gossip.specs.Gossip.{GossipState};
ghost use Rattle.ak_settled.specs.SettledView.{NotedView};
ghost use Rattle.ak_node.specs.declared.node.State.{State};
ghost use Rattle.ak_world.specs.InRun.{WasStarted, HasStopped, AllServe, RunAlone, IsConfirmed, IsNamedIn, IsSettled, HasNoted};
ghost use Rattle.ak_world.specs.SettledLine.{WasSettled, IsOverHalf, AreInLine};
ghost use Rattle.ak_settings.specs.Settings.{SettingsModel, settling_size};
ghost use Rattle.ak_node.specs.Node as rules_of_nodes;
ghost use Rattle.ak_node.specs.Sends.{AreValid, ComesValid, IsOffered};
ghost use Rattle.ak_world.specs.Double.{IsFirstDouble};
ghost use Rattle.ak_world.specs.Homes.{HasOneHome};
ghost use Rattle.ak_world.specs.Places.{AreAtOneNode};
ghost use Rattle.ak_world.specs.WorldContracts.{AreSpelled, Applies, Scenes, IsNoMemory, IsReady, HaveSettings, Acts, Keeps, state_of, doubled_of};
ghost use Rattle.ak_world.specs.DoubleMark.{NextDouble};
ghost use Rattle.ak_world.specs.Stored.{AreToldApart, LeavesToldApart, different};

use crate::double::{Double, first_made};
use crate::margin::{Margin, first_end};
use crate::marks::{Marks, keep_step};
use crate::packets::Packets;
use crate::seek::{Places, is_in_use, node_near, node_of, receiver_near};
use ak_accepted::Accepted;
use ak_address::{Address, Unique};
use ak_field::EntityId;
use ak_history::History;
use ak_node::{Node, NodeEvent};
use ak_packet::Packet;
use ak_schedule::Event;
use ak_settings::Settings;
use ak_wire::{Action, Actions, Envelope};
use std::alloc::{AllocError, AllocFailed, Global};
use std::marker::Model;

/// Why an event may not happen in a world. The first reason that applies is the answer.
#[derive(Clone, Copy, Debug, PartialEq, Eq)]
pub enum Reason {
    /// The address of a process that starts, or through which one joins, is not listed.
    Unlisted,
    /// The process was started before.
    UniqueUsed,
    /// A process runs at that address.
    AddressInUse,
    /// The cluster was founded before.
    SecondFound,
    /// The process that acts was never started.
    UnknownNode,
    /// The process that acts has stopped.
    NodeStopped,
    /// There is no packet of that number: so many were sent.
    NoPacket { sent: u64 },
    /// As many packets were sent as may be: 200,000.
    TooManyPackets,
    /// As many processes were started as may be: 64.
    TooManyStarts,
    /// The text that is offered is no entity in the settings of the world.
    BadEntity,
}

/// Why a world did not apply an event.
#[derive(Clone, Copy, Debug, PartialEq, Eq)]
pub enum Refused {
    /// The event may not happen in this world.
    Invalid(Reason),
    /// Memory ran out; the event may happen.
    NoMemory(AllocError),
}

/// What an event did: the acting node, by its start number from 0 on, or none for a delivery that reached nobody;
/// the number of the first packet that it may have sent; the packet that came, where the event is a delivery; and its actions.
#[derive(Drop)]
pub struct Step {
    // The first field, since a tag of one byte stands before it in an answer: after that byte a smaller field would be written in
    // pieces and read at once, for which a processor waits.
    pub first_packet: u64,
    pub node: Option<u32>,
    pub arrived: Option<Packet>,
    pub actions: Actions,
}

// A schedule may start this many processes.
pub(crate) const MOST_STARTS: usize = 64;

// A world with this many packets accepts no event.
const MOST_PACKETS: usize = 200_000;

// What a world is made of, without its list of events.
#[derive(Drop)]
pub(crate) struct Scene {
    settings: Settings,
    pub(crate) nodes: Vec<Node>,
    places: Places,
    packets: Packets,
    history: History,
    founded: bool,
}

impl Scene {
    fn start(&mut self, alloc: Global, who: &Unique) -> Result<Step, Refused>
        ensures arrived { IfOk result (λ step. step.arrived ≡ None) }
        ensures settings { self.new.settings ≡ self.old.settings }
        ensures scenes { Scenes (state_of self.old) (rules.happens self.old.settings (Event.Start who.now) (state_of self.old)) result (state_of self.new) }
    {
        if !self.settings.is_listed(&who.address) {
            return Err(Refused::Invalid(Reason::Unlisted));
        }
        if node_of(&self.nodes, who).is_some() {
            return Err(Refused::Invalid(Reason::UniqueUsed));
        }
        if is_in_use(&self.nodes, &who.address) {
            return Err(Refused::Invalid(Reason::AddressInUse));
        }
        if self.is_full() {
            return Err(Refused::Invalid(Reason::TooManyPackets));
        }
        if self.nodes.len() >= MOST_STARTS {
            return Err(Refused::Invalid(Reason::TooManyStarts));
        }
        self.start_node(alloc, who)
    }

    fn start_node(&mut self, alloc: Global, who: &Unique) -> Result<Step, Refused>
        requires { length self.old.nodes.items < 64 }
        ensures arrived { IfOk result (λ step. step.arrived ≡ None) }
        ensures settings { self.new.settings ≡ self.old.settings }
        ensures scenes { Scenes (state_of self.old) (Ok (rules.starts self.old.settings who.now (state_of self.old))) result (state_of self.new) }
    {
        let index = self.nodes.len();
        // Room for all that may start, so that no node is moved later.
        self.nodes.reserve(MOST_STARTS - index)?;
        let me = who.copy(alloc)?;
        let node = Node::start(alloc, me, &self.settings)?;
        self.nodes.push(node)?;
        self.places.note(&who.address, index);
        Ok(Step {
            node: number_of(index),
            first_packet: self.next_packet(),
            arrived: None,
            actions: Actions::empty(alloc),
        })
    }

    fn found(&mut self, alloc: Global, who: &Unique) -> Result<Step, Refused>
        requires ready { IsReady (state_of self.old) }
        requires apart { LeavesToldApart (rules.happens self.old.settings (Event.Found who.now) (state_of self.old)) }
        ensures arrived { IfOk result (λ step. step.arrived ≡ None) }
        ensures settings { self.new.settings ≡ self.old.settings }
        ensures scenes { Scenes (state_of self.old) (rules.happens self.old.settings (Event.Found who.now) (state_of self.old)) result (state_of self.new) }
    {
        if self.founded {
            return Err(Refused::Invalid(Reason::SecondFound));
        }
        match self.act(alloc, who, &NodeEvent::Found) {
            Ok(step) => {
                self.founded = true;
                Ok(step)
            }
            Err(why) => Err(why),
        }
    }

    fn join(&mut self, alloc: Global, who: &Unique, target: &Address) -> Result<Step, Refused>
        requires ready { IsReady (state_of self.old) }
        requires apart { LeavesToldApart (rules.happens self.old.settings (Event.Join who.now target.now) (state_of self.old)) }
        ensures arrived { IfOk result (λ step. step.arrived ≡ None) }
        ensures settings { self.new.settings ≡ self.old.settings }
        ensures scenes { Scenes (state_of self.old) (rules.happens self.old.settings (Event.Join who.now target.now) (state_of self.old)) result (state_of self.new) }
    {
        if !self.settings.is_listed(target) {
            return Err(Refused::Invalid(Reason::Unlisted));
        }
        let index = match self.actor(who) {
            Ok(index) => index,
            Err(why) => return Err(Refused::Invalid(why)),
        };
        let target = target.copy(alloc)?;
        self.give(alloc, index, &NodeEvent::Join(target))
    }

    fn tick(&mut self, alloc: Global, who: &Unique, word: u32) -> Result<Step, Refused>
        requires ready { IsReady (state_of self.old) }
        requires apart { LeavesToldApart (rules.happens self.old.settings (Event.Tick who.now word) (state_of self.old)) }
        ensures arrived { IfOk result (λ step. step.arrived ≡ None) }
        ensures settings { self.new.settings ≡ self.old.settings }
        ensures scenes { Scenes (state_of self.old) (rules.happens self.old.settings (Event.Tick who.now word) (state_of self.old)) result (state_of self.new) }
    {
        let index = match self.actor(who) {
            Ok(index) => index,
            Err(why) => return Err(Refused::Invalid(why)),
        };
        let actions = self.nodes[index].tick(alloc, word)?;
        self.keep(alloc, index, None, actions)
    }

    fn stop(&mut self, alloc: Global, who: &Unique) -> Result<Step, Refused>
        requires ready { IsReady (state_of self.old) }
        requires apart { LeavesToldApart (rules.happens self.old.settings (Event.Stop who.now) (state_of self.old)) }
        ensures arrived { IfOk result (λ step. step.arrived ≡ None) }
        ensures settings { self.new.settings ≡ self.old.settings }
        ensures scenes { Scenes (state_of self.old) (rules.happens self.old.settings (Event.Stop who.now) (state_of self.old)) result (state_of self.new) }
    {
        self.act(alloc, who, &NodeEvent::Stop)
    }

    fn leave(&mut self, alloc: Global, who: &Unique, member: &Unique) -> Result<Step, Refused>
        requires ready { IsReady (state_of self.old) }
        requires apart { LeavesToldApart (rules.happens self.old.settings (Event.Leave who.now member.now) (state_of self.old)) }
        ensures arrived { IfOk result (λ step. step.arrived ≡ None) }
        ensures settings { self.new.settings ≡ self.old.settings }
        ensures scenes { Scenes (state_of self.old) (rules.happens self.old.settings (Event.Leave who.now member.now) (state_of self.old)) result (state_of self.new) }
    {
        let index = match self.actor(who) {
            Ok(index) => index,
            Err(why) => return Err(Refused::Invalid(why)),
        };
        let member = member.copy(alloc)?;
        self.give(alloc, index, &NodeEvent::Leave(member))
    }

    fn down(&mut self, alloc: Global, who: &Unique, member: &Unique) -> Result<Step, Refused>
        requires ready { IsReady (state_of self.old) }
        requires apart { LeavesToldApart (rules.happens self.old.settings (Event.Down who.now member.now) (state_of self.old)) }
        ensures arrived { IfOk result (λ step. step.arrived ≡ None) }
        ensures settings { self.new.settings ≡ self.old.settings }
        ensures scenes { Scenes (state_of self.old) (rules.happens self.old.settings (Event.Down who.now member.now) (state_of self.old)) result (state_of self.new) }
    {
        let index = match self.actor(who) {
            Ok(index) => index,
            Err(why) => return Err(Refused::Invalid(why)),
        };
        let member = member.copy(alloc)?;
        self.give(alloc, index, &NodeEvent::Down(member))
    }

    fn offer(
        &mut self,
        alloc: Global,
        who: &Unique,
        entity: &EntityId,
        payload: u64,
    ) -> Result<Step, Refused>
        requires ready { IsReady (state_of self.old) }
        requires same { HaveSettings self.old.settings (state_of self.old) }
        requires apart { LeavesToldApart (rules.happens self.old.settings (Event.Offer who.now entity.now payload) (state_of self.old)) }
        ensures arrived { IfOk result (λ step. step.arrived ≡ None) }
        ensures settings { self.new.settings ≡ self.old.settings }
        ensures scenes { Scenes (state_of self.old) (rules.happens self.old.settings (Event.Offer who.now entity.now payload) (state_of self.old)) result (state_of self.new) }
    {
        let index = match self.actor(who) {
            Ok(index) => index,
            Err(why) => return Err(Refused::Invalid(why)),
        };
        if !self.settings.entity_ok(entity.name().bytes()) {
            return Err(Refused::Invalid(Reason::BadEntity));
        }
        let entity = entity.copy(alloc)?;
        self.give(alloc, index, &NodeEvent::Offer(entity, payload))
    }

    fn deliver(&mut self, alloc: Global, number: u64) -> Result<Step, Refused>
        requires ready { IsReady (state_of self.old) }
        requires apart { LeavesToldApart (rules.happens self.old.settings (Event.Deliver number) (state_of self.old)) }
        ensures arrived { IfOk result (λ step. step.arrived ≡ rules.numbered self.new.packets number) }
        ensures settings { self.new.settings ≡ self.old.settings }
        ensures scenes { Scenes (state_of self.old) (rules.happens self.old.settings (Event.Deliver number) (state_of self.old)) result (state_of self.new) }
    {
        let is_full = self.is_full();
        let Some(packet) = self.packets.at(number) else {
            let sent = self.packets.len() as u64;
            return Err(Refused::Invalid(Reason::NoPacket { sent }));
        };
        if is_full {
            return Err(Refused::Invalid(Reason::TooManyPackets));
        }
        let packet = packet.share()?;
        let near = self.places.near(&packet.envelope().to);
        let Some(index) = receiver_near(&self.nodes, near, packet.envelope()) else {
            return Ok(Step {
                node: None,
                first_packet: self.next_packet(),
                arrived: Some(packet),
                actions: Actions::empty(alloc),
            });
        };
        let actions = self.nodes[index].receive_own(alloc, packet.envelope())?;
        self.keep(alloc, index, Some(packet), actions)
    }

    // As many packets were sent as may be.
    fn is_full(&self) -> bool
        ensures { result ≡ rules.is_full (state_of self.now) }
    {
        self.packets.len() >= MOST_PACKETS
    }

    // Which node acts, or why none does.
    #[inline(always)]
    fn actor(&self, who: &Unique) -> Result<usize, Reason>
        requires { IsReady (state_of self.now) }
        ensures { Acts who.now (state_of self.now) result }
    {
        let near = self.places.near(&who.address);
        let Some(index) = node_near(&self.nodes, near, who) else {
            return Err(Reason::UnknownNode);
        };
        if self.nodes[index].stopped() {
            return Err(Reason::NodeStopped);
        }
        if self.is_full() {
            return Err(Reason::TooManyPackets);
        }
        Ok(index)
    }

    // The process is given an event.
    fn act(&mut self, alloc: Global, who: &Unique, event: &NodeEvent) -> Result<Step, Refused>
        requires ready { IsReady (state_of self.old) }
        requires apart { LeavesToldApart (rules.acts event.now (rules.node_of who.now (state_of self.old)) (state_of self.old)) }
        requires comes { ComesValid event.now }
        requires offered { (settings : SettingsModel) → IsOffered settings event.now }
        ensures arrived { IfOk result (λ step. step.arrived ≡ None) }
        ensures settings { self.new.settings ≡ self.old.settings }
        ensures scenes { Scenes (state_of self.old) (rules.acts event.now (rules.node_of who.now (state_of self.old)) (state_of self.old)) result (state_of self.new) }
    {
        match self.actor(who) {
            Ok(index) => return self.give(alloc, index, event),
            Err(why) => return Err(Refused::Invalid(why)),
        }
    }

    // The node at an index is given an event; what it sends and updates is kept.
    fn give(&mut self, alloc: Global, index: usize, event: &NodeEvent) -> Result<Step, Refused>
        requires ready { IsReady (state_of self.old) }
        requires apart { LeavesToldApart (rules.gives event.now index (slice_get (state_of self.old).nodes index) (state_of self.old)) }
        requires index { index < length self.old.nodes.items }
        requires comes { ComesValid event.now }
        requires offered { (n : State) → slice_get (state_of self.old).nodes index ≡ Some n → IsOffered n.membership.settings event.now }
        ensures arrived { IfOk result (λ step. step.arrived ≡ None) }
        ensures settings { self.new.settings ≡ self.old.settings }
        ensures scenes { Scenes (state_of self.old) (rules.gives event.now index (slice_get (state_of self.old).nodes index) (state_of self.old)) result (state_of self.new) }
    {
        let actions = self.nodes[index].step_on(alloc, event)?;
        self.keep(alloc, index, None, actions)
    }

    // What the node at an index sends and updates is kept, after it was given a packet or another event.
    #[inline(always)]
    fn keep(
        &mut self,
        alloc: Global,
        index: usize,
        arrived: Option<Packet>,
        actions: Actions,
    ) -> Result<Step, Refused>
        requires valid { AreValid actions }
        requires apart { AreToldApart (self.old.packets ++ sent actions) }
        requires number { index < 64 }
        requires index { index < length self.old.nodes.items }
        ensures arrived { IfOk result (λ step. step.arrived ≡ arrived) }
        ensures settings { self.new.settings ≡ self.old.settings }
        ensures kept { (n : State) → slice_get (state_of self.old).nodes index ≡ Some n → IfOk result (λ step. Keeps index (rules_of_nodes.me_of n) actions (state_of self.old) step (state_of self.new)) }
        ensures refused { IfErr result IsNoMemory }
    {
        let first_packet = self.next_packet();
        keep_actions(
            alloc,
            index,
            self.nodes[index].me(),
            actions.as_slice(),
            &mut self.packets,
            &mut self.history,
        )?;
        Ok(Step {
            node: number_of(index),
            first_packet,
            arrived,
            actions,
        })
    }

    // What an event makes of the world, or the first reason why it is refused.
    #[inline(always)]
    fn happens(&mut self, alloc: Global, event: &Event) -> Result<Step, Refused>
        requires ready { IsReady (state_of self.old) }
        requires same { HaveSettings self.old.settings (state_of self.old) }
        requires apart { LeavesToldApart (rules.happens self.old.settings event.now (state_of self.old)) }
        ensures arrived { IfOk result (λ step. step.arrived ≡ rules.arrived_in event.now (state_of self.new)) }
        ensures settings { self.new.settings ≡ self.old.settings }
        ensures scenes { Scenes (state_of self.old) (rules.happens self.old.settings event.now (state_of self.old)) result (state_of self.new) }
    {
        match event {
            Event::Start(who) => self.start(alloc, who),
            Event::Found(who) => self.found(alloc, who),
            Event::Join(who, target) => self.join(alloc, who, target),
            Event::Tick(who, word) => self.tick(alloc, who, *word),
            Event::Deliver(number) => self.deliver(alloc, *number),
            Event::Leave(who, member) => self.leave(alloc, who, member),
            Event::Down(who, member) => self.down(alloc, who, member),
            Event::Offer(who, entity, payload) => self.offer(alloc, who, entity, *payload),
            Event::Stop(who) => self.stop(alloc, who),
        }
    }

    // Nothing has happened any more. What is kept is given back.
    fn clear(&mut self, alloc: Global)
        ensures settings { self.new.settings ≡ self.old.settings }
        ensures empty { state_of self.new ≡ rules.empty_world }
    {
        self.nodes.clear();
        self.packets.clear();
        self.history = History::empty(alloc);
        self.founded = false;
    }

    // Whether the margin was kept, after a step of this number.
    pub(crate) fn marked(&self, margin: Margin, number: u64, step: &Step) -> Margin
        requires { length self.now.nodes.items ≤ 64 }
        ensures { result ≡ mark.marked margin number (record { world = state_of self.now; node = step.now.node; actions = step.now.actions }) }
    {
        let Margin::Kept = margin else {
            return margin;
        };
        let Some(node) = step.node else {
            return Margin::Kept;
        };
        let Some(index) = first_end(&self.nodes, step.actions.as_slice()) else {
            return Margin::Kept;
        };
        match number_of(index) {
            Some(member) => Margin::Broken {
                step: number,
                node,
                member,
            },
            None => Margin::Kept,
        }
    }

    // The double of a step of this number, where none was before.
    pub(crate) fn double_at(
        &self,
        alloc: Global,
        number: u64,
        step: &Step,
    ) -> Result<Option<Double>, AllocError>
        requires { length self.now.nodes.items ≤ 64 }
        ensures { IfOk result (λ double. NextDouble None number (state_of self.now).nodes step.now.node step.now.actions (option_map doubled_of double)) }
    {
        match step.node {
            Some(node) => first_made(alloc, &self.nodes, node, number, step.actions.as_slice()),
            None => Ok(None),
        }
    }

    // The number of the next packet that is sent.
    fn next_packet(&self) -> u64
        ensures { result ≡ length self.now.packets + 1 }
    {
        self.packets.len() as u64 + 1
    }
}

// A start number: fewer processes are started than have a number.
pub(crate) fn number_of(index: usize) -> Option<u32>
    requires { index < 64 }
    ensures { result ≡ Some index }
{
    Some(index as u32)
}

// What the actions of the node of a start number send is kept, each packet once, and what they update is added to the history.
#[inline(never)]
fn keep_actions(
    alloc: Global,
    from: usize,
    author: &Unique,
    actions: &[Action],
    packets: &mut Packets,
    history: &mut History,
) -> Result<(), AllocError>
    requires valid { AreValid actions.now }
    requires apart { AreToldApart (packets.old ++ sent actions.now) }
    ensures sent { OnOk result (packets.new ≡ packets.old ++ sent actions.now) }
    ensures numbered { OnOk result (length packets.new < 2 ^ 63) }
    ensures updated { OnOk result (history.new ≡ rules.recorded author.now actions.now history.old) }
{
    'actions: for action in actions {
        match action {
            Action::Send(envelope) => packets.push(from, envelope)?,
            Action::Update(_, effects) => {
                history.push(alloc, author, effects.copy(alloc)?)?;
            }
            _ => {}
        }
    }
    let _many = packets.len();
    Ok(())
}

impl From<AllocError> for Refused {
    ghost use Rattle.ak_world.specs.declared.world.Refused.TheVariants.{NoMemory};

    ghost from_gives = { λ error refused. refused ≡ NoMemory error };

    fn from(error: AllocError) -> Refused {
        Refused::NoMemory(error)
    }
}

impl<T: Drop> From<AllocFailed<T>> for Refused {
    ghost from_gives = { λ _ refused. IsNoMemory refused };

    fn from(error: AllocFailed<T>) -> Refused {
        Refused::NoMemory(error.into())
    }
}

// Each tells a proof what is true of every value of a type. They do nothing.
fn process(who: &Unique)
    ensures { IsUnique who.now }
{
    let _uid = who.uid;
}

fn start_has_uid(event: &Event)
    ensures { (u : UniqueModel) → event.now ≡ Event.Start u → 1 ≤ u.uid }
{
    if let Event::Start(who) = event {
        process(who);
    }
}

/// A world: the run of its settings over the events that it accepted. Once out of memory it is spent: it still shows its
/// settings, the events that it accepted, and the margin and the first double of these; its nodes, packets and history are empty;
/// and each later event answers that it is out of memory.
#[derive(Drop)]
pub struct World {
    scene: Scene,
    accepted: Accepted,
    marks: Marks,
    // The error with which it ran out of memory.
    failed: Option<AllocError>,
}

impl Model for World {
    ghost use Rattle.std.specs.Coded.{codes};
    ghost use Rattle.ak_address.specs.Unique.{coded_address, coded_unique};
    ghost use Rattle.ak_settings.specs.Settings.{coded_settings};
    ghost use Rattle.ak_gossip.specs.Gossip.{coded_gossip};
    ghost use Rattle.ak_member.specs.View.{coded_uniques};
    ghost use Rattle.ak_membership.specs.contracts.membership.Membership as membership;
    ghost use Rattle.ak_promise.specs.Ballot.{coded_ballot};
    ghost use Rattle.ak_clock.specs.Version.{coded_counts};
    ghost use Rattle.ak_singleton.specs.SingletonView.{coded_singleton};
    ghost use Rattle.ak_sharding.specs.ShardingView.{coded_sharding};
    ghost use Rattle.std.specs.Prelude.{is_some};
    ghost use Rattle.std.specs.Option.{option_map};
    ghost use Rattle.ak_world.specs.WorldContracts.{WorldModel, state_of, doubled_of, IsWorld};

    ghost Value = { WorldModel };

    ghost coded = { Prim.hlevel (codes, coded_address, coded_unique, coded_uniques, coded_settings, coded_gossip, coded_ballot, coded_counts, membership.the_row.coded, coded_singleton, coded_sharding) };

    ghost view = { λ w. record { settings = w.scene.settings; state = state_of w.scene; events = w.accepted; spent = is_some w.failed } };

    ghost invariant = { λ w. IsWorld w.scene.settings (state_of w.scene) w.accepted w.marks.margin (option_map doubled_of w.marks.double) (is_some w.failed) };
}

impl World {
    /// The world in which nothing has happened. Takes no memory.
    pub fn new(alloc: Global, settings: Settings) -> World
        ensures { result ≡ record { settings = settings; state = rules.empty_world; events = []; spent = false } }
    {
        let scene = Scene {
            settings,
            nodes: Vec::new(alloc),
            places: Places::none(),
            packets: Packets::none(alloc),
            history: History::empty(alloc),
            founded: false,
        };
        World {
            scene,
            accepted: Accepted::none(alloc),
            marks: Marks::none(),
            failed: None,
        }
    }

    /// The world in which nothing has happened, under these settings, again: the room that its nodes, packets and events took
    /// serves those that come. Takes no memory, and a spent world is spent no more.
    pub fn renew(&mut self, alloc: Global, settings: Settings)
        ensures { self.new ≡ record { settings = settings; state = rules.empty_world; events = []; spent = false } }
    {
        self.scene.clear(alloc);
        self.scene.settings = settings;
        self.accepted.clear();
        self.marks = Marks::none();
        self.failed = None;
    }

    /// Its settings.
    pub fn settings(&self) -> &Settings
        ensures { result.now ≡ self.now.settings }
    {
        &self.scene.settings
    }

    /// Applies one event, or says why it is refused: the first reason of `Reason` that applies, whether or not memory
    /// would be found. A refusal leaves the world as it was. Memory runs out at an accepted event alone, and then the world
    /// is spent.
    ///
    /// What a node knows and what a packet carries is the fold of the history: its members with their statuses, its
    /// tombstones and its rows are those that its version shows. So equal versions have equal members, statuses,
    /// tombstones and rows, whenever and wherever they are held: after any two numbers of accepted events, in any two
    /// nodes or packets.
    ///
    /// Each process in the seen set of a node or of a gossip in a packet held exactly that version at the end of one of its
    /// steps so far. Whoever knows an entry, a node or a packet, knows all that its author knew when it made the entry. Of
    /// two versions that one process held, the later covers the earlier.
    ///
    /// Each running node that knows anybody is a member of its own view, and not Down there. At one address at most one
    /// process runs. Whoever is said to have stopped has: a process with a confirmed tombstone, one that a node has heard
    /// say so, and one whose packet says so. Whoever is named anywhere was started, at a listed address.
    ///
    /// What a node has noted as settled is the view of the history at its version, which the process held at the end of one
    /// of its steps; what the node knows covers it, and it shows the node neither as Down nor as a tombstone. Of two versions
    /// that one process noted as settled, the later covers the earlier.
    ///
    /// Where the strategy is a static quorum of more than half of the addresses that have the role, any two versions that were
    /// settled so far, at whichever running nodes and whenever, are comparable: one covers the other. It matters neither what was
    /// delivered nor who stopped. What a node has noted as settled was settled.
    ///
    /// Under such a quorum, after each number of accepted events through which the removal margin was kept, also where it is broken
    /// later: at most one node is an active singleton, by what nodes told (Akka's "Cluster Singleton"); no shard is hosted at two
    /// running nodes, and while a node is active its table has each shard that a running node hosts, with that node and number;
    /// each entity is active at one node at most, and none started at a node, by what nodes told, while it was active at another
    /// one (Akka's "Cluster Sharding"). Under any strategy, while the margin is kept, whoever is finished by the settled view of a
    /// node has stopped.
    pub fn apply(&mut self, alloc: Global, event: &Event) -> Result<Step, Refused>
        requires { length self.old.events < 2 ^ 62 }
        ensures applied { Applies event.now self.old result self.new }
        ensures arrived { IfOk result (λ step. step.arrived ≡ rules.arrived_in event.now self.new.state) }
        ensures numbered { IfOk result (λ step. step.first_packet + length (sent step.actions) < 2 ^ 64) }
        ensures run { self.new.spent ≡ false → self.new.state ≡ rules.run self.new.settings self.new.events }
        ensures folded { self.new.spent ≡ false → (g : GossipState) → IsIn g self.new.state → IsFold self.new.state.history g }
        ensures equal { self.new.spent ≡ false → (i j : ℕ) (g f : GossipState) → IsIn g (rules.run self.new.settings (take i self.new.events)) → IsIn f (rules.run self.new.settings (take j self.new.events)) → g.version ≡ f.version → g.view ≡ f.view }
        ensures seen { self.new.spent ≡ false → (g : GossipState) → IsIn g self.new.state → (who : UniqueModel) → IsTrue (has g.seen who) → Held self.new.settings self.new.events who g.version }
        ensures closed { self.new.spent ≡ false → (g : GossipState) → IsIn g self.new.state → (entry : Entry) (base : Counts) → Made self.new.settings self.new.events entry base → IsTrue (is_covered g.version entry) → Covers g.version base }
        ensures ordered { self.new.spent ≡ false → (i j : ℕ) (who : UniqueModel) (earlier later : Counts) → i ≤ j → Holds (rules.run self.new.settings (take i self.new.events)) who earlier → Holds (rules.run self.new.settings (take j self.new.events)) who later → Covers later earlier }
        ensures serving { self.new.spent ≡ false → AllServe self.new.state }
        ensures confirmed { self.new.spent ≡ false → (who : UniqueModel) → IsConfirmed self.new.state who → HasStopped self.new.state.nodes who }
        ensures alone { self.new.spent ≡ false → RunAlone self.new.state }
        ensures started { self.new.spent ≡ false → (who : UniqueModel) → IsNamedIn self.new.state who → WasStarted self.new.settings self.new.state.nodes who }
        ensures settled { self.new.spent ≡ false → (index : ℕ) (n : State) (noted : NotedView) → slice_get self.new.state.nodes index ≡ Some n → n.membership.settled.view ≡ Some noted → IsSettled self.new.settings self.new.events n noted }
        ensures grows { self.new.spent ≡ false → (i j : ℕ) (who : UniqueModel) (earlier later : Counts) → i ≤ j → HasNoted (rules.run self.new.settings (take i self.new.events)) who earlier → HasNoted (rules.run self.new.settings (take j self.new.events)) who later → Covers later earlier }
        ensures line { self.new.spent ≡ false → (quorum : ℕ) → IsOverHalf self.new.settings quorum → AreInLine self.new.settings self.new.events quorum }
        ensures noted { self.new.spent ≡ false → (index : ℕ) (n : State) (noted : NotedView) → slice_get self.new.state.nodes index ≡ Some n → n.membership.settled.view ≡ Some noted → WasSettled self.new.settings self.new.events (settling_size self.new.settings.strategy) noted.version }
        ensures one_active { (quorum time : ℕ) → IsOverHalf self.new.settings quorum → IsMargin self.new.settings (take time self.new.events) Kept → OneIsActive self.new.settings (take time self.new.events) }
        ensures one_home { (quorum time : ℕ) → IsOverHalf self.new.settings quorum → IsMargin self.new.settings (take time self.new.events) Kept → HasOneHome self.new.settings (take time self.new.events) }
        ensures one_node { (quorum time : ℕ) → IsOverHalf self.new.settings quorum → IsMargin self.new.settings (take time self.new.events) Kept → AreAtOneNode self.new.settings (take time self.new.events) }
        ensures no_double { (quorum time : ℕ) → IsOverHalf self.new.settings quorum → IsMargin self.new.settings (take time self.new.events) Kept → IsFirstDouble self.new.settings (take time self.new.events) None }
        ensures finished { (time : ℕ) → IsMargin self.new.settings (take time self.new.events) Kept → FinishedHaveStopped self.new.settings (take time self.new.events) }
    {
        self.scene.settings.invariant();
        start_has_uid(event);
        if let Some(error) = self.failed {
            return Err(error.into());
        }
        match self.scene.happens(alloc, event) {
            Ok(step) => {
                let kept = keep_step(
                    alloc,
                    &self.scene,
                    event,
                    &step,
                    &mut self.accepted,
                    &mut self.marks,
                );
                if let Err(error) = kept {
                    self.scene.clear(alloc);
                    self.failed = Some(error);
                    return Err(error.into());
                }
                Ok(step)
            }
            Err(Refused::NoMemory(error)) => {
                self.scene.clear(alloc);
                self.failed = Some(error);
                Err(error.into())
            }
            Err(Refused::Invalid(why)) => Err(Refused::Invalid(why)),
        }
    }

    /// Takes back what an event did, which serves a later event (`Node::take_back`). Takes no memory, and the world is as it was.
    pub fn take_back(&mut self, step: Step)
        ensures { self.new ≡ self.old }
    {
        let Step {
            node,
            first_packet: _,
            arrived: _,
            actions,
        } = step;
        let Some(number) = node else {
            return;
        };
        if let Some(node) = self.scene.nodes.get_mut(number as usize) {
            node.take_back(actions);
        }
    }

    /// Every update so far.
    pub fn history(&self) -> &History
        ensures { result.now ≡ self.now.state.history }
    {
        &self.scene.history
    }

    /// The node of a start number from 0 on, and None where none has it.
    pub fn node(&self, number: u32) -> Option<&Node>
        ensures { option_map (λ n. n.now.state) result ≡ slice_get self.now.state.nodes number }
    {
        self.scene.nodes.get(number as usize)
    }

    /// Whether the removal margin was kept in the events that were accepted, or where it was broken first: where a node of the
    /// world found that the margin of a member had ended that was told at no earlier step that it is out. A member is told
    /// where it stops, where what it knows comes to cover an entry that downs or removes it, and where static-quorum decides
    /// at its tick that its side gives up. A spent world answers for the events that it accepted. Takes no memory. (This
    /// project's choice: whether a margin was long enough is known to the world alone.)
    pub fn margin(&self) -> Margin
        ensures { IsMargin self.now.settings self.now.events result }
    {
        self.marks.margin
    }

    /// The first double among the events that were accepted: the first step at which an entity became active on a second node
    /// while it was active on a first one; and None exactly where there is none. An entity is active at a node from the action
    /// that starts it there to the one that ends its shard there, or that the node stops (Akka's "Cluster Sharding": of each
    /// entity one instance runs in the cluster). A spent world answers for the events that it accepted. Takes no memory.
    pub fn first_double(&self) -> Option<&Double>
        ensures { IsFirstDouble self.now.settings self.now.events (option_map doubled_of (option_copied result)) }
    {
        self.marks.double.as_ref()
    }

    /// How many packets were sent.
    pub fn packets(&self) -> u64
        ensures { result ≡ length self.now.state.packets }
    {
        self.scene.packets.len() as u64
    }

    /// How many different datagrams were sent: those with the same bytes count once, and are stored once.
    pub fn stored(&self) -> u64
        ensures { result ≡ different self.now.state.packets }
    {
        self.scene.packets.stored()
    }

    /// What the packet of a number from 1 on says, and None exactly where no packet has it.
    pub fn envelope(&self, number: u64) -> Option<&Envelope>
        ensures { option_copied result ≡ rules.packet_at self.now.state number }
    {
        match self.scene.packets.at(number) {
            Some(packet) => Some(packet.envelope()),
            None => None,
        }
    }

    /// The bytes of the packet of a number from 1 on, which spell what it says, and None exactly where no packet has it. Only
    /// memory can fail.
    pub fn packet(&self, alloc: Global, number: u64) -> Result<Option<Vec<u8>>, AllocError>
        ensures { IfOk result (λ bytes. AreSpelled (rules.packet_at self.now.state number) (option_map (λ v. v.items) bytes)) }
    {
        match self.scene.packets.at(number) {
            Some(packet) => Ok(Some(packet.bytes(alloc)?)),
            None => Ok(None),
        }
    }
}
