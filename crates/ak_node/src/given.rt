//! What a node is given, and what that makes of its state.

ghost use Rattle.std.specs.Prelude.{◌≡◌, ◌<◌, ◌≤◌, ◌^◌, ◌+◌, [], false, IfOk, OnErr, IsTrue};
ghost use Rattle.ak_membership.specs.MembershipContracts.{IsWatching};
ghost use Rattle.ak_node.specs.Node as rules;
ghost use Rattle.ak_node.specs.Sends.{ComesValid, IsSaid};
ghost use Rattle.ak_node.specs.NodeContracts.{Does, IsSameProcess, IsConcluded, is_idle, is_asking, is_refusing, may_ask};

use crate::actions::refuse;
use crate::node::{NodeEvent, State};
use crate::ranges::{address, offered};
use ak_membership::MemberFault;
use ak_reused::Reused;
use ak_wire::{Actions, Envelope, Message};
use std::alloc::{AllocError, Global};

// What a node is given: an event, or a packet. It stays with whoever gives it.
pub(crate) trait Given {
    ghost use Rattle.ak_node.specs.declared.node.NodeEvent.{NodeEvent};

    // The event that it is.
    ghost event: { Self → NodeEvent };

    // It changes nothing: the node is to join a cluster in which it is a member.
    fn is_idle(&self, state: &State) -> bool
        ensures { result ≡ is_idle (event self.now) state.now };

    // It is a tick of a node that is no member, which asks to be let in.
    fn is_asking(&self, state: &State) -> bool
        ensures { result ≡ is_asking (event self.now) state.now };

    // It is a request of another process to be let in, and the node is no member.
    fn is_refusing(&self, state: &State) -> bool
        ensures { result ≡ is_refusing (event self.now) state.now };

    // Its rule.
    fn rule(
        &self,
        alloc: Global,
        state: &mut State,
        reused: &mut Reused,
    ) -> Result<Actions, AllocError>
        requires ticks { state.old.membership.ticks < 2 ^ 62 }
        requires watching { IsWatching state.old.membership }
        requires asked { is_asking (event self.now) state.old ≡ false }
        ensures does { IfOk result (λ actions. Does (rules.rule (event self.now) state.old) state.new actions) }
        ensures same { IsSameProcess state.old state.new };

    // Tells a proof that the address in it is in its ranges, as every address is.
    fn said(&self)
        requires { ComesValid (event self.now) }
        ensures { IsSaid (event self.now) };
}

impl Given for NodeEvent {
    ghost event = { λ e. e };

    #[inline(always)]
    fn is_idle(&self, state: &State) -> bool
        ensures { result ≡ is_idle self.now state.now }
    {
        match self {
            NodeEvent::Join(_) => state.membership.is_member(),
            _ => false,
        }
    }

    #[inline(always)]
    fn is_asking(&self, state: &State) -> bool
        ensures { result ≡ is_asking self.now state.now }
    {
        match self {
            NodeEvent::Tick(_) => !state.membership.is_member(),
            _ => false,
        }
    }

    #[inline(always)]
    fn is_refusing(&self, state: &State) -> bool
        ensures { result ≡ is_refusing self.now state.now }
    {
        match self {
            NodeEvent::Packet(envelope) => envelope.is_refusing(state),
            _ => false,
        }
    }

    fn rule(
        &self,
        alloc: Global,
        state: &mut State,
        reused: &mut Reused,
    ) -> Result<Actions, AllocError>
        requires ticks { state.old.membership.ticks < 2 ^ 62 }
        requires watching { IsWatching state.old.membership }
        requires asked { is_asking self.now state.old ≡ false }
        ensures does { IfOk result (λ actions. Does (rules.rule self.now state.old) state.new actions) }
        ensures same { IsSameProcess state.old state.new }
    {
        match self {
            NodeEvent::Found => state.found(alloc, reused),
            NodeEvent::Join(target) => state.join(alloc, target, reused),
            NodeEvent::Tick(word) => state.tick(alloc, *word, reused),
            NodeEvent::Packet(envelope) => state.on_packet(alloc, envelope, reused),
            NodeEvent::Leave(who) => state.leave(alloc, who, reused),
            NodeEvent::Down(who) => state.down(alloc, who, reused),
            NodeEvent::Offer(entity, payload) => state.offer(alloc, entity, *payload, reused),
            NodeEvent::Stop => state.stop(alloc),
        }
    }

    fn said(&self)
        requires { ComesValid self.now }
        ensures { IsSaid self.now }
    {
        match self {
            NodeEvent::Join(target) => address(target),
            NodeEvent::Offer(entity, payload) => offered(entity, *payload),
            _ => {}
        }
    }
}

impl Given for Envelope {
    ghost use Rattle.ak_node.specs.declared.node.NodeEvent.TheVariants.{Packet};

    ghost event = { λ p. Packet p };

    #[inline(always)]
    fn is_idle(&self, _state: &State) -> bool
        ensures { result ≡ is_idle (NodeEvent.Packet self.now) _state.now }
    {
        false
    }

    #[inline(always)]
    fn is_asking(&self, _state: &State) -> bool
        ensures { result ≡ is_asking (NodeEvent.Packet self.now) _state.now }
    {
        false
    }

    #[inline(always)]
    fn is_refusing(&self, state: &State) -> bool
        ensures { result ≡ is_refusing (NodeEvent.Packet self.now) state.now }
    {
        match self.message {
            Message::Join => !state.membership.is_member(),
            _ => false,
        }
    }

    fn rule(
        &self,
        alloc: Global,
        state: &mut State,
        reused: &mut Reused,
    ) -> Result<Actions, AllocError>
        ensures does { IfOk result (λ actions. Does (rules.rule (NodeEvent.Packet self.now) state.old) state.new actions) }
        ensures same { IsSameProcess state.old state.new }
    {
        state.on_packet(alloc, self, reused)
    }

    fn said(&self)
        requires { ComesValid (NodeEvent.Packet self.now) }
        ensures { IsSaid (NodeEvent.Packet self.now) }
    {}
}

// A tick alone.
#[derive(Drop)]
pub(crate) struct Tick {
    pub(crate) word: u32,
}

impl Given for Tick {
    ghost use Rattle.ak_node.specs.declared.node.NodeEvent.TheVariants as event;

    ghost event = { λ t. event.Tick t.word };

    #[inline(always)]
    fn is_idle(&self, _state: &State) -> bool
        ensures { result ≡ is_idle (NodeEvent.Tick self.now.word) _state.now }
    {
        false
    }

    #[inline(always)]
    fn is_asking(&self, state: &State) -> bool
        ensures { result ≡ is_asking (NodeEvent.Tick self.now.word) state.now }
    {
        !state.membership.is_member()
    }

    #[inline(always)]
    fn is_refusing(&self, _state: &State) -> bool
        ensures { result ≡ is_refusing (NodeEvent.Tick self.now.word) _state.now }
    {
        false
    }

    fn rule(
        &self,
        alloc: Global,
        state: &mut State,
        reused: &mut Reused,
    ) -> Result<Actions, AllocError>
        requires ticks { state.old.membership.ticks < 2 ^ 62 }
        requires watching { IsWatching state.old.membership }
        requires asked { is_asking (NodeEvent.Tick self.now.word) state.old ≡ false }
        ensures does { IfOk result (λ actions. Does (rules.rule (NodeEvent.Tick self.now.word) state.old) state.new actions) }
        ensures same { IsSameProcess state.old state.new }
    {
        state.tick(alloc, self.word, reused)
    }

    fn said(&self)
        requires { ComesValid (NodeEvent.Tick self.now.word) }
        ensures { IsSaid (NodeEvent.Tick self.now.word) }
    {}
}

// A process that is no member asks its target again, where it has one.
#[inline(always)]
fn asks_again(alloc: Global, state: &mut State, reused: &mut Reused) -> Result<Actions, AllocError>
    requires steps { state.old.steps < 2 ^ 62 }
    ensures state { state.new ≡ record state.old { steps = state.old.steps + 1 } }
    ensures actions { IfOk result (λ actions. actions ≡ (rules.asks_at state.old.membership.target state.old).1) }
{
    state.steps += 1;
    let Some(target) = state.membership.target() else {
        return Ok(Actions::empty(alloc));
    };
    reused.asking(alloc, state.me(), target)
}

// What an event makes of a node's state. Where its rule leaves a node that is no member as it was, nothing is due after
// it, since the step before was concluded: so such a node asks again, and refuses whoever asks it, with no closing.
#[inline(always)]
pub(crate) fn happens<E: Given>(
    alloc: Global,
    event: &E,
    dead: bool,
    state: &mut State,
    reused: &mut Reused,
) -> Result<Actions, AllocError>
    requires dead { dead ≡ rules.is_dead (rules.me_of state.old) (E.event event.now) }
    requires steps { state.old.steps < 2 ^ 62 }
    requires ticked { state.old.membership.ticks ≤ state.old.steps }
    requires watching { IsWatching state.old.membership }
    requires concluded { IsConcluded state.old }
    ensures does { IfOk result (λ actions. Does (rules.step (E.event event.now) state.old) state.new actions) }
    ensures same { IsSameProcess state.old state.new }
    ensures memory { OnErr result (IsTrue (may_ask (E.event event.now) state.old)) }
{
    if state.runs && event.is_asking(state) {
        return asks_again(alloc, state, reused);
    }
    if state.runs && !dead && event.is_refusing(state) {
        state.steps += 1;
        return refuse(alloc, MemberFault::NotMember, reused);
    }
    state.step(alloc, event, dead, reused)
}
