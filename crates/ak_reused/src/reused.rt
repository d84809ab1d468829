ghost use Rattle.std.specs.Prelude.{◌≡◌, ◌∷◌, [], IfOk};
ghost use Rattle.ak_reused.specs.Reused.{heartbeat, request};

use crate::lists::{asks_so, is_asking, is_refusing, refuses_for};
use crate::packets::{is_beat, is_request, new_beat, new_request};
use ak_address::{Address, Unique};
use ak_wire::{Action, Actions, SharedEnvelope};
use std::alloc::{AllocError, Global};
use std::marker::Model;

/// Packets that were sent, and lists of actions that were given back. What is taken of it is compared first, so that whatever is kept
/// a step answers the same.
#[derive(Drop)]
pub struct Reused {
    // The request to be let in that was sent last.
    request: Option<SharedEnvelope>,
    // The heartbeat that was sent last in each place of a tick.
    beats: Vec<SharedEnvelope>,
    // A list with a request alone.
    asking: Option<Actions>,
    // A list with a refusal alone.
    refusing: Option<Actions>,
    // A list with no action, and room for some.
    room: Option<Actions>,
}

// Clauses see nothing of it.
impl Model for Reused {
    ghost use Rattle.std.specs.Prelude.{⊤};
    ghost use Rattle.ak_reused.specs.Reused.{IsRoom};

    ghost Value = { ⊤ };

    ghost view = { λ _. tt };

    ghost invariant = { λ r. IsRoom r.room };
}

impl Reused {
    /// Nothing is kept yet. Takes no memory.
    pub fn nothing(alloc: Global) -> Reused {
        Reused {
            request: None,
            beats: Vec::new(alloc),
            asking: None,
            refusing: None,
            room: None,
        }
    }

    /// Keeps a list that a step answered, if another step may answer it again; else its actions are dropped, and its room is kept.
    /// Takes no memory.
    #[inline(always)]
    pub fn take_back(&mut self, mut actions: Actions) {
        if actions.len() == 0 {
            return;
        }
        if is_refusing(&actions) {
            self.refusing = Some(actions);
        } else if is_asking(&actions) {
            self.asking = Some(actions);
        } else {
            actions.clear();
            self.room = Some(actions);
        }
    }

    /// A list of no action, with the room of a list that was given back, where there is one. Takes no memory.
    #[inline(always)]
    pub fn list(&mut self, alloc: Global) -> Actions
        ensures { result ≡ [] }
    {
        match self.room.take() {
            Some(room) => room,
            None => Actions::empty(alloc),
        }
    }

    /// One action alone. Only memory can fail, and then the action is gone.
    #[inline(always)]
    pub fn one(&mut self, alloc: Global, action: Action) -> Result<Actions, AllocError>
        ensures { IfOk result (λ actions. actions ≡ action ∷ []) }
    {
        let mut actions = self.list(alloc);
        actions.push(action)?;
        Ok(actions)
    }

    /// A refusal alone, by the number of its reason (`Action::Refused`). Only memory can fail.
    #[inline(always)]
    pub fn refusal(&mut self, alloc: Global, reason: u8) -> Result<Actions, AllocError>
        ensures { IfOk result (λ actions. actions ≡ Action.Refused reason ∷ []) }
    {
        if let Some(actions) = self.refusing.take() {
            if refuses_for(&actions, reason) {
                return Ok(actions);
            }
        }
        self.one(alloc, Action::Refused(reason))
    }

    /// The request of a process to be let in at an address, alone. A list or a packet from before serves again where it says the
    /// same. Only memory can fail.
    #[inline(always)]
    pub fn asking(
        &mut self,
        alloc: Global,
        from: &Unique,
        to: &Address,
    ) -> Result<Actions, AllocError>
        ensures { IfOk result (λ actions. actions ≡ Action.Send (request from.now to.now) ∷ []) }
    {
        if let Some(actions) = self.asking.take() {
            if asks_so(&actions, from, to) {
                return Ok(actions);
            }
        }
        self.new_asking(alloc, from, to)
    }

    // The same, in a list of its own.
    fn new_asking(
        &mut self,
        alloc: Global,
        from: &Unique,
        to: &Address,
    ) -> Result<Actions, AllocError>
        ensures { IfOk result (λ actions. actions ≡ Action.Send (request from.now to.now) ∷ []) }
    {
        if let Some(sent) = &self.request {
            if is_request(sent.get(), from, to) {
                let again = sent.share()?;
                return self.one(alloc, Action::Send(again));
            }
        }
        let sent = new_request(alloc, from, to)?;
        let again = sent.share()?;
        self.request = Some(again);
        self.one(alloc, Action::Send(sent))
    }

    /// The action that sends a heartbeat from one process to another. The packet that was sent last in this place of a tick, from 0
    /// on, is sent again where it says the same: so each is made once and not at each tick. Only memory can fail.
    pub fn beat(
        &mut self,
        alloc: Global,
        place: usize,
        from: &Unique,
        to: &Unique,
    ) -> Result<Action, AllocError>
        ensures { IfOk result (λ action. action ≡ Action.Send (heartbeat from.now to.now)) }
    {
        if let Some(sent) = self.beats.get(place) {
            if is_beat(sent.get(), from, to) {
                return Ok(Action::Send(sent.share()?));
            }
        }
        let sent = new_beat(alloc, from, to)?;
        let again = sent.share()?;
        if place < self.beats.len() {
            self.beats[place] = again;
        } else {
            self.beats.push(again)?;
        }
        Ok(Action::Send(sent))
    }
}
