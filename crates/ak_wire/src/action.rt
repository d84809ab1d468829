ghost use Rattle.std.specs.Prelude.{◌≡◌, [], ◌∷◌, ◌++◌, length, slice_get, OnOk, OnErr};
ghost use Rattle.std.specs.Option.{option_copied};

use crate::shared::SharedEnvelope;
use ak_address::{Text, Unique};
use ak_member::Effects;
use std::alloc::{AllocError, Global};
use std::marker::Model;

/// What a node does in a step.
pub enum Action {
    /// It sends a packet.
    Send(SharedEnvelope),
    /// It makes an update: the number of it among the node's own, and its effects.
    Update(u64, Effects),
    /// What it knows has another version than before the step.
    View,
    /// What it knows is settled, and it noted that.
    Settled,
    /// It runs the singleton from now on, by its ballot of this term.
    Active(u64),
    /// It runs the singleton no more, which it ran by its ballot of this term.
    Ended(u64),
    /// It hosts the shard from now on, with this allocation number.
    Host(u32, u64),
    /// It hosts the shard no more, and the shard's entities end.
    Gone(u32),
    /// It starts the entity.
    Entity(Text),
    /// The payload is delivered to the entity.
    Deliver(Text, u64),
    /// The payload for the entity is passed on to the node that is the home of the entity's shard.
    Forward(Text, u64),
    /// The payload for the entity waits until the home of the entity's shard is known.
    Buffer(Text, u64),
    /// The payload for the entity is lost: as many wait as may.
    Drop(Text, u64),
    /// A tombstone of its settled view, of a process that did not say that it stops, has waited for as long as the margin.
    MarginEnd(Unique),
    /// It refuses what it was asked, by the number of the reason: 1 the process that is to leave is not Up, 2 the process is
    /// no member, 3 the node itself is none, 4 the address is not listed, 5 a gossip counts more of its updates than it made,
    /// 6 there would be too many uniques.
    Refused(u8),
    /// The packet is not for it.
    Dead,
    /// It stops.
    Stopped,
}

// By hand, so that most actions are dropped where they stand: the effects of an update and the names of entities and processes are
// dropped by calls of their own.
impl Drop for Action {
    #[inline(always)]
    fn drop(self) {
        match self {
            Action::Send(packet) => drop(packet),
            Action::Update(_number, effects) => drop_effects(effects),
            Action::View => {}
            Action::Settled => {}
            Action::Active(_term) => {}
            Action::Ended(_term) => {}
            Action::Host(_shard, _allocation) => {}
            Action::Gone(_shard) => {}
            Action::Entity(name) => drop_name(name),
            Action::Deliver(name, _payload) => drop_name(name),
            Action::Forward(name, _payload) => drop_name(name),
            Action::Buffer(name, _payload) => drop_name(name),
            Action::Drop(name, _payload) => drop_name(name),
            Action::MarginEnd(member) => drop_process(member),
            Action::Refused(_reason) => {}
            Action::Dead => {}
            Action::Stopped => {}
        }
    }
}

#[inline(never)]
fn drop_effects(effects: Effects) {
    drop(effects);
}

#[inline(never)]
fn drop_name(name: Text) {
    drop(name);
}

#[inline(never)]
fn drop_process(process: Unique) {
    drop(process);
}

/// The actions of a step, in order.
#[derive(Drop)]
pub struct Actions {
    list: Vec<Action>,
}

impl Model for Actions {
    ghost use Rattle.std.specs.Prelude.{List};
    ghost use Rattle.ak_wire.specs.declared.action.Action.{Action};
    ghost use Rattle.std.specs.Coded.{codes};
    ghost use Rattle.ak_address.specs.Unique.{coded_address, coded_unique};
    ghost use Rattle.ak_gossip.specs.Gossip.{coded_gossip};
    ghost use Rattle.ak_member.specs.View.{coded_uniques};
    ghost use Rattle.ak_promise.specs.Ballot.{coded_ballot};
    ghost use Rattle.ak_clock.specs.Version.{coded_counts};

    ghost Value = { List Action };

    ghost coded = { Prim.hlevel (codes, coded_address, coded_unique, coded_uniques, coded_gossip, coded_ballot, coded_counts) };

    ghost view = { λ a. a.list.items };
}

impl Actions {
    /// No action. Takes no memory.
    pub fn empty(alloc: Global) -> Actions
        ensures { result ≡ [] }
    {
        Actions {
            list: Vec::new(alloc),
        }
    }

    /// Adds an action at the end. An error leaves the list as it was; only memory can fail.
    #[inline(always)]
    pub fn push(&mut self, action: Action) -> Result<(), AllocError>
        ensures ok { OnOk result (self.new ≡ self.old ++ action ∷ []) }
        ensures err { OnErr result (self.new ≡ self.old) }
    {
        self.list.push(action)?;
        Ok(())
    }

    /// No action any more; the room that they took is kept. Takes no memory.
    pub fn clear(&mut self)
        ensures { self.new ≡ [] }
    {
        self.list.clear();
    }

    /// How many actions there are.
    pub fn len(&self) -> usize
        ensures { result ≡ length self.now }
    {
        self.list.len()
    }

    /// The action at an index from 0 on, and None past the end.
    pub fn at(&self, index: usize) -> Option<&Action>
        ensures { option_copied result ≡ slice_get self.now index }
    {
        self.list.get(index)
    }

    /// The actions, in order.
    pub fn as_slice(&self) -> &[Action]
        ensures { result.now ≡ self.now }
    {
        &self.list
    }
}
