ghost use Rattle.std.specs.Prelude.{◌≡◌, [], ◌∷◌, ◌++◌, length, slice_get, IfOk, OnOk, OnErr, IsOk};
ghost use Rattle.std.specs.Option.{option_copied};
ghost use Rattle.ak_member.specs.View.{observed};

use crate::status::Status;
use ak_address::{Unique, Uniques};
use std::alloc::{AllocError, Global};
use std::marker::Model;

/// What an entry of the history does (Akka's Cluster Specification, "Membership Lifecycle" and "Failure Detector").
#[derive(Drop)]
pub enum Effect {
    /// The process becomes a Joining member.
    Joined(Unique),
    /// The member rises to this status; the number is the one with which it becomes Up, from 1 on, and 0 for every
    /// other status.
    Rise(Unique, Status, u64),
    /// The process is removed for good; whether it is confirmed that it has stopped.
    Removed(Unique, bool),
    /// The author finds exactly these members unreachable.
    Observed(Uniques),
}

impl Effect {
    /// An equal effect. Only memory can fail.
    pub fn copy(&self, alloc: Global) -> Result<Effect, AllocError>
        ensures { IfOk result (λ copy. copy ≡ self.now) }
    {
        match self {
            Effect::Joined(who) => Ok(Effect::Joined(who.copy(alloc)?)),
            Effect::Rise(who, status, number) => {
                Ok(Effect::Rise(who.copy(alloc)?, *status, *number))
            }
            Effect::Removed(who, confirmed) => Ok(Effect::Removed(who.copy(alloc)?, *confirmed)),
            Effect::Observed(subjects) => Ok(Effect::Observed(subjects.copy(alloc)?)),
        }
    }
}

/// A list of effects, in the order in which they are applied.
#[derive(Drop)]
pub struct Effects {
    list: Vec<Effect>,
}

impl Model for Effects {
    ghost use Rattle.std.specs.Prelude.{List};
    ghost use Rattle.std.specs.Coded.{codes};
    ghost use Rattle.ak_address.specs.Unique.{coded_unique};
    ghost use Rattle.ak_member.specs.View.{coded_uniques};
    ghost use Rattle.ak_member.specs.declared.effect.Effect.{Effect};

    ghost Value = { List Effect };

    ghost coded = { Prim.hlevel (codes, coded_unique, coded_uniques) };

    ghost view = { λ e. e.list.items };
}

impl Effects {
    /// No effect. Takes no memory.
    pub fn empty(alloc: Global) -> Effects
        ensures { result ≡ [] }
    {
        Effects {
            list: Vec::new(alloc),
        }
    }

    /// Adds an effect at the end. An error leaves the list as it was; only memory can fail.
    pub fn push(&mut self, effect: Effect) -> Result<(), AllocError>
        ensures ok { OnOk result (self.new ≡ self.old ++ effect ∷ []) }
        ensures err { OnErr result (self.new ≡ self.old) }
    {
        self.list.push(effect)?;
        Ok(())
    }

    /// How many effects there are.
    pub fn len(&self) -> usize
        ensures { result ≡ length self.now }
    {
        self.list.len()
    }

    /// The effect at an index from 0 on; none past the end.
    pub fn at(&self, index: usize) -> Option<&Effect>
        ensures { option_copied result ≡ slice_get self.now index }
    {
        self.list.get(index)
    }

    /// The effects, in order.
    pub fn as_slice(&self) -> &[Effect]
        ensures { result.now ≡ self.now }
    {
        &self.list
    }

    /// Whom the last of the effects that observes found unreachable; none where none observes. Takes no memory.
    pub fn observed(&self) -> Option<&Uniques>
        ensures { option_copied result ≡ observed self.now }
    {
        last_observed(&self.list)
    }

    /// An equal list. Only memory can fail; that of the list of no effect takes none.
    pub fn copy(&self, alloc: Global) -> Result<Effects, AllocError>
        ensures ok { IfOk result (λ copy. copy ≡ self.now) }
        ensures memory { self.now ≡ [] → IsOk result }
    {
        if self.list.len() == 0 {
            return Ok(Effects::empty(alloc));
        }
        let list = copied(alloc, &self.list)?;
        Ok(Effects { list })
    }
}

// Whom the last of the effects that observes found unreachable.
fn last_observed(effects: &[Effect]) -> Option<&Uniques>
    ensures { option_copied result ≡ observed effects.now }
{
    let mut last = None;
    'effects: for effect in effects {
        if let Effect::Observed(subjects) = effect {
            last = Some(subjects);
        }
    }
    last
}

fn copied(alloc: Global, effects: &[Effect]) -> Result<Vec<Effect>, AllocError>
    ensures { IfOk result (λ copies. copies.items ≡ effects.now) }
{
    let mut copies = Vec::with_capacity(alloc, effects.len())?;
    'effects: for effect in effects {
        copies.push(effect.copy(alloc)?)?;
    }
    Ok(copies)
}
