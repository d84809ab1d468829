//! What a membership did, as actions.

ghost use Rattle.std.specs.Prelude.{◌≡◌, ◌≤◌, ◌++◌, ◌∷◌, [], IfOk, OnOk};
ghost use Rattle.ak_node.specs.Node as rules;

use ak_membership::{Change, Closing, MemberFault};
use ak_reused::Reused;
use ak_wire::{Action, Actions};
use std::alloc::{AllocError, Global};

// The number of a refusal, from 1 on; where memory ran out, the error with which it did.
fn number_of(fault: &MemberFault) -> Result<u8, AllocError>
    ensures { IfOk result (λ number. (number ≡ rules.number_of fault.now) × (1 ≤ number)) }
{
    match fault {
        MemberFault::NotUp => Ok(1),
        MemberFault::UnknownMember => Ok(2),
        MemberFault::NotMember => Ok(3),
        MemberFault::Unlisted => Ok(4),
        MemberFault::ForeignCount { own: _, theirs: _ } => Ok(5),
        MemberFault::TooManyUniques { union: _ } => Ok(6),
        MemberFault::NoMemory(error) => Err(*error),
    }
}

// Adds the update that a membership made, where it made one.
pub(crate) fn tell(change: Change, actions: &mut Actions) -> Result<(), AllocError>
    ensures { OnOk result (actions.new ≡ actions.old ++ rules.update_by change.number change.effects) }
{
    match change.number {
        Some(number) => actions.push(Action::Update(number, change.effects)),
        None => Ok(()),
    }
}

// The update that a membership made, as an action, where it made one.
#[inline(always)]
pub(crate) fn told(
    alloc: Global,
    change: Change,
    reused: &mut Reused,
) -> Result<Actions, AllocError>
    ensures { IfOk result (λ actions. actions ≡ rules.update_by change.number change.effects) }
{
    match change.number {
        Some(number) => reused.one(alloc, Action::Update(number, change.effects)),
        None => Ok(Actions::empty(alloc)),
    }
}

// Adds what is due at a closing.
pub(crate) fn push_due(due: Closing, actions: &mut Actions) -> Result<(), AllocError>
    ensures { OnOk result (actions.new ≡ actions.old ++ rules.due due) }
{
    if due.viewed {
        actions.push(Action::View)?;
    }
    if due.stopped {
        actions.push(Action::Stopped)?;
    }
    if due.settled {
        actions.push(Action::Settled)?;
    }
    Ok(())
}

// A refusal as an action.
#[inline(always)]
pub(crate) fn refuse(
    alloc: Global,
    fault: MemberFault,
    reused: &mut Reused,
) -> Result<Actions, AllocError>
    ensures told { IfOk result (λ actions. actions ≡ Action.Refused (rules.number_of fault) ∷ []) }
    ensures numbered { OnOk result (1 ≤ rules.number_of fault) }
{
    let number = number_of(&fault)?;
    reused.refusal(alloc, number)
}
