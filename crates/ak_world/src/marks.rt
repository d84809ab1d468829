//! What a world keeps in mind of its events: whether the removal margin was kept, and the first double.

ghost use Rattle.std.specs.Prelude.{◌≡◌, ◌+◌, ◌<◌, ◌≤◌, ◌^◌, ◌++◌, ◌∷◌, [], length, None, OnOk, OnErr};
ghost use Rattle.std.specs.Option.{option_map};
ghost use Rattle.std.specs.List.{list_any};
ghost use Rattle.ak_world.specs.declared.margin.Margin.TheVariants.{Kept};
ghost use Rattle.ak_world.specs.MarginMark as mark;
ghost use Rattle.ak_world.specs.DoubleMark.{NextDouble};
ghost use Rattle.ak_world.specs.WorldContracts.{state_of, doubled_of};

use crate::double::Double;
use crate::margin::Margin;
use crate::world::{Scene, Step};
use ak_accepted::Accepted;
use ak_schedule::Event;
use ak_wire::Action;
use std::alloc::{AllocError, Global};

/// Whether the removal margin was kept so far, and the first double.
#[derive(Drop)]
pub(crate) struct Marks {
    pub(crate) margin: Margin,
    pub(crate) double: Option<Double>,
}

impl Marks {
    /// Those of no event.
    pub(crate) fn none() -> Marks
        ensures margin { result.margin ≡ Kept }
        ensures double { result.double ≡ None }
    {
        Marks {
            margin: Margin::Kept,
            double: None,
        }
    }
}

// The action is one that may break the margin or make a double.
fn may_mark(action: &Action) -> bool
    ensures { result ≡ mark.may_mark action.now }
{
    match action {
        Action::Entity(_) => true,
        Action::MarginEnd(_) => true,
        _ => false,
    }
}

// One of these is.
fn any_may_mark(actions: &[Action]) -> bool
    ensures { result ≡ list_any mark.may_mark actions.now }
{
    actions.iter().any(|action| may_mark(action))
}

/// An accepted event is kept, with what its step makes of the margin and of the first double. An error leaves all as it was.
pub(crate) fn keep_step(
    alloc: Global,
    scene: &Scene,
    event: &Event,
    step: &Step,
    accepted: &mut Accepted,
    marks: &mut Marks,
) -> Result<(), AllocError>
    requires nodes { length scene.now.nodes.items ≤ 64 }
    requires events { length accepted.old < 2 ^ 62 }
    ensures kept { OnOk result (accepted.new ≡ accepted.old ++ event.now ∷ []) }
    ensures margin { OnOk result (marks.new.margin ≡ mark.marked marks.old.margin (length accepted.old + 1) (record { world = state_of scene.now; node = step.now.node; actions = step.now.actions })) }
    ensures double { OnOk result (NextDouble (option_map doubled_of marks.old.double) (length accepted.old + 1) (state_of scene.now).nodes step.now.node step.now.actions (option_map doubled_of marks.new.double)) }
    ensures left { OnErr result (accepted.new ≡ accepted.old) }
    ensures same { OnErr result (marks.new ≡ marks.old) }
{
    if !any_may_mark(step.actions.as_slice()) {
        return accepted.push(alloc, event, step.node);
    }
    let number = accepted.len() + 1;
    if marks.double.is_none() {
        let double = scene.double_at(alloc, number, step)?;
        accepted.push(alloc, event, step.node)?;
        if let Some(double) = double {
            marks.double = Some(double);
        }
    } else {
        accepted.push(alloc, event, step.node)?;
    }
    marks.margin = scene.marked(marks.margin, number, step);
    Ok(())
}
