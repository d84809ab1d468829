//! The first double of a run: how a world finds it, step by step.

ghost use Rattle.std.specs.Prelude.{◌≡◌, ◌<◌, ◌≤◌, length, IfOk};
ghost use Rattle.std.specs.Option.{option_map};
ghost use Rattle.ak_world.specs.DoubleMark as mark;
ghost use Rattle.ak_world.specs.WorldContracts.{states, doubled_of};

use crate::world::number_of;
use ak_address::Text;
use ak_node::Node;
use ak_wire::Action;
use std::alloc::{AllocError, Global};

/// An entity that became active on a second node while it was active on a first one: the entity's id, both nodes by their
/// start numbers from 0 on, and the number of the accepted event at which it started on the second, from 1 on. Where it was
/// active on several nodes, the first is the least of them in the order of processes. (This project's choice.)
#[derive(Debug, Drop)]
pub struct Double {
    pub entity: Text,
    pub first: u32,
    pub second: u32,
    pub step: u64,
}

// The node runs, and keeps the entity active.
fn keeps(node: &Node, entity: &Text) -> bool
    ensures { result ≡ mark.keeps entity.now node.now.state }
{
    if node.stopped() {
        return false;
    }
    node.log(entity).is_some()
}

// The node of this index comes before the one that was found so far, in the order of processes, or none was.
fn comes_first(nodes: &[Node], index: usize, found: Option<usize>) -> bool
    ensures { result ≡ mark.comes_first (states nodes.now) index found }
{
    let Some(best) = found else {
        return true;
    };
    let Some(node) = nodes.get(index) else {
        return false;
    };
    let Some(other) = nodes.get(best) else {
        return false;
    };
    node.me().compare(other.me()).is_lt()
}

// Of the nodes but one the first, in the order of processes, that keeps the entity active.
fn keeper(nodes: &[Node], entity: &Text, but: usize) -> Option<usize>
    ensures { mark.FirstKeeper (states nodes.now) entity.now but result }
{
    let mut found = None;
    let mut index = 0;
    'nodes: while index < nodes.len() {
        if index != but && keeps(&nodes[index], entity) && comes_first(nodes, index, found) {
            found = Some(index);
        }
        index += 1;
    }
    found
}

// What an action of the node makes of doubles: one where it starts an entity that another node keeps active.
fn made(
    alloc: Global,
    nodes: &[Node],
    acting: u32,
    number: u64,
    action: &Action,
) -> Result<Option<Double>, AllocError>
    requires { length nodes.now ≤ 64 }
    ensures { IfOk result (λ double. mark.MadeBy number (states nodes.now) acting action.now (option_map doubled_of double)) }
{
    let Action::Entity(entity) = action else {
        return Ok(None);
    };
    let Some(index) = keeper(nodes, entity, acting as usize) else {
        return Ok(None);
    };
    let entity = entity.copy(alloc)?;
    match number_of(index) {
        Some(first) => Ok(Some(Double {
            entity,
            first,
            second: acting,
            step: number,
        })),
        None => Ok(None),
    }
}

/// The double of the first of these actions that makes one.
pub(crate) fn first_made(
    alloc: Global,
    nodes: &[Node],
    acting: u32,
    number: u64,
    actions: &[Action],
) -> Result<Option<Double>, AllocError>
    requires { length nodes.now ≤ 64 }
    ensures { IfOk result (λ double. mark.DoublesAt number (states nodes.now) acting actions.now (option_map doubled_of double)) }
{
    'actions: for action in actions {
        if let Some(double) = made(alloc, nodes, acting, number, action)? {
            return Ok(Some(double));
        }
    }
    Ok(None)
}
