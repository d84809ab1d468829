//! The removal margin of a run, and the process whose margin a step ends too early.

ghost use Rattle.std.specs.Prelude.{◌≡◌};
ghost use Rattle.std.specs.List.{position};
ghost use Rattle.ak_world.specs.MarginMark as mark;
ghost use Rattle.ak_world.specs.WorldContracts.{states};
ghost use Rattle.ak_node.specs.NodeContracts.{NodeModel};

use ak_address::Unique;
use ak_node::Node;
use ak_wire::Action;

/// Whether the removal margin was kept: each process whose tombstone had waited for as long as the margin had been told
/// before that it is out. `Broken` says where it was not for the first time: the number of the accepted event, from 1 on,
/// the node that had waited, and the member that was not told, both by their start numbers from 0 on.
#[derive(Clone, Copy, Debug, PartialEq, Eq)]
pub enum Margin {
    Kept,
    Broken { step: u64, node: u32, member: u32 },
}

// The node is this process, and runs.
fn runs_as(node: &Node, who: &Unique) -> bool
    ensures { result ≡ mark.runs_as who.now node.now.state }
{
    if node.stopped() {
        return false;
    }
    node.me().is(who)
}

// Which node the process is, where it runs.
fn running_of(nodes: &[Node], who: &Unique) -> Option<usize>
    ensures { result ≡ position (λ (n : NodeModel). mark.runs_as who.now n.state) nodes.now }
{
    nodes.iter().position(|node| runs_as(node, who))
}

// The process whose margin the action ends, where it runs.
fn running_end(nodes: &[Node], action: &Action) -> Option<usize>
    ensures { result ≡ mark.running_end (states nodes.now) action.now }
{
    match action {
        Action::MarginEnd(who) => running_of(nodes, who),
        _ => None,
    }
}

// The first such process of the actions.
pub(crate) fn first_end(nodes: &[Node], actions: &[Action]) -> Option<usize>
    ensures { result ≡ mark.first_end (states nodes.now) actions.now }
{
    'actions: for action in actions {
        if let Some(index) = running_end(nodes, action) {
            return Some(index);
        }
    }
    None
}
