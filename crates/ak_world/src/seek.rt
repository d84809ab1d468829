//! Which node a process is, which a packet reaches, and whether one runs at an address.

ghost use Rattle.std.specs.Prelude.{◌≡◌, ◌<◌};
ghost use Rattle.std.specs.List.{list_any, position};
ghost use Rattle.ak_world.specs.World as rules;
ghost use Rattle.ak_world.specs.Seek.{OneAtMost};
ghost use Rattle.ak_node.specs.NodeContracts.{NodeModel};

use crate::world::MOST_STARTS;
use ak_address::{Address, Unique};
use ak_node::{Node, is_for};
use ak_wire::Envelope;

/// The places of the nodes that started last at each address. Some addresses share one, as do those whose ports are equal and whose
/// hosts end in the same byte. They are hints: what stands there is compared, and where it is not what is sought all nodes are
/// looked at.
#[derive(Drop)]
pub(crate) struct Places {
    last: [usize; MOST_STARTS],
}

impl Places {
    /// No node has started.
    pub(crate) fn none() -> Places {
        Places {
            last: [0; MOST_STARTS],
        }
    }

    /// Where the node may stand that runs at the address.
    pub(crate) fn near(&self, address: &Address) -> usize {
        self.last[slot_of(address)]
    }

    /// A node starts at the address, and stands there.
    pub(crate) fn note(&mut self, address: &Address, place: usize) {
        self.last[slot_of(address)] = place;
    }
}

// The slot of an address: hosts of one cluster mostly differ in their last byte, or processes of one host in their ports.
fn slot_of(address: &Address) -> usize
    ensures { result < 64 }
{
    let last = match address.host.bytes().last() {
        Some(byte) => usize::from(*byte),
        None => 0,
    };
    (last + usize::from(address.port)) % MOST_STARTS
}

// Which node the process is: the one that stands near, or whichever is.
pub(crate) fn node_near(nodes: &[Node], near: usize, who: &Unique) -> Option<usize>
    requires { OneAtMost (λ (n : NodeModel). rules.is_process who.now n.state) nodes.now }
    ensures { result ≡ position (λ (n : NodeModel). rules.is_process who.now n.state) nodes.now }
{
    if let Some(node) = nodes.get(near) {
        if node.me().is(who) {
            return Some(near);
        }
    }
    node_of(nodes, who)
}

// Which node the process is.
pub(crate) fn node_of(nodes: &[Node], who: &Unique) -> Option<usize>
    ensures { result ≡ position (λ (n : NodeModel). rules.is_process who.now n.state) nodes.now }
{
    nodes.iter().position(|node| node.me().is(who))
}

// The node runs, and the packet is for it.
fn is_reached(node: &Node, envelope: &Envelope) -> bool
    ensures { result ≡ rules.is_reached envelope.now node.now.state }
{
    if node.stopped() {
        return false;
    }
    is_for(node.me(), envelope)
}

// Which node the packet reaches: the one that stands near, or whichever it reaches.
pub(crate) fn receiver_near(nodes: &[Node], near: usize, envelope: &Envelope) -> Option<usize>
    requires { OneAtMost (λ (n : NodeModel). rules.is_reached envelope.now n.state) nodes.now }
    ensures { result ≡ position (λ (n : NodeModel). rules.is_reached envelope.now n.state) nodes.now }
{
    if let Some(node) = nodes.get(near) {
        if is_reached(node, envelope) {
            return Some(near);
        }
    }
    receiver_of(nodes, envelope)
}

// Which node the packet reaches.
fn receiver_of(nodes: &[Node], envelope: &Envelope) -> Option<usize>
    ensures { result ≡ position (λ (n : NodeModel). rules.is_reached envelope.now n.state) nodes.now }
{
    nodes.iter().position(|node| is_reached(node, envelope))
}

// The node runs at the address.
pub(crate) fn runs_at(node: &Node, address: &Address) -> bool
    ensures { result ≡ rules.runs_at address.now node.now.state }
{
    if node.stopped() {
        return false;
    }
    node.me().address.is(address)
}

// A node runs at the address.
pub(crate) fn is_in_use(nodes: &[Node], address: &Address) -> bool
    ensures { result ≡ list_any (λ (n : NodeModel). rules.runs_at address.now n.state) nodes.now }
{
    nodes.iter().any(|node| runs_at(node, address))
}
