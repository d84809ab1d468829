//! A node of the cluster: a pure machine that is given one event at a time and answers with its actions
//! (Akka's Cluster Specification, "Membership Lifecycle"; the messages are this project's choice).
#![tactic(auto)]

mod actions;
mod ballots;
mod given;
mod laws;
mod node;
mod own;
mod ranges;
mod shards;
mod ticks;

pub use ak_wire::{Action, Actions};
pub use laws::steps_update_once;
pub use node::{Node, NodeEvent, State};
pub use own::is_for;
