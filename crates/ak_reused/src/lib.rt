//! What a node keeps of its steps so that a later one need not make it anew: packets that it sent, and lists of actions that were
//! given back (this project's choice). Nothing that a node answers depends on it.
#![tactic(auto)]

mod lists;
mod packets;
mod reused;

pub use reused::Reused;
