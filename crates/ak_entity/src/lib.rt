//! The entities that are active at a node, each with the payloads that were delivered to it.
#![tactic(auto)]

mod activity;
mod entities;
mod laws;

pub use entities::Entities;
pub use laws::entities_are_by_themselves;
