//! What a node does for the shards: as a region, which hosts and hands off and routes messages to entities, and, while it runs
//! the singleton, as the coordinator, which places and moves them.
#![tactic(auto)]

mod coordinates;
mod hosts;
mod laws;
mod packets;
mod routes;
mod sends;
mod sharding;
mod surroundings;
mod table;

pub use laws::what_is_kept_and_sent_has_a_spelling;
pub use sharding::Sharding;
pub use surroundings::Around;
