//! Which shard an entity belongs to, and what a node reports of a shard.
#![tactic(auto)]

mod division;
mod laws;
mod report;
mod shard;

pub use division::{Division, entity_ok, is_type_name, many_shards, shard_in};
pub use laws::{each_entity_has_a_shard, hashes_go_on, types_share_no_shard};
pub use report::Report;
pub use shard::shard_of;
