//! Who gets a shard, and who should give one away, by how many shards each node has.
#![tactic(auto)]

mod allocation;
mod laws;
mod load;

pub use allocation::{choose, rebalance};
pub use laws::the_chosen_have_least_and_most;
pub use load::Load;
