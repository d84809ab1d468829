//! Versions: how many entries of each process's history a node knows. Gossip is compared and merged by them
//! (Akka's Cluster Specification, "Gossip": vector clocks).
#![tactic(auto)]

mod laws;
mod version;

pub use laws::{
    bump_raises_one_count, covering_is_an_order, merge_is_the_least_cover, merges_in_any_order,
    reaching_raises_one_count, relations_are_exact,
};
pub use version::{BOUND, Relation, Version};
