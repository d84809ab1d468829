//! What the crates of cluster sharding answer to a caller: the shard of an entity, where shards are placed,
//! and what a region, the coordinator and a node with both do, step by step.
#![tactic(auto)]

#[cfg(test)]
mod allocation;
#[cfg(test)]
mod coordinator;
#[cfg(test)]
mod entities;
#[cfg(test)]
mod region;
#[cfg(test)]
mod shard;
#[cfg(test)]
mod sharding;
