//! What a node knows of its cluster, and what it makes of what others know.
#![tactic(auto)]

mod cursor;
mod gossip;
mod known;
mod laws;
mod part;
mod parts;

pub use gossip::{Gossip, GossipFault, Received};
pub use laws::{
    gossips_are_their_parts, joining_may_be_made, merged_gossips_know_both,
    same_versions_merge_the_seen,
};
pub use part::{Indices, Part, Parts};
pub use parts::parts_valid;
