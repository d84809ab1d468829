//! What a node knows of the members of its cluster: who is a member and with which status, who was removed, and
//! what one entry of the cluster's history adds.
#![tactic(auto)]

mod age;
mod ages;
mod effect;
mod laws;
mod members;
mod merging;
mod same;
mod slots;
mod standing;
mod status;

pub use effect::{Effect, Effects};
pub use laws::{
    effects_add_to_merges, effects_change_one_process, members_are_merged, standings_are_merged,
    views_are_merged,
};
pub use members::{Member, Members, Tombstone};
pub use standing::Standing;
pub use status::Status;
