//! What a node does for the entities of shards: which shards it hosts, where the others have their home, and the messages
//! that wait until their home is known.
#![tactic(auto)]

mod buffer;
mod homes;
mod laws;
mod region;
mod slot;
mod told;
mod walks;

pub use ak_shard_id::Report;
pub use laws::{
    hosted_numbers_are_marks, marks_never_fall, no_more_wait_than_may, numbers_fence_late_orders,
    reports_are_the_marks, shards_are_by_themselves, wanted_shards_have_messages,
};
pub use region::{Offered, Region, Waiting};
pub use slot::Hosting;
