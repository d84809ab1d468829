//! What a process sees in what it knows: whether a view moved (Akka's Split Brain Resolver, "stable-after"), and the tally of a
//! gossip that becomes another one (this project's choice).
#![tactic(auto)]

mod count;
mod laws;
mod sight;

pub use count::{KeptTally, keep_tally, keep_tally_received};
pub use laws::views_that_stand_still_show_the_same;
pub use sight::moves;
