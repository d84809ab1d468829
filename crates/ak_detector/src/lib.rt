//! Whom a node watches on the ring of members, and whom it has not heard for longer than a deadline.
#![tactic(auto)]

mod detector;
mod laws;
mod ring;

pub use detector::Detector;
pub use laws::{members_are_watched, rings_are_of_others, silent_ones_are_watched};
pub use ring::watch_ring;
