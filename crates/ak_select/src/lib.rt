//! To whom a node gossips.
#![tactic(auto)]

mod laws;
mod select;

pub use laws::the_peer_is_another_reachable_member;
pub use select::peer;
