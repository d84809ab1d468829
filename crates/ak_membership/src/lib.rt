//! What a process knows of its cluster: it joins, hears gossip, leads, leaves and is removed (Akka's Cluster Specification,
//! "Membership Lifecycle").
#![tactic(auto)]

mod change;
mod closing;
mod laws;
mod lost;
mod members;
mod membership;
mod silence;
mod state;
mod ticking;

pub use change::{Change, Closing, MemberFault, Reply};
pub use laws::rows_name_who_is_silent;
pub use membership::Membership;
pub use state::MembershipState;
