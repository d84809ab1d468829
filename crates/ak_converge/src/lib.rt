//! When the members of a cluster agree on a view, and when it settles.
#![tactic(auto)]

mod converge;
mod laws;
mod tally;
mod uses;

pub use converge::{converged, settled_by};
pub use laws::{settled_views, views_by_numbers};
pub use tally::{Stand, Tally};
