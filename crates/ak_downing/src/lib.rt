//! Which side of a partition goes on: what a node decides about the members that it finds unreachable.
#![tactic(auto)]

mod decision;
mod downed;
mod laws;
mod resolve;
mod side;

pub use decision::Decision;
pub use downed::downs;
pub use laws::{decisions_down_members, one_side_at_most_goes_on};
pub use resolve::decide;
pub use side::reachable_addresses;
