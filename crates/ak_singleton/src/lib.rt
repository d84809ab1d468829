//! Who runs the singleton: the phases of a node, whom it asks, and when it becomes active.
#![tactic(auto)]

mod laws;
mod needed;
mod phase;
mod sets;
mod singleton;

pub use laws::{
    activations_are_exact, grants_and_older_ballots_are_exact, new_ballots_are_higher,
    tick_rules_are_exact, ticks_reach_all_that_are_needed,
};
pub use phase::{Phase, Steps, TickRule};
pub use singleton::Singleton;
