//! The text of the actions of a step (this project's format).
#![tactic(auto)]

mod report;

pub use report::{append_action, append_actions, print_actions, print_bytes};
