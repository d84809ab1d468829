//! The events that a world accepted, in as little memory as they can be kept (this project's choice).
#![tactic(auto)]

mod accepted;

pub use accepted::Accepted;
