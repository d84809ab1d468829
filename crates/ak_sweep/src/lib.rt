//! The lines of many runs, one a seed, by as many workers as are wanted.
#![tactic(auto)]

mod gate;
mod job;
mod line;
mod workers;

pub use gate::{Gate, OpenGate};
pub use job::Job;
pub use line::Line;
pub use workers::{sweep, sweep_one};
