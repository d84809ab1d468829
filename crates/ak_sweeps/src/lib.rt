//! Sweeps of generated runs: the line of a seed, the lines of many seeds, and their text.
#![tactic(auto)]

mod laws;
mod print;
mod run;
mod sweep;

pub use laws::{each_seed_has_one_line, kept_margins_mean_no_doubles};
pub use run::line_of;
pub use sweep::{run_sweep, write_lines};
