//! A node on the network: the turns in which it hears packets and reads its clock, the steps that they give it, and what it prints and
//! sends of them; and the control command, which asks a node one thing.
#![tactic(auto)]

mod control;
mod end;
mod explain;
mod happening;
mod laws;
mod node;
mod process;
mod timer;
mod turns;

pub use control::run_ctl;
pub use happening::Happening;
pub use laws::turns_determine_what_comes;
pub use node::run_node;
pub use timer::Timer;
pub use turns::{MOST_BYTES, MOST_IDLE};
