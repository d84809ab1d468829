//! The last settled view of a node: whom it needs, whom it finds finished, and how long ago its tombstones were noted.
#![tactic(auto)]

mod laws;
mod settled;
mod ticks;

pub use laws::{
    candidate_is_needed, counting_goes_on, finished_are_tombstones,
    known_ones_are_needed_or_finished, nobody_is_needed_without_a_view,
    notes_finish_confirmed_ones, ticks_finish_the_just_ended,
};
pub use settled::Settled;
