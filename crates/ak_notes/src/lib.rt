//! What the program says to people, on standard error: how it is used, a sentence where it refuses something or stops, a warning,
//! and how far a sweep is. None of it is part of a promise: whether it arrives changes nothing of what is printed or answered.
#![tactic(auto)]

mod configurations;
mod entities;
mod lines;
mod notes;
mod sentence;
mod standard;
mod statuses;

pub use configurations::{say_of, warn_of_name, warn_of_quorum};
pub use entities::say_no_entity;
pub use lines::{say_event, say_header, say_of_line, word_at};
pub use notes::{NoNotes, Notes, SinkNotes};
pub use sentence::{Piece, say};
pub use standard::StdNotes;
pub use statuses::say_status;
