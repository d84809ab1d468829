//! The text of a recorded schedule: its settings, its events, and the lines that spell them.
#![tactic(auto)]

mod draft;
mod event;
mod fault;
mod header;
mod kind;
mod laws;
mod line;
mod print;
mod read;

pub use ak_settings::{Settings, Strategy};
pub use draft::{Draft, Extra, Header};
pub use event::Event;
pub use fault::LineFault;
pub use laws::{
    a_carriage_return_is_dropped, headers_spell_settings, lines_are_read_one_way,
    lines_end_at_line_feeds, passed_over_lines_spell_nothing, printed_events_are_read,
    words_stand_between_spaces,
};
pub use line::{MOST_BYTES, is_passed_over, next_word};
pub use print::print_event;
pub use read::read_line;
