//! The command line of the program: which words are accepted, and the command that they ask for.
#![tactic(auto)]

mod command;
mod laws;
mod options;
mod read;
mod request;

pub use command::{Command, Request};
pub use laws::{pairs_come_in_any_order, requests_are_lines, words_ask_for_one_command};
pub use read::{is_command_name, read_command};
