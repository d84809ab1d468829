//! Promises, singletons and shards over a line of settled versions: definitions and lemmas, and laws over versions that are numbers.
#![tactic(auto)]

mod laws;

pub use laws::{an_activity_can_pass, guards_can_be_met, one_is_active_and_shards_have_one_home};
