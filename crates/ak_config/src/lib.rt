//! The configuration of a node, read from a TOML document: the process, its settings, and how it runs.
#![tactic(auto)]

mod config;
mod entries;
mod fault;
mod keys;
mod laws;
mod listing;
mod types;
mod values;

pub use config::{Config, read_config};
pub use fault::ConfigFault;
pub use laws::{addresses_are_spellings, unknown_keys_are_the_least};
