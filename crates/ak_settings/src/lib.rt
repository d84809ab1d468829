//! The settings of a cluster, each in its range: which addresses are listed, how a partition is resolved, and the limits of
//! the rules.
#![tactic(auto)]

mod ranges;
mod settings;
mod types;

pub use ranges::{MOST_BUFFER, MOST_LISTED, MOST_QUORUM, MOST_SHARDS, MOST_TICKS, all_different};
pub use settings::{
    DEFAULT_BUFFER, DEFAULT_LIMIT, DEFAULT_SHARDS, DEFAULT_THRESHOLD, Settings, Strategy,
    copy_addresses, copy_texts,
};
pub use types::{MOST_TYPES, all_texts_differ, are_types, may_be_types};
