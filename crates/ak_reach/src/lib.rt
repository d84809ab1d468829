//! Whom the members of a cluster find unreachable: a row for each observer.
#![tactic(auto)]

mod laws;
mod row;
mod rows;
mod unreachable;

pub use laws::rows_are_merged;
pub use row::Row;
pub use rows::Rows;
pub use unreachable::{is_observed, is_unreachable, unreachable_members};
