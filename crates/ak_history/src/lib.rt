//! Everything that happened to a cluster, and what a version shows of it.
#![tactic(auto)]

mod entry;
mod history;
mod laws;
mod view;

pub use entry::Entry;
pub use history::History;
pub use laws::{
    an_update_adds_its_entry, covering_versions_show_more, entries_allow_one_view,
    later_entries_change_nothing, rows_are_counted, rows_of_a_history_agree, views_are_merged,
    views_show_entries,
};
pub use view::View;
