//! A recorded world: the nodes that were started, every packet that was ever sent, and the history of the cluster.
#![tactic(auto)]

mod double;
mod laws;
mod margin;
mod marks;
mod packets;
mod print;
mod seek;
mod world;

pub use double::Double;
pub use laws::{
    a_node_can_become_active, a_run_gives_a_line, a_shard_has_one_home, active_ones_tell_it,
    an_activity_can_pass_to_another_node, an_entity_has_one_shard, an_entity_is_at_one_node,
    at_most_one_node_is_active, confirmed_means_stopped, each_run_has_one_first_double,
    each_run_has_one_margin, equal_versions_have_equal_members, later_versions_cover_earlier_ones,
    margins_break_where_members_run, more_than_half_of_the_listed_is_more_than_half_of_the_role,
    no_entity_starts_twice, nodes_count_their_own_updates, noted_views_show_who_has_aged,
    one_process_runs_at_an_address, running_nodes_serve, settled_versions_are_in_line,
    settled_views_are_noted_where_they_settle, settled_views_are_of_the_history,
    updates_number_their_entries, what_is_known_is_the_fold, who_has_seen_a_version_held_it,
    who_is_named_was_started, who_knows_an_entry_knows_what_its_author_knew,
    who_was_told_has_stopped, whoever_is_finished_has_stopped,
    whoever_is_finished_is_confirmed_or_ended,
};
pub use margin::Margin;
pub use print::{append_step, print_step, print_summary};
pub use world::{Reason, Refused, Step, World};
