//! Laws that hold the definitions from above: what decisions, rings, gossips and runs mean, in words of their own. No code.
#![tactic(auto)]

mod laws;

pub use laws::{
    a_decision_depends_on_role_members, a_decision_downs_its_members,
    a_decision_waits_for_a_standstill, a_majority_decides, a_margin_can_be_broken,
    a_member_can_be_let_in_and_come_up, a_member_is_let_in_after_a_wait, a_quorum_decides,
    a_ring_passes_over_nobody, a_run_shows_a_member_from_up_to_removed, a_shard_can_move,
    an_accepted_gossip_leaves_the_merge, each_entry_has_a_cause,
    joining_or_weakly_up_is_the_same_to_the_rest, nodes_watch_their_ring,
    others_are_watched_while_silent, silence_is_counted_from_what_was_heard,
    silence_is_counted_over_runs, the_oldest_decides, where_all_have_the_role_all_count,
};
