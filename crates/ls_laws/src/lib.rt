//! What follows of the definitions of `ls_world`: the laws of every world that steps can make, each the contract of a
//! function without a body.
//!
//! `each_world_is_lawful` and `each_script_is_lawful` are the headline: what each client decodes from the bytes of its
//! lines are states that its item had, and it never goes back. The others say for each mode what a lawful slot's client
//! has: `each_row_is_among_the_last_states` of MERGE, `each_update_is_told_or_counted` of RAW,
//! `only_old_rows_are_left_out` of DISTINCT, `no_key_goes_back` of COMMAND, and what a client has once nothing waits.
//! `a_session_is_told_nothing_of_others` says that what one session is told doesn't depend on what others do, and
//! `turns_move_the_round` that a session's round moves as those of `ls_turns` do.
//! `only_due_slots_give_lines`, `a_wait_ends_at_the_first_due_tick`, `updates_of_a_window_are_bounded` and
//! `updates_of_a_slot_are_apart` say what frequencies and bandwidths come to.
//! `a_client_that_binds_with_its_count_holds_all_lines`, `a_new_stream_goes_on_behind_its_count` and
//! `a_recovery_is_refused_exactly` say how a client goes on whose stream was lost, and
//! `lines_are_given_up_only_beyond_the_limits`, `streams_have_their_lines_without_a_gap` and
//! `a_session_times_out_exactly` what each session keeps of its streams. `want_of_memory_leaves_a_lawful_world` says that
//! a step that failed for want of memory leaves a lawful world too.
//!
//! The laws are of the definitions alone. That the program does what these say is the contracts of the engine's crates.
//! Only the program stands on this crate, so a change of a proof here proves nothing else again.
#![tactic(auto)]

mod law;

pub use law::{
    a_client_that_binds_with_its_count_holds_all_lines, a_loss_is_told_only_past_256,
    a_new_stream_goes_on_behind_its_count, a_recovery_is_refused_exactly,
    a_session_is_told_nothing_of_others, a_session_is_told_what_it_sees,
    a_session_times_out_exactly, a_step_changes_its_session_alone,
    a_wait_ends_at_the_first_due_tick, each_client_has_the_rows_of_its_keys,
    each_key_is_told_as_it_was, each_row_is_among_the_last_states, each_script_is_lawful,
    each_update_is_given_with_credit, each_update_is_told_or_counted, each_world_is_lawful,
    lines_are_given_up_only_beyond_the_limits, no_key_goes_back, no_state_is_invented,
    only_due_slots_give_lines, only_old_rows_are_left_out, settled_clients_have_the_items_rows,
    settled_clients_have_the_items_state, settled_clients_know_of_each_update,
    settled_slots_are_at_the_last_event, settled_tables_are_the_items,
    streams_have_their_lines_without_a_gap, the_limits, the_turn_ends_its_cuts,
    turns_move_the_round, updates_of_a_slot_are_apart, updates_of_a_window_are_bounded,
    want_of_memory_leaves_a_lawful_world,
};
