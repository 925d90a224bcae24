//! Laws of a permitted history of a whole session: what stays, what is handed out, how commands and requests are numbered
//! and tagged, and what an old connection may do.
#![tactic(auto)]

mod laws;

pub use laws::{
    all_done_after_end, all_tags_distinct, allocated_ids_distinct, allocated_tags_distinct,
    an_example_is_permitted, command_number_moves_by_commands, command_numbers_inside_window,
    command_numbers_successive, command_numbers_successive_on_each, delivered_at_most_once,
    delivered_exactly_once, delivered_once_behind_end, done_is_final, ids_are_in_order,
    live_submissions_hold_their_tags, management_tags_distinct, management_tags_distinct_on_each,
    management_tags_in_order, sessions_end_by_their_entry, stale_pdu_changes_nothing,
    tries_below_limit,
};
