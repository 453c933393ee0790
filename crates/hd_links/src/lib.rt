//! The linked forest: which forest of segments the pointers of a database's records stand for.
//!
//! The definitions stand in this crate's `specs/`, the laws in `law`.
#![tactic(auto)]

mod law;

pub use law::{
    law_a_move_keeps_rows, law_addresses_are_rows, law_backward_names_the_twin_before,
    law_bytes_change_one_row, law_chains_end, law_faulty_records_hold_none, law_held_twins_ascend,
    law_last_child_ends_the_twins, law_leaves_go_in_between_rows, law_lies_by_its_places,
    law_linking_adds_a_leaf, law_loaded_rows_come_last, law_moving_keeps_the_forest,
    law_moving_with_new_bytes, law_pointers_decide, law_pointers_follow_rows,
    law_replacing_changes_bytes, law_spans_are_rows_to_their_end, law_unlinking_takes_a_span,
};
