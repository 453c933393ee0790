//! What every call of DL/I means, over rows in hierarchic sequence, and which rows a search by segment search arguments may pass over:
//! definitions and laws alone.
//!
//! The definitions stand in this crate's `specs/`, the laws in `law` and `search_law`.
#![tactic(auto)]

mod call;
mod law;
mod search_law;

pub use call::{AreaFault, Commands, Function, GetKind, Operator};
pub use law::{
    law_calls_keep_states_sound, law_new_rows_go_between_twins, law_no_lost_update,
    law_runs_stay_sound, law_spans_are_the_rows_below, law_spans_may_be_skipped,
};
pub use search_law::{
    law_earlier_roots_fail, law_earlier_twins_fail, law_first_children_are_by_path,
    law_first_children_follow, law_last_twins_have_l, law_later_types_follow,
    law_named_rows_are_admitted, law_next_twins_follow, law_only_the_topmost_lowers,
    law_other_types_fail, law_parents_come_first, law_past_keys_fail, law_path_rows_are_by_level,
    law_paths_are_by_level, law_resolved_ssas_descend, law_satisfying_rows_are_named,
    law_spans_are_by_path, law_spans_fail, law_twins_fail, law_types_are_by_level,
    law_unread_spans_fail, law_ways_down_are_unique,
};
