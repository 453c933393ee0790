//! The records of a volume as a link graph, when a volume holds a forest, and what can be wrong with it.
//!
//! The definitions stand in this crate's `specs/`, the laws in `law`, the lines of the fault table in `line`.
#![tactic(auto)]

mod law;
mod line;

pub use law::{
    law_a_volume_holds_one_forest, law_freeing_takes_a_record, law_held_forests_have_no_fault,
    law_new_volumes_are_empty, law_putting_adds_a_record, law_records_are_a_link_graph,
    law_records_stay, law_rewriting_replaces_a_record, law_right_volumes_hold_a_forest,
    law_rows_of_a_volume_are_few, law_setting_a_root_sets_a_pointer, law_writing_sets_a_pointer,
};
pub use line::Line;
