//! Where a PCB is in a volume, by addresses of rows, and how that moves when rows are put in and taken out.
#![tactic(auto)]

mod back;
mod gets;
mod inserts;
mod law;
mod levels;
mod position;

pub use back::row_before;
pub use gets::{begin, begin_at_twin, stand, stand_behind, stand_on};
pub use inserts::stand_on_new;
pub use law::{
    law_ended_holds_hold_nothing, law_forests_of_volumes_are_held, law_insertions_add_up,
    law_last_paths_are_kept, law_leaves_go_in_below_leaves, law_linked_paths_go_in_together,
    law_linked_rows_move_positions, law_linking_moves_positions, law_moving_keeps_positions,
    law_paths_are_levels, law_replacing_keeps_positions, law_rewrites_add_up,
    law_rewriting_ends_holds, law_roots_are_of_level_one, law_rows_are_few, law_spans_are_on_paths,
    law_the_row_before_is_one, law_the_start_is_before_all_rows, law_unlinked_rows_move_positions,
    law_unlinking_moves_positions,
};
pub use levels::Levels;
pub use position::{LastType, Position, row_on};
