//! What a volume holds after each change of its forest and of its index, what the index answers of its rows, whether there is
//! room for new rows, and whether a row may be loaded behind another.
//!
//! The definitions stand in this crate's `specs/`, the laws in `law`.
#![tactic(auto)]

mod law;
mod load_order;
mod room;

pub use law::{
    law_changed_volumes_hold, law_changes_are_apart, law_changes_keep_entries,
    law_images_follow_volumes, law_leaves_take_a_child, law_one_image_is_one_volume,
    law_paths_go_in_together, law_room_lasts, law_room_lasts_for_roots,
    law_roots_are_of_the_first_type, law_roots_ascend, law_roots_change_entries,
    law_same_entries_leave_room, law_set_rows_are_held, law_set_rows_leave_room,
    law_settings_add_up, law_the_index_answers_roots, law_unlinked_spans_are_deleted,
    law_volumes_are_images,
};
pub use load_order::order_fault;
pub use room::{has_hole, lacks_room, row_size};
