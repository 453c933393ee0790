//! The blocks of an index: their format, the search of a key among a block's entries, and what an index set above its sequence set is.
//!
//! The definitions stand in this crate's `specs/`; the laws of an index set in `law`, and those of a volume in `volume_law`.
#![tactic(auto)]

mod block;
mod format;
mod law;
mod volume_law;

pub use block::{IndexBlock, Seen};
pub use format::{ADDRESS, COUNT, FIRST, LEVEL, NEXT, entry_place, entry_room, root_key_length};
pub use law::{
    law_blocks_may_be_divided, law_blocks_stand_once, law_chains_have_blocks_once,
    law_chains_lose_blocks, law_chains_stay_linked, law_chains_take_blocks,
    law_divisions_stay_linked, law_entries_enter, law_entries_leave, law_greatest_keys_are_near,
    law_keys_lead_to_leaves, law_keys_of_a_level_ascend, law_last_keys_bound, law_leaves_answer,
    law_levels_stay_linked, law_lower_levels_stay, law_new_keys_come_in, law_steps_stay_around,
    law_tops_are_around, law_tops_may_be_added, law_upper_keys_may_change,
    law_upper_keys_need_not_agree, law_ways_down_stay, law_ways_stay_linked,
};
pub use volume_law::{
    law_blocks_are_named_once, law_children_are_right, law_few_blocks_are_needed,
    law_forms_are_judged, law_index_blocks_are_right, law_index_entries_are_below,
    law_index_entries_ascend, law_index_sets_are_faultless, law_index_sets_stay,
    law_index_tops_are_right, law_indexes_stay, law_leaves_answer_for_all,
    law_left_neighbours_are_named, law_levels_are_of_index_blocks, law_names_are_judged,
    law_one_level_has_index_set, law_reach_is_judged, law_sample_has_index_set,
};
