//! The linked segments of a volume as one forest: the walk from row to row, and the calls that link, unlink and replace.
#![tactic(auto)]

mod back_twins;
mod block_twins;
mod change;
mod children;
mod law;
mod leaf;
mod near_twins;
mod path;
mod read;
mod replacements;
mod row;
mod twins;
mod unlink;
mod walk;
mod write;

pub use change::link;
pub use children::last_child_type;
pub use law::{law_steps_go_to_rows, law_walking_gives_the_sequence};
pub use near_twins::twins_around_between;
pub use path::Path;
pub use read::{
    EndChildren, code_at, code_in, first_and_last_child, first_child, last_child, last_twin,
    next_twin, parent_on, prev_twin, tip_of,
};
pub use replacements::replace;
pub use row::bytes_in;
pub use twins::{
    TwinPlaces, TwinsAround, forward_in, key_at, twin_from, twin_places, twins_around,
};
pub use unlink::unlink_span;
pub use walk::{
    Ahead, ahead_of, go_on, look_ahead, next_after_span, next_row, twin_ahead, twin_behind,
};
