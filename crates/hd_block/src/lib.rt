//! A data block as the list of its extents: free elements and segments.
#![tactic(auto)]

mod block;
mod element;
mod gives;
mod holes;
mod law;
mod parts;
mod sizes;

pub use block::Block;
pub use holes::{free_bytes, largest_free};
pub use law::{
    law_one_division, law_room_is_filled, law_segments_are_apart, law_segments_shrink,
    law_writes_keep_division,
};
pub use parts::{Part, Parts};
pub use sizes::size_at;
