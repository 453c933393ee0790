//! A volume over a store of blocks: a finite map from addresses to segments, and blocks for an index.
#![tactic(auto)]

mod blocks;
mod buffer;
mod create;
mod header;
mod index_blocks;
mod law;
mod load;
mod puts;
mod rewrite;
mod seek;
mod slots;
mod space;
mod spacing;
mod volume;

pub use header::{BLOCK_SIZE, MARK, NAME, NEWEST_VERSION, VERSION};
pub use law::{law_an_index_stays, law_segments_depend_on_data_blocks};
pub use load::{MOST_BLOCKS, size_table};
pub use space::{DATA, FREE, INDEX};
pub use spacing::NO_SPACING;
pub use volume::{COUNT, LARGEST, Volume};
