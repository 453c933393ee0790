//! Blocks over a volume and its log, so that a crash at any moment leaves the bytes of the last commit.
#![tactic(auto)]

mod committing;
mod copying;
mod disk;
mod finding;
mod following;
mod frames;
mod gate;
mod head;
mod journal;
mod journaled;
mod memory_disk;
mod opening;
mod publishing;
mod reading;
mod recovery;
mod redoing;
mod standing;

pub use disk::{Disk, Failed};
pub use finding::{Found, find_log, is_open};
pub use head::MARK;
pub use journal::LOG_LIMIT;
pub use journaled::Journaled;
pub use memory_disk::MemoryDisk;
pub use recovery::{Unopened, recover, steady};
