//! Stores of blocks: in memory, in a file, a fuse that fails one access of the store below it, a store that reads ahead, and one that counts its accesses.
#![tactic(auto)]

mod ahead;
mod counted;
mod file;
mod fuse;
mod memory;
mod run;
mod store;

pub use ahead::ReadAhead;
pub use counted::Counted;
pub use file::FileStore;
pub use fuse::FuseStore;
pub use memory::MemStore;
pub use store::{BlockStore, CommitStore, RunStore};
