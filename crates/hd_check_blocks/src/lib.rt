//! The first two phases of a check: the header, and the blocks with the places of their segments.
//!
//! What the later phases share stands here as well: the fault, and the table of the segments' places.
#![tactic(auto)]

mod begun;
mod blocks;
mod directory;
mod fault;
mod free_elements;
mod header;
mod keys;
mod lists;
mod lookup;
mod places;
mod wrong_place;

pub use begun::bytes_from;
pub use blocks::{blocks_fault, blocks_faults};
pub use directory::Directory;
pub use fault::Fault;
pub use header::{header_fault, header_faults};
pub use keys::{KeyPlace, key_at, key_place, stored_key, whole_key};
pub use lists::{fault_if, list_fault};
pub use lookup::{code_at, code_near, number_near, number_of};
pub use places::Place;
