//! The root index of a volume of version 2 or later: an ordered map from the roots' keys to their addresses, in an index set above its
//! sequence set, and the edits of its blocks.
#![tactic(auto)]

mod address;
mod begin;
mod behind;
mod block_division;
mod bytes;
mod descend;
mod divisions;
mod edit;
mod enter;
mod first;
mod greatest;
mod insertion;
mod leave;
mod look;
mod near;
mod need;
mod room;
mod search;
mod stand;
mod unlink;
mod way;

pub use address::set;
pub use begin::begin_block;
pub use block_division::divide;
pub use edit::{add_entry, remove_entry, set_entry_address, set_entry_key, set_next};
pub use insertion::insert;
pub use leave::remove;
pub use need::{blocks_needed, growth, is_highest};
pub use search::{RootFrom, find, next_from};
