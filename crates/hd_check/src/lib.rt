//! The pointer checker: a volume holds a forest of its database, or it has a least fault.
//!
//! The phases stand in the crates below; here they are joined.
#![tactic(auto)]

mod checks;
mod index_lists;
mod levels;
mod lists;
mod phases;

pub use checks::{CheckFault, Passed, check};
pub use hd_check_blocks::Fault;
pub use hd_image::Line;
pub use lists::{AllFaults, all_faults};
