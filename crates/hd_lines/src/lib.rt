//! The lines of a text, read where they lie, and the blanks in them.
#![tactic(auto)]

mod blanks;
mod cut;

pub use blanks::{is_blank, unpadded};
pub use cut::next_line;
