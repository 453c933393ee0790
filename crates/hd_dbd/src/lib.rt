//! The types of a database, the views of a program, rows, and what calls answer.
//!
//! The definitions that every contract of `hd` cites stand in this crate's `specs/`.
#![tactic(auto)]

mod access;
mod answer;
mod database;
mod facts;
mod fault_law;
mod hierarchy;
mod key_numbers;
mod keys;
mod law;
mod lengths;
mod naming;
mod procopt;
mod program;
mod program_rules;
mod rules;

pub use access::{Access, may};
pub use answer::{LoadFault, Refused, Status, status_text};
pub use database::{Dbd, DbdFault};
pub use facts::{SegmentSize, type_of};
pub use fault_law::{law_databases_have_no_fault, law_programs_have_no_fault};
pub use hierarchy::{DataType, Field, FreeSpace, Key, Rule, SegType};
pub use key_numbers::{is_number_below, number_of_key};
pub use keys::{compare_keys, key_in};
pub use law::{
    law_levels_follow_parents, law_loaded_rows_are_valid, law_paths_follow_parents,
    law_sequences_are_valid, law_twins_ascend, law_valid_rows_are_in_sequence,
    law_valid_rows_are_one_forest,
};
pub use lengths::{least_length, length_fits};
pub use naming::Name8;
pub use program::{Pcb, Psb, PsbFault, Sens};
