//! A get over a volume: where it begins, which row it finds, what it answers, and where it leaves its PCB.
#![tactic(auto)]

mod access;
mod answers;
mod arguments;
mod by_key;
mod call;
mod first;
mod first_row;
mod found_row;
mod judge;
mod look;
mod named;
mod next_twin;
mod outcome;
mod plain;
mod position_after;
mod root_search;
mod search_starts;
mod searches;
mod steps;
mod twin_tests;
mod type_paths;
mod verdict;
mod ways;

pub use answers::{get, get_behind};
pub use arguments::target_code;
pub use by_key::unique_by_key;
pub use call::Get;
pub use first_row::first_named;
pub use found_row::taken;
pub use judge::Judge;
pub use named::Named;
pub use next_twin::begins_behind;
pub use outcome::Outcome;
pub use root_search::find;
pub use type_paths::type_path;
pub use verdict::Verdict;
