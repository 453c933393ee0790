//! The calls that change a database over a volume: rows put in, rows with new bytes, a row taken out with all that depends on it.
#![tactic(auto)]

mod area;
mod deletions;
mod dlet_call;
mod held;
mod here;
mod isrt_call;
mod load_call;
mod load_rule;
mod new_rows;
mod parents;
mod paths;
mod places;
mod positions;
mod put_path;
mod puts;
mod repl_call;
mod replaced;
mod replacements;
mod rewrites;
mod room;

pub use dlet_call::{dlet, taken_row};
pub use held::{HeldRow, HeldRows, held_rows, row_at};
pub use isrt_call::{first_inserted, isrt};
pub use load_call::load_row;
pub use parents::insert_parent;
pub use places::place_below;
pub use puts::put_row;
pub use repl_call::repl;
pub use rewrites::is_excepted;
