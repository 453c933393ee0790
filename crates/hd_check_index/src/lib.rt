//! The phases of a check that judge the index: the form of its blocks (8), which of them are named (9) and reached (10), the
//! order of the keys (11), what the entries name (12), and which roots they name (13). Of a volume of version 1 the index is a chain of
//! blocks; of a later one it is an index set.
#![tactic(auto)]

mod block_chain;
mod block_forms;
mod block_names;
mod entry_order;
mod extents;
mod forms;
mod key_order;
mod listed;
mod names;
mod next_blocks;
mod noted_blocks;
mod order;
mod reach;
mod rows;
mod sequence;
mod set_orders;
mod table;
mod twice;
mod unnamed_roots;
mod wrong_entries;

pub use block_chain::{unreached_block_fault, unreached_block_faults};
pub use block_forms::{block_forms_fault, block_forms_faults};
pub use block_names::{twice_named_fault, twice_named_faults};
pub use entry_order::{entry_order_fault, entry_order_faults};
pub use forms::{is_top_right, set_form_faults, wrong_form};
pub use names::{set_name_faults, twice_named};
pub use next_blocks::wrong_next;
pub use noted_blocks::{ChainedBlock, block_address};
pub use order::entry_out_of_order;
pub use reach::{set_reach_faults, unreached};
pub use rows::{Standing, rows_down};
pub use sequence::sort_chain;
pub use set_orders::set_order_faults;
pub use table::{NotedBlock, note_blocks};
pub use unnamed_roots::{unnamed_root_fault, unnamed_root_faults};
pub use wrong_entries::{wrong_entry_fault, wrong_entry_faults};
