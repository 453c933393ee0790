//! The rows of an unload stream as text, a line or a CSV record each, and the stream of such text.
#![tactic(auto)]

mod above;
mod cell;
mod columns;
mod draft;
mod entry;
mod fault;
mod line;
mod mark;
mod naming;
mod number;
mod parents;
mod part;
mod row_text;
mod rows;
mod source;
mod table;
mod table_text;
mod tables;
mod text;
mod typed;
mod value;
mod walk;
mod writer;

pub use columns::column_name;
pub use fault::{RowFault, TextFault};
pub use naming::code_named;
pub use table_text::header_of;
pub use tables::stream_of_tables;
pub use text::{fault_column, stream_of_rows};
pub use typed::Values;
pub use writer::{Form, RowWriter};
