//! The statements of a source: assembler macro statements as IMS people write them for DBDs and PSBs.
#![tactic(auto)]

mod card;
mod fault_place;
mod law;
mod line;
mod operand;
mod reading;
mod source;
mod statement;

pub use fault_place::fault_column;
pub use law::{law_one_list_is_spelled, law_operand_text_is_spelled, law_source_is_statements};
pub use source::{LineFault, statements};
pub use statement::{Operand, Statement};
