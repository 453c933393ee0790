//! The DBD and the PSB of a source, written in the statements of IMS.
#![tactic(auto)]

mod draft;
mod fault;
mod given;
mod law;
mod operand;
mod refused;
mod source;
mod table;
mod value;

pub use fault::GenFault;
pub use law::law_statements_stand_in_order;
pub use refused::{refused_operand_of_dbd, refused_operand_of_psb};
pub use source::{read_dbd, read_psb};
