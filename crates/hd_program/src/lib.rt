//! What `hd` does with the words of its command line: the files that they name are opened, and the commands play over them.
#![tactic(auto)]

mod advice;
mod beginning;
mod check_command;
mod commands;
mod compared;
mod console;
mod copy_command;
mod culprits;
mod dbd_source;
mod deck_command;
mod deck_lines;
mod explain_command;
mod fault_list;
mod ink;
mod lines;
mod operands_command;
mod orphans;
mod places;
mod program_culprits;
mod recover_command;
mod reload_command;
mod row_advice;
mod rows_command;
mod salvage_command;
mod sample;
mod sample_command;
mod serve_command;
mod show_command;
mod sight_advice;
mod sights;
mod source_advice;
mod stop;
mod stream_command;
mod tables_command;
mod unload_command;
mod volume_store;

pub use commands::{play, stopped};
pub use hd_files::Named;
pub use hd_output::{Progress, Silent, Terminal, Work};
pub use sample::{DBD_SOURCE, PSB_SOURCE, database, program};
pub use stop::{COMMAND_LINE, Stop};
