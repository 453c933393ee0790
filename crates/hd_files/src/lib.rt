//! The files that a command names: opened, read and locked, and results that are written whole or not at all.
#![tactic(auto)]

mod fault;
mod files;
mod held;
mod input;
mod log_file;
mod named;
mod output;
mod recovery;
mod volume_files;
mod watched;

pub use fault::{FileFault, of_file};
pub use files::{
    Identity, OpenVolume, ahead_blocks, file_blocks, open, open_shared, open_volume, read_file,
};
pub use held::Held;
pub use input::read_whole;
pub use log_file::LOG_ENDING;
pub use named::Named;
pub use output::{ENDING, Output, Wanted};
pub use recovery::{Left, open_read_volume, recover_volume};
pub use volume_files::VolumeFiles;
pub use watched::Watched;
