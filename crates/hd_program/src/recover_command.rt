use crate::check_command::{Faults, check_file};
use crate::console::Console;
use crate::dbd_source::read_database;
use crate::stop::Stop;
use hd_commands::Ended;
use hd_files::{Left, recover_volume};
use hd_output::Progress;
use std::fs::File;
use std::io::Write;
use std::rt::Files;

/// What was done with what a log had.
fn said_of(left: Left) -> &'static str {
    match left {
        Left::Nothing => "nothing to recover",
        Left::Uncommitted => "went back to the last commit",
        Left::Commits => "copied the last commit from the log",
    }
}

/// Copies the commits that stand in the log of a volume, or in the file of another name, into the volume, and checks it. The DBD is read and judged first.
/// Says how it ended.
pub fn recover_file<R, P, O, E>(
    console: &mut Console<'_, R, P, O, E>,
    dbd: &str,
    volume: &str,
    log: Option<&str>,
    cache: Option<u32>,
) -> Result<Ended, Stop>
where
    R: Files<File = File>,
    P: Progress,
    O: Write,
    E: Write,
{
    let _ = read_database(console.rt, console.alloc, dbd)?;
    let left = recover_volume(console.rt, console.alloc, volume, log)?;
    writeln!(console.out, "{}", said_of(left))?;
    check_file(console, dbd, volume, Faults::First, cache)
}
