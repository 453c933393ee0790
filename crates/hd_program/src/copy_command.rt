ghost use Rattle.std.specs.Prelude.{◌≡◌, ◌<◌};

use crate::check_command::load_volume;
use crate::console::Console;
use crate::dbd_source::{CACHE, read_database};
use crate::lines::{DEVICE_FAILED, Lines};
use crate::stop::Stop;
use crate::volume_store::open_to_read;
use hd_commands::{Ended, Refusal, refuse};
use hd_dbd::Dbd;
use hd_files::{FileFault, Named, Output, Wanted, Watched, ahead_blocks};
use hd_output::{Pieces, Progress};
use hd_salvage::copy_volume;
use hd_stores::Counted;
use std::alloc::Global;
use std::fs::File;
use std::io::Write;
use std::marker::Brand;
use std::rt::Files;
use std::sync::ledger::{Blank, Ledger};

/// A fault of the file of a copy, which is a volume: another than the one that is copied.
fn of_copy(fault: FileFault) -> Stop {
    match fault {
        FileFault::File(Named::Volume, error) => Stop::File(Named::Out, error),
        FileFault::Beside(Named::Volume, error) => Stop::Beside(Named::Out, error),
        FileFault::InUse(Named::Volume) => Stop::InUse(Named::Out),
        fault => Stop::from(fault),
    }
}

/// Copies the volume in a file, with a ledger for the accesses that fail.
fn duplicate<L: Ledger, W: Write, P: Progress>(
    alloc: Global,
    dbd: &Dbd,
    file: File,
    copy: &mut W,
    cache: u32,
    blank: Blank,
    progress: &P,
    lines: &mut Lines,
) -> Result<Ended, Stop>
    requires name { blank.name ≡ L.name }
    requires parts { blank.parts ≡ L.parts }
    requires share { 0 < blank.parts }
{
    let store = ahead_blocks::<L>(alloc, dbd, file, blank)?;
    let mut volume = load_volume(alloc, dbd, Counted::new(store, "copying", progress), cache)?;
    let Ok(mut blocks) = Pieces::new(alloc, copy) else {
        return Err(Stop::from(Refusal::Memory));
    };
    let passed = match copy_volume(alloc, &mut volume, dbd, &mut blocks) {
        Ok(passed) => passed,
        Err(fault) => return Ok(refuse(Refusal::of_unload(fault), &mut lines.err)),
    };
    if blocks.flush().is_err() {
        return Ok(refuse(Refusal::Device, &mut lines.err));
    }
    let (count, segments) = (passed.blocks, passed.segments);
    writeln!(lines.out, "copied {count} blocks with {segments} segments")?;
    Ok(Ended::with_status(0))
}

/// As `duplicate`, with a ledger of its own.
fn duplicate_file<W: Write, P: Progress>(
    alloc: Global,
    dbd: &Dbd,
    file: File,
    copy: &mut W,
    cache: u32,
    progress: &P,
    lines: &mut Lines,
) -> Result<Ended, Stop> {
    duplicate::<Brand, W, P>(
        alloc,
        dbd,
        file,
        copy,
        cache,
        Blank::new(1),
        progress,
        lines,
    )
}

/// Checks the volume in a file, which is opened for reading alone, and copies it; nobody changes it meanwhile. The DBD is read and judged first, then the
/// volume and the copy's file are opened; only when the whole copy is written does it take the place of the other file. Says how it ended.
pub fn copy_file<R, P, O, E>(
    console: &mut Console<'_, R, P, O, E>,
    dbd: &str,
    volume: &str,
    copy: &str,
    cache: Option<u32>,
    syncs: bool,
) -> Result<Ended, Stop>
where
    R: Files<File = File>,
    P: Progress,
    O: Write,
    E: Write,
{
    let (rt, alloc) = (console.rt, console.alloc);
    let (dbd, source) = read_database(rt, alloc, dbd)?;
    let (file, image) = open_to_read(console, volume)?;
    let wanted = Wanted {
        name: copy,
        word: Named::Volume,
        is_read: false,
        syncs,
    };
    let mut output = match Output::open(rt, alloc, wanted, &[source, image]) {
        Ok(output) => output,
        Err(fault) => return Err(of_copy(fault)),
    };
    let mut lines = Lines::new(alloc)?;
    let mut copy = Watched::over(&mut output);
    let cache = cache.unwrap_or(CACHE);
    let progress = console.progress;
    let ended = duplicate_file(alloc, &dbd, file, &mut copy, cache, progress, &mut lines)?;
    let said = copy.last_error();
    drop(copy);
    match ended.status {
        0 => match output.publish() {
            Ok(()) => {}
            Err(fault) => return Err(of_copy(fault)),
        },
        DEVICE_FAILED if said.is_some() => return Err(Stop::device(Named::Out, said)),
        _ => {}
    }
    lines.tell(&mut *console.out, &mut *console.err)?;
    Ok(ended)
}
