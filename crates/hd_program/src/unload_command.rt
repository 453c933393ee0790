ghost use Rattle.std.specs.Prelude.{◌≡◌, ◌<◌};

use crate::check_command::load_volume;
use crate::console::Console;
use crate::dbd_source::{CACHE, read_database};
use crate::lines::{DEVICE_FAILED, Lines};
use crate::stop::Stop;
use crate::volume_store::open_to_read;
use hd_commands::{Ended, Refusal, unload_volume};
use hd_dbd::Dbd;
use hd_files::{Named, Output, Wanted, Watched, file_blocks};
use hd_output::{Pieces, Progress};
use hd_stores::{BlockStore, Counted, ReadAhead, RunStore};
use std::alloc::Global;
use std::fs::File;
use std::io::{self, Write};
use std::marker::Brand;
use std::rt::Files;
use std::sync::ledger::{Blank, Ledger};

/// Unloads the volume in a store into a stream.
fn copy<S: BlockStore + Drop, W: Write>(
    alloc: Global,
    dbd: &Dbd,
    store: S,
    stream: &mut W,
    cache: u32,
    lines: &mut Lines,
) -> Result<Ended, Stop>
    requires { S.size store ≡ dbd.now.block_size }
{
    let mut volume = load_volume(alloc, dbd, store, cache)?;
    let Ok(mut records) = Pieces::new(alloc, stream) else {
        return Err(Stop::from(Refusal::Memory));
    };
    // What a refusal leaves gathered is not written.
    Ok(unload_volume(
        alloc,
        &mut volume,
        dbd,
        &mut records,
        &mut lines.out,
        &mut lines.err,
    ))
}

/// Unloads the volume in a store into a stream, and tells of its accesses.
fn copy_counted<S: BlockStore + Drop, W: Write, P: Progress>(
    alloc: Global,
    dbd: &Dbd,
    store: S,
    stream: &mut W,
    cache: u32,
    progress: &P,
    lines: &mut Lines,
) -> Result<Ended, Stop>
    requires { S.size store ≡ dbd.now.block_size }
{
    let store = Counted::new(store, "unloading", progress);
    copy(alloc, dbd, store, stream, cache, lines)
}

/// Unloads the volume in a store into a stream, whose blocks are read ahead.
fn copy_ahead<S: RunStore + Drop, W: Write, P: Progress>(
    alloc: Global,
    dbd: &Dbd,
    store: S,
    stream: &mut W,
    cache: u32,
    progress: &P,
    lines: &mut Lines,
) -> Result<Ended, Stop>
    requires { S.size store ≡ dbd.now.block_size }
{
    let store = ReadAhead::new(alloc, store);
    copy_counted(alloc, dbd, store, stream, cache, progress, lines)
}

/// Unloads the volume in a file into a stream, with a ledger for the accesses that fail.
fn copy_blocks<L: Ledger, W: Write, P: Progress>(
    alloc: Global,
    dbd: &Dbd,
    file: File,
    stream: &mut W,
    cache: u32,
    blank: Blank,
    progress: &P,
    lines: &mut Lines,
) -> Result<Ended, Stop>
    requires name { blank.name ≡ L.name }
    requires parts { blank.parts ≡ L.parts }
    requires share { 0 < blank.parts }
{
    let store = file_blocks::<L>(dbd, file, blank)?;
    copy_ahead(alloc, dbd, store, stream, cache, progress, lines)
}

/// As `copy_blocks`, with a ledger of its own.
fn copy_file<W: Write, P: Progress>(
    alloc: Global,
    dbd: &Dbd,
    file: File,
    stream: &mut W,
    cache: u32,
    progress: &P,
    lines: &mut Lines,
) -> Result<Ended, Stop> {
    let blank = Blank::new(1);
    copy_blocks::<Brand, W, P>(alloc, dbd, file, stream, cache, blank, progress, lines)
}

/// Unloads the volume in a file into a stream, and gives what the system said of the last write to this that it refused.
fn copy_watched<W: Write, P: Progress>(
    alloc: Global,
    dbd: &Dbd,
    file: File,
    stream: &mut W,
    cache: u32,
    progress: &P,
    lines: &mut Lines,
) -> Result<(Ended, Option<io::Error>), Stop> {
    let mut stream = Watched::over(stream);
    let ended = copy_file(alloc, dbd, file, &mut stream, cache, progress, lines)?;
    Ok((ended, stream.last_error()))
}

/// Unloads the volume in a file into the file of a stream, which gets its name when the whole stream is written. Says how it ended, and what is said of that.
fn copy_into<R: Files<File = File>, P: Progress>(
    alloc: Global,
    dbd: &Dbd,
    file: File,
    output: &mut Output<'_, R>,
    cache: u32,
    progress: &P,
) -> Result<(Ended, Lines), Stop> {
    let mut lines = Lines::new(alloc)?;
    let (ended, said) = copy_watched(alloc, dbd, file, output, cache, progress, &mut lines)?;
    match ended.status {
        0 => output.publish()?,
        DEVICE_FAILED if said.is_some() => return Err(Stop::device(Named::Out, said)),
        _ => {}
    }
    Ok((ended, lines))
}

/// Checks the volume in a file, which is opened for reading alone, and writes its unload stream. The DBD is read and judged first, then the volume and
/// the stream's file are opened; only then is the volume judged, and only when the whole stream is written does it take the place of the other file. Says
/// how it ended.
pub fn unload_file<R, P, O, E>(
    console: &mut Console<'_, R, P, O, E>,
    dbd: &str,
    volume: &str,
    stream: &str,
    cache: Option<u32>,
    syncs: bool,
) -> Result<Ended, Stop>
where
    R: Files<File = File>,
    P: Progress,
    O: Write,
    E: Write,
{
    let (rt, alloc) = (console.rt, console.alloc);
    let (dbd, source) = read_database(rt, alloc, dbd)?;
    let (file, image) = open_to_read(console, volume)?;
    let wanted = Wanted {
        name: stream,
        word: Named::Out,
        is_read: false,
        syncs,
    };
    let mut output = Output::open(rt, alloc, wanted, &[source, image])?;
    let cache = cache.unwrap_or(CACHE);
    let (ended, lines) = copy_into(alloc, &dbd, file, &mut output, cache, console.progress)?;
    lines.tell(&mut *console.out, &mut *console.err)?;
    Ok(ended)
}
