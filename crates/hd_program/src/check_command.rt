ghost use Rattle.std.specs.Prelude.{◌≡◌, ◌<◌, IfOk};
ghost use Rattle.hd_dbd.specs.Facts.{stored_sizes};

use crate::console::Console;
use crate::dbd_source::{CACHE, read_database};
use crate::fault_list::list_faults;
use crate::stop::Stop;
use crate::volume_store::open_to_read;
use hd_commands::{Ended, Refusal, check_volume};
use hd_dbd::Dbd;
use hd_files::file_blocks;
use hd_output::Progress;
use hd_stores::{BlockStore, Counted, ReadAhead, RunStore};
use hd_volume::Volume;
use std::alloc::Global;
use std::fs::File;
use std::io::Write;
use std::marker::Brand;
use std::rt::Files;
use std::sync::ledger::{Blank, Ledger};

/// The volume in a store, with so many of its blocks kept in memory.
pub fn load_volume<S: BlockStore + Drop>(
    alloc: Global,
    dbd: &Dbd,
    store: S,
    kept: u32,
) -> Result<Volume<S>, Stop>
    requires { S.size store ≡ dbd.now.block_size }
    ensures { IfOk result (λ v. (v.size ≡ dbd.now.block_size) × (v.sizes ≡ stored_sizes dbd.now.types)) }
{
    match Volume::load_keeping(alloc, store, dbd, kept as usize) {
        Ok(volume) => Ok(volume),
        Err((_, refused)) => Err(Stop::from(refused)),
    }
}

/// Whether a check lists all faults, or names the first alone.
#[derive(Clone, Copy, PartialEq, Eq)]
pub enum Faults {
    First,
    All,
}

/// Checks the volume in a store, and lists its faults where that is wanted.
fn judge<S: BlockStore + Drop, O: Write, E: Write>(
    alloc: Global,
    dbd: &Dbd,
    store: S,
    faults: Faults,
    cache: u32,
    out: &mut O,
    err: &mut E,
) -> Result<Ended, Stop>
    requires { S.size store ≡ dbd.now.block_size }
{
    let mut volume = load_volume(alloc, dbd, store, cache)?;
    let ended = check_volume(alloc, &mut volume, dbd, out, err);
    if faults == Faults::All && matches!(ended.refusal, Some(Refusal::Fault(_))) {
        list_faults(alloc, &mut volume, dbd, out)?;
    }
    Ok(ended)
}

/// Checks the volume in a store, and tells of its accesses.
fn judge_counted<S: BlockStore + Drop, P: Progress, O: Write, E: Write>(
    alloc: Global,
    dbd: &Dbd,
    store: S,
    faults: Faults,
    cache: u32,
    progress: &P,
    out: &mut O,
    err: &mut E,
) -> Result<Ended, Stop>
    requires { S.size store ≡ dbd.now.block_size }
{
    let store = Counted::new(store, "checking", progress);
    judge(alloc, dbd, store, faults, cache, out, err)
}

/// Checks the volume in a store, whose blocks are read ahead.
fn judge_ahead<S: RunStore + Drop, P: Progress, O: Write, E: Write>(
    alloc: Global,
    dbd: &Dbd,
    store: S,
    faults: Faults,
    cache: u32,
    progress: &P,
    out: &mut O,
    err: &mut E,
) -> Result<Ended, Stop>
    requires { S.size store ≡ dbd.now.block_size }
{
    let store = ReadAhead::new(alloc, store);
    judge_counted(alloc, dbd, store, faults, cache, progress, out, err)
}

/// Checks the volume in a file, with a ledger for the accesses that fail.
fn judge_blocks<L: Ledger, P: Progress, O: Write, E: Write>(
    alloc: Global,
    dbd: &Dbd,
    file: File,
    faults: Faults,
    cache: u32,
    blank: Blank,
    progress: &P,
    out: &mut O,
    err: &mut E,
) -> Result<Ended, Stop>
    requires name { blank.name ≡ L.name }
    requires parts { blank.parts ≡ L.parts }
    requires share { 0 < blank.parts }
{
    let store = file_blocks::<L>(dbd, file, blank)?;
    judge_ahead(alloc, dbd, store, faults, cache, progress, out, err)
}

/// As `judge_blocks`, with a ledger of its own.
fn judge_file<P: Progress, O: Write, E: Write>(
    alloc: Global,
    dbd: &Dbd,
    file: File,
    faults: Faults,
    cache: u32,
    progress: &P,
    out: &mut O,
    err: &mut E,
) -> Result<Ended, Stop> {
    let blank = Blank::new(1);
    judge_blocks::<Brand, P, O, E>(alloc, dbd, file, faults, cache, blank, progress, out, err)
}

/// Checks the volume in a file, which is opened for reading alone. The DBD is read and judged first. Says how it ended.
pub fn check_file<R, P, O, E>(
    console: &mut Console<'_, R, P, O, E>,
    dbd: &str,
    volume: &str,
    faults: Faults,
    cache: Option<u32>,
) -> Result<Ended, Stop>
where
    R: Files<File = File>,
    P: Progress,
    O: Write,
    E: Write,
{
    let (dbd, _) = read_database(console.rt, console.alloc, dbd)?;
    let (file, _) = open_to_read(console, volume)?;
    let cache = cache.unwrap_or(CACHE);
    judge_file(
        console.alloc,
        &dbd,
        file,
        faults,
        cache,
        console.progress,
        &mut *console.out,
        &mut *console.err,
    )
}
