ghost use Rattle.std.specs.Prelude.{◌≡◌, ◌<◌, [], IsTrue};

use crate::console::Console;
use crate::dbd_source::{blocks_for_changes, read_database};
use crate::lines::{DEVICE_FAILED, Lines};
use crate::stop::Stop;
use hd_commands::{Ended, reload_store};
use hd_dbd::Dbd;
use hd_files::{Named, Output, Wanted, file_blocks, of_file, read_file};
use hd_output::Progress;
use hd_stores::{BlockStore, Counted, ReadAhead, RunStore};
use std::alloc::Global;
use std::fs::File;
use std::io::Write;
use std::marker::Brand;
use std::rt::Files;
use std::sync::ledger::{Blank, Ledger};

/// Loads a stream into an empty store, and gives the store back.
fn fill<S: BlockStore>(
    alloc: Global,
    dbd: &Dbd,
    stream: &[u8],
    store: S,
    blocks: u32,
    cache: u32,
    lines: &mut Lines,
) -> (S, Ended)
    requires size { S.size store ≡ dbd.now.block_size }
    requires empty { IsTrue (S.is_sound store) → S.contents store ≡ [] }
{
    let most = blocks.clamp(1, 65_536);
    let Lines { out, err } = lines;
    reload_store(alloc, dbd, stream, store, most, cache as usize, out, err)
}

/// Loads a stream into an empty store, and tells of its accesses. Gives the store back.
fn fill_counted<S: BlockStore, P: Progress>(
    alloc: Global,
    dbd: &Dbd,
    stream: &[u8],
    store: S,
    blocks: u32,
    cache: u32,
    progress: &P,
    lines: &mut Lines,
) -> (S, Ended)
    requires size { S.size store ≡ dbd.now.block_size }
    requires empty { IsTrue (S.is_sound store) → S.contents store ≡ [] }
{
    let store = Counted::new(store, "reloading", progress);
    let (store, ended) = fill(alloc, dbd, stream, store, blocks, cache, lines);
    (store.into_inner(), ended)
}

/// Loads a stream into an empty store, whose blocks are read ahead. Gives the store back.
fn fill_ahead<S: RunStore + Drop, P: Progress>(
    alloc: Global,
    dbd: &Dbd,
    stream: &[u8],
    store: S,
    blocks: u32,
    cache: u32,
    progress: &P,
    lines: &mut Lines,
) -> (S, Ended)
    requires size { S.size store ≡ dbd.now.block_size }
    requires empty { IsTrue (S.is_sound store) → S.contents store ≡ [] }
{
    let store = ReadAhead::new(alloc, store);
    let (store, ended) = fill_counted(alloc, dbd, stream, store, blocks, cache, progress, lines);
    (store.into_store(), ended)
}

/// Loads a stream into an empty file, with a ledger for the accesses that fail. The file then has every block.
fn fill_blocks<L: Ledger, P: Progress>(
    alloc: Global,
    dbd: &Dbd,
    stream: &[u8],
    file: File,
    blank: Blank,
    blocks: u32,
    cache: u32,
    progress: &P,
    lines: &mut Lines,
) -> Result<Ended, Stop>
    requires name { blank.name ≡ L.name }
    requires parts { blank.parts ≡ L.parts }
    requires share { 0 < blank.parts }
{
    let store = file_blocks::<L>(dbd, file, blank)?;
    let (store, ended) = fill_ahead(alloc, dbd, stream, store, blocks, cache, progress, lines);
    match ended.status {
        DEVICE_FAILED => Err(Stop::device(Named::Volume, store.last_error())),
        _ => Ok(ended),
    }
}

/// As `fill_blocks`, with a ledger of its own.
fn fill_file<P: Progress>(
    alloc: Global,
    dbd: &Dbd,
    stream: &[u8],
    file: File,
    blocks: u32,
    cache: u32,
    progress: &P,
    lines: &mut Lines,
) -> Result<Ended, Stop> {
    let blank = Blank::new(1);
    fill_blocks::<Brand, P>(
        alloc, dbd, stream, file, blank, blocks, cache, progress, lines,
    )
}

/// Loads a stream into a new file of a volume, which gets its name when the whole volume is written. Says how it ended, and what is said of that.
fn fill_into<R: Files<File = File>, P: Progress>(
    alloc: Global,
    dbd: &Dbd,
    stream: &[u8],
    output: &mut Output<'_, R>,
    blocks: u32,
    cache: u32,
    progress: &P,
) -> Result<(Ended, Lines), Stop> {
    let file = of_file(Named::Volume, output.share())?;
    let mut lines = Lines::new(alloc)?;
    let ended = fill_file(
        alloc, dbd, stream, file, blocks, cache, progress, &mut lines,
    )?;
    if ended.status == 0 {
        output.publish()?;
    }
    Ok((ended, lines))
}

/// Makes a volume file, of at most so many blocks, from 1 to 65,536, of the stream in a file. The DBD is read and judged first, then
/// the stream is read, then the volume's file is opened; only then is the stream judged, and only when the whole volume is written does it take the
/// place of the file. Says how it ended.
pub fn reload_file<R, P, O, E>(
    console: &mut Console<'_, R, P, O, E>,
    dbd: &str,
    input: &str,
    volume: &str,
    blocks: u32,
    cache: Option<u32>,
    syncs: bool,
) -> Result<Ended, Stop>
where
    R: Files<File = File>,
    P: Progress,
    O: Write,
    E: Write,
{
    let (rt, alloc) = (console.rt, console.alloc);
    let (dbd, source) = read_database(rt, alloc, dbd)?;
    let (stream, records) = read_file(rt, alloc, input, Named::Stream)?;
    let wanted = Wanted {
        name: volume,
        word: Named::Volume,
        is_read: true,
        syncs,
    };
    let mut output = Output::open(rt, alloc, wanted, &[source, records])?;
    let cache = cache.unwrap_or(blocks_for_changes(&dbd));
    let progress = console.progress;
    let (ended, lines) = fill_into(alloc, &dbd, &stream, &mut output, blocks, cache, progress)?;
    lines.tell(&mut *console.out, &mut *console.err)?;
    Ok(ended)
}
