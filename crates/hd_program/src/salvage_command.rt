ghost use Rattle.std.specs.Prelude.{◌≡◌, ◌<◌};
ghost use Rattle.hd_dbd.specs.Facts.{stored_sizes};

use crate::check_command::load_volume;
use crate::console::Console;
use crate::dbd_source::{CACHE, read_database};
use crate::lines::{DEVICE_FAILED, Lines};
use crate::orphans::{open_orphans, put_orphans};
use crate::stop::Stop;
use crate::volume_store::open_to_read;
use hd_commands::{Ended, Refusal, refuse};
use hd_dbd::Dbd;
use hd_files::{FileFault, Named, Output, Wanted, Watched, file_blocks};
use hd_output::{Pieces, Progress};
use hd_salvage::{Lost, SalvageFault, Salvaged, salvage};
use hd_stores::{BlockStore, Counted, ReadAhead, RunStore};
use hd_volume::Volume;
use std::alloc::Global;
use std::fs::File;
use std::io::{self, Write};
use std::marker::Brand;
use std::rt::Files;
use std::sync::ledger::{Blank, Ledger};

/// The refusal that a salvage's is.
fn refusal_of(fault: SalvageFault) -> Refusal {
    match fault {
        SalvageFault::Memory => Refusal::Memory,
        SalvageFault::Device | SalvageFault::Write | SalvageFault::Changed => Refusal::Device,
    }
}

/// Says which faults were met, how many segments of each type are left out, and how many the stream has.
fn print_salvaged<W: Write>(
    out: &mut W,
    dbd: &Dbd,
    salvaged: Salvaged,
    lost: &Lost,
) -> io::Result<()> {
    if let Some(fault) = salvaged.fault {
        writeln!(out, "{fault}")?;
    }
    for fault in &lost.faults {
        if Some(*fault) != salvaged.fault {
            writeln!(out, "{fault}")?;
        }
    }
    for place in 0..dbd.types().len() {
        print_left(out, dbd, place, lost)?;
    }
    let (segments, left) = (salvaged.segments, lost.records.len());
    writeln!(out, "salvaged {segments} segments, left out {left}")
}

/// Says how many segments of a type are left out, if any are.
fn print_left<W: Write>(out: &mut W, dbd: &Dbd, place: usize, lost: &Lost) -> io::Result<()> {
    let code = u8::try_from(place.saturating_add(1)).unwrap_or(0);
    let count = lost.count_of(code);
    match dbd.types().get(place) {
        Some(segment) if count > 0 => {
            write!(out, "left out {count} of ")?;
            out.write_all(segment.name.bytes().trim_ascii_end())?;
            writeln!(out)
        }
        _ => Ok(()),
    }
}

/// Writes the stream of a volume, and notes what is left out.
fn put_stream<S: BlockStore, W: Write>(
    alloc: Global,
    volume: &mut Volume<S>,
    dbd: &Dbd,
    stream: &mut W,
    lost: &mut Lost,
) -> Result<Salvaged, Refusal>
    requires { (volume.old.size ≡ dbd.now.block_size) × (volume.old.sizes ≡ stored_sizes dbd.now.types) }
{
    let Ok(mut records) = Pieces::new(alloc, stream) else {
        return Err(Refusal::Memory);
    };
    let salvaged = match salvage(alloc, volume, dbd, &mut records, lost) {
        Ok(salvaged) => salvaged,
        Err(fault) => return Err(refusal_of(fault)),
    };
    match records.flush() {
        Ok(()) => Ok(salvaged),
        Err(_) => Err(Refusal::Device),
    }
}

/// Salvages the volume in a store into a stream, and writes what is left out, if it is asked for.
fn rescue<S: BlockStore + Drop, W: Write, O: Write>(
    alloc: Global,
    dbd: &Dbd,
    store: S,
    stream: &mut W,
    orphans: Option<&mut O>,
    cache: u32,
    lines: &mut Lines,
) -> Result<Ended, Stop>
    requires { S.size store ≡ dbd.now.block_size }
{
    let mut volume = load_volume(alloc, dbd, store, cache)?;
    let mut lost = Lost::nothing(alloc);
    let salvaged = match put_stream(alloc, &mut volume, dbd, stream, &mut lost) {
        Ok(salvaged) => salvaged,
        Err(refusal) => return Ok(refuse(refusal, &mut lines.err)),
    };
    print_salvaged(&mut lines.out, dbd, salvaged, &lost)?;
    if let Some(orphans) = orphans {
        put_orphans(alloc, &mut volume, dbd, &mut lost, orphans)?;
    }
    Ok(Ended::with_status(0))
}

/// Salvages the volume in a store, and tells of its accesses.
fn rescue_counted<S: BlockStore + Drop, W: Write, O: Write, P: Progress>(
    alloc: Global,
    dbd: &Dbd,
    store: S,
    stream: &mut W,
    orphans: Option<&mut O>,
    cache: u32,
    progress: &P,
    lines: &mut Lines,
) -> Result<Ended, Stop>
    requires { S.size store ≡ dbd.now.block_size }
{
    let store = Counted::new(store, "salvaging", progress);
    rescue(alloc, dbd, store, stream, orphans, cache, lines)
}

/// Salvages the volume in a store, whose blocks are read ahead.
fn rescue_ahead<S: RunStore + Drop, W: Write, O: Write, P: Progress>(
    alloc: Global,
    dbd: &Dbd,
    store: S,
    stream: &mut W,
    orphans: Option<&mut O>,
    cache: u32,
    progress: &P,
    lines: &mut Lines,
) -> Result<Ended, Stop>
    requires { S.size store ≡ dbd.now.block_size }
{
    let store = ReadAhead::new(alloc, store);
    rescue_counted(alloc, dbd, store, stream, orphans, cache, progress, lines)
}

/// Salvages the volume in a file, with a ledger for the accesses that fail.
fn rescue_blocks<L: Ledger, W: Write, O: Write, P: Progress>(
    alloc: Global,
    dbd: &Dbd,
    file: File,
    stream: &mut W,
    orphans: Option<&mut O>,
    cache: u32,
    blank: Blank,
    progress: &P,
    lines: &mut Lines,
) -> Result<Ended, Stop>
    requires name { blank.name ≡ L.name }
    requires parts { blank.parts ≡ L.parts }
    requires share { 0 < blank.parts }
{
    let store = file_blocks::<L>(dbd, file, blank)?;
    rescue_ahead(alloc, dbd, store, stream, orphans, cache, progress, lines)
}

/// As `rescue_blocks`, with a ledger of its own.
fn rescue_file<W: Write, O: Write, P: Progress>(
    alloc: Global,
    dbd: &Dbd,
    file: File,
    stream: &mut W,
    orphans: Option<&mut O>,
    cache: u32,
    progress: &P,
    lines: &mut Lines,
) -> Result<Ended, Stop> {
    rescue_blocks::<Brand, W, O, P>(
        alloc,
        dbd,
        file,
        stream,
        orphans,
        cache,
        Blank::new(1),
        progress,
        lines,
    )
}

/// Salvages the volume in a file, and gives what the system said of the last write to the stream that it refused.
fn rescue_watched<W: Write, O: Write, P: Progress>(
    alloc: Global,
    dbd: &Dbd,
    file: File,
    stream: &mut W,
    orphans: Option<&mut O>,
    cache: u32,
    progress: &P,
    lines: &mut Lines,
) -> Result<(Ended, Option<io::Error>), Stop> {
    let mut stream = Watched::over(stream);
    let ended = rescue_file(
        alloc,
        dbd,
        file,
        &mut stream,
        orphans,
        cache,
        progress,
        lines,
    )?;
    Ok((ended, stream.last_error()))
}

/// Salvages the volume in a file into the file of a stream, and what is left out into another. Both get their names when both are written, the stream last:
/// where it has its name, the other has its own.
fn rescue_into<R: Files<File = File>, P: Progress>(
    alloc: Global,
    dbd: &Dbd,
    file: File,
    output: &mut Output<'_, R>,
    orphans: &mut Option<Output<'_, R>>,
    cache: u32,
    progress: &P,
) -> Result<(Ended, Lines), Stop> {
    let mut lines = Lines::new(alloc)?;
    let (ended, said) = rescue_watched(
        alloc,
        dbd,
        file,
        output,
        orphans.as_mut(),
        cache,
        progress,
        &mut lines,
    )?;
    match ended.status {
        0 => publish(orphans.as_mut(), output)?,
        DEVICE_FAILED if said.is_some() => return Err(Stop::device(Named::Out, said)),
        _ => {}
    }
    Ok((ended, lines))
}

/// Gives the results their names, the stream last.
fn publish<R: Files<File = File>>(
    orphans: Option<&mut Output<'_, R>>,
    output: &mut Output<'_, R>,
) -> Result<(), FileFault> {
    if let Some(orphans) = orphans {
        orphans.publish()?;
    }
    output.publish()
}

/// A result that is written into a file, by its name.
fn wanted(name: &str, word: Named, syncs: bool) -> Wanted<'_> {
    Wanted {
        name,
        word,
        is_read: false,
        syncs,
    }
}

/// Writes an unload stream of what the volume in a file still holds, which is opened for reading alone; of one that passes its unload stream. The DBD is
/// read and judged first, then the volume, the stream's file and that of what is left out are opened; only when both are written whole do they take the place
/// of the other files. Says how it ended.
pub fn salvage_file<R, P, O, E>(
    console: &mut Console<'_, R, P, O, E>,
    dbd: &str,
    volume: &str,
    stream: &str,
    orphans: Option<&str>,
    cache: Option<u32>,
    syncs: bool,
) -> Result<Ended, Stop>
where
    R: Files<File = File>,
    P: Progress,
    O: Write,
    E: Write,
{
    let (rt, alloc) = (console.rt, console.alloc);
    let (dbd, source) = read_database(rt, alloc, dbd)?;
    let (file, image) = open_to_read(console, volume)?;
    let wanted_stream = wanted(stream, Named::Out, syncs);
    let mut output = Output::open(rt, alloc, wanted_stream, &[source, image])?;
    let mut orphans = match orphans {
        Some(name) => {
            let wanted = wanted(name, Named::Rows, syncs);
            Some(open_orphans(rt, alloc, wanted, (source, image), &output, stream)?)
        }
        None => None,
    };
    let cache = cache.unwrap_or(CACHE);
    let (ended, lines) = rescue_into(
        alloc,
        &dbd,
        file,
        &mut output,
        &mut orphans,
        cache,
        console.progress,
    )?;
    lines.tell(&mut *console.out, &mut *console.err)?;
    Ok(ended)
}
