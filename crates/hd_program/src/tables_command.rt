ghost use Rattle.std.specs.Prelude.{◌≡◌, ◌<◌};
ghost use Rattle.hd_dbd.specs.Facts.{stored_sizes};

use crate::check_command::load_volume;
use crate::console::Console;
use crate::dbd_source::{CACHE, read_database};
use crate::rows_command::{Shape, write_rows};
use crate::stop::Stop;
use crate::stream_command::text_of;
use crate::volume_store::open_to_read;
use hd_commands::{Ended, Refusal};
use hd_dbd::{Dbd, SegType};
use hd_files::{Identity, Named, Output, Wanted, Watched, file_blocks};
use hd_output::Progress;
use hd_rows::{Form, Values};
use hd_stores::{BlockStore, ReadAhead, RunStore};
use hd_volume::Volume;
use std::alloc::{AllocError, Global};
use std::fs::{self, File};
use std::io::{self, Write};
use std::marker::Brand;
use std::rt::Files;
use std::sync::ledger::{Blank, Ledger};

/// The folder into which tables are written, and how; and the files that the command reads.
#[derive(Drop)]
struct Folder<'a, R: Files<File = File>> {
    rt: &'a R,
    name: &'a str,
    values: Values,
    syncs: bool,
    inputs: [Identity; 2],
}

impl<R: Files<File = File>> Folder<'_, R> {
    /// The name of the file of a type's table.
    fn file_of(&self, alloc: Global, segment: &SegType) -> Result<String, AllocError> {
        let (folder, name) = (self.name, text_of(&segment.name));
        format!(in alloc; "{folder}/{name}.csv")
    }

    /// How a table's file is written.
    fn wanted<'w>(&self, file: &'w str) -> Wanted<'w> {
        Wanted {
            name: file,
            word: Named::Out,
            is_read: false,
            syncs: self.syncs,
        }
    }

    /// Sees that the file of each table can be written, and is none that the command reads, before the first is. What is no regular file is opened once alone,
    /// when it is written: the reader of a pipe would take the first end for the table's.
    fn be_writable(&self, alloc: Global, dbd: &Dbd) -> Result<(), Stop> {
        for segment in dbd.types() {
            let file = self.file_of(alloc, segment)?;
            if !leads_elsewhere(self.rt, &file) {
                drop(Output::open(self.rt, alloc, self.wanted(&file), &self.inputs)?);
            }
        }
        Ok(())
    }
}

/// Whether a name leads to what is no regular file.
fn leads_elsewhere<R: Files<File = File>>(rt: &R, name: &str) -> bool {
    match fs::metadata(rt, name) {
        Ok(found) => !found.is_file(),
        Err(_) => false,
    }
}

/// Why a table was not written: a write to its file that the system refused, or else what the volume is refused for.
fn stop_of(refusal: Refusal, said: Option<io::Error>) -> Stop {
    match (refusal, said) {
        (Refusal::Device, Some(error)) => Stop::file(Named::Out, error),
        (refusal, _) => Stop::from(refusal),
    }
}

/// Checks a volume, and writes the table of a type into a file; says how many segments the volume has.
fn fill<S: BlockStore, W: Write>(
    alloc: Global,
    volume: &mut Volume<S>,
    dbd: &Dbd,
    shape: Shape,
    file: &mut W,
) -> Result<u32, Stop>
    requires { (volume.old.size ≡ dbd.now.block_size) × (volume.old.sizes ≡ stored_sizes dbd.now.types) }
    ensures sizes { (volume.new.size ≡ volume.old.size) × (volume.new.sizes ≡ volume.old.sizes) }
{
    let mut file = Watched::over(file);
    match write_rows(alloc, volume, dbd, shape, &mut file) {
        Ok(segments) => Ok(segments),
        Err(refusal) => Err(stop_of(refusal, file.last_error())),
    }
}

/// Checks a volume, and writes the table of a type into its file, which gets its name when the whole table is written.
fn fill_whole<S: BlockStore, R: Files<File = File>>(
    alloc: Global,
    volume: &mut Volume<S>,
    dbd: &Dbd,
    shape: Shape,
    output: &mut Output<'_, R>,
) -> Result<u32, Stop>
    requires { (volume.old.size ≡ dbd.now.block_size) × (volume.old.sizes ≡ stored_sizes dbd.now.types) }
    ensures sizes { (volume.new.size ≡ volume.old.size) × (volume.new.sizes ≡ volume.old.sizes) }
{
    let segments = fill(alloc, volume, dbd, shape, output)?;
    output.publish()?;
    Ok(segments)
}

/// Checks a volume, and writes the table of a type into a folder; says how many segments the volume has.
fn write_table<S: BlockStore, R: Files<File = File>>(
    alloc: Global,
    volume: &mut Volume<S>,
    dbd: &Dbd,
    segment: &SegType,
    code: u8,
    folder: &Folder<'_, R>,
) -> Result<u32, Stop>
    requires { (volume.old.size ≡ dbd.now.block_size) × (volume.old.sizes ≡ stored_sizes dbd.now.types) }
    ensures sizes { (volume.new.size ≡ volume.old.size) × (volume.new.sizes ≡ volume.old.sizes) }
{
    let file = folder.file_of(alloc, segment)?;
    let shape = Shape {
        form: Form::Table(code),
        values: folder.values,
    };
    let mut output = Output::open(folder.rt, alloc, folder.wanted(&file), &folder.inputs)?;
    fill_whole(alloc, volume, dbd, shape, &mut output)
}

/// Checks a volume, once for each type, and writes their tables into a folder, one after another; says how many segments the volume has.
fn write_tables<S: BlockStore, R: Files<File = File>>(
    alloc: Global,
    volume: &mut Volume<S>,
    dbd: &Dbd,
    folder: &Folder<'_, R>,
) -> Result<u32, Stop>
    requires { (volume.old.size ≡ dbd.now.block_size) × (volume.old.sizes ≡ stored_sizes dbd.now.types) }
{
    let mut segments = 0u32;
    let mut code = 0u8;
    for segment in dbd.types() {
        code = code.saturating_add(1);
        segments = write_table(alloc, volume, dbd, segment, code, folder)?;
    }
    Ok(segments)
}

/// Writes the tables of the volume in a store into a folder.
fn write<S: BlockStore + Drop, R: Files<File = File>>(
    alloc: Global,
    dbd: &Dbd,
    store: S,
    folder: &Folder<'_, R>,
    cache: u32,
) -> Result<u32, Stop>
    requires { S.size store ≡ dbd.now.block_size }
{
    let mut volume = load_volume(alloc, dbd, store, cache)?;
    write_tables(alloc, &mut volume, dbd, folder)
}

/// Writes the tables of the volume in a store, whose blocks are read ahead, into a folder.
fn write_ahead<S: RunStore + Drop, R: Files<File = File>>(
    alloc: Global,
    dbd: &Dbd,
    store: S,
    folder: &Folder<'_, R>,
    cache: u32,
) -> Result<u32, Stop>
    requires { S.size store ≡ dbd.now.block_size }
{
    let store = ReadAhead::new(alloc, store);
    write(alloc, dbd, store, folder, cache)
}

/// Writes the tables of the volume in a file into a folder, with a ledger for the accesses that fail.
fn write_blocks<L: Ledger, R: Files<File = File>>(
    alloc: Global,
    dbd: &Dbd,
    file: File,
    folder: &Folder<'_, R>,
    cache: u32,
    blank: Blank,
) -> Result<u32, Stop>
    requires name { blank.name ≡ L.name }
    requires parts { blank.parts ≡ L.parts }
    requires share { 0 < blank.parts }
{
    let store = file_blocks::<L>(dbd, file, blank)?;
    write_ahead(alloc, dbd, store, folder, cache)
}

/// As `write_blocks`, with a ledger of its own.
fn write_file<R: Files<File = File>>(
    alloc: Global,
    dbd: &Dbd,
    file: File,
    folder: &Folder<'_, R>,
    cache: u32,
) -> Result<u32, Stop> {
    write_blocks::<Brand, R>(alloc, dbd, file, folder, cache, Blank::new(1))
}

/// Checks the volume in a file, which is opened for reading alone, and writes into a folder a table of each type as CSV, in a file that has the name of its type and
/// the ending `.csv`, with values as bytes, or by the TYPEs of their fields. The DBD is read and judged first, then the volume is opened; it is checked before
/// each table. First it is seen that each file can be written. A table takes the place of another file only when it is whole; where a later one fails, those before it stay. Says how many there are, and how
/// many segments they have together.
pub fn list_tables<R, P, O, E>(
    console: &mut Console<'_, R, P, O, E>,
    dbd: &str,
    volume: &str,
    folder: &str,
    values: Values,
    cache: Option<u32>,
    syncs: bool,
) -> Result<Ended, Stop>
where
    R: Files<File = File>,
    P: Progress,
    O: Write,
    E: Write,
{
    let (rt, alloc) = (console.rt, console.alloc);
    let (dbd, source) = read_database(rt, alloc, dbd)?;
    let (file, image) = open_to_read(console, volume)?;
    let folder = Folder {
        rt,
        name: folder,
        values,
        syncs,
        inputs: [source, image],
    };
    folder.be_writable(alloc, &dbd)?;
    let cache = cache.unwrap_or(CACHE);
    let segments = write_file(alloc, &dbd, file, &folder, cache)?;
    let tables = dbd.types().len();
    writeln!(
        console.out,
        "wrote {tables} tables with {segments} segments"
    )?;
    Ok(Ended::with_status(0))
}
