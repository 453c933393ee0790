ghost use Rattle.std.specs.Prelude.{◌≡◌, ◌<◌};
ghost use Rattle.hd_dbd.specs.Facts.{stored_sizes};

use crate::check_command::load_volume;
use crate::console::Console;
use crate::dbd_source::{CACHE, read_database};
use crate::stop::Stop;
use crate::volume_store::open_to_read;
use hd_commands::{Ended, Refusal, refuse};
use hd_dbd::Dbd;
use hd_files::{Watched, file_blocks};
use hd_output::{Pieces, Progress};
use hd_rows::{Form, RowWriter, Values, code_named};
use hd_stores::{BlockStore, ReadAhead, RunStore};
use hd_unload::{UnloadFault, unload};
use hd_volume::Volume;
use std::alloc::Global;
use std::fs::File;
use std::io::{self, ErrorKind, Write};
use std::marker::Brand;
use std::rt::Files;
use std::sync::ledger::{Blank, Ledger};

/// How rows are written, and their values.
#[derive(Clone, Copy)]
pub struct Shape {
    pub form: Form,
    pub values: Values,
}

/// Why the rows of a volume were not written: a writer of rows that finds no memory for one refuses a write.
fn refusal_of(fault: UnloadFault, said: Option<io::Error>) -> Refusal {
    match said {
        Some(error) if error.kind() == ErrorKind::OutOfMemory && fault == UnloadFault::Write => {
            Refusal::Memory
        }
        _ => Refusal::of_unload(fault),
    }
}

/// Checks a volume, and writes its stream to a writer of rows; says how many segments it has.
fn unload_into<S: BlockStore, W: Write + Drop>(
    alloc: Global,
    volume: &mut Volume<S>,
    dbd: &Dbd,
    rows: W,
) -> Result<u32, Refusal>
    requires { (volume.old.size ≡ dbd.now.block_size) × (volume.old.sizes ≡ stored_sizes dbd.now.types) }
    ensures sizes { (volume.new.size ≡ volume.old.size) × (volume.new.sizes ≡ volume.old.sizes) }
{
    let mut rows = Watched::over(rows);
    match unload(alloc, volume, dbd, &mut rows) {
        Ok(segments) => Ok(segments),
        Err(fault) => Err(refusal_of(fault, rows.last_error())),
    }
}

/// Checks a volume, and writes its rows as text, or those of a type; says how many segments it has.
pub fn write_rows<S: BlockStore, O: Write>(
    alloc: Global,
    volume: &mut Volume<S>,
    dbd: &Dbd,
    shape: Shape,
    out: &mut O,
) -> Result<u32, Refusal>
    requires { (volume.old.size ≡ dbd.now.block_size) × (volume.old.sizes ≡ stored_sizes dbd.now.types) }
    ensures sizes { (volume.new.size ≡ volume.old.size) × (volume.new.sizes ≡ volume.old.sizes) }
{
    let Ok(mut lines) = Pieces::new(alloc, out) else {
        return Err(Refusal::Memory);
    };
    match RowWriter::new(alloc, dbd, shape.form, shape.values, &mut lines) {
        Ok(rows) => unload_into(alloc, volume, dbd, rows),
        Err(_) => Err(Refusal::Memory),
    }
}

/// Checks the volume in a store, and writes its rows as text.
fn list<S: BlockStore + Drop, O: Write, E: Write>(
    alloc: Global,
    dbd: &Dbd,
    store: S,
    shape: Shape,
    cache: u32,
    out: &mut O,
    err: &mut E,
) -> Result<Ended, Stop>
    requires { S.size store ≡ dbd.now.block_size }
{
    let mut volume = load_volume(alloc, dbd, store, cache)?;
    match write_rows(alloc, &mut volume, dbd, shape, out) {
        Ok(_) => Ok(Ended::with_status(0)),
        Err(refusal) => Ok(refuse(refusal, err)),
    }
}

/// Checks the volume in a store, whose blocks are read ahead, and writes its rows as text.
fn list_ahead<S: RunStore + Drop, O: Write, E: Write>(
    alloc: Global,
    dbd: &Dbd,
    store: S,
    shape: Shape,
    cache: u32,
    out: &mut O,
    err: &mut E,
) -> Result<Ended, Stop>
    requires { S.size store ≡ dbd.now.block_size }
{
    let store = ReadAhead::new(alloc, store);
    list(alloc, dbd, store, shape, cache, out, err)
}

/// Checks the volume in a file, and writes its rows as text, with a ledger for the accesses that fail.
fn list_blocks<L: Ledger, O: Write, E: Write>(
    alloc: Global,
    dbd: &Dbd,
    file: File,
    shape: Shape,
    cache: u32,
    blank: Blank,
    out: &mut O,
    err: &mut E,
) -> Result<Ended, Stop>
    requires name { blank.name ≡ L.name }
    requires parts { blank.parts ≡ L.parts }
    requires share { 0 < blank.parts }
{
    let store = file_blocks::<L>(dbd, file, blank)?;
    list_ahead(alloc, dbd, store, shape, cache, out, err)
}

/// As `list_blocks`, with a ledger of its own.
fn list_file<O: Write, E: Write>(
    alloc: Global,
    dbd: &Dbd,
    file: File,
    shape: Shape,
    cache: u32,
    out: &mut O,
    err: &mut E,
) -> Result<Ended, Stop> {
    list_blocks::<Brand, O, E>(alloc, dbd, file, shape, cache, Blank::new(1), out, err)
}

/// Checks the volume in a file, which is opened for reading alone, and writes its rows in hierarchic sequence, a line each; or those of one
/// type as CSV, with values as bytes, or by the TYPEs of their fields. The DBD is read and judged first. Nothing is written before the volume has passed.
pub fn list_rows<R, P, O, E>(
    console: &mut Console<'_, R, P, O, E>,
    dbd: &str,
    volume: &str,
    table: Option<&str>,
    values: Values,
    cache: Option<u32>,
) -> Result<Ended, Stop>
where
    R: Files<File = File>,
    P: Progress,
    O: Write,
    E: Write,
{
    let (rt, alloc) = (console.rt, console.alloc);
    let (dbd, _) = read_database(rt, alloc, dbd)?;
    let form = match table {
        Some(name) => match code_named(&dbd, name.as_bytes()) {
            Some(code) => Form::Table(code),
            None => return Err(Stop::NoType),
        },
        None => Form::Rows,
    };
    let shape = Shape { form, values };
    let (file, _) = open_to_read(console, volume)?;
    let cache = cache.unwrap_or(CACHE);
    list_file(
        alloc,
        &dbd,
        file,
        shape,
        cache,
        &mut *console.out,
        &mut *console.err,
    )
}
