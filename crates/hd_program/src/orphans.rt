use crate::stop::Stop;
use hd_commands::Refusal;
use hd_dbd::Dbd;
use hd_files::{FileFault, Identity, Named, Output, Wanted, Watched};
use hd_output::Pieces;
use hd_rows::{Form, RowWriter, Values};
use hd_salvage::{Lost, Record, SalvageFault, order_lost, write_lost};
use hd_stores::BlockStore;
use hd_volume::Volume;
use std::alloc::Global;
use std::fs::{self, File};
use std::io::{self, Write};
use std::rt::Files;

/// A writer of the lines of rows, which writes before each the address of its row.
#[derive(Drop)]
struct Addressed<'a, W: Write> {
    records: &'a [Record],
    block_size: u32,
    is_begun: bool,
    out: &'a mut W,
}

impl<W: Write> Write for Addressed<'_, W> {
    fn write(&mut self, buf: &[u8]) -> io::Result<usize> {
        if !self.is_begun {
            if let Some((record, behind)) = self.records.split_first() {
                let block = record.block.wrapping_mul(self.block_size);
                let address = block.wrapping_add(u32::from(record.place));
                self.records = behind;
                write!(self.out, "{address} ")?;
            }
        }
        self.is_begun = buf.last() != Some(&b'\n');
        self.out.write_all(buf)?;
        Ok(buf.len())
    }

    fn flush(&mut self) -> io::Result<()> {
        self.out.flush()
    }
}

/// Why the rows that were left out were not written; with what the system, or the writer of rows, said of the last write that it refused.
fn stop_of(fault: SalvageFault, said: Option<io::Error>) -> Stop {
    match (fault, said) {
        (SalvageFault::Memory, _) => Stop::from(Refusal::Memory),
        (SalvageFault::Write, Some(error)) => Stop::file(Named::Rows, error),
        _ => Stop::from(Refusal::Device),
    }
}

/// Writes the rows that were left out of a volume to a writer of rows.
fn put_rows<S: BlockStore, W: Write + Drop>(
    volume: &mut Volume<S>,
    dbd: &Dbd,
    lost: &Lost,
    rows: W,
) -> Result<(), Stop> {
    let mut rows = Watched::over(rows);
    match write_lost(volume, dbd, lost, &mut rows) {
        Ok(()) => Ok(()),
        Err(fault) => Err(stop_of(fault, rows.last_error())),
    }
}

/// Writes the rows that were left out of a volume as text.
fn put_text<S: BlockStore, W: Write>(
    alloc: Global,
    volume: &mut Volume<S>,
    dbd: &Dbd,
    lost: &Lost,
    out: &mut W,
) -> Result<(), Stop> {
    match RowWriter::new(alloc, dbd, Form::Rows, Values::Bytes, out) {
        Ok(rows) => put_rows(volume, dbd, lost, rows),
        Err(_) => Err(Stop::from(Refusal::Memory)),
    }
}

/// Writes the rows that were left out of a volume as text, each behind its address.
fn put_addressed<S: BlockStore, W: Write>(
    alloc: Global,
    volume: &mut Volume<S>,
    dbd: &Dbd,
    lost: &Lost,
    out: &mut W,
) -> Result<(), Stop> {
    let mut lines = Addressed {
        records: &lost.records,
        block_size: dbd.block_size(),
        is_begun: false,
        out,
    };
    put_text(alloc, volume, dbd, lost, &mut lines)
}

/// Writes the rows that a salvage left out of a volume, a line each: its address, and the row as a list of rows has it. They are put into the order in which
/// they are written.
pub fn put_orphans<S: BlockStore, W: Write>(
    alloc: Global,
    volume: &mut Volume<S>,
    dbd: &Dbd,
    lost: &mut Lost,
    out: &mut W,
) -> Result<(), Stop> {
    order_lost(alloc, volume, dbd, lost)?;
    let Ok(mut lines) = Pieces::new(alloc, out) else {
        return Err(Stop::from(Refusal::Memory));
    };
    put_addressed(alloc, volume, dbd, lost, &mut lines)
}

/// The files that another output takes: the one into which it is written, and the one that has its name now. None where it is no regular file, as a pipe is none.
fn taken_by<R: Files<File = File>>(
    rt: &R,
    output: &Output<'_, R>,
    name: &str,
) -> io::Result<Option<(Identity, Identity)>> {
    let metadata = output.share()?.metadata()?;
    if !metadata.is_file() {
        return Ok(None);
    }
    let new = Identity::of(&metadata);
    let named = match fs::metadata(rt, name) {
        Ok(metadata) => Identity::of(&metadata),
        Err(_) => new,
    };
    Ok(Some((new, named)))
}

/// Whether a name leads to one of some files.
fn leads_to<R: Files<File = File>>(rt: &R, name: &str, files: &[Identity]) -> bool {
    match fs::metadata(rt, name) {
        Ok(metadata) => files.contains(&Identity::of(&metadata)),
        Err(_) => false,
    }
}

/// The file for the rows that are left out; never one of those that the command reads, nor that of its stream, whose name is `stream`.
pub fn open_orphans<'a, R: Files<File = File>>(
    rt: &'a R,
    alloc: Global,
    wanted: Wanted<'a>,
    inputs: (Identity, Identity),
    output: &Output<'_, R>,
    stream: &str,
) -> Result<Output<'a, R>, Stop> {
    let (source, image) = inputs;
    let taken = match taken_by(rt, output, stream) {
        Ok(taken) => taken,
        Err(error) => return Err(Stop::file(Named::Out, error)),
    };
    let (new, named) = taken.unwrap_or((source, image));
    match Output::open(rt, alloc, wanted, &[source, image, new, named]) {
        Ok(orphans) => Ok(orphans),
        Err(FileFault::OverInput) if leads_to(rt, wanted.name, &[source, image]) => {
            Err(Stop::OrphansOverInput)
        }
        Err(FileFault::OverInput) => Err(Stop::OneOutput),
        Err(fault) => Err(Stop::from(fault)),
    }
}
