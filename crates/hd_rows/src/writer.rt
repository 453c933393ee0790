use crate::part::bytes_at;
use crate::row_text::{LineForm, forms_of, put_line};
use crate::table_text::Table;
use crate::typed::Values;
use hd_dbd::{Dbd, Name8};
use std::alloc::{AllocError, Global};
use std::io::{self, ErrorKind, Write};

/// How rows are written.
#[derive(Clone, Copy)]
pub enum Form {
    /// All rows, a line each.
    Rows,
    /// The rows of the type of a code, as CSV with a line of the columns' names.
    Table(u8),
}

/// What comes next of a stream.
#[derive(Clone, Copy)]
enum Stage {
    Head,
    Records,
    Ended,
}

/// What is written of a row.
#[derive(Drop)]
enum Printer {
    Rows(Values, Vec<LineForm>),
    Table(Table),
}

impl Printer {
    /// The printer of a form, of values that are written so.
    fn of_form(
        alloc: Global,
        dbd: &Dbd,
        form: Form,
        values: Values,
    ) -> Result<Printer, AllocError> {
        match form {
            Form::Rows => Ok(Printer::Rows(values, forms_of(alloc, dbd)?)),
            Form::Table(code) => {
                let table = Table::new(alloc, dbd, code)?;
                Ok(Printer::Table(table.with_values(values)))
            }
        }
    }

    /// Writes what stands before all rows.
    fn put_head<W: Write>(&mut self, out: &mut W) -> io::Result<()> {
        match self {
            Printer::Rows(_, _) => Ok(()),
            Printer::Table(table) => table.put_names(out),
        }
    }

    /// Writes the row of a record.
    fn put<W: Write>(&mut self, record: &[u8], out: &mut W) -> io::Result<()> {
        let code = record.first().copied().unwrap_or(0);
        let bytes = bytes_at(record, 3, record.len());
        match self {
            Printer::Rows(values, forms) => put_line(forms, *values, code, bytes, out),
            Printer::Table(table) => table.put(code, bytes, out),
        }
    }
}

/// A writer that takes an unload stream, in pieces of any size, and writes its rows as text.
///
/// It keeps one record of the stream in memory.
#[derive(Drop)]
pub struct RowWriter<'a, W: Write> {
    name: Name8,
    lengths: Vec<(u32, Option<u32>)>,
    printer: Printer,
    out: &'a mut W,
    stage: Stage,
    record: Vec<u8>,
    count: u32,
}

/// The error of a stream that is none, or not one of the database.
fn no_stream() -> io::Error {
    io::Error::from(ErrorKind::InvalidData)
}

/// How many bytes a record has, as far as the bytes that there are tell.
fn record_length(record: &[u8]) -> usize {
    let Some(code) = record.first() else {
        return 1;
    };
    if *code == 0 {
        return 5;
    }
    if record.len() < 3 {
        return 3;
    }
    3 + u16::from_be_bytes([record[1], record[2]]) as usize
}

/// The most bytes of the segments of each type, and where they vary the least.
fn lengths_of(alloc: Global, dbd: &Dbd) -> Result<Vec<(u32, Option<u32>)>, AllocError> {
    let mut lengths = Vec::new(alloc);
    for segment in dbd.types() {
        lengths.push((segment.length, segment.least))?;
    }
    Ok(lengths)
}

impl<'a, W: Write> RowWriter<'a, W> {
    /// A writer of the rows of a database, in a form, to a writer below. Values are written as bytes, or by the TYPEs of their fields.
    ///
    /// What goes below is in small pieces: a writer with a buffer serves best. With the stream's end the
    /// writer below is flushed. A table's parents without a key have no column.
    pub fn new(
        alloc: Global,
        dbd: &Dbd,
        form: Form,
        values: Values,
        out: &'a mut W,
    ) -> Result<RowWriter<'a, W>, AllocError> {
        let lengths = lengths_of(alloc, dbd)?;
        let printer = Printer::of_form(alloc, dbd, form, values)?;
        Ok(RowWriter {
            name: *dbd.name(),
            lengths,
            printer,
            out,
            stage: Stage::Head,
            record: Vec::new(alloc),
            count: 0,
        })
    }

    /// How many bytes the header or the record has that is being taken.
    fn wanted(&self) -> usize {
        match self.stage {
            Stage::Head => 18,
            Stage::Records => record_length(&self.record),
            Stage::Ended => 1,
        }
    }

    /// Judges the header of a stream.
    fn take_head(&mut self) -> io::Result<()> {
        if !are_in_a_row(&self.record, b"HDUNLOAD\0\x01", self.name.bytes()) {
            return Err(no_stream());
        }
        self.stage = Stage::Records;
        self.printer.put_head(self.out)
    }

    /// Judges the end of a stream, and flushes the writer below.
    fn take_end(&mut self) -> io::Result<()> {
        if !are_in_a_row(&self.record, &[0], &self.count.to_be_bytes()) {
            return Err(no_stream());
        }
        self.stage = Stage::Ended;
        self.flush()
    }

    /// Writes the row of a record.
    fn take_row(&mut self) -> io::Result<()> {
        if !is_record(&self.record, &self.lengths) {
            return Err(no_stream());
        }
        self.count = self.count.saturating_add(1);
        self.printer.put(&self.record, self.out)
    }

    /// Takes a header or a record that is whole.
    fn take_whole(&mut self) -> io::Result<()> {
        match (self.stage, self.record.as_slice()) {
            (Stage::Ended, _) => Err(no_stream()),
            (Stage::Head, _) => self.take_head(),
            (Stage::Records, [0, ..]) => self.take_end(),
            (Stage::Records, _) => self.take_row(),
        }
    }
}

/// Whether a record is of a type of these lengths, and has the bytes of one of its segments.
fn is_record(record: &[u8], lengths: &[(u32, Option<u32>)]) -> bool {
    let code = record.first().copied().unwrap_or(0);
    let place = (code as usize).saturating_sub(1);
    let own = record.len().saturating_sub(3);
    match lengths.get(place) {
        Some((most, None)) => *most as usize == own,
        Some((most, Some(least))) => {
            let is_long = own >= *least as usize && own <= *most as usize;
            is_long && bytes_at(record, 3, 2) == bytes_at(record, 1, 2)
        }
        None => false,
    }
}

/// Whether bytes are two parts in a row.
fn are_in_a_row(bytes: &[u8], front: &[u8], back: &[u8]) -> bool {
    bytes_at(bytes, 0, front.len()) == front && bytes_at(bytes, front.len(), bytes.len()) == back
}

impl<W: Write> Write for RowWriter<'_, W> {
    fn write(&mut self, buf: &[u8]) -> io::Result<usize> {
        let free = self.wanted().saturating_sub(self.record.len());
        let taken = free.min(buf.len());
        self.record.extend_from_slice(&buf[..taken])?;
        if self.record.len() >= self.wanted() {
            self.take_whole()?;
            self.record.clear();
        }
        Ok(taken)
    }

    fn flush(&mut self) -> io::Result<()> {
        self.out.flush()
    }
}
