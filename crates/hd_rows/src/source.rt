use crate::entry::{Entry, entries_of, first_equal};
use crate::fault::{RowFault, TextFault};
use crate::rows::{Row, Rows};
use crate::walk::{firsts_of, next_place};
use hd_dbd::Dbd;
use std::alloc::Global;
use std::io::Write;

/// The text from which rows were read, and are read a second time.
pub trait Source {
    /// Reads a row's segment.
    fn read(&mut self, row: &Row, bytes: &mut Vec<u8>) -> Result<(), TextFault>;

    /// A fault at a row's line.
    fn fault_at(&self, row: &Row, fault: RowFault) -> TextFault;
}

/// Writes all of the bytes.
fn put<W: Write>(out: &mut W, bytes: &[u8]) -> Result<(), TextFault> {
    match out.write_all(bytes) {
        Ok(()) => Ok(()),
        Err(_) => Err(TextFault::Write),
    }
}

/// Writes the header of a database's streams.
fn put_head<W: Write>(out: &mut W, dbd: &Dbd) -> Result<(), TextFault> {
    put(out, b"HDUNLOAD\0\x01")?;
    put(out, dbd.name().bytes())
}

/// Writes the record of a row.
fn put_row<W: Write>(out: &mut W, code: u8, bytes: &[u8]) -> Result<(), TextFault> {
    let [high, low] = (bytes.len().min(65_535) as u16).to_be_bytes();
    put(out, &[code, high, low])?;
    put(out, bytes)
}

/// Writes the end of a stream of so many records.
fn put_end<W: Write>(out: &mut W, count: u32) -> Result<(), TextFault> {
    let [a, b, c, d] = count.to_be_bytes();
    put(out, &[0, a, b, c, d])
}

/// Writes the record of the row of an entry.
fn put_entry<S: Source, W: Write>(
    rows: &Rows,
    source: &mut S,
    entry: &Entry<'_>,
    bytes: &mut Vec<u8>,
    out: &mut W,
) -> Result<(), TextFault> {
    let Some(row) = rows.row(entry.number) else {
        return Ok(());
    };
    source.read(&row, bytes)?;
    put_row(out, row.code, bytes)
}

/// Writes the records of all rows in hierarchic sequence.
fn put_rows<S: Source, W: Write>(
    alloc: Global,
    rows: &Rows,
    entries: &[Entry<'_>],
    source: &mut S,
    out: &mut W,
) -> Result<u32, TextFault> {
    let firsts = firsts_of(alloc, entries)?;
    let mut path = Vec::new(alloc);
    let mut bytes = Vec::new(alloc);
    let mut place = 0;
    let mut count = 0u32;
    for _ in 0..entries.len() {
        let Some(entry) = entries.get(place) else {
            break;
        };
        put_entry(rows, source, entry, &mut bytes, out)?;
        count = count.saturating_add(1);
        match next_place(entries, &firsts, &mut path, place)? {
            Some(next) => place = next,
            None => break,
        }
    }
    Ok(count)
}

/// The fault of rows that were read, if they have one: a key that an earlier twin has comes first.
fn fault_of<S: Source>(
    dbd: &Dbd,
    rows: &Rows,
    entries: &[Entry<'_>],
    source: &S,
) -> Option<TextFault> {
    if let Some(number) = first_equal(dbd, entries) {
        if let Some(row) = rows.row(number) {
            return Some(source.fault_at(&row, RowFault::Equal));
        }
    }
    rows.fault
}

/// Writes the unload stream of rows without a fault, and says how many they are.
fn put_stream<S: Source, W: Write>(
    alloc: Global,
    dbd: &Dbd,
    rows: &Rows,
    entries: &[Entry<'_>],
    source: &mut S,
    out: &mut W,
) -> Result<u32, TextFault> {
    put_head(out, dbd)?;
    let count = put_rows(alloc, rows, entries, source, out)?;
    put_end(out, count)?;
    Ok(count)
}

/// Writes the unload stream of rows that were read, and says how many they are. Where they have a fault nothing is written.
pub fn write_rows<S: Source, W: Write>(
    alloc: Global,
    dbd: &Dbd,
    rows: &Rows,
    source: &mut S,
    out: &mut W,
) -> Result<u32, TextFault> {
    let entries = entries_of(alloc, dbd, rows)?;
    match fault_of(dbd, rows, &entries, source) {
        Some(fault) => Err(fault),
        None => put_stream(alloc, dbd, rows, &entries, source, out),
    }
}
