use crate::draft::Draft;
use crate::fault::Wrong;
use crate::number::{Number, holds_numbers, read_number, zero_byte};
use crate::part::Part;
use crate::value::{put_bytes, put_hexadecimal, put_value, read_escaped, shown, wants_quotes};
use hd_dbd::SegType;
use std::alloc::{AllocError, Global};
use std::io::{self, Write};

/// How values are written and read.
#[derive(Clone, Copy, PartialEq, Eq)]
pub enum Values {
    /// As the bytes that they are, whatever the TYPE of their field.
    Bytes,
    /// By the TYPE of their field: those of P, F and H as numbers. In CSV bytes that are no text are escaped.
    Typed,
}

/// A part's bytes as they are shown: those of an open range stay whole.
fn shown_own<'b>(part: &Part, own: &'b [u8]) -> &'b [u8] {
    if part.is_open { own } else { shown(own) }
}

/// Writes, in a row's line, the bytes of a field that are no number of its TYPE: the first as an escape, by which a reader knows them from a number.
fn put_no_number<W: Write>(out: &mut W, own: &[u8]) -> io::Result<()> {
    match own.split_first() {
        Some((first, behind)) => {
            put_hexadecimal(out, *first)?;
            put_bytes(out, behind)
        }
        None => Ok(()),
    }
}

/// Writes a part's bytes in a row's line, by the TYPE of its field.
pub fn put_typed_value<W: Write>(out: &mut W, part: &Part, own: &[u8]) -> io::Result<()> {
    if let Some(number) = Number::of(part, own) {
        return number.put(out);
    }
    if !holds_numbers(part) {
        return put_value(out, shown_own(part, own));
    }
    if !wants_quotes(own) {
        return put_no_number(out, own);
    }
    out.write_all(b"\"")?;
    put_no_number(out, own)?;
    out.write_all(b"\"")
}

/// Writes a byte of a cell: text as it is, a backslash doubled, and any other as an escape.
fn put_cell_byte<W: Write>(out: &mut W, byte: u8) -> io::Result<()> {
    match byte {
        b'\\' => out.write_all(b"\\\\"),
        32..=126 => out.write_all(&[byte]),
        _ => put_hexadecimal(out, byte),
    }
}

/// Writes bytes of a cell.
fn put_cell_bytes<W: Write>(out: &mut W, bytes: &[u8]) -> io::Result<()> {
    for byte in bytes {
        put_cell_byte(out, *byte)?;
    }
    Ok(())
}

/// Writes a part's bytes as a cell of a table, by the TYPE of its field; what has to be quoted is not yet.
pub fn put_typed_cell<W: Write>(out: &mut W, part: &Part, own: &[u8]) -> io::Result<()> {
    if let Some(number) = Number::of(part, own) {
        return number.put(out);
    }
    match own.split_first() {
        Some((first, behind)) if holds_numbers(part) => {
            put_hexadecimal(out, *first)?;
            put_cell_bytes(out, behind)
        }
        _ => put_cell_bytes(out, shown_own(part, own)),
    }
}

/// Whether the value at the front of a line's text, in quotes or not, begins with an escape.
pub fn begins_with_escape(text: &[u8]) -> bool {
    matches!(text, [b'\\', ..] | [b'"', b'\\', ..])
}

/// Makes the bytes of a part of the text of a cell, by the TYPE of its field.
fn read_typed_cell(part: &Part, cell: &[u8], value: &mut Vec<u8>) -> Result<(), Wrong> {
    if holds_numbers(part) && cell.first() != Some(&b'\\') {
        return read_number(part, cell, value);
    }
    read_escaped(cell, value)
}

/// Makes the bytes of a field those of zero.
fn put_zero(part: &Part, bytes: &mut Vec<u8>) {
    let start = part.start as usize;
    let end = start.saturating_add(part.length as usize);
    for place in start..end {
        if let Some(byte) = bytes.get_mut(place) {
            *byte = zero_byte(part, place.saturating_add(1) == end);
        }
    }
}

/// Makes bytes those of a segment of a type of which nothing is given: zero where a field holds numbers, and blanks.
pub fn fill_segment(segment: &SegType, bytes: &mut Vec<u8>) -> Result<(), AllocError> {
    bytes.clear();
    bytes.resize(segment.length as usize, b' ')?;
    for field in &segment.fields {
        let part = Part::of_field(field);
        if holds_numbers(&part) {
            put_zero(&part, bytes);
        }
    }
    Ok(())
}

/// How the cells of a table are read, and what is needed again for each: the bytes of a cell, and those of a segment of which nothing is given.
#[derive(Drop)]
pub struct Cells {
    values: Values,
    value: Vec<u8>,
    filling: Vec<u8>,
}

impl Cells {
    /// Cells that are the bytes themselves.
    pub fn bytes(alloc: Global) -> Cells {
        Cells {
            values: Values::Bytes,
            value: Vec::new(alloc),
            filling: Vec::new(alloc),
        }
    }

    /// Reads the cells of a type's table from now on by the TYPEs of its fields.
    pub fn be_typed(&mut self, segment: &SegType) -> Result<(), AllocError> {
        self.values = Values::Typed;
        fill_segment(segment, &mut self.filling)
    }

    /// Gives the bytes of a segment of which nothing is given to one that is begun.
    pub fn fill(&self, segment: &mut Draft) {
        segment.fill(&self.filling);
    }

    /// Gives the bytes of a part that a cell spells.
    pub fn put(&mut self, part: Part, cell: &[u8], draft: &mut Draft) -> Result<(), Wrong> {
        if self.values == Values::Bytes {
            draft.put(part, cell)?;
            return Ok(());
        }
        read_typed_cell(&part, cell, &mut self.value)?;
        draft.put(part, &self.value)?;
        Ok(())
    }
}
