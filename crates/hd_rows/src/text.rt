use crate::fault::{RowFault, TextFault, Wrong};
use crate::line::LineReader;
use crate::mark::without_mark;
use crate::part::bytes_at;
use crate::rows::{Row, Rows};
use crate::source::{Source, write_rows};
use crate::typed::Values;
use hd_dbd::Dbd;
use hd_lines::{next_line, unpadded};
use std::alloc::Global;
use std::io::Write;

/// A row on the path of the last one read: how far it is indented, its number and its type.
#[derive(Clone, Copy)]
struct Open {
    indentation: usize,
    number: u32,
    code: u8,
}

/// How many rows at the front of a path are indented less.
fn levels_above(path: &[Open], indentation: usize) -> usize {
    for place in 0..path.len() {
        if path[place].indentation >= indentation {
            return place;
        }
    }
    path.len()
}

/// The number of the parent of a row with an indentation, 0 for a root. Rows indented as far or farther leave the path.
fn parent_on(
    path: &mut Vec<Open>,
    dbd: &Dbd,
    indentation: usize,
    code: u8,
) -> Result<u32, RowFault> {
    path.truncate(levels_above(path, indentation));
    match (path.last().copied(), dbd.parent_of(code)) {
        (None, None) => Ok(0),
        (Some(open), Some(parent)) if open.code == parent => Ok(open.number),
        _ => Err(RowFault::Parent),
    }
}

/// The number of the line, from 1, on which the byte at a place stands.
pub fn line_at(text: &[u8], place: usize) -> u64 {
    let mut line = 1u64;
    for byte in bytes_at(text, 0, place) {
        if *byte == b'\n' {
            line = line.saturating_add(1);
        }
    }
    line
}

/// The text of rows, a line each.
#[derive(Drop)]
struct RowText<'a> {
    text: &'a [u8],
    reader: LineReader<'a>,
}

impl Source for RowText<'_> {
    fn read(&mut self, row: &Row, bytes: &mut Vec<u8>) -> Result<(), TextFault> {
        let left = bytes_at(self.text, row.start, self.text.len());
        if left.is_empty() {
            return Ok(());
        }
        let (line, _) = next_line(left);
        match self.reader.read(unpadded(line)) {
            Ok(_) => {}
            Err(Wrong::Memory) => return Err(TextFault::Memory),
            Err(Wrong::Row(fault)) => return Err(self.fault_at(row, fault)),
        }
        bytes.clear();
        bytes.extend_from_slice(self.reader.bytes())?;
        Ok(())
    }

    fn fault_at(&self, row: &Row, fault: RowFault) -> TextFault {
        TextFault::Row(fault, line_at(self.text, row.start))
    }
}

/// Reads one line of a text, which begins at a place, and adds its row.
fn read_line(
    rows: &mut Rows,
    path: &mut Vec<Open>,
    reader: &mut LineReader<'_>,
    dbd: &Dbd,
    start: usize,
    line: &[u8],
) -> Result<(), Wrong> {
    let words = unpadded(line);
    if words.is_empty() || words.first() == Some(&b'#') {
        return Ok(());
    }
    let code = reader.read(words)?;
    let indentation = line.len().saturating_sub(words.len());
    let parent = parent_on(path, dbd, indentation, code)?;
    let number = rows.next_number()?;
    rows.add(dbd, start, parent, code, reader.bytes())?;
    path.push(Open {
        indentation,
        number,
        code,
    })?;
    Ok(())
}

/// Reads the rows of a text, up to the first line with a fault.
fn read_text(alloc: Global, dbd: &Dbd, text: &[u8], values: Values) -> Result<Rows, TextFault> {
    let mut rows = Rows::new(alloc);
    let mut path = Vec::new(alloc);
    let mut reader = LineReader::new(alloc, dbd, values);
    let mut left = without_mark(text);
    for count in 0..text.len() {
        if left.is_empty() {
            break;
        }
        let start = text.len().saturating_sub(left.len());
        let (line, behind) = next_line(left);
        match read_line(&mut rows, &mut path, &mut reader, dbd, start, line) {
            Ok(()) => left = behind,
            Err(Wrong::Memory) => return Err(TextFault::Memory),
            Err(Wrong::Row(fault)) => {
                rows.fault = Some(TextFault::Row(fault, count as u64 + 1));
                break;
            }
        }
    }
    Ok(rows)
}

/// The column of a line that is refused, counted from 1, in which the part begins that cannot be read, or where all can the type's name.
pub fn fault_column(alloc: Global, dbd: &Dbd, line: &[u8], values: Values) -> usize {
    let words = unpadded(line);
    let mut reader = LineReader::new(alloc, dbd, values);
    let left = match reader.read(words) {
        Ok(_) => words.len(),
        Err(_) => reader.left(),
    };
    line.len().saturating_sub(left).saturating_add(1)
}

/// Writes the unload stream of the rows that a text spells, a line each, and says how many they are.
///
/// Twins may stand in any order and the types below a row too: they are sorted. Values are bytes, or are read by the TYPEs of their
/// fields. The text is read twice. Where a line has a fault nothing is written.
pub fn stream_of_rows<W: Write>(
    alloc: Global,
    dbd: &Dbd,
    text: &[u8],
    values: Values,
    out: &mut W,
) -> Result<u32, TextFault> {
    let rows = read_text(alloc, dbd, text, values)?;
    let mut source = RowText {
        text,
        reader: LineReader::new(alloc, dbd, values),
    };
    write_rows(alloc, dbd, &rows, &mut source, out)
}
