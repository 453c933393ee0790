use crate::above::{Above, keys_above};
use crate::naming::without_padding;
use crate::part::{Part, columns_of};
use crate::typed::{Values, put_typed_cell};
use crate::value::{shown, shown_part};
use csv::Writer;
use hd_dbd::Dbd;
use std::alloc::{AllocError, Global};
use std::io::{self, Write};

/// A type above the table's, and the key of its last row.
#[derive(Drop)]
struct Kept {
    above: Above,
    key: Vec<u8>,
}

impl Kept {
    /// Keeps the key of a row of the type.
    fn keep(&mut self, bytes: &[u8]) -> Result<(), AllocError> {
        self.key.clear();
        self.key.extend_from_slice(self.above.key.bytes_in(bytes))
    }
}

/// The types above a type that have a key, without a row.
fn kept_above(alloc: Global, dbd: &Dbd, code: u8) -> Result<Vec<Kept>, AllocError> {
    let mut kept = Vec::new(alloc);
    let keys = keys_above(alloc, dbd, code)?;
    for above in &keys {
        kept.push(Kept {
            above: *above,
            key: Vec::new(alloc),
        })?;
    }
    Ok(kept)
}

/// Writes a cell of a line of CSV.
fn put_cell(cells: &mut Writer<&mut Vec<u8>>, cell: &[u8]) -> Result<(), AllocError> {
    match cells.write_field(cell) {
        Ok(()) => Ok(()),
        Err(_) => Err(AllocError),
    }
}

/// Writes the end of a line of CSV.
fn put_line_end(cells: &mut Writer<&mut Vec<u8>>) -> Result<(), AllocError> {
    if cells.end_record().is_ok() && cells.flush().is_ok() {
        return Ok(());
    }
    Err(AllocError)
}

/// Writes a part's bytes as a cell of a line of CSV, by the TYPE of its field.
fn put_typed(
    cells: &mut Writer<&mut Vec<u8>>,
    part: &Part,
    own: &[u8],
    cell: &mut Vec<u8>,
) -> Result<(), AllocError> {
    cell.clear();
    match put_typed_cell(cell, part, own) {
        Ok(()) => put_cell(cells, cell),
        Err(_) => Err(AllocError),
    }
}

/// Writes the cells of a row of a table, by the TYPEs of their fields.
fn put_typed_cells(
    cells: &mut Writer<&mut Vec<u8>>,
    kept: &[Kept],
    columns: &[Part],
    bytes: &[u8],
    cell: &mut Vec<u8>,
) -> Result<(), AllocError> {
    for kept in kept {
        put_typed(cells, &kept.above.key, &kept.key, cell)?;
    }
    for part in columns {
        put_typed(cells, part, part.bytes_in(bytes), cell)?;
    }
    put_line_end(cells)
}

/// Writes the cells of a row of a table.
fn put_cells(
    cells: &mut Writer<&mut Vec<u8>>,
    kept: &[Kept],
    columns: &[Part],
    bytes: &[u8],
) -> Result<(), AllocError> {
    for kept in kept {
        put_cell(cells, shown(&kept.key))?;
    }
    for part in columns {
        put_cell(cells, shown_part(part, bytes))?;
    }
    put_line_end(cells)
}

/// A row of a table as a line of CSV.
fn csv_line(
    line: &mut Vec<u8>,
    kept: &[Kept],
    columns: &[Part],
    bytes: &[u8],
) -> Result<(), AllocError> {
    line.clear();
    let mut cells = Writer::from_writer(line);
    put_cells(&mut cells, kept, columns, bytes)
}

/// A row of a table as a line of CSV, by the TYPEs of its fields.
fn typed_line(
    line: &mut Vec<u8>,
    kept: &[Kept],
    columns: &[Part],
    bytes: &[u8],
    cell: &mut Vec<u8>,
) -> Result<(), AllocError> {
    line.clear();
    let mut cells = Writer::from_writer(line);
    put_typed_cells(&mut cells, kept, columns, bytes, cell)
}

/// A comma behind the name before, if there is one.
fn begin_name(line: &mut Vec<u8>) -> Result<(), AllocError> {
    if line.is_empty() {
        return Ok(());
    }
    line.extend_from_slice(b",")
}

/// The names of the columns as a line of CSV. None of them has to be quoted.
fn names_line(line: &mut Vec<u8>, kept: &[Kept], columns: &[Part]) -> Result<(), AllocError> {
    line.clear();
    for kept in kept {
        begin_name(line)?;
        line.extend_from_slice(without_padding(kept.above.name.bytes()))?;
        line.extend_from_slice(b".")?;
        kept.above.key.push_label(line)?;
    }
    for part in columns {
        begin_name(line)?;
        part.push_label(line)?;
    }
    line.extend_from_slice(b"\n")
}

/// What the rows of one type as CSV have in common, and what is kept from one to the next.
#[derive(Drop)]
pub struct Table {
    code: u8,
    kept: Vec<Kept>,
    columns: Vec<Part>,
    line: Vec<u8>,
    values: Values,
    cell: Vec<u8>,
}

impl Table {
    /// The table of a type, without columns where the database has no such type.
    pub fn new(alloc: Global, dbd: &Dbd, code: u8) -> Result<Table, AllocError> {
        let kept = kept_above(alloc, dbd, code)?;
        let columns = match dbd.type_of(code) {
            Some(segment) => columns_of(alloc, segment)?,
            None => Vec::new(alloc),
        };
        Ok(Table {
            code,
            kept,
            columns,
            line: Vec::new(alloc),
            values: Values::Bytes,
            cell: Vec::new(alloc),
        })
    }

    /// The same table with values that are written so.
    pub fn with_values(mut self, values: Values) -> Table {
        self.values = values;
        self
    }

    /// Writes the line of the columns' names: the keys above, and the parts of the type, of which one whose segments are two bytes has none.
    pub fn put_names<W: Write>(&mut self, out: &mut W) -> io::Result<()> {
        if self.kept.is_empty() && self.columns.is_empty() {
            return Ok(());
        }
        names_line(&mut self.line, &self.kept, &self.columns)?;
        out.write_all(&self.line)
    }

    /// Keeps the key of a row of a type above the table's.
    fn keep_key(&mut self, code: u8, bytes: &[u8]) -> io::Result<()> {
        for kept in &mut self.kept {
            if kept.above.code == code {
                kept.keep(bytes)?;
            }
        }
        Ok(())
    }

    /// Writes the line of a row of the table's type, and notes the key of one above it.
    pub fn put<W: Write>(&mut self, code: u8, bytes: &[u8], out: &mut W) -> io::Result<()> {
        if code != self.code {
            return self.keep_key(code, bytes);
        }
        self.make_line(bytes)?;
        out.write_all(&self.line)
    }

    /// Makes the line of a row.
    fn make_line(&mut self, bytes: &[u8]) -> Result<(), AllocError> {
        match self.values {
            Values::Bytes => csv_line(&mut self.line, &self.kept, &self.columns, bytes),
            Values::Typed => typed_line(
                &mut self.line,
                &self.kept,
                &self.columns,
                bytes,
                &mut self.cell,
            ),
        }
    }
}

/// The line of the columns' names of the table of a type.
pub fn header_of(alloc: Global, dbd: &Dbd, code: u8) -> Result<Vec<u8>, AllocError> {
    let mut line = Vec::new(alloc);
    let table = Table::new(alloc, dbd, code)?;
    names_line(&mut line, &table.kept, &table.columns)?;
    Ok(line)
}
