use crate::cell::{Behind, read_cell, without_ends};
use crate::columns::{
    Column, add_columns, column_of_bytes, keys_length, nearest_key, parents_above,
};
use crate::draft::Draft;
use crate::fault::{RowFault, TextFault, Wrong};
use crate::mark::without_mark;
use crate::part::bytes_at;
use crate::rows::Rows;
use crate::text::line_at;
use crate::typed::{Cells, Values};
use hd_dbd::{Dbd, Key};
use std::alloc::{AllocError, Global};

/// A table of a type's rows: its text, its columns, and what is needed again for each record.
#[derive(Drop)]
pub struct TableReader<'a> {
    pub code: u8,
    pub keys_length: u32,
    text: &'a [u8],
    length: u32,
    least: Option<u32>,
    key: Option<Key>,
    columns: Vec<Column>,
    record: Record,
}

/// A record while its cells are read: the column whose cell is read, that cell, the keys of its parents, its segment, and how its cells are read.
#[derive(Drop)]
struct Record {
    column: Option<usize>,
    cell: Vec<u8>,
    keys: Draft,
    segment: Draft,
    cells: Cells,
}

impl Record {
    /// Begins a record of keys and a segment of so many bytes.
    fn begin(&mut self, keys_length: u32, length: u32) -> Result<(), AllocError> {
        self.segment.begin(length as usize)?;
        self.cells.fill(&mut self.segment);
        self.keys.begin(keys_length as usize)
    }

    /// Takes the cell of a column at the front of a text.
    fn take_cell<'t>(&mut self, column: &Column, text: &'t [u8]) -> Result<Behind<'t>, Wrong> {
        let behind = read_cell(text, &mut self.cell)?;
        if column.is_key {
            self.cells.put(column.part, &self.cell, &mut self.keys)?;
        } else {
            self.cells.put(column.part, &self.cell, &mut self.segment)?;
        }
        Ok(behind)
    }

    /// Takes the cells of all columns at the front of a text; gives what follows.
    fn take_cells<'t>(&mut self, columns: &[Column], text: &'t [u8]) -> Result<&'t [u8], Wrong> {
        let mut behind = Behind {
            rest: text,
            is_last: false,
        };
        for (place, column) in columns.iter().enumerate() {
            if behind.is_last {
                return Err(Wrong::Row(RowFault::Cells));
            }
            self.column = Some(place);
            behind = self.take_cell(column, behind.rest)?;
        }
        self.column = None;
        if behind.is_last {
            Ok(behind.rest)
        } else {
            Err(Wrong::Row(RowFault::Cells))
        }
    }
}

impl<'a> TableReader<'a> {
    /// A table of a type, without columns.
    fn new(alloc: Global, dbd: &Dbd, code: u8, text: &'a [u8]) -> TableReader<'a> {
        let (length, least, key) = match dbd.type_of(code) {
            Some(segment) => (segment.length, segment.least, segment.key),
            None => (0, None, None),
        };
        TableReader {
            code,
            keys_length: 0,
            text,
            length,
            least,
            key,
            columns: Vec::new(alloc),
            record: Record {
                column: None,
                cell: Vec::new(alloc),
                keys: Draft::new(alloc),
                segment: Draft::new(alloc),
                cells: Cells::bytes(alloc),
            },
        }
    }

    /// A fault at the record that begins at a place.
    pub fn fault_at(&self, place: usize, fault: RowFault) -> TextFault {
        TextFault::Table(
            fault,
            self.code,
            line_at(self.text, place),
            self.column_of(fault),
        )
    }

    /// The place of the column that a fault is of: that which is read, or that of a key.
    fn column_of(&self, fault: RowFault) -> Option<usize> {
        match fault {
            RowFault::Part | RowFault::Length | RowFault::Differs => self.record.column,
            RowFault::Value | RowFault::Number => self.record.column,
            RowFault::Orphan => nearest_key(&self.columns),
            RowFault::Equal => {
                let key = self.key?;
                column_of_bytes(&self.columns, key.start.saturating_sub(1), key.length)
            }
            _ => None,
        }
    }

    /// The place where what is left of the text begins.
    fn place_of(&self, left: &[u8]) -> usize {
        self.text.len().saturating_sub(left.len())
    }

    /// Takes the names of the columns at the front of a text; gives what follows.
    fn take_names<'t>(
        &mut self,
        alloc: Global,
        dbd: &Dbd,
        text: &'t [u8],
    ) -> Result<&'t [u8], Wrong> {
        let above = parents_above(alloc, dbd, self.code)?;
        self.keys_length = keys_length(&above);
        match add_columns(alloc, dbd, self.code, &above, text, &mut self.columns) {
            Ok(rest) => Ok(rest),
            Err(wrong) => {
                self.record.column = Some(self.columns.len());
                Err(wrong)
            }
        }
    }

    /// Takes the record at the front of a text; gives what follows.
    fn take<'t>(&mut self, text: &'t [u8]) -> Result<&'t [u8], Wrong> {
        self.record.begin(self.keys_length, self.length)?;
        let left = self.record.take_cells(&self.columns, text)?;
        if let Some(least) = self.least {
            self.record.segment.end(least)?;
        }
        Ok(left)
    }

    /// Reads the record that begins at a place, and gives the bytes of its segment.
    pub fn read_at(&mut self, place: usize, bytes: &mut Vec<u8>) -> Result<(), TextFault> {
        match self.take(bytes_at(self.text, place, self.text.len())) {
            Ok(_) => {}
            Err(Wrong::Memory) => return Err(TextFault::Memory),
            Err(Wrong::Row(fault)) => return Err(self.fault_at(place, fault)),
        }
        bytes.clear();
        bytes.extend_from_slice(self.record.segment.bytes())?;
        Ok(())
    }

    /// Takes the record at the front of a text, and adds its row, whose parent is not known yet; gives what follows.
    fn add<'t>(&mut self, dbd: &Dbd, rows: &mut Rows, text: &'t [u8]) -> Result<&'t [u8], Wrong> {
        let rest = self.take(text)?;
        rows.next_number()?;
        rows.keys.extend_from_slice(self.record.keys.bytes())?;
        rows.add(
            dbd,
            self.place_of(text),
            0,
            self.code,
            self.record.segment.bytes(),
        )?;
        Ok(rest)
    }

    /// Notes why what is left of the text is not read.
    fn note(&self, rows: &mut Rows, left: &[u8], wrong: Wrong) -> Result<(), TextFault> {
        match wrong {
            Wrong::Memory => Err(TextFault::Memory),
            Wrong::Row(fault) => {
                rows.fault = Some(self.fault_at(self.place_of(left), fault));
                Ok(())
            }
        }
    }

    /// Adds the rows of the records, up to the first with a fault.
    fn add_all(&mut self, dbd: &Dbd, rows: &mut Rows, records: &[u8]) -> Result<(), TextFault> {
        let mut left = without_ends(records);
        for _ in 0..records.len() {
            if left.is_empty() {
                return Ok(());
            }
            match self.add(dbd, rows, left) {
                Ok(rest) => left = without_ends(rest),
                Err(wrong) => return self.note(rows, left, wrong),
            }
        }
        Ok(())
    }
}

/// Reads a table of a type, whose values are written so, and adds its rows, up to the first record with a fault. Their parents are not known yet.
pub fn read_table<'a>(
    alloc: Global,
    dbd: &Dbd,
    code: u8,
    text: &'a [u8],
    values: Values,
    rows: &mut Rows,
) -> Result<TableReader<'a>, TextFault> {
    let mut table = TableReader::new(alloc, dbd, code, text);
    if let (Values::Typed, Some(segment)) = (values, dbd.type_of(code)) {
        table.record.cells.be_typed(segment)?;
    }
    let left = without_ends(without_mark(text));
    if left.is_empty() {
        return Ok(table);
    }
    match table.take_names(alloc, dbd, left) {
        Ok(records) => table.add_all(dbd, rows, records)?,
        Err(wrong) => table.note(rows, left, wrong)?,
    }
    Ok(table)
}
