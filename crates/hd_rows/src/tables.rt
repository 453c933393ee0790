use crate::fault::{RowFault, TextFault};
use crate::parents::find_parents;
use crate::rows::{Row, Rows, key_length};
use crate::source::{Source, write_rows};
use crate::table::{TableReader, read_table};
use crate::typed::Values;
use hd_dbd::Dbd;
use std::alloc::Global;
use std::io::Write;

/// Tables, one a type.
#[derive(Drop)]
struct TableTexts<'a> {
    tables: Vec<TableReader<'a>>,
}

impl Source for TableTexts<'_> {
    fn read(&mut self, row: &Row, bytes: &mut Vec<u8>) -> Result<(), TextFault> {
        for table in &mut self.tables {
            if table.code == row.code {
                return table.read_at(row.start, bytes);
            }
        }
        Ok(())
    }

    fn fault_at(&self, row: &Row, fault: RowFault) -> TextFault {
        for table in &self.tables {
            if table.code == row.code {
                return table.fault_at(row.start, fault);
            }
        }
        TextFault::Table(fault, row.code, 1, None)
    }
}

/// Finds the parents of the rows of a table, which stand from a place on. The first without one is a fault, and ends the rows.
fn place_rows(
    alloc: Global,
    dbd: &Dbd,
    rows: &mut Rows,
    first: usize,
    table: &TableReader<'_>,
) -> Result<(), TextFault> {
    let Some(parent) = dbd.parent_of(table.code) else {
        return Ok(());
    };
    let own = key_length(dbd, parent);
    let length = table.keys_length as usize;
    let orphan = find_parents(
        alloc,
        &rows.keys,
        &mut rows.rows,
        first,
        parent,
        own,
        length,
    )?;
    let Some(place) = orphan else {
        return Ok(());
    };
    if let Some(row) = rows.rows.get(place) {
        rows.fault = Some(table.fault_at(row.start, RowFault::Orphan));
    }
    rows.rows.truncate(place);
    Ok(())
}

/// Reads the table of a type, if there is one, and adds its rows.
fn read_type<'a>(
    alloc: Global,
    dbd: &Dbd,
    code: u8,
    tables: &[(u8, &'a [u8])],
    values: Values,
    rows: &mut Rows,
    readers: &mut Vec<TableReader<'a>>,
) -> Result<(), TextFault> {
    for table in tables {
        if table.0 == code {
            let first = rows.rows.len();
            let reader = read_table(alloc, dbd, code, table.1, values, rows)?;
            place_rows(alloc, dbd, rows, first, &reader)?;
            readers.push(reader)?;
        }
    }
    Ok(())
}

/// The first table of no type, or of the type of one before it.
fn tables_fault(dbd: &Dbd, tables: &[(u8, &[u8])]) -> Option<TextFault> {
    for place in 0..tables.len() {
        let code = tables[place].0;
        if dbd.type_of(code).is_none() {
            return Some(TextFault::Table(RowFault::Type, code, 1, None));
        }
        if has_table(&tables[..place], code) {
            return Some(TextFault::Table(RowFault::Twice, code, 1, None));
        }
    }
    None
}

/// Whether one of the tables is of a type.
fn has_table(tables: &[(u8, &[u8])], code: u8) -> bool {
    for table in tables {
        if table.0 == code {
            return true;
        }
    }
    false
}

/// Writes the unload stream of the rows that tables spell, and says how many they are.
///
/// Each table is CSV, given with the code of its type, and has a line of the columns' names as `Form::Table` writes it, in any order. A
/// row's parents are those of the keys in the columns `TYPE.KEY`. Rows are sorted as those of `stream_of_rows`, and the tables may stand
/// in any order; they are read in that of their types, and then a second time. Values are bytes, or are read by the TYPEs of their fields.
/// Where a table has a fault nothing is written.
pub fn stream_of_tables<W: Write>(
    alloc: Global,
    dbd: &Dbd,
    tables: &[(u8, &[u8])],
    values: Values,
    out: &mut W,
) -> Result<u32, TextFault> {
    if let Some(fault) = tables_fault(dbd, tables) {
        return Err(fault);
    }
    let mut rows = Rows::new(alloc);
    let mut readers = Vec::new(alloc);
    for code in 1..=u8::MAX {
        if rows.fault.is_none() {
            read_type(alloc, dbd, code, tables, values, &mut rows, &mut readers)?;
        }
    }
    let mut source = TableTexts { tables: readers };
    write_rows(alloc, dbd, &rows, &mut source, out)
}
