use crate::ink::Ink;
use crate::places::line_at;
use crate::stop::TableFault;
use hd_rows::RowFault;
use std::io::Write;

/// Writes what more can be said of a fault of a row: of a number that its field cannot hold, which numbers a field holds.
pub fn advise_row<E: Write>(fault: RowFault, ink: &mut Ink<'_, E>) {
    if fault == RowFault::Number {
        ink.put(
            "  with --types a field of TYPE=F or H takes -32768 to 32767 in 2 bytes, and -2147483648 to 2147483647 in 4; one of TYPE=P two digits a byte, one less in all; ",
        );
        ink.put("and either takes bytes, of which the first is \\x and two hexadecimal digits\n");
    }
}

/// Writes the line of a table in a folder, the name of its column that is at fault, and the names that it may have.
pub fn put_table<E: Write>(folder: &str, table: &TableFault, ink: &mut Ink<'_, E>) {
    ink.name(folder);
    ink.put("/");
    ink.put(&table.name);
    ink.put(".csv");
    if !table.text.is_empty() {
        ink.put(":");
        ink.number(table.line);
        ink.put(": ");
        let number = usize::try_from(table.line).unwrap_or(usize::MAX);
        ink.shown(line_at(&table.text, number));
    }
    ink.put("\n");
    if !table.column.is_empty() {
        ink.put("  the column is ");
        ink.shown(&table.column);
        ink.put("\n");
    }
    put_names(table, ink);
    advise_row(table.fault, ink);
}

/// Writes the names that a table may have, or its columns.
fn put_names<E: Write>(table: &TableFault, ink: &mut Ink<'_, E>) {
    match table.fault {
        RowFault::Type => ink.put("  the types of the database are "),
        RowFault::Part | RowFault::Missing => {
            ink.put("  the columns that hd rows --csv writes are ");
        }
        _ => return,
    }
    ink.shown(table.names.trim_ascii_end());
    ink.put("\n");
}
