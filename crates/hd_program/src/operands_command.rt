use crate::stop::Stop;
use hd_commands::Ended;
use hd_files::{Named, read_file};
use hd_macro::{Operand, Statement, statements};
use std::alloc::Global;
use std::fs::File;
use std::io::{self, Write};
use std::rt::Files;

/// Writes a line for each operand of the statements of a source, as they stand there without comments and the ends of lines: the number of the statement's
/// first line, its operation, the keyword and the value. A statement without operands has a line of its own.
pub fn list_operands<R: Files<File = File>, O: Write>(
    rt: &R,
    alloc: Global,
    source: &str,
    out: &mut O,
) -> Result<Ended, Stop> {
    let (text, _) = read_file(rt, alloc, source, Named::Dbd)?;
    let statements = match statements(alloc, &text) {
        Ok(statements) => statements,
        Err(fault) => return Err(Stop::source(fault, text)),
    };
    for statement in &statements {
        put_statement(statement, out)?;
    }
    Ok(Ended::with_status(0))
}

/// The lines of one statement.
fn put_statement<O: Write>(statement: &Statement, out: &mut O) -> io::Result<()> {
    if statement.operands.is_empty() {
        put_front(statement, out)?;
        return out.write_all(b"\n");
    }
    for operand in &statement.operands {
        put_front(statement, out)?;
        put_operand(operand, out)?;
    }
    Ok(())
}

/// What each line of a statement begins with.
fn put_front<O: Write>(statement: &Statement, out: &mut O) -> io::Result<()> {
    write!(out, "{} ", statement.line)?;
    out.write_all(&statement.operation)
}

/// The rest of an operand's line.
fn put_operand<O: Write>(operand: &Operand, out: &mut O) -> io::Result<()> {
    out.write_all(b" ")?;
    out.write_all(&operand.keyword)?;
    out.write_all(b" ")?;
    out.write_all(&operand.value)?;
    out.write_all(b"\n")
}
