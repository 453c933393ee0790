ghost use Rattle.std.specs.Prelude.{◌≡◌, ◌≢◌, ◌<◌, [], ◌∷◌, ◌++◌, length, option_to_list, Ok, Err, IfOk, IfErr};
ghost use Rattle.hd_macro.specs.Source.{source, at_end};
ghost use Rattle.hd_macro.specs.Views.{open_of};

use crate::line::{Open, read_line};
use crate::statement::Statement;
use hd_lines::next_line;
use std::alloc::Global;
use std::fmt;
use thiserror::Error;

/// Why the lines of a source are refused, with the number of the line, from 1. `Memory` says nothing of the source.
#[derive(Clone, Copy, Debug, Drop, PartialEq, Eq, Error)]
pub enum LineFault {
    /// A line of more than 80 bytes.
    M1(usize),
    /// A byte that is not ASCII.
    M2(usize),
    /// A line that should continue the one before it and does not, or is missing.
    M3(usize),
    /// Operand text that is none.
    M4(usize),
    /// No memory.
    Memory,
}

impl fmt::Display for LineFault {
    fn fmt<W: fmt::Write>(&self, f: &mut fmt::Formatter<W>) -> fmt::Result {
        let (line, rule) = match *self {
            LineFault::M1(line) => (line, 1),
            LineFault::M2(line) => (line, 2),
            LineFault::M3(line) => (line, 3),
            LineFault::M4(line) => (line, 4),
            LineFault::Memory => return f.write_str("no memory"),
        };
        write!(f, "line {line}, M{rule}")
    }
}

/// The statements of a source in their order, or the first line with a fault, and in it the least number.
pub fn statements(alloc: Global, bytes: &[u8]) -> Result<Vec<Statement>, LineFault>
    ensures statements { IfOk result (λ v. source bytes.now ≡ Ok v.items) }
    ensures fault { IfErr result (λ e. e ≢ LineFault.Memory → source bytes.now ≡ Err e) }
{
    let mut statements = Vec::new(alloc);
    let mut rest = bytes;
    let mut number = 1;
    let mut standing = Open::Nothing;
    'lines: while !rest.is_empty() {
        let (line, after) = next_line(rest);
        let step = read_line(alloc, standing, number, line)?;
        keep(&mut statements, step.done)?;
        standing = step.open_behind;
        number += 1;
        rest = after;
    }
    at_end(&standing, number)?;
    Ok(statements)
}

/// Adds the statement that ends with a line, if one does.
fn keep(statements: &mut Vec<Statement>, done: Option<Statement>) -> Result<(), LineFault>
    ensures statements { IfOk result (λ _. statements.new.items ≡ statements.old.items ++ option_to_list done) }
    ensures memory { IfErr result (λ e. e ≡ LineFault.Memory) }
{
    match done {
        Some(statement) => statements.push(statement).map_err(|_| LineFault::Memory),
        None => Ok(()),
    }
}

/// Finds a line missing behind the last, where something stands open.
fn at_end(standing: &Open, number: usize) -> Result<(), LineFault>
    ensures none { IfOk result (λ _. at_end (open_of standing.now) number ≡ Ok []) }
    ensures fault { IfErr result (λ e. (e ≢ LineFault.Memory) × (at_end (open_of standing.now) number ≡ Err e)) }
{
    match standing {
        Open::Nothing => Ok(()),
        _ => Err(LineFault::M3(number)),
    }
}
