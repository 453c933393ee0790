use hd_dbd::{DbdFault, PsbFault};
use hd_macro::LineFault;
use std::fmt;
use thiserror::Error;

/// Why a source is refused: a fault of its lines; a fault of a statement, with the number of its first line, from 1; or
/// the rule that its database or its program breaks. `Memory` says nothing of the source.
#[derive(Clone, Copy, Debug, Drop, PartialEq, Eq, Error)]
pub enum GenFault {
    /// A fault of a line.
    Line(LineFault),
    /// A statement that the source does not have.
    G1(usize),
    /// A statement that may not stand where it stands; or a DBDGEN or PSBGEN that is missing, at the line behind the
    /// last.
    G2(usize),
    /// An operand, or a value of one, that is not supported.
    G3(usize),
    /// A name or a number that is none, an operand that stands twice, a second sequence field of a type, or the name of
    /// another database.
    G4(usize),
    /// An operand that is missing.
    G5(usize),
    /// A rule that the database breaks.
    Dbd(DbdFault),
    /// A rule that the program breaks.
    Psb(PsbFault),
    /// No memory.
    Memory,
}

impl fmt::Display for GenFault {
    fn fmt<W: fmt::Write>(&self, f: &mut fmt::Formatter<W>) -> fmt::Result {
        let (line, rule) = match *self {
            GenFault::Line(fault) => return fmt::Display::fmt(&fault, f),
            GenFault::G1(line) => (line, 1),
            GenFault::G2(line) => (line, 2),
            GenFault::G3(line) => (line, 3),
            GenFault::G4(line) => (line, 4),
            GenFault::G5(line) => (line, 5),
            GenFault::Dbd(fault) => return fmt::Display::fmt(&fault, f),
            GenFault::Psb(fault) => return fmt::Display::fmt(&fault, f),
            GenFault::Memory => return f.write_str("no memory"),
        };
        write!(f, "line {line}, G{rule}")
    }
}
