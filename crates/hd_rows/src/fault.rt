use std::alloc::{AllocError, AllocFailed};
use std::fmt;
use thiserror::Error;

/// What is wrong with a line of a text of rows, or with a record of a table.
#[derive(Clone, Copy, Debug, Drop, PartialEq, Eq, Error)]
pub enum RowFault {
    /// The database has no type of the name, or of the table's code.
    Type,
    /// The row does not stand below a row of its parent type, or a root stands below a row.
    Parent,
    /// The type has no field of the name, or no such bytes; a table has a column of which this is so.
    Part,
    /// A value has more bytes than its field or range.
    Length,
    /// A byte of the segment is given twice, with different values.
    Differs,
    /// A quote without its fellow or inside a value, or an escape that is none.
    Value,
    /// A twin on an earlier line has the same key, which is unique.
    Equal,
    /// More rows than a stream counts.
    Count,
    /// A record of a table has more or fewer cells than the table has columns.
    Cells,
    /// Another table of the type stands before it.
    Twice,
    /// A type above the table's has no unique key, so the parents of its rows cannot be named.
    Nameless,
    /// A table has no column for the key of a type above it.
    Missing,
    /// No row has the keys that a record names as those of its parents.
    Orphan,
    /// A value of a field that holds numbers is none, or has no room in it.
    Number,
}

impl fmt::Display for RowFault {
    fn fmt<W: fmt::Write>(&self, f: &mut fmt::Formatter<W>) -> fmt::Result {
        f.write_str(match self {
            RowFault::Type => "unknown segment type",
            RowFault::Parent => "no row of the parent type above, by indentation",
            RowFault::Part => "unknown field or range",
            RowFault::Length => "value too long",
            RowFault::Differs => "bytes given twice with different values",
            RowFault::Value => "bad quote or escape",
            RowFault::Equal => "key of a twin before it, and keys are unique",
            RowFault::Count => "too many rows",
            RowFault::Cells => "another number of cells than columns",
            RowFault::Twice => "a second table of the type",
            RowFault::Nameless => "a type above it has no unique key",
            RowFault::Missing => "no column for the key of a type above",
            RowFault::Orphan => "no parent of these keys",
            RowFault::Number => "no number that the field can hold",
        })
    }
}

/// Why a text is not made a stream. Lines count from 1.
#[derive(Clone, Copy, Debug, Drop, PartialEq, Eq, Error)]
pub enum TextFault {
    /// A line of a text of rows is refused, the first with a fault.
    #[error("line {1}: {0}")]
    Row(RowFault, u64),
    /// A record of a table is refused, the first with a fault, of the first table with a fault: the code of the table's type, the
    /// line on which the record begins, and the place of the column that is at fault, from 0, where it is one.
    #[error("table of type {1}, line {2}: {0}")]
    Table(RowFault, u8, u64, Option<usize>),
    /// No memory.
    #[error("no memory")]
    Memory,
    /// A write failed; how much went out is not known.
    #[error("write failed")]
    Write,
}

/// Why a row is not read.
#[derive(Clone, Copy)]
pub enum Wrong {
    Row(RowFault),
    Memory,
}

impl From<AllocError> for Wrong {
    fn from(_refused: AllocError) -> Wrong {
        Wrong::Memory
    }
}

impl<T: Drop> From<AllocFailed<T>> for Wrong {
    fn from(_refused: AllocFailed<T>) -> Wrong {
        Wrong::Memory
    }
}

impl From<RowFault> for Wrong {
    fn from(fault: RowFault) -> Wrong {
        Wrong::Row(fault)
    }
}

impl From<AllocError> for TextFault {
    fn from(_refused: AllocError) -> TextFault {
        TextFault::Memory
    }
}

impl<T: Drop> From<AllocFailed<T>> for TextFault {
    fn from(_refused: AllocFailed<T>) -> TextFault {
        TextFault::Memory
    }
}
