use hd_commands::Refusal;
use hd_dbd::Refused;
use hd_deck::DeckFault;
use hd_files::{FileFault, Named};
use hd_gen::GenFault;
use hd_macro::LineFault;
use hd_rows::RowFault;
use hd_serve::FrameFault;
use std::alloc::{AllocError, AllocFailed};
use std::fmt;
use std::io::{self, ErrorKind};

/// The status where the command line is not understood, or would write over an input.
pub const COMMAND_LINE: u8 = 64;

/// Why a table is refused: the fault, the name of its file without the ending, the line, the name of the column that is at fault, without bytes where none is, the names
/// that the table may have, or that its columns may have, and its text.
#[derive(Drop)]
pub struct TableFault {
    pub fault: RowFault,
    pub name: String,
    pub line: u64,
    pub column: Vec<u8>,
    pub names: Vec<u8>,
    pub text: Vec<u8>,
}

/// Why the program ended without having done its work. Its text is the line on standard error.
#[derive(Drop)]
pub enum Stop {
    /// The DBD's source has a fault; with the source.
    Database(GenFault, Vec<u8>),
    /// The PSB's source has a fault; with the source.
    Program(GenFault, Vec<u8>),
    /// A line of a source has a fault; with the source.
    Source(LineFault, Vec<u8>),
    /// The deck has a fault; with the deck, and the file that it stands in.
    Deck(DeckFault, Vec<u8>, Named),
    /// A text of rows has a fault on a line, at a column, 0 where none is known; with the text.
    Rows(RowFault, u64, usize, Vec<u8>),
    /// A table has a fault on a line.
    Table(TableFault),
    /// The system refused to open, to read or to write a file.
    File(Named, io::Error),
    /// The system refused to make a new file beside one, in which the result for it was to be written.
    Beside(Named, io::Error),
    OverInput,
    /// The file for the rows that a salvage leaves out is also read.
    OrphansOverInput,
    /// Two results would go into one file.
    OneOutput,
    InUse(Named),
    /// The log beside a volume has commits of another file.
    OtherVolume,
    OtherVersion,
    /// The system refuses to write a volume, some commits of which stand in its log alone.
    Waiting(io::Error),
    Words,
    NoType,
    /// A frame of the program whose calls are served is no right one.
    Frame(FrameFault),
    /// A type's fields can't be told to a program whose calls are to be served.
    Fields,
    Refused(Refusal),
}

impl fmt::Display for TableFault {
    fn fmt<W: fmt::Write>(&self, f: &mut fmt::Formatter<W>) -> fmt::Result {
        let TableFault {
            fault,
            name,
            line,
            ..
        } = self;
        write!(f, "IN refused: {name}.csv, line {line}, {fault}")
    }
}

impl fmt::Display for Stop {
    fn fmt<W: fmt::Write>(&self, f: &mut fmt::Formatter<W>) -> fmt::Result {
        let text = match self {
            Stop::Database(fault, _) => return write!(f, "DBD refused: {fault}"),
            Stop::Program(fault, _) => return write!(f, "PSB refused: {fault}"),
            Stop::Source(fault, _) => return write!(f, "source refused: {fault}"),
            Stop::Deck(fault, _, _) => return write!(f, "DECK refused: {fault}"),
            Stop::Rows(fault, line, _, _) => return write!(f, "IN refused: line {line}, {fault}"),
            Stop::Table(table) => return write!(f, "{table}"),
            Stop::Frame(fault) => return write!(f, "frame refused: {fault}"),
            Stop::Refused(refusal) => return write!(f, "{refusal}"),
            Stop::File(_, _) | Stop::Beside(_, _) => "device failed",
            Stop::OverInput | Stop::OrphansOverInput => {
                "output file is also an input, nothing was changed"
            }
            Stop::OneOutput => "both output files are one, nothing was changed",
            Stop::InUse(_) => "volume is in use",
            Stop::OtherVolume => "log of another volume",
            Stop::OtherVersion => "log of another version",
            Stop::Waiting(_) => "the last commit stands in the log alone",
            Stop::Words => "a word of the command line is not UTF-8",
            Stop::NoType => "the database has no type of this name",
            Stop::Fields => "DBD refused: a type has more than 255 fields",
        };
        f.write_str(text)
    }
}

impl Stop {
    /// The DBD's source is refused, or could not be read for want of memory.
    pub fn database(fault: GenFault, source: Vec<u8>) -> Stop {
        match fault {
            GenFault::Memory => Stop::Refused(Refusal::Memory),
            _ => Stop::Database(fault, source),
        }
    }

    /// The PSB's source is refused, or could not be read for want of memory.
    pub fn program(fault: GenFault, source: Vec<u8>) -> Stop {
        match fault {
            GenFault::Memory => Stop::Refused(Refusal::Memory),
            _ => Stop::Program(fault, source),
        }
    }

    /// The lines of a source are refused, or could not be read for want of memory.
    pub fn source(fault: LineFault, text: Vec<u8>) -> Stop {
        match fault {
            LineFault::Memory => Stop::Refused(Refusal::Memory),
            _ => Stop::Source(fault, text),
        }
    }

    /// The deck in a file is refused, or could not be read for want of memory.
    pub fn deck(fault: DeckFault, text: Vec<u8>, file: Named) -> Stop {
        match fault {
            DeckFault::Memory => Stop::Refused(Refusal::Memory),
            _ => Stop::Deck(fault, text, file),
        }
    }

    /// A file could not be opened, read or written, or there is no memory for its bytes.
    pub fn file(file: Named, error: io::Error) -> Stop {
        Stop::from(FileFault::file(file, error))
    }

    /// An access of a file failed while a command was at work; with what the system said of it, if that is known.
    pub fn device(file: Named, said: Option<io::Error>) -> Stop {
        Stop::from(FileFault::device(file, said))
    }

    /// The words of the command line could not be read: one is no text, or there is no memory for them.
    pub fn words(error: &io::Error) -> Stop {
        match error.kind() {
            ErrorKind::OutOfMemory => Stop::Refused(Refusal::Memory),
            _ => Stop::Words,
        }
    }

    /// The status with which the program ends.
    pub fn status(&self) -> u8 {
        match self {
            Stop::Database(_, _) | Stop::Program(_, _) | Stop::Source(_, _) => 2,
            Stop::Deck(_, _, _) | Stop::Rows(_, _, _, _) | Stop::Table(_) => 2,
            Stop::Fields => 2,
            Stop::File(_, _) | Stop::Beside(_, _) | Stop::InUse(_) | Stop::Frame(_) => 3,
            Stop::OtherVolume | Stop::OtherVersion | Stop::Waiting(_) => 3,
            Stop::OverInput | Stop::OrphansOverInput | Stop::OneOutput => COMMAND_LINE,
            Stop::Words | Stop::NoType => COMMAND_LINE,
            Stop::Refused(refusal) => refusal.status(),
        }
    }
}

impl From<FileFault> for Stop {
    fn from(fault: FileFault) -> Stop {
        match fault {
            FileFault::File(file, error) => Stop::File(file, error),
            FileFault::Beside(file, error) => Stop::Beside(file, error),
            FileFault::InUse(file) => Stop::InUse(file),
            FileFault::OtherVolume => Stop::OtherVolume,
            FileFault::OtherVersion => Stop::OtherVersion,
            FileFault::Waiting(error) => Stop::Waiting(error),
            FileFault::OverInput => Stop::OverInput,
            FileFault::Memory => Stop::Refused(Refusal::Memory),
            FileFault::Device => Stop::Refused(Refusal::Device),
        }
    }
}

impl From<Refusal> for Stop {
    fn from(refusal: Refusal) -> Stop {
        Stop::Refused(refusal)
    }
}

impl From<Refused> for Stop {
    fn from(refused: Refused) -> Stop {
        Stop::Refused(Refusal::of_refused(refused))
    }
}

impl From<io::Error> for Stop {
    fn from(_error: io::Error) -> Stop {
        Stop::Refused(Refusal::Device)
    }
}

impl From<AllocError> for Stop {
    fn from(_error: AllocError) -> Stop {
        Stop::Refused(Refusal::Memory)
    }
}

impl<T: Drop> From<AllocFailed<T>> for Stop {
    fn from(_error: AllocFailed<T>) -> Stop {
        Stop::Refused(Refusal::Memory)
    }
}
