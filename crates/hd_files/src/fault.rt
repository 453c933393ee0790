use crate::named::Named;
use hd_journal::Unopened;
use std::alloc::{AllocError, AllocFailed};
use std::io::{self, ErrorKind};

/// Why a file could not be used.
#[derive(Debug, Drop)]
pub enum FileFault {
    /// The system refused to open, to read or to write a file.
    File(Named, io::Error),
    /// The system refused to make a new file beside one, in which the result for it was to be written.
    Beside(Named, io::Error),
    /// Another program uses it, or another file has taken its name.
    InUse(Named),
    /// The log beside a volume has commits of another volume.
    OtherVolume,
    /// The log beside a volume is of a version that is not known.
    OtherVersion,
    /// Commits of a volume stand in its log alone, and the system refuses to write the volume.
    Waiting(io::Error),
    /// A file for a result is also read.
    OverInput,
    /// There is no memory for its bytes, or for the blocks that are kept of it.
    Memory,
    /// An access failed, and what the system said of it is not known.
    Device,
}

impl FileFault {
    /// A file could not be opened, read or written, or there is no memory for its bytes.
    pub fn file(file: Named, error: io::Error) -> FileFault {
        match error.kind() {
            ErrorKind::OutOfMemory => FileFault::Memory,
            _ => FileFault::File(file, error),
        }
    }

    /// The files of a volume could not be opened as such; with what the system said of the access that it refused, if that is known.
    pub fn unopened(unopened: Unopened, said: Option<io::Error>) -> FileFault {
        match unopened {
            Unopened::Device => FileFault::device(Named::Volume, said),
            Unopened::Memory => FileFault::Memory,
            Unopened::OtherVolume => FileFault::OtherVolume,
            Unopened::OtherVersion => FileFault::OtherVersion,
        }
    }

    /// An access of a file failed while a command was at work; with what the system said of it, if that is known.
    pub fn device(file: Named, said: Option<io::Error>) -> FileFault {
        match said {
            Some(error) => FileFault::File(file, error),
            None => FileFault::Device,
        }
    }
}

/// What was done with a file, or why it could not be.
pub fn of_file<T>(file: Named, done: io::Result<T>) -> Result<T, FileFault> {
    match done {
        Ok(value) => Ok(value),
        Err(error) => Err(FileFault::file(file, error)),
    }
}

impl From<AllocError> for FileFault {
    fn from(_error: AllocError) -> FileFault {
        FileFault::Memory
    }
}

impl<T: Drop> From<AllocFailed<T>> for FileFault {
    fn from(_error: AllocFailed<T>) -> FileFault {
        FileFault::Memory
    }
}
