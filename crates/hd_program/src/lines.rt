use std::alloc::{AllocError, Global};
use std::io::{self, Write};

/// The status of a deck of which a call was answered something else than it expects.
pub const DIFFERS: u8 = 1;

/// The status of a command that a failed access ended.
pub const DEVICE_FAILED: u8 = 3;

/// Room for a line.
pub const LINE: usize = 256;

/// What a command says at its end, which waits until what it did is on the disk: a line for standard output, and one for standard error.
#[derive(Drop)]
pub struct Lines {
    pub out: Vec<u8>,
    pub err: Vec<u8>,
}

impl Lines {
    /// Nothing said, with room for both lines.
    pub fn new(alloc: Global) -> Result<Lines, AllocError> {
        Ok(Lines {
            out: Vec::with_capacity(alloc, LINE)?,
            err: Vec::with_capacity(alloc, LINE)?,
        })
    }

    /// Says it.
    pub fn tell<O: Write, E: Write>(&self, out: &mut O, err: &mut E) -> io::Result<()> {
        let _ = err.write_all(&self.err);
        out.write_all(&self.out)
    }
}
