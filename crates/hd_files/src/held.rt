use std::io::{self, Write};

/// A writer whose flush waits: what another has gathered goes out when `release` is called, or before where it is more than that one gathers.
#[derive(Drop)]
pub struct Held<W: Write> {
    inner: W,
}

impl<W: Write> Held<W> {
    /// A writer in front of one that gathers.
    pub fn over(inner: W) -> Held<W> {
        Held { inner }
    }

    /// Lets go out what is gathered.
    pub fn release(&mut self) -> io::Result<()> {
        self.inner.flush()
    }

    /// The writer behind.
    pub fn into_inner(self) -> W {
        self.inner
    }
}

impl<W: Write> Write for Held<W> {
    fn write(&mut self, buf: &[u8]) -> io::Result<usize> {
        self.inner.write(buf)
    }

    fn flush(&mut self) -> io::Result<()> {
        Ok(())
    }

    #[inline(always)]
    fn write_all(&mut self, buf: &[u8]) -> io::Result<()> {
        self.inner.write_all(buf)
    }
}
