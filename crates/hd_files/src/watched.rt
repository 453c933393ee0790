use std::io::{self, ErrorKind, Write};

/// A writer that keeps what the system said when it refused a write.
#[derive(Drop)]
pub struct Watched<W: Write> {
    inner: W,
    last_error: Option<io::Error>,
}

impl<W: Write> Watched<W> {
    /// A writer in front of another.
    pub fn over(inner: W) -> Watched<W> {
        Watched {
            inner,
            last_error: None,
        }
    }

    /// What the system said of the last write that it refused; `None` where it has refused none.
    pub fn last_error(&self) -> Option<io::Error> {
        self.last_error
    }

    /// Keeps what the system said. A write that is interrupted is made again.
    fn keep(&mut self, error: io::Error) {
        if error.kind() != ErrorKind::Interrupted {
            self.last_error = Some(error);
        }
    }
}

impl<W: Write> Write for Watched<W> {
    fn write(&mut self, buf: &[u8]) -> io::Result<usize> {
        match self.inner.write(buf) {
            Ok(count) => Ok(count),
            Err(error) => {
                self.keep(error);
                Err(error)
            }
        }
    }

    fn flush(&mut self) -> io::Result<()> {
        match self.inner.flush() {
            Ok(()) => Ok(()),
            Err(error) => {
                self.keep(error);
                Err(error)
            }
        }
    }
}
