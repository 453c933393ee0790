use crate::progress::Progress;
use std::io::{self, Write};

/// A writer to standard error or standard output, before which the progress is taken away.
#[derive(Drop)]
pub struct Unmixed<'p, W: Write, P: Progress> {
    inner: W,
    progress: &'p P,
    is_output: bool,
}

impl<'p, W: Write, P: Progress> Unmixed<'p, W, P> {
    /// A writer to standard error.
    pub fn errors(inner: W, progress: &'p P) -> Unmixed<'p, W, P> {
        Unmixed {
            inner,
            progress,
            is_output: false,
        }
    }

    /// A writer to standard output.
    pub fn output(inner: W, progress: &'p P) -> Unmixed<'p, W, P> {
        Unmixed {
            inner,
            progress,
            is_output: true,
        }
    }
}

impl<'p, W: Write, P: Progress> Write for Unmixed<'p, W, P> {
    fn write(&mut self, buf: &[u8]) -> io::Result<usize> {
        if self.is_output {
            self.progress.end_before_output();
        } else {
            self.progress.end();
        }
        self.inner.write(buf)
    }

    fn flush(&mut self) -> io::Result<()> {
        self.inner.flush()
    }
}
