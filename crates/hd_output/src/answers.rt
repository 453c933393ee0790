ghost use Rattle.std.specs.Prelude.{◌≡◌, take, IfOk, OnOk};
ghost use Rattle.std.specs.Io.{WritesAtMost};
ghost use Rattle.std.specs.Io.KnownBytes.{Keeps, Appends, WriteAppends};
ghost use Rattle.hd_output.specs.Counts.{ends_line, answered_with};

use crate::progress::{Progress, Work};
use std::io::{self, Write};
use std::marker::Model;

/// A writer to the lines of calls, which passes all bytes on to another, counts the lines, and tells from the first on how many of the calls are answered.
///
/// A line ends with a write that ends in a line feed; no other write ends in one.
#[derive(Drop)]
pub struct Answers<'p, W: Write, P: Progress> {
    inner: W,
    answered: u64,
    calls: u64,
    progress: &'p P,
}

impl<'p, W: Write, P: Progress> Model for Answers<'p, W, P> {
    ghost use Rattle.hd_output.specs.Counts.{Answered};

    ghost Value = { Answered W };

    ghost view = { λ a. record { inner = a.inner; answered = a.answered } };
}

impl<'p, W: Write, P: Progress> Answers<'p, W, P> {
    /// A writer in front of another, for the lines of so many calls.
    pub fn new(inner: W, calls: u64, progress: &'p P) -> Answers<'p, W, P>
        ensures { result ≡ record { inner = inner; answered = 0 } }
    {
        Answers {
            inner,
            answered: 0,
            calls,
            progress,
        }
    }

    /// How many calls were answered, at most to `u64::MAX`.
    pub fn answered(&self) -> u64
        ensures { result ≡ self.now.answered }
    {
        self.answered
    }

    /// Counts a line if one ends with these bytes, and tells of it.
    #[inline(always)]
    fn note(&mut self, bytes: &[u8])
        ensures { self.new ≡ record { inner = self.old.inner; answered = answered_with bytes.now self.old.answered } }
    {
        if ends_line(bytes) {
            if self.answered == 0 {
                self.progress.begin(self.calls, Work::Calls);
            }
            self.answered = self.answered.saturating_add(1);
            self.progress.done(1);
        }
    }
}

/// Whether bytes end in a line feed.
#[inline(always)]
fn ends_line(bytes: &[u8]) -> bool
    ensures { result ≡ ends_line bytes.now }
{
    match bytes.last() {
        Some(byte) => *byte == b'\n',
        None => false,
    }
}

impl<'p, W: Write, P: Progress> Write for Answers<'p, W, P> {
    ghost contents = { λ a. W.contents a.inner };

    fn write(&mut self, buf: &[u8]) -> io::Result<usize>
        ensures bound { WritesAtMost result buf.now }
        ensures bytes { WriteAppends (W.contents self.old.inner) (W.contents self.new.inner) result buf.now }
        ensures counted { IfOk result (λ n. self.new.answered ≡ answered_with (take n buf.now) self.old.answered) }
    {
        let count = self.inner.write(buf)?;
        self.note(&buf[..count]);
        Ok(count)
    }

    fn flush(&mut self) -> io::Result<()>
        ensures bytes { Keeps (W.contents self.old.inner) (W.contents self.new.inner) }
        ensures counted { self.new.answered ≡ self.old.answered }
    {
        self.inner.flush()
    }

    #[inline(always)]
    fn write_all(&mut self, buf: &[u8]) -> io::Result<()>
        ensures bytes { OnOk result (Appends (W.contents self.old.inner) (W.contents self.new.inner) buf.now) }
        ensures counted { OnOk result (self.new.answered ≡ answered_with buf.now self.old.answered) }
    {
        self.inner.write_all(buf)?;
        self.note(buf);
        Ok(())
    }
}
