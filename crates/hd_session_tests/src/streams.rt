//! A writer without room for all, and a reader that brings calls in pieces.

use std::alloc::Global;
use std::cell::Cell;
use std::io::{self, ErrorKind, Read, Write};

/// A writer that takes so many bytes and no more, and counts how often it is flushed.
#[derive(Drop)]
pub struct Page<'a> {
    pub taken: Vec<u8>,
    room: usize,
    pub sent: &'a Cell<usize>,
}

impl<'a> Page<'a> {
    pub fn new(alloc: Global, room: usize, sent: &'a Cell<usize>) -> Page<'a> {
        Page {
            taken: Vec::new(alloc),
            room,
            sent,
        }
    }
}

impl Write for Page<'_> {
    fn write(&mut self, buf: &[u8]) -> io::Result<usize> {
        if self.room == 0 {
            return Err(io::Error::from(ErrorKind::StorageFull));
        }
        let count = buf.len().min(self.room);
        self.taken.extend_from_slice(&buf[..count])?;
        self.room = self.room.saturating_sub(count);
        Ok(count)
    }

    fn flush(&mut self) -> io::Result<()> {
        self.sent.set(self.sent.get().saturating_add(1));
        Ok(())
    }
}

/// A program that sends frames: each in one piece, or a byte at a time with an interruption before each. A read behind so many bytes fails.
#[derive(Drop)]
pub struct Feed<'a> {
    frames: &'a [&'a [u8]],
    taken: usize,
    is_slow: bool,
    is_interrupted: bool,
    left: usize,
    sent: &'a Cell<usize>,
    /// How many frames were taken.
    pub made: usize,
    /// How many reads brought something, or found the end.
    pub reads: usize,
    /// Whether one was made while the first frame or an answer was owed.
    pub is_early: bool,
}

impl<'a> Feed<'a> {
    pub fn new(
        frames: &'a [&'a [u8]],
        is_slow: bool,
        left: usize,
        sent: &'a Cell<usize>,
    ) -> Feed<'a> {
        Feed {
            frames,
            taken: 0,
            is_slow,
            is_interrupted: false,
            left,
            sent,
            made: 0,
            reads: 0,
            is_early: false,
        }
    }

    /// Takes so many bytes of the frame.
    fn pass(&mut self, count: usize, length: usize) {
        self.left = self.left.saturating_sub(count);
        self.taken = self.taken.saturating_add(count);
        if self.taken == length {
            self.taken = 0;
            self.made = self.made.saturating_add(1);
        }
    }
}

impl Read for Feed<'_> {
    fn read(&mut self, buf: &mut [u8]) -> io::Result<usize> {
        self.is_interrupted = self.is_slow && !self.is_interrupted;
        if self.is_interrupted {
            return Err(io::Error::from(ErrorKind::Interrupted));
        }
        self.reads = self.reads.saturating_add(1);
        self.is_early = self.is_early || self.sent.get() != self.made.saturating_add(1);
        let Some(frame) = self.frames.get(self.made) else {
            return Ok(0);
        };
        if self.left == 0 {
            return Err(io::Error::from(ErrorKind::TimedOut));
        }
        let most = if self.is_slow { 1 } else { self.left };
        let rest = frame.get(self.taken..).unwrap_or(&[]);
        let count = rest.len().min(buf.len()).min(most);
        buf[..count].copy_from_slice(&rest[..count]);
        self.pass(count, frame.len());
        Ok(count)
    }
}
