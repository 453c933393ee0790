//! What a picture is written with.

use crate::text::digits;
use std::io::{self, Write};

/// A writer that keeps its first error. What comes behind that is not written, so a line is written by several calls, and the
/// error is asked for once, at the end.
#[derive(Drop)]
pub struct Ink<'w, W: Write> {
    out: &'w mut W,
    done: io::Result<()>,
}

impl<'w, W: Write> Ink<'w, W> {
    pub fn new(out: &'w mut W) -> Ink<'w, W> {
        Ink { out, done: Ok(()) }
    }

    /// Writes all of a text.
    pub fn put(&mut self, text: &[u8]) {
        if self.done.is_ok() {
            self.done = self.out.write_all(text);
        }
    }

    /// Writes so many blanks.
    pub fn blanks(&mut self, count: usize) {
        for _blank in 0..count {
            self.put(b" ");
        }
    }

    /// Writes a text, with blanks behind it up to a width.
    pub fn left(&mut self, text: &[u8], width: usize) {
        self.put(text);
        self.blanks(width.saturating_sub(text.len()));
    }

    /// Writes a number.
    pub fn number(&mut self, number: u64) {
        if self.done.is_ok() {
            self.done = write!(self.out, "{number}");
        }
    }

    /// Writes a number, with blanks before it up to a width.
    pub fn count(&mut self, number: u64, width: usize) {
        self.blanks(width.saturating_sub(digits(number)));
        self.number(number);
    }

    /// Writes a number of tenths, with blanks before it up to a width.
    pub fn tenths(&mut self, number: u64, width: usize) {
        self.count(number / 10, width.saturating_sub(2));
        self.put(b".");
        self.number(number % 10);
    }

    /// Writes a text with a number for each `$` in it, in their order.
    pub fn fill(&mut self, text: &[u8], numbers: &[u64]) {
        let mut start = 0;
        let mut next = 0usize;
        for place in 0..text.len() {
            if text[place] == b'$' {
                self.put(text.get(start..place).unwrap_or(&[]));
                self.number(numbers.get(next).copied().unwrap_or(0));
                start = place + 1;
                next = next.saturating_add(1);
            }
        }
        self.put(text.get(start..).unwrap_or(&[]));
    }

    /// The first error, if a write failed.
    pub fn finish(self) -> io::Result<()> {
        self.done
    }
}
