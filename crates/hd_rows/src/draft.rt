use crate::fault::RowFault;
use crate::part::Part;
use std::alloc::{AllocError, Global};

/// A segment while its values are read: its bytes, which of them a value gave, and where the last of these ends. The others are blanks, or those with which
/// it was filled.
#[derive(Drop)]
pub struct Draft {
    bytes: Vec<u8>,
    is_given: Vec<bool>,
    end: usize,
}

impl Draft {
    /// A segment without bytes.
    pub fn new(alloc: Global) -> Draft {
        Draft {
            bytes: Vec::new(alloc),
            is_given: Vec::new(alloc),
            end: 0,
        }
    }

    /// The bytes.
    pub fn bytes(&self) -> &[u8] {
        &self.bytes
    }

    /// Begins a segment of so many bytes at most, none of which is given.
    pub fn begin(&mut self, length: usize) -> Result<(), AllocError> {
        self.end = 0;
        self.bytes.clear();
        self.is_given.clear();
        self.bytes.resize(length, b' ')?;
        self.is_given.resize(length, false)
    }

    /// Makes its bytes, of which none is given yet, those of another segment, as far as these go.
    pub fn fill(&mut self, filling: &[u8]) {
        for (byte, filled) in self.bytes.iter_mut().zip(filling) {
            *byte = *filled;
        }
    }

    /// Gives the byte at a place.
    fn put_byte(&mut self, place: usize, byte: u8) -> Result<(), RowFault> {
        if place >= self.bytes.len() || place >= self.is_given.len() {
            return Err(RowFault::Part);
        }
        if self.is_given[place] && self.bytes[place] != byte {
            return Err(RowFault::Differs);
        }
        self.bytes[place] = byte;
        self.is_given[place] = true;
        Ok(())
    }

    /// Gives the bytes of a part: a value, with blanks behind it unless the part is open.
    pub fn put(&mut self, part: Part, value: &[u8]) -> Result<(), RowFault> {
        if value.len() > part.length as usize {
            return Err(RowFault::Length);
        }
        let start = part.start as usize;
        let length = if part.is_open {
            value.len()
        } else {
            part.length as usize
        };
        for place in 0..length {
            let byte = value.get(place).copied().unwrap_or(b' ');
            self.put_byte(start + place, byte)?;
        }
        self.end = self.end.max(start.saturating_add(length));
        Ok(())
    }

    /// How many bytes the segment has: as many as its first bytes say where they are given, else as far as the values go, and at least the
    /// least.
    fn length(&self, least: usize) -> usize {
        match (self.bytes.as_slice(), self.is_given.as_slice()) {
            ([high, low, ..], [true, true, ..]) => u16::from_be_bytes([*high, *low]) as usize,
            _ => self.end.max(least),
        }
    }

    /// Ends a segment that varies in length, with at least so many bytes: it gets its length, and its first bytes say it.
    pub fn end(&mut self, least: u32) -> Result<(), RowFault> {
        let length = self.length(least as usize);
        if length < self.end || length < least as usize || length > self.bytes.len() {
            return Err(RowFault::Differs);
        }
        let said = (length.min(65_535) as u16).to_be_bytes();
        self.put_byte(0, said[0])?;
        self.put_byte(1, said[1])?;
        self.bytes.truncate(length);
        Ok(())
    }
}
