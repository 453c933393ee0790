use crate::draft::Draft;
use crate::fault::{RowFault, Wrong};
use crate::naming::code_named;
use crate::number::{holds_numbers, read_number};
use crate::part::{Part, part_named};
use crate::typed::{Values, begins_with_escape, fill_segment};
use crate::value::read_value;
use hd_dbd::{Dbd, SegType};
use hd_lines::unpadded;
use memchr::memchr;
use std::alloc::{AllocError, Global};

/// A reader of the lines of rows, with what it needs again for each line.
#[derive(Drop)]
pub struct LineReader<'a> {
    dbd: &'a Dbd,
    values: Values,
    draft: Draft,
    value: Vec<u8>,
    number: Vec<u8>,
    filling: Vec<u8>,
    left: usize,
}

impl<'a> LineReader<'a> {
    /// A reader of a database's rows.
    pub fn new(alloc: Global, dbd: &'a Dbd, values: Values) -> LineReader<'a> {
        LineReader {
            dbd,
            values,
            draft: Draft::new(alloc),
            value: Vec::new(alloc),
            number: Vec::new(alloc),
            filling: Vec::new(alloc),
            left: 0,
        }
    }

    /// The bytes of the segment that was read last.
    pub fn bytes(&self) -> &[u8] {
        self.draft.bytes()
    }

    /// How many bytes of the line that was read last stood from the part on that was read last; all where none was.
    pub fn left(&self) -> usize {
        self.left
    }

    /// Reads a part and its value at the front of a text; gives what follows.
    fn read_part<'t>(&mut self, segment: &SegType, text: &'t [u8]) -> Result<&'t [u8], Wrong> {
        let Some(end) = memchr(b'=', text) else {
            return Err(Wrong::Row(RowFault::Part));
        };
        let Some(part) = part_named(segment, &text[..end]) else {
            return Err(Wrong::Row(RowFault::Part));
        };
        let given = &text[end + 1..];
        let behind = read_value(given, &mut self.value)?;
        self.put(part, begins_with_escape(given))?;
        Ok(behind)
    }

    /// Gives the bytes of a part that the value spells which was read last, and which begins with an escape or not.
    fn put(&mut self, part: Part, is_escaped: bool) -> Result<(), Wrong> {
        if self.values == Values::Bytes || is_escaped || !holds_numbers(&part) {
            self.draft.put(part, &self.value)?;
            return Ok(());
        }
        read_number(&part, &self.value, &mut self.number)?;
        self.draft.put(part, &self.number)?;
        Ok(())
    }

    /// Begins a segment of a type.
    fn begin(&mut self, segment: &SegType) -> Result<(), AllocError> {
        self.draft.begin(segment.length as usize)?;
        if self.values == Values::Typed {
            fill_segment(segment, &mut self.filling)?;
            self.draft.fill(&self.filling);
        }
        Ok(())
    }

    /// Reads the values of a segment of a type.
    fn read_values(&mut self, segment: &SegType, text: &[u8]) -> Result<(), Wrong> {
        self.begin(segment)?;
        self.read_parts(segment, text)?;
        if let Some(least) = segment.least {
            self.draft.end(least)?;
        }
        Ok(())
    }

    /// Reads the parts of a segment and their values, as many as a text has.
    fn read_parts(&mut self, segment: &SegType, text: &[u8]) -> Result<(), Wrong> {
        let mut left = unpadded(text);
        for _ in 0..text.len() {
            if left.is_empty() {
                return Ok(());
            }
            self.left = left.len();
            left = unpadded(self.read_part(segment, left)?);
        }
        Ok(())
    }

    /// Reads a line without its indentation; says the code of the row's type.
    pub fn read(&mut self, line: &[u8]) -> Result<u8, Wrong> {
        self.left = line.len();
        let end = memchr(b' ', line).unwrap_or(line.len());
        let Some(code) = code_named(self.dbd, &line[..end]) else {
            return Err(Wrong::Row(RowFault::Type));
        };
        let Some(segment) = self.dbd.type_of(code) else {
            return Err(Wrong::Row(RowFault::Type));
        };
        self.read_values(segment, &line[end..])?;
        Ok(code)
    }
}
