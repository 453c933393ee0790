use crate::naming::{name_of, without_padding};
use hd_dbd::{DataType, Field, Key, Name8, SegType};
use itoa::Buffer;
use memchr::memchr;
use std::alloc::{AllocError, Global};

/// Bytes of a segment that a text gives by one name: a field, or a range without a name, whose bytes are of no TYPE but C. `start` counts from 0. An open
/// range has as many bytes, at most `length`, as the segment has from there on.
#[derive(Clone, Copy)]
pub struct Part {
    pub name: Option<Name8>,
    pub start: u32,
    pub length: u32,
    pub data_type: DataType,
    pub is_open: bool,
}

/// How many bytes of a segment that varies in length say how many it has.
const LENGTH_BYTES: u32 = 2;

/// So many bytes from a place, as far as they go.
pub fn bytes_at(bytes: &[u8], start: usize, length: usize) -> &[u8] {
    let start = start.min(bytes.len());
    let end = start.saturating_add(length).min(bytes.len());
    &bytes[start..end]
}

impl Part {
    /// The bytes of a field.
    pub fn of_field(field: &Field) -> Part {
        Part {
            name: Some(field.name),
            start: field.start.saturating_sub(1),
            length: field.length,
            data_type: field.data_type,
            is_open: false,
        }
    }

    /// The bytes of a type's key, with the name of the field that is the key, where one is.
    pub fn of_key(segment: &SegType, key: &Key) -> Part {
        for field in &segment.fields {
            if field.start == key.start && field.length == key.length {
                return Part::of_field(field);
            }
        }
        Part {
            name: None,
            start: key.start.saturating_sub(1),
            length: key.length,
            data_type: DataType::Character,
            is_open: false,
        }
    }

    /// The part's bytes in a segment.
    pub fn bytes_in<'b>(&self, segment: &'b [u8]) -> &'b [u8] {
        bytes_at(segment, self.start as usize, self.length as usize)
    }

    /// Appends what a text calls the part: its name, or its first and last byte, counted from 1; of an open range the first alone.
    pub fn push_label(&self, label: &mut Vec<u8>) -> Result<(), AllocError> {
        if let Some(name) = &self.name {
            return label.extend_from_slice(without_padding(name.bytes()));
        }
        let first = u64::from(self.start) + 1;
        let last = u64::from(self.start) + u64::from(self.length);
        let mut digits = Buffer::new();
        label.extend_from_slice(digits.format(first).as_bytes())?;
        label.extend_from_slice(b"-")?;
        if self.is_open {
            return Ok(());
        }
        label.extend_from_slice(digits.format(last).as_bytes())
    }
}

/// The fields of a type in the order of their first bytes; of those that begin together, in the DBD's order.
fn fields_of(alloc: Global, segment: &SegType) -> Result<Vec<Part>, AllocError> {
    let mut parts = Vec::new(alloc);
    for field in &segment.fields {
        parts.push(Part::of_field(field))?;
    }
    parts.sort_by_key(|part: &Part| part.start)?;
    Ok(parts)
}

/// The range from one place to another, where it has bytes; whether it is open.
fn range(from: u32, to: u32, is_open: bool) -> Option<Part> {
    let length = to.checked_sub(from)?;
    if length == 0 {
        return None;
    }
    Some(Part {
        name: None,
        start: from,
        length,
        data_type: DataType::Character,
        is_open,
    })
}

/// The ranges of a type that none of its fields covers, in order. Where its segments vary in length the bytes that say it are left out, and
/// the last range is open.
fn gaps_of(alloc: Global, segment: &SegType, fields: &[Part]) -> Result<Vec<Part>, AllocError> {
    let mut gaps = Vec::new(alloc);
    let varies = segment.least.is_some();
    let mut covered = if varies { LENGTH_BYTES } else { 0 };
    for field in fields {
        if let Some(gap) = range(covered, field.start, false) {
            gaps.push(gap)?;
        }
        covered = covered.max(field.start.saturating_add(field.length));
    }
    if let Some(gap) = range(covered, segment.length, varies) {
        gaps.push(gap)?;
    }
    Ok(gaps)
}

/// The columns of a type: its fields in the order of their first bytes, and then the ranges that none covers.
pub fn columns_of(alloc: Global, segment: &SegType) -> Result<Vec<Part>, AllocError> {
    let mut parts = fields_of(alloc, segment)?;
    let gaps = gaps_of(alloc, segment, &parts)?;
    parts.extend_from_slice(&gaps)?;
    Ok(parts)
}

/// The same in the order of their first bytes.
pub fn parts_of(alloc: Global, segment: &SegType) -> Result<Vec<Part>, AllocError> {
    let mut parts = columns_of(alloc, segment)?;
    parts.sort_by_key(|part: &Part| part.start)?;
    Ok(parts)
}

/// The number that decimal digits spell, where it is below 2^32.
fn number(digits: &[u8]) -> Option<u32> {
    if digits.is_empty() {
        return None;
    }
    let mut number = 0u32;
    for byte in digits {
        let digit = byte.checked_sub(b'0')?;
        if digit > 9 {
            return None;
        }
        number = number.checked_mul(10)?.checked_add(u32::from(digit))?;
    }
    Some(number)
}

/// The range that the numbers of its first and last byte spell, where a segment of the type may have it; without the last an open one, where
/// the type's segments vary in length.
fn range_named(segment: &SegType, name: &[u8]) -> Option<Part> {
    let dash = memchr(b'-', name)?;
    let from = number(&name[..dash])?.checked_sub(1)?;
    let last = &name[dash + 1..];
    if last.is_empty() && segment.least.is_some() {
        return range(from, segment.length, true);
    }
    match number(last) {
        Some(last) if last <= segment.length => range(from, last, false),
        _ => None,
    }
}

/// The part of a type that a text calls by a name: a field's, or the first and last byte of any range, or an open one's first.
pub fn part_named(segment: &SegType, label: &[u8]) -> Option<Part> {
    let Some(name) = name_of(label) else {
        return range_named(segment, label);
    };
    for field in &segment.fields {
        if field.name == name {
            return Some(Part::of_field(field));
        }
    }
    None
}
