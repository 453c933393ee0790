//! Databases, programs and rows as text.

use crate::list_text::number_of;
use hd_dbd::{Dbd, Psb};
use hd_gen::{read_dbd, read_psb};
use std::alloc::{AllocError, Global};

/// A part of a text, from 0, between separators; no bytes where it has fewer.
pub fn part(text: &[u8], separator: u8, place: usize) -> &[u8] {
    text.split(|byte| *byte == separator)
        .nth(place)
        .unwrap_or(&[])
}

/// A database and a program of it: the DBD source, a `!`, and the PSB source, up to another `!` or the end.
pub fn base_of(alloc: Global, text: &[u8]) -> Option<(Dbd, Psb)> {
    let dbd = read_dbd(alloc, part(text, b'!', 0)).ok()?;
    let psb = read_psb(alloc, part(text, b'!', 1), &dbd).ok()?;
    Some((dbd, psb))
}

/// The last four digits of a number.
fn digits(number: u32) -> [u8; 4] {
    let mut digits = [b'0'; 4];
    let mut left = number;
    for digit in digits.iter_mut().rev() {
        *digit = b'0'.wrapping_add((left % 10) as u8);
        left = left / 10;
    }
    digits
}

/// Adds a record: the digit of a type, and `~` where its rows vary in length; how many there are of it; a length; and a text, which is filled up with points to
/// that length. Each `#` is a digit of the row's number, the last one its units.
fn add_record(stream: &mut Vec<u8>, record: &[u8], row: u32) -> Result<(), AllocError> {
    let kind = part(record, b',', 0);
    let length = u16::try_from(number_of(part(record, b',', 2))).unwrap_or(0);
    let text = part(record, b',', 3);
    let digits = digits(row);
    let signs = text.iter().filter(|byte| **byte == b'#').count();
    let mut own = digits.iter().skip(4usize.saturating_sub(signs));
    let mut left = usize::from(length);
    stream.push(kind.first().copied().unwrap_or(b'0').wrapping_sub(b'0'))?;
    stream.extend_from_slice(&length.to_be_bytes())?;
    if kind.len() > 1 {
        stream.extend_from_slice(&length.to_be_bytes())?;
        left = left.saturating_sub(2);
    }
    for place in 0..left {
        let byte = match text.get(place).copied() {
            Some(b'#') => own.next().copied().unwrap_or(b'0'),
            Some(byte) => byte,
            None => b'.',
        };
        stream.push(byte)?;
    }
    Ok(())
}

/// The unload stream of records that are parted by `/`.
pub fn stream_of(alloc: Global, dbd: &Dbd, records: &[u8]) -> Result<Vec<u8>, AllocError> {
    let mut stream = Vec::new(alloc);
    stream.extend_from_slice(b"HDUNLOAD\0\x01")?;
    stream.extend_from_slice(dbd.name().bytes())?;
    let mut count: u32 = 0;
    for record in records.split(|byte| *byte == b'/') {
        for row in 0..number_of(part(record, b',', 1)) {
            add_record(&mut stream, record, row.saturating_add(1))?;
            count = count.saturating_add(1);
        }
    }
    stream.push(0)?;
    stream.extend_from_slice(&count.to_be_bytes())?;
    Ok(stream)
}

/// The text of a deck whose lines are parted by `/`.
pub fn deck_of(alloc: Global, lines: &[u8]) -> Result<Vec<u8>, AllocError> {
    let mut deck = lines.to_vec(alloc)?;
    for byte in &mut deck {
        if *byte == b'/' {
            *byte = b'\n';
        }
    }
    deck.push(b'\n')?;
    Ok(deck)
}
