use crate::fault::{RowFault, Wrong};
use crate::naming::without_padding;
use crate::part::Part;
use std::io::{self, Write};

/// Whether all bytes of a value are text.
fn is_text(value: &[u8]) -> bool {
    for byte in value {
        if !matches!(*byte, 32..=126) {
            return false;
        }
    }
    true
}

/// A value as a text shows it: text loses the blanks at its end, with which a reader pads it; other bytes stay whole.
pub fn shown(value: &[u8]) -> &[u8] {
    if is_text(value) {
        without_padding(value)
    } else {
        value
    }
}

/// The bytes of a part as a text shows them: those of an open range stay whole, since they say how long the segment is.
pub fn shown_part<'b>(part: &Part, segment: &'b [u8]) -> &'b [u8] {
    let bytes = part.bytes_in(segment);
    if part.is_open { bytes } else { shown(bytes) }
}

/// A byte that stands for itself between quotes.
fn is_plain(byte: u8) -> bool {
    matches!(byte, 32..=126) && byte != b'"' && byte != b'\\'
}

/// A hexadecimal digit of a number below 16.
fn hex_digit(number: u8) -> u8 {
    match number {
        0..=9 => b'0' + number,
        10..=15 => b'a' - 10 + number,
        _ => b'0',
    }
}

/// Writes a byte by its two hexadecimal digits.
pub fn put_hexadecimal<W: Write>(out: &mut W, byte: u8) -> io::Result<()> {
    out.write_all(&[b'\\', b'x', hex_digit(byte / 16), hex_digit(byte % 16)])
}

/// Writes a byte of a value.
fn put_byte<W: Write>(out: &mut W, byte: u8) -> io::Result<()> {
    if is_plain(byte) {
        return out.write_all(&[byte]);
    }
    match byte {
        b'"' | b'\\' => out.write_all(&[b'\\', byte]),
        _ => put_hexadecimal(out, byte),
    }
}

/// Whether each byte stands for itself between quotes.
fn are_plain(bytes: &[u8]) -> bool {
    for byte in bytes {
        if !is_plain(*byte) {
            return false;
        }
    }
    true
}

/// Writes the bytes of a value.
pub fn put_bytes<W: Write>(out: &mut W, bytes: &[u8]) -> io::Result<()> {
    if are_plain(bytes) {
        return out.write_all(bytes);
    }
    for byte in bytes {
        put_byte(out, *byte)?;
    }
    Ok(())
}

/// Whether a value is empty, or has a blank or a quote.
pub fn wants_quotes(value: &[u8]) -> bool {
    for byte in value {
        if *byte == b' ' || *byte == b'"' {
            return true;
        }
    }
    value.is_empty()
}

/// Writes a value of a row's line, in quotes where it is empty or has a blank or a quote.
pub fn put_value<W: Write>(out: &mut W, value: &[u8]) -> io::Result<()> {
    if !wants_quotes(value) {
        return put_bytes(out, value);
    }
    out.write_all(b"\"")?;
    put_bytes(out, value)?;
    out.write_all(b"\"")
}

/// What comes next of a value: a byte, or its end; and what follows.
enum Step<'a> {
    Byte(u8, &'a [u8]),
    End(&'a [u8]),
}

/// The number that a hexadecimal digit spells.
fn hex_value(digit: u8) -> Option<u8> {
    match digit {
        b'0'..=b'9' => Some(digit - b'0'),
        b'a'..=b'f' => Some(digit - b'a' + 10),
        b'A'..=b'F' => Some(digit - b'A' + 10),
        _ => None,
    }
}

/// The byte that two hexadecimal digits spell.
fn hex_step(left: &[u8]) -> Option<Step<'_>> {
    let [high, low, behind @ ..] = left else {
        return None;
    };
    match (hex_value(*high), hex_value(*low)) {
        (Some(high), Some(low)) => {
            let byte = high.saturating_mul(16).saturating_add(low);
            Some(Step::Byte(byte, behind))
        }
        _ => None,
    }
}

/// The byte that an escape spells, behind its backslash.
fn escaped_step(left: &[u8]) -> Option<Step<'_>> {
    match left {
        [byte @ (b'\\' | b'"'), behind @ ..] => Some(Step::Byte(*byte, behind)),
        [b'x', behind @ ..] => hex_step(behind),
        _ => None,
    }
}

/// The end of a value behind its last quote, where a blank or nothing follows.
fn quoted_end(behind: &[u8]) -> Option<Step<'_>> {
    match behind.first() {
        None | Some(b' ') => Some(Step::End(behind)),
        _ => None,
    }
}

/// What comes next of a value; `None` at a bad quote or escape.
fn next_step(left: &[u8], is_quoted: bool) -> Option<Step<'_>> {
    let Some((byte, behind)) = left.split_first() else {
        return if is_quoted {
            None
        } else {
            Some(Step::End(left))
        };
    };
    match *byte {
        b'"' if is_quoted => quoted_end(behind),
        b'"' => None,
        b' ' if !is_quoted => Some(Step::End(left)),
        b'\\' => escaped_step(behind),
        _ => Some(Step::Byte(*byte, behind)),
    }
}

/// What comes next of a text in which a backslash alone stands not for itself; `None` at a bad escape.
fn next_escaped(left: &[u8]) -> Option<Step<'_>> {
    match left.split_first() {
        None => Some(Step::End(left)),
        Some((b'\\', behind)) => escaped_step(behind),
        Some((byte, behind)) => Some(Step::Byte(*byte, behind)),
    }
}

/// Makes the bytes that a text with escapes spells.
pub fn read_escaped(text: &[u8], value: &mut Vec<u8>) -> Result<(), Wrong> {
    value.clear();
    let mut left = text;
    for _ in 0..=text.len() {
        match next_escaped(left) {
            Some(Step::Byte(byte, behind)) => {
                value.push(byte)?;
                left = behind;
            }
            Some(Step::End(_)) => return Ok(()),
            None => return Err(Wrong::Row(RowFault::Value)),
        }
    }
    Err(Wrong::Row(RowFault::Value))
}

/// Reads the value at the front of a text; gives what follows it.
pub fn read_value<'a>(text: &'a [u8], value: &mut Vec<u8>) -> Result<&'a [u8], Wrong> {
    value.clear();
    let (is_quoted, mut left) = match text.split_first() {
        Some((b'"', inside)) => (true, inside),
        _ => (false, text),
    };
    for _ in 0..=text.len() {
        match next_step(left, is_quoted) {
            Some(Step::Byte(byte, behind)) => {
                value.push(byte)?;
                left = behind;
            }
            Some(Step::End(behind)) => return Ok(behind),
            None => return Err(Wrong::Row(RowFault::Value)),
        }
    }
    Err(Wrong::Row(RowFault::Value))
}
