use crate::fault::{RowFault, Wrong};
use memchr::{memchr, memchr3};

/// What follows a cell that was read, and whether it was the last of its record.
#[derive(Clone, Copy)]
pub struct Behind<'a> {
    pub rest: &'a [u8],
    pub is_last: bool,
}

/// The text without the ends of lines at its front.
pub fn without_ends(text: &[u8]) -> &[u8] {
    for place in 0..text.len() {
        if text[place] != b'\n' && text[place] != b'\r' {
            return &text[place..];
        }
    }
    &[]
}

/// The text without a line feed at its front.
fn without_feed(text: &[u8]) -> &[u8] {
    match text.split_first() {
        Some((b'\n', rest)) => rest,
        _ => text,
    }
}

/// What follows a cell, by the text behind it: a comma, the end of a line or of the text.
fn behind_cell(text: &[u8]) -> Result<Behind<'_>, RowFault> {
    match text.split_first() {
        None => Ok(Behind {
            rest: text,
            is_last: true,
        }),
        Some((b',', rest)) => Ok(Behind {
            rest,
            is_last: false,
        }),
        Some((b'\n', rest)) => Ok(Behind {
            rest,
            is_last: true,
        }),
        Some((b'\r', rest)) => Ok(Behind {
            rest: without_feed(rest),
            is_last: true,
        }),
        _ => Err(RowFault::Value),
    }
}

/// Reads the part of a quoted cell up to its next quote; gives what follows, and whether the cell goes on there.
fn read_quoted_part<'a>(text: &'a [u8], cell: &mut Vec<u8>) -> Result<(&'a [u8], bool), Wrong> {
    let Some(end) = memchr(b'"', text) else {
        return Err(Wrong::Row(RowFault::Value));
    };
    cell.extend_from_slice(&text[..end])?;
    let behind = &text[end + 1..];
    match behind.split_first() {
        Some((b'"', rest)) => {
            cell.push(b'"')?;
            Ok((rest, true))
        }
        _ => Ok((behind, false)),
    }
}

/// Reads a cell behind its first quote.
fn read_quoted<'a>(text: &'a [u8], cell: &mut Vec<u8>) -> Result<Behind<'a>, Wrong> {
    let mut left = text;
    for _ in 0..=text.len() {
        let (rest, goes_on) = read_quoted_part(left, cell)?;
        if !goes_on {
            return Ok(behind_cell(rest)?);
        }
        left = rest;
    }
    Err(Wrong::Row(RowFault::Value))
}

/// Reads the cell of CSV at the front of a text. In a cell without quotes around it a quote stands for itself.
pub fn read_cell<'a>(text: &'a [u8], cell: &mut Vec<u8>) -> Result<Behind<'a>, Wrong> {
    cell.clear();
    if let Some((b'"', inside)) = text.split_first() {
        return read_quoted(inside, cell);
    }
    let end = memchr3(b',', b'\n', b'\r', text).unwrap_or(text.len());
    cell.extend_from_slice(&text[..end])?;
    Ok(behind_cell(&text[end..])?)
}
