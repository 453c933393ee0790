use crate::above::{Above, keys_above};
use crate::cell::{read_cell, without_ends};
use crate::fault::{RowFault, Wrong};
use crate::mark::without_mark;
use crate::naming::code_named;
use crate::part::{Part, part_named};
use hd_dbd::Dbd;
use memchr::memchr;
use std::alloc::Global;

/// What a column of a table gives: bytes of the segment, or of the keys of its parents, which stand one behind another, the root's
/// first.
#[derive(Clone, Copy)]
pub struct Column {
    pub part: Part,
    pub is_key: bool,
}

/// The bytes of the keys of all types.
pub fn keys_length(above: &[Above]) -> u32 {
    let mut length = 0u32;
    for key in above {
        length = length.saturating_add(key.key.length);
    }
    length
}

/// The types above a type, the root first, each of which must have a unique key.
pub fn parents_above(alloc: Global, dbd: &Dbd, code: u8) -> Result<Vec<Above>, Wrong> {
    let above = keys_above(alloc, dbd, code)?;
    if are_unique(dbd, &above, dbd.level(code)) {
        Ok(above)
    } else {
        Err(Wrong::Row(RowFault::Nameless))
    }
}

/// Whether the types above one of a level all have a key, and a unique one.
fn are_unique(dbd: &Dbd, above: &[Above], level: u8) -> bool {
    for key in above {
        if !dbd.has_unique_key(key.code) {
            return false;
        }
    }
    above.len() == (level as usize).saturating_sub(1)
}

/// The key of a type above, by the name of the type and that of its key.
fn key_column(dbd: &Dbd, above: &[Above], name: &[u8], label: &[u8]) -> Option<Column> {
    let code = code_named(dbd, name)?;
    let part = part_named(dbd.type_of(code)?, label)?;
    let mut start = 0u32;
    for key in above {
        if key.code == code {
            return column_of_key(key.key, part, start);
        }
        start = start.saturating_add(key.key.length);
    }
    None
}

/// The column of a key, whose bytes begin at a place of the keys, where the part that is named has its bytes.
fn column_of_key(key: Part, part: Part, start: u32) -> Option<Column> {
    if part.start != key.start || part.length != key.length {
        return None;
    }
    Some(Column {
        part: Part {
            name: None,
            start,
            length: key.length,
            data_type: part.data_type,
            is_open: false,
        },
        is_key: true,
    })
}

/// The column of a name: a field or a range of the type, or the key of a type above.
fn column_named(dbd: &Dbd, code: u8, above: &[Above], name: &[u8]) -> Option<Column> {
    if let Some(dot) = memchr(b'.', name) {
        return key_column(dbd, above, &name[..dot], &name[dot + 1..]);
    }
    Some(Column {
        part: part_named(dbd.type_of(code)?, name)?,
        is_key: false,
    })
}

/// Whether none of the columns gives the bytes of keys from a place on.
fn lacks_key(columns: &[Column], start: u32) -> bool {
    for column in columns {
        if column.is_key && column.part.start == start {
            return false;
        }
    }
    true
}

/// Whether the key of a type above has no column.
fn lacks_some_key(columns: &[Column], above: &[Above]) -> bool {
    let mut start = 0u32;
    for key in above {
        if lacks_key(columns, start) {
            return true;
        }
        start = start.saturating_add(key.key.length);
    }
    false
}

/// Adds the columns that the first record of a table of a type names, up to the first that is none; gives what follows it.
pub fn add_columns<'t>(
    alloc: Global,
    dbd: &Dbd,
    code: u8,
    above: &[Above],
    text: &'t [u8],
    columns: &mut Vec<Column>,
) -> Result<&'t [u8], Wrong> {
    let mut name = Vec::new(alloc);
    let mut left = text;
    for _ in 0..=text.len() {
        let behind = read_cell(left, &mut name)?;
        match column_named(dbd, code, above, &name) {
            Some(column) => columns.push(column)?,
            None => return Err(Wrong::Row(RowFault::Part)),
        }
        left = behind.rest;
        if behind.is_last {
            break;
        }
    }
    if lacks_some_key(columns, above) {
        return Err(Wrong::Row(RowFault::Missing));
    }
    Ok(left)
}

/// What the first record of a table calls the column of a place, from 0.
pub fn column_name(alloc: Global, text: &[u8], column: usize) -> Option<Vec<u8>> {
    let mut name = Vec::new(alloc);
    let mut left = without_ends(without_mark(text));
    for place in 0..=column {
        let behind = read_cell(left, &mut name).ok()?;
        if place == column {
            return Some(name);
        }
        if behind.is_last {
            return None;
        }
        left = behind.rest;
    }
    None
}

/// The place of the column of the key of the nearest type above.
pub fn nearest_key(columns: &[Column]) -> Option<usize> {
    let mut nearest: Option<usize> = None;
    let mut start = 0u32;
    for (place, column) in columns.iter().enumerate() {
        if column.is_key && column.part.start >= start {
            nearest = Some(place);
            start = column.part.start;
        }
    }
    nearest
}

/// The place of the column of the bytes of a segment from a place on, of which it has so many.
pub fn column_of_bytes(columns: &[Column], start: u32, length: u32) -> Option<usize> {
    for (place, column) in columns.iter().enumerate() {
        let is_own = !column.is_key && column.part.length == length;
        if is_own && column.part.start == start {
            return Some(place);
        }
    }
    None
}
