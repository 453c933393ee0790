use crate::part::bytes_at;
use crate::rows::Row;
use std::alloc::{AllocError, Global};

/// A row by its own key and the keys above it, one behind another, the root's first.
#[derive(Clone, Copy, PartialEq, Eq, PartialOrd, Ord)]
struct Named<'k> {
    keys: &'k [u8],
    number: u32,
}

/// The rows of a type by their keys, of which a row has so many bytes, its own among them.
fn named_rows<'k>(
    alloc: Global,
    keys: &'k [u8],
    rows: &[Row],
    code: u8,
    own: usize,
    length: usize,
) -> Result<Vec<Named<'k>>, AllocError> {
    let mut named = Vec::new(alloc);
    let above = length.saturating_sub(own);
    let mut number = 0u32;
    for row in rows {
        number = number.saturating_add(1);
        if row.code == code {
            named.push(Named {
                keys: bytes_at(keys, row.key.saturating_sub(above), length),
                number,
            })?;
        }
    }
    named.sort_unstable();
    Ok(named)
}

/// The number of the row of some keys.
fn number_of(named: &[Named<'_>], keys: &[u8]) -> Option<u32> {
    match named.binary_search_by(|row| row.keys.cmp(keys)) {
        Ok(place) => Some(named.get(place)?.number),
        Err(_) => None,
    }
}

/// Finds the parents of the rows from a place on, which are of one type: those of a type, by the keys that stand before each row's own.
/// `own` is the bytes of the parents' own keys, and `length` with those above. Gives the place of the first row whose parent is not there.
pub fn find_parents(
    alloc: Global,
    keys: &[u8],
    rows: &mut Vec<Row>,
    first: usize,
    parent: u8,
    own: usize,
    length: usize,
) -> Result<Option<usize>, AllocError> {
    let named = named_rows(alloc, keys, rows, parent, own, length)?;
    for (place, row) in rows.iter_mut().enumerate().skip(first) {
        let above = bytes_at(keys, row.key.saturating_sub(length), length);
        match number_of(&named, above) {
            Some(number) => row.parent = number,
            None => return Ok(Some(place)),
        }
    }
    Ok(None)
}
