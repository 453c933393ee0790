use crate::rows::Rows;
use hd_dbd::Dbd;
use std::alloc::{AllocError, Global};

/// A row in hierarchic order: those of one parent stand together, by type, by key, and then as they were read.
#[derive(Clone, Copy, PartialEq, Eq, PartialOrd, Ord)]
pub struct Entry<'k> {
    pub parent: u32,
    pub code: u8,
    pub key: &'k [u8],
    pub number: u32,
}

/// The rows in order.
pub fn entries_of<'k>(
    alloc: Global,
    dbd: &Dbd,
    rows: &'k Rows,
) -> Result<Vec<Entry<'k>>, AllocError> {
    let mut entries = Vec::with_capacity(alloc, rows.rows.len())?;
    let mut number = 0u32;
    for row in &rows.rows {
        number = number.saturating_add(1);
        entries.push(Entry {
            parent: row.parent,
            code: row.code,
            key: rows.key_of(dbd, row),
            number,
        })?;
    }
    entries.sort_unstable();
    Ok(entries)
}

/// Whether two entries are twins of one unique key.
fn are_equal(dbd: &Dbd, before: &Entry<'_>, after: &Entry<'_>) -> bool {
    before.parent == after.parent
        && before.code == after.code
        && before.key == after.key
        && dbd.has_unique_key(after.code)
}

/// The least number of a row whose key an earlier twin has, where keys are unique.
pub fn first_equal(dbd: &Dbd, entries: &[Entry<'_>]) -> Option<u32> {
    let mut least: Option<u32> = None;
    for place in 1..entries.len() {
        let number = entries[place].number;
        if are_equal(dbd, &entries[place - 1], &entries[place]) {
            least = match least {
                Some(before) if before <= number => Some(before),
                _ => Some(number),
            };
        }
    }
    least
}
