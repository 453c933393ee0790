use crate::entry::Entry;
use std::alloc::{AllocError, Global};

/// The most levels of a database.
const LEVELS: usize = 15;

/// For each number of a row, and for 0, the place of the first entry below it. Where there is none it is that of some entry below
/// another.
pub fn firsts_of(alloc: Global, entries: &[Entry<'_>]) -> Result<Vec<usize>, AllocError> {
    let mut firsts = Vec::new(alloc);
    firsts.resize(entries.len().saturating_add(1), 0)?;
    let mut last = 0u32;
    for (place, entry) in entries.iter().enumerate() {
        if entry.parent != last {
            last = entry.parent;
            if let Some(first) = firsts.get_mut(last as usize) {
                *first = place;
            }
        }
    }
    Ok(firsts)
}

/// The place of the first entry below a row.
fn first_below(entries: &[Entry<'_>], firsts: &[usize], number: u32) -> Option<usize> {
    match firsts.get(number as usize) {
        Some(place) if *place < entries.len() && entries[*place].parent == number => Some(*place),
        _ => None,
    }
}

/// The place of the entry behind another, below the same parent.
fn next_below(entries: &[Entry<'_>], place: usize) -> Option<usize> {
    let next = place.saturating_add(1);
    if next < entries.len() && entries[next].parent == entries[place].parent {
        Some(next)
    } else {
        None
    }
}

/// The place of the entry that follows another in hierarchic sequence. `path` has the places of those above it.
pub fn next_place(
    entries: &[Entry<'_>],
    firsts: &[usize],
    path: &mut Vec<usize>,
    place: usize,
) -> Result<Option<usize>, AllocError> {
    let Some(entry) = entries.get(place) else {
        return Ok(None);
    };
    if let Some(child) = first_below(entries, firsts, entry.number) {
        path.push(place)?;
        return Ok(Some(child));
    }
    let mut last = place;
    for _ in 0..=LEVELS {
        if let Some(next) = next_below(entries, last) {
            return Ok(Some(next));
        }
        match path.pop() {
            Some(above) => last = above,
            None => return Ok(None),
        }
    }
    Ok(None)
}
