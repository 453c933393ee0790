//! The roots from which rows are kept: those that the chain of roots names, those that the index names, and where both break all of them.

use crate::found::{Found, narrowed};
use crate::scan::push_fault;
use hd_check_blocks::Fault;
use hd_dbd::{Dbd, Refused, compare_keys};
use hd_image::Line;
use hd_prefix::Pointer;
use std::alloc::Global;
use std::cmp::Ordering;

/// What the header and the index say of the roots: the first and the last, 0 for none, and whether each block that the index names is one of it.
#[derive(Clone, Copy)]
pub struct Ends {
    pub first: u32,
    pub last: u32,
    pub is_index_whole: bool,
}

/// A root that is sorted: its number among the roots, and a part of its key.
#[derive(Clone, Copy)]
struct Sorted {
    root: u32,
    part: u64,
}

/// The roots that are named, in the order in which they were, each once.
#[derive(Drop)]
struct Named {
    order: Vec<u32>,
    is_named: Vec<bool>,
}

impl Named {
    /// No root of so many.
    fn none(alloc: Global, count: usize) -> Result<Named, Refused> {
        let Ok(is_named) = vec![in alloc; false; count] else {
            return Err(Refused::Memory);
        };
        Ok(Named {
            order: Vec::new(alloc),
            is_named,
        })
    }

    /// Whether a root is named.
    fn has(&self, root: usize) -> bool {
        self.is_named.get(root).copied().unwrap_or(true)
    }

    /// Names a root, unless it is named.
    fn add(&mut self, root: usize) -> Result<(), Refused> {
        let Some(mark) = self.is_named.get_mut(root) else {
            return Ok(());
        };
        if *mark {
            return Ok(());
        }
        *mark = true;
        match self.order.push(narrowed(root)) {
            Ok(()) => Ok(()),
            Err(_) => Err(Refused::Memory),
        }
    }
}

/// The number among the roots of the root at an address.
fn root_at(found: Found<'_>, address: u32) -> Option<usize> {
    found.ordinal_of(found.number_of(address, 1)?)
}

/// Where a root's pointer leads.
fn pointer_of(found: Found<'_>, dbd: &Dbd, root: usize, pointer: Pointer) -> u32 {
    match found.tables.roots.get(root) {
        Some(number) => found.pointer(dbd, *number as usize, pointer),
        None => 0,
    }
}

/// The address of a root.
fn address_of(found: Found<'_>, root: usize) -> u32 {
    match found.tables.roots.get(root) {
        Some(number) => found.address_of(*number as usize),
        None => 0,
    }
}

/// How the chain of roots is followed: by which pointer, and in which order the keys then come.
#[derive(Clone, Copy)]
struct Way {
    pointer: Pointer,
    order: Ordering,
}

/// Names the roots to which a pointer leads from an address on, as long as it leads to roots that are not named, and their keys come in order. Says
/// the address of the last, and where it leads.
fn follow(
    found: Found<'_>,
    dbd: &Dbd,
    named: &mut Named,
    start: u32,
    way: Way,
) -> Result<(u32, u32), Refused> {
    let mut last: Option<usize> = None;
    let mut address = start;
    for _turn in 0..found.tables.roots.len() {
        let Some(root) = next_root(found, named, last, address, way) else {
            break;
        };
        named.add(root)?;
        last = Some(root);
        address = pointer_of(found, dbd, root, way.pointer);
    }
    let end = match last {
        Some(root) => address_of(found, root),
        None => 0,
    };
    Ok((end, address))
}

/// The root at an address, if it is not named and its key comes in order behind the last.
fn next_root(
    found: Found<'_>,
    named: &Named,
    last: Option<usize>,
    address: u32,
    way: Way,
) -> Option<usize> {
    let root = root_at(found, address)?;
    if named.has(root) {
        return None;
    }
    match last {
        Some(before) if compare_keys(found.root_key(before), found.root_key(root)) != way.order => {
            None
        }
        _ => Some(root),
    }
}

/// Names the roots of the chain from the front, and where it breaks those from the back; says whether it is whole.
fn name_by_chain(
    found: Found<'_>,
    faults: &mut Vec<Fault>,
    dbd: &Dbd,
    named: &mut Named,
    ends: Ends,
) -> Result<bool, Refused> {
    let forward = Way {
        pointer: Pointer::TwinForward,
        order: Ordering::Less,
    };
    let (end, ahead) = follow(found, dbd, named, ends.first, forward)?;
    let has_none = end == 0 && !found.tables.roots.is_empty();
    if ahead == 0 && end == ends.last && !has_none {
        return Ok(true);
    }
    note_break(found, faults, end, ahead)?;
    let backward = Way {
        pointer: Pointer::TwinBackward,
        order: Ordering::Greater,
    };
    follow(found, dbd, named, ends.last, backward)?;
    Ok(false)
}

/// Notes that a pointer of a record, or of the header, leads to no root that comes in order.
fn note_break(
    found: Found<'_>,
    faults: &mut Vec<Fault>,
    holder: u32,
    ahead: u32,
) -> Result<(), Refused> {
    if ahead == 0 {
        return Ok(());
    }
    let fault = match found.number_at(ahead) {
        None => Fault::at(Line::NamesNothing, holder, ahead),
        Some(_) => match found.number_of(ahead, 1) {
            None => Fault::at(Line::NamesAnother, holder, ahead),
            Some(_) => Fault::at(Line::OutOfOrder, ahead, holder),
        },
    };
    push_fault(faults, fault)
}

/// Names the roots that entries of the index name with their key; says whether each entry names one.
fn name_by_index(
    found: Found<'_>,
    faults: &mut Vec<Fault>,
    named: &mut Named,
) -> Result<bool, Refused> {
    let mut is_whole = true;
    for ordinal in 0..found.tables.entries.len() {
        let is_right = name_by_entry(found, faults, named, ordinal)?;
        is_whole = is_whole && is_right;
    }
    Ok(is_whole)
}

/// Names the root that an entry of the index names with its key; says whether there is one.
fn name_by_entry(
    found: Found<'_>,
    faults: &mut Vec<Fault>,
    named: &mut Named,
    ordinal: usize,
) -> Result<bool, Refused> {
    let Some(entry) = found.tables.entries.get(ordinal).copied() else {
        return Ok(true);
    };
    match root_at(found, entry.address) {
        Some(root)
            if compare_keys(found.root_key(root), found.entry_key(ordinal)) == Ordering::Equal => {
            named.add(root)?;
            Ok(true)
        }
        _ => {
            let block = entry.block.wrapping_mul(found.tables.block_size);
            push_fault(faults, Fault::at(Line::WrongEntry, block, entry.address))?;
            Ok(false)
        }
    }
}

/// The numbers of the records of the roots from which rows are kept, in key order.
pub fn roots_kept(
    alloc: Global,
    found: Found<'_>,
    faults: &mut Vec<Fault>,
    dbd: &Dbd,
    ends: Ends,
) -> Result<Vec<u32>, Refused> {
    let mut named = Named::none(alloc, found.tables.roots.len())?;
    let is_chain_whole = name_by_chain(found, faults, dbd, &mut named, ends)?;
    let chained = named.order.len();
    let is_index_whole = name_by_index(found, faults, &mut named)? && ends.is_index_whole;
    if !is_chain_whole && !is_index_whole {
        for root in 0..found.tables.roots.len() {
            named.add(root)?;
        }
    }
    if !is_chain_whole || named.order.len() != chained {
        sort_roots(alloc, found, &mut named.order)?;
    }
    numbers_of(alloc, found, &named.order)
}

/// The numbers of the records of some roots.
fn numbers_of(alloc: Global, found: Found<'_>, order: &[u32]) -> Result<Vec<u32>, Refused> {
    let mut numbers = Vec::new(alloc);
    for root in order {
        let number = found.tables.roots.get(*root as usize).copied().unwrap_or(0);
        if numbers.push(number).is_err() {
            return Err(Refused::Memory);
        }
    }
    Ok(numbers)
}

/// Puts roots in key order; those of one key stay in order. Eight bytes of the keys are sorted at a time, the last first.
fn sort_roots(alloc: Global, found: Found<'_>, order: &mut Vec<u32>) -> Result<(), Refused> {
    let mut sorted = Vec::new(alloc);
    for root in order.iter() {
        let entry = Sorted {
            root: *root,
            part: 0,
        };
        if sorted.push(entry).is_err() {
            return Err(Refused::Memory);
        }
    }
    let parts = found.tables.key_length.div_ceil(8);
    for turn in 0..parts {
        sort_part(
            found,
            &mut sorted,
            parts.saturating_sub(turn).saturating_sub(1),
        )?;
    }
    for place in 0..order.len() {
        if let (Some(to), Some(from)) = (order.get_mut(place), sorted.get(place)) {
            *to = from.root;
        }
    }
    Ok(())
}

/// Sorts roots by the eight bytes of their keys that have a number, 0 for those past the end.
fn sort_part(found: Found<'_>, sorted: &mut Vec<Sorted>, part: usize) -> Result<(), Refused> {
    for entry in sorted.iter_mut() {
        entry.part = part_of(found.root_key(entry.root as usize), part);
    }
    match sorted.sort_by_key(|entry| entry.part) {
        Ok(()) => Ok(()),
        Err(_) => Err(Refused::Memory),
    }
}

/// The eight bytes of a key that have a number, as the number that they make.
fn part_of(key: &[u8], part: usize) -> u64 {
    let start = part.saturating_mul(8);
    let mut number = 0u64;
    for place in 0..8usize {
        let byte = key.get(start.saturating_add(place)).copied().unwrap_or(0);
        number = number.wrapping_mul(256).wrapping_add(u64::from(byte));
    }
    number
}
