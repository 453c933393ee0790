//! What is noted of one block.
ghost use Rattle.std.specs.Prelude.{◌≡◌, ◌≤◌, ◌<◌, length, OnOk};
ghost use Rattle.hd_volume.specs.Volumes.{kind_of};
ghost use Rattle.hd_dbd.specs.Refusals.{OnlyMemory};
ghost use Rattle.hd_salvage.specs.Records.{IsNotedIn, NotesOnly, NotesOne};

use crate::found::{Entry, Tables, narrowed};
use crate::record::Record;
use crate::scan::push_fault;
use hd_block::{Part, Parts};
use hd_bytes::{read_u16, read_u32};
use hd_check_blocks::Fault;
use hd_dbd::{Dbd, Refused, SegmentSize};
use hd_image::Line;
use hd_index_blocks::IndexBlock;
use hd_prefix::Layout;

/// Where a data block is read: at a place, where the next free element begins at `next`, 0 for none.
#[derive(Clone, Copy)]
struct Reading {
    place: usize,
    next: usize,
}

/// Notes the segments of a data block from its front on, up to the first place where neither a free element nor a segment stands; the fault
/// there is noted too. The block begins at the address `first`.
pub fn note_data(
    records: &mut Vec<Record>,
    tables: &mut Tables,
    faults: &mut Vec<Fault>,
    dbd: &Dbd,
    sizes: &[SegmentSize],
    block: &[u8],
    n: u32,
    first: u32,
) -> Result<(), Refused>
    requires size { (128 ≤ length block.now) × (length block.now ≤ 32768) }
    requires data { kind_of block.now ≡ 1 }
    ensures noted { OnOk result (NotesOnly sizes.now block.now n records.old.items records.new.items) }
    ensures refusal { OnlyMemory result }
{
    let at = note_parts(records, tables, dbd, sizes, block, n)?;
    if at.place == block.len() && at.next == 0 {
        return Ok(());
    }
    let fault = if at.place == block.len() || at.place == at.next {
        Fault::at(Line::WrongChain, first, 0)
    } else {
        Fault::at(Line::WrongPlace, first.wrapping_add(narrowed(at.place)), 0)
    };
    push_fault(faults, fault)
}

/// Notes the segments of a data block from its front on, and says where it stopped.
fn note_parts(
    records: &mut Vec<Record>,
    tables: &mut Tables,
    dbd: &Dbd,
    sizes: &[SegmentSize],
    block: &[u8],
    n: u32,
) -> Result<Reading, Refused>
    requires size { (128 ≤ length block.now) × (length block.now ≤ 32768) }
    requires data { kind_of block.now ≡ 1 }
    ensures noted { OnOk result (NotesOnly sizes.now block.now n records.old.items records.new.items) }
    ensures refusal { OnlyMemory result }
{
    let mut at = Reading {
        place: 8,
        next: read_u16(block, 0) as usize,
    };
    for part in Parts::new(block, sizes) {
        let Some(behind) = behind(block, at, part) else {
            return Ok(at);
        };
        if let Part::Used(place, size) = part {
            note_segment(records, tables, dbd, block, n, place, size)?;
        }
        at = behind;
    }
    Ok(at)
}

/// Where a data block is read behind a part of it; `None` where that is no sound free element, or a segment that runs over the next one.
fn behind(block: &[u8], at: Reading, part: Part) -> Option<Reading> {
    match part {
        Part::Free(place, size) => {
            let element = block.get(place as usize..)?;
            if element.len() < 8 || size % 8 != 0 || read_u32(element, 4) != 0 {
                return None;
            }
            Some(Reading {
                place: (place as usize).saturating_add(size as usize),
                next: read_u16(element, 0) as usize,
            })
        }
        Part::Used(place, size) => {
            let end = (place as usize).saturating_add(size as usize);
            if (place as usize) < at.next && at.next < end {
                return None;
            }
            Some(Reading {
                place: end,
                next: at.next,
            })
        }
    }
}

/// Notes the segment of a size at a place of a block, with its pointers; of a root the key too.
fn note_segment(
    records: &mut Vec<Record>,
    tables: &mut Tables,
    dbd: &Dbd,
    block: &[u8],
    n: u32,
    place: u16,
    size: u16,
) -> Result<(), Refused>
    ensures noted { OnOk result (NotesOne n place size records.old.items records.new.items) }
    ensures refusal { OnlyMemory result }
{
    let segment = bytes_from(block, place as usize, size as usize);
    let code = segment.first().copied().unwrap_or(0);
    if code == 1 {
        note_root(tables, narrowed(records.len()), dbd, segment)?;
    }
    let pointers = note_pointers(tables, dbd, code, segment)?;
    let record = Record {
        block: n,
        place,
        size,
        pointers,
        code,
    };
    match records.push(record) {
        Ok(()) => Ok(()),
        Err(_) => Err(Refused::Memory),
    }
}

/// So many bytes from a place on, as far as they are there.
pub fn bytes_from(bytes: &[u8], place: usize, count: usize) -> &[u8] {
    let start = place.min(bytes.len());
    let end = start.saturating_add(count).min(bytes.len());
    &bytes[start..end]
}

/// Notes a root and its key, with blanks where the segment is too short.
fn note_root(tables: &mut Tables, number: u32, dbd: &Dbd, segment: &[u8]) -> Result<(), Refused>
    ensures refusal { OnlyMemory result }
{
    let own = Layout::of(dbd, 1).own_bytes(segment).unwrap_or(&[]);
    if tables.roots.push(number).is_err() {
        return Err(Refused::Memory);
    }
    push_key(&mut tables.root_keys, dbd.key_of(1, own), tables.key_length)
}

/// Puts a key behind others of a length.
fn push_key(keys: &mut Vec<u8>, key: &[u8], length: usize) -> Result<(), Refused>
    ensures { OnlyMemory result }
{
    for place in 0..length {
        if keys.push(key.get(place).copied().unwrap_or(0)).is_err() {
            return Err(Refused::Memory);
        }
    }
    Ok(())
}

/// Notes the pointers of a segment, and says where among all they begin.
fn note_pointers(tables: &mut Tables, dbd: &Dbd, code: u8, segment: &[u8]) -> Result<u32, Refused>
    ensures refusal { OnlyMemory result }
{
    let start = narrowed(tables.pointers.len());
    let count = Layout::of(dbd, code).prefix_length().saturating_sub(2) as usize / 4;
    push_pointers(&mut tables.pointers, segment, count)?;
    Ok(start)
}

/// Puts so many pointers of a segment behind others.
fn push_pointers(pointers: &mut Vec<u32>, segment: &[u8], count: usize) -> Result<(), Refused>
    ensures { OnlyMemory result }
{
    for turn in 0..count {
        let place = turn.saturating_mul(4).saturating_add(2);
        let bytes = bytes_from(segment, place, 4);
        let pointer = if bytes.len() == 4 {
            read_u32(bytes, 0)
        } else {
            0
        };
        if pointers.push(pointer).is_err() {
            return Err(Refused::Memory);
        }
    }
    Ok(())
}

/// Notes the entries of an index block: of the lowest level the roots that they name, of the others the blocks; and the block that it names next.
pub fn note_entries(tables: &mut Tables, block: &[u8], n: u32) -> Result<(), Refused>
    requires size { (128 ≤ length block.now) × (length block.now ≤ 32768) }
    ensures refusal { OnlyMemory result }
{
    let key_length = tables.key_length.min(255);
    let entries = IndexBlock {
        bytes: block,
        key_length,
    };
    note_name(tables, entries.next())?;
    for index in 0..entries.count() {
        note_entry(
            tables,
            n,
            entries.level(),
            entries.address(index),
            entries.key(index),
        )?;
    }
    Ok(())
}

/// Notes a block that the index names, 0 for none.
pub fn note_name(tables: &mut Tables, name: u32) -> Result<(), Refused>
    ensures refusal { OnlyMemory result }
{
    if name != 0 && tables.names.push(name).is_err() {
        return Err(Refused::Memory);
    }
    Ok(())
}

/// Notes an entry of an index block of a level.
fn note_entry(
    tables: &mut Tables,
    n: u32,
    level: u8,
    address: u32,
    key: &[u8],
) -> Result<(), Refused>
    ensures refusal { OnlyMemory result }
{
    if level != 0 {
        return note_name(tables, address);
    }
    if tables.entries.push(Entry { block: n, address }).is_err() {
        return Err(Refused::Memory);
    }
    push_key(&mut tables.entry_keys, key, tables.key_length)
}
