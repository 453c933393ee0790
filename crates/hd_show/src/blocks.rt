//! A survey of one block.
ghost use Rattle.std.specs.Prelude.{◌≤◌, length};
ghost use Rattle.hd_dbd.specs.Refusals.{OnlyMemory};

use crate::survey::{BlockUse, Kind, TypeUse};
use crate::twins::{Twin, note_parent, note_segment, note_twin};
use hd_block::{Part, Parts};
use hd_dbd::{Dbd, Refused, SegmentSize};
use hd_index_blocks::{FIRST, IndexBlock, entry_place, entry_room, root_key_length};
use hd_prefix::{Layout, Pointer};
use hd_volume::{DATA, FREE, INDEX, MARK};

/// What a survey has found: the blocks, the segments of each type, and all segments with their twins.
#[derive(Drop)]
pub struct Found {
    pub blocks: Vec<BlockUse>,
    pub types: Vec<TypeUse>,
    pub twins: Vec<Twin>,
}

/// Notes a block with a number, which begins at an address, and its segments.
pub fn note_block(
    found: &mut Found,
    block: &[u8],
    dbd: &Dbd,
    sizes: &[SegmentSize],
    n: u32,
    first: u32,
) -> Result<(), Refused>
    requires { (128 ≤ length block.now) × (length block.now ≤ 32768) }
    ensures { OnlyMemory result }
{
    let own = if n == 0 {
        header_use(block)
    } else {
        match block[2] {
            DATA => note_data(found, block, dbd, sizes, first)?,
            INDEX => index_use(block, root_key_length(dbd)),
            FREE => whole(Kind::Free),
            _ => whole(Kind::Damaged),
        }
    };
    match found.blocks.push(own) {
        Ok(()) => Ok(()),
        Err(_) => Err(Refused::Memory),
    }
}

/// A block of a kind in which nothing is counted.
fn whole(kind: Kind) -> BlockUse {
    BlockUse { kind, used: 0 }
}

/// What block 0 is.
fn header_use(block: &[u8]) -> BlockUse
    requires { 128 ≤ length block.now }
{
    if &block[..8] == &MARK[..] {
        whole(Kind::Header)
    } else {
        whole(Kind::Damaged)
    }
}

/// What an index block is, and the bytes of its entries.
fn index_use(block: &[u8], key_length: usize) -> BlockUse
    requires size { (128 ≤ length block.now) × (length block.now ≤ 32768) }
    requires short { key_length ≤ 255 }
{
    let entries = IndexBlock {
        bytes: block,
        key_length,
    };
    if entries.stated_count() as usize > entry_room(key_length, block.len()) {
        return whole(Kind::Damaged);
    }
    let used = entry_place(key_length, entries.count()).saturating_sub(FIRST);
    BlockUse {
        kind: Kind::Index(entries.level()),
        used: u16::try_from(used).unwrap_or(u16::MAX),
    }
}

/// Notes the segments of a data block that begins at an address, as far as its parts follow one another, and says what it is and
/// how many bytes they take.
fn note_data(
    found: &mut Found,
    block: &[u8],
    dbd: &Dbd,
    sizes: &[SegmentSize],
    first: u32,
) -> Result<BlockUse, Refused>
    requires { (128 ≤ length block.now) × (length block.now ≤ 32768) }
    ensures { OnlyMemory result }
{
    let mut used = 0u16;
    let mut end = 8usize;
    for part in Parts::new(block, sizes) {
        match part {
            Part::Free(_, len) => end = end.saturating_add(len as usize),
            Part::Used(place, len) => {
                used = used.saturating_add(len);
                end = end.saturating_add(len as usize);
                note_stored(found, block, dbd, first, place, len)?;
            }
        }
    }
    let kind = if end == block.len() {
        Kind::Data
    } else {
        Kind::Damaged
    };
    Ok(BlockUse { kind, used })
}

/// Notes the segment of a length at a place of a data block that begins at an address.
fn note_stored(
    found: &mut Found,
    block: &[u8],
    dbd: &Dbd,
    first: u32,
    place: u16,
    len: u16,
) -> Result<(), Refused>
    ensures { OnlyMemory result }
{
    let Some(segment) = block.get(place as usize..) else {
        return Ok(());
    };
    let code = segment.first().copied().unwrap_or(0);
    let layout = Layout::of(dbd, code);
    if !layout.is_whole(segment) {
        return Ok(());
    }
    let forward = layout.read(segment, Pointer::TwinForward);
    let address = first.saturating_add(u32::from(place));
    let own = layout.bytes(segment).len();
    note_segment(&mut found.types, code, u64::from(len), own as u64);
    note_children(&mut found.types, dbd, code, segment);
    note_twin(&mut found.twins, address, forward, code)
}

/// Notes for each child type whether a segment has such children.
fn note_children(types: &mut Vec<TypeUse>, dbd: &Dbd, code: u8, segment: &[u8]) {
    let layout = Layout::of(dbd, code);
    if segment.len() < layout.prefix_length() as usize {
        return;
    }
    for child in dbd.children_of(code) {
        if layout.read(segment, Pointer::FirstChild(*child)) != 0 {
            note_parent(types, *child);
        }
    }
}
