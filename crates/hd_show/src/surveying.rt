//! A survey of a volume: one pass over its blocks, and then the twin chains.
ghost use Rattle.std.specs.Prelude.{◌≡◌, ◌≤◌, ◌<◌, IsTrue};
ghost use Rattle.hd_bytes.specs.Blocks.{HasBlock};
ghost use Rattle.hd_dbd.specs.Refusals.{OnlyDeviceOrMemory};
ghost use Rattle.hd_volume.specs.Calls.{IsRead};
ghost use Rattle.hd_volume.specs.declared.load.TheConstants.{MOST_BLOCKS};

use crate::blocks::{Found, note_block};
use crate::parents::find_parents;
use crate::survey::{Survey, TypeUse};
use crate::twins::{count_chains, note_parent};
use hd_dbd::{Dbd, Refused, SegmentSize};
use hd_index_blocks::{FIRST, entry_place, entry_room, root_key_length};
use hd_stores::BlockStore;
use hd_volume::{MOST_BLOCKS, Volume, size_table};
use std::alloc::Global;

/// Surveys a volume, whatever its bytes are: each block is read once, in order, and where a twin chain is long once more; nothing is changed. At most 65,536 whole
/// blocks are read. The time grows with the bytes, and with the segments times their number's logarithm; the memory is a few
/// bytes a block and twelve a segment. `Memory` says that it is wanting, `Device` that an access failed.
pub fn survey_volume<S: BlockStore>(
    alloc: Global,
    volume: &mut Volume<S>,
    dbd: &Dbd,
) -> Result<Survey, Refused>
    ensures read { IsRead volume.old result volume.new }
    ensures refusal { OnlyDeviceOrMemory result }
{
    let Ok(sizes) = size_table(alloc, dbd) else {
        return Err(Refused::Memory);
    };
    let Ok(types) = vec![in alloc; TypeUse::none(); dbd.types().len()] else {
        return Err(Refused::Memory);
    };
    let mut found = Found {
        blocks: Vec::new(alloc),
        types,
        twins: Vec::new(alloc),
    };
    read_blocks(&mut found, volume, dbd, &sizes)?;
    if volume.first_root() != 0 {
        note_parent(&mut found.types, 1);
    }
    count_chains(&mut found.twins, &mut found.types);
    if has_long_chain(&found.types) {
        find_parents(&mut found.types, volume, dbd, &sizes)?;
    }
    Ok(survey_of(found, volume, dbd))
}

/// Whether a chain of a type below the root is long.
fn has_long_chain(types: &[TypeUse]) -> bool {
    for place in 1..types.len() {
        if types[place].has_long_chain() {
            return true;
        }
    }
    false
}

/// Notes all blocks of a volume, and their segments.
fn read_blocks<S: BlockStore>(
    found: &mut Found,
    volume: &mut Volume<S>,
    dbd: &Dbd,
    sizes: &[SegmentSize],
) -> Result<(), Refused>
    ensures read { IsRead volume.old result volume.new }
    ensures refusal { OnlyDeviceOrMemory result }
{
    let size = volume.block_size();
    let count = (volume.length() / size as u64).min(u64::from(MOST_BLOCKS)) as u32;
    for n in 0..count {
        read_block(found, volume, dbd, sizes, n, size)?;
    }
    Ok(())
}

/// Notes a block of a volume, and its segments.
fn read_block<S: BlockStore>(
    found: &mut Found,
    volume: &mut Volume<S>,
    dbd: &Dbd,
    sizes: &[SegmentSize],
    n: u32,
    size: usize,
) -> Result<(), Refused>
    requires small { (128 ≤ size) × (size ≤ 32768) }
    requires there { IsTrue volume.old.is_sound → HasBlock volume.old.size volume.old.image n }
    ensures read { IsRead volume.old result volume.new }
    ensures refusal { OnlyDeviceOrMemory result }
{
    let first = n.saturating_mul(size as u32);
    let block = volume.block(n)?;
    if block.len() != size {
        return Ok(());
    }
    note_block(found, block, dbd, sizes, n, first)?;
    Ok(())
}

/// The bytes that entries can take in an index block.
fn index_room(dbd: &Dbd) -> u32 {
    let key_length = root_key_length(dbd);
    let room = entry_room(key_length, dbd.block_size() as usize);
    let end = entry_place(key_length, room);
    u32::try_from(end.saturating_sub(FIRST)).unwrap_or(0)
}

/// What was found, with what the header says.
fn survey_of<S: BlockStore>(found: Found, volume: &Volume<S>, dbd: &Dbd) -> Survey {
    let size = volume.block_size();
    Survey {
        version: volume.version(),
        counted: volume.block_count(),
        largest: volume.largest_count(),
        first_root: volume.first_root(),
        last_root: volume.last_root(),
        top: volume.top(),
        height: volume.height(),
        behind: volume.length() % size as u64,
        block_size: size as u32,
        index_room: index_room(dbd),
        blocks: found.blocks,
        types: found.types,
    }
}
