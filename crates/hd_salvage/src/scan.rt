//! One pass over the blocks of a volume, whatever its bytes are.
ghost use Rattle.std.specs.Prelude.{◌≡◌, ◌≤◌, ◌<◌, length, All, IsTrue, OnOk};
ghost use Rattle.hd_bytes.specs.Blocks.{HasBlock};
ghost use Rattle.hd_dbd.specs.Facts.{stored_sizes};
ghost use Rattle.hd_dbd.specs.Refusals.{OnlyMemory, OnlyDeviceOrMemory};
ghost use Rattle.hd_volume.specs.Calls.{IsRead};
ghost use Rattle.hd_volume.specs.declared.load.TheConstants.{MOST_BLOCKS};
ghost use Rattle.hd_salvage.specs.Records.{IsNoted, NotesOnly};

use crate::found::{Tables, narrowed};
use crate::note::{note_data, note_entries};
use crate::record::Record;
use hd_check_blocks::Fault;
use hd_dbd::{Dbd, Refused, SegmentSize};
use hd_image::Line;
use hd_stores::BlockStore;
use hd_volume::{DATA, FREE, INDEX, MOST_BLOCKS, Volume, size_table};
use std::alloc::Global;

/// Reads the blocks of a volume behind block 0, each once and in order, and notes the segments of its data blocks and the entries of its index.
/// At most 65,536 whole blocks are read. Nothing is changed.
pub fn scan_volume<S: BlockStore>(
    alloc: Global,
    records: &mut Vec<Record>,
    tables: &mut Tables,
    faults: &mut Vec<Fault>,
    volume: &mut Volume<S>,
    dbd: &Dbd,
) -> Result<(), Refused>
    requires sizes { volume.old.sizes ≡ stored_sizes dbd.now.types }
    requires none { IsTrue volume.old.is_sound → All (IsNoted volume.old) records.old.items }
    ensures read { IsRead volume.old result volume.new }
    ensures noted { OnOk result (IsTrue volume.old.is_sound → All (IsNoted volume.old) records.new.items) }
    ensures refusal { OnlyDeviceOrMemory result }
{
    let Ok(sizes) = size_table(alloc, dbd) else {
        return Err(Refused::Memory);
    };
    let size = volume.block_size();
    let count = (volume.length() / size as u64).min(u64::from(MOST_BLOCKS)) as u32;
    push_first(tables, records.len())?;
    for n in 1..count {
        scan_block(records, tables, faults, volume, dbd, &sizes, n, size)?;
    }
    Ok(())
}

/// Notes where the segments of the next block begin among all.
fn push_first(tables: &mut Tables, count: usize) -> Result<(), Refused>
    ensures refusal { OnlyMemory result }
{
    match tables.firsts.push(narrowed(count)) {
        Ok(()) => Ok(()),
        Err(_) => Err(Refused::Memory),
    }
}

/// Reads a block of a volume.
fn scan_block<S: BlockStore>(
    records: &mut Vec<Record>,
    tables: &mut Tables,
    faults: &mut Vec<Fault>,
    volume: &mut Volume<S>,
    dbd: &Dbd,
    sizes: &[SegmentSize],
    n: u32,
    size: usize,
) -> Result<(), Refused>
    requires later { 0 < n }
    requires size { (size ≡ volume.old.size) × (128 ≤ size) × (size ≤ 32768) }
    requires sizes { volume.old.sizes ≡ sizes.now }
    requires there { IsTrue volume.old.is_sound → HasBlock volume.old.size volume.old.image n }
    ensures read { IsRead volume.old result volume.new }
    ensures noted { OnOk result (IsTrue volume.old.is_sound → All (IsNoted volume.old) records.old.items → All (IsNoted volume.old) records.new.items) }
    ensures refusal { OnlyDeviceOrMemory result }
{
    let block = volume.block(n)?;
    if block.len() != size {
        return Ok(());
    }
    push_first(tables, records.len())?;
    note_block(records, tables, faults, dbd, sizes, block, n)
}

/// Notes the segments or the entries of a block of a number.
fn note_block(
    records: &mut Vec<Record>,
    tables: &mut Tables,
    faults: &mut Vec<Fault>,
    dbd: &Dbd,
    sizes: &[SegmentSize],
    block: &[u8],
    n: u32,
) -> Result<(), Refused>
    requires size { (128 ≤ length block.now) × (length block.now ≤ 32768) }
    ensures noted { OnOk result (NotesOnly sizes.now block.now n records.old.items records.new.items) }
    ensures refusal { OnlyMemory result }
{
    let first = n.wrapping_mul(tables.block_size);
    match block[2] {
        DATA => note_data(records, tables, faults, dbd, sizes, block, n, first),
        INDEX => note_entries(tables, block, n),
        FREE => Ok(()),
        _ => push_fault(faults, Fault::at(Line::NoKind, first, 0)),
    }
}

/// Notes a fault that was met.
pub fn push_fault(faults: &mut Vec<Fault>, fault: Fault) -> Result<(), Refused>
    ensures refusal { OnlyMemory result }
{
    match faults.push(fault) {
        Ok(()) => Ok(()),
        Err(_) => Err(Refused::Memory),
    }
}
