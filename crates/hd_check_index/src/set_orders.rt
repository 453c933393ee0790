//! Phase 11 of an index set: all that is out of order on its levels.
ghost use Rattle.std.specs.Prelude.{◌≡◌, ◌≢◌, ℕ, ◌*◌, ◌≤◌, ◌<◌, length, [], Some, IsTrue, IfOk, OnOk};
ghost use Rattle.hd_dbd.specs.Refusals.{OnlyMemory, OnlyDeviceOrMemory};
ghost use Rattle.hd_volume.specs.Headers.{header_of};
ghost use Rattle.hd_volume.specs.Calls.{IsRead};
ghost use Rattle.hd_volume.specs.Indexes.{root_key_length};
ghost use Rattle.hd_index_blocks.specs.IndexSets.{level_in, index_blocks};
ghost use Rattle.hd_index_blocks.specs.Faultless.{AreFormsRight};
ghost use Rattle.hd_index_blocks.specs.LevelFaults.{IsWrongNext, HasEntryOutOfOrder};
ghost use Rattle.hd_image.specs.Records.{IsVolumeOf};
ghost use Rattle.hd_check_blocks.specs.Listing.{AreStanding, AllStand};
ghost use Rattle.hd_check_index.specs.Tables.{AreIndexBlocks};
ghost use Rattle.hd_check_index.specs.Rows.{AreRows};
ghost use Rattle.hd_check_index.specs.BlockExtents.{AreExtents};
ghost use Rattle.hd_check_index.specs.EntryOrders.{OfRow, standing_at};
ghost use Rattle.hd_check_index.specs.Listed.{AreOrdersListed};
ghost use Rattle.hd_check_index.specs.SetPhases.{OfFormedSet, AllListed, IsRowListed};

use crate::extents::Extent;
use crate::listed::{fault_naming, fault_unless, in_order};
use crate::next_blocks::is_next_wrong;
use crate::order::{Left, judge_next};
use crate::rows::{Standing, row_start};
use crate::table::NotedBlock;
use hd_check_blocks::{Fault, list_fault};
use hd_dbd::{Dbd, Refused};
use hd_image::Line;
use hd_index_blocks::root_key_length;
use hd_stores::BlockStore;
use hd_volume::Volume;
use std::alloc::Global;

/// All index blocks whose next one is not the one that follows on its level, row by row.
fn next_faults(
    alloc: Global,
    blocks: &[NotedBlock],
    rows: &[Standing],
    size: u32,
) -> Result<Vec<Fault>, Refused>
    ensures stand { OfFormedSet blocks.now (λ d v. AreRows (root_key_length d.types) v rows.now → size ≡ v.size → IfOk result (λ faults. AllStand d v 11 faults.items)) }
    ensures all { OfFormedSet blocks.now (λ d v. AreRows (root_key_length d.types) v rows.now → size ≡ v.size → IfOk result (λ faults. AllListed Line.WrongNext (IsWrongNext (root_key_length d.types) v) faults.items)) }
    ensures refusal { OnlyMemory result }
{
    let mut faults = Vec::new(alloc);
    for i in 0..rows.len() {
        let row = rows[i];
        let wrong = is_next_wrong(blocks, rows, i);
        list_fault(
            &mut faults,
            fault_unless(!wrong, Line::WrongNext, row.number, size),
        )?;
    }
    Ok(faults)
}

/// Lists the blocks of a row that have an entry that is not right, each with what the first such entry names; the extents of the blocks are
/// noted.
fn list_row<S: BlockStore>(
    faults: &mut Vec<Fault>,
    own: &mut Vec<Extent>,
    volume: &mut Volume<S>,
    row: &[Standing],
    level: u8,
    below: &[Extent],
    key_length: usize,
    size: u32,
) -> Result<(), Refused>
    requires empty { own.old.items ≡ [] }
    requires short { key_length ≤ 255 }
    requires forms { IsTrue volume.old.is_sound → AreFormsRight key_length volume.old }
    requires level { IsTrue volume.old.is_sound → (i : ℕ) → i < length row.now → level_in volume.old (standing_at row.now i).number ≡ Some level }
    requires fits { IsTrue volume.old.is_sound → (n l : ℕ) → level_in volume.old n ≡ Some l → n * size < 4294967296 }
    ensures read { IsRead volume.old result volume.new }
    ensures own { OnOk result (IsTrue volume.old.is_sound → OfRow (index_blocks key_length volume.old) key_length level row.now below.now (λ c ns. AreExtents key_length c level ns own.new.items)) }
    ensures faults { OnOk result (IsTrue volume.old.is_sound → OfRow (index_blocks key_length volume.old) key_length level row.now below.now (λ c ns. IsRowListed size c level ns faults.old.items faults.new.items)) }
    ensures refusal { OnlyDeviceOrMemory result }
{
    let mut left = Left {
        key: [0; 255],
        is_some: false,
    };
    let mut place = 0;
    for block in row {
        let rest = &below[place..];
        let judged = judge_next(
            own,
            &mut left,
            volume,
            block.number,
            level,
            rest,
            key_length,
        )?;
        place = below.len().min(place + judged.count);
        list_fault(
            faults,
            fault_naming(judged.found, Line::EntryOutOfOrder, block.number, size),
        )?;
    }
    Ok(())
}

/// Lists the index blocks with an entry whose key is not above the one to its left or breaks its bounds, each with what the first such entry
/// names.
fn list_orders<S: BlockStore>(
    alloc: Global,
    faults: &mut Vec<Fault>,
    volume: &mut Volume<S>,
    rows: &[Standing],
    key_length: usize,
    size: u32,
) -> Result<(), Refused>
    requires short { key_length ≤ 255 }
    requires size { size ≡ volume.old.size }
    requires forms { IsTrue volume.old.is_sound → AreFormsRight key_length volume.old }
    requires rows { IsTrue volume.old.is_sound → AreRows key_length volume.old rows.now }
    requires fits { IsTrue volume.old.is_sound → (n l : ℕ) → level_in volume.old n ≡ Some l → n * size < 4294967296 }
    ensures read { IsRead volume.old result volume.new }
    ensures faults { OnOk result (IsTrue volume.old.is_sound → AreOrdersListed (HasEntryOutOfOrder key_length volume.old) faults.old.items faults.new.items) }
    ensures refusal { OnlyDeviceOrMemory result }
{
    let mut below = Vec::new(alloc);
    let mut end = rows.len();
    while end > 0 {
        let start = row_start(rows, end);
        let first = rows[start];
        let mut own = Vec::new(alloc);
        list_row(
            faults,
            &mut own,
            volume,
            &rows[start..end],
            first.level,
            &below,
            key_length,
            size,
        )?;
        below = own;
        end = start;
    }
    Ok(())
}

/// All that is out of order on the levels of an index set: the next blocks and the keys, block by block.
pub fn set_order_faults<S: BlockStore>(
    alloc: Global,
    blocks: &[NotedBlock],
    rows: &[Standing],
    volume: &mut Volume<S>,
    dbd: &Dbd,
) -> Result<Vec<Fault>, Refused>
    requires of { IsTrue volume.old.is_sound → IsVolumeOf dbd.now volume.old }
    requires later { IsTrue volume.old.is_sound → (header_of volume.old.image).version ≢ 1 }
    requires blocks { IsTrue volume.old.is_sound → AreIndexBlocks volume.old blocks.now }
    requires forms { IsTrue volume.old.is_sound → AreFormsRight (root_key_length dbd.now.types) volume.old }
    requires rows { IsTrue volume.old.is_sound → AreRows (root_key_length dbd.now.types) volume.old rows.now }
    ensures read { IsRead volume.old result volume.new }
    ensures faults { IfOk result (λ faults. IsTrue volume.old.is_sound → AreStanding dbd.now volume.old 11 faults.items) }
    ensures refusal { OnlyDeviceOrMemory result }
{
    let size = volume.block_size() as u32;
    let mut found = next_faults(alloc, blocks, rows, size)?;
    list_orders(alloc, &mut found, volume, rows, root_key_length(dbd), size)?;
    in_order(alloc, found)
}
