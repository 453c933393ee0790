//! Phase 10: each index block is reached from the top.
ghost use Rattle.std.specs.Prelude.{◌≡◌, ◌<◌, ℕ, length, replicate, false, IfOk, IfNone, IfSome};
ghost use Rattle.hd_dbd.specs.Refusals.{OnlyMemory};
ghost use Rattle.hd_volume.specs.Volumes.{VolumeState};
ghost use Rattle.hd_volume.specs.Indexes.{root_key_length};
ghost use Rattle.hd_check_blocks.specs.Listing.{AreStanding};
ghost use Rattle.hd_index_blocks.specs.Faultless.{AreFormsRight};
ghost use Rattle.hd_index_blocks.specs.LevelFaults.{IsUnreachedBlock};
ghost use Rattle.hd_check_index.specs.Tables.{BlocksAscend, AreIndexBlocks};
ghost use Rattle.hd_check_index.specs.Rows.{AreRows};
ghost use Rattle.hd_check_index.specs.Judging.{IsFoundAt};
ghost use Rattle.hd_check_index.specs.NotedBlocks.{noted_at};
ghost use Rattle.hd_check_index.specs.Marks.{AreMarkedBefore, mark_at};
ghost use Rattle.hd_check_index.specs.Standings.{AreMarks, numbers_of};
ghost use Rattle.hd_check_index.specs.SetPhases.{OfIndexSet, OfItsRows};

use crate::listed::fault_unless;
use crate::rows::Standing;
use crate::table::{NotedBlock, position_of};
use hd_check_blocks::{Fault, list_fault};
use hd_dbd::Refused;
use hd_image::Line;
use std::alloc::Global;

/// So many marks, none of them made.
fn no_marks(alloc: Global, count: usize) -> Result<Vec<bool>, Refused>
    ensures none { IfOk result (λ marks. marks.items ≡ replicate count false) }
    ensures refusal { OnlyMemory result }
{
    vec![in alloc; false; count].map_err(|_| Refused::Memory)
}

/// Marks the blocks that stand in a row.
fn mark_standing(marks: &mut Vec<bool>, blocks: &[NotedBlock], rows: &[Standing])
    requires unmarked { marks.old.items ≡ replicate (length blocks.now) false }
    ensures as_many { length marks.new.items ≡ length blocks.now }
    ensures marks { BlocksAscend 0 blocks.now → AreMarks blocks.now (numbers_of rows.now) marks.new.items }
{
    for i in 0..rows.len() {
        let row = rows[i];
        if let Some(at) = position_of(blocks, row.number) {
            marks[at] = true;
        }
    }
}

/// The first of the blocks that has no mark.
fn unmarked(blocks: &[NotedBlock], marks: &[bool]) -> Option<u32>
    requires as_many { length marks.now ≡ length blocks.now }
    ensures none { IfNone result (AreMarkedBefore (length blocks.now) marks.now) }
    ensures some { IfSome result (λ n. (i : ℕ) × (i < length blocks.now) × (n ≡ (noted_at blocks.now i).number) × (mark_at marks.now i ≡ false) × AreMarkedBefore i marks.now) }
{
    for i in 0..blocks.len() {
        if !marks[i] {
            let block = blocks[i];
            return Some(block.number);
        }
    }
    None
}

/// The first index block that is in no row.
pub fn unreached(
    alloc: Global,
    blocks: &[NotedBlock],
    rows: &[Standing],
) -> Result<Option<u32>, Refused>
    ensures found { (k : ℕ) (v : VolumeState) → AreIndexBlocks v blocks.now → AreFormsRight k v → AreRows k v rows.now → IfOk result (λ found. IsFoundAt v (IsUnreachedBlock k v) found) }
    ensures refusal { OnlyMemory result }
{
    let mut marks = no_marks(alloc, blocks.len())?;
    mark_standing(&mut marks, blocks, rows);
    Ok(unmarked(blocks, &marks))
}

/// All of the blocks that have no mark.
fn unmarked_faults(
    alloc: Global,
    blocks: &[NotedBlock],
    marks: &[bool],
    size: u32,
) -> Result<Vec<Fault>, Refused>
    requires as_many { length marks.now ≡ length blocks.now }
    ensures faults { OfIndexSet blocks.now (λ d v. size ≡ v.size → OfItsRows d v (λ rows. AreMarks blocks.now (numbers_of rows) marks.now → IfOk result (λ faults. AreStanding d v 10 faults.items))) }
    ensures refusal { OnlyMemory result }
{
    let mut faults = Vec::new(alloc);
    for i in 0..blocks.len() {
        let block = blocks[i];
        list_fault(
            &mut faults,
            fault_unless(marks[i], Line::UnreachedBlock, block.number, size),
        )?;
    }
    Ok(faults)
}

/// All blocks of an index set that are in no row.
pub fn set_reach_faults(
    alloc: Global,
    blocks: &[NotedBlock],
    rows: &[Standing],
    size: u32,
) -> Result<Vec<Fault>, Refused>
    ensures faults { OfIndexSet blocks.now (λ d v. AreRows (root_key_length d.types) v rows.now → size ≡ v.size → IfOk result (λ faults. AreStanding d v 10 faults.items)) }
    ensures refusal { OnlyMemory result }
{
    let mut marks = no_marks(alloc, blocks.len())?;
    mark_standing(&mut marks, blocks, rows);
    unmarked_faults(alloc, blocks, &marks, size)
}
