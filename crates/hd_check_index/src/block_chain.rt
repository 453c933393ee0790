//! Phase 10: each index block is reached from the top block.
ghost use Rattle.std.specs.Prelude.{◌≡◌, ◌<◌, ℕ, [], length, replicate, true, false, IfOk, IfNone, IfSome, OnOk};
ghost use Rattle.hd_dbd.specs.Refusals.{OnlyMemory};
ghost use Rattle.hd_dbd.specs.Hierarchy.{Database};
ghost use Rattle.hd_volume.specs.Volumes.{VolumeState};
ghost use Rattle.hd_volume.specs.Entries.{entry_blocks};
ghost use Rattle.hd_volume.specs.Indexes.{root_key_length};
ghost use Rattle.hd_image.specs.Records.{IsVolumeOf};
ghost use Rattle.hd_image.specs.Right.{ChainIsFormed};
ghost use Rattle.hd_check_blocks.specs.Phases.{IsLeastOf};
ghost use Rattle.hd_check_blocks.specs.Listing.{AreStanding};
ghost use Rattle.hd_check_index.specs.Marks.{AreMarkedBefore, mark_at};
ghost use Rattle.hd_check_index.specs.IndexPhases.{AreNamedOnce, IsChainable, IsWalked, AreMarks, index_block_at, IfRightByBlock, OfRightBlocks};

use crate::listed::fault_unless;
use crate::noted_blocks::{ChainedBlock, block_address, position_of};
use hd_check_blocks::{Fault, list_fault};
use hd_dbd::Refused;
use hd_image::Line;
use std::alloc::Global;

/// So many marks, none of them made.
fn no_marks(alloc: Global, count: usize) -> Result<Vec<bool>, Refused>
    ensures none { IfOk result (λ marks. marks.items ≡ replicate count false) }
    ensures refusal { OnlyMemory result }
{
    vec![in alloc; false; count].map_err(|_| Refused::Memory)
}

/// Notes the blocks from the top block on, each behind the one that names it, and marks them.
fn walk(
    chain: &mut Vec<u32>,
    marks: &mut Vec<bool>,
    blocks: &[ChainedBlock],
    top: u32,
) -> Result<(), Refused>
    requires empty { chain.old.items ≡ [] }
    requires unmarked { marks.old.items ≡ replicate (length blocks.now) false }
    ensures as_many { OnOk result (length marks.new.items ≡ length blocks.now) }
    ensures walked { OnOk result ((k : ℕ) (v : VolumeState) → IsChainable k v blocks.now top → IsWalked v top blocks.now chain.new.items marks.new.items) }
    ensures refusal { OnlyMemory result }
{
    let mut next = top;
    for _turn in 0..blocks.len() {
        let at = match position_of(blocks, next) {
            Some(at) => at,
            None => return Ok(()),
        };
        chain.push(next).map_err(|_| Refused::Memory)?;
        marks[at] = true;
        let block = blocks[at];
        next = block.next;
    }
    Ok(())
}

/// The first of the blocks that has no mark.
fn unmarked(blocks: &[ChainedBlock], marks: &[bool]) -> Option<u32>
    requires as_many { length marks.now ≡ length blocks.now }
    ensures none { IfNone result (AreMarkedBefore (length blocks.now) marks.now) }
    ensures some { IfSome result (λ n. (i : ℕ) × (i < length blocks.now) × (n ≡ (index_block_at blocks.now i).number) × (mark_at marks.now i ≡ false) × AreMarkedBefore i marks.now) }
{
    for i in 0..blocks.len() {
        if !marks[i] {
            let block = blocks[i];
            return Some(block.number);
        }
    }
    None
}

/// The first index block that is not reached from the top block; where there is none, the blocks of the chain are noted from
/// left to right.
pub fn unreached_block_fault(
    alloc: Global,
    chain: &mut Vec<u32>,
    blocks: &[ChainedBlock],
    top: u32,
    size: u32,
) -> Result<Option<Fault>, Refused>
    requires empty { chain.old.items ≡ [] }
    ensures none { (d : Database) (v : VolumeState) → IfRightByBlock d v blocks.now top (AreNamedOnce v → IsVolumeOf d v → IfOk result (λ o. IfNone o (ChainIsFormed (root_key_length d.types) v))) }
    ensures chain { (d : Database) (v : VolumeState) → IfRightByBlock d v blocks.now top (AreNamedOnce v → IsVolumeOf d v → IfOk result (λ o. IfNone o (chain.new.items ≡ entry_blocks v))) }
    ensures some { (d : Database) (v : VolumeState) → IfRightByBlock d v blocks.now top (AreNamedOnce v → IsVolumeOf d v → size ≡ v.size → IfOk result (λ o. IfSome o (λ f. IsLeastOf d v 10 f))) }
    ensures refusal { OnlyMemory result }
{
    let mut marks = no_marks(alloc, blocks.len())?;
    walk(chain, &mut marks, blocks, top)?;
    match unmarked(blocks, &marks) {
        None => Ok(None),
        Some(n) => Ok(Some(Fault::at(Line::UnreachedBlock, block_address(n, size), 0))),
    }
}

/// All of the blocks that have no mark.
fn unmarked_faults(
    alloc: Global,
    blocks: &[ChainedBlock],
    marks: &[bool],
    size: u32,
) -> Result<Vec<Fault>, Refused>
    requires as_many { length marks.now ≡ length blocks.now }
    ensures faults { (top : ℕ) → OfRightBlocks blocks.now top size (λ d v. AreMarks blocks.now (entry_blocks v) marks.now → IfOk result (λ faults. AreStanding d v 10 faults.items)) }
    ensures refusal { OnlyMemory result }
{
    let mut faults = Vec::new(alloc);
    for i in 0..blocks.len() {
        let block = blocks[i];
        list_fault(
            &mut faults,
            fault_unless(marks[i], Line::UnreachedBlock, block.number, size),
        )?;
    }
    Ok(faults)
}

/// All index blocks that are not reached from the top block.
pub fn unreached_block_faults(
    alloc: Global,
    blocks: &[ChainedBlock],
    top: u32,
    size: u32,
) -> Result<Vec<Fault>, Refused>
    ensures faults { (d : Database) (v : VolumeState) → IfRightByBlock d v blocks.now top (AreNamedOnce v → IsVolumeOf d v → size ≡ v.size → IfOk result (λ faults. AreStanding d v 10 faults.items)) }
    ensures refusal { OnlyMemory result }
{
    let mut chain = Vec::new(alloc);
    let mut marks = no_marks(alloc, blocks.len())?;
    walk(&mut chain, &mut marks, blocks, top)?;
    unmarked_faults(alloc, blocks, &marks, size)
}
