//! Phase 9: no index block is named twice.
ghost use Rattle.std.specs.Prelude.{◌≡◌, ◌<◌, ℕ, IfOk, IfNone, IfSome};
ghost use Rattle.hd_dbd.specs.Refusals.{OnlyMemory};
ghost use Rattle.hd_dbd.specs.Hierarchy.{Database};
ghost use Rattle.hd_volume.specs.Volumes.{VolumeState};
ghost use Rattle.hd_image.specs.Records.{IsVolumeOf};
ghost use Rattle.std.specs.List.Sorted.{IsPermutation, IsNonDecreasing};
ghost use Rattle.hd_check_blocks.specs.Phases.{IsLeastOf};
ghost use Rattle.hd_check_blocks.specs.Listing.{AreStanding};
ghost use Rattle.hd_check_index.specs.IndexPhases.{AreNamedOnce, names_of, IfRightByBlock, OfRightBlocks};

use crate::listed::fault_unless;
use crate::noted_blocks::{ChainedBlock, block_address};
use crate::twice::{first_twice, is_once};
use hd_check_blocks::{Fault, list_fault};
use hd_dbd::Refused;
use hd_image::Line;
use std::alloc::Global;

/// The index blocks that are named, 0 for none: the top block, and the next one of each block.
fn names_of(alloc: Global, blocks: &[ChainedBlock], top: u32) -> Result<Vec<u32>, Refused>
    ensures value { IfOk result (λ names. names.items ≡ names_of top blocks.now) }
    ensures refusal { OnlyMemory result }
{
    let mut names = Vec::new(alloc);
    names.push(top).map_err(|_| Refused::Memory)?;
    for block in blocks {
        names.push(block.next).map_err(|_| Refused::Memory)?;
    }
    Ok(names)
}

/// The first index block that is named twice, by the header as the top block or by index blocks as the next.
pub fn twice_named_fault(
    alloc: Global,
    blocks: &[ChainedBlock],
    top: u32,
    size: u32,
) -> Result<Option<Fault>, Refused>
    ensures none { (d : Database) (v : VolumeState) → IfRightByBlock d v blocks.now top (IsVolumeOf d v → IfOk result (λ o. IfNone o (AreNamedOnce v))) }
    ensures some { OfRightBlocks blocks.now top size (λ d v. IfOk result (λ o. IfSome o (λ f. IsLeastOf d v 9 f))) }
    ensures refusal { OnlyMemory result }
{
    let mut names = names_of(alloc, blocks, top)?;
    names.sort_unstable();
    match first_twice(&names) {
        None => Ok(None),
        Some(n) => Ok(Some(Fault::at(Line::NamedTwice, block_address(n, size), 0))),
    }
}

/// All blocks whose numbers stand twice among these names, which are in order.
fn twice_faults(
    alloc: Global,
    blocks: &[ChainedBlock],
    names: &[u32],
    size: u32,
) -> Result<Vec<Fault>, Refused>
    ensures faults { IsNonDecreasing names.now → (top : ℕ) → OfRightBlocks blocks.now top size (λ d v. IsPermutation (names_of top blocks.now) names.now → IfOk result (λ faults. AreStanding d v 9 faults.items)) }
    ensures refusal { OnlyMemory result }
{
    let mut faults = Vec::new(alloc);
    for block in blocks {
        let right = is_once(names, block.number);
        list_fault(
            &mut faults,
            fault_unless(right, Line::NamedTwice, block.number, size),
        )?;
    }
    Ok(faults)
}

/// All index blocks that are named twice, by the header as the top block or by index blocks as the next.
pub fn twice_named_faults(
    alloc: Global,
    blocks: &[ChainedBlock],
    top: u32,
    size: u32,
) -> Result<Vec<Fault>, Refused>
    ensures faults { OfRightBlocks blocks.now top size (λ d v. IfOk result (λ faults. AreStanding d v 9 faults.items)) }
    ensures refusal { OnlyMemory result }
{
    let mut names = names_of(alloc, blocks, top)?;
    names.sort_unstable();
    twice_faults(alloc, blocks, &names, size)
}
