//! Phase 9: no index block is named twice.
ghost use Rattle.std.specs.Prelude.{◌≡◌, ◌≢◌, ◌≤◌, ◌<◌, ◌++◌, ℕ, IsTrue, OnOk, IfOk};
ghost use Rattle.std.specs.List.Sorted.{IsPermutation, IsNonDecreasing};
ghost use Rattle.hd_bytes.specs.Blocks.{HasBlock};
ghost use Rattle.hd_dbd.specs.Refusals.{OnlyMemory, OnlyDeviceOrMemory};
ghost use Rattle.hd_volume.specs.Headers.{header_of};
ghost use Rattle.hd_volume.specs.Entries.{entries_in};
ghost use Rattle.hd_volume.specs.Calls.{IsRead};
ghost use Rattle.hd_index_blocks.specs.Levels.{named};
ghost use Rattle.hd_index_blocks.specs.Faultless.{IsFormRight, AreFormsRight};
ghost use Rattle.hd_index_blocks.specs.LevelFaults.{IsNamedTwice};
ghost use Rattle.hd_index_blocks.specs.Fields.{CountFits};
ghost use Rattle.hd_volume.specs.Indexes.{root_key_length};
ghost use Rattle.hd_image.specs.Records.{IsVolumeOf};
ghost use Rattle.hd_check_blocks.specs.Listing.{AreStanding};
ghost use Rattle.hd_check_index.specs.Tables.{AreIndexBlocks};
ghost use Rattle.hd_check_index.specs.NamedBlocks.{names_in, names_of};
ghost use Rattle.hd_check_index.specs.Judging.{IsFoundAt, WhereFound};
ghost use Rattle.hd_check_index.specs.SetPhases.{OfFormedSet, set_names};

use crate::listed::fault_unless;
use crate::table::NotedBlock;
use crate::twice::{first_twice, is_once};
use hd_check_blocks::{Fault, list_fault};
use hd_dbd::{Dbd, Refused};
use hd_image::Line;
use hd_index_blocks::{FIRST, IndexBlock, root_key_length};
use hd_stores::BlockStore;
use hd_volume::Volume;
use std::alloc::Global;

/// Puts what the entries of an upper block name behind other names.
fn push_names(names: &mut Vec<u32>, upper: &IndexBlock) -> Result<(), Refused>
    ensures names { OnOk result (CountFits upper.now.key_length upper.now.bytes.now → names.new.items ≡ names.old.items ++ named (entries_in upper.now.key_length upper.now.bytes.now)) }
    ensures refusal { OnlyMemory result }
{
    for index in 0..upper.count() {
        names
            .push(upper.address(index))
            .map_err(|_| Refused::Memory)?;
    }
    Ok(())
}

/// Puts what an index block names, if it is of a level above level 0, behind other names.
fn add_names<S: BlockStore>(
    names: &mut Vec<u32>,
    volume: &mut Volume<S>,
    key_length: usize,
    block: NotedBlock,
) -> Result<(), Refused>
    requires short { key_length ≤ 255 }
    requires least { 12 ≤ volume.old.size }
    requires there { IsTrue volume.old.is_sound → HasBlock volume.old.size volume.old.image block.number }
    requires right { IsTrue volume.old.is_sound → IsFormRight key_length volume.old block.level block.number }
    ensures read { IsRead volume.old result volume.new }
    ensures names { OnOk result (IsTrue volume.old.is_sound → names.new.items ≡ names.old.items ++ names_in key_length volume.old block) }
    ensures refusal { OnlyDeviceOrMemory result }
{
    if block.level == 0 {
        return Ok(());
    }
    let bytes = volume.block(block.number)?;
    if bytes.len() < FIRST {
        return Ok(());
    }
    let upper = IndexBlock { bytes, key_length };
    push_names(names, &upper)?;
    Ok(())
}

/// The blocks that are named, 0 for none: the top block, and those that upper entries name.
fn names_of<S: BlockStore>(
    alloc: Global,
    volume: &mut Volume<S>,
    blocks: &[NotedBlock],
    key_length: usize,
    top: u32,
) -> Result<Vec<u32>, Refused>
    requires short { key_length ≤ 255 }
    requires blocks { IsTrue volume.old.is_sound → AreIndexBlocks volume.old blocks.now }
    requires forms { IsTrue volume.old.is_sound → AreFormsRight key_length volume.old }
    ensures read { IsRead volume.old result volume.new }
    ensures value { IfOk result (λ names. IsTrue volume.old.is_sound → names.items ≡ names_of key_length volume.old top blocks.now) }
    ensures refusal { OnlyDeviceOrMemory result }
{
    let least = volume.block_size();
    let mut names = Vec::new(alloc);
    names.push(top).map_err(|_| Refused::Memory)?;
    for block in blocks {
        add_names(&mut names, volume, key_length, *block)?;
    }
    Ok(names)
}

/// The first index block that is named twice, by the header as the top or by upper entries.
pub fn twice_named<S: BlockStore>(
    alloc: Global,
    volume: &mut Volume<S>,
    blocks: &[NotedBlock],
    key_length: usize,
    top: u32,
) -> Result<Option<u32>, Refused>
    requires short { key_length ≤ 255 }
    requires blocks { IsTrue volume.old.is_sound → AreIndexBlocks volume.old blocks.now }
    requires forms { IsTrue volume.old.is_sound → AreFormsRight key_length volume.old }
    requires top { IsTrue volume.old.is_sound → top ≡ (header_of volume.old.image).top }
    ensures read { IsRead volume.old result volume.new }
    ensures found { WhereFound volume.old result (λ found. IsFoundAt volume.old (IsNamedTwice key_length volume.old) found) }
    ensures refusal { OnlyDeviceOrMemory result }
{
    let mut names = names_of(alloc, volume, blocks, key_length, top)?;
    names.sort_unstable();
    Ok(first_twice(&names))
}

/// All blocks whose numbers stand twice among these names, which are in order.
fn twice_faults(
    alloc: Global,
    blocks: &[NotedBlock],
    names: &[u32],
    size: u32,
) -> Result<Vec<Fault>, Refused>
    ensures faults { IsNonDecreasing names.now → OfFormedSet blocks.now (λ d v. size ≡ v.size → IsPermutation (set_names d v blocks.now) names.now → IfOk result (λ faults. AreStanding d v 9 faults.items)) }
    ensures refusal { OnlyMemory result }
{
    let mut faults = Vec::new(alloc);
    for block in blocks {
        let right = is_once(names, block.number);
        list_fault(
            &mut faults,
            fault_unless(right, Line::NamedTwice, block.number, size),
        )?;
    }
    Ok(faults)
}

/// All blocks of an index set that are named twice, by the header as the top or by upper entries.
pub fn set_name_faults<S: BlockStore>(
    alloc: Global,
    blocks: &[NotedBlock],
    volume: &mut Volume<S>,
    dbd: &Dbd,
) -> Result<Vec<Fault>, Refused>
    requires of { IsTrue volume.old.is_sound → IsVolumeOf dbd.now volume.old }
    requires later { IsTrue volume.old.is_sound → (header_of volume.old.image).version ≢ 1 }
    requires blocks { IsTrue volume.old.is_sound → AreIndexBlocks volume.old blocks.now }
    requires forms { IsTrue volume.old.is_sound → AreFormsRight (root_key_length dbd.now.types) volume.old }
    ensures read { IsRead volume.old result volume.new }
    ensures faults { IfOk result (λ faults. IsTrue volume.old.is_sound → AreStanding dbd.now volume.old 9 faults.items) }
    ensures refusal { OnlyDeviceOrMemory result }
{
    let top = volume.top();
    let size = volume.block_size() as u32;
    let mut names = names_of(alloc, volume, blocks, root_key_length(dbd), top)?;
    names.sort_unstable();
    twice_faults(alloc, blocks, &names, size)
}
