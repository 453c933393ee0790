//! Phase 8: top and height of the index, and the form of its blocks.
ghost use Rattle.std.specs.Prelude.{◌≡◌, ◌≢◌, ◌*◌, ◌≤◌, ℕ, Some, true, false, IsTrue, IfOk};
ghost use Rattle.hd_dbd.specs.Refusals.{OnlyDevice, OnlyDeviceOrMemory};
ghost use Rattle.hd_volume.specs.Headers.{header_of};
ghost use Rattle.hd_volume.specs.Volumes.{VolumeState};
ghost use Rattle.hd_volume.specs.Calls.{IsRead};
ghost use Rattle.hd_index_blocks.specs.Levels.{named};
ghost use Rattle.hd_index_blocks.specs.IndexSets.{level_in};
ghost use Rattle.hd_index_blocks.specs.Faultless.{IsFormRight};
ghost use Rattle.hd_index_blocks.specs.LevelFaults.{IsWrongTop, IsWrongForm, StandsNowhere};
ghost use Rattle.hd_check_index.specs.Tables.{AreIndexBlocks, IsBlockOf};
ghost use Rattle.hd_check_index.specs.Judging.{IfSized};
ghost use Rattle.hd_check_index.specs.NotedBlocks.{IsNotedRight, AreOfLevel, HasStray};
ghost use Rattle.hd_check_index.specs.Judging.{IsFoundAt, WhereFound};
ghost use Rattle.hd_check_index.specs.Counted.{OfEntries};
ghost use Rattle.hd_image.specs.Records.{IsVolumeOf};
ghost use Rattle.hd_check_blocks.specs.Listing.{AreStanding};

use crate::listed::{fault_unless, top_fault};
use crate::table::{NotedBlock, position_of};
use hd_check_blocks::{Fault, list_fault};
use hd_dbd::{Dbd, Refused};
use hd_image::Line;
use hd_index_blocks::{FIRST, IndexBlock, entry_room, root_key_length};
use hd_stores::BlockStore;
use hd_volume::Volume;
use std::alloc::Global;

/// How many levels an index has at most.
const MOST_LEVELS: u32 = 64;

/// Whether a number is that of an index block of a level.
fn is_of_level(blocks: &[NotedBlock], number: u32, level: u8) -> bool
    ensures right { result ≡ true → (v : VolumeState) → AreIndexBlocks v blocks.now → level_in v number ≡ Some level }
    ensures wrong { result ≡ false → (v : VolumeState) → AreIndexBlocks v blocks.now → level_in v number ≢ Some level }
{
    match position_of(blocks, number) {
        None => false,
        Some(at) => {
            let block = blocks[at];
            block.level == level
        }
    }
}

/// Whether top and height are both 0, or the top is an index block of the level below a height of at most 64.
pub fn is_top_right(blocks: &[NotedBlock], top: u32, height: u32) -> bool
    ensures right { result ≡ true → (v : VolumeState) → AreIndexBlocks v blocks.now → top ≡ (header_of v.image).top → height ≡ (header_of v.image).height → StandsNowhere (IsWrongTop v) }
    ensures wrong { result ≡ false → (v : VolumeState) → AreIndexBlocks v blocks.now → top ≡ (header_of v.image).top → height ≡ (header_of v.image).height → IsWrongTop v 0 top }
{
    if top == 0 {
        return height == 0;
    }
    if height == 0 || height > MOST_LEVELS {
        return false;
    }
    is_of_level(blocks, top, (height - 1) as u8)
}

/// Whether what is noted of an index block is right: all of its form but what its entries name.
fn is_noted_right(blocks: &[NotedBlock], height: u32, room: usize, block: NotedBlock) -> bool
    ensures right { result ≡ true → (k : ℕ) (v : VolumeState) → AreIndexBlocks v blocks.now → IfSized k v height room (IsNotedRight k v block) }
    ensures wrong { result ≡ false → (k : ℕ) (v : VolumeState) → AreIndexBlocks v blocks.now → IfSized k v height room (IsNotedRight k v block → ⊥) }
{
    if u32::from(block.level) >= height || block.count == 0 || block.count as usize > room {
        return false;
    }
    block.next == 0 || is_of_level(blocks, block.next, block.level)
}

/// Whether each entry of an upper block names an index block of the level below.
fn are_of_level(blocks: &[NotedBlock], upper: &IndexBlock, level: u8) -> bool
    ensures right { result ≡ true → (v : VolumeState) → AreIndexBlocks v blocks.now → OfEntries upper.now (λ es. AreOfLevel v level (named es)) }
    ensures wrong { result ≡ false → (v : VolumeState) → AreIndexBlocks v blocks.now → OfEntries upper.now (λ es. HasStray v level (named es)) }
{
    for index in 0..upper.count() {
        if !is_of_level(blocks, upper.address(index), level) {
            return false;
        }
    }
    true
}

/// Whether the form of an index block is right.
fn is_block_right<S: BlockStore>(
    volume: &mut Volume<S>,
    blocks: &[NotedBlock],
    key_length: usize,
    height: u32,
    block: NotedBlock,
) -> Result<bool, Refused>
    requires short { key_length ≤ 255 }
    requires table { IsTrue volume.old.is_sound → AreIndexBlocks volume.old blocks.now }
    requires noted { IsTrue volume.old.is_sound → IsBlockOf block blocks.now }
    requires height { IsTrue volume.old.is_sound → height ≡ (header_of volume.old.image).height }
    ensures read { IsRead volume.old result volume.new }
    ensures right { IfOk result (λ r. IsTrue volume.old.is_sound → r ≡ true → IsFormRight key_length volume.old block.level block.number) }
    ensures wrong { IfOk result (λ r. IsTrue volume.old.is_sound → r ≡ false → IsWrongForm key_length volume.old (block.number * volume.old.size) 0) }
    ensures refusal { OnlyDevice result }
{
    let room = entry_room(key_length, volume.block_size());
    if !is_noted_right(blocks, height, room, block) {
        return Ok(false);
    }
    if block.level == 0 {
        return Ok(true);
    }
    let bytes = volume.block(block.number)?;
    if bytes.len() < FIRST {
        return Ok(false);
    }
    let upper = IndexBlock { bytes, key_length };
    Ok(are_of_level(blocks, &upper, block.level - 1))
}

/// The first index block whose form is wrong: by its level, its count of entries, its next block, or a block that an upper entry names.
pub fn wrong_form<S: BlockStore>(
    volume: &mut Volume<S>,
    blocks: &[NotedBlock],
    key_length: usize,
    height: u32,
) -> Result<Option<u32>, Refused>
    requires short { key_length ≤ 255 }
    requires blocks { IsTrue volume.old.is_sound → AreIndexBlocks volume.old blocks.now }
    requires height { IsTrue volume.old.is_sound → height ≡ (header_of volume.old.image).height }
    ensures read { IsRead volume.old result volume.new }
    ensures found { WhereFound volume.old result (λ found. IsFoundAt volume.old (IsWrongForm key_length volume.old) found) }
    ensures refusal { OnlyDevice result }
{
    for block in blocks {
        let right = is_block_right(volume, blocks, key_length, height, *block)?;
        if !right {
            return Ok(Some(block.number));
        }
    }
    Ok(None)
}

/// All that is wrong with top and height and with the form of the blocks of an index set, block by block.
pub fn set_form_faults<S: BlockStore>(
    alloc: Global,
    blocks: &[NotedBlock],
    volume: &mut Volume<S>,
    dbd: &Dbd,
) -> Result<Vec<Fault>, Refused>
    requires of { IsTrue volume.old.is_sound → IsVolumeOf dbd.now volume.old }
    requires later { IsTrue volume.old.is_sound → (header_of volume.old.image).version ≢ 1 }
    requires blocks { IsTrue volume.old.is_sound → AreIndexBlocks volume.old blocks.now }
    ensures read { IsRead volume.old result volume.new }
    ensures faults { IfOk result (λ faults. IsTrue volume.old.is_sound → AreStanding dbd.now volume.old 8 faults.items) }
    ensures refusal { OnlyDeviceOrMemory result }
{
    let key_length = root_key_length(dbd);
    let top = volume.top();
    let height = volume.height();
    let size = volume.block_size() as u32;
    let mut faults = Vec::new(alloc);
    let right = is_top_right(blocks, top, height);
    list_fault(&mut faults, top_fault(right, top))?;
    for block in blocks {
        let right = is_block_right(volume, blocks, key_length, height, *block)?;
        list_fault(
            &mut faults,
            fault_unless(right, Line::WrongForm, block.number, size),
        )?;
    }
    Ok(faults)
}
