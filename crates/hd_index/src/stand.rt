ghost use Rattle.std.specs.Prelude.{◌≡◌, ◌≤◌, ℕ, suc, take, IsTrue, IfOk};
ghost use Rattle.hd_dbd.specs.Refusals.{OnlyDevice};
ghost use Rattle.hd_volume.specs.Volumes.{block_at};
ghost use Rattle.hd_volume.specs.Calls.{IsRead};
ghost use Rattle.hd_volume.specs.Entries.{entries_in};
ghost use Rattle.hd_index_blocks.specs.Fields.{entry_count, CountFits};
ghost use Rattle.hd_index_blocks.specs.Searches.{IfInOrder};
ghost use Rattle.hd_index_blocks.specs.Levels.{named};
ghost use Rattle.hd_index_blocks.specs.Ways.{child_of};
ghost use Rattle.hd_index_blocks.specs.Neighbours.{last_of};
ghost use Rattle.hd_index_blocks.specs.IndexSets.{HasIndexSet};
ghost use Rattle.hd_index.specs.Blocks.{IsInOrder};
ghost use Rattle.hd_index.specs.Stands.{front_of, IsStand};
ghost use Rattle.hd_index.specs.Removals.{IsBelow};
ghost use Rattle.hd_index.specs.Changes.{WhereSound};

use crate::look::has_block;
use hd_dbd::Refused;
use hd_index_blocks::{FIRST, IndexBlock};
use hd_stores::BlockStore;
use hd_volume::Volume;

/// A block, and its left neighbour on its level, 0 for none.
#[derive(Clone, Copy, Debug)]
pub struct Stand {
    pub left: u32,
    pub block: u32,
}

/// The block that the entry before an index names, 0 for none.
fn name_before(block: &IndexBlock, index: usize) -> u32
    requires { index ≤ entry_count block.now.key_length block.now.bytes.now }
    ensures { CountFits block.now.key_length block.now.bytes.now → result ≡ last_of 0 (named (take index (entries_in block.now.key_length block.now.bytes.now))) }
{
    if index == 0 {
        0
    } else {
        block.address(index - 1)
    }
}

/// The block that the last entry names, 0 for none.
fn last_name(block: &IndexBlock) -> u32
    ensures { CountFits block.now.key_length block.now.bytes.now → result ≡ last_of 0 (named (entries_in block.now.key_length block.now.bytes.now)) }
{
    name_before(block, block.count())
}

/// The block that a key leads to from an upper block, and what the entry before names, 0 for none.
fn children_in(block: &IndexBlock, key: &[u8]) -> Stand
    ensures block { IfInOrder block.now.key_length block.now.bytes.now (result.block ≡ child_of key.now (entries_in block.now.key_length block.now.bytes.now)) }
    ensures left { IfInOrder block.now.key_length block.now.bytes.now (result.left ≡ last_of 0 (named (front_of key.now (entries_in block.now.key_length block.now.bytes.now)))) }
{
    let count = block.count();
    if count == 0 {
        return Stand { left: 0, block: 0 };
    }
    let index = block.place_of(key).min(count - 1);
    Stand {
        left: name_before(block, index),
        block: block.address(index),
    }
}

/// The block that a key leads to from an upper block of the volume, and what the entry before names, 0 for none.
fn children<S: BlockStore>(
    volume: &mut Volume<S>,
    key_length: usize,
    n: u32,
    key: &[u8],
) -> Result<Stand, Refused>
    requires short { key_length ≤ 255 }
    ensures read { IsRead volume.old result volume.new }
    ensures block { IfOk result (λ s. IsTrue volume.old.is_sound → IsInOrder key_length volume.old n → s.block ≡ child_of key.now (entries_in key_length (block_at volume.old n))) }
    ensures left { WhereSound volume.old result (λ s. IsInOrder key_length volume.old n → s.left ≡ last_of 0 (named (front_of key.now (entries_in key_length (block_at volume.old n))))) }
    ensures refusal { OnlyDevice result }
{
    if !has_block(volume, n) {
        return Ok(Stand { left: 0, block: 0 });
    }
    let bytes = volume.block(n)?;
    if bytes.len() < FIRST {
        return Ok(Stand { left: 0, block: 0 });
    }
    Ok(children_in(&IndexBlock { bytes, key_length }, key))
}

/// The block that the last entry of an upper block of the volume names.
pub fn last_child<S: BlockStore>(
    volume: &mut Volume<S>,
    key_length: usize,
    n: u32,
) -> Result<u32, Refused>
    requires short { key_length ≤ 255 }
    ensures read { IsRead volume.old result volume.new }
    ensures value { IfOk result (λ m. IsTrue volume.old.is_sound → IsInOrder key_length volume.old n → m ≡ last_of 0 (named (entries_in key_length (block_at volume.old n)))) }
    ensures refusal { OnlyDevice result }
{
    if !has_block(volume, n) {
        return Ok(0);
    }
    let bytes = volume.block(n)?;
    if bytes.len() < FIRST {
        return Ok(0);
    }
    Ok(last_name(&IndexBlock { bytes, key_length }))
}

/// One step down by a key.
pub fn step_down<S: BlockStore>(
    volume: &mut Volume<S>,
    key_length: usize,
    stand: Stand,
    key: &[u8],
) -> Result<Stand, Refused>
    requires short { key_length ≤ 255 }
    ensures read { IsRead volume.old result volume.new }
    ensures stand { WhereSound volume.old result (λ s. HasIndexSet key_length volume.old → (l : ℕ) → IsStand key_length volume.old key.now (suc l) stand → IsStand key_length volume.old key.now l s) }
    ensures below { WhereSound volume.old result (λ s. HasIndexSet key_length volume.old → (l : ℕ) → IsStand key_length volume.old key.now (suc l) stand → IsBelow key_length volume.old key.now stand s) }
    ensures refusal { OnlyDevice result }
{
    let below = children(volume, key_length, stand.block, key)?;
    if below.left != 0 || stand.left == 0 {
        return Ok(below);
    }
    let left = last_child(volume, key_length, stand.left)?;
    Ok(Stand {
        left,
        block: below.block,
    })
}

/// So many steps down by a key.
pub fn walk_down<S: BlockStore>(
    volume: &mut Volume<S>,
    key_length: usize,
    levels: u32,
    start: Stand,
    key: &[u8],
) -> Result<Stand, Refused>
    requires short { key_length ≤ 255 }
    ensures read { IsRead volume.old result volume.new }
    ensures stand { WhereSound volume.old result (λ s. HasIndexSet key_length volume.old → IsStand key_length volume.old key.now levels start → IsStand key_length volume.old key.now 0 s) }
    ensures refusal { OnlyDevice result }
{
    let mut stand = start;
    for _ in 0..levels {
        stand = step_down(volume, key_length, stand, key)?;
    }
    Ok(stand)
}
