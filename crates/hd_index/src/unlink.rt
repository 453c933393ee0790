ghost use Rattle.std.specs.Prelude.{◌≡◌, ◌≢◌, ◌≤◌, ℕ, IsTrue, IfOk, OnOk};
ghost use Rattle.hd_dbd.specs.Refusals.{OnlyDevice};
ghost use Rattle.hd_volume.specs.Volumes.{IsFormatted, IsKind};
ghost use Rattle.hd_volume.specs.Calls.{IsCall, IsRead};
ghost use Rattle.hd_index_blocks.specs.Neighbours.{last_child};
ghost use Rattle.hd_index_blocks.specs.IndexSets.{next_in, index_blocks};
ghost use Rattle.hd_index.specs.EditedBlocks.{IsIndexBlock};
ghost use Rattle.hd_index.specs.Blocks.{IsInOrder};
ghost use Rattle.hd_index.specs.Changes.{WhereSound};
ghost use Rattle.hd_index.specs.Removals.{IsPassed, IsDropped, IsCutOff, RemovesCut};

use crate::edit::set_next;
use crate::look::has_block;
use crate::stand::{Stand, last_child};
use hd_bytes::read_u32;
use hd_dbd::Refused;
use hd_index_blocks::{FIRST, NEXT};
use hd_stores::BlockStore;
use hd_volume::Volume;

/// The block behind a block on its level, 0 for none.
fn next_of<S: BlockStore>(volume: &mut Volume<S>, n: u32) -> Result<u32, Refused>
    ensures read { IsRead volume.old result volume.new }
    ensures value { IfOk result (λ next. IsTrue volume.old.is_sound → IsKind volume.old 2 n → next ≡ next_in volume.old n) }
    ensures least { 128 ≤ volume.old.size }
    ensures refusal { OnlyDevice result }
{
    if !has_block(volume, n) {
        return Ok(0);
    }
    let bytes = volume.block(n)?;
    if bytes.len() < FIRST {
        return Ok(0);
    }
    Ok(read_u32(bytes, NEXT))
}

/// Lets the left neighbour of a block, if it has one, name the block behind it.
fn pass_over<S: BlockStore>(volume: &mut Volume<S>, stand: Stand) -> Result<(), Refused>
    requires formatted { IsTrue volume.old.is_sound → IsFormatted volume.old }
    requires block { IsTrue volume.old.is_sound → IsKind volume.old 2 stand.block }
    requires left { IsTrue volume.old.is_sound → stand.left ≢ 0 → (key_length : ℕ) × IsIndexBlock key_length volume.old stand.left }
    ensures call { IsCall volume.old result volume.new }
    ensures passed { OnOk result (IsTrue volume.old.is_sound → (key_length : ℕ) → (stand.left ≢ 0 → IsIndexBlock key_length volume.old stand.left) → IsPassed key_length volume.old stand volume.new) }
    ensures refusal { OnlyDevice result }
    ensures room { volume.new.room ≡ volume.old.room }
{
    if stand.left == 0 {
        return Ok(());
    }
    let next = next_of(volume, stand.block)?;
    set_next(volume, stand.left, next)?;
    Ok(())
}

/// Makes a block free, and takes it out of the chain of its level.
fn drop_block<S: BlockStore>(volume: &mut Volume<S>, stand: Stand) -> Result<(), Refused>
    requires formatted { IsTrue volume.old.is_sound → IsFormatted volume.old }
    requires block { IsTrue volume.old.is_sound → IsKind volume.old 2 stand.block }
    requires left { IsTrue volume.old.is_sound → stand.left ≢ 0 → (key_length : ℕ) × IsIndexBlock key_length volume.old stand.left }
    requires apart { IsTrue volume.old.is_sound → stand.left ≢ stand.block }
    ensures call { IsCall volume.old result volume.new }
    ensures dropped { OnOk result (IsTrue volume.old.is_sound → (key_length : ℕ) → (stand.left ≢ 0 → IsIndexBlock key_length volume.old stand.left) → IsDropped key_length volume.old stand volume.new) }
    ensures refusal { OnlyDevice result }
    ensures room { volume.new.room ≡ volume.old.room }
{
    pass_over(volume, stand)?;
    volume.give_block(stand.block)?;
    Ok(())
}

/// The one block below a block, and the last below its left neighbour.
fn only_below<S: BlockStore>(
    volume: &mut Volume<S>,
    key_length: usize,
    stand: Stand,
) -> Result<Stand, Refused>
    requires short { key_length ≤ 255 }
    ensures read { IsRead volume.old result volume.new }
    ensures block { IfOk result (λ below. IsTrue volume.old.is_sound → IsInOrder key_length volume.old stand.block → below.block ≡ last_child (index_blocks key_length volume.old) stand.block) }
    ensures left { WhereSound volume.old result (λ below. (stand.left ≢ 0 → IsInOrder key_length volume.old stand.left) → below.left ≡ last_child (index_blocks key_length volume.old) stand.left) }
    ensures refusal { OnlyDevice result }
{
    let block = last_child(volume, key_length, stand.block)?;
    if stand.left == 0 {
        return Ok(Stand { left: 0, block });
    }
    let left = last_child(volume, key_length, stand.left)?;
    Ok(Stand { left, block })
}

/// Takes out of the index set a block so many levels above the sequence set, with all below it, which no block above names.
pub fn drop_way<S: BlockStore>(
    volume: &mut Volume<S>,
    key_length: usize,
    levels: u32,
    start: Stand,
) -> Result<(), Refused>
    requires cut { IsTrue volume.old.is_sound → IsCutOff key_length volume.old levels start }
    requires short { key_length ≤ 255 }
    ensures call { IsCall volume.old result volume.new }
    ensures changed { OnOk result (IsTrue volume.old.is_sound → RemovesCut key_length volume.old levels start volume.new) }
    ensures refusal { OnlyDevice result }
    ensures room { volume.new.room ≡ volume.old.room }
{
    let mut stand = start;
    for _ in 0..levels {
        let below = only_below(volume, key_length, stand)?;
        drop_block(volume, stand)?;
        stand = below;
    }
    drop_block(volume, stand)?;
    Ok(())
}
