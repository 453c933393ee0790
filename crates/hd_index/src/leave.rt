ghost use Rattle.std.specs.Prelude.{◌≡◌, ◌≢◌, ◌≤◌, ◌<◌, ℕ, List, [], None, length, IsTrue, IfOk, OnOk};
ghost use Rattle.hd_bytes.specs.Numbers.{number_at};
ghost use Rattle.hd_dbd.specs.Refusals.{OnlyDevice};
ghost use Rattle.hd_volume.specs.Headers.{header_of};
ghost use Rattle.hd_volume.specs.Rooms.{spare};
ghost use Rattle.hd_volume.specs.Volumes.{IsFormatted, block_at};
ghost use Rattle.hd_volume.specs.Calls.{IsCall, IsRead};
ghost use Rattle.hd_volume.specs.Entries.{entries_in};
ghost use Rattle.hd_index_blocks.specs.Fields.{CountFits, entry_place};
ghost use Rattle.hd_index_blocks.specs.Searches.{IfInOrder};
ghost use Rattle.hd_index_blocks.specs.Maps.{address_of, without_key};
ghost use Rattle.hd_index_blocks.specs.IndexSets.{index_blocks, index_entries, top_level, HasIndexSet};
ghost use Rattle.hd_index.specs.Edits.{IsEntryRemoved};
ghost use Rattle.hd_index.specs.Blocks.{IsInOrder};
ghost use Rattle.hd_index.specs.Changes.{IsIndexOf, entries_for, IsIndexChange, IsKeyRemoved};
ghost use Rattle.hd_index.specs.Stands.{front_of};
ghost use Rattle.hd_index.specs.Removals.{IsThin, IsThinBelow, IsOnWayIn, IsWay};

use crate::descend::MOST_LEVELS;
use crate::edit::remove_entry;
use crate::look::{has_block, look};
use crate::near::spare;
use crate::stand::{Stand, step_down};
use crate::unlink::drop_way;
use crate::way::{Fork, Way, way_down};
use hd_dbd::{Dbd, Refused};
use hd_index_blocks::{FIRST, IndexBlock, root_key_length};
use hd_stores::BlockStore;
use hd_volume::Volume;

/// Takes the root of a key out of the index; a key that it does not have leaves it as it is.
pub fn remove<S: BlockStore>(volume: &mut Volume<S>, dbd: &Dbd, key: &[u8]) -> Result<(), Refused>
    requires index { IsTrue volume.old.is_sound → IsIndexOf dbd.now volume.old }
    ensures call { IsCall volume.old result volume.new }
    ensures index { OnOk result (IsTrue volume.old.is_sound → IsIndexOf dbd.now volume.new) }
    ensures entries { OnOk result (IsTrue volume.old.is_sound → entries_for dbd.now volume.new ≡ without_key key.now (entries_for dbd.now volume.old)) }
    ensures changed { OnOk result (IsTrue volume.old.is_sound → IsIndexChange volume.old 0 volume.new) }
    ensures spares { OnOk result (IsTrue volume.old.is_sound → spare volume.old ≤ spare volume.new) }
    ensures refusal { OnlyDevice result }
    ensures room { volume.new.room ≡ volume.old.room }
{
    let key_length = root_key_length(dbd);
    remove_key(volume, key_length, key)
}

/// Takes the root of a key out of an index for keys of a length.
fn remove_key<S: BlockStore>(
    volume: &mut Volume<S>,
    key_length: usize,
    key: &[u8],
) -> Result<(), Refused>
    requires index { IsTrue volume.old.is_sound → HasIndexSet key_length volume.old }
    requires short { key_length ≤ 255 }
    ensures call { IsCall volume.old result volume.new }
    ensures changed { OnOk result (IsTrue volume.old.is_sound → IsKeyRemoved key_length volume.old key.now volume.new) }
    ensures refusal { OnlyDevice result }
    ensures room { volume.new.room ≡ volume.old.room }
{
    let _size = volume.block_size();
    let noted = volume.noted_block();
    let Some(place) = spare(volume, key_length, noted, key)? else {
        return remove_down(volume, key_length, key);
    };
    remove_entry(volume, key_length, noted, place.index, place.count)
}

/// The same, by a walk down from the top.
fn remove_down<S: BlockStore>(
    volume: &mut Volume<S>,
    key_length: usize,
    key: &[u8],
) -> Result<(), Refused>
    requires index { IsTrue volume.old.is_sound → HasIndexSet key_length volume.old }
    requires short { key_length ≤ 255 }
    ensures call { IsCall volume.old result volume.new }
    ensures changed { OnOk result (IsTrue volume.old.is_sound → IsKeyRemoved key_length volume.old key.now volume.new) }
    ensures refusal { OnlyDevice result }
    ensures room { volume.new.room ≡ volume.old.room }
{
    let top = volume.top();
    let height = volume.height();
    if top == 0 || height == 0 || height > MOST_LEVELS {
        return Ok(());
    }
    let start = Stand {
        left: 0,
        block: top,
    };
    let way = way_down(volume, key_length, height - 1, start, key)?;
    let sight = look(volume, key_length, way.leaf.block, key)?;
    if sight.equal.is_none() {
        return Ok(());
    }
    remove_on(volume, key_length, height - 1, top, way, key)
}

/// Takes out the entry of a key at the end of its way down.
fn remove_on<S: BlockStore>(
    volume: &mut Volume<S>,
    key_length: usize,
    levels: u32,
    top: u32,
    way: Way,
    key: &[u8],
) -> Result<(), Refused>
    requires index { IsTrue volume.old.is_sound → HasIndexSet key_length volume.old }
    requires top { IsTrue volume.old.is_sound → top ≡ (header_of volume.old.image).top }
    requires some { 0 < top }
    requires levels { IsTrue volume.old.is_sound → levels ≡ top_level volume.old }
    requires way { IsTrue volume.old.is_sound → IsWay key_length volume.old key.now levels top way }
    requires there { IsTrue volume.old.is_sound → address_of key.now (index_entries key_length volume.old) ≢ None }
    requires short { key_length ≤ 255 }
    ensures call { IsCall volume.old result volume.new }
    ensures changed { OnOk result (IsTrue volume.old.is_sound → IsKeyRemoved key_length volume.old key.now volume.new) }
    ensures refusal { OnlyDevice result }
    ensures room { volume.new.room ≡ volume.old.room }
{
    if way.fork.stand.block == 0 {
        return clear(volume, key_length, levels, top);
    }
    if way.fork.level == 0 {
        take_out(volume, key_length, way.fork.stand.block, key)?;
        return Ok(());
    }
    cut_off(volume, key_length, way.fork, key)
}

/// Takes out all blocks of an index set with one entry.
fn clear<S: BlockStore>(
    volume: &mut Volume<S>,
    key_length: usize,
    levels: u32,
    top: u32,
) -> Result<(), Refused>
    requires index { IsTrue volume.old.is_sound → HasIndexSet key_length volume.old }
    requires top { IsTrue volume.old.is_sound → top ≡ (header_of volume.old.image).top }
    requires some { 0 < top }
    requires levels { IsTrue volume.old.is_sound → levels ≡ top_level volume.old }
    requires thin { IsTrue volume.old.is_sound → IsThin (index_blocks key_length volume.old) levels top }
    requires short { key_length ≤ 255 }
    ensures call { IsCall volume.old result volume.new }
    ensures changed { OnOk result (IsTrue volume.old.is_sound → (key : List ℕ) → address_of key (index_entries key_length volume.old) ≢ None → IsKeyRemoved key_length volume.old key volume.new) }
    ensures refusal { OnlyDevice result }
    ensures room { volume.new.room ≡ volume.old.room }
{
    volume.set_top(0);
    volume.set_height(0);
    let start = Stand {
        left: 0,
        block: top,
    };
    drop_way(volume, key_length, levels, start)?;
    Ok(())
}

/// Takes the upper entry that a key leads to out of a fork, and all blocks below it.
fn cut_off<S: BlockStore>(
    volume: &mut Volume<S>,
    key_length: usize,
    fork: Fork,
    key: &[u8],
) -> Result<(), Refused>
    requires index { IsTrue volume.old.is_sound → HasIndexSet key_length volume.old }
    requires some { IsTrue volume.old.is_sound → 0 < (header_of volume.old.image).top }
    requires stands { IsTrue volume.old.is_sound → IsOnWayIn key_length volume.old key.now fork.level fork.stand }
    requires more { IsTrue volume.old.is_sound → 1 < length (entries_in key_length (block_at volume.old fork.stand.block)) }
    requires thin { IsTrue volume.old.is_sound → IsThinBelow (index_blocks key_length volume.old) key.now fork.level fork.stand.block }
    requires upper { 0 < fork.level }
    requires there { IsTrue volume.old.is_sound → address_of key.now (index_entries key_length volume.old) ≢ None }
    requires short { key_length ≤ 255 }
    ensures call { IsCall volume.old result volume.new }
    ensures changed { OnOk result (IsTrue volume.old.is_sound → IsKeyRemoved key_length volume.old key.now volume.new) }
    ensures refusal { OnlyDevice result }
    ensures room { volume.new.room ≡ volume.old.room }
{
    let below = step_down(volume, key_length, fork.stand, key)?;
    take_out(volume, key_length, fork.stand.block, key)?;
    drop_way(volume, key_length, fork.level - 1, below)?;
    Ok(())
}

/// The place in a block that a key leads to, and how many entries the block has.
#[derive(Clone, Copy, Debug)]
struct Spot {
    index: usize,
    count: usize,
}

/// The place in the bytes of a block that a key leads to.
fn spot_in(block: &IndexBlock, key: &[u8]) -> Spot
    ensures index { IfInOrder block.now.key_length block.now.bytes.now (result.index ≡ length (front_of key.now (entries_in block.now.key_length block.now.bytes.now))) }
    ensures count { CountFits block.now.key_length block.now.bytes.now → result.count ≡ number_at 2 block.now.bytes.now 4 }
    ensures small { result.count ≤ 65535 }
    ensures fits { entry_place block.now.key_length result.count ≤ length block.now.bytes.now }
{
    let count = block.count();
    if count == 0 {
        return Spot { index: 0, count };
    }
    Spot {
        index: block.place_of(key).min(count - 1),
        count,
    }
}

/// The place in a block of the volume that a key leads to.
fn spot_at<S: BlockStore>(
    volume: &mut Volume<S>,
    key_length: usize,
    n: u32,
    key: &[u8],
) -> Result<Spot, Refused>
    requires short { key_length ≤ 255 }
    ensures read { IsRead volume.old result volume.new }
    ensures index { IfOk result (λ spot. IsTrue volume.old.is_sound → IsInOrder key_length volume.old n → spot.index ≡ length (front_of key.now (entries_in key_length (block_at volume.old n)))) }
    ensures count { IfOk result (λ spot. IsTrue volume.old.is_sound → IsInOrder key_length volume.old n → spot.count ≡ number_at 2 (block_at volume.old n) 4) }
    ensures small { IfOk result (λ spot. spot.count ≤ 65535) }
    ensures fits { IfOk result (λ spot. entry_place key_length spot.count ≤ volume.old.size) }
    ensures refusal { OnlyDevice result }
{
    let size = volume.block_size();
    if !has_block(volume, n) {
        return Ok(Spot { index: 0, count: 0 });
    }
    let bytes = volume.block(n)?;
    if bytes.len() < FIRST || bytes.len() != size {
        return Ok(Spot { index: 0, count: 0 });
    }
    Ok(spot_in(&IndexBlock { bytes, key_length }, key))
}

/// Takes the entry that a key leads to out of a block.
fn take_out<S: BlockStore>(
    volume: &mut Volume<S>,
    key_length: usize,
    n: u32,
    key: &[u8],
) -> Result<(), Refused>
    requires formatted { IsTrue volume.old.is_sound → IsFormatted volume.old }
    requires order { IsTrue volume.old.is_sound → IsInOrder key_length volume.old n }
    requires some { IsTrue volume.old.is_sound → entries_in key_length (block_at volume.old n) ≢ [] }
    requires short { key_length ≤ 255 }
    ensures call { IsCall volume.old result volume.new }
    ensures taken { OnOk result (IsTrue volume.old.is_sound → IsEntryRemoved key_length volume.old n (length (front_of key.now (entries_in key_length (block_at volume.old n)))) volume.new) }
    ensures refusal { OnlyDevice result }
    ensures room { volume.new.room ≡ volume.old.room }
{
    let _size = volume.block_size();
    let spot = spot_at(volume, key_length, n, key)?;
    if spot.index >= spot.count {
        return Ok(());
    }
    remove_entry(volume, key_length, n, spot.index, spot.count)?;
    Ok(())
}
