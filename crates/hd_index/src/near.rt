ghost use Rattle.std.specs.Prelude.{◌≡◌, ◌≤◌, ◌<◌, None, IsTrue, IfOk, IfSome, OnOk, length};
ghost use Rattle.hd_dbd.specs.Refusals.{OnlyDevice};
ghost use Rattle.hd_volume.specs.Calls.{IsCall, IsRead};
ghost use Rattle.hd_volume.specs.Indexes.{entry_room};
ghost use Rattle.hd_index_blocks.specs.Fields.{entry_place};
ghost use Rattle.hd_index_blocks.specs.Searches.{IfInOrder};
ghost use Rattle.hd_index_blocks.specs.Maps.{address_of};
ghost use Rattle.hd_index_blocks.specs.IndexSets.{index_entries, HasIndexSet};
ghost use Rattle.hd_index_blocks.specs.Needs.{set_blocks_needed};
ghost use Rattle.hd_index.specs.declared.address.Place.{Place};
ghost use Rattle.hd_index.specs.Nearness.{IsNearIn, IsNear, IsSpareIn, IsSpare};
ghost use Rattle.hd_index.specs.Changes.{IsKeyEntered};

use crate::address::{Place, place_in};
use crate::edit::add_entry;
use crate::enter::enter_key;
use crate::greatest::last_in;
use crate::look::has_block;
use hd_dbd::Refused;
use hd_index_blocks::{IndexBlock, entry_room};
use hd_stores::BlockStore;
use hd_volume::{INDEX, Volume};

/// Where a key comes in a block of level 0 that has room: behind an entry, and before another where a block follows.
fn near_in(block: &IndexBlock, key: &[u8]) -> Option<Place>
    ensures near { IfSome result (λ place. IfInOrder block.now.key_length block.now.bytes.now (IsNearIn block.now.key_length block.now.bytes.now key.now place)) }
    ensures within { IfSome result (λ place. place.index ≤ place.count) }
    ensures room { IfSome result (λ place. place.count < entry_room block.now.key_length (length block.now.bytes.now)) }
    ensures small { IfSome result (λ place. place.count ≤ 65535) }
{
    let count = block.count();
    if block.level() != 0 || count >= entry_room(block.key_length, block.bytes.len()) {
        return None;
    }
    let index = block.place_of(key);
    if index == 0 {
        return None;
    }
    if index < count {
        return Some(Place { index, count });
    }
    if block.next() != 0 {
        return None;
    }
    Some(Place { index, count })
}

/// Where a new key comes in a block, if that is one of the sequence set with room and alone tells that the key comes into it.
pub fn near<S: BlockStore>(
    volume: &mut Volume<S>,
    n: u32,
    key: &[u8],
) -> Result<Option<Place>, Refused>
    requires short { length key.now ≤ 255 }
    ensures read { IsRead volume.old result volume.new }
    ensures near { IfOk result (λ found. IfSome found (λ place. IsTrue volume.old.is_sound → HasIndexSet (length key.now) volume.old → IsNear (length key.now) volume.old key.now n place)) }
    ensures within { IfOk result (λ found. IfSome found (λ place. place.index ≤ place.count)) }
    ensures room { IfOk result (λ found. IfSome found (λ place. place.count < entry_room (length key.now) volume.old.size)) }
    ensures refusal { OnlyDevice result }
{
    if n == 0 || !has_block(volume, n) || volume.kind(n) != INDEX {
        return Ok(None);
    }
    let size = volume.block_size();
    let bytes = volume.block(n)?;
    if bytes.len() != size {
        return Ok(None);
    }
    let key_length = key.len();
    Ok(near_in(&IndexBlock { bytes, key_length }, key))
}

/// Enters a new key at a place in a block of the sequence set that has room. Before another entry no upper key of the way is below it; behind
/// all of the index each is raised to it.
pub fn enter_near<S: BlockStore>(
    volume: &mut Volume<S>,
    n: u32,
    place: Place,
    key: &[u8],
    address: u32,
) -> Result<(), Refused>
    requires index { IsTrue volume.old.is_sound → HasIndexSet (length key.now) volume.old }
    requires new { IsTrue volume.old.is_sound → address_of key.now (index_entries (length key.now) volume.old) ≡ None }
    requires near { IsTrue volume.old.is_sound → IsNear (length key.now) volume.old key.now n place }
    requires within { place.index ≤ place.count }
    requires room { place.count < entry_room (length key.now) volume.old.size }
    requires short { length key.now ≤ 255 }
    requires three { entry_place (length key.now) 3 ≤ volume.old.size }
    ensures call { IsCall volume.old result volume.new }
    ensures changed { OnOk result (IsTrue volume.old.is_sound → IsKeyEntered (length key.now) volume.old key.now address (set_blocks_needed (length key.now) volume.old key.now) volume.new) }
    ensures refusal { OnlyDevice result }
    ensures room { volume.new.room ≡ volume.old.room }
{
    if place.index < place.count {
        let _room = entry_room(key.len(), volume.block_size());
        return add_entry(volume, n, place.index, place.count, key, address);
    }
    let mut found = [0; 255];
    last_in(volume, key.len(), n, &mut found)?;
    enter_key(volume, key.len(), &found[..key.len()], key, address)
}

/// Where the entry of a key stands in a block of level 0 that has another one too.
fn spare_in(block: &IndexBlock, key: &[u8]) -> Option<Place>
    ensures spare { IfSome result (λ place. IfInOrder block.now.key_length block.now.bytes.now (IsSpareIn block.now.key_length block.now.bytes.now key.now place)) }
    ensures within { IfSome result (λ place. place.index < place.count) }
    ensures small { IfSome result (λ place. place.count ≤ 65535) }
    ensures fits { IfSome result (λ place. entry_place block.now.key_length place.count ≤ length block.now.bytes.now) }
{
    if block.level() != 0 || block.count() < 2 {
        return None;
    }
    place_in(block, key)
}

/// Where the entry of a key stands in a block, if that is one of the sequence set with the key and another one.
pub fn spare<S: BlockStore>(
    volume: &mut Volume<S>,
    key_length: usize,
    n: u32,
    key: &[u8],
) -> Result<Option<Place>, Refused>
    requires short { key_length ≤ 255 }
    ensures read { IsRead volume.old result volume.new }
    ensures spare { IfOk result (λ found. IfSome found (λ place. IsTrue volume.old.is_sound → HasIndexSet key_length volume.old → IsSpare key_length volume.old key.now n place)) }
    ensures within { IfOk result (λ found. IfSome found (λ place. place.index < place.count)) }
    ensures small { IfOk result (λ found. IfSome found (λ place. place.count ≤ 65535)) }
    ensures fits { IfOk result (λ found. IfSome found (λ place. entry_place key_length place.count ≤ volume.old.size)) }
    ensures refusal { OnlyDevice result }
{
    if n == 0 || !has_block(volume, n) || volume.kind(n) != INDEX {
        return Ok(None);
    }
    let size = volume.block_size();
    let bytes = volume.block(n)?;
    if bytes.len() != size {
        return Ok(None);
    }
    Ok(spare_in(&IndexBlock { bytes, key_length }, key))
}
