ghost use Rattle.std.specs.Prelude.{◌≡◌, ◌≢◌, ◌≤◌, ◌<◌, None, length, IsTrue, IfOk, IfSome, OnOk};
ghost use Rattle.hd_dbd.specs.Refusals.{OnlyDevice};
ghost use Rattle.hd_volume.specs.Headers.{header_of};
ghost use Rattle.hd_volume.specs.Rooms.{spare};
ghost use Rattle.hd_volume.specs.Volumes.{block_at};
ghost use Rattle.hd_volume.specs.Calls.{IsCall, IsRead};
ghost use Rattle.hd_volume.specs.Entries.{entries_in};
ghost use Rattle.hd_index_blocks.specs.Fields.{below_count, entry_place};
ghost use Rattle.hd_index_blocks.specs.Searches.{IfInOrder};
ghost use Rattle.hd_index_blocks.specs.Maps.{address_of, with_address};
ghost use Rattle.hd_index_blocks.specs.IndexSets.{HasIndexSet};
ghost use Rattle.hd_index.specs.Blocks.{IsInOrder, entries_of};
ghost use Rattle.hd_index.specs.Changes.{IsIndexOf, entries_for, IsIndexChange, IsKeySet, WhereSound};
ghost use Rattle.hd_index.specs.Searches.{IsPlaceOf};

use crate::descend::leaf;
use crate::edit::set_entry_address;
use crate::look::has_block;
use hd_dbd::{Dbd, Refused};
use hd_index_blocks::{IndexBlock, root_key_length};
use hd_stores::BlockStore;
use hd_volume::Volume;

/// Where the entry of a key stands in its block: at an index, of so many.
#[derive(Clone, Copy, Debug)]
pub struct Place {
    pub index: usize,
    pub count: usize,
}

/// Sets the address at the key of a root; a key that the index does not have leaves it as it is.
pub fn set<S: BlockStore>(
    volume: &mut Volume<S>,
    dbd: &Dbd,
    key: &[u8],
    address: u32,
) -> Result<(), Refused>
    requires index { IsTrue volume.old.is_sound → IsIndexOf dbd.now volume.old }
    ensures call { IsCall volume.old result volume.new }
    ensures index { OnOk result (IsTrue volume.old.is_sound → IsIndexOf dbd.now volume.new) }
    ensures entries { OnOk result (IsTrue volume.old.is_sound → entries_for dbd.now volume.new ≡ with_address key.now address (entries_for dbd.now volume.old)) }
    ensures changed { OnOk result (IsTrue volume.old.is_sound → IsIndexChange volume.old 0 volume.new) }
    ensures spares { OnOk result (IsTrue volume.old.is_sound → spare volume.new ≡ spare volume.old) }
    ensures header { OnOk result (IsTrue volume.old.is_sound → header_of volume.new.image ≡ header_of volume.old.image) }
    ensures refusal { OnlyDevice result }
    ensures room { volume.new.room ≡ volume.old.room }
{
    let key_length = root_key_length(dbd);
    set_key(volume, key_length, key, address)
}

/// Sets the address at a key of an index for keys of a length.
fn set_key<S: BlockStore>(
    volume: &mut Volume<S>,
    key_length: usize,
    key: &[u8],
    address: u32,
) -> Result<(), Refused>
    requires index { IsTrue volume.old.is_sound → HasIndexSet key_length volume.old }
    requires short { key_length ≤ 255 }
    ensures call { IsCall volume.old result volume.new }
    ensures changed { OnOk result (IsTrue volume.old.is_sound → IsKeySet key_length volume.old key.now address volume.new) }
    ensures refusal { OnlyDevice result }
    ensures room { volume.new.room ≡ volume.old.room }
{
    let n = leaf(volume, key_length, key)?;
    if n == 0 {
        return Ok(());
    }
    let Some(place) = place_at(volume, key_length, n, key)? else {
        return Ok(());
    };
    set_entry_address(volume, key_length, n, place.index, place.count, address)
}

/// The place of the entry of a key in the bytes of a block, if it has one.
pub fn place_in(block: &IndexBlock, key: &[u8]) -> Option<Place>
    ensures none { IfInOrder block.now.key_length block.now.bytes.now (result ≡ None → address_of key.now (entries_in block.now.key_length block.now.bytes.now) ≡ None) }
    ensures place { IfSome result (λ place. IfInOrder block.now.key_length block.now.bytes.now (IsPlaceOf key.now (entries_in block.now.key_length block.now.bytes.now) place)) }
    ensures index { IfSome result (λ place. IfInOrder block.now.key_length block.now.bytes.now (place.index ≡ below_count key.now (entries_in block.now.key_length block.now.bytes.now))) }
    ensures there { IfSome result (λ place. IfInOrder block.now.key_length block.now.bytes.now (address_of key.now (entries_in block.now.key_length block.now.bytes.now) ≢ None)) }
    ensures within { IfSome result (λ place. place.index < place.count) }
    ensures small { IfSome result (λ place. place.count ≤ 65535) }
    ensures fits { IfSome result (λ place. entry_place block.now.key_length place.count ≤ length block.now.bytes.now) }
{
    let index = block.place_of(key);
    let count = block.count();
    if index >= count || block.key(index) != key {
        return None;
    }
    Some(Place { index, count })
}

/// The place of the entry of a key in a block of the volume, if it has one. A block that the volume does not have has no entry.
fn place_at<S: BlockStore>(
    volume: &mut Volume<S>,
    key_length: usize,
    n: u32,
    key: &[u8],
) -> Result<Option<Place>, Refused>
    requires short { key_length ≤ 255 }
    ensures read { IsRead volume.old result volume.new }
    ensures none { WhereSound volume.old result (λ found. IsInOrder key_length volume.old n → found ≡ None → address_of key.now (entries_in key_length (block_at volume.old n)) ≡ None) }
    ensures place { IfOk result (λ found. IfSome found (λ place. IsTrue volume.old.is_sound → IsInOrder key_length volume.old n → IsPlaceOf key.now (entries_of key_length volume.old n) place)) }
    ensures within { IfOk result (λ found. IfSome found (λ place. place.index < place.count)) }
    ensures small { IfOk result (λ found. IfSome found (λ place. place.count ≤ 65535)) }
    ensures fits { IfOk result (λ found. IfSome found (λ place. entry_place key_length place.count ≤ volume.old.size)) }
    ensures refusal { OnlyDevice result }
{
    let size = volume.block_size();
    if !has_block(volume, n) {
        return Ok(None);
    }
    let bytes = volume.block(n)?;
    if bytes.len() != size {
        return Ok(None);
    }
    Ok(place_in(&IndexBlock { bytes, key_length }, key))
}
