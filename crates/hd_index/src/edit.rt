ghost use Rattle.std.specs.Prelude.{◌≡◌, ℕ, ◌+◌, ◌≤◌, ◌<◌, IsTrue, length, take, OnOk};
ghost use Rattle.hd_bytes.specs.Numbers.{number_at};
ghost use Rattle.hd_dbd.specs.Refusals.{OnlyDevice};
ghost use Rattle.hd_volume.specs.Volumes.{IsFormatted, IsKind, block_at};
ghost use Rattle.hd_volume.specs.Calls.{IsCall};
ghost use Rattle.hd_volume.specs.Indexes.{entry_room};
ghost use Rattle.hd_index_blocks.specs.Fields.{entry_place};
ghost use Rattle.hd_index.specs.EditedBlocks.{IsIndexBlock};
ghost use Rattle.hd_index.specs.Edits.{IsEntryAdded, IsEntryRemoved, IsKeyChanged, IsAddressChanged, IsNextChanged};

use crate::bytes::{copy_down, four_bytes, move_up, two_bytes, write_part};
use hd_bytes::write_u32;
use hd_dbd::Refused;
use hd_index_blocks::{ADDRESS, COUNT, NEXT, entry_place};
use hd_stores::BlockStore;
use hd_volume::Volume;

/// Puts the bytes of an entry at the front of some bytes: its key and its address.
fn put_entry(key: &[u8], address: u32, entry: &mut [u8; 259])
    requires short { length key.now ≤ 255 }
    ensures len { length entry.new ≡ 259 }
    ensures key { take (length key.now) entry.new ≡ key.now }
    ensures address { number_at 4 entry.new (length key.now) ≡ address }
{
    entry[..key.len()].copy_from_slice(key);
    write_u32(entry, key.len(), address);
}

/// Puts an entry into a block, before the entry at an index.
pub fn add_entry<S: BlockStore>(
    volume: &mut Volume<S>,
    n: u32,
    index: usize,
    count: usize,
    key: &[u8],
    address: u32,
) -> Result<(), Refused>
    requires formatted { IsTrue volume.old.is_sound → IsFormatted volume.old }
    requires block { IsTrue volume.old.is_sound → IsIndexBlock (length key.now) volume.old n }
    requires count { IsTrue volume.old.is_sound → number_at 2 (block_at volume.old n) 4 ≡ count }
    requires index { index ≤ count }
    requires short { length key.now ≤ 255 }
    requires small { count ≤ 65534 }
    requires most { volume.old.size ≤ 32768 }
    requires room { count < entry_room (length key.now) volume.old.size }
    requires fits { entry_place (length key.now) (count + 1) ≤ volume.old.size }
    ensures call { IsCall volume.old result volume.new }
    ensures added { OnOk result (IsTrue volume.old.is_sound → IsEntryAdded volume.old n index key.now address volume.new) }
    ensures refusal { OnlyDevice result }
    ensures room { volume.new.room ≡ volume.old.room }
{
    let width = key.len() + ADDRESS;
    let place = entry_place(key.len(), index);
    let mut entry = [0; 259];
    put_entry(key, address, &mut entry);
    move_up(volume, n, place, place + width, (count - index) * width)?;
    write_part(volume, n, place, &entry[..width])?;
    write_part(volume, n, COUNT, &two_bytes((count + 1) as u16))
}

/// Takes the entry at an index out of a block.
pub fn remove_entry<S: BlockStore>(
    volume: &mut Volume<S>,
    key_length: usize,
    n: u32,
    index: usize,
    count: usize,
) -> Result<(), Refused>
    requires formatted { IsTrue volume.old.is_sound → IsFormatted volume.old }
    requires block { IsTrue volume.old.is_sound → IsIndexBlock key_length volume.old n }
    requires count { IsTrue volume.old.is_sound → number_at 2 (block_at volume.old n) 4 ≡ count }
    requires index { index < count }
    requires short { key_length ≤ 255 }
    requires small { count ≤ 65535 }
    requires most { volume.old.size ≤ 32768 }
    requires fits { entry_place key_length count ≤ volume.old.size }
    ensures call { IsCall volume.old result volume.new }
    ensures taken { OnOk result (IsTrue volume.old.is_sound → IsEntryRemoved key_length volume.old n index volume.new) }
    ensures refusal { OnlyDevice result }
    ensures room { volume.new.room ≡ volume.old.room }
{
    let width = key_length + ADDRESS;
    let place = entry_place(key_length, index);
    copy_down(
        volume,
        n,
        place + width,
        n,
        place,
        (count - (index + 1)) * width,
    )?;
    write_part(volume, n, COUNT, &two_bytes((count - 1) as u16))
}

/// Gives the entry of a block at an index another key; its address stays.
pub fn set_entry_key<S: BlockStore>(
    volume: &mut Volume<S>,
    n: u32,
    index: usize,
    count: usize,
    key: &[u8],
) -> Result<(), Refused>
    requires formatted { IsTrue volume.old.is_sound → IsFormatted volume.old }
    requires block { IsTrue volume.old.is_sound → IsIndexBlock (length key.now) volume.old n }
    requires count { IsTrue volume.old.is_sound → number_at 2 (block_at volume.old n) 4 ≡ count }
    requires index { index < count }
    requires short { length key.now ≤ 255 }
    requires small { count ≤ 65535 }
    requires fits { entry_place (length key.now) count ≤ volume.old.size }
    ensures call { IsCall volume.old result volume.new }
    ensures changed { OnOk result (IsTrue volume.old.is_sound → IsKeyChanged volume.old n index key.now volume.new) }
    ensures refusal { OnlyDevice result }
    ensures room { volume.new.room ≡ volume.old.room }
{
    write_part(volume, n, entry_place(key.len(), index), key)
}

/// Gives the entry of a block at an index another address; its key stays.
pub fn set_entry_address<S: BlockStore>(
    volume: &mut Volume<S>,
    key_length: usize,
    n: u32,
    index: usize,
    count: usize,
    address: u32,
) -> Result<(), Refused>
    requires formatted { IsTrue volume.old.is_sound → IsFormatted volume.old }
    requires block { IsTrue volume.old.is_sound → IsIndexBlock key_length volume.old n }
    requires count { IsTrue volume.old.is_sound → number_at 2 (block_at volume.old n) 4 ≡ count }
    requires index { index < count }
    requires short { key_length ≤ 255 }
    requires small { count ≤ 65535 }
    requires fits { entry_place key_length count ≤ volume.old.size }
    ensures call { IsCall volume.old result volume.new }
    ensures changed { OnOk result (IsTrue volume.old.is_sound → IsAddressChanged key_length volume.old n index address volume.new) }
    ensures refusal { OnlyDevice result }
    ensures room { volume.new.room ≡ volume.old.room }
{
    let place = entry_place(key_length, index) + key_length;
    write_part(volume, n, place, &four_bytes(address))
}

/// Names another block behind a block, 0 for none.
pub fn set_next<S: BlockStore>(volume: &mut Volume<S>, n: u32, next: u32) -> Result<(), Refused>
    requires formatted { IsTrue volume.old.is_sound → IsFormatted volume.old }
    requires there { IsTrue volume.old.is_sound → IsKind volume.old 2 n }
    requires least { 128 ≤ volume.old.size }
    ensures call { IsCall volume.old result volume.new }
    ensures changed { OnOk result (IsTrue volume.old.is_sound → (key_length : ℕ) → IsIndexBlock key_length volume.old n → IsNextChanged key_length volume.old n next volume.new) }
    ensures refusal { OnlyDevice result }
    ensures room { volume.new.room ≡ volume.old.room }
{
    write_part(volume, n, NEXT, &four_bytes(next))
}
