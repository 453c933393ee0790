ghost use Rattle.std.specs.Prelude.{◌≡◌, ◌⊎◌, ◌+◌, ◌≤◌, ◌<◌, None, IsTrue, length, IfErr, OnOk};
ghost use Rattle.hd_dbd.specs.Refusals.{OnlyRoomOrDevice};
ghost use Rattle.hd_volume.specs.Headers.{header_of};
ghost use Rattle.hd_volume.specs.Rooms.{spare, free_blocks};
ghost use Rattle.hd_volume.specs.Volumes.{IsFormatted};
ghost use Rattle.hd_volume.specs.Calls.{IsCall};
ghost use Rattle.hd_volume.specs.Indexes.{root_key_length};
ghost use Rattle.hd_index_blocks.specs.Fields.{entry_place};
ghost use Rattle.hd_index_blocks.specs.Maps.{address_of, greatest_below, with_entry};
ghost use Rattle.hd_index_blocks.specs.IndexSets.{index_entries, HasIndexSet};
ghost use Rattle.hd_index_blocks.specs.Needs.{entry_growth, needed_by, set_blocks_needed, IsHighest};
ghost use Rattle.hd_index.specs.Places.{blocks_needed};
ghost use Rattle.hd_index.specs.Changes.{IsIndexOf, entries_for, IsIndexChange, IsChanged, IsKeyEntered};
ghost use Rattle.hd_index.specs.Greatest.{IsKnownLeaf};
ghost use Rattle.hd_index.specs.Rooms.{IsReady, IsRefusedFor};

use crate::behind::enter_behind;
use crate::descend::MOST_LEVELS;
use crate::enter::enter_key;
use crate::first::insert_first;
use crate::greatest::greatest;
use crate::near::{enter_near, near};
use crate::need::{key_or, needed_at};
use crate::room::make_room;
use crate::search::is_above_all;
use hd_dbd::{Dbd, Refused};
use hd_index_blocks::root_key_length;
use hd_stores::BlockStore;
use hd_volume::Volume;

/// Enters the root of a new key.
///
/// `Full` says that there are fewer blocks to spare than it needs, or that the index has as many levels as it may have; `Memory` comes only
/// where the volume would have to grow and room for fewer is reserved.
pub fn insert<S: BlockStore>(
    volume: &mut Volume<S>,
    dbd: &Dbd,
    key: &[u8],
    address: u32,
) -> Result<(), Refused>
    requires index { IsTrue volume.old.is_sound → IsIndexOf dbd.now volume.old }
    requires size { volume.old.size ≡ dbd.now.block_size }
    requires whole { length key.now ≡ root_key_length dbd.now.types }
    requires new { IsTrue volume.old.is_sound → address_of key.now (entries_for dbd.now volume.old) ≡ None }
    ensures call { IsCall volume.old result volume.new }
    ensures index { OnOk result (IsTrue volume.old.is_sound → IsIndexOf dbd.now volume.new) }
    ensures entries { OnOk result (IsTrue volume.old.is_sound → entries_for dbd.now volume.new ≡ with_entry (record { key = key.now; address = address }) (entries_for dbd.now volume.old)) }
    ensures changed { OnOk result (IsTrue volume.old.is_sound → IsIndexChange volume.old (blocks_needed (root_key_length dbd.now.types) volume.old key.now) volume.new) }
    ensures spares { OnOk result (IsTrue volume.old.is_sound → spare volume.old ≤ spare volume.new + blocks_needed (root_key_length dbd.now.types) volume.old key.now) }
    ensures kept { IfErr result (λ _. IsTrue volume.new.is_sound → volume.new.image ≡ volume.old.image) }
    ensures full { IfErr result (λ e. e ≡ Refused.Full → IsTrue volume.old.is_sound → (spare volume.old < blocks_needed (root_key_length dbd.now.types) volume.old key.now) ⊎ IsHighest volume.old) }
    ensures memory { IfErr result (λ e. e ≡ Refused.Memory → IsTrue volume.old.is_sound → volume.old.room < entry_growth volume.old) }
    ensures few { IfErr result (λ e. e ≡ Refused.Memory → IsTrue volume.old.is_sound → free_blocks volume.old < entry_growth volume.old) }
    ensures refusal { OnlyRoomOrDevice result }
    ensures room { IsTrue volume.old.is_sound → IsTrue volume.new.is_sound → volume.old.room ≤ volume.new.room + entry_growth volume.old }
{
    let key_length = root_key_length(dbd);
    insert_key(volume, key_length, key, address)
}

/// Enters a new key of the index's length.
fn insert_key<S: BlockStore>(
    volume: &mut Volume<S>,
    key_length: usize,
    key: &[u8],
    address: u32,
) -> Result<(), Refused>
    requires index { IsTrue volume.old.is_sound → HasIndexSet key_length volume.old }
    requires new { IsTrue volume.old.is_sound → address_of key.now (index_entries key_length volume.old) ≡ None }
    requires whole { length key.now ≡ key_length }
    requires short { key_length ≤ 255 }
    requires three { entry_place key_length 3 ≤ volume.old.size }
    ensures call { IsCall volume.old result volume.new }
    ensures changed { OnOk result (IsTrue volume.old.is_sound → IsKeyEntered key_length volume.old key.now address (set_blocks_needed key_length volume.old key.now) volume.new) }
    ensures kept { IfErr result (λ _. IsTrue volume.new.is_sound → volume.new.image ≡ volume.old.image) }
    ensures refused { IfErr result (λ e. IsTrue volume.old.is_sound → IsRefusedFor (set_blocks_needed key_length volume.old key.now) volume.old e) }
    ensures refusal { OnlyRoomOrDevice result }
    ensures room { IsTrue volume.old.is_sound → IsTrue volume.new.is_sound → volume.old.room ≤ volume.new.room + set_blocks_needed key_length volume.old key.now }
{
    if volume.top() == 0 {
        return insert_first(volume, key, address);
    }
    let noted = volume.noted_block();
    let Some(place) = near(volume, noted, key)? else {
        return insert_below(volume, key_length, key, address);
    };
    enter_near(volume, noted, place, key, address)
}

/// Enters a new key where the greatest key below it leads, or it itself where it is the least.
fn insert_below<S: BlockStore>(
    volume: &mut Volume<S>,
    key_length: usize,
    key: &[u8],
    address: u32,
) -> Result<(), Refused>
    requires index { IsTrue volume.old.is_sound → HasIndexSet key_length volume.old }
    requires some { IsTrue volume.old.is_sound → 0 < (header_of volume.old.image).top }
    requires new { IsTrue volume.old.is_sound → address_of key.now (index_entries key_length volume.old) ≡ None }
    requires whole { length key.now ≡ key_length }
    requires short { key_length ≤ 255 }
    requires three { entry_place key_length 3 ≤ volume.old.size }
    ensures call { IsCall volume.old result volume.new }
    ensures changed { OnOk result (IsTrue volume.old.is_sound → IsKeyEntered key_length volume.old key.now address (set_blocks_needed key_length volume.old key.now) volume.new) }
    ensures kept { IfErr result (λ _. IsTrue volume.new.is_sound → volume.new.image ≡ volume.old.image) }
    ensures refused { IfErr result (λ e. IsTrue volume.old.is_sound → IsRefusedFor (set_blocks_needed key_length volume.old key.now) volume.old e) }
    ensures refusal { OnlyRoomOrDevice result }
    ensures room { IsTrue volume.old.is_sound → IsTrue volume.new.is_sound → volume.old.room ≤ volume.new.room + set_blocks_needed key_length volume.old key.now }
{
    let mut found = [0; 255];
    let below = greatest(volume, key_length, key, &mut found)?;
    let by = key_or(below.is_some, &found, key_length, key);
    insert_by(volume, key_length, below.leaf, by, key, address)
}

/// Enters a new key down by the greatest key below it, or by itself where it is the least, which leads to
/// this block of the sequence set if it is not 0.
fn insert_by<S: BlockStore>(
    volume: &mut Volume<S>,
    key_length: usize,
    leaf: u32,
    by: &[u8],
    key: &[u8],
    address: u32,
) -> Result<(), Refused>
    requires index { IsTrue volume.old.is_sound → HasIndexSet key_length volume.old }
    requires some { IsTrue volume.old.is_sound → 0 < (header_of volume.old.image).top }
    requires new { IsTrue volume.old.is_sound → address_of key.now (index_entries key_length volume.old) ≡ None }
    requires by { IsTrue volume.old.is_sound → by.now ≡ greatest_below key.now key.now (index_entries key_length volume.old) }
    requires leaf { IsTrue volume.old.is_sound → IsKnownLeaf key_length volume.old by.now leaf }
    requires by_whole { length by.now ≡ key_length }
    requires whole { length key.now ≡ key_length }
    requires short { key_length ≤ 255 }
    requires three { entry_place key_length 3 ≤ volume.old.size }
    ensures call { IsCall volume.old result volume.new }
    ensures changed { OnOk result (IsTrue volume.old.is_sound → IsKeyEntered key_length volume.old key.now address (needed_by key_length volume.old by.now) volume.new) }
    ensures kept { IfErr result (λ _. IsTrue volume.new.is_sound → volume.new.image ≡ volume.old.image) }
    ensures refused { IfErr result (λ e. IsTrue volume.old.is_sound → IsRefusedFor (needed_by key_length volume.old by.now) volume.old e) }
    ensures refusal { OnlyRoomOrDevice result }
    ensures room { IsTrue volume.old.is_sound → IsTrue volume.new.is_sound → volume.old.room ≤ volume.new.room + needed_by key_length volume.old by.now }
{
    let needed = needed_at(volume, key_length, leaf, by)?;
    prepare(volume, needed)?;
    enter_prepared(volume, key_length, by, needed, key, address)
}

/// Enters a new key where so many blocks are needed for it and may be taken; nothing is refused but an access.
fn enter_prepared<S: BlockStore>(
    volume: &mut Volume<S>,
    key_length: usize,
    by: &[u8],
    needed: u32,
    key: &[u8],
    address: u32,
) -> Result<(), Refused>
    requires index { IsTrue volume.old.is_sound → HasIndexSet key_length volume.old }
    requires some { IsTrue volume.old.is_sound → 0 < (header_of volume.old.image).top }
    requires new { IsTrue volume.old.is_sound → address_of key.now (index_entries key_length volume.old) ≡ None }
    requires by { IsTrue volume.old.is_sound → by.now ≡ greatest_below key.now key.now (index_entries key_length volume.old) }
    requires needed { IsTrue volume.old.is_sound → needed ≡ needed_by key_length volume.old by.now }
    requires ready { IsTrue volume.old.is_sound → IsReady needed volume.old }
    requires few { needed ≤ 64 }
    requires by_whole { length by.now ≡ key_length }
    requires whole { length key.now ≡ key_length }
    requires short { key_length ≤ 255 }
    requires three { entry_place key_length 3 ≤ volume.old.size }
    ensures call { IsCall volume.old result volume.new }
    ensures changed { OnOk result (IsTrue volume.old.is_sound → IsKeyEntered key_length volume.old key.now address needed volume.new) }
    ensures device { IfErr result (λ e. IsTrue volume.old.is_sound → e ≡ Refused.Device) }
    ensures refusal { OnlyRoomOrDevice result }
    ensures room { IsTrue volume.new.is_sound → volume.old.room ≤ volume.new.room + needed }
{
    if needed == 0 {
        return enter_key(volume, key_length, by, key, address);
    }
    make_rooms(volume, key_length, by, needed - 1)?;
    enter_one(volume, key_length, by, key, address)
}

/// Enters a new key where one block is needed: where it is above all keys it gets the block, else a block is divided.
fn enter_one<S: BlockStore>(
    volume: &mut Volume<S>,
    key_length: usize,
    by: &[u8],
    key: &[u8],
    address: u32,
) -> Result<(), Refused>
    requires index { IsTrue volume.old.is_sound → HasIndexSet key_length volume.old }
    requires some { IsTrue volume.old.is_sound → 0 < (header_of volume.old.image).top }
    requires new { IsTrue volume.old.is_sound → address_of key.now (index_entries key_length volume.old) ≡ None }
    requires by { IsTrue volume.old.is_sound → by.now ≡ greatest_below key.now key.now (index_entries key_length volume.old) }
    requires needed { IsTrue volume.old.is_sound → needed_by key_length volume.old by.now ≡ 1 }
    requires ready { IsTrue volume.old.is_sound → IsReady 1 volume.old }
    requires by_whole { length by.now ≡ key_length }
    requires whole { length key.now ≡ key_length }
    requires short { key_length ≤ 255 }
    requires three { entry_place key_length 3 ≤ volume.old.size }
    ensures call { IsCall volume.old result volume.new }
    ensures changed { OnOk result (IsTrue volume.old.is_sound → IsKeyEntered key_length volume.old key.now address 1 volume.new) }
    ensures device { IfErr result (λ e. IsTrue volume.old.is_sound → e ≡ Refused.Device) }
    ensures refusal { OnlyRoomOrDevice result }
    ensures room { IsTrue volume.new.is_sound → volume.old.room ≤ volume.new.room + 1 }
{
    let above = is_above_all(volume, key_length, key)?;
    if above {
        return enter_behind(volume, key_length, by, key, address);
    }
    divide_and_enter(volume, key_length, by, key, address)
}

/// Divides a block for a new key, and enters it.
fn divide_and_enter<S: BlockStore>(
    volume: &mut Volume<S>,
    key_length: usize,
    by: &[u8],
    key: &[u8],
    address: u32,
) -> Result<(), Refused>
    requires index { IsTrue volume.old.is_sound → HasIndexSet key_length volume.old }
    requires some { IsTrue volume.old.is_sound → 0 < (header_of volume.old.image).top }
    requires new { IsTrue volume.old.is_sound → address_of key.now (index_entries key_length volume.old) ≡ None }
    requires by { IsTrue volume.old.is_sound → by.now ≡ greatest_below key.now key.now (index_entries key_length volume.old) }
    requires needed { IsTrue volume.old.is_sound → needed_by key_length volume.old by.now ≡ 1 }
    requires ready { IsTrue volume.old.is_sound → IsReady 1 volume.old }
    requires by_whole { length by.now ≡ key_length }
    requires whole { length key.now ≡ key_length }
    requires short { key_length ≤ 255 }
    requires three { entry_place key_length 3 ≤ volume.old.size }
    ensures call { IsCall volume.old result volume.new }
    ensures changed { OnOk result (IsTrue volume.old.is_sound → IsKeyEntered key_length volume.old key.now address 1 volume.new) }
    ensures device { IfErr result (λ e. IsTrue volume.old.is_sound → e ≡ Refused.Device) }
    ensures refusal { OnlyRoomOrDevice result }
    ensures room { IsTrue volume.new.is_sound → volume.old.room ≤ volume.new.room + 1 }
{
    make_room(volume, key_length, by)?;
    enter_key(volume, key_length, by, key, address)
}

/// How many blocks are free.
fn free_blocks<S: BlockStore>(volume: &Volume<S>) -> u32
    requires formatted { IsTrue volume.now.is_sound → IsFormatted volume.now }
    ensures { IsTrue volume.now.is_sound → result ≡ free_blocks volume.now }
{
    let growth = volume.largest_count().saturating_sub(volume.block_count());
    volume.spare().saturating_sub(growth)
}

/// Makes sure, before the first write, that so many blocks may be taken.
fn prepare<S: BlockStore>(volume: &mut Volume<S>, needed: u32) -> Result<(), Refused>
    requires formatted { IsTrue volume.old.is_sound → IsFormatted volume.old }
    ensures call { IsCall volume.old result volume.new }
    ensures image { IsTrue volume.new.is_sound → volume.new.image ≡ volume.old.image }
    ensures ready { OnOk result (IsTrue volume.old.is_sound → IsReady needed volume.new) }
    ensures few { OnOk result (needed ≤ 64) }
    ensures refused { IfErr result (λ e. IsTrue volume.old.is_sound → IsRefusedFor needed volume.old e) }
    ensures refusal { OnlyRoomOrDevice result }
    ensures room { volume.old.room ≤ volume.new.room }
{
    if needed > MOST_LEVELS || volume.spare() < needed {
        return Err(Refused::Full);
    }
    if free_blocks(volume) < needed {
        volume.reserve(needed)?;
    }
    Ok(())
}

/// Takes so many of the blocks that an entry needs where a key leads; nothing is refused but an access.
fn make_rooms<S: BlockStore>(
    volume: &mut Volume<S>,
    key_length: usize,
    by: &[u8],
    taken: u32,
) -> Result<(), Refused>
    requires index { IsTrue volume.old.is_sound → HasIndexSet key_length volume.old }
    requires some { IsTrue volume.old.is_sound → 0 < (header_of volume.old.image).top }
    requires taken { IsTrue volume.old.is_sound → taken ≤ needed_by key_length volume.old by.now }
    requires ready { IsTrue volume.old.is_sound → IsReady (needed_by key_length volume.old by.now) volume.old }
    requires few { IsTrue volume.old.is_sound → needed_by key_length volume.old by.now ≤ 64 }
    requires whole { length by.now ≡ key_length }
    requires short { key_length ≤ 255 }
    requires three { entry_place key_length 3 ≤ volume.old.size }
    ensures call { IsCall volume.old result volume.new }
    ensures changed { OnOk result (IsTrue volume.old.is_sound → IsChanged key_length volume.old (index_entries key_length volume.old) taken volume.new) }
    ensures some { OnOk result (IsTrue volume.old.is_sound → 0 < (header_of volume.new.image).top) }
    ensures left { OnOk result (IsTrue volume.old.is_sound → needed_by key_length volume.new by.now + taken ≡ needed_by key_length volume.old by.now) }
    ensures still { OnOk result (IsTrue volume.old.is_sound → IsReady (needed_by key_length volume.new by.now) volume.new) }
    ensures device { IfErr result (λ e. IsTrue volume.old.is_sound → e ≡ Refused.Device) }
    ensures refusal { OnlyRoomOrDevice result }
    ensures room { IsTrue volume.new.is_sound → volume.old.room ≤ volume.new.room + taken }
{
    for _ in 0..taken {
        make_room(volume, key_length, by)?;
    }
    Ok(())
}
