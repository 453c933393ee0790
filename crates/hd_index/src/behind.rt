ghost use Rattle.std.specs.Prelude.{◌≡◌, ◌+◌, ◌≤◌, ◌<◌, ℕ, None, IsTrue, length, IfOk, IfErr, OnOk};
ghost use Rattle.hd_dbd.specs.Refusals.{OnlyRoomOrDevice};
ghost use Rattle.hd_volume.specs.Headers.{header_of};
ghost use Rattle.hd_volume.specs.Volumes.{IsFormatted, block_at};
ghost use Rattle.hd_volume.specs.Calls.{IsCall};
ghost use Rattle.hd_volume.specs.Indexes.{entry_room};
ghost use Rattle.hd_index_blocks.specs.Fields.{entry_place};
ghost use Rattle.hd_index_blocks.specs.Maps.{address_of, greatest_below};
ghost use Rattle.hd_index_blocks.specs.Levels.{AreBelow};
ghost use Rattle.hd_index_blocks.specs.IndexSets.{index_entries, HasIndexSet};
ghost use Rattle.hd_index_blocks.specs.Needs.{needed_by};
ghost use Rattle.hd_index.specs.EditedBlocks.{IsLevelBlock};
ghost use Rattle.hd_index.specs.Edits.{IsBegun, IsRefused};
ghost use Rattle.hd_index.specs.Changes.{IsKeyEntered};
ghost use Rattle.hd_index.specs.Comings.{MayCome};
ghost use Rattle.hd_index.specs.Divisions.{IsEntryAt, IsLowestRoom};
ghost use Rattle.hd_index.specs.Rooms.{IsReady};
ghost use Rattle.hd_index.specs.Behind.{IsHungBehind};

use crate::begin::begin_block;
use crate::descend::{MOST_LEVELS, descend};
use crate::divisions::{Lead, front_of, lead_of};
use crate::edit::{add_entry, set_entry_key, set_next};
use crate::enter::come_down;
use hd_dbd::Refused;
use hd_index_blocks::entry_room;
use hd_stores::BlockStore;
use hd_volume::Volume;

/// Begins a last block of the sequence set, with one entry, and notes it: the next new key may come there too.
fn begin_last<S: BlockStore>(
    volume: &mut Volume<S>,
    key: &[u8],
    address: u32,
) -> Result<u32, Refused>
    requires formatted { IsTrue volume.old.is_sound → IsFormatted volume.old }
    requires short { length key.now ≤ 255 }
    requires least { 128 ≤ volume.old.size }
    requires most { volume.old.size ≤ 32768 }
    requires fits { entry_place (length key.now) 1 ≤ volume.old.size }
    ensures call { IsCall volume.old result volume.new }
    ensures begun { IfOk result (λ m. IsTrue volume.old.is_sound → IsBegun volume.old 0 m key.now address 0 volume.new) }
    ensures refused { IfErr result (λ e. IsRefused volume.old e volume.new) }
    ensures room { IsTrue volume.new.is_sound → volume.old.room ≤ volume.new.room + 1 }
{
    let m = begin_block(volume, 0, key, address, 0)?;
    volume.note_block(m);
    Ok(m)
}

/// Hangs a new block with one entry behind the last block of the sequence set, under its parent, which has room.
fn hang_behind<S: BlockStore>(
    volume: &mut Volume<S>,
    p: u32,
    lead: Lead,
    last: &[u8],
    key: &[u8],
    address: u32,
) -> Result<(), Refused>
    requires formatted { IsTrue volume.old.is_sound → IsFormatted volume.old }
    requires upper { IsTrue volume.old.is_sound → IsLevelBlock (length key.now) volume.old 1 p }
    requires lower { IsTrue volume.old.is_sound → IsLevelBlock (length key.now) volume.old 0 lead.child }
    requires lead { IsTrue volume.old.is_sound → IsEntryAt (length key.now) (block_at volume.old p) lead }
    requires index { lead.index < lead.count }
    requires free { lead.count < entry_room (length key.now) volume.old.size }
    requires lead_fits { entry_place (length key.now) (lead.count + 1) ≤ volume.old.size }
    requires one_fits { entry_place (length key.now) 1 ≤ volume.old.size }
    requires whole { length last.now ≡ length key.now }
    requires short { length key.now ≤ 255 }
    requires least { 128 ≤ volume.old.size }
    requires most { volume.old.size ≤ 32768 }
    ensures call { IsCall volume.old result volume.new }
    ensures hung { OnOk result (IsTrue volume.old.is_sound → IsHungBehind (length key.now) volume.old p lead last.now (record { key = key.now; address = address }) volume.new) }
    ensures refused { IfErr result (λ e. IsRefused volume.old e volume.new) }
    ensures room { IsTrue volume.new.is_sound → volume.old.room ≤ volume.new.room + 1 }
{
    let m = begin_last(volume, key, address)?;
    set_next(volume, lead.child, m)?;
    set_entry_key(volume, p, lead.index, lead.count, last)?;
    add_entry(
        volume,
        p,
        lead.index + 1,
        lead.count,
        front_of(&lead.key, key.len()),
        m,
    )
}

/// Hangs a new block behind the last block of the sequence set, under its parent, where the key that leads is the last one.
fn hang_at<S: BlockStore>(
    volume: &mut Volume<S>,
    p: u32,
    by: &[u8],
    key: &[u8],
    address: u32,
) -> Result<(), Refused>
    requires index { IsTrue volume.old.is_sound → HasIndexSet (length key.now) volume.old }
    requires some { IsTrue volume.old.is_sound → 0 < (header_of volume.old.image).top }
    requires lowest { IsTrue volume.old.is_sound → IsLowestRoom (length key.now) volume.old by.now 0 p }
    requires may { IsTrue volume.old.is_sound → (n : ℕ) × MayCome (length key.now) volume.old key.now by.now 0 n }
    requires behind { IsTrue volume.old.is_sound → AreBelow key.now (index_entries (length key.now) volume.old) }
    requires whole { length by.now ≡ length key.now }
    requires short { length key.now ≤ 255 }
    requires three { entry_place (length key.now) 3 ≤ volume.old.size }
    ensures call { IsCall volume.old result volume.new }
    ensures changed { OnOk result (IsTrue volume.old.is_sound → IsKeyEntered (length key.now) volume.old key.now address 1 volume.new) }
    ensures refused { IfErr result (λ e. IsRefused volume.old e volume.new) }
    ensures room { IsTrue volume.new.is_sound → volume.old.room ≤ volume.new.room + 1 }
{
    let room = entry_room(key.len(), volume.block_size());
    let lead = lead_of(volume, key.len(), p, by)?;
    if lead.index >= lead.count || lead.count >= room {
        return Ok(());
    }
    hang_behind(volume, p, lead, by, key, address)
}

/// Hangs a new block behind the last block of the sequence set, where the upper keys above it are not below the new key.
fn hang_last<S: BlockStore>(
    volume: &mut Volume<S>,
    by: &[u8],
    key: &[u8],
    address: u32,
) -> Result<(), Refused>
    requires index { IsTrue volume.old.is_sound → HasIndexSet (length key.now) volume.old }
    requires some { IsTrue volume.old.is_sound → 0 < (header_of volume.old.image).top }
    requires may { IsTrue volume.old.is_sound → (n : ℕ) × MayCome (length key.now) volume.old key.now by.now 0 n }
    requires behind { IsTrue volume.old.is_sound → AreBelow key.now (index_entries (length key.now) volume.old) }
    requires needed { IsTrue volume.old.is_sound → needed_by (length key.now) volume.old by.now ≡ 1 }
    requires whole { length by.now ≡ length key.now }
    requires short { length key.now ≤ 255 }
    requires three { entry_place (length key.now) 3 ≤ volume.old.size }
    ensures call { IsCall volume.old result volume.new }
    ensures changed { OnOk result (IsTrue volume.old.is_sound → IsKeyEntered (length key.now) volume.old key.now address 1 volume.new) }
    ensures refused { IfErr result (λ e. IsRefused volume.old e volume.new) }
    ensures room { IsTrue volume.new.is_sound → volume.old.room ≤ volume.new.room + 1 }
{
    let top = volume.top();
    let height = volume.height();
    if height < 2 || height > MOST_LEVELS {
        return Ok(());
    }
    let p = descend(volume, key.len(), height - 2, top, by)?;
    hang_at(volume, p, by, key, address)
}

/// Enters a new key above all others where one block is needed: it gets a block of its own behind the last one of the sequence set,
/// and each upper key of the way that is below it is raised to it.
pub fn enter_behind<S: BlockStore>(
    volume: &mut Volume<S>,
    key_length: usize,
    by: &[u8],
    key: &[u8],
    address: u32,
) -> Result<(), Refused>
    requires index { IsTrue volume.old.is_sound → HasIndexSet key_length volume.old }
    requires some { IsTrue volume.old.is_sound → 0 < (header_of volume.old.image).top }
    requires new { IsTrue volume.old.is_sound → address_of key.now (index_entries key_length volume.old) ≡ None }
    requires by { IsTrue volume.old.is_sound → by.now ≡ greatest_below key.now key.now (index_entries key_length volume.old) }
    requires behind { IsTrue volume.old.is_sound → AreBelow key.now (index_entries key_length volume.old) }
    requires needed { IsTrue volume.old.is_sound → needed_by key_length volume.old by.now ≡ 1 }
    requires ready { IsTrue volume.old.is_sound → IsReady 1 volume.old }
    requires by_whole { length by.now ≡ key_length }
    requires whole { length key.now ≡ key_length }
    requires short { key_length ≤ 255 }
    requires three { entry_place key_length 3 ≤ volume.old.size }
    ensures call { IsCall volume.old result volume.new }
    ensures changed { OnOk result (IsTrue volume.old.is_sound → IsKeyEntered key_length volume.old key.now address 1 volume.new) }
    ensures device { IfErr result (λ e. IsTrue volume.old.is_sound → e ≡ Refused.Device) }
    ensures refusal { OnlyRoomOrDevice result }
    ensures room { IsTrue volume.new.is_sound → volume.old.room ≤ volume.new.room + 1 }
{
    let top = volume.top();
    let height = volume.height();
    if top == 0 || height == 0 || height > MOST_LEVELS {
        return Ok(());
    }
    come_down(volume, height - 1, top, by, key)?;
    hang_last(volume, by, key, address)
}
