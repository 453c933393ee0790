ghost use Rattle.std.specs.Prelude.{◌≡◌, ◌+◌, ◌≤◌, ◌<◌, true, IsTrue, length, IfErr, OnOk};
ghost use Rattle.hd_volume.specs.Headers.{header_of};
ghost use Rattle.hd_volume.specs.Calls.{IsCall};
ghost use Rattle.hd_index_blocks.specs.Fields.{entry_place};
ghost use Rattle.hd_index_blocks.specs.IndexSets.{top_level, index_entries, HasIndexSet};
ghost use Rattle.hd_index_blocks.specs.Needs.{needed_by};
ghost use Rattle.hd_index.specs.Edits.{IsRefused};
ghost use Rattle.hd_index.specs.Blocks.{full_down};
ghost use Rattle.hd_index.specs.Changes.{IsChanged};
ghost use Rattle.hd_index.specs.Divisions.{IsLowestRoom, IsRoomMade};

use crate::descend::{MOST_LEVELS, descend};
use crate::divisions::{Cut, Lead, cut_of, divide_under, lead_of};
use crate::first::begin_top;
use crate::greatest::last_in;
use crate::need::{key_or, needed_for};
use hd_dbd::Refused;
use hd_index_blocks::entry_room;
use hd_stores::BlockStore;
use hd_volume::Volume;

/// Takes one of the blocks that an entry needs where a key leads: the highest of the full blocks from the sequence set up is
/// divided under its parent, or a new top is put over the old one where all are full.
pub fn make_room<S: BlockStore>(
    volume: &mut Volume<S>,
    key_length: usize,
    by: &[u8],
) -> Result<(), Refused>
    requires index { IsTrue volume.old.is_sound → HasIndexSet key_length volume.old }
    requires some { IsTrue volume.old.is_sound → 0 < (header_of volume.old.image).top }
    requires needed { IsTrue volume.old.is_sound → 0 < needed_by key_length volume.old by.now }
    requires high { IsTrue volume.old.is_sound → needed_by key_length volume.old by.now ≤ 64 }
    requires whole { length by.now ≡ key_length }
    requires short { key_length ≤ 255 }
    requires three { entry_place key_length 3 ≤ volume.old.size }
    ensures call { IsCall volume.old result volume.new }
    ensures changed { OnOk result (IsTrue volume.old.is_sound → IsChanged key_length volume.old (index_entries key_length volume.old) 1 volume.new) }
    ensures some { OnOk result (IsTrue volume.old.is_sound → 0 < (header_of volume.new.image).top) }
    ensures less { OnOk result (IsTrue volume.old.is_sound → needed_by key_length volume.new by.now + 1 ≡ needed_by key_length volume.old by.now) }
    ensures refused { IfErr result (λ e. IsRefused volume.old e volume.new) }
    ensures room { IsTrue volume.new.is_sound → volume.old.room ≤ volume.new.room + 1 }
{
    let needed = needed_for(volume, key_length, by)?;
    take_room(volume, key_length, needed, by)
}

/// Takes one of so many blocks that an entry needs where a key leads.
fn take_room<S: BlockStore>(
    volume: &mut Volume<S>,
    key_length: usize,
    needed: u32,
    by: &[u8],
) -> Result<(), Refused>
    requires index { IsTrue volume.old.is_sound → HasIndexSet key_length volume.old }
    requires some { IsTrue volume.old.is_sound → 0 < (header_of volume.old.image).top }
    requires needed { IsTrue volume.old.is_sound → needed ≡ needed_by key_length volume.old by.now }
    requires more { IsTrue volume.old.is_sound → 0 < needed }
    requires few { IsTrue volume.old.is_sound → needed ≤ 64 }
    requires whole { length by.now ≡ key_length }
    requires short { key_length ≤ 255 }
    requires three { entry_place key_length 3 ≤ volume.old.size }
    ensures call { IsCall volume.old result volume.new }
    ensures made { OnOk result (IsTrue volume.old.is_sound → IsRoomMade key_length volume.old by.now volume.new) }
    ensures refused { IfErr result (λ e. IsRefused volume.old e volume.new) }
    ensures room { IsTrue volume.new.is_sound → volume.old.room ≤ volume.new.room + 1 }
{
    let height = volume.height();
    if needed == 0 || height == 0 || height > MOST_LEVELS {
        return Ok(());
    }
    if needed >= height {
        add_top(volume, key_length, height as u8, by)
    } else {
        divide_below(volume, key_length, height - 1 - needed, needed as u8, by)
    }
}

/// Puts a new top over the old one, with the last key of that; all blocks are full where a key leads.
fn add_top<S: BlockStore>(
    volume: &mut Volume<S>,
    key_length: usize,
    level: u8,
    by: &[u8],
) -> Result<(), Refused>
    requires index { IsTrue volume.old.is_sound → HasIndexSet key_length volume.old }
    requires some { IsTrue volume.old.is_sound → 0 < (header_of volume.old.image).top }
    requires level { IsTrue volume.old.is_sound → level ≡ (header_of volume.old.image).height }
    requires full { IsTrue volume.old.is_sound → full_down key_length volume.old by.now (top_level volume.old) (header_of volume.old.image).top ≡ level }
    requires low { IsTrue volume.old.is_sound → level < 64 }
    requires whole { length by.now ≡ key_length }
    requires short { key_length ≤ 255 }
    requires three { entry_place key_length 3 ≤ volume.old.size }
    ensures call { IsCall volume.old result volume.new }
    ensures made { OnOk result (IsTrue volume.old.is_sound → IsRoomMade key_length volume.old by.now volume.new) }
    ensures refused { IfErr result (λ e. IsRefused volume.old e volume.new) }
    ensures room { IsTrue volume.new.is_sound → volume.old.room ≤ volume.new.room + 1 }
{
    let top = volume.top();
    let mut found = [0; 255];
    let last = last_in(volume, key_length, top, &mut found)?;
    begin_top(volume, level, key_or(last, &found, key_length, by), top)
}

/// Divides a block under the lowest one that has room, which stands so many steps down from the top where a key leads.
fn divide_below<S: BlockStore>(
    volume: &mut Volume<S>,
    key_length: usize,
    steps: u32,
    level: u8,
    by: &[u8],
) -> Result<(), Refused>
    requires index { IsTrue volume.old.is_sound → HasIndexSet key_length volume.old }
    requires some { IsTrue volume.old.is_sound → 0 < (header_of volume.old.image).top }
    requires level { IsTrue volume.old.is_sound → top_level volume.old ≡ steps + level }
    requires full { IsTrue volume.old.is_sound → full_down key_length volume.old by.now (top_level volume.old) (header_of volume.old.image).top ≡ level }
    requires upper { 0 < level }
    requires whole { length by.now ≡ key_length }
    requires short { key_length ≤ 255 }
    requires three { entry_place key_length 3 ≤ volume.old.size }
    ensures call { IsCall volume.old result volume.new }
    ensures made { OnOk result (IsTrue volume.old.is_sound → IsRoomMade key_length volume.old by.now volume.new) }
    ensures refused { IfErr result (λ e. IsRefused volume.old e volume.new) }
    ensures room { IsTrue volume.new.is_sound → volume.old.room ≤ volume.new.room + 1 }
{
    let top = volume.top();
    let p = descend(volume, key_length, steps, top, by)?;
    divide_at(volume, key_length, level - 1, p, by)
}

/// Whether an entry finds room above, and a block below may be divided.
fn may_divide(lead: &Lead, cut: &Cut, room: usize) -> bool
    ensures index { result ≡ true → lead.now.index < lead.now.count }
    ensures free { result ≡ true → lead.now.count < room }
    ensures half { result ≡ true → cut.now.half < cut.now.count }
    ensures within { result ≡ true → cut.now.count ≤ room }
    ensures may { lead.now.index < lead.now.count → lead.now.count < room → cut.now.half < cut.now.count → cut.now.count ≤ room → result ≡ true }
{
    lead.index < lead.count && lead.count < room && cut.half < cut.count && cut.count <= room
}

/// Divides the full block that a key leads to from the lowest block that has room, whose level is one above.
fn divide_at<S: BlockStore>(
    volume: &mut Volume<S>,
    key_length: usize,
    level: u8,
    p: u32,
    by: &[u8],
) -> Result<(), Refused>
    requires index { IsTrue volume.old.is_sound → HasIndexSet key_length volume.old }
    requires some { IsTrue volume.old.is_sound → 0 < (header_of volume.old.image).top }
    requires lowest { IsTrue volume.old.is_sound → IsLowestRoom key_length volume.old by.now level p }
    requires whole { length by.now ≡ key_length }
    requires short { key_length ≤ 255 }
    requires three { entry_place key_length 3 ≤ volume.old.size }
    ensures call { IsCall volume.old result volume.new }
    ensures made { OnOk result (IsTrue volume.old.is_sound → IsRoomMade key_length volume.old by.now volume.new) }
    ensures refused { IfErr result (λ e. IsRefused volume.old e volume.new) }
    ensures room { IsTrue volume.new.is_sound → volume.old.room ≤ volume.new.room + 1 }
{
    let room = entry_room(key_length, volume.block_size());
    let lead = lead_of(volume, key_length, p, by)?;
    let cut = cut_of(volume, key_length, lead.child, by)?;
    if !may_divide(&lead, &cut, room) {
        return Ok(());
    }
    divide_under(volume, key_length, level, p, lead, cut)
}
