ghost use Rattle.std.specs.Prelude.{◌≡◌, ◌+◌, ◌≤◌, ◌<◌, suc, take, length, IsTrue, IfErr, OnOk};
ghost use Rattle.hd_bytes.specs.Numbers.{number_at};
ghost use Rattle.hd_dbd.specs.Refusals.{OnlyDevice};
ghost use Rattle.hd_volume.specs.Volumes.{IsFormatted, block_at};
ghost use Rattle.hd_volume.specs.Calls.{IsCall, IsRead};
ghost use Rattle.hd_volume.specs.Indexes.{entry_room};
ghost use Rattle.hd_index_blocks.specs.Fields.{entry_place, CountFits};
ghost use Rattle.hd_index_blocks.specs.Searches.{IfInOrder};
ghost use Rattle.hd_index.specs.EditedBlocks.{IsLevelBlock};
ghost use Rattle.hd_index.specs.Edits.{IsRefused};
ghost use Rattle.hd_index.specs.Blocks.{IsInOrder};
ghost use Rattle.hd_index.specs.Divisions.{IsEntryAt, IsLeadOf, IsCutOf, IsDividedUnder};
ghost use Rattle.hd_index.specs.Changes.{WhereSound};

use crate::block_division::divide;
use crate::edit::{add_entry, set_entry_key};
use crate::greatest::key_copy;
use crate::look::has_block;
use hd_dbd::Refused;
use hd_index_blocks::{FIRST, IndexBlock};
use hd_stores::BlockStore;
use hd_volume::Volume;

/// The entry of an upper block that a key leads to, at its index among so many.
#[derive(Clone, Copy)]
pub struct Lead {
    pub count: usize,
    pub index: usize,
    pub key: [u8; 255],
    pub child: u32,
}

/// How a block is divided: so many of its entries it keeps, the last of them with this key; behind it stands a block.
#[derive(Clone, Copy)]
pub struct Cut {
    pub count: usize,
    pub half: usize,
    pub key: [u8; 255],
    pub next: u32,
}

/// Where there is no entry.
fn no_lead() -> Lead {
    Lead {
        count: 0,
        index: 0,
        key: [0; 255],
        child: 0,
    }
}

/// Where there is nothing to divide.
fn no_cut() -> Cut {
    Cut {
        count: 0,
        half: 0,
        key: [0; 255],
        next: 0,
    }
}

/// The entry of an upper block that a key leads to.
fn lead_in(block: &IndexBlock, by: &[u8]) -> Lead
    ensures { IfInOrder block.now.key_length block.now.bytes.now (0 < number_at 2 block.now.bytes.now 4 → IsLeadOf block.now.key_length by.now block.now.bytes.now result) }
{
    let count = block.count();
    if count == 0 {
        return no_lead();
    }
    let index = block.place_of(by).min(count - 1);
    Lead {
        count,
        index,
        key: key_copy(block, index),
        child: block.address(index),
    }
}

/// How many entries a block keeps that is divided: all but the last where a key leads to that, else half of them.
fn half_of(index: usize, count: usize) -> usize
    requires two { 2 ≤ count }
    ensures some { 0 < result }
    ensures less { result < count }
{
    if index >= count - 1 {
        count - 1
    } else {
        count / 2
    }
}

/// How a block is divided where a key leads to it.
fn cut_in(block: &IndexBlock, by: &[u8]) -> Cut
    ensures { CountFits block.now.key_length block.now.bytes.now → 2 ≤ number_at 2 block.now.bytes.now 4 → IsCutOf block.now.key_length block.now.bytes.now result }
{
    let count = block.count();
    if count < 2 {
        return no_cut();
    }
    let half = half_of(block.place_of(by), count);
    Cut {
        count,
        half,
        key: key_copy(block, half - 1),
        next: block.next(),
    }
}

/// The entry of an upper block of the volume that a key leads to.
pub fn lead_of<S: BlockStore>(
    volume: &mut Volume<S>,
    key_length: usize,
    p: u32,
    by: &[u8],
) -> Result<Lead, Refused>
    requires short { key_length ≤ 255 }
    ensures read { IsRead volume.old result volume.new }
    ensures value { WhereSound volume.old result (λ lead. IsInOrder key_length volume.old p → 0 < number_at 2 (block_at volume.old p) 4 → IsLeadOf key_length by.now (block_at volume.old p) lead) }
    ensures refusal { OnlyDevice result }
{
    if !has_block(volume, p) {
        return Ok(no_lead());
    }
    let bytes = volume.block(p)?;
    if bytes.len() < FIRST {
        return Ok(no_lead());
    }
    Ok(lead_in(&IndexBlock { bytes, key_length }, by))
}

/// How a block of the volume is divided where a key leads to it.
pub fn cut_of<S: BlockStore>(
    volume: &mut Volume<S>,
    key_length: usize,
    n: u32,
    by: &[u8],
) -> Result<Cut, Refused>
    requires short { key_length ≤ 255 }
    ensures read { IsRead volume.old result volume.new }
    ensures value { WhereSound volume.old result (λ cut. IsInOrder key_length volume.old n → 2 ≤ number_at 2 (block_at volume.old n) 4 → IsCutOf key_length (block_at volume.old n) cut) }
    ensures refusal { OnlyDevice result }
{
    if !has_block(volume, n) {
        return Ok(no_cut());
    }
    let bytes = volume.block(n)?;
    if bytes.len() < FIRST {
        return Ok(no_cut());
    }
    Ok(cut_in(&IndexBlock { bytes, key_length }, by))
}

/// A key, without the bytes behind it.
pub fn front_of(key: &[u8; 255], key_length: usize) -> &[u8]
    requires short { key_length ≤ 255 }
    ensures value { result.now ≡ take key_length key.now }
    ensures len { length result.now ≡ key_length }
{
    &key[..key_length]
}

/// Divides the block of a level that an entry names under that entry's block, which has room.
pub fn divide_under<S: BlockStore>(
    volume: &mut Volume<S>,
    key_length: usize,
    level: u8,
    p: u32,
    lead: Lead,
    cut: Cut,
) -> Result<(), Refused>
    requires formatted { IsTrue volume.old.is_sound → IsFormatted volume.old }
    requires upper { IsTrue volume.old.is_sound → IsLevelBlock key_length volume.old (suc level) p }
    requires lower { IsTrue volume.old.is_sound → IsLevelBlock key_length volume.old level lead.child }
    requires lead { IsTrue volume.old.is_sound → IsEntryAt key_length (block_at volume.old p) lead }
    requires count { IsTrue volume.old.is_sound → cut.count ≡ number_at 2 (block_at volume.old lead.child) 4 }
    requires index { lead.index < lead.count }
    requires free { lead.count < entry_room key_length volume.old.size }
    requires lead_fits { entry_place key_length (lead.count + 1) ≤ volume.old.size }
    requires half { cut.half ≤ cut.count }
    requires cut_fits { entry_place key_length cut.count ≤ volume.old.size }
    requires short { key_length ≤ 255 }
    requires least { 128 ≤ volume.old.size }
    requires most { volume.old.size ≤ 32768 }
    ensures call { IsCall volume.old result volume.new }
    ensures divided { OnOk result (IsTrue volume.old.is_sound → IsDividedUnder key_length volume.old level p lead cut volume.new) }
    ensures refused { IfErr result (λ e. IsRefused volume.old e volume.new) }
    ensures room { IsTrue volume.new.is_sound → volume.old.room ≤ volume.new.room + 1 }
{
    let m = divide(
        volume, key_length, level, lead.child, cut.half, cut.count, cut.next,
    )?;
    set_entry_key(
        volume,
        p,
        lead.index,
        lead.count,
        front_of(&cut.key, key_length),
    )?;
    add_entry(
        volume,
        p,
        lead.index + 1,
        lead.count,
        front_of(&lead.key, key_length),
        m,
    )
}
