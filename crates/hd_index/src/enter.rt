ghost use Rattle.std.specs.Prelude.{◌≡◌, ◌≤◌, ◌<◌, ℕ, suc, None, IsTrue, length, IfOk, OnOk};
ghost use Rattle.hd_bytes.specs.Numbers.{number_at};
ghost use Rattle.hd_dbd.specs.Refusals.{OnlyDevice};
ghost use Rattle.hd_volume.specs.Volumes.{block_at, IsKind, IsFormatted};
ghost use Rattle.hd_volume.specs.Calls.{IsCall, IsRead};
ghost use Rattle.hd_volume.specs.Entries.{entries_in};
ghost use Rattle.hd_index_blocks.specs.Fields.{entry_place, below_count, CountFits};
ghost use Rattle.hd_index_blocks.specs.Searches.{IfInOrder};
ghost use Rattle.hd_index_blocks.specs.Maps.{address_of, greatest_below};
ghost use Rattle.hd_index_blocks.specs.IndexSets.{index_entries, HasIndexSet};
ghost use Rattle.hd_index_blocks.specs.Needs.{needed_by};
ghost use Rattle.hd_index.specs.EditedBlocks.{IsIndexBlock};
ghost use Rattle.hd_index.specs.Blocks.{IsInOrder, OfSomeInOrder};
ghost use Rattle.hd_index.specs.Changes.{IsKeyEntered, WhereSound};
ghost use Rattle.hd_index.specs.Comings.{MayCome, WhereNoneIsNeeded, HasComeTo, IsTurnOf, IsRaised};

use crate::descend::MOST_LEVELS;
use crate::edit::{add_entry, set_entry_key};
use crate::look::has_block;
use hd_dbd::{Refused, compare_keys};
use hd_index_blocks::{IndexBlock, entry_room};
use hd_stores::BlockStore;
use hd_volume::Volume;

/// Where a key leads in an upper block: the entry at an index, of so many, the block that it names, and whether its key is below a
/// new one.
#[derive(Clone, Copy, Debug)]
pub struct Turn {
    pub index: usize,
    pub count: usize,
    pub child: u32,
    pub is_low: bool,
}

/// A place in a block of the sequence set: how many entries stand before it, of so many, and the block behind that one, 0 for none.
#[derive(Clone, Copy, Debug)]
struct Gap {
    index: usize,
    count: usize,
    next: u32,
}

/// The turn of a block without an entry.
fn no_turn() -> Turn
    ensures low { IsTrue result.is_low → result.index < result.count }
    ensures none { result.count ≡ 0 }
{
    Turn {
        index: 0,
        count: 0,
        child: 0,
        is_low: false,
    }
}

/// Where a key leads in an upper block, by its bytes.
fn turn_in(block: &IndexBlock, by: &[u8], key: &[u8]) -> Turn
    ensures turn { IfInOrder block.now.key_length block.now.bytes.now (0 < number_at 2 block.now.bytes.now 4 → IsTurnOf by.now key.now (entries_in block.now.key_length block.now.bytes.now) result) }
    ensures low { IsTrue result.is_low → result.index < result.count }
    ensures small { result.count ≤ 65535 }
    ensures fits { entry_place block.now.key_length result.count ≤ length block.now.bytes.now }
{
    let count = block.count();
    if count == 0 {
        return no_turn();
    }
    let index = block.place_of(by).min(count - 1);
    Turn {
        index,
        count,
        child: block.address(index),
        is_low: compare_keys(block.key(index), key).is_lt(),
    }
}

/// Where a key leads in an upper block of the volume. A block that the volume does not have has no entry.
fn turn_at<S: BlockStore>(
    volume: &mut Volume<S>,
    n: u32,
    by: &[u8],
    key: &[u8],
) -> Result<Turn, Refused>
    requires short { length key.now ≤ 255 }
    ensures read { IsRead volume.old result volume.new }
    ensures turn { WhereSound volume.old result (λ t. OfSomeInOrder (length key.now) volume.old n (λ es. IsTurnOf by.now key.now es t)) }
    ensures low { IfOk result (λ t. IsTrue t.is_low → t.index < t.count) }
    ensures small { IfOk result (λ t. t.count ≤ 65535) }
    ensures fits { IfOk result (λ t. entry_place (length key.now) t.count ≤ volume.old.size) }
    ensures refusal { OnlyDevice result }
{
    let size = volume.block_size();
    if !has_block(volume, n) {
        return Ok(no_turn());
    }
    let bytes = volume.block(n)?;
    if bytes.len() != size {
        return Ok(no_turn());
    }
    let key_length = key.len();
    Ok(turn_in(&IndexBlock { bytes, key_length }, by, key))
}

/// Raises the upper key at a turn where it is below a new key.
fn raise<S: BlockStore>(
    volume: &mut Volume<S>,
    n: u32,
    turn: Turn,
    key: &[u8],
) -> Result<(), Refused>
    requires formatted { IsTrue volume.old.is_sound → IsFormatted volume.old }
    requires block { IsTrue volume.old.is_sound → IsIndexBlock (length key.now) volume.old n }
    requires count { IsTrue volume.old.is_sound → number_at 2 (block_at volume.old n) 4 ≡ turn.count }
    requires low { IsTrue turn.is_low → turn.index < turn.count }
    requires short { length key.now ≤ 255 }
    requires small { turn.count ≤ 65535 }
    requires fits { entry_place (length key.now) turn.count ≤ volume.old.size }
    ensures call { IsCall volume.old result volume.new }
    ensures raised { OnOk result (IsTrue volume.old.is_sound → IsRaised volume.old n turn key.now volume.new) }
    ensures refusal { OnlyDevice result }
    ensures room { volume.new.room ≡ volume.old.room }
{
    if turn.is_low {
        return set_entry_key(volume, n, turn.index, turn.count, key);
    }
    Ok(())
}

/// One step down by a key, where the upper key is raised if it is below a new one.
fn step_by<S: BlockStore>(
    volume: &mut Volume<S>,
    n: u32,
    by: &[u8],
    key: &[u8],
) -> Result<u32, Refused>
    requires index { IsTrue volume.old.is_sound → HasIndexSet (length key.now) volume.old }
    requires block { IsTrue volume.old.is_sound → IsKind volume.old 2 n }
    requires short { length key.now ≤ 255 }
    ensures call { IsCall volume.old result volume.new }
    ensures come { WhereSound volume.old result (λ m. (l : ℕ) → MayCome (length key.now) volume.old key.now by.now (suc l) n → HasComeTo (length key.now) volume.old key.now by.now l m volume.new) }
    ensures refusal { OnlyDevice result }
    ensures room { volume.new.room ≡ volume.old.room }
{
    let turn = turn_at(volume, n, by, key)?;
    raise(volume, n, turn, key)?;
    Ok(turn.child)
}

/// So many steps down by a key, where each upper key is raised that is below a new one.
pub fn come_down<S: BlockStore>(
    volume: &mut Volume<S>,
    levels: u32,
    n: u32,
    by: &[u8],
    key: &[u8],
) -> Result<u32, Refused>
    requires may { IsTrue volume.old.is_sound → MayCome (length key.now) volume.old key.now by.now levels n }
    requires some { 0 < volume.old.size }
    requires short { length key.now ≤ 255 }
    ensures call { IsCall volume.old result volume.new }
    ensures come { IfOk result (λ m. IsTrue volume.old.is_sound → HasComeTo (length key.now) volume.old key.now by.now 0 m volume.new) }
    ensures refusal { OnlyDevice result }
    ensures room { volume.new.room ≡ volume.old.room }
{
    let mut below = n;
    for _ in 0..levels {
        below = step_by(volume, below, by, key)?;
    }
    Ok(below)
}

/// The place of a key among the entries of a block.
fn gap_in(block: &IndexBlock, key: &[u8]) -> Gap
    ensures index { IfInOrder block.now.key_length block.now.bytes.now (result.index ≡ below_count key.now (entries_in block.now.key_length block.now.bytes.now)) }
    ensures count { CountFits block.now.key_length block.now.bytes.now → result.count ≡ number_at 2 block.now.bytes.now 4 }
    ensures within { result.index ≤ result.count }
{
    Gap {
        index: block.place_of(key),
        count: block.count(),
        next: block.next(),
    }
}

/// The place in a block without an entry.
fn no_gap() -> Gap
    ensures within { result.index ≤ result.count }
{
    Gap {
        index: 0,
        count: 0,
        next: 0,
    }
}

/// The place of a key among the entries of a block of the volume. A block that the volume does not have has no entry.
fn gap_at<S: BlockStore>(volume: &mut Volume<S>, n: u32, key: &[u8]) -> Result<Gap, Refused>
    requires short { length key.now ≤ 255 }
    ensures read { IsRead volume.old result volume.new }
    ensures index { IfOk result (λ g. IsTrue volume.old.is_sound → IsInOrder (length key.now) volume.old n → g.index ≡ below_count key.now (entries_in (length key.now) (block_at volume.old n))) }
    ensures count { IfOk result (λ g. IsTrue volume.old.is_sound → IsInOrder (length key.now) volume.old n → g.count ≡ number_at 2 (block_at volume.old n) 4) }
    ensures within { IfOk result (λ g. g.index ≤ g.count) }
    ensures refusal { OnlyDevice result }
{
    let size = volume.block_size();
    if !has_block(volume, n) {
        return Ok(no_gap());
    }
    let bytes = volume.block(n)?;
    if bytes.len() != size {
        return Ok(no_gap());
    }
    let key_length = key.len();
    Ok(gap_in(&IndexBlock { bytes, key_length }, key))
}

/// Notes a block of the sequence set where a new key comes behind all others: the next one may come there too.
fn note_end<S: BlockStore>(volume: &mut Volume<S>, n: u32, gap: Gap)
    ensures same { volume.new ≡ volume.old }
{
    if gap.index == gap.count && gap.next == 0 {
        volume.note_block(n);
    }
}

/// Enters a new key at its place in a block of the sequence set that has room.
fn enter_at<S: BlockStore>(
    volume: &mut Volume<S>,
    n: u32,
    gap: Gap,
    key: &[u8],
    address: u32,
) -> Result<(), Refused>
    requires index { IsTrue volume.old.is_sound → HasIndexSet (length key.now) volume.old }
    requires block { IsTrue volume.old.is_sound → IsKind volume.old 2 n }
    requires place { IsTrue volume.old.is_sound → gap.index ≡ below_count key.now (entries_in (length key.now) (block_at volume.old n)) }
    requires count { IsTrue volume.old.is_sound → number_at 2 (block_at volume.old n) 4 ≡ gap.count }
    requires within { gap.index ≤ gap.count }
    requires short { length key.now ≤ 255 }
    ensures call { IsCall volume.old result volume.new }
    ensures changed { OnOk result (IsTrue volume.old.is_sound → WhereNoneIsNeeded (length key.now) volume.old key.now n (IsKeyEntered (length key.now) volume.old key.now address 0 volume.new)) }
    ensures refusal { OnlyDevice result }
    ensures room { volume.new.room ≡ volume.old.room }
{
    let room = entry_room(key.len(), volume.block_size());
    if gap.count < room {
        note_end(volume, n, gap);
        return add_entry(volume, n, gap.index, gap.count, key, address);
    }
    Ok(())
}

/// Enters a new key into a block of the sequence set that has room.
fn enter_leaf<S: BlockStore>(
    volume: &mut Volume<S>,
    n: u32,
    key: &[u8],
    address: u32,
) -> Result<(), Refused>
    requires index { IsTrue volume.old.is_sound → HasIndexSet (length key.now) volume.old }
    requires block { IsTrue volume.old.is_sound → IsKind volume.old 2 n }
    requires some { 0 < volume.old.size }
    requires short { length key.now ≤ 255 }
    ensures call { IsCall volume.old result volume.new }
    ensures changed { OnOk result (IsTrue volume.old.is_sound → WhereNoneIsNeeded (length key.now) volume.old key.now n (IsKeyEntered (length key.now) volume.old key.now address 0 volume.new)) }
    ensures refusal { OnlyDevice result }
    ensures room { volume.new.room ≡ volume.old.room }
{
    let gap = gap_at(volume, n, key)?;
    enter_at(volume, n, gap, key, address)
}

/// Enters a new key where no block is needed for it: down by the greatest key below it, or by itself where it is the least, each
/// upper key of the way that is below it is raised to it.
pub fn enter_key<S: BlockStore>(
    volume: &mut Volume<S>,
    key_length: usize,
    by: &[u8],
    key: &[u8],
    address: u32,
) -> Result<(), Refused>
    requires index { IsTrue volume.old.is_sound → HasIndexSet key_length volume.old }
    requires new { IsTrue volume.old.is_sound → address_of key.now (index_entries key_length volume.old) ≡ None }
    requires by { IsTrue volume.old.is_sound → by.now ≡ greatest_below key.now key.now (index_entries key_length volume.old) }
    requires needed { IsTrue volume.old.is_sound → needed_by key_length volume.old by.now ≡ 0 }
    requires whole { length key.now ≡ key_length }
    requires short { key_length ≤ 255 }
    requires three { entry_place key_length 3 ≤ volume.old.size }
    ensures call { IsCall volume.old result volume.new }
    ensures changed { OnOk result (IsTrue volume.old.is_sound → IsKeyEntered key_length volume.old key.now address 0 volume.new) }
    ensures refusal { OnlyDevice result }
    ensures room { volume.new.room ≡ volume.old.room }
{
    let top = volume.top();
    let height = volume.height();
    if top == 0 || height == 0 || height > MOST_LEVELS {
        return Ok(());
    }
    let n = come_down(volume, height - 1, top, by, key)?;
    enter_leaf(volume, n, key, address)
}
