//! Phase 11: on each level the keys ascend, and upper keys keep their bounds.
ghost use Rattle.std.specs.Prelude.{◌≡◌, ◌≢◌, ◌⊎◌, ℕ, ◌-◌, ◌*◌, ◌≤◌, ◌<◌, length, take, drop, [], ◌∷◌, ◌++◌, option_map, Option, None, Some, true, IsTrue, IfOk, IfNone, IfSome, OnOk};
ghost use Rattle.std.specs.Option.{option_map_or};
ghost use Rattle.hd_dbd.specs.Refusals.{OnlyDevice, OnlyDeviceOrMemory};
ghost use Rattle.hd_volume.specs.Volumes.{block_at};
ghost use Rattle.hd_volume.specs.Entries.{Entry, entries_in};
ghost use Rattle.hd_volume.specs.Indexes.{key_less, keys_ascend, is_below_first};
ghost use Rattle.hd_index_blocks.specs.Fields.{entry_count};
ghost use Rattle.hd_volume.specs.Calls.{IsRead};
ghost use Rattle.hd_index_blocks.specs.IndexSets.{level_in, index_blocks};
ghost use Rattle.hd_index_blocks.specs.Faultless.{AreFormsRight};
ghost use Rattle.hd_index_blocks.specs.LevelFaults.{first_entry, keeps_bounds, is_right_entry, HasEntryOutOfOrder, StandsNowhere};
ghost use Rattle.hd_check_index.specs.Rows.{AreRows};
ghost use Rattle.hd_check_index.specs.Extents.{IsExtent};
ghost use Rattle.hd_check_index.specs.BlockExtents.{AreExtents, IsExtentBelow};
ghost use Rattle.hd_check_index.specs.Counted.{OfEntries, OfSomeEntries};
ghost use Rattle.hd_check_index.specs.EntryOrders.{IsLeft, is_below_least, found_with, IsFoundIn, IsLeftBehind, OfEntryAt, OfRow, IsWrongUpTo, IsLeastOf, lesser, standing_at};
ghost use Rattle.hd_check_index.specs.Judging.{IsFirst, WhereFound};

use crate::extents::{Extent, extent_below, extent_between};
use crate::key_order::order_of;
use crate::rows::{Standing, row_start};
use hd_dbd::{Refused, compare_keys};
use hd_index_blocks::{FIRST, IndexBlock};
use hd_stores::BlockStore;
use hd_volume::Volume;
use std::alloc::Global;

/// The key of the entry to the left, at the front, if there is one.
#[derive(Clone, Copy)]
pub struct Left {
    pub key: [u8; 255],
    pub is_some: bool,
}

/// Whether a key is above that of the entry to its left, if there is one.
fn is_above(left: &Left, key: &[u8], key_length: usize) -> bool
    requires short { key_length ≤ 255 }
    ensures { (o : Option Entry) → IsLeft key_length left.now o → result ≡ option_map_or (λ l. key_less l.key key.now) o true }
{
    !left.is_some || compare_keys(&left.key[..key_length], key).is_lt()
}

/// Keeps a key as that of the entry to the left.
fn keep_key(left: &mut Left, key: &[u8])
    requires short { length key.now ≤ 255 }
    ensures some { left.new.is_some ≡ true }
    ensures key { take (length key.now) left.new.key ≡ key.now }
{
    left.key[..key.len()].copy_from_slice(key);
    left.is_some = true;
}

/// Whether a key is below the least of the extent at an index, if there is one.
fn is_below_least(below: &[Extent], index: usize, key: &[u8], key_length: usize) -> bool
    requires short { key_length ≤ 255 }
    ensures { result ≡ is_below_least key_length key.now (drop index below.now) }
{
    if index >= below.len() {
        return true;
    }
    let extent = &below[index];
    compare_keys(key, &extent.least[..key_length]).is_lt()
}

/// Whether the key of the entry at an index keeps its bounds.
fn is_within(level: u8, below: &[Extent], index: usize, key: &[u8], key_length: usize) -> bool
    requires short { key_length ≤ 255 }
    ensures { OfEntryAt key_length level below.now index key.now (λ c e rest. result ≡ keeps_bounds c level e (first_entry rest None)) }
{
    if level == 0 || index >= below.len() {
        return true;
    }
    let own = &below[index];
    if compare_keys(key, &own.greatest[..key_length]).is_lt() {
        return false;
    }
    is_below_least(below, index + 1, key, key_length)
}

/// Whether the entry at an index has a key above the one to its left and keeps its bounds.
fn is_right(
    left: &Left,
    level: u8,
    below: &[Extent],
    index: usize,
    key: &[u8],
    key_length: usize,
) -> bool
    requires short { key_length ≤ 255 }
    ensures { (o : Option Entry) → IsLeft key_length left.now o → OfEntryAt key_length level below.now index key.now (λ c e rest. result ≡ is_right_entry c level o e (first_entry rest None)) }
{
    is_above(left, key, key_length) && is_within(level, below, index, key, key_length)
}

/// What was found among entries, or else the address of one more that is not right.
fn found_more(found: Option<u32>, is_right: bool, address: u32) -> Option<u32>
    ensures { result ≡ found_with found is_right address }
{
    match found {
        Some(other) => Some(other),
        None => {
            if is_right {
                return None;
            }
            Some(address)
        }
    }
}

/// The address in the first entry of a block that is not right; the last key is kept.
fn wrong_in(left: &mut Left, block: &IndexBlock, level: u8, below: &[Extent]) -> Option<u32>
    ensures found { OfEntries block.now (λ es. IsFoundIn block.now.key_length level left.old es below.now result) }
    ensures left { OfEntries block.now (λ es. IsLeftBehind block.now.key_length left.old es left.new) }
{
    let mut found = None;
    for index in 0..block.count() {
        let key = block.key(index);
        let address = block.address(index);
        let is_right = is_right(left, level, below, index, key, block.key_length);
        found = found_more(found, is_right, address);
        keep_key(left, key);
    }
    found
}

/// What is found in a block, its extent, and how many entries it has.
#[derive(Clone, Copy)]
pub struct Judged {
    pub found: Option<u32>,
    pub extent: Extent,
    pub count: usize,
}

/// Whether a key is less than another of its length: the first byte that differs decides.
fn is_less(one: &[u8], other: &[u8]) -> bool
    requires as_long { length one.now ≡ length other.now }
    ensures { result ≡ key_less one.now other.now }
{
    order_of(one, other).is_lt()
}

/// Whether a block has entries and their keys ascend, the first of them above the one to its left.
fn are_ascending(left: &Left, block: &IndexBlock) -> bool
    ensures some { result ≡ true → 0 < entry_count block.now.key_length block.now.bytes.now }
    ensures ascend { result ≡ true → OfEntries block.now (λ es. keys_ascend es ≡ true) }
    ensures above { result ≡ true → OfEntries block.now (λ es. (o : Option Entry) → IsLeft block.now.key_length left.now o → option_map_or (λ l. is_below_first l.key es) o true ≡ true) }
{
    let count = block.count();
    if count == 0 {
        return false;
    }
    let mut before = block.key(0);
    if !is_above(left, before, block.key_length) {
        return false;
    }
    for index in 1..count {
        let key = block.key(index);
        if !is_less(before, key) {
            return false;
        }
        before = key;
    }
    true
}

/// Judges a block of level 0 whose keys ascend; the last key is kept.
fn judge_ascending(left: &mut Left, block: &IndexBlock) -> Judged
    requires some { 0 < entry_count block.now.key_length block.now.bytes.now }
    ensures none { result.found ≡ None }
    ensures left { OfEntries block.now (λ es. IsLeftBehind block.now.key_length left.old es left.new) }
    ensures extent { OfEntries block.now (λ es. keys_ascend es ≡ true → IsExtent block.now.key_length result.extent es) }
    ensures count { OfEntries block.now (λ es. result.count ≡ length es) }
    ensures small { result.count ≤ 65535 }
{
    let count = block.count();
    let greatest = block.key(count - 1);
    keep_key(left, greatest);
    Judged {
        found: None,
        extent: extent_between(block.key(0), greatest),
        count,
    }
}

/// Judges a block of a level, by the extents below it and below the blocks to its right; the last key is kept.
fn judge_entries(left: &mut Left, block: &IndexBlock, level: u8, below: &[Extent]) -> Judged
    ensures found { OfEntries block.now (λ es. IsFoundIn block.now.key_length level left.old es below.now result.found) }
    ensures left { OfEntries block.now (λ es. IsLeftBehind block.now.key_length left.old es left.new) }
    ensures extent { OfSomeEntries block.now (λ es. IsExtentBelow block.now.key_length level es below.now result.extent) }
    ensures count { OfEntries block.now (λ es. result.count ≡ length es) }
    ensures small { result.count ≤ 65535 }
{
    if level == 0 && are_ascending(left, block) {
        return judge_ascending(left, block);
    }
    let found = wrong_in(left, block, level, below);
    let extent = extent_below(block, level, below);
    let count = block.count();
    Judged {
        found,
        extent,
        count,
    }
}

/// What stands for a block that is no index block.
fn no_block() -> Judged
    ensures { result.count ≡ 0 }
{
    Judged {
        found: None,
        extent: Extent {
            least: [0; 255],
            greatest: [0; 255],
        },
        count: 0,
    }
}

/// Reads and judges a block of a level.
fn judge_block<S: BlockStore>(
    left: &mut Left,
    volume: &mut Volume<S>,
    n: u32,
    level: u8,
    below: &[Extent],
    key_length: usize,
) -> Result<Judged, Refused>
    requires short { key_length ≤ 255 }
    requires forms { IsTrue volume.old.is_sound → AreFormsRight key_length volume.old }
    requires level { IsTrue volume.old.is_sound → level_in volume.old n ≡ Some level }
    ensures read { IsRead volume.old result volume.new }
    ensures found { IfOk result (λ r. IsTrue volume.old.is_sound → IsFoundIn key_length level left.old (entries_in key_length (block_at volume.old n)) below.now r.found) }
    ensures left { IfOk result (λ r. IsTrue volume.old.is_sound → IsLeftBehind key_length left.old (entries_in key_length (block_at volume.old n)) left.new) }
    ensures extent { IfOk result (λ r. IsTrue volume.old.is_sound → IsExtentBelow key_length level (entries_in key_length (block_at volume.old n)) below.now r.extent) }
    ensures count { IfOk result (λ r. IsTrue volume.old.is_sound → r.count ≡ length (entries_in key_length (block_at volume.old n))) }
    ensures small { IfOk result (λ r. r.count ≤ 65535) }
    ensures refusal { OnlyDevice result }
{
    let bytes = volume.block(n)?;
    if bytes.len() < FIRST {
        return Ok(no_block());
    }
    let block = IndexBlock { bytes, key_length };
    Ok(judge_entries(left, &block, level, below))
}

/// Reads and judges a block of a level, and notes its extent.
pub fn judge_next<S: BlockStore>(
    own: &mut Vec<Extent>,
    left: &mut Left,
    volume: &mut Volume<S>,
    n: u32,
    level: u8,
    below: &[Extent],
    key_length: usize,
) -> Result<Judged, Refused>
    requires short { key_length ≤ 255 }
    requires forms { IsTrue volume.old.is_sound → AreFormsRight key_length volume.old }
    requires level { IsTrue volume.old.is_sound → level_in volume.old n ≡ Some level }
    ensures read { IsRead volume.old result volume.new }
    ensures found { IfOk result (λ r. IsTrue volume.old.is_sound → IsFoundIn key_length level left.old (entries_in key_length (block_at volume.old n)) below.now r.found) }
    ensures left { IfOk result (λ r. IsTrue volume.old.is_sound → IsLeftBehind key_length left.old (entries_in key_length (block_at volume.old n)) left.new) }
    ensures extent { IfOk result (λ r. IsTrue volume.old.is_sound → IsExtentBelow key_length level (entries_in key_length (block_at volume.old n)) below.now r.extent) }
    ensures count { IfOk result (λ r. IsTrue volume.old.is_sound → r.count ≡ length (entries_in key_length (block_at volume.old n))) }
    ensures small { IfOk result (λ r. r.count ≤ 65535) }
    ensures own { IfOk result (λ r. own.new.items ≡ own.old.items ++ (r.extent ∷ [])) }
    ensures refusal { OnlyDeviceOrMemory result }
{
    let judged = judge_block(left, volume, n, level, below, key_length)?;
    own.push(judged.extent).map_err(|_| Refused::Memory)?;
    Ok(judged)
}

/// What is found in a block, with its number.
fn found_at(found: Option<u32>, n: u32) -> Option<(u32, u32)>
    ensures { result ≡ option_map (λ other. (n, other)) found }
{
    match found {
        None => None,
        Some(other) => Some((n, other)),
    }
}

/// The lesser of two by number, if there are two.
fn lesser(least: Option<(u32, u32)>, more: Option<(u32, u32)>) -> Option<(u32, u32)>
    ensures { result ≡ lesser least more }
{
    let Some(own) = least else {
        return more;
    };
    let Some(other) = more else {
        return least;
    };
    if other.0 < own.0 { more } else { least }
}

/// The block of the least number in a row that has an entry that is not right, and what the first such entry of it names; the extents of the
/// blocks are noted.
fn judge_row<S: BlockStore>(
    own: &mut Vec<Extent>,
    volume: &mut Volume<S>,
    row: &[Standing],
    level: u8,
    below: &[Extent],
    key_length: usize,
) -> Result<Option<(u32, u32)>, Refused>
    requires empty { own.old.items ≡ [] }
    requires short { key_length ≤ 255 }
    requires forms { IsTrue volume.old.is_sound → AreFormsRight key_length volume.old }
    requires level { IsTrue volume.old.is_sound → (i : ℕ) → i < length row.now → level_in volume.old (standing_at row.now i).number ≡ Some level }
    ensures read { IsRead volume.old result volume.new }
    ensures own { WhereFound volume.old result (λ found. OfRow (index_blocks key_length volume.old) key_length level row.now below.now (λ c ns. AreExtents key_length c level ns own.new.items)) }
    ensures found { WhereFound volume.old result (λ found. OfRow (index_blocks key_length volume.old) key_length level row.now below.now (λ c ns. IsLeastOf (IsWrongUpTo c level ns (length ns)) found)) }
    ensures refusal { OnlyDeviceOrMemory result }
{
    let mut left = Left {
        key: [0; 255],
        is_some: false,
    };
    let mut place = 0;
    let mut least = None;
    for block in row {
        let rest = &below[place..];
        let judged = judge_next(
            own,
            &mut left,
            volume,
            block.number,
            level,
            rest,
            key_length,
        )?;
        place = below.len().min(place + judged.count);
        least = lesser(least, found_at(judged.found, block.number));
    }
    Ok(least)
}

/// The first index block with an entry whose key is not above the one to its left or breaks its bounds, and what the first such entry
/// of the block names.
pub fn entry_out_of_order<S: BlockStore>(
    alloc: Global,
    volume: &mut Volume<S>,
    rows: &[Standing],
    key_length: usize,
) -> Result<Option<(u32, u32)>, Refused>
    requires short { key_length ≤ 255 }
    requires forms { IsTrue volume.old.is_sound → AreFormsRight key_length volume.old }
    requires rows { IsTrue volume.old.is_sound → AreRows key_length volume.old rows.now }
    ensures read { IsRead volume.old result volume.new }
    ensures none { WhereFound volume.old result (λ found. IfNone found (StandsNowhere (HasEntryOutOfOrder key_length volume.old))) }
    ensures some { WhereFound volume.old result (λ found. IfSome found (λ at. IsFirst volume.old (HasEntryOutOfOrder key_length volume.old) at.0 at.1)) }
    ensures refusal { OnlyDeviceOrMemory result }
{
    let mut below = Vec::new(alloc);
    let mut least = None;
    let mut end = rows.len();
    while end > 0 {
        let start = row_start(rows, end);
        let first = rows[start];
        let mut own = Vec::new(alloc);
        let found = judge_row(
            &mut own,
            volume,
            &rows[start..end],
            first.level,
            &below,
            key_length,
        )?;
        least = lesser(least, found);
        below = own;
        end = start;
    }
    Ok(least)
}
