//! Phase 11: the keys of the entries ascend.
ghost use Rattle.std.specs.Prelude.{◌≡◌, ◌≤◌, ◌<◌, ◌*◌, length, None, take, true, false, IsTrue, IfOk, Option};
ghost use Rattle.std.specs.Option.{option_map_or};
ghost use Rattle.hd_dbd.specs.Refusals.{OnlyDevice, OnlyDeviceOrMemory};
ghost use Rattle.hd_volume.specs.Headers.{header_of};
ghost use Rattle.hd_volume.specs.Volumes.{block_at};
ghost use Rattle.hd_volume.specs.Entries.{Entry, entries_in, entry_blocks, entries};
ghost use Rattle.hd_volume.specs.Indexes.{root_key_length, IsEntryBlock, key_less, keys_ascend};
ghost use Rattle.hd_volume.specs.Calls.{IsRead};
ghost use Rattle.hd_image.specs.Records.{IsVolumeOf};
ghost use Rattle.hd_image.specs.Right.{ChainIsFormed};
ghost use Rattle.hd_check_blocks.specs.Phases.{IsLeastOf};
ghost use Rattle.hd_check_blocks.specs.Listing.{AreStanding};
ghost use Rattle.hd_check_index.specs.LeftKeys.{IsLeft, lesser, IsFirstNotAbove, IsLeftBehind, IsFoundWith};
ghost use Rattle.hd_check_blocks.specs.Finding.{WhereNone, WhereSome};
ghost use Rattle.hd_index_blocks.specs.Fields.{CountFits};

use crate::listed::{fault_naming, in_order};
use crate::noted_blocks::block_address;
use hd_check_blocks::{Fault, list_fault};
use hd_dbd::{Dbd, Refused, compare_keys};
use hd_image::Line;
use hd_index_blocks::{FIRST, IndexBlock, root_key_length};
use hd_stores::BlockStore;
use hd_volume::Volume;
use std::alloc::Global;

/// The key of the entry to the left, at the front, if there is one.
#[derive(Clone, Copy)]
struct Left {
    key: [u8; 255],
    is_some: bool,
}

/// Whether a key is above that of the entry to its left, if there is one.
fn is_above(left: &Left, key: &[u8], key_length: usize) -> bool
    requires short { key_length ≤ 255 }
    ensures { (o : Option Entry) → IsLeft key_length left.now o → result ≡ option_map_or (λ l. key_less l.key key.now) o true }
{
    !left.is_some || compare_keys(&left.key[..key_length], key).is_lt()
}

/// Keeps a key as that of the entry to the left.
fn keep_key(left: &mut Left, key: &[u8])
    requires short { length key.now ≤ 255 }
    ensures some { left.new.is_some ≡ true }
    ensures key { take (length key.now) left.new.key ≡ key.now }
{
    left.key[..key.len()].copy_from_slice(key);
    left.is_some = true;
}

/// What was found among entries, or else the address of one more whose key is not above the one to its left.
fn found_more(
    found: Option<u32>,
    left: &Left,
    key: &[u8],
    key_length: usize,
    address: u32,
) -> Option<u32>
    requires short { key_length ≤ 255 }
    ensures { IsFoundWith key_length left.now found (record { key = key.now; address = address }) result }
{
    match found {
        Some(other) => Some(other),
        None => {
            if is_above(left, key, key_length) {
                return None;
            }
            Some(address)
        }
    }
}

/// The address in the first entry of a block whose key is not above the one to its left; the last key is kept.
fn not_above(left: &mut Left, block: &IndexBlock) -> Option<u32>
    ensures found { CountFits block.now.key_length block.now.bytes.now → IsFirstNotAbove block.now.key_length left.old (entries_in block.now.key_length block.now.bytes.now) result }
    ensures left { CountFits block.now.key_length block.now.bytes.now → IsLeftBehind block.now.key_length left.old (entries_in block.now.key_length block.now.bytes.now) left.new }
{
    let mut found = None;
    for index in 0..block.count() {
        let key = block.key(index);
        let address = block.address(index);
        found = found_more(found, left, key, block.key_length, address);
        keep_key(left, key);
    }
    found
}

/// The address in the first entry of an index block whose key is not above the one to its left; the last key is kept.
fn not_above_in<S: BlockStore>(
    left: &mut Left,
    volume: &mut Volume<S>,
    key_length: usize,
    n: u32,
) -> Result<Option<u32>, Refused>
    requires block { IsTrue volume.old.is_sound → IsEntryBlock key_length volume.old n }
    requires short { key_length ≤ 255 }
    requires least { 12 ≤ volume.old.size }
    ensures read { IsRead volume.old result volume.new }
    ensures found { IfOk result (λ r. IsTrue volume.old.is_sound → IsFirstNotAbove key_length left.old (entries_in key_length (block_at volume.old n)) r) }
    ensures left { IfOk result (λ r. IsTrue volume.old.is_sound → IsLeftBehind key_length left.old (entries_in key_length (block_at volume.old n)) left.new) }
    ensures refusal { OnlyDevice result }
{
    let bytes = volume.block(n)?;
    if bytes.len() < FIRST {
        return Ok(None);
    }
    let block = IndexBlock { bytes, key_length };
    Ok(not_above(left, &block))
}

/// The lesser of two faults by address, if there is a first.
fn lesser(least: Option<Fault>, fault: Fault) -> Option<Fault>
    ensures { result ≡ lesser least fault }
{
    match least {
        None => Some(fault),
        Some(other) => {
            if fault.address < other.address {
                Some(fault)
            } else {
                Some(other)
            }
        }
    }
}

/// The lesser of two faults, the second of them of block n if something was found in it.
fn least_with(least: Option<Fault>, found: Option<u32>, n: u32, size: u32) -> Option<Fault>
    ensures { n * size < 4294967296 → result ≡ option_map_or (λ other. lesser least (record { line = Line.EntryOutOfOrder; address = n * size; other = other })) found least }
{
    match found {
        None => least,
        Some(other) => lesser(
            least,
            Fault::at(Line::EntryOutOfOrder, block_address(n, size), other),
        ),
    }
}

/// The first block with a key that is not above the one to its left.
pub fn entry_order_fault<S: BlockStore>(
    chain: &[u32],
    volume: &mut Volume<S>,
    dbd: &Dbd,
) -> Result<Option<Fault>, Refused>
    requires of { IsTrue volume.old.is_sound → IsVolumeOf dbd.now volume.old }
    requires version { IsTrue volume.old.is_sound → (header_of volume.old.image).version ≡ 1 }
    requires formed { IsTrue volume.old.is_sound → ChainIsFormed (root_key_length dbd.now.types) volume.old }
    requires chain { IsTrue volume.old.is_sound → chain.now ≡ entry_blocks volume.old }
    ensures read { IsRead volume.old result volume.new }
    ensures none { WhereNone volume.old result (keys_ascend (entries (root_key_length dbd.now.types) volume.old) ≡ true) }
    ensures some { WhereSome volume.old result (λ f. IsLeastOf dbd.now volume.old 11 f) }
    ensures refusal { OnlyDevice result }
{
    let size = volume.block_size() as u32;
    let key_length = root_key_length(dbd);
    let mut left = Left {
        key: [0; 255],
        is_some: false,
    };
    let mut least = None;
    for n in chain {
        let found = not_above_in(&mut left, volume, key_length, *n)?;
        least = least_with(least, found, *n, size);
    }
    Ok(least)
}

/// All blocks with a key that is not above the one to its left, each with what the first such entry names.
pub fn entry_order_faults<S: BlockStore>(
    alloc: Global,
    chain: &[u32],
    volume: &mut Volume<S>,
    dbd: &Dbd,
) -> Result<Vec<Fault>, Refused>
    requires of { IsTrue volume.old.is_sound → IsVolumeOf dbd.now volume.old }
    requires version { IsTrue volume.old.is_sound → (header_of volume.old.image).version ≡ 1 }
    requires formed { IsTrue volume.old.is_sound → ChainIsFormed (root_key_length dbd.now.types) volume.old }
    requires chain { IsTrue volume.old.is_sound → chain.now ≡ entry_blocks volume.old }
    ensures read { IsRead volume.old result volume.new }
    ensures faults { IfOk result (λ faults. IsTrue volume.old.is_sound → AreStanding dbd.now volume.old 11 faults.items) }
    ensures refusal { OnlyDeviceOrMemory result }
{
    let size = volume.block_size() as u32;
    let key_length = root_key_length(dbd);
    let mut left = Left {
        key: [0; 255],
        is_some: false,
    };
    let mut found = Vec::new(alloc);
    for n in chain {
        let other = not_above_in(&mut left, volume, key_length, *n)?;
        list_fault(
            &mut found,
            fault_naming(other, Line::EntryOutOfOrder, *n, size),
        )?;
    }
    in_order(alloc, found)
}
