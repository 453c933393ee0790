//! Phase 12: each entry names a root of its key.
ghost use Rattle.std.specs.Prelude.{◌≡◌, ℕ, ◌<◌, ◌≤◌, ◌/◌, List, [], ◌++◌, ◌==◌, ◌&&◌, not, Some, map, bytes_eq, true, false, IsTrue, IfOk, IfSome};
ghost use Rattle.std.specs.List.{list_all};
ghost use Rattle.hd_bytes.specs.Blocks.{HasBlock};
ghost use Rattle.hd_dbd.specs.Refusals.{OnlyMemory, OnlyDevice, OnlyDeviceOrMemory};
ghost use Rattle.hd_dbd.specs.Hierarchy.{Database};
ghost use Rattle.hd_dbd.specs.Rows.{key_of};
ghost use Rattle.hd_volume.specs.Volumes.{VolumeState, block_at, IsFormatted};
ghost use Rattle.hd_volume.specs.Entries.{entries_in};
ghost use Rattle.hd_index_blocks.specs.Fields.{entry_count, entry_in};
ghost use Rattle.hd_index_blocks.specs.IndexSets.{index_entries};
ghost use Rattle.hd_volume.specs.Indexes.{root_key_length, IsEntryBlock};
ghost use Rattle.hd_volume.specs.Calls.{IsRead, HasSegment};
ghost use Rattle.hd_prefix.specs.Fields.{bytes_of, IsWhole};
ghost use Rattle.hd_image.specs.IndexFaults.{names_a_root};
ghost use Rattle.hd_image.specs.Records.{links_of, IsVolumeOf};
ghost use Rattle.hd_check_blocks.specs.Phases.{IsLeastOf};
ghost use Rattle.hd_check_blocks.specs.Listing.{AreStanding};
ghost use Rattle.hd_check_blocks.specs.Places.{IsPlaceOf, ArePlaces};
ghost use Rattle.hd_check_blocks.specs.Keys.{key_place};
ghost use Rattle.hd_check_blocks.specs.DataBlocks.{OfDataBlock};
ghost use Rattle.hd_check_index.specs.DataBlocks.{FirstNameRoots, AreFirstNoted};
ghost use Rattle.hd_check_index.specs.IndexPhases.{OfCounted, IsSequence, AreNamed, AllNameRoots, first_wrong_in, first_wrong_entry};
ghost use Rattle.hd_check_blocks.specs.Finding.{WhereNone, WhereSome};

use crate::key_order::order_of;
use crate::listed::fault_naming;
use crate::noted_blocks::block_address;
use hd_check_blocks::{
    Directory, Fault, KeyPlace, Place, bytes_from, key_at, key_place, list_fault, number_near,
    whole_key,
};
use hd_dbd::{Dbd, Refused};
use hd_image::Line;
use hd_index_blocks::{FIRST, IndexBlock, root_key_length};
use hd_stores::BlockStore;
use hd_volume::Volume;
use std::alloc::Global;

/// Whether a stored root has a key, by where roots have theirs.
fn has_key(own: Option<KeyPlace>, dbd: &Dbd, segment: &[u8], key: &[u8]) -> bool
    requires { own ≡ key_place dbd.now.types 1 }
    ensures { IsWhole dbd.now.types 1 segment.now → result ≡ bytes_eq (key_of dbd.now.types (record { code = 1; bytes = bytes_of dbd.now.types 1 segment.now })) key.now }
{
    order_of(key_at(own, dbd, 1, segment), key).is_eq()
}

/// Whether an address is that of a root, which is looked for at a number first; that of the place behind it is kept then.
fn is_root(places: &[Place], directory: &Directory, address: u32, near: &mut usize) -> bool
    ensures { (d : Database) (v : VolumeState) → let m = links_of d.types v in ArePlaces d.types v places.now → result ≡ (not (address == 0) && m.here address && (m.code address == 1)) }
{
    match number_near(places, directory, address, *near) {
        Some(number) => {
            *near = number + 1;
            let place = places[number];
            place.code == 1
        }
        None => false,
    }
}

/// Whether an entry of a key and an address names a root of its key, by where roots have theirs.
fn names_root<S: BlockStore>(
    own: Option<KeyPlace>,
    places: &[Place],
    directory: &Directory,
    near: &mut usize,
    volume: &mut Volume<S>,
    dbd: &Dbd,
    key: &[u8],
    address: u32,
) -> Result<bool, Refused>
    requires own { own ≡ key_place dbd.now.types 1 }
    requires of { IsTrue volume.old.is_sound → IsVolumeOf dbd.now volume.old }
    requires places { IsTrue volume.old.is_sound → ArePlaces dbd.now.types volume.old places.now }
    ensures read { IsRead volume.old result volume.new }
    ensures value { IfOk result (λ b. IsTrue volume.old.is_sound → b ≡ names_a_root dbd.now (links_of dbd.now.types volume.old) (record { key = key.now; address = address })) }
    ensures refusal { OnlyDevice result }
{
    if !is_root(places, directory, address, near) {
        return Ok(false);
    }
    let segment = volume.segment_at(address)?;
    Ok(has_key(own, dbd, segment, key))
}

/// Whether a root stands at an address, which is that of the place of a number.
fn is_root_at(places: &[Place], number: usize, address: u32) -> bool
    ensures { result ≡ true → IsPlaceOf (record { address = address; code = 1 }) places.now }
{
    if number >= places.len() {
        return false;
    }
    let place = places[number];
    if place.address != address {
        return false;
    }
    place.code == 1
}

/// Whether the root with which some bytes begin has a key, by where roots, which are all of one length, have theirs.
fn has_own_key(place: KeyPlace, dbd: &Dbd, bytes: &[u8], key: &[u8]) -> bool
    requires { Some place ≡ key_place dbd.now.types 1 }
    ensures { result ≡ true → bytes_eq (key_of dbd.now.types (record { code = 1; bytes = bytes_of dbd.now.types 1 bytes.now })) key.now ≡ true }
{
    let _types = dbd.types();
    match whole_key(place, bytes) {
        Some(own) => order_of(own, key).is_eq(),
        None => false,
    }
}

/// Whether an entry of a key and an address names a root of its key, which is at the place of a number, and in a data block that begins at another
/// address.
fn names_root_in(
    own: KeyPlace,
    places: &[Place],
    number: usize,
    bytes: &[u8],
    first: u32,
    dbd: &Dbd,
    key: &[u8],
    address: u32,
) -> bool
    requires own { Some own ≡ key_place dbd.now.types 1 }
    ensures { result ≡ true → OfDataBlock dbd.now places.now bytes.now first (λ v. names_a_root dbd.now (links_of dbd.now.types v) (record { key = key.now; address = address }) ≡ true) }
{
    if !is_root_at(places, number, address) {
        return false;
    }
    match bytes_from(bytes, first, address) {
        Some(segment) => has_own_key(own, dbd, segment, key),
        None => false,
    }
}

/// Notes what the entries of an index block name from an index on, as long as each names a root of its key, which is at the next place from a number
/// on, and in one data block; the index behind them.
fn name_on(
    named: &mut Vec<u32>,
    own: KeyPlace,
    places: &[Place],
    near: usize,
    bytes: &[u8],
    first: u32,
    dbd: &Dbd,
    block: &IndexBlock,
    index: usize,
) -> Result<usize, Refused>
    requires own { Some own ≡ key_place dbd.now.types 1 }
    requires low { index ≤ entry_count block.now.key_length block.now.bytes.now }
    ensures low { IfOk result (λ i. (index ≤ i) × (i ≤ entry_count block.now.key_length block.now.bytes.now)) }
    ensures right { IfOk result (λ i. OfDataBlock dbd.now places.now bytes.now first (λ v. FirstNameRoots dbd.now v block.now.key_length block.now.bytes.now index → FirstNameRoots dbd.now v block.now.key_length block.now.bytes.now i)) }
    ensures named { IfOk result (λ i. (before : List ℕ) → AreFirstNoted before block.now.key_length block.now.bytes.now index named.old.items → AreFirstNoted before block.now.key_length block.now.bytes.now i named.new.items) }
    ensures refusal { OnlyMemory result }
{
    let count = block.count();
    let mut number = near;
    for next in index..count {
        let key = block.key(next);
        let address = block.address(next);
        if !names_root_in(own, places, number, bytes, first, dbd, key, address) {
            return Ok(next);
        }
        if named.push(address).is_err() {
            return Err(Refused::Memory);
        }
        number = number.saturating_add(1);
    }
    Ok(count)
}

/// Whether the entry of an index block at an index, if there is one, names a root which is at the place of a number, and in the block of an address.
fn is_beside(
    places: &[Place],
    number: usize,
    block: &IndexBlock,
    index: usize,
    address: u32,
    size: u32,
) -> bool
    requires some { 0 < size }
{
    if index >= block.count() {
        return false;
    }
    let next = block.address(index);
    is_root_at(places, number, next) && next / size == address / size
}

/// Notes what the entries of an index block name, as `name_on` does, over the data block of an address, which is read.
fn name_beside<S: BlockStore>(
    named: &mut Vec<u32>,
    own: KeyPlace,
    places: &[Place],
    near: usize,
    volume: &mut Volume<S>,
    address: u32,
    dbd: &Dbd,
    block: &IndexBlock,
    index: usize,
) -> Result<usize, Refused>
    requires own { Some own ≡ key_place dbd.now.types 1 }
    requires low { index ≤ entry_count block.now.key_length block.now.bytes.now }
    requires of { IsTrue volume.old.is_sound → IsVolumeOf dbd.now volume.old }
    requires places { IsTrue volume.old.is_sound → ArePlaces dbd.now.types volume.old places.now }
    requires there { IsTrue volume.old.is_sound → HasBlock volume.old.size volume.old.image (address / volume.old.size) }
    ensures read { IsRead volume.old result volume.new }
    ensures low { IfOk result (λ i. (index ≤ i) × (i ≤ entry_count block.now.key_length block.now.bytes.now)) }
    ensures right { IfOk result (λ i. IsTrue volume.old.is_sound → FirstNameRoots dbd.now volume.old block.now.key_length block.now.bytes.now index → FirstNameRoots dbd.now volume.old block.now.key_length block.now.bytes.now i) }
    ensures named { IfOk result (λ i. (before : List ℕ) → AreFirstNoted before block.now.key_length block.now.bytes.now index named.old.items → AreFirstNoted before block.now.key_length block.now.bytes.now i named.new.items) }
    ensures refusal { OnlyDeviceOrMemory result }
{
    let size = volume.block_size() as u32;
    let n = address / size;
    let bytes = volume.block(n)?;
    let first = n * size;
    name_on(named, own, places, near, bytes, first, dbd, block, index)
}

/// Judges the entry of an index block at an index, and those behind it whose roots stand beside its root; what they name is noted. The index behind them, or
/// `None` where the first names no root of its key.
fn judge_from<S: BlockStore>(
    named: &mut Vec<u32>,
    own: Option<KeyPlace>,
    places: &[Place],
    directory: &Directory,
    near: &mut usize,
    volume: &mut Volume<S>,
    dbd: &Dbd,
    block: &IndexBlock,
    index: usize,
) -> Result<Option<usize>, Refused>
    requires own { own ≡ key_place dbd.now.types 1 }
    requires low { index < entry_count block.now.key_length block.now.bytes.now }
    requires of { IsTrue volume.old.is_sound → IsVolumeOf dbd.now volume.old }
    requires places { IsTrue volume.old.is_sound → ArePlaces dbd.now.types volume.old places.now }
    ensures read { IsRead volume.old result volume.new }
    ensures low { IfOk result (λ o. IfSome o (λ i. (index < i) × (i ≤ entry_count block.now.key_length block.now.bytes.now))) }
    ensures wrong { WhereNone volume.old result (names_a_root dbd.now (links_of dbd.now.types volume.old) (entry_in block.now.key_length block.now.bytes.now index) ≡ false) }
    ensures right { WhereSome volume.old result (λ i. FirstNameRoots dbd.now volume.old block.now.key_length block.now.bytes.now index → FirstNameRoots dbd.now volume.old block.now.key_length block.now.bytes.now i) }
    ensures named { IfOk result (λ o. IfSome o (λ i. (before : List ℕ) → AreFirstNoted before block.now.key_length block.now.bytes.now index named.old.items → AreFirstNoted before block.now.key_length block.now.bytes.now i named.new.items)) }
    ensures refusal { OnlyDeviceOrMemory result }
{
    let key = block.key(index);
    let address = block.address(index);
    if !names_root(own, places, directory, near, volume, dbd, key, address)? {
        return Ok(None);
    }
    if named.push(address).is_err() {
        return Err(Refused::Memory);
    }
    let behind = index + 1;
    let size = volume.block_size() as u32;
    let Some(place) = own else {
        return Ok(Some(behind));
    };
    if !is_beside(places, *near, block, behind, address, size) {
        return Ok(Some(behind));
    }
    let end = name_beside(
        named, place, places, *near, volume, address, dbd, block, behind,
    )?;
    *near = near.saturating_add(end - behind);
    Ok(Some(end))
}

/// The address in the first entry of a copied block that names no root of its key; where there is none, the addresses of all are noted.
fn wrong_among<S: BlockStore>(
    named: &mut Vec<u32>,
    places: &[Place],
    directory: &Directory,
    near: &mut usize,
    volume: &mut Volume<S>,
    dbd: &Dbd,
    block: &IndexBlock,
) -> Result<Option<u32>, Refused>
    requires of { IsTrue volume.old.is_sound → IsVolumeOf dbd.now volume.old }
    requires places { IsTrue volume.old.is_sound → ArePlaces dbd.now.types volume.old places.now }
    ensures read { IsRead volume.old result volume.new }
    ensures none { WhereNone volume.old result (OfCounted block.now.key_length block.now.bytes.now (λ es. list_all (λ e. names_a_root dbd.now (links_of dbd.now.types volume.old) e) es ≡ true)) }
    ensures named { WhereNone volume.old result (OfCounted block.now.key_length block.now.bytes.now (λ es. named.new.items ≡ named.old.items ++ map (λ e. e.address) es)) }
    ensures some { WhereSome volume.old result (λ a. OfCounted block.now.key_length block.now.bytes.now (λ es. first_wrong_entry dbd.now volume.old es ≡ Some a)) }
    ensures refusal { OnlyDeviceOrMemory result }
{
    let own = key_place(dbd, 1);
    let count = block.count();
    let mut index: usize = 0;
    while index < count {
        let judged = judge_from(
            named, own, places, directory, near, volume, dbd, block, index,
        )?;
        match judged {
            Some(behind) => index = behind,
            None => return Ok(Some(block.address(index))),
        }
    }
    Ok(None)
}

/// The address in the first entry of an index block that names no root of its key; where there is none, the addresses of all
/// are noted.
fn wrong_entry<S: BlockStore>(
    alloc: Global,
    named: &mut Vec<u32>,
    places: &[Place],
    directory: &Directory,
    near: &mut usize,
    volume: &mut Volume<S>,
    dbd: &Dbd,
    n: u32,
) -> Result<Option<u32>, Refused>
    requires of { IsTrue volume.old.is_sound → IsVolumeOf dbd.now volume.old }
    requires places { IsTrue volume.old.is_sound → ArePlaces dbd.now.types volume.old places.now }
    requires block { IsTrue volume.old.is_sound → IsEntryBlock (root_key_length dbd.now.types) volume.old n }
    ensures read { IsRead volume.old result volume.new }
    ensures none { WhereNone volume.old result (AllNameRoots dbd.now volume.old n) }
    ensures named { WhereNone volume.old result (named.new.items ≡ named.old.items ++ map (λ e. e.address) (entries_in (root_key_length dbd.now.types) (block_at volume.old n))) }
    ensures some { WhereSome volume.old result (λ a. first_wrong_in dbd.now volume.old n ≡ Some a) }
    ensures refusal { OnlyDeviceOrMemory result }
{
    let least = volume.block_size();
    let key_length = root_key_length(dbd);
    let bytes = copied(alloc, volume, n)?;
    if bytes.len() < FIRST {
        return Ok(None);
    }
    let block = IndexBlock {
        bytes: &bytes,
        key_length,
    };
    wrong_among(named, places, directory, near, volume, dbd, &block)
}

/// The bytes of a block, copied.
fn copied<S: BlockStore>(alloc: Global, volume: &mut Volume<S>, n: u32) -> Result<Vec<u8>, Refused>
    requires there { IsTrue volume.old.is_sound → HasBlock volume.old.size volume.old.image n }
    ensures read { IsRead volume.old result volume.new }
    ensures value { IfOk result (λ bytes. IsTrue volume.old.is_sound → bytes.items ≡ block_at volume.old n) }
    ensures refusal { OnlyDeviceOrMemory result }
{
    let bytes = volume.block(n)?;
    Vec::from_slice(alloc, bytes).map_err(|_| Refused::Memory)
}

/// The first of the blocks that bear the index's entries with an entry that names no root of its key; where there is none, what the entries
/// name is noted.
pub fn wrong_entry_fault<S: BlockStore>(
    alloc: Global,
    named: &mut Vec<u32>,
    blocks: &[u32],
    places: &[Place],
    directory: &Directory,
    volume: &mut Volume<S>,
    dbd: &Dbd,
) -> Result<Option<Fault>, Refused>
    requires empty { named.old.items ≡ [] }
    requires of { IsTrue volume.old.is_sound → IsVolumeOf dbd.now volume.old }
    requires places { IsTrue volume.old.is_sound → ArePlaces dbd.now.types volume.old places.now }
    requires blocks { IsTrue volume.old.is_sound → IsSequence (root_key_length dbd.now.types) volume.old blocks.now }
    ensures read { IsRead volume.old result volume.new }
    ensures none { WhereNone volume.old result (list_all (λ e. names_a_root dbd.now (links_of dbd.now.types volume.old) e) (index_entries (root_key_length dbd.now.types) volume.old) ≡ true) }
    ensures named { WhereNone volume.old result (AreNamed (root_key_length dbd.now.types) volume.old named.new.items) }
    ensures some { WhereSome volume.old result (λ f. IsLeastOf dbd.now volume.old 12 f) }
    ensures refusal { OnlyDeviceOrMemory result }
{
    let size = volume.block_size() as u32;
    let mut near = 0;
    for block in blocks {
        match wrong_entry(
            alloc, named, places, directory, &mut near, volume, dbd, *block,
        )? {
            None => {}
            Some(address) => {
                return Ok(Some(Fault::at(Line::WrongEntry, block_address(*block, size), address)));
            }
        }
    }
    Ok(None)
}

/// All of the blocks that bear the index's entries with an entry that names no root of its key, each with what the first such entry names.
pub fn wrong_entry_faults<S: BlockStore>(
    alloc: Global,
    blocks: &[u32],
    places: &[Place],
    directory: &Directory,
    volume: &mut Volume<S>,
    dbd: &Dbd,
) -> Result<Vec<Fault>, Refused>
    requires of { IsTrue volume.old.is_sound → IsVolumeOf dbd.now volume.old }
    requires places { IsTrue volume.old.is_sound → ArePlaces dbd.now.types volume.old places.now }
    requires blocks { IsTrue volume.old.is_sound → IsSequence (root_key_length dbd.now.types) volume.old blocks.now }
    ensures read { IsRead volume.old result volume.new }
    ensures faults { IfOk result (λ faults. IsTrue volume.old.is_sound → AreStanding dbd.now volume.old 12 faults.items) }
    ensures refusal { OnlyDeviceOrMemory result }
{
    let size = volume.block_size() as u32;
    let mut near = 0;
    let mut named = Vec::new(alloc);
    let mut faults = Vec::new(alloc);
    for block in blocks {
        let found = wrong_entry(
            alloc, &mut named, places, directory, &mut near, volume, dbd, *block,
        )?;
        list_fault(
            &mut faults,
            fault_naming(found, Line::WrongEntry, *block, size),
        )?;
        named.clear();
    }
    Ok(faults)
}
