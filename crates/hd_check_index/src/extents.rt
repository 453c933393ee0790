//! The least and the greatest key below a block.
ghost use Rattle.std.specs.Prelude.{◌≡◌, ℕ, ◌≤◌, ◌<◌, length, take, cond, List, ◌++◌};
ghost use Rattle.hd_volume.specs.Indexes.{key_less};
ghost use Rattle.hd_index_blocks.specs.Levels.{IndexBlocks, entries_below};
ghost use Rattle.hd_check_index.specs.Extents.{IsExtent, OfGathered, OfKeysBetween};
ghost use Rattle.hd_check_index.specs.BlockExtents.{AreExtents, IsExtentBelow};
ghost use Rattle.hd_check_index.specs.Counted.{OfSomeEntries};

use hd_dbd::compare_keys;
use hd_index_blocks::IndexBlock;

/// The least and the greatest key of some entries, each at the front.
#[derive(Clone, Copy)]
pub struct Extent {
    pub least: [u8; 255],
    pub greatest: [u8; 255],
}

/// Puts a key at the front of a place; what stands behind it stays.
fn put_key(place: &mut [u8; 255], key: &[u8])
    requires short { length key.now ≤ 255 }
    ensures { take (length key.now) place.new ≡ key.now }
{
    place[..key.len()].copy_from_slice(key);
}

/// Puts a key in a place where it is the first, or is not above the one at the front.
fn lessen(place: &mut [u8; 255], key: &[u8], is_first: bool)
    requires short { length key.now ≤ 255 }
    ensures { take (length key.now) place.new ≡ cond is_first key.now (cond (key_less (take (length key.now) place.old) key.now) (take (length key.now) place.old) key.now) }
{
    if is_first {
        put_key(place, key);
        return;
    }
    if compare_keys(&place[..key.len()], key).is_lt() {
        return;
    }
    put_key(place, key);
}

/// Puts a key in a place where it is the first, or is above the one at the front.
fn raise(place: &mut [u8; 255], key: &[u8], is_first: bool)
    requires short { length key.now ≤ 255 }
    ensures { take (length key.now) place.new ≡ cond is_first key.now (cond (key_less (take (length key.now) place.old) key.now) key.now (take (length key.now) place.old)) }
{
    if is_first {
        put_key(place, key);
        return;
    }
    if compare_keys(&place[..key.len()], key).is_lt() {
        put_key(place, key);
    }
}

/// Widens the extent of so many entries or blocks by that of one more, whose least and greatest key are these.
fn widen(count: usize, extent: &mut Extent, least: &[u8], greatest: &[u8], key_length: usize)
    requires short { key_length ≤ 255 }
    requires whole { (length least.now ≡ key_length) × (length greatest.now ≡ key_length) }
    ensures { OfGathered key_length count extent.old (λ es. OfKeysBetween key_length least.now greatest.now (λ more. IsExtent key_length extent.new (es ++ more))) }
{
    let _ = key_length;
    let is_first = count == 0;
    lessen(&mut extent.least, least, is_first);
    raise(&mut extent.greatest, greatest, is_first);
}

/// The extent of a block's own entries.
fn extent_of_entries(block: &IndexBlock) -> Extent
    ensures { OfSomeEntries block.now (λ es. IsExtent block.now.key_length result es) }
{
    let mut extent = no_extent();
    for index in 0..block.count() {
        let key = block.key(index);
        widen(index, &mut extent, key, key, block.key_length);
    }
    extent
}

/// The extent of blocks that have these.
fn extent_of_blocks(blocks: &[Extent], key_length: usize) -> Extent
    requires short { key_length ≤ 255 }
    ensures { (c : IndexBlocks) (l : ℕ) (ns : List ℕ) → 0 < length blocks.now → AreExtents key_length c l ns blocks.now → IsExtent key_length result (entries_below c l ns) }
{
    let mut extent = no_extent();
    for index in 0..blocks.len() {
        let more = &blocks[index];
        widen(
            index,
            &mut extent,
            &more.least[..key_length],
            &more.greatest[..key_length],
            key_length,
        );
    }
    extent
}

/// The extent of a block of a level, above level 0 by those of the blocks below, of which the first are its own.
pub fn extent_below(block: &IndexBlock, level: u8, below: &[Extent]) -> Extent
    ensures { OfSomeEntries block.now (λ es. IsExtentBelow block.now.key_length level es below.now result) }
{
    if level == 0 {
        return extent_of_entries(block);
    }
    let count = block.count().min(below.len());
    extent_of_blocks(&below[..count], block.key_length)
}

/// The extent from one key to another.
pub fn extent_between(least: &[u8], greatest: &[u8]) -> Extent
    requires short { (length least.now ≤ 255) × (length greatest.now ≤ 255) }
    ensures least { take (length least.now) result.least ≡ least.now }
    ensures greatest { take (length greatest.now) result.greatest ≡ greatest.now }
{
    let mut extent = no_extent();
    put_key(&mut extent.least, least);
    put_key(&mut extent.greatest, greatest);
    extent
}

/// What stands where there is no entry yet.
fn no_extent() -> Extent {
    Extent {
        least: [0; 255],
        greatest: [0; 255],
    }
}
