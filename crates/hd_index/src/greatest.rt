ghost use Rattle.std.specs.Prelude.{◌≡◌, ◌≤◌, ◌<◌, true, false, take, IsTrue, IfOk, slice_index};
ghost use Rattle.hd_bytes.specs.Numbers.{number_at};
ghost use Rattle.hd_bytes.specs.Ranges.{bytes_at};
ghost use Rattle.hd_dbd.specs.Refusals.{OnlyDevice};
ghost use Rattle.hd_volume.specs.Volumes.{block_at};
ghost use Rattle.hd_volume.specs.Calls.{IsRead};
ghost use Rattle.hd_volume.specs.Entries.{entries_in};
ghost use Rattle.hd_index_blocks.specs.Fields.{entry_count, entry_place, CountFits};
ghost use Rattle.hd_index_blocks.specs.Searches.{IfInOrder};
ghost use Rattle.hd_index_blocks.specs.IndexSets.{HasIndexSet};
ghost use Rattle.hd_index.specs.Blocks.{IsInOrder, entries_of};
ghost use Rattle.hd_index.specs.Greatest.{IsLastOf, IsGreatestOf, IsGreatestBelow, IsKnownLeaf, found_key, lower_key, IsGreatestIn};
ghost use Rattle.hd_index.specs.Stands.{IfAbout};
ghost use Rattle.hd_index.specs.Changes.{WhereSound};

use crate::descend::MOST_LEVELS;
use crate::look::has_block;
use crate::stand::{Stand, walk_down};
use hd_dbd::Refused;
use hd_index_blocks::{FIRST, IndexBlock};
use hd_stores::BlockStore;
use hd_volume::{INDEX, Volume};

/// Whether the index has a key below another, and the block of the sequence set that the greatest of those leads to, 0 where that is not
/// known.
#[derive(Clone, Copy, Debug)]
pub struct Lower {
    pub is_some: bool,
    pub leaf: u32,
}

/// What is known where the index has no key below another.
fn no_lower() -> Lower
    ensures none { result.is_some ≡ false }
    ensures leaf { result.leaf ≡ 0 }
{
    Lower {
        is_some: false,
        leaf: 0,
    }
}

/// Copies the key of an entry to the front of some bytes.
fn copy_key_at(block: &IndexBlock, index: usize, found: &mut [u8; 255])
    requires { index < entry_count block.now.key_length block.now.bytes.now }
    ensures { take block.now.key_length found.new ≡ bytes_at block.now.bytes.now (entry_place block.now.key_length index) block.now.key_length }
{
    found[..block.key_length].copy_from_slice(block.key(index));
}

/// The key of an entry, copied to the front.
pub fn key_copy(block: &IndexBlock, index: usize) -> [u8; 255]
    requires { index < entry_count block.now.key_length block.now.bytes.now }
    ensures { take block.now.key_length result ≡ bytes_at block.now.bytes.now (entry_place block.now.key_length index) block.now.key_length }
{
    let mut key = [0; 255];
    copy_key_at(block, index, &mut key);
    key
}

/// Copies the key of the entry before an index to the front of some bytes, and says whether there is one.
fn copy_key_before(block: &IndexBlock, index: usize, found: &mut [u8; 255]) -> bool
    requires { index ≤ entry_count block.now.key_length block.now.bytes.now }
    ensures { CountFits block.now.key_length block.now.bytes.now → IsLastOf block.now.key_length (found_key result found.new) (take index (entries_in block.now.key_length block.now.bytes.now)) }
{
    if index == 0 {
        return false;
    }
    copy_key_at(block, index - 1, found);
    true
}

/// Copies the greatest key below a key among those of the entries to the front of some bytes, and says whether there is one.
fn copy_greatest(block: &IndexBlock, key: &[u8], found: &mut [u8; 255]) -> bool
    ensures { IfInOrder block.now.key_length block.now.bytes.now (IsGreatestIn block.now.key_length (found_key result found.new) key.now block.now.bytes.now) }
{
    copy_key_before(block, block.place_of(key), found)
}

/// Copies the last key to the front of some bytes, and says whether there is one.
fn copy_last(block: &IndexBlock, found: &mut [u8; 255]) -> bool
    ensures { CountFits block.now.key_length block.now.bytes.now → IsLastOf block.now.key_length (found_key result found.new) (entries_in block.now.key_length block.now.bytes.now) }
{
    copy_key_before(block, block.count(), found)
}

/// A block is of level 0 and names no next block.
fn is_last(block: &IndexBlock) -> bool
    ensures level { result ≡ true → slice_index block.now.bytes.now 3 ≡ 0 }
    ensures next { result ≡ true → number_at 4 block.now.bytes.now 8 ≡ 0 }
{
    block.level() == 0 && block.next() == 0
}

/// Copies the greatest key below a key in the last block of the sequence set, and says whether a block is that and has one.
fn copy_greatest_in_last(block: &IndexBlock, key: &[u8], found: &mut [u8; 255]) -> bool
    ensures level { result ≡ true → slice_index block.now.bytes.now 3 ≡ 0 }
    ensures next { result ≡ true → number_at 4 block.now.bytes.now 8 ≡ 0 }
    ensures key { result ≡ true → IfInOrder block.now.key_length block.now.bytes.now (IsGreatestIn block.now.key_length (found_key result found.new) key.now block.now.bytes.now) }
{
    is_last(block) && copy_greatest(block, key, found)
}

/// Copies the greatest key below a key among those of a block to the front of some bytes, and says whether there is one.
fn greatest_in<S: BlockStore>(
    volume: &mut Volume<S>,
    key_length: usize,
    n: u32,
    key: &[u8],
    found: &mut [u8; 255],
) -> Result<bool, Refused>
    requires short { key_length ≤ 255 }
    ensures read { IsRead volume.old result volume.new }
    ensures value { IfOk result (λ r. IsTrue volume.old.is_sound → IsInOrder key_length volume.old n → IsGreatestOf key_length (found_key r found.new) key.now (entries_of key_length volume.old n)) }
    ensures refusal { OnlyDevice result }
{
    if !has_block(volume, n) {
        return Ok(false);
    }
    let bytes = volume.block(n)?;
    if bytes.len() < FIRST {
        return Ok(false);
    }
    Ok(copy_greatest(&IndexBlock { bytes, key_length }, key, found))
}

/// Copies the last key of a block to the front of some bytes, and says whether it has an entry.
pub fn last_in<S: BlockStore>(
    volume: &mut Volume<S>,
    key_length: usize,
    n: u32,
    found: &mut [u8; 255],
) -> Result<bool, Refused>
    requires short { key_length ≤ 255 }
    ensures read { IsRead volume.old result volume.new }
    ensures value { IfOk result (λ r. IsTrue volume.old.is_sound → IsInOrder key_length volume.old n → IsLastOf key_length (found_key r found.new) (entries_in key_length (block_at volume.old n))) }
    ensures refusal { OnlyDevice result }
{
    if !has_block(volume, n) {
        return Ok(false);
    }
    let bytes = volume.block(n)?;
    if bytes.len() < FIRST {
        return Ok(false);
    }
    Ok(copy_last(&IndexBlock { bytes, key_length }, found))
}

/// Copies the greatest key of the index below a key to the front of some bytes, and says whether it did. It does where block n is the last of the
/// sequence set and has a key below the given one; the greatest of those leads there.
fn copy_greatest_at_end<S: BlockStore>(
    volume: &mut Volume<S>,
    key_length: usize,
    n: u32,
    key: &[u8],
    found: &mut [u8; 255],
) -> Result<bool, Refused>
    requires short { key_length ≤ 255 }
    ensures read { IsRead volume.old result volume.new }
    ensures value { WhereSound volume.old result (λ r. HasIndexSet key_length volume.old → r ≡ true → IsGreatestBelow key_length volume.old key.now (found_key r found.new)) }
    ensures leaf { WhereSound volume.old result (λ r. HasIndexSet key_length volume.old → r ≡ true → IsKnownLeaf key_length volume.old (lower_key key_length volume.old key.now) n) }
    ensures refusal { OnlyDevice result }
{
    if n == 0 || !has_block(volume, n) || volume.kind(n) != INDEX {
        return Ok(false);
    }
    let bytes = volume.block(n)?;
    if bytes.len() < FIRST {
        return Ok(false);
    }
    Ok(copy_greatest_in_last(&IndexBlock { bytes, key_length }, key, found))
}

/// Copies the greatest key of the index below a key to the front of some bytes, and says whether there is one and the block of the sequence
/// set to which it leads, where that is known. The block that was noted is looked at first: where new keys come behind all others, that block
/// alone tells it.
pub fn greatest<S: BlockStore>(
    volume: &mut Volume<S>,
    key_length: usize,
    key: &[u8],
    found: &mut [u8; 255],
) -> Result<Lower, Refused>
    requires short { key_length ≤ 255 }
    ensures read { IsRead volume.old result volume.new }
    ensures value { WhereSound volume.old result (λ r. HasIndexSet key_length volume.old → IsGreatestBelow key_length volume.old key.now (found_key r.is_some found.new)) }
    ensures leaf { WhereSound volume.old result (λ r. HasIndexSet key_length volume.old → IsKnownLeaf key_length volume.old (lower_key key_length volume.old key.now) r.leaf) }
    ensures refusal { OnlyDevice result }
{
    let noted = volume.noted_block();
    let is_some = copy_greatest_at_end(volume, key_length, noted, key, found)?;
    if is_some {
        return Ok(Lower {
            is_some,
            leaf: noted,
        });
    }
    volume.note_block(0);
    let lower = greatest_down(volume, key_length, key, found)?;
    Ok(lower)
}

/// The same, by a walk down from the top.
fn greatest_down<S: BlockStore>(
    volume: &mut Volume<S>,
    key_length: usize,
    key: &[u8],
    found: &mut [u8; 255],
) -> Result<Lower, Refused>
    requires short { key_length ≤ 255 }
    ensures read { IsRead volume.old result volume.new }
    ensures value { WhereSound volume.old result (λ r. HasIndexSet key_length volume.old → IsGreatestBelow key_length volume.old key.now (found_key r.is_some found.new)) }
    ensures leaf { WhereSound volume.old result (λ r. HasIndexSet key_length volume.old → IsKnownLeaf key_length volume.old (lower_key key_length volume.old key.now) r.leaf) }
    ensures refusal { OnlyDevice result }
{
    let top = volume.top();
    let height = volume.height();
    if top == 0 || height == 0 || height > MOST_LEVELS {
        return Ok(no_lower());
    }
    let start = Stand {
        left: 0,
        block: top,
    };
    let stand = walk_down(volume, key_length, height - 1, start, key)?;
    let lower = greatest_about(volume, key_length, stand, key, found)?;
    Ok(lower)
}

/// The same, where a walk stands at a block about the key: that one's greatest key below it is taken, or else the last one of its left
/// neighbour.
fn greatest_about<S: BlockStore>(
    volume: &mut Volume<S>,
    key_length: usize,
    stand: Stand,
    key: &[u8],
    found: &mut [u8; 255],
) -> Result<Lower, Refused>
    requires short { key_length ≤ 255 }
    ensures read { IsRead volume.old result volume.new }
    ensures value { WhereSound volume.old result (λ r. IfAbout key_length volume.old key.now stand (IsGreatestBelow key_length volume.old key.now (found_key r.is_some found.new))) }
    ensures leaf { WhereSound volume.old result (λ r. IfAbout key_length volume.old key.now stand (IsKnownLeaf key_length volume.old (lower_key key_length volume.old key.now) r.leaf)) }
    ensures refusal { OnlyDevice result }
{
    let own = greatest_in(volume, key_length, stand.block, key, found)?;
    if own {
        return Ok(Lower {
            is_some: own,
            leaf: stand.block,
        });
    }
    if stand.left == 0 {
        return Ok(no_lower());
    }
    let last = last_in(volume, key_length, stand.left, found)?;
    Ok(Lower {
        is_some: last,
        leaf: 0,
    })
}
