ghost use Rattle.std.specs.Prelude.{◌≡◌, ◌≢◌, ◌≤◌, true, false, not, ◌+◌, ◌<◌, length, take, IsTrue, IfOk};
ghost use Rattle.std.specs.Option.{option_map_or};
ghost use Rattle.hd_bytes.specs.Blocks.{HasBlock};
ghost use Rattle.hd_dbd.specs.Hierarchy.{Database};
ghost use Rattle.hd_dbd.specs.Refusals.{OnlyDevice};
ghost use Rattle.hd_volume.specs.Calls.{IsRead};
ghost use Rattle.hd_volume.specs.Indexes.{entry_room, root_key_length};
ghost use Rattle.hd_index_blocks.specs.Fields.{CountFits};
ghost use Rattle.hd_index_blocks.specs.IndexSets.{index_blocks, HasIndexSet};
ghost use Rattle.hd_index_blocks.specs.Needs.{entry_growth, is_full, needed_by, set_blocks_needed, IsHighest};
ghost use Rattle.hd_index_blocks.specs.VolumeLaws.{IsRightBlock};
ghost use Rattle.hd_index.specs.Blocks.{IsInOrder, full_down, has_all_entries, run_with};
ghost use Rattle.hd_index.specs.Changes.{IsIndexOf, IsLater, WhereSound};
ghost use Rattle.hd_index.specs.Places.{blocks_needed};
ghost use Rattle.hd_index.specs.Greatest.{IsKnownLeaf, found_key};

use crate::descend::MOST_LEVELS;
use crate::greatest::greatest;
use crate::look::{child, has_block};
use hd_dbd::{Dbd, Refused};
use hd_index_blocks::{FIRST, IndexBlock, entry_room, root_key_length};
use hd_stores::BlockStore;
use hd_volume::Volume;

/// Whether the index of a volume has as many levels as it may have: then an insert may be refused as `Full`, whatever is to spare.
pub fn is_highest<S: BlockStore>(volume: &Volume<S>) -> bool
    ensures high { IsTrue volume.now.is_sound → HasBlock volume.now.size volume.now.image 0 → IsLater volume.now → result ≡ true → IsHighest volume.now }
    ensures low { IsTrue volume.now.is_sound → HasBlock volume.now.size volume.now.image 0 → result ≡ false → IsHighest volume.now → ⊥ }
{
    volume.height() == MOST_LEVELS
}

/// The blocks that an insert may need: one for each level, and a new top.
#[tactic(auto, unfolding(hd_index_blocks::specs::Needs::entry_growth))]
pub fn growth<S: BlockStore>(volume: &Volume<S>) -> u32
    ensures { (d : Database) → IsTrue volume.now.is_sound → IsIndexOf d volume.now → result ≡ entry_growth volume.now }
{
    volume.height().saturating_add(1)
}

/// The blocks that an insert of a new key takes, at most `growth`: one for each block that is divided, from the sequence set up,
/// and one for a new top.
pub fn blocks_needed<S: BlockStore>(
    volume: &mut Volume<S>,
    dbd: &Dbd,
    key: &[u8],
) -> Result<u32, Refused>
    requires index { IsTrue volume.old.is_sound → IsIndexOf dbd.now volume.old }
    ensures read { IsRead volume.old result volume.new }
    ensures value { IfOk result (λ n. IsTrue volume.old.is_sound → n ≡ blocks_needed (root_key_length dbd.now.types) volume.old key.now) }
    ensures refusal { OnlyDevice result }
{
    let key_length = root_key_length(dbd);
    let needed = blocks_for(volume, key_length, key)?;
    Ok(needed)
}

/// The blocks that a new key needs in an index of keys of a length.
fn blocks_for<S: BlockStore>(
    volume: &mut Volume<S>,
    key_length: usize,
    key: &[u8],
) -> Result<u32, Refused>
    requires short { key_length ≤ 255 }
    ensures read { IsRead volume.old result volume.new }
    ensures value { IfOk result (λ n. IsTrue volume.old.is_sound → HasIndexSet key_length volume.old → n ≡ set_blocks_needed key_length volume.old key.now) }
    ensures refusal { OnlyDevice result }
{
    let mut found = [0; 255];
    let below = greatest(volume, key_length, key, &mut found)?;
    let by = key_or(below.is_some, &found, key_length, key);
    let needed = needed_at(volume, key_length, below.leaf, by)?;
    Ok(needed)
}

/// The blocks that an entry needs where a key leads; the block of the sequence set there is given, 0 where it is not known. None where it
/// has room.
pub fn needed_at<S: BlockStore>(
    volume: &mut Volume<S>,
    key_length: usize,
    leaf: u32,
    by: &[u8],
) -> Result<u32, Refused>
    requires short { key_length ≤ 255 }
    requires leaf { IsTrue volume.old.is_sound → HasIndexSet key_length volume.old → IsKnownLeaf key_length volume.old by.now leaf }
    ensures read { IsRead volume.old result volume.new }
    ensures value { IfOk result (λ n. IsTrue volume.old.is_sound → HasIndexSet key_length volume.old → n ≡ needed_by key_length volume.old by.now) }
    ensures refusal { OnlyDevice result }
{
    let room = has_room(volume, key_length, leaf)?;
    if room {
        return Ok(0);
    }
    let needed = needed_for(volume, key_length, by)?;
    Ok(needed)
}

/// Whether a block has room for an entry more; not where it is 0.
fn has_room<S: BlockStore>(
    volume: &mut Volume<S>,
    key_length: usize,
    n: u32,
) -> Result<bool, Refused>
    requires short { key_length ≤ 255 }
    ensures read { IsRead volume.old result volume.new }
    ensures none { IfOk result (λ room. n ≡ 0 → room ≡ false) }
    ensures value { WhereSound volume.old result (λ room. n ≢ 0 → IsInOrder key_length volume.old n → room ≡ not (is_full (index_blocks key_length volume.old) (entry_room key_length volume.old.size) n)) }
    ensures refusal { OnlyDevice result }
{
    if n == 0 {
        return Ok(false);
    }
    let run = full_run(volume, key_length, n, 0)?;
    Ok(run == 0)
}

/// The blocks that an entry needs where a key leads.
pub fn needed_for<S: BlockStore>(
    volume: &mut Volume<S>,
    key_length: usize,
    by: &[u8],
) -> Result<u32, Refused>
    requires short { key_length ≤ 255 }
    ensures read { IsRead volume.old result volume.new }
    ensures value { IfOk result (λ n. IsTrue volume.old.is_sound → HasIndexSet key_length volume.old → n ≡ needed_by key_length volume.old by.now) }
    ensures refusal { OnlyDevice result }
{
    let top = volume.top();
    let height = volume.height();
    if top == 0 || height == 0 || height > MOST_LEVELS {
        return Ok(1);
    }
    let full = full_blocks(volume, key_length, height - 1, top, by)?;
    Ok(if full == height { full + 1 } else { full })
}

/// The key at the front of some bytes, where one was found, or else another.
pub fn key_or<'k>(is_some: bool, found: &'k [u8; 255], key_length: usize, key: &'k [u8]) -> &'k [u8]
    requires short { key_length ≤ 255 }
    ensures { result.now ≡ option_map_or (take key_length) (found_key is_some found.now) key.now }
{
    if is_some { &found[..key_length] } else { key }
}

/// How many blocks are full without a gap, from the sequence set up to a block so many levels above it, where a key leads down
/// from that.
fn full_blocks<S: BlockStore>(
    volume: &mut Volume<S>,
    key_length: usize,
    levels: u32,
    n: u32,
    key: &[u8],
) -> Result<u32, Refused>
    requires short { key_length ≤ 255 }
    requires few { levels < 64 }
    ensures read { IsRead volume.old result volume.new }
    ensures value { WhereSound volume.old result (λ full. HasIndexSet key_length volume.old → IsRightBlock key_length volume.old levels n → full ≡ full_down key_length volume.old key.now levels n) }
    ensures most { IfOk result (λ full. full ≤ 64) }
    ensures refusal { OnlyDevice result }
{
    let mut below = n;
    let mut run = 0;
    for _ in 0..levels {
        run = full_run(volume, key_length, below, run)?;
        below = child(volume, key_length, below, key)?;
    }
    let full = full_run(volume, key_length, below, run)?;
    Ok(full)
}

/// A block has as many entries as find room.
fn is_full_in(block: &IndexBlock) -> bool
    ensures { CountFits block.now.key_length block.now.bytes.now → result ≡ has_all_entries block.now.key_length block.now.bytes.now }
{
    block.count() >= entry_room(block.key_length, block.bytes.len())
}

/// The blocks that are full without a gap down to a block, by those above it: none where it is not full.
fn full_run<S: BlockStore>(
    volume: &mut Volume<S>,
    key_length: usize,
    n: u32,
    run: u32,
) -> Result<u32, Refused>
    requires short { key_length ≤ 255 }
    requires few { run < 64 }
    ensures read { IsRead volume.old result volume.new }
    ensures value { WhereSound volume.old result (λ full. IsInOrder key_length volume.old n → full ≡ run_with key_length volume.old n run) }
    ensures most { IfOk result (λ full. full ≤ run + 1) }
    ensures refusal { OnlyDevice result }
{
    if !has_block(volume, n) {
        return Ok(0);
    }
    let bytes = volume.block(n)?;
    if bytes.len() < FIRST {
        return Ok(0);
    }
    let full = is_full_in(&IndexBlock { bytes, key_length });
    Ok(if full { run + 1 } else { 0 })
}
