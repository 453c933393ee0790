ghost use Rattle.std.specs.Prelude.{◌≡◌, ◌≤◌, nat_lt, length, IsTrue, IfOk};
ghost use Rattle.hd_dbd.specs.Refusals.{OnlyDevice};
ghost use Rattle.hd_volume.specs.Volumes.{block_at};
ghost use Rattle.hd_volume.specs.Calls.{IsRead};
ghost use Rattle.hd_volume.specs.Entries.{entries_in};
ghost use Rattle.hd_index_blocks.specs.Fields.{CountFits};
ghost use Rattle.hd_index.specs.Blocks.{IsInOrder};
ghost use Rattle.hd_index.specs.Removals.{IsWay, lower_fork_of, IfOnWay};
ghost use Rattle.hd_index.specs.Changes.{WhereSound};

use crate::look::has_block;
use crate::stand::{Stand, step_down};
use hd_dbd::Refused;
use hd_index_blocks::{FIRST, IndexBlock};
use hd_stores::BlockStore;
use hd_volume::Volume;

/// A block on a way down that has more than one entry, and its level; its number is 0 where there is none.
#[derive(Clone, Copy, Debug)]
pub struct Fork {
    pub level: u32,
    pub stand: Stand,
}

/// A way down: where it ends in the sequence set, and its lowest fork.
#[derive(Clone, Copy, Debug)]
pub struct Way {
    pub leaf: Stand,
    pub fork: Fork,
}

/// A block has more than one entry.
fn has_more_in(block: &IndexBlock) -> bool
    ensures { CountFits block.now.key_length block.now.bytes.now → result ≡ nat_lt 1 (length (entries_in block.now.key_length block.now.bytes.now)) }
{
    block.count() > 1
}

/// A block of the volume has more than one entry.
fn has_more<S: BlockStore>(
    volume: &mut Volume<S>,
    key_length: usize,
    n: u32,
) -> Result<bool, Refused>
    requires short { key_length ≤ 255 }
    ensures read { IsRead volume.old result volume.new }
    ensures value { IfOk result (λ more. IsTrue volume.old.is_sound → IsInOrder key_length volume.old n → more ≡ nat_lt 1 (length (entries_in key_length (block_at volume.old n)))) }
    ensures refusal { OnlyDevice result }
{
    if !has_block(volume, n) {
        return Ok(false);
    }
    let bytes = volume.block(n)?;
    if bytes.len() < FIRST {
        return Ok(false);
    }
    Ok(has_more_in(&IndexBlock { bytes, key_length }))
}

/// The lower of a fork above a block and the block, where that is a fork too.
fn lower_fork<S: BlockStore>(
    volume: &mut Volume<S>,
    key_length: usize,
    above: Fork,
    level: u32,
    stand: Stand,
) -> Result<Fork, Refused>
    requires short { key_length ≤ 255 }
    ensures read { IsRead volume.old result volume.new }
    ensures value { WhereSound volume.old result (λ fork. IsInOrder key_length volume.old stand.block → fork ≡ lower_fork_of key_length volume.old above level stand) }
    ensures refusal { OnlyDevice result }
{
    let more = has_more(volume, key_length, stand.block)?;
    Ok(if more { Fork { level, stand } } else { above })
}

/// The way down that a key leads from a block so many levels above the sequence set.
pub fn way_down<S: BlockStore>(
    volume: &mut Volume<S>,
    key_length: usize,
    levels: u32,
    start: Stand,
    key: &[u8],
) -> Result<Way, Refused>
    requires short { key_length ≤ 255 }
    ensures read { IsRead volume.old result volume.new }
    ensures way { WhereSound volume.old result (λ way. IfOnWay key_length volume.old key.now levels start (IsWay key_length volume.old key.now levels start.block way)) }
    ensures refusal { OnlyDevice result }
{
    let mut stand = start;
    let mut fork = Fork {
        level: 0,
        stand: Stand { left: 0, block: 0 },
    };
    for steps in 0..levels {
        fork = lower_fork(volume, key_length, fork, levels - steps, stand)?;
        stand = step_down(volume, key_length, stand, key)?;
    }
    let lowest = lower_fork(volume, key_length, fork, 0, stand)?;
    Ok(Way {
        leaf: stand,
        fork: lowest,
    })
}
