ghost use Rattle.std.specs.Prelude.{◌≡◌, ◌≤◌, IsTrue, IfOk};
ghost use Rattle.hd_dbd.specs.Refusals.{OnlyDevice};
ghost use Rattle.hd_volume.specs.Calls.{IsRead};
ghost use Rattle.hd_index_blocks.specs.IndexSets.{HasIndexSet};
ghost use Rattle.hd_index.specs.Blocks.{leaf_at, LeadsDown};
ghost use Rattle.hd_index.specs.Changes.{WhereSound};

use crate::look::child;
use hd_dbd::Refused;
use hd_stores::BlockStore;
use hd_volume::Volume;

/// An index has at most so many levels.
pub const MOST_LEVELS: u32 = 64;

/// The block that a key leads to so many levels below a block.
pub fn descend<S: BlockStore>(
    volume: &mut Volume<S>,
    key_length: usize,
    levels: u32,
    n: u32,
    key: &[u8],
) -> Result<u32, Refused>
    requires short { key_length ≤ 255 }
    ensures read { IsRead volume.old result volume.new }
    ensures value { WhereSound volume.old result (λ m. HasIndexSet key_length volume.old → LeadsDown key_length volume.old key.now levels n m) }
    ensures refusal { OnlyDevice result }
{
    let mut below = n;
    for _ in 0..levels {
        below = child(volume, key_length, below, key)?;
    }
    Ok(below)
}

/// The block of the sequence set that a key leads to from the top, 0 where there is none.
pub fn leaf<S: BlockStore>(
    volume: &mut Volume<S>,
    key_length: usize,
    key: &[u8],
) -> Result<u32, Refused>
    requires short { key_length ≤ 255 }
    ensures read { IsRead volume.old result volume.new }
    ensures value { IfOk result (λ n. IsTrue volume.old.is_sound → HasIndexSet key_length volume.old → n ≡ leaf_at key_length volume.old key.now) }
    ensures refusal { OnlyDevice result }
{
    let top = volume.top();
    let height = volume.height();
    if top == 0 || height == 0 || height > MOST_LEVELS {
        return Ok(0);
    }
    let n = descend(volume, key_length, height - 1, top, key)?;
    Ok(n)
}
