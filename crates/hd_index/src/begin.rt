ghost use Rattle.std.specs.Prelude.{◌≡◌, ◌+◌, ◌≤◌, IsTrue, length, IfOk, IfErr};
ghost use Rattle.hd_volume.specs.Volumes.{IsFormatted};
ghost use Rattle.hd_volume.specs.Calls.{IsCall};
ghost use Rattle.hd_index_blocks.specs.Fields.{entry_place};
ghost use Rattle.hd_index.specs.Edits.{IsBegun, IsRefused};

use crate::edit::{add_entry, set_next};
use hd_dbd::Refused;
use hd_stores::BlockStore;
use hd_volume::Volume;

/// Takes a new block of a level, with one entry and a block behind it, 0 for none, and says its number.
pub fn begin_block<S: BlockStore>(
    volume: &mut Volume<S>,
    level: u8,
    key: &[u8],
    address: u32,
    next: u32,
) -> Result<u32, Refused>
    requires formatted { IsTrue volume.old.is_sound → IsFormatted volume.old }
    requires short { length key.now ≤ 255 }
    requires least { 128 ≤ volume.old.size }
    requires most { volume.old.size ≤ 32768 }
    requires fits { entry_place (length key.now) 1 ≤ volume.old.size }
    ensures call { IsCall volume.old result volume.new }
    ensures begun { IfOk result (λ m. IsTrue volume.old.is_sound → IsBegun volume.old level m key.now address next volume.new) }
    ensures refused { IfErr result (λ e. IsRefused volume.old e volume.new) }
    ensures room { IsTrue volume.new.is_sound → volume.old.room ≤ volume.new.room + 1 }
{
    let m = volume.take_block(level)?;
    add_entry(volume, m, 0, 0, key, address)?;
    set_next(volume, m, next)?;
    Ok(m)
}
