ghost use Rattle.std.specs.Prelude.{◌≡◌, ◌+◌, ◌≤◌, ◌∷◌, [], IsTrue, length, IfErr, OnOk};
ghost use Rattle.hd_volume.specs.Headers.{header_of};
ghost use Rattle.hd_volume.specs.Volumes.{IsFormatted};
ghost use Rattle.hd_volume.specs.Calls.{IsCall};
ghost use Rattle.hd_index_blocks.specs.Fields.{entry_place};
ghost use Rattle.hd_index_blocks.specs.IndexSets.{HasIndexSet};
ghost use Rattle.hd_index.specs.Edits.{IsRefused};
ghost use Rattle.hd_index.specs.Changes.{IsChanged};
ghost use Rattle.hd_index.specs.Divisions.{IsTopBegun};

use crate::begin::begin_block;
use hd_dbd::Refused;
use hd_stores::BlockStore;
use hd_volume::Volume;

/// Takes a new block of a level, with one entry, and makes it the top.
pub fn begin_top<S: BlockStore>(
    volume: &mut Volume<S>,
    level: u8,
    key: &[u8],
    address: u32,
) -> Result<(), Refused>
    requires formatted { IsTrue volume.old.is_sound → IsFormatted volume.old }
    requires short { length key.now ≤ 255 }
    requires three { entry_place (length key.now) 3 ≤ volume.old.size }
    ensures call { IsCall volume.old result volume.new }
    ensures begun { OnOk result (IsTrue volume.old.is_sound → IsTopBegun volume.old level key.now address volume.new) }
    ensures refused { IfErr result (λ e. IsRefused volume.old e volume.new) }
    ensures room { IsTrue volume.new.is_sound → volume.old.room ≤ volume.new.room + 1 }
{
    let _size = volume.block_size();
    let m = begin_block(volume, level, key, address, 0)?;
    volume.set_top(m);
    volume.set_height(u32::from(level) + 1);
    Ok(())
}

/// Enters the root of a new key where the index has no block yet. The block is noted: the next one may come there too.
pub fn insert_first<S: BlockStore>(
    volume: &mut Volume<S>,
    key: &[u8],
    address: u32,
) -> Result<(), Refused>
    requires index { IsTrue volume.old.is_sound → HasIndexSet (length key.now) volume.old }
    requires none { IsTrue volume.old.is_sound → (header_of volume.old.image).top ≡ 0 }
    requires short { length key.now ≤ 255 }
    requires three { entry_place (length key.now) 3 ≤ volume.old.size }
    ensures call { IsCall volume.old result volume.new }
    ensures changed { OnOk result (IsTrue volume.old.is_sound → IsChanged (length key.now) volume.old (record { key = key.now; address = address } ∷ []) 1 volume.new) }
    ensures refused { IfErr result (λ e. IsRefused volume.old e volume.new) }
    ensures room { IsTrue volume.new.is_sound → volume.old.room ≤ volume.new.room + 1 }
{
    begin_top(volume, 0, key, address)?;
    let top = volume.top();
    volume.note_block(top);
    Ok(())
}
