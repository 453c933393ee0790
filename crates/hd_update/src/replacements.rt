ghost use Rattle.std.specs.Prelude.{◌≡◌, ◌≢◌, ◌+◌, ◌<◌, ◌≤◌, length, true, IsTrue, IfOk, IfErr};
ghost use Rattle.hd_dbd.specs.Facts.{stored_sizes};
ghost use Rattle.hd_dbd.specs.Prefixes.{size_with};
ghost use Rattle.hd_dbd.specs.Refusals.{OnlyDevice, OnlyRoomOrDevice};
ghost use Rattle.hd_dbd.specs.Rows.{row_fits};
ghost use Rattle.hd_volume.specs.Calls.{IsCall, IsRead};
ghost use Rattle.hd_volume.specs.Rooms.{spare, HasHole};
ghost use Rattle.hd_forest.specs.Replacing.{Outgrows};
ghost use Rattle.hd_forest.specs.Walks.{tip};
ghost use Rattle.hd_get.specs.Meeting.{IsStored};
ghost use Rattle.hd_get.specs.Searches.{IsOf};
ghost use Rattle.hd_update.specs.Replacing.{HaveRows, SaysKeyStays, SaysKeysStay, AreInArea, MayReplace, IsReplacedTo, MayReplaceSome, ReplacesThem};

use crate::paths::path_up_to;
use crate::replaced::{ReplacedRow, ReplacedRows};
use crate::rewrites::{NewBytes, part_for};
use hd_dbd::{Dbd, Refused};
use hd_forest::{Path, bytes_in, replace, tip_of};
use hd_index::set;
use hd_stores::BlockStore;
use hd_volume::Volume;

/// Whether the new bytes for a row have the key that it has. One access.
fn keeps_key<S: BlockStore>(
    volume: &mut Volume<S>,
    dbd: &Dbd,
    area: &[u8],
    row: &NewBytes,
) -> Result<bool, Refused>
    requires of { IsOf dbd.now volume.old }
    requires there { IsStored dbd.now volume.old row.now.address }
    ensures read { IsRead volume.old result volume.new }
    ensures value { IfOk result (λ r. SaysKeyStays dbd.now volume.old area.now row.now r) }
    ensures refusal { OnlyDevice result }
{
    let segment = volume.segment_at(row.address)?;
    let new = dbd.key_of(row.code, part_for(area, row));
    Ok(dbd.key_of(row.code, bytes_in(dbd, segment)) == new)
}

/// Whether the new bytes for each row have the key that it has. One access for each, up to the first that has another key.
pub fn keep_keys<S: BlockStore>(
    volume: &mut Volume<S>,
    dbd: &Dbd,
    area: &[u8],
    news: &[NewBytes],
) -> Result<bool, Refused>
    requires of { IsOf dbd.now volume.old }
    requires there { HaveRows dbd.now volume.old area.now news.now }
    ensures read { IsRead volume.old result volume.new }
    ensures value { IfOk result (λ r. SaysKeysStay dbd.now volume.old area.now news.now r) }
    ensures refusal { OnlyDevice result }
{
    for place in 0..news.len() {
        if !keeps_key(volume, dbd, area, &news[place])? {
            return Ok(false);
        }
    }
    Ok(true)
}

/// Gives the last row of a path, of the type of a code, other bytes with the key that it has, and says where it then stands. The key of a root
/// that moves has this address in the index then.
fn replace_row<S: BlockStore>(
    volume: &mut Volume<S>,
    dbd: &Dbd,
    path: &Path,
    code: u8,
    bytes: &[u8],
) -> Result<u32, Refused>
    requires fits { row_fits dbd.now.types (record { code = code; bytes = bytes.now }) ≡ true }
    requires sizes { volume.old.sizes ≡ stored_sizes dbd.now.types }
    requires may { IsTrue volume.old.is_sound → MayReplace dbd.now volume.old path.now (record { code = code; bytes = bytes.now }) }
    ensures call { IsCall volume.old result volume.new }
    ensures replaced { IfOk result (λ to. IsTrue volume.old.is_sound → IsReplacedTo dbd.now volume.old path.now (record { code = code; bytes = bytes.now }) to volume.new) }
    ensures full { IfErr result (λ e. e ≡ Refused.Full → IsTrue volume.old.is_sound → (spare volume.old ≡ 0) × (HasHole volume.old (size_with dbd.now.types code (length bytes.now)) → ⊥)) }
    ensures memory { IfErr result (λ e. e ≡ Refused.Memory → volume.old.room ≡ 0) }
    ensures no_hole { IfErr result (λ e. e ≡ Refused.Memory → IsTrue volume.old.is_sound → HasHole volume.old (size_with dbd.now.types code (length bytes.now)) → ⊥) }
    ensures outgrown { IfErr result (λ e. e ≢ Refused.Device → IsTrue volume.old.is_sound → Outgrows dbd.now volume.old (tip path.now) (record { code = code; bytes = bytes.now })) }
    ensures refusal { OnlyRoomOrDevice result }
    ensures room { IsTrue volume.new.is_sound → volume.old.room ≤ volume.new.room + 1 }
    ensures still { IfOk result (λ to. to ≡ tip path.now → IsTrue volume.new.is_sound → volume.old.room ≤ volume.new.room) }
{
    let from = tip_of(path);
    let to = replace(volume, dbd, path, code, bytes)?;
    if code == 1 && to != from {
        set(volume, dbd, dbd.key_of(code, bytes), to)?;
    }
    Ok(to)
}

/// Gives each of these rows of a path its new bytes, which have the key that it has, and says where it stood and where it stands then. There are
/// room and memory for the rows that are made longer.
pub fn replace_rows<S: BlockStore>(
    volume: &mut Volume<S>,
    dbd: &Dbd,
    path: &Path,
    area: &[u8],
    news: &[NewBytes],
) -> Result<ReplacedRows, Refused>
    requires few { length news.now ≤ 15 }
    requires fit { AreInArea dbd.now.types area.now news.now }
    requires sizes { volume.old.sizes ≡ stored_sizes dbd.now.types }
    requires may { MayReplaceSome dbd.now volume.old path.now area.now news.now }
    ensures call { IsCall volume.old result volume.new }
    ensures replaced { IfOk result (λ rows. ReplacesThem dbd.now volume.old path.now area.now news.now volume.new rows) }
    ensures only { IfErr result (λ e. IsTrue volume.old.is_sound → e ≡ Refused.Device) }
    ensures refusal { OnlyRoomOrDevice result }
{
    let mut own = path.copy();
    let mut rows = ReplacedRows::new();
    for place in 0..news.len() {
        let row = news[place];
        let part = path_up_to(&own, row.address);
        let to = replace_row(volume, dbd, &part, row.code, part_for(area, &row))?;
        own.move_row(row.address, to);
        rows.push(ReplacedRow {
            from: row.address,
            to,
        });
    }
    Ok(rows)
}
