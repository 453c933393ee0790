ghost use Rattle.std.specs.Prelude.{◌≡◌, ◌≢◌, ◌+◌, ◌≤◌, length, true, IsTrue, IfOk, OnOk, IfErr};
ghost use Rattle.hd_dbd.specs.Facts.{stored_sizes};
ghost use Rattle.hd_dbd.specs.Refusals.{OnlyRoomOrDevice};
ghost use Rattle.hd_dbd.specs.Rows.{row_fits};
ghost use Rattle.hd_volume.specs.Calls.{IsCall};
ghost use Rattle.hd_forest.specs.Walks.{tip};
ghost use Rattle.hd_update.specs.Putting.{PutsIn, MayPut};
ghost use Rattle.hd_update.specs.NewRows.{codes_of, are_rows_in, rows_in, TakeMore, TakesMore, GoesInBelow, GoInBelow, LastsForOthers, LastsBelow, HasRoomBelow};

use crate::area::front;
use crate::puts::link_root;
use hd_dbd::{Dbd, Refused};
use hd_forest::{Path, link, tip_of};
use hd_ssa::ResolvedSsa;
use hd_stores::BlockStore;
use hd_volume::Volume;

/// Puts in the first row of a path below a parent, 0 for a root, behind its preceding twin, 0 for none, where there are room and memory for
/// it and the rows below; says its address.
pub fn put_first<S: BlockStore>(
    volume: &mut Volume<S>,
    dbd: &Dbd,
    parent: u32,
    after: u32,
    code: u8,
    bytes: &[u8],
) -> Result<u32, Refused>
    requires size { volume.old.size ≡ dbd.now.block_size }
    requires sizes { volume.old.sizes ≡ stored_sizes dbd.now.types }
    requires fits { row_fits dbd.now.types (record { code = code; bytes = bytes.now }) ≡ true }
    requires root { IsTrue volume.old.is_sound → code ≡ 1 → parent ≡ 0 }
    requires below { IsTrue volume.old.is_sound → code ≢ 1 → parent ≢ 0 }
    requires may { IsTrue volume.old.is_sound → MayPut dbd.now volume.old parent after (record { code = code; bytes = bytes.now }) }
    requires room { IsTrue volume.old.is_sound → HasRoomBelow dbd.now volume.old (record { code = code; bytes = bytes.now }) }
    ensures call { IsCall volume.old result volume.new }
    ensures put_in { IfOk result (λ a. PutsIn dbd.now volume.old parent after (record { code = code; bytes = bytes.now }) a volume.new) }
    ensures lasts { IfOk result (λ _. LastsForOthers dbd.now volume.old (record { code = code; bytes = bytes.now }) volume.new) }
    ensures only { IfErr result (λ e. IsTrue volume.old.is_sound → e ≡ Refused.Device) }
    ensures refusal { OnlyRoomOrDevice result }
{
    if code == 1 {
        let key = dbd.key_of(1, bytes);
        return link_root(volume, dbd, after, bytes, key);
    }
    link(volume, dbd, parent, after, code, bytes)
}

/// Puts in a row below the last of those that went in before it, and says its address.
fn put_next<S: BlockStore>(
    volume: &mut Volume<S>,
    dbd: &Dbd,
    last: u32,
    code: u8,
    bytes: &[u8],
) -> Result<u32, Refused>
    requires sizes { volume.old.sizes ≡ stored_sizes dbd.now.types }
    requires fits { row_fits dbd.now.types (record { code = code; bytes = bytes.now }) ≡ true }
    requires more { IsTrue volume.old.is_sound → TakesMore dbd.now volume.old last (record { code = code; bytes = bytes.now }) }
    ensures call { IsCall volume.old result volume.new }
    ensures put_in { IfOk result (λ a. GoesInBelow dbd.now volume.old last (record { code = code; bytes = bytes.now }) a volume.new) }
    ensures lasts { IfOk result (λ _. LastsBelow dbd.now volume.old (record { code = code; bytes = bytes.now }) volume.new) }
    ensures only { IfErr result (λ e. IsTrue volume.old.is_sound → e ≡ Refused.Device) }
    ensures refusal { OnlyRoomOrDevice result }
{
    link(volume, dbd, last, 0, code, bytes)
}

/// Puts in rows of the types of these arguments, which an area has one behind the other, each below the one before: the first below the last
/// row of a path, which goes on down to the last of them. There are room and memory for all.
pub fn put_others<S: BlockStore>(
    volume: &mut Volume<S>,
    dbd: &Dbd,
    path: &mut Path,
    ssas: &[ResolvedSsa<'_>],
    area: &[u8],
) -> Result<(), Refused>
    requires sizes { volume.old.sizes ≡ stored_sizes dbd.now.types }
    requires few { IsTrue volume.old.is_sound → length path.old + length ssas.now ≤ 15 }
    requires long { are_rows_in dbd.now.types (codes_of ssas.now) area.now ≡ true }
    requires more { IsTrue volume.old.is_sound → TakeMore dbd.now volume.old (tip path.old) (rows_in dbd.now.types (codes_of ssas.now) area.now) }
    ensures call { IsCall volume.old result volume.new }
    ensures put_in { OnOk result (GoInBelow dbd.now volume.old path.old (rows_in dbd.now.types (codes_of ssas.now) area.now) volume.new path.new) }
    ensures only { IfErr result (λ e. IsTrue volume.old.is_sound → e ≡ Refused.Device) }
    ensures refusal { OnlyRoomOrDevice result }
{
    let mut start = 0;
    for place in 0..ssas.len() {
        let code = ssas[place].code();
        let row = front(dbd, code, &area[start..]);
        let address = put_next(volume, dbd, tip_of(path), code, row)?;
        path.push(address);
        start += row.len();
    }
    Ok(())
}
