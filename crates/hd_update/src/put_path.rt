ghost use Rattle.std.specs.Prelude.{◌≡◌, ◌≢◌, ◌+◌, ◌<◌, ◌≤◌, length, drop, ◌∷◌, true, IsTrue, IfOk, IfErr};
ghost use Rattle.hd_dbd.specs.Facts.{stored_sizes};
ghost use Rattle.hd_dbd.specs.Refusals.{OnlyRoomOrDevice};
ghost use Rattle.hd_dbd.specs.Rows.{row_fits};
ghost use Rattle.hd_volume.specs.Calls.{IsCall};
ghost use Rattle.hd_update.specs.Putting.{PutsIn, MayPut, AreFullFor};
ghost use Rattle.hd_update.specs.NewRows.{codes_of, are_rows_in, rows_in, IsRoomLeft, PutThemIn, MayPutThem};

use crate::area::front;
use crate::new_rows::{put_first, put_others};
use crate::puts::put_row;
use crate::room::make_room;
use hd_dbd::{Dbd, Refused};
use hd_forest::{Path, tip_of};
use hd_ssa::ResolvedSsa;
use hd_stores::BlockStore;
use hd_volume::Volume;

/// Puts in the first of the rows of these arguments, which an area has one behind the other, below a parent, 0 for a root, behind its
/// preceding twin, 0 for none, and says its address; there are room and memory for all, or nothing is changed. A row alone needs no room made
/// before it.
fn put_top<S: BlockStore>(
    volume: &mut Volume<S>,
    dbd: &Dbd,
    parent: u32,
    after: u32,
    ssas: &[ResolvedSsa<'_>],
    area: &[u8],
    code: u8,
    bytes: &[u8],
) -> Result<u32, Refused>
    requires few { length ssas.now ≤ 15 }
    requires long { are_rows_in dbd.now.types (codes_of ssas.now) area.now ≡ true }
    requires first { rows_in dbd.now.types (codes_of ssas.now) area.now ≡ record { code = code; bytes = bytes.now } ∷ drop 1 (rows_in dbd.now.types (codes_of ssas.now) area.now) }
    requires size { volume.old.size ≡ dbd.now.block_size }
    requires sizes { volume.old.sizes ≡ stored_sizes dbd.now.types }
    requires fits { row_fits dbd.now.types (record { code = code; bytes = bytes.now }) ≡ true }
    requires root { IsTrue volume.old.is_sound → code ≡ 1 → parent ≡ 0 }
    requires below { IsTrue volume.old.is_sound → code ≢ 1 → parent ≢ 0 }
    requires may { IsTrue volume.old.is_sound → MayPut dbd.now volume.old parent after (record { code = code; bytes = bytes.now }) }
    ensures call { IsCall volume.old result volume.new }
    ensures put_in { IfOk result (λ a. PutsIn dbd.now volume.old parent after (record { code = code; bytes = bytes.now }) a volume.new) }
    ensures lasts { IfOk result (λ _. IsTrue volume.old.is_sound → IsRoomLeft dbd.now volume.new (drop 1 (rows_in dbd.now.types (codes_of ssas.now) area.now))) }
    ensures kept { IfErr result (λ _. IsTrue volume.new.is_sound → volume.new.image ≡ volume.old.image) }
    ensures full { IfErr result (λ e. AreFullFor dbd.now volume.old (rows_in dbd.now.types (codes_of ssas.now) area.now) e) }
    ensures refusal { OnlyRoomOrDevice result }
{
    if ssas.len() == 1 {
        return put_row(volume, dbd, parent, after, code, bytes);
    }
    make_room(volume, dbd, ssas, area)?;
    let address = put_first(volume, dbd, parent, after, code, bytes)?;
    Ok(address)
}

/// Puts in rows of the types of these arguments, which an area has one behind the other: the first below the last row of the parent's path,
/// empty for a root, behind its preceding twin, 0 for none, and each other below the one before; says the path of the last of them. All go
/// in, or nothing is changed.
pub fn put_path<S: BlockStore>(
    volume: &mut Volume<S>,
    dbd: &Dbd,
    parent: &Path,
    after: u32,
    ssas: &[ResolvedSsa<'_>],
    area: &[u8],
) -> Result<Path, Refused>
    requires some { 0 < length ssas.now }
    requires few { length ssas.now ≤ 15 }
    requires levels { IsTrue volume.old.is_sound → length parent.now + length ssas.now ≤ 15 }
    requires size { volume.old.size ≡ dbd.now.block_size }
    requires sizes { volume.old.sizes ≡ stored_sizes dbd.now.types }
    requires long { are_rows_in dbd.now.types (codes_of ssas.now) area.now ≡ true }
    requires may { IsTrue volume.old.is_sound → MayPutThem dbd.now volume.old parent.now after (rows_in dbd.now.types (codes_of ssas.now) area.now) }
    ensures call { IsCall volume.old result volume.new }
    ensures put_in { IfOk result (λ path. PutThemIn dbd.now volume.old parent.now after (rows_in dbd.now.types (codes_of ssas.now) area.now) path volume.new) }
    ensures kept { IfErr result (λ _. IsTrue volume.new.is_sound → volume.new.image ≡ volume.old.image) }
    ensures full { IfErr result (λ e. AreFullFor dbd.now volume.old (rows_in dbd.now.types (codes_of ssas.now) area.now) e) }
    ensures refusal { OnlyRoomOrDevice result }
{
    let code = ssas[0].code();
    let first = front(dbd, code, area);
    let address = put_top(volume, dbd, tip_of(parent), after, ssas, area, code, first)?;
    let mut path = parent.copy();
    path.push(address);
    put_others(volume, dbd, &mut path, &ssas[1..], &area[first.len()..])?;
    Ok(path)
}
