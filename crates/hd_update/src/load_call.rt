ghost use Rattle.std.specs.Prelude.{◌≡◌, ◌≢◌, ◌<◌, ◌≤◌, length, is_some, true, IsTrue, IfOk, IfErr};
ghost use Rattle.hd_dbd.specs.Facts.{stored_sizes};
ghost use Rattle.hd_dbd.specs.Hierarchy.{type_of};
ghost use Rattle.hd_dbd.specs.Rows.{row_fits};
ghost use Rattle.hd_dbd.specs.Refusals.{OnlyRoomOrDevice};
ghost use Rattle.hd_volume.specs.Calls.{IsCall};
ghost use Rattle.hd_update.specs.Loading.{HasPassedAll, MayLoad, PutsLast, IsRowLoaded, IsRowFull, IsLoadDone, IsLoadAreaWrong, IsLoadFull};
ghost use Rattle.hd_update.specs.States.{IsUndone};

use crate::area::{answer_fault, row_fault};
use crate::load_rule::{last_parent, last_twin, load_fault, status_of};
use crate::positions::end_hold;
use crate::puts::put_row;
use hd_dbd::{Dbd, Refused, Status};
use hd_forest::Path;
use hd_get::Outcome;
use hd_position::{Position, stand_on_new};
use hd_stores::BlockStore;
use hd_volume::Volume;

/// Puts in a row behind all rows, where nothing forbids it, and says its address. The path is that of the last row.
fn put_last<S: BlockStore>(
    volume: &mut Volume<S>,
    dbd: &Dbd,
    path: &Path,
    code: u8,
    bytes: &[u8],
) -> Result<u32, Refused>
    requires size { volume.old.size ≡ dbd.now.block_size }
    requires sizes { volume.old.sizes ≡ stored_sizes dbd.now.types }
    requires fits { row_fits dbd.now.types (record { code = code; bytes = bytes.now }) ≡ true }
    requires may { MayLoad dbd.now volume.old path.now (record { code = code; bytes = bytes.now }) }
    ensures call { IsCall volume.old result volume.new }
    ensures put_in { IfOk result (λ a. PutsLast dbd.now volume.old path.now (record { code = code; bytes = bytes.now }) a volume.new) }
    ensures kept { IfErr result (λ _. IsTrue volume.new.is_sound → volume.new.image ≡ volume.old.image) }
    ensures full { IfErr result (λ e. IsRowFull dbd.now volume.old (record { code = code; bytes = bytes.now }) e) }
    ensures refusal { OnlyRoomOrDevice result }
{
    let parent = last_parent(dbd, path, code);
    let twin = last_twin(volume, dbd, path, code)?;
    put_row(volume, dbd, parent, twin, code, bytes)
}

/// Loads a row behind all rows, where nothing forbids it. The path is that of the last row.
pub fn load_behind<S: BlockStore>(
    volume: &mut Volume<S>,
    dbd: &Dbd,
    positions: &mut [Position],
    number: usize,
    path: &Path,
    code: u8,
    bytes: &[u8],
) -> Result<Outcome, Refused>
    requires size { volume.old.size ≡ dbd.now.block_size }
    requires sizes { volume.old.sizes ≡ stored_sizes dbd.now.types }
    requires number { (0 < number) × (number ≤ length positions.old) }
    requires fits { row_fits dbd.now.types (record { code = code; bytes = bytes.now }) ≡ true }
    requires may { MayLoad dbd.now volume.old path.now (record { code = code; bytes = bytes.now }) }
    ensures call { IsCall volume.old result volume.new }
    ensures done { IfOk result (λ o. IsRowLoaded dbd.now volume.old positions.old number (record { code = code; bytes = bytes.now }) o volume.new positions.new) }
    ensures undone { IfErr result (λ _. IsUndone volume.old positions.old volume.new positions.new) }
    ensures full { IfErr result (λ e. IsRowFull dbd.now volume.old (record { code = code; bytes = bytes.now }) e) }
    ensures refusal { OnlyRoomOrDevice result }
{
    let address = put_last(volume, dbd, path, code, bytes)?;
    let mut own = path.copy();
    own.step(dbd.level(code), address);
    stand_on_new(volume, dbd, &mut positions[number - 1], own)?;
    Ok(Outcome::Found(Status::Blank))
}

/// ISRT by the PCB of a number, counted from 1, that loads and has passed all rows, once its tests are passed: the I/O area is one row of
/// the type of a code, which goes behind all others, and the PCB stands on it. V1 where the type varies and the row has a wrong length, LB, LC,
/// LD or LE where it may not go there, and the PCB's hold ends; three accesses at most tell whether it may.
///
/// `Area` says that bytes of the area lack or are left over, `Full` and `Memory` that there is no room for the row; nothing is changed then.
pub fn load_row<S: BlockStore>(
    volume: &mut Volume<S>,
    dbd: &Dbd,
    positions: &mut [Position],
    number: usize,
    code: u8,
    area: &[u8],
) -> Result<Outcome, Refused>
    requires size { volume.old.size ≡ dbd.now.block_size }
    requires sizes { volume.old.sizes ≡ stored_sizes dbd.now.types }
    requires number { (0 < number) × (number ≤ length positions.old) }
    requires typed { is_some (type_of dbd.now.types code) ≡ true }
    requires last { HasPassedAll dbd.now volume.old positions.old number }
    ensures call { IsCall volume.old result volume.new }
    ensures done { IfOk result (λ o. IsLoadDone dbd.now volume.old positions.old number code area.now o volume.new positions.new) }
    ensures undone { IfErr result (λ _. IsUndone volume.old positions.old volume.new positions.new) }
    ensures area { IfErr result (λ e. IsLoadAreaWrong dbd.now volume.old positions.old number code area.now e) }
    ensures full { IfErr result (λ e. IsLoadFull dbd.now volume.old positions.old number code area.now e) }
    ensures refusal { IfErr result (λ e. e ≢ Refused.Broken) }
{
    if let Some(fault) = row_fault(dbd, code, area) {
        return answer_fault(positions, number, fault);
    }
    let path = positions[number - 1].path().copy();
    if let Some(fault) = load_fault(volume, dbd, &path, code, area)? {
        end_hold(positions, number);
        return Ok(Outcome::Missing(status_of(fault)));
    }
    load_behind(volume, dbd, positions, number, &path, code, area)
}
