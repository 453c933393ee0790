//! Where a row goes in by HERE: before its equal on which the PCB stands.
ghost use Rattle.std.specs.Prelude.{◌≡◌, true, IfOk, IsTrue};
ghost use Rattle.hd_dbd.specs.declared.hierarchy.Rule.TheVariants.{Here};
ghost use Rattle.hd_dbd.specs.Refusals.{OnlyDevice};
ghost use Rattle.hd_dbd.specs.Rows.{row_fits};
ghost use Rattle.hd_volume.specs.Calls.{IsRead};
ghost use Rattle.hd_image.specs.Records.{links_of};
ghost use Rattle.hd_get.specs.Meeting.{IsStored};
ghost use Rattle.hd_get.specs.Searches.{IsOf};
ghost use Rattle.hd_update.specs.Places.{is_equal_at, standing_path, IsStandingTwin, HasRowOf, IsBeforeEqual, HasPlace, IsPlaceBelow};

use crate::load_rule::key_order;
use crate::places::place_by_key;
use hd_dbd::{Dbd, Refused};
use hd_forest::{Path, code_at, parent_on, prev_twin, tip_of};
use hd_position::{Position, row_on};
use hd_stores::BlockStore;
use hd_volume::Volume;

/// The path down to the row on which a PCB stands, if it stands on one.
fn standing_path(position: &Position) -> Option<Path>
    ensures { result ≡ standing_path position.now }
{
    let level = position.standing();
    let address = row_on(position.path(), level)?;
    let mut path = position.path().copy();
    path.step(level, address);
    Some(path)
}

/// Whether the row at an address is of a new row's type and has its key. One access.
fn is_equal_at<S: BlockStore>(
    volume: &mut Volume<S>,
    dbd: &Dbd,
    address: u32,
    code: u8,
    bytes: &[u8],
) -> Result<bool, Refused>
    requires of { IsOf dbd.now volume.old }
    requires there { IsStored dbd.now volume.old address }
    ensures read { IsRead volume.old result volume.new }
    ensures value { IfOk result (λ r. IsTrue volume.old.is_sound → r ≡ is_equal_at dbd.now.types (links_of dbd.now.types volume.old) (record { code = code; bytes = bytes.now }) address) }
    ensures refusal { OnlyDevice result }
{
    if code_at(volume, dbd, address)? != code {
        return Ok(false);
    }
    let order = key_order(volume, dbd, address, code, bytes)?;
    Ok(order.is_eq())
}

/// The path of the row on which a PCB stands, where that is a twin of a new row with its key. One access at most.
fn standing_twin<S: BlockStore>(
    volume: &mut Volume<S>,
    dbd: &Dbd,
    parent: &Path,
    position: &Position,
    code: u8,
    bytes: &[u8],
) -> Result<Option<Path>, Refused>
    requires there { HasPlace dbd.now volume.old parent.now position.now code }
    ensures read { IsRead volume.old result volume.new }
    ensures value { IfOk result (λ r. IsStandingTwin dbd.now volume.old parent.now position.now (record { code = code; bytes = bytes.now }) r) }
    ensures refusal { OnlyDevice result }
{
    let Some(path) = standing_path(position) else {
        return Ok(None);
    };
    if parent_on(&path) != tip_of(parent) {
        return Ok(None);
    }
    if is_equal_at(volume, dbd, tip_of(&path), code, bytes)? {
        return Ok(Some(path));
    }
    Ok(None)
}

/// The place of a row just before its equal at the end of a path, if the key is not unique.
fn place_before_equal<S: BlockStore>(
    volume: &mut Volume<S>,
    dbd: &Dbd,
    path: &Path,
    code: u8,
) -> Result<Option<u32>, Refused>
    requires there { HasRowOf dbd.now volume.old path.now code }
    ensures read { IsRead volume.old result volume.new }
    ensures value { IfOk result (λ r. IsBeforeEqual dbd.now volume.old path.now code r) }
    ensures refusal { OnlyDevice result }
{
    if dbd.has_unique_key(code) {
        return Ok(None);
    }
    let twin = prev_twin(volume, dbd, path)?;
    Ok(Some(twin))
}

/// The place of a row by HERE: before its equal on which the PCB stands, else before all its equals.
pub fn place_here<S: BlockStore>(
    volume: &mut Volume<S>,
    dbd: &Dbd,
    parent: &Path,
    position: &Position,
    code: u8,
    bytes: &[u8],
) -> Result<Option<u32>, Refused>
    requires fits { row_fits dbd.now.types (record { code = code; bytes = bytes.now }) ≡ true }
    requires there { HasPlace dbd.now volume.old parent.now position.now code }
    ensures read { IsRead volume.old result volume.new }
    ensures value { IfOk result (λ place. IsPlaceBelow dbd.now volume.old parent.now position.now Here (record { code = code; bytes = bytes.now }) place) }
    ensures refusal { OnlyDevice result }
{
    match standing_twin(volume, dbd, parent, position, code, bytes)? {
        Some(equal) => place_before_equal(volume, dbd, &equal, code),
        None => place_by_key(volume, dbd, tip_of(parent), false, code, bytes),
    }
}
