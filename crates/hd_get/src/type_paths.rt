ghost use Rattle.std.specs.Prelude.{◌≤◌, IsTrue, IfOk, IfSome};
ghost use Rattle.hd_dbd.specs.Refusals.{OnlyDevice};
ghost use Rattle.hd_volume.specs.Calls.{IsRead};
ghost use Rattle.hd_image.specs.Records.{links_of};
ghost use Rattle.hd_position.specs.Gets.{IsSomewhere};
ghost use Rattle.hd_get.specs.Searches.{IsOf};
ghost use Rattle.hd_get.specs.First.{IsTypeLevel, IsTypePath};

use crate::first::path_up_to;
use hd_dbd::{Dbd, Refused};
use hd_forest::{Path, code_at};
use hd_position::{Position, row_on};
use hd_stores::BlockStore;
use hd_volume::Volume;

/// The level of the row of a type on the path where a PCB stands, if there is one. One access at most.
pub(crate) fn type_level<S: BlockStore>(
    volume: &mut Volume<S>,
    dbd: &Dbd,
    code: u8,
    position: &Position,
) -> Result<Option<u8>, Refused>
    requires of { IsOf dbd.now volume.old }
    requires there { IsTrue volume.old.is_sound → IsSomewhere dbd.now.types (links_of dbd.now.types volume.old) position.now }
    ensures read { IsRead volume.old result volume.new }
    ensures value { IfOk result (λ level. IsTypeLevel dbd.now volume.old code position.now level) }
    ensures bound { IfOk result (λ level. IfSome level (λ l. l ≤ 15)) }
    ensures refusal { OnlyDevice result }
{
    let level = dbd.level(code);
    if level > position.standing() {
        return Ok(None);
    }
    let Some(address) = row_on(position.path(), level) else {
        return Ok(None);
    };
    if code_at(volume, dbd, address)? != code {
        return Ok(None);
    }
    Ok(Some(level))
}

/// The path of the row of a type on the path where a PCB stands, if there is one. One access at most.
pub fn type_path<S: BlockStore>(
    volume: &mut Volume<S>,
    dbd: &Dbd,
    code: u8,
    position: &Position,
) -> Result<Option<Path>, Refused>
    requires of { IsOf dbd.now volume.old }
    requires there { IsTrue volume.old.is_sound → IsSomewhere dbd.now.types (links_of dbd.now.types volume.old) position.now }
    ensures read { IsRead volume.old result volume.new }
    ensures value { IfOk result (λ path. IsTypePath dbd.now volume.old code position.now path) }
    ensures refusal { OnlyDevice result }
{
    let Some(level) = type_level(volume, dbd, code, position)? else {
        return Ok(None);
    };
    Ok(path_up_to(position, level))
}
