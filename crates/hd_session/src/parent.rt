ghost use Rattle.std.specs.Prelude.{IfOk};
ghost use Rattle.hd_dbd.specs.Refusals.{OnlyDevice};
ghost use Rattle.hd_volume.specs.Calls.{IsRead};
ghost use Rattle.hd_get.specs.Gets.{HasPosition};
ghost use Rattle.hd_get.specs.Searches.{IsOf};
ghost use Rattle.hd_session.specs.Tests.{IsParentCode};

use hd_dbd::{Dbd, Refused};
use hd_position::Position;
use hd_stores::BlockStore;
use hd_update::row_at;
use hd_volume::Volume;

/// The type of a PCB's parentage row, if it has one. One access.
pub fn parent_code<S: BlockStore>(
    volume: &mut Volume<S>,
    dbd: &Dbd,
    position: &Position,
) -> Result<Option<u8>, Refused>
    requires of { IsOf dbd.now volume.old }
    requires there { HasPosition dbd.now volume.old position.now }
    ensures read { IsRead volume.old result volume.new }
    ensures value { IfOk result (λ code. IsParentCode dbd.now volume.old position.now code) }
    ensures refusal { OnlyDevice result }
{
    let level = position.parent();
    if level == 0 {
        return Ok(None);
    }
    let row = row_at(volume, dbd, position.path(), level)?;
    Ok(Some(row.code))
}
