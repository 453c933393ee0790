ghost use Rattle.std.specs.Prelude.{◌≡◌, IsTrue, IfErr, OnOk};
ghost use Rattle.hd_dbd.specs.Refusals.{OnlyDevice};
ghost use Rattle.hd_volume.specs.Calls.{IsRead};
ghost use Rattle.hd_image.specs.Records.{links_of, IsVolumeOf};
ghost use Rattle.hd_forest.specs.Rows.{IsOnSomeRow};
ghost use Rattle.hd_position.specs.Inserts.{is_below_parent, StandsOnNew};

use crate::gets::stand;
use crate::levels::Levels;
use crate::position::{Position, row_on};
use hd_calls::GetKind;
use hd_dbd::{Dbd, Refused};
use hd_forest::Path;
use hd_stores::BlockStore;
use hd_volume::Volume;

/// Whether the last row of a path is below a PCB's parentage row.
fn is_below_parent(position: &Position, path: &Path) -> bool
    ensures { result ≡ is_below_parent position.now path.now }
{
    let level = position.parent();
    0 < level && level < path.level() && row_on(path, level) == row_on(position.path(), level)
}

/// Leaves a PCB on the row that a path leads to, as its own insertion does: no row is held, and parentage stays where the row is below
/// the parentage row; else the row becomes the parent. One access at most, and no memory is taken.
pub fn stand_on_new<S: BlockStore>(
    volume: &mut Volume<S>,
    dbd: &Dbd,
    position: &mut Position,
    path: Path,
) -> Result<(), Refused>
    requires of { IsTrue volume.old.is_sound → IsVolumeOf dbd.now volume.old }
    requires there { IsTrue volume.old.is_sound → IsOnSomeRow dbd.now.types (links_of dbd.now.types volume.old) path }
    ensures read { IsRead volume.old result volume.new }
    ensures value { OnOk result (IsTrue volume.old.is_sound → StandsOnNew dbd.now.types (links_of dbd.now.types volume.old) position.old path position.new) }
    ensures kept { IfErr result (λ _. position.new ≡ position.old) }
    ensures refusal { OnlyDevice result }
{
    if is_below_parent(position, &path) {
        return stand(
            volume,
            dbd,
            position,
            path,
            GetKind::NextInParent,
            Levels::new(),
        );
    }
    stand(volume, dbd, position, path, GetKind::Unique, Levels::new())
}
