ghost use Rattle.std.specs.Prelude.{◌≡◌, ◌<◌, length, IsTrue, IfOk, OnOk};
ghost use Rattle.hd_dbd.specs.Refusals.{OnlyDevice};
ghost use Rattle.hd_volume.specs.Calls.{IsRead};
ghost use Rattle.hd_links.specs.Links.{IsSegment};
ghost use Rattle.hd_links.specs.Steps.{LeadsDown};
ghost use Rattle.hd_image.specs.Records.{links_of, IsVolumeOf};
ghost use Rattle.hd_forest.specs.Walks.{HasForest};
ghost use Rattle.hd_forest.specs.Rows.{IsOnSomeRow};
ghost use Rattle.hd_position.specs.Gets.{IsPathBefore};
ghost use Rattle.hd_position.specs.Backs.{IsExtended, IsLastOrNone, IsSiblingBefore};

use hd_dbd::{Dbd, Refused};
use hd_forest::{Path, code_at, last_child_type, last_twin, parent_on, prev_twin, tip_of};
use hd_stores::BlockStore;
use hd_volume::Volume;

/// The address of the last child of a segment, where a type is given of those of the types before it; 0 for none.
fn last_child_before<S: BlockStore>(
    volume: &mut Volume<S>,
    dbd: &Dbd,
    address: u32,
    end: Option<u8>,
) -> Result<u32, Refused>
    requires of { IsTrue volume.old.is_sound → IsVolumeOf dbd.now volume.old }
    requires holds { IsTrue volume.old.is_sound → HasForest dbd.now volume.old }
    requires there { IsTrue volume.old.is_sound → IsSegment (links_of dbd.now.types volume.old) address }
    ensures read { IsRead volume.old result volume.new }
    ensures value { IfOk result (λ r. IsTrue volume.old.is_sound → IsLastOrNone dbd.now.types (links_of dbd.now.types volume.old) address end r) }
    ensures refusal { OnlyDevice result }
{
    let code = last_child_type(volume, dbd, address, end)?;
    if code == 0 {
        return Ok(0);
    }
    last_twin(volume, dbd, address, code)
}

/// Goes down from the last row of a path to the last row below it.
fn go_to_end<S: BlockStore>(
    volume: &mut Volume<S>,
    dbd: &Dbd,
    path: &mut Path,
) -> Result<(), Refused>
    requires of { IsTrue volume.old.is_sound → IsVolumeOf dbd.now volume.old }
    requires holds { IsTrue volume.old.is_sound → HasForest dbd.now volume.old }
    requires there { IsTrue volume.old.is_sound → (0 < length path.old) × LeadsDown dbd.now.types (links_of dbd.now.types volume.old) 0 path.old }
    ensures read { IsRead volume.old result volume.new }
    ensures value { OnOk result (IsTrue volume.old.is_sound → IsExtended dbd.now.types (links_of dbd.now.types volume.old) path.old path.new) }
    ensures refusal { OnlyDevice result }
{
    for _ in 0..15u8 {
        let child = last_child_before(volume, dbd, tip_of(path), None)?;
        if child == 0 {
            return Ok(());
        }
        path.push(child);
    }
    Ok(())
}

/// What stands just before the last row of a path below its parent: the twin before it, or else the last child of a type before its
/// own; 0 for none.
fn sibling_before<S: BlockStore>(
    volume: &mut Volume<S>,
    dbd: &Dbd,
    path: &Path,
) -> Result<u32, Refused>
    requires of { IsTrue volume.old.is_sound → IsVolumeOf dbd.now volume.old }
    requires holds { IsTrue volume.old.is_sound → HasForest dbd.now volume.old }
    requires there { IsTrue volume.old.is_sound → (0 < length path.now) × LeadsDown dbd.now.types (links_of dbd.now.types volume.old) 0 path.now }
    ensures read { IsRead volume.old result volume.new }
    ensures value { IfOk result (λ r. IsTrue volume.old.is_sound → IsSiblingBefore dbd.now.types (links_of dbd.now.types volume.old) path.now r) }
    ensures refusal { OnlyDevice result }
{
    let twin = prev_twin(volume, dbd, path)?;
    let parent = parent_on(path);
    if twin != 0 || parent == 0 {
        return Ok(twin);
    }
    let code = code_at(volume, dbd, tip_of(path))?;
    last_child_before(volume, dbd, parent, Some(code))
}

/// The path of the row before the last row of a path, empty before the first row. No memory is taken. The row is read, its parent, and
/// each row from the one before it down to the one that is found; where a type on the way keeps no twin backward or last child, also
/// its twins from the first on.
pub fn row_before<S: BlockStore>(
    volume: &mut Volume<S>,
    dbd: &Dbd,
    path: &Path,
) -> Result<Path, Refused>
    requires of { IsTrue volume.old.is_sound → IsVolumeOf dbd.now volume.old }
    requires there { IsTrue volume.old.is_sound → IsOnSomeRow dbd.now.types (links_of dbd.now.types volume.old) path.now }
    ensures read { IsRead volume.old result volume.new }
    ensures value { IfOk result (λ r. IsTrue volume.old.is_sound → IsPathBefore dbd.now.types (links_of dbd.now.types volume.old) path.now r) }
    ensures refusal { OnlyDevice result }
{
    let sibling = sibling_before(volume, dbd, path)?;
    let mut before = path.copy();
    before.up();
    if sibling != 0 {
        before.push(sibling);
        go_to_end(volume, dbd, &mut before)?;
    }
    Ok(before)
}
