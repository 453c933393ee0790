ghost use Rattle.std.specs.Prelude.{◌≡◌, IsTrue, IfOk, IfErr, IfSome, OnOk};
ghost use Rattle.hd_dbd.specs.Refusals.{OnlyDevice};
ghost use Rattle.hd_volume.specs.Calls.{IsRead};
ghost use Rattle.hd_image.specs.Records.{links_of, IsVolumeOf};
ghost use Rattle.hd_forest.specs.Rows.{IsOnSomeRow};
ghost use Rattle.hd_forest.specs.Walks.{tip};
ghost use Rattle.hd_forest.specs.Onward.{onward};
ghost use Rattle.hd_position.specs.Behind.{IsBehind, StandsBehind};
ghost use Rattle.hd_position.specs.Gets.{IsSomewhere, LeadsOn, KeepsParent, StandsOnto};

use crate::levels::Levels;
use crate::position::{LastType, Position};
use hd_calls::GetKind;
use hd_dbd::{Dbd, Refused};
use hd_forest::{Path, code_at, next_row, tip_of, twin_behind};
use hd_stores::BlockStore;
use hd_volume::Volume;

/// The path of the row behind those that a PCB has passed, empty behind the last row. At most the rows on its own path are read and
/// the one that is found; no memory is taken.
pub fn begin<S: BlockStore>(
    volume: &mut Volume<S>,
    dbd: &Dbd,
    position: &Position,
) -> Result<Path, Refused>
    requires of { IsTrue volume.old.is_sound → IsVolumeOf dbd.now volume.old }
    requires there { IsTrue volume.old.is_sound → IsSomewhere dbd.now.types (links_of dbd.now.types volume.old) position.now }
    ensures read { IsRead volume.old result volume.new }
    ensures value { IfOk result (λ path. IsTrue volume.old.is_sound → LeadsOn dbd.now.types (links_of dbd.now.types volume.old) position.now path) }
    ensures refusal { OnlyDevice result }
{
    let mut path = position.path().copy();
    next_row(volume, dbd, &mut path)?;
    Ok(path)
}

/// The address of the row behind those that a PCB has passed, and the code of its type, where that row is the next twin of the last one passed, and this has
/// no row below it; `None` where it may be another, or there is none. One segment is read.
pub fn begin_at_twin<S: BlockStore>(
    volume: &mut Volume<S>,
    dbd: &Dbd,
    position: &Position,
) -> Result<Option<(u32, u8)>, Refused>
    requires of { IsTrue volume.old.is_sound → IsVolumeOf dbd.now volume.old }
    requires there { IsTrue volume.old.is_sound → IsSomewhere dbd.now.types (links_of dbd.now.types volume.old) position.now }
    ensures read { IsRead volume.old result volume.new }
    ensures value { IfOk result (λ o. IfSome o (λ r. IsTrue volume.old.is_sound → IsBehind dbd.now.types (links_of dbd.now.types volume.old) position.now r.0 r.1)) }
    ensures refusal { OnlyDevice result }
{
    twin_behind(volume, dbd, position.path())
}

/// As `stand_on`, where the row stands at an address, of a type, just behind the rows that the PCB has passed, and is held or none is. Nothing is read.
pub fn stand_behind<S: BlockStore>(
    volume: &Volume<S>,
    dbd: &Dbd,
    position: &mut Position,
    address: u32,
    code: u8,
    kind: GetKind,
    hold: bool,
)
    requires of { IsTrue volume.now.is_sound → IsVolumeOf dbd.now volume.now }
    requires code { IsTrue volume.now.is_sound → code ≡ (links_of dbd.now.types volume.now).code address }
    requires parent { IsTrue volume.now.is_sound → KeepsParent kind position.old (onward dbd.now.types position.old.path address code) }
    ensures path { position.new.path ≡ onward dbd.now.types position.old.path address code }
    ensures value { IsTrue volume.now.is_sound → StandsBehind dbd.now.types (links_of dbd.now.types volume.now) kind position.old address code hold position.new }
{
    let _ = volume;
    let last = LastType {
        level: dbd.level(code),
        code,
    };
    position.stand_behind(address, last, kind, hold);
}

/// As `stand`, where the code of the row's type is known: nothing is read.
pub fn stand_on<S: BlockStore>(
    volume: &Volume<S>,
    dbd: &Dbd,
    position: &mut Position,
    path: Path,
    code: u8,
    kind: GetKind,
    held: Levels,
)
    requires of { IsTrue volume.now.is_sound → IsVolumeOf dbd.now volume.now }
    requires there { IsTrue volume.now.is_sound → IsOnSomeRow dbd.now.types (links_of dbd.now.types volume.now) path }
    requires code { IsTrue volume.now.is_sound → code ≡ (links_of dbd.now.types volume.now).code (tip path) }
    requires parent { IsTrue volume.now.is_sound → KeepsParent kind position.old path }
    ensures value { IsTrue volume.now.is_sound → StandsOnto dbd.now.types (links_of dbd.now.types volume.now) kind position.old path held position.new }
{
    let _ = volume;
    let last = LastType {
        level: dbd.level(code),
        code,
    };
    position.stand_on(path, last, kind, held);
}

/// Leaves a PCB on the row that a path leads to, as a get of a kind does, with the rows of some levels of the path held. One access
/// at most, and no memory is taken.
///
/// Where the kind keeps parentage, the parentage row must be on the path: GNP finds nothing elsewhere.
pub fn stand<S: BlockStore>(
    volume: &mut Volume<S>,
    dbd: &Dbd,
    position: &mut Position,
    path: Path,
    kind: GetKind,
    held: Levels,
) -> Result<(), Refused>
    requires of { IsTrue volume.old.is_sound → IsVolumeOf dbd.now volume.old }
    requires there { IsTrue volume.old.is_sound → IsOnSomeRow dbd.now.types (links_of dbd.now.types volume.old) path }
    requires parent { IsTrue volume.old.is_sound → KeepsParent kind position.old path }
    ensures read { IsRead volume.old result volume.new }
    ensures value { OnOk result (IsTrue volume.old.is_sound → StandsOnto dbd.now.types (links_of dbd.now.types volume.old) kind position.old path held position.new) }
    ensures kept { IfErr result (λ _. position.new ≡ position.old) }
    ensures refusal { OnlyDevice result }
{
    let code = code_at(volume, dbd, tip_of(&path))?;
    let last = LastType {
        level: dbd.level(code),
        code,
    };
    position.stand_on(path, last, kind, held);
    Ok(())
}
