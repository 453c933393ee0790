ghost use Rattle.std.specs.Prelude.{[], IsTrue, IfOk};
ghost use Rattle.hd_dbd.specs.Refusals.{OnlyDevice};
ghost use Rattle.hd_volume.specs.Calls.{IsRead};
ghost use Rattle.hd_image.specs.Records.{links_of};
ghost use Rattle.hd_forest.specs.Walks.{HasForest};
ghost use Rattle.hd_position.specs.Gets.{IsSomewhere};
ghost use Rattle.hd_get.specs.Searches.{IsOf};
ghost use Rattle.hd_get.specs.Starts.{LeadsToFirst, LeadsToNext, StartsBelow};

use crate::steps::stay_below;
use hd_dbd::{Dbd, Refused};
use hd_forest::{Path, next_row};
use hd_position::{Position, begin, row_on};
use hd_stores::BlockStore;
use hd_volume::Volume;

/// The path of the first root, where GU begins; empty where there is none. One access at most.
pub fn unique<S: BlockStore>(volume: &mut Volume<S>, dbd: &Dbd) -> Result<Path, Refused>
    requires of { IsOf dbd.now volume.old }
    requires holds { IsTrue volume.old.is_sound → HasForest dbd.now volume.old }
    ensures read { IsRead volume.old result volume.new }
    ensures value { IfOk result (λ path. LeadsToFirst dbd.now volume.old path) }
    ensures refusal { OnlyDevice result }
{
    let mut path = Path::new();
    next_row(volume, dbd, &mut path)?;
    Ok(path)
}

/// The path of the row behind those that a PCB has passed, where GN without F begins; empty behind the last row. At most the rows on
/// the PCB's own path are read and the one that is found.
pub fn next<S: BlockStore>(
    volume: &mut Volume<S>,
    dbd: &Dbd,
    position: &Position,
) -> Result<Path, Refused>
    requires of { IsOf dbd.now volume.old }
    requires there { IsTrue volume.old.is_sound → IsSomewhere dbd.now.types (links_of dbd.now.types volume.old) position.now }
    ensures read { IsRead volume.old result volume.new }
    ensures value { IfOk result (λ path. LeadsToNext dbd.now volume.old [] position.now path) }
    ensures refusal { OnlyDevice result }
{
    begin(volume, dbd, position)
}

/// The address of a PCB's parentage row, and the path of the row where GNP without F begins, empty where no dependent of the parentage
/// row is left; `None` where there is no parentage. The same rows are read as for GN.
pub fn next_in_parent<S: BlockStore>(
    volume: &mut Volume<S>,
    dbd: &Dbd,
    position: &Position,
) -> Result<Option<(u32, Path)>, Refused>
    requires of { IsOf dbd.now volume.old }
    requires there { IsTrue volume.old.is_sound → IsSomewhere dbd.now.types (links_of dbd.now.types volume.old) position.now }
    ensures read { IsRead volume.old result volume.new }
    ensures value { IfOk result (λ start. StartsBelow dbd.now volume.old [] position.now start) }
    ensures refusal { OnlyDevice result }
{
    let Some(parent) = row_on(position.path(), position.parent()) else {
        return Ok(None);
    };
    let mut path = begin(volume, dbd, position)?;
    stay_below(&mut path, parent);
    Ok(Some((parent, path)))
}
