ghost use Rattle.std.specs.Prelude.{◌≡◌, ◌≤◌, ◌-◌, ◌∷◌, ◌++◌, [], true, take, option_map, option_copied, IsTrue, IfOk, IfSome};
ghost use Rattle.hd_dbd.specs.Refusals.{OnlyDevice};
ghost use Rattle.hd_volume.specs.Calls.{IsRead};
ghost use Rattle.hd_image.specs.Records.{links_of};
ghost use Rattle.hd_position.specs.Kept.{row_on};
ghost use Rattle.hd_position.specs.Gets.{IsSomewhere};
ghost use Rattle.hd_calls.specs.Admits.{Descend};
ghost use Rattle.hd_calls.specs.SearchStarts.{has_first, topmost_first};
ghost use Rattle.hd_get.specs.Searches.{IsOf};
ghost use Rattle.hd_get.specs.Starts.{LeadsToNext, StartsBelow};
ghost use Rattle.hd_get.specs.First.{IsParentLevel, IsLevelFrom, IsChildBelow, IsFirstPassed, IsLoweredTo, StartsBehind};

use crate::search_starts::{next, next_in_parent};
use crate::steps::stay_below;
use crate::type_paths::type_level;
use hd_dbd::{Dbd, Refused};
use hd_forest::{Path, code_at, first_child, next_row, tip_of};
use hd_position::{Position, row_on};
use hd_ssa::ResolvedSsa;
use hd_stores::BlockStore;
use hd_volume::Volume;

/// The first of some arguments in which F has effect: that has F, and is not the root's.
fn topmost_first<'s, 'a>(ssas: &'s [ResolvedSsa<'a>]) -> Option<&'s ResolvedSsa<'a>>
    ensures { option_copied result ≡ topmost_first ssas.now }
{
    ssas.iter()
        .find(|ssa| ssa.commands().first && ssa.code() != 1)
}

/// The path of the row of a level on the path of the last row passed.
pub(crate) fn path_up_to(position: &Position, level: u8) -> Option<Path>
    ensures { result ≡ option_map (λ a. take (level - 1) position.now.path ++ a ∷ []) (row_on position.now.path level) }
{
    let address = row_on(position.path(), level)?;
    let mut path = position.path().copy();
    path.step(level, address);
    Some(path)
}

/// The level of the row of a type's parent type on the path where a PCB stands, if there is one. One access at most.
fn parent_level<S: BlockStore>(
    volume: &mut Volume<S>,
    dbd: &Dbd,
    code: u8,
    position: &Position,
) -> Result<Option<u8>, Refused>
    requires of { IsOf dbd.now volume.old }
    requires there { IsTrue volume.old.is_sound → IsSomewhere dbd.now.types (links_of dbd.now.types volume.old) position.now }
    ensures read { IsRead volume.old result volume.new }
    ensures value { IfOk result (λ level. IsParentLevel dbd.now volume.old code position.now level) }
    ensures bound { IfOk result (λ level. IfSome level (λ l. l ≤ 15)) }
    ensures refusal { OnlyDevice result }
{
    match dbd.parent_of(code) {
        Some(parent) => type_level(volume, dbd, parent, position),
        None => Ok(None),
    }
}

/// Whether the row of a level on the path of the last row passed is of the type of a code or of a later one. One access at most.
fn is_level_from<S: BlockStore>(
    volume: &mut Volume<S>,
    dbd: &Dbd,
    position: &Position,
    level: u8,
    code: u8,
) -> Result<bool, Refused>
    requires of { IsOf dbd.now volume.old }
    requires there { IsTrue volume.old.is_sound → IsSomewhere dbd.now.types (links_of dbd.now.types volume.old) position.now }
    ensures read { IsRead volume.old result volume.new }
    ensures value { IfOk result (λ r. IsLevelFrom dbd.now volume.old level code position.now r) }
    ensures refusal { OnlyDevice result }
{
    let Some(address) = row_on(position.path(), level) else {
        return Ok(false);
    };
    Ok(code <= code_at(volume, dbd, address)?)
}

/// The path of the first child, of the type of a code, of the row of a level on the path of the last row passed. One access at most.
fn child_below<S: BlockStore>(
    volume: &mut Volume<S>,
    dbd: &Dbd,
    position: &Position,
    level: u8,
    code: u8,
) -> Result<Option<Path>, Refused>
    requires of { IsOf dbd.now volume.old }
    requires there { IsTrue volume.old.is_sound → IsSomewhere dbd.now.types (links_of dbd.now.types volume.old) position.now }
    ensures read { IsRead volume.old result volume.new }
    ensures value { IfOk result (λ path. IsChildBelow dbd.now volume.old level code position.now path) }
    ensures refusal { OnlyDevice result }
{
    let Some(mut path) = path_up_to(position, level) else {
        return Ok(None);
    };
    let child = first_child(volume, dbd, tip_of(&path), code)?;
    if child == 0 {
        return Ok(None);
    }
    path.push(child);
    Ok(Some(path))
}

/// The path of the first occurrence that an argument with F asks for, where it is one of the rows passed. The row of the parent's type
/// on the PCB's path is read, and the row below it there.
fn first_passed<S: BlockStore>(
    volume: &mut Volume<S>,
    dbd: &Dbd,
    ssa: &ResolvedSsa<'_>,
    position: &Position,
) -> Result<Option<Path>, Refused>
    requires first { has_first ssa.now ≡ true }
    requires of { IsOf dbd.now volume.old }
    requires there { IsTrue volume.old.is_sound → IsSomewhere dbd.now.types (links_of dbd.now.types volume.old) position.now }
    ensures read { IsRead volume.old result volume.new }
    ensures value { IfOk result (λ path. IsFirstPassed dbd.now volume.old ssa.now position.now path) }
    ensures refusal { OnlyDevice result }
{
    let code = ssa.code();
    let Some(level) = parent_level(volume, dbd, code, position)? else {
        return Ok(None);
    };
    if !is_level_from(volume, dbd, position, level + 1, code)? {
        return Ok(None);
    }
    child_below(volume, dbd, position, level, code)
}

/// The path of the row to which F lowers the start of a search, if it does: that of the topmost argument with F alone, since the first
/// occurrences of those below it come later.
fn lowered_to<S: BlockStore>(
    volume: &mut Volume<S>,
    dbd: &Dbd,
    ssas: &[ResolvedSsa<'_>],
    position: &Position,
) -> Result<Option<Path>, Refused>
    requires of { IsOf dbd.now volume.old }
    requires there { IsTrue volume.old.is_sound → IsSomewhere dbd.now.types (links_of dbd.now.types volume.old) position.now }
    ensures read { IsRead volume.old result volume.new }
    ensures value { IfOk result (λ path. IsLoweredTo dbd.now volume.old ssas.now position.now path) }
    ensures refusal { OnlyDevice result }
{
    match topmost_first(ssas) {
        Some(ssa) => first_passed(volume, dbd, ssa, position),
        None => Ok(None),
    }
}

/// The path of the row where GN begins: the row behind those that a PCB has passed, or a first occurrence before it that F asks for;
/// empty behind the last row. Where an argument has F, the row of its parent's type on the PCB's path and the row below that are read;
/// where that lowers nothing, the rows that `next` reads.
pub(crate) fn next_by_first<S: BlockStore>(
    volume: &mut Volume<S>,
    dbd: &Dbd,
    ssas: &[ResolvedSsa<'_>],
    position: &Position,
) -> Result<Path, Refused>
    requires descend { Descend dbd.now.types None ssas.now }
    requires of { IsOf dbd.now volume.old }
    requires there { IsTrue volume.old.is_sound → IsSomewhere dbd.now.types (links_of dbd.now.types volume.old) position.now }
    ensures read { IsRead volume.old result volume.new }
    ensures value { IfOk result (λ path. LeadsToNext dbd.now volume.old ssas.now position.now path) }
    ensures refusal { OnlyDevice result }
{
    match lowered_to(volume, dbd, ssas, position)? {
        Some(path) => Ok(path),
        None => next(volume, dbd, position),
    }
}

/// The address of a PCB's parentage row, and the path of the row behind it, empty where it has no dependent; `None` where there is no
/// parentage.
fn behind_parent<S: BlockStore>(
    volume: &mut Volume<S>,
    dbd: &Dbd,
    position: &Position,
) -> Result<Option<(u32, Path)>, Refused>
    requires of { IsOf dbd.now volume.old }
    requires there { IsTrue volume.old.is_sound → IsSomewhere dbd.now.types (links_of dbd.now.types volume.old) position.now }
    ensures read { IsRead volume.old result volume.new }
    ensures value { IfOk result (λ start. StartsBehind dbd.now volume.old position.now start) }
    ensures refusal { OnlyDevice result }
{
    let Some(mut path) = path_up_to(position, position.parent()) else {
        return Ok(None);
    };
    let parent = tip_of(&path);
    next_row(volume, dbd, &mut path)?;
    stay_below(&mut path, parent);
    Ok(Some((parent, path)))
}

/// The address of a PCB's parentage row, and the path of the row where GNP begins, as for GN, but never before the row behind the
/// parentage row; `None` where there is no parentage. The same rows are read as for GN, and at most those from the parentage row to the
/// next.
pub(crate) fn next_in_parent_by_first<S: BlockStore>(
    volume: &mut Volume<S>,
    dbd: &Dbd,
    ssas: &[ResolvedSsa<'_>],
    position: &Position,
) -> Result<Option<(u32, Path)>, Refused>
    requires descend { Descend dbd.now.types None ssas.now }
    requires of { IsOf dbd.now volume.old }
    requires there { IsTrue volume.old.is_sound → IsSomewhere dbd.now.types (links_of dbd.now.types volume.old) position.now }
    ensures read { IsRead volume.old result volume.new }
    ensures value { IfOk result (λ start. StartsBelow dbd.now volume.old ssas.now position.now start) }
    ensures refusal { OnlyDevice result }
{
    let Some(parent) = row_on(position.path(), position.parent()) else {
        return Ok(None);
    };
    let Some(first) = lowered_to(volume, dbd, ssas, position)? else {
        return next_in_parent(volume, dbd, position);
    };
    if first.level() > position.parent() {
        return Ok(Some((parent, first)));
    }
    behind_parent(volume, dbd, position)
}
