ghost use Rattle.std.specs.Prelude.{◌≡◌, ◌&&◌, ◌==◌, not, length, [], None, Some, IfOk};
ghost use Rattle.hd_dbd.specs.Letters.{gives_get};
ghost use Rattle.hd_dbd.specs.Views.{may};
ghost use Rattle.hd_dbd.specs.Refusals.{OnlyDevice};
ghost use Rattle.hd_volume.specs.Calls.{IsRead};
ghost use Rattle.hd_calls.specs.Satisfies.{satisfies};
ghost use Rattle.hd_calls.specs.Admits.{Descend};
ghost use Rattle.hd_calls.specs.Ssas.{target_code};
ghost use Rattle.hd_get.specs.Searches.{IsOf, MayLead};
ghost use Rattle.hd_get.specs.Gets.{HasPosition};
ghost use Rattle.hd_get.specs.Found.{satisfies_get, SearchesOn, Begins, IsSought};

use crate::arguments::target_code;
use crate::by_key::unique_by_key;
use crate::call::Get;
use crate::first::{next_by_first, next_in_parent_by_first};
use crate::judge::Judge;
use crate::named::Named;
use crate::plain::Plain;
use crate::position_after::settle;
use crate::root_search::find;
use hd_calls::GetKind;
use hd_dbd::{Access, Dbd, Pcb, Refused, may};
use hd_forest::Path;
use hd_position::Position;
use hd_stores::BlockStore;
use hd_volume::Volume;

/// Searches from the row that a path leads to, wherever that is, on for the first that passes a judge's test; says whether there is one.
pub(crate) fn search<S: BlockStore, J: Judge>(
    volume: &mut Volume<S>,
    dbd: &Dbd,
    judge: &J,
    parent: u32,
    path: &mut Path,
) -> Result<bool, Refused>
    requires suits { J.suits judge.now dbd.now.types }
    requires of { IsOf dbd.now volume.old }
    requires there { MayLead dbd.now volume.old parent path.old }
    ensures read { IsRead volume.old result volume.new }
    ensures value { IfOk result (λ r. SearchesOn (J.test judge.now dbd.now.types) dbd.now volume.old parent path.old r path.new) }
    ensures refusal { OnlyDevice result }
{
    settle(volume, dbd, judge, parent, path)?;
    find(volume, dbd, judge, parent, path)
}

/// Searches from the row that a path leads to, wherever that is, on for the first that a PCB may read; says whether there is one. No
/// row above is in the way of that, so none is judged.
fn search_readable<S: BlockStore>(
    volume: &mut Volume<S>,
    dbd: &Dbd,
    pcb: &Pcb,
    parent: u32,
    path: &mut Path,
) -> Result<bool, Refused>
    requires of { IsOf dbd.now volume.old }
    requires there { MayLead dbd.now volume.old parent path.old }
    ensures read { IsRead volume.old result volume.new }
    ensures value { IfOk result (λ r. SearchesOn (λ rows i. satisfies (record { types = dbd.now.types; pcb = pcb.now }) rows [] i) dbd.now volume.old parent path.old r path.new) }
    ensures refusal { OnlyDevice result }
{
    find(volume, dbd, &Plain { pcb }, parent, path)
}

/// Searches from the row that a path leads to on for the first that satisfies a get; says whether there is one.
fn search_for<S: BlockStore>(
    volume: &mut Volume<S>,
    dbd: &Dbd,
    call: &Get<'_>,
    parent: u32,
    path: &mut Path,
) -> Result<bool, Refused>
    requires descend { Descend dbd.now.types None call.now.ssas }
    requires of { IsOf dbd.now volume.old }
    requires there { MayLead dbd.now volume.old parent path.old }
    ensures read { IsRead volume.old result volume.new }
    ensures value { IfOk result (λ r. SearchesOn (satisfies_get call.now dbd.now.types) dbd.now volume.old parent path.old r path.new) }
    ensures refusal { OnlyDevice result }
{
    let pcb = call.pcb;
    let ssas = call.ssas;
    if ssas.is_empty() {
        search_readable(volume, dbd, pcb, parent, path)
    } else {
        let pcb = Some(pcb);
        search(volume, dbd, &Named { pcb, ssas }, parent, path)
    }
}

/// The path of the row that a get seeks, if there is one, by a search from where it begins: the address of the row below which it stays, 0 for the
/// whole database, and a path.
fn seek_from<S: BlockStore>(
    volume: &mut Volume<S>,
    dbd: &Dbd,
    call: &Get<'_>,
    position: &Position,
    parent: u32,
    mut path: Path,
) -> Result<Option<Path>, Refused>
    requires descend { Descend dbd.now.types None call.now.ssas }
    requires there { HasPosition dbd.now volume.old position.now }
    requires begins { Begins dbd.now volume.old call.now position.now (Some (parent, path)) }
    ensures read { IsRead volume.old result volume.new }
    ensures value { IfOk result (λ found. IsSought dbd.now volume.old call.now position.now found) }
    ensures refusal { OnlyDevice result }
{
    let _ = position;
    if !search_for(volume, dbd, call, parent, &mut path)? {
        return Ok(None);
    }
    Ok(Some(path))
}

/// Whether there are arguments, and the PCB may read the last one's type.
fn reads_target(dbd: &Dbd, call: &Get<'_>) -> bool
    ensures { result ≡ (not (length call.now.ssas == 0) && may (record { types = dbd.now.types; pcb = call.now.pcb }) gives_get (target_code call.now.ssas)) }
{
    if call.ssas.is_empty() {
        return false;
    }
    may(dbd, call.pcb, Access::Get, target_code(call.ssas))
}

/// The path of the row that a GU seeks, if there is one. Where its arguments leave out no type from the root down, and each below the root's asks for a
/// key that is found, or for the last twin, which parents keep, and for nothing else, no row is judged but the root.
fn seek_unique<S: BlockStore>(
    volume: &mut Volume<S>,
    dbd: &Dbd,
    call: &Get<'_>,
    position: &Position,
) -> Result<Option<Path>, Refused>
    requires unique { call.now.kind ≡ GetKind.Unique }
    requires descend { Descend dbd.now.types None call.now.ssas }
    requires there { HasPosition dbd.now volume.old position.now }
    ensures read { IsRead volume.old result volume.new }
    ensures value { IfOk result (λ path. IsSought dbd.now volume.old call.now position.now path) }
    ensures refusal { OnlyDevice result }
{
    let (path, is_named) = unique_by_key(volume, dbd, call.ssas)?;
    if is_named && reads_target(dbd, call) {
        return Ok(Some(path));
    }
    seek_from(volume, dbd, call, position, 0, path)
}

/// The path of the row that a get seeks, if there is one.
pub(crate) fn seek<S: BlockStore>(
    volume: &mut Volume<S>,
    dbd: &Dbd,
    call: &Get<'_>,
    position: &Position,
) -> Result<Option<Path>, Refused>
    requires descend { Descend dbd.now.types None call.now.ssas }
    requires there { HasPosition dbd.now volume.old position.now }
    ensures read { IsRead volume.old result volume.new }
    ensures value { IfOk result (λ path. IsSought dbd.now volume.old call.now position.now path) }
    ensures refusal { OnlyDevice result }
{
    match call.kind {
        GetKind::Unique => seek_unique(volume, dbd, call, position),
        GetKind::Next => {
            let path = next_by_first(volume, dbd, call.ssas, position)?;
            seek_from(volume, dbd, call, position, 0, path)
        }
        GetKind::NextInParent => {
            let Some((parent, path)) = next_in_parent_by_first(volume, dbd, call.ssas, position)?
            else {
                return Ok(None);
            };
            seek_from(volume, dbd, call, position, parent, path)
        }
    }
}
