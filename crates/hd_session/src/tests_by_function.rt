ghost use Rattle.std.specs.Prelude.{◌≡◌, ◌≢◌, List, [], Bool, is_some, IfOk};
ghost use Rattle.hd_dbd.specs.Segment.{Segment};
ghost use Rattle.hd_dbd.specs.Positions.{Position as position};
ghost use Rattle.hd_dbd.specs.Refusals.{OnlyDevice};
ghost use Rattle.hd_volume.specs.Calls.{IsRead};
ghost use Rattle.hd_calls.specs.declared.call.GetKind.{GetKind};
ghost use Rattle.hd_calls.specs.declared.call.GetKind.TheVariants.{NextInParent};
ghost use Rattle.hd_calls.specs.declared.call.Function.TheVariants.{Get, Insert, Replace, Delete};
ghost use Rattle.hd_get.specs.Gets.{HasPosition};
ghost use Rattle.hd_get.specs.Searches.{IsOf};
ghost use Rattle.hd_session.specs.Tests.{AreHeldOf, IsParentOf, AreLastTests, IsLastTest};
ghost use Rattle.hd_session.specs.Accesses.{setting};

use crate::parent::parent_code;
use crate::permissions::{
    delete_allowed, deleted_code, get_allowed, has_parent, insert_allowed, replace_allowed,
};
use hd_calls::{Function, GetKind};
use hd_dbd::{Dbd, Pcb, Refused, Status};
use hd_position::Position;
use hd_ssa::ResolvedSsa;
use hd_stores::BlockStore;
use hd_update::{HeldRow, held_rows};
use hd_volume::Volume;

/// The last test of a get that looks at no parent.
fn get_test(dbd: &Dbd, pcb: &Pcb, ssas: &[ResolvedSsa<'_>]) -> Option<Status>
    ensures { (rows : List Segment) (q : position) (kind : GetKind) (hold : Bool) → kind ≢ NextInParent → AreLastTests (setting dbd.now pcb.now) rows q (Get kind hold) ssas.now result }
{
    if !get_allowed(dbd, pcb, ssas) {
        return Some(Status::AM);
    }
    None
}

/// The last tests of GNP and GHNP, where the parentage row is of this type.
fn get_in_parent_test(
    dbd: &Dbd,
    pcb: &Pcb,
    ssas: &[ResolvedSsa<'_>],
    parent: Option<u8>,
) -> Option<Status>
    ensures { (rows : List Segment) (q : position) (hold : Bool) → IsParentOf rows q parent → AreLastTests (setting dbd.now pcb.now) rows q (Get NextInParent hold) ssas.now result }
{
    if !get_allowed(dbd, pcb, ssas) {
        return Some(Status::AM);
    }
    if !has_parent(dbd, ssas, parent) {
        return Some(Status::GP);
    }
    None
}

/// The last tests of GNP and GHNP without arguments, where there is a parentage row or none.
fn get_in_any_parent_test(dbd: &Dbd, pcb: &Pcb, has_parent: bool) -> Option<Status>
    ensures { (rows : List Segment) (q : position) (hold : Bool) → has_parent ≡ is_some q.parent → AreLastTests (setting dbd.now pcb.now) rows q (Get NextInParent hold) [] result }
{
    if !get_allowed(dbd, pcb, &[]) {
        return Some(Status::AM);
    }
    if !has_parent {
        return Some(Status::GP);
    }
    None
}

/// The last tests of an ISRT.
fn insert_test(dbd: &Dbd, pcb: &Pcb, ssas: &[ResolvedSsa<'_>]) -> Option<Status>
    ensures { (rows : List Segment) (q : position) → AreLastTests (setting dbd.now pcb.now) rows q Insert ssas.now result }
{
    if !insert_allowed(dbd, pcb, ssas) {
        return Some(Status::AM);
    }
    if ssas.is_empty() {
        return Some(Status::AH);
    }
    None
}

/// The last tests of a REPL by a PCB that holds these rows.
fn replace_test(dbd: &Dbd, pcb: &Pcb, ssas: &[ResolvedSsa<'_>], held: &[HeldRow]) -> Option<Status>
    ensures { (rows : List Segment) (q : position) → AreHeldOf rows q.held held.now → AreLastTests (setting dbd.now pcb.now) rows q Replace ssas.now result }
{
    if !replace_allowed(dbd, pcb, ssas, held) {
        return Some(Status::AM);
    }
    if held.is_empty() {
        return Some(Status::DJ);
    }
    None
}

/// The last tests of a DLET by a PCB that holds these rows.
fn delete_test(dbd: &Dbd, pcb: &Pcb, ssas: &[ResolvedSsa<'_>], held: &[HeldRow]) -> Option<Status>
    ensures { (rows : List Segment) (q : position) → AreHeldOf rows q.held held.now → AreLastTests (setting dbd.now pcb.now) rows q Delete ssas.now result }
{
    if !delete_allowed(dbd, pcb, ssas, held) {
        return Some(Status::AM);
    }
    if deleted_code(ssas, held).is_none() {
        return Some(Status::DJ);
    }
    None
}

/// The last tests of GNP and GHNP. With arguments the parentage row is read.
fn test_get_in_parent<S: BlockStore>(
    volume: &mut Volume<S>,
    dbd: &Dbd,
    pcb: &Pcb,
    position: &Position,
    ssas: &[ResolvedSsa<'_>],
) -> Result<Option<Status>, Refused>
    requires of { IsOf dbd.now volume.old }
    requires there { HasPosition dbd.now volume.old position.now }
    ensures read { IsRead volume.old result volume.new }
    ensures value { IfOk result (λ o. (hold : Bool) → IsLastTest dbd.now volume.old pcb.now position.now (Get NextInParent hold) ssas.now o) }
    ensures refusal { OnlyDevice result }
{
    if ssas.is_empty() {
        return Ok(get_in_any_parent_test(dbd, pcb, position.parent() > 0));
    }
    let parent = parent_code(volume, dbd, position)?;
    Ok(get_in_parent_test(dbd, pcb, ssas, parent))
}

/// The last tests of a get of a kind. GNP with arguments reads the parentage row.
fn test_get<S: BlockStore>(
    volume: &mut Volume<S>,
    dbd: &Dbd,
    pcb: &Pcb,
    position: &Position,
    kind: GetKind,
    ssas: &[ResolvedSsa<'_>],
) -> Result<Option<Status>, Refused>
    requires of { IsOf dbd.now volume.old }
    requires there { HasPosition dbd.now volume.old position.now }
    ensures read { IsRead volume.old result volume.new }
    ensures value { IfOk result (λ o. (hold : Bool) → IsLastTest dbd.now volume.old pcb.now position.now (Get kind hold) ssas.now o) }
    ensures refusal { OnlyDevice result }
{
    match kind {
        GetKind::Unique => Ok(get_test(dbd, pcb, ssas)),
        GetKind::Next => Ok(get_test(dbd, pcb, ssas)),
        GetKind::NextInParent => test_get_in_parent(volume, dbd, pcb, position, ssas),
    }
}

/// The last tests of a REPL. The held rows are read.
fn test_replace<S: BlockStore>(
    volume: &mut Volume<S>,
    dbd: &Dbd,
    pcb: &Pcb,
    position: &Position,
    ssas: &[ResolvedSsa<'_>],
) -> Result<Option<Status>, Refused>
    requires of { IsOf dbd.now volume.old }
    requires there { HasPosition dbd.now volume.old position.now }
    ensures read { IsRead volume.old result volume.new }
    ensures value { IfOk result (λ o. IsLastTest dbd.now volume.old pcb.now position.now Replace ssas.now o) }
    ensures refusal { OnlyDevice result }
{
    let held = held_rows(volume, dbd, position)?;
    Ok(replace_test(dbd, pcb, ssas, held.as_slice()))
}

/// The last tests of a DLET. The held rows are read.
fn test_delete<S: BlockStore>(
    volume: &mut Volume<S>,
    dbd: &Dbd,
    pcb: &Pcb,
    position: &Position,
    ssas: &[ResolvedSsa<'_>],
) -> Result<Option<Status>, Refused>
    requires of { IsOf dbd.now volume.old }
    requires there { HasPosition dbd.now volume.old position.now }
    ensures read { IsRead volume.old result volume.new }
    ensures value { IfOk result (λ o. IsLastTest dbd.now volume.old pcb.now position.now Delete ssas.now o) }
    ensures refusal { OnlyDevice result }
{
    let held = held_rows(volume, dbd, position)?;
    Ok(delete_test(dbd, pcb, ssas, held.as_slice()))
}

/// The tests of a call behind those of its arguments, of which the first that fails answers: AM, AH, DJ, GP. Of the volume GNP with
/// arguments reads the parentage row, REPL and DLET the held rows.
pub fn last_test<S: BlockStore>(
    volume: &mut Volume<S>,
    dbd: &Dbd,
    pcb: &Pcb,
    position: &Position,
    function: Function,
    ssas: &[ResolvedSsa<'_>],
) -> Result<Option<Status>, Refused>
    requires of { IsOf dbd.now volume.old }
    requires there { HasPosition dbd.now volume.old position.now }
    ensures read { IsRead volume.old result volume.new }
    ensures value { IfOk result (λ o. IsLastTest dbd.now volume.old pcb.now position.now function ssas.now o) }
    ensures refusal { OnlyDevice result }
{
    match function {
        Function::Get(kind, _) => test_get(volume, dbd, pcb, position, kind, ssas),
        Function::Insert => Ok(insert_test(dbd, pcb, ssas)),
        Function::Replace => test_replace(volume, dbd, pcb, position, ssas),
        Function::Delete => test_delete(volume, dbd, pcb, position, ssas),
    }
}
