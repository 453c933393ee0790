ghost use Rattle.std.specs.Prelude.{◌≡◌, ◌≢◌, ◌+◌, ◌<◌, ◌≤◌, length, drop, is_some, None, true, IsTrue, IfOk, IfErr};
ghost use Rattle.hd_dbd.specs.Facts.{stored_sizes};
ghost use Rattle.hd_dbd.specs.Hierarchy.{type_of};
ghost use Rattle.hd_dbd.specs.DatabaseRules.{well_formed};
ghost use Rattle.hd_dbd.specs.Refusals.{OnlyDevice, OnlyRoomOrDevice};
ghost use Rattle.hd_volume.specs.Calls.{IsCall, IsRead};
ghost use Rattle.hd_calls.specs.Places.{rule_under, rule_of};
ghost use Rattle.hd_calls.specs.Ssas.{first_inserted};
ghost use Rattle.hd_calls.specs.Admits.{Descend};
ghost use Rattle.hd_get.specs.Gets.{HasPosition};
ghost use Rattle.hd_update.specs.NewRows.{codes_of, first_code, are_rows_in, rows_in};
ghost use Rattle.hd_update.specs.Putting.{AreFullFor};
ghost use Rattle.hd_update.specs.Inserting.{AreInsertArguments, IsInsertDone, IsInsertAreaWrong, IsInsertFull, StepDown, IsTargetAbove, IsParentAsked, HasParentFor, IsFullUnder, HasPlaceFor, AreInserted, AreInsertedFrom};
ghost use Rattle.hd_update.specs.States.{HasState, IsUndone};

use crate::area::{answer_fault, area_fault, front};
use crate::parents::insert_parent;
use crate::places::place_below;
use crate::positions::end_hold;
use crate::put_path::put_path;
use hd_calls::Commands;
use hd_dbd::{Dbd, Refused, Rule, Status};
use hd_forest::Path;
use hd_get::Outcome;
use hd_position::{Position, stand_on_new};
use hd_ssa::ResolvedSsa;
use hd_stores::BlockStore;
use hd_volume::Volume;

/// The place of the first argument whose type is inserted: the first with D, or else the last.
pub fn first_inserted(ssas: &[ResolvedSsa<'_>]) -> usize
    ensures value { result ≡ first_inserted ssas.now }
    ensures within { result ≤ length ssas.now }
{
    for place in 0..ssas.len() {
        if ssas[place].commands().path {
            return place;
        }
    }
    ssas.len().saturating_sub(1)
}

/// A type's rule under command codes: L overrides FIRST and HERE, F overrides HERE; where both stand, L is disregarded.
fn rule_under(commands: Commands, rule: Rule) -> Rule
    ensures { result ≡ rule_under commands rule }
{
    if commands.first {
        return match rule {
            Rule::Here => Rule::First,
            other => other,
        };
    }
    if commands.last { Rule::Last } else { rule }
}

/// The rule by which a row of an argument's type goes in.
fn rule_asked(dbd: &Dbd, ssa: &ResolvedSsa<'_>) -> Rule
    ensures value { result ≡ rule_under ssa.now.commands (rule_of dbd.now.types ssa.now.code) }
    ensures fit { IsTrue (well_formed dbd.now.block_size dbd.now.frspc dbd.now.types) }
{
    let rule = match dbd.type_of(ssa.code()) {
        Some(segment) => segment.rule,
        None => Rule::Last,
    };
    rule_under(ssa.commands(), rule)
}

/// The path of the parent of a row of a type that ISRT puts in, empty for a root; `None` where there is none.
fn parent_for<S: BlockStore>(
    volume: &mut Volume<S>,
    dbd: &Dbd,
    above: &[ResolvedSsa<'_>],
    position: &Position,
    code: u8,
) -> Result<Option<Path>, Refused>
    requires typed { is_some (type_of dbd.now.types code) ≡ true }
    requires descend { Descend dbd.now.types None above.now }
    requires target { IsTargetAbove dbd.now.types above.now code }
    requires there { HasPosition dbd.now volume.old position.now }
    ensures read { IsRead volume.old result volume.new }
    ensures value { IfOk result (λ path. IsParentAsked dbd.now volume.old above.now code position.now path) }
    ensures refusal { OnlyDevice result }
{
    match dbd.parent_of(code) {
        Some(parent) => insert_parent(volume, dbd, above, position, parent),
        None => Ok(Some(Path::new())),
    }
}

/// Puts in rows of the types of these arguments, which an area has one behind the other, below a parent whose path is given, the first behind
/// its preceding twin, 0 for none; the PCB of a number stands on the last of them then.
fn insert_rows<S: BlockStore>(
    volume: &mut Volume<S>,
    dbd: &Dbd,
    positions: &mut [Position],
    number: usize,
    parent: &Path,
    after: u32,
    ssas: &[ResolvedSsa<'_>],
    area: &[u8],
) -> Result<Outcome, Refused>
    requires number { (0 < number) × (number ≤ length positions.old) }
    requires some { 0 < length ssas.now }
    requires few { length ssas.now ≤ 15 }
    requires levels { IsTrue volume.old.is_sound → length parent.now + length ssas.now ≤ 15 }
    requires size { volume.old.size ≡ dbd.now.block_size }
    requires sizes { volume.old.sizes ≡ stored_sizes dbd.now.types }
    requires long { are_rows_in dbd.now.types (codes_of ssas.now) area.now ≡ true }
    requires place { HasPlaceFor dbd.now volume.old positions.old parent.now after (rows_in dbd.now.types (codes_of ssas.now) area.now) }
    ensures call { IsCall volume.old result volume.new }
    ensures done { IfOk result (λ o. AreInserted dbd.now volume.old positions.old number parent.now after (rows_in dbd.now.types (codes_of ssas.now) area.now) o volume.new positions.new) }
    ensures undone { IfErr result (λ _. IsUndone volume.old positions.old volume.new positions.new) }
    ensures full { IfErr result (λ e. AreFullFor dbd.now volume.old (rows_in dbd.now.types (codes_of ssas.now) area.now) e) }
    ensures refusal { OnlyRoomOrDevice result }
{
    let own = put_path(volume, dbd, parent, after, ssas, area)?;
    stand_on_new(volume, dbd, &mut positions[number - 1], own)?;
    Ok(Outcome::Found(Status::Blank))
}

/// ISRT of rows of the types of these arguments, which an area has one behind the other, by the PCB of a number, below a parent whose path is
/// given, by key and rule.
fn insert_under<S: BlockStore>(
    volume: &mut Volume<S>,
    dbd: &Dbd,
    positions: &mut [Position],
    number: usize,
    parent: &Path,
    rule: Rule,
    ssas: &[ResolvedSsa<'_>],
    area: &[u8],
) -> Result<Outcome, Refused>
    requires number { (0 < number) × (number ≤ length positions.old) }
    requires some { 0 < length ssas.now }
    requires few { length ssas.now ≤ 15 }
    requires size { volume.old.size ≡ dbd.now.block_size }
    requires sizes { volume.old.sizes ≡ stored_sizes dbd.now.types }
    requires down { StepDown dbd.now.types (first_code ssas.now) (drop 1 (codes_of ssas.now)) }
    requires long { are_rows_in dbd.now.types (codes_of ssas.now) area.now ≡ true }
    requires parent { HasParentFor dbd.now volume.old positions.old parent.now (first_code ssas.now) }
    ensures call { IsCall volume.old result volume.new }
    ensures done { IfOk result (λ o. AreInsertedFrom dbd.now volume.old positions.old number parent.now (codes_of ssas.now) rule area.now o volume.new positions.new) }
    ensures undone { IfErr result (λ _. IsUndone volume.old positions.old volume.new positions.new) }
    ensures full { IfErr result (λ e. IsFullUnder dbd.now volume.old positions.old number parent.now (first_code ssas.now) rule (rows_in dbd.now.types (codes_of ssas.now) area.now) e) }
    ensures refusal { OnlyRoomOrDevice result }
{
    let code = ssas[0].code();
    let bytes = front(dbd, code, area);
    let place = place_below(
        volume,
        dbd,
        parent,
        &positions[number - 1],
        rule,
        code,
        bytes,
    )?;
    let Some(after) = place else {
        end_hold(positions, number);
        return Ok(Outcome::Missing(Status::II));
    };
    insert_rows(volume, dbd, positions, number, parent, after, ssas, area)
}

/// ISRT by the PCB of a number, counted from 1, that does not load, once its tests are passed: the I/O area is the inserted rows, one behind
/// the other. V1 where a row whose type varies has a wrong length, GE where there is no parent, II where the key is unique and a twin has it;
/// else all rows go in, each below the one before, the PCB stands on the last of them, and those of every other PCB move.
///
/// What is read: the parent, where it is not on the path where the PCB stands, as by GU; the place below it, as its rule and key say; then
/// each row is one block or two. So many blocks are reserved before the first write as the rows and the root's entry may need, or none where
/// one hole holds all dependents.
///
/// `Area` says that bytes of the area lack or are left over, and comes, as V1 does, before all else; `Full` and `Memory` that there is no room
/// for all rows. Nothing is changed then.
pub fn isrt<S: BlockStore>(
    volume: &mut Volume<S>,
    dbd: &Dbd,
    positions: &mut [Position],
    number: usize,
    ssas: &[ResolvedSsa<'_>],
    area: &[u8],
) -> Result<Outcome, Refused>
    requires number { (0 < number) × (number ≤ length positions.old) }
    requires some { 0 < length ssas.now }
    requires arguments { AreInsertArguments dbd.now.types ssas.now }
    requires size { volume.old.size ≡ dbd.now.block_size }
    requires sizes { volume.old.sizes ≡ stored_sizes dbd.now.types }
    requires state { HasState dbd.now volume.old positions.old }
    ensures call { IsCall volume.old result volume.new }
    ensures done { IfOk result (λ o. IsInsertDone dbd.now volume.old positions.old number ssas.now area.now o volume.new positions.new) }
    ensures undone { IfErr result (λ _. IsUndone volume.old positions.old volume.new positions.new) }
    ensures area { IfErr result (λ e. IsInsertAreaWrong dbd.now volume.old positions.old number ssas.now area.now e) }
    ensures full { IfErr result (λ e. IsInsertFull dbd.now volume.old positions.old number ssas.now area.now e) }
    ensures refusal { IfErr result (λ e. e ≢ Refused.Broken) }
{
    let first = first_inserted(ssas);
    let inserted = &ssas[first..];
    if let Some(fault) = area_fault(dbd, inserted, area) {
        return answer_fault(positions, number, fault);
    }
    let code = ssas[first].code();
    let parent = parent_for(volume, dbd, &ssas[..first], &positions[number - 1], code)?;
    let Some(parent) = parent else {
        end_hold(positions, number);
        return Ok(Outcome::Missing(Status::GE));
    };
    let rule = rule_asked(dbd, &ssas[first]);
    insert_under(
        volume, dbd, positions, number, &parent, rule, inserted, area,
    )
}
