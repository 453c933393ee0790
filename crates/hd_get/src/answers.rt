ghost use Rattle.std.specs.Prelude.{◌≡◌, [], true, None, Some, IsTrue, cond, length, is_none, option_map, IfOk, IfErr, IfNone, IfSome};
ghost use Rattle.std.specs.List.{list_all};
ghost use Rattle.hd_dbd.specs.Refusals.{OnlyDevice};
ghost use Rattle.hd_volume.specs.Calls.{IsRead};
ghost use Rattle.hd_image.specs.Records.{links_of};
ghost use Rattle.hd_forest.specs.Walks.{tip};
ghost use Rattle.hd_calls.specs.Gets.{crossing};
ghost use Rattle.hd_position.specs.LastTypes.{place_of};
ghost use Rattle.hd_calls.specs.Admits.{Descend};
ghost use Rattle.hd_get.specs.Gets.{HasPosition, IsGot, levels_taken};
ghost use Rattle.hd_dbd.specs.Letters.{gives_get};
ghost use Rattle.hd_dbd.specs.Views.{may};
ghost use Rattle.hd_forest.specs.Onward.{onward};
ghost use Rattle.hd_position.specs.Behind.{IsBehind};
ghost use Rattle.hd_get.specs.declared.outcome.Outcome.TheVariants.{Found};
ghost use Rattle.hd_get.specs.Behind.{begins_behind};
ghost use Rattle.hd_get.specs.Found.{IsSought, IsMissed, goes_back, status_between};

use crate::arguments::target_code;
use crate::call::Get;
use crate::found_row::taken;
use crate::next_twin::begins_behind;
use crate::outcome::Outcome;
use crate::searches::seek;
use hd_calls::GetKind;
use hd_dbd::{Access, Dbd, Refused, Status, may};
use hd_forest::{Path, code_at, tip_of};
use hd_position::{LastType, Levels, Position, begin_at_twin, stand_behind, stand_on};
use hd_ssa::ResolvedSsa;
use hd_stores::BlockStore;
use hd_volume::Volume;

/// GA where the row's level is less than that of the row last returned or inserted, GK where it is the same and the type another.
fn crossing(last: Option<LastType>, now: LastType) -> Status
    ensures { result ≡ crossing (option_map place_of last) now.level now.code }
{
    let Some(last) = last else {
        return Status::Blank;
    };
    if now.level < last.level {
        Status::GA
    } else if now.level == last.level && now.code != last.code {
        Status::GK
    } else {
        Status::Blank
    }
}

/// The status of a get that found a row, by the type of the row last returned before and after it: only GN and GNP without segment
/// search arguments tell of a crossing.
fn status_between(call: &Get<'_>, last: Option<LastType>, now: Option<LastType>) -> Status
    ensures { result ≡ status_between call.now.kind call.now.ssas (option_map place_of last) (option_map place_of now) }
{
    match (call.kind, now) {
        (GetKind::Next | GetKind::NextInParent, Some(now)) if call.ssas.is_empty() => {
            crossing(last, now)
        }
        _ => Status::Blank,
    }
}

/// The levels of the rows that a get to the last row of a path holds, none where it does not hold.
fn held_by(dbd: &Dbd, call: &Get<'_>, path: &Path) -> Levels
    requires descend { Descend dbd.now.types None call.now.ssas }
    ensures { result ≡ cond call.now.hold (levels_taken dbd.now.types call.now.ssas (length path.now)) [] }
{
    if call.hold {
        taken(dbd, call.ssas, path)
    } else {
        Levels::new()
    }
}

/// Leaves a PCB on the row of a type that a get has found. Nothing is read.
fn leave_on<S: BlockStore>(
    volume: &Volume<S>,
    dbd: &Dbd,
    call: &Get<'_>,
    position: &mut Position,
    path: Path,
    code: u8,
) -> Outcome
    requires descend { Descend dbd.now.types None call.now.ssas }
    requires there { HasPosition dbd.now volume.now position.old }
    requires sought { IsSought dbd.now volume.now call.now position.old (Some path) }
    requires code { IsTrue volume.now.is_sound → code ≡ (links_of dbd.now.types volume.now).code (tip path) }
    ensures value { IsGot dbd.now volume.now call.now position.old result position.new }
{
    let last = position.last();
    let held = held_by(dbd, call, &path);
    stand_on(volume, dbd, position, path, code, call.kind, held);
    Outcome::Found(status_between(call, last, position.last()))
}

/// A get without arguments that begins at the row just behind those that its PCB has passed, which stands at an address and is of a type that the PCB may read:
/// leaves the PCB there, and says the status. Nothing is read.
pub fn get_behind<S: BlockStore>(
    volume: &Volume<S>,
    dbd: &Dbd,
    call: &Get<'_>,
    position: &mut Position,
    address: u32,
    code: u8,
) -> Status
    requires bare { call.now.ssas ≡ [] }
    requires begins { begins_behind dbd.now.types call.now.kind position.old code ≡ true }
    requires may { may (record { types = dbd.now.types; pcb = call.now.pcb }) gives_get code ≡ true }
    requires there { HasPosition dbd.now volume.now position.old }
    requires behind { IsTrue volume.now.is_sound → IsBehind dbd.now.types (links_of dbd.now.types volume.now) position.old address code }
    ensures value { IsGot dbd.now volume.now call.now position.old (Found result) position.new }
    ensures path { position.new.path ≡ onward dbd.now.types position.old.path address code }
{
    let last = position.last();
    stand_behind(volume, dbd, position, address, code, call.kind, call.hold);
    status_between(call, last, position.last())
}

/// Leaves a PCB on the row that a get has found, of the type of its last argument; without arguments the type is read, one access.
fn found<S: BlockStore>(
    volume: &mut Volume<S>,
    dbd: &Dbd,
    call: &Get<'_>,
    position: &mut Position,
    path: Path,
) -> Result<Outcome, Refused>
    requires descend { Descend dbd.now.types None call.now.ssas }
    requires there { HasPosition dbd.now volume.old position.old }
    requires sought { IsSought dbd.now volume.old call.now position.old (Some path) }
    ensures read { IsRead volume.old result volume.new }
    ensures value { IfOk result (λ o. IsGot dbd.now volume.old call.now position.old o position.new) }
    ensures kept { IfErr result (λ _. position.new ≡ position.old) }
    ensures refusal { OnlyDevice result }
{
    if !call.ssas.is_empty() {
        let code = target_code(call.ssas);
        return Ok(leave_on(volume, dbd, call, position, path, code));
    }
    let code = code_at(volume, dbd, tip_of(&path))?;
    Ok(leave_on(volume, dbd, call, position, path, code))
}

/// A get without arguments that goes on to the next twin of its PCB's row; `None` where it may go elsewhere, and the position stays.
fn get_next_twin<S: BlockStore>(
    volume: &mut Volume<S>,
    dbd: &Dbd,
    call: &Get<'_>,
    position: &mut Position,
) -> Result<Option<Status>, Refused>
    requires bare { call.now.ssas ≡ [] }
    requires there { HasPosition dbd.now volume.old position.old }
    ensures read { IsRead volume.old result volume.new }
    ensures value { IfOk result (λ o. IfSome o (λ status. IsGot dbd.now volume.old call.now position.old (Found status) position.new)) }
    ensures stays { IfOk result (λ o. IfNone o (position.new ≡ position.old)) }
    ensures kept { IfErr result (λ _. position.new ≡ position.old) }
    ensures refusal { OnlyDevice result }
{
    if call.kind == GetKind::Unique {
        return Ok(None);
    }
    let Some((twin, code)) = begin_at_twin(volume, dbd, position)? else {
        return Ok(None);
    };
    if !begins_behind(dbd, call, position, code) || !may(dbd, call.pcb, Access::Get, code) {
        return Ok(None);
    }
    Ok(Some(get_behind(volume, dbd, call, position, twin, code)))
}

/// Whether no argument is qualified.
fn are_unqualified(ssas: &[ResolvedSsa<'_>]) -> bool
    ensures { result ≡ list_all (λ a. is_none a.groups) ssas.now }
{
    ssas.iter().all(|ssa| !ssa.is_qualified())
}

/// Whether a get that found no row goes back to the start.
fn goes_back(call: &Get<'_>) -> bool
    ensures { result ≡ goes_back call.now.kind call.now.ssas }
{
    match call.kind {
        GetKind::Next => are_unqualified(call.ssas),
        GetKind::Unique | GetKind::NextInParent => false,
    }
}

/// What a get that found no row comes to, and where it leaves its PCB: GN without a qualified argument answers GB and goes back to the
/// start, every other GE, and only the hold ends.
fn missing(call: &Get<'_>, position: &mut Position) -> Outcome
    ensures { IsMissed call.now position.old result position.new }
{
    if goes_back(call) {
        *position = Position::start();
        return Outcome::Missing(Status::GB);
    }
    position.unhold();
    Outcome::Missing(Status::GE)
}

/// A get by a search from where it begins.
fn get_by_search<S: BlockStore>(
    volume: &mut Volume<S>,
    dbd: &Dbd,
    call: &Get<'_>,
    position: &mut Position,
) -> Result<Outcome, Refused>
    requires descend { Descend dbd.now.types None call.now.ssas }
    requires there { HasPosition dbd.now volume.old position.old }
    ensures read { IsRead volume.old result volume.new }
    ensures value { IfOk result (λ o. IsGot dbd.now volume.old call.now position.old o position.new) }
    ensures kept { IfErr result (λ _. position.new ≡ position.old) }
    ensures refusal { OnlyDevice result }
{
    match seek(volume, dbd, call, position)? {
        Some(path) => found(volume, dbd, call, position, path),
        None => Ok(missing(call, position)),
    }
}

/// GU, GN or GNP, or its hold form, over a volume: finds the first row that satisfies it, says its status, and leaves the PCB on that
/// row, whose path the position then has, and `taken` its levels that are returned. Where there is none, GN without a qualified argument
/// answers GB, and every other get GE.
///
/// Four blocks are in memory beside block 0, and a walk of GN over the whole database takes one access for each time that it comes to one
/// that is not. It comes to each row, and to a row again behind the last of its children of each type; so each block is read once where the
/// rows of each root lie in four blocks at most, and the roots in order.
///
/// With arguments the rows that a get reads, each an access where it leads to another block:
/// - GU by the root's key: a block of each level of the index, and the root found there. Below,
///   the twins of each type on the way up to the one that is wanted, or to the first whose key is past what is asked: from the first on, or back
///   from the last, where that and twin backward are kept and the key is nearer to it.
/// - Of a row that does not meet its argument that row alone, and nothing of its span; of a type off the way to the last argument's nothing.
/// - With L and no qualification the last twin alone where the parent keeps its last child, else all twins; with a qualification all twins.
/// - GN and GNP also read the rows above the one where they begin.
///
/// Nothing but `Device` is refused, and the position is then as it was. No memory is taken.
pub fn get<S: BlockStore>(
    volume: &mut Volume<S>,
    dbd: &Dbd,
    call: &Get<'_>,
    position: &mut Position,
) -> Result<Outcome, Refused>
    requires descend { Descend dbd.now.types None call.now.ssas }
    requires there { HasPosition dbd.now volume.old position.old }
    ensures read { IsRead volume.old result volume.new }
    ensures value { IfOk result (λ o. IsGot dbd.now volume.old call.now position.old o position.new) }
    ensures kept { IfErr result (λ _. position.new ≡ position.old) }
    ensures refusal { OnlyDevice result }
{
    if !call.ssas.is_empty() {
        return get_by_search(volume, dbd, call, position);
    }
    match get_next_twin(volume, dbd, call, position)? {
        Some(status) => Ok(Outcome::Found(status)),
        None => get_by_search(volume, dbd, call, position),
    }
}
