ghost use Rattle.std.specs.Prelude.{◌≡◌, ◌≢◌, ◌<◌, ◌≤◌, length, take, false, IsTrue, IfOk, IfErr};
ghost use Rattle.hd_dbd.specs.Facts.{stored_sizes};
ghost use Rattle.hd_dbd.specs.Hierarchy.{longest_path};
ghost use Rattle.hd_dbd.specs.Refusals.{OnlyDevice};
ghost use Rattle.hd_volume.specs.Calls.{IsCall, IsRead};
ghost use Rattle.hd_get.specs.Gets.{HasPosition};
ghost use Rattle.hd_update.specs.States.{HasState, IsUndone, kept_of};
ghost use Rattle.hd_update.specs.Calls.{IsReplaceAreaWrong, IsReplaceFull, ReplaceLengthens};
ghost use Rattle.hd_session.specs.Replies.{reply_of};
ghost use Rattle.hd_session.specs.Giving.{IsEmpty};
ghost use Rattle.hd_session.specs.Sessions.{IsLevelGiven, IsTold, IsReplaceStep, IsDeleteStep, lowest_level, deleted_level};

use crate::buffer::IoArea;
use crate::call_and_answer::Answer;
use crate::given_rows::{give, give_none, is_among};
use hd_dbd::{Dbd, Refused, Status};
use hd_forest::Path;
use hd_get::Outcome;
use hd_position::{Levels, Position};
use hd_ssa::ResolvedSsa;
use hd_stores::BlockStore;
use hd_update::{dlet, repl};
use hd_volume::Volume;

/// A path down to a level.
fn path_down_to(path: &Path, level: u8) -> Path
    ensures { result ≡ take level path.now }
{
    let addresses = path.addresses();
    let mut part = Path::new();
    for place in 0..addresses.len().min(level as usize) {
        part.push(addresses[place]);
    }
    part
}

/// The level of the lowest held row, 0 where none is held.
fn lowest_level(levels: &Levels) -> u8
    ensures { result ≡ lowest_level levels.now }
{
    levels.as_slice().last().copied().unwrap_or(0)
}

/// The level of the held row that DLET takes: of the argument's type, if it is held, or else the highest; 0 where there is none.
fn deleted_level(dbd: &Dbd, ssas: &[ResolvedSsa<'_>], levels: &Levels) -> u8
    ensures { result ≡ deleted_level dbd.now.types ssas.now levels.now }
{
    let Some(ssa) = ssas.first() else {
        return levels.as_slice().first().copied().unwrap_or(0);
    };
    let level = dbd.level(ssa.code());
    if is_among(levels, level) { level } else { 0 }
}

/// The answer that gives the row at a level of a PCB's path, without its bytes, into the emptied I/O area; none where there is no such level.
fn give_level<S: BlockStore>(
    volume: &mut Volume<S>,
    dbd: &Dbd,
    position: &Position,
    level: u8,
    io: &mut IoArea,
) -> Result<Answer, Refused>
    requires there { HasPosition dbd.now volume.old position.now }
    requires room { longest_path dbd.now.types ≤ io.old.room }
    ensures read { IsRead volume.old result volume.new }
    ensures given { IfOk result (λ a. IsLevelGiven dbd.now volume.old position.now level (reply_of a io.new)) }
    ensures empty { IfErr result (λ _. IsEmpty io.new) }
    ensures same_room { io.new.room ≡ io.old.room }
    ensures refusal { OnlyDevice result }
{
    if level == 0 || level > position.path().level() {
        return Ok(give_none(Status::Blank, io));
    }
    let path = path_down_to(position.path(), level);
    give(volume, dbd, &path, &Levels::new(), Status::Blank, io)
}

/// What an update that came to an outcome answers: the row that was read before it, or a status alone.
fn told(outcome: Outcome, given: Answer, io: &mut IoArea) -> Answer
    ensures told { IsTold outcome (reply_of given io.old) (reply_of result io.new) }
    ensures same_room { io.new.room ≡ io.old.room }
{
    match outcome {
        Outcome::Found(_) => given,
        Outcome::Missing(status) => give_none(status, io),
    }
}

/// REPL by the PCB of a number, counted from 1, that holds a row, with its answer: the lowest row that it holds, without bytes.
pub fn answer_repl<S: BlockStore>(
    volume: &mut Volume<S>,
    dbd: &Dbd,
    positions: &mut [Position],
    number: usize,
    ssas: &[ResolvedSsa<'_>],
    area: &[u8],
    io: &mut IoArea,
) -> Result<Answer, Refused>
    requires number { (0 < number) × (number ≤ length positions.old) }
    requires state { HasState dbd.now volume.old positions.old }
    requires size { volume.old.size ≡ dbd.now.block_size }
    requires sizes { volume.old.sizes ≡ stored_sizes dbd.now.types }
    requires held { IsTrue volume.old.is_sound → 0 < length (kept_of positions.old number).held }
    requires room { longest_path dbd.now.types ≤ io.old.room }
    ensures call { IsCall volume.old result volume.new }
    ensures done { IfOk result (λ a. IsReplaceStep dbd.now volume.old positions.old number ssas.now area.now (reply_of a io.new) volume.new positions.new) }
    ensures undone { IfErr result (λ _. IsUndone volume.old positions.old volume.new positions.new) }
    ensures area { IfErr result (λ e. IsReplaceAreaWrong dbd.now volume.old positions.old number ssas.now area.now e) }
    ensures full { IfErr result (λ e. IsReplaceFull dbd.now volume.old positions.old number ssas.now area.now e) }
    ensures memory { IfErr result (λ e. e ≡ Refused.Memory → ReplaceLengthens dbd.now volume.old positions.old number ssas.now area.now) }
    ensures empty { IfErr result (λ _. IsEmpty io.new) }
    ensures same_room { io.new.room ≡ io.old.room }
    ensures many { length positions.new ≡ length positions.old }
    ensures refusal { IfErr result (λ e. e ≢ Refused.Broken) }
{
    if positions[number - 1].held().as_slice().is_empty() {
        return Ok(give_none(Status::DJ, io));
    }
    replace_held(volume, dbd, positions, number, ssas, area, io)
}

/// REPL where the PCB holds a row.
fn replace_held<S: BlockStore>(
    volume: &mut Volume<S>,
    dbd: &Dbd,
    positions: &mut [Position],
    number: usize,
    ssas: &[ResolvedSsa<'_>],
    area: &[u8],
    io: &mut IoArea,
) -> Result<Answer, Refused>
    requires number { (0 < number) × (number ≤ length positions.old) }
    requires state { HasState dbd.now volume.old positions.old }
    requires size { volume.old.size ≡ dbd.now.block_size }
    requires sizes { volume.old.sizes ≡ stored_sizes dbd.now.types }
    requires held { 0 < length (kept_of positions.old number).held }
    requires room { longest_path dbd.now.types ≤ io.old.room }
    ensures call { IsCall volume.old result volume.new }
    ensures done { IfOk result (λ a. IsReplaceStep dbd.now volume.old positions.old number ssas.now area.now (reply_of a io.new) volume.new positions.new) }
    ensures undone { IfErr result (λ _. IsUndone volume.old positions.old volume.new positions.new) }
    ensures area { IfErr result (λ e. IsReplaceAreaWrong dbd.now volume.old positions.old number ssas.now area.now e) }
    ensures full { IfErr result (λ e. IsReplaceFull dbd.now volume.old positions.old number ssas.now area.now e) }
    ensures memory { IfErr result (λ e. e ≡ Refused.Memory → ReplaceLengthens dbd.now volume.old positions.old number ssas.now area.now) }
    ensures empty { IfErr result (λ _. IsEmpty io.new) }
    ensures same_room { io.new.room ≡ io.old.room }
    ensures many { length positions.new ≡ length positions.old }
    ensures refusal { IfErr result (λ e. e ≢ Refused.Broken) }
{
    let level = lowest_level(positions[number - 1].held());
    let given = give_level(volume, dbd, &positions[number - 1], level, io)?;
    match repl(volume, dbd, positions, number, ssas, area) {
        Ok(outcome) => Ok(told(outcome, given, io)),
        Err(refused) => {
            io.clear();
            Err(refused)
        }
    }
}

/// DLET by the PCB of a number, counted from 1, with its answer: the row that left, as it stood, without bytes.
pub fn answer_dlet<S: BlockStore>(
    volume: &mut Volume<S>,
    dbd: &Dbd,
    positions: &mut [Position],
    number: usize,
    ssas: &[ResolvedSsa<'_>],
    io: &mut IoArea,
) -> Result<Answer, Refused>
    requires number { (0 < number) × (number ≤ length positions.old) }
    requires state { HasState dbd.now volume.old positions.old }
    requires room { longest_path dbd.now.types ≤ io.old.room }
    ensures call { IsCall volume.old result volume.new }
    ensures done { IfOk result (λ a. IsDeleteStep dbd.now volume.old positions.old number ssas.now (reply_of a io.new) volume.new positions.new) }
    ensures undone { IfErr result (λ _. IsUndone volume.old positions.old volume.new positions.new) }
    ensures empty { IfErr result (λ _. IsEmpty io.new) }
    ensures same_room { io.new.room ≡ io.old.room }
    ensures many { length positions.new ≡ length positions.old }
    ensures refusal { OnlyDevice result }
{
    let level = deleted_level(dbd, ssas, positions[number - 1].held());
    let given = give_level(volume, dbd, &positions[number - 1], level, io)?;
    match dlet(volume, dbd, positions, number, ssas) {
        Ok(outcome) => Ok(told(outcome, given, io)),
        Err(refused) => {
            io.clear();
            Err(refused)
        }
    }
}
