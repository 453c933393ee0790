ghost use Rattle.std.specs.Prelude.{◌≡◌, ◌<◌, ◌≤◌, [], true, None, IsTrue, length, IfOk, IfErr};
ghost use Rattle.hd_dbd.specs.Letters.{gives_get};
ghost use Rattle.hd_dbd.specs.Views.{may};
ghost use Rattle.hd_dbd.specs.Hierarchy.{longest_path};
ghost use Rattle.hd_dbd.specs.Refusals.{OnlyDevice};
ghost use Rattle.hd_volume.specs.Calls.{IsRead};
ghost use Rattle.hd_calls.specs.Admits.{Descend};
ghost use Rattle.hd_image.specs.Records.{links_of};
ghost use Rattle.hd_forest.specs.Onward.{onward};
ghost use Rattle.hd_position.specs.Behind.{IsBehind};
ghost use Rattle.hd_get.specs.Behind.{begins_behind};
ghost use Rattle.hd_get.specs.Gets.{HasPosition, levels_taken};
ghost use Rattle.hd_get.specs.Searches.{IsOf, IsThere};
ghost use Rattle.hd_update.specs.States.{HasState, kept_of};
ghost use Rattle.hd_session.specs.Replies.{reply_of};
ghost use Rattle.hd_session.specs.Giving.{IsEmpty, IsGiven};
ghost use Rattle.hd_session.specs.LastGiven.{AreKeysOf, IsJustBelow};
ghost use Rattle.hd_session.specs.Sessions.{IsGetAnswered, IsStepDone, get_in};

use crate::buffer::IoArea;
use crate::call_and_answer::Answer;
use crate::given_rows::{give_and_look, give_below, give_known, give_none};
use crate::last_given::LastGiven;
use hd_dbd::{Dbd, Refused, Status};
use hd_forest::Path;
use hd_get::{Get, Outcome, get, get_behind, taken};
use hd_position::Position;
use hd_ssa::ResolvedSsa;
use hd_stores::BlockStore;
use hd_volume::Volume;

/// The answer of a get with these arguments that gives the last row of a path, into an empty area, where rows above may be known.
fn give_found<S: BlockStore>(
    volume: &mut Volume<S>,
    dbd: &Dbd,
    ssas: &[ResolvedSsa<'_>],
    path: &Path,
    status: Status,
    last_given: &mut LastGiven,
    io: &mut IoArea,
) -> Result<Answer, Refused>
    requires descend { Descend dbd.now.types None ssas.now }
    requires of { IsOf dbd.now volume.old }
    requires there { IsThere dbd.now volume.old path.now }
    requires known { AreKeysOf dbd.now volume.old last_given.old }
    requires room { longest_path dbd.now.types ≤ io.old.room }
    requires empty { IsEmpty io.old }
    ensures read { IsRead volume.old result volume.new }
    ensures known { IfOk result (λ _. AreKeysOf dbd.now volume.new last_given.new) }
    ensures given { IfOk result (λ a. IsGiven dbd.now volume.old path.now (levels_taken dbd.now.types ssas.now (length path.now)) status (reply_of a io.new)) }
    ensures empty { IfErr result (λ _. IsEmpty io.new) }
    ensures same_room { io.new.room ≡ io.old.room }
    ensures refusal { OnlyDevice result }
{
    let levels = taken(dbd, ssas, path);
    if ssas.is_empty() {
        return give_and_look(volume, dbd, path, &levels, status, last_given, io);
    }
    give_known(volume, dbd, path, &levels, status, last_given, io)
}

/// A get of a PCB with its answer, into an empty I/O area, where rows above may be known.
fn get_at<S: BlockStore>(
    volume: &mut Volume<S>,
    dbd: &Dbd,
    call: &Get<'_>,
    position: &mut Position,
    last_given: &mut LastGiven,
    io: &mut IoArea,
) -> Result<Answer, Refused>
    requires descend { Descend dbd.now.types None call.now.ssas }
    requires there { HasPosition dbd.now volume.old position.old }
    requires known { AreKeysOf dbd.now volume.old last_given.old }
    requires room { longest_path dbd.now.types ≤ io.old.room }
    requires empty { IsEmpty io.old }
    ensures read { IsRead volume.old result volume.new }
    ensures known { IfOk result (λ _. AreKeysOf dbd.now volume.new last_given.new) }
    ensures value { IfOk result (λ a. IsGetAnswered dbd.now volume.old call.now position.old (reply_of a io.new) position.new) }
    ensures empty { IfErr result (λ _. IsEmpty io.new) }
    ensures same_room { io.new.room ≡ io.old.room }
    ensures refusal { OnlyDevice result }
{
    match get(volume, dbd, call, position)? {
        Outcome::Found(status) => {
            give_found(
                volume,
                dbd,
                call.ssas,
                position.path(),
                status,
                last_given,
                io,
            )
        }
        Outcome::Missing(status) => Ok(give_none(status, io)),
    }
}

/// A get without arguments that begins at the row just behind those that its PCB has passed, which stands at an address and is of a type that the PCB may read,
/// with its answer, into an empty I/O area, where rows above may be known.
fn get_behind_at<S: BlockStore>(
    volume: &mut Volume<S>,
    dbd: &Dbd,
    call: &Get<'_>,
    position: &mut Position,
    address: u32,
    code: u8,
    last_given: &mut LastGiven,
    io: &mut IoArea,
) -> Result<Answer, Refused>
    requires bare { call.now.ssas ≡ [] }
    requires begins { begins_behind dbd.now.types call.now.kind position.old code ≡ true }
    requires may { may (record { types = dbd.now.types; pcb = call.now.pcb }) gives_get code ≡ true }
    requires there { HasPosition dbd.now volume.old position.old }
    requires behind { IsTrue volume.old.is_sound → IsBehind dbd.now.types (links_of dbd.now.types volume.old) position.old address code }
    requires below { IsJustBelow (onward dbd.now.types position.old.path address code) last_given.old }
    requires known { AreKeysOf dbd.now volume.old last_given.old }
    requires room { longest_path dbd.now.types ≤ io.old.room }
    requires empty { IsEmpty io.old }
    ensures read { IsRead volume.old result volume.new }
    ensures known { IfOk result (λ _. AreKeysOf dbd.now volume.new last_given.new) }
    ensures value { IfOk result (λ a. IsGetAnswered dbd.now volume.old call.now position.old (reply_of a io.new) position.new) }
    ensures empty { IfErr result (λ _. IsEmpty io.new) }
    ensures same_room { io.new.room ≡ io.old.room }
    ensures refusal { OnlyDevice result }
{
    let status = get_behind(volume, dbd, call, position, address, code);
    give_below(volume, dbd, position.path(), status, last_given, io)
}

/// The same of the PCB of a number, counted from 1.
pub fn answer_behind<S: BlockStore>(
    volume: &mut Volume<S>,
    dbd: &Dbd,
    positions: &mut [Position],
    number: usize,
    call: &Get<'_>,
    address: u32,
    code: u8,
    last_given: &mut LastGiven,
    io: &mut IoArea,
) -> Result<Answer, Refused>
    requires number { (0 < number) × (number ≤ length positions.old) }
    requires bare { call.now.ssas ≡ [] }
    requires begins { begins_behind dbd.now.types call.now.kind (kept_of positions.old number) code ≡ true }
    requires may { may (record { types = dbd.now.types; pcb = call.now.pcb }) gives_get code ≡ true }
    requires state { HasState dbd.now volume.old positions.old }
    requires behind { IsTrue volume.old.is_sound → IsBehind dbd.now.types (links_of dbd.now.types volume.old) (kept_of positions.old number) address code }
    requires below { IsJustBelow (onward dbd.now.types (kept_of positions.old number).path address code) last_given.old }
    requires known { AreKeysOf dbd.now volume.old last_given.old }
    requires room { longest_path dbd.now.types ≤ io.old.room }
    requires empty { IsEmpty io.old }
    ensures read { IsRead volume.old result volume.new }
    ensures known { IfOk result (λ _. AreKeysOf dbd.now volume.new last_given.new) }
    ensures done { IfOk result (λ a. IsStepDone dbd.now volume.old positions.old number (get_in dbd.now number call.now) (reply_of a io.new) volume.new positions.new) }
    ensures empty { IfErr result (λ _. IsEmpty io.new) }
    ensures same_room { io.new.room ≡ io.old.room }
    ensures many { length positions.new ≡ length positions.old }
    ensures refusal { OnlyDevice result }
{
    let position = &mut positions[number - 1];
    get_behind_at(volume, dbd, call, position, address, code, last_given, io)
}

/// A get of the PCB of a number, counted from 1, with its answer, into an empty I/O area.
pub fn answer_get<S: BlockStore>(
    volume: &mut Volume<S>,
    dbd: &Dbd,
    positions: &mut [Position],
    number: usize,
    call: &Get<'_>,
    last_given: &mut LastGiven,
    io: &mut IoArea,
) -> Result<Answer, Refused>
    requires number { (0 < number) × (number ≤ length positions.old) }
    requires state { HasState dbd.now volume.old positions.old }
    requires descend { Descend dbd.now.types None call.now.ssas }
    requires known { AreKeysOf dbd.now volume.old last_given.old }
    requires room { longest_path dbd.now.types ≤ io.old.room }
    requires empty { IsEmpty io.old }
    ensures read { IsRead volume.old result volume.new }
    ensures known { IfOk result (λ _. AreKeysOf dbd.now volume.new last_given.new) }
    ensures done { IfOk result (λ a. IsStepDone dbd.now volume.old positions.old number (get_in dbd.now number call.now) (reply_of a io.new) volume.new positions.new) }
    ensures empty { IfErr result (λ _. IsEmpty io.new) }
    ensures same_room { io.new.room ≡ io.old.room }
    ensures many { length positions.new ≡ length positions.old }
    ensures refusal { OnlyDevice result }
{
    let position = &mut positions[number - 1];
    get_at(volume, dbd, call, position, last_given, io)
}
