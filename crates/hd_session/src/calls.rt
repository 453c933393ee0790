ghost use Rattle.std.specs.Prelude.{◌≡◌, ◌≢◌, ◌<◌, ◌≤◌, [], Ok, Some, length, true, IsTrue, IfOk, IfErr};
ghost use Rattle.hd_dbd.specs.Facts.{stored_sizes};
ghost use Rattle.hd_dbd.specs.Hierarchy.{longest_path};
ghost use Rattle.hd_dbd.specs.Refusals.{OnlyDevice};
ghost use Rattle.hd_volume.specs.Calls.{IsCall, IsRead};
ghost use Rattle.hd_calls.specs.Access.{loads};
ghost use Rattle.hd_calls.specs.Functions.{function_of};
ghost use Rattle.hd_calls.specs.Ssas.{resolve};
ghost use Rattle.hd_update.specs.Inserting.{insert_effect};
ghost use Rattle.hd_update.specs.Loading.{HasPassedAll};
ghost use Rattle.hd_update.specs.Positions.{unheld_at};
ghost use Rattle.hd_update.specs.States.{HasState, IsAreaWrong, kept_of};
ghost use Rattle.hd_dbd.specs.Calls.{bare};
ghost use Rattle.hd_session.specs.Replies.{reply_of};
ghost use Rattle.hd_session.specs.Giving.{IsEmpty};
ghost use Rattle.hd_session.specs.LastGiven.{AreKeysOf};
ghost use Rattle.hd_session.specs.Foretelling.{is_get, is_get_call};
ghost use Rattle.hd_session.specs.Onward.{AreReadable};
ghost use Rattle.hd_session.specs.Inserts.{AreArgumentsOf};
ghost use Rattle.hd_session.specs.Sessions.{IsStepDone, IsUndoneUnlessDevice, IsRoomLacking, IsMemoryLacking, own_in, call_in, IfFewNoInsert};

use crate::accepted::Accepted;
use crate::buffer::IoArea;
use crate::call_and_answer::{Answer, Call};
use crate::functions::function_of;
use crate::get_answers::{answer_behind, answer_get};
use crate::given_rows::give_none;
use crate::insert_answers::answer_isrt;
use crate::last_given::LastGiven;
use crate::load_answers::answer_load;
use crate::next_twin::known_behind;
use crate::tests_by_function::last_test;
use crate::update_answers::{answer_dlet, answer_repl};
use hd_calls::{Function, GetKind};
use hd_dbd::{Dbd, Pcb, Refused, Status};
use hd_get::Get;
use hd_position::Position;
use hd_ssa::{ResolvedSsa, SsaFault, loads, resolve};
use hd_stores::BlockStore;
use hd_volume::Volume;
use std::alloc::Global;

/// The answer of a call that failed a test: its status, and the hold of its PCB ends.
fn fail(positions: &mut [Position], number: usize, status: Status, io: &mut IoArea) -> Answer
    requires number { (0 < number) × (number ≤ length positions.old) }
    ensures reply { reply_of result io.new ≡ bare status }
    ensures positions { positions.new ≡ unheld_at number positions.old }
    ensures same_room { io.new.room ≡ io.old.room }
{
    positions[number - 1].unhold();
    give_none(status, io)
}

/// What an ISRT that passed its tests answers: where the PCB loads, that of a load. No area suits a call without an argument.
fn answer_insert<S: BlockStore>(
    volume: &mut Volume<S>,
    dbd: &Dbd,
    pcb: &Pcb,
    positions: &mut [Position],
    number: usize,
    ssas: &[ResolvedSsa<'_>],
    area: &[u8],
    io: &mut IoArea,
) -> Result<Answer, Refused>
    requires number { (0 < number) × (number ≤ length positions.old) }
    requires arguments { AreArgumentsOf dbd.now pcb.now ssas.now }
    requires size { volume.old.size ≡ dbd.now.block_size }
    requires sizes { volume.old.sizes ≡ stored_sizes dbd.now.types }
    requires state { HasState dbd.now volume.old positions.old }
    requires loader { loads pcb.now ≡ true → HasPassedAll dbd.now volume.old positions.old number }
    requires room { longest_path dbd.now.types ≤ io.old.room }
    requires empty { IsEmpty io.old }
    ensures call { IsCall volume.old result volume.new }
    ensures done { IfOk result (λ a. IsStepDone dbd.now volume.old positions.old number (insert_effect dbd.now pcb.now number ssas.now area.now) (reply_of a io.new) volume.new positions.new) }
    ensures undone { IfErr result (λ e. IsUndoneUnlessDevice volume.old positions.old e volume.new positions.new) }
    ensures area { IfErr result (λ e. IsAreaWrong dbd.now volume.old positions.old (insert_effect dbd.now pcb.now number ssas.now area.now) e) }
    ensures full { IfErr result (λ e. IsRoomLacking dbd.now volume.old positions.old (insert_effect dbd.now pcb.now number ssas.now area.now) e) }
    ensures refusal { IfErr result (λ e. e ≢ Refused.Broken) }
    ensures empty { IfErr result (λ _. IsEmpty io.new) }
    ensures same_room { io.new.room ≡ io.old.room }
    ensures many { length positions.new ≡ length positions.old }
{
    if ssas.is_empty() {
        return Err(Refused::Area);
    }
    if !loads(pcb) {
        return answer_isrt(volume, dbd, positions, number, ssas, area, io);
    }
    answer_load(volume, dbd, positions, number, ssas[0].code(), area, io)
}

/// What a call that passed its tests answers. An update forgets the rows above that are known.
fn answer_accepted<S: BlockStore>(
    volume: &mut Volume<S>,
    dbd: &Dbd,
    pcb: &Pcb,
    positions: &mut [Position],
    number: usize,
    call: &Call,
    accepted: &Accepted<'_>,
    last_given: &mut LastGiven,
    io: &mut IoArea,
) -> Result<Answer, Refused>
    requires number { (0 < number) × (number ≤ length positions.old) }
    requires size { volume.old.size ≡ dbd.now.block_size }
    requires sizes { volume.old.sizes ≡ stored_sizes dbd.now.types }
    requires state { HasState dbd.now volume.old positions.old }
    requires loader { loads pcb.now ≡ true → HasPassedAll dbd.now volume.old positions.old number }
    requires resolved { resolve (record { types = dbd.now.types; pcb = pcb.now }) accepted.now.function call.now.ssas ≡ Ok accepted.now.ssas }
    requires known { AreKeysOf dbd.now volume.old last_given.old }
    requires held { accepted.now.function ≡ Function.Replace → IsTrue volume.old.is_sound → 0 < length (kept_of positions.old number).held }
    requires room { longest_path dbd.now.types ≤ io.old.room }
    requires empty { IsEmpty io.old }
    ensures call { IsCall volume.old result volume.new }
    ensures known { IfOk result (λ _. AreKeysOf dbd.now volume.new last_given.new) }
    ensures done { IfOk result (λ a. IsStepDone dbd.now volume.old positions.old number (own_in dbd.now pcb.now number call.now.area accepted.now) (reply_of a io.new) volume.new positions.new) }
    ensures undone { IfErr result (λ e. IsUndoneUnlessDevice volume.old positions.old e volume.new positions.new) }
    ensures area { IfErr result (λ e. IsAreaWrong dbd.now volume.old positions.old (own_in dbd.now pcb.now number call.now.area accepted.now) e) }
    ensures full { IfErr result (λ e. IsRoomLacking dbd.now volume.old positions.old (own_in dbd.now pcb.now number call.now.area accepted.now) e) }
    ensures refusal { IfErr result (λ e. e ≢ Refused.Broken) }
    ensures memory { accepted.now.function ≢ Function.Insert → IfErr result (λ e. IsMemoryLacking dbd.now volume.old positions.old (own_in dbd.now pcb.now number call.now.area accepted.now) e) }
    ensures never { accepted.now.function ≢ Function.Insert → accepted.now.function ≢ Function.Replace → IfErr result (λ e. e ≢ Refused.Memory) }
    ensures reads { is_get accepted.now.function ≡ true → IsRead volume.old result volume.new }
    ensures refuses { is_get accepted.now.function ≡ true → OnlyDevice result }
    ensures empty { IfErr result (λ _. IsEmpty io.new) }
    ensures same_room { io.new.room ≡ io.old.room }
    ensures many { length positions.new ≡ length positions.old }
{
    let ssas = accepted.ssas;
    match accepted.function {
        Function::Get(kind, hold) => {
            let call = Get {
                pcb,
                kind,
                hold,
                ssas,
            };
            answer_get(volume, dbd, positions, number, &call, last_given, io)
        }
        Function::Insert => {
            last_given.forget();
            answer_insert(volume, dbd, pcb, positions, number, ssas, &call.area, io)
        }
        Function::Replace => {
            last_given.forget();
            answer_repl(volume, dbd, positions, number, ssas, &call.area, io)
        }
        Function::Delete => {
            last_given.forget();
            answer_dlet(volume, dbd, positions, number, ssas, io)
        }
    }
}

/// A call that names this function, and whose arguments mean this: its last tests, and then its own work.
fn answer_tested<S: BlockStore>(
    volume: &mut Volume<S>,
    dbd: &Dbd,
    pcb: &Pcb,
    positions: &mut [Position],
    number: usize,
    call: &Call,
    function: Function,
    ssas: &[ResolvedSsa<'_>],
    last_given: &mut LastGiven,
    io: &mut IoArea,
) -> Result<Answer, Refused>
    requires number { (0 < number) × (number ≤ length positions.old) }
    requires size { volume.old.size ≡ dbd.now.block_size }
    requires sizes { volume.old.sizes ≡ stored_sizes dbd.now.types }
    requires state { HasState dbd.now volume.old positions.old }
    requires loader { loads pcb.now ≡ true → HasPassedAll dbd.now volume.old positions.old number }
    requires known { AreKeysOf dbd.now volume.old last_given.old }
    requires room { longest_path dbd.now.types ≤ io.old.room }
    requires empty { IsEmpty io.old }
    requires named { function_of call.now.function ≡ Some function }
    requires resolved { resolve (record { types = dbd.now.types; pcb = pcb.now }) function call.now.ssas ≡ Ok ssas.now }
    ensures call { IsCall volume.old result volume.new }
    ensures known { IfOk result (λ _. AreKeysOf dbd.now volume.new last_given.new) }
    ensures done { IfOk result (λ a. IsStepDone dbd.now volume.old positions.old number (call_in dbd.now pcb.now number call.now) (reply_of a io.new) volume.new positions.new) }
    ensures undone { IfErr result (λ e. IsUndoneUnlessDevice volume.old positions.old e volume.new positions.new) }
    ensures area { IfErr result (λ e. IsAreaWrong dbd.now volume.old positions.old (call_in dbd.now pcb.now number call.now) e) }
    ensures full { IfErr result (λ e. IsRoomLacking dbd.now volume.old positions.old (call_in dbd.now pcb.now number call.now) e) }
    ensures refusal { IfErr result (λ e. e ≢ Refused.Broken) }
    ensures memory { IfFewNoInsert call.now (IfErr result (λ e. IsMemoryLacking dbd.now volume.old positions.old (call_in dbd.now pcb.now number call.now) e)) }
    ensures never { function_of call.now.function ≢ Some Function.Insert → function_of call.now.function ≢ Some Function.Replace → length call.now.ssas ≤ 4 → IfErr result (λ e. e ≢ Refused.Memory) }
    ensures reads { is_get function ≡ true → IsRead volume.old result volume.new }
    ensures refuses { is_get function ≡ true → OnlyDevice result }
    ensures empty { IfErr result (λ _. IsEmpty io.new) }
    ensures same_room { io.new.room ≡ io.old.room }
    ensures many { length positions.new ≡ length positions.old }
{
    match last_test(volume, dbd, pcb, &positions[number - 1], function, ssas)? {
        Some(status) => Ok(fail(positions, number, status, io)),
        None => {
            let accepted = Accepted { function, ssas };
            answer_accepted(
                volume, dbd, pcb, positions, number, call, &accepted, last_given, io,
            )
        }
    }
}

/// A call that names this function, with segment search arguments.
#[inline(never)] // What it needs of the stack is cleared at each call, and so not taken where a call has no arguments.
fn answer_named<S: BlockStore>(
    alloc: Global,
    volume: &mut Volume<S>,
    dbd: &Dbd,
    pcb: &Pcb,
    positions: &mut [Position],
    number: usize,
    call: &Call,
    function: Function,
    last_given: &mut LastGiven,
    io: &mut IoArea,
) -> Result<Answer, Refused>
    requires number { (0 < number) × (number ≤ length positions.old) }
    requires size { volume.old.size ≡ dbd.now.block_size }
    requires sizes { volume.old.sizes ≡ stored_sizes dbd.now.types }
    requires state { HasState dbd.now volume.old positions.old }
    requires loader { loads pcb.now ≡ true → HasPassedAll dbd.now volume.old positions.old number }
    requires known { AreKeysOf dbd.now volume.old last_given.old }
    requires empty { IsEmpty io.old }
    requires named { function_of call.now.function ≡ Some function }
    requires room { longest_path dbd.now.types ≤ io.old.room }
    ensures call { IsCall volume.old result volume.new }
    ensures known { IfOk result (λ _. AreKeysOf dbd.now volume.new last_given.new) }
    ensures done { IfOk result (λ a. IsStepDone dbd.now volume.old positions.old number (call_in dbd.now pcb.now number call.now) (reply_of a io.new) volume.new positions.new) }
    ensures undone { IfErr result (λ e. IsUndoneUnlessDevice volume.old positions.old e volume.new positions.new) }
    ensures area { IfErr result (λ e. IsAreaWrong dbd.now volume.old positions.old (call_in dbd.now pcb.now number call.now) e) }
    ensures full { IfErr result (λ e. IsRoomLacking dbd.now volume.old positions.old (call_in dbd.now pcb.now number call.now) e) }
    ensures refusal { IfErr result (λ e. e ≢ Refused.Broken) }
    ensures memory { IfFewNoInsert call.now (IfErr result (λ e. IsMemoryLacking dbd.now volume.old positions.old (call_in dbd.now pcb.now number call.now) e)) }
    ensures never { function_of call.now.function ≢ Some Function.Insert → function_of call.now.function ≢ Some Function.Replace → length call.now.ssas ≤ 4 → IfErr result (λ e. e ≢ Refused.Memory) }
    ensures reads { is_get function ≡ true → IsRead volume.old result volume.new }
    ensures refuses { is_get function ≡ true → length call.now.ssas ≤ 4 → OnlyDevice result }
    ensures empty { IfErr result (λ _. IsEmpty io.new) }
    ensures same_room { io.new.room ≡ io.old.room }
    ensures many { length positions.new ≡ length positions.old }
{
    match resolve(alloc, function, call.ssas.as_slice(), pcb, dbd) {
        Ok(resolved) => {
            let ssas = resolved.ssas();
            answer_tested(
                volume, dbd, pcb, positions, number, call, function, ssas, last_given, io,
            )
        }
        Err(SsaFault::Status(status)) => Ok(fail(positions, number, status, io)),
        Err(SsaFault::Memory) => Err(Refused::Memory),
    }
}

/// A get without segment search arguments: where it is known where it goes on, nothing but its row is looked at.
fn answer_bare_get<S: BlockStore>(
    volume: &mut Volume<S>,
    dbd: &Dbd,
    pcb: &Pcb,
    positions: &mut [Position],
    number: usize,
    call: &Call,
    kind: GetKind,
    hold: bool,
    readable: &mut Option<u8>,
    last_given: &mut LastGiven,
    io: &mut IoArea,
) -> Result<Answer, Refused>
    requires number { (0 < number) × (number ≤ length positions.old) }
    requires size { volume.old.size ≡ dbd.now.block_size }
    requires sizes { volume.old.sizes ≡ stored_sizes dbd.now.types }
    requires state { HasState dbd.now volume.old positions.old }
    requires loader { loads pcb.now ≡ true → HasPassedAll dbd.now volume.old positions.old number }
    requires readable { AreReadable dbd.now.types pcb.now readable.old }
    requires known { AreKeysOf dbd.now volume.old last_given.old }
    requires room { longest_path dbd.now.types ≤ io.old.room }
    requires empty { IsEmpty io.old }
    requires named { function_of call.now.function ≡ Some (Function.Get kind hold) }
    requires bare { call.now.ssas ≡ [] }
    ensures read { IsRead volume.old result volume.new }
    ensures readable { AreReadable dbd.now.types pcb.now readable.new }
    ensures known { IfOk result (λ _. AreKeysOf dbd.now volume.new last_given.new) }
    ensures done { IfOk result (λ a. IsStepDone dbd.now volume.old positions.old number (call_in dbd.now pcb.now number call.now) (reply_of a io.new) volume.new positions.new) }
    ensures empty { IfErr result (λ _. IsEmpty io.new) }
    ensures same_room { io.new.room ≡ io.old.room }
    ensures many { length positions.new ≡ length positions.old }
    ensures refusal { OnlyDevice result }
{
    let get = Get {
        pcb,
        kind,
        hold,
        ssas: &[],
    };
    match known_behind(dbd, &get, &positions[number - 1], readable, last_given) {
        Some((twin, code)) => {
            answer_behind(
                volume, dbd, positions, number, &get, twin, code, last_given, io,
            )
        }
        None => {
            let function = Function::Get(kind, hold);
            answer_tested(
                volume,
                dbd,
                pcb,
                positions,
                number,
                call,
                function,
                &[],
                last_given,
                io,
            )
        }
    }
}

/// One call of the PCB of a number, counted from 1: its tests in their order, of which the first that fails answers, and then its own work. The tests are AD for
/// the function, AJ, AC and AK for the segment search arguments, AM for PROCOPT, AH where ISRT has no argument, DJ where nothing is held, GP where GNP has no parent.
///
/// `Memory` may come of the tests with five arguments or more.
pub fn call_step<S: BlockStore>(
    alloc: Global,
    volume: &mut Volume<S>,
    dbd: &Dbd,
    pcb: &Pcb,
    positions: &mut [Position],
    number: usize,
    call: &Call,
    readable: &mut Option<u8>,
    last_given: &mut LastGiven,
    io: &mut IoArea,
) -> Result<Answer, Refused>
    requires number { (0 < number) × (number ≤ length positions.old) }
    requires size { volume.old.size ≡ dbd.now.block_size }
    requires sizes { volume.old.sizes ≡ stored_sizes dbd.now.types }
    requires state { HasState dbd.now volume.old positions.old }
    requires loader { loads pcb.now ≡ true → HasPassedAll dbd.now volume.old positions.old number }
    requires readable { AreReadable dbd.now.types pcb.now readable.old }
    requires known { AreKeysOf dbd.now volume.old last_given.old }
    requires room { longest_path dbd.now.types ≤ io.old.room }
    ensures readable { AreReadable dbd.now.types pcb.now readable.new }
    ensures call { IsCall volume.old result volume.new }
    ensures known { IfOk result (λ _. AreKeysOf dbd.now volume.new last_given.new) }
    ensures done { IfOk result (λ a. IsStepDone dbd.now volume.old positions.old number (call_in dbd.now pcb.now number call.now) (reply_of a io.new) volume.new positions.new) }
    ensures undone { IfErr result (λ e. IsUndoneUnlessDevice volume.old positions.old e volume.new positions.new) }
    ensures area { IfErr result (λ e. IsAreaWrong dbd.now volume.old positions.old (call_in dbd.now pcb.now number call.now) e) }
    ensures full { IfErr result (λ e. IsRoomLacking dbd.now volume.old positions.old (call_in dbd.now pcb.now number call.now) e) }
    ensures refusal { IfErr result (λ e. e ≢ Refused.Broken) }
    ensures memory { IfFewNoInsert call.now (IfErr result (λ e. IsMemoryLacking dbd.now volume.old positions.old (call_in dbd.now pcb.now number call.now) e)) }
    ensures never { function_of call.now.function ≢ Some Function.Insert → function_of call.now.function ≢ Some Function.Replace → length call.now.ssas ≤ 4 → IfErr result (λ e. e ≢ Refused.Memory) }
    ensures reads { is_get_call call.now ≡ true → IsRead volume.old result volume.new }
    ensures refuses { is_get_call call.now ≡ true → length call.now.ssas ≤ 4 → OnlyDevice result }
    ensures empty { IfErr result (λ _. IsEmpty io.new) }
    ensures same_room { io.new.room ≡ io.old.room }
    ensures many { length positions.new ≡ length positions.old }
{
    io.clear();
    let Some(function) = function_of(call.func) else {
        return Ok(fail(positions, number, Status::AD, io));
    };
    let texts = call.ssas.as_slice();
    if !texts.is_empty() {
        return answer_named(
            alloc, volume, dbd, pcb, positions, number, call, function, last_given, io,
        );
    }
    if let Function::Get(kind, hold) = function {
        return answer_bare_get(
            volume, dbd, pcb, positions, number, call, kind, hold, readable, last_given, io,
        );
    }
    answer_tested(
        volume,
        dbd,
        pcb,
        positions,
        number,
        call,
        function,
        &[],
        last_given,
        io,
    )
}
