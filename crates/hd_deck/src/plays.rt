ghost use Rattle.std.specs.Prelude.{◌≡◌, ◌+◌, ◌^◌, ◌<◌, ◌≤◌, ◌∷◌, [], length, false, OnOk, IfOk, IfErr, All};
ghost use Rattle.hd_dbd.specs.Hierarchy.{longest_path};
ghost use Rattle.hd_stores.specs.Stores.{CountsFor, SoundFor};
ghost use Rattle.hd_deck.specs.StepText.{StepFits};
ghost use Rattle.hd_session.specs.Turns.{StaysWhole};
ghost use Rattle.hd_deck.specs.Runs.{repeated, step_turns, turns_of, memory_of, PlaysAll, PlaysUntil, StopsAt};

use crate::call_room::CallRoom;
use crate::lines::print_outcome;
use crate::step::Step;
use hd_dbd::Refused;
use hd_session::{Answer, Call, IoArea, Session};
use hd_stores::BlockStore;
use std::io::Write;

/// Why the calls in a session stopped early: an access of the store failed, or a write. A call that finds no room for itself stops them like a failed write,
/// before it is made.
#[derive(Clone, Copy, Debug, Drop, PartialEq, Eq)]
pub(crate) enum Stop {
    Device,
    Write,
}

/// How many calls, 0 or 1, found no memory by what a call answered; `None` where an access failed.
fn memory_of(answered: &Result<Answer, Refused>) -> Option<u64>
    ensures { result ≡ memory_of answered.now }
{
    match answered {
        Err(Refused::Device | Refused::Broken) => None,
        Err(Refused::Memory) => Some(1),
        _ => Some(0),
    }
}

/// One call, and its line, that of a failed access too; how many calls, 0 or 1, found no memory. Where an access failed it is `Device`, whether
/// or not the line was written.
pub(crate) fn play_call<S: BlockStore, W: Write>(
    session: &mut Session<'_, S>,
    pcb: u8,
    call: &Call,
    number: u64,
    io: &mut IoArea,
    out: &mut W,
) -> Result<u64, Stop>
    requires pcb { (0 < pcb) × (pcb ≤ length session.old.pcbs) }
    requires room { longest_path session.old.database.types ≤ io.old.room }
    requires whole { session.old.broken ≡ false }
    ensures plays { IfOk result (λ lacking. PlaysAll session.old (record { pcb = pcb; call = call.now } ∷ []) number (W.contents out.old) (W.contents out.new) lacking session.new) }
    ensures until { IfErr result (λ e. PlaysUntil session.old (record { pcb = pcb; call = call.now } ∷ []) e session.new) }
    ensures few { IfOk result (λ lacking. lacking ≤ 1) }
    ensures whole { OnOk result (StaysWhole session.old session.new) }
    ensures stops { IfErr result (λ e. StopsAt session.old e session.new) }
    ensures committed { session.new.volume.committed ≡ session.old.volume.committed }
    ensures same_room { io.new.room ≡ io.old.room }
{
    let answered = session.call(pcb, call, io);
    let printed = print_outcome(out, number, pcb, &call.func, &answered, io);
    let Some(lacking) = memory_of(&answered) else {
        return Err(Stop::Device);
    };
    match printed {
        Ok(()) => Ok(lacking),
        Err(_) => Err(Stop::Write),
    }
}

/// One call, made again and again, the first time with the number.
fn play_calls<S: BlockStore, W: Write>(
    session: &mut Session<'_, S>,
    pcb: u8,
    call: &Call,
    repeat: u16,
    number: u64,
    io: &mut IoArea,
    out: &mut W,
) -> Result<u64, Stop>
    requires pcb { (0 < pcb) × (pcb ≤ length session.old.pcbs) }
    requires room { longest_path session.old.database.types ≤ io.old.room }
    requires number { number + repeat < 2 ^ 64 }
    requires whole { session.old.broken ≡ false }
    ensures plays { IfOk result (λ lacking. PlaysAll session.old (repeated repeat pcb call.now) number (W.contents out.old) (W.contents out.new) lacking session.new) }
    ensures until { IfErr result (λ e. PlaysUntil session.old (repeated repeat pcb call.now) e session.new) }
    ensures few { IfOk result (λ lacking. lacking ≤ repeat) }
    ensures whole { OnOk result (StaysWhole session.old session.new) }
    ensures stops { IfErr result (λ e. StopsAt session.old e session.new) }
    ensures committed { session.new.volume.committed ≡ session.old.volume.committed }
    ensures same_room { io.new.room ≡ io.old.room }
{
    let mut lacking = 0u64;
    for made in 0..repeat {
        let more = play_call(session, pcb, call, number + u64::from(made), io, out)?;
        lacking += more;
    }
    Ok(lacking)
}

/// The calls of one step, the first of which has the number.
fn play_step<S: BlockStore, W: Write>(
    session: &mut Session<'_, S>,
    step: &Step<'_>,
    number: u64,
    room: &mut CallRoom,
    io: &mut IoArea,
    out: &mut W,
) -> Result<u64, Stop>
    requires pcb { (0 < step.now.pcb) × (step.now.pcb ≤ length session.old.pcbs) }
    requires room { longest_path session.old.database.types ≤ io.old.room }
    requires number { number + step.now.repeat < 2 ^ 64 }
    requires whole { session.old.broken ≡ false }
    ensures plays { IfOk result (λ lacking. PlaysAll session.old (step_turns step.now) number (W.contents out.old) (W.contents out.new) lacking session.new) }
    ensures until { IfErr result (λ e. PlaysUntil session.old (step_turns step.now) e session.new) }
    ensures few { IfOk result (λ lacking. lacking ≤ step.now.repeat) }
    ensures whole { OnOk result (StaysWhole session.old session.new) }
    ensures stops { IfErr result (λ e. StopsAt session.old e session.new) }
    ensures committed { session.new.volume.committed ≡ session.old.volume.committed }
    ensures same_room { io.new.room ≡ io.old.room }
{
    if room.make(step).is_err() {
        return Err(Stop::Write);
    }
    play_calls(session, step.pcb, room.call(), step.repeat, number, io, out)
}

/// How many calls were made, and how many of them found no memory.
#[derive(Clone, Copy)]
pub(crate) struct Count {
    pub(crate) calls: u64,
    pub(crate) memory: u64,
}

/// The steps in their order.
pub(crate) fn play_steps<S: BlockStore, W: Write>(
    session: &mut Session<'_, S>,
    steps: &[Step<'_>],
    room: &mut CallRoom,
    io: &mut IoArea,
    out: &mut W,
) -> Result<Count, Stop>
    requires steps { All (StepFits (length session.old.pcbs)) steps.now }
    requires count { length steps.now ≤ 2 ^ 30 }
    requires room { longest_path session.old.database.types ≤ io.old.room }
    requires whole { session.old.broken ≡ false }
    ensures plays { IfOk result (λ n. PlaysAll session.old (turns_of steps.now) 1 (W.contents out.old) (W.contents out.new) n.memory session.new) }
    ensures calls { IfOk result (λ n. n.calls ≡ length (turns_of steps.now)) }
    ensures until { IfErr result (λ e. PlaysUntil session.old (turns_of steps.now) e session.new) }
    ensures whole { OnOk result (StaysWhole session.old session.new) }
    ensures stops { IfErr result (λ e. StopsAt session.old e session.new) }
    ensures committed { session.new.volume.committed ≡ session.old.volume.committed }
{
    let mut calls = 0u64;
    let mut memory = 0u64;
    for step in steps {
        let lacking = play_step(session, step, calls + 1, room, io, out)?;
        calls += u64::from(step.repeat);
        memory += lacking;
    }
    Ok(Count { calls, memory })
}
