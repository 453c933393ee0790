ghost use Rattle.std.specs.Prelude.{◌≡◌, ◌+◌, ◌^◌, ◌<◌, ◌≤◌, ◌∷◌, [], length, IsTrue, false, OnOk, OnErr, IfOk, IfErr, All};
ghost use Rattle.hd_dbd.specs.Hierarchy.{longest_path};
ghost use Rattle.hd_session.specs.Requests.{ask, calls_in, FailsIn};
ghost use Rattle.hd_session.specs.Turns.{StaysWhole};
ghost use Rattle.hd_deck.specs.Commits.{is_due, commit_behind, requests_from, CommitsIfDue, PlaysRequests, DoesUntil};
ghost use Rattle.hd_deck.specs.Runs.{repeated, step_turns, turns_of, StopsAt, Breaks};
ghost use Rattle.hd_deck.specs.StepText.{StepFits};

use crate::call_room::CallRoom;
use crate::plays::{Count, Stop, play_call};
use crate::step::Step;
use hd_session::{Call, IoArea, Session};
use hd_stores::CommitStore;
use std::io::Write;

/// Whether a commit is made behind the call of a number, where one is wanted behind every so many calls.
fn is_due(every: Option<u32>, number: u64) -> bool
    ensures { result ≡ is_due every number }
{
    match every {
        Some(every) if every > 0 => number % u64::from(every) == 0,
        _ => false,
    }
}

/// Commits a session behind the call of a number, if that is due.
fn commit_if_due<S: CommitStore>(
    session: &mut Session<'_, S>,
    every: Option<u32>,
    number: u64,
) -> Result<(), Stop>
    requires whole { session.old.broken ≡ false }
    ensures commits { OnOk result (CommitsIfDue session.old (commit_behind every number) session.new) }
    ensures fails { OnErr result (FailsIn session.old session.new) }
    ensures device { IfErr result (λ e. e ≡ Stop.Device) }
    ensures whole { OnOk result (StaysWhole session.old session.new) }
    ensures breaks { OnErr result (Breaks session.old session.new) }
{
    if !is_due(every, number) {
        return Ok(());
    }
    match session.commit() {
        Ok(()) => Ok(()),
        Err(_) => Err(Stop::Device),
    }
}

/// One call of a number, its line, and the commit behind it, if one is due; how many calls, 0 or 1, found no memory.
fn play_and_commit<S: CommitStore, W: Write>(
    session: &mut Session<'_, S>,
    pcb: u8,
    call: &Call,
    number: u64,
    every: Option<u32>,
    io: &mut IoArea,
    out: &mut W,
) -> Result<u64, Stop>
    requires pcb { (0 < pcb) × (pcb ≤ length session.old.pcbs) }
    requires room { longest_path session.old.database.types ≤ io.old.room }
    requires whole { session.old.broken ≡ false }
    ensures plays { IfOk result (λ lacking. PlaysRequests session.old (requests_from every number (record { pcb = pcb; call = call.now } ∷ [])) number (W.contents out.old) (W.contents out.new) lacking session.new) }
    ensures until { IfErr result (λ e. DoesUntil session.old (requests_from every number (record { pcb = pcb; call = call.now } ∷ [])) e session.new) }
    ensures few { IfOk result (λ lacking. lacking ≤ 1) }
    ensures whole { OnOk result (StaysWhole session.old session.new) }
    ensures stops { IfErr result (λ e. StopsAt session.old e session.new) }
    ensures same_room { io.new.room ≡ io.old.room }
{
    let lacking = play_call(session, pcb, call, number, io, out)?;
    commit_if_due(session, every, number)?;
    Ok(lacking)
}

/// One call, made again and again, the first time with the number, and the commits among them.
fn play_calls_and_commit<S: CommitStore, W: Write>(
    session: &mut Session<'_, S>,
    pcb: u8,
    call: &Call,
    repeat: u16,
    number: u64,
    every: Option<u32>,
    io: &mut IoArea,
    out: &mut W,
) -> Result<u64, Stop>
    requires pcb { (0 < pcb) × (pcb ≤ length session.old.pcbs) }
    requires room { longest_path session.old.database.types ≤ io.old.room }
    requires number { number + repeat < 2 ^ 64 }
    requires whole { session.old.broken ≡ false }
    ensures plays { IfOk result (λ lacking. PlaysRequests session.old (requests_from every number (repeated repeat pcb call.now)) number (W.contents out.old) (W.contents out.new) lacking session.new) }
    ensures until { IfErr result (λ e. DoesUntil session.old (requests_from every number (repeated repeat pcb call.now)) e session.new) }
    ensures few { IfOk result (λ lacking. lacking ≤ repeat) }
    ensures whole { OnOk result (StaysWhole session.old session.new) }
    ensures stops { IfErr result (λ e. StopsAt session.old e session.new) }
    ensures same_room { io.new.room ≡ io.old.room }
{
    let mut lacking = 0u64;
    for made in 0..repeat {
        let number = number + u64::from(made);
        let more = play_and_commit(session, pcb, call, number, every, io, out)?;
        lacking += more;
    }
    Ok(lacking)
}

/// The calls of one step, the first of which has the number, and the commits among them.
fn play_step_and_commit<S: CommitStore, W: Write>(
    session: &mut Session<'_, S>,
    step: &Step<'_>,
    number: u64,
    every: Option<u32>,
    room: &mut CallRoom,
    io: &mut IoArea,
    out: &mut W,
) -> Result<u64, Stop>
    requires pcb { (0 < step.now.pcb) × (step.now.pcb ≤ length session.old.pcbs) }
    requires room { longest_path session.old.database.types ≤ io.old.room }
    requires number { number + step.now.repeat < 2 ^ 64 }
    requires whole { session.old.broken ≡ false }
    ensures plays { IfOk result (λ lacking. PlaysRequests session.old (requests_from every number (step_turns step.now)) number (W.contents out.old) (W.contents out.new) lacking session.new) }
    ensures until { IfErr result (λ e. DoesUntil session.old (requests_from every number (step_turns step.now)) e session.new) }
    ensures few { IfOk result (λ lacking. lacking ≤ step.now.repeat) }
    ensures whole { OnOk result (StaysWhole session.old session.new) }
    ensures stops { IfErr result (λ e. StopsAt session.old e session.new) }
    ensures same_room { io.new.room ≡ io.old.room }
{
    if room.make(step).is_err() {
        return Err(Stop::Write);
    }
    play_calls_and_commit(
        session,
        step.pcb,
        room.call(),
        step.repeat,
        number,
        every,
        io,
        out,
    )
}

/// The steps in their order, with a commit behind every so many of their calls.
pub(crate) fn play_and_commit_steps<S: CommitStore, W: Write>(
    session: &mut Session<'_, S>,
    steps: &[Step<'_>],
    every: Option<u32>,
    room: &mut CallRoom,
    io: &mut IoArea,
    out: &mut W,
) -> Result<Count, Stop>
    requires steps { All (StepFits (length session.old.pcbs)) steps.now }
    requires count { length steps.now ≤ 2 ^ 30 }
    requires room { longest_path session.old.database.types ≤ io.old.room }
    requires whole { session.old.broken ≡ false }
    ensures plays { IfOk result (λ n. PlaysRequests session.old (requests_from every 1 (turns_of steps.now)) 1 (W.contents out.old) (W.contents out.new) n.memory session.new) }
    ensures calls { IfOk result (λ n. n.calls ≡ length (turns_of steps.now)) }
    ensures until { IfErr result (λ e. DoesUntil session.old (requests_from every 1 (turns_of steps.now)) e session.new) }
    ensures whole { OnOk result (StaysWhole session.old session.new) }
    ensures stops { IfErr result (λ e. StopsAt session.old e session.new) }
{
    let mut calls = 0u64;
    let mut memory = 0u64;
    for step in steps {
        let lacking = play_step_and_commit(session, step, calls + 1, every, room, io, out)?;
        calls += u64::from(step.repeat);
        memory += lacking;
    }
    Ok(Count { calls, memory })
}
