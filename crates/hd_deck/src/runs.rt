ghost use Rattle.std.specs.Prelude.{◌≡◌, ◌≢◌, ◌^◌, ◌≤◌, IsTrue, List, length, false, IfOk, IfErr, All};
ghost use Rattle.hd_dbd.specs.Hierarchy.{longest_path};
ghost use Rattle.hd_dbd.specs.ProgramRules.{type_names};
ghost use Rattle.hd_stores.specs.Stores.{CountsFor, SoundFor};
ghost use Rattle.hd_session.specs.Turns.{Turn};
ghost use Rattle.hd_deck.specs.Commits.{stored_in, requests_from, PlaysRequestsOut, LeavesUntil, IsOpenedOn, PlaysWithCommits, PlaysUntilFault};
ghost use Rattle.hd_deck.specs.StepText.{StepFits};
ghost use Rattle.hd_deck.specs.Runs.{turns_of, IsRunFaultOf, IsBeforeCalls, fault_of, fault_refusal, PlaysOut, LeavesAt, IsRunWhole};

use crate::call_room::CallRoom;
use crate::commits::play_and_commit_steps;
use crate::plays::{Stop, play_steps};
use crate::step::Step;
use hd_dbd::{Dbd, Psb, Refused};
use hd_session::{IoArea, OpenFault, Session};
use hd_stores::{BlockStore, CommitStore};
use hd_volume::Volume;
use std::alloc::Global;
use std::io::Write;

/// Why a run ended early.
#[derive(Clone, Copy, Debug, Drop, PartialEq, Eq)]
pub enum RunFault {
    /// The session was not opened; no call was made.
    Open(OpenFault),
    /// No memory for the volume, for the calls or for the I/O area; no call was made.
    Memory,
    /// An access of the store failed.
    Device,
    /// A line could not be written, or a call found no room although it was taken before the first. The calls that were made are in the store.
    Write,
}

/// How a run ended that made all its calls: how many they were, how many of them found no memory, and the store.
#[derive(Drop)]
pub struct RunEnd<S> {
    pub calls: u64,
    pub memory: u64,
    pub store: S,
}

fn fault_of(stop: Stop) -> RunFault
    ensures { result ≡ fault_of stop }
{
    match stop {
        Stop::Device => RunFault::Device,
        Stop::Write => RunFault::Write,
    }
}

/// Plays the steps in a session, and closes it.
fn play_and_close<S: BlockStore, W: Write>(
    mut session: Session<'_, S>,
    steps: &[Step<'_>],
    room: &mut CallRoom,
    io: &mut IoArea,
    out: &mut W,
) -> Result<RunEnd<S>, (S, Stop)>
    requires steps { All (StepFits (length session.pcbs)) steps.now }
    requires count { length steps.now ≤ 2 ^ 30 }
    requires room { longest_path session.database.types ≤ io.old.room }
    requires whole { session.broken ≡ false }
    ensures plays { IfOk result (λ e. PlaysOut session.entry (turns_of steps.now) (W.contents out.old) (W.contents out.new) e.memory (S.contents e.store)) }
    ensures calls { IfOk result (λ e. e.calls ≡ length (turns_of steps.now)) }
    ensures leaves { IfErr result (λ e. LeavesAt session.entry (turns_of steps.now) e.1 (S.contents e.0)) }
    ensures failures { IfOk result (λ e. S.failures e.store ≡ session.entry.volume.failures) }
    ensures counts { IfErr result (λ e. CountsFor (fault_refusal (fault_of e.1)) session.entry.volume.failures (S.failures e.0)) }
    ensures sound { IfOk result (λ e. S.is_sound e.store ≡ session.entry.volume.is_sound) }
    ensures stays_sound { IfErr result (λ e. SoundFor (fault_refusal (fault_of e.1)) session.entry.volume.is_sound (S.is_sound e.0)) }
    ensures committed { IfOk result (λ e. S.committed e.store ≡ session.entry.volume.committed) }
    ensures given_committed { IfErr result (λ e. S.committed e.0 ≡ session.entry.volume.committed) }
    ensures size { IfOk result (λ e. S.size e.store ≡ session.entry.volume.size) }
    ensures given_size { IfErr result (λ e. S.size e.0 ≡ session.entry.volume.size) }
{
    let played = play_steps(&mut session, steps, room, io, out);
    let (store, closed) = session.close();
    if closed.is_err() {
        return Err((store, Stop::Device));
    }
    match played {
        Ok(count) => Ok(RunEnd {
            calls: count.calls,
            memory: count.memory,
            store,
        }),
        Err(stop) => Err((store, stop)),
    }
}

/// Plays the steps in a session, with a commit behind every so many of their calls, and closes it.
fn commit_and_close<S: CommitStore, W: Write>(
    mut session: Session<'_, S>,
    steps: &[Step<'_>],
    every: Option<u32>,
    room: &mut CallRoom,
    io: &mut IoArea,
    out: &mut W,
) -> Result<RunEnd<S>, (S, Stop)>
    requires steps { All (StepFits (length session.pcbs)) steps.now }
    requires count { length steps.now ≤ 2 ^ 30 }
    requires room { longest_path session.database.types ≤ io.old.room }
    requires whole { session.broken ≡ false }
    ensures plays { IfOk result (λ e. PlaysRequestsOut session.entry (requests_from every 1 (turns_of steps.now)) (W.contents out.old) (W.contents out.new) e.memory (stored_in S.contents S.committed e.store)) }
    ensures calls { IfOk result (λ e. e.calls ≡ length (turns_of steps.now)) }
    ensures leaves { IfErr result (λ e. LeavesUntil session.entry (requests_from every 1 (turns_of steps.now)) e.1 (stored_in S.contents S.committed e.0)) }
    ensures failures { IfOk result (λ e. S.failures e.store ≡ session.entry.volume.failures) }
    ensures counts { IfErr result (λ e. CountsFor (fault_refusal (fault_of e.1)) session.entry.volume.failures (S.failures e.0)) }
    ensures sound { IfOk result (λ e. S.is_sound e.store ≡ session.entry.volume.is_sound) }
    ensures stays_sound { IfErr result (λ e. SoundFor (fault_refusal (fault_of e.1)) session.entry.volume.is_sound (S.is_sound e.0)) }
    ensures size { IfOk result (λ e. S.size e.store ≡ session.entry.volume.size) }
    ensures given_size { IfErr result (λ e. S.size e.0 ≡ session.entry.volume.size) }
{
    let played = play_and_commit_steps(&mut session, steps, every, room, io, out);
    let (store, closed) = session.close();
    if closed.is_err() {
        return Err((store, Stop::Device));
    }
    match played {
        Ok(count) => Ok(RunEnd {
            calls: count.calls,
            memory: count.memory,
            store,
        }),
        Err(stop) => Err((store, stop)),
    }
}

/// A session over the volume of a store, which keeps so many of its blocks in memory, room for the calls of some steps, and room for what they answer.
fn open_run<'a, S: BlockStore>(
    alloc: Global,
    store: S,
    dbd: &'a Dbd,
    psb: &'a Psb,
    kept: usize,
    steps: &[Step<'_>],
) -> Result<(Session<'a, S>, CallRoom, IoArea), (S, RunFault)>
    requires size { S.size store ≡ dbd.now.block_size }
    requires matches { psb.now.made_for ≡ type_names dbd.now.types }
    ensures opened { IfOk result (λ o. IsTrue (S.is_sound store) → IsOpenedOn dbd.now psb.now.pcbs (stored_in S.contents S.committed store) o.0) }
    ensures start { IfOk result (λ o. (o.0.broken ≡ false) × (o.0.pcbs ≡ psb.now.pcbs) × (o.0.database ≡ dbd.now)) }
    ensures room { IfOk result (λ o. longest_path dbd.now.types ≤ o.2.room) }
    ensures accesses { IfOk result (λ o. (o.0.volume.is_sound ≡ S.is_sound store) × (o.0.volume.failures ≡ S.failures store)) }
    ensures kept { IfOk result (λ o. (o.0.volume.committed ≡ S.committed store) × (o.0.volume.size ≡ S.size store)) }
    ensures fault { IfErr result (λ e. IsTrue (S.is_sound store) → (turns : List Turn) → IsRunFaultOf dbd.now psb.now.pcbs (S.contents store) turns (S.contents e.0) e.1) }
    ensures first { IfErr result (λ e. e.1 ≢ RunFault.Write) }
    ensures counts { IfErr result (λ e. CountsFor (fault_refusal e.1) (S.failures store) (S.failures e.0)) }
    ensures sound { IfErr result (λ e. SoundFor (fault_refusal e.1) (S.is_sound store) (S.is_sound e.0)) }
    ensures given { IfErr result (λ e. (S.committed e.0 ≡ S.committed store) × (S.size e.0 ≡ S.size store)) }
{
    let Ok(io) = IoArea::new(alloc, dbd) else {
        return Err((store, RunFault::Memory));
    };
    let Ok(room) = CallRoom::new(alloc, steps) else {
        return Err((store, RunFault::Memory));
    };
    let volume = match Volume::load_keeping(alloc, store, dbd, kept) {
        Ok(volume) => volume,
        Err((store, Refused::Device)) => return Err((store, RunFault::Device)),
        Err((store, _)) => return Err((store, RunFault::Memory)),
    };
    match Session::open(alloc, volume, dbd, psb) {
        Ok(session) => Ok((session, room, io)),
        Err((volume, fault)) => Err((volume.into_store(), RunFault::Open(fault))),
    }
}

/// Plays the steps in their order, each as often as it is repeated, in a session over the volume of a store, which keeps so many of its blocks in
/// memory, prints each answer, and closes the session.
///
/// A call that is refused for its area, for room or for memory is printed as `[!!] Area`, `[!!] Full` or `[!!] Memory`, and the run goes on.
/// `Open` and `Memory` come before the first call, and nothing is written then. `Device` ends the run at the failed access; where that was one of
/// a call, the call is printed as `[!!] Device`, if the writer takes the line. `Write` ends it at the failed write, after the session is closed;
/// how much went out is not known.
pub fn run<S: BlockStore, W: Write>(
    alloc: Global,
    store: S,
    dbd: &Dbd,
    psb: &Psb,
    kept: usize,
    steps: &[Step<'_>],
    out: &mut W,
) -> Result<RunEnd<S>, (S, RunFault)>
    requires size { S.size store ≡ dbd.now.block_size }
    requires matches { psb.now.made_for ≡ type_names dbd.now.types }
    requires steps { All (StepFits (length psb.now.pcbs)) steps.now }
    requires count { length steps.now ≤ 2 ^ 30 }
    ensures played { IfOk result (λ e. IsTrue (S.is_sound store) → IsRunWhole dbd.now psb.now.pcbs (S.contents store) steps.now (W.contents out.old) (W.contents out.new) e.memory (S.contents e.store)) }
    ensures calls { IfOk result (λ e. e.calls ≡ length (turns_of steps.now)) }
    ensures fault { IfErr result (λ e. IsTrue (S.is_sound store) → IsRunFaultOf dbd.now psb.now.pcbs (S.contents store) (turns_of steps.now) (S.contents e.0) e.1) }
    ensures early { IfErr result (λ e. IsBeforeCalls e.1 → out.new ≡ out.old) }
    ensures failures { IfOk result (λ e. S.failures e.store ≡ S.failures store) }
    ensures counts { IfErr result (λ e. CountsFor (fault_refusal e.1) (S.failures store) (S.failures e.0)) }
    ensures sound { IfOk result (λ e. S.is_sound e.store ≡ S.is_sound store) }
    ensures stays_sound { IfErr result (λ e. SoundFor (fault_refusal e.1) (S.is_sound store) (S.is_sound e.0)) }
    ensures committed { IfOk result (λ e. S.committed e.store ≡ S.committed store) }
    ensures given_committed { IfErr result (λ e. S.committed e.0 ≡ S.committed store) }
    ensures size { IfOk result (λ e. S.size e.store ≡ S.size store) }
    ensures given_size { IfErr result (λ e. S.size e.0 ≡ S.size store) }
{
    let (session, mut room, mut io) = open_run(alloc, store, dbd, psb, kept, steps)?;
    match play_and_close(session, steps, &mut room, &mut io, out) {
        Ok(end) => Ok(end),
        Err((store, stop)) => Err((store, fault_of(stop))),
    }
}

/// As `run`, with a commit behind every so many calls; behind the last of them there is one only where that is the number of them, so what is changed later
/// is in the store, and not committed.
///
/// A commit writes nothing on `out`. One that fails ends the run with `Device`: a crash then leaves what the last commit left, or what the calls before this
/// one did.
pub fn run_with_commits<S: CommitStore, W: Write>(
    alloc: Global,
    store: S,
    dbd: &Dbd,
    psb: &Psb,
    kept: usize,
    steps: &[Step<'_>],
    every: Option<u32>,
    out: &mut W,
) -> Result<RunEnd<S>, (S, RunFault)>
    requires size { S.size store ≡ dbd.now.block_size }
    requires matches { psb.now.made_for ≡ type_names dbd.now.types }
    requires steps { All (StepFits (length psb.now.pcbs)) steps.now }
    requires count { length steps.now ≤ 2 ^ 30 }
    ensures done { IfOk result (λ e. PlaysWithCommits S.is_sound S.contents S.committed dbd.now psb.now.pcbs every steps.now store e.store (W.contents out.old) (W.contents out.new) e.memory) }
    ensures calls { IfOk result (λ e. e.calls ≡ length (turns_of steps.now)) }
    ensures fault { IfErr result (λ e. PlaysUntilFault S.is_sound S.contents S.committed dbd.now psb.now.pcbs every steps.now store e.0 e.1) }
    ensures early { IfErr result (λ e. IsBeforeCalls e.1 → (out.new ≡ out.old) × (S.committed e.0 ≡ S.committed store)) }
    ensures failures { IfOk result (λ e. S.failures e.store ≡ S.failures store) }
    ensures counts { IfErr result (λ e. CountsFor (fault_refusal e.1) (S.failures store) (S.failures e.0)) }
    ensures sound { IfOk result (λ e. S.is_sound e.store ≡ S.is_sound store) }
    ensures stays_sound { IfErr result (λ e. SoundFor (fault_refusal e.1) (S.is_sound store) (S.is_sound e.0)) }
    ensures size { IfOk result (λ e. S.size e.store ≡ S.size store) }
    ensures given_size { IfErr result (λ e. S.size e.0 ≡ S.size store) }
{
    let (session, mut room, mut io) = open_run(alloc, store, dbd, psb, kept, steps)?;
    match commit_and_close(session, steps, every, &mut room, &mut io, out) {
        Ok(end) => Ok(end),
        Err((store, stop)) => Err((store, fault_of(stop))),
    }
}
