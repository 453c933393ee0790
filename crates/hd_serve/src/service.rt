ghost use Rattle.std.specs.Prelude.{◌≡◌, ◌≤◌, [], length, false, option_map, unwrap_or, IfOk, IfErr};
ghost use Rattle.std.specs.Io.KnownBytes.{prepend_known};
ghost use Rattle.hd_dbd.specs.Hierarchy.{longest_path};
ghost use Rattle.hd_dbd.specs.ProgramRules.{type_names};
ghost use Rattle.hd_stores.specs.Stores.{CountsFor, SoundFor};
ghost use Rattle.hd_serve.specs.Frames.{frame_bytes};
ghost use Rattle.hd_serve.specs.Answers.{done_bytes};
ghost use Rattle.hd_serve.specs.Hello.{hello_bytes};
ghost use Rattle.hd_deck.specs.Commits.{stored_in};
ghost use Rattle.hd_serve.specs.Serves.{limits_of, IsBeforeCalls, NoService, fault_of, fault_refusal, LeavesAt, IsServiceFor, unread, ServesOutFrom, ServesOver, ServesUntilFault};

use crate::answer::DONE;
use crate::call::Limits;
use crate::desk::{Desk, Ending, Stop, serve_all};
use crate::fault::{FrameFault, HelloFault};
use crate::foretold::{TOLD_HEAD, TOLD_ROOM};
use crate::hello::{hello_frame, limits_of};
use crate::input::FrameBuffer;
use hd_dbd::{Dbd, Psb, Refused};
use hd_session::{IoArea, OpenFault, Session};
use hd_stores::CommitStore;
use hd_volume::Volume;
use std::alloc::{AllocError, Global};
use std::io::{Read, Write};
use std::marker::Model;

/// Why serving ended before its session did.
#[derive(Clone, Copy, Debug, Drop, PartialEq, Eq)]
pub enum ServeFault {
    /// The session was not opened; no frame was written.
    Open(OpenFault),
    /// The database can't be told to the calling side: a type has more than 255 fields. No frame was written.
    Hello,
    /// No memory for the volume, the first frame or the I/O area; no frame was written.
    Memory,
    /// An access of the store failed.
    Device,
    /// A frame was not written. The requests that were taken are carried out.
    Write,
    /// A frame of the input is no right one. The requests before it are carried out and answered.
    Frame(FrameFault),
}

/// How a session ended: why, how many calls there were, how many of them found no memory, and the store.
#[derive(Drop)]
pub struct ServeEnd<S> {
    pub ending: Ending,
    pub calls: u64,
    pub memory: u64,
    pub store: S,
}

/// What serves a program from session to session: what it has read of the input and is no request yet, and the frame that comes first in the next
/// session. That is the one which tells the types and the PCBs, and behind a roll back the one which says that it is done.
#[derive(Drop)]
pub struct Service {
    hello: Option<Vec<u8>>,
    desk: Desk,
}

impl Model for Service {
    ghost use Rattle.std.specs.Prelude.{option_map, unwrap_or};
    ghost use Rattle.hd_serve.specs.Frames.{frame_bytes};
    ghost use Rattle.hd_serve.specs.Answers.{done_bytes};
    ghost use Rattle.hd_serve.specs.Services.{ServiceState};

    ghost Value = { ServiceState };

    ghost view = { λ s. record { unread = s.desk.buffer; first = unwrap_or (option_map (λ v. v.items) s.hello) (frame_bytes done_bytes); limits = s.desk.limits; room = s.desk.io.room } };
}

fn fault_of(stop: Stop) -> ServeFault
    ensures { result ≡ fault_of stop }
{
    match stop {
        Stop::Device => ServeFault::Device,
        Stop::Write => ServeFault::Write,
        Stop::Frame(fault) => ServeFault::Frame(fault),
    }
}

/// The bytes of an answer's frame beside its area: its length, 14 bytes, and a key of 255 bytes on each of 15 levels, and of one more.
const ANSWER: usize = 4_098;

/// The bytes of the longest frame of an answer, or of what is foretold.
fn line_room(limits: Limits) -> usize {
    limits
        .area
        .saturating_add(ANSWER)
        .max(TOLD_HEAD.len() + TOLD_ROOM)
}

/// What is kept from request to request, before the first.
fn new_desk(alloc: Global, dbd: &Dbd, psb: &Psb) -> Result<Desk, AllocError>
    ensures buffer { IfOk result (λ k. k.buffer ≡ []) }
    ensures limits { IfOk result (λ k. k.limits ≡ limits_of dbd.now psb.now.pcbs) }
    ensures room { IfOk result (λ k. k.io.room ≡ longest_path dbd.now.types) }
{
    let limits = limits_of(dbd, psb);
    Ok(Desk {
        buffer: FrameBuffer::new(alloc)?,
        limits,
        io: IoArea::new(alloc, dbd)?,
        line: Vec::with_capacity(alloc, line_room(limits))?,
    })
}

/// The first frame of a session.
fn first_frame(hello: &Option<Vec<u8>>) -> &[u8]
    ensures { result.now ≡ unwrap_or (option_map (λ v. v.items) hello.now) (frame_bytes done_bytes) }
{
    match hello {
        Some(frame) => frame,
        None => &DONE,
    }
}

/// Serves the requests of the input in a session, and closes it.
fn serve_and_close<S: CommitStore, I: Read, W: Write>(
    mut session: Session<'_, S>,
    desk: &mut Desk,
    first: &[u8],
    input: &mut I,
    out: &mut W,
) -> Result<ServeEnd<S>, (S, Stop)>
    requires pcbs { desk.old.limits.pcbs ≤ length session.pcbs }
    requires room { longest_path session.database.types ≤ desk.old.io.room }
    requires whole { session.broken ≡ false }
    ensures serves { IfOk result (λ e. ServesOutFrom S.contents S.committed I.remaining W.contents session.entry desk.old input.old first.now out.old e desk.new input.new out.new) }
    ensures leaves { IfErr result (λ e. LeavesAt desk.old.limits session.entry (unread desk.old (I.remaining input.old)) first.now (W.contents out.old) (W.contents out.new) e.1 (stored_in S.contents S.committed e.0)) }
    ensures failures { IfOk result (λ e. S.failures e.store ≡ session.entry.volume.failures) }
    ensures counts { IfErr result (λ e. CountsFor (fault_refusal (fault_of e.1)) session.entry.volume.failures (S.failures e.0)) }
    ensures sound { IfOk result (λ e. S.is_sound e.store ≡ session.entry.volume.is_sound) }
    ensures stays_sound { IfErr result (λ e. SoundFor (fault_refusal (fault_of e.1)) session.entry.volume.is_sound (S.is_sound e.0)) }
    ensures size { IfOk result (λ e. S.size e.store ≡ session.entry.volume.size) }
    ensures given_size { IfErr result (λ e. S.size e.0 ≡ session.entry.volume.size) }
    ensures same { (desk.new.limits ≡ desk.old.limits) × (desk.new.io.room ≡ desk.old.io.room) }
{
    let served = serve_all(&mut session, desk, first, input, out);
    let (store, closed) = session.close();
    if closed.is_err() {
        return Err((store, Stop::Device));
    }
    match served {
        Ok((ending, count)) => Ok(ServeEnd {
            ending,
            calls: count.calls,
            memory: count.memory,
            store,
        }),
        Err(stop) => Err((store, stop)),
    }
}

/// Opens a session over the volume of a store, which keeps so many of its blocks in memory, and serves the requests of the input in it.
fn serve_session<S: CommitStore, I: Read, W: Write>(
    alloc: Global,
    store: S,
    dbd: &Dbd,
    psb: &Psb,
    kept: usize,
    desk: &mut Desk,
    first: &[u8],
    input: &mut I,
    out: &mut W,
) -> Result<ServeEnd<S>, (S, ServeFault)>
    requires size { S.size store ≡ dbd.now.block_size }
    requires matches { psb.now.made_for ≡ type_names dbd.now.types }
    requires limits { desk.old.limits ≡ limits_of dbd.now psb.now.pcbs }
    requires room { desk.old.io.room ≡ longest_path dbd.now.types }
    ensures served { IfOk result (λ e. ServesOver S.is_sound S.contents S.committed I.remaining W.contents dbd.now psb.now.pcbs store desk.old.buffer input.old first.now out.old e desk.new.buffer input.new out.new) }
    ensures fault { IfErr result (λ e. ServesUntilFault S.is_sound S.contents S.committed I.remaining W.contents dbd.now psb.now.pcbs store desk.old.buffer input.old first.now out.old e.0 out.new e.1) }
    ensures early { IfErr result (λ e. IsBeforeCalls e.1 → (out.new ≡ out.old) × (input.new ≡ input.old) × (desk.new ≡ desk.old)) }
    ensures failures { IfOk result (λ e. S.failures e.store ≡ S.failures store) }
    ensures counts { IfErr result (λ e. CountsFor (fault_refusal e.1) (S.failures store) (S.failures e.0)) }
    ensures sound { IfOk result (λ e. S.is_sound e.store ≡ S.is_sound store) }
    ensures stays_sound { IfErr result (λ e. SoundFor (fault_refusal e.1) (S.is_sound store) (S.is_sound e.0)) }
    ensures size { IfOk result (λ e. S.size e.store ≡ S.size store) }
    ensures given_size { IfErr result (λ e. S.size e.0 ≡ S.size store) }
    ensures same { (desk.new.limits ≡ desk.old.limits) × (desk.new.io.room ≡ desk.old.io.room) }
{
    let volume = match Volume::load_keeping(alloc, store, dbd, kept) {
        Ok(volume) => volume,
        Err((store, Refused::Device)) => return Err((store, ServeFault::Device)),
        Err((store, _)) => return Err((store, ServeFault::Memory)),
    };
    let session = match Session::open(alloc, volume, dbd, psb) {
        Ok(session) => session,
        Err((volume, fault)) => return Err((volume.into_store(), ServeFault::Open(fault))),
    };
    match serve_and_close(session, desk, first, input, out) {
        Ok(end) => Ok(end),
        Err((store, stop)) => Err((store, fault_of(stop))),
    }
}

impl Service {
    /// A service of a database and a program, before its first session. It can't be `Hello` or `Memory` later on.
    pub fn new(alloc: Global, dbd: &Dbd, psb: &Psb) -> Result<Service, ServeFault>
        ensures first { IfOk result (λ s. s.first ≡ frame_bytes (hello_bytes dbd.now psb.now.pcbs)) }
        ensures unread { IfOk result (λ s. s.unread ≡ []) }
        ensures made_for { IfOk result (IsServiceFor dbd.now psb.now.pcbs) }
        ensures fault { IfErr result (NoService dbd.now psb.now.pcbs) }
    {
        let hello = match hello_frame(alloc, dbd, psb) {
            Ok(hello) => hello,
            Err(HelloFault::Large) => return Err(ServeFault::Hello),
            Err(HelloFault::Memory) => return Err(ServeFault::Memory),
        };
        match new_desk(alloc, dbd, psb) {
            Ok(desk) => Ok(Service {
                hello: Some(hello),
                desk,
            }),
            Err(_) => Err(ServeFault::Memory),
        }
    }

    /// Serves a program in a session over the volume of a store: writes the first frame; then reads requests as frames from the input, carries each out and
    /// writes the frame of its answer, in one piece, before it reads the next; and closes the session where the input ends between two frames, or a
    /// roll back is asked for. For a roll back the caller rolls the store back and serves on: this is answered by the first frame of the next session.
    ///
    /// A call that is refused for its area, for room or for memory is answered so, and serving goes on. `Open` and `Memory` come before the first
    /// frame, and nothing is written or read then; `Hello` never comes. `Device` ends serving at the failed access; where that was one of a call
    /// or of a commit, it is answered so, if the writer takes the frame. `Write` ends it at a frame that was not written, and `Frame` at one that is
    /// no right request, after the session is closed: what was answered before is in the store, and what was committed lasts.
    pub fn serve<S: CommitStore, I: Read, W: Write>(
        &mut self,
        alloc: Global,
        store: S,
        dbd: &Dbd,
        psb: &Psb,
        kept: usize,
        input: &mut I,
        out: &mut W,
    ) -> Result<ServeEnd<S>, (S, ServeFault)>
        requires size { S.size store ≡ dbd.now.block_size }
        requires matches { psb.now.made_for ≡ type_names dbd.now.types }
        requires made_for { IsServiceFor dbd.now psb.now.pcbs self.old }
        ensures served { IfOk result (λ e. ServesOver S.is_sound S.contents S.committed I.remaining W.contents dbd.now psb.now.pcbs store self.old.unread input.old self.old.first out.old e self.new.unread input.new out.new) }
        ensures fault { IfErr result (λ e. ServesUntilFault S.is_sound S.contents S.committed I.remaining W.contents dbd.now psb.now.pcbs store self.old.unread input.old self.old.first out.old e.0 out.new e.1) }
        ensures early { IfErr result (λ e. IsBeforeCalls e.1 → (out.new ≡ out.old) × (input.new ≡ input.old) × (self.new ≡ self.old)) }
        ensures next { IfOk result (λ e. e.ending ≡ Ending.RollBack → self.new.first ≡ frame_bytes done_bytes) }
        ensures made_for { IsServiceFor dbd.now psb.now.pcbs self.new }
        ensures failures { IfOk result (λ e. S.failures e.store ≡ S.failures store) }
        ensures counts { IfErr result (λ e. CountsFor (fault_refusal e.1) (S.failures store) (S.failures e.0)) }
        ensures sound { IfOk result (λ e. S.is_sound e.store ≡ S.is_sound store) }
        ensures stays_sound { IfErr result (λ e. SoundFor (fault_refusal e.1) (S.is_sound store) (S.is_sound e.0)) }
        ensures size { IfOk result (λ e. S.size e.store ≡ S.size store) }
        ensures given_size { IfErr result (λ e. S.size e.0 ≡ S.size store) }
    {
        let first = first_frame(&self.hello);
        match serve_session(
            alloc,
            store,
            dbd,
            psb,
            kept,
            &mut self.desk,
            first,
            input,
            out,
        ) {
            Ok(end) => {
                if end.ending == Ending::RollBack {
                    self.hello = None;
                }
                Ok(end)
            }
            Err(given) => Err(given),
        }
    }
}
