//! The calls of a deck, made by the first PCB in a session.

ghost use Rattle.std.specs.Prelude.{◌≡◌, ◌<◌, ◌≤◌, length};
ghost use Rattle.hd_dbd.specs.Hierarchy.{longest_path};
ghost use Rattle.hd_dbd.specs.ProgramRules.{type_names};

use crate::acts::End;
use crate::streams::Page;
use hd_commands::status_of_calls;
use hd_dbd::{Dbd, Psb, Refused};
use hd_deck::{CallRoom, Step, print_answer, print_refusal};
use hd_session::{Call, IoArea, OpenFault, Session};
use hd_stores::BlockStore;
use hd_volume::Volume;
use std::alloc::Global;

/// Makes a call, and prints its line where it is answered, or where an access fails in it. `None` where that is not taken, or a refusal leaves
/// something in the I/O area.
fn make<S: BlockStore>(
    session: &mut Session<'_, S>,
    call: &Call,
    number: u64,
    io: &mut IoArea,
    out: &mut Page<'_>,
) -> Option<Result<(), Refused>>
    requires one { 0 < length session.old.pcbs }
    requires room { longest_path session.old.database.types ≤ io.old.room }
    ensures same { (session.new.pcbs ≡ session.old.pcbs) × (session.new.database ≡ session.old.database) }
    ensures room { io.new.room ≡ io.old.room }
{
    let func = &call.func;
    match session.call(1, call, io) {
        Ok(answer) => {
            print_answer(out, number, 1, func, &answer, io).ok()?;
            Some(Ok(()))
        }
        Err(refused) => {
            if !io.key().is_empty() || !io.area().is_empty() {
                return None;
            }
            if refused == Refused::Device {
                print_refusal(out, number, 1, func, refused).ok()?;
            }
            Some(Err(refused))
        }
    }
}

/// Makes the calls of steps, each once. A call that finds no memory is made again, or else is the last; behind one in which an access failed each
/// answers `Broken`.
fn make_all<S: BlockStore>(
    session: &mut Session<'_, S>,
    steps: &[Step<'_>],
    again: bool,
    room: &mut CallRoom,
    io: &mut IoArea,
    out: &mut Page<'_>,
) -> Option<End>
    requires one { 0 < length session.old.pcbs }
    requires room { longest_path session.old.database.types ≤ io.old.room }
{
    let mut memory = 0u64;
    let mut is_broken = false;
    let mut number = 0u64;
    for step in steps {
        number = number.saturating_add(1);
        room.make(step).ok()?;
        let mut answered = make(session, room.call(), number, io, out)?;
        if answered == Err(Refused::Memory) {
            memory = memory.saturating_add(1);
            if !again {
                return Some(End::Status(status_of_calls(memory), true));
            }
            answered = make(session, room.call(), number, io, out)?;
        }
        let wanted = if is_broken {
            Err(Refused::Broken)
        } else if answered == Err(Refused::Device) {
            answered
        } else {
            Ok(())
        };
        if answered != wanted || memory > 1 {
            return Some(End::Other);
        }
        is_broken = answered.is_err();
    }
    Some(if is_broken {
        End::Device
    } else {
        End::Status(status_of_calls(memory), true)
    })
}

/// How a session ended whose calls ended so, and its close: `Broken` where an access had failed in a call.
fn close_of(end: End, closed: Result<(), Refused>) -> End {
    match (end, closed) {
        (End::Device, Err(Refused::Broken)) => end,
        (End::Device, _) => End::Other,
        (_, Ok(())) => end,
        (_, Err(Refused::Device)) => End::Device,
        (_, Err(_)) => End::Other,
    }
}

/// Opens a session, makes calls in it, and closes it.
pub fn call_in_session<S: BlockStore + Drop>(
    alloc: Global,
    dbd: &Dbd,
    psb: &Psb,
    steps: &[Step<'_>],
    again: bool,
    kept: usize,
    store: S,
    out: &mut Page<'_>,
) -> Option<(S, End)>
    requires size { S.size store ≡ dbd.now.block_size }
    requires matches { psb.now.made_for ≡ type_names dbd.now.types }
{
    let mut io = IoArea::new(alloc, dbd).ok()?;
    let mut room = CallRoom::new(alloc, steps).ok()?;
    let _count = psb.pcbs().len();
    let volume = match Volume::load_keeping(alloc, store, dbd, kept) {
        Ok(volume) => volume,
        Err((store, Refused::Device)) => return Some((store, End::Device)),
        Err(_) => return None,
    };
    let mut session = match Session::open(alloc, volume, dbd, psb) {
        Ok(session) => session,
        Err((volume, OpenFault::Device)) => return Some((volume.into_store(), End::Device)),
        Err(_) => return None,
    };
    let end = make_all(&mut session, steps, again, &mut room, &mut io, out)?;
    let (store, closed) = session.close();
    Some((store, close_of(end, closed)))
}
