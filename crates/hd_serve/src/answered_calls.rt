ghost use Rattle.std.specs.Prelude.{◌≡◌, ◌<◌, ◌≤◌, ◌∷◌, [], length, false, OnOk, IfOk, IfErr};
ghost use Rattle.std.specs.Io.KnownBytes.{Appends};
ghost use Rattle.hd_dbd.specs.Hierarchy.{longest_path};
ghost use Rattle.hd_session.specs.Turns.{StaysWhole};
ghost use Rattle.hd_deck.specs.Runs.{memory_of};
ghost use Rattle.hd_serve.specs.Frames.{frame_bytes};
ghost use Rattle.hd_session.specs.Requests.{ask};
ghost use Rattle.hd_serve.specs.Serves.{answered_bytes, ServesAll, IsServed, HaltsAt, IsHalted};

use crate::answer::{put_answer, put_refusal};
use crate::call::FramedCall;
use crate::fault::WriteFault;
use hd_dbd::Refused;
use hd_session::{Answer, Call, IoArea, Session};
use hd_stores::BlockStore;
use std::io::Write;

/// How many calls were made, and how many of them found no memory.
#[derive(Clone, Copy, Debug)]
pub(crate) struct Count {
    pub(crate) calls: u64,
    pub(crate) memory: u64,
}

/// Why the requests end at one of them: an access of the store failed, or its answer was not written.
#[derive(Clone, Copy, Debug, Drop, PartialEq, Eq)]
pub(crate) enum Halt {
    Device,
    Write,
}

/// How many calls, 0 or 1, found no memory by what a call answered; `None` where an access failed.
pub(crate) fn memory_of(answered: &Result<Answer, Refused>) -> Option<u64>
    ensures { result ≡ memory_of answered.now }
{
    match answered {
        Err(Refused::Device | Refused::Broken) => None,
        Err(Refused::Memory) => Some(1),
        _ => Some(0),
    }
}

/// Writes the frame of what a call answered.
fn put_outcome<W: Write>(
    out: &mut W,
    line: &mut Vec<u8>,
    answered: &Result<Answer, Refused>,
    io: &IoArea,
) -> Result<(), WriteFault>
    ensures { OnOk result (Appends (W.contents out.old) (W.contents out.new) (frame_bytes (answered_bytes answered.now io.now))) }
{
    match answered {
        Ok(answer) => put_answer(
            out,
            line,
            answer.status,
            answer.level,
            &answer.segment,
            io.key(),
            io.area(),
        ),
        Err(refused) => put_refusal(out, *refused),
    }
}

/// One call, and the frame of its answer, that of a failed access too; how many calls, 0 or 1, found no memory. Where an access failed it is
/// `Device`, whether or not the frame was written.
fn answer_call<S: BlockStore, W: Write>(
    session: &mut Session<'_, S>,
    pcb: u8,
    call: &Call,
    io: &mut IoArea,
    line: &mut Vec<u8>,
    out: &mut W,
) -> Result<u64, Halt>
    requires pcb { (0 < pcb) × (pcb ≤ length session.old.pcbs) }
    requires room { longest_path session.old.database.types ≤ io.old.room }
    requires whole { session.old.broken ≡ false }
    ensures serves { IfOk result (λ lacking. ServesAll session.old (ask (record { pcb = pcb; call = call.now }) ∷ []) [] (W.contents out.old) (W.contents out.new) lacking session.new) }
    ensures few { IfOk result (λ lacking. lacking ≤ 1) }
    ensures whole { OnOk result (StaysWhole session.old session.new) }
    ensures halts { IfErr result (λ e. HaltsAt session.old (ask (record { pcb = pcb; call = call.now })) e session.new) }
    ensures stops { IfErr result (λ e. IsHalted session.old e session.new) }
    ensures same_room { io.new.room ≡ io.old.room }
{
    let answered = session.call(pcb, call, io);
    let written = put_outcome(out, line, &answered, io);
    let Some(lacking) = memory_of(&answered) else {
        return Err(Halt::Device);
    };
    match written {
        Ok(()) => Ok(lacking),
        Err(_) => Err(Halt::Write),
    }
}

/// The call of a frame, as `answer_call` makes it.
pub(crate) fn answer_framed<S: BlockStore, W: Write>(
    session: &mut Session<'_, S>,
    framed: FramedCall,
    io: &mut IoArea,
    line: &mut Vec<u8>,
    out: &mut W,
) -> Result<Count, Halt>
    requires pcb { (0 < framed.pcb) × (framed.pcb ≤ length session.old.pcbs) }
    requires room { longest_path session.old.database.types ≤ io.old.room }
    requires whole { session.old.broken ≡ false }
    ensures served { IfOk result (λ n. IsServed session.old (ask framed) (W.contents out.old) (W.contents out.new) n.calls n.memory session.new) }
    ensures whole { OnOk result (StaysWhole session.old session.new) }
    ensures halts { IfErr result (λ e. HaltsAt session.old (ask framed) e session.new) }
    ensures stops { IfErr result (λ e. IsHalted session.old e session.new) }
    ensures same_room { io.new.room ≡ io.old.room }
{
    let FramedCall {
        pcb,
        func,
        ssas,
        area,
    } = framed;
    let call = Call { func, ssas, area };
    match answer_call(session, pcb, &call, io, line, out) {
        Ok(lacking) => Ok(Count {
            calls: 1,
            memory: lacking,
        }),
        Err(halt) => Err(halt),
    }
}
