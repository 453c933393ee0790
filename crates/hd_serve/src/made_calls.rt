//! Calls that are made and not answered: what they answer was foretold.
ghost use Rattle.std.specs.Prelude.{◌≡◌, ◌<◌, ◌≤◌, length, false, OnOk, OnErr, IfOk, IfErr};
ghost use Rattle.hd_dbd.specs.Hierarchy.{longest_path};
ghost use Rattle.hd_session.specs.Requests.{make};
ghost use Rattle.hd_session.specs.Turns.{StaysWhole};
ghost use Rattle.hd_deck.specs.Runs.{Breaks};
ghost use Rattle.hd_serve.specs.Serves.{IsMadeOnce, MakesAll, IsServed, HaltsAt, IsHalted};

use crate::answer::put_refusal;
use crate::answered_calls::{Count, Halt, memory_of};
use crate::call::FramedCall;
use hd_dbd::Refused;
use hd_session::{Call, IoArea, Session};
use hd_stores::BlockStore;
use std::io::Write;

/// One call; how many calls, 0 or 1, found no memory.
fn make_call<S: BlockStore>(
    session: &mut Session<'_, S>,
    pcb: u8,
    call: &Call,
    io: &mut IoArea,
) -> Result<u64, Halt>
    requires pcb { (0 < pcb) × (pcb ≤ length session.old.pcbs) }
    requires room { longest_path session.old.database.types ≤ io.old.room }
    requires whole { session.old.broken ≡ false }
    ensures makes { IfOk result (λ lacking. IsMadeOnce session.old (record { pcb = pcb; call = call.now }) lacking session.new) }
    ensures few { IfOk result (λ lacking. lacking ≤ 1) }
    ensures whole { OnOk result (StaysWhole session.old session.new) }
    ensures halt { IfErr result (λ e. e ≡ Halt.Device) }
    ensures breaks { OnErr result (Breaks session.old session.new) }
    ensures committed { session.new.volume.committed ≡ session.old.volume.committed }
    ensures same_room { io.new.room ≡ io.old.room }
{
    let answered = session.call(pcb, call, io);
    match memory_of(&answered) {
        Some(lacking) => Ok(lacking),
        None => Err(Halt::Device),
    }
}

/// One call, made so often; how many of the calls found no memory.
fn make_calls<S: BlockStore>(
    session: &mut Session<'_, S>,
    pcb: u8,
    call: &Call,
    count: u8,
    io: &mut IoArea,
) -> Result<u64, Halt>
    requires pcb { (0 < pcb) × (pcb ≤ length session.old.pcbs) }
    requires room { longest_path session.old.database.types ≤ io.old.room }
    requires whole { session.old.broken ≡ false }
    ensures makes { IfOk result (λ lacking. MakesAll session.old (record { pcb = pcb; call = call.now }) count lacking session.new) }
    ensures few { IfOk result (λ lacking. lacking ≤ count) }
    ensures whole { OnOk result (StaysWhole session.old session.new) }
    ensures halts { IfErr result (λ e. HaltsAt session.old (make (record { pcb = pcb; call = call.now }) count) e session.new) }
    ensures stops { IfErr result (λ e. IsHalted session.old e session.new) }
    ensures same_room { io.new.room ≡ io.old.room }
{
    let mut memory = 0u64;
    for made in 0..count {
        let more = make_call(session, pcb, call, io)?;
        memory += more;
    }
    Ok(memory)
}

/// The call of a frame, made so often. Nothing is written unless an access fails, of which a refusal tells in place of the next answer.
pub(crate) fn make_framed<S: BlockStore, W: Write>(
    session: &mut Session<'_, S>,
    framed: FramedCall,
    count: u8,
    io: &mut IoArea,
    out: &mut W,
) -> Result<Count, Halt>
    requires pcb { (0 < framed.pcb) × (framed.pcb ≤ length session.old.pcbs) }
    requires room { longest_path session.old.database.types ≤ io.old.room }
    requires whole { session.old.broken ≡ false }
    ensures served { IfOk result (λ n. IsServed session.old (make framed count) (W.contents out.old) (W.contents out.new) n.calls n.memory session.new) }
    ensures whole { OnOk result (StaysWhole session.old session.new) }
    ensures halts { IfErr result (λ e. HaltsAt session.old (make framed count) e session.new) }
    ensures stops { IfErr result (λ e. IsHalted session.old e session.new) }
    ensures same_room { io.new.room ≡ io.old.room }
{
    let FramedCall {
        pcb,
        func,
        ssas,
        area,
    } = framed;
    let call = Call { func, ssas, area };
    match make_calls(session, pcb, &call, count, io) {
        Ok(memory) => Ok(Count {
            calls: u64::from(count),
            memory,
        }),
        Err(halt) => {
            let _ = put_refusal(out, Refused::Device);
            Err(halt)
        }
    }
}
