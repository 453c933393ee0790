//! What a call would answer, told ahead in one frame.
ghost use Rattle.std.specs.Prelude.{◌≡◌, ◌<◌, ◌≤◌, ◌+◌, ◌++◌, length, drop, nat_le, false, OnOk, IfOk, IfErr};
ghost use Rattle.std.specs.Io.KnownBytes.{Appends};
ghost use Rattle.hd_dbd.specs.Hierarchy.{longest_path};
ghost use Rattle.hd_session.specs.Requests.{foretell};
ghost use Rattle.hd_session.specs.Turns.{StaysWhole};
ghost use Rattle.hd_session.specs.Replies.{reply_of};
ghost use Rattle.hd_serve.specs.Frames.{frame_bytes};
ghost use Rattle.hd_serve.specs.Answers.{answer_bytes, TOLD_ROOM};
ghost use Rattle.hd_serve.specs.Serves.{IsServed, HaltsAt, IsHalted, GathersTold};

use crate::answer::{push_answer, put_refusal, segment_text};
use crate::answered_calls::{Count, Halt};
use crate::call::FramedCall;
use crate::fault::WriteFault;
use crate::output::put_frame;
use hd_bytes::write_bytes;
use hd_dbd::Refused;
use hd_session::{Answer, Call, IoArea, Session};
use hd_stores::BlockStore;
use std::io::Write;

/// The most bytes that the frames of answers take together in the frame of what is foretold.
pub(crate) const TOLD_ROOM: usize = 32_768;

/// What such a frame begins with: room for its length, and the kind of its body.
pub(crate) const TOLD_HEAD: [u8; 5] = [0, 0, 0, 0, 7];

/// The bytes of the frame of an answer beside its segment's name, key and area.
const FIXED: usize = 10;

/// Whether the frame of an answer has room behind those that stand in a line: one with a key and an area of so many bytes, and so many more.
fn has_room(line: &[u8], more: usize, key: usize, area: usize) -> bool
    ensures { result ≡ nat_le (length line.now + (more + (key + area))) (5 + TOLD_ROOM) }
{
    let end = TOLD_HEAD.len() + TOLD_ROOM;
    let room = end.saturating_sub(line.len());
    line.len() <= end && more <= room && key <= room - more && area <= room - more - key
}

/// Adds the frame of an answer to a line.
fn add_answer(line: &mut Vec<u8>, answer: &Answer, io: &IoArea) -> Result<(), WriteFault>
    ensures { OnOk result (line.new.items ≡ line.old.items ++ frame_bytes (answer_bytes (reply_of answer.now io.now))) }
{
    push_answer(
        line,
        answer.status,
        answer.level,
        &answer.segment,
        io.key(),
        io.area(),
    )
}

/// Adds to the head of a line the frames of what a call would answer now, and then again and again, so often at most: up to the first answer without a
/// segment, or to one that has no room.
fn gather<S: BlockStore>(
    session: &mut Session<'_, S>,
    pcb: u8,
    call: &Call,
    count: u8,
    io: &mut IoArea,
    line: &mut Vec<u8>,
) -> Result<(), Halt>
    requires pcb { (0 < pcb) × (pcb ≤ length session.old.pcbs) }
    requires room { longest_path session.old.database.types ≤ io.old.room }
    requires whole { session.old.broken ≡ false }
    requires head { length line.old.items ≡ 5 }
    ensures gathers { OnOk result (GathersTold session.old (record { pcb = pcb; call = call.now }) count line.old.items line.new.items session.new) }
    ensures halts { IfErr result (λ e. HaltsAt session.old (foretell (record { pcb = pcb; call = call.now }) count) e session.new) }
    ensures whole { OnOk result (StaysWhole session.old session.new) }
    ensures stops { IfErr result (λ e. IsHalted session.old e session.new) }
    ensures same_room { io.new.room ≡ io.old.room }
{
    if !session.can_foretell(pcb, call) {
        return Ok(());
    }
    let mut outlook = session.outlook(pcb);
    'answers: for _ in 0..count {
        let Ok(answer) = session.foretell(pcb, call, &mut outlook, io) else {
            return Err(Halt::Device);
        };
        let more = FIXED + segment_text(&answer.segment).len();
        if !has_room(line, more, io.key().len(), io.area().len()) {
            return Ok(());
        }
        if add_answer(line, &answer, io).is_err() {
            return Err(Halt::Write);
        }
        if answer.segment.is_none() {
            return Ok(());
        }
    }
    Ok(())
}

/// Writes the frame of a line, with its length in the first four bytes in place of what stood there, and sends it out.
fn put_told<W: Write>(out: &mut W, line: &mut Vec<u8>) -> Result<(), WriteFault>
    requires { 4 ≤ length line.old.items }
    ensures { OnOk result (Appends (W.contents out.old) (W.contents out.new) (frame_bytes (drop 4 line.old.items))) }
{
    let Ok(size) = u32::try_from(line.len() - 4) else {
        return Err(WriteFault);
    };
    write_bytes(line, 0, &size.to_be_bytes());
    put_frame(out, line)
}

/// What a call in a frame would answer, and then again and again, so often at most, in one frame. Where an access failed it is `Device`, whether or not the frame
/// that says so was written.
pub(crate) fn answer_foretold<S: BlockStore, W: Write>(
    session: &mut Session<'_, S>,
    framed: FramedCall,
    count: u8,
    io: &mut IoArea,
    line: &mut Vec<u8>,
    out: &mut W,
) -> Result<Count, Halt>
    requires pcb { (0 < framed.pcb) × (framed.pcb ≤ length session.old.pcbs) }
    requires room { longest_path session.old.database.types ≤ io.old.room }
    requires whole { session.old.broken ≡ false }
    ensures served { IfOk result (λ n. IsServed session.old (foretell framed count) (W.contents out.old) (W.contents out.new) n.calls n.memory session.new) }
    ensures whole { OnOk result (StaysWhole session.old session.new) }
    ensures halts { IfErr result (λ e. HaltsAt session.old (foretell framed count) e session.new) }
    ensures stops { IfErr result (λ e. IsHalted session.old e session.new) }
    ensures same_room { io.new.room ≡ io.old.room }
{
    let FramedCall {
        pcb,
        func,
        ssas,
        area,
    } = framed;
    let call = Call { func, ssas, area };
    line.clear();
    if line.extend_from_slice(&TOLD_HEAD).is_err() {
        return Err(Halt::Write);
    }
    match gather(session, pcb, &call, count, io, line) {
        Ok(()) => match put_told(out, line) {
            Ok(()) => Ok(Count {
                calls: 0,
                memory: 0,
            }),
            Err(_) => Err(Halt::Write),
        },
        Err(halt) => {
            if halt == Halt::Device {
                let _ = put_refusal(out, Refused::Device);
            }
            Err(halt)
        }
    }
}
