ghost use Rattle.std.specs.Prelude.{◌≡◌, ◌<◌, ◌≤◌, [], length, false, OnOk, IfOk, IfErr};
ghost use Rattle.hd_dbd.specs.Hierarchy.{longest_path};
ghost use Rattle.hd_session.specs.Turns.{StaysWhole};
ghost use Rattle.hd_serve.specs.Serves.{StopsNext, StopsAt, ServesUntil, ComesTo, IsDeskServed, next_of, unread};

use crate::answered_calls::{Count, Halt, answer_framed};
use crate::call::Limits;
use crate::commits::answer_commit;
use crate::fault::FrameFault;
use crate::foretold::answer_foretold;
use crate::input::FrameBuffer;
use crate::made_calls::make_framed;
use crate::output::put_frame;
use crate::request::FramedRequest;
use hd_session::{IoArea, Session};
use hd_stores::CommitStore;
use std::io::{Read, Write};

/// How many requests a session has at most: each is 255 calls at most, and all calls are counted.
const REQUESTS: u64 = u64::MAX / 255;

/// Why the requests of a session end before it does: an access of the store failed, a frame was not written, or a frame is no right one.
#[derive(Clone, Copy, Debug, Drop, PartialEq, Eq)]
pub(crate) enum Stop {
    Device,
    Write,
    Frame(FrameFault),
}

/// Why a session that served all its requests ended.
#[derive(Clone, Copy, Debug, Drop, PartialEq, Eq)]
pub enum Ending {
    /// The input ended between two frames.
    Input,
    /// A roll back was asked for. It is done once the store is rolled back, and answered by the first frame of the next session.
    RollBack,
}

/// What the next frame came to: a request was served, which was so many calls; or the session ends.
#[derive(Clone, Copy, Debug)]
pub(crate) enum Next {
    Served(Count),
    Ends(Ending),
}

/// What is kept from request to request: what was read of the input and is no request yet, what its frames keep to, and room for answers.
#[derive(Drop)]
pub(crate) struct Desk {
    pub(crate) buffer: FrameBuffer,
    pub(crate) limits: Limits,
    pub(crate) io: IoArea,
    pub(crate) line: Vec<u8>,
}

/// A request that was served, or why all end at it.
fn next_of(served: Result<Count, Halt>) -> Result<Next, Stop>
    ensures { result ≡ next_of served }
{
    match served {
        Ok(count) => Ok(Next::Served(count)),
        Err(Halt::Device) => Err(Stop::Device),
        Err(Halt::Write) => Err(Stop::Write),
    }
}

/// Takes the next request from the input, carries it out and answers it. A roll back is only taken: it ends the session.
fn serve_next<S: CommitStore, I: Read, W: Write>(
    session: &mut Session<'_, S>,
    desk: &mut Desk,
    input: &mut I,
    out: &mut W,
) -> Result<Next, Stop>
    requires pcbs { desk.old.limits.pcbs ≤ length session.old.pcbs }
    requires room { longest_path session.old.database.types ≤ desk.old.io.room }
    requires whole { session.old.broken ≡ false }
    ensures next { IfOk result (λ n. ComesTo desk.old.limits session.old (unread desk.old (I.remaining input.old)) (unread desk.new (I.remaining input.new)) (W.contents out.old) (W.contents out.new) n session.new) }
    ensures stop { IfErr result (λ e. StopsNext desk.old.limits session.old (unread desk.old (I.remaining input.old)) (W.contents out.old) (W.contents out.new) e session.new) }
    ensures whole { OnOk result (StaysWhole session.old session.new) }
    ensures stops { IfErr result (λ e. StopsAt session.old e session.new) }
    ensures same { (desk.new.limits ≡ desk.old.limits) × (desk.new.io.room ≡ desk.old.io.room) }
{
    let request = match desk.buffer.next_request(input, desk.limits) {
        Ok(Some(request)) => request,
        Ok(None) => return Ok(Next::Ends(Ending::Input)),
        Err(fault) => return Err(Stop::Frame(fault)),
    };
    match request {
        FramedRequest::Call(call) => next_of(answer_framed(
            session,
            call,
            &mut desk.io,
            &mut desk.line,
            out,
        )),
        FramedRequest::Make(call, count) => {
            next_of(make_framed(session, call, count, &mut desk.io, out))
        }
        FramedRequest::Foretell(call, count) => next_of(answer_foretold(
            session,
            call,
            count,
            &mut desk.io,
            &mut desk.line,
            out,
        )),
        FramedRequest::Commit => next_of(answer_commit(session, out)),
        FramedRequest::RollBack => Ok(Next::Ends(Ending::RollBack)),
    }
}

/// The requests of the input one after another, each answered before the next is read, until the session ends; why it does, and the calls among them.
fn serve_requests<S: CommitStore, I: Read, W: Write>(
    session: &mut Session<'_, S>,
    desk: &mut Desk,
    input: &mut I,
    out: &mut W,
) -> Result<(Ending, Count), Stop>
    requires pcbs { desk.old.limits.pcbs ≤ length session.old.pcbs }
    requires room { longest_path session.old.database.types ≤ desk.old.io.room }
    requires whole { session.old.broken ≡ false }
    ensures serves { IfOk result (λ n. IsDeskServed desk.old session.old (I.remaining input.old) desk.new (I.remaining input.new) [] (W.contents out.old) (W.contents out.new) n session.new) }
    ensures until { IfErr result (λ e. ServesUntil desk.old.limits session.old (unread desk.old (I.remaining input.old)) [] (W.contents out.old) (W.contents out.new) e session.new) }
    ensures whole { OnOk result (StaysWhole session.old session.new) }
    ensures stops { IfErr result (λ e. StopsAt session.old e session.new) }
    ensures same { (desk.new.limits ≡ desk.old.limits) × (desk.new.io.room ≡ desk.old.io.room) }
{
    let mut calls = 0u64;
    let mut memory = 0u64;
    'requests: for _ in 0..REQUESTS {
        match serve_next(session, desk, input, out)? {
            Next::Served(count) => {
                calls += count.calls;
                memory += count.memory;
            }
            Next::Ends(ending) => return Ok((ending, Count { calls, memory })),
        }
    }
    Err(Stop::Frame(FrameFault::Read))
}

/// Writes the first frame, and then serves the requests of the input.
pub(crate) fn serve_all<S: CommitStore, I: Read, W: Write>(
    session: &mut Session<'_, S>,
    desk: &mut Desk,
    first: &[u8],
    input: &mut I,
    out: &mut W,
) -> Result<(Ending, Count), Stop>
    requires pcbs { desk.old.limits.pcbs ≤ length session.old.pcbs }
    requires room { longest_path session.old.database.types ≤ desk.old.io.room }
    requires whole { session.old.broken ≡ false }
    ensures serves { IfOk result (λ n. IsDeskServed desk.old session.old (I.remaining input.old) desk.new (I.remaining input.new) first.now (W.contents out.old) (W.contents out.new) n session.new) }
    ensures until { IfErr result (λ e. ServesUntil desk.old.limits session.old (unread desk.old (I.remaining input.old)) first.now (W.contents out.old) (W.contents out.new) e session.new) }
    ensures whole { OnOk result (StaysWhole session.old session.new) }
    ensures stops { IfErr result (λ e. StopsAt session.old e session.new) }
    ensures same { (desk.new.limits ≡ desk.old.limits) × (desk.new.io.room ≡ desk.old.io.room) }
{
    match put_frame(out, first) {
        Ok(()) => serve_requests(session, desk, input, out),
        Err(_) => Err(Stop::Write),
    }
}
