ghost use Rattle.std.specs.Prelude.{◌≡◌, ◌≢◌, drop, slice_index, IfOk, IfErr, Ok, Err};
ghost use Rattle.hd_serve.specs.Frames.{RequestFits, request_bytes, alone, call_in, request_of_call, request_in};

use crate::call::{FramedCall, Limits, read_call};
use crate::fault::FrameFault;
use std::alloc::Global;

/// What a frame asks for: a call; a call that is made so often and not answered; what a call would answer, so often at most; that what the calls so far
/// have changed is to last; or that what is not to last is taken back.
#[derive(Drop)]
pub enum FramedRequest {
    Call(FramedCall),
    Make(FramedCall, u8),
    Foretell(FramedCall, u8),
    Commit,
    RollBack,
}

/// The first byte of a body, 0 where it has none.
fn kind_of(body: &[u8]) -> u8
    ensures { result ≡ slice_index body.now 0 }
{
    if body.is_empty() {
        return 0;
    }
    body[0]
}

/// The request of a kind that is all of the body.
fn alone(request: FramedRequest, kind: u8, body: &[u8]) -> Result<FramedRequest, FrameFault>
    ensures { result ≡ alone request kind body.now }
{
    if body.len() == 1 {
        return Ok(request);
    }
    Err(FrameFault::Extra(kind))
}

/// The request of the body of a frame, or what is wrong with it: the first fault, from the front.
pub fn read_request(alloc: Global, body: &[u8], limits: Limits) -> Result<FramedRequest, FrameFault>
    ensures ok { IfOk result (λ r. request_in limits body.now ≡ Ok r) }
    ensures right { IfOk result (λ r. (body.now ≡ request_bytes r) × RequestFits limits r) }
    ensures err { IfErr result (λ e. e ≢ FrameFault.Memory → request_in limits body.now ≡ Err e) }
{
    let request = read_kind(alloc, body, limits)?;
    Ok(request)
}

/// The request of a call that is all of the body.
fn read_alone(alloc: Global, body: &[u8], limits: Limits) -> Result<FramedRequest, FrameFault>
    ensures ok { IfOk result (λ r. request_of_call (call_in limits body.now) ≡ Ok r) }
    ensures err { IfErr result (λ e. e ≢ FrameFault.Memory → request_of_call (call_in limits body.now) ≡ Err e) }
{
    let call = read_call(alloc, body, limits)?;
    Ok(FramedRequest::Call(call))
}

/// The call behind a kind and how often, and how often.
fn read_counted(alloc: Global, body: &[u8], limits: Limits) -> Result<(FramedCall, u8), FrameFault>
    ensures ok { IfOk result (λ r. (call_in limits (drop 2 body.now) ≡ Ok r.0) × (r.1 ≡ slice_index body.now 1)) }
    ensures err { IfErr result (λ e. e ≢ FrameFault.Memory → call_in limits (drop 2 body.now) ≡ Err e) }
{
    if body.len() < 2 {
        return Err(FrameFault::Short);
    }
    let call = read_call(alloc, &body[2..], limits)?;
    Ok((call, body[1]))
}

/// The request of the body of a frame by its kind, or the first fault in it.
fn read_kind(alloc: Global, body: &[u8], limits: Limits) -> Result<FramedRequest, FrameFault>
    ensures ok { IfOk result (λ r. request_in limits body.now ≡ Ok r) }
    ensures err { IfErr result (λ e. e ≢ FrameFault.Memory → request_in limits body.now ≡ Err e) }
{
    match kind_of(body) {
        2 => alone(FramedRequest::Commit, 2, body),
        3 => alone(FramedRequest::RollBack, 3, body),
        4 => {
            let (call, count) = read_counted(alloc, body, limits)?;
            Ok(FramedRequest::Make(call, count))
        }
        5 => {
            let (call, count) = read_counted(alloc, body, limits)?;
            Ok(FramedRequest::Foretell(call, count))
        }
        _ => read_alone(alloc, body, limits),
    }
}
