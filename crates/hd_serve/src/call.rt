ghost use Rattle.std.specs.Prelude.{◌≡◌, ◌≢◌, ◌+◌, ◌<◌, length, map, option_map, IfOk, IfErr, IfSome, IfNone, Ok, Err};
ghost use Rattle.std.specs.Int.{w16, from_be_bytes};
ghost use Rattle.hd_serve.specs.Frames.{IsSsaSplit, ssas_in, call_in};

use crate::fault::FrameFault;
use std::alloc::{AllocError, Global};
use std::marker::Model;

/// What a right frame keeps to: PCBs are numbered from 1 to `pcbs`, and an I/O area has at most `area` bytes.
#[derive(Clone, Copy)]
pub struct Limits {
    pub pcbs: u8,
    pub area: usize,
}

/// A call as a frame has it: the number of its PCB, and what the program hands over: the function in four bytes, the segment search
/// arguments, and the bytes of the I/O area.
#[derive(Drop)]
pub struct FramedCall {
    pub pcb: u8,
    pub func: [u8; 4],
    pub ssas: Vec<Vec<u8>>,
    pub area: Vec<u8>,
}

impl Model for FramedCall {
    ghost use Rattle.std.specs.Prelude.{map};
    ghost use Rattle.hd_session.specs.Turns.{Turn};

    ghost Value = { Turn };

    ghost view = { λ c. record { pcb = c.pcb; call = record { function = c.func; ssas = map (λ s. s.items) c.ssas.items; area = c.area.items } } };
}

/// The argument in front of some bytes, and what is behind it; `None` where the bytes end before.
fn split_ssa(bytes: &[u8]) -> Option<(&[u8], &[u8])>
    ensures some { IfSome result (λ r. IsSsaSplit bytes.now r.0.now r.1.now) }
    ensures none { IfNone result (length bytes.now < 2 + from_be_bytes w16 bytes.now) }
{
    if bytes.len() < 2 {
        return None;
    }
    let size = u16::from_be_bytes([bytes[0], bytes[1]]) as usize;
    if bytes.len() < 2 + size {
        return None;
    }
    Some((&bytes[2..2 + size], &bytes[2 + size..]))
}

/// The arguments in front of some bytes, so many, and what is behind them; `None` where the bytes end before.
fn read_ssas(
    alloc: Global,
    bytes: &[u8],
    count: u8,
) -> Result<Option<(Vec<Vec<u8>>, &[u8])>, AllocError>
    ensures { IfOk result (λ o. option_map (λ r. (map (λ s. s.items) r.0.items, r.1.now)) o ≡ ssas_in count bytes.now) }
{
    let mut ssas = Vec::new(alloc);
    let mut rest = bytes;
    'ssas: for _ in 0..count {
        let Some((ssa, after)) = split_ssa(rest) else {
            return Ok(None);
        };
        ssas.push(Vec::from_slice(alloc, ssa)?)?;
        rest = after;
    }
    Ok(Some((ssas, rest)))
}

/// The call of the body of a frame, or what is wrong with it: the first fault, from the front.
pub(crate) fn read_call(
    alloc: Global,
    body: &[u8],
    limits: Limits,
) -> Result<FramedCall, FrameFault>
    ensures ok { IfOk result (λ c. call_in limits body.now ≡ Ok c) }
    ensures err { IfErr result (λ e. e ≢ FrameFault.Memory → call_in limits body.now ≡ Err e) }
{
    if body.len() < 7 {
        return Err(FrameFault::Short);
    }
    if body[0] != 1 {
        return Err(FrameFault::Kind(body[0]));
    }
    if body[1] == 0 || body[1] > limits.pcbs {
        return Err(FrameFault::Pcb(body[1]));
    }
    if body[6] > 15 {
        return Err(FrameFault::Ssas(body[6]));
    }
    let func = [body[2], body[3], body[4], body[5]];
    let Some((ssas, area)) = read_ssas(alloc, &body[7..], body[6])? else {
        return Err(FrameFault::Short);
    };
    if area.len() > limits.area {
        return Err(FrameFault::Area(area.len()));
    }
    Ok(FramedCall {
        pcb: body[1],
        func,
        ssas,
        area: Vec::from_slice(alloc, area)?,
    })
}
