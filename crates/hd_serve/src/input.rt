ghost use Rattle.std.specs.Prelude.{◌≡◌, ◌⊎◌, ◌<◌, ◌≤◌, [], Some, length, take, drop, unwrap_or, IfOk, IfErr, IfSome, IfNone, OnOk};
ghost use Rattle.std.specs.Int.{w32, from_be_bytes, to_be_bytes};
ghost use Rattle.std.specs.Io.KnownBytes.{Consumes, IsAtEnd, Keeps, prepend_known};
ghost use Rattle.hd_serve.specs.Frames.{is_long, IsRequestRead, IsWrong};

use crate::call::Limits;
use crate::fault::FrameFault;
use crate::request::{FramedRequest, read_request};
use std::alloc::{AllocError, Global};
use std::io::{ErrorKind, Read};
use std::marker::Model;

/// The bytes that one read of the system may bring.
const PIECE: usize = 65_536;

/// How many reads of the system may go to one frame, those that were interrupted among them.
const READS: u32 = 16_777_216;

/// The bytes of the longest right frame's body but its area: kind, how often, and of its call kind, PCB, function and count, and 15 arguments of 65,535 bytes.
const FIXED: usize = 983_064;

/// What was read from an input and has not been taken as frames yet.
#[derive(Drop)]
pub struct FrameBuffer {
    bytes: Vec<u8>,
    piece: Vec<u8>,
    alloc: Global,
}

impl Model for FrameBuffer {
    ghost use Rattle.std.specs.Prelude.{ℕ, List, ◌<◌, length};

    ghost Value = { List ℕ };

    ghost view = { λ b. b.bytes.items };

    ghost invariant = { λ b. 0 < length b.piece.items };
}

/// One read, of as many bytes as there are; `None` where it was interrupted.
fn read_piece<I: Read>(input: &mut I, piece: &mut [u8]) -> Result<Option<usize>, FrameFault>
    ensures bound { IfOk result (λ o. IfSome o (λ n. n ≤ length piece.new)) }
    ensures bytes { IfOk result (λ o. Consumes (I.remaining input.old) (I.remaining input.new) (take (unwrap_or o 0) piece.new)) }
    ensures end { IfOk result (λ o. o ≡ Some 0 → 0 < length piece.old → IsAtEnd (I.remaining input.new)) }
    ensures fault { IfErr result (λ e. e ≡ FrameFault.Read) }
    ensures len { length piece.new ≡ length piece.old }
{
    match input.read(piece) {
        Ok(count) => Ok(Some(count)),
        Err(error) if error.kind() == ErrorKind::Interrupted => Ok(None),
        Err(_) => Err(FrameFault::Read),
    }
}

/// Reads until there are so many bytes, or the input ends. Each read brings what there is, and none is made once there are enough.
fn fill<I: Read>(
    input: &mut I,
    piece: &mut [u8],
    bytes: &mut Vec<u8>,
    size: usize,
) -> Result<(), FrameFault>
    requires room { 0 < length piece.old }
    ensures kept { OnOk result (Keeps (prepend_known bytes.old.items (I.remaining input.old)) (prepend_known bytes.new.items (I.remaining input.new))) }
    ensures end { OnOk result (length bytes.new.items < size → IsAtEnd (I.remaining input.new)) }
    ensures fault { IfErr result (λ e. (e ≡ FrameFault.Read) ⊎ (e ≡ FrameFault.Memory)) }
    ensures len { length piece.new ≡ length piece.old }
{
    'reads: for _ in 0..READS {
        if bytes.len() >= size {
            return Ok(());
        }
        let Some(count) = read_piece(input, piece)? else {
            continue;
        };
        if count == 0 {
            return Ok(());
        }
        bytes.extend_from_slice(&piece[..count])?;
    }
    Err(FrameFault::Read)
}

/// The number in the first four bytes, if there are so many.
fn size_in(bytes: &[u8]) -> Option<u32>
    ensures some { IfSome result (λ n. (4 ≤ length bytes.now) × (n ≡ from_be_bytes w32 bytes.now)) }
    ensures spelled { IfSome result (λ n. take 4 bytes.now ≡ to_be_bytes w32 n) }
    ensures none { IfNone result (length bytes.now < 4) }
{
    if bytes.len() < 4 {
        return None;
    }
    Some(u32::from_be_bytes([bytes[0], bytes[1], bytes[2], bytes[3]]))
}

/// Whether a body of so many bytes is longer than any right one.
fn is_long(size: u32, limits: Limits) -> bool
    ensures { result ≡ is_long limits size }
{
    (size as usize).saturating_sub(FIXED) > limits.area
}

/// Takes bytes away from the front.
fn drop_front(bytes: &mut Vec<u8>, count: usize)
    requires { count ≤ length bytes.old.items }
    ensures { bytes.new.items ≡ drop count bytes.old.items }
{
    let left = bytes.len() - count;
    bytes.rotate_left(count);
    bytes.truncate(left);
}

impl FrameBuffer {
    /// Nothing read yet.
    pub fn new(alloc: Global) -> Result<FrameBuffer, AllocError>
        ensures { IfOk result (λ b. b ≡ []) }
    {
        Ok(FrameBuffer {
            bytes: Vec::new(alloc),
            piece: vec![in alloc; 0; PIECE]?,
            alloc,
        })
    }

    /// The request of the next frame, or `None` where the input ends before one. No more is read than what there is once the frame is whole, so
    /// a request can be answered before the next one comes. After a fault nothing more is read as a frame.
    pub fn next_request<I: Read>(
        &mut self,
        input: &mut I,
        limits: Limits,
    ) -> Result<Option<FramedRequest>, FrameFault>
        ensures request { IfOk result (λ o. IfSome o (λ r. IsRequestRead limits (prepend_known self.old (I.remaining input.old)) r (prepend_known self.new (I.remaining input.new)))) }
        ensures end { IfOk result (λ o. IfNone o (IsAtEnd (prepend_known self.old (I.remaining input.old)))) }
        ensures wrong { IfErr result (λ e. IsWrong limits (prepend_known self.old (I.remaining input.old)) e) }
    {
        fill(input, &mut self.piece, &mut self.bytes, 4)?;
        if self.bytes.is_empty() {
            return Ok(None);
        }
        let Some(size) = size_in(&self.bytes) else {
            return Err(FrameFault::Cut);
        };
        if is_long(size, limits) {
            return Err(FrameFault::Long(size));
        }
        let end = 4 + size as usize;
        fill(input, &mut self.piece, &mut self.bytes, end)?;
        if self.bytes.len() < end {
            return Err(FrameFault::Cut);
        }
        let request = read_request(self.alloc, &self.bytes[4..end], limits)?;
        drop_front(&mut self.bytes, end);
        Ok(Some(request))
    }
}
