ghost use Rattle.std.specs.Prelude.{◌≡◌, ◌<◌, ◌≤◌, ◌^◌, Some, IfOk, IfSome, length, take, unwrap_or, vec_len};
ghost use Rattle.std.specs.Io.KnownBytes.{Consumes, IsAtEnd};

use std::alloc::{AllocError, Global};
use std::io::{self, ErrorKind, Read};

/// The most bytes that a text may have.
const MOST_BYTES: usize = 1_073_741_824;

/// The most reads that a text may take.
const MOST_READS: u32 = 16_777_216;

/// The bytes that one read asks for.
const PIECE: usize = 65_536;

/// Room for so many bytes.
fn room(alloc: Global, size: usize) -> Result<Vec<u8>, AllocError>
    ensures { IfOk result (λ v. vec_len v ≡ size) }
{
    vec![in alloc; 0; size]
}

/// One read, of as many bytes as there are; `None` where it was interrupted, and nothing was read.
fn read_piece<I: Read>(input: &mut I, piece: &mut [u8]) -> io::Result<Option<usize>>
    ensures bound { IfOk result (λ o. IfSome o (λ n. n ≤ length piece.new)) }
    ensures bytes { IfOk result (λ o. Consumes (I.remaining input.old) (I.remaining input.new) (take (unwrap_or o 0) piece.new)) }
    ensures end { IfOk result (λ o. o ≡ Some 0 → 0 < length piece.old → IsAtEnd (I.remaining input.new)) }
{
    match input.read(piece) {
        Ok(count) => Ok(Some(count)),
        Err(error) if error.kind() == ErrorKind::Interrupted => Ok(None),
        Err(error) => Err(error),
    }
}

/// All bytes that a reader has left. More bytes, or more reads, than a text may take are an error, as a failed read is.
pub fn read_whole<I: Read>(alloc: Global, input: &mut I) -> io::Result<Vec<u8>>
    ensures whole { IfOk result (λ text. IfSome (I.remaining input.old) (λ bytes. text.items ≡ bytes)) }
    ensures bound { IfOk result (λ text. vec_len text ≤ 2 ^ 30) }
{
    let mut text = Vec::new(alloc);
    let mut piece = room(alloc, PIECE)?;
    for _ in 0..MOST_READS {
        let Some(count) = read_piece(input, &mut piece)? else {
            continue;
        };
        if count == 0 {
            return Ok(text);
        }
        if count > MOST_BYTES - text.len() {
            return Err(io::Error::from(ErrorKind::FileTooLarge));
        }
        text.extend_from_slice(&piece[..count])?;
    }
    Err(io::Error::from(ErrorKind::FileTooLarge))
}
