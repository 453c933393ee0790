ghost use Rattle.std.specs.Prelude.{◌≡◌, ◌<◌, ◌^◌, ◌++◌, unwrap_or, replicate, length, OnOk};
ghost use Rattle.std.specs.Io.KnownBytes.{Appends};
ghost use Rattle.hd_serve.specs.Frames.{frame_bytes};
ghost use Rattle.hd_dbd.specs.Statuses.{status_text};
ghost use Rattle.hd_serve.specs.Answers.{refused_number, answer_bytes, refusal_bytes, done_bytes};

use crate::fault::WriteFault;
use crate::output::put_frame;
use hd_dbd::{Name8, Refused, Status, status_text};
use std::alloc::AllocError;
use std::io::Write;

impl From<AllocError> for WriteFault {
    fn from(_refused: AllocError) -> WriteFault {
        WriteFault
    }
}

/// The number of a refusal, which an answer has in place of 0.
fn refused_number(refused: Refused) -> u8
    ensures { result ≡ refused_number refused }
{
    match refused {
        Refused::Full => 1,
        Refused::Area => 2,
        Refused::Memory => 3,
        Refused::Device => 4,
        Refused::Broken => 5,
    }
}

/// A segment's name, and blanks where there is none.
pub(crate) fn segment_text(segment: &Option<Name8>) -> &[u8]
    ensures text { result.now ≡ unwrap_or segment.now (replicate 8 32) }
    ensures len { length result.now ≡ 8 }
{
    match segment {
        Some(name) => name.bytes(),
        None => b"        ",
    }
}

/// Adds the frame of an answer to what stands in the line.
pub(crate) fn push_answer(
    line: &mut Vec<u8>,
    status: Status,
    level: u8,
    segment: &Option<Name8>,
    key: &[u8],
    area: &[u8],
) -> Result<(), WriteFault>
    ensures { OnOk result (line.new.items ≡ line.old.items ++ frame_bytes (answer_bytes (record { status = status; level = level; segment = segment.now; key = key.now; area = area.now }))) }
{
    let (Ok(key_length), Ok(area_length)) = (u16::try_from(key.len()), u32::try_from(area.len()))
    else {
        return Err(WriteFault);
    };
    let Some(size) = area_length.checked_add(14 + u32::from(key_length)) else {
        return Err(WriteFault);
    };
    line.extend_from_slice(&size.to_be_bytes())?;
    line.extend_from_slice(&[0])?;
    line.extend_from_slice(status_text(status))?;
    line.extend_from_slice(&[level])?;
    line.extend_from_slice(segment_text(segment))?;
    line.extend_from_slice(&key_length.to_be_bytes())?;
    line.extend_from_slice(key)?;
    line.extend_from_slice(area)?;
    Ok(())
}

/// Writes the answer of a call in a frame, in one piece, and sends it out: status, level and name of the segment given, its concatenated key,
/// and the bytes given. The line is room for it, whatever stands there.
pub fn put_answer<W: Write>(
    out: &mut W,
    line: &mut Vec<u8>,
    status: Status,
    level: u8,
    segment: &Option<Name8>,
    key: &[u8],
    area: &[u8],
) -> Result<(), WriteFault>
    ensures { OnOk result (Appends (W.contents out.old) (W.contents out.new)
        (frame_bytes (answer_bytes (record { status = status; level = level; segment = segment.now; key = key.now; area = area.now })))) }
{
    line.clear();
    push_answer(line, status, level, segment, key, area)?;
    put_frame(out, line)
}

/// The frame of a refusal.
fn refusal_frame(refused: Refused) -> [u8; 18]
    ensures { result ≡ frame_bytes (refusal_bytes refused) }
{
    [
        0,
        0,
        0,
        14,
        refused_number(refused),
        b' ',
        b' ',
        0,
        b' ',
        b' ',
        b' ',
        b' ',
        b' ',
        b' ',
        b' ',
        b' ',
        0,
        0,
    ]
}

/// Writes in a frame, in one piece, that a call is refused, and sends it out.
pub fn put_refusal<W: Write>(out: &mut W, refused: Refused) -> Result<(), WriteFault>
    ensures { OnOk result (Appends (W.contents out.old) (W.contents out.new) (frame_bytes (refusal_bytes refused))) }
{
    put_frame(out, &refusal_frame(refused))
}

/// The frame that says that a commit or a roll back is done.
pub(crate) const DONE: [u8; 5] = [0, 0, 0, 1, 6];

/// Writes in a frame, in one piece, that a commit is done, and sends it out.
pub fn put_done<W: Write>(out: &mut W) -> Result<(), WriteFault>
    ensures { OnOk result (Appends (W.contents out.old) (W.contents out.new) (frame_bytes done_bytes)) }
{
    put_frame(out, &DONE)
}
