ghost use Rattle.std.specs.Prelude.{◌≡◌, ◌<◌, ◌^◌, ◌+◌, ◌≤◌, List, ◌++◌, length, drop, true, Some, None, IfErr, IfOk, IfNone, IfSome};
ghost use Rattle.hd_dbd.specs.Hierarchy.{type_of};
ghost use Rattle.hd_dbd.specs.Segment.{Segment};
ghost use Rattle.hd_dbd.specs.Lengths.{length_fits};
ghost use Rattle.hd_unload.specs.Streams.{head_bytes, head_fault, end_bytes, end_fault, length_said, row_bytes, spelling_fault, record_fault, IsRecordRead, HasLoadFault};

use crate::fault::RecordFault;
use hd_dbd::{Dbd, SegType, least_length, length_fits, type_of};

/// A record of a stream: its row's code, the row's bytes, and what follows the record.
#[derive(Clone, Copy)]
pub struct Record<'a> {
    pub code: u8,
    pub bytes: &'a [u8],
    pub rest: &'a [u8],
}

/// The header of a database's streams: the mark, version 1 and the database's name.
pub fn head_of(dbd: &Dbd) -> [u8; 18]
    ensures { result ≡ head_bytes dbd.now }
{
    let [a, b, c, d, e, f, g, h] = *dbd.name().bytes();
    [
        b'H', b'D', b'U', b'N', b'L', b'O', b'A', b'D', 0, 1, a, b, c, d, e, f, g, h,
    ]
}

/// What follows the header of a stream.
pub fn behind_head<'a>(stream: &'a [u8], dbd: &Dbd) -> Result<&'a [u8], RecordFault>
    ensures ok { IfOk result (λ rest. stream.now ≡ head_bytes dbd.now ++ rest.now) }
    ensures err { IfErr result (λ e. head_fault dbd.now stream.now ≡ Some e) }
{
    if stream.len() < 18 {
        return Err(RecordFault::U2);
    }
    if &stream[..18] == &head_of(dbd)[..] {
        Ok(&stream[18..])
    } else {
        Err(RecordFault::U1)
    }
}

/// What is wrong with the end of a stream of so many records, by the bytes behind its code.
fn end_fault(rest: &[u8], count: u64) -> Option<RecordFault>
    ensures { result ≡ end_fault count rest.now }
{
    if rest.len() < 4 {
        return Some(RecordFault::U2);
    }
    let number = u32::from_be_bytes([rest[0], rest[1], rest[2], rest[3]]);
    if rest.len() == 4 && u64::from(number) == count {
        None
    } else {
        Some(RecordFault::U4)
    }
}

/// The next record of a stream behind so many; none at its end. Of a record's row nothing is said but that it has a
/// length that its type allows.
pub fn next_record<'a>(
    left: &'a [u8],
    count: u64,
    types: &[SegType],
) -> Result<Option<Record<'a>>, RecordFault>
    ensures err { IfErr result (λ e. (rows : List Segment) → length rows ≡ count → record_fault types.now rows left.now ≡ Some e) }
    ensures end { IfOk result (λ o. IfNone o ((left.now ≡ end_bytes count) × (count < 2 ^ 32))) }
    ensures some { IfOk result (λ o. IfSome o (λ r. IsRecordRead types.now left.now (record { code = r.code; bytes = r.bytes.now }) r.rest.now)) }
    ensures fault { IfOk result (λ o. IfSome o (λ r. HasLoadFault types.now left.now (record { code = r.code; bytes = r.bytes.now }))) }
{
    let Some((code, rest)) = left.split_first() else {
        return Err(RecordFault::U2);
    };
    if *code == 0 {
        return match end_fault(rest, count) {
            None => Ok(None),
            Some(fault) => Err(fault),
        };
    }
    let Some(segment) = type_of(types, *code) else {
        return Err(RecordFault::U3);
    };
    let record = read_record(*code, rest, segment)?;
    Ok(Some(record))
}

/// The record of a code and its type, by the bytes behind its code.
fn read_record<'a>(code: u8, rest: &'a [u8], segment: &SegType) -> Result<Record<'a>, RecordFault>
    ensures err { IfErr result (λ e. spelling_fault segment.now rest.now ≡ Some e) }
    ensures ok { IfOk result (λ r. (spelling_fault segment.now rest.now ≡ None) × (r.code ≡ code) × (r.bytes.now ≡ row_bytes rest.now) × (r.rest.now ≡ drop (2 + length_said rest.now) rest.now)) }
    ensures long { IfOk result (λ r. 2 + length_said rest.now ≤ length rest.now) }
    ensures fits { IfOk result (λ r. length_fits segment.now r.bytes.now ≡ true) }
{
    if rest.len() < 2 {
        return Err(RecordFault::U2);
    }
    let said = u16::from_be_bytes([rest[0], rest[1]]);
    if u32::from(said) < least_length(segment) || u32::from(said) > segment.length {
        return Err(RecordFault::U4);
    }
    let own = said as usize;
    if rest.len() - 2 < own {
        return Err(RecordFault::U2);
    }
    let bytes = &rest[2..2 + own];
    if !length_fits(segment, bytes) {
        return Err(RecordFault::U4);
    }
    Ok(Record {
        code,
        bytes,
        rest: &rest[2 + own..],
    })
}
