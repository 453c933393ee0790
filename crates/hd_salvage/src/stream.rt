//! The stream that is written, record by record.
ghost use Rattle.std.specs.Prelude.{◌≡◌, ◌≢◌, ◌+◌, ◌*◌, ◌/◌, ◌<◌, ◌≤◌, ℕ, length, slice_index_or, true, false, IsTrue, IfOk, IfErr, OnOk};
ghost use Rattle.std.specs.Io.KnownBytes.{Appends};
ghost use Rattle.hd_unload.specs.Streams.{head_bytes, record_bytes, end_bytes};
ghost use Rattle.hd_volume.specs.Calls.{IsRead};
ghost use Rattle.hd_volume.specs.Volumes.{block_at};
ghost use Rattle.hd_salvage.specs.Records.{IsNoted};
ghost use Rattle.hd_salvage.specs.Streams.{WritesRow, KeepsOneMore, row_in, as_call};

use crate::fault::SalvageFault;
use crate::path::RowPath;
use crate::record::Record;
use hd_dbd::Dbd;
use hd_prefix::Layout;
use hd_stores::BlockStore;
use hd_volume::Volume;
use std::alloc::Global;
use std::io::Write;

/// Writes all of the bytes.
fn put<W: Write>(out: &mut W, bytes: &[u8]) -> Result<(), SalvageFault>
    ensures bytes { OnOk result (Appends (W.contents out.old) (W.contents out.new) bytes.now) }
    ensures refusal { IfErr result (λ e. e ≡ SalvageFault.Write) }
{
    match out.write_all(bytes) {
        Ok(()) => Ok(()),
        Err(_) => Err(SalvageFault::Write),
    }
}

/// The head of a database's streams: the mark, version 1 and the database's name.
fn head_of(dbd: &Dbd) -> [u8; 18]
    ensures { result ≡ head_bytes dbd.now }
{
    let [a, b, c, d, e, f, g, h] = *dbd.name().bytes();
    [
        b'H', b'D', b'U', b'N', b'L', b'O', b'A', b'D', 0, 1, a, b, c, d, e, f, g, h,
    ]
}

/// Writes the head of a stream.
pub fn put_head<W: Write>(out: &mut W, dbd: &Dbd) -> Result<(), SalvageFault>
    ensures head { OnOk result (Appends (W.contents out.old) (W.contents out.new) (head_bytes dbd.now)) }
    ensures refusal { IfErr result (λ e. e ≡ SalvageFault.Write) }
{
    put(out, &head_of(dbd))
}

/// Writes the record of a row: its code, its length and its bytes.
pub fn put_row<W: Write>(out: &mut W, code: u8, bytes: &[u8]) -> Result<(), SalvageFault>
    requires { length bytes.now < 65536 }
    ensures record { OnOk result (Appends (W.contents out.old) (W.contents out.new) (record_bytes (record { code = code; bytes = bytes.now }))) }
    ensures refusal { IfErr result (λ e. e ≡ SalvageFault.Write) }
{
    let [high, low] = (bytes.len() as u16).to_be_bytes();
    put(out, &[code, high, low])?;
    put(out, bytes)
}

/// Writes the end of a stream of so many records.
pub fn put_end<W: Write>(out: &mut W, count: u32) -> Result<(), SalvageFault>
    ensures end { OnOk result (Appends (W.contents out.old) (W.contents out.new) (end_bytes count)) }
    ensures refusal { IfErr result (λ e. e ≡ SalvageFault.Write) }
{
    let [a, b, c, d] = count.to_be_bytes();
    put(out, &[0, a, b, c, d])
}

/// Writes the record of a row, where it may come behind the last one, whose path becomes its own; says whether it may.
fn keep_row<W: Write>(
    alloc: Global,
    dbd: &Dbd,
    path: &mut RowPath,
    code: u8,
    bytes: &[u8],
    out: &mut W,
) -> Result<bool, SalvageFault>
    ensures kept { IfOk result (λ k. k ≡ true → WritesRow dbd.now path.old (record { code = code; bytes = bytes.now }) (W.contents out.old) (W.contents out.new) path.new) }
    ensures left { IfOk result (λ k. k ≡ false → (path.new ≡ path.old) × (out.new ≡ out.old)) }
    ensures refusal { IfErr result (λ e. e ≢ SalvageFault.Device) }
{
    let _ = dbd.types();
    if bytes.len() > 65535 || !dbd.row_fits(code, bytes) {
        return Ok(false);
    }
    if path.fault_of(dbd, code, bytes).is_some() {
        return Ok(false);
    }
    put_row(out, code, bytes)?;
    match path.step(alloc, dbd, code, bytes) {
        Ok(()) => Ok(true),
        Err(_) => Err(SalvageFault::Memory),
    }
}

/// The same of the row of a segment that was noted in a block.
fn keep_in<W: Write>(
    alloc: Global,
    dbd: &Dbd,
    path: &mut RowPath,
    block: &[u8],
    noted: Record,
    out: &mut W,
) -> Result<bool, SalvageFault>
    ensures kept { IfOk result (λ k. k ≡ true → WritesRow dbd.now path.old (row_in dbd.now block.now noted) (W.contents out.old) (W.contents out.new) path.new) }
    ensures left { IfOk result (λ k. k ≡ false → (path.new ≡ path.old) × (out.new ≡ out.old)) }
    ensures refusal { IfErr result (λ e. e ≢ SalvageFault.Device) }
{
    let start = noted.place as usize;
    let end = start + noted.size as usize;
    let Some(segment) = block.get(start..end) else {
        return Ok(false);
    };
    let code = segment.first().copied().unwrap_or(0);
    match Layout::of(dbd, code).own_bytes(segment) {
        Some(bytes) => keep_row(alloc, dbd, path, code, bytes, out),
        None => Ok(false),
    }
}

/// The same of the row of a segment that was noted in a volume.
fn keep_there<S: BlockStore, W: Write>(
    alloc: Global,
    volume: &mut Volume<S>,
    dbd: &Dbd,
    path: &mut RowPath,
    noted: Record,
    out: &mut W,
) -> Result<bool, SalvageFault>
    requires noted { IsTrue volume.old.is_sound → IsNoted volume.old noted }
    ensures read { IsRead volume.old (as_call result) volume.new }
    ensures kept { IfOk result (λ k. k ≡ true → IsTrue volume.old.is_sound → WritesRow dbd.now path.old (row_in dbd.now (block_at volume.old noted.block) noted) (W.contents out.old) (W.contents out.new) path.new) }
    ensures left { IfOk result (λ k. k ≡ false → (path.new ≡ path.old) × (out.new ≡ out.old)) }
{
    match volume.block(noted.block) {
        Ok(block) => keep_in(alloc, dbd, path, block, noted, out),
        Err(_) => Err(SalvageFault::Device),
    }
}

/// Whether no row was taken from there, by its number among eights of bytes.
fn is_free(marks: &[bool], at: usize) -> bool
    ensures { result ≡ true → (at < length marks.now) × (slice_index_or marks.now at false ≡ false) }
{
    at < marks.len() && !marks[at]
}

/// Where a segment that was noted stands, among eights of bytes of a volume of blocks of a size.
fn eighth_of(noted: Record, size: usize) -> usize
    requires { size ≤ 32768 }
    ensures { result ≡ (noted.block * size + noted.place) / 8 }
{
    (noted.block as usize * size + noted.place as usize) / 8
}

/// Writes the record of the row of a segment that was noted in a volume, where none was taken from there, and it may come behind the last one. Its path
/// becomes that of the row, and what was taken is marked. Says whether it was.
pub fn keep<S: BlockStore, W: Write>(
    alloc: Global,
    volume: &mut Volume<S>,
    dbd: &Dbd,
    path: &mut RowPath,
    marks: &mut Vec<bool>,
    noted: Record,
    out: &mut W,
) -> Result<bool, SalvageFault>
    requires noted { IsTrue volume.old.is_sound → IsNoted volume.old noted }
    ensures read { IsRead volume.old (as_call result) volume.new }
    ensures kept { IfOk result (λ k. k ≡ true → IsTrue volume.old.is_sound → KeepsOneMore dbd.now volume.old (W.contents out.old) path.old marks.old.items (W.contents out.new) path.new marks.new.items) }
    ensures left { IfOk result (λ k. k ≡ false → (path.new ≡ path.old) × (marks.new.items ≡ marks.old.items) × (out.new ≡ out.old)) }
{
    let at = eighth_of(noted, volume.block_size());
    if !is_free(marks, at) {
        return Ok(false);
    }
    let is_kept = keep_there(alloc, volume, dbd, path, noted, out)?;
    if is_kept {
        marks[at] = true;
    }
    Ok(is_kept)
}
