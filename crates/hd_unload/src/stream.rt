ghost use Rattle.std.specs.Prelude.{◌≡◌, ◌<◌, List, length, IsTrue, IfOk, IfErr, OnOk};
ghost use Rattle.std.specs.Io.KnownBytes.{Appends};
ghost use Rattle.hd_dbd.specs.Forest.{Forest};
ghost use Rattle.hd_dbd.specs.Segment.{Segment};
ghost use Rattle.hd_volume.specs.Calls.{IsRead};
ghost use Rattle.hd_links.specs.Links.{IsSegment, segment_at};
ghost use Rattle.hd_links.specs.Placed.{Placed};
ghost use Rattle.hd_links.specs.Steps.{rows_of};
ghost use Rattle.hd_image.specs.Records.{links_of, IsVolumeOf};
ghost use Rattle.hd_image.specs.Holding.{HoldsPlaced, HoldsRows};
ghost use Rattle.hd_forest.specs.Walks.{AreSegments, HasForest, IsAhead, tip, next_on};
ghost use Rattle.hd_unload.specs.Streams.{record_bytes, end_bytes, stored_row, IsWhole, WritesRecord, WritesRecords};
ghost use Rattle.hd_unload.specs.Unloads.{IsUnloaded, stream_call};

use crate::fault::StreamFault;
use crate::record::head_of;
use hd_dbd::Dbd;
use hd_forest::{Ahead, Path, ahead_of, go_on, next_row, tip_of};
use hd_prefix::Layout;
use hd_stores::BlockStore;
use hd_volume::Volume;
use std::io::Write;

/// Writes all of the bytes.
fn put<W: Write>(out: &mut W, bytes: &[u8]) -> Result<(), StreamFault>
    ensures bytes { OnOk result (Appends (W.contents out.old) (W.contents out.new) bytes.now) }
    ensures refusal { IfErr result (λ e. e ≡ StreamFault.Write) }
{
    match out.write_all(bytes) {
        Ok(()) => Ok(()),
        Err(_) => Err(StreamFault::Write),
    }
}

/// Writes the record of a row: its code, its length and its bytes.
fn put_row<W: Write>(out: &mut W, code: u8, bytes: &[u8]) -> Result<(), StreamFault>
    requires { length bytes.now < 65536 }
    ensures record { OnOk result (Appends (W.contents out.old) (W.contents out.new) (record_bytes (record { code = code; bytes = bytes.now }))) }
    ensures refusal { IfErr result (λ e. e ≡ StreamFault.Write) }
{
    let [high, low] = (bytes.len() as u16).to_be_bytes();
    put(out, &[code, high, low])?;
    put(out, bytes)
}

/// Writes the end of a stream of so many records.
fn put_end<W: Write>(out: &mut W, count: u32) -> Result<(), StreamFault>
    ensures end { OnOk result (Appends (W.contents out.old) (W.contents out.new) (end_bytes count)) }
    ensures refusal { IfErr result (λ e. e ≡ StreamFault.Write) }
{
    let [a, b, c, d] = count.to_be_bytes();
    put(out, &[0, a, b, c, d])
}

/// Writes the record of a stored segment, which has its prefix and all of its own bytes.
fn put_record<W: Write>(dbd: &Dbd, segment: &[u8], out: &mut W) -> Result<(), StreamFault>
    ensures record { OnOk result (IsWhole dbd.now.types segment.now → Appends (W.contents out.old) (W.contents out.new) (record_bytes (stored_row dbd.now.types segment.now))) }
    ensures refusal { IfErr result (λ e. e ≡ StreamFault.Write) }
{
    let _ = dbd.types();
    let code = segment.first().copied().unwrap_or(0);
    match Layout::of(dbd, code).own_bytes(segment) {
        Some(bytes) => put_row(out, code, bytes),
        None => Ok(()),
    }
}

/// Writes the record of the segment at an address, and answers what it names ahead of it. One segment is read.
fn write_record<S: BlockStore, W: Write>(
    volume: &mut Volume<S>,
    dbd: &Dbd,
    address: u32,
    out: &mut W,
) -> Result<Ahead, StreamFault>
    requires of { IsTrue volume.old.is_sound → IsVolumeOf dbd.now volume.old }
    requires there { IsTrue volume.old.is_sound → IsSegment (links_of dbd.now.types volume.old) address }
    ensures read { IsRead volume.old (stream_call result) volume.new }
    ensures record { OnOk result (IsTrue volume.old.is_sound → Appends (W.contents out.old) (W.contents out.new) (record_bytes (segment_at (links_of dbd.now.types volume.old) address))) }
    ensures ahead { IfOk result (λ r. IsTrue volume.old.is_sound → IsAhead dbd.now.types (links_of dbd.now.types volume.old) address r) }
{
    match volume.segment_at(address) {
        Ok(segment) => {
            put_record(dbd, segment, out)?;
            Ok(ahead_of(dbd, segment))
        }
        Err(_) => Err(StreamFault::Device),
    }
}

/// Writes the record of the last row of a path, and goes on to the row behind it.
fn write_and_go_on<S: BlockStore, W: Write>(
    volume: &mut Volume<S>,
    dbd: &Dbd,
    path: &mut Path,
    out: &mut W,
) -> Result<(), StreamFault>
    requires of { IsTrue volume.old.is_sound → IsVolumeOf dbd.now volume.old }
    requires holds { IsTrue volume.old.is_sound → HasForest dbd.now volume.old }
    requires there { IsTrue volume.old.is_sound → AreSegments (links_of dbd.now.types volume.old) path.old }
    requires some { 0 < tip path.old }
    ensures read { IsRead volume.old (stream_call result) volume.new }
    ensures record { OnOk result (IsTrue volume.old.is_sound → WritesRecord (links_of dbd.now.types volume.old) (tip path.old) (W.contents out.old) (W.contents out.new)) }
    ensures next { OnOk result (IsTrue volume.old.is_sound → path.new ≡ next_on dbd.now.types (links_of dbd.now.types volume.old) path.old) }
{
    let ahead = write_record(volume, dbd, tip_of(path), out)?;
    match go_on(volume, dbd, path, ahead) {
        Ok(()) => Ok(()),
        Err(_) => Err(StreamFault::Device),
    }
}

/// Writes the records of a volume's rows in hierarchic sequence, and says how many they are.
fn write_records<S: BlockStore, W: Write>(
    volume: &mut Volume<S>,
    dbd: &Dbd,
    out: &mut W,
) -> Result<u32, StreamFault>
    requires holds { IsTrue volume.old.is_sound → (rows : List Segment) × HoldsRows dbd.now volume.old rows }
    ensures read { IsRead volume.old (stream_call result) volume.new }
    ensures records { IfOk result (λ n. IsTrue volume.old.is_sound → (f : Forest Placed) → HoldsPlaced dbd.now volume.old f → WritesRecords (rows_of f) (W.contents out.old) (W.contents out.new) n) }
{
    let most = volume.length().min(u64::from(u32::MAX)) as u32;
    let mut path = Path::new();
    let Ok(()) = next_row(volume, dbd, &mut path) else {
        return Err(StreamFault::Device);
    };
    for count in 0..most {
        if tip_of(&path) == 0 {
            return Ok(count);
        }
        write_and_go_on(volume, dbd, &mut path, out)?;
        volume.work_done(1);
    }
    Ok(most)
}

/// Writes the unload stream of the forest that a volume holds, and says how many segments it has.
///
/// A row is read once for its record and for what it names ahead, and a parent again where the walk goes back up to it. A block is
/// read when the walk comes to a row in it, and again when it goes back up to one in a block that is no longer in memory. What is written goes out in small pieces: a writer
/// with a buffer serves best.
pub fn write_stream<S: BlockStore, W: Write>(
    volume: &mut Volume<S>,
    dbd: &Dbd,
    out: &mut W,
) -> Result<u32, StreamFault>
    requires holds { IsTrue volume.old.is_sound → (rows : List Segment) × HoldsRows dbd.now volume.old rows }
    ensures read { IsRead volume.old (stream_call result) volume.new }
    ensures written { IfOk result (λ n. IsTrue volume.old.is_sound → IsUnloaded dbd.now volume.old (W.contents out.old) (W.contents out.new) n) }
{
    put(out, &head_of(dbd))?;
    let count = write_records(volume, dbd, out)?;
    put_end(out, count)?;
    Ok(count)
}
