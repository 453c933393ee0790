ghost use Rattle.std.specs.Prelude.{◌≡◌, ◌≢◌, ◌+◌, ◌*◌, ◌<◌, ◌≤◌, None, true, false, ℕ, IsTrue, List, length, slice_index, IfOk, IfSome, OnOk};
ghost use Rattle.hd_journal.specs.Log.{frame_at, block_no, no_block, image, skipped, written_from, Fits, HasFrames, HasFirst};
ghost use Rattle.hd_journal.specs.States.{IsStill, IsSparing, IfFirstFramed, LeavesShut, PutsFrames, Redoes, image_on};

use crate::disk::{Disk, Failed};
use crate::head::{Head, NO_BLOCK, frame_place};
use hd_bytes::read_u32;

/// Where slot `i` has block 0, its first byte.
fn first_of<D: Disk>(disk: &D, head: Head, i: u32) -> Result<Option<u8>, Failed>
    requires some { 0 < head.size }
    requires small { head.size ≤ 32768 }
    requires low { i < head.count }
    requires frames { IsTrue D.is_honest → frame_at head.size head.count ≤ length (D.state disk.now).log }
    ensures own { IfOk result (λ o. IfSome o (λ byte. IsTrue D.is_honest → (block_no head.size (D.state disk.now).log i ≡ 0)
        × (byte ≡ slice_index (D.state disk.now).log (frame_at head.size i + 4)))) }
    ensures other { IfOk result (λ o. o ≡ None → IsTrue D.is_honest → block_no head.size (D.state disk.now).log i ≢ 0) }
{
    let mut bytes = [0u8; 5];
    disk.read_log(frame_place(head, i), &mut bytes)?;
    if read_u32(&bytes, 0) != 0 {
        return Ok(None);
    }
    Ok(Some(bytes[4]))
}

/// The first byte of block 0 as the frames have it, where one has that block.
fn first_byte<D: Disk>(disk: &D, head: Head) -> Result<Option<u8>, Failed>
    requires some { 0 < head.size }
    requires small { head.size ≤ 32768 }
    requires frames { IsTrue D.is_honest → frame_at head.size head.count ≤ length (D.state disk.now).log }
    ensures first { IfOk result (λ o. IfSome o (λ byte. IsTrue D.is_honest → HasFirst head.size (D.state disk.now).log head.count byte)) }
    ensures none { IfOk result (λ o. o ≡ None → IsTrue D.is_honest → (i : ℕ) → i < head.count → block_no head.size (D.state disk.now).log i ≢ 0) }
{
    let mut found = None;
    for i in 0..head.count {
        if let Some(byte) = first_of(disk, head, i)? {
            found = Some(byte);
        }
    }
    Ok(found)
}

/// How many bytes at the front of the volume stay: those of its base, and the first where that is shut.
fn front_of(head: Head, is_shut: bool) -> u64
    ensures base { head.base ≤ result }
    ensures first { is_shut ≡ true → 0 < result }
    ensures within { head.base ≤ head.len → (is_shut ≡ true → 0 < head.len) → result ≤ head.len }
    ensures other { (k : ℕ) → head.base ≤ k → k < result → (is_shut ≡ true) × (k ≡ 0) }
{
    if is_shut && head.base == 0 {
        1
    } else {
        head.base
    }
}

/// Makes the volume as long as the image, with zeros behind its base, but for its first byte where that is shut.
fn lengthen<D: Disk>(disk: &mut D, head: Head, is_shut: bool) -> Result<(), Failed>
    requires usable { IsTrue (D.is_usable disk.old) }
    requires len { is_shut ≡ true → 0 < head.len }
    requires fits { IsTrue D.is_honest → Fits head (D.state disk.old).log (D.state disk.old).volume }
    requires sparing { IsTrue D.is_honest → IsSparing head is_shut (D.state disk.old).volume (D.state disk.old) }
    ensures usable { OnOk result (IsTrue (D.is_usable disk.new)) }
    ensures filled { OnOk result (IsTrue D.is_honest → HasFrames head 0 (D.state disk.old).log (D.state disk.old).volume 0 (D.state disk.new).volume) }
    ensures redoes { IsTrue D.is_honest → Redoes head is_shut (D.state disk.old).volume (D.state disk.old) (D.state disk.new) }
{
    if head.base == head.len {
        return Ok(());
    }
    disk.set_volume_len(front_of(head, is_shut))?;
    disk.set_volume_len(head.len)
}

/// How many bytes at the front of a frame's block are passed over: the first of block 0 where that is shut.
fn skip_of(is_shut: bool, number: u32) -> usize
    ensures { result ≡ skipped is_shut number }
{
    if is_shut && number == 0 { 1 } else { 0 }
}

/// Writes the block of slot `i` to the volume, if it is a frame, but not to its first byte where that is shut.
fn copy_frame<D: Disk>(
    disk: &mut D,
    head: Head,
    i: u32,
    is_shut: bool,
    frame: &mut [u8],
) -> Result<(), Failed>
    requires usable { IsTrue (D.is_usable disk.old) }
    requires some { 0 < head.size }
    requires small { head.size ≤ 32768 }
    requires frame { length frame.old ≡ head.size + 4 }
    requires low { i < head.count }
    requires frames { IsTrue D.is_honest → frame_at head.size head.count ≤ length (D.state disk.old).log }
    requires few { IsTrue D.is_honest → head.len ≤ no_block * head.size }
    ensures usable { OnOk result (IsTrue (D.is_usable disk.new)) }
    ensures frame { length frame.new ≡ length frame.old }
    ensures log { IsTrue D.is_honest → (D.state disk.new).log ≡ (D.state disk.old).log }
    ensures copied { OnOk result (IsTrue D.is_honest → PutsFrames head is_shut i (i + 1) (D.state disk.old) (D.state disk.new)) }
    ensures redoes { IsTrue D.is_honest → (first : List ℕ) → IsSparing head is_shut first (D.state disk.old) → Redoes head is_shut first (D.state disk.old) (D.state disk.new) }
{
    disk.read_log(frame_place(head, i), frame)?;
    let number = read_u32(frame, 0);
    if number == NO_BLOCK {
        return Ok(());
    }
    let skip = skip_of(is_shut, number);
    disk.write_volume(
        u64::from(number) * u64::from(head.size) + skip as u64,
        &frame[4 + skip..],
    )
}

/// Writes the blocks of all frames to the volume, but not to its first byte where that is shut.
fn copy<D: Disk>(disk: &mut D, head: Head, is_shut: bool, frame: &mut [u8]) -> Result<(), Failed>
    requires usable { IsTrue (D.is_usable disk.old) }
    requires some { 0 < head.size }
    requires small { head.size ≤ 32768 }
    requires frame { length frame.old ≡ head.size + 4 }
    requires frames { IsTrue D.is_honest → frame_at head.size head.count ≤ length (D.state disk.old).log }
    requires few { IsTrue D.is_honest → head.len ≤ no_block * head.size }
    ensures usable { OnOk result (IsTrue (D.is_usable disk.new)) }
    ensures frame { length frame.new ≡ length frame.old }
    ensures log { IsTrue D.is_honest → (D.state disk.new).log ≡ (D.state disk.old).log }
    ensures copied { OnOk result (IsTrue D.is_honest → PutsFrames head is_shut 0 head.count (D.state disk.old) (D.state disk.new)) }
    ensures redoes { IsTrue D.is_honest → (first : List ℕ) → IsSparing head is_shut first (D.state disk.old) → Redoes head is_shut first (D.state disk.old) (D.state disk.new) }
{
    for i in 0..head.count {
        copy_frame(disk, head, i, is_shut, frame)?;
    }
    Ok(())
}

/// Makes the volume the image that its log and its head say, but for its first byte where that is shut, and syncs it.
fn put_frames<D: Disk>(
    disk: &mut D,
    head: Head,
    is_shut: bool,
    frame: &mut [u8],
) -> Result<(), Failed>
    requires usable { IsTrue (D.is_usable disk.old) }
    requires some { 0 < head.size }
    requires small { head.size ≤ 32768 }
    requires frame { length frame.old ≡ head.size + 4 }
    requires len { is_shut ≡ true → 0 < head.len }
    requires fits { IsTrue D.is_honest → Fits head (D.state disk.old).log (D.state disk.old).volume }
    requires sparing { IsTrue D.is_honest → IsSparing head is_shut (D.state disk.old).volume (D.state disk.old) }
    ensures usable { OnOk result (IsTrue (D.is_usable disk.new)) }
    ensures frame { length frame.new ≡ length frame.old }
    ensures long { OnOk result (IsTrue D.is_honest → length (D.state disk.new).volume ≡ head.len) }
    ensures done { OnOk result (IsTrue D.is_honest → (k : ℕ) → written_from is_shut ≤ k → k < head.len → slice_index (D.state disk.new).volume k ≡ slice_index (image_on head (D.state disk.old)) k) }
    ensures still { OnOk result (IsTrue D.is_honest → IsStill (D.state disk.new)) }
    ensures redoes { IsTrue D.is_honest → Redoes head is_shut (D.state disk.old).volume (D.state disk.old) (D.state disk.new) }
{
    lengthen(disk, head, is_shut)?;
    copy(disk, head, is_shut, frame)?;
    disk.set_volume_len(head.len)?;
    disk.sync_volume()
}

/// Makes the volume the image that its log and its head say, whose first byte is this, and syncs it. While it goes on that byte is 0.
fn redo_shut<D: Disk>(disk: &mut D, head: Head, byte: u8, frame: &mut [u8]) -> Result<(), Failed>
    requires usable { IsTrue (D.is_usable disk.old) }
    requires some { 0 < head.size }
    requires small { head.size ≤ 32768 }
    requires frame { length frame.old ≡ head.size + 4 }
    requires len { 0 < head.len }
    requires fits { IsTrue D.is_honest → Fits head (D.state disk.old).log (D.state disk.old).volume }
    requires still { IsTrue D.is_honest → IsStill (D.state disk.old) }
    requires first { IsTrue D.is_honest → HasFirst head.size (D.state disk.old).log head.count byte }
    ensures usable { OnOk result (IsTrue (D.is_usable disk.new)) }
    ensures frame { length frame.new ≡ length frame.old }
    ensures done { OnOk result (IsTrue D.is_honest → (D.state disk.new).volume ≡ image head (D.state disk.old).log (D.state disk.old).volume) }
    ensures still { OnOk result (IsTrue D.is_honest → IsStill (D.state disk.new)) }
    ensures redoes { IsTrue D.is_honest → Redoes head false (D.state disk.old).volume (D.state disk.old) (D.state disk.new) }
    ensures shut { IsTrue D.is_honest → LeavesShut head (D.state disk.old) (D.state disk.new) }
{
    disk.write_volume(0, &[0])?;
    disk.sync_volume()?;
    put_frames(disk, head, true, frame)?;
    disk.write_volume(0, &[byte])?;
    disk.sync_volume()
}

/// Makes the volume the image that its log and its head say, and syncs it.
///
/// While it goes on the volume's first byte is 0 where block 0 has a frame, so that a volume alone is not taken for one.
pub fn redo<D: Disk>(disk: &mut D, head: Head, frame: &mut [u8]) -> Result<(), Failed>
    requires usable { IsTrue (D.is_usable disk.old) }
    requires some { 0 < head.size }
    requires small { head.size ≤ 32768 }
    requires frame { length frame.old ≡ head.size + 4 }
    requires fits { IsTrue D.is_honest → Fits head (D.state disk.old).log (D.state disk.old).volume }
    requires still { IsTrue D.is_honest → IsStill (D.state disk.old) }
    ensures usable { OnOk result (IsTrue (D.is_usable disk.new)) }
    ensures frame { length frame.new ≡ length frame.old }
    ensures done { OnOk result (IsTrue D.is_honest → (D.state disk.new).volume ≡ image head (D.state disk.old).log (D.state disk.old).volume) }
    ensures still { OnOk result (IsTrue D.is_honest → IsStill (D.state disk.new)) }
    ensures redoes { IsTrue D.is_honest → Redoes head false (D.state disk.old).volume (D.state disk.old) (D.state disk.new) }
    ensures shut { IsTrue D.is_honest → IfFirstFramed head (D.state disk.old).log (LeavesShut head (D.state disk.old) (D.state disk.new)) }
{
    match first_byte(disk, head)? {
        Some(byte) if head.len > 0 => redo_shut(disk, head, byte, frame),
        _ => {
            put_frames(disk, head, false, frame)?;
            Ok(())
        }
    }
}
