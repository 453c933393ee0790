ghost use Rattle.std.specs.Prelude.{◌≡◌, ◌≢◌, ◌+◌, ◌-◌, ◌*◌, ◌<◌, ◌≤◌, ℕ, IsTrue, length, slice_index, OnOk};
ghost use Rattle.hd_bytes.specs.Ranges.{bytes_at};
ghost use Rattle.hd_bytes.specs.Numbers.{number_at};
ghost use Rattle.hd_journal.specs.Log.{frame_at, base_byte, image};
ghost use Rattle.hd_journal.specs.States.{OfBlock, image_on};
ghost use Rattle.hd_journal.specs.Framed.{IsFramed};

use crate::disk::{Disk, Failed};
use crate::head::{Head, frame_place};
use hd_bytes::write_u32;

/// How many of so many bytes from a place on are the volume's.
fn count_base(base: u64, at: u64, len: usize) -> usize
    ensures within { result ≤ len }
    ensures inner { (j : ℕ) → j < result → at + j < base }
    ensures behind { (j : ℕ) → result ≤ j → j < len → base ≤ at + j }
{
    base.saturating_sub(at).min(len as u64) as usize
}

/// Reads so many bytes from the volume; the others are zeros.
fn read_base<D: Disk>(disk: &D, at: u64, count: usize, buf: &mut [u8]) -> Result<(), Failed>
    requires { count ≤ length buf.old }
    ensures len { length buf.new ≡ length buf.old }
    ensures inner { OnOk result (IsTrue D.is_honest → (j : ℕ) → j < count → slice_index buf.new j ≡ slice_index (D.state disk.now).volume (at + j)) }
    ensures behind { OnOk result ((j : ℕ) → count ≤ j → j < length buf.old → slice_index buf.new j ≡ 0) }
{
    buf.fill(0);
    if count == 0 {
        return Ok(());
    }
    disk.read_volume(at, &mut buf[..count])
}

/// Reads the first bytes of a block that begins at byte `at`: from its frame, if it has one, or else from the volume.
fn read_front<D: Disk>(
    disk: &D,
    head: Head,
    place: u32,
    at: u64,
    buf: &mut [u8],
) -> Result<(), Failed>
    requires small { head.size ≤ 32768 }
    ensures len { length buf.new ≡ length buf.old }
    ensures frame { OnOk result (place ≢ 0 → IsTrue D.is_honest → buf.new ≡ bytes_at (D.state disk.now).log (frame_at head.size (place - 1) + 4) (length buf.old)) }
    ensures base { OnOk result (place ≡ 0 → IsTrue D.is_honest → (j : ℕ) → j < length buf.old → slice_index buf.new j ≡ base_byte head.base (D.state disk.now).volume (at + j)) }
{
    if place != 0 {
        return disk.read_log(frame_place(head, place - 1) + 4, buf);
    }
    let count = count_base(head.base, at, buf.len());
    read_base(disk, at, count, buf)?;
    Ok(())
}

/// The place of a block; 0 where it has no frame.
fn place_at(places: &[u32], block: usize) -> u32
    ensures there { block < length places.now → result ≡ slice_index places.now block }
    ensures behind { length places.now ≤ block → result ≡ 0 }
{
    if block < places.len() {
        return places[block];
    }
    0
}

/// Reads the bytes of block `n + i` into their part of `buf`, which begins with block `n`.
fn read_part<D: Disk>(
    disk: &D,
    head: Head,
    places: &[u32],
    n: u32,
    i: usize,
    buf: &mut [u8],
) -> Result<(), Failed>
    requires some { 0 < head.size }
    requires small { head.size ≤ 32768 }
    requires low { i * head.size < length buf.old }
    requires there { n * head.size + length buf.old ≤ head.len }
    requires framed { IsTrue D.is_honest → IsFramed (D.state disk.now) head places.now }
    ensures len { length buf.new ≡ length buf.old }
    ensures before { (k : ℕ) → k < i * head.size → slice_index buf.new k ≡ slice_index buf.old k }
    ensures part { OnOk result (IsTrue D.is_honest → OfBlock head.size i (λ k. k < length buf.old → slice_index buf.new k ≡ slice_index (image_on head (D.state disk.now)) (n * head.size + k))) }
{
    let size = head.size as usize;
    let from = i * size;
    let count = size.min(buf.len() - from);
    let place = place_at(places, n as usize + i);
    let at = u64::from(n) * u64::from(head.size) + from as u64;
    read_front(disk, head, place, at, &mut buf[from..from + count])?;
    Ok(())
}

/// Reads the bytes from block `n` on that fill `buf`, one block after the other.
fn read_parts<D: Disk>(
    disk: &D,
    head: Head,
    places: &[u32],
    n: u32,
    buf: &mut [u8],
) -> Result<(), Failed>
    requires some { 0 < head.size }
    requires small { head.size ≤ 32768 }
    requires there { n * head.size + length buf.old ≤ head.len }
    requires framed { IsTrue D.is_honest → IsFramed (D.state disk.now) head places.now }
    ensures len { length buf.new ≡ length buf.old }
    ensures value { OnOk result (IsTrue D.is_honest → buf.new ≡ bytes_at (image head (D.state disk.now).log (D.state disk.now).volume) (n * head.size) (length buf.old)) }
{
    for i in 0..buf.len().div_ceil(head.size as usize) {
        read_part(disk, head, places, n, i, buf)?;
    }
    Ok(())
}

/// None of the blocks from one to before another has a frame.
fn have_none(places: &[u32], from: usize, to: usize) -> bool
    ensures { IsTrue result → (m : ℕ) → from ≤ m → m < to → m < length places.now → slice_index places.now m ≡ 0 }
{
    for m in from..to {
        if place_at(places, m) != 0 {
            return false;
        }
    }
    true
}

/// Reads the bytes from block `n` on that fill `buf`: at once where all are the volume's, and else one block after the other.
pub fn read_bytes<D: Disk>(
    disk: &D,
    head: Head,
    places: &[u32],
    n: u32,
    buf: &mut [u8],
) -> Result<(), Failed>
    requires some { 0 < head.size }
    requires small { head.size ≤ 32768 }
    requires there { n * head.size + length buf.old ≤ head.len }
    requires framed { IsTrue D.is_honest → IsFramed (D.state disk.now) head places.now }
    ensures len { length buf.new ≡ length buf.old }
    ensures value { OnOk result (IsTrue D.is_honest → buf.new ≡ bytes_at (image head (D.state disk.now).log (D.state disk.now).volume) (n * head.size) (length buf.old)) }
{
    let at = u64::from(n) * u64::from(head.size);
    let count = buf.len().div_ceil(head.size as usize);
    if at + buf.len() as u64 <= head.base && have_none(places, n as usize, n as usize + count) {
        return disk.read_volume(at, buf);
    }
    read_parts(disk, head, places, n, buf)
}

/// Makes a frame of block 0, with its bytes as they are read.
pub fn read_first<D: Disk>(
    disk: &D,
    head: Head,
    places: &[u32],
    frame: &mut [u8],
) -> Result<(), Failed>
    requires some { 0 < head.size }
    requires small { head.size ≤ 32768 }
    requires frame { length frame.old ≡ head.size + 4 }
    requires framed { IsTrue D.is_honest → IsFramed (D.state disk.now) head places.now }
    ensures len { length frame.new ≡ length frame.old }
    ensures number { OnOk result (number_at 4 frame.new 0 ≡ 0) }
    ensures block { OnOk result (IsTrue D.is_honest → (j : ℕ) → j < head.size
        → slice_index frame.new (4 + j) ≡ slice_index (image head (D.state disk.now).log (D.state disk.now).volume) j) }
{
    if u64::from(head.size) > head.len {
        return Err(Failed);
    }
    read_bytes(disk, head, places, 0, &mut frame[4..])?;
    write_u32(frame, 0, 0);
    Ok(())
}
