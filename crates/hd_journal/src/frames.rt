ghost use Rattle.std.specs.Prelude.{◌≡◌, ◌≢◌, ◌+◌, ◌-◌, ◌<◌, ◌≤◌, ℕ, IsTrue, length, replicate, slice_index, vec_len, OnOk};
ghost use Rattle.std.specs.Vec.{vec_capacity};
ghost use Rattle.hd_bytes.specs.Ranges.{bytes_at};
ghost use Rattle.hd_bytes.specs.Numbers.{number_at};
ghost use Rattle.hd_journal.specs.Disk.{WritesLog};
ghost use Rattle.hd_journal.specs.Log.{frame_at, IsGate};
ghost use Rattle.hd_journal.specs.Framed.{fresh, before};

use crate::disk::{Disk, Failed};
use crate::head::{Head, NO_BLOCK, frame_place};
use hd_bytes::{write_bytes, write_u32};

/// Puts the number of a block and its bytes into a frame.
fn put_frame(frame: &mut [u8], n: u32, bytes: &[u8])
    requires { length frame.old ≡ length bytes.now + 4 }
    ensures len { length frame.new ≡ length frame.old }
    ensures number { number_at 4 frame.new 0 ≡ n }
    ensures block { (j : ℕ) → j < length bytes.now → slice_index frame.new (4 + j) ≡ slice_index bytes.now j }
{
    write_u32(frame, 0, n);
    write_bytes(frame, 4, bytes);
}

/// Writes a frame behind those that there are.
pub fn append_frame<D: Disk>(
    disk: &mut D,
    head: Head,
    n: u32,
    bytes: &[u8],
    frame: &mut [u8],
) -> Result<(), Failed>
    requires usable { IsTrue (D.is_usable disk.old) }
    requires small { head.size ≤ 32768 }
    requires whole { length bytes.now ≡ head.size }
    requires frame { length frame.old ≡ head.size + 4 }
    ensures usable { OnOk result (IsTrue (D.is_usable disk.new)) }
    ensures frame { length frame.new ≡ length frame.old }
    ensures number { number_at 4 frame.new 0 ≡ n }
    ensures block { (j : ℕ) → j < length bytes.now → slice_index frame.new (4 + j) ≡ slice_index bytes.now j }
    ensures value { OnOk result (IsTrue D.is_honest → bytes_at (D.state disk.new).log (frame_at head.size head.count) (head.size + 4) ≡ frame.new) }
    ensures writes { IsTrue D.is_honest → WritesLog (frame_at head.size head.count) (head.size + 4) (D.state disk.old) (D.state disk.new) }
{
    put_frame(frame, n, bytes);
    write_frame(disk, head, frame)
}

/// Writes a whole frame behind those that there are.
pub fn write_frame<D: Disk>(disk: &mut D, head: Head, frame: &[u8]) -> Result<(), Failed>
    requires usable { IsTrue (D.is_usable disk.old) }
    requires small { head.size ≤ 32768 }
    requires frame { length frame.now ≡ head.size + 4 }
    ensures usable { OnOk result (IsTrue (D.is_usable disk.new)) }
    ensures value { OnOk result (IsTrue D.is_honest → bytes_at (D.state disk.new).log (frame_at head.size head.count) (head.size + 4) ≡ frame.now) }
    ensures writes { IsTrue D.is_honest → WritesLog (frame_at head.size head.count) (head.size + 4) (D.state disk.old) (D.state disk.new) }
{
    disk.write_log(frame_place(head, head.count), frame)
}

/// Writes over the block of the frame before a place.
pub fn overwrite_frame<D: Disk>(
    disk: &mut D,
    head: Head,
    place: u32,
    bytes: &[u8],
) -> Result<(), Failed>
    requires usable { IsTrue (D.is_usable disk.old) }
    requires small { head.size ≤ 32768 }
    requires whole { length bytes.now ≡ head.size }
    requires some { place ≢ 0 }
    ensures usable { OnOk result (IsTrue (D.is_usable disk.new)) }
    ensures value { OnOk result (IsTrue D.is_honest → bytes_at (D.state disk.new).log (frame_at head.size (place - 1) + 4) head.size ≡ bytes.now) }
    ensures writes { IsTrue D.is_honest → WritesLog (frame_at head.size (place - 1) + 4) head.size (D.state disk.old) (D.state disk.new) }
{
    disk.write_log(frame_place(head, place - 1) + 4, bytes)
}

/// Writes the slot of a shut gate behind those that there are.
pub fn append_gate<D: Disk>(
    disk: &mut D,
    head: Head,
    zeros: &[u8],
    frame: &mut [u8],
) -> Result<(), Failed>
    requires usable { IsTrue (D.is_usable disk.old) }
    requires some { 16 ≤ head.size }
    requires small { head.size ≤ 32768 }
    requires zeros { zeros.now ≡ replicate head.size 0 }
    requires frame { length frame.old ≡ head.size + 4 }
    ensures usable { OnOk result (IsTrue (D.is_usable disk.new)) }
    ensures frame { length frame.new ≡ length frame.old }
    ensures gate { OnOk result (IsTrue D.is_honest → IsGate head (D.state disk.new).log) }
    ensures writes { IsTrue D.is_honest → WritesLog (frame_at head.size head.count) (head.size + 4) (D.state disk.old) (D.state disk.new) }
{
    append_frame(disk, head, NO_BLOCK, zeros, frame)
}

/// A head without its last slot.
pub fn before(last: Head) -> Head
    ensures { result ≡ before last }
{
    Head {
        size: last.size,
        count: last.count.saturating_sub(1),
        base: last.base,
        len: last.len,
        device: last.device,
        number: last.number,
    }
}

/// The same head with no slot, over a volume of so many bytes.
pub fn fresh(head: Head, len: u64) -> Head
    ensures { result ≡ fresh head len }
{
    Head {
        size: head.size,
        count: 0,
        base: len,
        len,
        device: head.device,
        number: head.number,
    }
}

/// Makes a list of places another, for which it has room.
pub fn copy_places(to: &mut Vec<u32>, from: &[u32])
    requires { length from.now ≤ vec_capacity to.old }
    ensures items { to.new.items ≡ from.now }
    ensures len { vec_len to.new ≡ length from.now }
    ensures capacity { vec_capacity to.old ≤ vec_capacity to.new }
{
    to.clear();
    let _ = to.extend_from_slice(from);
}

/// Leaves so many places of no frame.
pub fn clear(places: &mut Vec<u32>, count: usize)
    requires { count ≤ length places.old.items }
    ensures items { places.new.items ≡ replicate count 0 }
    ensures len { vec_len places.new ≡ count }
    ensures capacity { vec_capacity places.new ≡ vec_capacity places.old }
{
    places.truncate(count);
    places.fill(0);
}
