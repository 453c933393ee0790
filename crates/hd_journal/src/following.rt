ghost use Rattle.std.specs.Prelude.{◌≡◌, ◌+◌, ◌-◌, ◌<◌, ◌≤◌, IsTrue, length, replicate, OnOk};
ghost use Rattle.hd_bytes.specs.Numbers.{number_at};
ghost use Rattle.hd_journal.specs.Disk.{Leaves};
ghost use Rattle.hd_journal.specs.Log.{gate_at, Fits, SameSlots};
ghost use Rattle.hd_journal.specs.Framed.{before};
ghost use Rattle.hd_journal.specs.States.{IsPublished, StandsForEither, image_on};

use crate::disk::{Disk, Failed};
use crate::frames::{append_gate, before};
use crate::head::{Head, OPEN, frame_place, write_u64};
use hd_bytes::write_u32;

/// The bytes behind the gate of a commit, which tell what it has.
const NEXT_LEN: usize = 12;

/// Writes how many frames a commit has, and how many bytes the image has by it.
fn put_next(bytes: &mut [u8], count: u32, len: u64)
    requires { length bytes.old ≡ 12 }
    ensures len { length bytes.new ≡ 12 }
    ensures count { number_at 4 bytes.new 0 ≡ count }
    ensures image { number_at 8 bytes.new 4 ≡ len }
{
    write_u32(bytes, 0, count);
    write_u64(bytes, 4, len);
}

/// Where the gate behind the slots of a head stands.
fn gate_place(head: Head) -> u64
    requires small { head.size ≤ 32768 }
    ensures { result ≡ gate_at head }
{
    frame_place(head, head.count) + 4
}

/// Writes a shut gate behind the frames of a commit, and into the shut gate before them what it has, and opens that.
///
/// A crash at any moment leaves the image of the commits before, or that of this one, and after `Ok` that of this one.
pub fn publish_next<D: Disk>(
    disk: &mut D,
    last: Head,
    head: Head,
    zeros: &[u8],
    frame: &mut [u8],
) -> Result<(), Failed>
    requires usable { IsTrue (D.is_usable disk.old) }
    requires some { 16 ≤ head.size }
    requires small { head.size ≤ 32768 }
    requires zeros { zeros.now ≡ replicate head.size 0 }
    requires frame { length frame.old ≡ head.size + 4 }
    requires same { head ≡ record last { count = head.count; len = head.len } }
    requires later { last.count ≤ head.count }
    requires longer { last.len ≤ head.len }
    requires published { IsTrue D.is_honest → (0 < last.count) × IsPublished (before last) (D.state disk.old) }
    requires fits { IsTrue D.is_honest → Fits head (D.state disk.old).log (D.state disk.old).volume }
    ensures usable { OnOk result (IsTrue (D.is_usable disk.new)) }
    ensures frame { length frame.new ≡ length frame.old }
    ensures published { OnOk result (IsTrue D.is_honest → IsPublished head (D.state disk.new)) }
    ensures volume { IsTrue D.is_honest → (D.state disk.new).volume ≡ (D.state disk.old).volume }
    ensures slots { IsTrue D.is_honest → SameSlots head.size head.count (D.state disk.old).log (D.state disk.new).log }
    ensures leaves { IsTrue D.is_honest → Leaves (StandsForEither (image_on (before last) (D.state disk.old)) (image_on head (D.state disk.old))) (D.state disk.old) (D.state disk.new) }
{
    let place = gate_place(before(last));
    append_gate(disk, head, zeros, frame)?;
    let mut bytes = [0u8; NEXT_LEN];
    put_next(&mut bytes, head.count - last.count, head.len);
    disk.write_log(place + 1, &bytes)?;
    disk.sync_log()?;
    disk.write_log(place, &[OPEN])?;
    disk.sync_log()
}
