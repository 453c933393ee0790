ghost use Rattle.std.specs.Prelude.{◌≡◌, ◌+◌, ◌<◌, ◌≤◌, IsTrue, length, replicate, OnOk};
ghost use Rattle.hd_journal.specs.Disk.{Leaves};
ghost use Rattle.hd_journal.specs.Log.{image, Fits, SameSlots};
ghost use Rattle.hd_journal.specs.States.{IsSettled, IsOpened, IsPublished, SameBehind, IfFirstFramed, LeavesShut, StandsFor, StandsForEither};

use crate::disk::{Disk, Failed};
use crate::frames::append_gate;
use crate::gate::shut;
use crate::head::{Head, OPEN, SHUT_LEN, put_head};
use crate::redoing::redo;

/// Writes the head of a log whose frames are there, and a shut gate behind them, and opens the gate of the log.
///
/// A crash at any moment leaves the volume as it is, or the image, and after `Ok` the image.
pub fn publish_first<D: Disk>(
    disk: &mut D,
    head: Head,
    zeros: &[u8],
    frame: &mut [u8],
) -> Result<(), Failed>
    requires usable { IsTrue (D.is_usable disk.old) }
    requires some { 16 ≤ head.size }
    requires small { head.size ≤ 32768 }
    requires zeros { zeros.now ≡ replicate head.size 0 }
    requires frame { length frame.old ≡ head.size + 4 }
    requires settled { IsTrue D.is_honest → IsSettled (D.state disk.old) }
    requires fits { IsTrue D.is_honest → Fits head (D.state disk.old).log (D.state disk.old).volume }
    ensures usable { OnOk result (IsTrue (D.is_usable disk.new)) }
    ensures frame { length frame.new ≡ length frame.old }
    ensures published { OnOk result (IsTrue D.is_honest → IsPublished head (D.state disk.new)) }
    ensures volume { IsTrue D.is_honest → (D.state disk.new).volume ≡ (D.state disk.old).volume }
    ensures slots { IsTrue D.is_honest → SameSlots head.size head.count (D.state disk.old).log (D.state disk.new).log }
    ensures leaves { IsTrue D.is_honest → Leaves (StandsForEither (D.state disk.old).volume (image head (D.state disk.old).log (D.state disk.old).volume)) (D.state disk.old) (D.state disk.new) }
{
    append_gate(disk, head, zeros, frame)?;
    let mut bytes = [0u8; SHUT_LEN];
    put_head(&mut bytes, head);
    disk.write_log(1, &bytes)?;
    disk.sync_log()?;
    disk.write_log(0, &[OPEN])?;
    disk.sync_log()
}

/// Copies the frames of an open log to the volume, and shuts the gate.
///
/// A crash at any moment leaves the image. Where block 0 has a frame, a volume that is not whole has 0 as its first byte.
pub fn finish<D: Disk>(disk: &mut D, head: Head, frame: &mut [u8]) -> Result<(), Failed>
    requires usable { IsTrue (D.is_usable disk.old) }
    requires some { 0 < head.size }
    requires small { head.size ≤ 32768 }
    requires frame { length frame.old ≡ head.size + 4 }
    requires open { IsTrue D.is_honest → IsOpened head (D.state disk.old) }
    ensures usable { OnOk result (IsTrue (D.is_usable disk.new)) }
    ensures frame { length frame.new ≡ length frame.old }
    ensures done { OnOk result (IsTrue D.is_honest → (D.state disk.new).volume ≡ image head (D.state disk.old).log (D.state disk.old).volume) }
    ensures settled { OnOk result (IsTrue D.is_honest → IsSettled (D.state disk.new)) }
    ensures longer { IsTrue D.is_honest → length (D.state disk.old).log ≤ length (D.state disk.new).log }
    ensures behind { IsTrue D.is_honest → SameBehind (D.state disk.old).log (D.state disk.new).log }
    ensures same { IsTrue D.is_honest → image head (D.state disk.new).log (D.state disk.new).volume ≡ image head (D.state disk.old).log (D.state disk.old).volume }
    ensures leaves { IsTrue D.is_honest → Leaves (StandsFor (image head (D.state disk.old).log (D.state disk.old).volume)) (D.state disk.old) (D.state disk.new) }
    ensures shut { IsTrue D.is_honest → IfFirstFramed head (D.state disk.old).log (LeavesShut head (D.state disk.old) (D.state disk.new)) }
{
    redo(disk, head, frame)?;
    shut(disk)
}
