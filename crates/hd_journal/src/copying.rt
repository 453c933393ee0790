ghost use Rattle.std.specs.Prelude.{◌≡◌, ◌+◌, ◌<◌, ◌≤◌, IsTrue, length, OnOk};
ghost use Rattle.hd_journal.specs.Disk.{Leaves};
ghost use Rattle.hd_journal.specs.Log.{image};
ghost use Rattle.hd_journal.specs.States.{IsSettled, IsPublished, SameBehind, IfFirstFramed, LeavesShut, StandsFor};

use crate::committing::finish;
use crate::disk::{Disk, Failed};
use crate::head::Head;

/// Copies the frames of the commits of a log to the volume, and shuts the gate. What stands behind them in the log stays there.
///
/// A crash at any moment leaves the image. Where block 0 has a frame, a volume that is not whole has 0 as its first byte.
pub fn copy_commits<D: Disk>(disk: &mut D, head: Head, frame: &mut [u8]) -> Result<(), Failed>
    requires usable { IsTrue (D.is_usable disk.old) }
    requires some { 0 < head.size }
    requires small { head.size ≤ 32768 }
    requires frame { length frame.old ≡ head.size + 4 }
    requires published { IsTrue D.is_honest → IsPublished head (D.state disk.old) }
    ensures usable { OnOk result (IsTrue (D.is_usable disk.new)) }
    ensures frame { length frame.new ≡ length frame.old }
    ensures done { OnOk result (IsTrue D.is_honest → (D.state disk.new).volume ≡ image head (D.state disk.old).log (D.state disk.old).volume) }
    ensures settled { OnOk result (IsTrue D.is_honest → IsSettled (D.state disk.new)) }
    ensures longer { IsTrue D.is_honest → length (D.state disk.old).log ≤ length (D.state disk.new).log }
    ensures behind { IsTrue D.is_honest → SameBehind (D.state disk.old).log (D.state disk.new).log }
    ensures same { IsTrue D.is_honest → image head (D.state disk.new).log (D.state disk.new).volume ≡ image head (D.state disk.old).log (D.state disk.old).volume }
    ensures leaves { IsTrue D.is_honest → Leaves (StandsFor (image head (D.state disk.old).log (D.state disk.old).volume)) (D.state disk.old) (D.state disk.new) }
    ensures shut { IsTrue D.is_honest → IfFirstFramed head (D.state disk.old).log (LeavesShut head (D.state disk.old) (D.state disk.new)) }
{
    disk.sync_log()?;
    finish(disk, head, frame)
}
