ghost use Rattle.std.specs.Prelude.{◌≡◌, ◌⊎◌, ◌≤◌, ◌<◌, IsTrue, IfErr, OnOk};
ghost use Rattle.hd_journal.specs.Disk.{Leaves};
ghost use Rattle.hd_journal.specs.Log.{image, recovered, IsForeign};
ghost use Rattle.hd_journal.specs.States.{IsStill, IsSettled, IsOpened, StandsFor};
ghost use Rattle.hd_journal.specs.Finds.{RefusesLog};

use crate::committing::finish;
use crate::disk::{Disk, Failed};
use crate::finding::{Found, find_log};
use crate::gate::shut;
use crate::head::Head;
use std::alloc::Global;

/// Why a journal was not opened.
#[derive(Clone, Copy, Debug, PartialEq, Eq)]
pub enum Unopened {
    /// A call of the disk failed.
    Device,
    /// No memory was found.
    Memory,
    /// The log counts, and is that of another volume. Nothing was written.
    OtherVolume,
    /// The log counts, and is of another version. Nothing was written.
    OtherVersion,
}

/// Puts on the disk what a program that was killed may have left: both files.
pub fn steady<D: Disk>(disk: &mut D) -> Result<(), Failed>
    requires { IsTrue (D.is_usable disk.old) }
    ensures usable { OnOk result (IsTrue (D.is_usable disk.new)) }
    ensures still { OnOk result (IsTrue D.is_honest → IsStill (D.state disk.new)) }
    ensures log { IsTrue D.is_honest → (D.state disk.new).log ≡ (D.state disk.old).log }
    ensures volume { IsTrue D.is_honest → (D.state disk.new).volume ≡ (D.state disk.old).volume }
    ensures leaves { IsTrue D.is_honest → Leaves (λ _ _. ⊥) (D.state disk.old) (D.state disk.new) }
{
    disk.sync_log()?;
    disk.sync_volume()
}

/// Copies the frames of a log that counts to its volume, and shuts the gate.
fn redo_log<D: Disk>(alloc: Global, disk: &mut D, head: Head) -> Result<(), Unopened>
    requires usable { IsTrue (D.is_usable disk.old) }
    requires some { 0 < head.size }
    requires small { head.size ≤ 32768 }
    requires open { IsTrue D.is_honest → IsOpened head (D.state disk.old) }
    ensures usable { OnOk result (IsTrue (D.is_usable disk.new)) }
    ensures image { OnOk result (IsTrue D.is_honest → (D.state disk.new).volume ≡ image head (D.state disk.old).log (D.state disk.old).volume) }
    ensures settled { OnOk result (IsTrue D.is_honest → IsSettled (D.state disk.new)) }
    ensures refusal { IfErr result (λ e. (e ≡ Unopened.Device) ⊎ (e ≡ Unopened.Memory)) }
    ensures leaves { IsTrue D.is_honest → Leaves (StandsFor (image head (D.state disk.old).log (D.state disk.old).volume)) (D.state disk.old) (D.state disk.new) }
{
    let Ok(mut frame) = vec![in alloc; 0u8; head.size as usize + 4] else {
        return Err(Unopened::Memory);
    };
    let Ok(()) = finish(disk, head, &mut frame) else {
        return Err(Unopened::Device);
    };
    Ok(())
}

/// Makes the volume the image that the log and the volume stand for, and shuts the gate.
///
/// It may crash at any moment, and then they stand for the same image. Where it is refused for its log, nothing was written.
pub fn recover<D: Disk>(alloc: Global, disk: &mut D) -> Result<(), Unopened>
    requires usable { IsTrue (D.is_usable disk.old) }
    requires still { IsTrue D.is_honest → IsStill (D.state disk.old) }
    ensures usable { OnOk result (IsTrue (D.is_usable disk.new)) }
    ensures image { OnOk result (IsTrue D.is_honest → (D.state disk.new).volume ≡ recovered (D.state disk.old).log (D.state disk.old).volume) }
    ensures settled { OnOk result (IsTrue D.is_honest → IsSettled (D.state disk.new)) }
    ensures own { OnOk result (IsTrue D.is_honest → IsForeign (D.state disk.old).log → ⊥) }
    ensures refusal { IfErr result (λ e. IsTrue D.is_honest → RefusesLog e (D.state disk.old) (D.state disk.new)) }
    ensures leaves { IsTrue D.is_honest → Leaves (StandsFor (recovered (D.state disk.old).log (D.state disk.old).volume)) (D.state disk.old) (D.state disk.new) }
{
    let Ok(found) = find_log(disk) else {
        return Err(Unopened::Device);
    };
    match found {
        Found::Nothing => {
            let Ok(()) = shut(disk) else {
                return Err(Unopened::Device);
            };
            Ok(())
        }
        Found::Other => Err(Unopened::OtherVersion),
        Found::Open(head) => {
            let (device, number) = disk.identity();
            if head.device != device || head.number != number {
                return Err(Unopened::OtherVolume);
            }
            redo_log(alloc, disk, head)
        }
    }
}
