ghost use Rattle.std.specs.Prelude.{◌≤◌, length, ◌≡◌, true, false, ℕ, IsTrue, List, IfOk, OnOk};
ghost use Rattle.hd_journal.specs.Disk.{Leaves};
ghost use Rattle.hd_journal.specs.Log.{IsShut};
ghost use Rattle.hd_journal.specs.States.{SameBehind, IsStill, MayShut};

use crate::disk::{Disk, Failed};
use crate::head::OPEN;

/// There is a gate, and it is shut.
fn is_shut<D: Disk>(disk: &D) -> Result<bool, Failed>
    ensures shut { IfOk result (λ b. IsTrue D.is_honest → b ≡ true → IsShut (D.state disk.now).log) }
    ensures open { IfOk result (λ b. IsTrue D.is_honest → b ≡ false → IsShut (D.state disk.now).log → ⊥) }
{
    if disk.log_len()? == 0 {
        return Ok(false);
    }
    let mut gate = [0u8];
    disk.read_log(0, &mut gate)?;
    Ok(gate[0] != OPEN)
}

/// Shuts the gate if it is not shut, and syncs.
pub fn shut<D: Disk>(disk: &mut D) -> Result<(), Failed>
    requires usable { IsTrue (D.is_usable disk.old) }
    requires still { IsTrue D.is_honest → IsStill (D.state disk.old) }
    ensures usable { OnOk result (IsTrue (D.is_usable disk.new)) }
    ensures shut { OnOk result (IsTrue D.is_honest → IsShut (D.state disk.new).log) }
    ensures still { OnOk result (IsTrue D.is_honest → IsStill (D.state disk.new)) }
    ensures longer { IsTrue D.is_honest → length (D.state disk.old).log ≤ length (D.state disk.new).log }
    ensures behind { IsTrue D.is_honest → SameBehind (D.state disk.old).log (D.state disk.new).log }
    ensures volume { IsTrue D.is_honest → (D.state disk.new).volume ≡ (D.state disk.old).volume }
    ensures outcomes { IsTrue D.is_honest → (l v : List ℕ) → (D.state disk.new).may_leave l v → MayShut (D.state disk.old).log l × (v ≡ (D.state disk.old).volume) }
    ensures leaves { IsTrue D.is_honest → Leaves (λ l v. MayShut (D.state disk.old).log l × (v ≡ (D.state disk.old).volume)) (D.state disk.old) (D.state disk.new) }
{
    if is_shut(disk)? {
        return Ok(());
    }
    disk.write_log(0, &[0])?;
    disk.sync_log()
}
