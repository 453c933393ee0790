ghost use Rattle.std.specs.Prelude.{◌≡◌, ◌∷◌, [], map, cond, OnOk, OnErr};
ghost use Rattle.hd_journal.specs.Past.{mark_shown};

use crate::memory_disk::Stood;
use std::alloc::{AllocError, Global};

/// Keeps what stands there at a commit, before those of earlier ones, or alone.
pub fn stand(
    alloc: Global,
    marks: &mut Vec<Stood>,
    moment: u64,
    log: &[u8],
    volume: &[u8],
    is_first: bool,
) -> Result<(), AllocError>
    ensures marks { OnOk result (map mark_shown marks.new.items ≡ record { moment = moment; log = log.now; volume = volume.now } ∷ cond is_first [] (map mark_shown marks.old.items)) }
    ensures err { OnErr result (marks.new.items ≡ marks.old.items) }
{
    let stood = Stood {
        moment,
        log: log.to_vec(alloc)?,
        volume: volume.to_vec(alloc)?,
    };
    marks.insert(0, stood)?;
    if is_first {
        marks.truncate(1);
    }
    Ok(())
}
