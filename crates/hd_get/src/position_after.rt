ghost use Rattle.std.specs.Prelude.{OnOk};
ghost use Rattle.hd_dbd.specs.Refusals.{OnlyDevice};
ghost use Rattle.hd_volume.specs.Calls.{IsRead};
ghost use Rattle.hd_get.specs.Searches.{IsOf, MayLead, Settles};

use crate::judge::Judge;
use hd_dbd::{Dbd, Refused};
use hd_forest::Path;
use hd_stores::BlockStore;
use hd_volume::Volume;

/// Lets a search that begins in the middle of a database begin where the rows above are admitted: at the topmost row above below which
/// it may not go on, since nothing of that one's span passes, or, where there is none, where it was to begin. Where that row is the one
/// at the address or above it, nothing can be found, and the path comes back empty. The rows above are judged once each.
pub fn settle<S: BlockStore, J: Judge>(
    volume: &mut Volume<S>,
    dbd: &Dbd,
    judge: &J,
    parent: u32,
    path: &mut Path,
) -> Result<(), Refused>
    requires suits { J.suits judge.now dbd.now.types }
    requires of { IsOf dbd.now volume.old }
    requires there { MayLead dbd.now volume.old parent path.old }
    ensures read { IsRead volume.old result volume.new }
    ensures value { OnOk result (Settles (J.test judge.now dbd.now.types) (J.admits judge.now dbd.now.types) dbd.now volume.old parent path.old path.new) }
    ensures refusal { OnlyDevice result }
{
    let whole = path.copy();
    let addresses = whole.addresses();
    let mut above = Path::new();
    let mut below = parent == 0;
    for place in 0..addresses.len().saturating_sub(1) {
        let address = addresses[place];
        above.push(address);
        let verdict = judge.judge(volume, dbd, &above)?;
        if !verdict.goes_below() {
            path.clear();
            if below {
                *path = above;
            }
            return Ok(());
        }
        below |= address == parent;
    }
    Ok(())
}
