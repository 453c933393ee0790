ghost use Rattle.std.specs.Prelude.{IfOk};
ghost use Rattle.hd_dbd.specs.Refusals.{OnlyDevice};
ghost use Rattle.hd_volume.specs.Calls.{IsRead};
ghost use Rattle.hd_get.specs.Searches.{IsOf, MaySearch, Finds};

use crate::judge::Judge;
use crate::steps::follow;
use hd_dbd::{Dbd, Refused};
use hd_forest::Path;
use hd_stores::BlockStore;
use hd_volume::Volume;

/// Goes from the row that a path leads to on to the first that passes a judge's test; says whether there is one. It stays below the
/// row at an address, or, for the address 0, in the whole database.
pub fn find<S: BlockStore, J: Judge>(
    volume: &mut Volume<S>,
    dbd: &Dbd,
    judge: &J,
    parent: u32,
    path: &mut Path,
) -> Result<bool, Refused>
    requires suits { J.suits judge.now dbd.now.types }
    requires of { IsOf dbd.now volume.old }
    requires there { MaySearch (J.admits judge.now dbd.now.types) dbd.now volume.old parent path.old }
    ensures read { IsRead volume.old result volume.new }
    ensures found { IfOk result (λ r. Finds (J.test judge.now dbd.now.types) (J.admits judge.now dbd.now.types) dbd.now volume.old parent path.old r path.new) }
    ensures refusal { OnlyDevice result }
{
    let most = volume.length();
    for count in 0..most {
        if path.addresses().is_empty() {
            return Ok(false);
        }
        let verdict = judge.judge(volume, dbd, path)?;
        if follow(volume, dbd, parent, verdict, path)? {
            return Ok(true);
        }
    }
    Ok(false)
}
