ghost use Rattle.std.specs.Prelude.{None, IfOk};
ghost use Rattle.hd_dbd.specs.Refusals.{OnlyDevice};
ghost use Rattle.hd_volume.specs.Calls.{IsRead};
ghost use Rattle.hd_calls.specs.Admits.{Descend};
ghost use Rattle.hd_get.specs.Searches.{IsOf};
ghost use Rattle.hd_get.specs.Starts.{HasRoots};
ghost use Rattle.hd_get.specs.Found.{IsFirstNamed};

use crate::by_key::unique_by_key;
use crate::named::Named;
use crate::searches::search;
use hd_dbd::{Dbd, Refused};
use hd_forest::Path;
use hd_ssa::ResolvedSsa;
use hd_stores::BlockStore;
use hd_volume::Volume;

/// The path of the first row that arguments name, as by GU, whether a PCB may read it or not; `None` where there is none, and without
/// arguments. What is read is what a GU with these arguments reads: by the root's key a block of each level of the index and the root
/// found there, and below it the twins of each type on the way, up to the first that has the key that is asked for, or whose key is past it. The last
/// row of the path may be unread, where it is the last twin and parents keep that.
pub fn first_named<S: BlockStore>(
    volume: &mut Volume<S>,
    dbd: &Dbd,
    ssas: &[ResolvedSsa<'_>],
) -> Result<Option<Path>, Refused>
    requires descend { Descend dbd.now.types None ssas.now }
    requires of { IsOf dbd.now volume.old }
    requires holds { HasRoots dbd.now volume.old }
    ensures read { IsRead volume.old result volume.new }
    ensures value { IfOk result (λ path. IsFirstNamed dbd.now volume.old ssas.now path) }
    ensures refusal { OnlyDevice result }
{
    if ssas.is_empty() {
        return Ok(None);
    }
    let (mut path, is_named) = unique_by_key(volume, dbd, ssas)?;
    if is_named {
        return Ok(Some(path));
    }
    if !search(volume, dbd, &Named { pcb: None, ssas }, 0, &mut path)? {
        return Ok(None);
    }
    Ok(Some(path))
}
