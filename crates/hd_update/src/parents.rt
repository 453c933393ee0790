ghost use Rattle.std.specs.Prelude.{◌≡◌, None, IfOk};
ghost use Rattle.std.specs.List.{list_all};
ghost use Rattle.hd_dbd.specs.Refusals.{OnlyDevice};
ghost use Rattle.hd_volume.specs.Calls.{IsRead};
ghost use Rattle.hd_calls.specs.Places.{is_plain};
ghost use Rattle.hd_calls.specs.Admits.{Descend};
ghost use Rattle.hd_get.specs.Gets.{HasPosition};
ghost use Rattle.hd_update.specs.Parents.{IsStandingParent, IsInsertParent};

use hd_dbd::{Dbd, Refused};
use hd_forest::Path;
use hd_get::{first_named, type_path};
use hd_position::Position;
use hd_ssa::ResolvedSsa;
use hd_stores::BlockStore;
use hd_volume::Volume;

/// Whether an argument names no more than a type: it has neither a qualification nor L.
fn is_plain(ssa: &ResolvedSsa<'_>) -> bool
    ensures { result ≡ is_plain ssa.now }
{
    !ssa.is_qualified() && !ssa.commands().last
}

/// Whether each of some arguments names no more than a type; so it is without arguments.
fn are_plain(ssas: &[ResolvedSsa<'_>]) -> bool
    ensures { result ≡ list_all is_plain ssas.now }
{
    ssas.iter().all(|ssa| is_plain(ssa))
}

/// The path of the row of the parent's type on the path where the PCB stands, if there is one and the arguments above leave it to that:
/// they name no more than types, or there are none. One access at most.
fn standing_parent<S: BlockStore>(
    volume: &mut Volume<S>,
    dbd: &Dbd,
    above: &[ResolvedSsa<'_>],
    position: &Position,
    code: u8,
) -> Result<Option<Path>, Refused>
    requires there { HasPosition dbd.now volume.old position.now }
    ensures read { IsRead volume.old result volume.new }
    ensures value { IfOk result (λ path. IsStandingParent dbd.now volume.old above.now code position.now path) }
    ensures refusal { OnlyDevice result }
{
    if !are_plain(above) {
        return Ok(None);
    }
    type_path(volume, dbd, code, position)
}

/// The path of the parent of a row that ISRT puts in below a row of the parent's type, if there is one: where the arguments above name
/// no more than types, or there are none, the row of that type on the path where the PCB stands, if there is one; else the first that
/// the arguments name. For the first one row is read, for the second what a GU with these arguments reads.
pub fn insert_parent<S: BlockStore>(
    volume: &mut Volume<S>,
    dbd: &Dbd,
    above: &[ResolvedSsa<'_>],
    position: &Position,
    code: u8,
) -> Result<Option<Path>, Refused>
    requires descend { Descend dbd.now.types None above.now }
    requires there { HasPosition dbd.now volume.old position.now }
    ensures read { IsRead volume.old result volume.new }
    ensures value { IfOk result (λ path. IsInsertParent dbd.now volume.old above.now code position.now path) }
    ensures refusal { OnlyDevice result }
{
    match standing_parent(volume, dbd, above, position, code)? {
        Some(path) => Ok(Some(path)),
        None => first_named(volume, dbd, above),
    }
}
