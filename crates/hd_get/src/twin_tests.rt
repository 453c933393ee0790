ghost use Rattle.std.specs.Prelude.{◌≡◌, IfOk};
ghost use Rattle.hd_dbd.specs.Refusals.{OnlyDevice};
ghost use Rattle.hd_volume.specs.Calls.{IsRead};
ghost use Rattle.hd_get.specs.Meeting.{IsStored, Qualifies, IsLastTwin, IsLastSo, Meets};
ghost use Rattle.hd_get.specs.Searches.{IsOf, IsThere};

use hd_dbd::{Dbd, Refused};
use hd_forest::{Path, bytes_in, next_twin, tip_of};
use hd_ssa::ResolvedSsa;
use hd_stores::BlockStore;
use hd_volume::Volume;

/// Whether the row at an address has the qualification of an SSA. One access.
fn qualifies<S: BlockStore>(
    volume: &mut Volume<S>,
    dbd: &Dbd,
    ssa: &ResolvedSsa<'_>,
    address: u32,
) -> Result<bool, Refused>
    requires of { IsOf dbd.now volume.old }
    requires there { IsStored dbd.now volume.old address }
    ensures read { IsRead volume.old result volume.new }
    ensures value { IfOk result (λ r. Qualifies dbd.now volume.old ssa.now address r) }
    ensures refusal { OnlyDevice result }
{
    let segment = volume.segment_at(address)?;
    Ok(ssa.holds(bytes_in(dbd, segment)))
}

/// Whether the last row of a path is the last of its twins. One access.
pub fn is_last_twin<S: BlockStore>(
    volume: &mut Volume<S>,
    dbd: &Dbd,
    path: &Path,
) -> Result<bool, Refused>
    requires of { IsOf dbd.now volume.old }
    requires there { IsThere dbd.now volume.old path.now }
    ensures read { IsRead volume.old result volume.new }
    ensures value { IfOk result (λ r. IsLastTwin dbd.now volume.old path.now r) }
    ensures refusal { OnlyDevice result }
{
    Ok(next_twin(volume, dbd, tip_of(path))? == 0)
}

/// Whether no later twin of the last row of a path has the qualification of an SSA. The twins are read up to the first that has it.
fn later_twins_fail<S: BlockStore>(
    volume: &mut Volume<S>,
    dbd: &Dbd,
    ssa: &ResolvedSsa<'_>,
    path: &Path,
) -> Result<bool, Refused>
    requires of { IsOf dbd.now volume.old }
    requires there { IsThere dbd.now volume.old path.now }
    ensures read { IsRead volume.old result volume.new }
    ensures value { IfOk result (λ r. IsLastSo dbd.now volume.old ssa.now path.now r) }
    ensures refusal { OnlyDevice result }
{
    let most = volume.length();
    let mut twin = next_twin(volume, dbd, tip_of(path))?;
    for count in 0..most {
        if twin == 0 {
            return Ok(true);
        }
        if qualifies(volume, dbd, ssa, twin)? {
            return Ok(false);
        }
        twin = next_twin(volume, dbd, twin)?;
    }
    Ok(true)
}

/// Whether no later twin of the last row of a path has the qualification of an SSA. Where there is none, no later twin is read.
fn is_last_so<S: BlockStore>(
    volume: &mut Volume<S>,
    dbd: &Dbd,
    ssa: &ResolvedSsa<'_>,
    path: &Path,
) -> Result<bool, Refused>
    requires of { IsOf dbd.now volume.old }
    requires there { IsThere dbd.now volume.old path.now }
    ensures read { IsRead volume.old result volume.new }
    ensures value { IfOk result (λ r. IsLastSo dbd.now volume.old ssa.now path.now r) }
    ensures refusal { OnlyDevice result }
{
    if ssa.is_qualified() {
        later_twins_fail(volume, dbd, ssa, path)
    } else {
        is_last_twin(volume, dbd, path)
    }
}

/// Whether the last row of a path, of an SSA's type, has its qualification, and is the last so where the SSA has L and is not the
/// root's.
pub(crate) fn meets<S: BlockStore>(
    volume: &mut Volume<S>,
    dbd: &Dbd,
    ssa: &ResolvedSsa<'_>,
    path: &Path,
) -> Result<bool, Refused>
    requires of { IsOf dbd.now volume.old }
    requires there { IsThere dbd.now volume.old path.now }
    ensures read { IsRead volume.old result volume.new }
    ensures value { IfOk result (λ r. Meets dbd.now volume.old ssa.now path.now r) }
    ensures refusal { OnlyDevice result }
{
    if !qualifies(volume, dbd, ssa, tip_of(path))? {
        return Ok(false);
    }
    if !ssa.commands().last || ssa.code() == 1 {
        return Ok(true);
    }
    is_last_so(volume, dbd, ssa, path)
}
