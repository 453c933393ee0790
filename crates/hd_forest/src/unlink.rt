ghost use Rattle.std.specs.Prelude.{◌≡◌, ◌<◌, length, IsTrue, IfOk, OnOk};
ghost use Rattle.hd_dbd.specs.Refusals.{OnlyDevice};
ghost use Rattle.hd_volume.specs.Calls.{IsCall, IsRead};
ghost use Rattle.hd_links.specs.Links.{IsSegment};
ghost use Rattle.hd_links.specs.Steps.{LeadsDown};
ghost use Rattle.hd_image.specs.Records.{links_of, IsVolumeOf};
ghost use Rattle.hd_image.specs.Pointing.{without_record};
ghost use Rattle.hd_forest.specs.Walks.{AreSegments, HasForest, IsAhead, tip};
ghost use Rattle.hd_forest.specs.Sets.{IsRecorded};
ghost use Rattle.hd_forest.specs.Spans.{HasSpan, below_on, beside_on, freed_last, freed_on, IsStep, freeing, IsFreedSpan};
ghost use Rattle.hd_forest.specs.Updates.{IsUnlinked};

use crate::children::below_later;
use crate::path::Path;
use crate::read::{code_at, next_twin, parent_on, prev_twin, tip_of};
use crate::walk::{Ahead, look_ahead};
use crate::write::{set_following, set_preceding};
use hd_dbd::{Dbd, Refused};
use hd_stores::BlockStore;
use hd_volume::Volume;

/// Unlinks the last row of a path, and frees it and all below it, however many.
pub fn unlink_span<S: BlockStore>(
    volume: &mut Volume<S>,
    dbd: &Dbd,
    path: &Path,
) -> Result<(), Refused>
    requires of { IsTrue volume.old.is_sound → IsVolumeOf dbd.now volume.old }
    requires holds { IsTrue volume.old.is_sound → HasForest dbd.now volume.old }
    requires there { IsTrue volume.old.is_sound → (0 < length path.now) × LeadsDown dbd.now.types (links_of dbd.now.types volume.old) 0 path.now }
    ensures call { IsCall volume.old result volume.new }
    ensures unlinked { OnOk result (IsTrue volume.old.is_sound → IsUnlinked dbd.now volume.old path.now volume.new) }
    ensures refusal { OnlyDevice result }
    ensures room { volume.new.room ≡ volume.old.room }
{
    let (parent, address) = (parent_on(path), tip_of(path));
    let before = prev_twin(volume, dbd, path)?;
    let code = code_at(volume, dbd, address)?;
    let behind = next_twin(volume, dbd, address)?;
    set_following(volume, dbd, parent, before, code, behind)?;
    set_preceding(volume, dbd, parent, behind, code, before)?;
    free_span(volume, dbd, address)
}

/// Frees a segment and all below it, each behind those that depend on it, without a stack that grows.
fn free_span<S: BlockStore>(volume: &mut Volume<S>, dbd: &Dbd, address: u32) -> Result<(), Refused>
    requires of { IsTrue volume.old.is_sound → IsVolumeOf dbd.now volume.old }
    requires there { IsTrue volume.old.is_sound → HasSpan dbd.now.types (links_of dbd.now.types volume.old) address }
    ensures call { IsCall volume.old result volume.new }
    ensures freed { OnOk result (IsTrue volume.old.is_sound → IsFreedSpan dbd.now volume.old address volume.new) }
    ensures refusal { OnlyDevice result }
    ensures room { volume.new.room ≡ volume.old.room }
{
    let mut path = Path::new();
    path.push(address);
    let mut down = true;
    let most = volume.length().saturating_mul(2);
    for _ in 0..most {
        if path.addresses().is_empty() {
            return Ok(());
        }
        down = free_next(volume, dbd, &mut path, down)?;
    }
    Ok(())
}

/// The next step of freeing a span along a path: down to the first row below the last, where what is below it is still to be
/// freed; else its last row is freed. Says whether what is below the last row of the new path is still to be freed.
fn free_next<S: BlockStore>(
    volume: &mut Volume<S>,
    dbd: &Dbd,
    path: &mut Path,
    down: bool,
) -> Result<bool, Refused>
    requires of { IsTrue volume.old.is_sound → IsVolumeOf dbd.now volume.old }
    requires there { IsTrue volume.old.is_sound → AreSegments (links_of dbd.now.types volume.old) path.old }
    requires some { IsTrue volume.old.is_sound → 0 < length path.old }
    requires deep { IsTrue volume.old.is_sound → IsTrue down → 0 < below_on dbd.now.types (links_of dbd.now.types volume.old) path.old → length path.old < 15 }
    ensures call { IsCall volume.old result volume.new }
    ensures freed { IfOk result (λ r. IsTrue volume.old.is_sound → IsStep dbd.now volume.old (freed_on dbd.now.types (freeing dbd.now volume.old path.old down)) path.new r volume.new) }
    ensures refusal { OnlyDevice result }
    ensures room { volume.new.room ≡ volume.old.room }
{
    let ahead = look_ahead(volume, dbd, tip_of(path))?;
    if down && ahead.below != 0 {
        path.push(ahead.below);
        return Ok(true);
    }
    free_last(volume, dbd, path, ahead)
}

/// Frees the segment of the last row of a path, which names this ahead of it, and goes to what stands beside it, or else to its parent. Says
/// whether something stands beside it.
fn free_last<S: BlockStore>(
    volume: &mut Volume<S>,
    dbd: &Dbd,
    path: &mut Path,
    ahead: Ahead,
) -> Result<bool, Refused>
    requires of { IsTrue volume.old.is_sound → IsVolumeOf dbd.now volume.old }
    requires there { IsTrue volume.old.is_sound → AreSegments (links_of dbd.now.types volume.old) path.old }
    requires some { IsTrue volume.old.is_sound → 0 < length path.old }
    requires ahead { IsTrue volume.old.is_sound → IsAhead dbd.now.types (links_of dbd.now.types volume.old) (tip path.old) ahead }
    ensures call { IsCall volume.old result volume.new }
    ensures freed { IfOk result (λ r. IsTrue volume.old.is_sound → IsStep dbd.now volume.old (freed_last dbd.now.types (freeing dbd.now volume.old path.old r)) path.new r volume.new) }
    ensures refusal { OnlyDevice result }
    ensures room { volume.new.room ≡ volume.old.room }
{
    let next = beside_last(volume, dbd, path, ahead)?;
    free_record(volume, dbd, tip_of(path))?;
    path.up();
    if next == 0 {
        return Ok(false);
    }
    path.push(next);
    Ok(true)
}

/// What stands beside the last row of a path, which names this ahead of it, as far as its twins and its parent on the path tell, 0 for none; 0 for the
/// first row of the path. The parent is read where there is no next twin.
fn beside_last<S: BlockStore>(
    volume: &mut Volume<S>,
    dbd: &Dbd,
    path: &Path,
    ahead: Ahead,
) -> Result<u32, Refused>
    requires of { IsTrue volume.old.is_sound → IsVolumeOf dbd.now volume.old }
    requires there { IsTrue volume.old.is_sound → AreSegments (links_of dbd.now.types volume.old) path.now }
    requires ahead { IsTrue volume.old.is_sound → IsAhead dbd.now.types (links_of dbd.now.types volume.old) (tip path.now) ahead }
    ensures read { IsRead volume.old result volume.new }
    ensures value { IfOk result (λ r. IsTrue volume.old.is_sound → r ≡ beside_on dbd.now.types (links_of dbd.now.types volume.old) path.now) }
    ensures refusal { OnlyDevice result }
{
    let parent = parent_on(path);
    if parent == 0 {
        return Ok(0);
    }
    if ahead.twin != 0 {
        return Ok(ahead.twin);
    }
    below_later(volume, dbd, parent, ahead.code)
}

/// Frees a segment: the records are without it.
fn free_record<S: BlockStore>(
    volume: &mut Volume<S>,
    dbd: &Dbd,
    address: u32,
) -> Result<(), Refused>
    requires of { IsTrue volume.old.is_sound → IsVolumeOf dbd.now volume.old }
    requires there { IsTrue volume.old.is_sound → IsSegment (links_of dbd.now.types volume.old) address }
    ensures call { IsCall volume.old result volume.new }
    ensures freed { OnOk result (IsTrue volume.old.is_sound → IsRecorded dbd.now volume.old (without_record (links_of dbd.now.types volume.old) address) volume.new) }
    ensures refusal { OnlyDevice result }
    ensures room { volume.new.room ≡ volume.old.room }
{
    volume.free(address)
}
