ghost use Rattle.std.specs.Prelude.{◌≡◌, ◌<◌, true, IsTrue, IsFalse, IfOk, IfErr, IfSome, OnOk};
ghost use Rattle.hd_dbd.specs.Refusals.{OnlyDevice};
ghost use Rattle.hd_volume.specs.Calls.{IsRead};
ghost use Rattle.hd_links.specs.Links.{IsSegment};
ghost use Rattle.hd_links.specs.Steps.{behind_span};
ghost use Rattle.hd_image.specs.Records.{links_of, IsVolumeOf};
ghost use Rattle.hd_forest.specs.Walks.{AreSegments, HasForest, IsAhead, IsNextBy, IsTwinBy, OfFound, tip, moved, next_on, next_after_span_on};
ghost use Rattle.hd_forest.specs.Onward.{onward};
ghost use Rattle.hd_forest.specs.Children.{beside};

use crate::children::{below_later, child_in};
use crate::path::Path;
use crate::read::{code_at, code_in, last_of, parent_on, tip_of, twin_in};
use hd_dbd::{Dbd, Refused};
use hd_stores::BlockStore;
use hd_volume::Volume;

/// What a segment names ahead of it: the first row below it, its next twin, 0 for none each, and its code.
#[derive(Clone, Copy)]
pub struct Ahead {
    pub(crate) below: u32,
    pub(crate) twin: u32,
    pub(crate) code: u8,
}

/// Goes from the last row of a path to the row behind it, and from no path to the first root; behind the last row is none.
pub fn next_row<S: BlockStore>(
    volume: &mut Volume<S>,
    dbd: &Dbd,
    path: &mut Path,
) -> Result<(), Refused>
    requires of { IsTrue volume.old.is_sound → IsVolumeOf dbd.now volume.old }
    requires holds { IsTrue volume.old.is_sound → HasForest dbd.now volume.old }
    requires there { IsTrue volume.old.is_sound → AreSegments (links_of dbd.now.types volume.old) path.old }
    ensures read { IsRead volume.old result volume.new }
    ensures value { OnOk result (IsTrue volume.old.is_sound → path.new ≡ next_on dbd.now.types (links_of dbd.now.types volume.old) path.old) }
    ensures kept { IfErr result (λ _. path.new ≡ path.old) }
    ensures refusal { OnlyDevice result }
{
    let last = tip_of(path);
    if last == 0 {
        let root = volume.first_root();
        return step(volume, dbd, path, root);
    }
    let ahead = look_ahead(volume, dbd, last)?;
    // As in `go_on`: two callers keep the climb out of line, so the common step is short.
    if step_ahead(dbd, path, ahead) {
        return Ok(());
    }
    step_behind(volume, dbd, path, ahead.code)
}

/// Goes from the last row of a path, which names this ahead of it, to the row behind it; behind the last row is none.
pub fn go_on<S: BlockStore>(
    volume: &mut Volume<S>,
    dbd: &Dbd,
    path: &mut Path,
    ahead: Ahead,
) -> Result<(), Refused>
    requires of { IsTrue volume.old.is_sound → IsVolumeOf dbd.now volume.old }
    requires holds { IsTrue volume.old.is_sound → HasForest dbd.now volume.old }
    requires there { IsTrue volume.old.is_sound → AreSegments (links_of dbd.now.types volume.old) path.old }
    requires some { 0 < tip path.old }
    requires ahead { IsTrue volume.old.is_sound → IsAhead dbd.now.types (links_of dbd.now.types volume.old) (tip path.old) ahead }
    ensures read { IsRead volume.old result volume.new }
    ensures value { OnOk result (IsTrue volume.old.is_sound → path.new ≡ next_on dbd.now.types (links_of dbd.now.types volume.old) path.old) }
    ensures kept { IfErr result (λ _. path.new ≡ path.old) }
    ensures refusal { OnlyDevice result }
{
    // As in `next_row`: two callers keep the climb out of line, so the common step is short.
    if step_ahead(dbd, path, ahead) {
        return Ok(());
    }
    step_behind(volume, dbd, path, ahead.code)
}

/// The address of the next twin of the last row of a path, where this has no row below it, and the code of their type; `None` where it has rows below it or
/// no next twin. One segment is read.
pub fn twin_behind<S: BlockStore>(
    volume: &mut Volume<S>,
    dbd: &Dbd,
    path: &Path,
) -> Result<Option<(u32, u8)>, Refused>
    requires of { IsTrue volume.old.is_sound → IsVolumeOf dbd.now volume.old }
    requires holds { IsTrue volume.old.is_sound → HasForest dbd.now volume.old }
    requires there { IsTrue volume.old.is_sound → AreSegments (links_of dbd.now.types volume.old) path.now }
    ensures read { IsRead volume.old result volume.new }
    ensures next { IfOk result (λ o. IfSome o (λ r. IsTrue volume.old.is_sound → onward dbd.now.types path.now r.0 r.1 ≡ next_on dbd.now.types (links_of dbd.now.types volume.old) path.now)) }
    ensures code { IfOk result (λ o. IfSome o (λ r. IsTrue volume.old.is_sound → r.1 ≡ (links_of dbd.now.types volume.old).code r.0)) }
    ensures refusal { OnlyDevice result }
{
    let last = tip_of(path);
    if last == 0 {
        return Ok(None);
    }
    let ahead = look_ahead(volume, dbd, last)?;
    Ok(twin_ahead(ahead))
}

/// The next twin of a row that names this ahead of it, where it has no row below it, and the code of their type; `None` where it has rows below it or no
/// next twin.
pub fn twin_ahead(ahead: Ahead) -> Option<(u32, u8)>
    ensures { IfSome result (λ r. IsTwinBy ahead r.0 r.1) }
{
    if ahead.below != 0 || ahead.twin == 0 {
        return None;
    }
    Some((ahead.twin, ahead.code))
}

/// Goes from the last row of a path, which names this ahead of it, to the first row below it or else to its next twin, and says
/// whether there is such a row.
fn step_ahead(dbd: &Dbd, path: &mut Path, ahead: Ahead) -> bool
    ensures next { IsTrue result → IsNextBy dbd.now ahead path.old path.new }
    ensures none { IsFalse result → (path.new ≡ path.old) × (ahead.below ≡ 0) × (ahead.twin ≡ 0) }
{
    let level = dbd.level(ahead.code);
    if ahead.below != 0 {
        path.step_below(level, ahead.below);
        return true;
    }
    if ahead.twin != 0 {
        path.step(level, ahead.twin);
        return true;
    }
    false
}

/// Goes from the last row of a path, which is of this type and has no row below it and no next twin, to the row behind it; behind the
/// last row is none.
fn step_behind<S: BlockStore>(
    volume: &mut Volume<S>,
    dbd: &Dbd,
    path: &mut Path,
    code: u8,
) -> Result<(), Refused>
    requires of { IsTrue volume.old.is_sound → IsVolumeOf dbd.now volume.old }
    requires holds { IsTrue volume.old.is_sound → HasForest dbd.now volume.old }
    requires there { IsTrue volume.old.is_sound → AreSegments (links_of dbd.now.types volume.old) path.old }
    requires some { 0 < tip path.old }
    requires last { IsTrue volume.old.is_sound → IsAhead dbd.now.types (links_of dbd.now.types volume.old) (tip path.old) (record { below = 0; twin = 0; code = code }) }
    ensures read { IsRead volume.old result volume.new }
    ensures value { OnOk result (IsTrue volume.old.is_sound → path.new ≡ next_on dbd.now.types (links_of dbd.now.types volume.old) path.old) }
    ensures kept { IfErr result (λ _. path.new ≡ path.old) }
    ensures refusal { OnlyDevice result }
{
    let address = behind_twins(volume, dbd, path, code)?;
    step(volume, dbd, path, address)
}

/// Goes from the last row of a path to the row behind its span; behind the last there is none.
pub fn next_after_span<S: BlockStore>(
    volume: &mut Volume<S>,
    dbd: &Dbd,
    path: &mut Path,
) -> Result<(), Refused>
    requires of { IsTrue volume.old.is_sound → IsVolumeOf dbd.now volume.old }
    requires holds { IsTrue volume.old.is_sound → HasForest dbd.now volume.old }
    requires there { IsTrue volume.old.is_sound → AreSegments (links_of dbd.now.types volume.old) path.old }
    ensures read { IsRead volume.old result volume.new }
    ensures value { OnOk result (IsTrue volume.old.is_sound → path.new ≡ next_after_span_on dbd.now.types (links_of dbd.now.types volume.old) path.old) }
    ensures kept { IfErr result (λ _. path.new ≡ path.old) }
    ensures refusal { OnlyDevice result }
{
    let address = behind(volume, dbd, path.addresses())?;
    step(volume, dbd, path, address)
}

/// Goes to the row at an address just behind what a path leads to, or to none for the address 0.
fn step<S: BlockStore>(
    volume: &mut Volume<S>,
    dbd: &Dbd,
    path: &mut Path,
    address: u32,
) -> Result<(), Refused>
    requires of { IsTrue volume.old.is_sound → IsVolumeOf dbd.now volume.old }
    requires there { IsTrue volume.old.is_sound → 0 < address → IsSegment (links_of dbd.now.types volume.old) address }
    ensures read { IsRead volume.old result volume.new }
    ensures value { OnOk result (IsTrue volume.old.is_sound → path.new ≡ moved dbd.now.types (links_of dbd.now.types volume.old) path.old address) }
    ensures kept { IfErr result (λ _. path.new ≡ path.old) }
    ensures refusal { OnlyDevice result }
{
    if address == 0 {
        path.clear();
        return Ok(());
    }
    let code = code_at(volume, dbd, address)?;
    path.step(dbd.level(code), address);
    Ok(())
}

/// What the segment at an address names ahead of it. One segment is read.
pub fn look_ahead<S: BlockStore>(
    volume: &mut Volume<S>,
    dbd: &Dbd,
    address: u32,
) -> Result<Ahead, Refused>
    requires of { IsTrue volume.old.is_sound → IsVolumeOf dbd.now volume.old }
    requires there { IsTrue volume.old.is_sound → IsSegment (links_of dbd.now.types volume.old) address }
    ensures read { IsRead volume.old result volume.new }
    ensures ahead { IfOk result (λ r. IsTrue volume.old.is_sound → IsAhead dbd.now.types (links_of dbd.now.types volume.old) address r) }
    ensures refusal { OnlyDevice result }
{
    let segment = volume.segment_at(address)?;
    Ok(ahead_of(dbd, segment))
}

/// What a stored segment names ahead of it. Nothing is read.
pub fn ahead_of(dbd: &Dbd, segment: &[u8]) -> Ahead
    ensures { OfFound dbd.now segment.now (λ m a. IsAhead dbd.now.types m a result) }
{
    let code = code_in(segment);
    Ahead {
        below: child_in(dbd, segment, dbd.children_of(code)),
        twin: twin_in(segment),
        code,
    }
}

/// The address of the row behind the span of the last row of a path, which is of this type and has no next twin, 0 for none: the
/// first row of a later type below its parent, else the row behind the parent's span; behind a root's there is none.
fn behind_twins<S: BlockStore>(
    volume: &mut Volume<S>,
    dbd: &Dbd,
    path: &Path,
    code: u8,
) -> Result<u32, Refused>
    requires of { IsTrue volume.old.is_sound → IsVolumeOf dbd.now volume.old }
    requires there { IsTrue volume.old.is_sound → AreSegments (links_of dbd.now.types volume.old) path.now }
    requires some { 0 < tip path.now }
    requires last { IsTrue volume.old.is_sound → code ≡ (links_of dbd.now.types volume.old).code (tip path.now) }
    requires twin { IsTrue volume.old.is_sound → (links_of dbd.now.types volume.old).forward (tip path.now) ≡ 0 }
    ensures read { IsRead volume.old result volume.new }
    ensures value { IfOk result (λ r. IsTrue volume.old.is_sound → r ≡ behind_span dbd.now.types (links_of dbd.now.types volume.old) path.now) }
    ensures refusal { OnlyDevice result }
{
    let parent = parent_on(path);
    if parent == 0 {
        return Ok(0);
    }
    let later = below_later(volume, dbd, parent, code)?;
    if later != 0 {
        return Ok(later);
    }
    let addresses = path.addresses();
    behind(volume, dbd, &addresses[..addresses.len().saturating_sub(1)])
}

/// The address of the row behind the span of the last of a path's addresses, 0 for none: from the last upward the first that has
/// something beside it.
fn behind<S: BlockStore>(
    volume: &mut Volume<S>,
    dbd: &Dbd,
    addresses: &[u32],
) -> Result<u32, Refused>
    requires of { IsTrue volume.old.is_sound → IsVolumeOf dbd.now volume.old }
    requires there { IsTrue volume.old.is_sound → AreSegments (links_of dbd.now.types volume.old) addresses.now }
    ensures read { IsRead volume.old result volume.new }
    ensures value { IfOk result (λ r. IsTrue volume.old.is_sound → r ≡ behind_span dbd.now.types (links_of dbd.now.types volume.old) addresses.now) }
    ensures refusal { OnlyDevice result }
{
    let mut level = addresses.len();
    while level > 0 {
        level -= 1;
        let parent = last_of(&addresses[..level]);
        let address = beside(volume, dbd, parent, addresses[level])?;
        if address != 0 {
            return Ok(address);
        }
    }
    Ok(0)
}

/// What stands behind a row as far as its twins and its parent tell, 0 for none: its next twin, or the first child of its
/// parent of a later type.
pub fn beside<S: BlockStore>(
    volume: &mut Volume<S>,
    dbd: &Dbd,
    parent: u32,
    address: u32,
) -> Result<u32, Refused>
    requires of { IsTrue volume.old.is_sound → IsVolumeOf dbd.now volume.old }
    requires there { IsTrue volume.old.is_sound → IsSegment (links_of dbd.now.types volume.old) address }
    requires above { IsTrue volume.old.is_sound → (links_of dbd.now.types volume.old).here parent ≡ true }
    ensures read { IsRead volume.old result volume.new }
    ensures value { IfOk result (λ r. IsTrue volume.old.is_sound → r ≡ beside dbd.now.types (links_of dbd.now.types volume.old) parent address) }
    ensures refusal { OnlyDevice result }
{
    let (twin, code) = twin_and_code(volume, dbd, address)?;
    if twin != 0 || parent == 0 {
        return Ok(twin);
    }
    below_later(volume, dbd, parent, code)
}

/// The next twin of the segment at an address, 0 for none, and its code. One segment is read.
fn twin_and_code<S: BlockStore>(
    volume: &mut Volume<S>,
    dbd: &Dbd,
    address: u32,
) -> Result<(u32, u8), Refused>
    requires of { IsTrue volume.old.is_sound → IsVolumeOf dbd.now volume.old }
    requires there { IsTrue volume.old.is_sound → IsSegment (links_of dbd.now.types volume.old) address }
    ensures read { IsRead volume.old result volume.new }
    ensures twin { IfOk result (λ r. IsTrue volume.old.is_sound → r.0 ≡ (links_of dbd.now.types volume.old).forward address) }
    ensures code { IfOk result (λ r. IsTrue volume.old.is_sound → r.1 ≡ (links_of dbd.now.types volume.old).code address) }
    ensures refusal { OnlyDevice result }
{
    let segment = volume.segment_at(address)?;
    Ok((twin_in(segment), code_in(segment)))
}
