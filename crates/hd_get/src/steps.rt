ghost use Rattle.std.specs.Prelude.{◌≡◌, ◌+◌, ◌-◌, ◌<◌, ◌++◌, ◌∷◌, ℕ, [], ◌||◌, ◌==◌, Bool, true, false, cond, length, take, IfOk, OnOk, IsTrue};
ghost use Rattle.std.specs.List.{list_any};
ghost use Rattle.hd_dbd.specs.Paths.{end_of};
ghost use Rattle.hd_dbd.specs.Refusals.{OnlyDevice};
ghost use Rattle.hd_dbd.specs.Forest.{Forest};
ghost use Rattle.hd_volume.specs.Calls.{IsRead};
ghost use Rattle.hd_links.specs.Placed.{Placed};
ghost use Rattle.hd_links.specs.Steps.{rows_of};
ghost use Rattle.hd_get.specs.Searches.{IsOf, IsThere, IsPathOf, IsClimbed, GoesAcross, GoesDown, GoesToLast, GoesBeside, GoesBesideToLast, GoesTo, GoesPast, FollowsVerdict};

use crate::verdict::Verdict;
use hd_dbd::{Dbd, Refused};
use hd_forest::{Path, first_child, last_child, next_after_span, next_row, next_twin, tip_of};
use hd_stores::BlockStore;
use hd_volume::Volume;

/// Leaves a path that leads past the dependents of the row at an address; the address 0 stands above all rows.
pub(crate) fn stay_below(path: &mut Path, parent: u32)
    ensures { path.new ≡ cond (parent == 0 || list_any (λ a. a == parent) path.old) path.old [] }
{
    if parent != 0 && !path.addresses().contains(&parent) {
        path.clear();
    }
}

/// Goes from the last row of a path to its next twin, or, where it is the last twin, up to its parent; says which.
fn climb<S: BlockStore>(volume: &mut Volume<S>, dbd: &Dbd, path: &mut Path) -> Result<bool, Refused>
    requires of { IsOf dbd.now volume.old }
    requires there { IsThere dbd.now volume.old path.old }
    ensures read { IsRead volume.old result volume.new }
    ensures value { IfOk result (λ r. (f : Forest Placed) (i : ℕ) → IsPathOf dbd.now volume.old f path.old i → IsClimbed dbd.now.types f i r path.new) }
    ensures up { IfOk result (λ r. r ≡ false → path.new ≡ take (length path.old - 1) path.old) }
    ensures refusal { OnlyDevice result }
{
    let twin = next_twin(volume, dbd, tip_of(path))?;
    path.up();
    if twin == 0 {
        return Ok(false);
    }
    path.push(twin);
    Ok(true)
}

/// Goes across from the last row of a path: to the next twin of it, or of the lowest row above it that has one, below the row at
/// an address; to no row where none has.
fn across<S: BlockStore>(
    volume: &mut Volume<S>,
    dbd: &Dbd,
    parent: u32,
    path: &mut Path,
) -> Result<(), Refused>
    requires of { IsOf dbd.now volume.old }
    requires there { IsThere dbd.now volume.old path.old }
    ensures read { IsRead volume.old result volume.new }
    ensures value { OnOk result ((f : Forest Placed) (i : ℕ) → IsPathOf dbd.now volume.old f path.old i → GoesAcross dbd.now.types f parent i path.new) }
    ensures refusal { OnlyDevice result }
{
    while !path.addresses().is_empty() && tip_of(path) != parent {
        if climb(volume, dbd, path)? {
            return Ok(());
        }
    }
    path.clear();
    Ok(())
}

/// Goes from the last row of a path to a later twin, which is at an address.
fn across_to(path: &mut Path, address: u32)
    ensures { path.new ≡ take (length path.old - 1) path.old ++ address ∷ [] }
{
    path.up();
    path.push(address);
}

/// Goes down from the last row of a path to its first child of a type; where it has none, across.
fn down<S: BlockStore>(
    volume: &mut Volume<S>,
    dbd: &Dbd,
    parent: u32,
    code: u8,
    path: &mut Path,
) -> Result<(), Refused>
    requires of { IsOf dbd.now volume.old }
    requires there { IsThere dbd.now volume.old path.old }
    ensures read { IsRead volume.old result volume.new }
    ensures value { OnOk result ((f : Forest Placed) (i : ℕ) → IsPathOf dbd.now volume.old f path.old i → GoesDown dbd.now.types f parent i code path.new) }
    ensures refusal { OnlyDevice result }
{
    let child = first_child(volume, dbd, tip_of(path), code)?;
    if child == 0 {
        return across(volume, dbd, parent, path);
    }
    path.push(child);
    Ok(())
}

/// Goes down from the last row of a path to its last child of a type, which is kept; where it has none, across.
fn down_to_last<S: BlockStore>(
    volume: &mut Volume<S>,
    dbd: &Dbd,
    parent: u32,
    code: u8,
    path: &mut Path,
) -> Result<(), Refused>
    requires of { IsOf dbd.now volume.old }
    requires there { IsThere dbd.now volume.old path.old }
    ensures read { IsRead volume.old result volume.new }
    ensures value { OnOk result ((f : Forest Placed) (i : ℕ) → IsPathOf dbd.now volume.old f path.old i → GoesToLast dbd.now.types f parent i code path.new) }
    ensures refusal { OnlyDevice result }
{
    let child = last_child(volume, dbd, tip_of(path), code)?;
    if child == 0 {
        return across(volume, dbd, parent, path);
    }
    path.push(child);
    Ok(())
}

/// Goes from the last row of a path to the first child of its parent of a type; where that has none, across from the parent.
fn beside<S: BlockStore>(
    volume: &mut Volume<S>,
    dbd: &Dbd,
    parent: u32,
    code: u8,
    path: &mut Path,
) -> Result<(), Refused>
    requires of { IsOf dbd.now volume.old }
    requires there { IsThere dbd.now volume.old path.old }
    ensures read { IsRead volume.old result volume.new }
    ensures value { OnOk result ((f : Forest Placed) (i : ℕ) → IsPathOf dbd.now volume.old f path.old i → GoesBeside dbd.now.types f parent i code path.new) }
    ensures refusal { OnlyDevice result }
{
    path.up();
    if path.addresses().is_empty() {
        return Ok(());
    }
    down(volume, dbd, parent, code, path)
}

/// Goes from the last row of a path to the last child of its parent of a type, which is kept; where that has none, across from the
/// parent.
fn beside_to_last<S: BlockStore>(
    volume: &mut Volume<S>,
    dbd: &Dbd,
    parent: u32,
    code: u8,
    path: &mut Path,
) -> Result<(), Refused>
    requires of { IsOf dbd.now volume.old }
    requires there { IsThere dbd.now volume.old path.old }
    ensures read { IsRead volume.old result volume.new }
    ensures value { OnOk result ((f : Forest Placed) (i : ℕ) → IsPathOf dbd.now volume.old f path.old i → GoesBesideToLast dbd.now.types f parent i code path.new) }
    ensures refusal { OnlyDevice result }
{
    path.up();
    if path.addresses().is_empty() {
        return Ok(());
    }
    down_to_last(volume, dbd, parent, code, path)
}

/// Goes over the rest of the rows of the parent of a path's last row.
fn rest<S: BlockStore>(
    volume: &mut Volume<S>,
    dbd: &Dbd,
    parent: u32,
    path: &mut Path,
) -> Result<(), Refused>
    requires of { IsOf dbd.now volume.old }
    requires there { IsThere dbd.now volume.old path.old }
    ensures read { IsRead volume.old result volume.new }
    ensures value { OnOk result ((f : Forest Placed) (i : ℕ) → IsPathOf dbd.now volume.old f path.old i → GoesPast dbd.now.types f parent i path.new) }
    ensures refusal { OnlyDevice result }
{
    path.up();
    if path.addresses().is_empty() {
        return Ok(());
    }
    across(volume, dbd, parent, path)
}

/// Goes from the last row of a path to the next row, below the row at an address.
fn next<S: BlockStore>(
    volume: &mut Volume<S>,
    dbd: &Dbd,
    parent: u32,
    path: &mut Path,
) -> Result<(), Refused>
    requires of { IsOf dbd.now volume.old }
    requires there { IsThere dbd.now volume.old path.old }
    ensures read { IsRead volume.old result volume.new }
    ensures value { OnOk result ((f : Forest Placed) (i : ℕ) → IsPathOf dbd.now volume.old f path.old i → GoesTo dbd.now.types f parent i (i + 1) path.new) }
    ensures refusal { OnlyDevice result }
{
    next_row(volume, dbd, path)?;
    stay_below(path, parent);
    Ok(())
}

/// Goes over the span of the last row of a path, below the row at an address.
fn over<S: BlockStore>(
    volume: &mut Volume<S>,
    dbd: &Dbd,
    parent: u32,
    path: &mut Path,
) -> Result<(), Refused>
    requires of { IsOf dbd.now volume.old }
    requires there { IsThere dbd.now volume.old path.old }
    ensures read { IsRead volume.old result volume.new }
    ensures value { OnOk result ((f : Forest Placed) (i : ℕ) → IsPathOf dbd.now volume.old f path.old i → GoesTo dbd.now.types f parent i (end_of dbd.now.types (rows_of f) i) path.new) }
    ensures refusal { OnlyDevice result }
{
    next_after_span(volume, dbd, path)?;
    stay_below(path, parent);
    Ok(())
}

/// Goes where a verdict on the last row of a path says, below the row at an address; says whether the row is found.
pub fn follow<S: BlockStore>(
    volume: &mut Volume<S>,
    dbd: &Dbd,
    parent: u32,
    verdict: Verdict,
    path: &mut Path,
) -> Result<bool, Refused>
    requires of { IsOf dbd.now volume.old }
    requires there { IsThere dbd.now volume.old path.old }
    ensures read { IsRead volume.old result volume.new }
    ensures value { IfOk result (λ r. (f : Forest Placed) (i : ℕ) → IsPathOf dbd.now volume.old f path.old i → FollowsVerdict dbd.now.types f parent i verdict r path.new) }
    ensures refusal { OnlyDevice result }
{
    match verdict {
        Verdict::Found => return Ok(true),
        Verdict::Next => next(volume, dbd, parent, path)?,
        Verdict::Over => over(volume, dbd, parent, path)?,
        Verdict::Down(code) => down(volume, dbd, parent, code, path)?,
        Verdict::DownToLast(code) => down_to_last(volume, dbd, parent, code, path)?,
        Verdict::Across => across(volume, dbd, parent, path)?,
        Verdict::AcrossTo(address) => across_to(path, address),
        Verdict::Beside(code) => beside(volume, dbd, parent, code, path)?,
        Verdict::BesideToLast(code) => beside_to_last(volume, dbd, parent, code, path)?,
        Verdict::Rest => rest(volume, dbd, parent, path)?,
    }
    Ok(false)
}
