//! Phase 13: each root has an entry.
ghost use Rattle.std.specs.Prelude.{◌≡◌, ◌<◌, ℕ, List, length, IfOk, IfNone, IfSome};
ghost use Rattle.std.specs.List.Sorted.{IsPermutation, IsNonDecreasing};
ghost use Rattle.hd_dbd.specs.Refusals.{OnlyMemory};
ghost use Rattle.hd_volume.specs.Indexes.{IsAmong};
ghost use Rattle.hd_check_blocks.specs.Phases.{IsLeastOf};
ghost use Rattle.hd_check_blocks.specs.Listing.{AreStanding};
ghost use Rattle.hd_check_blocks.specs.Places.{PlacesAscend};
ghost use Rattle.hd_check_index.specs.Listed.{IsUnnamed};
ghost use Rattle.hd_check_index.specs.IndexPhases.{AreRootsAmong, IsFirstUnnamed, AllRootsNamed, OfNamedRoots};

use hd_check_blocks::{Fault, Place, list_fault};
use hd_dbd::Refused;
use hd_image::Line;
use std::alloc::Global;

/// Where an address stands among these, which are in order, if it is one of them. It is looked for at an index first.
fn index_of(named: &[u32], address: u32, near: usize) -> Option<usize>
    ensures some { IfSome result (λ i. i < length named.now) }
    ensures right { IsNonDecreasing named.now → IfSome result (λ _. IsAmong address named.now) }
    ensures wrong { IsNonDecreasing named.now → IfNone result (IsAmong address named.now → ⊥) }
{
    if near < named.len() && named[near] == address {
        return Some(near);
    }
    match named.binary_search(&address) {
        Ok(index) => Some(index),
        Err(_) => None,
    }
}

/// The first root whose address is none of these, which are in order.
fn unnamed_root(named: &[u32], places: &[Place]) -> Option<u32>
    ensures none { IsNonDecreasing named.now → IfNone result (AreRootsAmong places.now named.now) }
    ensures some { IsNonDecreasing named.now → PlacesAscend places.now → IfSome result (λ a. IsFirstUnnamed places.now named.now a) }
{
    let mut near = 0;
    for place in places {
        if place.code == 1 {
            match index_of(named, place.address, near) {
                Some(index) => near = index + 1,
                None => return Some(place.address),
            }
        }
    }
    None
}

/// The first root that no entry names.
pub fn unnamed_root_fault(named: &mut Vec<u32>, places: &[Place]) -> Option<Fault>
    ensures none { OfNamedRoots places.now named.old.items (λ d v. IfNone result (AllRootsNamed d v)) }
    ensures some { OfNamedRoots places.now named.old.items (λ d v. IfSome result (λ f. IsLeastOf d v 13 f)) }
{
    named.sort_unstable();
    match unnamed_root(named, places) {
        None => None,
        Some(address) => Some(Fault::at(Line::NoEntry, address, 0)),
    }
}

/// The fault of a place of a root whose address is none of these, which are in order. It is looked for at an index first; that behind it is
/// kept then.
fn root_fault(named: &[u32], place: Place, near: &mut usize) -> Option<Fault>
    ensures none { IsNonDecreasing named.now → IfNone result (place.code ≡ 1 → IsAmong place.address named.now) }
    ensures some { IsNonDecreasing named.now → IfSome result (λ f. IsUnnamed place named.now f) }
{
    if place.code != 1 {
        return None;
    }
    match index_of(named, place.address, *near) {
        Some(index) => {
            *near = index + 1;
            None
        }
        None => Some(Fault::at(Line::NoEntry, place.address, 0)),
    }
}

/// All roots whose addresses are none of these, which are in order.
fn root_faults(alloc: Global, named: &[u32], places: &[Place]) -> Result<Vec<Fault>, Refused>
    ensures faults { IsNonDecreasing named.now → (old : List ℕ) → OfNamedRoots places.now old (λ d v. IsPermutation old named.now → IfOk result (λ faults. AreStanding d v 13 faults.items)) }
    ensures refusal { OnlyMemory result }
{
    let mut faults = Vec::new(alloc);
    let mut near = 0;
    for place in places {
        list_fault(&mut faults, root_fault(named, *place, &mut near))?;
    }
    Ok(faults)
}

/// All roots that no entry names.
pub fn unnamed_root_faults(
    alloc: Global,
    named: &mut Vec<u32>,
    places: &[Place],
) -> Result<Vec<Fault>, Refused>
    ensures faults { OfNamedRoots places.now named.old.items (λ d v. IfOk result (λ faults. AreStanding d v 13 faults.items)) }
    ensures refusal { OnlyMemory result }
{
    named.sort_unstable();
    root_faults(alloc, named, places)
}
