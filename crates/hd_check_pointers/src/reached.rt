//! Phase 7: each segment is reached from the header.
ghost use Rattle.std.specs.Prelude.{◌≡◌, ◌<◌, ◌-◌, ℕ, length, slice_index, true, false, IfOk, IfNone, IfSome};
ghost use Rattle.hd_dbd.specs.Refusals.{OnlyMemory};
ghost use Rattle.hd_dbd.specs.Hierarchy.{Database};
ghost use Rattle.hd_volume.specs.Volumes.{VolumeState};
ghost use Rattle.hd_links.specs.Links.{IsSegment};
ghost use Rattle.hd_links.specs.Pointers.{IsReached};
ghost use Rattle.hd_image.specs.Records.{links_of};
ghost use Rattle.hd_check_blocks.specs.Phases.{IsLeastOf};
ghost use Rattle.hd_check_pointers.specs.Tables.{place_at};
ghost use Rattle.hd_check_blocks.specs.Listing.{AreStanding};
ghost use Rattle.hd_check_pointers.specs.Matched.{IfOwned};
ghost use Rattle.hd_check_pointers.specs.Listed.{TellsReached, unreached};

use crate::owners::NOBODY;
use hd_check_blocks::{Directory, Fault, Place, list_fault, number_near};
use hd_dbd::Refused;
use hd_image::Line;
use std::alloc::Global;

/// The owner of the chain in which the segment of a number is.
fn owner_of(owners: &[u32], number: usize) -> u32
    ensures { number < length owners.now → result ≡ slice_index owners.now number }
{
    owners.get(number).copied().unwrap_or(NOBODY)
}

/// Whether the segment of a number has the owner of the one before it.
fn is_owned_as_before(owners: &[u32], number: usize) -> bool
    ensures { result ≡ true → number < length owners.now → (0 < number) × (slice_index owners.now number ≡ slice_index owners.now (number - 1)) }
{
    number > 0 && owner_of(owners, number) == owner_of(owners, number - 1)
}

/// Whether the segment of a number is reached from the header, from owner to owner.
fn is_reached(places: &[Place], directory: &Directory, owners: &[u32], first: usize) -> bool
    requires { first < length places.now }
    ensures right { (d : Database) (v : VolumeState) → IfOwned d v places.now owners.now (result ≡ true → (n : ℕ) × IsReached d.types (links_of d.types v) n (place_at places.now first).address) }
    ensures wrong { (d : Database) (v : VolumeState) → IfOwned d v places.now owners.now (result ≡ false → (n : ℕ) → IsReached d.types (links_of d.types v) n (place_at places.now first).address → ⊥) }
{
    let mut number = first;
    for _step in 0..256usize {
        let owner = owner_of(owners, number);
        if owner == 0 {
            return true;
        }
        match number_near(places, directory, owner, number.saturating_sub(1)) {
            None => return false,
            Some(above) => number = above,
        }
    }
    false
}

/// Whether the segment of a number is reached from the header, where it is known whether the one before it is.
fn is_reached_behind(
    places: &[Place],
    directory: &Directory,
    owners: &[u32],
    number: usize,
    before: bool,
) -> bool
    requires { number < length places.now }
    ensures { (d : Database) (v : VolumeState) → IfOwned d v places.now owners.now ((0 < number → TellsReached d v places.now (number - 1) before) → TellsReached d v places.now number result) }
{
    if is_owned_as_before(owners, number) {
        return before;
    }
    is_reached(places, directory, owners, number)
}

/// The fault of the segment at an address, unless it is reached.
fn unreached(address: u32, is_reached: bool) -> Option<Fault>
    ensures { result ≡ unreached address is_reached }
{
    if is_reached {
        return None;
    }
    Some(Fault::at(Line::NotReached, address, 0))
}

/// All segments that are not reached from the header.
pub fn reached_faults(
    alloc: Global,
    places: &[Place],
    directory: &Directory,
    owners: &[u32],
) -> Result<Vec<Fault>, Refused>
    ensures faults { (d : Database) (v : VolumeState) → IfOwned d v places.now owners.now (IfOk result (λ faults. AreStanding d v 7 faults.items)) }
    ensures refusal { OnlyMemory result }
{
    let mut faults = Vec::new(alloc);
    let mut is_found = true;
    for number in 0..places.len() {
        is_found = is_reached_behind(places, directory, owners, number, is_found);
        list_fault(&mut faults, unreached(places[number].address, is_found))?;
    }
    Ok(faults)
}

/// The first segment that is not reached from the header.
pub fn reached_fault(places: &[Place], directory: &Directory, owners: &[u32]) -> Option<Fault>
    ensures none { (d : Database) (v : VolumeState) → let m = links_of d.types v in IfOwned d v places.now owners.now (IfNone result ((a : ℕ) → IsSegment m a → (n : ℕ) × IsReached d.types m n a)) }
    ensures some { (d : Database) (v : VolumeState) → IfOwned d v places.now owners.now (IfSome result (λ f. IsLeastOf d v 7 f)) }
{
    for number in 0..places.len() {
        if is_owned_as_before(owners, number) {
            continue;
        }
        if !is_reached(places, directory, owners, number) {
            return Some(Fault::at(Line::NotReached, places[number].address, 0));
        }
    }
    None
}
