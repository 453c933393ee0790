//! The parents of the chains of twins, for phases 5 and 7.
ghost use Rattle.std.specs.Prelude.{◌≡◌, ◌≢◌, ◌<◌, ℕ, length, slice_index, replicate, true, false, IfOk};
ghost use Rattle.hd_dbd.specs.Refusals.{OnlyMemory};
ghost use Rattle.hd_dbd.specs.Hierarchy.{Database};
ghost use Rattle.hd_volume.specs.Volumes.{VolumeState};
ghost use Rattle.hd_image.specs.Records.{links_of};
ghost use Rattle.hd_check_blocks.specs.Places.{IsPlaceOf, PlacesAscend};
ghost use Rattle.hd_check_pointers.specs.Tables.{nobody, AreOwners};
ghost use Rattle.hd_check_pointers.specs.Matched.{OwnersStayRight, OwnersStayClosed, IfPreceded};

use crate::namings::Naming;
use hd_check_blocks::{Directory, Place, number_near};
use hd_dbd::Refused;
use std::alloc::Global;

/// The owner of a chain that begins at no parent: no record stands there.
pub(crate) const NOBODY: u32 = u32::MAX;

/// Whether a segment of a code stands at an address: most likely that before the one of a number.
pub fn stands_at(
    places: &[Place],
    directory: &Directory,
    number: usize,
    address: u32,
    code: u8,
) -> bool
    ensures right { result ≡ true → IsPlaceOf (record { address = address; code = code }) places.now }
    ensures wrong { PlacesAscend places.now → result ≡ false → IsPlaceOf (record { address = address; code = code }) places.now → ⊥ }
{
    match number_near(places, directory, address, number.saturating_sub(1)) {
        None => false,
        Some(found) => places[found].code == code,
    }
}

/// What a table has for the place of a number, 0 past its end.
pub fn number_in(table: &[u32], number: usize) -> u32
    ensures { result ≡ slice_index table.now number }
{
    table.get(number).copied().unwrap_or(0)
}

/// Writes the owner of a chain of twins to each of its segments, from the one of a number on.
fn own_twins(
    places: &[Place],
    directory: &Directory,
    forwards: &[u32],
    owners: &mut Vec<u32>,
    first: usize,
    owner: u32,
)
    requires inside { (first < length places.now) × (length owners.old.items ≡ length places.now) }
    requires some { owner ≢ nobody }
    ensures as_many { length owners.new.items ≡ length places.now }
    ensures kept { (i : ℕ) → slice_index owners.old.items i ≢ nobody → slice_index owners.new.items i ≢ nobody }
    ensures first { slice_index owners.new.items first ≢ nobody }
    ensures right { OwnersStayRight places.now forwards.now first owner owners.old.items owners.new.items }
    ensures closed { OwnersStayClosed places.now forwards.now owners.old.items owners.new.items }
{
    let mut number = first;
    while owners[number] == NOBODY {
        owners[number] = owner;
        match number_near(places, directory, number_in(forwards, number), number + 1) {
            None => return,
            Some(twin) => number = twin,
        }
    }
}

/// The owners of so many segments before any is known.
fn unowned(alloc: Global, count: usize) -> Result<Vec<u32>, Refused>
    ensures none { IfOk result (λ owners. owners.items ≡ replicate count nobody) }
    ensures refusal { OnlyMemory result }
{
    let Ok(owners) = vec![in alloc; NOBODY; count] else {
        return Err(Refused::Memory);
    };
    Ok(owners)
}

/// The parents of the chains of twins in which the segments are; `NOBODY` where a chain begins at no parent, as a ring of
/// twins does.
pub fn owners_of(
    alloc: Global,
    places: &[Place],
    directory: &Directory,
    namings: &[Naming],
    forwards: &[u32],
) -> Result<Vec<u32>, Refused>
    ensures owners { (d : Database) (v : VolumeState) → IfPreceded d v places.now namings.now forwards.now (IfOk result (λ owners. AreOwners d.types (links_of d.types v) places.now owners.items)) }
    ensures refusal { OnlyMemory result }
{
    let mut owners = unowned(alloc, places.len())?;
    for first in 0..places.len().min(namings.len()) {
        let place = places[first];
        let holder = namings[first].holder;
        if holder != NOBODY && !stands_at(places, directory, first, holder, place.code) {
            own_twins(places, directory, forwards, &mut owners, first, holder);
        }
    }
    Ok(owners)
}
