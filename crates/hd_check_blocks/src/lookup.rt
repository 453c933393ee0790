//! An address looked up in the table of places.
ghost use Rattle.std.specs.Prelude.{◌≡◌, ◌≤◌, ◌<◌, ℕ, length, IfNone, IfSome};
ghost use Rattle.hd_check_blocks.specs.Places.{IsPlaceOf, PlacesAscend, place_at};

use crate::directory::Directory;
use crate::places::Place;

/// Which of the numbers from one to before another is looked at next: the one that is proposed, if it is among them, else one in the middle.
fn middle_of(low: usize, high: usize, proposed: usize) -> usize
    requires { low < high }
    ensures { (low ≤ result) × (result < high) }
{
    if low <= proposed && proposed < high {
        proposed
    } else {
        low + (high - low) / 2
    }
}

/// The number of the place at an address, if a segment stands there. It is looked for at a number first, then ever farther from it until it is
/// passed, and then in the middle of what is left.
fn number_from(places: &[Place], address: u32, near: usize) -> Option<usize>
    ensures some { IfSome result (λ n. (n < length places.now) × ((place_at places.now n).address ≡ address)) }
    ensures none { PlacesAscend places.now → IfNone result ((code : ℕ) → IsPlaceOf (record { address = address; code = code }) places.now → ⊥) }
{
    let mut low = 0;
    let mut high = places.len();
    let mut proposed = near;
    let mut step: usize = 0;
    while low < high {
        let middle = middle_of(low, high, proposed);
        let place = places[middle];
        if place.address == address {
            return Some(middle);
        }
        step = step.saturating_add(step).saturating_add(1);
        if place.address < address {
            low = middle + 1;
            proposed = middle.saturating_add(step);
        } else {
            high = middle;
            proposed = middle.saturating_sub(step);
        }
    }
    None
}

/// The number of the place at an address, if a segment stands there.
pub fn number_of(places: &[Place], directory: &Directory, address: u32) -> Option<usize>
    ensures some { IfSome result (λ n. (n < length places.now) × ((place_at places.now n).address ≡ address)) }
    ensures none { PlacesAscend places.now → IfNone result ((code : ℕ) → IsPlaceOf (record { address = address; code = code }) places.now → ⊥) }
{
    number_from(places, address, directory.near(address))
}

/// The number of the place at an address, if a segment stands there, which is looked for at a number first.
pub fn number_near(
    places: &[Place],
    directory: &Directory,
    address: u32,
    near: usize,
) -> Option<usize>
    ensures some { IfSome result (λ n. (n < length places.now) × ((place_at places.now n).address ≡ address)) }
    ensures none { PlacesAscend places.now → IfNone result ((code : ℕ) → IsPlaceOf (record { address = address; code = code }) places.now → ⊥) }
{
    if near < places.len() && places[near].address == address {
        return Some(near);
    }
    number_of(places, directory, address)
}

/// The code of the segment at an address, if one stands there.
pub fn code_at(places: &[Place], directory: &Directory, address: u32) -> Option<u8>
    ensures some { IfSome result (λ code. IsPlaceOf (record { address = address; code = code }) places.now) }
    ensures none { PlacesAscend places.now → IfNone result ((code : ℕ) → IsPlaceOf (record { address = address; code = code }) places.now → ⊥) }
{
    match number_of(places, directory, address) {
        None => None,
        Some(number) => Some(places[number].code),
    }
}

/// The code of the segment at an address, if one stands there, which is looked for at a number first.
pub fn code_near(places: &[Place], directory: &Directory, address: u32, near: usize) -> Option<u8>
    ensures some { IfSome result (λ code. IsPlaceOf (record { address = address; code = code }) places.now) }
    ensures none { PlacesAscend places.now → IfNone result ((code : ℕ) → IsPlaceOf (record { address = address; code = code }) places.now → ⊥) }
{
    match number_near(places, directory, address, near) {
        None => None,
        Some(number) => Some(places[number].code),
    }
}
