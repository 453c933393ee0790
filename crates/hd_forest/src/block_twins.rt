//! Twins of one block, passed over by their keys.
ghost use Rattle.std.specs.Prelude.{◌≡◌, ◌+◌, ◌-◌, ◌<◌, ◌≤◌, ◌↔◌, true, length, IfSome};
ghost use Rattle.std.specs.Ordering.{nat_cmp, is_lt};
ghost use Rattle.std.specs.Cmp.Lexicographic.{slice_cmp};
ghost use Rattle.hd_bytes.specs.Ranges.{bytes_at};
ghost use Rattle.hd_dbd.specs.KeyNumbers.{IsNumberOf};
ghost use Rattle.hd_forest.specs.BlockTwins.{HasTwin, HasRoom, key_in, IsPassage, IsWalk};

use crate::twins::TwinPlaces;
use hd_bytes::read_u32;
use hd_dbd::{compare_keys, is_number_below};

/// What a walk along the twins of a block came to: the last that was passed over, the one behind it, 0 for none, and whether the key of this
/// was found not to be below.
#[derive(Clone, Copy, Debug)]
pub struct Walk {
    pub before: u32,
    pub twin: u32,
    pub is_found: bool,
}

/// Whether the key at a place is below another.
pub fn is_below(block: &[u8], place: usize, count: usize, key: &[u8]) -> bool
    requires within { place + count ≤ length block.now }
    ensures { result ≡ is_lt (slice_cmp nat_cmp (bytes_at block.now place count) key.now) }
{
    compare_keys(&block[place..place + count], key).is_lt()
}

/// Whether a key is what stands at a place.
fn is_key_at(block: &[u8], place: usize, count: usize, key: &[u8]) -> bool
    requires within { place + count ≤ length block.now }
    ensures { (result ≡ true) ↔ (bytes_at block.now place count ≡ key.now) }
{
    &block[place..place + count] == key
}

/// Whether a walk in a block, whose first byte has an address, found a twin whose key is equal.
pub fn is_equal(places: TwinPlaces, block: &[u8], start: u32, key: &[u8], walk: Walk) -> bool
    requires { walk.is_found ≡ true → HasTwin places block.now start walk.twin }
    ensures { (result ≡ true) ↔ ((walk.is_found ≡ true) × (key_in places block.now start walk.twin ≡ key.now)) }
{
    if !walk.is_found {
        return false;
    }
    let place = (walk.twin - start) as usize + places.key;
    is_key_at(block, place, places.length, key)
}

/// Whether a block has the twin at an address, with its twin forward and its key.
pub fn has_twin(places: TwinPlaces, block: &[u8], start: u32, twin: u32) -> bool
    ensures { (result ≡ true) ↔ HasTwin places block.now start twin }
{
    let own = places.key.saturating_add(places.length);
    let end = own.max(places.forward as usize + 4);
    end <= block.len() && start <= twin && (twin - start) as usize <= block.len() - end
}

/// The last place in a block where a twin can stand with its twin forward and its key, and with eight bytes where that begins; `None` where there is none.
pub fn last_place(places: TwinPlaces, block: &[u8]) -> Option<usize>
    ensures { IfSome result (λ last. HasRoom places (length block.now) last) }
{
    let own = places.key.saturating_add(places.length.max(8));
    let end = own.max(places.forward as usize + 4);
    block.len().checked_sub(end)
}

/// The place of a twin in a block, whose first byte has an address, up to a last one; `None` where it is not there.
pub fn place_up_to(start: u32, twin: u32, last: usize) -> Option<usize>
    ensures { IfSome result (λ place. (start ≤ twin) × (place ≡ twin - start) × (place ≤ last)) }
{
    if twin < start {
        return None;
    }
    let place = (twin - start) as usize;
    if place > last {
        return None;
    }
    Some(place)
}

/// Passes over the twins of a block, whose first byte has an address, from one on, behind another, as far as their keys are below a key, which has a
/// number, and eight bytes stand where each key begins. Nothing is called on the way, so that a twin takes few steps.
fn pass_by_number(
    places: TwinPlaces,
    block: &[u8],
    start: u32,
    behind: u32,
    address: u32,
    key: &[u8],
    number: u64,
) -> Walk
    requires number { IsNumberOf places.length key.now number }
    ensures { IsPassage places block.now start key.now behind address result }
{
    let mut before = behind;
    let mut twin = address;
    let Some(last) = last_place(places, block) else {
        return Walk {
            before,
            twin,
            is_found: false,
        };
    };
    let most = block.len();
    for count in 0..most {
        let Some(at) = place_up_to(start, twin, last) else {
            return Walk {
                before,
                twin,
                is_found: false,
            };
        };
        if !is_number_below(block, at + places.key, places.length, key, number) {
            return Walk {
                before,
                twin,
                is_found: true,
            };
        }
        before = twin;
        twin = read_u32(block, at + places.forward as usize);
    }
    Walk {
        before,
        twin,
        is_found: false,
    }
}

/// Passes over the twins of a block, whose first byte has an address, from one on, behind another, as far as their keys are below a key.
#[inline(never)] // What it keeps over its calls is not put aside where keys have numbers.
fn pass_by_key(
    places: TwinPlaces,
    block: &[u8],
    start: u32,
    behind: u32,
    address: u32,
    key: &[u8],
) -> Walk
    ensures { IsWalk places block.now start key.now behind address result }
{
    let most = block.len();
    let mut before = behind;
    let mut twin = address;
    for count in 0..most {
        if !has_twin(places, block, start, twin) {
            return Walk {
                before,
                twin,
                is_found: false,
            };
        }
        let at = (twin - start) as usize;
        if !is_below(block, at + places.key, places.length, key) {
            return Walk {
                before,
                twin,
                is_found: true,
            };
        }
        before = twin;
        twin = read_u32(block, at + places.forward as usize);
    }
    Walk {
        before,
        twin,
        is_found: false,
    }
}

/// Passes over the twins of a block, whose first byte has an address, from one on, behind another, as far as their keys are below a key, by
/// the key's number where it has one.
pub fn pass_in(
    places: TwinPlaces,
    block: &[u8],
    start: u32,
    behind: u32,
    address: u32,
    key: &[u8],
    number: Option<u64>,
) -> Walk
    requires { IfSome number (λ n. IsNumberOf places.length key.now n) }
    ensures { IsWalk places block.now start key.now behind address result }
{
    let Some(number) = number else {
        return pass_by_key(places, block, start, behind, address, key);
    };
    let part = pass_by_number(places, block, start, behind, address, key, number);
    if part.is_found || !has_twin(places, block, start, part.twin) {
        return part;
    }
    pass_by_key(places, block, start, part.before, part.twin, key)
}
