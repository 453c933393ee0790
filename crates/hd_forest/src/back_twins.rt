//! Twins of one block, gone back over by their keys.
ghost use Rattle.std.specs.Prelude.{◌≡◌, ◌+◌, ◌≤◌, length, IfSome};
ghost use Rattle.hd_dbd.specs.KeyNumbers.{IsNumberOf};
ghost use Rattle.hd_forest.specs.BlockTwins.{HasTwin};
ghost use Rattle.hd_forest.specs.BackTwins.{IsBelowIn, IsBackWalk};

use crate::block_twins::{has_twin, is_below, last_place, place_up_to};
use crate::twins::TwinPlaces;
use hd_bytes::read_u32;
use hd_dbd::is_number_below;

/// What a walk back along the twins of a block came to: a twin, 0 for none, and whether its key was found to be below.
#[derive(Clone, Copy, Debug)]
pub struct Back {
    pub twin: u32,
    pub is_below: bool,
}

/// The number that the eight bytes at a place make.
fn eight_at(block: &[u8], place: usize) -> u64
    requires { place + 8 ≤ length block.now }
{
    let first = read_u32(block, place) as u64;
    let last = read_u32(block, place + 4) as u64;
    (first << 32) + last
}

/// The number that the eight bytes make which begin with the key of the twin at an address; `None` where the block does not have them.
pub fn number_from(places: TwinPlaces, block: &[u8], start: u32, address: u32) -> Option<u64> {
    let last = last_place(places, block)?;
    let at = place_up_to(start, address, last)?;
    Some(eight_at(block, at + places.key))
}

/// The same where that key is below another, which has a number; else `None`.
pub fn number_below(
    places: TwinPlaces,
    block: &[u8],
    start: u32,
    address: u32,
    key: &[u8],
    number: u64,
) -> Option<u64>
    requires number { IsNumberOf places.length key.now number }
    ensures { IfSome result (λ _. IsBelowIn places block.now start key.now address) }
{
    let last = last_place(places, block)?;
    let at = place_up_to(start, address, last)?;
    if !is_number_below(block, at + places.key, places.length, key, number) {
        return None;
    }
    Some(eight_at(block, at + places.key))
}

/// Goes back over the twins of a block, whose first byte has an address, from one on, as far as their keys are not below a key, which has a number,
/// and eight bytes stand where each key begins. Nothing is called on the way.
fn back_by_number(
    places: TwinPlaces,
    backward: u16,
    block: &[u8],
    start: u32,
    address: u32,
    key: &[u8],
    number: u64,
) -> Back
    requires number { IsNumberOf places.length key.now number }
    requires backward { backward + 4 ≤ places.key }
    ensures { IsBackWalk places backward block.now start key.now address result }
{
    let mut twin = address;
    let Some(last) = last_place(places, block) else {
        return Back {
            twin,
            is_below: false,
        };
    };
    let most = block.len();
    for count in 0..most {
        let Some(at) = place_up_to(start, twin, last) else {
            return Back {
                twin,
                is_below: false,
            };
        };
        if is_number_below(block, at + places.key, places.length, key, number) {
            return Back {
                twin,
                is_below: true,
            };
        }
        twin = read_u32(block, at + backward as usize);
    }
    Back {
        twin,
        is_below: false,
    }
}

/// Goes back over one twin that a block has, if its key is not below a key.
#[inline(never)] // Few twins have no eight bytes where the key begins.
fn back_by_key(
    places: TwinPlaces,
    backward: u16,
    block: &[u8],
    start: u32,
    address: u32,
    key: &[u8],
) -> Back
    requires there { HasTwin places block.now start address }
    requires backward { backward + 4 ≤ places.key }
    ensures { IsBackWalk places backward block.now start key.now address result }
{
    let at = (address - start) as usize;
    if is_below(block, at + places.key, places.length, key) {
        return Back {
            twin: address,
            is_below: true,
        };
    }
    Back {
        twin: read_u32(block, at + backward as usize),
        is_below: false,
    }
}

/// Goes back over the twins of a block, whose first byte has an address, from one on, by the twin backward at a place, as far as their keys are not below
/// a key, which has a number; over one where no eight bytes stand any more where the next key begins.
pub fn back_in(
    places: TwinPlaces,
    backward: u16,
    block: &[u8],
    start: u32,
    address: u32,
    key: &[u8],
    number: u64,
) -> Back
    requires number { IsNumberOf places.length key.now number }
    requires backward { backward + 4 ≤ places.key }
    ensures { IsBackWalk places backward block.now start key.now address result }
{
    let part = back_by_number(places, backward, block, start, address, key, number);
    if part.is_below || !has_twin(places, block, start, part.twin) {
        return part;
    }
    back_by_key(places, backward, block, start, part.twin, key)
}
