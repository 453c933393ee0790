//! Phase 2: a data block read from its front on, place by place.
ghost use Rattle.std.specs.Prelude.{◌≡◌, ◌≢◌, ◌≤◌, ◌<◌, ◌+◌, ◌%◌, ◌++◌, ℕ, List, length, slice_index, Some};
ghost use Rattle.hd_bytes.specs.Numbers.{number_at};
ghost use Rattle.hd_block.specs.Sizes.{size_at};
ghost use Rattle.hd_block.specs.Walk.{parts_in};
ghost use Rattle.hd_dbd.specs.Refusals.{OnlyMemory};
ghost use Rattle.hd_volume.specs.Volumes.{HasExtents};
ghost use Rattle.hd_image.specs.BlockFaults.{HasFreeElements};
ghost use Rattle.hd_check_blocks.specs.Reading.{IsReadOn, HasWrongPlace};
ghost use Rattle.hd_check_blocks.specs.Places.{places_in};
ghost use Rattle.hd_check_blocks.specs.Finding.{IfFindsNone, IfFindsSome};

use crate::places::Place;
use hd_block::size_at;
use hd_bytes::read_u16;
use hd_dbd::{Refused, SegmentSize};

/// Where a block is read: at a place, where the next free element begins at `next`, 0 for none.
#[derive(Clone, Copy)]
struct Reading {
    place: usize,
    next: usize,
}

/// Where a data block is read behind a place; `None` where neither a free element nor a segment stands there.
fn behind(block: &[u8], sizes: &[SegmentSize], at: Reading) -> Option<Reading>
    requires inside { (at.place + 4 ≤ length block.now) × (length block.now ≤ 32768) }
    ensures free { at.place ≡ at.next → result ≡ Some (record { place = at.place + number_at 2 block.now (at.place + 2); next = number_at 2 block.now at.place }) }
    ensures used { at.place ≢ at.next → IsReadOn block.now at.place at.next (size_at sizes.now block.now at.place) result }
{
    if at.place == at.next {
        return Some(Reading {
            place: at.place + read_u16(block, at.place + 2) as usize,
            next: read_u16(block, at.place) as usize,
        });
    }
    let size = size_at(block, sizes, at.place);
    if size == 0 || size > block.len() - at.place {
        return None;
    }
    let end = at.place + size;
    if at.place < at.next && at.next < end {
        return None;
    }
    Some(Reading {
        place: end,
        next: at.next,
    })
}

/// The first place of a data block, read from offset 8, where neither a free element nor a segment stands, with the bytes that
/// segments of each type take, by code. The segments before it are noted; the block begins at the address `first`.
pub fn wrong_place(
    places: &mut Vec<Place>,
    block: &[u8],
    sizes: &[SegmentSize],
    first: u32,
) -> Result<Option<usize>, Refused>
    requires size { (8 ≤ length block.now) × (length block.now ≤ 32768) × (length block.now % 8 ≡ 0) }
    requires eighths { (bytes : List ℕ) (place : ℕ) → size_at sizes.now bytes place % 8 ≡ 0 }
    requires chain { (places : List ℕ) × HasFreeElements block.now places }
    requires within { first + length block.now ≤ 4294967296 }
    ensures none { IfFindsNone result (HasExtents sizes.now block.now) }
    ensures places { IfFindsNone result (places.new.items ≡ places.old.items ++ places_in block.now first (parts_in sizes.now block.now)) }
    ensures some { IfFindsSome result (λ p. HasWrongPlace sizes.now block.now p) }
    ensures refusal { OnlyMemory result }
{
    let mut at = Reading {
        place: 8,
        next: read_u16(block, 0) as usize,
    };
    'reading: while at.place < block.len() {
        let Some(next) = behind(block, sizes, at) else {
            return Ok(Some(at.place));
        };
        if at.place != at.next {
            let address = first + at.place as u32;
            let code = block[at.place];
            places
                .push(Place { address, code })
                .map_err(|_| Refused::Memory)?;
        }
        at = next;
    }
    Ok(None)
}
