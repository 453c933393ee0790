ghost use Rattle.std.specs.Prelude.{◌≡◌, ◌+◌, ◌≤◌, [], length, slice_index, MatchOption};
ghost use Rattle.std.specs.Iterator.{YieldsFirst, item_count};
ghost use Rattle.hd_block.specs.Walk.{parts_in, parts_from, IsFirstPart};

use crate::sizes::size_at;
use hd_bytes::read_u16;
use hd_dbd::SegmentSize;
use std::iter::FusedIterator;
use std::marker::Model;

/// A part of a data block: a free element or a segment, with its offset and its length in bytes.
#[derive(Clone, Copy, Debug, PartialEq, Eq)]
pub enum Part {
    Free(u16, u16),
    Used(u16, u16),
}

/// The parts of a block from its front, seen as the list of those that are left; it ends where no part fits.
#[derive(Drop)]
pub struct Parts<'a> {
    bytes: &'a [u8],
    sizes: &'a [SegmentSize],
    place: usize,
    next: u16,
}

impl<'a> Model for Parts<'a> {
    ghost use Rattle.std.specs.Prelude.{List, length, slice_index, ◌≤◌};
    ghost use Rattle.hd_block.specs.declared.parts.Part.{Part};
    ghost use Rattle.hd_block.specs.Walk.{parts_from};

    ghost Value = { List Part };

    ghost view = { λ s. parts_from (s.sizes.now) s.bytes.now s.place s.next };

    ghost invariant = { λ s. (s.place ≤ length s.bytes.now) × (length s.bytes.now ≤ 32768) };
}

impl<'a> Parts<'a> {
    /// All parts of these bytes, of 8 to 32,768, with the bytes that the segments of each type take, by code.
    pub fn new(bytes: &'a [u8], sizes: &'a [SegmentSize]) -> Parts<'a>
        requires { (8 ≤ length bytes.now) × (length bytes.now ≤ 32768) }
        ensures { result ≡ parts_in sizes.now bytes.now }
    {
        let next = read_u16(bytes, 0);
        Parts {
            bytes,
            sizes,
            place: 8,
            next,
        }
    }
}

impl<'a> Iterator for Parts<'a> {
    type Item = Part;

    ghost next_gives = { YieldsFirst (λ rest. rest) };

    ghost remaining = { item_count (λ rest. rest) };

    fn next(&mut self) -> Option<Part> {
        match read_part(self.bytes, self.sizes, self.place, self.next) {
            Some(step) => {
                self.place += step.size as usize;
                self.next = step.next;
                Some(step.part)
            }
            None => {
                self.place = self.bytes.len();
                None
            }
        }
    }
}

impl<'a> FusedIterator for Parts<'a> {}

/// A part, its length, and the free element behind it.
#[derive(Clone, Copy)]
pub struct Step {
    pub part: Part,
    pub size: u16,
    pub next: u16,
}

/// The part at a place, where the next free element begins at `next`.
fn read_part(bytes: &[u8], sizes: &[SegmentSize], place: usize, next: u16) -> Option<Step>
    requires { (place ≤ length bytes.now) × (length bytes.now ≤ 32768) }
    ensures { MatchOption result (parts_from sizes.now bytes.now place next ≡ []) (λ s. IsFirstPart sizes.now bytes.now place next s) }
{
    let left = bytes.len() - place;
    if left < 8 {
        return None;
    }
    let is_free = place == next as usize;
    let size = if is_free {
        read_u16(bytes, place + 2) as usize
    } else {
        size_at(bytes, sizes, place)
    };
    if size < 8 || left < size {
        return None;
    }
    let size = size as u16;
    if is_free {
        let next = read_u16(bytes, place);
        let part = Part::Free(place as u16, size);
        return Some(Step { part, size, next });
    }
    let part = Part::Used(place as u16, size);
    Some(Step { part, size, next })
}
