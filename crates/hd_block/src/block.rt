ghost use Rattle.std.specs.Prelude.{◌≡◌, ◌+◌, ◌%◌, ◌≤◌, ◌<◌, List, length, IfSome, IfNone};
ghost use Rattle.hd_bytes.specs.Ranges.{AgreeOn};
ghost use Rattle.hd_block.specs.Extents.{Extent, IsDivided, AreWhole};
ghost use Rattle.hd_block.specs.Changes.{hole_at, IsTakenFrom, KeepsSegments, IsGivenBack, KeepsOthers};
ghost use Rattle.hd_block.specs.Parts.{parts_of};
ghost use Rattle.hd_block.specs.Walk.{parts_in};

use crate::gives::give_hole;
use crate::holes::take_hole;
use crate::parts::Parts;
use hd_dbd::SegmentSize;

/// A data block, with the bytes that the segments of each type take in it, by code.
#[derive(Drop)]
pub struct Block<'a> {
    bytes: &'a mut [u8],
    sizes: &'a [SegmentSize],
    ghost sized: { (8 ≤ length bytes.now) × (length bytes.now ≤ 32768) },
}

impl<'a> Block<'a> {
    ghost use Rattle.hd_block.specs.Lent.{bytes_of, sizes_of, lender_of, IsSameBlock};

    /// These bytes as a block, of 8 to 32,768 bytes. A size is a fixed 0 where there is no type, and so it is past the last.
    pub fn new(bytes: &'a mut [u8], sizes: &'a [SegmentSize]) -> Block<'a>
        requires { (8 ≤ length bytes.old) × (length bytes.old ≤ 32768) }
        ensures lender { lender_of result ≡ bytes.entry.ghost_name }
        ensures bytes { bytes_of result ≡ bytes.old }
        ensures sizes { sizes_of result ≡ sizes.now }
    {
        Block { bytes, sizes }
    }

    /// Takes the front of the first hole that is large enough, and says where it begins. The size is above 0 and a
    /// multiple of 8.
    pub fn take(&mut self, size: u16) -> Option<u16>
        requires { (0 < size) × (size % 8 ≡ 0) }
        ensures same { IsSameBlock self.old self.new }
        ensures len { length (bytes_of self.new) ≡ length (bytes_of self.old) }
        ensures found { (xs : List Extent) → IsDivided (sizes_of self.old) (bytes_of self.old) xs → result ≡ hole_at size 8 xs }
        ensures after { IsTakenFrom (sizes_of self.old) (bytes_of self.old) size result (bytes_of self.new) }
        ensures fits { IfSome result (λ p. (8 ≤ p) × (p + size ≤ length (bytes_of self.old))) }
        ensures none { IfNone result (bytes_of self.new ≡ bytes_of self.old) }
        ensures head { AgreeOn 2 6 (bytes_of self.old) (bytes_of self.new) }
        ensures others { KeepsSegments (sizes_of self.old) (bytes_of self.old) (bytes_of self.new) }
    {
        take_hole(self.bytes, size)
    }

    /// Gives back the segment, or the room, at an offset, and joins it to the holes beside it. Both are at
    /// least 8 and inside the block, and the size is a multiple of 8.
    pub fn give(&mut self, offset: u16, size: u16)
        requires offset { 8 ≤ offset }
        requires size { (8 ≤ size) × (size % 8 ≡ 0) }
        requires within { offset + size ≤ length (bytes_of self.old) }
        ensures same { IsSameBlock self.old self.new }
        ensures len { length (bytes_of self.new) ≡ length (bytes_of self.old) }
        ensures after { IsGivenBack (sizes_of self.old) (bytes_of self.old) offset size (bytes_of self.new) }
        ensures head { AgreeOn 2 6 (bytes_of self.old) (bytes_of self.new) }
        ensures others { KeepsOthers (sizes_of self.old) (bytes_of self.old) offset size (bytes_of self.new) }
    {
        give_hole(self.bytes, offset, size);
    }

    /// The free elements and segments, in order, of a block whose handed-out room is all filled; else up to the first
    /// place where no part fits.
    pub fn parts(&self) -> Parts<'_>
        ensures parts { result ≡ parts_in (sizes_of self.now) (bytes_of self.now) }
        ensures divided { (xs : List Extent) → IsDivided (sizes_of self.now) (bytes_of self.now) xs → AreWhole xs → result ≡ parts_of 8 xs }
    {
        Parts::new(self.bytes, self.sizes)
    }
}
