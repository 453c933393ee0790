ghost use Rattle.std.specs.Prelude.{◌≡◌, ◌⊎◌, ◌+◌, ◌%◌, ◌≤◌, ◌<◌, List, length, None, IfSome, IfNone};
ghost use Rattle.hd_bytes.specs.Ranges.{AgreeOn};
ghost use Rattle.hd_block.specs.Extents.{Extent, IsDivided};
ghost use Rattle.hd_block.specs.Changes.{hole_at, IsTakenFrom, KeepsSegments};
ghost use Rattle.hd_block.specs.Parts.{largest_free, free_bytes};
ghost use Rattle.hd_block.specs.Found.{IsSearched};
ghost use Rattle.hd_block.specs.Walk.{HolesAreWithin, parts_in};
ghost use Rattle.hd_dbd.specs.declared.facts.SegmentSize.{SegmentSize};

use crate::element::write_element;
use hd_bytes::{read_u16, write_u16};

/// A free element, and where the number stands that leads to it.
#[derive(Clone, Copy)]
pub struct Hole {
    pub link: usize,
    pub place: usize,
    pub len: u16,
    pub next: u16,
}

/// The first free element of at least this size; a chain that does not ascend ends the search.
fn find_hole(bytes: &[u8], size: u16) -> Option<Hole>
    requires { 8 ≤ length bytes.now }
    ensures place { IfSome result (λ h. (h.link + 2 ≤ length bytes.now) × (h.place + 8 ≤ length bytes.now) × (size ≤ h.len)) }
    ensures head { IfSome result (λ h. (8 ≤ h.place) × ((8 ≤ h.link) ⊎ (h.link ≡ 0))) }
    ensures found { IsSearched bytes.now size result }
{
    let mut link = 0;
    let mut end = 8;
    let mut place = read_u16(bytes, 0) as usize;
    'walk: while place >= end && place + 8 <= bytes.len() {
        let len = read_u16(bytes, place + 2);
        let next = read_u16(bytes, place);
        if size <= len {
            return Some(Hole {
                link,
                place,
                len,
                next,
            });
        }
        link = place;
        end = place + 8;
        place = next as usize;
    }
    None
}

/// The length of the largest free element, 0 where there is none; a chain that does not ascend ends the search. In whatever bytes, no free part
/// of theirs is longer.
pub fn largest_free(bytes: &[u8]) -> u16
    requires { 8 ≤ length bytes.now }
    ensures parts { (sizes : List SegmentSize) → HolesAreWithin result (parts_in sizes bytes.now) }
    ensures largest { (sizes : List SegmentSize) (xs : List Extent) → IsDivided sizes bytes.now xs → result ≡ largest_free xs }
{
    let mut largest = 0;
    let mut end = 8;
    let mut place = read_u16(bytes, 0) as usize;
    'walk: while place >= end && place + 8 <= bytes.len() {
        let len = read_u16(bytes, place + 2);
        let next = read_u16(bytes, place);
        largest = largest.max(len);
        end = place + 8;
        place = next as usize;
    }
    largest
}

/// The bytes of all free elements; a chain that does not ascend ends the sum.
pub fn free_bytes(bytes: &[u8]) -> u32
    requires { (8 ≤ length bytes.now) × (length bytes.now ≤ 32768) }
    ensures { (sizes : List SegmentSize) (xs : List Extent) → IsDivided sizes bytes.now xs → result ≡ free_bytes xs }
{
    let mut total: u32 = 0;
    let mut end = 8;
    let mut place = read_u16(bytes, 0) as usize;
    'walk: while place >= end && place + 8 <= bytes.len() {
        let len = read_u16(bytes, place + 2);
        let next = read_u16(bytes, place);
        total = total.saturating_add(u32::from(len));
        end = place + 8;
        place = next as usize;
    }
    total
}

/// Takes the front of the first hole that is large enough.
pub fn take_hole(bytes: &mut [u8], size: u16) -> Option<u16>
    requires block { (8 ≤ length bytes.old) × (length bytes.old ≤ 32768) }
    requires size { (0 < size) × (size % 8 ≡ 0) }
    ensures found { (sizes : List SegmentSize) (xs : List Extent) → IsDivided sizes bytes.old xs → result ≡ hole_at size 8 xs }
    ensures after { (sizes : List SegmentSize) → IsTakenFrom sizes bytes.old size result bytes.new }
    ensures fits { IfSome result (λ p. (8 ≤ p) × (p + size ≤ length bytes.old)) }
    ensures none { IfNone result (bytes.new ≡ bytes.old) }
    ensures len { length bytes.new ≡ length bytes.old }
    ensures head { AgreeOn 2 6 bytes.old bytes.new }
    ensures others { (sizes : List SegmentSize) → KeepsSegments sizes bytes.old bytes.new }
{
    let hole = find_hole(bytes, size)?;
    let rest = hole.place + size as usize;
    if rest > bytes.len() {
        return None;
    }
    if hole.len == size {
        write_u16(bytes, hole.link, hole.next);
        return Some(hole.place as u16);
    }
    if rest + 8 > bytes.len() {
        return None;
    }
    write_element(bytes, rest, hole.next, hole.len - size);
    write_u16(bytes, hole.link, rest as u16);
    Some(hole.place as u16)
}
