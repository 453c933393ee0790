ghost use Rattle.std.specs.Prelude.{◌≡◌, ◌⊎◌, ◌+◌, ◌%◌, ◌≤◌, ◌<◌, List, length};
ghost use Rattle.hd_bytes.specs.Ranges.{AgreeOn};
ghost use Rattle.hd_block.specs.Extents.{Extent, Fill};
ghost use Rattle.hd_block.specs.Changes.{IsGivenBack, KeepsOthers};
ghost use Rattle.hd_block.specs.Found.{LeadsPast, IsBehind};
ghost use Rattle.hd_dbd.specs.declared.facts.SegmentSize.{SegmentSize};

use crate::element::write_element;
use hd_bytes::{read_u16, write_u16};

/// Where the number stands that leads past an offset, and the free element that it leads to.
#[derive(Clone, Copy)]
pub struct Link {
    pub link: usize,
    pub next: u16,
}

/// How long the hole at a place is, 0 where there is none, and the free element behind it.
#[derive(Clone, Copy)]
pub struct Behind {
    pub more: u16,
    pub next: u16,
}

/// The link that leads past an offset; a chain that does not ascend ends the search.
fn find_link(bytes: &[u8], offset: u16) -> Link
    requires { (8 ≤ offset) × (offset + 8 ≤ length bytes.now) }
    ensures place { result.link < offset }
    ensures head { (8 ≤ result.link) ⊎ (result.link ≡ 0) }
    ensures found { LeadsPast bytes.now offset result }
{
    let mut link = 0;
    let mut end = 8;
    let mut next = read_u16(bytes, 0);
    'walk: while next as usize >= end && next < offset {
        link = next as usize;
        end = link + 8;
        next = read_u16(bytes, link);
    }
    Link { link, next }
}

/// The hole at a place, where the next free element begins at `next`.
fn find_behind(bytes: &[u8], place: usize, next: u16) -> Behind
    requires { place ≤ length bytes.now }
    ensures place { place + result.more ≤ length bytes.now }
    ensures found { (sizes : List SegmentSize) (xs : List Extent) → 0 < place → Fill sizes bytes.now place next xs → IsBehind sizes bytes.now place xs result }
{
    if next as usize != place || bytes.len() - place < 8 {
        return Behind { more: 0, next };
    }
    let more = read_u16(bytes, place + 2);
    if bytes.len() - place < more as usize {
        return Behind { more: 0, next };
    }
    let next = read_u16(bytes, place);
    Behind { more, next }
}

/// Frees the bytes at an offset, and joins them to the holes beside them.
pub fn give_hole(bytes: &mut [u8], offset: u16, size: u16)
    requires block { length bytes.old ≤ 32768 }
    requires offset { 8 ≤ offset }
    requires size { (8 ≤ size) × (size % 8 ≡ 0) }
    requires within { offset + size ≤ length bytes.old }
    ensures after { (sizes : List SegmentSize) → IsGivenBack sizes bytes.old offset size bytes.new }
    ensures len { length bytes.new ≡ length bytes.old }
    ensures head { AgreeOn 2 6 bytes.old bytes.new }
    ensures others { (sizes : List SegmentSize) → KeepsOthers sizes bytes.old offset size bytes.new }
{
    let link = find_link(bytes, offset);
    let behind = find_behind(bytes, offset as usize + size as usize, link.next);
    let len = read_u16(bytes, link.link + 2);
    if link.link >= 8 && link.link + len as usize == offset as usize {
        write_u16(bytes, link.link, behind.next);
        write_u16(bytes, link.link + 2, len + (size + behind.more));
        return;
    }
    write_element(bytes, offset as usize, behind.next, size + behind.more);
    write_u16(bytes, link.link, offset);
}
