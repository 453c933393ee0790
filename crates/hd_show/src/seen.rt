//! The segment that stands at an address of a volume, if one can be read there.
ghost use Rattle.std.specs.Prelude.{◌≡◌, ◌≤◌, ◌<◌, ◌+◌, ◌*◌, ◌==◌, true, false, cond, None, length, slice_index, option_map, option_and_then, IsTrue, IfOk, IfSome};
ghost use Rattle.hd_bytes.specs.Blocks.{HasBlock};
ghost use Rattle.hd_bytes.specs.Ranges.{bytes_at};
ghost use Rattle.hd_dbd.specs.Facts.{stored_sizes};
ghost use Rattle.hd_dbd.specs.Refusals.{OnlyDeviceOrMemory, OnlyMemory};
ghost use Rattle.hd_block.specs.Walk.{parts_in};
ghost use Rattle.hd_volume.specs.Calls.{IsRead};
ghost use Rattle.hd_volume.specs.Records.{used_at, segment_in};
ghost use Rattle.hd_show.specs.Sights.{sight_of, sight_at, sight_in};

use hd_block::{Part, Parts};
use hd_dbd::{Dbd, Refused, SegmentSize};
use hd_prefix::Layout;
use hd_stores::BlockStore;
use hd_volume::{DATA, Volume, size_table};
use std::alloc::Global;

/// A segment that was found in a volume: the code of its type, and its key, without bytes where the type has none.
#[derive(Drop)]
pub struct Seen {
    pub code: u8,
    pub key: Vec<u8>,
}

/// The segment at an address of a volume, whatever the bytes of the volume are; `None` where none is one of the parts of a data block there.
/// Nothing is changed. `Memory` says that it is wanting, `Device` that an access failed.
pub fn see_segment<S: BlockStore>(
    alloc: Global,
    volume: &mut Volume<S>,
    dbd: &Dbd,
    address: u32,
) -> Result<Option<Seen>, Refused>
    requires { volume.old.sizes ≡ stored_sizes dbd.now.types }
    ensures value { IfOk result (λ seen. IsTrue volume.old.is_sound → option_map sight_of seen ≡ sight_at dbd.now.types volume.old address) }
    ensures read { IsRead volume.old result volume.new }
    ensures refusal { OnlyDeviceOrMemory result }
{
    let Ok(sizes) = size_table(alloc, dbd) else {
        return Err(Refused::Memory);
    };
    let size = volume.block_size();
    let n = address / size as u32;
    if n == 0 || !has_block(volume, n) {
        return Ok(None);
    }
    let block = volume.block(n)?;
    if block.len() != size {
        return Ok(None);
    }
    see_in_block(alloc, dbd, &sizes, block, address as usize % size)
}

/// Block n is a whole one.
fn has_block<S: BlockStore>(volume: &Volume<S>, n: u32) -> bool
    ensures yes { result ≡ true → IsTrue volume.now.is_sound → HasBlock volume.now.size volume.now.image n }
    ensures no { result ≡ false → IsTrue volume.now.is_sound → length volume.now.image < n * volume.now.size + volume.now.size }
{
    let size = volume.block_size() as u64;
    u64::from(n) * size + size <= volume.length()
}

/// The segment at a place of a block.
fn see_in_block(
    alloc: Global,
    dbd: &Dbd,
    sizes: &[SegmentSize],
    block: &[u8],
    place: usize,
) -> Result<Option<Seen>, Refused>
    requires size { (128 ≤ length block.now) × (length block.now ≤ 32768) }
    requires place { place < length block.now }
    ensures value { IfOk result (λ seen. option_map sight_of seen ≡ cond (slice_index block.now 2 == 1) (option_and_then (sight_in dbd.now.types) (segment_in sizes.now block.now place)) None) }
    ensures refusal { OnlyMemory result }
{
    if block[2] != DATA {
        return Ok(None);
    }
    let Some(len) = used_length(block, sizes, place) else {
        return Ok(None);
    };
    see_in(alloc, dbd, bytes_at(block, place, len as usize))
}

/// So many bytes from a place of a block on, at most to its end.
#[tactic(auto, using(std::proofs::lemmas::List::take_min))]
fn bytes_at(block: &[u8], place: usize, count: usize) -> &[u8]
    requires { place ≤ length block.now }
    ensures { result.now ≡ bytes_at block.now place count }
{
    let rest = &block[place..];
    &rest[..count.min(rest.len())]
}

/// The bytes of the segment that is one of the parts of a block, at a place.
fn used_length(block: &[u8], sizes: &[SegmentSize], place: usize) -> Option<u16>
    requires { (8 ≤ length block.now) × (length block.now ≤ 32768) }
    ensures { result ≡ used_at (parts_in sizes.now block.now) place }
{
    for part in Parts::new(block, sizes) {
        if let Part::Used(at, len) = part {
            if at as usize == place {
                return Some(len);
            }
        }
    }
    None
}

/// What is seen of a stored segment.
fn see_in(alloc: Global, dbd: &Dbd, segment: &[u8]) -> Result<Option<Seen>, Refused>
    ensures value { IfOk result (λ seen. option_map sight_of seen ≡ sight_in dbd.now.types segment.now) }
    ensures refusal { OnlyMemory result }
{
    let code = segment.first().copied().unwrap_or(0);
    let layout = Layout::of(dbd, code);
    if dbd.type_of(code).is_none() || !layout.is_whole(segment) {
        return Ok(None);
    }
    match copied(alloc, dbd.key_of(code, layout.bytes(segment))) {
        Some(key) => Ok(Some(Seen { code, key })),
        None => Err(Refused::Memory),
    }
}

/// A copy of some bytes, if there is memory for it.
fn copied(alloc: Global, bytes: &[u8]) -> Option<Vec<u8>>
    ensures { IfSome result (λ copy. copy.items ≡ bytes.now) }
{
    let mut copy = Vec::new(alloc);
    match copy.extend_from_slice(bytes) {
        Ok(()) => Some(copy),
        Err(_) => None,
    }
}
