//! Phase 2: the blocks, one by one.
ghost use Rattle.std.specs.Prelude.{◌≡◌, ◌≤◌, ◌<◌, ◌+◌, ◌*◌, ◌%◌, ◌++◌, ℕ, List, [], ◌==◌, cond, length, slice_index, IsTrue, IfOk};
ghost use Rattle.hd_bytes.specs.Blocks.{HasBlock};
ghost use Rattle.hd_dbd.specs.Refusals.{OnlyMemory, OnlyDeviceOrMemory};
ghost use Rattle.hd_dbd.specs.Facts.{stored_sizes};
ghost use Rattle.hd_block.specs.Sizes.{size_at};
ghost use Rattle.hd_block.specs.Walk.{parts_in};
ghost use Rattle.hd_volume.specs.Headers.{HasHeader};
ghost use Rattle.hd_volume.specs.Volumes.{block_at, kind_of, HasExtents};
ghost use Rattle.hd_volume.specs.Calls.{IsRead};
ghost use Rattle.hd_check_blocks.specs.Phases.{IsRightBlock, IsWrongBlock, AreBlocksRight, IsLeastOf};
ghost use Rattle.hd_check_blocks.specs.Listing.{AreStanding};
ghost use Rattle.hd_check_blocks.specs.Places.{places_in, places_at, ArePlaces};
ghost use Rattle.hd_check_blocks.specs.Finding.{WhereNone, WhereSome, IfFindsNone, IfFindsSome};
ghost use Rattle.hd_volume.specs.declared.load.TheConstants.{MOST_BLOCKS};

use crate::fault::Fault;
use crate::free_elements::is_chain_right;
use crate::lists::list_fault;
use crate::places::Place;
use crate::wrong_place::wrong_place;
use hd_dbd::{Dbd, Refused, SegmentSize};
use hd_image::Line;
use hd_output::Work;
use hd_stores::BlockStore;
use hd_volume::{DATA, FREE, INDEX, MOST_BLOCKS, Volume, size_table};
use std::alloc::Global;

/// What is wrong with a data block that begins at an address. Where nothing is, its segments are noted.
fn data_fault(
    places: &mut Vec<Place>,
    block: &[u8],
    sizes: &[SegmentSize],
    first: u32,
) -> Result<Option<Fault>, Refused>
    requires size { (8 ≤ length block.now) × (length block.now ≤ 32768) × (length block.now % 8 ≡ 0) }
    requires eighths { (bytes : List ℕ) (place : ℕ) → size_at sizes.now bytes place % 8 ≡ 0 }
    requires data { kind_of block.now ≡ 1 }
    requires within { first + length block.now ≤ 4294967296 }
    ensures none { IfFindsNone result (HasExtents sizes.now block.now) }
    ensures places { IfFindsNone result (places.new.items ≡ places.old.items ++ places_in block.now first (parts_in sizes.now block.now)) }
    ensures some { IfFindsSome result (λ f. IsWrongBlock sizes.now block.now first f) }
    ensures refusal { OnlyMemory result }
{
    if !is_chain_right(block) {
        return Ok(Some(Fault::at(Line::WrongChain, first, 0)));
    }
    match wrong_place(places, block, sizes, first)? {
        None => Ok(None),
        Some(place) => Ok(Some(Fault::at(Line::WrongPlace, first + place as u32, 0))),
    }
}

/// What is wrong with a block, behind block 0, that begins at an address. The segments of a data block with which nothing is wrong
/// are noted.
fn block_fault(
    places: &mut Vec<Place>,
    block: &[u8],
    sizes: &[SegmentSize],
    first: u32,
) -> Result<Option<Fault>, Refused>
    requires size { (8 ≤ length block.now) × (length block.now ≤ 32768) × (length block.now % 8 ≡ 0) }
    requires eighths { (bytes : List ℕ) (place : ℕ) → size_at sizes.now bytes place % 8 ≡ 0 }
    requires within { first + length block.now ≤ 4294967296 }
    ensures none { IfFindsNone result (IsRightBlock sizes.now block.now) }
    ensures places { IfFindsNone result (places.new.items ≡ places.old.items ++ cond (kind_of block.now == 1) (places_in block.now first (parts_in sizes.now block.now)) []) }
    ensures some { IfFindsSome result (λ f. IsWrongBlock sizes.now block.now first f) }
    ensures refusal { OnlyMemory result }
{
    match block[2] {
        DATA => data_fault(places, block, sizes, first),
        INDEX | FREE => Ok(None),
        _ => Ok(Some(Fault::at(Line::NoKind, first, 0))),
    }
}

/// What is wrong with block n of a volume. The segments of a data block with which nothing is wrong are noted.
fn stored_block_fault<S: BlockStore>(
    places: &mut Vec<Place>,
    volume: &mut Volume<S>,
    dbd: &Dbd,
    sizes: &[SegmentSize],
    n: u32,
    size: usize,
) -> Result<Option<Fault>, Refused>
    requires small { (n < MOST_BLOCKS) × (size ≡ volume.old.size) × (8 ≤ size) × (size ≤ 32768) × (size % 8 ≡ 0) }
    requires there { IsTrue volume.old.is_sound → HasBlock volume.old.size volume.old.image n }
    requires size { (volume.old.size ≡ dbd.now.block_size) × (volume.old.sizes ≡ stored_sizes dbd.now.types) × (sizes.now ≡ stored_sizes dbd.now.types) }
    ensures read { IsRead volume.old result volume.new }
    ensures none { WhereNone volume.old result (IsRightBlock volume.old.sizes (block_at volume.old n)) }
    ensures places { WhereNone volume.old result (places.new.items ≡ places.old.items ++ places_at volume.old n) }
    ensures some { WhereSome volume.old result (λ f. IsWrongBlock volume.old.sizes (block_at volume.old n) (n * volume.old.size) f) }
    ensures refusal { OnlyDeviceOrMemory result }
{
    let first = n * size as u32;
    let block = volume.block(n)?;
    if block.len() != size {
        return Ok(None);
    }
    block_fault(places, block, sizes, first)
}

/// What is wrong with the blocks of a volume whose header is right; where nothing is, its segments are noted, in order of their
/// addresses.
pub fn blocks_fault<S: BlockStore>(
    alloc: Global,
    places: &mut Vec<Place>,
    volume: &mut Volume<S>,
    dbd: &Dbd,
) -> Result<Option<Fault>, Refused>
    requires empty { places.old.items ≡ [] }
    requires header { IsTrue volume.old.is_sound → HasHeader volume.old.size volume.old.image }
    requires size { (volume.old.size ≡ dbd.now.block_size) × (volume.old.sizes ≡ stored_sizes dbd.now.types) }
    ensures read { IsRead volume.old result volume.new }
    ensures none { WhereNone volume.old result (AreBlocksRight volume.old) }
    ensures places { WhereNone volume.old result (ArePlaces dbd.now.types volume.old places.new.items) }
    ensures some { WhereSome volume.old result (λ f. IsLeastOf dbd.now volume.old 2 f) }
    ensures refusal { OnlyDeviceOrMemory result }
{
    let Ok(sizes) = size_table(alloc, dbd) else {
        return Err(Refused::Memory);
    };
    let count = volume.block_count().min(MOST_BLOCKS);
    let size = volume.block_size();
    volume.begin_work(u64::from(count), Work::Blocks);
    for n in 1..count {
        volume.work_done(1);
        match stored_block_fault(places, volume, dbd, &sizes, n, size)? {
            None => {}
            Some(fault) => return Ok(Some(fault)),
        }
    }
    Ok(None)
}

/// All that is wrong with the blocks of a volume whose header is right: of each block what comes first.
pub fn blocks_faults<S: BlockStore>(
    alloc: Global,
    volume: &mut Volume<S>,
    dbd: &Dbd,
) -> Result<Vec<Fault>, Refused>
    requires header { IsTrue volume.old.is_sound → HasHeader volume.old.size volume.old.image }
    requires size { (volume.old.size ≡ dbd.now.block_size) × (volume.old.sizes ≡ stored_sizes dbd.now.types) }
    ensures read { IsRead volume.old result volume.new }
    ensures faults { IfOk result (λ faults. IsTrue volume.old.is_sound → AreStanding dbd.now volume.old 2 faults.items) }
    ensures refusal { OnlyDeviceOrMemory result }
{
    let Ok(sizes) = size_table(alloc, dbd) else {
        return Err(Refused::Memory);
    };
    let mut faults = Vec::new(alloc);
    let mut places = Vec::new(alloc);
    let count = volume.block_count().min(MOST_BLOCKS);
    let size = volume.block_size();
    for n in 1..count {
        let found = stored_block_fault(&mut places, volume, dbd, &sizes, n, size)?;
        list_fault(&mut faults, found)?;
        places.clear();
    }
    Ok(faults)
}
