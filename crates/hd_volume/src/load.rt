ghost use Rattle.std.specs.Prelude.{◌≡◌, ◌+◌, ◌≤◌, ◌<◌, ◌==◌, ◌++◌, ◌∷◌, ◌%◌, [], ℕ, List, vec_len, slice_index, IsTrue, length, IfOk, OnOk, OnErr};
ghost use Rattle.std.specs.Vec.{vec_capacity};
ghost use Rattle.hd_bytes.specs.Blocks.{block_of, HasBlock};
ghost use Rattle.hd_dbd.specs.declared.facts.SegmentSize.{SegmentSize};
ghost use Rattle.hd_dbd.specs.Facts.{stored_sizes};
ghost use Rattle.hd_dbd.specs.Refusals.{OnlyDevice, OnlyDeviceOrMemory, OnlyMemory};
ghost use Rattle.hd_stores.specs.Stores.{CountsDevice, StaysSound};
ghost use Rattle.hd_volume.specs.Rooms.{one_if};
ghost use Rattle.hd_volume.specs.Spaces.{IsSpaceOf, IsContent, AreSizes};
ghost use Rattle.hd_volume.specs.declared.load.TheConstants.{MOST_BLOCKS};

use crate::blocks::Blocks;
use crate::space::{Content, FREE, Space, content_of};
use hd_dbd::{Dbd, Refused, SegmentSize};
use hd_stores::BlockStore;
use std::alloc::{AllocError, Global};

/// The most blocks that a volume has.
pub const MOST_BLOCKS: u32 = 65536;

/// The bytes that the segments of each type take, by code.
pub fn size_table(alloc: Global, dbd: &Dbd) -> Result<Vec<SegmentSize>, AllocError>
    ensures sizes { IfOk result (λ v. v.items ≡ stored_sizes dbd.now.types) }
    ensures fit { IfOk result (λ v. AreSizes dbd.now.block_size v.items) }
    ensures block { (128 ≤ dbd.now.block_size) × (dbd.now.block_size ≤ 32768) × (dbd.now.block_size % 8 ≡ 0) }
{
    let count = dbd.types().len();
    let mut sizes = Vec::new(alloc);
    sizes.push(SegmentSize::Fixed(0))?;
    for place in 0..count {
        sizes.push(dbd.segment_size(place as u8 + 1))?;
    }
    Ok(sizes)
}

/// What a volume keeps of its blocks, each of which is read.
pub fn survey<S: BlockStore>(
    alloc: Global,
    blocks: &mut Blocks<S>,
    sizes: &[SegmentSize],
) -> Result<Space, Refused>
    requires least { 8 ≤ blocks.old.size }
    requires stands { IsTrue blocks.old.is_sound → blocks.old.stored ≡ blocks.old.image }
    ensures space { IfOk result (λ space. IsTrue blocks.old.is_sound → IsSpaceOf blocks.old.size sizes.now blocks.old.image space) }
    ensures small { IfOk result (λ space. vec_len space.contents ≤ MOST_BLOCKS) }
    ensures image { IsTrue blocks.new.is_sound → (blocks.new.image ≡ blocks.old.image) × (blocks.new.stored ≡ blocks.old.stored) }
    ensures refusal { OnlyDeviceOrMemory result }
    ensures counts { CountsDevice result blocks.old.failures blocks.new.failures }
    ensures sound { StaysSound result blocks.old.is_sound blocks.new.is_sound }
    ensures committed { blocks.new.committed ≡ blocks.old.committed }
    ensures size { blocks.new.size ≡ blocks.old.size }
    ensures room { blocks.new.room ≡ blocks.old.room }
{
    let size = blocks.block_size() as u64;
    let count = (blocks.length() / size).min(u64::from(MOST_BLOCKS)) as u32;
    let mut space = empty_space(alloc, greatest_size(sizes) / 8 + 1)?;
    for n in 0..count {
        let content = survey_block(blocks, n)?;
        note(&mut space, content)?;
    }
    Ok(space)
}

/// The most bytes that a segment takes.
fn greatest_size(sizes: &[SegmentSize]) -> usize
    ensures { result ≤ 131080 }
{
    let mut greatest = 0;
    for size in sizes {
        let most = match size {
            SegmentSize::Fixed(size) => *size as usize,
            SegmentSize::Varying(prefix, _, most) => *prefix as usize + *most as usize + 7,
        };
        greatest = greatest.max(most);
    }
    greatest
}

/// What is kept of no block, with the lowest blocks for so many multiples of 8.
fn empty_space(alloc: Global, multiples: usize) -> Result<Space, Refused>
    ensures contents { IfOk result (λ space. (space.contents.items ≡ []) × (vec_len space.contents ≡ 0)) }
    ensures lowest { IfOk result (λ space. (c : ℕ) → slice_index space.lowest.items c ≤ 1) }
    ensures free { IfOk result (λ space. (space.free ≡ 0) × (space.lowest_free ≡ 1)) }
    ensures refusal { OnlyMemory result }
{
    let Ok(lowest) = vec![in alloc; 1u32; multiples] else {
        return Err(Refused::Memory);
    };
    Ok(Space {
        contents: Vec::new(alloc),
        lowest,
        free: 0,
        lowest_free: 1,
    })
}

/// What is kept of a block, which is read; block 0 is left aside.
fn survey_block<S: BlockStore>(blocks: &mut Blocks<S>, n: u32) -> Result<Content, Refused>
    requires least { 8 ≤ blocks.old.size }
    requires there { IsTrue blocks.old.is_sound → HasBlock blocks.old.size blocks.old.image n }
    ensures content { IfOk result (λ content. IsTrue blocks.old.is_sound → 0 < n → (sizes : List SegmentSize) → IsContent sizes (block_of blocks.old.size blocks.old.image n) content) }
    ensures first { IfOk result (λ content. n ≡ 0 → content.kind ≡ 0) }
    ensures image { OnOk result (IsTrue blocks.old.is_sound → blocks.new.image ≡ blocks.old.image) }
    ensures stands { OnOk result (IsTrue blocks.old.is_sound → blocks.old.stored ≡ blocks.old.image → blocks.new.stored ≡ blocks.old.image) }
    ensures refusal { OnlyDevice result }
    ensures counts { CountsDevice result blocks.old.failures blocks.new.failures }
    ensures sound { StaysSound result blocks.old.is_sound blocks.new.is_sound }
    ensures committed { blocks.new.committed ≡ blocks.old.committed }
    ensures size { blocks.new.size ≡ blocks.old.size }
    ensures room { blocks.new.room ≡ blocks.old.room }
{
    if n == 0 {
        return Ok(Content { kind: 0, hole: 0 });
    }
    blocks.fetch(n)?;
    Ok(content_of(blocks.hand()))
}

/// Notes the content of the next block.
pub fn note(space: &mut Space, content: Content) -> Result<(), Refused>
    requires { space.old.free < 4294967295 }
    ensures contents { OnOk result (space.new.contents.items ≡ space.old.contents.items ++ content ∷ []) }
    ensures len { OnOk result (vec_len space.new.contents ≡ vec_len space.old.contents + 1) }
    ensures free { OnOk result (space.new.free ≡ space.old.free + one_if (content.kind == 3)) }
    ensures lowest { space.new.lowest ≡ space.old.lowest }
    ensures lowest_free { space.new.lowest_free ≡ space.old.lowest_free }
    ensures refusal { OnlyMemory result }
    ensures full { OnErr result (vec_capacity space.old.contents ≤ vec_len space.old.contents) }
{
    if space.contents.push(content).is_err() {
        return Err(Refused::Memory);
    }
    if content.kind == FREE {
        space.free += 1;
    }
    Ok(())
}
