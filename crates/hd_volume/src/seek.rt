ghost use Rattle.std.specs.Prelude.{◌≡◌, ◌%◌, ◌≤◌, ◌<◌, ℕ, true, false, IsTrue, slice_index, slice_set, vec_len, IfOk, IfSome, IfNone};
ghost use Rattle.hd_dbd.specs.Refusals.{OnlyDevice};
ghost use Rattle.hd_volume.specs.Buffers.{IsFetch};
ghost use Rattle.hd_volume.specs.Spaces.{IsSpaceOf, AreDivided, IsSeen, blocks_in, content_at, KeepsTables, IsSeenAt, NoneIsSeen, HasHoleIn, IsLowestFree, NoneIsFreeBelow};
ghost use Rattle.hd_volume.specs.declared.load.TheConstants.{MOST_BLOCKS};

use crate::blocks::Blocks;
use crate::space::{Content, DATA, FREE, Space, set_content};
use hd_block::largest_free;
use hd_dbd::{Refused, SegmentSize};
use hd_stores::BlockStore;

/// The lowest data block with a hole of at least so many bytes, a multiple of 8, if there is one. Blocks that can't have one are
/// not read.
pub fn seek_hole<S: BlockStore>(
    blocks: &mut Blocks<S>,
    space: &mut Space,
    sizes: &[SegmentSize],
    size: u16,
) -> Result<Option<u32>, Refused>
    requires least { 8 ≤ blocks.old.size }
    requires whole { size % 8 ≡ 0 }
    requires few { vec_len space.old.contents ≤ MOST_BLOCKS }
    requires space_is { IsTrue blocks.old.is_sound → IsSpaceOf blocks.old.size sizes.now blocks.old.image space.old }
    requires divided { IsTrue blocks.old.is_sound → AreDivided sizes.now blocks.old.size blocks.old.image }
    ensures fetch { IsFetch blocks.old result blocks.new }
    ensures space { IsTrue blocks.new.is_sound → IsSpaceOf blocks.old.size sizes.now blocks.old.image space.new }
    ensures tables { KeepsTables space.old space.new }
    ensures found { IfOk result (λ o. IsTrue blocks.old.is_sound → IfSome o (λ n. IsSeenAt sizes.now blocks.old.size blocks.old.image size n)) }
    ensures none { IfOk result (λ o. IsTrue blocks.old.is_sound → IfNone o (NoneIsSeen sizes.now blocks.old.size blocks.old.image size)) }
    ensures small { IfOk result (λ o. IfSome o (λ n. n < MOST_BLOCKS)) }
    ensures refusal { OnlyDevice result }
{
    let eighths = size as usize / 8;
    let start = space.lowest.get(eighths).copied().unwrap_or(1).max(1);
    let count = space.contents.len() as u32;
    for n in start..count {
        if try_block(blocks, space, sizes, n, size)? {
            set_lowest(&mut space.lowest, eighths, n);
            return Ok(Some(n));
        }
    }
    set_lowest(&mut space.lowest, eighths, count);
    Ok(None)
}

/// A block is for data and has a hole of this size. It is read only where it may have one, along its free elements alone, and
/// what is kept of it is mended.
fn try_block<S: BlockStore>(
    blocks: &mut Blocks<S>,
    space: &mut Space,
    sizes: &[SegmentSize],
    n: u32,
    size: u16,
) -> Result<bool, Refused>
    requires least { 8 ≤ blocks.old.size }
    requires space_is { IsTrue blocks.old.is_sound → IsSpaceOf blocks.old.size sizes.now blocks.old.image space.old }
    requires divided { IsTrue blocks.old.is_sound → AreDivided sizes.now blocks.old.size blocks.old.image }
    requires there { IsTrue blocks.old.is_sound → (0 < n) × (n < blocks_in blocks.old.size blocks.old.image) }
    ensures fetch { IsFetch blocks.old result blocks.new }
    ensures space { IsTrue blocks.new.is_sound → IsSpaceOf blocks.old.size sizes.now blocks.old.image space.new }
    ensures tables { KeepsTables space.old space.new }
    ensures lowest { space.new.lowest ≡ space.old.lowest }
    ensures others { (m : ℕ) → (m ≡ n → ⊥) → content_at space.new m ≡ content_at space.old m }
    ensures found { IfOk result (λ f. IsTrue blocks.old.is_sound → f ≡ true → HasHoleIn sizes.now blocks.old.size blocks.old.image size n) }
    ensures passed { IfOk result (λ f. IsTrue blocks.old.is_sound → f ≡ false → (content_at space.new n).kind ≡ 1 → (content_at space.new n).hole < size) }
    ensures refusal { OnlyDevice result }
{
    let content = content_of_block(space, n);
    if content.kind != DATA || content.hole < size {
        return Ok(false);
    }
    blocks.fetch(n)?;
    let hole = largest_free(blocks.hand());
    set_content(space, n, Content { kind: DATA, hole });
    Ok(hole >= size)
}

/// What is kept of a block; nothing of one that is not there.
pub fn content_of_block(space: &Space, n: u32) -> Content
    ensures { result ≡ content_at space.now n }
{
    let none = Content { kind: 0, hole: 0 };
    space.contents.get(n as usize).copied().unwrap_or(none)
}

/// Notes the lowest block that may have a hole of so many times 8 bytes.
fn set_lowest(lowest: &mut Vec<u32>, eighths: usize, n: u32)
    ensures len { vec_len lowest.new ≡ vec_len lowest.old }
    ensures value { lowest.new.items ≡ slice_set lowest.old.items eighths n }
{
    if eighths < lowest.len() {
        lowest[eighths] = n;
    }
}

/// The lowest free block; 0 where there is none.
pub fn seek_free(space: &mut Space) -> u32
    requires { vec_len space.old.contents ≤ MOST_BLOCKS }
    ensures contents { space.new.contents ≡ space.old.contents }
    ensures lowest { space.new.lowest ≡ space.old.lowest }
    ensures free { space.new.free ≡ space.old.free }
    ensures found { 0 < result → IsLowestFree space.old result space.new }
    ensures none { result ≡ 0 → (space.new.lowest_free ≡ space.old.lowest_free) × NoneIsFreeBelow space.old (vec_len space.old.contents) }
{
    let count = space.contents.len() as u32;
    for n in space.lowest_free.max(1)..count {
        if content_of_block(space, n).kind == FREE {
            space.lowest_free = n;
            return n;
        }
    }
    0
}

/// Some data block has a hole of at least this size. Blocks that can't have one are not read.
pub fn seek_size<S: BlockStore>(
    blocks: &mut Blocks<S>,
    space: &mut Space,
    sizes: &[SegmentSize],
    size: u16,
) -> Result<bool, Refused>
    requires least { 8 ≤ blocks.old.size }
    requires few { vec_len space.old.contents ≤ MOST_BLOCKS }
    requires space_is { IsTrue blocks.old.is_sound → IsSpaceOf blocks.old.size sizes.now blocks.old.image space.old }
    requires divided { IsTrue blocks.old.is_sound → AreDivided sizes.now blocks.old.size blocks.old.image }
    ensures fetch { IsFetch blocks.old result blocks.new }
    ensures space { IsTrue blocks.new.is_sound → IsSpaceOf blocks.old.size sizes.now blocks.old.image space.new }
    ensures tables { KeepsTables space.old space.new }
    ensures found { IfOk result (λ f. IsTrue blocks.old.is_sound → f ≡ true → IsSeen sizes.now blocks.old.size blocks.old.image size) }
    ensures none { IfOk result (λ f. IsTrue blocks.old.is_sound → f ≡ false → NoneIsSeen sizes.now blocks.old.size blocks.old.image size) }
    ensures refusal { OnlyDevice result }
{
    let count = space.contents.len() as u32;
    for n in 1..count {
        if try_block(blocks, space, sizes, n, size)? {
            return Ok(true);
        }
    }
    Ok(false)
}
