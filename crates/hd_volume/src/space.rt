ghost use Rattle.std.specs.Prelude.{◌≡◌, ◌≤◌, ◌<◌, ◌+◌, ◌-◌, ℕ, List, ◌++◌, ◌∷◌, [], length, slice_index, slice_set, vec_len, OnOk, IfErr};
ghost use Rattle.hd_dbd.specs.Refusals.{OnlyMemory};
ghost use Rattle.std.specs.Vec.{vec_capacity};
ghost use Rattle.hd_dbd.specs.declared.facts.SegmentSize.{SegmentSize};
ghost use Rattle.hd_volume.specs.Spaces.{IsContent};

use hd_block::largest_free;
use hd_dbd::Refused;

/// The kind of a data block.
pub const DATA: u8 = 1;

/// The kind of an index block.
pub const INDEX: u8 = 2;

/// The kind of a free block.
pub const FREE: u8 = 3;

/// What is kept of a block: its kind, and a length that no hole of it exceeds, which says something of a data block alone.
#[derive(Clone, Copy)]
pub struct Content {
    pub kind: u8,
    pub hole: u16,
}

/// What a volume keeps of its blocks, so that no block is read in vain: each one's content, block 0 left aside; for each multiple
/// of 8 the lowest data block that may have a hole of so many bytes; how many blocks are free, and the lowest that may be.
#[derive(Drop)]
pub struct Space {
    pub contents: Vec<Content>,
    pub lowest: Vec<u32>,
    pub free: u32,
    pub lowest_free: u32,
}

/// What is kept of a block with these bytes.
pub fn content_of(bytes: &[u8]) -> Content
    requires { 8 ≤ length bytes.now }
    ensures { (sizes : List SegmentSize) → IsContent sizes bytes.now result }
{
    let kind = bytes[2];
    let hole = if kind == DATA { largest_free(bytes) } else { 0 };
    Content { kind, hole }
}

/// Notes another content of a block.
pub fn set_content(space: &mut Space, n: u32, content: Content)
    ensures contents { space.new.contents.items ≡ slice_set space.old.contents.items n content }
    ensures len { vec_len space.new.contents ≡ vec_len space.old.contents }
    ensures capacity { vec_capacity space.new.contents ≡ vec_capacity space.old.contents }
    ensures lowest { space.new.lowest ≡ space.old.lowest }
    ensures free { space.new.free ≡ space.old.free }
    ensures lowest_free { space.new.lowest_free ≡ space.old.lowest_free }
{
    let n = n as usize;
    if n < space.contents.len() {
        space.contents[n] = content;
    }
}

/// Makes each number at most n.
pub fn lower(numbers: &mut Vec<u32>, n: u32)
    ensures len { vec_len numbers.new ≡ vec_len numbers.old }
    ensures lower { (c : ℕ) → (slice_index numbers.new.items c ≤ slice_index numbers.old.items c) × (slice_index numbers.new.items c ≤ n) }
{
    for number in numbers.iter_mut() {
        if *number > n {
            *number = n;
        }
    }
}

/// Notes that a data block may have a hole of so many bytes.
pub fn open_block(space: &mut Space, n: u32, hole: u16)
    ensures contents { space.new.contents.items ≡ slice_set space.old.contents.items n (record { kind = 1; hole = hole }) }
    ensures len { vec_len space.new.contents ≡ vec_len space.old.contents }
    ensures capacity { vec_capacity space.new.contents ≡ vec_capacity space.old.contents }
    ensures lowest { (c : ℕ) → (slice_index space.new.lowest.items c ≤ slice_index space.old.lowest.items c) × (slice_index space.new.lowest.items c ≤ n) }
    ensures free { space.new.free ≡ space.old.free }
    ensures lowest_free { space.new.lowest_free ≡ space.old.lowest_free }
{
    set_content(space, n, Content { kind: DATA, hole });
    lower(&mut space.lowest, n);
}

/// Notes that a free block has got another content.
pub fn fill_free(space: &mut Space, n: u32, content: Content)
    ensures contents { space.new.contents.items ≡ slice_set space.old.contents.items n content }
    ensures len { vec_len space.new.contents ≡ vec_len space.old.contents }
    ensures capacity { vec_capacity space.new.contents ≡ vec_capacity space.old.contents }
    ensures lowest { (c : ℕ) → slice_index space.new.lowest.items c ≤ slice_index space.old.lowest.items c }
    ensures opened { content.kind ≡ 1 → (c : ℕ) → slice_index space.new.lowest.items c ≤ n }
    ensures free { space.new.free ≡ space.old.free - 1 }
    ensures lowest_free { space.new.lowest_free ≡ space.old.lowest_free }
{
    set_content(space, n, content);
    if content.kind == DATA {
        lower(&mut space.lowest, n);
    }
    space.free = space.free.saturating_sub(1);
}

/// Notes that a block has become free.
pub fn empty_block(space: &mut Space, n: u32)
    ensures contents { space.new.contents.items ≡ slice_set space.old.contents.items n (record { kind = 3; hole = 0 }) }
    ensures len { vec_len space.new.contents ≡ vec_len space.old.contents }
    ensures capacity { vec_capacity space.new.contents ≡ vec_capacity space.old.contents }
    ensures lowest { space.new.lowest ≡ space.old.lowest }
    ensures free { space.old.free < 4294967295 → space.new.free ≡ space.old.free + 1 }
    ensures lowest_free { (space.new.lowest_free ≤ space.old.lowest_free) × (space.new.lowest_free ≤ n) }
{
    set_content(
        space,
        n,
        Content {
            kind: FREE,
            hole: 0,
        },
    );
    space.free = space.free.saturating_add(1);
    space.lowest_free = space.lowest_free.min(n);
}

/// Finds memory for the content of one block more.
pub fn make_room(space: &mut Space) -> Result<(), Refused>
    ensures some { OnOk result (vec_len space.new.contents < vec_capacity space.new.contents) }
    ensures contents { space.new.contents.items ≡ space.old.contents.items }
    ensures len { vec_len space.new.contents ≡ vec_len space.old.contents }
    ensures capacity { vec_capacity space.old.contents ≤ vec_capacity space.new.contents }
    ensures full { IfErr result (λ _. vec_capacity space.old.contents ≤ vec_len space.old.contents) }
    ensures lowest { space.new.lowest ≡ space.old.lowest }
    ensures free { (space.new.free ≡ space.old.free) × (space.new.lowest_free ≡ space.old.lowest_free) }
    ensures refusal { OnlyMemory result }
{
    if space.contents.len() < space.contents.capacity() {
        return Ok(());
    }
    if space.contents.reserve(1).is_err() {
        return Err(Refused::Memory);
    }
    Ok(())
}

/// Notes a free block behind the last, for which memory was found.
pub fn add_free(space: &mut Space)
    requires { vec_len space.old.contents < vec_capacity space.old.contents }
    ensures contents { space.new.contents.items ≡ space.old.contents.items ++ record { kind = 3; hole = 0 } ∷ [] }
    ensures len { vec_len space.new.contents ≡ vec_len space.old.contents + 1 }
    ensures capacity { vec_capacity space.old.contents ≤ vec_capacity space.new.contents }
    ensures lowest { space.new.lowest ≡ space.old.lowest }
    ensures free { space.old.free < 4294967295 → space.new.free ≡ space.old.free + 1 }
    ensures lowest_free { (space.new.lowest_free ≤ space.old.lowest_free) × (space.new.lowest_free ≤ vec_len space.old.contents) }
{
    let n = space.contents.len();
    let block = Content {
        kind: FREE,
        hole: 0,
    };
    if space.contents.push(block).is_err() {
        return;
    }
    space.free = space.free.saturating_add(1);
    if (space.lowest_free as usize) > n {
        space.lowest_free = n as u32;
    }
}
