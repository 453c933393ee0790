//! The table of the index blocks, which phase 8 notes.
ghost use Rattle.std.specs.Prelude.{◌≡◌, ◌*◌, ◌<◌, length, IfNone, IfSome};
ghost use Rattle.hd_check_index.specs.IndexPhases.{BlocksAscend, IsBlockOf, index_block_at};

/// An index block, by number, and the next one on its level, 0 for none.
#[derive(Clone, Copy, Debug)]
pub struct ChainedBlock {
    pub number: u32,
    pub next: u32,
}

/// What an index block says of its form: its level, and how many entries it counts.
#[derive(Clone, Copy, Debug)]
pub struct Form {
    pub level: u8,
    pub count: u16,
}

/// Where the index block of a number stands among the others, if there is one.
pub fn position_of(blocks: &[ChainedBlock], number: u32) -> Option<usize>
    ensures some { IfSome result (λ i. (i < length blocks.now) × ((index_block_at blocks.now i).number ≡ number)) }
    ensures none { BlocksAscend 0 blocks.now → IfNone result ((b : ChainedBlock) → IsBlockOf b blocks.now → b.number ≡ number → ⊥) }
{
    let mut low = 0;
    let mut high = blocks.len();
    while low < high {
        let middle = low + (high - low) / 2;
        let block = blocks[middle];
        if block.number == number {
            return Some(middle);
        }
        if block.number < number {
            low = middle + 1;
        } else {
            high = middle;
        }
    }
    None
}

/// Where a block begins, in a volume of blocks of a size.
pub fn block_address(number: u32, size: u32) -> u32
    ensures { number * size < 4294967296 → result ≡ number * size }
{
    number.wrapping_mul(size)
}
