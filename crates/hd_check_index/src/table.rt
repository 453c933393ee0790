//! The table of the index blocks.
ghost use Rattle.std.specs.Prelude.{◌≡◌, ◌≤◌, ◌<◌, [], length, IsTrue, OnOk, IfNone, IfSome};
ghost use Rattle.hd_bytes.specs.Blocks.{HasBlock};
ghost use Rattle.hd_dbd.specs.Refusals.{OnlyDeviceOrMemory};
ghost use Rattle.hd_volume.specs.Headers.{HasHeader};
ghost use Rattle.hd_volume.specs.Calls.{IsRead};
ghost use Rattle.hd_volume.specs.declared.load.TheConstants.{MOST_BLOCKS};
ghost use Rattle.hd_check_index.specs.Tables.{AreIndexBlocks, BlocksAscend, IsBlockOf};
ghost use Rattle.hd_check_index.specs.NotedBlocks.{noted_at, IsNotedBehind};

use hd_dbd::Refused;
use hd_index_blocks::{FIRST, IndexBlock};
use hd_stores::BlockStore;
use hd_volume::{INDEX, MOST_BLOCKS, Volume};

/// An index block: its number, its level, how many entries it counts, and the next block on its level, 0 for none.
#[derive(Clone, Copy, Debug)]
pub struct NotedBlock {
    pub number: u32,
    pub level: u8,
    pub count: u16,
    pub next: u32,
}

/// Notes block n, behind block 0, if it is an index block.
fn note_block<S: BlockStore>(
    blocks: &mut Vec<NotedBlock>,
    volume: &mut Volume<S>,
    n: u32,
) -> Result<(), Refused>
    requires there { IsTrue volume.old.is_sound → HasBlock volume.old.size volume.old.image n }
    requires later { 0 < n }
    requires small { n < MOST_BLOCKS }
    requires least { 12 ≤ volume.old.size }
    ensures read { IsRead volume.old result volume.new }
    ensures noted { OnOk result (IsTrue volume.old.is_sound → IsNotedBehind volume.old n blocks.old.items blocks.new.items) }
    ensures refusal { OnlyDeviceOrMemory result }
{
    if volume.kind(n) != INDEX {
        return Ok(());
    }
    let bytes = volume.block(n)?;
    if bytes.len() < FIRST {
        return Ok(());
    }
    let block = IndexBlock {
        bytes,
        key_length: 0,
    };
    let noted = NotedBlock {
        number: n,
        level: block.level(),
        count: block.stated_count(),
        next: block.next(),
    };
    blocks.push(noted).map_err(|_| Refused::Memory)?;
    Ok(())
}

/// Notes the index blocks of a volume, in order of their numbers.
pub fn note_blocks<S: BlockStore>(
    blocks: &mut Vec<NotedBlock>,
    volume: &mut Volume<S>,
) -> Result<(), Refused>
    requires empty { blocks.old.items ≡ [] }
    requires header { IsTrue volume.old.is_sound → HasHeader volume.old.size volume.old.image }
    ensures read { IsRead volume.old result volume.new }
    ensures blocks { OnOk result (IsTrue volume.old.is_sound → AreIndexBlocks volume.old blocks.new.items) }
    ensures refusal { OnlyDeviceOrMemory result }
{
    let least = volume.block_size();
    let count = volume.block_count().min(MOST_BLOCKS);
    for n in 1..count {
        note_block(blocks, volume, n)?;
    }
    Ok(())
}

/// Where the index block of a number stands among the others, if there is one.
pub fn position_of(blocks: &[NotedBlock], number: u32) -> Option<usize>
    ensures some { IfSome result (λ i. (i < length blocks.now) × ((noted_at blocks.now i).number ≡ number)) }
    ensures none { BlocksAscend 0 blocks.now → IfNone result ((b : NotedBlock) → IsBlockOf b blocks.now → b.number ≡ number → ⊥) }
{
    let mut low = 0;
    let mut high = blocks.len();
    while low < high {
        let middle = low + (high - low) / 2;
        let block = blocks[middle];
        if block.number == number {
            return Some(middle);
        }
        if block.number < number {
            low = middle + 1;
        } else {
            high = middle;
        }
    }
    None
}
