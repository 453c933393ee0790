//! Who the parents of long twin chains are.
ghost use Rattle.std.specs.Prelude.{◌≡◌, ◌≤◌, ◌<◌, length, IsTrue};
ghost use Rattle.hd_bytes.specs.Blocks.{HasBlock};
ghost use Rattle.hd_dbd.specs.Refusals.{OnlyDeviceOrMemory};
ghost use Rattle.hd_volume.specs.Calls.{IsRead};
ghost use Rattle.hd_volume.specs.declared.load.TheConstants.{MOST_BLOCKS};

use crate::survey::TypeUse;
use crate::twins::type_at;
use hd_block::{Part, Parts};
use hd_dbd::{Dbd, Refused, SegmentSize};
use hd_prefix::{Layout, Pointer};
use hd_stores::BlockStore;
use hd_volume::{DATA, MOST_BLOCKS, Volume};

/// Finds the parent of the longest twin chain of each type, where that is long: the segment whose first child begins it. Each block is read once.
pub fn find_parents<S: BlockStore>(
    types: &mut Vec<TypeUse>,
    volume: &mut Volume<S>,
    dbd: &Dbd,
    sizes: &[SegmentSize],
) -> Result<(), Refused>
    ensures read { IsRead volume.old result volume.new }
    ensures refusal { OnlyDeviceOrMemory result }
{
    let size = volume.block_size();
    let count = (volume.length() / size as u64).min(u64::from(MOST_BLOCKS)) as u32;
    for n in 0..count {
        find_in_block(types, volume, dbd, sizes, n, size)?;
    }
    Ok(())
}

/// The same in a block.
fn find_in_block<S: BlockStore>(
    types: &mut Vec<TypeUse>,
    volume: &mut Volume<S>,
    dbd: &Dbd,
    sizes: &[SegmentSize],
    n: u32,
    size: usize,
) -> Result<(), Refused>
    requires small { (128 ≤ size) × (size ≤ 32768) }
    requires there { IsTrue volume.old.is_sound → HasBlock volume.old.size volume.old.image n }
    ensures read { IsRead volume.old result volume.new }
    ensures refusal { OnlyDeviceOrMemory result }
{
    let first = n.saturating_mul(size as u32);
    let block = volume.block(n)?;
    if n != 0 && block.len() == size && block[2] == DATA {
        find_in_data(types, block, dbd, sizes, first);
    }
    Ok(())
}

/// The same in a data block that begins at an address.
fn find_in_data(
    types: &mut Vec<TypeUse>,
    block: &[u8],
    dbd: &Dbd,
    sizes: &[SegmentSize],
    first: u32,
)
    requires { (128 ≤ length block.now) × (length block.now ≤ 32768) }
{
    for part in Parts::new(block, sizes) {
        if let Part::Used(place, _) = part {
            let address = first.saturating_add(u32::from(place));
            let segment = block.get(place as usize..).unwrap_or(&[]);
            note_first_children(types, dbd, segment, address);
        }
    }
}

/// Notes the segment at an address as the parent of each long chain that one of its first children begins.
fn note_first_children(types: &mut Vec<TypeUse>, dbd: &Dbd, segment: &[u8], address: u32) {
    let code = segment.first().copied().unwrap_or(0);
    let layout = Layout::of(dbd, code);
    if segment.len() < layout.prefix_length() as usize {
        return;
    }
    for child in dbd.children_of(code) {
        let begins = layout.read(segment, Pointer::FirstChild(*child));
        if let Some(own) = type_at(types, *child) {
            if own.has_long_chain() && own.longest_first == begins {
                own.longest_parent = address;
            }
        }
    }
}
