ghost use Rattle.std.specs.Prelude.{◌≡◌, ◌<◌, ◌≤◌, ◌⊎◌, length, IsTrue, IfOk, IfErr};
ghost use Rattle.hd_bytes.specs.Blocks.{HasBlock};
ghost use Rattle.hd_dbd.specs.Facts.{stored_sizes};
ghost use Rattle.hd_volume.specs.Headers.{header_of};
ghost use Rattle.hd_volume.specs.Calls.{IsRead};
ghost use Rattle.hd_check.specs.Joining.{roots_among};
ghost use Rattle.hd_check.specs.Checks.{IsPassed, IsFaultOf, as_call};

use crate::phases::first_fault;
use hd_check_blocks::{Fault, Place};
use hd_dbd::{Dbd, Refused};
use hd_stores::BlockStore;
use hd_volume::Volume;
use std::alloc::Global;
use thiserror::Error;

/// A volume that passes: its blocks, its segments and its roots.
#[derive(Clone, Copy, Debug, Drop, PartialEq, Eq)]
pub struct Passed {
    pub blocks: u32,
    pub segments: u32,
    pub roots: u32,
}

/// Why a volume does not pass: its least fault; or no memory, or a failed access, which say nothing of the volume.
#[derive(Clone, Copy, Debug, Drop, PartialEq, Eq, Error)]
pub enum CheckFault {
    /// The volume has this fault, and no other comes before it.
    #[error("{0}")]
    Fault(Fault),
    /// No memory.
    #[error("no memory")]
    Memory,
    /// An access of the store failed.
    #[error("device failed")]
    Device,
}

/// A number of segments, which are fewer than 2 to the 32.
fn narrowed(count: usize) -> u32
    ensures { count < 4294967296 → result ≡ count }
{
    count.min(u32::MAX as usize) as u32
}

/// How many of the places are those of roots.
fn root_count(places: &[Place]) -> usize
    ensures value { result ≡ roots_among places.now }
    ensures few { result ≤ length places.now }
{
    let mut count = 0;
    for place in places {
        if place.code == 1 {
            count += 1;
        }
    }
    count
}

/// What is counted of a volume with these segments.
fn counts_of<S: BlockStore>(places: &[Place], volume: &Volume<S>) -> Passed
    ensures blocks { IsTrue volume.now.is_sound → HasBlock volume.now.size volume.now.image 0 → result.blocks ≡ (header_of volume.now.image).count }
    ensures segments { length places.now < 4294967296 → result.segments ≡ length places.now }
    ensures roots { length places.now < 4294967296 → result.roots ≡ roots_among places.now }
{
    Passed {
        blocks: volume.block_count(),
        segments: narrowed(places.len()),
        roots: narrowed(root_count(places)),
    }
}

/// Why a check came to no end.
fn refusal_of(refused: Refused) -> CheckFault
    requires { (refused ≡ Refused.Device) ⊎ (refused ≡ Refused.Memory) }
    ensures { ((refused ≡ Refused.Device) × (result ≡ CheckFault.Device)) ⊎ ((refused ≡ Refused.Memory) × (result ≡ CheckFault.Memory)) }
{
    match refused {
        Refused::Device => CheckFault::Device,
        _ => CheckFault::Memory,
    }
}

/// Whether a volume holds a forest of its database. It passes exactly where it holds one, and then it holds no other; else its least
/// fault is named, by phase, then by address, then by number. No byte is changed.
///
/// The time is n log n in the pointers. Each block is read once for its extents, and again each time that an index entry comes to it from another.
/// At most 64 segments are looked at, whether they lie scattered. Where they do, each block is read once more, in order, for what its segments say; else
/// again each time that the walk along the pointers comes to it from another, and for the segments that name children. Two twins are read once more where
/// the first eight bytes of their keys do not tell their order. Where the walk sees a pointer that is wrong the phases read the blocks again, each at most
/// three times, and one or two times more for each twin whose keys lie in different blocks.
pub fn check<S: BlockStore>(
    alloc: Global,
    volume: &mut Volume<S>,
    dbd: &Dbd,
) -> Result<Passed, CheckFault>
    requires size { (volume.old.size ≡ dbd.now.block_size) × (volume.old.sizes ≡ stored_sizes dbd.now.types) }
    ensures read { IsRead volume.old (as_call result) volume.new }
    ensures passed { IfOk result (λ p. IsTrue volume.old.is_sound → IsPassed dbd.now volume.old p) }
    ensures fault { IfErr result (λ e. IsTrue volume.old.is_sound → IsFaultOf dbd.now volume.old e) }
{
    let mut places = Vec::new(alloc);
    match first_fault(alloc, &mut places, volume, dbd) {
        Ok(None) => Ok(counts_of(&places, volume)),
        Ok(Some(fault)) => Err(CheckFault::Fault(fault)),
        Err(refused) => Err(refusal_of(refused)),
    }
}
