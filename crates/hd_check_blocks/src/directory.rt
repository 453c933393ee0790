//! Where to look first for an address in the table of places.
ghost use Rattle.std.specs.Prelude.{◌≤◌};
ghost use Rattle.hd_dbd.specs.Refusals.{OnlyMemory};

use crate::places::Place;
use hd_dbd::Refused;
use std::alloc::Global;

/// How many grains there are at most for each place, but for those of one stretch.
const GRAINS: usize = 16;

/// A grain has at least 8 bytes, in which one segment at most begins.
const LEAST_SHIFT: u32 = 3;

/// How many grains a stretch has.
const STRETCH: u32 = 64;

/// A stretch of the addresses: in which of its grains a segment begins, a bit for each from the lowest on, and how many places come before it.
#[derive(Clone, Copy)]
struct Stretch {
    starts: u64,
    before: u32,
}

/// The stretches of the addresses from address 0 on, by which the places before an address are counted. Where segments lie thin a grain has more than 8 bytes,
/// and more than one may begin in it.
///
/// It only says where to look first: nothing is concluded from what it says.
#[derive(Drop)]
pub struct Directory {
    stretches: Vec<Stretch>,
    shift: u32,
    ghost bounded: { shift ≤ 31 },
}

/// The shift by which addresses up to one fall into at most so many grains, or one more; a grain has at least 8 bytes.
fn shift_for(last: u32, grains: u32) -> u32
    ensures { result ≤ 31 }
{
    let wide = last / grains.max(1);
    (32 - wide.leading_zeros()).max(LEAST_SHIFT).min(31)
}

impl Directory {
    /// The directory of a table of places, whose addresses ascend.
    pub fn of(alloc: Global, places: &[Place]) -> Result<Directory, Refused>
        ensures refusal { OnlyMemory result }
    {
        let last = places.last().map_or(0, |place| place.address);
        let grains = places.len().saturating_mul(GRAINS).min(u32::MAX as usize) as u32;
        let shift = shift_for(last, grains);
        let mut stretches = Vec::new(alloc);
        let count = ((last >> shift) / STRETCH).saturating_add(1);
        stretches
            .reserve(count as usize)
            .map_err(|_| Refused::Memory)?;
        let mut open = Stretch::behind(0);
        let mut number: u32 = 0;
        for place in places {
            let grain = place.address >> shift;
            let index = (grain / STRETCH) as usize;
            if index != stretches.len() {
                close(&mut stretches, open, index, number)?;
                open = Stretch::behind(number);
            }
            open.starts |= 1 << (grain % STRETCH);
            number = number.saturating_add(1);
        }
        stretches.push(open).map_err(|_| Refused::Memory)?;
        Ok(Directory { stretches, shift })
    }

    /// The number at which to look first for an address up to that of the last place: how many places come before its grain, and fewer where several of its
    /// stretch begin in one grain.
    pub fn near(&self, address: u32) -> usize {
        let grain = address >> self.shift;
        match self.stretches.get((grain / STRETCH) as usize) {
            Some(stretch) => {
                let below = stretch.starts & ((1 << (grain % STRETCH)) - 1);
                (stretch.before as usize).saturating_add(below.count_ones() as usize)
            }
            None => 0,
        }
    }
}

impl Stretch {
    /// A stretch in which no segment begins, behind so many places.
    fn behind(before: u32) -> Stretch {
        Stretch { starts: 0, before }
    }
}

/// Notes a stretch, and those behind it up to an index, in which no segment begins; so many places come before them.
fn close(
    stretches: &mut Vec<Stretch>,
    open: Stretch,
    index: usize,
    number: u32,
) -> Result<(), Refused>
    ensures refusal { OnlyMemory result }
{
    stretches.push(open).map_err(|_| Refused::Memory)?;
    for _ in stretches.len()..index {
        stretches
            .push(Stretch::behind(number))
            .map_err(|_| Refused::Memory)?;
    }
    Ok(())
}
