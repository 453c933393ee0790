//! Where a walk looks first for the place of a segment.
ghost use Rattle.hd_dbd.specs.Refusals.{OnlyMemory};

use crate::notes::Note;
use hd_check_blocks::Directory;
use hd_dbd::Refused;
use std::alloc::Global;

/// Where a walk looks first: for any address, and for the twin forward of each segment that is noted.
///
/// It only says where to look first: nothing is concluded from what it says.
#[derive(Clone, Copy)]
pub struct Guide<'a> {
    pub directory: &'a Directory,
    pub twins: &'a [u32],
}

impl<'a> Guide<'a> {
    /// The number at which to look first for the twin forward of the segment of a number: the next, where that segment is not noted.
    pub fn behind(&self, number: usize) -> usize {
        match self.twins.get(number) {
            Some(twin) => *twin as usize,
            None => number.saturating_add(1),
        }
    }
}

/// The numbers at which to look first for the twins forward of the segments that are noted. They are found apart from the walk, where no look-up waits for
/// another.
pub fn twin_numbers(
    alloc: Global,
    notes: &[Note],
    directory: &Directory,
) -> Result<Vec<u32>, Refused>
    ensures refusal { OnlyMemory result }
{
    let mut twins = Vec::new(alloc);
    twins.reserve(notes.len()).map_err(|_| Refused::Memory)?;
    for note in notes {
        let twin = directory.near(note.forward);
        twins
            .push(twin.min(u32::MAX as usize) as u32)
            .map_err(|_| Refused::Memory)?;
    }
    Ok(twins)
}
