//! The blocks of a volume as cells of a picture, each of one block or of an equal range of blocks.

use crate::survey::{BlockUse, Kind, Survey};

/// The most cells of a picture, and those of a line.
const CELLS: usize = 1024;

pub const LINE: usize = 64;

/// What a cell shows: what most of its blocks are, or damage where one is damaged. Data has its fill in tenths, 0 to 9.
#[derive(Clone, Copy)]
pub enum Cell {
    Header,
    Data(u8),
    Index,
    Free,
    Damaged,
}

/// The blocks of a cell by kind, and the bytes that segments take in those of data.
#[derive(Clone, Copy)]
struct Counts {
    header: usize,
    data: usize,
    index: usize,
    free: usize,
    damaged: usize,
    used: u64,
}

/// How many blocks a cell has, so that the picture has no more cells than it may.
pub fn blocks_of_cell(survey: &Survey) -> usize {
    survey.blocks.len().div_ceil(CELLS).max(1)
}

/// The counts with one block more.
fn counted(counts: Counts, block: &BlockUse) -> Counts {
    let mut counts = counts;
    match block.kind {
        Kind::Header => counts.header = counts.header.saturating_add(1),
        Kind::Data => {
            counts.data = counts.data.saturating_add(1);
            counts.used = counts.used.saturating_add(u64::from(block.used));
        }
        Kind::Index(_) => counts.index = counts.index.saturating_add(1),
        Kind::Free => counts.free = counts.free.saturating_add(1),
        Kind::Damaged => counts.damaged = counts.damaged.saturating_add(1),
    }
    counts
}

/// What the cell of some blocks shows.
pub fn cell_of(survey: &Survey, blocks: &[BlockUse]) -> Cell {
    let mut counts = Counts {
        header: 0,
        data: 0,
        index: 0,
        free: 0,
        damaged: 0,
        used: 0,
    };
    for block in blocks {
        counts = counted(counts, block);
    }
    if counts.damaged != 0 {
        return Cell::Damaged;
    }
    let most = counts.data.max(counts.index).max(counts.free);
    if counts.header > most {
        Cell::Header
    } else if counts.data == most {
        let room = survey.room(Kind::Data).saturating_mul(counts.data as u64);
        Cell::Data(tenth(counts.used, room))
    } else if counts.index == most {
        Cell::Index
    } else {
        Cell::Free
    }
}

/// How many tenths of a whole a part is, 9 for all of it.
fn tenth(part: u64, whole: u64) -> u8 {
    if whole == 0 {
        return 0;
    }
    u8::try_from((part.saturating_mul(10) / whole).min(9)).unwrap_or(9)
}
