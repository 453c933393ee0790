//! Calls of three PCBs over a volume of which no contract speaks.
ghost use Rattle.std.specs.Prelude.{◌≡◌, false};
ghost use Rattle.hd_dbd.specs.Facts.{stored_sizes};

use crate::bases::Base;
use crate::list_text::{is_slash, number_of};
use crate::stores::Sparing;
use hd_dbd::{Dbd, Refused};
use hd_forest::{Path, tip_of};
use hd_position::Position;
use hd_stores::{BlockStore, FuseStore};
use hd_volume::Volume;
use std::alloc::Global;

/// A store in memory that promises nothing, behind a fuse.
pub type Store = FuseStore<Sparing>;

/// How a list is played: the access behind so many fails; the growth of a number, from 0 on, finds no memory; so many calls are made; whether a call that
/// finds no memory is made again; and whether updates that are refused are made at all.
#[derive(Clone, Copy)]
pub struct Way {
    pub passes: u64,
    pub growth: u32,
    pub calls: u32,
    pub is_again: bool,
    pub is_tried: bool,
}

/// All calls are made, and nothing fails.
pub const WHOLE: Way = Way {
    passes: u64::MAX,
    growth: u32::MAX,
    calls: u32::MAX,
    is_again: false,
    is_tried: true,
};

/// Where a PCB is, by numbers; the last three say what it holds.
pub type Place = [u32; 9];

/// Where a PCB is: the last row that it passed, its level, those of the rows on which it stands and of its parentage, the level and the type of the row last
/// returned, and the highest and the lowest level that it holds and how many: as its rows have three levels, that says which.
fn place_of(position: &Position) -> Place {
    let last = match position.last() {
        Some(last) => [last.level, last.code],
        None => [0, 0],
    };
    let held = position.held().as_slice();
    [
        tip_of(position.path()),
        u32::from(position.path().level()),
        u32::from(position.standing()),
        u32::from(position.parent()),
        u32::from(last[0]),
        u32::from(last[1]),
        u32::from(held.first().copied().unwrap_or(0)),
        u32::from(held.last().copied().unwrap_or(0)),
        (held.len() % 256) as u32,
    ]
}

/// Where the PCBs are.
pub fn places_of(positions: &[Position; 3]) -> [Place; 3] {
    let [first, second, third] = positions;
    [place_of(first), place_of(second), place_of(third)]
}

/// A volume of a base, how many calls were made, and how many of them found no memory. Its three PCBs' positions stand beside it.
#[derive(Drop)]
pub struct Trial<'a> {
    pub volume: Volume<Store>,
    pub dbd: &'a Dbd,
    pub base: &'a Base,
    pub way: Way,
    pub made: u32,
    pub memory: u32,
    ghost unsound: { volume.is_sound ≡ false },
    ghost size: { volume.size ≡ dbd.now.block_size },
    ghost sizes: { volume.sizes ≡ stored_sizes dbd.now.types },
}

impl<'a> Trial<'a> {
    /// The volume of these bytes, opened. `Broken` says that its database has other blocks than of 128 bytes.
    pub fn over(
        alloc: Global,
        base: &'a Base,
        bytes: Vec<u8>,
        way: Way,
    ) -> Result<Trial<'a>, Refused> {
        let dbd = &base.dbd;
        if dbd.block_size() != 128 {
            return Err(Refused::Broken);
        }
        let store = Sparing::new(alloc, bytes, way.growth);
        match Volume::load(alloc, FuseStore::new(store, way.passes), dbd) {
            Ok(volume) => Ok(Trial {
                volume,
                dbd,
                base,
                way,
                made: 0,
                memory: 0,
            }),
            Err((_, refused)) => Err(refused),
        }
    }

    /// The path of the rows of these numbers, from 1 on, at the beginning of the list; 0 is none.
    pub fn path_of(&self, numbers: &[u8]) -> Path {
        let mut path = Path::new();
        for word in numbers.split(is_slash) {
            let number = number_of(word) as usize;
            if number > 0 {
                path.push(self.base.rows.get(number - 1).copied().unwrap_or(0));
            }
        }
        path
    }
}
