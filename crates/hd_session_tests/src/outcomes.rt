//! What comes of lists of calls.

use crate::bases::{Base, base_of};
use crate::calls::play;
use crate::list_text::cut;
use crate::list_trial::{Place, Trial, WHOLE, Way, places_of};
use hd_dbd::Refused;
use hd_forest::{Path, next_row, tip_of};
use hd_position::Position;
use std::alloc::Global;

/// What came of lists: whether all calls were answered as they say, or a refusal; how many calls were made, and how many of them found no memory; where the
/// PCBs were; how many accesses came; and the bytes of the store.
#[derive(Drop)]
pub struct Played {
    pub right: Result<bool, Refused>,
    pub made: u32,
    pub memory: u32,
    pub places: [Place; 3],
    pub accesses: u64,
    pub bytes: Vec<u8>,
}

/// Plays two lists in a way, one after the other, and writes what they changed. `None` says that there is no memory for them. Of a volume that is not opened
/// the refusal is told alone.
pub fn play_in(alloc: Global, base: &Base, lists: [&[u8]; 2], way: Way) -> Option<Played> {
    let bytes = Vec::from_slice(alloc, &base.bytes).ok()?;
    let mut played = Played {
        right: Ok(true),
        made: 0,
        memory: 0,
        places: [[0; 9]; 3],
        accesses: 0,
        bytes: Vec::new(alloc),
    };
    match Trial::over(alloc, base, bytes, way) {
        Ok(mut trial) => {
            let mut positions = [Position::start(), Position::start(), Position::start()];
            let mut right = play(alloc, &mut trial, &mut positions, lists[0]);
            if right == Ok(true) {
                right = play(alloc, &mut trial, &mut positions, lists[1]);
            }
            played.right = trial.volume.flush().and(right);
            played.places = places_of(&positions);
            played.made = trial.made;
            played.memory = trial.memory;
            let Trial { volume, .. } = trial;
            let store = volume.into_store();
            played.accesses = store.accesses();
            played.bytes = store.into_inner().bytes;
        }
        Err(refused) => played.right = Err(refused),
    }
    Some(played)
}

/// The addresses of the rows of a volume, in hierarchic sequence.
fn rows_of(alloc: Global, trial: &mut Trial<'_>) -> Option<Vec<u32>> {
    let mut rows = Vec::new(alloc);
    let mut path = Path::new();
    for _ in 0..100 {
        next_row(&mut trial.volume, trial.dbd, &mut path).ok()?;
        if path.addresses().is_empty() {
            break;
        }
        rows.push(tip_of(&path)).ok()?;
    }
    Some(rows)
}

/// What a list begins with, as its first line says, and the lines behind that. Of a volume that is not opened no rows are told.
pub fn begun(alloc: Global, list: &[u8]) -> Option<(Base, &[u8])> {
    let (head, lines) = cut(list, b'\n');
    let mut base = base_of(alloc, head)?;
    let bytes = Vec::from_slice(alloc, &base.bytes).ok()?;
    let rows = match Trial::over(alloc, &base, bytes, WHOLE) {
        Ok(mut trial) => rows_of(alloc, &mut trial)?,
        Err(_) => Vec::new(alloc),
    };
    base.rows = rows;
    Some((base, lines))
}

/// The first of some accesses of lists whose failure is told otherwise than as `Device`.
pub fn untold(alloc: Global, base: &Base, lists: [&[u8]; 2], from: u64, to: u64) -> Option<u64> {
    for passes in from..to {
        let way = Way { passes, ..WHOLE };
        match play_in(alloc, base, lists, way) {
            Some(played) => {
                if played.right != Err(Refused::Device) {
                    return Some(passes);
                }
            }
            None => return Some(passes),
        }
    }
    None
}
