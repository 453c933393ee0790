//! Decks, played over the bytes of a volume.

use hd_dbd::{Dbd, Psb};
use hd_deck::{read_deck, run};
use hd_stores::{BlockStore, FuseStore, MemStore};
use hd_unload::reload;
use std::alloc::Global;

/// The longest text of a deck that is played.
const MOST_BYTES: usize = 10_000;

/// What a deck printed, the bytes of the volume that it left, and the accesses that it made, with those of its opening and its closing.
#[derive(Drop)]
pub struct Played {
    pub lines: Vec<u8>,
    pub image: Vec<u8>,
    pub accesses: u64,
}

/// The bytes of a volume of the rows of a stream, and how many blocks it has.
pub fn volume_of(alloc: Global, dbd: &Dbd, stream: &[u8]) -> Option<(Vec<u8>, u32)> {
    let store = MemStore::new(dbd.block_size() as usize, Vec::new(alloc));
    let reloaded = reload(alloc, dbd, stream, store, 65536, 64).ok()?;
    Some((reloaded.store.into_bytes(), reloaded.blocks))
}

/// Plays a deck over a store, which comes back; `None` where the deck is refused, or the run has a fault.
fn run_over<S: BlockStore + Drop>(
    alloc: Global,
    dbd: &Dbd,
    psb: &Psb,
    store: S,
    kept: usize,
    deck: &[u8],
    lines: &mut Vec<u8>,
) -> Option<S> {
    if !psb.matches(dbd) || deck.len() > MOST_BYTES {
        return None;
    }
    let steps = read_deck(alloc, deck, psb.pcbs().len() as u8).ok()?;
    if store.block_size() != dbd.block_size() as usize {
        return None;
    }
    let Ok(end) = run(alloc, store, dbd, psb, kept, &steps, lines) else {
        return None;
    };
    Some(end.store)
}

/// Plays a deck over the bytes of a volume, of which so many blocks are kept in memory.
pub fn play(
    alloc: Global,
    dbd: &Dbd,
    psb: &Psb,
    image: &[u8],
    deck: &[u8],
    kept: usize,
) -> Option<Played> {
    let store = MemStore::new(dbd.block_size() as usize, image.to_vec(alloc).ok()?);
    let plain = FuseStore::new(store, u64::MAX);
    let mut lines = Vec::new(alloc);
    let left = run_over(alloc, dbd, psb, plain, kept, deck, &mut lines)?;
    let accesses = left.accesses();
    let image = left.into_inner().into_bytes();
    Some(Played {
        lines,
        image,
        accesses,
    })
}
