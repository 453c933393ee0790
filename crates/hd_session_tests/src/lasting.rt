//! A store of whose bytes nothing is said, as one whose commits are accesses.

ghost use Rattle.std.specs.Prelude.{◌≡◌, false};

use hd_dbd::Refused;
use hd_stores::{BlockStore, CommitStore};
use std::marker::Model;

/// The bytes that a block has at most.
const MOST: usize = 32_768;

/// A store of whose bytes nothing is said. A commit reads its first block.
#[derive(Drop)]
pub struct Lasting<S: BlockStore> {
    store: S,
}

impl<S: BlockStore> Model for Lasting<S> {
    ghost use Rattle.std.specs.Prelude.{◌≡◌, false};

    ghost Value = { S };

    ghost view = { λ l. l.store };

    ghost invariant = { λ l. S.is_sound l.store ≡ false };
}

impl<S: BlockStore> Lasting<S> {
    pub fn new(store: S) -> Lasting<S>
        requires unsound { S.is_sound store ≡ false }
        ensures { result ≡ store }
    {
        Lasting { store }
    }

    /// The store below.
    pub fn into_store(self) -> S {
        self.store
    }
}

impl<S: BlockStore> BlockStore for Lasting<S> {
    ghost size = { λ s. S.size s };

    ghost contents = { λ s. S.contents s };

    ghost is_sound = { λ s. S.is_sound s };

    ghost failures = { λ s. S.failures s };

    ghost room = { λ s. S.room s };

    ghost committed = { λ s. S.committed s };

    fn block_size(&self) -> usize {
        self.store.block_size()
    }

    fn length(&self) -> u64 {
        self.store.length()
    }

    fn read(&mut self, n: u32, buf: &mut [u8]) -> Result<(), Refused> {
        self.store.read(n, buf)
    }

    fn write(&mut self, n: u32, bytes: &[u8]) -> Result<(), Refused> {
        self.store.write(n, bytes)
    }

    fn reserve(&mut self, blocks: u32) -> Result<(), Refused> {
        self.store.reserve(blocks)
    }

    fn grow(&mut self, blocks: u32) -> Result<(), Refused> {
        self.store.grow(blocks)
    }
}

impl<S: BlockStore> CommitStore for Lasting<S> {
    fn commit(&mut self) -> Result<(), Refused> {
        let mut first = [0u8; MOST];
        let size = self.store.block_size();
        self.store.read(0, &mut first[..size])
    }
}
