ghost use Rattle.std.specs.Prelude.{◌≡◌, ◌<◌, ◌≤◌, true};
ghost use Rattle.hd_stores.specs.Stores.{uncommitted};

use crate::store::{BlockStore, RunStore};
use hd_dbd::Refused;
use std::marker::Model;

/// Blocks in memory. Every access succeeds; only `reserve` and `grow` can find no memory.
#[derive(Drop)]
pub struct MemStore {
    block_size: usize,
    bytes: Vec<u8>,
    reserved: usize,
}

impl Model for MemStore {
    ghost use Rattle.hd_stores.specs.Memory.{Bytes, HasCapacity};
    ghost use Rattle.std.specs.Prelude.{vec_len};
    ghost use Rattle.std.specs.Vec.{vec_capacity};

    ghost Value = { Bytes };

    ghost view = { λ s. record { size = s.block_size; contents = s.bytes.items; room = s.reserved } };

    ghost invariant = { λ s. HasCapacity s.block_size (vec_len s.bytes) s.reserved (vec_capacity s.bytes) };
}

impl MemStore {
    /// The store of these bytes, in blocks of `block_size` bytes.
    pub fn new(block_size: usize, bytes: Vec<u8>) -> MemStore
        requires some { 0 < block_size }
        requires small { block_size ≤ 32768 }
        ensures { result ≡ record { size = block_size; contents = bytes.items; room = 0 } }
    {
        MemStore {
            block_size,
            bytes,
            reserved: 0,
        }
    }

    /// All bytes, in order.
    pub fn into_bytes(self) -> Vec<u8>
        ensures { result.items ≡ self.contents }
    {
        self.bytes
    }
}

impl BlockStore for MemStore {
    ghost size = { λ s. s.size };

    ghost contents = { λ s. s.contents };

    ghost is_sound = { λ _. true };

    ghost failures = { λ _. 0 };

    ghost room = { λ s. s.room };

    ghost committed = { λ _. uncommitted };

    fn block_size(&self) -> usize {
        self.block_size
    }

    fn length(&self) -> u64 {
        self.bytes.len() as u64
    }

    fn read(&mut self, n: u32, buf: &mut [u8]) -> Result<(), Refused> {
        let at = n as usize * self.block_size;
        buf.copy_from_slice(&self.bytes[at..at + self.block_size]);
        Ok(())
    }

    fn write(&mut self, n: u32, bytes: &[u8]) -> Result<(), Refused> {
        let at = n as usize * self.block_size;
        self.bytes[at..at + self.block_size].copy_from_slice(bytes);
        Ok(())
    }

    fn reserve(&mut self, blocks: u32) -> Result<(), Refused> {
        let blocks = blocks as usize;
        if blocks <= self.reserved {
            return Ok(());
        }
        if self.bytes.reserve(blocks * self.block_size).is_err() {
            return Err(Refused::Memory);
        }
        self.reserved = blocks;
        Ok(())
    }

    fn grow(&mut self, blocks: u32) -> Result<(), Refused> {
        let blocks = blocks as usize;
        let len = self.bytes.len() + blocks * self.block_size;
        if self.bytes.resize(len, 0).is_err() {
            return Err(Refused::Memory);
        }
        self.reserved = self.reserved.saturating_sub(blocks);
        Ok(())
    }
}

impl RunStore for MemStore {
    fn read_run(&mut self, n: u32, buf: &mut [u8]) -> Result<(), Refused> {
        let at = n as usize * self.block_size;
        buf.copy_from_slice(&self.bytes[at..at + buf.len()]);
        Ok(())
    }
}
