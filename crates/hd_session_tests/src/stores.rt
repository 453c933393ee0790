//! A store in memory that notes what is asked of it, and may find no memory to grow.

ghost use Rattle.hd_stores.specs.Stores.{uncommitted};
ghost use Rattle.std.specs.Prelude.{◌≡◌, [], false};

use hd_dbd::Refused;
use hd_sample::put;
use hd_stores::BlockStore;
use std::alloc::Global;

/// The bytes of a block.
pub const SIZE: usize = 128;

/// A store in memory in which one of the growths beyond its reserved room, counted from 0, finds no memory. No contract says anything of its bytes.
#[derive(Drop)]
pub struct Sparing {
    pub bytes: Vec<u8>,
    /// A letter for each access: of a `r`ead, a `w`rite or a `g`rowth.
    pub log: Vec<u8>,
    /// How many growths beyond the reserved room were asked for.
    pub growths: u32,
    room: u32,
    refused: u32,
}

impl Sparing {
    /// A store of these bytes.
    pub fn new(alloc: Global, bytes: Vec<u8>, refused: u32) -> Sparing {
        Sparing {
            bytes,
            log: Vec::new(alloc),
            growths: 0,
            room: 0,
            refused,
        }
    }

    /// Whether the next growth is the one that finds no memory. It is counted.
    fn is_next_refused(&mut self) -> bool
        ensures { self.new.room ≡ self.old.room }
    {
        let number = self.growths;
        self.growths = number.saturating_add(1);
        number == self.refused
    }
}

impl BlockStore for Sparing {
    ghost size = { λ _. 128 };

    ghost contents = { λ _. [] };

    ghost is_sound = { λ _. false };

    ghost failures = { λ _. 0 };

    ghost room = { λ s. s.room };

    ghost committed = { λ _. uncommitted };

    fn block_size(&self) -> usize {
        SIZE
    }

    fn length(&self) -> u64 {
        self.bytes.len() as u64
    }

    fn read(&mut self, n: u32, buf: &mut [u8]) -> Result<(), Refused> {
        let _ = self.log.push(b'r');
        let start = n as usize * SIZE;
        for (place, byte) in buf.iter_mut().enumerate() {
            *byte = self
                .bytes
                .get(start.saturating_add(place))
                .copied()
                .unwrap_or(0);
        }
        Ok(())
    }

    fn write(&mut self, n: u32, bytes: &[u8]) -> Result<(), Refused> {
        let _ = self.log.push(b'w');
        put(&mut self.bytes, n as usize * SIZE, bytes);
        Ok(())
    }

    fn reserve(&mut self, blocks: u32) -> Result<(), Refused> {
        if blocks <= self.room {
            return Ok(());
        }
        if self.is_next_refused() {
            return Err(Refused::Memory);
        }
        self.room = blocks;
        Ok(())
    }

    fn grow(&mut self, blocks: u32) -> Result<(), Refused> {
        if blocks > self.room && self.is_next_refused() {
            return Err(Refused::Memory);
        }
        let _ = self.log.push(b'g');
        let length = self.bytes.len().saturating_add(blocks as usize * SIZE);
        let _ = self.bytes.resize(length, 0);
        self.room = self.room.saturating_sub(blocks);
        Ok(())
    }
}
