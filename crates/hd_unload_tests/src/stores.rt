//! A store that turns into another, and a writer that fails.
ghost use Rattle.hd_stores.specs.Stores.{uncommitted};
ghost use Rattle.std.specs.Prelude.{◌≡◌, ◌^◌, [], false};

use hd_dbd::Refused;
use hd_sample::put;
use hd_stores::BlockStore;
use std::io::{self, ErrorKind, Write};

/// A store over the spread sample, of which another takes the second root behind so many reads. No contract says anything of it.
#[derive(Drop)]
pub struct Turning {
    pub image: [u8; 1152],
    pub reads: u64,
}

impl BlockStore for Turning {
    ghost size = { λ _. 128 };

    ghost contents = { λ _. [] };

    ghost is_sound = { λ _. false };

    ghost failures = { λ _. 0 };

    ghost room = { λ _. 2 ^ 32 };

    ghost committed = { λ _. uncommitted };

    fn block_size(&self) -> usize {
        128
    }

    fn length(&self) -> u64 {
        1152
    }

    fn read(&mut self, n: u32, buf: &mut [u8]) -> Result<(), Refused> {
        if self.reads == 0 {
            put(&mut self.image, 138, &[0; 4]);
        }
        self.reads = self.reads.saturating_sub(1);
        let start = n as usize * 128;
        if let Some(block) = self.image.get(start..start + 128) {
            put(buf, 0, block);
        }
        Ok(())
    }

    fn write(&mut self, _n: u32, _bytes: &[u8]) -> Result<(), Refused> {
        Ok(())
    }

    fn reserve(&mut self, _blocks: u32) -> Result<(), Refused> {
        Ok(())
    }

    fn grow(&mut self, _blocks: u32) -> Result<(), Refused> {
        Ok(())
    }
}

/// A writer that takes so many pieces, and then fails.
#[derive(Drop)]
pub struct Page {
    pub bytes: Vec<u8>,
    pub pieces: u64,
    pub is_full: bool,
}

impl Write for Page {
    fn write(&mut self, buf: &[u8]) -> io::Result<usize> {
        if self.pieces == 0 || self.bytes.extend_from_slice(buf).is_err() {
            self.is_full = true;
            return Err(io::Error::from(ErrorKind::StorageFull));
        }
        self.pieces = self.pieces.saturating_sub(1);
        Ok(buf.len())
    }

    fn flush(&mut self) -> io::Result<()> {
        Ok(())
    }
}
