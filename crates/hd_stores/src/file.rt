ghost use Rattle.std.specs.Prelude.{◌≡◌, ◌+◌, ◌*◌, ◌<◌, ◌≤◌, ◌^◌, [], false, length, IfErr, IfOk, OnOk, OnErr};
ghost use Rattle.hd_dbd.specs.Refusals.{OnlyDevice};
ghost use Rattle.hd_stores.specs.Files.{Accesses, with_failure};
ghost use Rattle.hd_stores.specs.Stores.{uncommitted, CountsDevice, RefusesGrowth, StaysSound};

use crate::store::{BlockStore, RunStore};
use hd_dbd::Refused;
use std::fs::File;
use std::io;
use std::marker::Model;
use std::os::unix::fs::FileExt;
use std::sync::ledger::{Blank, Book, Ledger, Share};

/// Blocks in a file of any length. Nothing is promised of its bytes.
///
/// A file grows by the writes of the blocks by which the store has grown. What lies behind the last one written is zeros, without a call of the system; a
/// block that was passed over is read from the file, which has zeros there.
#[derive(Drop)]
pub struct FileStore<L: Ledger> {
    file: File,
    block_size: usize,
    /// How many bytes the store has.
    length: u64,
    /// How far the file was long, or has been written since.
    end: u64,
    failed: Book<L>,
    share: Share<L>,
    /// What the system said of the last access that it refused.
    last_error: Option<io::Error>,
}

impl<L: Ledger> Model for FileStore<L> {
    ghost use Rattle.hd_stores.specs.Files.{Filed, MayCount};

    ghost Value = { Filed };

    ghost view = { λ s. record { size = s.block_size; length = s.length; failures = s.failed.total } };

    ghost invariant = { λ s. MayCount s.block_size s.share.parts };
}

impl<L: Ledger> FileStore<L> {
    /// The store of an open file's blocks, of `block_size` bytes. Failed accesses are counted in the ledger of `blank`.
    ///
    /// An error says that the file did not tell its length.
    pub fn over(file: File, block_size: usize, blank: Blank) -> io::Result<FileStore<L>>
        requires some { 0 < block_size }
        requires small { block_size ≤ 32768 }
        requires name { blank.name ≡ L.name }
        requires parts { blank.parts ≡ L.parts }
        requires share { 0 < blank.parts }
        ensures size { IfOk result (λ s. s.size ≡ block_size) }
        ensures failures { IfOk result (λ s. s.failures ≡ 0) }
    {
        let length = file.metadata()?.len();
        let (failed, share) = blank.open();
        Ok(FileStore {
            file,
            block_size,
            length,
            end: length,
            failed,
            share,
            last_error: None,
        })
    }

    /// Counts an access that was not made as one that failed: for a store over this one, which refuses it.
    pub fn refuse(&mut self) -> Refused
        ensures counts { self.new ≡ with_failure self.old }
        ensures device { result ≡ Refused.Device }
    {
        self.failed.add(&mut self.share, 1);
        Refused::Device
    }

    /// Counts an access that failed, and keeps what was said of it.
    fn fail(&mut self, error: io::Error) -> Refused
        ensures counts { self.new ≡ with_failure self.old }
        ensures device { result ≡ Refused.Device }
    {
        self.last_error = Some(error);
        self.refuse()
    }

    /// What the system said of the last access that it refused; `None` where it has refused none.
    pub fn last_error(&self) -> Option<io::Error> {
        self.last_error
    }

    /// The bytes before block `n`.
    fn place_of(&self, n: u32) -> u64
        ensures { result ≡ n * self.now.size }
    {
        u64::from(n) * self.block_size as u64
    }

    /// How many of so many bytes from a place on are read from the file: all but those behind its end, which are zeros. Where they go past the store's end
    /// all are, so that the file refuses them.
    fn count_read(&self, place: u64, count: usize) -> usize
        ensures { result ≤ count }
    {
        if place.saturating_add(count as u64) > self.length {
            return count;
        }
        self.end.saturating_sub(place).min(count as u64) as usize
    }

    /// Reads the bytes from a place on.
    fn read_from(&mut self, place: u64, buf: &mut [u8]) -> Result<(), Refused>
        ensures accesses { Accesses result self.old self.new }
        ensures len { length buf.new ≡ length buf.old }
        ensures refusal { OnlyDevice result }
        ensures counts { CountsDevice result self.old.failures self.new.failures }
    {
        let count = self.count_read(place, buf.len());
        buf[count..].fill(0);
        if count == 0 {
            return Ok(());
        }
        match self.file.read_exact_at(&mut buf[..count], place) {
            Ok(()) => Ok(()),
            Err(error) => Err(self.fail(error)),
        }
    }
}

impl<L: Ledger> BlockStore for FileStore<L> {
    ghost size = { λ s. s.size };

    ghost contents = { λ _. [] };

    ghost is_sound = { λ _. false };

    ghost failures = { λ s. s.failures };

    ghost room = { λ _. 2 ^ 32 };

    ghost committed = { λ _. uncommitted };

    fn block_size(&self) -> usize {
        self.block_size
    }

    fn length(&self) -> u64
        ensures { result ≡ self.now.length }
    {
        self.length
    }

    fn read(&mut self, n: u32, buf: &mut [u8]) -> Result<(), Refused>
        ensures accesses { Accesses result self.old self.new }
        ensures len { length buf.new ≡ length buf.old }
        ensures refusal { OnlyDevice result }
        ensures counts { CountsDevice result self.old.failures self.new.failures }
        ensures sound { StaysSound result false false }
    {
        let place = self.place_of(n);
        self.read_from(place, buf)
    }

    fn write(&mut self, n: u32, bytes: &[u8]) -> Result<(), Refused>
        ensures accesses { Accesses result self.old self.new }
        ensures refusal { OnlyDevice result }
        ensures counts { CountsDevice result self.old.failures self.new.failures }
        ensures sound { StaysSound result false false }
    {
        let place = self.place_of(n);
        match self.file.write_all_at(bytes, place) {
            Ok(()) => {
                self.end = self.end.max(place.saturating_add(bytes.len() as u64));
                Ok(())
            }
            Err(error) => Err(self.fail(error)),
        }
    }

    fn reserve(&mut self, blocks: u32) -> Result<(), Refused>
        ensures ok { result ≡ Ok tt }
        ensures same { self.new ≡ self.old }
        ensures room { OnOk result (blocks ≤ 2 ^ 32) }
    {
        Ok(())
    }

    fn grow(&mut self, blocks: u32) -> Result<(), Refused>
        ensures grows { OnOk result (self.new ≡ record self.old { length = self.old.length + blocks * self.old.size }) }
        ensures fails { OnErr result (self.new ≡ with_failure self.old) }
        ensures device { OnlyDevice result }
        ensures refusal { IfErr result (λ e. RefusesGrowth e (2 ^ 32) blocks) }
        ensures counts { CountsDevice result self.old.failures self.new.failures }
        ensures sound { StaysSound result false false }
    {
        let Some(length) = self.length.checked_add(self.place_of(blocks)) else {
            return Err(self.refuse());
        };
        // Two grow at once: an empty file, so that one which can't grow says so before all else; and one with a part of a block at its end, for no
        // block's write would make it so long.
        if self.end == 0 || self.length % self.block_size as u64 != 0 {
            if let Err(error) = self.file.set_len(length) {
                return Err(self.fail(error));
            }
            self.end = length;
        }
        self.length = length;
        Ok(())
    }
}

impl<L: Ledger> RunStore for FileStore<L> {
    fn read_run(&mut self, n: u32, buf: &mut [u8]) -> Result<(), Refused>
        ensures accesses { Accesses result self.old self.new }
        ensures len { length buf.new ≡ length buf.old }
        ensures refusal { OnlyDevice result }
        ensures counts { CountsDevice result self.old.failures self.new.failures }
        ensures sound { StaysSound result false false }
    {
        let place = self.place_of(n);
        self.read_from(place, buf)
    }
}
