//! A disk in memory that stops, and tears what was not synced.
ghost use Rattle.std.specs.Prelude.{true, false, length, ◌≡◌};
ghost use Rattle.hd_journal.specs.Disk.{nothing};

use hd_journal::{Disk, Failed};
use std::alloc::Global;

/// One file in memory, and what of it is synced.
#[derive(Drop)]
pub struct Bytes {
    pub now: Vec<u8>,
    pub synced: Vec<u8>,
}

/// A disk in memory that stops after so many calls, and then loses or tears what was not synced.
#[derive(Drop)]
pub struct TornDisk {
    pub alloc: Global,
    pub log: Bytes,
    pub volume: Bytes,
    /// So many writes, syncs and changes of the length are done; the next fails, after its work where it is no sync.
    pub calls_left: u64,
    /// The number by which the log knows the volume.
    pub number: u64,
    /// So many syncs were done.
    pub syncs: u64,
    /// So many writes to the log were done.
    pub log_writes: u64,
}

fn copy(alloc: Global, bytes: &[u8]) -> Result<Vec<u8>, Failed> {
    match bytes.to_vec(alloc) {
        Ok(copy) => Ok(copy),
        Err(_) => Err(Failed),
    }
}

/// Writes bytes at a place. What stands between the end and the place is no zeros.
fn put(file: &mut Vec<u8>, at: u64, bytes: &[u8]) -> Result<(), Failed> {
    let Some(end) = (at as usize).checked_add(bytes.len()) else {
        return Err(Failed);
    };
    if end > file.len() {
        let Ok(()) = file.resize(end, 0xee) else {
            return Err(Failed);
        };
    }
    file[at as usize..end].copy_from_slice(bytes);
    Ok(())
}

/// Reads the bytes at a place.
fn take(file: &[u8], at: u64, buf: &mut [u8]) -> Result<(), Failed>
    ensures { length buf.new ≡ length buf.old }
{
    let at = at as usize;
    if at > file.len() || buf.len() > file.len() - at {
        return Err(Failed);
    }
    buf.copy_from_slice(&file[at..at + buf.len()]);
    Ok(())
}

/// What a crash leaves: each byte that differs is the old or the new one, or where there was none anything.
fn tear(alloc: Global, file: &Bytes, seed: u64) -> Result<Vec<u8>, Failed> {
    let mut left = copy(alloc, &file.now)?;
    if seed % 3 == 0 {
        left = copy(alloc, &file.synced)?;
    }
    for i in 0..left.len() {
        let draw = (i as u64 % 1024 + 1) * (seed % 1024 + 7) * 2654435761 % 65536 / 256;
        if i < file.synced.len() {
            if seed % 3 == 2 && draw % 2 == 0 {
                left[i] = file.synced[i];
            }
        } else if seed % 3 == 2 && draw % 4 == 0 {
            left[i] = draw as u8;
        }
    }
    Ok(left)
}

impl TornDisk {
    /// The disk with these bytes, all synced, which stops after so many calls.
    pub fn over(alloc: Global, log: &[u8], volume: &[u8], calls: u64) -> Result<TornDisk, Failed> {
        Ok(TornDisk {
            alloc,
            log: Bytes {
                now: copy(alloc, log)?,
                synced: copy(alloc, log)?,
            },
            volume: Bytes {
                now: copy(alloc, volume)?,
                synced: copy(alloc, volume)?,
            },
            calls_left: calls,
            number: 5,
            syncs: 0,
            log_writes: 0,
        })
    }

    /// The disk after a crash and a restart, which stops after so many calls.
    pub fn crash(&self, seed: u64, calls: u64) -> Result<TornDisk, Failed> {
        let log = tear(self.alloc, &self.log, seed)?;
        let volume = tear(self.alloc, &self.volume, seed / 3)?;
        TornDisk::over(self.alloc, &log, &volume, calls)
    }

    fn spend(&mut self) -> Result<(), Failed> {
        if self.calls_left == 0 {
            return Err(Failed);
        }
        self.calls_left -= 1;
        Ok(())
    }
}

impl Disk for TornDisk {
    ghost is_honest = { false };

    ghost is_usable = { λ _. true };

    ghost state = { λ _. nothing };

    fn identity(&self) -> (u64, u64) {
        (3, self.number)
    }

    fn log_len(&self) -> Result<u64, Failed> {
        Ok(self.log.now.len() as u64)
    }

    fn volume_len(&self) -> Result<u64, Failed> {
        Ok(self.volume.now.len() as u64)
    }

    fn read_log(&self, at: u64, buf: &mut [u8]) -> Result<(), Failed> {
        take(&self.log.now, at, buf)
    }

    fn read_volume(&self, at: u64, buf: &mut [u8]) -> Result<(), Failed> {
        take(&self.volume.now, at, buf)
    }

    fn write_log(&mut self, at: u64, bytes: &[u8]) -> Result<(), Failed> {
        put(&mut self.log.now, at, bytes)?;
        self.log_writes = self.log_writes.saturating_add(1);
        self.spend()
    }

    fn write_volume(&mut self, at: u64, bytes: &[u8]) -> Result<(), Failed> {
        put(&mut self.volume.now, at, bytes)?;
        self.spend()
    }

    fn set_volume_len(&mut self, len: u64) -> Result<(), Failed> {
        let Ok(()) = self.volume.now.resize(len as usize, 0) else {
            return Err(Failed);
        };
        self.spend()
    }

    fn sync_log(&mut self) -> Result<(), Failed> {
        self.spend()?;
        self.syncs = self.syncs.saturating_add(1);
        self.log.synced = copy(self.alloc, &self.log.now)?;
        Ok(())
    }

    fn sync_volume(&mut self) -> Result<(), Failed> {
        self.spend()?;
        self.syncs = self.syncs.saturating_add(1);
        self.volume.synced = copy(self.alloc, &self.volume.now)?;
        Ok(())
    }

    fn mark(&mut self, _is_first: bool) -> Result<(), Failed> {
        Ok(())
    }

    ghost seen_may_stay = { λ _. tt };

    ghost counts_now = { λ _ _ _ _ _ _. tt };

    ghost only_now = { λ _ _ _ _. tt };
}
