ghost use Rattle.std.specs.Prelude.{◌≡◌, ◌++◌, ◌∷◌, [], map, true, length, refl, OnOk, OnErr, IfOk};
ghost use Rattle.std.proofs.Common.{inl};
ghost use Rattle.hd_bytes.specs.Ranges.{bytes_at};
ghost use Rattle.hd_journal.specs.Disk.{Torn, Cut, HasZeros};

use crate::disk::{Disk, Failed};
use crate::standing::stand;
use std::alloc::{AllocError, Global};

/// A log and a volume as they were.
#[derive(Drop)]
pub struct Pair {
    pub log: Vec<u8>,
    pub volume: Vec<u8>,
}

/// A log and a volume as they stood when a commit was done, and the moment.
#[derive(Drop)]
pub struct Stood {
    pub moment: u64,
    pub log: Vec<u8>,
    pub volume: Vec<u8>,
}

/// A log and a volume in memory, which keeps what they have been. Each call is done at once, so that a crash leaves what is there.
///
/// A call fails for want of memory, and a read that goes past the end; then nothing is changed.
#[derive(Drop)]
pub struct MemoryDisk {
    alloc: Global,
    log: Vec<u8>,
    volume: Vec<u8>,
    past: Vec<Pair>,
    marks: Vec<Stood>,
}

impl MemoryDisk {
    /// A disk with these bytes.
    pub fn over(alloc: Global, log: Vec<u8>, volume: Vec<u8>) -> MemoryDisk
        ensures log { result.log.items ≡ log.items }
        ensures volume { result.volume.items ≡ volume.items }
    {
        MemoryDisk {
            alloc,
            log,
            volume,
            past: Vec::new(alloc),
            marks: Vec::new(alloc),
        }
    }
}

/// The bytes with these at a place.
fn overwritten(alloc: Global, file: &[u8], at: usize, bytes: &[u8]) -> Result<Vec<u8>, AllocError>
    ensures value { IfOk result (λ new. bytes_at new.items at (length bytes.now) ≡ bytes.now) }
    ensures torn { IfOk result (λ new. Torn at (length bytes.now) file.now new.items) }
{
    let mut new = file.to_vec(alloc)?;
    let end = at.checked_add(bytes.len()).ok_or(AllocError)?;
    if end > new.len() {
        new.resize(end, 0)?;
    }
    new[at..end].copy_from_slice(bytes);
    Ok(new)
}

/// The bytes cut to a length, or with zeros behind them.
fn resized(alloc: Global, file: &[u8], len: usize) -> Result<Vec<u8>, AllocError>
    ensures len { IfOk result (λ new. length new.items ≡ len) }
    ensures cut { IfOk result (λ new. Cut len file.now new.items) }
    ensures zeros { IfOk result (λ new. HasZeros (length file.now) len new.items) }
{
    let mut new = file.to_vec(alloc)?;
    new.resize(len, 0)?;
    Ok(new)
}

/// Keeps what is there.
fn keep(alloc: Global, past: &mut Vec<Pair>, log: &[u8], volume: &[u8]) -> Result<(), AllocError>
    ensures kept { OnOk result ((p : _) × (p.log.items ≡ log.now) × (p.volume.items ≡ volume.now) × (past.new.items ≡ past.old.items ++ p ∷ [])) }
    ensures err { OnErr result (past.new.items ≡ past.old.items) }
{
    let pair = Pair {
        log: log.to_vec(alloc)?,
        volume: volume.to_vec(alloc)?,
    };
    past.push(pair)?;
    Ok(())
}

impl Disk for MemoryDisk {
    ghost use Rattle.hd_journal.specs.Past.{state_in, mark_shown, only_pair};

    ghost is_honest = { true };

    ghost is_usable = { λ _. true };

    ghost state = { λ m. state_in m.past.items m.log.items m.volume.items (map mark_shown m.marks.items) };

    fn identity(&self) -> (u64, u64) {
        (0, 0)
    }

    fn log_len(&self) -> Result<u64, Failed> {
        Ok(self.log.len() as u64)
    }

    fn volume_len(&self) -> Result<u64, Failed> {
        Ok(self.volume.len() as u64)
    }

    fn read_log(&self, at: u64, buf: &mut [u8]) -> Result<(), Failed> {
        let at = at as usize;
        if at > self.log.len() || buf.len() > self.log.len() - at {
            return Err(Failed);
        }
        buf.copy_from_slice(&self.log[at..at + buf.len()]);
        Ok(())
    }

    fn read_volume(&self, at: u64, buf: &mut [u8]) -> Result<(), Failed> {
        let at = at as usize;
        if at > self.volume.len() || buf.len() > self.volume.len() - at {
            return Err(Failed);
        }
        buf.copy_from_slice(&self.volume[at..at + buf.len()]);
        Ok(())
    }

    fn write_log(&mut self, at: u64, bytes: &[u8]) -> Result<(), Failed> {
        let Ok(new) = overwritten(self.alloc, &self.log, at as usize, bytes) else {
            return Err(Failed);
        };
        let Ok(()) = keep(self.alloc, &mut self.past, &self.log, &self.volume) else {
            return Err(Failed);
        };
        self.log = new;
        Ok(())
    }

    fn write_volume(&mut self, at: u64, bytes: &[u8]) -> Result<(), Failed> {
        let Ok(new) = overwritten(self.alloc, &self.volume, at as usize, bytes) else {
            return Err(Failed);
        };
        let Ok(()) = keep(self.alloc, &mut self.past, &self.log, &self.volume) else {
            return Err(Failed);
        };
        self.volume = new;
        Ok(())
    }

    fn set_volume_len(&mut self, len: u64) -> Result<(), Failed> {
        let Ok(new) = resized(self.alloc, &self.volume, len as usize) else {
            return Err(Failed);
        };
        let Ok(()) = keep(self.alloc, &mut self.past, &self.log, &self.volume) else {
            return Err(Failed);
        };
        self.volume = new;
        Ok(())
    }

    fn sync_log(&mut self) -> Result<(), Failed> {
        Ok(())
    }

    fn sync_volume(&mut self) -> Result<(), Failed> {
        Ok(())
    }

    fn mark(&mut self, is_first: bool) -> Result<(), Failed> {
        let moment = self.past.len() as u64;
        let Ok(()) = stand(
            self.alloc,
            &mut self.marks,
            moment,
            &self.log,
            &self.volume,
            is_first,
        ) else {
            return Err(Failed);
        };
        Ok(())
    }

    ghost seen_may_stay = { λ m. (refl, refl) };

    ghost counts_now = { λ m t l v le now. inl now };

    ghost only_now = { λ m l v left. only_pair m.past.items m.log.items m.volume.items l v left };
}
