ghost use Rattle.std.specs.Prelude.{true, false};
ghost use Rattle.hd_journal.specs.Disk.{nothing};

use crate::fault::{FileFault, of_file};
use crate::files::{Identity, OpenVolume, another, open, sync};
use crate::log_file::{log_name, open_log, owner_of};
use crate::named::Named;
use crate::output::{make_like, open_folder};
use crate::recovery::Left;
use hd_journal::{Disk, Failed, Found, find_log};
use std::alloc::Global;
use std::fs::{self, File, OpenOptions};
use std::io::{self, ErrorKind};
use std::os::unix::fs::{FileExt, OpenOptionsExt};
use std::rt::Files;

/// The files of a volume that is changed: its own, and the log beside it. Nothing is promised of their bytes.
///
/// The log is made at the first write to it of more than zeros, with the volume's owner and rights, and its folder is on the disk before anything is written into it. At
/// each sync, and before the first write behind one, it is seen that the volume's name still leads to its file: the volume that has the name else is another, and what is
/// written would be lost.
#[derive(Drop)]
pub struct VolumeFiles<'a, R: Files<File = File>> {
    volume: OpenVolume<'a, R>,
    /// The device and the number of the file whose log is taken for the volume's.
    owner: (u64, u64),
    log_name: String,
    log: Option<File>,
    /// So many zeros were written to a log that is not made yet: none is made for them alone.
    zeros: u64,
    /// Whether to wait until what is written is on the disk.
    syncs: bool,
    /// Whether it was seen, since the last sync, that the volume's name leads to its file.
    is_named: bool,
    /// What the system said of the last write or sync that it refused.
    last_error: Option<io::Error>,
}

impl<'a, R: Files<File = File>> VolumeFiles<'a, R> {
    /// The files of a volume that is open; its log too where there is one.
    pub fn over(
        alloc: Global,
        volume: OpenVolume<'a, R>,
        syncs: bool,
    ) -> Result<VolumeFiles<'a, R>, FileFault> {
        let log_name = of_file(Named::Log, log_name(volume.rt, alloc, volume.name))?;
        let mut options = OpenOptions::new();
        options.read(true).write(true);
        let log = of_file(Named::Log, open_log(volume.rt, &options, &log_name))?;
        let owner = volume.identity.parts();
        Ok(VolumeFiles {
            volume,
            owner,
            log_name,
            log,
            zeros: 0,
            syncs,
            is_named: false,
            last_error: None,
        })
    }

    /// The files of a volume that is open to be read alone.
    pub fn to_read(
        rt: &'a R,
        alloc: Global,
        name: &'a str,
        file: &File,
        identity: Identity,
    ) -> Result<VolumeFiles<'a, R>, FileFault> {
        let log_name = of_file(Named::Log, log_name(rt, alloc, name))?;
        let mut options = OpenOptions::new();
        options.read(true);
        let log = of_file(Named::Log, open_log(rt, &options, &log_name))?;
        let file = of_file(Named::Volume, another(file))?;
        let volume = OpenVolume {
            rt,
            name,
            file,
            identity,
        };
        Ok(VolumeFiles {
            volume,
            owner: identity.parts(),
            log_name,
            log,
            zeros: 0,
            syncs: false,
            is_named: false,
            last_error: None,
        })
    }

    /// The files of a volume that is open, with the log of another name, which is taken for this volume's.
    pub fn with_log(
        alloc: Global,
        volume: OpenVolume<'a, R>,
        name: &str,
    ) -> Result<VolumeFiles<'a, R>, FileFault> {
        let mut options = OpenOptions::new();
        options.read(true).write(true);
        let log = match of_file(Named::Log, open_log(volume.rt, &options, name))? {
            Some(log) => log,
            None => return Err(FileFault::file(Named::Log, io::Error::from(ErrorKind::NotFound))),
        };
        let owner = of_file(Named::Log, owner_of(&log))?;
        Ok(VolumeFiles {
            volume,
            owner,
            log_name: String::from_str(alloc, name)?,
            log: Some(log),
            zeros: 0,
            syncs: true,
            is_named: false,
            last_error: None,
        })
    }

    /// What stands in the log, if there is one.
    pub fn left(&self) -> Result<Left, FileFault> {
        let is_empty = self.log_len() == Ok(0);
        match find_log(self) {
            Ok(Found::Nothing) if is_empty => Ok(Left::Nothing),
            Ok(Found::Nothing) => Ok(Left::Uncommitted),
            // Of another version too, which is refused where it is to be copied.
            Ok(Found::Other | Found::Open(_)) => Ok(Left::Commits),
            Err(_) => Err(FileFault::Device),
        }
    }

    /// What the system said of the last write or sync that it refused; `None` where it has refused none.
    pub fn last_error(&self) -> Option<io::Error> {
        self.last_error
    }

    /// Removes the log, whose commits are all in the volume.
    pub fn remove_log(&mut self) {
        if self.log.take().is_some() {
            let _ = fs::remove_file(self.volume.rt, &self.log_name);
        }
    }

    /// Refuses to go on where the name leads to another file, or to none.
    fn be_named(&mut self) -> io::Result<()> {
        self.is_named = match fs::metadata(self.volume.rt, self.volume.name) {
            Ok(metadata) => Identity::of(&metadata) == self.volume.identity,
            Err(_) => false,
        };
        if self.is_named {
            return Ok(());
        }
        let message = "another file has taken its name, or none has it";
        Err(io::Error::new(ErrorKind::NotFound, message))
    }

    /// The same before a write, where it was not seen since the last sync.
    fn be_named_to_write(&mut self) -> io::Result<()> {
        match self.is_named {
            true => Ok(()),
            false => self.be_named(),
        }
    }

    /// The same at a sync of what was written.
    fn be_named_at_sync(&mut self) -> io::Result<()> {
        if !self.is_named {
            return Ok(());
        }
        self.be_named()?;
        self.is_named = false;
        Ok(())
    }

    /// Waits until the log is on the disk.
    fn settle_log(&mut self) -> io::Result<()> {
        self.be_named_at_sync()?;
        match &self.log {
            Some(log) => self.wait_for(log),
            None => Ok(()),
        }
    }

    /// Waits until the volume is on the disk.
    fn settle_volume(&mut self) -> io::Result<()> {
        self.be_named_at_sync()?;
        self.wait_for(&self.volume.file)
    }

    /// Makes the log where there is none.
    fn make_log(&mut self) -> io::Result<()> {
        if self.log.is_some() {
            return Ok(());
        }
        let volume = self.volume.file.metadata()?;
        let mut options = OpenOptions::new();
        // Nobody else reads it before it has the rights of the volume.
        options.read(true).write(true).create_new(true).mode(0o600);
        let log = open(self.volume.rt, &options, &self.log_name)?;
        make_like(&log, &volume);
        if self.syncs {
            sync(&open_folder(self.volume.rt, &self.log_name)?)?;
        }
        self.log = Some(log);
        Ok(())
    }

    fn put_in_log(&mut self, at: u64, bytes: &[u8]) -> io::Result<()> {
        if self.log.is_none() && bytes.iter().all(|byte| *byte == 0) {
            self.zeros = self.zeros.max(at.saturating_add(bytes.len() as u64));
            return Ok(());
        }
        self.be_named_to_write()?;
        self.make_log()?;
        match &self.log {
            Some(log) => log.write_all_at(bytes, at),
            None => Ok(()),
        }
    }

    fn put_in_volume(&mut self, at: u64, bytes: &[u8]) -> io::Result<()> {
        self.be_named_to_write()?;
        self.volume.file.write_all_at(bytes, at)
    }

    fn wait_for(&self, file: &File) -> io::Result<()> {
        match self.syncs {
            true => sync(file),
            false => Ok(()),
        }
    }

    /// What was done, or that it was refused; what was said of that is kept.
    fn note(&mut self, done: io::Result<()>) -> Result<(), Failed> {
        match done {
            Ok(()) => Ok(()),
            Err(error) => {
                self.last_error = Some(error);
                Err(Failed)
            }
        }
    }
}

/// The length of a file.
fn length_of(file: &File) -> Result<u64, Failed> {
    match file.metadata() {
        Ok(metadata) => Ok(metadata.len()),
        Err(_) => Err(Failed),
    }
}

/// Reads the bytes of a file from a place on.
fn read_at(file: &File, at: u64, buf: &mut [u8]) -> Result<(), Failed> {
    match file.read_exact_at(buf, at) {
        Ok(()) => Ok(()),
        Err(_) => Err(Failed),
    }
}

impl<'a, R: Files<File = File>> Disk for VolumeFiles<'a, R> {
    ghost is_honest = { false };

    ghost is_usable = { λ _. true };

    ghost state = { λ _. nothing };

    fn identity(&self) -> (u64, u64) {
        self.owner
    }

    fn log_len(&self) -> Result<u64, Failed> {
        match &self.log {
            Some(log) => length_of(log),
            None => Ok(self.zeros),
        }
    }

    fn volume_len(&self) -> Result<u64, Failed> {
        length_of(&self.volume.file)
    }

    fn read_log(&self, at: u64, buf: &mut [u8]) -> Result<(), Failed> {
        match &self.log {
            Some(log) => read_at(log, at, buf),
            None if at.saturating_add(buf.len() as u64) <= self.zeros => {
                buf.fill(0);
                Ok(())
            }
            None => Err(Failed),
        }
    }

    fn read_volume(&self, at: u64, buf: &mut [u8]) -> Result<(), Failed> {
        read_at(&self.volume.file, at, buf)
    }

    fn write_log(&mut self, at: u64, bytes: &[u8]) -> Result<(), Failed> {
        let done = self.put_in_log(at, bytes);
        self.note(done)
    }

    fn write_volume(&mut self, at: u64, bytes: &[u8]) -> Result<(), Failed> {
        let done = self.put_in_volume(at, bytes);
        self.note(done)
    }

    fn set_volume_len(&mut self, len: u64) -> Result<(), Failed> {
        let done = self.volume.file.set_len(len);
        self.note(done)
    }

    fn sync_log(&mut self) -> Result<(), Failed> {
        let done = self.settle_log();
        self.note(done)
    }

    fn sync_volume(&mut self) -> Result<(), Failed> {
        let done = self.settle_volume();
        self.note(done)
    }

    fn mark(&mut self, _is_first: bool) -> Result<(), Failed> {
        Ok(())
    }

    ghost seen_may_stay = { λ _. tt };

    ghost counts_now = { λ _ _ _ _ _ _. tt };

    ghost only_now = { λ _ _ _ _. tt };
}
