ghost use Rattle.std.specs.Prelude.{◌≡◌, ◌⊎◌, ◌-◌, ◌*◌, ◌<◌, ◌≤◌, true, false, IsTrue, length, slice_index, IfErr, OnOk, OnErr};

use crate::copying::copy_commits;
use crate::disk::{Disk, Failed};
use crate::finding::most_len;
use crate::frames::{append_frame, before, clear, copy_places, fresh, overwrite_frame};
use crate::head::Head;
use crate::reading::read_bytes;
use hd_dbd::Refused;

/// So many bytes of frames wait in a log at most when a write comes behind a commit. A longer log is copied to the volume first.
pub const LOG_LIMIT: u64 = 4 << 20;

/// How far the bytes of the last commit are.
#[derive(Clone, Copy, Debug, PartialEq, Eq)]
pub enum Stage {
    /// The log's gate is shut: the volume has them, and the frames are of what was written since.
    Collecting,
    /// The log's gate is open: the frames up to a shut gate are theirs, and those behind it are of what was written since.
    Published,
    /// A commit failed: it counts, or the one before is the last.
    Doubtful,
}

/// Blocks over a volume and its log.
#[derive(Drop)]
pub struct Journal<D: Disk> {
    pub disk: D,
    /// The head that a commit of all that was written would make.
    pub head: Head,
    /// Of each block one more than the slot of its last frame, or 0.
    pub places: Vec<u32>,
    /// The head of the last commit, the slot of the gate behind it counted.
    pub last: Head,
    /// The places as they were then.
    pub kept: Vec<u32>,
    /// So many blocks more find memory.
    pub reserved: usize,
    /// A block of zeros.
    pub zeros: Vec<u8>,
    /// Room for a frame.
    pub frame: Vec<u8>,
    pub stage: Stage,
    /// A call of the disk failed.
    pub failed: bool,
}

impl<D: Disk> Journal<D> {
    ghost use Rattle.hd_bytes.specs.Blocks.{with_block, grown};
    ghost use Rattle.hd_bytes.specs.Ranges.{bytes_at};
    ghost use Rattle.hd_journal.specs.Disk.{Leaves};
    ghost use Rattle.hd_journal.specs.States.{IsShutBetween};
    ghost use Rattle.hd_journal.specs.Journals.{IsJournal, IsOutOfMemory, contents_of, last_of, committed_of};

    /// All bytes.
    pub fn length(&self) -> u64
        ensures { result ≡ length (contents_of D.state self.now) }
    {
        self.head.len
    }

    /// Reads the bytes from block `n` on that fill `buf`.
    pub fn read(&mut self, n: u32, buf: &mut [u8]) -> Result<(), Failed>
        requires kept { IsJournal D.is_honest D.is_usable D.state self.old }
        ensures kept { IsJournal D.is_honest D.is_usable D.state self.new }
        ensures len { length buf.new ≡ length buf.old }
        ensures ok { OnOk result ((self.new.failed ≡ false) × (self.old.failed ≡ false)) }
        ensures err { OnErr result (self.new.failed ≡ true) }
        ensures value { OnOk result (IsTrue D.is_honest → buf.new ≡ bytes_at (contents_of D.state self.old) (n * self.old.head.size) (length buf.old)) }
        ensures contents { OnOk result (IsTrue D.is_honest → contents_of D.state self.new ≡ contents_of D.state self.old) }
        ensures committed { IsTrue D.is_honest → committed_of D.state self.new ≡ committed_of D.state self.old }
        ensures size { self.new.head.size ≡ self.old.head.size }
        ensures reserved { self.new.reserved ≡ self.old.reserved }
    {
        let at = u64::from(n) * u64::from(self.head.size);
        if self.failed || at > self.head.len || buf.len() as u64 > self.head.len - at {
            self.failed = true;
            return Err(Failed);
        }
        let Ok(()) = read_bytes(&self.disk, self.head, &self.places, n, buf) else {
            self.failed = true;
            return Err(Failed);
        };
        Ok(())
    }

    /// Writes block `n`, to the log alone.
    pub fn write(&mut self, n: u32, bytes: &[u8]) -> Result<(), Failed>
        requires kept { IsJournal D.is_honest D.is_usable D.state self.old }
        requires whole { length bytes.now ≡ self.old.head.size }
        ensures kept { IsJournal D.is_honest D.is_usable D.state self.new }
        ensures ok { OnOk result ((self.new.failed ≡ false) × (self.old.failed ≡ false)) }
        ensures err { OnErr result (self.new.failed ≡ true) }
        ensures value { OnOk result (IsTrue D.is_honest → contents_of D.state self.new ≡ with_block self.old.head.size (contents_of D.state self.old) n bytes.now) }
        ensures len { OnOk result (IsTrue D.is_honest → length (contents_of D.state self.new) ≡ length (contents_of D.state self.old)) }
        ensures committed { IsTrue D.is_honest → committed_of D.state self.new ≡ committed_of D.state self.old }
        ensures size { self.new.head.size ≡ self.old.head.size }
        ensures reserved { self.new.reserved ≡ self.old.reserved }
    {
        self.make_room()?;
        if n as usize >= self.places.len() || self.head.count == u32::MAX {
            self.failed = true;
            return Err(Failed);
        }
        let place = self.places[n as usize];
        if place <= self.last.count {
            self.append(n, bytes)
        } else {
            self.replace(n, place, bytes)
        }
    }

    /// Writes a frame behind the other slots.
    fn append(&mut self, n: u32, bytes: &[u8]) -> Result<(), Failed>
        requires kept { IsJournal D.is_honest D.is_usable D.state self.old }
        requires well { self.old.failed ≡ false }
        requires whole { length bytes.now ≡ self.old.head.size }
        requires there { n < length self.old.places.items }
        requires few { self.old.head.count < 4294967295 }
        ensures kept { IsJournal D.is_honest D.is_usable D.state self.new }
        ensures ok { OnOk result ((self.new.failed ≡ false) × (self.old.failed ≡ false)) }
        ensures err { OnErr result (self.new.failed ≡ true) }
        ensures value { OnOk result (IsTrue D.is_honest → contents_of D.state self.new ≡ with_block self.old.head.size (contents_of D.state self.old) n bytes.now) }
        ensures len { OnOk result (IsTrue D.is_honest → length (contents_of D.state self.new) ≡ length (contents_of D.state self.old)) }
        ensures committed { IsTrue D.is_honest → committed_of D.state self.new ≡ committed_of D.state self.old }
        ensures size { self.new.head.size ≡ self.old.head.size }
        ensures reserved { self.new.reserved ≡ self.old.reserved }
    {
        let Ok(()) = append_frame(&mut self.disk, self.head, n, bytes, &mut self.frame) else {
            self.failed = true;
            return Err(Failed);
        };
        let place = self.head.count + 1;
        self.places[n as usize] = place;
        self.head.count = place;
        Ok(())
    }

    /// Writes over the frame of a block, which no commit has.
    fn replace(&mut self, n: u32, place: u32, bytes: &[u8]) -> Result<(), Failed>
        requires kept { IsJournal D.is_honest D.is_usable D.state self.old }
        requires well { self.old.failed ≡ false }
        requires whole { length bytes.now ≡ self.old.head.size }
        requires there { n < length self.old.places.items }
        requires is { slice_index self.old.places.items n ≡ place }
        requires new { self.old.last.count < place }
        ensures kept { IsJournal D.is_honest D.is_usable D.state self.new }
        ensures ok { OnOk result ((self.new.failed ≡ false) × (self.old.failed ≡ false)) }
        ensures err { OnErr result (self.new.failed ≡ true) }
        ensures value { OnOk result (IsTrue D.is_honest → contents_of D.state self.new ≡ with_block self.old.head.size (contents_of D.state self.old) n bytes.now) }
        ensures len { OnOk result (IsTrue D.is_honest → length (contents_of D.state self.new) ≡ length (contents_of D.state self.old)) }
        ensures committed { IsTrue D.is_honest → committed_of D.state self.new ≡ committed_of D.state self.old }
        ensures size { self.new.head.size ≡ self.old.head.size }
        ensures reserved { self.new.reserved ≡ self.old.reserved }
    {
        let Ok(()) = overwrite_frame(&mut self.disk, self.head, place, bytes) else {
            self.failed = true;
            return Err(Failed);
        };
        Ok(())
    }

    /// Finds memory for so many blocks more.
    pub fn reserve(&mut self, blocks: u32) -> Result<(), Refused>
        requires kept { IsJournal D.is_honest D.is_usable D.state self.old }
        ensures kept { IsJournal D.is_honest D.is_usable D.state self.new }
        ensures room { OnOk result (blocks ≤ self.new.reserved) }
        ensures no_less { self.old.reserved ≤ self.new.reserved }
        ensures refusal { IfErr result (λ e. (e ≡ Refused.Memory) × (self.old.reserved < blocks) × (self.new.reserved ≡ self.old.reserved)) }
        ensures contents { contents_of D.state self.new ≡ contents_of D.state self.old }
        ensures committed { committed_of D.state self.new ≡ committed_of D.state self.old }
        ensures failed { self.new.failed ≡ self.old.failed }
        ensures size { self.new.head.size ≡ self.old.head.size }
        ensures disk { self.new.disk ≡ self.old.disk }
    {
        let blocks = blocks as usize;
        if blocks <= self.reserved {
            return Ok(());
        }
        if self.places.reserve(blocks).is_err() {
            return Err(Refused::Memory);
        }
        let more = self.places.len() - self.kept.len() + blocks;
        if self.kept.reserve(more).is_err() {
            return Err(Refused::Memory);
        }
        self.reserved = blocks;
        Ok(())
    }

    /// Adds so many blocks of zeros, with no access but those of `make_room`.
    pub fn grow(&mut self, blocks: u32) -> Result<(), Refused>
        requires kept { IsJournal D.is_honest D.is_usable D.state self.old }
        ensures kept { IsJournal D.is_honest D.is_usable D.state self.new }
        ensures ok { OnOk result ((self.new.failed ≡ false) × (self.old.failed ≡ false)) }
        ensures refusal { IfErr result (λ e. (e ≡ Refused.Device) × (self.new.failed ≡ true) ⊎ IsOutOfMemory D.is_honest D.state blocks e self.old self.new) }
        ensures room { OnOk result (self.old.reserved - blocks ≤ self.new.reserved) }
        ensures value { OnOk result (IsTrue D.is_honest → contents_of D.state self.new ≡ grown self.old.head.size (contents_of D.state self.old) blocks) }
        ensures committed { IsTrue D.is_honest → committed_of D.state self.new ≡ committed_of D.state self.old }
        ensures size { self.new.head.size ≡ self.old.head.size }
    {
        let Ok(()) = self.make_room() else {
            return Err(Refused::Device);
        };
        self.reserve(blocks)?;
        let more = u64::from(blocks) * u64::from(self.head.size);
        let Some(len) = self.head.len.checked_add(more) else {
            self.failed = true;
            return Err(Refused::Device);
        };
        if len > most_len(self.head) {
            self.failed = true;
            return Err(Refused::Device);
        }
        let Some(places) = self.places.len().checked_add(blocks as usize) else {
            self.failed = true;
            return Err(Refused::Device);
        };
        let Ok(()) = self.places.resize(places, 0) else {
            return Err(Refused::Memory);
        };
        self.reserved = self.reserved.saturating_sub(blocks as usize);
        self.head.len = len;
        Ok(())
    }

    /// Whether anything was written since the last commit.
    pub fn is_changed(&self) -> bool
        requires kept { IsJournal D.is_honest D.is_usable D.state self.now }
        ensures same { result ≡ false → contents_of D.state self.now ≡ last_of D.state self.now }
    {
        self.head.count > self.last.count || self.head.len > self.last.len
    }

    /// Forgets all that was written since the last commit, with no access.
    pub fn roll_back(&mut self)
        requires kept { IsJournal D.is_honest D.is_usable D.state self.old }
        ensures kept { IsJournal D.is_honest D.is_usable D.state self.new }
        ensures failed { self.new.failed ≡ self.old.failed }
        ensures disk { self.new.disk ≡ self.old.disk }
        ensures value { self.old.failed ≡ false → IsTrue D.is_honest → contents_of D.state self.new ≡ (committed_of D.state self.old).image }
        ensures committed { IsTrue D.is_honest → committed_of D.state self.new ≡ committed_of D.state self.old }
        ensures dead { self.old.failed ≡ true → self.new ≡ self.old }
        ensures size { self.new.head.size ≡ self.old.head.size }
        ensures reserved { self.new.reserved ≡ self.old.reserved }
        ensures stage { self.new.stage ≡ self.old.stage }
        ensures head { self.old.failed ≡ false → self.new.head ≡ self.old.last }
    {
        if self.failed {
            return;
        }
        copy_places(&mut self.places, &self.kept);
        self.head = self.last;
    }

    /// Copies the frames of the last commit to the volume, if they still wait in the log, and shuts the gate.
    pub fn settle(&mut self) -> Result<(), Failed>
        requires kept { IsJournal D.is_honest D.is_usable D.state self.old }
        ensures kept { IsJournal D.is_honest D.is_usable D.state self.new }
        ensures ok { OnOk result ((self.new.failed ≡ false) × (self.old.failed ≡ false)) }
        ensures err { OnErr result (self.new.failed ≡ true) }
        ensures collecting { OnOk result (self.new.stage ≡ Stage.Collecting) }
        ensures contents { OnOk result (IsTrue D.is_honest → contents_of D.state self.new ≡ contents_of D.state self.old) }
        ensures committed { IsTrue D.is_honest → committed_of D.state self.new ≡ committed_of D.state self.old }
        ensures size { self.new.head.size ≡ self.old.head.size }
        ensures reserved { self.new.reserved ≡ self.old.reserved }
        ensures volume { OnOk result (IsTrue D.is_honest → (D.state self.new.disk).volume ≡ (committed_of D.state self.new).image) }
    {
        if self.failed {
            return Err(Failed);
        }
        match self.stage {
            Stage::Collecting | Stage::Doubtful => Ok(()),
            Stage::Published if self.is_idle() => self.start_anew(),
            Stage::Published => self.copy_back(),
        }
    }

    /// Copies the frames of the commits of an open log to the volume, and shuts the gate. What was written since stays in the log.
    fn copy_back(&mut self) -> Result<(), Failed>
        requires kept { IsJournal D.is_honest D.is_usable D.state self.old }
        requires well { self.old.failed ≡ false }
        requires published { self.old.stage ≡ Stage.Published }
        ensures kept { IsJournal D.is_honest D.is_usable D.state self.new }
        ensures ok { OnOk result ((self.new.failed ≡ false) × (self.old.failed ≡ false)) }
        ensures err { OnErr result (self.new.failed ≡ true) }
        ensures collecting { OnOk result (self.new.stage ≡ Stage.Collecting) }
        ensures contents { OnOk result (IsTrue D.is_honest → contents_of D.state self.new ≡ contents_of D.state self.old) }
        ensures committed { IsTrue D.is_honest → committed_of D.state self.new ≡ committed_of D.state self.old }
        ensures shut { IsTrue D.is_honest → 0 < length self.old.kept.items
            → Leaves (IsShutBetween (D.state self.old.disk).volume (last_of D.state self.old)) (D.state self.old.disk) (D.state self.new.disk) }
        ensures size { self.new.head.size ≡ self.old.head.size }
        ensures reserved { self.new.reserved ≡ self.old.reserved }
        ensures volume { OnOk result (IsTrue D.is_honest → (D.state self.new.disk).volume ≡ (committed_of D.state self.new).image) }
        ensures bare { OnOk result (self.new.last.count ≡ 0) }
    {
        let Ok(()) = copy_commits(&mut self.disk, before(self.last), &mut self.frame) else {
            self.failed = true;
            return Err(Failed);
        };
        let blocks = self.kept.len();
        clear(&mut self.kept, blocks);
        self.head.base = self.last.len;
        self.last = fresh(self.last, self.last.len);
        self.stage = Stage::Collecting;
        Ok(())
    }

    /// Whether nothing was written since the last commit.
    pub fn is_idle(&self) -> bool
        ensures { IsTrue result → (self.now.head.count ≡ self.now.last.count) × (self.now.head.len ≡ self.now.last.len) }
    {
        self.head.count == self.last.count && self.head.len == self.last.len
    }

    /// Copies the frames of the commits of an open log to the volume, behind which nothing was written, and begins the log anew.
    fn start_anew(&mut self) -> Result<(), Failed>
        requires kept { IsJournal D.is_honest D.is_usable D.state self.old }
        requires well { self.old.failed ≡ false }
        requires published { self.old.stage ≡ Stage.Published }
        requires idle { (self.old.head.count ≡ self.old.last.count) × (self.old.head.len ≡ self.old.last.len) }
        ensures kept { IsJournal D.is_honest D.is_usable D.state self.new }
        ensures ok { OnOk result ((self.new.failed ≡ false) × (self.old.failed ≡ false)) }
        ensures err { OnErr result (self.new.failed ≡ true) }
        ensures collecting { OnOk result (self.new.stage ≡ Stage.Collecting) }
        ensures bare { OnOk result (self.new.head.count ≡ 0) }
        ensures contents { OnOk result (IsTrue D.is_honest → contents_of D.state self.new ≡ contents_of D.state self.old) }
        ensures committed { IsTrue D.is_honest → committed_of D.state self.new ≡ committed_of D.state self.old }
        ensures volume { OnOk result (IsTrue D.is_honest → (D.state self.new.disk).volume ≡ (committed_of D.state self.new).image) }
        ensures size { self.new.head.size ≡ self.old.head.size }
        ensures reserved { self.new.reserved ≡ self.old.reserved }
    {
        self.copy_back()?;
        self.roll_back();
        Ok(())
    }

    /// Begins the log anew, once its frames are copied, where it is longer than its limit and nothing was written since the last commit.
    fn make_room(&mut self) -> Result<(), Failed>
        requires kept { IsJournal D.is_honest D.is_usable D.state self.old }
        ensures kept { IsJournal D.is_honest D.is_usable D.state self.new }
        ensures ok { OnOk result ((self.new.failed ≡ false) × (self.old.failed ≡ false)) }
        ensures err { OnErr result (self.new.failed ≡ true) }
        ensures contents { OnOk result (IsTrue D.is_honest → contents_of D.state self.new ≡ contents_of D.state self.old) }
        ensures committed { IsTrue D.is_honest → committed_of D.state self.new ≡ committed_of D.state self.old }
        ensures size { self.new.head.size ≡ self.old.head.size }
        ensures reserved { self.new.reserved ≡ self.old.reserved }
    {
        if self.failed {
            return Err(Failed);
        }
        let len = u64::from(self.head.count) * (u64::from(self.head.size) + 4);
        if len > LOG_LIMIT && self.is_idle() {
            return self.settle();
        }
        Ok(())
    }
}
