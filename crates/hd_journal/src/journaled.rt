ghost use Rattle.std.specs.Prelude.{◌≡◌, ◌+◌, ◌<◌, ◌≤◌, [], ◌&&◌, not, true, false, IsTrue, IfOk, IfErr, OnOk, OnErr};
ghost use Rattle.hd_dbd.specs.Refusals.{OnlyDevice};
ghost use Rattle.hd_stores.specs.Stores.{IsCommit, FailsCommit, CountsDevice, StaysSound};
ghost use Rattle.hd_journal.specs.Disk.{Leaves, LeavesMeanwhile};
ghost use Rattle.hd_journal.specs.Log.{recovered, IsForeign};
ghost use Rattle.hd_journal.specs.States.{StandsFor, StandsForEither, IsSettled};
ghost use Rattle.hd_journal.specs.Framed.{IsSafe};
ghost use Rattle.hd_journal.specs.Finds.{RefusesLog};

use crate::disk::Disk;
use crate::journal::Journal;
use crate::opening::open_journal;
use crate::recovery::Unopened;
use hd_dbd::Refused;
use hd_stores::{BlockStore, CommitStore, RunStore};
use std::alloc::Global;
use std::marker::Model;
use std::sync::ledger::{Blank, Book, Ledger, Share};

/// Blocks over a volume and its log, which has what was written since the last commit: a crash at any moment leaves the bytes of that commit.
///
/// From the first call of the disk that fails on, each call that would access it is refused with `Device`, and counted.
#[derive(Drop)]
pub struct Journaled<D: Disk, L: Ledger> {
    journal: Journal<D>,
    failures: Book<L>,
    share: Share<L>,
}

impl<D: Disk, L: Ledger> Model for Journaled<D, L> {
    ghost use Rattle.hd_journal.specs.Shows.{Shown, shown_of, Counts};

    ghost Value = { Shown D };

    ghost view = { λ s. shown_of D.is_honest D.state s.journal s.failures.total };

    ghost invariant = { λ s. Counts D.is_honest D.is_usable D.state s.journal s.share.parts };
}

impl<D: Disk, L: Ledger> Journaled<D, L> {
    /// The store over a volume and a log that a crash, or a program that was killed, may have left, in blocks of `size` bytes. Failed accesses
    /// are counted in the ledger of `blank`.
    ///
    /// What is not opened gives the disk back. A crash meanwhile leaves the two files as they were, or standing for the same image.
    pub fn open(
        alloc: Global,
        disk: D,
        size: u32,
        blank: Blank,
    ) -> Result<Journaled<D, L>, (D, Unopened)>
        requires usable { IsTrue (D.is_usable disk) }
        requires some { 16 ≤ size }
        requires small { size ≤ 32768 }
        requires name { blank.name ≡ L.name }
        requires parts { blank.parts ≡ L.parts }
        requires share { 0 < blank.parts }
        ensures fresh { IfOk result (λ s. (s.failed ≡ false) × (s.failures ≡ 0) × (s.size ≡ size) × (s.room ≡ 0)) }
        ensures sound { IfOk result (λ s. s.is_sound ≡ D.is_honest) }
        ensures contents { IfOk result (λ s. IsTrue D.is_honest → s.contents ≡ recovered (D.state disk).log (D.state disk).volume) }
        ensures image { IfOk result (λ s. IsTrue D.is_honest → s.committed.image ≡ recovered (D.state disk).log (D.state disk).volume) }
        ensures tried { IfOk result (λ s. IsTrue D.is_honest → s.committed.tried ≡ recovered (D.state disk).log (D.state disk).volume) }
        ensures since { IfOk result (λ s. IsTrue D.is_honest → s.committed.since ≡ (D.state s.disk).moment) }
        ensures before { IfOk result (λ s. IsTrue D.is_honest → s.committed.before ≡ []) }
        ensures own { IfOk result (λ _. IsTrue D.is_honest → IsForeign (D.state disk).log → ⊥) }
        ensures leaves { IfOk result (λ s. IsTrue D.is_honest → LeavesMeanwhile (StandsFor (recovered (D.state disk).log (D.state disk).volume)) (D.state disk) (D.state s.disk)) }
        ensures refusal { IfErr result (λ e. IsTrue D.is_honest → RefusesLog e.1 (D.state disk) (D.state e.0)) }
        ensures fails { IfErr result (λ e. IsTrue D.is_honest → Leaves (StandsFor (recovered (D.state disk).log (D.state disk).volume)) (D.state disk) (D.state e.0)) }
    {
        match open_journal(alloc, disk, size) {
            Ok(journal) => {
                let (failures, share) = blank.open();
                Ok(Journaled {
                    journal,
                    failures,
                    share,
                })
            }
            Err(unopened) => Err(unopened),
        }
    }

    /// A crash at any moment since the opening, or since a commit, leaves the image of that or of a later commit, and behind the last also that of one which
    /// was tried and failed. A store over an honest disk is sound until an access fails.
    pub fn assure(&self)
        ensures safe { IsTrue D.is_honest → IsSafe self.now.committed (D.state self.now.disk) }
        ensures sound { self.now.is_sound ≡ (D.is_honest && not self.now.failed) }
    {
        let _ = &self.journal;
    }

    /// Counts a failed access.
    fn refuse(&mut self) -> Refused
        ensures counts { self.new ≡ record self.old { failures = self.old.failures + 1 } }
        ensures device { result ≡ Refused.Device }
    {
        self.failures.add(&mut self.share, 1);
        Refused::Device
    }

    /// Copies the last commit's frames, if they wait in the log, to the volume, which then has all by itself. `Device` is a failed access.
    pub fn settle(&mut self) -> Result<(), Refused>
        ensures contents { OnOk result (IsTrue self.old.is_sound → self.new.contents ≡ self.old.contents) }
        ensures settled { OnOk result (IsTrue self.old.is_sound → IsSettled (D.state self.new.disk)) }
        ensures volume { OnOk result (IsTrue self.old.is_sound → (D.state self.new.disk).volume ≡ self.new.committed.image) }
        ensures refusal { OnlyDevice result }
        ensures counts { CountsDevice result self.old.failures self.new.failures }
        ensures sound { StaysSound result self.old.is_sound self.new.is_sound }
        ensures committed { self.new.committed ≡ self.old.committed }
        ensures size { self.new.size ≡ self.old.size }
        ensures room { self.new.room ≡ self.old.room }
    {
        match self.journal.settle() {
            Ok(()) => Ok(()),
            Err(_) => Err(self.refuse()),
        }
    }

    /// Whether anything was written since the last commit.
    pub fn is_changed(&self) -> bool
        ensures { result ≡ false → IsTrue self.now.is_sound → self.now.contents ≡ self.now.committed.image }
    {
        self.journal.is_changed()
    }

    /// Forgets all that was written since the last commit, with no access. Where an access has failed nothing changes.
    pub fn roll_back(&mut self)
        ensures value { IsTrue self.old.is_sound → self.new.contents ≡ self.old.committed.image }
        ensures dead { self.old.failed ≡ true → self.new ≡ self.old }
        ensures committed { self.new.committed ≡ self.old.committed }
        ensures disk { self.new.disk ≡ self.old.disk }
        ensures failed { self.new.failed ≡ self.old.failed }
        ensures sound { self.new.is_sound ≡ self.old.is_sound }
        ensures failures { self.new.failures ≡ self.old.failures }
        ensures size { self.new.size ≡ self.old.size }
        ensures room { self.new.room ≡ self.old.room }
    {
        self.journal.roll_back()
    }

    /// The disk below.
    pub fn disk(&self) -> &D
        ensures { result.now ≡ self.now.disk }
    {
        &self.journal.disk
    }

    /// The disk below. What was not committed is lost.
    pub fn into_disk(self) -> D
        ensures { result ≡ self.disk }
    {
        self.journal.disk
    }
}

impl<D: Disk, L: Ledger> BlockStore for Journaled<D, L> {
    ghost size = { λ s. s.size };

    ghost contents = { λ s. s.contents };

    ghost is_sound = { λ s. s.is_sound };

    ghost failures = { λ s. s.failures };

    ghost room = { λ s. s.room };

    ghost committed = { λ s. s.committed };

    fn block_size(&self) -> usize {
        self.journal.head.size as usize
    }

    fn length(&self) -> u64 {
        self.journal.length()
    }

    fn read(&mut self, n: u32, buf: &mut [u8]) -> Result<(), Refused> {
        match self.journal.read(n, buf) {
            Ok(()) => Ok(()),
            Err(_) => Err(self.refuse()),
        }
    }

    fn write(&mut self, n: u32, bytes: &[u8]) -> Result<(), Refused> {
        match self.journal.write(n, bytes) {
            Ok(()) => Ok(()),
            Err(_) => Err(self.refuse()),
        }
    }

    fn reserve(&mut self, blocks: u32) -> Result<(), Refused> {
        self.journal.reserve(blocks)
    }

    fn grow(&mut self, blocks: u32) -> Result<(), Refused> {
        match self.journal.grow(blocks) {
            Ok(()) => Ok(()),
            Err(Refused::Memory) => Err(Refused::Memory),
            Err(_) => Err(self.refuse()),
        }
    }
}

impl<D: Disk, L: Ledger> RunStore for Journaled<D, L> {
    fn read_run(&mut self, n: u32, buf: &mut [u8]) -> Result<(), Refused> {
        match self.journal.read(n, buf) {
            Ok(()) => Ok(()),
            Err(_) => Err(self.refuse()),
        }
    }
}

impl<D: Disk, L: Ledger> CommitStore for Journaled<D, L> {
    fn commit(&mut self) -> Result<(), Refused>
        ensures committed { OnOk result (IsCommit self.old.is_sound self.old.contents self.new.contents self.old.committed self.new.committed) }
        ensures fails { OnErr result (FailsCommit self.old.is_sound self.old.contents self.old.committed self.new.committed) }
        ensures leaves { self.old.failed ≡ false → IsTrue D.is_honest → LeavesMeanwhile (StandsForEither self.old.committed.image self.old.contents) (D.state self.old.disk) (D.state self.new.disk) }
        ensures dead { self.old.failed ≡ true → (self.new.disk ≡ self.old.disk) × (self.new.committed ≡ self.old.committed) }
        ensures refusal { OnlyDevice result }
        ensures counts { CountsDevice result self.old.failures self.new.failures }
        ensures sound { StaysSound result self.old.is_sound self.new.is_sound }
        ensures size { self.new.size ≡ self.old.size }
        ensures room { self.new.room ≡ self.old.room }
    {
        match self.journal.commit() {
            Ok(()) => Ok(()),
            Err(_) => Err(self.refuse()),
        }
    }
}
