ghost use Rattle.std.specs.Prelude.{◌≡◌, ◌≢◌, ◌+◌, ◌<◌, ◌≤◌, true, false, IsTrue, length, replicate, slice_index, OnOk, OnErr};
ghost use Rattle.hd_journal.specs.Disk.{Leaves};
ghost use Rattle.hd_journal.specs.Log.{Fits, SameSlots};
ghost use Rattle.hd_journal.specs.States.{IsPublished, StandsForEither, image_on};
ghost use Rattle.hd_journal.specs.Journals.{Holds};

use crate::committing::publish_first;
use crate::disk::{Disk, Failed};
use crate::following::publish_next;
use crate::frames::{copy_places, write_frame};
use crate::head::Head;
use crate::journal::{Journal, Stage};
use crate::reading::read_first;

/// Makes what was written behind the last commit the next, by its stage.
///
/// A crash at any moment leaves the image of the last commit, or that of the next, and after `Ok` that of the next.
fn publish<D: Disk>(
    disk: &mut D,
    stage: Stage,
    last: Head,
    head: Head,
    zeros: &[u8],
    frame: &mut [u8],
) -> Result<(), Failed>
    requires usable { IsTrue (D.is_usable disk.old) }
    requires some { 16 ≤ head.size }
    requires small { head.size ≤ 32768 }
    requires zeros { zeros.now ≡ replicate head.size 0 }
    requires frame { length frame.old ≡ head.size + 4 }
    requires same { head ≡ record last { count = head.count; len = head.len } }
    requires later { last.count ≤ head.count }
    requires longer { last.len ≤ head.len }
    requires sure { stage ≢ Stage.Doubtful }
    requires holds { IsTrue D.is_honest → Holds stage last (D.state disk.old) }
    requires fits { IsTrue D.is_honest → Fits head (D.state disk.old).log (D.state disk.old).volume }
    ensures usable { OnOk result (IsTrue (D.is_usable disk.new)) }
    ensures frame { length frame.new ≡ length frame.old }
    ensures published { OnOk result (IsTrue D.is_honest → IsPublished head (D.state disk.new)) }
    ensures volume { IsTrue D.is_honest → (D.state disk.new).volume ≡ (D.state disk.old).volume }
    ensures slots { IsTrue D.is_honest → SameSlots head.size head.count (D.state disk.old).log (D.state disk.new).log }
    ensures leaves { IsTrue D.is_honest → Leaves (StandsForEither (image_on last (D.state disk.old)) (image_on head (D.state disk.old))) (D.state disk.old) (D.state disk.new) }
{
    match stage {
        Stage::Collecting => publish_first(disk, head, zeros, frame),
        Stage::Published => publish_next(disk, last, head, zeros, frame),
        Stage::Doubtful => Err(Failed),
    }
}

impl<D: Disk> Journal<D> {
    ghost use Rattle.hd_journal.specs.Disk.{Leaves, LeavesMeanwhile};
    ghost use Rattle.hd_journal.specs.States.{StandsFor, StandsForEither};
    ghost use Rattle.hd_journal.specs.Journals.{IsJournal, IsCommitted, IsTried, contents_of, committed_of};

    /// Makes all that was written last. A crash at any moment leaves the image of the last commit or the contents, and after
    /// `Ok` the contents.
    pub fn commit(&mut self) -> Result<(), Failed>
        requires kept { IsJournal D.is_honest D.is_usable D.state self.old }
        ensures kept { IsJournal D.is_honest D.is_usable D.state self.new }
        ensures ok { OnOk result ((self.new.failed ≡ false) × (self.old.failed ≡ false)) }
        ensures err { OnErr result (self.new.failed ≡ true) }
        ensures contents { OnOk result (IsTrue D.is_honest → contents_of D.state self.new ≡ contents_of D.state self.old) }
        ensures committed { OnOk result (IsTrue D.is_honest → IsCommitted (contents_of D.state self.old) (committed_of D.state self.old) (committed_of D.state self.new)) }
        ensures fails { OnErr result (self.old.failed ≡ false → IsTrue D.is_honest → IsTried (contents_of D.state self.old) (committed_of D.state self.old) (committed_of D.state self.new)) }
        ensures leaves { self.old.failed ≡ false → IsTrue D.is_honest
            → LeavesMeanwhile (StandsForEither (committed_of D.state self.old).image (contents_of D.state self.old)) (D.state self.old.disk) (D.state self.new.disk) }
        ensures dead { self.old.failed ≡ true → self.new ≡ self.old }
        ensures size { self.new.head.size ≡ self.old.head.size }
        ensures reserved { self.new.reserved ≡ self.old.reserved }
    {
        if self.failed {
            return Err(Failed);
        }
        if self.is_idle() {
            return self.mark();
        }
        self.frame_first()?;
        self.publish_frames()
    }

    /// Counts a commit of what the last one has made last.
    fn mark(&mut self) -> Result<(), Failed>
        requires kept { IsJournal D.is_honest D.is_usable D.state self.old }
        requires well { self.old.failed ≡ false }
        requires idle { (self.old.head.count ≡ self.old.last.count) × (self.old.head.len ≡ self.old.last.len) }
        ensures kept { IsJournal D.is_honest D.is_usable D.state self.new }
        ensures ok { OnOk result ((self.new.failed ≡ false) × (self.old.failed ≡ false)) }
        ensures err { OnErr result (self.new.failed ≡ true) }
        ensures contents { IsTrue D.is_honest → contents_of D.state self.new ≡ contents_of D.state self.old }
        ensures committed { OnOk result (IsTrue D.is_honest → IsCommitted (contents_of D.state self.old) (committed_of D.state self.old) (committed_of D.state self.new)) }
        ensures fails { OnErr result (IsTrue D.is_honest → committed_of D.state self.new ≡ committed_of D.state self.old) }
        ensures leaves { IsTrue D.is_honest → LeavesMeanwhile (StandsForEither (committed_of D.state self.old).image (contents_of D.state self.old)) (D.state self.old.disk) (D.state self.new.disk) }
        ensures size { self.new.head.size ≡ self.old.head.size }
        ensures reserved { self.new.reserved ≡ self.old.reserved }
    {
        let Ok(()) = self.disk.mark(false) else {
            self.failed = true;
            return Err(Failed);
        };
        Ok(())
    }

    /// Writes a frame of block 0 behind the others, where it has none: the first byte of a volume is shut while frames are copied to it.
    fn frame_first(&mut self) -> Result<(), Failed>
        requires kept { IsJournal D.is_honest D.is_usable D.state self.old }
        requires well { self.old.failed ≡ false }
        ensures kept { IsJournal D.is_honest D.is_usable D.state self.new }
        ensures ok { OnOk result (self.new.failed ≡ false) }
        ensures err { OnErr result (self.new.failed ≡ true) }
        ensures first { OnOk result (0 < length self.new.places.items → slice_index self.new.places.items 0 ≢ 0) }
        ensures contents { OnOk result (IsTrue D.is_honest → contents_of D.state self.new ≡ contents_of D.state self.old) }
        ensures committed { IsTrue D.is_honest → committed_of D.state self.new ≡ committed_of D.state self.old }
        ensures leaves { IsTrue D.is_honest → Leaves (StandsFor (committed_of D.state self.old).image) (D.state self.old.disk) (D.state self.new.disk) }
        ensures size { self.new.head.size ≡ self.old.head.size }
        ensures reserved { self.new.reserved ≡ self.old.reserved }
    {
        if self.places.is_empty() || self.places[0] != 0 {
            return Ok(());
        }
        let Ok(()) = read_first(&self.disk, self.head, &self.places, &mut self.frame) else {
            self.failed = true;
            return Err(Failed);
        };
        if self.head.count == u32::MAX {
            self.failed = true;
            return Err(Failed);
        }
        let Ok(()) = write_frame(&mut self.disk, self.head, &self.frame) else {
            self.failed = true;
            return Err(Failed);
        };
        let place = self.head.count + 1;
        self.places[0] = place;
        self.head.count = place;
        Ok(())
    }

    /// Writes the head behind the frames that were collected, and opens the gate.
    fn publish_frames(&mut self) -> Result<(), Failed>
        requires kept { IsJournal D.is_honest D.is_usable D.state self.old }
        requires well { self.old.failed ≡ false }
        requires first { 0 < length self.old.places.items → slice_index self.old.places.items 0 ≢ 0 }
        ensures kept { IsJournal D.is_honest D.is_usable D.state self.new }
        ensures ok { OnOk result ((self.new.failed ≡ false) × (self.old.failed ≡ false)) }
        ensures err { OnErr result (self.new.failed ≡ true) }
        ensures contents { IsTrue D.is_honest → contents_of D.state self.new ≡ contents_of D.state self.old }
        ensures committed { OnOk result (IsTrue D.is_honest → IsCommitted (contents_of D.state self.old) (committed_of D.state self.old) (committed_of D.state self.new)) }
        ensures fails { OnErr result (IsTrue D.is_honest → IsTried (contents_of D.state self.old) (committed_of D.state self.old) (committed_of D.state self.new)) }
        ensures leaves { IsTrue D.is_honest → LeavesMeanwhile (StandsForEither (committed_of D.state self.old).image (contents_of D.state self.old)) (D.state self.old.disk) (D.state self.new.disk) }
        ensures size { self.new.head.size ≡ self.old.head.size }
        ensures reserved { self.new.reserved ≡ self.old.reserved }
    {
        if self.head.count == u32::MAX {
            self.failed = true;
            return Err(Failed);
        }
        let Ok(()) = publish(
            &mut self.disk,
            self.stage,
            self.last,
            self.head,
            &self.zeros,
            &mut self.frame,
        ) else {
            self.failed = true;
            self.stage = Stage::Doubtful;
            return Err(Failed);
        };
        let Ok(()) = self.disk.mark(false) else {
            self.failed = true;
            self.stage = Stage::Doubtful;
            return Err(Failed);
        };
        self.head.count += 1;
        self.last = self.head;
        copy_places(&mut self.kept, &self.places);
        self.stage = Stage::Published;
        Ok(())
    }
}
