ghost use Rattle.std.specs.Prelude.{◌≡◌, ◌≤◌, [], false, IsTrue, length, IfOk, IfErr, OnOk};
ghost use Rattle.hd_journal.specs.Disk.{Leaves, LeavesMeanwhile};
ghost use Rattle.hd_journal.specs.Log.{recovered, IsForeign};
ghost use Rattle.hd_journal.specs.States.{IsSettled, StandsFor};
ghost use Rattle.hd_journal.specs.Finds.{RefusesLog};
ghost use Rattle.hd_journal.specs.Journals.{IsJournal, contents_of, committed_of};

use crate::disk::{Disk, Failed};
use crate::finding::most_len;
use crate::head::{HEAD_LEN, Head, SHUT_LEN};
use crate::journal::{Journal, Stage};
use crate::recovery::{Unopened, recover, steady};
use std::alloc::Global;

/// Makes a log behind a shut gate long enough for a head. One that is so stays as it is.
fn lengthen<D: Disk>(disk: &mut D) -> Result<(), Failed>
    requires usable { IsTrue (D.is_usable disk.old) }
    requires settled { IsTrue D.is_honest → IsSettled (D.state disk.old) }
    ensures usable { OnOk result (IsTrue (D.is_usable disk.new)) }
    ensures long { OnOk result (IsTrue D.is_honest → 51 ≤ length (D.state disk.new).log) }
    ensures settled { IsTrue D.is_honest → IsSettled (D.state disk.new) }
    ensures volume { IsTrue D.is_honest → (D.state disk.new).volume ≡ (D.state disk.old).volume }
    ensures leaves { IsTrue D.is_honest → Leaves (StandsFor (D.state disk.old).volume) (D.state disk.old) (D.state disk.new) }
{
    if disk.log_len()? >= HEAD_LEN as u64 {
        return Ok(());
    }
    disk.write_log(1, &[0u8; SHUT_LEN])
}

/// Recovers, makes room for the head, and tells the volume's length.
fn prepare<D: Disk>(alloc: Global, disk: &mut D) -> Result<u64, Unopened>
    requires usable { IsTrue (D.is_usable disk.old) }
    ensures usable { OnOk result (IsTrue (D.is_usable disk.new)) }
    ensures image { OnOk result (IsTrue D.is_honest → (D.state disk.new).volume ≡ recovered (D.state disk.old).log (D.state disk.old).volume) }
    ensures settled { OnOk result (IsTrue D.is_honest → IsSettled (D.state disk.new)) }
    ensures long { OnOk result (IsTrue D.is_honest → 51 ≤ length (D.state disk.new).log) }
    ensures len { IfOk result (λ n. IsTrue D.is_honest → n ≡ length (D.state disk.new).volume) }
    ensures own { OnOk result (IsTrue D.is_honest → IsForeign (D.state disk.old).log → ⊥) }
    ensures refusal { IfErr result (λ e. IsTrue D.is_honest → RefusesLog e (D.state disk.old) (D.state disk.new)) }
    ensures leaves { IsTrue D.is_honest → Leaves (StandsFor (recovered (D.state disk.old).log (D.state disk.old).volume)) (D.state disk.old) (D.state disk.new) }
{
    let Ok(()) = steady(disk) else {
        return Err(Unopened::Device);
    };
    recover(alloc, disk)?;
    let Ok(()) = lengthen(disk) else {
        return Err(Unopened::Device);
    };
    let Ok(len) = disk.volume_len() else {
        return Err(Unopened::Device);
    };
    Ok(len)
}

/// The journal over a log and a volume that a crash, or a program that was killed, may have left, of blocks of so many bytes.
///
/// It may crash too, at any moment: then they are as they were, or stand for the same image. Where it is not opened the disk is given back.
pub fn open_journal<D: Disk>(
    alloc: Global,
    mut disk: D,
    size: u32,
) -> Result<Journal<D>, (D, Unopened)>
    requires usable { IsTrue (D.is_usable disk) }
    requires some { 16 ≤ size }
    requires small { size ≤ 32768 }
    ensures kept { IfOk result (λ j. IsJournal D.is_honest D.is_usable D.state j) }
    ensures fresh { IfOk result (λ j. (j.failed ≡ false) × (j.head.size ≡ size) × (j.reserved ≡ 0)) }
    ensures contents { IfOk result (λ j. IsTrue D.is_honest → contents_of D.state j ≡ recovered (D.state disk).log (D.state disk).volume) }
    ensures image { IfOk result (λ j. IsTrue D.is_honest → (committed_of D.state j).image ≡ recovered (D.state disk).log (D.state disk).volume) }
    ensures tried { IfOk result (λ j. IsTrue D.is_honest → (committed_of D.state j).tried ≡ recovered (D.state disk).log (D.state disk).volume) }
    ensures since { IfOk result (λ j. IsTrue D.is_honest → (committed_of D.state j).since ≡ (D.state j.disk).moment) }
    ensures before { IfOk result (λ j. IsTrue D.is_honest → (committed_of D.state j).before ≡ []) }
    ensures own { IfOk result (λ _. IsTrue D.is_honest → IsForeign (D.state disk).log → ⊥) }
    ensures leaves { IfOk result (λ j. IsTrue D.is_honest → LeavesMeanwhile (StandsFor (recovered (D.state disk).log (D.state disk).volume)) (D.state disk) (D.state j.disk)) }
    ensures refusal { IfErr result (λ e. IsTrue D.is_honest → RefusesLog e.1 (D.state disk) (D.state e.0)) }
    ensures fails { IfErr result (λ e. IsTrue D.is_honest → Leaves (StandsFor (recovered (D.state disk).log (D.state disk).volume)) (D.state disk) (D.state e.0)) }
{
    let (device, number) = disk.identity();
    let len = match prepare(alloc, &mut disk) {
        Ok(len) => len,
        Err(e) => return Err((disk, e)),
    };
    let head = Head {
        size,
        count: 0,
        base: len,
        len,
        device,
        number,
    };
    if len > most_len(head) {
        return Err((disk, Unopened::Device));
    }
    let blocks = (len / u64::from(size)) as usize;
    let Ok(places) = vec![in alloc; 0u32; blocks] else {
        return Err((disk, Unopened::Memory));
    };
    let Ok(kept) = vec![in alloc; 0u32; blocks] else {
        return Err((disk, Unopened::Memory));
    };
    let Ok(zeros) = vec![in alloc; 0u8; size as usize] else {
        return Err((disk, Unopened::Memory));
    };
    let Ok(frame) = vec![in alloc; 0u8; size as usize + 4] else {
        return Err((disk, Unopened::Memory));
    };
    let Ok(()) = disk.mark(true) else {
        return Err((disk, Unopened::Device));
    };
    Ok(Journal {
        disk,
        head,
        places,
        last: head,
        kept,
        reserved: 0,
        zeros,
        frame,
        stage: Stage::Collecting,
        failed: false,
    })
}
