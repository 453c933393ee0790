ghost use Rattle.std.specs.Prelude.{◌≡◌, ◌<◌, IsTrue, IfOk};

use crate::console::Console;
use crate::stop::Stop;
use hd_dbd::Dbd;
use hd_files::{FileFault, Identity, Left, OpenVolume, VolumeFiles, open_read_volume};
use hd_journal::{Disk, Journaled, Unopened};
use hd_output::Progress;
use std::alloc::Global;
use std::fs::File;
use std::io::{self, Write};
use std::rt::Files;
use std::sync::ledger::{Blank, Ledger};

/// Tells what a program left in the log of a volume, and what came of it.
pub fn tell_left<E: Write>(left: Left, err: &mut E) {
    let said: &[u8] = match left {
        Left::Nothing => return,
        Left::Uncommitted => {
            b"recovered: what was not committed is gone, the volume is that of its last commit\n"
        }
        Left::Commits => { b"recovered: the last commit was copied from the log into the volume\n" }
    };
    let _ = err.write_all(said);
}

/// The files of a volume that calls change, and what a program left in its log.
pub fn open_files<'a, R: Files<File = File>>(
    alloc: Global,
    volume: OpenVolume<'a, R>,
    syncs: bool,
) -> Result<(VolumeFiles<'a, R>, Left), Stop> {
    let files = VolumeFiles::over(alloc, volume, syncs)?;
    let left = files.left()?;
    Ok((files, left))
}

/// The store over a volume that calls change and its log, in which a program left this. Failed accesses are counted in the ledger of `blank`.
pub fn open_store<D: Disk, L: Ledger, E: Write>(
    alloc: Global,
    dbd: &Dbd,
    disk: D,
    left: Left,
    blank: Blank,
    err: &mut E,
) -> Result<Journaled<D, L>, (D, Unopened)>
    requires usable { IsTrue (D.is_usable disk) }
    requires name { blank.name ≡ L.name }
    requires parts { blank.parts ≡ L.parts }
    requires share { 0 < blank.parts }
    ensures size { IfOk result (λ s. s.size ≡ dbd.now.block_size) }
{
    let opened = Journaled::open(alloc, disk, dbd.block_size(), blank);
    if opened.is_ok() {
        tell_left(left, err);
    }
    opened
}

/// Copies what is committed from the log into the volume, and says whether that was done: where it was not, the commits are in the log, and the next
/// command copies them.
pub fn close_store<D: Disk, L: Ledger>(store: Journaled<D, L>) -> (D, Result<(), ()>) {
    let mut store = store;
    let settled = match store.settle() {
        Ok(()) => Ok(()),
        Err(_) => Err(()),
    };
    (store.into_disk(), settled)
}

/// Why the files of a volume hold no store.
pub fn not_opened<R: Files<File = File>>(files: VolumeFiles<'_, R>, unopened: Unopened) -> Stop {
    Stop::from(FileFault::unopened(unopened, files.last_error()))
}

/// Removes the log, if all of its commits are in the volume. Gives what the system said of an access that it refused, if any was.
pub fn close_files<R: Files<File = File>>(
    files: VolumeFiles<'_, R>,
    settled: Result<(), ()>,
) -> Option<io::Error> {
    let mut files = files;
    if settled.is_ok() {
        files.remove_log();
    }
    files.last_error()
}

/// Tells that commits could not be copied into the volume yet.
pub fn tell_waiting<E: Write>(settled: Result<(), ()>, err: &mut E) {
    if settled.is_err() {
        let said =
            b"the commit stands in the log alone: the next command copies it into the volume\n";
        let _ = err.write_all(said);
    }
}

/// A volume that is read and not changed. Commits that stand in its log alone are copied first, which is told.
pub fn open_to_read<R: Files<File = File>, P: Progress, O: Write, E: Write>(
    console: &mut Console<'_, R, P, O, E>,
    name: &str,
) -> Result<(File, Identity), Stop> {
    let (file, identity, left) = open_read_volume(console.rt, console.alloc, name)?;
    tell_left(left, &mut *console.err);
    Ok((file, identity))
}
