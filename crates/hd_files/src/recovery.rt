use crate::fault::FileFault;
use crate::files::{Identity, open_shared, open_volume};
use crate::named::Named;
use crate::volume_files::VolumeFiles;
use hd_journal::{Unopened, recover, steady};
use std::alloc::Global;
use std::fs::File;
use std::io::ErrorKind;
use std::rt::Files;

/// What a program left in the log of a volume that it changed.
#[derive(Clone, Copy, Debug, PartialEq, Eq)]
pub enum Left {
    /// Nothing: it ended by itself, or there was none.
    Nothing,
    /// What was not committed.
    Uncommitted,
    /// Commits that are not in the volume yet.
    Commits,
}

/// A volume that is read and not changed, and that other programs may read meanwhile. Commits that stand in its log alone are copied into it first, for
/// which it is opened to write, and no other program may have it; what was found in the log is told.
pub fn open_read_volume<R: Files<File = File>>(
    rt: &R,
    alloc: Global,
    name: &str,
) -> Result<(File, Identity, Left), FileFault> {
    let (file, identity) = open_shared(rt, name)?;
    if !has_commits(rt, alloc, name, &file, identity)? {
        return Ok((file, identity, Left::Nothing));
    }
    drop(file);
    let left = match recover_volume(rt, alloc, name, None) {
        Err(FileFault::File(Named::Volume | Named::Log, error)) if is_refusal(error.kind()) => {
            return Err(FileFault::Waiting(error));
        }
        recovered => recovered?,
    };
    let (file, identity) = open_shared(rt, name)?;
    if has_commits(rt, alloc, name, &file, identity)? {
        return Err(FileFault::InUse(Named::Volume));
    }
    Ok((file, identity, left))
}

/// Whether the system refuses to write a file, which it may let others do.
fn is_refusal(kind: ErrorKind) -> bool {
    matches!(
        kind,
        ErrorKind::PermissionDenied | ErrorKind::ReadOnlyFilesystem
    )
}

/// Whether commits of a volume stand in its log alone.
fn has_commits<R: Files<File = File>>(
    rt: &R,
    alloc: Global,
    name: &str,
    file: &File,
    identity: Identity,
) -> Result<bool, FileFault> {
    let files = VolumeFiles::to_read(rt, alloc, name, file, identity)?;
    Ok(files.left()? == Left::Commits)
}

/// Copies the commits that stand in the log of a volume into it, and removes the log; or those in the file of another name, which is then taken for the
/// log of this volume, and stays. Tells what was found.
pub fn recover_volume<R: Files<File = File>>(
    rt: &R,
    alloc: Global,
    name: &str,
    log: Option<&str>,
) -> Result<Left, FileFault> {
    let volume = open_volume(rt, name, &[])?;
    let mut files = match log {
        None => VolumeFiles::over(alloc, volume, true)?,
        Some(log) => VolumeFiles::with_log(alloc, volume, log)?,
    };
    let left = files.left()?;
    if left == Left::Nothing {
        if log.is_none() {
            files.remove_log();
        }
        return Ok(left);
    }
    let recovered = match steady(&mut files) {
        Ok(()) => recover(alloc, &mut files),
        Err(_) => Err(Unopened::Device),
    };
    match recovered {
        Ok(()) if log.is_none() => files.remove_log(),
        Ok(()) => {}
        Err(unopened) => return Err(FileFault::unopened(unopened, files.last_error())),
    }
    Ok(left)
}
