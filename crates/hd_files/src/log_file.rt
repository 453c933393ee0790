use crate::files::{be_regular, open};
use hd_journal::MARK;
use std::alloc::Global;
use std::fs::{self, File, OpenOptions};
use std::io::{self, ErrorKind};
use std::os::unix::fs::FileExt;
use std::rt::Files;

/// What the name of a volume's log has behind that of the volume.
pub const LOG_ENDING: &str = "-log";

/// The name of the log of a volume, which stands beside the file to which the volume's name leads.
pub fn log_name<R: Files<File = File>>(rt: &R, alloc: Global, volume: &str) -> io::Result<String> {
    let volume = rt.canonicalize(alloc, volume)?.into_string();
    Ok(format!(in alloc; "{volume}{LOG_ENDING}")?)
}

/// The gate of a log and its mark.
const FRONT: usize = 9;

/// Whether these are the first bytes of a log of a volume. Those of its mark are zeros up to the first commit, and in part where that was cut short. The first
/// byte of a text is none of a log.
fn is_front(front: &[u8]) -> bool {
    let Some((gate, mark)) = front.split_first() else {
        return true;
    };
    let whole = MARK.to_be_bytes();
    *gate <= 1
        && mark
            .iter()
            .zip(whole.iter())
            .all(|(byte, wanted)| *byte == 0 || byte == wanted)
}

/// Refuses a file that is no log of a volume: somebody else's, though it has the name.
fn be_log(file: &File) -> io::Result<()> {
    let mut front = [0; FRONT];
    let count = file.read_at(&mut front, 0)?;
    if is_front(front.get(..count).unwrap_or(&[])) {
        return Ok(());
    }
    let message = "this is no log of a volume, though its name is that of one";
    Err(io::Error::new(ErrorKind::InvalidData, message))
}

/// Opens the log of a name; `None` where there is none. What is no log of a volume is refused.
pub fn open_log<R: Files<File = File>>(
    rt: &R,
    options: &OpenOptions,
    name: &str,
) -> io::Result<Option<File>> {
    match fs::symlink_metadata(rt, name) {
        Ok(metadata) => be_regular(&metadata)?,
        Err(error) if error.kind() == ErrorKind::NotFound => return Ok(None),
        Err(error) => return Err(error),
    }
    let log = open(rt, options, name)?;
    be_log(&log)?;
    Ok(Some(log))
}

/// Removes the log of a name, if there is one. What is no log of a volume stays.
pub fn remove_log<R: Files<File = File>>(rt: &R, name: &str) -> io::Result<()> {
    let mut options = OpenOptions::new();
    options.read(true);
    match open_log(rt, &options, name) {
        Ok(Some(_)) => fs::remove_file(rt, name),
        Ok(None) => Ok(()),
        Err(error) if error.kind() == ErrorKind::InvalidData => Ok(()),
        Err(error) if error.kind() == ErrorKind::InvalidInput => Ok(()),
        Err(error) => Err(error),
    }
}

/// Where a log has the device and the number of the file that it is the log of.
const OWNER: u64 = 35;

/// The device and the number of the file that a log is the log of; zeros where it has none yet.
pub fn owner_of(log: &File) -> io::Result<(u64, u64)> {
    let mut bytes = [0; 16];
    let _ = log.read_at(&mut bytes, OWNER)?;
    let [a, b, c, d, e, f, g, h, i, j, k, l, m, n, o, p] = bytes;
    Ok((
        u64::from_be_bytes([a, b, c, d, e, f, g, h]),
        u64::from_be_bytes([i, j, k, l, m, n, o, p]),
    ))
}
