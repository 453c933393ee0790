ghost use Rattle.std.specs.Prelude.{◌≡◌, ◌<◌, ◌≤◌, ◌^◌, IfOk, vec_len};

use crate::fault::{FileFault, of_file};
use crate::input::read_whole;
use crate::named::Named;
use hd_dbd::Dbd;
use hd_stores::{FileStore, ReadAhead};
use std::alloc::Global;
use std::fs::{self, File, FileType, Metadata, OpenOptions, TryLockError};
use std::io::{self, ErrorKind};
use std::os::unix::fs::{FileTypeExt, MetadataExt};
use std::os::unix::io::AsRawFd;
use std::rt::Files;
use std::sync::ledger::{Blank, Ledger};

/// Which file of this machine a file is, under whatever name it was opened.
#[derive(Clone, Copy, PartialEq, Eq)]
pub struct Identity {
    device: u64,
    number: u64,
}

impl Identity {
    pub fn of(metadata: &Metadata) -> Identity {
        Identity {
            device: metadata.dev(),
            number: metadata.ino(),
        }
    }

    /// The device that the file is on, and its number there.
    pub fn parts(&self) -> (u64, u64) {
        (self.device, self.number)
    }
}

/// The greatest descriptor of a standard stream.
const STANDARD_ERROR: i32 = 2;

/// Whether a file has the descriptor of a standard stream.
fn is_standard(file: &File) -> bool {
    file.as_raw_fd() <= STANDARD_ERROR
}

/// The same open file under a descriptor that is no standard stream's. Where one of those is closed, the next file that is opened takes its descriptor,
/// and what is printed would go into that file.
fn above_standard(file: File) -> io::Result<File> {
    if !is_standard(&file) {
        return Ok(file);
    }
    // Each stays open until there is one above them.
    let second = file.try_clone()?;
    if !is_standard(&second) {
        return Ok(second);
    }
    let third = second.try_clone()?;
    if !is_standard(&third) {
        return Ok(third);
    }
    third.try_clone()
}

/// Another handle of an open file, under a descriptor that is no standard stream's.
pub fn another(file: &File) -> io::Result<File> {
    above_standard(file.try_clone()?)
}

/// Opens a file, under a descriptor that is no standard stream's.
pub fn open<R: Files<File = File>>(rt: &R, options: &OpenOptions, name: &str) -> io::Result<File> {
    above_standard(options.open(rt, name)?)
}

/// What is said of a file that is no regular one.
fn said_of(kind: FileType) -> &'static str {
    if kind.is_dir() {
        "this is a folder, where a file is wanted"
    } else if kind.is_fifo() {
        "this is a pipe, where a file is wanted"
    } else if kind.is_socket() {
        "this is a socket, where a file is wanted"
    } else if kind.is_symlink() {
        "this is a link, where a file is wanted"
    } else {
        "this is a device, where a file is wanted"
    }
}

/// Refuses what is no regular file: a pipe or a device might keep the program waiting for ever.
pub fn be_regular(metadata: &Metadata) -> io::Result<()> {
    let kind = metadata.file_type();
    if kind.is_file() {
        return Ok(());
    }
    Err(io::Error::new(ErrorKind::InvalidInput, said_of(kind)))
}

/// Opens a regular file, and says which it is.
fn open_regular<R: Files<File = File>>(
    rt: &R,
    options: &OpenOptions,
    name: &str,
) -> io::Result<(File, Identity)> {
    be_regular(&fs::metadata(rt, name)?)?;
    let file = open(rt, options, name)?;
    let metadata = file.metadata()?;
    be_regular(&metadata)?;
    Ok((file, Identity::of(&metadata)))
}

/// Opens a file of any kind, and says which it is.
fn open_any<R: Files<File = File>>(
    rt: &R,
    options: &OpenOptions,
    name: &str,
) -> io::Result<(File, Identity)> {
    let file = open(rt, options, name)?;
    let metadata = file.metadata()?;
    Ok((file, Identity::of(&metadata)))
}

/// A file that is read and not changed. A deck and a text of rows may come through a pipe; all else is a regular file.
fn open_file<R: Files<File = File>>(
    rt: &R,
    name: &str,
    word: Named,
) -> Result<(File, Identity), FileFault> {
    let mut options = OpenOptions::new();
    options.read(true);
    let opened = match word {
        Named::Deck | Named::Rows => open_any(rt, &options, name),
        _ => open_regular(rt, &options, name),
    };
    of_file(word, opened)
}

/// All bytes of a file.
pub fn read_file<R: Files<File = File>>(
    rt: &R,
    alloc: Global,
    name: &str,
    word: Named,
) -> Result<(Vec<u8>, Identity), FileFault>
    ensures { IfOk result (λ r. vec_len r.0 ≤ 2 ^ 30) }
{
    let (mut file, identity) = open_file(rt, name, word)?;
    match read_whole(alloc, &mut file) {
        Ok(bytes) => Ok((bytes, identity)),
        Err(error) => Err(FileFault::file(word, error)),
    }
}

/// A lock that was had at once, or none: another program has one that forbids it.
fn locked(word: Named, tried: Result<(), TryLockError>) -> Result<(), FileFault> {
    match tried {
        Ok(()) => Ok(()),
        Err(TryLockError::WouldBlock) => Err(FileFault::InUse(word)),
        Err(TryLockError::Error(error)) => Err(FileFault::file(word, error)),
    }
}

/// Keeps a file for this program alone, until it is closed.
pub fn keep_alone(word: Named, file: &File) -> Result<(), FileFault> {
    locked(word, file.try_lock())
}

/// Refuses a file whose name another file has taken since it was opened, or none has any more.
pub fn be_named<R: Files<File = File>>(
    rt: &R,
    name: &str,
    word: Named,
    identity: Identity,
) -> Result<(), FileFault> {
    match fs::symlink_metadata(rt, name) {
        Ok(metadata) if Identity::of(&metadata) == identity => Ok(()),
        Ok(_) => Err(FileFault::InUse(word)),
        Err(error) if error.kind() == ErrorKind::NotFound => Err(FileFault::InUse(word)),
        Err(error) => Err(FileFault::file(word, error)),
    }
}

/// A volume as it stands, which is read and not changed, and that other programs may read meanwhile.
pub fn open_shared<R: Files<File = File>>(
    rt: &R,
    name: &str,
) -> Result<(File, Identity), FileFault> {
    let (file, identity) = open_file(rt, name, Named::Volume)?;
    locked(Named::Volume, file.try_lock_shared())?;
    Ok((file, identity))
}

/// The file of a volume that is changed, and the name under which it was opened.
#[derive(Drop)]
pub struct OpenVolume<'a, R: Files<File = File>> {
    pub rt: &'a R,
    pub name: &'a str,
    pub file: File,
    pub identity: Identity,
}

/// A volume to read and to change, which stands and which no other program uses; never one of the files that the same command reads.
pub fn open_volume<'a, R: Files<File = File>>(
    rt: &'a R,
    name: &'a str,
    inputs: &[Identity],
) -> Result<OpenVolume<'a, R>, FileFault> {
    let mut options = OpenOptions::new();
    options.read(true).write(true);
    let (file, identity) = of_file(Named::Volume, open_regular(rt, &options, name))?;
    if inputs.contains(&identity) {
        return Err(FileFault::OverInput);
    }
    keep_alone(Named::Volume, &file)?;
    Ok(OpenVolume {
        rt,
        name,
        file,
        identity,
    })
}

/// The blocks of a volume in a file.
pub fn file_blocks<L: Ledger>(
    dbd: &Dbd,
    file: File,
    blank: Blank,
) -> Result<FileStore<L>, FileFault>
    requires name { blank.name ≡ L.name }
    requires parts { blank.parts ≡ L.parts }
    requires share { 0 < blank.parts }
    ensures size { IfOk result (λ s. s.size ≡ dbd.now.block_size) }
{
    let opened: io::Result<FileStore<L>> = FileStore::over(file, dbd.block_size() as usize, blank);
    match opened {
        Ok(blocks) => Ok(blocks),
        Err(error) => Err(FileFault::file(Named::Volume, error)),
    }
}

/// The blocks of a volume in a file, read ahead where they come in order.
pub fn ahead_blocks<L: Ledger>(
    alloc: Global,
    dbd: &Dbd,
    file: File,
    blank: Blank,
) -> Result<ReadAhead<FileStore<L>>, FileFault>
    requires name { blank.name ≡ L.name }
    requires parts { blank.parts ≡ L.parts }
    requires share { 0 < blank.parts }
    ensures size { IfOk result (λ s. s.size ≡ dbd.now.block_size) }
{
    let store = file_blocks::<L>(dbd, file, blank)?;
    Ok(ReadAhead::new(alloc, store))
}

/// Waits until a file, or the names in a folder, are on the disk. What the system can't sync, as a pipe, has nothing to wait for.
pub fn sync(file: &File) -> io::Result<()> {
    match file.sync_all() {
        Err(error) if error.kind() == ErrorKind::InvalidInput => Ok(()),
        done => done,
    }
}
