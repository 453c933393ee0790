use crate::fault::{FileFault, of_file};
use crate::files::{Identity, another, be_named, be_regular, keep_alone, open, sync};
use crate::log_file::{LOG_ENDING, remove_log};
use crate::named::Named;
use std::alloc::Global;
use std::fs::{self, File, Metadata, OpenOptions};
use std::io::{self, ErrorKind, Write};
use std::os::unix::fs::{MetadataExt, OpenOptionsExt, fchown};
use std::path::{Path, PathBuf};
use std::rt::Files;

/// What the name of a new file has behind that of the file whose place it is to take.
pub const ENDING: &str = ".hd-new";

/// The most links that lead from one to the next.
const MOST_LINKS: u8 = 40;

/// Where a command writes a result, and how.
#[derive(Clone, Copy)]
pub struct Wanted<'a> {
    /// The file that is to have the result.
    pub name: &'a str,
    pub word: Named,
    /// The result is read too, while it is made.
    pub is_read: bool,
    /// Whether to wait until it is on the disk.
    pub syncs: bool,
}

/// The file of a result, which takes the place of the one that is named only when it is whole.
///
/// The result is written into a new file in the same folder, under that name and `.hd-new`; `publish` gives it the name. One that is dropped before is
/// removed, and what stood under the name is as it was. Both files are locked, so that no other program writes either. A link is followed. Where the
/// name leads to no regular file, as to a pipe or a device, that is written as it stands.
#[derive(Drop)]
pub struct Output<'a, R: Files<File = File>> {
    file: File,
    /// Where the new file is to go; `None` where a file is written as it stands.
    place: Option<Place<'a, R>>,
    wanted: Wanted<'a>,
}

/// The name of a new file, and that which it is to take. The new file is removed when this is dropped.
struct Place<'a, R: Files<File = File>> {
    rt: &'a R,
    new: String,
    name: String,
    /// The log of the volume that has the name, if the result is a volume.
    log: Option<String>,
    /// The file that has the name, locked, and which it is.
    replaced: Option<(File, Identity)>,
    /// The folder of both names, where it is to be synced.
    folder: Option<File>,
}

impl<R: Files<File = File>> Drop for Place<'_, R> {
    fn drop(self) {
        let _ = fs::remove_file(self.rt, &self.new);
        let Place {
            rt: _,
            new: _new,
            name: _name,
            log: _log,
            replaced: _replaced,
            folder: _folder,
        } = self;
    }
}

impl<'a, R: Files<File = File>> Place<'a, R> {
    /// Sees that what has the name is what had it when the result was begun.
    fn be_unchanged(&self, word: Named) -> Result<(), FileFault> {
        match &self.replaced {
            Some((_, identity)) => be_named(self.rt, &self.name, word, *identity),
            None => match fs::symlink_metadata(self.rt, &self.name) {
                Err(error) if error.kind() == ErrorKind::NotFound => Ok(()),
                Err(error) => Err(FileFault::file(word, error)),
                Ok(_) => Err(FileFault::InUse(word)),
            },
        }
    }

    /// Gives the new file the name, and gives back the folder that is to be synced.
    fn take_name(self, word: Named) -> Result<Option<File>, FileFault> {
        self.be_unchanged(word)?;
        of_file(word, fs::rename(self.rt, &self.new, &self.name))?;
        if let Some(log) = &self.log {
            of_file(Named::Log, remove_log(self.rt, log))?;
        }
        let Place {
            rt: _,
            new: _new,
            name: _name,
            log: _log,
            replaced: _replaced,
            folder,
        } = self;
        Ok(folder)
    }
}

impl<'a, R: Files<File = File>> Output<'a, R> {
    /// The file for a result; never one of the files that the same command reads.
    pub fn open(
        rt: &'a R,
        alloc: Global,
        wanted: Wanted<'a>,
        inputs: &[Identity],
    ) -> Result<Output<'a, R>, FileFault> {
        match fs::metadata(rt, wanted.name) {
            Ok(metadata) if metadata.is_file() => replacing(rt, alloc, wanted, inputs),
            Ok(_) => standing(rt, wanted, inputs),
            Err(error) if error.kind() == ErrorKind::NotFound => naming(rt, alloc, wanted, inputs),
            Err(error) => Err(FileFault::file(wanted.word, error)),
        }
    }

    /// The file, for a store that writes it too.
    pub fn share(&self) -> io::Result<File> {
        another(&self.file)
    }

    /// Gives the result the name that is wanted for it, and waits until file and name are on the disk.
    pub fn publish(&mut self) -> Result<(), FileFault> {
        let Wanted { word, syncs, .. } = self.wanted;
        if syncs {
            of_file(word, sync(&self.file))?;
        }
        let Some(place) = self.place.take() else {
            return Ok(());
        };
        match place.take_name(word)? {
            Some(folder) => of_file(word, sync(&folder)),
            None => Ok(()),
        }
    }
}

impl<R: Files<File = File>> Write for Output<'_, R> {
    fn write(&mut self, buf: &[u8]) -> io::Result<usize> {
        self.file.write(buf)
    }

    fn flush(&mut self) -> io::Result<()> {
        self.file.flush()
    }
}

/// How a result's file is opened.
fn options_of(wanted: Wanted<'_>) -> OpenOptions {
    let mut options = OpenOptions::new();
    options.read(wanted.is_read).write(true);
    options
}

/// A result for a file that stands.
fn replacing<'a, R: Files<File = File>>(
    rt: &'a R,
    alloc: Global,
    wanted: Wanted<'a>,
    inputs: &[Identity],
) -> Result<Output<'a, R>, FileFault> {
    let word = wanted.word;
    let file = of_file(word, open(rt, &options_of(wanted), wanted.name))?;
    let metadata = of_file(word, file.metadata())?;
    let identity = Identity::of(&metadata);
    if inputs.contains(&identity) {
        return Err(FileFault::OverInput);
    }
    keep_alone(word, &file)?;
    let name = of_file(word, rt.canonicalize(alloc, wanted.name))?.into_string();
    be_named(rt, &name, word, identity)?;
    let output = beside(rt, alloc, wanted, name, Some((file, identity)), inputs)?;
    make_like(&output.file, &metadata);
    Ok(output)
}

/// A result for a name that no file has; where it is a link, for the name to which it leads.
fn naming<'a, R: Files<File = File>>(
    rt: &'a R,
    alloc: Global,
    wanted: Wanted<'a>,
    inputs: &[Identity],
) -> Result<Output<'a, R>, FileFault> {
    let name = of_file(wanted.word, end_of_links(rt, alloc, wanted.name))?;
    beside(rt, alloc, wanted, name, None, inputs)
}

/// A file that is no regular one, which is written as it stands.
fn standing<'a, R: Files<File = File>>(
    rt: &'a R,
    wanted: Wanted<'a>,
    inputs: &[Identity],
) -> Result<Output<'a, R>, FileFault> {
    let file = of_file(wanted.word, open(rt, &options_of(wanted), wanted.name))?;
    let metadata = of_file(wanted.word, file.metadata())?;
    if inputs.contains(&Identity::of(&metadata)) {
        return Err(FileFault::OverInput);
    }
    Ok(Output {
        file,
        place: None,
        wanted,
    })
}

/// The name to which links lead of which the last leads to no file.
fn end_of_links<R: Files<File = File>>(rt: &R, alloc: Global, name: &str) -> io::Result<String> {
    let mut end = PathBuf::from_str(alloc, name)?;
    for _ in 0..MOST_LINKS {
        let is_link = match fs::symlink_metadata(rt, end.as_path()) {
            Ok(metadata) => metadata.is_symlink(),
            Err(error) if error.kind() == ErrorKind::NotFound => false,
            Err(error) => return Err(error),
        };
        if !is_link {
            return Ok(end.into_string());
        }
        let target = rt.read_link(alloc, end.as_str())?;
        end.pop();
        end.push(target.as_path())?;
    }
    Err(io::Error::from(ErrorKind::FilesystemLoop))
}

/// A new file beside the one that has a name, or is to have it.
fn beside<'a, R: Files<File = File>>(
    rt: &'a R,
    alloc: Global,
    wanted: Wanted<'a>,
    name: String,
    replaced: Option<(File, Identity)>,
    inputs: &[Identity],
) -> Result<Output<'a, R>, FileFault> {
    let new = format!(in alloc; "{name}{ENDING}")?;
    let log = match wanted.word {
        Named::Volume => Some(format!(in alloc; "{name}{LOG_ENDING}")?),
        _ => None,
    };
    let folder = match wanted.syncs {
        true => Some(of_file(wanted.word, open_folder(rt, &name))?),
        false => None,
    };
    let mut options = options_of(wanted);
    options.create_new(true);
    if replaced.is_some() {
        // Nobody else reads it before it has the rights of the file that it replaces.
        options.mode(0o600);
    }
    let file = make_new(rt, &options, &new, wanted.word, inputs)?;
    Ok(Output {
        file,
        place: Some(Place {
            rt,
            new,
            name,
            log,
            replaced,
            folder,
        }),
        wanted,
    })
}

/// Makes a file, and locks it. One that a program left there which ended before its result was whole is removed first.
fn make_new<R: Files<File = File>>(
    rt: &R,
    options: &OpenOptions,
    name: &str,
    word: Named,
    inputs: &[Identity],
) -> Result<File, FileFault> {
    let made = match open(rt, options, name) {
        Err(error) if error.kind() == ErrorKind::AlreadyExists => {
            remove_left(rt, name, word, inputs)?;
            open(rt, options, name)
        }
        made => made,
    };
    let file = match made {
        Ok(file) => file,
        Err(error) if error.kind() == ErrorKind::AlreadyExists => return Err(FileFault::InUse(
            word,
        )),
        Err(error) => return Err(FileFault::Beside(word, error)),
    };
    keep_alone(word, &file)?;
    let metadata = of_file(word, file.metadata())?;
    be_named(rt, name, word, Identity::of(&metadata))?;
    Ok(file)
}

/// Removes a file that a program left. One that is still written is locked.
fn remove_left<R: Files<File = File>>(
    rt: &R,
    name: &str,
    word: Named,
    inputs: &[Identity],
) -> Result<(), FileFault> {
    let (left, identity) = match open_left(rt, name) {
        Ok(opened) => opened,
        Err(error) => return Err(FileFault::Beside(word, error)),
    };
    if inputs.contains(&identity) {
        return Err(FileFault::OverInput);
    }
    keep_alone(word, &left)?;
    be_named(rt, name, word, identity)?;
    match fs::remove_file(rt, name) {
        Ok(()) => Ok(()),
        Err(error) => Err(FileFault::Beside(word, error)),
    }
}

/// Opens a file that a program left, which is a regular one and no link.
fn open_left<R: Files<File = File>>(rt: &R, name: &str) -> io::Result<(File, Identity)> {
    be_regular(&fs::symlink_metadata(rt, name)?)?;
    let mut options = OpenOptions::new();
    options.write(true);
    let left = open(rt, &options, name)?;
    let metadata = left.metadata()?;
    Ok((left, Identity::of(&metadata)))
}

/// Gives a new file the owner and the rights of another, whose place it is to take or beside which it is to stand, as far as this program may.
pub fn make_like(file: &File, replaced: &Metadata) {
    let group = Some(replaced.gid());
    if fchown(file, Some(replaced.uid()), group).is_err() {
        let _ = fchown(file, None, group);
    }
    let _ = file.set_permissions(replaced.permissions());
}

/// Opens the folder that has a file.
pub fn open_folder<R: Files<File = File>>(rt: &R, name: &str) -> io::Result<File> {
    let folder = match Path::new(name).parent() {
        Some(folder) => folder.as_str(),
        None => "",
    };
    let mut options = OpenOptions::new();
    options.read(true);
    open(rt, &options, if folder.is_empty() { "." } else { folder })
}
