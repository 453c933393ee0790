ghost use Rattle.std.specs.Prelude.{◌≡◌, ◌<◌};

use crate::beginning::Beginning;
use crate::check_command::load_volume;
use crate::dbd_source::{CACHE, read_database};
use crate::stop::Stop;
use hd_check_blocks::Fault;
use hd_commands::Refusal;
use hd_dbd::{Dbd, Name8};
use hd_files::{FileFault, Left, Named, VolumeFiles, file_blocks, of_file, open, open_shared};
use hd_show::see_segment;
use hd_stores::{BlockStore, ReadAhead, RunStore};
use hd_unload::RecordFault;
use hd_words::Request;
use std::alloc::Global;
use std::fs::{File, OpenOptions};
use std::io;
use std::marker::Brand;
use std::os::unix::fs::FileExt;
use std::rt::Files;
use std::sync::ledger::{Blank, Ledger};

/// What is seen in a file of which a refusal tells.
#[derive(Drop)]
pub enum Sight {
    /// The segment at the place of a fault.
    Segment(Sighted),
    /// What the file of this word is, which is something else than what is wanted.
    Kind(Named, Beginning),
    /// The volume's file does not begin as one.
    Mark,
    /// How long a volume's file is.
    Length(VolumeLength),
    /// What an unload stream says that it is.
    Stream(StreamHead),
}

/// The version of an unload stream and the name of its database, and that of the database that is wanted.
#[derive(Clone, Copy)]
pub struct StreamHead {
    pub version: u16,
    pub name: [u8; 8],
    pub database: Name8,
}

/// How long a volume's file is, how many blocks of how many bytes its header tells of, at most how many it may have, and how many bytes a block of the
/// database has.
#[derive(Clone, Copy)]
pub struct VolumeLength {
    pub found: u64,
    pub blocks: u32,
    pub size: u32,
    pub block_size: u32,
    pub largest: u32,
}

/// A segment that stands where a fault of a volume is: its address, the name of its type, and its key, without bytes where the type has none.
#[derive(Drop)]
pub struct Sighted {
    pub address: u32,
    pub name: Name8,
    pub key: Vec<u8>,
}

/// The segment of which a fault tells: that at its place, or for an entry of the index that at the address in the entry.
pub fn segment_of(fault: &Fault) -> Option<u32> {
    match fault.number() {
        6..=14 | 18 => Some(fault.address),
        17 => Some(fault.other),
        _ => None,
    }
}

/// The segment of which a refusal tells.
fn address_of(refusal: Refusal) -> Option<u32> {
    match refusal {
        Refusal::Fault(fault) => segment_of(&fault),
        _ => None,
    }
}

/// Whether a refusal says that a file is no whole volume.
fn is_of_file(refusal: Refusal) -> bool {
    match refusal {
        Refusal::Fault(fault) => fault.number() == 1,
        _ => false,
    }
}

/// Sees the segment at an address of the volume in a store.
fn see<S: BlockStore + Drop>(
    alloc: Global,
    dbd: &Dbd,
    store: S,
    address: u32,
) -> Result<Option<Sighted>, Stop>
    requires { S.size store ≡ dbd.now.block_size }
{
    let mut volume = load_volume(alloc, dbd, store, CACHE)?;
    let Some(seen) = see_segment(alloc, &mut volume, dbd, address)? else {
        return Ok(None);
    };
    let Some(segment) = dbd.type_of(seen.code) else {
        return Ok(None);
    };
    Ok(Some(Sighted {
        address,
        name: segment.name,
        key: seen.key,
    }))
}

/// Sees the segment at an address of the volume in a store, whose blocks are read ahead.
fn see_ahead<S: RunStore + Drop>(
    alloc: Global,
    dbd: &Dbd,
    store: S,
    address: u32,
) -> Result<Option<Sighted>, Stop>
    requires { S.size store ≡ dbd.now.block_size }
{
    let store = ReadAhead::new(alloc, store);
    see(alloc, dbd, store, address)
}

/// Sees the segment at an address of the volume in a file, with a ledger for the accesses that fail.
fn see_blocks<L: Ledger>(
    alloc: Global,
    dbd: &Dbd,
    file: File,
    address: u32,
    blank: Blank,
) -> Result<Option<Sighted>, Stop>
    requires name { blank.name ≡ L.name }
    requires parts { blank.parts ≡ L.parts }
    requires share { 0 < blank.parts }
{
    let store = file_blocks::<L>(dbd, file, blank)?;
    see_ahead(alloc, dbd, store, address)
}

/// As `see_blocks`, with a ledger of its own.
fn see_file(alloc: Global, dbd: &Dbd, file: File, address: u32) -> Result<Option<Sighted>, Stop> {
    see_blocks::<Brand>(alloc, dbd, file, address, Blank::new(1))
}

/// How many bytes of a file are looked at to tell what it is.
const HEAD: usize = 64;

/// The first bytes of a file, and how many they are.
fn head_of(file: &File) -> io::Result<([u8; HEAD], usize)> {
    let mut head = [0; HEAD];
    let count = file.read_at(&mut head, 0)?;
    Ok((head, count))
}

/// What a file is whose first bytes are read, where it is something else than what its word wants.
fn kind_of(word: Named, beginning: Beginning) -> Option<Sight> {
    match beginning {
        Beginning::Unknown => None,
        _ => Some(Sight::Kind(word, beginning)),
    }
}

/// How long a volume's file is, with what its header and the database tell of it.
fn length_of(file: &File, head: &[u8; HEAD], dbd: &Dbd) -> io::Result<VolumeLength> {
    let [
        _,
        _,
        _,
        _,
        _,
        _,
        _,
        _,
        _,
        _,
        s1,
        s0,
        b3,
        b2,
        b1,
        b0,
        l3,
        l2,
        l1,
        l0,
        ..
    ] = *head;
    Ok(VolumeLength {
        found: file.metadata()?.len(),
        blocks: u32::from_be_bytes([b3, b2, b1, b0]),
        size: u32::from(u16::from_be_bytes([s1, s0])),
        block_size: dbd.block_size(),
        largest: u32::from_be_bytes([l3, l2, l1, l0]),
    })
}

/// What the file is that was given for a volume and is none; or how long the volume is.
fn see_volume(file: &File, dbd: &Dbd) -> io::Result<Option<Sight>> {
    let (head, count) = head_of(file)?;
    let length = length_of(file, &head, dbd)?;
    match Beginning::of(head.get(..count).unwrap_or(&[])) {
        Beginning::Volume => Ok(Some(Sight::Length(length))),
        Beginning::Unknown if length.found < u64::from(length.block_size) => {
            Ok(Some(Sight::Length(length)))
        }
        Beginning::Unknown => Ok(Some(Sight::Mark)),
        beginning => Ok(kind_of(Named::Volume, beginning)),
    }
}

/// What an unload stream says that it is which begins with these bytes.
fn stream_head(head: &[u8; HEAD], database: Name8) -> StreamHead {
    let [_, _, _, _, _, _, _, _, v1, v0, a, b, c, d, e, f, g, h, ..] = *head;
    StreamHead {
        version: u16::from_be_bytes([v1, v0]),
        name: [a, b, c, d, e, f, g, h],
        database,
    }
}

/// What the file is that was given for an unload stream and is none, or none of the database.
fn see_stream<R: Files<File = File>>(
    rt: &R,
    alloc: Global,
    request: &Request<'_>,
) -> Result<Option<Sight>, Stop> {
    let mut options = OpenOptions::new();
    options.read(true);
    let file = open(rt, &options, request.name_of(Named::Stream))?;
    let (head, count) = head_of(&file)?;
    match Beginning::of(head.get(..count).unwrap_or(&[])) {
        Beginning::Stream => {
            let (dbd, _) = read_database(rt, alloc, request.name_of(Named::Dbd))?;
            Ok(Some(Sight::Stream(stream_head(&head, *dbd.name()))))
        }
        beginning => Ok(kind_of(Named::Stream, beginning)),
    }
}

/// What stands in the log of a volume that may be written.
fn left_of<R: Files<File = File>>(rt: &R, alloc: Global, volume: &str) -> Result<Left, FileFault> {
    let mut options = OpenOptions::new();
    options.read(true).write(true);
    drop(of_file(Named::Volume, open(rt, &options, volume))?);
    let (file, identity) = open_shared(rt, volume)?;
    let files = VolumeFiles::to_read(rt, alloc, volume, &file, identity)?;
    files.left()
}

/// Of which file an error tells that the system said of a volume which calls change. What they change goes into its log alone before it is committed: so it is
/// the log, unless the volume may not be written at all, or commits stand in its log alone, which could not be copied.
pub fn written_file<R: Files<File = File>>(
    rt: &R,
    alloc: Global,
    request: &Request<'_>,
    error: &io::Error,
) -> Named {
    let is_changed = matches!(request, Request::Deck { .. } | Request::Serve { .. });
    if !is_changed || error.raw_os_error().is_none() {
        return Named::Volume;
    }
    match left_of(rt, alloc, request.name_of(Named::Volume)) {
        Ok(Left::Nothing | Left::Uncommitted) => Named::Log,
        Ok(Left::Commits) | Err(_) => Named::Volume,
    }
}

/// What is seen where the refusal of a command tells of its volume, or of its stream. The file is opened once more, for reading alone; `None` where
/// the refusal tells of nothing that can be seen, and where nothing can be read.
pub fn see_refused<R: Files<File = File>>(
    rt: &R,
    alloc: Global,
    request: &Request<'_>,
    refusal: Refusal,
) -> Option<Sight> {
    if let Refusal::Record(RecordFault::U1, _) = refusal {
        return see_stream(rt, alloc, request).ok()?;
    }
    let address = address_of(refusal);
    if address.is_none() && !is_of_file(refusal) {
        return None;
    }
    let (dbd, _) = read_database(rt, alloc, request.name_of(Named::Dbd)).ok()?;
    let (file, _) = open_shared(rt, request.name_of(Named::Volume)).ok()?;
    let Some(address) = address else {
        return see_volume(&file, &dbd).ok()?;
    };
    let seen = see_file(alloc, &dbd, file, address).ok()??;
    Some(Sight::Segment(seen))
}
