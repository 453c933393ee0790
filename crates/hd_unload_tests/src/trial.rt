//! Checks, unloads and reloads over stores of which no contract speaks.
ghost use Rattle.std.specs.Prelude.{◌≡◌, ◌≤◌, ◌<◌, true, false};
ghost use Rattle.hd_dbd.specs.Facts.{stored_sizes};

use crate::stores::Page;
use hd_check::{CheckFault, check};
use hd_dbd::{Dbd, Refused};
use hd_stores::{BlockStore, FuseStore, MemStore};
use hd_unload::{ReloadFault, StreamFault, UnloadFault, reload, unload, write_stream};
use hd_volume::Volume;
use std::alloc::Global;
use std::io::Write;

/// A store in memory that has failed once, so that no contract says anything of it, behind a fuse: it serves each access but one.
pub type Store = FuseStore<FuseStore<MemStore>>;

/// What is told of a volume: its segments and blocks, or a refusal.
pub type Told = Result<(u32, u32), UnloadFault>;

/// An access failed.
pub const DEVICE: UnloadFault = UnloadFault::Check(CheckFault::Device);

/// The store of these bytes, which fails the access behind so many.
pub fn store_of(size: usize, bytes: Vec<u8>, passes: u64) -> Store
    requires { (0 < size) × (size ≤ 32768) }
    ensures blown { result.inner.is_blown ≡ true }
    ensures size { result.inner.inner.size ≡ size }
{
    let mut store = FuseStore::new(MemStore::new(size, bytes), 0);
    let _ = store.grow(0);
    FuseStore::new(store, passes)
}

/// The segments of a volume, as a work tells them: a `check`, an `unload`, a `write` of the stream without a check, and `both` a check and an unload, which
/// must agree.
fn segments_of<S: BlockStore, W: Write>(
    alloc: Global,
    dbd: &Dbd,
    work: u8,
    volume: &mut Volume<S>,
    out: &mut W,
) -> Result<u32, UnloadFault>
    requires unsound { volume.old.is_sound ≡ false }
    requires size { (volume.old.size ≡ dbd.now.block_size) × (volume.old.sizes ≡ stored_sizes dbd.now.types) }
{
    if work == b'w' {
        return match write_stream(volume, dbd, out) {
            Ok(segments) => Ok(segments),
            Err(StreamFault::Device) => Err(DEVICE),
            Err(StreamFault::Write) => Err(UnloadFault::Write),
        };
    }
    if work == b'u' {
        return unload(alloc, volume, dbd, out);
    }
    let checked = match check(alloc, volume, dbd) {
        Ok(passed) => Ok(passed.segments),
        Err(fault) => Err(UnloadFault::Check(fault)),
    };
    if work == b'c' || unload(alloc, volume, dbd, out) == checked {
        checked
    } else {
        Err(UnloadFault::Changed)
    }
}

/// Does a work over a store, so many blocks of which are kept in memory, and gives the store back: a `reload` of a stream, for which `Changed` says that it is
/// refused, or what tells of the volume there.
pub fn over<S: BlockStore + Drop, W: Write>(
    alloc: Global,
    dbd: &Dbd,
    work: u8,
    kept: usize,
    stream: &[u8],
    store: S,
    out: &mut W,
) -> (Told, S)
    requires unsound { S.is_sound store ≡ false }
    requires size { S.size store ≡ dbd.now.block_size }
{
    if work == b'r' {
        return match reload(alloc, dbd, stream, store, 65536, kept) {
            Ok(made) => (Ok((made.segments, made.blocks)), made.store),
            Err((store, ReloadFault::Device)) => (Err(DEVICE), store),
            Err((store, _)) => (Err(UnloadFault::Changed), store),
        };
    }
    let mut volume = match Volume::load_keeping(alloc, store, dbd, kept) {
        Ok(volume) => volume,
        Err((store, Refused::Device)) => return (Err(DEVICE), store),
        Err((store, _)) => return (Err(UnloadFault::Check(CheckFault::Memory)), store),
    };
    let told = segments_of(alloc, dbd, work, &mut volume, out);
    let blocks = volume.block_count();
    let _ = volume.flush();
    match told {
        Ok(segments) => (Ok((segments, blocks)), volume.into_store()),
        Err(fault) => (Err(fault), volume.into_store()),
    }
}

/// What is done, how many blocks are kept in memory, three at the least, and after how many accesses and pieces written one fails.
#[derive(Clone, Copy)]
pub struct Job {
    pub work: u8,
    pub kept: usize,
    pub accesses: u64,
    pub pieces: u64,
}

/// A check that nothing hinders.
pub const CHECK: Job = Job {
    work: b'c',
    kept: 0,
    accesses: u64::MAX,
    pieces: u64::MAX,
};

/// What came of a job: what was told, the bytes of the store, how many accesses came to it, whether one or a write failed, and what was written.
#[derive(Drop)]
pub struct Ended {
    pub told: Told,
    pub image: Vec<u8>,
    pub accesses: u64,
    pub has_failed: bool,
    pub written: Vec<u8>,
}

/// Does a job over a store of these bytes, with a stream to be reloaded.
pub fn outcome(alloc: Global, dbd: &Dbd, job: Job, stream: &[u8], image: Vec<u8>) -> Ended {
    let mut page = Page {
        bytes: Vec::new(alloc),
        pieces: job.pieces,
        is_full: false,
    };
    let store = store_of(dbd.block_size() as usize, image, job.accesses);
    let (told, store) = over(alloc, dbd, job.work, job.kept, stream, store, &mut page);
    let accesses = store.accesses();
    Ended {
        told,
        image: store.into_inner().into_inner().into_bytes(),
        accesses,
        has_failed: accesses > job.accesses || page.is_full,
        written: page.bytes,
    }
}

/// The bytes of the volume that a reload makes of a stream, if it makes one.
pub fn reloaded(alloc: Global, dbd: &Dbd, stream: &[u8]) -> Option<Vec<u8>> {
    let job = Job {
        work: b'r',
        ..CHECK
    };
    let done = outcome(alloc, dbd, job, stream, Vec::new(alloc));
    match done.told {
        Ok(_) => Some(done.image),
        Err(_) => None,
    }
}
