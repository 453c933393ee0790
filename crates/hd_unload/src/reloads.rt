ghost use Rattle.std.specs.Prelude.{◌≡◌, ◌≤◌, ◌<◌, ℕ, List, [], ◌+◌, true, false, None, IsTrue, IfOk, IfErr, OnOk};
ghost use Rattle.hd_bytes.specs.Blocks.{HasBlock};
ghost use Rattle.hd_dbd.specs.Facts.{stored_sizes};
ghost use Rattle.hd_dbd.specs.DatabaseRules.{well_formed};
ghost use Rattle.hd_dbd.specs.Segment.{Segment};
ghost use Rattle.hd_dbd.specs.Rows.{row_fits, next_path};
ghost use Rattle.hd_dbd.specs.Loads.{load_fault};
ghost use Rattle.hd_volume.specs.Headers.{header_of};
ghost use Rattle.hd_volume.specs.Spacing.{HasLeft, LeavesSpace};
ghost use Rattle.hd_volume.specs.Calls.{IsCall};
ghost use Rattle.hd_links.specs.LastRows.{segments_of};
ghost use Rattle.hd_volume.specs.Creates.{IsCreated};
ghost use Rattle.hd_unload.specs.Loads.{HasRecords, IsReloaded};
ghost use Rattle.hd_unload.specs.Refusals.{as_call, IsFaultOfRow, IsFaultOf, IsGivenFrom, IsGivenUp, IsStoreOf};
ghost use Rattle.hd_unload.specs.Steps.{row_of, IsLoadedTo, IsLoadedBehind, IsLoadedAll, ForItsStreams};
ghost use Rattle.hd_volume.specs.declared.load.TheConstants.{MOST_BLOCKS};

use crate::fault::{RecordFault, ReloadFault};
use crate::judge::load_fault;
use crate::path::LoadPath;
use crate::record::{behind_head, next_record};
use crate::row::load_row;
use hd_dbd::{Dbd, Refused};
use hd_output::Work;
use hd_stores::BlockStore;
use hd_volume::Volume;
use std::alloc::Global;

/// A volume that was loaded: how many segments it has, how many blocks, and the store.
#[derive(Drop)]
pub struct Reloaded<S> {
    pub segments: u32,
    pub blocks: u32,
    pub store: S,
}

/// Judges and loads one record, the one of a number.
fn load_record<'a, S: BlockStore>(
    volume: &mut Volume<S>,
    dbd: &Dbd,
    path: &mut LoadPath<'a>,
    code: u8,
    bytes: &'a [u8],
    number: u64,
) -> Result<(), ReloadFault>
    requires sizes { (volume.old.size ≡ dbd.now.block_size) × (volume.old.sizes ≡ stored_sizes dbd.now.types) }
    requires fits { row_fits dbd.now.types (row_of code bytes.now) ≡ true }
    requires loaded { IsTrue volume.old.is_sound → (rows : List Segment) × IsLoadedTo dbd.now rows path.old volume.old }
    ensures call { IsCall volume.old (as_call result) volume.new }
    ensures may { OnOk result (load_fault dbd.now.types (segments_of path.old) (row_of code bytes.now) ≡ None) }
    ensures loaded { OnOk result (IsTrue volume.old.is_sound → IsLoadedBehind dbd.now volume.old path.old (row_of code bytes.now) path.new volume.new) }
    ensures path { OnOk result (segments_of path.new ≡ next_path dbd.now.types (segments_of path.old) (row_of code bytes.now)) }
    ensures fit { OnOk result (IsTrue (well_formed dbd.now.block_size dbd.now.frspc dbd.now.types)) }
    ensures fault { IfErr result (λ e. IsFaultOfRow dbd.now (segments_of path.old) (row_of code bytes.now) number volume.old e) }
{
    if let Some(fault) = load_fault(path, dbd, code, bytes) {
        return Err(ReloadFault::Record(RecordFault::of_load(fault), number));
    }
    match load_row(volume, dbd, path, code, bytes) {
        Ok(()) => Ok(()),
        Err(Refused::Full) => Err(ReloadFault::Full(number)),
        Err(Refused::Memory) => Err(ReloadFault::Memory),
        Err(_) => Err(ReloadFault::Device),
    }
}

/// Loads the records of a stream, and says how many they are.
fn load_records<S: BlockStore>(
    volume: &mut Volume<S>,
    dbd: &Dbd,
    records: &[u8],
) -> Result<u32, ReloadFault>
    requires sizes { (volume.old.size ≡ dbd.now.block_size) × (volume.old.sizes ≡ stored_sizes dbd.now.types) }
    requires new { IsTrue volume.old.is_sound → (largest : ℕ) × IsCreated dbd.now.name dbd.now.block_size largest volume.old }
    ensures call { IsCall volume.old (as_call result) volume.new }
    ensures rows { IfOk result (λ n. ForItsStreams dbd.now records.now volume.old (λ stream largest. IsLoadedAll dbd.now stream largest n volume.new)) }
    ensures fault { IfErr result (λ e. ForItsStreams dbd.now records.now volume.old (λ stream largest. IsFaultOf dbd.now stream largest volume.old.is_sound e)) }
{
    let types = dbd.types();
    let mut path = LoadPath::new();
    let mut left = records;
    volume.begin_work(records.len() as u64, Work::Bytes);
    for count in 0..records.len() {
        let number = count as u64 + 1;
        let record = match next_record(left, count as u64, types) {
            Err(fault) => return Err(ReloadFault::Record(fault, number)),
            Ok(None) => return Ok(count as u32),
            Ok(Some(record)) => record,
        };
        match load_record(volume, dbd, &mut path, record.code, record.bytes, number) {
            Err(fault) => return Err(fault),
            Ok(()) => {
                volume.work_done(left.len().saturating_sub(record.rest.len()) as u64);
                left = record.rest;
            }
        }
    }
    Err(ReloadFault::Record(RecordFault::U2, records.len() as u64 + 1))
}

/// Makes a volume of an unload stream in an empty store: of the newest version, of this largest count, 1 to 65,536 blocks, and flushed. So many of its blocks
/// are kept in memory.
///
/// The first record with a fault refuses the stream; `Full` comes at a record with which nothing is wrong where the volume has no
/// room for it. A refusal gives the store back; unless an access failed, it has then no volume.
///
/// The volume leaves the database's free space (FRSPC), as long as it may grow by two blocks; after that the space is used.
pub fn reload<S: BlockStore>(
    alloc: Global,
    dbd: &Dbd,
    stream: &[u8],
    store: S,
    largest: u32,
    kept: usize,
) -> Result<Reloaded<S>, (S, ReloadFault)>
    requires size { S.size store ≡ dbd.now.block_size }
    requires empty { IsTrue (S.is_sound store) → S.contents store ≡ [] }
    requires bounds { (0 < largest) × (largest ≤ MOST_BLOCKS) }
    ensures records { IfOk result (λ r. HasRecords dbd.now stream.now r.segments) }
    ensures reloaded { IfOk result (λ r. IsTrue (S.is_sound store) → IsReloaded dbd.now stream.now largest r.segments r.blocks (S.contents r.store)) }
    ensures store { IfOk result (λ r. (S.is_sound r.store ≡ S.is_sound store) × (S.failures r.store ≡ S.failures store) × (S.size r.store ≡ S.size store)) }
    ensures fault { IfErr result (λ e. IsFaultOf dbd.now stream.now largest (S.is_sound store) e.1) }
    ensures given { IfErr result (λ e. IsGivenUp S.size S.contents S.is_sound S.failures store e) }
{
    let records = match behind_head(stream, dbd) {
        Ok(records) => records,
        Err(fault) => return Err((store, ReloadFault::Record(fault, 0))),
    };
    match Volume::create_keeping(alloc, store, dbd, largest, kept) {
        Ok(volume) => fill(volume, dbd, records),
        Err((store, Refused::Memory)) => Err((store, ReloadFault::Memory)),
        Err((store, _)) => Err((store, ReloadFault::Device)),
    }
}

/// Loads the records of a stream into a new volume, which leaves free space, and flushes it. Where that space was given up for want of memory,
/// and the volume may still grow by two blocks, the answer is `Memory`.
fn fill<S: BlockStore>(
    mut volume: Volume<S>,
    dbd: &Dbd,
    records: &[u8],
) -> Result<Reloaded<S>, (S, ReloadFault)>
    requires sizes { (volume.size ≡ dbd.now.block_size) × (volume.sizes ≡ stored_sizes dbd.now.types) }
    requires new { IsTrue volume.is_sound → (largest : ℕ) × IsCreated dbd.now.name dbd.now.block_size largest volume }
    ensures records { IfOk result (λ r. ForItsStreams dbd.now records.now volume (λ stream _. HasRecords dbd.now stream r.segments)) }
    ensures reloaded { IfOk result (λ r. IsTrue volume.is_sound → ForItsStreams dbd.now records.now volume (λ stream most. IsReloaded dbd.now stream most r.segments r.blocks (S.contents r.store))) }
    ensures store { IfOk result (λ r. IsStoreOf S.size S.is_sound S.failures volume r.store) }
    ensures fault { IfErr result (λ e. ForItsStreams dbd.now records.now volume (λ stream largest. IsFaultOf dbd.now stream largest volume.is_sound e.1)) }
    ensures given { IfErr result (λ e. IsGivenFrom S.size S.contents S.is_sound S.failures volume e) }
{
    let _ = dbd.types();
    volume.set_spacing(dbd.frspc());
    match load_records(&mut volume, dbd, records) {
        Ok(segments) => {
            if !has_left(&volume, dbd) {
                return Err((volume.into_store(), ReloadFault::Memory));
            }
            finish(volume, segments)
        }
        Err(fault) => Err((volume.into_store(), fault)),
    }
}

/// A loaded volume has left the database's free space: it did not give that up, or it may not grow by two blocks any more.
fn has_left<S: BlockStore>(volume: &Volume<S>, dbd: &Dbd) -> bool
    requires header { IsTrue volume.now.is_sound → HasBlock volume.now.size volume.now.image 0 }
    requires space { LeavesSpace dbd.now.frspc volume.now }
    ensures { result ≡ true → IsTrue volume.now.is_sound → HasLeft (record volume.now { spacing = dbd.now.frspc }) }
{
    volume.spacing() == dbd.frspc()
        || volume.largest_count() < volume.block_count().saturating_add(2)
}

/// Flushes a loaded volume, whose header reaches the store last.
fn finish<S: BlockStore>(
    mut volume: Volume<S>,
    segments: u32,
) -> Result<Reloaded<S>, (S, ReloadFault)>
    requires header { IsTrue volume.is_sound → HasBlock volume.size volume.image 0 }
    ensures image { IfOk result (λ r. IsTrue volume.is_sound → (S.contents r.store ≡ volume.image) × (r.blocks ≡ (header_of volume.image).count)) }
    ensures segments { IfOk result (λ r. r.segments ≡ segments) }
    ensures store { IfOk result (λ r. IsStoreOf S.size S.is_sound S.failures volume r.store) }
    ensures given { IfErr result (λ e. (e.1 ≡ ReloadFault.Device) × (volume.failures < S.failures e.0) × (S.is_sound e.0 ≡ false) × (S.size e.0 ≡ volume.size)) }
{
    match volume.flush() {
        Ok(()) => {
            let blocks = volume.block_count();
            Ok(Reloaded {
                segments,
                blocks,
                store: volume.into_store(),
            })
        }
        Err(_) => Err((volume.into_store(), ReloadFault::Device)),
    }
}
