//! All faults that are listed: those of the first phase that finds any, and behind those of pointers those of the index.
ghost use Rattle.std.specs.Prelude.{◌≡◌, ◌<◌, [], IsTrue, IfOk, IfNone};
ghost use Rattle.hd_dbd.specs.Refusals.{OnlyDeviceOrMemory};
ghost use Rattle.hd_dbd.specs.Facts.{stored_sizes};
ghost use Rattle.hd_volume.specs.Calls.{IsRead};
ghost use Rattle.hd_links.specs.Pointers.{AreLinked};
ghost use Rattle.hd_image.specs.Records.{links_of};
ghost use Rattle.hd_image.specs.Standing.{phase_of};
ghost use Rattle.hd_check_pointers.specs.Tables.{AreForwards, ArePredecessors};
ghost use Rattle.hd_check_pointers.specs.Matched.{IsMatched};
ghost use Rattle.hd_check_blocks.specs.Finding.{WhereNone, WhereSome};
ghost use Rattle.hd_check.specs.Joining.{NoneBefore, HasRightBlocks, OfWellFormed};
ghost use Rattle.hd_check.specs.Lists.{BeginsWith, AreFirstFaults, AreFaultsOf, AreFaultsBehind};

use crate::index_lists::index_faults;
use hd_check_blocks::{
    Directory, Fault, Place, blocks_fault, blocks_faults, header_fault, header_faults,
};
use hd_check_pointers::{
    Naming, owners_of, predecessors_fault, predecessors_faults, reached_fault, reached_faults,
    records_fault, records_faults, twin_keys_fault, twin_keys_faults, twins_fault, twins_faults,
};
use hd_dbd::{Dbd, Refused};
use hd_stores::BlockStore;
use hd_volume::Volume;
use std::alloc::Global;

/// The faults of the header, or of the blocks, if one stands; where none does, the segments are noted.
fn image_faults<S: BlockStore>(
    alloc: Global,
    places: &mut Vec<Place>,
    volume: &mut Volume<S>,
    dbd: &Dbd,
) -> Result<Option<Vec<Fault>>, Refused>
    requires empty { places.old.items ≡ [] }
    requires size { (volume.old.size ≡ dbd.now.block_size) × (volume.old.sizes ≡ stored_sizes dbd.now.types) }
    ensures read { IsRead volume.old result volume.new }
    ensures none { IfOk result (λ o. IsTrue volume.old.is_sound → OfWellFormed dbd.now (IfNone o (HasRightBlocks dbd.now volume.old places.new.items))) }
    ensures some { WhereSome volume.old result (λ l. AreFirstFaults dbd.now volume.old l.items) }
    ensures early { WhereSome volume.old result (λ l. BeginsWith (λ f. phase_of f.line < 3) l.items) }
    ensures refusal { OnlyDeviceOrMemory result }
{
    let found = header_fault(volume, dbd)?;
    if found.is_some() {
        let faults = header_faults(alloc, volume, dbd)?;
        return Ok(Some(faults));
    }
    let found = blocks_fault(alloc, places, volume, dbd)?;
    if found.is_some() {
        let faults = blocks_faults(alloc, volume, dbd)?;
        return Ok(Some(faults));
    }
    Ok(None)
}

/// The faults of what is reached, if one stands, where the pointers are right otherwise.
fn twin_chains_faults<S: BlockStore>(
    alloc: Global,
    places: &[Place],
    directory: &Directory,
    namings: &[Naming],
    forwards: &[u32],
    volume: &mut Volume<S>,
    dbd: &Dbd,
) -> Result<Option<Vec<Fault>>, Refused>
    requires matched { IsTrue volume.old.is_sound → IsMatched dbd.now volume.old places.now }
    requires predecessors { IsTrue volume.old.is_sound → ArePredecessors dbd.now.types (links_of dbd.now.types volume.old) places.now namings.now }
    requires forwards { IsTrue volume.old.is_sound → AreForwards (links_of dbd.now.types volume.old) places.now forwards.now }
    requires before { IsTrue volume.old.is_sound → NoneBefore dbd.now volume.old 5 }
    ensures read { IsRead volume.old result volume.new }
    ensures none { WhereNone volume.old result (AreLinked dbd.now.types (links_of dbd.now.types volume.old)) }
    ensures some { WhereSome volume.old result (λ l. AreFirstFaults dbd.now volume.old l.items) }
    ensures within { WhereSome volume.old result (λ l. BeginsWith (λ f. (2 < phase_of f.line) × (phase_of f.line < 8)) l.items) }
    ensures refusal { OnlyDeviceOrMemory result }
{
    let owners = owners_of(alloc, places, directory, namings, forwards)?;
    let found = twins_fault(places, directory, namings, &owners, forwards, volume, dbd)?;
    if found.is_some() {
        let faults = twins_faults(
            alloc, places, directory, namings, &owners, forwards, volume, dbd,
        )?;
        return Ok(Some(faults));
    }
    let found = twin_keys_fault(places, directory, namings, volume, dbd)?;
    if found.is_some() {
        let faults = twin_keys_faults(alloc, places, directory, namings, volume, dbd)?;
        return Ok(Some(faults));
    }
    if reached_fault(places, directory, &owners).is_some() {
        let faults = reached_faults(alloc, places, directory, &owners)?;
        return Ok(Some(faults));
    }
    Ok(None)
}

/// The faults of the first phase of the pointers that finds any.
fn pointers_faults<S: BlockStore>(
    alloc: Global,
    places: &[Place],
    directory: &Directory,
    volume: &mut Volume<S>,
    dbd: &Dbd,
) -> Result<Option<Vec<Fault>>, Refused>
    requires right { IsTrue volume.old.is_sound → HasRightBlocks dbd.now volume.old places.now }
    ensures read { IsRead volume.old result volume.new }
    ensures none { WhereNone volume.old result (AreLinked dbd.now.types (links_of dbd.now.types volume.old)) }
    ensures some { WhereSome volume.old result (λ l. AreFirstFaults dbd.now volume.old l.items) }
    ensures within { WhereSome volume.old result (λ l. BeginsWith (λ f. (2 < phase_of f.line) × (phase_of f.line < 8)) l.items) }
    ensures refusal { OnlyDeviceOrMemory result }
{
    let mut forwards = Vec::new(alloc);
    let mut namings = Vec::new(alloc);
    let found = records_fault(&mut forwards, &mut namings, places, directory, volume, dbd)?;
    if found.is_some() {
        let faults = records_faults(alloc, places, directory, volume, dbd)?;
        return Ok(Some(faults));
    }
    let found = predecessors_fault(alloc, &mut namings, places, directory)?;
    if found.is_some() {
        let faults = predecessors_faults(alloc, places, &namings)?;
        return Ok(Some(faults));
    }
    twin_chains_faults(alloc, places, directory, &namings, &forwards, volume, dbd)
}

/// All faults of a volume that are listed.
#[derive(Drop)]
pub struct AllFaults {
    /// Those of the first phase that finds any; none where the volume holds a forest of its database.
    pub first: Vec<Fault>,
    /// Where the first are of pointers (phases 3 to 7), those of the first phase of the index (8 to 13) that finds any, for the index is judged by itself; else
    /// none.
    pub index: Vec<Fault>,
}

/// Faults behind which no others are listed.
fn alone(alloc: Global, first: Vec<Fault>) -> AllFaults
    ensures first { result.first.items ≡ first.items }
    ensures index { result.index.items ≡ [] }
{
    AllFaults {
        first,
        index: Vec::new(alloc),
    }
}

/// All faults that are listed of a volume whose header and blocks are right.
fn later_faults<S: BlockStore>(
    alloc: Global,
    places: &[Place],
    volume: &mut Volume<S>,
    dbd: &Dbd,
) -> Result<AllFaults, Refused>
    requires right { IsTrue volume.old.is_sound → HasRightBlocks dbd.now volume.old places.now }
    ensures read { IsRead volume.old result volume.new }
    ensures first { IfOk result (λ all. IsTrue volume.old.is_sound → AreFaultsOf dbd.now volume.old all.first.items) }
    ensures index { IfOk result (λ all. IsTrue volume.old.is_sound → AreFaultsBehind dbd.now volume.old all.first.items all.index.items) }
    ensures refusal { OnlyDeviceOrMemory result }
{
    let directory = Directory::of(alloc, places)?;
    let pointers = pointers_faults(alloc, places, &directory, volume, dbd)?;
    let index = index_faults(alloc, places, &directory, volume, dbd)?;
    match pointers {
        None => Ok(alone(alloc, index)),
        Some(first) => Ok(AllFaults { first, index }),
    }
}

/// All faults of a volume that are listed. No byte is changed.
pub fn all_faults<S: BlockStore>(
    alloc: Global,
    volume: &mut Volume<S>,
    dbd: &Dbd,
) -> Result<AllFaults, Refused>
    requires size { (volume.old.size ≡ dbd.now.block_size) × (volume.old.sizes ≡ stored_sizes dbd.now.types) }
    ensures read { IsRead volume.old result volume.new }
    ensures first { IfOk result (λ all. IsTrue volume.old.is_sound → AreFaultsOf dbd.now volume.old all.first.items) }
    ensures index { IfOk result (λ all. IsTrue volume.old.is_sound → AreFaultsBehind dbd.now volume.old all.first.items all.index.items) }
    ensures refusal { OnlyDeviceOrMemory result }
{
    let _types = dbd.types();
    let mut places = Vec::new(alloc);
    match image_faults(alloc, &mut places, volume, dbd)? {
        None => later_faults(alloc, &places, volume, dbd),
        Some(first) => Ok(alone(alloc, first)),
    }
}
