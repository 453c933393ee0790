ghost use Rattle.std.specs.Prelude.{◌≡◌, [], true, IsTrue, IfOk, IfNone};
ghost use Rattle.hd_dbd.specs.Refusals.{OnlyDeviceOrMemory};
ghost use Rattle.hd_dbd.specs.Facts.{stored_sizes};
ghost use Rattle.hd_dbd.specs.DatabaseRules.{well_formed};
ghost use Rattle.hd_volume.specs.Calls.{IsRead};
ghost use Rattle.hd_volume.specs.Headers.{header_of};
ghost use Rattle.hd_volume.specs.Entries.{entry_blocks, entries};
ghost use Rattle.hd_volume.specs.Indexes.{root_key_length, keys_ascend};
ghost use Rattle.hd_links.specs.Pointers.{AreLinked};
ghost use Rattle.hd_image.specs.Records.{links_of, IsVolumeOf};
ghost use Rattle.hd_image.specs.Right.{ChainIsFormed};
ghost use Rattle.hd_check_pointers.specs.Tables.{AreForwards, ArePredecessors};
ghost use Rattle.hd_check_pointers.specs.Matched.{IsMatched};
ghost use Rattle.hd_check_index.specs.IndexPhases.{IsSequence};
ghost use Rattle.hd_check.specs.Joining.{NoneBefore, IsFirstFault, HasRightBlocks, NamesAreRight, IsFoundRight, OfWellFormed, HasOrderedIndex, HasRightIndex};
ghost use Rattle.hd_check_blocks.specs.Finding.{WhereNone, WhereSome};

use crate::levels::levels_fault;
use hd_check_blocks::{Directory, Fault, Place, blocks_fault, header_fault};
use hd_check_index::{
    block_forms_fault, entry_order_fault, sort_chain, twice_named_fault, unnamed_root_fault,
    unreached_block_fault, wrong_entry_fault,
};
use hd_check_pointers::{
    Naming, owners_of, predecessors_fault, reached_fault, records_fault, twin_keys_fault,
    twins_fault,
};
use hd_check_walk::are_linked;
use hd_dbd::{Dbd, Refused};
use hd_stores::BlockStore;
use hd_volume::Volume;
use std::alloc::Global;

/// The least fault of the header and the blocks; where there is none, the segments are noted.
fn image_fault<S: BlockStore>(
    alloc: Global,
    places: &mut Vec<Place>,
    volume: &mut Volume<S>,
    dbd: &Dbd,
) -> Result<Option<Fault>, Refused>
    requires empty { places.old.items ≡ [] }
    requires size { (volume.old.size ≡ dbd.now.block_size) × (volume.old.sizes ≡ stored_sizes dbd.now.types) }
    ensures read { IsRead volume.old result volume.new }
    ensures none { IfOk result (λ o. IsTrue volume.old.is_sound → OfWellFormed dbd.now (IfNone o (HasRightBlocks dbd.now volume.old places.new.items))) }
    ensures some { WhereSome volume.old result (λ f. IsFirstFault dbd.now volume.old f) }
    ensures refusal { OnlyDeviceOrMemory result }
{
    let found = header_fault(volume, dbd)?;
    if found.is_some() {
        return Ok(found);
    }
    blocks_fault(alloc, places, volume, dbd)
}

/// The least fault of the pointers behind that of predecessors.
fn twin_chains_fault<S: BlockStore>(
    alloc: Global,
    places: &[Place],
    directory: &Directory,
    namings: &[Naming],
    forwards: &[u32],
    volume: &mut Volume<S>,
    dbd: &Dbd,
) -> Result<Option<Fault>, Refused>
    requires matched { IsTrue volume.old.is_sound → IsMatched dbd.now volume.old places.now }
    requires predecessors { IsTrue volume.old.is_sound → ArePredecessors dbd.now.types (links_of dbd.now.types volume.old) places.now namings.now }
    requires forwards { IsTrue volume.old.is_sound → AreForwards (links_of dbd.now.types volume.old) places.now forwards.now }
    requires before { IsTrue volume.old.is_sound → NoneBefore dbd.now volume.old 5 }
    ensures read { IsRead volume.old result volume.new }
    ensures none { WhereNone volume.old result (AreLinked dbd.now.types (links_of dbd.now.types volume.old)) }
    ensures some { WhereSome volume.old result (λ f. IsFirstFault dbd.now volume.old f) }
    ensures refusal { OnlyDeviceOrMemory result }
{
    let owners = owners_of(alloc, places, directory, namings, forwards)?;
    let found = twins_fault(places, directory, namings, &owners, forwards, volume, dbd)?;
    if found.is_some() {
        return Ok(found);
    }
    let found = twin_keys_fault(places, directory, namings, volume, dbd)?;
    if found.is_some() {
        return Ok(found);
    }
    Ok(reached_fault(places, directory, &owners))
}

/// The least fault of the pointers, phase by phase.
fn pointers_fault<S: BlockStore>(
    alloc: Global,
    places: &[Place],
    directory: &Directory,
    volume: &mut Volume<S>,
    dbd: &Dbd,
) -> Result<Option<Fault>, Refused>
    requires right { IsTrue volume.old.is_sound → HasRightBlocks dbd.now volume.old places.now }
    ensures read { IsRead volume.old result volume.new }
    ensures none { WhereNone volume.old result (AreLinked dbd.now.types (links_of dbd.now.types volume.old)) }
    ensures some { WhereSome volume.old result (λ f. IsFirstFault dbd.now volume.old f) }
    ensures refusal { OnlyDeviceOrMemory result }
{
    let mut forwards = Vec::new(alloc);
    let mut namings = Vec::new(alloc);
    let found = records_fault(&mut forwards, &mut namings, places, directory, volume, dbd)?;
    if found.is_some() {
        return Ok(found);
    }
    let found = predecessors_fault(alloc, &mut namings, places, directory)?;
    if found.is_some() {
        return Ok(found);
    }
    twin_chains_fault(alloc, places, directory, &namings, &forwards, volume, dbd)
}

/// The least fault of the pointers: none where one walk along them sees that all are right, and else what the phases find.
fn links_fault<S: BlockStore>(
    alloc: Global,
    places: &[Place],
    directory: &Directory,
    volume: &mut Volume<S>,
    dbd: &Dbd,
) -> Result<Option<Fault>, Refused>
    requires right { IsTrue volume.old.is_sound → HasRightBlocks dbd.now volume.old places.now }
    ensures read { IsRead volume.old result volume.new }
    ensures none { WhereNone volume.old result (AreLinked dbd.now.types (links_of dbd.now.types volume.old)) }
    ensures some { WhereSome volume.old result (λ f. IsFirstFault dbd.now volume.old f) }
    ensures refusal { OnlyDeviceOrMemory result }
{
    if are_linked(alloc, places, directory, volume, dbd)? {
        return Ok(None);
    }
    pointers_fault(alloc, places, directory, volume, dbd)
}

/// The least fault of the order of a chain's keys; where there is none, its blocks are put in order of their numbers.
fn chain_order_fault<S: BlockStore>(
    chain: &mut Vec<u32>,
    volume: &mut Volume<S>,
    dbd: &Dbd,
) -> Result<Option<Fault>, Refused>
    requires of { IsTrue volume.old.is_sound → IsVolumeOf dbd.now volume.old }
    requires version { IsTrue volume.old.is_sound → (header_of volume.old.image).version ≡ 1 }
    requires formed { IsTrue volume.old.is_sound → ChainIsFormed (root_key_length dbd.now.types) volume.old }
    requires chain { IsTrue volume.old.is_sound → chain.old.items ≡ entry_blocks volume.old }
    requires before { IsTrue volume.old.is_sound → NoneBefore dbd.now volume.old 11 }
    ensures read { IsRead volume.old result volume.new }
    ensures none { WhereNone volume.old result (keys_ascend (entries (root_key_length dbd.now.types) volume.old) ≡ true) }
    ensures sequence { WhereNone volume.old result (IsSequence (root_key_length dbd.now.types) volume.old chain.new.items) }
    ensures some { WhereSome volume.old result (λ f. IsFirstFault dbd.now volume.old f) }
    ensures refusal { OnlyDeviceOrMemory result }
{
    let found = entry_order_fault(chain, volume, dbd)?;
    sort_chain(chain);
    Ok(found)
}

/// The least fault of an index that is one chain, but for what its entries name; where there is none, its blocks are noted in order of their
/// numbers.
fn chain_fault<S: BlockStore>(
    alloc: Global,
    chain: &mut Vec<u32>,
    volume: &mut Volume<S>,
    dbd: &Dbd,
) -> Result<Option<Fault>, Refused>
    requires empty { chain.old.items ≡ [] }
    requires of { IsTrue volume.old.is_sound → IsVolumeOf dbd.now volume.old }
    requires version { IsTrue volume.old.is_sound → (header_of volume.old.image).version ≡ 1 }
    requires before { IsTrue volume.old.is_sound → NoneBefore dbd.now volume.old 8 }
    ensures read { IsRead volume.old result volume.new }
    ensures none { WhereNone volume.old result (HasOrderedIndex (root_key_length dbd.now.types) volume.old) }
    ensures sequence { WhereNone volume.old result (IsSequence (root_key_length dbd.now.types) volume.old chain.new.items) }
    ensures some { WhereSome volume.old result (λ f. IsFirstFault dbd.now volume.old f) }
    ensures refusal { OnlyDeviceOrMemory result }
{
    let mut blocks = Vec::new(alloc);
    let found = block_forms_fault(alloc, &mut blocks, volume, dbd)?;
    if found.is_some() {
        return Ok(found);
    }
    let top = volume.top();
    let size = volume.block_size() as u32;
    let found = twice_named_fault(alloc, &blocks, top, size)?;
    if found.is_some() {
        return Ok(found);
    }
    let found = unreached_block_fault(alloc, chain, &blocks, top, size)?;
    if found.is_some() {
        return Ok(found);
    }
    chain_order_fault(chain, volume, dbd)
}

/// The least fault of an index as its version forms it, but for what its entries name; where there is none, the blocks that bear its entries
/// are noted in order of their numbers.
fn index_blocks_fault<S: BlockStore>(
    alloc: Global,
    sequence: &mut Vec<u32>,
    volume: &mut Volume<S>,
    dbd: &Dbd,
) -> Result<Option<Fault>, Refused>
    requires empty { sequence.old.items ≡ [] }
    requires of { IsTrue volume.old.is_sound → IsVolumeOf dbd.now volume.old }
    requires before { IsTrue volume.old.is_sound → NoneBefore dbd.now volume.old 8 }
    ensures read { IsRead volume.old result volume.new }
    ensures none { WhereNone volume.old result (HasOrderedIndex (root_key_length dbd.now.types) volume.old) }
    ensures sequence { WhereNone volume.old result (IsSequence (root_key_length dbd.now.types) volume.old sequence.new.items) }
    ensures some { WhereSome volume.old result (λ f. IsFirstFault dbd.now volume.old f) }
    ensures refusal { OnlyDeviceOrMemory result }
{
    if volume.version() == 1 {
        return chain_fault(alloc, sequence, volume, dbd);
    }
    levels_fault(alloc, sequence, volume, dbd)
}

/// The least fault of what the entries name, which stand in these blocks.
fn entries_fault<S: BlockStore>(
    alloc: Global,
    places: &[Place],
    directory: &Directory,
    sequence: &[u32],
    volume: &mut Volume<S>,
    dbd: &Dbd,
) -> Result<Option<Fault>, Refused>
    requires right { IsTrue volume.old.is_sound → HasRightBlocks dbd.now volume.old places.now }
    requires sequence { IsTrue volume.old.is_sound → IsSequence (root_key_length dbd.now.types) volume.old sequence.now }
    requires before { IsTrue volume.old.is_sound → NoneBefore dbd.now volume.old 12 }
    ensures read { IsRead volume.old result volume.new }
    ensures none { WhereNone volume.old result (NamesAreRight dbd.now volume.old) }
    ensures some { WhereSome volume.old result (λ f. IsFirstFault dbd.now volume.old f) }
    ensures refusal { OnlyDeviceOrMemory result }
{
    let mut named = Vec::new(alloc);
    let found = wrong_entry_fault(alloc, &mut named, sequence, places, directory, volume, dbd)?;
    if found.is_some() {
        return Ok(found);
    }
    Ok(unnamed_root_fault(&mut named, places))
}

/// The least fault of the index.
pub fn index_fault<S: BlockStore>(
    alloc: Global,
    places: &[Place],
    directory: &Directory,
    volume: &mut Volume<S>,
    dbd: &Dbd,
) -> Result<Option<Fault>, Refused>
    requires right { IsTrue volume.old.is_sound → HasRightBlocks dbd.now volume.old places.now }
    requires before { IsTrue volume.old.is_sound → NoneBefore dbd.now volume.old 8 }
    ensures read { IsRead volume.old result volume.new }
    ensures none { WhereNone volume.old result (HasRightIndex dbd.now volume.old) }
    ensures some { WhereSome volume.old result (λ f. IsFirstFault dbd.now volume.old f) }
    ensures refusal { OnlyDeviceOrMemory result }
{
    let mut sequence = Vec::new(alloc);
    let found = index_blocks_fault(alloc, &mut sequence, volume, dbd)?;
    if found.is_some() {
        return Ok(found);
    }
    entries_fault(alloc, places, directory, &sequence, volume, dbd)
}

/// The least fault of a volume; where there is none, its segments are noted.
pub fn first_fault<S: BlockStore>(
    alloc: Global,
    places: &mut Vec<Place>,
    volume: &mut Volume<S>,
    dbd: &Dbd,
) -> Result<Option<Fault>, Refused>
    requires empty { places.old.items ≡ [] }
    requires size { (volume.old.size ≡ dbd.now.block_size) × (volume.old.sizes ≡ stored_sizes dbd.now.types) }
    ensures read { IsRead volume.old result volume.new }
    ensures none { WhereNone volume.old result (IsFoundRight dbd.now volume.old places.new.items) }
    ensures some { WhereSome volume.old result (λ f. IsFirstFault dbd.now volume.old f) }
    ensures fit { IsTrue (well_formed dbd.now.block_size dbd.now.frspc dbd.now.types) }
    ensures refusal { OnlyDeviceOrMemory result }
{
    let _types = dbd.types();
    let found = image_fault(alloc, places, volume, dbd)?;
    if found.is_some() {
        return Ok(found);
    }
    let directory = Directory::of(alloc, places)?;
    let found = links_fault(alloc, places, &directory, volume, dbd)?;
    if found.is_some() {
        return Ok(found);
    }
    index_fault(alloc, places, &directory, volume, dbd)
}
