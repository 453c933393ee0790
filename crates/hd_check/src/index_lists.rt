//! The faults of the first phase of the index that finds any. It is judged by itself: the pointers may have faults.
ghost use Rattle.std.specs.Prelude.{◌≡◌, ◌≢◌, [], true, IsTrue, IfOk, IfNone, IfSome};
ghost use Rattle.hd_dbd.specs.Refusals.{OnlyDeviceOrMemory};
ghost use Rattle.hd_volume.specs.Headers.{header_of};
ghost use Rattle.hd_volume.specs.Calls.{IsRead};
ghost use Rattle.hd_volume.specs.Entries.{entry_blocks, entries};
ghost use Rattle.hd_volume.specs.Indexes.{root_key_length, keys_ascend};
ghost use Rattle.hd_index_blocks.specs.Faultless.{AreFormsRight, AreNamedOnce, AreAllReached};
ghost use Rattle.hd_image.specs.Records.{IsVolumeOf};
ghost use Rattle.hd_image.specs.Right.{ChainIsFormed, LevelsAreInOrder};
ghost use Rattle.hd_check_blocks.specs.Finding.{WhereNone, WhereSome};
ghost use Rattle.hd_check_index.specs.IndexPhases.{IsSequence};
ghost use Rattle.hd_check_index.specs.Tables.{AreIndexBlocks};
ghost use Rattle.hd_check_index.specs.Rows.{AreRows};
ghost use Rattle.hd_check.specs.Joining.{HasRightBlocks, NamesAreRight, HasOrderedIndex, HasOrderedLevels, HasRightIndex};
ghost use Rattle.hd_check.specs.Lists.{NoneOfIndexBefore, AreIndexFaults};

use crate::levels::note_sequence;
use hd_check_blocks::{Directory, Fault, Place};
use hd_check_index::{
    NotedBlock, Standing, block_forms_fault, block_forms_faults, entry_order_fault,
    entry_order_faults, note_blocks, rows_down, set_form_faults, set_name_faults, set_order_faults,
    set_reach_faults, sort_chain, twice_named_fault, twice_named_faults, unnamed_root_faults,
    unreached_block_fault, unreached_block_faults, wrong_entry_fault, wrong_entry_faults,
};
use hd_dbd::{Dbd, Refused};
use hd_index_blocks::root_key_length;
use hd_stores::BlockStore;
use hd_volume::Volume;
use std::alloc::Global;

/// The faults, if there are any.
fn listed(faults: Vec<Fault>) -> Option<Vec<Fault>>
    ensures none { IfNone result (faults.items ≡ []) }
    ensures some { IfSome result (λ l. (l.items ≡ faults.items) × (l.items ≢ [])) }
{
    if faults.is_empty() {
        return None;
    }
    Some(faults)
}

/// The faults of the order of a chain's keys; where there is none, its blocks are put in order of their numbers.
fn chain_order_faults<S: BlockStore>(
    alloc: Global,
    chain: &mut Vec<u32>,
    volume: &mut Volume<S>,
    dbd: &Dbd,
) -> Result<Option<Vec<Fault>>, Refused>
    requires of { IsTrue volume.old.is_sound → IsVolumeOf dbd.now volume.old }
    requires version { IsTrue volume.old.is_sound → (header_of volume.old.image).version ≡ 1 }
    requires formed { IsTrue volume.old.is_sound → ChainIsFormed (root_key_length dbd.now.types) volume.old }
    requires chain { IsTrue volume.old.is_sound → chain.old.items ≡ entry_blocks volume.old }
    requires before { IsTrue volume.old.is_sound → NoneOfIndexBefore dbd.now volume.old 11 }
    ensures read { IsRead volume.old result volume.new }
    ensures none { WhereNone volume.old result (keys_ascend (entries (root_key_length dbd.now.types) volume.old) ≡ true) }
    ensures sequence { WhereNone volume.old result (IsSequence (root_key_length dbd.now.types) volume.old chain.new.items) }
    ensures some { WhereSome volume.old result (λ l. AreIndexFaults dbd.now volume.old l.items × (l.items ≢ [])) }
    ensures refusal { OnlyDeviceOrMemory result }
{
    let found = entry_order_fault(chain, volume, dbd)?;
    if found.is_some() {
        let faults = entry_order_faults(alloc, chain, volume, dbd)?;
        return Ok(Some(faults));
    }
    sort_chain(chain);
    Ok(None)
}

/// The faults of an index that is one chain, but for what its entries name; where there is none, its blocks are noted in order of their
/// numbers.
fn chain_faults<S: BlockStore>(
    alloc: Global,
    chain: &mut Vec<u32>,
    volume: &mut Volume<S>,
    dbd: &Dbd,
) -> Result<Option<Vec<Fault>>, Refused>
    requires empty { chain.old.items ≡ [] }
    requires of { IsTrue volume.old.is_sound → IsVolumeOf dbd.now volume.old }
    requires version { IsTrue volume.old.is_sound → (header_of volume.old.image).version ≡ 1 }
    ensures read { IsRead volume.old result volume.new }
    ensures none { WhereNone volume.old result (HasOrderedIndex (root_key_length dbd.now.types) volume.old) }
    ensures sequence { WhereNone volume.old result (IsSequence (root_key_length dbd.now.types) volume.old chain.new.items) }
    ensures some { WhereSome volume.old result (λ l. AreIndexFaults dbd.now volume.old l.items × (l.items ≢ [])) }
    ensures refusal { OnlyDeviceOrMemory result }
{
    let mut blocks = Vec::new(alloc);
    let found = block_forms_fault(alloc, &mut blocks, volume, dbd)?;
    if found.is_some() {
        let faults = block_forms_faults(alloc, volume, dbd)?;
        return Ok(Some(faults));
    }
    let top = volume.top();
    let size = volume.block_size() as u32;
    let found = twice_named_fault(alloc, &blocks, top, size)?;
    if found.is_some() {
        let faults = twice_named_faults(alloc, &blocks, top, size)?;
        return Ok(Some(faults));
    }
    let found = unreached_block_fault(alloc, chain, &blocks, top, size)?;
    if found.is_some() {
        let faults = unreached_block_faults(alloc, &blocks, top, size)?;
        return Ok(Some(faults));
    }
    chain_order_faults(alloc, chain, volume, dbd)
}

/// The faults of top and height and of the form of the blocks of an index set, which are noted.
fn level_forms_faults<S: BlockStore>(
    alloc: Global,
    blocks: &mut Vec<NotedBlock>,
    volume: &mut Volume<S>,
    dbd: &Dbd,
) -> Result<Option<Vec<Fault>>, Refused>
    requires empty { blocks.old.items ≡ [] }
    requires of { IsTrue volume.old.is_sound → IsVolumeOf dbd.now volume.old }
    requires later { IsTrue volume.old.is_sound → (header_of volume.old.image).version ≢ 1 }
    ensures read { IsRead volume.old result volume.new }
    ensures none { WhereNone volume.old result (AreFormsRight (root_key_length dbd.now.types) volume.old) }
    ensures blocks { WhereNone volume.old result (AreIndexBlocks volume.old blocks.new.items) }
    ensures some { WhereSome volume.old result (λ l. AreIndexFaults dbd.now volume.old l.items × (l.items ≢ [])) }
    ensures refusal { OnlyDeviceOrMemory result }
{
    note_blocks(blocks, volume)?;
    let faults = set_form_faults(alloc, blocks, volume, dbd)?;
    Ok(listed(faults))
}

/// The faults of blocks that are named twice.
fn level_names_faults<S: BlockStore>(
    alloc: Global,
    blocks: &[NotedBlock],
    volume: &mut Volume<S>,
    dbd: &Dbd,
) -> Result<Option<Vec<Fault>>, Refused>
    requires of { IsTrue volume.old.is_sound → IsVolumeOf dbd.now volume.old }
    requires later { IsTrue volume.old.is_sound → (header_of volume.old.image).version ≢ 1 }
    requires blocks { IsTrue volume.old.is_sound → AreIndexBlocks volume.old blocks.now }
    requires forms { IsTrue volume.old.is_sound → AreFormsRight (root_key_length dbd.now.types) volume.old }
    ensures read { IsRead volume.old result volume.new }
    ensures none { WhereNone volume.old result (AreNamedOnce (root_key_length dbd.now.types) volume.old) }
    ensures some { WhereSome volume.old result (λ l. AreIndexFaults dbd.now volume.old l.items × (l.items ≢ [])) }
    ensures refusal { OnlyDeviceOrMemory result }
{
    let faults = set_name_faults(alloc, blocks, volume, dbd)?;
    Ok(listed(faults))
}

/// The faults of blocks that are not reached; where there is none, the rows are noted from the top down.
fn level_reach_faults<S: BlockStore>(
    alloc: Global,
    rows: &mut Vec<Standing>,
    blocks: &[NotedBlock],
    volume: &mut Volume<S>,
    dbd: &Dbd,
) -> Result<Option<Vec<Fault>>, Refused>
    requires empty { rows.old.items ≡ [] }
    requires of { IsTrue volume.old.is_sound → IsVolumeOf dbd.now volume.old }
    requires later { IsTrue volume.old.is_sound → (header_of volume.old.image).version ≢ 1 }
    requires blocks { IsTrue volume.old.is_sound → AreIndexBlocks volume.old blocks.now }
    requires forms { IsTrue volume.old.is_sound → AreFormsRight (root_key_length dbd.now.types) volume.old }
    requires before { IsTrue volume.old.is_sound → NoneOfIndexBefore dbd.now volume.old 10 }
    ensures read { IsRead volume.old result volume.new }
    ensures none { WhereNone volume.old result (AreAllReached (root_key_length dbd.now.types) volume.old) }
    ensures rows { WhereNone volume.old result (AreRows (root_key_length dbd.now.types) volume.old rows.new.items) }
    ensures some { WhereSome volume.old result (λ l. AreIndexFaults dbd.now volume.old l.items × (l.items ≢ [])) }
    ensures refusal { OnlyDeviceOrMemory result }
{
    let top = volume.top();
    let height = volume.height();
    let size = volume.block_size() as u32;
    rows_down(rows, volume, root_key_length(dbd), top, height)?;
    let faults = set_reach_faults(alloc, blocks, rows, size)?;
    Ok(listed(faults))
}

/// The faults of the order of the blocks and of the keys on the levels.
fn level_order_faults<S: BlockStore>(
    alloc: Global,
    blocks: &[NotedBlock],
    rows: &[Standing],
    volume: &mut Volume<S>,
    dbd: &Dbd,
) -> Result<Option<Vec<Fault>>, Refused>
    requires of { IsTrue volume.old.is_sound → IsVolumeOf dbd.now volume.old }
    requires later { IsTrue volume.old.is_sound → (header_of volume.old.image).version ≢ 1 }
    requires blocks { IsTrue volume.old.is_sound → AreIndexBlocks volume.old blocks.now }
    requires forms { IsTrue volume.old.is_sound → AreFormsRight (root_key_length dbd.now.types) volume.old }
    requires rows { IsTrue volume.old.is_sound → AreRows (root_key_length dbd.now.types) volume.old rows.now }
    requires before { IsTrue volume.old.is_sound → NoneOfIndexBefore dbd.now volume.old 11 }
    ensures read { IsRead volume.old result volume.new }
    ensures none { WhereNone volume.old result (LevelsAreInOrder (root_key_length dbd.now.types) volume.old) }
    ensures some { WhereSome volume.old result (λ l. AreIndexFaults dbd.now volume.old l.items × (l.items ≢ [])) }
    ensures refusal { OnlyDeviceOrMemory result }
{
    let faults = set_order_faults(alloc, blocks, rows, volume, dbd)?;
    Ok(listed(faults))
}

/// The faults of which blocks are named and reached, or of their order; where there is none, the rows are right.
fn level_rows_faults<S: BlockStore>(
    alloc: Global,
    blocks: &[NotedBlock],
    volume: &mut Volume<S>,
    dbd: &Dbd,
) -> Result<Option<Vec<Fault>>, Refused>
    requires of { IsTrue volume.old.is_sound → IsVolumeOf dbd.now volume.old }
    requires later { IsTrue volume.old.is_sound → (header_of volume.old.image).version ≢ 1 }
    requires blocks { IsTrue volume.old.is_sound → AreIndexBlocks volume.old blocks.now }
    requires forms { IsTrue volume.old.is_sound → AreFormsRight (root_key_length dbd.now.types) volume.old }
    ensures read { IsRead volume.old result volume.new }
    ensures none { WhereNone volume.old result (HasOrderedLevels (root_key_length dbd.now.types) volume.old) }
    ensures some { WhereSome volume.old result (λ l. AreIndexFaults dbd.now volume.old l.items × (l.items ≢ [])) }
    ensures refusal { OnlyDeviceOrMemory result }
{
    let found = level_names_faults(alloc, blocks, volume, dbd)?;
    if found.is_some() {
        return Ok(found);
    }
    let mut rows = Vec::new(alloc);
    let found = level_reach_faults(alloc, &mut rows, blocks, volume, dbd)?;
    if found.is_some() {
        return Ok(found);
    }
    level_order_faults(alloc, blocks, &rows, volume, dbd)
}

/// The faults of an index set, but for what its entries name; where there is none, the blocks of its sequence set are noted in order of
/// their numbers.
fn levels_faults<S: BlockStore>(
    alloc: Global,
    sequence: &mut Vec<u32>,
    volume: &mut Volume<S>,
    dbd: &Dbd,
) -> Result<Option<Vec<Fault>>, Refused>
    requires empty { sequence.old.items ≡ [] }
    requires of { IsTrue volume.old.is_sound → IsVolumeOf dbd.now volume.old }
    requires later { IsTrue volume.old.is_sound → (header_of volume.old.image).version ≢ 1 }
    ensures read { IsRead volume.old result volume.new }
    ensures none { WhereNone volume.old result (HasOrderedIndex (root_key_length dbd.now.types) volume.old) }
    ensures sequence { WhereNone volume.old result (IsSequence (root_key_length dbd.now.types) volume.old sequence.new.items) }
    ensures some { WhereSome volume.old result (λ l. AreIndexFaults dbd.now volume.old l.items × (l.items ≢ [])) }
    ensures refusal { OnlyDeviceOrMemory result }
{
    let mut blocks = Vec::new(alloc);
    let found = level_forms_faults(alloc, &mut blocks, volume, dbd)?;
    if found.is_some() {
        return Ok(found);
    }
    let found = level_rows_faults(alloc, &blocks, volume, dbd)?;
    if found.is_some() {
        return Ok(found);
    }
    note_sequence(sequence, &blocks)?;
    Ok(None)
}

/// The faults of an index as its version forms it, but for what its entries name; where there is none, the blocks that bear its entries
/// are noted in order of their numbers.
fn index_blocks_faults<S: BlockStore>(
    alloc: Global,
    sequence: &mut Vec<u32>,
    volume: &mut Volume<S>,
    dbd: &Dbd,
) -> Result<Option<Vec<Fault>>, Refused>
    requires empty { sequence.old.items ≡ [] }
    requires of { IsTrue volume.old.is_sound → IsVolumeOf dbd.now volume.old }
    ensures read { IsRead volume.old result volume.new }
    ensures none { WhereNone volume.old result (HasOrderedIndex (root_key_length dbd.now.types) volume.old) }
    ensures sequence { WhereNone volume.old result (IsSequence (root_key_length dbd.now.types) volume.old sequence.new.items) }
    ensures some { WhereSome volume.old result (λ l. AreIndexFaults dbd.now volume.old l.items × (l.items ≢ [])) }
    ensures refusal { OnlyDeviceOrMemory result }
{
    if volume.version() == 1 {
        return chain_faults(alloc, sequence, volume, dbd);
    }
    levels_faults(alloc, sequence, volume, dbd)
}

/// The faults of what the entries name, which stand in these blocks, or of roots that they do not name.
fn entries_faults<S: BlockStore>(
    alloc: Global,
    places: &[Place],
    directory: &Directory,
    sequence: &[u32],
    volume: &mut Volume<S>,
    dbd: &Dbd,
) -> Result<Vec<Fault>, Refused>
    requires right { IsTrue volume.old.is_sound → HasRightBlocks dbd.now volume.old places.now }
    requires sequence { IsTrue volume.old.is_sound → IsSequence (root_key_length dbd.now.types) volume.old sequence.now }
    requires before { IsTrue volume.old.is_sound → NoneOfIndexBefore dbd.now volume.old 12 }
    ensures read { IsRead volume.old result volume.new }
    ensures faults { IfOk result (λ faults. IsTrue volume.old.is_sound → AreIndexFaults dbd.now volume.old faults.items) }
    ensures none { IfOk result (λ faults. IsTrue volume.old.is_sound → faults.items ≡ [] → NamesAreRight dbd.now volume.old) }
    ensures refusal { OnlyDeviceOrMemory result }
{
    let mut named = Vec::new(alloc);
    let found = wrong_entry_fault(alloc, &mut named, sequence, places, directory, volume, dbd)?;
    if found.is_some() {
        return wrong_entry_faults(alloc, sequence, places, directory, volume, dbd);
    }
    let faults = unnamed_root_faults(alloc, &mut named, places)?;
    Ok(faults)
}

/// The faults of the first phase of the index that finds any, whatever is wrong with the pointers.
pub fn index_faults<S: BlockStore>(
    alloc: Global,
    places: &[Place],
    directory: &Directory,
    volume: &mut Volume<S>,
    dbd: &Dbd,
) -> Result<Vec<Fault>, Refused>
    requires right { IsTrue volume.old.is_sound → HasRightBlocks dbd.now volume.old places.now }
    ensures read { IsRead volume.old result volume.new }
    ensures faults { IfOk result (λ faults. IsTrue volume.old.is_sound → AreIndexFaults dbd.now volume.old faults.items) }
    ensures none { IfOk result (λ faults. IsTrue volume.old.is_sound → faults.items ≡ [] → HasRightIndex dbd.now volume.old) }
    ensures refusal { OnlyDeviceOrMemory result }
{
    let mut sequence = Vec::new(alloc);
    match index_blocks_faults(alloc, &mut sequence, volume, dbd)? {
        None => entries_faults(alloc, places, directory, &sequence, volume, dbd),
        Some(faults) => Ok(faults),
    }
}
