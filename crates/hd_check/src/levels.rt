//! The phases that judge an index set: each answers the least fault of the volume, where it is one of its lines.
ghost use Rattle.std.specs.Prelude.{◌≡◌, ◌≢◌, ℕ, ◌*◌, ◌<◌, ◌≤◌, [], ◌∷◌, ◌++◌, true, false, Some, None, IsTrue, IfNone, IfSome, OnOk};
ghost use Rattle.hd_dbd.specs.Hierarchy.{Database};
ghost use Rattle.hd_dbd.specs.Refusals.{OnlyMemory, OnlyDeviceOrMemory};
ghost use Rattle.hd_volume.specs.Headers.{header_of};
ghost use Rattle.hd_volume.specs.Volumes.{VolumeState};
ghost use Rattle.hd_volume.specs.Calls.{IsRead};
ghost use Rattle.hd_volume.specs.Indexes.{root_key_length};
ghost use Rattle.hd_index_blocks.specs.Faultless.{AreFormsRight, AreNamedOnce, AreAllReached};
ghost use Rattle.hd_image.specs.Records.{IsVolumeOf};
ghost use Rattle.hd_image.specs.Right.{SetIsFormed, LevelsAreInOrder};
ghost use Rattle.hd_check_blocks.specs.Phases.{IsLeastOf};
ghost use Rattle.hd_check_blocks.specs.Finding.{WhereNone, WhereSome};
ghost use Rattle.hd_check_index.specs.IndexPhases.{IsSequence};
ghost use Rattle.hd_check_index.specs.Tables.{AreIndexBlocks};
ghost use Rattle.hd_check_index.specs.Rows.{AreRows};
ghost use Rattle.hd_check.specs.Joining.{NoneBefore, IsFirstFault, OfOrdered, HasOrderedIndex, HasOrderedLevels};

use hd_check_blocks::Fault;
use hd_check_index::{
    NotedBlock, Standing, block_address, entry_out_of_order, is_top_right, note_blocks, rows_down,
    twice_named, unreached, wrong_form, wrong_next,
};
use hd_dbd::{Dbd, Refused};
use hd_image::Line;
use hd_index_blocks::root_key_length;
use hd_stores::BlockStore;
use hd_volume::Volume;
use std::alloc::Global;

/// The fault of a line at the block that was found, if one was.
fn fault_at(line: Line, found: Option<u32>, size: u32) -> Option<Fault>
    ensures none { IfNone found (result ≡ None) }
    ensures some { IfSome found (λ n. n * size < 4294967296 → result ≡ Some (record { line = line; address = n * size; other = 0 })) }
{
    match found {
        None => None,
        Some(n) => Some(Fault::at(line, block_address(n, size), 0)),
    }
}

/// The least fault of top and height and of the form of the blocks; where there is none, the blocks are noted.
fn level_forms_fault<S: BlockStore>(
    blocks: &mut Vec<NotedBlock>,
    volume: &mut Volume<S>,
    dbd: &Dbd,
) -> Result<Option<Fault>, Refused>
    requires empty { blocks.old.items ≡ [] }
    requires of { IsTrue volume.old.is_sound → IsVolumeOf dbd.now volume.old }
    requires later { IsTrue volume.old.is_sound → (header_of volume.old.image).version ≢ 1 }
    requires before { IsTrue volume.old.is_sound → NoneBefore dbd.now volume.old 8 }
    ensures read { IsRead volume.old result volume.new }
    ensures none { WhereNone volume.old result (AreFormsRight (root_key_length dbd.now.types) volume.old) }
    ensures blocks { WhereNone volume.old result (AreIndexBlocks volume.old blocks.new.items) }
    ensures some { WhereSome volume.old result (λ f. IsFirstFault dbd.now volume.old f) }
    ensures refusal { OnlyDeviceOrMemory result }
{
    note_blocks(blocks, volume)?;
    forms_fault(blocks, volume, dbd)
}

/// The least fault of top and height and of the form of the blocks, which are noted.
fn forms_fault<S: BlockStore>(
    blocks: &[NotedBlock],
    volume: &mut Volume<S>,
    dbd: &Dbd,
) -> Result<Option<Fault>, Refused>
    requires of { IsTrue volume.old.is_sound → IsVolumeOf dbd.now volume.old }
    requires later { IsTrue volume.old.is_sound → (header_of volume.old.image).version ≢ 1 }
    requires blocks { IsTrue volume.old.is_sound → AreIndexBlocks volume.old blocks.now }
    requires before { IsTrue volume.old.is_sound → NoneBefore dbd.now volume.old 8 }
    ensures read { IsRead volume.old result volume.new }
    ensures none { WhereNone volume.old result (AreFormsRight (root_key_length dbd.now.types) volume.old) }
    ensures some { WhereSome volume.old result (λ f. IsFirstFault dbd.now volume.old f) }
    ensures refusal { OnlyDeviceOrMemory result }
{
    let top = volume.top();
    let height = volume.height();
    if !is_top_right(blocks, top, height) {
        return Ok(Some(Fault::at(Line::WrongTop, 0, top)));
    }
    let size = volume.block_size() as u32;
    let found = wrong_form(volume, blocks, root_key_length(dbd), height)?;
    Ok(fault_at(Line::WrongForm, found, size))
}

/// The least fault of a block that is named twice.
fn level_names_fault<S: BlockStore>(
    alloc: Global,
    blocks: &[NotedBlock],
    volume: &mut Volume<S>,
    dbd: &Dbd,
) -> Result<Option<Fault>, Refused>
    requires of { IsTrue volume.old.is_sound → IsVolumeOf dbd.now volume.old }
    requires later { IsTrue volume.old.is_sound → (header_of volume.old.image).version ≢ 1 }
    requires blocks { IsTrue volume.old.is_sound → AreIndexBlocks volume.old blocks.now }
    requires forms { IsTrue volume.old.is_sound → AreFormsRight (root_key_length dbd.now.types) volume.old }
    requires before { IsTrue volume.old.is_sound → NoneBefore dbd.now volume.old 9 }
    ensures read { IsRead volume.old result volume.new }
    ensures none { WhereNone volume.old result (AreNamedOnce (root_key_length dbd.now.types) volume.old) }
    ensures some { WhereSome volume.old result (λ f. IsFirstFault dbd.now volume.old f) }
    ensures refusal { OnlyDeviceOrMemory result }
{
    let top = volume.top();
    let size = volume.block_size() as u32;
    let found = twice_named(alloc, volume, blocks, root_key_length(dbd), top)?;
    Ok(fault_at(Line::NamedTwice, found, size))
}

/// The least fault of a block that is not reached; where there is none, the rows are noted from the top down.
fn level_reach_fault<S: BlockStore>(
    alloc: Global,
    rows: &mut Vec<Standing>,
    blocks: &[NotedBlock],
    volume: &mut Volume<S>,
    dbd: &Dbd,
) -> Result<Option<Fault>, Refused>
    requires empty { rows.old.items ≡ [] }
    requires of { IsTrue volume.old.is_sound → IsVolumeOf dbd.now volume.old }
    requires later { IsTrue volume.old.is_sound → (header_of volume.old.image).version ≢ 1 }
    requires blocks { IsTrue volume.old.is_sound → AreIndexBlocks volume.old blocks.now }
    requires forms { IsTrue volume.old.is_sound → AreFormsRight (root_key_length dbd.now.types) volume.old }
    requires before { IsTrue volume.old.is_sound → NoneBefore dbd.now volume.old 10 }
    ensures read { IsRead volume.old result volume.new }
    ensures none { WhereNone volume.old result (AreAllReached (root_key_length dbd.now.types) volume.old) }
    ensures rows { WhereNone volume.old result (AreRows (root_key_length dbd.now.types) volume.old rows.new.items) }
    ensures some { WhereSome volume.old result (λ f. IsFirstFault dbd.now volume.old f) }
    ensures refusal { OnlyDeviceOrMemory result }
{
    let top = volume.top();
    let height = volume.height();
    let size = volume.block_size() as u32;
    rows_down(rows, volume, root_key_length(dbd), top, height)?;
    let found = unreached(alloc, blocks, rows)?;
    Ok(fault_at(Line::UnreachedBlock, found, size))
}

/// A block stands before another, or no other was found, or it is the same.
fn is_first(n: u32, other: Option<(u32, u32)>) -> bool
    ensures none { IfNone other (result ≡ true) }
    ensures some { IfSome other (λ at. (result ≡ true → n ≤ at.0) × (result ≡ false → at.0 < n)) }
{
    match other {
        None => true,
        Some((m, _)) => n <= m,
    }
}

/// The fault of an entry out of order that was found, if one was.
fn order_fault(found: Option<(u32, u32)>, size: u32) -> Option<Fault>
    ensures none { IfNone found (result ≡ None) }
    ensures some { IfSome found (λ at. at.0 * size < 4294967296 → result ≡ Some (record { line = Line.EntryOutOfOrder; address = at.0 * size; other = at.1 })) }
{
    match found {
        None => None,
        Some((n, other)) => Some(Fault::at(Line::EntryOutOfOrder, block_address(n, size), other)),
    }
}

/// Of a wrong next block and an entry out of order, each the first of its line, the fault that comes before; at one block it is the next
/// block.
fn first_of(next: Option<u32>, order: Option<(u32, u32)>, size: u32) -> Option<Fault>
    ensures none { (d : Database) (v : VolumeState) → OfOrdered d v size next order (IfNone result (LevelsAreInOrder (root_key_length d.types) v)) }
    ensures some { (d : Database) (v : VolumeState) → OfOrdered d v size next order (IfSome result (λ f. IsLeastOf d v 11 f)) }
{
    match next {
        None => order_fault(order, size),
        Some(n) => {
            if is_first(n, order) {
                return Some(Fault::at(Line::WrongNext, block_address(n, size), 0));
            }
            order_fault(order, size)
        }
    }
}

/// The least fault of the order of the blocks and of the keys on the levels.
fn level_order_fault<S: BlockStore>(
    alloc: Global,
    blocks: &[NotedBlock],
    rows: &[Standing],
    volume: &mut Volume<S>,
    dbd: &Dbd,
) -> Result<Option<Fault>, Refused>
    requires of { IsTrue volume.old.is_sound → IsVolumeOf dbd.now volume.old }
    requires later { IsTrue volume.old.is_sound → (header_of volume.old.image).version ≢ 1 }
    requires blocks { IsTrue volume.old.is_sound → AreIndexBlocks volume.old blocks.now }
    requires forms { IsTrue volume.old.is_sound → AreFormsRight (root_key_length dbd.now.types) volume.old }
    requires rows { IsTrue volume.old.is_sound → AreRows (root_key_length dbd.now.types) volume.old rows.now }
    requires before { IsTrue volume.old.is_sound → NoneBefore dbd.now volume.old 11 }
    ensures read { IsRead volume.old result volume.new }
    ensures none { WhereNone volume.old result (LevelsAreInOrder (root_key_length dbd.now.types) volume.old) }
    ensures some { WhereSome volume.old result (λ f. IsFirstFault dbd.now volume.old f) }
    ensures refusal { OnlyDeviceOrMemory result }
{
    let size = volume.block_size() as u32;
    let next = wrong_next(blocks, rows);
    let order = entry_out_of_order(alloc, volume, rows, root_key_length(dbd))?;
    Ok(first_of(next, order, size))
}

/// The least fault of which blocks are named and reached, and of their order; where there is none, the rows are right.
fn level_rows_fault<S: BlockStore>(
    alloc: Global,
    blocks: &[NotedBlock],
    volume: &mut Volume<S>,
    dbd: &Dbd,
) -> Result<Option<Fault>, Refused>
    requires of { IsTrue volume.old.is_sound → IsVolumeOf dbd.now volume.old }
    requires later { IsTrue volume.old.is_sound → (header_of volume.old.image).version ≢ 1 }
    requires blocks { IsTrue volume.old.is_sound → AreIndexBlocks volume.old blocks.now }
    requires forms { IsTrue volume.old.is_sound → AreFormsRight (root_key_length dbd.now.types) volume.old }
    requires before { IsTrue volume.old.is_sound → NoneBefore dbd.now volume.old 9 }
    ensures read { IsRead volume.old result volume.new }
    ensures none { WhereNone volume.old result (HasOrderedLevels (root_key_length dbd.now.types) volume.old) }
    ensures some { WhereSome volume.old result (λ f. IsFirstFault dbd.now volume.old f) }
    ensures refusal { OnlyDeviceOrMemory result }
{
    let found = level_names_fault(alloc, blocks, volume, dbd)?;
    if found.is_some() {
        return Ok(found);
    }
    let mut rows = Vec::new(alloc);
    let found = level_reach_fault(alloc, &mut rows, blocks, volume, dbd)?;
    if found.is_some() {
        return Ok(found);
    }
    level_order_fault(alloc, blocks, &rows, volume, dbd)
}

/// Notes a block behind others, if it is of level 0.
fn note_low(sequence: &mut Vec<u32>, block: NotedBlock) -> Result<(), Refused>
    ensures low { OnOk result (block.level ≡ 0 → sequence.new.items ≡ sequence.old.items ++ (block.number ∷ [])) }
    ensures high { OnOk result (block.level ≢ 0 → sequence.new.items ≡ sequence.old.items) }
    ensures refusal { OnlyMemory result }
{
    if block.level == 0 {
        sequence.push(block.number).map_err(|_| Refused::Memory)?;
    }
    Ok(())
}

/// Notes the blocks of the sequence set, in order of their numbers.
pub fn note_sequence(sequence: &mut Vec<u32>, blocks: &[NotedBlock]) -> Result<(), Refused>
    requires empty { sequence.old.items ≡ [] }
    ensures value { OnOk result ((k : ℕ) (v : VolumeState) → AreIndexBlocks v blocks.now → (header_of v.image).version ≢ 1 → SetIsFormed k v → IsSequence k v sequence.new.items) }
    ensures refusal { OnlyMemory result }
{
    for block in blocks {
        note_low(sequence, *block)?;
    }
    Ok(())
}

/// The least fault of an index set, but for what its entries name; where there is none, the blocks of its sequence set are noted in order of
/// their numbers.
pub fn levels_fault<S: BlockStore>(
    alloc: Global,
    sequence: &mut Vec<u32>,
    volume: &mut Volume<S>,
    dbd: &Dbd,
) -> Result<Option<Fault>, Refused>
    requires empty { sequence.old.items ≡ [] }
    requires of { IsTrue volume.old.is_sound → IsVolumeOf dbd.now volume.old }
    requires later { IsTrue volume.old.is_sound → (header_of volume.old.image).version ≢ 1 }
    requires before { IsTrue volume.old.is_sound → NoneBefore dbd.now volume.old 8 }
    ensures read { IsRead volume.old result volume.new }
    ensures none { WhereNone volume.old result (HasOrderedIndex (root_key_length dbd.now.types) volume.old) }
    ensures sequence { WhereNone volume.old result (IsSequence (root_key_length dbd.now.types) volume.old sequence.new.items) }
    ensures some { WhereSome volume.old result (λ f. IsFirstFault dbd.now volume.old f) }
    ensures refusal { OnlyDeviceOrMemory result }
{
    let mut blocks = Vec::new(alloc);
    let found = level_forms_fault(&mut blocks, volume, dbd)?;
    if found.is_some() {
        return Ok(found);
    }
    let found = level_rows_fault(alloc, &blocks, volume, dbd)?;
    if found.is_some() {
        return Ok(found);
    }
    note_sequence(sequence, &blocks)?;
    Ok(None)
}
