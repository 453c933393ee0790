//! Phase 8: top and height of the index, and the form of its blocks.
ghost use Rattle.std.specs.Prelude.{◌≡◌, ◌≤◌, ◌<◌, ℕ, [], length, true, false, IsTrue, IfOk, IfNone, IfSome, OnOk};
ghost use Rattle.hd_bytes.specs.Blocks.{HasBlock};
ghost use Rattle.hd_dbd.specs.Refusals.{OnlyMemory, OnlyDeviceOrMemory};
ghost use Rattle.hd_volume.specs.Headers.{HasHeader, header_of};
ghost use Rattle.hd_volume.specs.Volumes.{VolumeState, IsKind};
ghost use Rattle.hd_volume.specs.Indexes.{root_key_length, entry_room};
ghost use Rattle.hd_volume.specs.Calls.{IsRead};
ghost use Rattle.hd_volume.specs.declared.load.TheConstants.{MOST_BLOCKS};
ghost use Rattle.hd_image.specs.Records.{IsVolumeOf};
ghost use Rattle.hd_image.specs.IndexFaults.{IsOfLevel, IsWrongTop};
ghost use Rattle.hd_check_blocks.specs.Phases.{IsLeastOf};
ghost use Rattle.hd_check_blocks.specs.Listing.{AreStanding};
ghost use Rattle.hd_check_index.specs.Judging.{IfSized};
ghost use Rattle.hd_check_index.specs.IndexPhases.{AreIndexBlocks, AreForms, IsNotedBlock, IsTopRight, IsRightIndexBlock, IsFirstWrong, IsIndexRight, IfHeaded, IfTabled, IfOwnForm, OfFormed};
ghost use Rattle.hd_check_blocks.specs.Finding.{WhereNone, WhereSome};

use crate::listed::{fault_unless, top_fault};
use crate::noted_blocks::{ChainedBlock, Form, block_address, position_of};
use hd_check_blocks::{Fault, list_fault};
use hd_dbd::{Dbd, Refused};
use hd_image::Line;
use hd_index_blocks::{FIRST, IndexBlock, entry_room, root_key_length};
use hd_stores::BlockStore;
use hd_volume::{INDEX, MOST_BLOCKS, Volume};
use std::alloc::Global;

/// Notes block n, behind block 0, and its form, if it is an index block.
fn note_block<S: BlockStore>(
    blocks: &mut Vec<ChainedBlock>,
    forms: &mut Vec<Form>,
    volume: &mut Volume<S>,
    key_length: usize,
    n: u32,
) -> Result<(), Refused>
    requires short { key_length ≤ 255 }
    requires there { IsTrue volume.old.is_sound → HasBlock volume.old.size volume.old.image n }
    requires later { 0 < n }
    requires small { n < MOST_BLOCKS }
    requires least { 12 ≤ volume.old.size }
    requires as_many { length forms.old.items ≡ length blocks.old.items }
    ensures read { IsRead volume.old result volume.new }
    ensures as_many { OnOk result (length forms.new.items ≡ length blocks.new.items) }
    ensures noted { OnOk result (IsTrue volume.old.is_sound → IsNotedBlock volume.old n blocks.old.items forms.old.items blocks.new.items forms.new.items) }
    ensures refusal { OnlyDeviceOrMemory result }
{
    if volume.kind(n) != INDEX {
        return Ok(());
    }
    let bytes = volume.block(n)?;
    if bytes.len() < FIRST {
        return Ok(());
    }
    let block = IndexBlock { bytes, key_length };
    let form = Form {
        level: block.level(),
        count: block.stated_count(),
    };
    let next = block.next();
    forms.push(form).map_err(|_| Refused::Memory)?;
    blocks
        .push(ChainedBlock { number: n, next })
        .map_err(|_| Refused::Memory)?;
    Ok(())
}

/// Notes the index blocks of a volume, in order of their numbers, and their forms.
fn note_blocks<S: BlockStore>(
    blocks: &mut Vec<ChainedBlock>,
    forms: &mut Vec<Form>,
    volume: &mut Volume<S>,
    key_length: usize,
) -> Result<(), Refused>
    requires short { key_length ≤ 255 }
    requires no_block { blocks.old.items ≡ [] }
    requires no_form { forms.old.items ≡ [] }
    requires header { IsTrue volume.old.is_sound → HasHeader volume.old.size volume.old.image }
    ensures read { IsRead volume.old result volume.new }
    ensures as_many { OnOk result (length forms.new.items ≡ length blocks.new.items) }
    ensures blocks { OnOk result (IsTrue volume.old.is_sound → AreIndexBlocks volume.old blocks.new.items) }
    ensures forms { OnOk result (IsTrue volume.old.is_sound → AreForms volume.old blocks.new.items forms.new.items) }
    ensures refusal { OnlyDeviceOrMemory result }
{
    let least = volume.block_size();
    let count = volume.block_count().min(MOST_BLOCKS);
    for n in 1..count {
        note_block(blocks, forms, volume, key_length, n)?;
    }
    Ok(())
}

/// Whether a number is that of an index block of a level.
fn is_of_level(blocks: &[ChainedBlock], forms: &[Form], number: u32, level: u8) -> bool
    requires as_many { length forms.now ≡ length blocks.now }
    ensures right { result ≡ true → (v : VolumeState) → IfTabled v blocks.now forms.now (IsOfLevel v level number) }
    ensures wrong { result ≡ false → (v : VolumeState) → IfTabled v blocks.now forms.now (IsOfLevel v level number → ⊥) }
{
    match position_of(blocks, number) {
        None => false,
        Some(at) => {
            let form = forms[at];
            form.level == level
        }
    }
}

/// Whether top and height name an index block of level 0 as the only level, or none.
fn is_top_right(blocks: &[ChainedBlock], forms: &[Form], top: u32, height: u32) -> bool
    requires as_many { length forms.now ≡ length blocks.now }
    ensures right { result ≡ true → (v : VolumeState) → IfTabled v blocks.now forms.now (IfHeaded v top height (IsTopRight v)) }
    ensures wrong { result ≡ false → (v : VolumeState) → IfTabled v blocks.now forms.now (IfHeaded v top height (IsWrongTop v 0 top)) }
{
    if top == 0 {
        return height == 0;
    }
    height == 1 && is_of_level(blocks, forms, top, 0)
}

/// Whether an index block of a form is right, among the others.
fn is_block_right(
    blocks: &[ChainedBlock],
    forms: &[Form],
    height: u32,
    room: usize,
    block: ChainedBlock,
    form: Form,
) -> bool
    requires as_many { length forms.now ≡ length blocks.now }
    ensures right { result ≡ true → (k : ℕ) (v : VolumeState) → IfTabled v blocks.now forms.now (IfSized k v height room (IfOwnForm v block form (IsRightIndexBlock k v block.number))) }
    ensures wrong { result ≡ false → (k : ℕ) (v : VolumeState) → IfTabled v blocks.now forms.now (IfSized k v height room (IfOwnForm v block form (IsRightIndexBlock k v block.number → ⊥))) }
{
    if u32::from(form.level) >= height || form.count as usize > room {
        return false;
    }
    block.next == 0 || is_of_level(blocks, forms, block.next, form.level)
}

/// The first index block whose form is wrong.
fn wrong_form(blocks: &[ChainedBlock], forms: &[Form], height: u32, room: usize) -> Option<u32>
    requires as_many { length forms.now ≡ length blocks.now }
    ensures none { (k : ℕ) (v : VolumeState) → IfTabled v blocks.now forms.now (IfSized k v height room (IfNone result ((n : ℕ) → IsKind v 2 n → IsRightIndexBlock k v n))) }
    ensures some { (k : ℕ) (v : VolumeState) → IfTabled v blocks.now forms.now (IfSized k v height room (IfSome result (λ n. IsFirstWrong k v n))) }
{
    for i in 0..blocks.len() {
        let block = blocks[i];
        if !is_block_right(blocks, forms, height, room, block, forms[i]) {
            return Some(block.number);
        }
    }
    None
}

/// What is wrong with an index of these blocks and forms, whose header says this.
fn form_fault(
    blocks: &[ChainedBlock],
    forms: &[Form],
    top: u32,
    height: u32,
    room: usize,
    size: u32,
) -> Option<Fault>
    requires as_many { length forms.now ≡ length blocks.now }
    ensures none { OfFormed blocks.now forms.now top height room (λ d v. IfNone result (IsIndexRight (root_key_length d.types) v)) }
    ensures some { OfFormed blocks.now forms.now top height room (λ d v. size ≡ v.size → IfSome result (λ f. IsLeastOf d v 8 f)) }
{
    if !is_top_right(blocks, forms, top, height) {
        return Some(Fault::at(Line::WrongTop, 0, top));
    }
    match wrong_form(blocks, forms, height, room) {
        None => None,
        Some(n) => Some(Fault::at(Line::WrongForm, block_address(n, size), 0)),
    }
}

/// What is wrong with the index's top and height, or with the form of one of its blocks; where nothing is, its blocks are
/// noted, in order of their numbers.
pub fn block_forms_fault<S: BlockStore>(
    alloc: Global,
    blocks: &mut Vec<ChainedBlock>,
    volume: &mut Volume<S>,
    dbd: &Dbd,
) -> Result<Option<Fault>, Refused>
    requires empty { blocks.old.items ≡ [] }
    requires of { IsTrue volume.old.is_sound → IsVolumeOf dbd.now volume.old }
    requires version { IsTrue volume.old.is_sound → (header_of volume.old.image).version ≡ 1 }
    ensures read { IsRead volume.old result volume.new }
    ensures none { WhereNone volume.old result (IsIndexRight (root_key_length dbd.now.types) volume.old) }
    ensures blocks { WhereNone volume.old result (AreIndexBlocks volume.old blocks.new.items) }
    ensures some { WhereSome volume.old result (λ f. IsLeastOf dbd.now volume.old 8 f) }
    ensures refusal { OnlyDeviceOrMemory result }
{
    let mut forms = Vec::new(alloc);
    let key_length = root_key_length(dbd);
    note_blocks(blocks, &mut forms, volume, key_length)?;
    let size = volume.block_size();
    let room = entry_room(key_length, size);
    Ok(form_fault(
        blocks,
        &forms,
        volume.top(),
        volume.height(),
        room,
        size as u32,
    ))
}

/// All that is wrong with an index of these blocks and forms, whose header says this.
fn form_faults(
    alloc: Global,
    blocks: &[ChainedBlock],
    forms: &[Form],
    top: u32,
    height: u32,
    room: usize,
    size: u32,
) -> Result<Vec<Fault>, Refused>
    requires as_many { length forms.now ≡ length blocks.now }
    ensures faults { OfFormed blocks.now forms.now top height room (λ d v. size ≡ v.size → IfOk result (λ faults. AreStanding d v 8 faults.items)) }
    ensures refusal { OnlyMemory result }
{
    let mut faults = Vec::new(alloc);
    let right = is_top_right(blocks, forms, top, height);
    list_fault(&mut faults, top_fault(right, top))?;
    for i in 0..blocks.len() {
        let block = blocks[i];
        let right = is_block_right(blocks, forms, height, room, block, forms[i]);
        list_fault(
            &mut faults,
            fault_unless(right, Line::WrongForm, block.number, size),
        )?;
    }
    Ok(faults)
}

/// All that is wrong with the index's top and height and with the form of its blocks, block by block.
pub fn block_forms_faults<S: BlockStore>(
    alloc: Global,
    volume: &mut Volume<S>,
    dbd: &Dbd,
) -> Result<Vec<Fault>, Refused>
    requires of { IsTrue volume.old.is_sound → IsVolumeOf dbd.now volume.old }
    requires version { IsTrue volume.old.is_sound → (header_of volume.old.image).version ≡ 1 }
    ensures read { IsRead volume.old result volume.new }
    ensures faults { IfOk result (λ faults. IsTrue volume.old.is_sound → AreStanding dbd.now volume.old 8 faults.items) }
    ensures refusal { OnlyDeviceOrMemory result }
{
    let mut blocks = Vec::new(alloc);
    let mut forms = Vec::new(alloc);
    let key_length = root_key_length(dbd);
    note_blocks(&mut blocks, &mut forms, volume, key_length)?;
    let size = volume.block_size();
    let room = entry_room(key_length, size);
    form_faults(
        alloc,
        &blocks,
        &forms,
        volume.top(),
        volume.height(),
        room,
        size as u32,
    )
}
