//! Phase 1: the header.
ghost use Rattle.std.specs.Prelude.{◌≡◌, ◌≢◌, ◌≤◌, ◌⊎◌, [], ◌∷◌, length, true, false, IsTrue, IfOk, IfNone, IfSome, OnOk};
ghost use Rattle.hd_bytes.specs.Blocks.{HasBlock};
ghost use Rattle.hd_dbd.specs.Hierarchy.{Database};
ghost use Rattle.hd_dbd.specs.Refusals.{OnlyMemory, OnlyDevice, OnlyDeviceOrMemory};
ghost use Rattle.hd_volume.specs.Headers.{header_of};
ghost use Rattle.hd_volume.specs.Calls.{IsRead};
ghost use Rattle.hd_image.specs.BlockFaults.{IsKnownVersion};
ghost use Rattle.hd_check_blocks.specs.Phases.{CountsImage, IsNamed, IsRightHead, IsWrongHeader, IsHeaderRight, IsLeastOf};
ghost use Rattle.hd_check_blocks.specs.Listing.{AreStanding};
ghost use Rattle.hd_check_blocks.specs.Heads.{AreHeadsListed};
ghost use Rattle.hd_check_blocks.specs.Finding.{WhereNone, WhereSome};

use crate::fault::Fault;
use crate::lists::{fault_unless, list_fault};
use hd_bytes::{read_u16, read_u32};
use hd_dbd::{Dbd, Refused};
use hd_image::Line;
use hd_stores::BlockStore;
use hd_volume::{
    BLOCK_SIZE, COUNT, LARGEST, MARK, MOST_BLOCKS, NAME, NEWEST_VERSION, VERSION, Volume,
};
use std::alloc::Global;

/// Whether a header counts an image of so many bytes, in blocks of a size.
fn counts_image(head: &[u8], size: u64, image_length: u64) -> bool
    requires { (44 ≤ length head.now) × (size ≤ 32768) }
    ensures right { result ≡ true → CountsImage size image_length (header_of head.now) }
    ensures wrong { result ≡ false → CountsImage size image_length (header_of head.now) → ⊥ }
{
    let count = read_u32(head, COUNT);
    let largest = read_u32(head, LARGEST);
    &head[..8] == &MARK[..]
        && u64::from(count) * size == image_length
        && count <= largest
        && largest <= MOST_BLOCKS
}

/// Whether a header is of a database.
fn is_of(head: &[u8], dbd: &Dbd) -> bool
    requires { 44 ≤ length head.now }
    ensures right { result ≡ true → IsNamed dbd.now (header_of head.now) }
    ensures wrong { result ≡ false → ((header_of head.now).name ≢ dbd.now.name) ⊎ ((header_of head.now).block_size ≢ dbd.now.block_size) }
{
    &head[NAME..NAME + 8] == &dbd.name().bytes()[..]
        && u32::from(read_u16(head, BLOCK_SIZE)) == dbd.block_size()
}

/// Whether a version is known: the newest, and where no segments vary in length also 1 and 2.
fn is_known(version: u16, dbd: &Dbd) -> bool
    ensures right { result ≡ true → IsKnownVersion dbd.now.types version }
    ensures wrong { result ≡ false → IsKnownVersion dbd.now.types version → ⊥ }
{
    version == NEWEST_VERSION || !dbd.some_vary() && (version == 1 || version == 2)
}

/// What is wrong with a header of an image of so many bytes.
fn head_fault(head: &[u8], size: u64, image_length: u64, dbd: &Dbd) -> Option<Fault>
    requires { size ≤ 32768 }
    ensures none { 44 ≤ length head.now → IfNone result (IsRightHead dbd.now size image_length (header_of head.now)) }
    ensures some { 44 ≤ length head.now → IfSome result (λ f. IsWrongHeader dbd.now size image_length (header_of head.now) f) }
{
    if head.len() < 44 {
        return None;
    }
    if !counts_image(head, size, image_length) {
        return Some(Fault::at(Line::NoVolume, 0, 0));
    }
    let version = read_u16(head, VERSION);
    if !is_known(version, dbd) {
        return Some(Fault::at(Line::NoVersion, 0, u32::from(version)));
    }
    if !is_of(head, dbd) {
        return Some(Fault::at(Line::AnotherDatabase, 0, 0));
    }
    None
}

/// What is wrong with a volume's header.
pub fn header_fault<S: BlockStore>(
    volume: &mut Volume<S>,
    dbd: &Dbd,
) -> Result<Option<Fault>, Refused>
    requires size { volume.old.size ≡ dbd.now.block_size }
    ensures read { IsRead volume.old result volume.new }
    ensures none { WhereNone volume.old result (IsHeaderRight dbd.now volume.old) }
    ensures some { WhereSome volume.old result (λ f. IsLeastOf dbd.now volume.old 1 f) }
    ensures refusal { OnlyDevice result }
{
    let size = volume.block_size() as u64;
    let image_length = volume.length();
    if image_length < size {
        return Ok(Some(Fault::at(Line::NoVolume, 0, 0)));
    }
    let head = volume.block(0)?;
    Ok(head_fault(head, size, image_length, dbd))
}

/// Lists what is wrong with a header of an image of so many bytes.
fn list_head(
    faults: &mut Vec<Fault>,
    head: &[u8],
    size: u64,
    image_length: u64,
    dbd: &Dbd,
) -> Result<(), Refused>
    requires { size ≤ 32768 }
    ensures faults { OnOk result (44 ≤ length head.now → AreHeadsListed dbd.now size image_length (header_of head.now) faults.old.items faults.new.items) }
    ensures refusal { OnlyMemory result }
{
    if head.len() < 44 {
        return Ok(());
    }
    let version = read_u16(head, VERSION);
    let counts = counts_image(head, size, image_length);
    let known = is_known(version, dbd);
    let named = is_of(head, dbd);
    list_fault(faults, fault_unless(counts, Line::NoVolume, 0))?;
    list_fault(
        faults,
        fault_unless(known, Line::NoVersion, u32::from(version)),
    )?;
    list_fault(faults, fault_unless(named, Line::AnotherDatabase, 0))
}

/// All that is wrong with a volume's header; of a volume without a first block just that.
pub fn header_faults<S: BlockStore>(
    alloc: Global,
    volume: &mut Volume<S>,
    dbd: &Dbd,
) -> Result<Vec<Fault>, Refused>
    requires size { volume.old.size ≡ dbd.now.block_size }
    ensures read { IsRead volume.old result volume.new }
    ensures faults { IfOk result (λ faults. IsTrue volume.old.is_sound → HasBlock volume.old.size volume.old.image 0 → AreStanding dbd.now volume.old 1 faults.items) }
    ensures alone { IfOk result (λ faults. IsTrue volume.old.is_sound → (HasBlock volume.old.size volume.old.image 0 → ⊥) → faults.items ≡ record { line = Line.NoVolume; address = 0; other = 0 } ∷ []) }
    ensures refusal { OnlyDeviceOrMemory result }
{
    let mut faults = Vec::new(alloc);
    let size = volume.block_size() as u64;
    let image_length = volume.length();
    if image_length < size {
        list_fault(&mut faults, Some(Fault::at(Line::NoVolume, 0, 0)))?;
        return Ok(faults);
    }
    let head = volume.block(0)?;
    list_head(&mut faults, head, size, image_length, dbd)?;
    Ok(faults)
}
