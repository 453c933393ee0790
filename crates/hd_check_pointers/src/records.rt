//! Phase 3: delete bytes, and what the pointers of the records name.
ghost use Rattle.std.specs.Prelude.{◌≡◌, ◌++◌, ◌∷◌, [], IsTrue, IfOk, IfNone, OnOk};
ghost use Rattle.hd_dbd.specs.Refusals.{OnlyDeviceOrMemory};
ghost use Rattle.hd_volume.specs.Calls.{IsRead};
ghost use Rattle.hd_links.specs.Links.{IsSegment};
ghost use Rattle.hd_links.specs.Pointers.{PointersAreTyped};
ghost use Rattle.hd_image.specs.Records.{links_of, IsVolumeOf};
ghost use Rattle.hd_check_blocks.specs.Phases.{IsLeastOf};
ghost use Rattle.hd_check_blocks.specs.Places.{ArePlaces};
ghost use Rattle.hd_check_blocks.specs.Listing.{AreStanding};
ghost use Rattle.hd_check_pointers.specs.Judging.{IsRecordRight, FindsWrongRecord};
ghost use Rattle.hd_check_pointers.specs.Listed.{IsRecordListed};
ghost use Rattle.hd_check_pointers.specs.Tables.{AreForwards};
ghost use Rattle.hd_check_pointers.specs.Namings.{segment_namings, AreNamings};
ghost use Rattle.hd_check_blocks.specs.Finding.{WhereNone, WhereSome};

use crate::namings::{Naming, note_naming, note_pointers};
use crate::record_pointers::{
    list_roots, list_segment, root_pointers_fault, segment_pointers_fault,
};
use hd_check_blocks::{Directory, Fault, Place};
use hd_dbd::{Dbd, Refused};
use hd_stores::BlockStore;
use hd_volume::Volume;
use std::alloc::Global;

/// What is wrong with the segment of a number, at an address. Its twin forward pointer, and the pointers by which it names others, are noted.
fn record_fault<S: BlockStore>(
    forwards: &mut Vec<u32>,
    namings: &mut Vec<Naming>,
    places: &[Place],
    directory: &Directory,
    number: usize,
    volume: &mut Volume<S>,
    dbd: &Dbd,
    address: u32,
) -> Result<Option<Fault>, Refused>
    requires of { IsTrue volume.old.is_sound → IsVolumeOf dbd.now volume.old }
    requires there { IsTrue volume.old.is_sound → IsSegment (links_of dbd.now.types volume.old) address }
    ensures read { IsRead volume.old result volume.new }
    ensures none { IfOk result (λ o. IsTrue volume.old.is_sound → ArePlaces dbd.now.types volume.old places.now → IfNone o (IsRecordRight dbd.now.types (links_of dbd.now.types volume.old) address)) }
    ensures some { IfOk result (λ o. IsTrue volume.old.is_sound → FindsWrongRecord dbd.now.types volume.old places.now address o) }
    ensures forwards { IfOk result (λ o. IsTrue volume.old.is_sound → forwards.new.items ≡ forwards.old.items ++ (links_of dbd.now.types volume.old).forward address ∷ []) }
    ensures namings { IfOk result (λ o. IsTrue volume.old.is_sound → namings.new.items ≡ namings.old.items ++ segment_namings dbd.now.types (links_of dbd.now.types volume.old) address) }
    ensures refusal { OnlyDeviceOrMemory result }
{
    let segment = volume.segment_at(address)?;
    let fault = segment_pointers_fault(places, directory, number, dbd, address, segment);
    note_pointers(forwards, namings, dbd, address, segment)?;
    Ok(fault)
}

/// What is wrong with the records of a volume whose blocks are right: a delete byte, or what a pointer names. Where nothing is,
/// the twin forward pointers are noted, and the pointers by which segments are named, in order of their holders.
pub fn records_fault<S: BlockStore>(
    forwards: &mut Vec<u32>,
    namings: &mut Vec<Naming>,
    places: &[Place],
    directory: &Directory,
    volume: &mut Volume<S>,
    dbd: &Dbd,
) -> Result<Option<Fault>, Refused>
    requires empty { (forwards.old.items ≡ []) × (namings.old.items ≡ []) }
    requires of { IsTrue volume.old.is_sound → IsVolumeOf dbd.now volume.old }
    requires places { IsTrue volume.old.is_sound → ArePlaces dbd.now.types volume.old places.now }
    ensures read { IsRead volume.old result volume.new }
    ensures none { WhereNone volume.old result (PointersAreTyped dbd.now.types (links_of dbd.now.types volume.old)) }
    ensures some { WhereSome volume.old result (λ f. IsLeastOf dbd.now volume.old 3 f) }
    ensures forwards { WhereNone volume.old result (AreForwards (links_of dbd.now.types volume.old) places.now forwards.new.items) }
    ensures namings { WhereNone volume.old result (AreNamings dbd.now.types (links_of dbd.now.types volume.old) places.now namings.new.items) }
    ensures refusal { OnlyDeviceOrMemory result }
{
    let first = volume.first_root();
    let roots = root_pointers_fault(places, directory, first, volume.last_root());
    if roots.is_some() {
        return Ok(roots);
    }
    note_naming(namings, first, 0)?;
    let mut number = 0usize;
    for place in places {
        let found = record_fault(
            forwards,
            namings,
            places,
            directory,
            number,
            volume,
            dbd,
            place.address,
        )?;
        if found.is_some() {
            return Ok(found);
        }
        number = number.saturating_add(1);
    }
    Ok(None)
}

/// Lists what is wrong with the segment of a number, at an address.
fn list_record<S: BlockStore>(
    faults: &mut Vec<Fault>,
    places: &[Place],
    directory: &Directory,
    number: usize,
    volume: &mut Volume<S>,
    dbd: &Dbd,
    address: u32,
) -> Result<(), Refused>
    requires of { IsTrue volume.old.is_sound → IsVolumeOf dbd.now volume.old }
    requires there { IsTrue volume.old.is_sound → IsSegment (links_of dbd.now.types volume.old) address }
    ensures read { IsRead volume.old result volume.new }
    ensures faults { OnOk result (IsTrue volume.old.is_sound → ArePlaces dbd.now.types volume.old places.now → IsRecordListed dbd.now.types (links_of dbd.now.types volume.old) address faults.old.items faults.new.items) }
    ensures refusal { OnlyDeviceOrMemory result }
{
    let segment = volume.segment_at(address)?;
    list_segment(faults, places, directory, number, dbd, address, segment)
}

/// All that is wrong with the records of a volume whose blocks are right: delete bytes, and what pointers name.
pub fn records_faults<S: BlockStore>(
    alloc: Global,
    places: &[Place],
    directory: &Directory,
    volume: &mut Volume<S>,
    dbd: &Dbd,
) -> Result<Vec<Fault>, Refused>
    requires of { IsTrue volume.old.is_sound → IsVolumeOf dbd.now volume.old }
    requires places { IsTrue volume.old.is_sound → ArePlaces dbd.now.types volume.old places.now }
    ensures read { IsRead volume.old result volume.new }
    ensures faults { IfOk result (λ faults. IsTrue volume.old.is_sound → AreStanding dbd.now volume.old 3 faults.items) }
    ensures refusal { OnlyDeviceOrMemory result }
{
    let mut faults = Vec::new(alloc);
    let first = volume.first_root();
    list_roots(&mut faults, places, directory, first, volume.last_root())?;
    let mut number = 0usize;
    for place in places {
        list_record(
            &mut faults,
            places,
            directory,
            number,
            volume,
            dbd,
            place.address,
        )?;
        number = number.saturating_add(1);
    }
    Ok(faults)
}
