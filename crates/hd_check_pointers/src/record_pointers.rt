//! Phase 3: the pointers of one record.
ghost use Rattle.std.specs.Prelude.{◌≡◌, ◌≢◌, ◌≤◌, ◌<◌, ◌++◌, [], ◌∷◌, length, IfNone, IfSome, OnOk};
ghost use Rattle.hd_dbd.specs.Refusals.{OnlyMemory};
ghost use Rattle.hd_dbd.specs.Prefixes.{prefix_length};
ghost use Rattle.hd_volume.specs.Volumes.{VolumeState};
ghost use Rattle.hd_prefix.specs.Fields.{code_of};
ghost use Rattle.hd_image.specs.Records.{links_of};
ghost use Rattle.hd_dbd.specs.Hierarchy.{Database};
ghost use Rattle.hd_image.specs.PointerFaults.{child_pointers, pointers_of};
ghost use Rattle.hd_check_blocks.specs.Places.{ArePlaces};
ghost use Rattle.hd_check_pointers.specs.Judging.{wrong_among, wrong_or, IsRecordRight, IsWrongRecord, IsPointerFault, OfStored, OfPlaced};
ghost use Rattle.hd_check_pointers.specs.Listed.{pointer_faults, IsRecordListed};
ghost use Rattle.hd_check_pointers.specs.Matched.{IfRoots};

use hd_check_blocks::{Directory, Fault, Place, code_near, fault_if, list_fault};
use hd_dbd::{Dbd, Refused};
use hd_image::Line;
use hd_prefix::{Layout, Pointer, delete_byte_of};

/// The first pointer of a record that names no segment's place, and the first that names a segment of another type, 0 for
/// none.
#[derive(Clone, Copy)]
struct Wrong {
    nowhere: u32,
    another: u32,
}

/// What is wrong with one pointer, which may name a segment of a type, and most likely that of a number.
fn wrong_of(places: &[Place], directory: &Directory, near: usize, address: u32, code: u8) -> Wrong
    ensures { (d : Database) (v : VolumeState) → ArePlaces d.types v places.now → result ≡ wrong_among (links_of d.types v) (record { address = address; type_code = code } ∷ []) }
{
    if address == 0 {
        return Wrong {
            nowhere: 0,
            another: 0,
        };
    }
    match code_near(places, directory, address, near) {
        None => Wrong {
            nowhere: address,
            another: 0,
        },
        Some(own) => Wrong {
            nowhere: 0,
            another: if own == code { 0 } else { address },
        },
    }
}

/// What was found before, or else this.
fn wrong_or(wrong: Wrong, more: Wrong) -> Wrong
    ensures { result ≡ wrong_or wrong more }
{
    Wrong {
        nowhere: if wrong.nowhere == 0 {
            more.nowhere
        } else {
            wrong.nowhere
        },
        another: if wrong.another == 0 {
            more.another
        } else {
            wrong.another
        },
    }
}

/// What is wrong with the pointers of a segment to its children of some types, where the next segment has a number.
fn judge_children(
    places: &[Place],
    directory: &Directory,
    next: usize,
    dbd: &Dbd,
    code: u8,
    segment: &[u8],
    types: &[u8],
    wrong: Wrong,
) -> Wrong
    requires own { code ≡ code_of segment.now }
    requires whole { prefix_length dbd.now.types (code_of segment.now) ≤ length segment.now }
    ensures { OfStored dbd.now.types places.now segment.now (λ m a. result ≡ wrong_or wrong (wrong_among m (child_pointers dbd.now.types m a types.now))) }
{
    let layout = Layout::of(dbd, code);
    let mut found = wrong;
    for child in types {
        let first = layout.read(segment, Pointer::FirstChild(*child));
        found = wrong_or(found, wrong_of(places, directory, next, first, *child));
        let last = layout.read(segment, Pointer::LastChild(*child));
        found = wrong_or(found, wrong_of(places, directory, next, last, *child));
    }
    found
}

/// What is wrong with the pointers of the segment of a number.
fn judge_segment(
    places: &[Place],
    directory: &Directory,
    number: usize,
    dbd: &Dbd,
    code: u8,
    segment: &[u8],
) -> Wrong
    requires own { code ≡ code_of segment.now }
    requires some { code ≢ 0 }
    requires whole { prefix_length dbd.now.types (code_of segment.now) ≤ length segment.now }
    ensures { OfStored dbd.now.types places.now segment.now (λ m a. result ≡ wrong_among m (pointers_of dbd.now.types m a)) }
{
    let layout = Layout::of(dbd, code);
    let behind = number.saturating_add(1);
    let before = number.saturating_sub(1);
    let forward = wrong_of(
        places,
        directory,
        behind,
        layout.read(segment, Pointer::TwinForward),
        code,
    );
    let backward = wrong_of(
        places,
        directory,
        before,
        layout.read(segment, Pointer::TwinBackward),
        code,
    );
    let twins = wrong_or(forward, backward);
    judge_children(
        places,
        directory,
        behind,
        dbd,
        code,
        segment,
        dbd.children_of(code),
        twins,
    )
}

/// What is wrong with the segment of a number, which stands at an address.
pub fn segment_pointers_fault(
    places: &[Place],
    directory: &Directory,
    number: usize,
    dbd: &Dbd,
    address: u32,
    segment: &[u8],
) -> Option<Fault>
    ensures none { OfPlaced dbd.now.types places.now address segment.now (λ m. IfNone result (IsRecordRight dbd.now.types m address)) }
    ensures some { OfPlaced dbd.now.types places.now address segment.now (λ m. IfSome result (λ f. IsWrongRecord dbd.now.types m address f)) }
{
    let code = segment.first().copied().unwrap_or(0);
    if code == 0 || segment.len() < 2 || segment.len() < dbd.prefix_length(code) as usize {
        return None;
    }
    let delete_byte = delete_byte_of(segment);
    if delete_byte != 0 {
        return Some(Fault::at(Line::Deleted, address, u32::from(delete_byte)));
    }
    pointer_fault(
        address,
        judge_segment(places, directory, number, dbd, code, segment),
    )
}

/// The fault of a record with which so much is wrong.
fn pointer_fault(address: u32, wrong: Wrong) -> Option<Fault>
    ensures none { IfNone result (wrong ≡ record { nowhere = 0; another = 0 }) }
    ensures some { IfSome result (λ f. IsPointerFault address wrong f) }
{
    if wrong.nowhere != 0 {
        return Some(Fault::at(Line::NamesNothing, address, wrong.nowhere));
    }
    if wrong.another != 0 {
        return Some(Fault::at(Line::NamesAnother, address, wrong.another));
    }
    None
}

/// What is wrong with the header's pointers, which are first and last root.
fn judge_roots(places: &[Place], directory: &Directory, first: u32, last: u32) -> Wrong
    ensures { (d : Database) (v : VolumeState) → ArePlaces d.types v places.now → IfRoots v first last (result ≡ wrong_among (links_of d.types v) (pointers_of d.types (links_of d.types v) 0)) }
{
    wrong_or(
        wrong_of(places, directory, 0, first, 1),
        wrong_of(places, directory, 0, last, 1),
    )
}

/// What is wrong with the header's first and last root.
pub fn root_pointers_fault(
    places: &[Place],
    directory: &Directory,
    first: u32,
    last: u32,
) -> Option<Fault>
    ensures none { (d : Database) (v : VolumeState) → ArePlaces d.types v places.now → IfRoots v first last (IfNone result (IsRecordRight d.types (links_of d.types v) 0)) }
    ensures some { (d : Database) (v : VolumeState) → ArePlaces d.types v places.now → IfRoots v first last (IfSome result (λ f. IsWrongRecord d.types (links_of d.types v) 0 f)) }
{
    pointer_fault(0, judge_roots(places, directory, first, last))
}

/// Lists the faults of a record with which so much is wrong.
fn list_pointers(faults: &mut Vec<Fault>, address: u32, wrong: Wrong) -> Result<(), Refused>
    ensures faults { OnOk result (faults.new.items ≡ faults.old.items ++ pointer_faults address wrong) }
    ensures refusal { OnlyMemory result }
{
    list_fault(faults, fault_if(Line::NamesNothing, address, wrong.nowhere))?;
    list_fault(faults, fault_if(Line::NamesAnother, address, wrong.another))
}

/// Lists what is wrong with the segment of a number, which stands at an address.
pub fn list_segment(
    faults: &mut Vec<Fault>,
    places: &[Place],
    directory: &Directory,
    number: usize,
    dbd: &Dbd,
    address: u32,
    segment: &[u8],
) -> Result<(), Refused>
    ensures faults { OnOk result (OfPlaced dbd.now.types places.now address segment.now (λ m. IsRecordListed dbd.now.types m address faults.old.items faults.new.items)) }
    ensures refusal { OnlyMemory result }
{
    let code = segment.first().copied().unwrap_or(0);
    if code == 0 || segment.len() < 2 || segment.len() < dbd.prefix_length(code) as usize {
        return Ok(());
    }
    let delete_byte = delete_byte_of(segment);
    list_fault(
        faults,
        fault_if(Line::Deleted, address, u32::from(delete_byte)),
    )?;
    list_pointers(
        faults,
        address,
        judge_segment(places, directory, number, dbd, code, segment),
    )
}

/// Lists what is wrong with the header's first and last root.
pub fn list_roots(
    faults: &mut Vec<Fault>,
    places: &[Place],
    directory: &Directory,
    first: u32,
    last: u32,
) -> Result<(), Refused>
    ensures faults { OnOk result ((d : Database) (v : VolumeState) → ArePlaces d.types v places.now → IfRoots v first last (IsRecordListed d.types (links_of d.types v) 0 faults.old.items faults.new.items)) }
    ensures refusal { OnlyMemory result }
{
    list_pointers(faults, 0, judge_roots(places, directory, first, last))
}
