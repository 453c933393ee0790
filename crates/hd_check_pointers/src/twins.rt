//! Phase 5: twin backward, last child and last root.
ghost use Rattle.std.specs.Prelude.{◌≡◌, ◌≤◌, ◌<◌, length, true, false, IsTrue, IfOk, IfNone, IfSome, OnOk};
ghost use Rattle.hd_dbd.specs.Refusals.{OnlyMemory, OnlyDevice, OnlyDeviceOrMemory};
ghost use Rattle.hd_dbd.specs.Hierarchy.{Database};
ghost use Rattle.hd_dbd.specs.Prefixes.{prefix_length};
ghost use Rattle.hd_volume.specs.Volumes.{VolumeState};
ghost use Rattle.hd_volume.specs.Calls.{IsRead};
ghost use Rattle.hd_prefix.specs.Fields.{pointer_of};
ghost use Rattle.hd_links.specs.Links.{is_last_kept};
ghost use Rattle.hd_links.specs.Pointers.{Precedes, TwinsLinkBack};
ghost use Rattle.hd_image.specs.Records.{links_of};
ghost use Rattle.hd_image.specs.PointerFaults.{IsWrongBackward, IsWrongLast, HasWrongLast};
ghost use Rattle.hd_check_blocks.specs.Phases.{IsLeastOf};
ghost use Rattle.hd_check_blocks.specs.Listing.{AreStanding};
ghost use Rattle.hd_check_pointers.specs.Tables.{place_at, AreForwards, ArePredecessors, AreOwners};
ghost use Rattle.hd_check_pointers.specs.Matched.{IsMatched, IfChained, IfRoots, OfLent, OfLentTwin, TellsTwinBefore, OfChildren, OfChildTwin};
ghost use Rattle.hd_check_pointers.specs.Twins.{IsBackwardRight, IsLastRight, AreLastsRight, AreTwinsRight, AreTwinsWrong, IsWrongLastNamed};
ghost use Rattle.hd_check_pointers.specs.Listed.{fault_with, AreTwinsListed};
ghost use Rattle.hd_check_blocks.specs.Finding.{WhereNone, WhereSome};

use crate::namings::Naming;
use crate::owners::{number_in, stands_at};
use hd_check_blocks::{Directory, Fault, Place, list_fault, number_of};
use hd_dbd::{Dbd, Refused};
use hd_image::Line;
use hd_prefix::{Layout, Pointer};
use hd_stores::BlockStore;
use hd_volume::Volume;
use std::alloc::Global;

/// A pointer of a stored segment of a type.
fn pointer_in(dbd: &Dbd, code: u8, segment: &[u8], pointer: Pointer) -> u32
    requires { prefix_length dbd.now.types code ≤ length segment.now }
    ensures { result ≡ pointer_of dbd.now.types code pointer segment.now }
{
    Layout::of(dbd, code).read(segment, pointer)
}

/// The twin before the segment of a number, by its predecessor; 0 where that is a parent.
fn twin_before(places: &[Place], directory: &Directory, number: usize, holder: u32) -> u32
    requires within { number < length places.now }
    ensures { TellsTwinBefore places.now number holder result }
{
    if stands_at(places, directory, number, holder, places[number].code) {
        return holder;
    }
    0
}

/// Twin backward of the segment of a number, where it is kept and is not the twin before it.
fn wrong_backward(
    places: &[Place],
    directory: &Directory,
    dbd: &Dbd,
    number: usize,
    holder: u32,
    segment: &[u8],
) -> Option<u32>
    requires within { number < length places.now }
    requires whole { prefix_length dbd.now.types (place_at places.now number).code ≤ length segment.now }
    ensures none { OfLent dbd.now places.now number segment.now (λ m a. Precedes dbd.now.types m holder a → IfNone result (IsBackwardRight dbd.now.types m a)) }
    ensures some { OfLent dbd.now places.now number segment.now (λ m a. Precedes dbd.now.types m holder a → IfSome result (λ x. (x ≡ m.backward a) × IsWrongBackward dbd.now.types m a x)) }
{
    let code = places[number].code;
    if !dbd.keeps_backward(code) {
        return None;
    }
    let backward = pointer_in(dbd, code, segment, Pointer::TwinBackward);
    if backward == twin_before(places, directory, number, holder) {
        return None;
    }
    Some(backward)
}

/// Whether the last child of a type that a parent names is the last twin of the chain from the first.
fn is_last_right(
    places: &[Place],
    directory: &Directory,
    forwards: &[u32],
    owners: &[u32],
    parent: u32,
    first: u32,
    last: u32,
) -> bool
    ensures right { OfChildren places.now forwards.now owners.now parent first last (λ m t. result ≡ true → IsLastRight m parent t) }
    ensures wrong { OfChildren places.now forwards.now owners.now parent first last (λ m t. result ≡ false → IsWrongLast m parent t) }
{
    if first == 0 {
        return last == 0;
    }
    match number_of(places, directory, last) {
        None => false,
        Some(number) => { number_in(forwards, number) == 0 && number_in(owners, number) == parent }
    }
}

/// The last child of a type that the segment of a number names, where it is kept and wrong.
fn wrong_child(
    places: &[Place],
    directory: &Directory,
    forwards: &[u32],
    owners: &[u32],
    dbd: &Dbd,
    number: usize,
    segment: &[u8],
    child: u8,
) -> Option<u32>
    requires within { number < length places.now }
    requires whole { prefix_length dbd.now.types (place_at places.now number).code ≤ length segment.now }
    ensures none { OfChildTwin dbd.now places.now forwards.now owners.now number segment.now child (λ m a. IfNone result (is_last_kept dbd.now.types child ≡ true → IsLastRight m a child)) }
    ensures some { OfChildTwin dbd.now places.now forwards.now owners.now number segment.now child (λ m a. IfSome result (λ x. IsWrongLastNamed dbd.now.types m a child x)) }
{
    if !dbd.keeps_last_child(child) {
        return None;
    }
    let place = places[number];
    let first = pointer_in(dbd, place.code, segment, Pointer::FirstChild(child));
    let last = pointer_in(dbd, place.code, segment, Pointer::LastChild(child));
    if is_last_right(
        places,
        directory,
        forwards,
        owners,
        place.address,
        first,
        last,
    ) {
        return None;
    }
    Some(last)
}

/// The last child that the segment of a number names, of the first type of which it is kept and wrong.
fn wrong_last(
    places: &[Place],
    directory: &Directory,
    forwards: &[u32],
    owners: &[u32],
    dbd: &Dbd,
    number: usize,
    segment: &[u8],
) -> Option<u32>
    requires within { number < length places.now }
    requires whole { prefix_length dbd.now.types (place_at places.now number).code ≤ length segment.now }
    ensures none { OfLentTwin dbd.now places.now forwards.now owners.now number segment.now (λ m a. IfNone result (AreLastsRight dbd.now.types m a)) }
    ensures some { OfLentTwin dbd.now places.now forwards.now owners.now number segment.now (λ m a. IfSome result (λ x. HasWrongLast dbd.now.types m a x)) }
{
    let types = dbd.children_of(places[number].code);
    for child in types {
        let wrong = wrong_child(
            places, directory, forwards, owners, dbd, number, segment, *child,
        );
        if wrong.is_some() {
            return wrong;
        }
    }
    None
}

/// What is wrong with twin backward and last child of the segment of a number, whose predecessor is given.
fn twin_pointers_fault(
    places: &[Place],
    directory: &Directory,
    forwards: &[u32],
    owners: &[u32],
    dbd: &Dbd,
    number: usize,
    holder: u32,
    segment: &[u8],
) -> Option<Fault>
    requires within { number < length places.now }
    ensures none { OfLentTwin dbd.now places.now forwards.now owners.now number segment.now (λ m a. Precedes dbd.now.types m holder a → IfNone result (AreTwinsRight dbd.now.types m a)) }
    ensures some { OfLentTwin dbd.now places.now forwards.now owners.now number segment.now (λ m a. Precedes dbd.now.types m holder a → IfSome result (λ f. AreTwinsWrong dbd.now.types m a f)) }
{
    let place = places[number];
    if segment.len() < dbd.prefix_length(place.code) as usize {
        return None;
    }
    if let Some(backward) = wrong_backward(places, directory, dbd, number, holder, segment) {
        return Some(Fault::at(Line::WrongBackward, place.address, backward));
    }
    match wrong_last(places, directory, forwards, owners, dbd, number, segment) {
        None => None,
        Some(last) => Some(Fault::at(Line::WrongLast, place.address, last)),
    }
}

/// What is wrong with the header's last root.
fn last_root_fault(
    places: &[Place],
    directory: &Directory,
    forwards: &[u32],
    owners: &[u32],
    first: u32,
    last: u32,
) -> Option<Fault>
    ensures none { (d : Database) (v : VolumeState) → IfChained d v places.now forwards.now owners.now (IfRoots v first last (IfNone result (AreTwinsRight d.types (links_of d.types v) 0))) }
    ensures some { (d : Database) (v : VolumeState) → IfChained d v places.now forwards.now owners.now (IfRoots v first last (IfSome result (λ f. AreTwinsWrong d.types (links_of d.types v) 0 f))) }
{
    if is_last_right(places, directory, forwards, owners, 0, first, last) {
        return None;
    }
    Some(Fault::at(Line::WrongLast, 0, last))
}

/// What is wrong with the segment of a number, which is read.
fn twin_links_fault<S: BlockStore>(
    places: &[Place],
    directory: &Directory,
    forwards: &[u32],
    owners: &[u32],
    volume: &mut Volume<S>,
    dbd: &Dbd,
    number: usize,
    holder: u32,
) -> Result<Option<Fault>, Refused>
    requires within { number < length places.now }
    requires matched { IsTrue volume.old.is_sound → IsMatched dbd.now volume.old places.now }
    requires forwards { IsTrue volume.old.is_sound → AreForwards (links_of dbd.now.types volume.old) places.now forwards.now }
    requires owners { IsTrue volume.old.is_sound → AreOwners dbd.now.types (links_of dbd.now.types volume.old) places.now owners.now }
    requires precedes { IsTrue volume.old.is_sound → Precedes dbd.now.types (links_of dbd.now.types volume.old) holder (place_at places.now number).address }
    ensures read { IsRead volume.old result volume.new }
    ensures none { WhereNone volume.old result (AreTwinsRight dbd.now.types (links_of dbd.now.types volume.old) (place_at places.now number).address) }
    ensures some { WhereSome volume.old result (λ f. AreTwinsWrong dbd.now.types (links_of dbd.now.types volume.old) (place_at places.now number).address f) }
    ensures refusal { OnlyDevice result }
{
    let segment = volume.segment_at(places[number].address)?;
    Ok(twin_pointers_fault(
        places, directory, forwards, owners, dbd, number, holder, segment,
    ))
}

/// What is wrong with twin backward and last child, which must agree with the chains of twins.
pub fn twins_fault<S: BlockStore>(
    places: &[Place],
    directory: &Directory,
    namings: &[Naming],
    owners: &[u32],
    forwards: &[u32],
    volume: &mut Volume<S>,
    dbd: &Dbd,
) -> Result<Option<Fault>, Refused>
    requires matched { IsTrue volume.old.is_sound → IsMatched dbd.now volume.old places.now }
    requires predecessors { IsTrue volume.old.is_sound → ArePredecessors dbd.now.types (links_of dbd.now.types volume.old) places.now namings.now }
    requires forwards { IsTrue volume.old.is_sound → AreForwards (links_of dbd.now.types volume.old) places.now forwards.now }
    requires owners { IsTrue volume.old.is_sound → AreOwners dbd.now.types (links_of dbd.now.types volume.old) places.now owners.now }
    ensures read { IsRead volume.old result volume.new }
    ensures none { WhereNone volume.old result (TwinsLinkBack dbd.now.types (links_of dbd.now.types volume.old)) }
    ensures some { WhereSome volume.old result (λ f. IsLeastOf dbd.now volume.old 5 f) }
    ensures refusal { OnlyDevice result }
{
    let roots = last_root_fault(
        places,
        directory,
        forwards,
        owners,
        volume.first_root(),
        volume.last_root(),
    );
    if roots.is_some() {
        return Ok(roots);
    }
    for number in 0..places.len().min(namings.len()) {
        let holder = namings[number].holder;
        let found = twin_links_fault(
            places, directory, forwards, owners, volume, dbd, number, holder,
        )?;
        if found.is_some() {
            return Ok(found);
        }
    }
    Ok(None)
}

/// The fault of a line at an address that names something, if it is given what.
fn fault_with(line: Line, address: u32, other: Option<u32>) -> Option<Fault>
    ensures { result ≡ fault_with line address other }
{
    match other {
        None => None,
        Some(other) => Some(Fault::at(line, address, other)),
    }
}

/// Lists what is wrong with twin backward and last child of the segment of a number, whose predecessor is given.
fn list_twin_pointers(
    faults: &mut Vec<Fault>,
    places: &[Place],
    directory: &Directory,
    forwards: &[u32],
    owners: &[u32],
    dbd: &Dbd,
    number: usize,
    holder: u32,
    segment: &[u8],
) -> Result<(), Refused>
    requires within { number < length places.now }
    ensures faults { OnOk result (OfLentTwin dbd.now places.now forwards.now owners.now number segment.now (λ m a. Precedes dbd.now.types m holder a → AreTwinsListed dbd.now.types m a faults.old.items faults.new.items)) }
    ensures refusal { OnlyMemory result }
{
    let place = places[number];
    if segment.len() < dbd.prefix_length(place.code) as usize {
        return Ok(());
    }
    let backward = wrong_backward(places, directory, dbd, number, holder, segment);
    let last = wrong_last(places, directory, forwards, owners, dbd, number, segment);
    list_fault(
        faults,
        fault_with(Line::WrongBackward, place.address, backward),
    )?;
    list_fault(faults, fault_with(Line::WrongLast, place.address, last))
}

/// Lists what is wrong with the segment of a number, which is read.
fn list_twin_links<S: BlockStore>(
    faults: &mut Vec<Fault>,
    places: &[Place],
    directory: &Directory,
    forwards: &[u32],
    owners: &[u32],
    volume: &mut Volume<S>,
    dbd: &Dbd,
    number: usize,
    holder: u32,
) -> Result<(), Refused>
    requires within { number < length places.now }
    requires matched { IsTrue volume.old.is_sound → IsMatched dbd.now volume.old places.now }
    requires forwards { IsTrue volume.old.is_sound → AreForwards (links_of dbd.now.types volume.old) places.now forwards.now }
    requires owners { IsTrue volume.old.is_sound → AreOwners dbd.now.types (links_of dbd.now.types volume.old) places.now owners.now }
    requires precedes { IsTrue volume.old.is_sound → Precedes dbd.now.types (links_of dbd.now.types volume.old) holder (place_at places.now number).address }
    ensures read { IsRead volume.old result volume.new }
    ensures faults { OnOk result (IsTrue volume.old.is_sound → AreTwinsListed dbd.now.types (links_of dbd.now.types volume.old) (place_at places.now number).address faults.old.items faults.new.items) }
    ensures refusal { OnlyDeviceOrMemory result }
{
    let segment = volume.segment_at(places[number].address)?;
    list_twin_pointers(
        faults, places, directory, forwards, owners, dbd, number, holder, segment,
    )
}

/// All that is wrong with twin backward and last child, which must agree with the chains of twins.
pub fn twins_faults<S: BlockStore>(
    alloc: Global,
    places: &[Place],
    directory: &Directory,
    namings: &[Naming],
    owners: &[u32],
    forwards: &[u32],
    volume: &mut Volume<S>,
    dbd: &Dbd,
) -> Result<Vec<Fault>, Refused>
    requires matched { IsTrue volume.old.is_sound → IsMatched dbd.now volume.old places.now }
    requires predecessors { IsTrue volume.old.is_sound → ArePredecessors dbd.now.types (links_of dbd.now.types volume.old) places.now namings.now }
    requires forwards { IsTrue volume.old.is_sound → AreForwards (links_of dbd.now.types volume.old) places.now forwards.now }
    requires owners { IsTrue volume.old.is_sound → AreOwners dbd.now.types (links_of dbd.now.types volume.old) places.now owners.now }
    ensures read { IsRead volume.old result volume.new }
    ensures faults { IfOk result (λ faults. IsTrue volume.old.is_sound → AreStanding dbd.now volume.old 5 faults.items) }
    ensures refusal { OnlyDeviceOrMemory result }
{
    let mut faults = Vec::new(alloc);
    let roots = last_root_fault(
        places,
        directory,
        forwards,
        owners,
        volume.first_root(),
        volume.last_root(),
    );
    list_fault(&mut faults, roots)?;
    for number in 0..places.len().min(namings.len()) {
        let holder = namings[number].holder;
        list_twin_links(
            &mut faults,
            places,
            directory,
            forwards,
            owners,
            volume,
            dbd,
            number,
            holder,
        )?;
    }
    Ok(faults)
}
