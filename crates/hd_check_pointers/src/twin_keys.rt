//! Phase 6: the keys of twins are in order.
ghost use Rattle.std.specs.Prelude.{◌≡◌, ◌≤◌, ◌<◌, length, take, true, IsTrue, IfOk, IfNone, IfSome, OnOk};
ghost use Rattle.hd_dbd.specs.Refusals.{OnlyDevice, OnlyDeviceOrMemory};
ghost use Rattle.hd_dbd.specs.Rows.{key_of, twins_in_order};
ghost use Rattle.hd_volume.specs.Calls.{IsRead};
ghost use Rattle.hd_links.specs.Links.{IsSegment, segment_at};
ghost use Rattle.hd_links.specs.Pointers.{Precedes, KeysAscend};
ghost use Rattle.hd_image.specs.Records.{links_of, IsVolumeOf};
ghost use Rattle.hd_image.specs.PointerFaults.{IsOutOfOrder};
ghost use Rattle.hd_check_blocks.specs.Phases.{IsLeastOf};
ghost use Rattle.hd_check_blocks.specs.Listing.{AreStanding};
ghost use Rattle.hd_check_pointers.specs.Tables.{place_at, ArePredecessors};
ghost use Rattle.hd_check_pointers.specs.Matched.{IsMatched};
ghost use Rattle.hd_check_pointers.specs.Keys.{is_keyed, IsLastKey, is_behind, IsKeyRight, order_fault, IsOrderFault, IsKeyWrong};
ghost use Rattle.hd_check_blocks.specs.Finding.{WhereNone, WhereSome};

use crate::last_key::{LastKey, keep_key, no_key};
use crate::namings::Naming;
use crate::owners::stands_at;
use hd_check_blocks::{Directory, Fault, Place, list_fault, stored_key};
use hd_dbd::{Dbd, Refused};
use hd_image::Line;
use hd_stores::BlockStore;
use hd_volume::Volume;
use std::alloc::Global;

/// Whether the segments of a type have a key.
pub fn is_keyed(dbd: &Dbd, code: u8) -> bool
    ensures { result ≡ is_keyed dbd.now.types code }
{
    dbd.type_of(code).is_some_and(|kind| kind.key.is_some())
}

/// Reads the key of the segment at an address, unless it was read last.
fn read_key<S: BlockStore>(
    last: &mut LastKey,
    volume: &mut Volume<S>,
    dbd: &Dbd,
    address: u32,
    code: u8,
) -> Result<(), Refused>
    requires of { IsTrue volume.old.is_sound → IsVolumeOf dbd.now volume.old }
    requires there { IsTrue volume.old.is_sound → IsSegment (links_of dbd.now.types volume.old) address × ((links_of dbd.now.types volume.old).code address ≡ code) }
    requires known { IsTrue volume.old.is_sound → IsLastKey dbd.now.types (links_of dbd.now.types volume.old) last.old }
    ensures read { IsRead volume.old result volume.new }
    ensures key { OnOk result (IsTrue volume.old.is_sound → take last.new.length last.new.key ≡ key_of dbd.now.types (segment_at (links_of dbd.now.types volume.old) address)) }
    ensures refusal { OnlyDevice result }
{
    if last.address == address {
        return Ok(());
    }
    let segment = volume.segment_at(address)?;
    keep_key(last, address, stored_key(dbd, code, segment));
    Ok(())
}

/// Whether the key of a segment may come behind the last, whose place it takes.
fn is_in_order<S: BlockStore>(
    last: &mut LastKey,
    volume: &mut Volume<S>,
    dbd: &Dbd,
    place: Place,
) -> Result<bool, Refused>
    requires of { IsTrue volume.old.is_sound → IsVolumeOf dbd.now volume.old }
    requires there { IsTrue volume.old.is_sound → IsSegment (links_of dbd.now.types volume.old) place.address × ((links_of dbd.now.types volume.old).code place.address ≡ place.code) }
    ensures read { IsRead volume.old result volume.new }
    ensures right { IfOk result (λ b. IsTrue volume.old.is_sound → b ≡ is_behind dbd.now.types (links_of dbd.now.types volume.old) last.old place) }
    ensures known { OnOk result (IsTrue volume.old.is_sound → IsLastKey dbd.now.types (links_of dbd.now.types volume.old) last.new) }
    ensures refusal { OnlyDevice result }
{
    let segment = volume.segment_at(place.address)?;
    let key = stored_key(dbd, place.code, segment);
    let is_right = dbd.keys_in_order(place.code, &last.key[..last.length], key);
    keep_key(last, place.address, key);
    Ok(is_right)
}

/// What is wrong with the key of a segment behind the twin before it. Where nothing is, it is the last.
pub fn twin_order_fault<S: BlockStore>(
    last: &mut LastKey,
    volume: &mut Volume<S>,
    dbd: &Dbd,
    holder: u32,
    place: Place,
) -> Result<Option<Fault>, Refused>
    requires of { IsTrue volume.old.is_sound → IsVolumeOf dbd.now volume.old }
    requires before { IsTrue volume.old.is_sound → IsSegment (links_of dbd.now.types volume.old) holder × ((links_of dbd.now.types volume.old).code holder ≡ place.code) }
    requires there { IsTrue volume.old.is_sound → IsSegment (links_of dbd.now.types volume.old) place.address × ((links_of dbd.now.types volume.old).code place.address ≡ place.code) }
    requires known { IsTrue volume.old.is_sound → IsLastKey dbd.now.types (links_of dbd.now.types volume.old) last.old }
    ensures read { IsRead volume.old result volume.new }
    ensures none { let m = links_of dbd.now.types volume.old in WhereNone volume.old result (twins_in_order dbd.now.types (segment_at m holder) (segment_at m place.address) ≡ true) }
    ensures some { WhereSome volume.old result (λ f. IsOrderFault dbd.now.types (links_of dbd.now.types volume.old) place.address holder f) }
    ensures known { WhereNone volume.old result (IsLastKey dbd.now.types (links_of dbd.now.types volume.old) last.new) }
    ensures refusal { OnlyDevice result }
{
    read_key(last, volume, dbd, holder, place.code)?;
    if is_in_order(last, volume, dbd, place)? {
        return Ok(None);
    }
    Ok(Some(Fault::at(Line::OutOfOrder, place.address, holder)))
}

/// What is wrong with the key of the segment of a number, whose predecessor is given. The key that was read last spares an access where it is
/// that of the twin before.
fn key_fault<S: BlockStore>(
    last: &mut LastKey,
    places: &[Place],
    directory: &Directory,
    volume: &mut Volume<S>,
    dbd: &Dbd,
    number: usize,
    holder: u32,
) -> Result<Option<Fault>, Refused>
    requires within { number < length places.now }
    requires matched { IsTrue volume.old.is_sound → IsMatched dbd.now volume.old places.now }
    requires precedes { IsTrue volume.old.is_sound → Precedes dbd.now.types (links_of dbd.now.types volume.old) holder (place_at places.now number).address }
    requires known { IsTrue volume.old.is_sound → IsLastKey dbd.now.types (links_of dbd.now.types volume.old) last.old }
    ensures read { IsRead volume.old result volume.new }
    ensures known { WhereNone volume.old result (IsLastKey dbd.now.types (links_of dbd.now.types volume.old) last.new) }
    ensures none { WhereNone volume.old result (IsKeyRight dbd.now.types (links_of dbd.now.types volume.old) (place_at places.now number).address) }
    ensures some { WhereSome volume.old result (λ f. IsKeyWrong dbd.now.types (links_of dbd.now.types volume.old) (place_at places.now number).address holder f) }
    ensures refusal { OnlyDevice result }
{
    let place = places[number];
    if !is_keyed(dbd, place.code) {
        return Ok(None);
    }
    if !stands_at(places, directory, number, holder, place.code) {
        return Ok(None);
    }
    twin_order_fault(last, volume, dbd, holder, place)
}

/// The first twin whose key is less than that of the twin before it, or equal where it is unique.
pub fn twin_keys_fault<S: BlockStore>(
    places: &[Place],
    directory: &Directory,
    namings: &[Naming],
    volume: &mut Volume<S>,
    dbd: &Dbd,
) -> Result<Option<Fault>, Refused>
    requires matched { IsTrue volume.old.is_sound → IsMatched dbd.now volume.old places.now }
    requires predecessors { IsTrue volume.old.is_sound → ArePredecessors dbd.now.types (links_of dbd.now.types volume.old) places.now namings.now }
    ensures read { IsRead volume.old result volume.new }
    ensures none { WhereNone volume.old result (KeysAscend dbd.now.types (links_of dbd.now.types volume.old)) }
    ensures some { WhereSome volume.old result (λ f. IsLeastOf dbd.now volume.old 6 f) }
    ensures refusal { OnlyDevice result }
{
    let mut last = no_key();
    for number in 0..places.len().min(namings.len()) {
        let found = key_fault(
            &mut last,
            places,
            directory,
            volume,
            dbd,
            number,
            namings[number].holder,
        )?;
        if found.is_some() {
            return Ok(found);
        }
    }
    Ok(None)
}

/// Where a fault is found the key that was read last is not known.
fn forget_where_some(last: &mut LastKey, found: Option<Fault>)
    ensures none { IfNone found (last.new ≡ last.old) }
    ensures some { IfSome found (λ f. last.new.address ≡ 0) }
{
    if found.is_some() {
        last.address = 0;
    }
}

/// All twins whose keys are less than those of the twins before them, or equal where they are unique.
pub fn twin_keys_faults<S: BlockStore>(
    alloc: Global,
    places: &[Place],
    directory: &Directory,
    namings: &[Naming],
    volume: &mut Volume<S>,
    dbd: &Dbd,
) -> Result<Vec<Fault>, Refused>
    requires matched { IsTrue volume.old.is_sound → IsMatched dbd.now volume.old places.now }
    requires predecessors { IsTrue volume.old.is_sound → ArePredecessors dbd.now.types (links_of dbd.now.types volume.old) places.now namings.now }
    ensures read { IsRead volume.old result volume.new }
    ensures faults { IfOk result (λ faults. IsTrue volume.old.is_sound → AreStanding dbd.now volume.old 6 faults.items) }
    ensures refusal { OnlyDeviceOrMemory result }
{
    let mut faults = Vec::new(alloc);
    let mut last = no_key();
    for number in 0..places.len().min(namings.len()) {
        let found = key_fault(
            &mut last,
            places,
            directory,
            volume,
            dbd,
            number,
            namings[number].holder,
        )?;
        forget_where_some(&mut last, found);
        list_fault(&mut faults, found)?;
    }
    Ok(faults)
}
