//! A walk from the header down.
ghost use Rattle.std.specs.Prelude.{◌≡◌, ◌≢◌, ℕ, ◌<◌, length, slice_index, replicate, [], true, IsTrue, IfOk};
ghost use Rattle.hd_dbd.specs.Refusals.{OnlyMemory, OnlyDeviceOrMemory};
ghost use Rattle.hd_volume.specs.Calls.{IsRead};
ghost use Rattle.hd_links.specs.Links.{IsSegment, is_child_type, is_last_kept};
ghost use Rattle.hd_links.specs.Pointers.{IsReached, AreLinked};
ghost use Rattle.hd_image.specs.Records.{links_of, IsVolumeOf};
ghost use Rattle.hd_check_blocks.specs.Places.{ArePlaces, place_at};
ghost use Rattle.hd_check_pointers.specs.Tables.{nobody};
ghost use Rattle.hd_check_pointers.specs.Twins.{IsLastRight};
ghost use Rattle.hd_check_pointers.specs.Keys.{IsLastKey};
ghost use Rattle.hd_check_walk.specs.Notes.{IsChildNumber, AreNamedFor, AreNoted, AreChildrenNoted};
ghost use Rattle.hd_check_walk.specs.Walks.{IsFollowed, StaysHeld, AreChildrenWalked, WhereTrue, WalksOn, StepsIn};

use crate::guide::{Guide, twin_numbers};
use crate::notes::{Named, Note, children_named, note_segments};
use crate::scattered::are_scattered;
use crate::twins::{NOBODY, walk_twins};
use hd_check_blocks::{Directory, Place};
use hd_check_pointers::{LastKey, no_key};
use hd_dbd::{Dbd, Refused};
use hd_output::Work;
use hd_stores::BlockStore;
use hd_volume::Volume;
use std::alloc::Global;

/// Whether the twin to which a walk came last is the last child that is named, where it is kept.
fn is_last_named(dbd: &Dbd, child: u8, end: u32, last: u32) -> bool
    ensures { result ≡ true → is_last_kept dbd.now.types child ≡ true → end ≡ last }
{
    !dbd.keeps_last_child(child) || end == last
}

/// Walks along the chain of the children of a type of the segment of a number, where so many of its child types come before this one; whether all
/// of them are right.
fn walk_type<S: BlockStore>(
    holders: &mut Vec<u32>,
    waiting: &mut Vec<usize>,
    last: &mut LastKey,
    places: &[Place],
    notes: &[Note],
    named: &[Named],
    guide: Guide,
    volume: &mut Volume<S>,
    dbd: &Dbd,
    number: usize,
    place: Place,
    index: usize,
    child: u8,
) -> Result<bool, Refused>
    requires as_many { length holders.old.items ≡ length places.now }
    requires of { IsTrue volume.old.is_sound → IsVolumeOf dbd.now volume.old }
    requires places { IsTrue volume.old.is_sound → ArePlaces dbd.now.types volume.old places.now }
    requires noted { IsTrue volume.old.is_sound → AreNoted dbd.now.types (links_of dbd.now.types volume.old) places.now notes.now }
    requires known { IsTrue volume.old.is_sound → IsLastKey dbd.now.types (links_of dbd.now.types volume.old) last.old }
    requires there { IsTrue volume.old.is_sound → IsSegment (links_of dbd.now.types volume.old) place.address × ((links_of dbd.now.types volume.old).code place.address ≡ place.code) }
    requires typed { IsTrue volume.old.is_sound → is_child_type dbd.now.types ((links_of dbd.now.types volume.old).code place.address) child ≡ true }
    requires reached { IsTrue volume.old.is_sound → (n : ℕ) × IsReached dbd.now.types (links_of dbd.now.types volume.old) n place.address }
    requires child { IsTrue volume.old.is_sound → IsChildNumber dbd.now.types (links_of dbd.now.types volume.old) place.address index child }
    requires children { IsTrue volume.old.is_sound → AreNamedFor dbd.now.types (links_of dbd.now.types volume.old) notes.now named.now number place.address }
    ensures read { IsRead volume.old result volume.new }
    ensures as_many { length holders.new.items ≡ length places.now }
    ensures known { WhereTrue volume.old result (IsLastKey dbd.now.types (links_of dbd.now.types volume.old) last.new) }
    ensures kept { WhereTrue volume.old result (StaysHeld holders.old.items holders.new.items) }
    ensures first { WhereTrue volume.old result (IsFollowed places.now holders.new.items place.address child ((links_of dbd.now.types volume.old).first_child place.address child)) }
    ensures last { WhereTrue volume.old result (is_last_kept dbd.now.types child ≡ true → IsLastRight (links_of dbd.now.types volume.old) place.address child) }
    ensures walked { WhereTrue volume.old result (StepsIn dbd.now volume.old places.now 0 0 waiting.old.items holders.old.items waiting.new.items holders.new.items) }
    ensures refusal { OnlyDeviceOrMemory result }
{
    let Some(pair) = children_named(notes, named, number, place, index, child, volume, dbd)? else {
        return Ok(false);
    };
    let found = walk_twins(
        holders,
        waiting,
        last,
        places,
        notes,
        guide,
        volume,
        dbd,
        place.address,
        child,
        pair.first,
        number.saturating_add(1),
    )?;
    match found {
        None => Ok(false),
        Some(end) => Ok(is_last_named(dbd, child, end, pair.last)),
    }
}

/// Walks along the chains of the children of the segment of a number; whether all of them are right.
fn walk_children<S: BlockStore>(
    holders: &mut Vec<u32>,
    waiting: &mut Vec<usize>,
    last: &mut LastKey,
    places: &[Place],
    notes: &[Note],
    named: &[Named],
    guide: Guide,
    volume: &mut Volume<S>,
    dbd: &Dbd,
    number: usize,
) -> Result<bool, Refused>
    requires as_many { length holders.old.items ≡ length places.now }
    requires of { IsTrue volume.old.is_sound → IsVolumeOf dbd.now volume.old }
    requires places { IsTrue volume.old.is_sound → ArePlaces dbd.now.types volume.old places.now }
    requires noted { IsTrue volume.old.is_sound → AreNoted dbd.now.types (links_of dbd.now.types volume.old) places.now notes.now }
    requires children { IsTrue volume.old.is_sound → AreChildrenNoted dbd.now.types (links_of dbd.now.types volume.old) places.now notes.now named.now }
    requires known { IsTrue volume.old.is_sound → IsLastKey dbd.now.types (links_of dbd.now.types volume.old) last.old }
    requires reached { IsTrue volume.old.is_sound → (n : ℕ) × IsReached dbd.now.types (links_of dbd.now.types volume.old) n (place_at places.now number).address }
    ensures read { IsRead volume.old result volume.new }
    ensures as_many { length holders.new.items ≡ length places.now }
    ensures known { WhereTrue volume.old result (IsLastKey dbd.now.types (links_of dbd.now.types volume.old) last.new) }
    ensures kept { WhereTrue volume.old result (StaysHeld holders.old.items holders.new.items) }
    ensures walked { WhereTrue volume.old result (WalksOn dbd.now.types (links_of dbd.now.types volume.old) places.now number waiting.old.items holders.old.items waiting.new.items holders.new.items) }
    ensures refusal { OnlyDeviceOrMemory result }
{
    if number >= places.len() {
        return Ok(false);
    }
    let place = places[number];
    let mut index: usize = 0;
    for child in dbd.children_of(place.code) {
        if !walk_type(
            holders, waiting, last, places, notes, named, guide, volume, dbd, number, place, index,
            *child,
        )? {
            return Ok(false);
        }
        index += 1;
    }
    Ok(true)
}

/// Whether each segment is held.
fn all_held(holders: &[u32]) -> bool
    ensures { result ≡ true → (i : ℕ) → i < length holders.now → slice_index holders.now i ≢ nobody }
{
    for holder in holders {
        if *holder == NOBODY {
            return false;
        }
    }
    true
}

/// The holders of so many segments before a walk.
fn unheld(alloc: Global, count: usize) -> Result<Vec<u32>, Refused>
    ensures none { IfOk result (λ holders. holders.items ≡ replicate count nobody) }
    ensures refusal { OnlyMemory result }
{
    let Ok(holders) = vec![in alloc; NOBODY; count] else {
        return Err(Refused::Memory);
    };
    Ok(holders)
}

/// Walks along the chain of the roots; whether all of them are right.
fn walk_roots<S: BlockStore>(
    holders: &mut Vec<u32>,
    waiting: &mut Vec<usize>,
    last: &mut LastKey,
    places: &[Place],
    notes: &[Note],
    guide: Guide,
    volume: &mut Volume<S>,
    dbd: &Dbd,
) -> Result<bool, Refused>
    requires as_many { length holders.old.items ≡ length places.now }
    requires of { IsTrue volume.old.is_sound → IsVolumeOf dbd.now volume.old }
    requires places { IsTrue volume.old.is_sound → ArePlaces dbd.now.types volume.old places.now }
    requires noted { IsTrue volume.old.is_sound → AreNoted dbd.now.types (links_of dbd.now.types volume.old) places.now notes.now }
    requires known { IsTrue volume.old.is_sound → IsLastKey dbd.now.types (links_of dbd.now.types volume.old) last.old }
    ensures read { IsRead volume.old result volume.new }
    ensures as_many { length holders.new.items ≡ length places.now }
    ensures known { WhereTrue volume.old result (IsLastKey dbd.now.types (links_of dbd.now.types volume.old) last.new) }
    ensures header { WhereTrue volume.old result (AreChildrenWalked dbd.now.types (links_of dbd.now.types volume.old) places.now holders.new.items 0) }
    ensures walked { WhereTrue volume.old result (StepsIn dbd.now volume.old places.now 0 0 waiting.old.items holders.old.items waiting.new.items holders.new.items) }
    ensures refusal { OnlyDeviceOrMemory result }
{
    let first = volume.first_root();
    let end = volume.last_root();
    let found = walk_twins(
        holders, waiting, last, places, notes, guide, volume, dbd, 0, 1, first, 0,
    )?;
    match found {
        None => Ok(false),
        Some(last_root) => Ok(last_root == end),
    }
}

/// Whether the segments of a volume are linked, as far as a walk tells, over what is noted of them.
fn walk_volume<S: BlockStore>(
    alloc: Global,
    places: &[Place],
    notes: &[Note],
    named: &[Named],
    directory: &Directory,
    volume: &mut Volume<S>,
    dbd: &Dbd,
) -> Result<bool, Refused>
    requires of { IsTrue volume.old.is_sound → IsVolumeOf dbd.now volume.old }
    requires places { IsTrue volume.old.is_sound → ArePlaces dbd.now.types volume.old places.now }
    requires noted { IsTrue volume.old.is_sound → AreNoted dbd.now.types (links_of dbd.now.types volume.old) places.now notes.now }
    requires children { IsTrue volume.old.is_sound → AreChildrenNoted dbd.now.types (links_of dbd.now.types volume.old) places.now notes.now named.now }
    ensures read { IsRead volume.old result volume.new }
    ensures linked { WhereTrue volume.old result (AreLinked dbd.now.types (links_of dbd.now.types volume.old)) }
    ensures refusal { OnlyDeviceOrMemory result }
{
    let twins = twin_numbers(alloc, notes, directory)?;
    let guide = Guide {
        directory,
        twins: &twins,
    };
    volume.begin_work(places.len() as u64, Work::Segments);
    let mut holders = unheld(alloc, places.len())?;
    let mut waiting: Vec<usize> = Vec::new(alloc);
    let mut last = no_key();
    if !walk_roots(
        &mut holders,
        &mut waiting,
        &mut last,
        places,
        notes,
        guide,
        volume,
        dbd,
    )? {
        return Ok(false);
    }
    for _turn in 0..=places.len() {
        let Some(number) = waiting.pop() else {
            return Ok(all_held(&holders));
        };
        if !walk_children(
            &mut holders,
            &mut waiting,
            &mut last,
            places,
            notes,
            named,
            guide,
            volume,
            dbd,
            number,
        )? {
            return Ok(false);
        }
    }
    Ok(false)
}

/// Notes the segments at these places if they lie scattered; no where one of them is not right by itself.
fn note_scattered<S: BlockStore>(
    notes: &mut Vec<Note>,
    named: &mut Vec<Named>,
    places: &[Place],
    volume: &mut Volume<S>,
    dbd: &Dbd,
) -> Result<bool, Refused>
    requires empty { notes.old.items ≡ [] }
    requires of { IsTrue volume.old.is_sound → IsVolumeOf dbd.now volume.old }
    requires places { IsTrue volume.old.is_sound → ArePlaces dbd.now.types volume.old places.now }
    ensures read { IsRead volume.old result volume.new }
    ensures noted { WhereTrue volume.old result (AreNoted dbd.now.types (links_of dbd.now.types volume.old) places.now notes.new.items) }
    ensures children { WhereTrue volume.old result (AreChildrenNoted dbd.now.types (links_of dbd.now.types volume.old) places.now notes.new.items named.new.items) }
    ensures refusal { OnlyDeviceOrMemory result }
{
    if !are_scattered(places, volume, dbd)? {
        return Ok(true);
    }
    note_segments(notes, named, places, volume, dbd)
}

/// Whether the segments of a volume whose blocks are right are linked, as far as one walk along their pointers tells. Where they lie in order
/// the walk reads each segment where it comes to it; where they lie scattered they are read before, block by block, and noted, and the walk goes over
/// the notes. It reads two of them again only where the first eight bytes of a key are not less than those of the next twin's. Where it comes to a
/// pointer that is wrong it says no, and not what is wrong.
pub fn are_linked<S: BlockStore>(
    alloc: Global,
    places: &[Place],
    directory: &Directory,
    volume: &mut Volume<S>,
    dbd: &Dbd,
) -> Result<bool, Refused>
    requires of { IsTrue volume.old.is_sound → IsVolumeOf dbd.now volume.old }
    requires places { IsTrue volume.old.is_sound → ArePlaces dbd.now.types volume.old places.now }
    ensures read { IsRead volume.old result volume.new }
    ensures linked { WhereTrue volume.old result (AreLinked dbd.now.types (links_of dbd.now.types volume.old)) }
    ensures refusal { OnlyDeviceOrMemory result }
{
    let mut notes = Vec::new(alloc);
    let mut named = Vec::new(alloc);
    if !note_scattered(&mut notes, &mut named, places, volume, dbd)? {
        return Ok(false);
    }
    walk_volume(alloc, places, &notes, &named, directory, volume, dbd)
}
