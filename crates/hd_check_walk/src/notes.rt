//! What a walk asks of the segments, noted in order of their places, so that each block is read once.
ghost use Rattle.std.specs.Prelude.{◌≡◌, ◌≢◌, ◌≤◌, ◌<◌, ℕ, ◌+◌, ◌++◌, [], length, true, IsTrue, IfOk, IfSome, OnOk};
ghost use Rattle.hd_dbd.specs.Prefixes.{prefix_length, children_of};
ghost use Rattle.hd_dbd.specs.Refusals.{OnlyMemory, OnlyDevice, OnlyDeviceOrMemory};
ghost use Rattle.hd_volume.specs.Calls.{IsRead};
ghost use Rattle.hd_links.specs.Links.{IsSegment};
ghost use Rattle.hd_image.specs.Records.{links_of, IsVolumeOf};
ghost use Rattle.hd_check_blocks.specs.Places.{ArePlaces};
ghost use Rattle.hd_check_blocks.specs.Finding.{WhereSome};
ghost use Rattle.hd_check_walk.specs.Reading.{OfRead, IsAsSeen};
ghost use Rattle.hd_check_walk.specs.Forms.{IsFormOf};
ghost use Rattle.hd_check_walk.specs.Notes.{named_in, named_at, seen_by, StaysNoted, HasChildrenAt, IsChildNumber, IsNoted, IsNotedFor, AreNamedFor, AreNoted, AreChildrenNoted};

use crate::segments::{FRONT, Form, Seen, form_of, seen_in};
use hd_check_blocks::Place;
use hd_dbd::{Dbd, Refused};
use hd_prefix::{Layout, Pointer};
use hd_stores::BlockStore;
use hd_volume::Volume;

/// Where the children of a segment that names none are noted: nowhere.
pub const CHILDLESS: u32 = u32::MAX;

/// What is seen of a segment, with where the children that it names are noted in place of whether it names none.
#[derive(Clone, Copy)]
pub struct Note {
    pub forward: u32,
    pub backward: u32,
    pub children: u32,
    pub front: [u8; FRONT],
}

/// The first and the last child of a type that a segment names; the last is 0 where it is not kept.
#[derive(Clone, Copy)]
pub struct Named {
    pub first: u32,
    pub last: u32,
}

/// Notes the first and the last child of each child type that a segment names behind those of other segments.
fn note_each_child(
    named: &mut Vec<Named>,
    dbd: &Dbd,
    code: u8,
    segment: &[u8],
) -> Result<(), Refused>
    requires whole { prefix_length dbd.now.types code ≤ length segment.now }
    ensures noted { OnOk result (named.new.items ≡ named.old.items ++ named_in dbd.now.types code segment.now (children_of dbd.now.types code)) }
    ensures refusal { OnlyMemory result }
{
    let layout = Layout::of(dbd, code);
    for child in dbd.children_of(code) {
        let first = layout.read(segment, Pointer::FirstChild(*child));
        let last = layout.read(segment, Pointer::LastChild(*child));
        named
            .push(Named { first, last })
            .map_err(|_| Refused::Memory)?;
    }
    Ok(())
}

/// Notes the children that a segment names behind those of other segments, and answers where; `None` where there are too many to number.
fn note_children(
    named: &mut Vec<Named>,
    dbd: &Dbd,
    code: u8,
    segment: &[u8],
) -> Result<Option<u32>, Refused>
    requires whole { prefix_length dbd.now.types code ≤ length segment.now }
    ensures stays { OnOk result (StaysNoted named.old.items named.new.items) }
    ensures some { IfOk result (λ o. IfSome o (λ p. p ≢ CHILDLESS)) }
    ensures children { IfOk result (λ o. IfSome o (λ p. (a : ℕ) → OfRead dbd.now a code segment.now (λ m. HasChildrenAt dbd.now.types m named.new.items p a))) }
    ensures refusal { OnlyMemory result }
{
    let start = named.len();
    if start >= CHILDLESS as usize {
        return Ok(None);
    }
    note_each_child(named, dbd, code, segment)?;
    Ok(Some(start as u32))
}

/// What is seen of a segment, noted with where the children that it names are noted.
fn note_with(seen: Seen, children: u32) -> Note
    ensures { result ≡ record { forward = seen.forward; backward = seen.backward; children = children; front = seen.front } }
{
    let front = seen.front;
    Note {
        forward: seen.forward,
        backward: seen.backward,
        children,
        front,
    }
}

/// What is noted of a segment; `None` where it is not right by itself, or its children are too many to number.
fn note_of(
    named: &mut Vec<Named>,
    dbd: &Dbd,
    code: u8,
    segment: &[u8],
) -> Result<Option<Note>, Refused>
    ensures stays { OnOk result (StaysNoted named.old.items named.new.items) }
    ensures noted { IfOk result (λ o. (a : ℕ) → OfRead dbd.now a code segment.now (λ m. IfSome o (λ n. IsNoted dbd.now.types m n a))) }
    ensures children { IfOk result (λ o. (a : ℕ) → OfRead dbd.now a code segment.now (λ m. IfSome o (λ n. n.children ≢ CHILDLESS → HasChildrenAt dbd.now.types m named.new.items n.children a))) }
    ensures refusal { OnlyMemory result }
{
    let form = form_of(dbd, code);
    let Some(seen) = seen_in(&form, dbd, code, segment) else {
        return Ok(None);
    };
    if seen.is_childless {
        return Ok(Some(note_with(seen, CHILDLESS)));
    }
    let Some(children) = note_children(named, dbd, code, segment)? else {
        return Ok(None);
    };
    Ok(Some(note_with(seen, children)))
}

/// Reads the segment at a place, and answers what is noted of it; `None` where it is not right by itself.
fn note_segment<S: BlockStore>(
    named: &mut Vec<Named>,
    place: Place,
    volume: &mut Volume<S>,
    dbd: &Dbd,
) -> Result<Option<Note>, Refused>
    requires of { IsTrue volume.old.is_sound → IsVolumeOf dbd.now volume.old }
    requires there { IsTrue volume.old.is_sound → IsSegment (links_of dbd.now.types volume.old) place.address × ((links_of dbd.now.types volume.old).code place.address ≡ place.code) }
    ensures read { IsRead volume.old result volume.new }
    ensures stays { OnOk result (StaysNoted named.old.items named.new.items) }
    ensures noted { WhereSome volume.old result (λ n. IsNoted dbd.now.types (links_of dbd.now.types volume.old) n place.address) }
    ensures children { WhereSome volume.old result (λ n. n.children ≢ CHILDLESS → HasChildrenAt dbd.now.types (links_of dbd.now.types volume.old) named.new.items n.children place.address) }
    ensures refusal { OnlyDeviceOrMemory result }
{
    let segment = volume.segment_at(place.address)?;
    note_of(named, dbd, place.code, segment)
}

/// Notes the segments at these places, and the children that they name; no where one of them is not right by itself.
pub fn note_segments<S: BlockStore>(
    notes: &mut Vec<Note>,
    named: &mut Vec<Named>,
    places: &[Place],
    volume: &mut Volume<S>,
    dbd: &Dbd,
) -> Result<bool, Refused>
    requires empty { notes.old.items ≡ [] }
    requires of { IsTrue volume.old.is_sound → IsVolumeOf dbd.now volume.old }
    requires places { IsTrue volume.old.is_sound → ArePlaces dbd.now.types volume.old places.now }
    ensures read { IsRead volume.old result volume.new }
    ensures noted { IfOk result (λ b. IsTrue volume.old.is_sound → b ≡ true → AreNoted dbd.now.types (links_of dbd.now.types volume.old) places.now notes.new.items) }
    ensures children { IfOk result (λ b. IsTrue volume.old.is_sound → b ≡ true → AreChildrenNoted dbd.now.types (links_of dbd.now.types volume.old) places.now notes.new.items named.new.items) }
    ensures refusal { OnlyDeviceOrMemory result }
{
    notes.reserve(places.len()).map_err(|_| Refused::Memory)?;
    for place in places {
        let Some(note) = note_segment(named, *place, volume, dbd)? else {
            return Ok(false);
        };
        if notes.push(note).is_err() {
            return Err(Refused::Memory);
        }
    }
    Ok(true)
}

/// What is seen of a segment by its note.
fn seen_by(note: &Note) -> Seen
    ensures { result ≡ seen_by note.now }
{
    let front = note.front;
    Seen {
        forward: note.forward,
        backward: note.backward,
        front,
        is_childless: note.children == CHILDLESS,
    }
}

/// What is seen of the segment of a number: by its note, or, where it has none, by its bytes; `None` where it is not right by itself.
pub fn look_at<S: BlockStore>(
    form: &Form,
    notes: &[Note],
    number: usize,
    place: Place,
    volume: &mut Volume<S>,
    dbd: &Dbd,
) -> Result<Option<Seen>, Refused>
    requires form { IsFormOf dbd.now.types place.code form.now }
    requires of { IsTrue volume.old.is_sound → IsVolumeOf dbd.now volume.old }
    requires there { IsTrue volume.old.is_sound → IsSegment (links_of dbd.now.types volume.old) place.address × ((links_of dbd.now.types volume.old).code place.address ≡ place.code) }
    requires noted { IsTrue volume.old.is_sound → IsNotedFor dbd.now.types (links_of dbd.now.types volume.old) notes.now number place.address }
    ensures read { IsRead volume.old result volume.new }
    ensures seen { WhereSome volume.old result (λ s. IsAsSeen dbd.now.types (links_of dbd.now.types volume.old) s place.address) }
    ensures refusal { OnlyDevice result }
{
    if let Some(note) = notes.get(number) {
        return Ok(Some(seen_by(note)));
    }
    let segment = volume.segment_at(place.address)?;
    Ok(seen_in(form, dbd, place.code, segment))
}

/// The first and the last child of a type, one of so many child types from the first, that a segment names, as noted; `None` where nothing is
/// noted of them.
fn noted_child(note: &Note, named: &[Named], index: usize) -> Option<Named>
    ensures some { IfSome result (λ n. note.now.children ≢ CHILDLESS) }
    ensures noted { IfSome result (λ n. n ≡ named_at named.now (note.now.children + index)) }
{
    if note.children == CHILDLESS {
        return None;
    }
    let position = (note.children as usize).checked_add(index)?;
    let pair = named.get(position)?;
    Some(*pair)
}

/// The first and the last child of a type that a segment names by its bytes; `None` where it is shorter than its prefix.
fn child_in(dbd: &Dbd, code: u8, segment: &[u8], child: u8) -> Option<Named>
    ensures first { (a : ℕ) → OfRead dbd.now a code segment.now (λ m. IfSome result (λ n. n.first ≡ m.first_child a child)) }
    ensures last { (a : ℕ) → OfRead dbd.now a code segment.now (λ m. IfSome result (λ n. n.last ≡ m.last_child a child)) }
{
    if segment.len() < dbd.prefix_length(code) as usize {
        return None;
    }
    let layout = Layout::of(dbd, code);
    Some(Named {
        first: layout.read(segment, Pointer::FirstChild(child)),
        last: layout.read(segment, Pointer::LastChild(child)),
    })
}

/// The first and the last child of a type that the segment of a number names, where so many of its child types come before this one: as noted,
/// or, where the segment has no note, as its bytes say.
pub fn children_named<S: BlockStore>(
    notes: &[Note],
    named: &[Named],
    number: usize,
    place: Place,
    index: usize,
    child: u8,
    volume: &mut Volume<S>,
    dbd: &Dbd,
) -> Result<Option<Named>, Refused>
    requires of { IsTrue volume.old.is_sound → IsVolumeOf dbd.now volume.old }
    requires there { IsTrue volume.old.is_sound → IsSegment (links_of dbd.now.types volume.old) place.address × ((links_of dbd.now.types volume.old).code place.address ≡ place.code) }
    requires child { IsTrue volume.old.is_sound → IsChildNumber dbd.now.types (links_of dbd.now.types volume.old) place.address index child }
    requires children { IsTrue volume.old.is_sound → AreNamedFor dbd.now.types (links_of dbd.now.types volume.old) notes.now named.now number place.address }
    ensures read { IsRead volume.old result volume.new }
    ensures first { WhereSome volume.old result (λ n. n.first ≡ (links_of dbd.now.types volume.old).first_child place.address child) }
    ensures last { WhereSome volume.old result (λ n. n.last ≡ (links_of dbd.now.types volume.old).last_child place.address child) }
    ensures refusal { OnlyDevice result }
{
    if let Some(note) = notes.get(number) {
        return Ok(noted_child(note, named, index));
    }
    let segment = volume.segment_at(place.address)?;
    Ok(child_in(dbd, place.code, segment, child))
}
