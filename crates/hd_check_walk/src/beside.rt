//! A walk along twins that stand one behind another in a block.
ghost use Rattle.std.specs.Prelude.{◌≡◌, ◌≢◌, ◌<◌, length, slice_index, true, Some, IsTrue, IfOk};
ghost use Rattle.hd_dbd.specs.Refusals.{OnlyDevice};
ghost use Rattle.hd_volume.specs.Volumes.{VolumeState};
ghost use Rattle.hd_volume.specs.Calls.{IsRead};
ghost use Rattle.hd_image.specs.Records.{links_of, IsVolumeOf};
ghost use Rattle.hd_check_blocks.specs.Places.{ArePlaces, place_at};
ghost use Rattle.hd_check_blocks.specs.DataBlocks.{OfDataBlock};
ghost use Rattle.hd_check_pointers.specs.Tables.{nobody};
ghost use Rattle.hd_check_walk.specs.Reading.{IsAsSeen};
ghost use Rattle.hd_check_walk.specs.Forms.{IsFormOf};
ghost use Rattle.hd_check_walk.specs.Walks.{IsUnheld};
ghost use Rattle.hd_check_walk.specs.GoingOn.{IsPlainBehind, GoesOn};

use crate::notes::Note;
use crate::segments::{Form, Seen, seen_first};
use crate::twins::{NOBODY, Twin, is_backward_right, is_told};
use hd_check_blocks::{KeyPlace, Place, bytes_from};
use hd_dbd::{Dbd, Refused};
use hd_stores::BlockStore;
use hd_volume::Volume;

/// Where a walk along a chain of twins stands: behind a twin, with the one behind it, 0 for none, and the number at which to look first for that.
#[derive(Clone, Copy)]
pub struct Stand {
    pub twin: Twin,
    pub next: u32,
    pub near: usize,
}

/// Whether the place of a number is that of a segment of a type at an address.
fn is_there(places: &[Place], number: usize, address: u32, code: u8) -> bool
    ensures { result ≡ true → (number < length places.now) × (place_at places.now number ≡ record { address = address; code = code }) }
{
    if number >= places.len() {
        return false;
    }
    let place = places[number];
    place.address == address && place.code == code
}

/// Whether nobody holds the segment of a number.
fn is_unheld(holders: &[u32], number: usize) -> bool
    ensures { result ≡ true → (number < length holders.now) × (slice_index holders.now number ≡ nobody) }
{
    number < holders.len() && holders[number] == NOBODY
}

/// Whether a segment of a type that is seen at an address names no children, and is right behind a twin.
fn is_plain(dbd: &Dbd, code: u8, before: &Twin, address: u32, seen: &Seen) -> bool
    ensures { (v : VolumeState) → IsVolumeOf dbd.now v → IsAsSeen dbd.now.types (links_of dbd.now.types v) seen.now address → result ≡ true → IsPlainBehind dbd.now.types (links_of dbd.now.types v) code before.now address seen.now }
{
    if !seen.is_childless || !is_backward_right(dbd, code, seen.backward, before.address) {
        return false;
    }
    let front = seen.front;
    let twin = Twin { address, front };
    is_told(dbd, code, before, &twin)
}

/// Walks on along a chain of twins in the bytes of a block that begins at an address, as long as each of them is at the next place from a number on, nobody
/// holds it, it is right behind the one before it, and it names no children.
fn walk_block(
    form: &Form,
    own: KeyPlace,
    holders: &mut Vec<u32>,
    places: &[Place],
    bytes: &[u8],
    first: u32,
    dbd: &Dbd,
    code: u8,
    from: Stand,
) -> Stand
    requires form { IsFormOf dbd.now.types code form.now }
    requires own { form.now.key ≡ Some own }
    requires as_many { length holders.old.items ≡ length places.now }
    ensures as_many { length holders.new.items ≡ length places.now }
    ensures goes { OfDataBlock dbd.now places.now bytes.now first (λ v. GoesOn dbd.now.types (links_of dbd.now.types v) places.now code from holders.old.items result holders.new.items) }
{
    let mut twin = from.twin;
    let mut next = from.next;
    for number in from.near..places.len() {
        let stand = Stand {
            twin,
            next,
            near: number,
        };
        if twin.address == NOBODY
            || !is_there(places, number, next, code)
            || !is_unheld(holders, number)
        {
            return stand;
        }
        let Some(segment) = bytes_from(bytes, first, next) else {
            return stand;
        };
        let Some(seen) = seen_first(form, own, dbd, code, segment) else {
            return stand;
        };
        if !is_plain(dbd, code, &twin, next, &seen) {
            return stand;
        }
        holders[number] = twin.address;
        let front = seen.front;
        twin = Twin {
            address: next,
            front,
        };
        next = seen.forward;
    }
    Stand {
        twin,
        next,
        near: places.len(),
    }
}

/// Walks on along a chain of twins of a type, whose segments are all of one length, in the block of the next one, which is read, where nothing is noted and
/// that one is at the next place.
pub fn walk_beside<S: BlockStore>(
    form: &Form,
    holders: &mut Vec<u32>,
    places: &[Place],
    notes: &[Note],
    volume: &mut Volume<S>,
    dbd: &Dbd,
    code: u8,
    from: Stand,
) -> Result<Stand, Refused>
    requires form { IsFormOf dbd.now.types code form.now }
    requires as_many { length holders.old.items ≡ length places.now }
    requires of { IsTrue volume.old.is_sound → IsVolumeOf dbd.now volume.old }
    requires places { IsTrue volume.old.is_sound → ArePlaces dbd.now.types volume.old places.now }
    ensures read { IsRead volume.old result volume.new }
    ensures as_many { length holders.new.items ≡ length places.now }
    ensures goes { IfOk result (λ to. IsTrue volume.old.is_sound → GoesOn dbd.now.types (links_of dbd.now.types volume.old) places.now code from holders.old.items to holders.new.items) }
    ensures refusal { OnlyDevice result }
{
    let Some(own) = form.key else {
        volume.work_done(1);
        return Ok(from);
    };
    if !notes.is_empty() || !is_there(places, from.near, from.next, code) {
        volume.work_done(1);
        return Ok(from);
    }
    let size = volume.block_size() as u32;
    let n = from.next / size;
    let bytes = volume.block(n)?;
    let to = walk_block(form, own, holders, places, bytes, n * size, dbd, code, from);
    let count = to.near.saturating_sub(from.near) as u64;
    volume.work_done(count.saturating_add(1));
    Ok(to)
}
