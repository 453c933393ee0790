//! A walk along a chain of twins.
ghost use Rattle.std.specs.Prelude.{◌≡◌, ◌≢◌, ℕ, ◌<◌, ◌++◌, ◌∷◌, [], length, slice_set, true, false, IsTrue, IfOk, IfSome, OnOk};
ghost use Rattle.std.specs.Ordering.{nat_cmp};
ghost use Rattle.std.specs.Cmp.Lexicographic.{slice_cmp};
ghost use Rattle.std.specs.declared.cmp.Ordering.TheVariants.{Less};
ghost use Rattle.hd_dbd.specs.Prefixes.{is_backward_kept};
ghost use Rattle.hd_dbd.specs.Refusals.{OnlyMemory, OnlyDevice, OnlyDeviceOrMemory};
ghost use Rattle.hd_volume.specs.Volumes.{VolumeState};
ghost use Rattle.hd_volume.specs.Calls.{IsRead};
ghost use Rattle.hd_links.specs.Links.{IsSegment};
ghost use Rattle.hd_links.specs.Pointers.{IsParentOfFirst, IsReached};
ghost use Rattle.hd_image.specs.Records.{links_of, IsVolumeOf};
ghost use Rattle.hd_check_blocks.specs.Places.{ArePlaces};
ghost use Rattle.hd_check_blocks.specs.Finding.{WhereSome};
ghost use Rattle.hd_check_pointers.specs.Tables.{nobody};
ghost use Rattle.hd_check_pointers.specs.Keys.{IsLastKey};
ghost use Rattle.hd_check_walk.specs.Reading.{IsAsSeen};
ghost use Rattle.hd_check_walk.specs.Notes.{IsNotedFor, AreNoted};
ghost use Rattle.hd_check_walk.specs.Forms.{IsFormOf};
ghost use Rattle.hd_check_walk.specs.Walks.{IsHeldBy, IsFollowed, IsUnheld, StaysHeld, LeadsTo, IsEnd, StepsIn};
ghost use Rattle.hd_check_walk.specs.Twins.{HasFront, HaveFronts, IsKeyBehind, TellsOrder};

use crate::beside::{Stand, walk_beside};
use crate::guide::Guide;
use crate::notes::{Note, look_at};
use crate::segments::{FRONT, Form, Seen, form_of};
use hd_check_blocks::{Directory, Place, number_near};
use hd_check_pointers::{LastKey, is_keyed, twin_order_fault};
use hd_dbd::{Dbd, Refused};
use hd_stores::BlockStore;
use hd_volume::Volume;

/// The holder of a segment to which no pointer led so far: no record stands there.
pub const NOBODY: u32 = u32::MAX;

/// Notes who holds the segment of a type at an address, and answers its number, which is looked for at one first; `None` where no segment
/// of the type stands there, or it is held already.
fn hold(
    holders: &mut Vec<u32>,
    places: &[Place],
    directory: &Directory,
    near: usize,
    address: u32,
    code: u8,
    holder: u32,
) -> Option<usize>
    requires as_many { length holders.old.items ≡ length places.now }
    ensures as_many { length holders.new.items ≡ length places.now }
    ensures unheld { IfSome result (λ n. IsUnheld places.now holders.old.items n address code) }
    ensures some { IfSome result (λ n. holder ≢ nobody) }
    ensures held { IfSome result (λ n. holders.new.items ≡ slice_set holders.old.items n holder) }
{
    let number = number_near(places, directory, address, near)?;
    if places[number].code != code || holders[number] != NOBODY || holder == NOBODY {
        return None;
    }
    holders[number] = holder;
    Some(number)
}

/// A twin to which a walk came, and the first eight bytes of its key; the address is 0 for none.
#[derive(Clone, Copy)]
pub struct Twin {
    pub address: u32,
    pub front: [u8; FRONT],
}

/// No twin.
fn no_twin() -> Twin
    ensures { result.address ≡ 0 }
{
    let front = [0; FRONT];
    Twin { address: 0, front }
}

/// A step of a walk: the number of the segment to which it came, its twin forward, and the segment as a twin.
#[derive(Clone, Copy)]
struct Step {
    number: usize,
    forward: u32,
    twin: Twin,
}

/// Notes the number of a segment behind those that wait, unless it names no children.
fn note_waiting(waiting: &mut Vec<usize>, number: usize, is_childless: bool) -> Result<(), Refused>
    ensures waits { OnOk result (is_childless ≡ false → waiting.new.items ≡ waiting.old.items ++ (number ∷ [])) }
    ensures childless { OnOk result (is_childless ≡ true → waiting.new.items ≡ waiting.old.items) }
    ensures refusal { OnlyMemory result }
{
    if !is_childless {
        waiting.push(number).map_err(|_| Refused::Memory)?;
    }
    Ok(())
}

/// Whether a twin backward that is noted is the twin before, 0 for none, where the type keeps it.
pub fn is_backward_right(dbd: &Dbd, code: u8, backward: u32, before: u32) -> bool
    ensures { result ≡ true → is_backward_kept dbd.now.types code ≡ true → backward ≡ before }
{
    backward == before || !dbd.keeps_backward(code)
}

/// Whether the first eight bytes of a key are less than those of another, which as numbers, highest byte first, they are.
fn is_less(one: [u8; FRONT], other: [u8; FRONT]) -> bool
    ensures { result ≡ true → slice_cmp nat_cmp one other ≡ Less }
{
    u64::from_be_bytes(one) < u64::from_be_bytes(other)
}

/// Whether the first eight bytes of the keys of two twins tell that the second may come behind the first: they are less, or there is no key.
pub fn is_told(dbd: &Dbd, code: u8, before: &Twin, twin: &Twin) -> bool
    ensures { (v : VolumeState) → IsVolumeOf dbd.now v → TellsOrder dbd.now.types (links_of dbd.now.types v) code before.now twin.now result }
{
    is_less(before.front, twin.front) || !is_keyed(dbd, code)
}

/// Whether the key of a twin of a type may come behind that of the twin before it, if there is one. The keys are read only where their first
/// eight bytes do not tell.
fn is_key_right<S: BlockStore>(
    last: &mut LastKey,
    volume: &mut Volume<S>,
    dbd: &Dbd,
    code: u8,
    before: Twin,
    twin: Twin,
) -> Result<bool, Refused>
    requires of { IsTrue volume.old.is_sound → IsVolumeOf dbd.now volume.old }
    requires twins { IsTrue volume.old.is_sound → before.address ≢ 0 → HaveFronts dbd.now.types (links_of dbd.now.types volume.old) code before twin }
    requires known { IsTrue volume.old.is_sound → IsLastKey dbd.now.types (links_of dbd.now.types volume.old) last.old }
    ensures read { IsRead volume.old result volume.new }
    ensures right { IfOk result (λ b. IsTrue volume.old.is_sound → b ≡ true → before.address ≢ 0 → IsKeyBehind dbd.now.types (links_of dbd.now.types volume.old) before.address twin.address) }
    ensures known { IfOk result (λ b. IsTrue volume.old.is_sound → b ≡ true → IsLastKey dbd.now.types (links_of dbd.now.types volume.old) last.new) }
    ensures refusal { OnlyDevice result }
{
    if before.address == 0 {
        return Ok(true);
    }
    if is_told(dbd, code, &before, &twin) {
        return Ok(true);
    }
    let place = Place {
        address: twin.address,
        code,
    };
    let fault = twin_order_fault(last, volume, dbd, before.address, place)?;
    Ok(fault.is_none())
}

/// What is seen of the segment of a number behind a twin, if there is one; `None` where it is not right there.
fn look_behind<S: BlockStore>(
    form: &Form,
    last: &mut LastKey,
    notes: &[Note],
    number: usize,
    place: Place,
    before: Twin,
    volume: &mut Volume<S>,
    dbd: &Dbd,
) -> Result<Option<Seen>, Refused>
    requires form { IsFormOf dbd.now.types place.code form.now }
    requires of { IsTrue volume.old.is_sound → IsVolumeOf dbd.now volume.old }
    requires there { IsTrue volume.old.is_sound → IsSegment (links_of dbd.now.types volume.old) place.address × ((links_of dbd.now.types volume.old).code place.address ≡ place.code) }
    requires noted { IsTrue volume.old.is_sound → IsNotedFor dbd.now.types (links_of dbd.now.types volume.old) notes.now number place.address }
    requires known { IsTrue volume.old.is_sound → IsLastKey dbd.now.types (links_of dbd.now.types volume.old) last.old }
    requires before { IsTrue volume.old.is_sound → before.address ≢ 0 → HasFront dbd.now.types (links_of dbd.now.types volume.old) place.code before }
    ensures read { IsRead volume.old result volume.new }
    ensures seen { WhereSome volume.old result (λ s. IsAsSeen dbd.now.types (links_of dbd.now.types volume.old) s place.address) }
    ensures backward { WhereSome volume.old result (λ s. is_backward_kept dbd.now.types place.code ≡ true → (links_of dbd.now.types volume.old).backward place.address ≡ before.address) }
    ensures key { WhereSome volume.old result (λ s. before.address ≢ 0 → IsKeyBehind dbd.now.types (links_of dbd.now.types volume.old) before.address place.address) }
    ensures known { WhereSome volume.old result (λ s. IsLastKey dbd.now.types (links_of dbd.now.types volume.old) last.new) }
    ensures refusal { OnlyDevice result }
{
    let Some(seen) = look_at(form, notes, number, place, volume, dbd)? else {
        return Ok(None);
    };
    if !is_backward_right(dbd, place.code, seen.backward, before.address) {
        return Ok(None);
    }
    let front = seen.front;
    let twin = Twin {
        address: place.address,
        front,
    };
    if !is_key_right(last, volume, dbd, place.code, before, twin)? {
        return Ok(None);
    }
    Ok(Some(seen))
}

/// Goes where a pointer of a record leads, to a segment of a type behind a twin; `None` where it is not right there. If it names children, its
/// number waits for them to be walked.
fn step_to<S: BlockStore>(
    form: &Form,
    holders: &mut Vec<u32>,
    waiting: &mut Vec<usize>,
    last: &mut LastKey,
    places: &[Place],
    notes: &[Note],
    guide: Guide,
    volume: &mut Volume<S>,
    dbd: &Dbd,
    holder: u32,
    code: u8,
    before: Twin,
    address: u32,
    near: usize,
) -> Result<Option<Step>, Refused>
    requires form { IsFormOf dbd.now.types code form.now }
    requires as_many { length holders.old.items ≡ length places.now }
    requires of { IsTrue volume.old.is_sound → IsVolumeOf dbd.now volume.old }
    requires places { IsTrue volume.old.is_sound → ArePlaces dbd.now.types volume.old places.now }
    requires noted { IsTrue volume.old.is_sound → AreNoted dbd.now.types (links_of dbd.now.types volume.old) places.now notes.now }
    requires known { IsTrue volume.old.is_sound → IsLastKey dbd.now.types (links_of dbd.now.types volume.old) last.old }
    requires leads { IsTrue volume.old.is_sound → LeadsTo dbd.now.types (links_of dbd.now.types volume.old) holder code before.address address }
    requires before { IsTrue volume.old.is_sound → before.address ≢ 0 → HasFront dbd.now.types (links_of dbd.now.types volume.old) code before }
    ensures read { IsRead volume.old result volume.new }
    ensures as_many { length holders.new.items ≡ length places.now }
    ensures known { WhereSome volume.old result (λ s. IsLastKey dbd.now.types (links_of dbd.now.types volume.old) last.new) }
    ensures kept { WhereSome volume.old result (λ s. StaysHeld holders.old.items holders.new.items) }
    ensures held { WhereSome volume.old result (λ s. IsHeldBy places.now holders.new.items holder code address) }
    ensures forward { WhereSome volume.old result (λ s. s.forward ≡ (links_of dbd.now.types volume.old).forward address) }
    ensures twin { WhereSome volume.old result (λ s. (s.twin.address ≡ address) × HasFront dbd.now.types (links_of dbd.now.types volume.old) code s.twin) }
    ensures walked { WhereSome volume.old result (λ s. StepsIn dbd.now volume.old places.now before.address address waiting.old.items holders.old.items waiting.new.items holders.new.items) }
    ensures refusal { OnlyDeviceOrMemory result }
{
    let directory = guide.directory;
    let Some(number) = hold(holders, places, directory, near, address, code, holder) else {
        return Ok(None);
    };
    let place = Place { address, code };
    let Some(seen) = look_behind(form, last, notes, number, place, before, volume, dbd)? else {
        return Ok(None);
    };
    note_waiting(waiting, number, seen.is_childless)?;
    let front = seen.front;
    let twin = Twin { address, front };
    Ok(Some(Step {
        number,
        forward: seen.forward,
        twin,
    }))
}

/// Who holds a segment: the twin before it, or the parent where that is 0.
fn holder_of(parent: u32, before: u32) -> u32
    ensures parent { before ≡ 0 → result ≡ parent }
    ensures twin { before ≢ 0 → result ≡ before }
{
    if before == 0 { parent } else { before }
}

/// Walks along the chain of twins of a type from the first, which a record names; the last of them, 0 where there is none, or `None`
/// where not all of them are right.
pub fn walk_twins<S: BlockStore>(
    holders: &mut Vec<u32>,
    waiting: &mut Vec<usize>,
    last: &mut LastKey,
    places: &[Place],
    notes: &[Note],
    guide: Guide,
    volume: &mut Volume<S>,
    dbd: &Dbd,
    parent: u32,
    code: u8,
    first: u32,
    near: usize,
) -> Result<Option<u32>, Refused>
    requires as_many { length holders.old.items ≡ length places.now }
    requires of { IsTrue volume.old.is_sound → IsVolumeOf dbd.now volume.old }
    requires places { IsTrue volume.old.is_sound → ArePlaces dbd.now.types volume.old places.now }
    requires noted { IsTrue volume.old.is_sound → AreNoted dbd.now.types (links_of dbd.now.types volume.old) places.now notes.now }
    requires known { IsTrue volume.old.is_sound → IsLastKey dbd.now.types (links_of dbd.now.types volume.old) last.old }
    requires parent { IsTrue volume.old.is_sound → IsParentOfFirst dbd.now.types (links_of dbd.now.types volume.old) parent code first }
    requires reached { IsTrue volume.old.is_sound → (n : ℕ) × IsReached dbd.now.types (links_of dbd.now.types volume.old) n parent }
    ensures read { IsRead volume.old result volume.new }
    ensures as_many { length holders.new.items ≡ length places.now }
    ensures known { WhereSome volume.old result (λ end. IsLastKey dbd.now.types (links_of dbd.now.types volume.old) last.new) }
    ensures kept { WhereSome volume.old result (λ end. StaysHeld holders.old.items holders.new.items) }
    ensures first { WhereSome volume.old result (λ end. IsFollowed places.now holders.new.items parent code first) }
    ensures end { WhereSome volume.old result (λ end. IsEnd (links_of dbd.now.types volume.old) first end) }
    ensures walked { WhereSome volume.old result (λ end. StepsIn dbd.now volume.old places.now 0 0 waiting.old.items holders.old.items waiting.new.items holders.new.items) }
    ensures refusal { OnlyDeviceOrMemory result }
{
    let form = form_of(dbd, code);
    let mut before = no_twin();
    let mut next = first;
    let mut near = near;
    for _turn in 0..=places.len() {
        if next == 0 {
            return Ok(Some(before.address));
        }
        let holder = holder_of(parent, before.address);
        let found = step_to(
            &form, holders, waiting, last, places, notes, guide, volume, dbd, holder, code, before,
            next, near,
        )?;
        let Some(step) = found else {
            return Ok(None);
        };
        let stand = Stand {
            twin: step.twin,
            next: step.forward,
            near: guide.behind(step.number),
        };
        let on = walk_beside(&form, holders, places, notes, volume, dbd, code, stand)?;
        before = on.twin;
        next = on.next;
        near = on.near;
    }
    Ok(None)
}
