//! Where a row goes in: the twin behind which it is linked.
ghost use Rattle.std.specs.Prelude.{◌≡◌, ◌<◌, List, ℕ, true, false, cond, Some, IfOk, IsTrue};
ghost use Rattle.std.specs.declared.cmp.Ordering.TheVariants.{Equal, Greater};
ghost use Rattle.hd_dbd.specs.Loads.{has_unique_key};
ghost use Rattle.hd_dbd.specs.Refusals.{OnlyDevice};
ghost use Rattle.hd_dbd.specs.Rows.{row_fits};
ghost use Rattle.hd_volume.specs.Calls.{IsRead};
ghost use Rattle.hd_image.specs.Records.{links_of};
ghost use Rattle.hd_forest.specs.TwinPlaces.{twin_places};
ghost use Rattle.hd_get.specs.Meeting.{IsStored};
ghost use Rattle.hd_get.specs.Searches.{IsOf};
ghost use Rattle.hd_get.specs.Starts.{HasRoots};
ghost use Rattle.hd_update.specs.Places.{has_key, side_of, side_at, IsGapBelow, HasParent, HasNextRoot, HasPlace, IsPlaceBelow, IsAroundKey, HasEnds};

use crate::here::place_here;
use crate::load_rule::key_order;
use hd_dbd::{Dbd, Refused, Rule, compare_keys};
use hd_forest::{
    EndChildren, Path, TwinPlaces, TwinsAround, first_and_last_child, forward_in, key_at,
    last_twin, prev_twin, tip_of, twin_places, twins_around_between,
};
use hd_index::{RootFrom, next_from};
use hd_position::Position;
use hd_stores::BlockStore;
use hd_volume::Volume;
use std::cmp::Ordering;

/// Where a new row goes beside a twin.
#[derive(Clone, Copy, Debug, PartialEq, Eq)]
pub enum Side {
    /// Before the twin.
    Before,
    /// Behind the twin.
    Behind,
    /// Nowhere: the twin has the row's key, which is unique.
    Taken,
}

/// Where a new row goes beside a twin with a key that so stands to its own, if it goes last among its equals or first.
fn side_of(dbd: &Dbd, code: u8, last: bool, order: Ordering) -> Side
    ensures { result ≡ side_of (has_unique_key dbd.now.types code) last order }
{
    match order {
        Ordering::Less => Side::Behind,
        Ordering::Greater => Side::Before,
        Ordering::Equal => {
            if dbd.has_unique_key(code) {
                return Side::Taken;
            }
            if last { Side::Behind } else { Side::Before }
        }
    }
}

/// Where a new row goes beside the twin at an address. One access.
fn side_at<S: BlockStore>(
    volume: &mut Volume<S>,
    dbd: &Dbd,
    twin: u32,
    last: bool,
    code: u8,
    bytes: &[u8],
) -> Result<Side, Refused>
    requires of { IsOf dbd.now volume.old }
    requires there { IsStored dbd.now volume.old twin }
    requires typed { IsTrue volume.old.is_sound → (links_of dbd.now.types volume.old).code twin ≡ code }
    ensures read { IsRead volume.old result volume.new }
    ensures value { IfOk result (λ r. IsTrue volume.old.is_sound → r ≡ side_at dbd.now.types (links_of dbd.now.types volume.old) last (record { code = code; bytes = bytes.now }) twin) }
    ensures refusal { OnlyDevice result }
{
    let order = key_order(volume, dbd, twin, code, bytes)?;
    Ok(side_of(dbd, code, last, order))
}

/// A twin that was met: where a new row goes beside it, and the address of the twin behind it, 0 for none.
#[derive(Clone, Copy)]
struct Met {
    side: Side,
    next: u32,
}

/// Meets the twin at an address, of a type whose segments have twin forward and the key at these places. One access.
fn meet_twin<S: BlockStore>(
    volume: &mut Volume<S>,
    dbd: &Dbd,
    places: TwinPlaces,
    twin: u32,
    last: bool,
    code: u8,
    bytes: &[u8],
) -> Result<Met, Refused>
    requires of { IsOf dbd.now volume.old }
    requires there { IsStored dbd.now volume.old twin }
    requires typed { IsTrue volume.old.is_sound → (links_of dbd.now.types volume.old).code twin ≡ code }
    requires places { twin_places dbd.now.types code ≡ Some places }
    ensures read { IsRead volume.old result volume.new }
    ensures side { IfOk result (λ r. IsTrue volume.old.is_sound → r.side ≡ side_at dbd.now.types (links_of dbd.now.types volume.old) last (record { code = code; bytes = bytes.now }) twin) }
    ensures next { IfOk result (λ r. IsTrue volume.old.is_sound → r.next ≡ (links_of dbd.now.types volume.old).forward twin) }
    ensures refusal { OnlyDevice result }
{
    let segment = volume.segment_at(twin)?;
    let order = compare_keys(key_at(places, segment), dbd.key_of(code, bytes));
    Ok(Met {
        side: side_of(dbd, code, last, order),
        next: forward_in(places, segment),
    })
}

/// Whether the segments of a type have a key.
fn has_key(dbd: &Dbd, code: u8) -> bool
    ensures { result ≡ has_key dbd.now.types code }
{
    match dbd.type_of(code) {
        Some(own) => own.key.is_some(),
        None => false,
    }
}

/// The place of a row among twins without key: before all, or behind the last. Only where the parents keep no last child are twins read.
fn place_without_key<S: BlockStore>(
    volume: &mut Volume<S>,
    dbd: &Dbd,
    parent: u32,
    last: bool,
    code: u8,
) -> Result<Option<u32>, Refused>
    requires parent { HasParent dbd.now volume.old parent code }
    requires without { has_key dbd.now.types code ≡ false }
    ensures read { IsRead volume.old result volume.new }
    ensures value { IfOk result (λ r. (bytes : List ℕ) → IsGapBelow dbd.now volume.old parent last (record { code = code; bytes = bytes }) r) }
    ensures refusal { OnlyDevice result }
{
    if !last {
        return Ok(Some(0));
    }
    let twin = last_twin(volume, dbd, parent, code)?;
    Ok(Some(twin))
}

/// The twins around a new row's key below a parent, whose children of its type have these ends. They are passed over from the end that is nearer to
/// the key.
fn around_key<S: BlockStore>(
    volume: &mut Volume<S>,
    dbd: &Dbd,
    places: TwinPlaces,
    parent: u32,
    ends: EndChildren,
    code: u8,
    bytes: &[u8],
) -> Result<TwinsAround, Refused>
    requires parent { HasParent dbd.now volume.old parent code }
    requires places { twin_places dbd.now.types code ≡ Some places }
    requires ends { HasEnds dbd.now volume.old parent code ends }
    ensures read { IsRead volume.old result volume.new }
    ensures value { IfOk result (λ r. IsAroundKey dbd.now volume.old parent (record { code = code; bytes = bytes.now }) r) }
    ensures refusal { OnlyDevice result }
{
    if ends.first == 0 {
        return Ok(TwinsAround {
            before: 0,
            from: 0,
            is_equal: false,
        });
    }
    twins_around_between(
        volume,
        dbd,
        places,
        ends.first,
        ends.last,
        dbd.key_of(code, bytes),
    )
}

/// The place of a row by key, among the children of its type that have these ends: behind the last one behind which it goes. The twins whose keys are
/// below are passed over block by block; of the others each is read once, and none behind that but the next.
fn place_among<S: BlockStore>(
    volume: &mut Volume<S>,
    dbd: &Dbd,
    parent: u32,
    ends: EndChildren,
    last: bool,
    code: u8,
    bytes: &[u8],
) -> Result<Option<u32>, Refused>
    requires parent { HasParent dbd.now volume.old parent code }
    requires ends { HasEnds dbd.now volume.old parent code ends }
    ensures read { IsRead volume.old result volume.new }
    ensures value { IfOk result (λ r. IsGapBelow dbd.now volume.old parent last (record { code = code; bytes = bytes.now }) r) }
    ensures refusal { OnlyDevice result }
{
    let Some(places) = twin_places(dbd, code) else {
        return place_without_key(volume, dbd, parent, last, code);
    };
    let most = volume.length();
    let around = around_key(volume, dbd, places, parent, ends, code, bytes)?;
    let mut before = around.before;
    let mut twin = around.from;
    for _ in 0..most {
        if twin == 0 {
            return Ok(Some(before));
        }
        let met = meet_twin(volume, dbd, places, twin, last, code, bytes)?;
        match met.side {
            Side::Before => return Ok(Some(before)),
            Side::Taken => return Ok(None),
            Side::Behind => {}
        }
        before = twin;
        twin = met.next;
    }
    Ok(Some(before))
}

/// The place of a row by key where the last child of its type is known: rows that come in ascending order go in behind that, and no other is read.
fn place_from_last<S: BlockStore>(
    volume: &mut Volume<S>,
    dbd: &Dbd,
    parent: u32,
    ends: EndChildren,
    last: bool,
    code: u8,
    bytes: &[u8],
) -> Result<Option<u32>, Refused>
    requires parent { HasParent dbd.now volume.old parent code }
    requires ends { HasEnds dbd.now volume.old parent code ends }
    requires some { 0 < ends.last }
    ensures read { IsRead volume.old result volume.new }
    ensures value { IfOk result (λ r. IsGapBelow dbd.now volume.old parent last (record { code = code; bytes = bytes.now }) r) }
    ensures refusal { OnlyDevice result }
{
    match side_at(volume, dbd, ends.last, last, code, bytes)? {
        Side::Behind => Ok(Some(ends.last)),
        Side::Taken => Ok(None),
        Side::Before => place_among(volume, dbd, parent, ends, last, code, bytes),
    }
}

/// The place of a row below a parent, where it goes last among its equals or first.
pub fn place_by_key<S: BlockStore>(
    volume: &mut Volume<S>,
    dbd: &Dbd,
    parent: u32,
    last: bool,
    code: u8,
    bytes: &[u8],
) -> Result<Option<u32>, Refused>
    requires parent { HasParent dbd.now volume.old parent code }
    ensures read { IsRead volume.old result volume.new }
    ensures value { IfOk result (λ r. IsGapBelow dbd.now volume.old parent last (record { code = code; bytes = bytes.now }) r) }
    ensures refusal { OnlyDevice result }
{
    if !has_key(dbd, code) {
        return place_without_key(volume, dbd, parent, last, code);
    }
    let ends = first_and_last_child(volume, dbd, parent, code)?;
    if ends.last == 0 {
        return place_among(volume, dbd, parent, ends, last, code, bytes);
    }
    place_from_last(volume, dbd, parent, ends, last, code, bytes)
}

/// How the key of a root that a search from a key on came to stands to that key.
fn order_of(root: RootFrom) -> Ordering
    ensures { result ≡ cond root.is_equal Equal Greater }
{
    if root.is_equal {
        Ordering::Equal
    } else {
        Ordering::Greater
    }
}

/// The place of a root before the first one whose key is not less, if that is not its own.
fn place_before_root<S: BlockStore>(
    volume: &mut Volume<S>,
    dbd: &Dbd,
    next: RootFrom,
    bytes: &[u8],
) -> Result<Option<u32>, Refused>
    requires next { HasNextRoot dbd.now volume.old (record { code = 1; bytes = bytes.now }) next }
    ensures read { IsRead volume.old result volume.new }
    ensures value { IfOk result (λ r. IsGapBelow dbd.now volume.old 0 false (record { code = 1; bytes = bytes.now }) r) }
    ensures refusal { OnlyDevice result }
{
    match side_of(dbd, 1, false, order_of(next)) {
        Side::Before => {
            let mut path = Path::new();
            path.push(next.address);
            let twin = prev_twin(volume, dbd, &path)?;
            Ok(Some(twin))
        }
        Side::Behind => Ok(None),
        Side::Taken => Ok(None),
    }
}

/// The place of a root, by the index: no root is read but the first whose key is not less, where there is one.
fn place_of_root<S: BlockStore>(
    volume: &mut Volume<S>,
    dbd: &Dbd,
    bytes: &[u8],
) -> Result<Option<u32>, Refused>
    requires holds { HasRoots dbd.now volume.old }
    ensures read { IsRead volume.old result volume.new }
    ensures value { IfOk result (λ r. IsGapBelow dbd.now volume.old 0 false (record { code = 1; bytes = bytes.now }) r) }
    ensures refusal { OnlyDevice result }
{
    match next_from(volume, dbd, dbd.key_of(1, bytes))? {
        Some(next) => place_before_root(volume, dbd, next, bytes),
        None => {
            let twin = last_twin(volume, dbd, 0, 1)?;
            Ok(Some(twin))
        }
    }
}

/// The twin behind which a row that goes in below a parent stands, 0 where it is the first of its type, and `None` where its key is unique
/// and a twin has it. It goes by key; among twins of equal key, or of none, by the rule: FIRST before all, LAST behind all, HERE before the
/// twin on which the PCB stands, and before all where it stands on none of them.
///
/// A root is found by the index. Of twins without key none is read where the place is known: before all, behind the last where last child
/// is kept, or before the one on which the PCB stands where twin backward is kept. By key the last twin is read first, where last child is
/// kept, and if the row does not go behind it the twins up to the one before which it goes: from the first on, or, where twin backward is kept and the
/// row's key is nearer to the last's, back from the last.
pub fn place_below<S: BlockStore>(
    volume: &mut Volume<S>,
    dbd: &Dbd,
    parent: &Path,
    position: &Position,
    rule: Rule,
    code: u8,
    bytes: &[u8],
) -> Result<Option<u32>, Refused>
    requires fits { row_fits dbd.now.types (record { code = code; bytes = bytes.now }) ≡ true }
    requires there { HasPlace dbd.now volume.old parent.now position.now code }
    ensures read { IsRead volume.old result volume.new }
    ensures value { IfOk result (λ place. IsPlaceBelow dbd.now volume.old parent.now position.now rule (record { code = code; bytes = bytes.now }) place) }
    ensures refusal { OnlyDevice result }
{
    if code == 1 {
        return place_of_root(volume, dbd, bytes);
    }
    match rule {
        Rule::First => place_by_key(volume, dbd, tip_of(parent), false, code, bytes),
        Rule::Last => place_by_key(volume, dbd, tip_of(parent), true, code, bytes),
        Rule::Here => place_here(volume, dbd, parent, position, code, bytes),
    }
}
