//! Twins around a key, looked for from the end of their chain that is nearer to it.
ghost use Rattle.std.specs.Prelude.{◌≡◌, ◌↔◌, ◌-◌, ◌<◌, ◌/◌, ◌+◌, ◌≤◌, true, IsTrue, Some, IfSome, IfOk};
ghost use Rattle.hd_bytes.specs.Blocks.{HasBlock};
ghost use Rattle.hd_dbd.specs.Refusals.{OnlyDevice};
ghost use Rattle.hd_dbd.specs.KeyNumbers.{IsNumberOf};
ghost use Rattle.hd_volume.specs.Calls.{IsRead};
ghost use Rattle.hd_links.specs.Links.{IsSegment, segment_at};
ghost use Rattle.hd_links.specs.Pointers.{IsInChain};
ghost use Rattle.hd_image.specs.Records.{links_of, IsVolumeOf};
ghost use Rattle.hd_forest.specs.Walks.{HasForest};
ghost use Rattle.hd_forest.specs.Twins.{is_key_below, MayBegin, IsTwinFrom, IsLastBelow, IsOfKey};
ghost use Rattle.hd_forest.specs.TwinPlaces.{twin_places};
ghost use Rattle.hd_forest.specs.BackTwins.{IsBelowAt, IsBackWalkFrom};

use crate::back_twins::{Back, back_in, number_below, number_from};
use crate::twins::{TwinPlaces, TwinsAround, around_by_number};
use hd_dbd::{Dbd, Refused, number_of_key};
use hd_stores::BlockStore;
use hd_volume::Volume;

/// A number for the key of the last twin, which is at an address. One access.
fn last_number<S: BlockStore>(
    volume: &mut Volume<S>,
    places: TwinPlaces,
    address: u32,
) -> Result<Option<u64>, Refused>
    requires there { IsTrue volume.old.is_sound → HasBlock volume.old.size volume.old.image (address / volume.old.size) }
    ensures read { IsRead volume.old result volume.new }
    ensures refusal { OnlyDevice result }
{
    let size = volume.block_size() as u32;
    let n = volume.block_number(address);
    let block = volume.block(n)?;
    Ok(number_from(places, block, n * size, address))
}

/// A number for the key of the first twin, which is at an address, if that is below a key. One access.
fn first_number<S: BlockStore>(
    volume: &mut Volume<S>,
    places: TwinPlaces,
    address: u32,
    key: &[u8],
    number: u64,
) -> Result<Option<u64>, Refused>
    requires there { IsTrue volume.old.is_sound → HasBlock volume.old.size volume.old.image (address / volume.old.size) }
    requires number { IsNumberOf places.length key.now number }
    ensures read { IsRead volume.old result volume.new }
    ensures below { IfOk result (λ r. IfSome r (λ _. IsTrue volume.old.is_sound → IsBelowAt volume.old places key.now address)) }
    ensures refusal { OnlyDevice result }
{
    let size = volume.block_size() as u32;
    let n = volume.block_number(address);
    let block = volume.block(n)?;
    Ok(number_below(places, block, n * size, address, key, number))
}

/// Whether a number lies nearer to the higher of two than to the lower.
fn is_nearer_high(low: u64, number: u64, high: u64) -> bool
    ensures { (result ≡ true) ↔ (high - number < number - low) }
{
    high.saturating_sub(number) < number.saturating_sub(low)
}

/// Whether a key, which has a number, is above that of the first twin and nearer to that of the last. Two accesses.
fn is_nearer_last<S: BlockStore>(
    volume: &mut Volume<S>,
    dbd: &Dbd,
    places: TwinPlaces,
    first: u32,
    last: u32,
    key: &[u8],
    number: u64,
) -> Result<bool, Refused>
    requires of { IsTrue volume.old.is_sound → IsVolumeOf dbd.now volume.old }
    requires first { IsTrue volume.old.is_sound → IsSegment (links_of dbd.now.types volume.old) first }
    requires last { IsTrue volume.old.is_sound → IsSegment (links_of dbd.now.types volume.old) last }
    requires places { IsTrue volume.old.is_sound → twin_places dbd.now.types ((links_of dbd.now.types volume.old).code first) ≡ Some places }
    requires number { IsNumberOf places.length key.now number }
    ensures read { IsRead volume.old result volume.new }
    ensures below { IfOk result (λ r. IsTrue volume.old.is_sound → r ≡ true → is_key_below dbd.now.types key.now (segment_at (links_of dbd.now.types volume.old) first) ≡ true) }
    ensures refusal { OnlyDevice result }
{
    let Some(high) = last_number(volume, places, last)? else {
        return Ok(false);
    };
    let Some(low) = first_number(volume, places, first, key, number)? else {
        return Ok(false);
    };
    Ok(is_nearer_high(low, number, high))
}

/// Goes back over the twins of one block from the one at an address on, as far as their keys are not below a key. One access.
fn back_block<S: BlockStore>(
    volume: &mut Volume<S>,
    places: TwinPlaces,
    backward: u16,
    address: u32,
    key: &[u8],
    number: u64,
) -> Result<Back, Refused>
    requires there { IsTrue volume.old.is_sound → HasBlock volume.old.size volume.old.image (address / volume.old.size) }
    requires number { IsNumberOf places.length key.now number }
    requires backward { backward + 4 ≤ places.key }
    ensures read { IsRead volume.old result volume.new }
    ensures value { IfOk result (λ r. IsTrue volume.old.is_sound → IsBackWalkFrom volume.old places backward key.now address r) }
    ensures refusal { OnlyDevice result }
{
    let size = volume.block_size() as u32;
    let n = volume.block_number(address);
    let block = volume.block(n)?;
    Ok(back_in(places, backward, block, n * size, address, key, number))
}

/// Goes back from the last of the twins, whose first has a key below a key, to the first met whose key is below. One access for each run of twins that
/// lie in one block.
fn twin_back<S: BlockStore>(
    volume: &mut Volume<S>,
    dbd: &Dbd,
    places: TwinPlaces,
    backward: u16,
    first: u32,
    last: u32,
    key: &[u8],
    number: u64,
) -> Result<u32, Refused>
    requires of { IsTrue volume.old.is_sound → IsVolumeOf dbd.now volume.old }
    requires holds { IsTrue volume.old.is_sound → HasForest dbd.now volume.old }
    requires first { IsTrue volume.old.is_sound → IsSegment (links_of dbd.now.types volume.old) first }
    requires below { IsTrue volume.old.is_sound → is_key_below dbd.now.types key.now (segment_at (links_of dbd.now.types volume.old) first) ≡ true }
    requires last { IsTrue volume.old.is_sound → IsInChain (links_of dbd.now.types volume.old) first last }
    requires places { IsTrue volume.old.is_sound → twin_places dbd.now.types ((links_of dbd.now.types volume.old).code first) ≡ Some places }
    requires number { IsNumberOf places.length key.now number }
    requires backward { places.backward ≡ Some backward }
    requires room { backward + 4 ≤ places.key }
    ensures read { IsRead volume.old result volume.new }
    ensures value { IfOk result (λ r. IsTrue volume.old.is_sound → MayBegin dbd.now.types (links_of dbd.now.types volume.old) key.now first r) }
    ensures refusal { OnlyDevice result }
{
    let most = volume.length();
    let mut twin = last;
    for count in 0..most {
        let back = back_block(volume, places, backward, twin, key, number)?;
        if back.is_below {
            return Ok(back.twin);
        }
        if back.twin == 0 {
            return Ok(first);
        }
        twin = back.twin;
    }
    Ok(first)
}

/// A twin where a walk for a key may begin in place of the first: where the key is nearer to that of the last, 0 for one that is not known, the twins are
/// gone back over as far as their keys are not below it. The first itself where the type has no twin backward or the key no number.
fn near_twin<S: BlockStore>(
    volume: &mut Volume<S>,
    dbd: &Dbd,
    places: TwinPlaces,
    first: u32,
    last: u32,
    key: &[u8],
    number: Option<u64>,
) -> Result<u32, Refused>
    requires of { IsTrue volume.old.is_sound → IsVolumeOf dbd.now volume.old }
    requires holds { IsTrue volume.old.is_sound → HasForest dbd.now volume.old }
    requires there { IsTrue volume.old.is_sound → IsSegment (links_of dbd.now.types volume.old) first }
    requires last { IsTrue volume.old.is_sound → 0 < last → IsInChain (links_of dbd.now.types volume.old) first last }
    requires places { IsTrue volume.old.is_sound → twin_places dbd.now.types ((links_of dbd.now.types volume.old).code first) ≡ Some places }
    requires number { IfSome number (λ n. IsNumberOf places.length key.now n) }
    ensures read { IsRead volume.old result volume.new }
    ensures value { IfOk result (λ r. IsTrue volume.old.is_sound → MayBegin dbd.now.types (links_of dbd.now.types volume.old) key.now first r) }
    ensures refusal { OnlyDevice result }
{
    if last == 0 || last == first {
        return Ok(first);
    }
    let Some(backward) = places.backward else {
        return Ok(first);
    };
    let Some(number) = number else {
        return Ok(first);
    };
    if backward as usize + 4 > places.key {
        return Ok(first);
    }
    if !is_nearer_last(volume, dbd, places, first, last, key, number)? {
        return Ok(first);
    }
    twin_back(volume, dbd, places, backward, first, last, key, number)
}

/// Of the twins from a first to a last, 0 for one that is not known, of a type whose segments have twin forward and the key at these places, those around
/// a key, as `twins_around` finds them from the first on.
///
/// Where the last is known, the type has twin backward and the key at most eight bytes, the first and the last are read, and, where the key is nearer to
/// that of the last, the twins from there back to the first met whose key is below it; then the twins from that on, or from the first, up to the first
/// whose key is not below. One access for each run of twins that lie in one block.
pub fn twins_around_between<S: BlockStore>(
    volume: &mut Volume<S>,
    dbd: &Dbd,
    places: TwinPlaces,
    first: u32,
    last: u32,
    key: &[u8],
) -> Result<TwinsAround, Refused>
    requires of { IsTrue volume.old.is_sound → IsVolumeOf dbd.now volume.old }
    requires holds { IsTrue volume.old.is_sound → HasForest dbd.now volume.old }
    requires there { IsTrue volume.old.is_sound → IsSegment (links_of dbd.now.types volume.old) first }
    requires last { IsTrue volume.old.is_sound → 0 < last → IsInChain (links_of dbd.now.types volume.old) first last }
    requires places { IsTrue volume.old.is_sound → twin_places dbd.now.types ((links_of dbd.now.types volume.old).code first) ≡ Some places }
    ensures read { IsRead volume.old result volume.new }
    ensures from { IfOk result (λ r. IsTrue volume.old.is_sound → IsTwinFrom dbd.now.types (links_of dbd.now.types volume.old) key.now first r.from) }
    ensures before { IfOk result (λ r. IsTrue volume.old.is_sound → IsLastBelow dbd.now.types (links_of dbd.now.types volume.old) key.now first r.before r.from) }
    ensures equal { IfOk result (λ r. IsTrue volume.old.is_sound → r.is_equal ≡ true → IsOfKey dbd.now.types (links_of dbd.now.types volume.old) key.now r.from) }
    ensures refusal { OnlyDevice result }
{
    let number = number_of_key(key, places.length);
    let twin = near_twin(volume, dbd, places, first, last, key, number)?;
    around_by_number(volume, dbd, places, twin, key, number)
}
