ghost use Rattle.std.specs.Prelude.{◌≡◌, ◌+◌, ◌/◌, ◌≤◌, length, true, IsTrue, Some, IfSome, IfOk};
ghost use Rattle.hd_bytes.specs.Blocks.{HasBlock};
ghost use Rattle.hd_bytes.specs.Ranges.{bytes_at};
ghost use Rattle.hd_bytes.specs.Numbers.{number_at};
ghost use Rattle.hd_dbd.specs.Refusals.{OnlyDevice};
ghost use Rattle.hd_dbd.specs.KeyNumbers.{IsNumberOf};
ghost use Rattle.hd_volume.specs.Calls.{IsRead};
ghost use Rattle.hd_links.specs.Links.{IsSegment};
ghost use Rattle.hd_image.specs.Records.{links_of, IsVolumeOf};
ghost use Rattle.hd_forest.specs.Walks.{HasForest};
ghost use Rattle.hd_forest.specs.Twins.{IsTwinFrom, IsLastBelow, IsOfKey};
ghost use Rattle.hd_forest.specs.TwinPlaces.{twin_places};
ghost use Rattle.hd_forest.specs.BlockTwins.{IsWalkFrom, IsEqualFrom};

use crate::block_twins::{Walk, is_equal, pass_in};
use hd_bytes::read_u32;
use hd_dbd::{Dbd, Refused, number_of_key};
use hd_prefix::{Layout, Pointer};
use hd_stores::BlockStore;
use hd_volume::Volume;

/// Where the stored segments of a type that has a key have twin forward, twin backward, where it is kept, and the key, and the key's length.
#[derive(Clone, Copy, Debug)]
pub struct TwinPlaces {
    pub(crate) forward: u16,
    pub(crate) backward: Option<u16>,
    pub(crate) key: usize,
    pub(crate) length: usize,
}

/// Where the segments of the type of a code have their twin pointers and the key; `None` where it has no key.
pub fn twin_places(dbd: &Dbd, code: u8) -> Option<TwinPlaces>
    ensures { result ≡ twin_places dbd.now.types code }
{
    let own = dbd.type_of(code)?;
    let key = own.key?;
    let layout = Layout::of(dbd, code);
    let forward = layout.place_of(Pointer::TwinForward)?;
    Some(TwinPlaces {
        forward,
        backward: layout.place_of(Pointer::TwinBackward),
        key: layout.prefix_length() as usize + (key.start as usize).saturating_sub(1),
        length: key.length as usize,
    })
}

/// The key of a lent segment.
pub fn key_at(places: TwinPlaces, segment: &[u8]) -> &[u8]
    ensures { result.now ≡ bytes_at segment.now places.key places.length }
{
    let start = places.key.min(segment.len());
    let count = places.length.min(segment.len() - start);
    &segment[start..start + count]
}

/// The twin forward of a lent segment.
pub fn forward_in(places: TwinPlaces, segment: &[u8]) -> u32
    ensures { places.forward + 4 ≤ length segment.now → result ≡ number_at 4 segment.now places.forward }
{
    let place = places.forward as usize;
    if segment.len() < place + 4 {
        return 0;
    }
    read_u32(segment, place)
}

/// The twins around a key: the last whose key is below, and the first whose key is not, 0 for none, and whether that one's key was found to be equal.
#[derive(Clone, Copy, Debug)]
pub struct TwinsAround {
    pub before: u32,
    pub from: u32,
    pub is_equal: bool,
}

/// Passes over the twins of one block from the one at an address on, behind another, as far as their keys are below a key, and says whether the key
/// where it ends is equal. One access.
fn pass_block<S: BlockStore>(
    volume: &mut Volume<S>,
    places: TwinPlaces,
    behind: u32,
    address: u32,
    key: &[u8],
    number: Option<u64>,
) -> Result<(Walk, bool), Refused>
    requires there { IsTrue volume.old.is_sound → HasBlock volume.old.size volume.old.image (address / volume.old.size) }
    requires number { IfSome number (λ n. IsNumberOf places.length key.now n) }
    ensures read { IsRead volume.old result volume.new }
    ensures value { IfOk result (λ r. IsTrue volume.old.is_sound → IsWalkFrom volume.old places key.now behind address r.0) }
    ensures equal { IfOk result (λ r. IsTrue volume.old.is_sound → r.1 ≡ true → IsEqualFrom volume.old places key.now address r.0) }
    ensures refusal { OnlyDevice result }
{
    let size = volume.block_size() as u32;
    let n = volume.block_number(address);
    let block = volume.block(n)?;
    let walk = pass_in(places, block, n * size, behind, address, key, number);
    Ok((walk, is_equal(places, block, n * size, key, walk)))
}

/// Of the twins from one at an address on, of a type whose segments have twin forward and the key at these places, those around a key.
/// One access for each run of twins that lie in one block, up to the first whose key is not below.
pub fn twins_around<S: BlockStore>(
    volume: &mut Volume<S>,
    dbd: &Dbd,
    places: TwinPlaces,
    address: u32,
    key: &[u8],
) -> Result<TwinsAround, Refused>
    requires of { IsTrue volume.old.is_sound → IsVolumeOf dbd.now volume.old }
    requires holds { IsTrue volume.old.is_sound → HasForest dbd.now volume.old }
    requires there { IsTrue volume.old.is_sound → IsSegment (links_of dbd.now.types volume.old) address }
    requires places { IsTrue volume.old.is_sound → twin_places dbd.now.types ((links_of dbd.now.types volume.old).code address) ≡ Some places }
    ensures read { IsRead volume.old result volume.new }
    ensures from { IfOk result (λ r. IsTrue volume.old.is_sound → IsTwinFrom dbd.now.types (links_of dbd.now.types volume.old) key.now address r.from) }
    ensures before { IfOk result (λ r. IsTrue volume.old.is_sound → IsLastBelow dbd.now.types (links_of dbd.now.types volume.old) key.now address r.before r.from) }
    ensures equal { IfOk result (λ r. IsTrue volume.old.is_sound → r.is_equal ≡ true → IsOfKey dbd.now.types (links_of dbd.now.types volume.old) key.now r.from) }
    ensures refusal { OnlyDevice result }
{
    let number = number_of_key(key, places.length);
    around_by_number(volume, dbd, places, address, key, number)
}

/// The same, by the key's number where it has one.
pub fn around_by_number<S: BlockStore>(
    volume: &mut Volume<S>,
    dbd: &Dbd,
    places: TwinPlaces,
    address: u32,
    key: &[u8],
    number: Option<u64>,
) -> Result<TwinsAround, Refused>
    requires of { IsTrue volume.old.is_sound → IsVolumeOf dbd.now volume.old }
    requires holds { IsTrue volume.old.is_sound → HasForest dbd.now volume.old }
    requires there { IsTrue volume.old.is_sound → IsSegment (links_of dbd.now.types volume.old) address }
    requires places { IsTrue volume.old.is_sound → twin_places dbd.now.types ((links_of dbd.now.types volume.old).code address) ≡ Some places }
    requires number { IfSome number (λ n. IsNumberOf places.length key.now n) }
    ensures read { IsRead volume.old result volume.new }
    ensures from { IfOk result (λ r. IsTrue volume.old.is_sound → IsTwinFrom dbd.now.types (links_of dbd.now.types volume.old) key.now address r.from) }
    ensures before { IfOk result (λ r. IsTrue volume.old.is_sound → IsLastBelow dbd.now.types (links_of dbd.now.types volume.old) key.now address r.before r.from) }
    ensures equal { IfOk result (λ r. IsTrue volume.old.is_sound → r.is_equal ≡ true → IsOfKey dbd.now.types (links_of dbd.now.types volume.old) key.now r.from) }
    ensures refusal { OnlyDevice result }
{
    let most = volume.length();
    let mut before = 0;
    let mut twin = address;
    for count in 0..most {
        if twin == 0 {
            return Ok(TwinsAround {
                before,
                from: 0,
                is_equal: false,
            });
        }
        let (walk, is_equal) = pass_block(volume, places, before, twin, key, number)?;
        before = walk.before;
        twin = walk.twin;
        if walk.is_found {
            return Ok(TwinsAround {
                before,
                from: twin,
                is_equal,
            });
        }
    }
    Ok(TwinsAround {
        before,
        from: 0,
        is_equal: false,
    })
}

/// Of a segment of the type of a code and its later twins the first whose key is not below a key, 0 where all are below. Where the type has no
/// key none is below, and it is the segment itself. The blocks of the twins up to that one are read.
pub fn twin_from<S: BlockStore>(
    volume: &mut Volume<S>,
    dbd: &Dbd,
    code: u8,
    address: u32,
    key: &[u8],
) -> Result<u32, Refused>
    requires of { IsTrue volume.old.is_sound → IsVolumeOf dbd.now volume.old }
    requires holds { IsTrue volume.old.is_sound → HasForest dbd.now volume.old }
    requires there { IsTrue volume.old.is_sound → IsSegment (links_of dbd.now.types volume.old) address }
    requires typed { IsTrue volume.old.is_sound → (links_of dbd.now.types volume.old).code address ≡ code }
    ensures read { IsRead volume.old result volume.new }
    ensures value { IfOk result (λ r. IsTrue volume.old.is_sound → IsTwinFrom dbd.now.types (links_of dbd.now.types volume.old) key.now address r) }
    ensures refusal { OnlyDevice result }
{
    let Some(places) = twin_places(dbd, code) else {
        return Ok(address);
    };
    let around = twins_around(volume, dbd, places, address, key)?;
    Ok(around.from)
}
