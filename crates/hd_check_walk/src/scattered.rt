//! Whether segments lie scattered.
ghost use Rattle.std.specs.Prelude.{◌≢◌, IsTrue};
ghost use Rattle.hd_dbd.specs.Refusals.{OnlyDevice};
ghost use Rattle.hd_volume.specs.Calls.{IsRead};
ghost use Rattle.hd_image.specs.Records.{links_of, IsVolumeOf};
ghost use Rattle.hd_check_blocks.specs.Places.{ArePlaces};

use hd_check_blocks::Place;
use hd_dbd::{Dbd, Refused};
use hd_prefix::{Layout, Pointer};
use hd_stores::BlockStore;
use hd_volume::Volume;

/// How many segments are looked at to tell whether a volume's segments lie scattered.
const SAMPLES: usize = 64;

/// The twin forward that the bytes of a segment of a type name, 0 for none.
fn forward_in(dbd: &Dbd, code: u8, segment: &[u8]) -> u32 {
    if segment.len() < dbd.prefix_length(code) as usize {
        return 0;
    }
    Layout::of(dbd, code).read(segment, Pointer::TwinForward)
}

/// Whether a twin lies neither in the block of a segment nor in the one before or behind.
fn is_far(size: u32, address: u32, twin: u32) -> bool
    requires { size ≢ 0 }
{
    (twin / size).abs_diff(address / size) > 1
}

/// Whether the segment of a number, if there is one, names a twin forward that is far from it.
fn is_twin_far<S: BlockStore>(
    places: &[Place],
    number: usize,
    volume: &mut Volume<S>,
    dbd: &Dbd,
) -> Result<bool, Refused>
    requires of { IsTrue volume.old.is_sound → IsVolumeOf dbd.now volume.old }
    requires places { IsTrue volume.old.is_sound → ArePlaces dbd.now.types volume.old places.now }
    ensures read { IsRead volume.old result volume.new }
    ensures refusal { OnlyDevice result }
{
    if number >= places.len() {
        return Ok(false);
    }
    let place = places[number];
    let segment = volume.segment_at(place.address)?;
    let twin = forward_in(dbd, place.code, segment);
    Ok(twin != 0 && is_far(dbd.block_size(), place.address, twin))
}

/// Whether segments lie scattered, as far as a few of them tell, which are spread evenly over their places: at least a quarter of them name a
/// twin forward that is neither in their own block nor in the one before or behind. Fewer than 256 never do. It says only which way serves a walk best.
pub fn are_scattered<S: BlockStore>(
    places: &[Place],
    volume: &mut Volume<S>,
    dbd: &Dbd,
) -> Result<bool, Refused>
    requires of { IsTrue volume.old.is_sound → IsVolumeOf dbd.now volume.old }
    requires places { IsTrue volume.old.is_sound → ArePlaces dbd.now.types volume.old places.now }
    ensures read { IsRead volume.old result volume.new }
    ensures refusal { OnlyDevice result }
{
    if places.len() < 4 * SAMPLES {
        return Ok(false);
    }
    let stride = places.len() / SAMPLES;
    let mut number: usize = 0;
    let mut far: usize = 0;
    for sample in 0..SAMPLES {
        let shift = sample % stride;
        if is_twin_far(places, number.saturating_add(shift), volume, dbd)? {
            far = far.saturating_add(1);
        }
        number = number.saturating_add(stride);
    }
    Ok(far >= SAMPLES / 4)
}
