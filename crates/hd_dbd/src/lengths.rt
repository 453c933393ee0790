ghost use Rattle.std.specs.Prelude.{◌≡◌};
ghost use Rattle.hd_dbd.specs.Lengths.{least_length, said_length, own_length, length_fits};

use crate::hierarchy::SegType;

/// The fewest bytes that a segment of the type has.
pub fn least_length(segment: &SegType) -> u32
    ensures { result ≡ least_length segment.now }
{
    segment.least.unwrap_or(segment.length)
}

/// The number in the first two bytes, where one that is not there is 0.
fn said_length(bytes: &[u8]) -> u32
    ensures { result ≡ said_length bytes.now }
{
    let high = bytes.first().copied().unwrap_or(0);
    let low = bytes.get(1).copied().unwrap_or(0);
    u32::from(high) * 256 + u32::from(low)
}

/// How many bytes a segment of the type has that begins with these: as many as the type says, or, where they vary, as
/// many as the first two bytes say.
pub fn own_length(segment: &SegType, bytes: &[u8]) -> u32
    ensures { result ≡ own_length segment.now bytes.now }
{
    match segment.least {
        Some(_) => said_length(bytes),
        None => segment.length,
    }
}

/// Whether these are as many bytes as a segment of the type has that begins with them, no fewer and no more than it may
/// have.
pub fn length_fits(segment: &SegType, bytes: &[u8]) -> bool
    ensures { result ≡ length_fits segment.now bytes.now }
{
    bytes.len() >= least_length(segment) as usize
        && bytes.len() <= segment.length as usize
        && bytes.len() == own_length(segment, bytes) as usize
}
