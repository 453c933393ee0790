ghost use Rattle.std.specs.Prelude.{◌≡◌, ◌≤◌, ◌<◌, length, slice_index, slice_index_or};
ghost use Rattle.hd_bytes.specs.Numbers.{number_at};
ghost use Rattle.hd_dbd.specs.declared.facts.SegmentSize.TheVariants.{Fixed};
ghost use Rattle.hd_block.specs.Sizes.{size_at, size_said};

use hd_dbd::SegmentSize;

/// The bytes that the segment at a place takes, by the code in its first byte and, where its type's segments vary, as it says; 0
/// where no segment is there. Bytes past the end are read as 0.
pub fn size_at(bytes: &[u8], sizes: &[SegmentSize], place: usize) -> usize
    requires { (place < length bytes.now) × (length bytes.now ≤ 32768) }
    ensures { result ≡ size_at sizes.now bytes.now place }
{
    match sizes.get(bytes[place] as usize) {
        Some(SegmentSize::Fixed(size)) => *size as usize,
        Some(SegmentSize::Varying(prefix, least, most)) => {
            let said = said_at(bytes, place + *prefix as usize);
            size_said(*prefix, *least, *most, said)
        }
        None => 0,
    }
}

/// The byte at a place; 0 past the end.
fn byte_at(bytes: &[u8], place: usize) -> u8
    ensures { result ≡ slice_index bytes.now place }
{
    bytes.get(place).copied().unwrap_or(0)
}

/// The number in the two bytes at a place.
#[tactic(auto, unfolding(hd_bytes::specs::Numbers::number_at))]
fn said_at(bytes: &[u8], place: usize) -> u16
    requires { place ≤ 131072 }
    ensures { result ≡ number_at 2 bytes.now place }
{
    u16::from(byte_at(bytes, place)) * 256 + u16::from(byte_at(bytes, place + 1))
}

/// The bytes that a segment takes which says how many bytes stand behind its prefix; 0 where that is out of range.
fn size_said(prefix: u16, least: u16, most: u16, said: u16) -> usize
    ensures { result ≡ size_said prefix least most said }
{
    if said < 2 || said < least || said > most {
        return 0;
    }
    (prefix as usize + said as usize).div_ceil(8) * 8
}
