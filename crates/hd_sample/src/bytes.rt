//! Bytes of an image, of which those outside it are 0 and stay so, and the ways to change one.

pub fn byte_at(image: &[u8], place: usize) -> u8 {
    image.get(place).copied().unwrap_or(0)
}

pub fn set_byte(image: &mut [u8], place: usize, byte: u8) {
    if let Some(own) = image.get_mut(place) {
        *own = byte;
    }
}

/// The bits of a byte.
const BITS: &[u8] = &[1, 2, 4, 8, 16, 32, 64, 128];

/// The ways to change a byte: a bit is another, it is 0 or 255, or one more or less.
pub const WAYS: u8 = 12;

/// A byte changed in a way.
pub fn changed(byte: u8, way: u8) -> u8 {
    match (BITS.get(usize::from(way)), way) {
        (Some(bit), _) => byte ^ *bit,
        (None, 8) => 0,
        (None, 9) => 255,
        (None, 10) => byte.wrapping_add(1),
        (None, _) => byte.wrapping_sub(1),
    }
}
