/// The bytes of the sample image that are not 0, each row with the place where it begins.
const ROWS: [(usize, &[u8]); 12] = [
    (
        0,
        b"HDVOLUME\0\x01\0\x80\0\0\0\x04\0\0\0\x10EDU     \0\0\0\x88\0\0\x01\x18\0\0\0\x03\0\0\0\x01",
    ),
    (128, b"\0\0\x01"),
    (
        136,
        b"\x01\0\0\0\x01\x18\0\0\0\0\0\0\0\xb0\0\0\0\xe8\0\0\x01\x08\0\0\x01\x08101ALGEB",
    ),
    (176, b"\x02\0\0\0\0\xe8\0\0\0\0\0\0\0\xc801AB"),
    (200, b"\x03\0\0\0\0\xd8ADAM01"),
    (216, b"\x03\0\0\0\0\0EVE 02"),
    (232, b"\x02\0\0\0\0\0\0\0\0\xb0\0\0\0\x0002CD"),
    (256, b"\0\x40\x01"),
    (264, b"\x04\0\0\0\0\0\0\0\0\0EULER"),
    (
        280,
        b"\x01\0\0\0\0\0\0\0\0\x88\0\0\0\0\0\0\0\0\0\0\0\0\0\0\0\x00205LOGIC",
    ),
    (320, b"\0\0\0\x40"),
    (
        384,
        b"\0\0\x02\0\0\x02\0\0\0\0\0\0101\0\0\0\x88205\0\0\x01\x18",
    ),
];

/// Writes bytes at a place of an image, as far as the image goes.
pub fn put(image: &mut [u8], place: usize, bytes: &[u8]) {
    for (target, byte) in image.iter_mut().skip(place).zip(bytes) {
        *target = *byte;
    }
}

/// The sample image: a volume of four blocks, of 16 at most, with the rows of the sample stream.
pub fn image() -> [u8; 512] {
    let mut bytes = [0; 512];
    for row in &ROWS {
        put(&mut bytes, row.0, row.1);
    }
    bytes
}

/// An image of four blocks with four free ones behind it. When the volume has been opened those are in memory, and the others are not.
pub fn widened(image: &[u8; 512]) -> [u8; 1024] {
    let mut bytes = [0; 1024];
    bytes[..512].copy_from_slice(image);
    bytes[15] = 8;
    for n in 4..8 {
        bytes[n * 128 + 2] = 3;
    }
    bytes
}

/// The bytes of a volume with the sample's rows, each in a block of its own with a hole behind it.
const SPREAD: [(usize, &[u8]); 23] = [
    (
        0,
        b"HDVOLUME\0\x03\0\x80\0\0\0\x09\0\0\0\x10EDU     \0\0\0\x88\0\0\x03\x88\0\0\0\x08\0\0\0\x01",
    ),
    (128, b"\0\x30\x01"),
    (
        136,
        b"\x01\0\0\0\x03\x88\0\0\0\0\0\0\x01\x08\0\0\x02\x88\0\0\x03\x08\0\0\x03\x08101ALGEB",
    ),
    (176, b"\0\0\0\x50"),
    (256, b"\0\x20\x01"),
    (264, b"\x02\0\0\0\x02\x88\0\0\0\0\0\0\x01\x8801AB"),
    (288, b"\0\0\0\x60"),
    (384, b"\0\x18\x01"),
    (392, b"\x03\0\0\0\x02\x08ADAM01"),
    (408, b"\0\0\0\x68"),
    (512, b"\0\x18\x01"),
    (520, b"\x03\0\0\0\0\0EVE 02"),
    (536, b"\0\0\0\x68"),
    (640, b"\0\x20\x01"),
    (648, b"\x02\0\0\0\0\0\0\0\x01\x08\0\0\0\x0002CD"),
    (672, b"\0\0\0\x60"),
    (768, b"\0\x18\x01"),
    (776, b"\x04\0\0\0\0\0\0\0\0\0EULER"),
    (792, b"\0\0\0\x68"),
    (896, b"\0\x30\x01"),
    (
        904,
        b"\x01\0\0\0\0\0\0\0\0\x88\0\0\0\0\0\0\0\0\0\0\0\0\0\0\0\x00205LOGIC",
    ),
    (944, b"\0\0\0\x50"),
    (
        1024,
        b"\0\0\x02\0\0\x02\0\0\0\0\0\0101\0\0\0\x88205\0\0\x03\x88",
    ),
];

/// The image of a volume of nine blocks with the sample's rows, each in a block of its own, which has more blocks than stay in memory.
pub fn spread_image() -> [u8; 1152] {
    let mut bytes = [0; 1152];
    for row in &SPREAD {
        put(&mut bytes, row.0, row.1);
    }
    bytes
}
