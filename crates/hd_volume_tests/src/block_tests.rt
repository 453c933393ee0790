//! Tests of the parts of data blocks and the fields of segments.

use hd_block::{Block, Part};
use hd_dbd::{Dbd, SegmentSize};
use hd_prefix::{Layout, Pointer, code_of, delete_byte_of};
use hd_sample::{database, image};

/// The sizes of a course, a class, a student and a book.
const SIZES: [SegmentSize; 5] = [
    SegmentSize::Fixed(0),
    SegmentSize::Fixed(40),
    SegmentSize::Fixed(24),
    SegmentSize::Fixed(16),
    SegmentSize::Fixed(16),
];

/// Block 2 of the sample image: a book, a course, and a hole.
fn sample_block() -> [u8; 128] {
    let mut bytes = [0; 128];
    bytes.copy_from_slice(&image()[256..384]);
    bytes
}

/// Whether these are the parts of a block, in order.
fn has_parts(block: &Block, wanted: &[Part]) -> bool {
    let mut parts = block.parts();
    for part in wanted {
        if parts.next() != Some(*part) {
            return false;
        }
    }
    parts.next().is_none()
}

#[test]
fn reads_and_joins_the_parts_of_a_block(rt: HostRuntime) {
    let mut bytes = sample_block();
    let mut block = Block::new(&mut bytes, &SIZES);
    let parts = [Part::Used(8, 16), Part::Used(24, 40), Part::Free(64, 64)];
    assert!(rt; has_parts(&block, &parts));
    block.give(8, 16);
    block.give(24, 40);
    assert!(rt; block.take(128).is_none());
    assert!(rt; has_parts(&block, &[Part::Free(8, 120)]));
}

#[test]
fn takes_a_hole_behind_one_that_is_too_small(rt: HostRuntime) {
    let mut bytes = sample_block();
    Block::new(&mut bytes, &SIZES).give(8, 16);
    assert!(rt; &bytes[..2] == b"\0\x08".as_slice());
    assert!(rt; &bytes[8..16] == b"\0\x40\0\x10\0\0\0\0".as_slice());
    assert!(rt; Block::new(&mut bytes, &SIZES).take(24) == Some(64));
    assert!(rt; &bytes[..2] == b"\0\x08".as_slice());
    assert!(rt; &bytes[8..16] == b"\0\x58\0\x10\0\0\0\0".as_slice());
    assert!(rt; &bytes[88..96] == b"\0\0\0\x28\0\0\0\0".as_slice());
}

/// The address in a pointer of a segment of the sample; `None` where the segment is too short for its type's prefix.
fn address_in(dbd: &Dbd, segment: &[u8], pointer: Pointer) -> Option<u32> {
    let layout = Layout::of(dbd, *segment.first()?);
    if segment.len() < layout.prefix_length() as usize {
        return None;
    }
    Some(layout.read(segment, pointer))
}

/// The segment's own bytes; none where it is too short for its type.
fn bytes_in<'a>(dbd: &Dbd, segment: &'a [u8]) -> &'a [u8] {
    let layout = Layout::of(dbd, segment.first().copied().unwrap_or(0));
    if !layout.is_whole(segment) {
        return &[];
    }
    layout.bytes(segment)
}

#[test]
fn reads_the_fields_of_the_sample(rt: HostRuntime) {
    let dbd = database(rt.alloc()).expect(&rt, "a database");
    let image = image();
    for (place, pointer, address) in [
        (136, Pointer::TwinForward, 280),
        (136, Pointer::TwinBackward, 0),
        (136, Pointer::FirstChild(2), 176),
        (136, Pointer::LastChild(2), 232),
        (136, Pointer::FirstChild(4), 264),
        (136, Pointer::LastChild(4), 264),
        (176, Pointer::TwinForward, 232),
        (176, Pointer::FirstChild(3), 200),
        (200, Pointer::TwinForward, 216),
        (200, Pointer::TwinBackward, 0),
    ] {
        let segment = image.get(place..).unwrap_or(&[]);
        assert!(rt;
            address_in(&dbd, segment, pointer) == Some(address),
            "{place}"
        );
    }
    assert!(rt; bytes_in(&dbd, &image[136..176]) == b"101ALGEB".as_slice());
    assert!(rt; bytes_in(&dbd, &image[176..200]) == b"01AB".as_slice());
    assert!(rt; bytes_in(&dbd, &image[200..216]) == b"ADAM01".as_slice());
    assert!(rt; bytes_in(&dbd, &image[264..280]) == b"EULER".as_slice());
    let book = &image[264..280];
    assert!(rt; (code_of(book), delete_byte_of(book)) == (4, 0));
}

/// A new segment of a row of a type, of at most 255 bytes, if it fits and the room has the size that it takes; with an address in its twin backward.
fn make(dbd: &Dbd, code: u8, segment: &mut [u8], bytes: &[u8], address: u32) {
    let layout = Layout::of(dbd, code);
    let fits = bytes.len() <= 255 && dbd.row_fits(code, bytes);
    if fits && segment.len() == dbd.size_with(code, bytes.len()) {
        layout.write_new(segment, bytes);
        if layout.prefix_length() <= 16 {
            layout.write(segment, Pointer::TwinBackward, address);
        }
    }
}

#[test]
fn says_where_pointers_stand_and_writes_them(rt: HostRuntime) {
    let dbd = database(rt.alloc()).expect(&rt, "a database");
    for (code, pointer, place) in [
        (2, Pointer::TwinBackward, Some(6)),
        (2, Pointer::FirstChild(3), Some(10)),
        (2, Pointer::LastChild(3), None),
        (2, Pointer::FirstChild(4), None),
        (3, Pointer::TwinBackward, None),
        (5, Pointer::TwinForward, None),
    ] {
        assert!(rt; Layout::of(&dbd, code).place_of(pointer) == place, "{code}");
    }
    assert!(rt; Layout::of(&dbd, 5).prefix_length() == 0);
    let mut book = [0xffu8; 16];
    make(&dbd, 4, &mut book, b"EULER", 0);
    assert!(rt; book == *b"\x04\0\0\0\0\0\0\0\0\0EULER\0");
    make(&dbd, 4, &mut book, b"EULER", 264);
    assert!(rt; book == *b"\x04\0\0\0\0\0\0\0\x01\x08EULER\0");
}
