//! Bytes of volumes, put together from their layout, in blocks of 128 bytes of which a data block has three places of 40 bytes.

use hd_sample::put;

/// The address of a place.
fn place_of(number: u8) -> u32 {
    let number = u32::from(number);
    128 + number / 3 * 128 + 8 + number % 3 * 40
}

/// Writes a root behind another, with its entry, and what its block and that of its entry begin with. Its key is 23 blanks and three bytes.
fn put_root(image: &mut [u8], number: u8, before: u32) {
    let own = place_of(number).to_be_bytes();
    let place = place_of(number) as usize;
    let block = (5 + usize::from(number) / 3) * 128;
    let entry = block + 12 + usize::from(number) % 3 * 30;
    let key = [0, number, number.wrapping_add(1)];
    put(image, place, b"\x01\0\0\0\0\0");
    put(image, place + 6, &before.to_be_bytes());
    put(image, place + 10, b"                       ");
    put(image, place + 33, &key);
    put(image, place + 36, b"..");
    if before > 0 {
        put(image, before as usize + 2, &own);
    }
    put(image, entry, b"                       ");
    put(image, entry + 23, &key);
    put(image, entry + 26, &own);
    put(image, place / 128 * 128 + 2, b"\x01");
    put(image, block + 2, &[2, 0, 0, number % 3 + 1]);
    put(image, block + 8, &[0, 0, 0, number / 3 + 6]);
}

/// A volume of version 1 of ten roots, whose keys are 1, 258, 515 and so on. Its index is a chain of five blocks, from block 5 on, of which the last has no
/// entries; behind it are two free blocks.
pub fn old_chain() -> [u8; 1536] {
    let mut image = [0; 1536];
    put(
        &mut image,
        0,
        b"HDVOLUME\0\x01\0\x80\0\0\0\x0c\0\0\0\x40ROOTS   \0\0\0\x88\0\0\x02\x08\0\0\0\x05\0\0\0\x01",
    );
    let mut before = 0;
    for number in 0..10u8 {
        put_root(&mut image, number, before);
        before = place_of(number);
    }
    put(&mut image, 512, b"\0\x30");
    put(&mut image, 560, b"\0\0\0\x50");
    put(&mut image, 1152, b"\0\0\x02");
    put(&mut image, 1280, b"\0\0\x03");
    put(&mut image, 1408, b"\0\0\x03");
    image
}

/// Writes a class with its student behind another class, and the kind of its block.
fn put_class(image: &mut [u8], number: u8, own: u32, before: u32) {
    let place = own as usize;
    put(image, place, b"\x02");
    put(image, place + 6, &before.to_be_bytes());
    put(image, place + 10, &own.wrapping_add(24).to_be_bytes());
    put(
        image,
        place + 14,
        &[b'0' + number / 16, b'0' + number % 16, b'A', b'B'],
    );
    put(image, place + 24, b"\x03\0\0\0\0\0ADAM01");
    put(image, place / 128 * 128 + 2, b"\x01");
    if before > 0 {
        put(image, before as usize + 2, &own.to_be_bytes());
    }
}

/// A volume of the sample database of one course with 150 classes and a student of each. A class lies 73 places behind the one before it, by turns, so that
/// all lie scattered.
pub fn scattered() -> [u8; 6784] {
    let mut image = [0; 6784];
    put(
        &mut image,
        0,
        b"HDVOLUME\0\x03\0\x80\0\0\0\x35\0\0\0\x80EDU     \0\0\0\x88\0\0\0\x88\0\0\0\x34\0\0\0\x01",
    );
    put(&mut image, 136, b"\x01");
    put(&mut image, 162, b"101ALGEB");
    put(&mut image, 146, &place_of(1).to_be_bytes());
    let mut before = 0;
    for number in 0..150u8 {
        let own = place_of((1 + u32::from(number) * 73 % 150) as u8);
        put_class(&mut image, number, own, before);
        before = own;
    }
    put(&mut image, 150, &before.to_be_bytes());
    put(&mut image, 6528, b"\0\x30");
    put(&mut image, 6576, b"\0\0\0\x50");
    put(
        &mut image,
        6656,
        b"\0\0\x02\0\0\x01\0\0\0\0\0\x00101\0\0\0\x88",
    );
    image
}
