//! Volumes of which each byte is changed in turn.

use crate::images::old_chain;
use crate::trial::{CHECK, Job, Told, outcome, reloaded};
use hd_check::CheckFault;
use hd_dbd::Dbd;
use hd_sample::{WAYS, byte_at, changed, database, image, root_database, root_stream, set_byte};
use hd_unload::UnloadFault;
use std::alloc::Global;

/// What a work tells of the bytes of a volume, and what it writes; none where it changes a byte.
fn judged(alloc: Global, dbd: &Dbd, work: u8, image: &[u8]) -> Option<(Told, Vec<u8>)> {
    let bytes = image.to_vec(alloc).ok()?;
    let done = outcome(alloc, dbd, Job { work, ..CHECK }, &[], bytes);
    if done.image.as_slice() == image {
        Some((done.told, done.written))
    } else {
        None
    }
}

/// Whether a volume passes, of as many blocks as there are, and a volume that is reloaded of its stream has the same stream; or it has a fault, and nothing is
/// written. None where it is neither.
fn verdict(alloc: Global, dbd: &Dbd, work: u8, image: &[u8]) -> Option<bool> {
    let (told, stream) = judged(alloc, dbd, work, image)?;
    let blocks = match told {
        Ok(counts) => u64::from(counts.1),
        Err(UnloadFault::Check(CheckFault::Fault(_))) if stream.is_empty() => return Some(false),
        Err(_) => return None,
    };
    let again = reloaded(alloc, dbd, &stream)?;
    let (_, own) = judged(alloc, dbd, work, &again)?;
    if own == stream && blocks.wrapping_mul(u64::from(dbd.block_size())) == image.len() as u64 {
        Some(true)
    } else {
        None
    }
}

/// How many changes of a volume pass and how many do not, where each byte is changed in so many ways, or to all others; and the first that is judged as
/// it should not be, by its place and way.
fn change_each(
    alloc: Global,
    dbd: &Dbd,
    work: u8,
    ways: u8,
    image: &mut [u8],
) -> (u32, u32, Option<(usize, u8)>) {
    let (mut passed, mut faulty) = (0u32, 0u32);
    'places: for place in 0..image.len() {
        let own = byte_at(image, place);
        'ways: for way in 0..ways {
            let byte = if ways == u8::MAX {
                own.wrapping_add(way).wrapping_add(1)
            } else {
                changed(own, way)
            };
            if byte != own {
                set_byte(image, place, byte);
                match verdict(alloc, dbd, work, image) {
                    Some(true) => passed = passed.wrapping_add(1),
                    Some(false) => faulty = faulty.wrapping_add(1),
                    None => return (passed, faulty, Some((place, way))),
                }
            }
        }
        set_byte(image, place, own);
    }
    (passed, faulty, None)
}

/// A byte in each place is any other: what passes an unload is reloaded, and unloaded to the same stream. And it is changed in twelve ways: a check and an
/// unload say the same.
#[test]
fn each_changed_byte_of_the_sample(rt: HostRuntime) {
    let dbd = database(rt.alloc()).expect(&rt, "a database");
    let mut image = image();
    for (work, ways) in [(b'b', WAYS), (b'u', u8::MAX)] {
        let (passed, faulty, wrong) = change_each(rt.alloc(), &dbd, work, ways, &mut image);
        assert!(rt;
            wrong.is_none() && passed > 0 && faulty > 0,
            "{ways} ways: {passed}, {faulty}, {wrong:?}"
        );
    }
}

/// In blocks of 128 bytes an index block has room for three keys of 26 bytes, and a data block for three roots. Ten roots fill four data
/// blocks and four of the sequence set; above that two name them, for a block that is divided keeps three, and one is the top.
#[test]
fn each_changed_byte_of_three_levels(rt: HostRuntime) {
    let alloc = rt.alloc();
    let dbd = root_database(alloc, 128, 26).expect(&rt, "a database");
    let stream = root_stream(alloc, &dbd, 26, 10, 0x0101).expect(&rt, "a stream");
    let mut image = reloaded(alloc, &dbd, &stream).expect(&rt, "a volume");
    assert_eq!(rt; image.len(), (1 + 4 + 4 + 2 + 1) * 128);
    assert_eq!(rt; (byte_at(&image, 9), byte_at(&image, 43)), (3, 3));
    assert_eq!(rt; verdict(alloc, &dbd, b'b', &image), Some(true));
    let (passed, faulty, wrong) = change_each(alloc, &dbd, b'b', WAYS, &mut image);
    assert!(rt;
        wrong.is_none() && passed > 0 && faulty > 0,
        "{passed}, {faulty}, {wrong:?}"
    );
}

#[test]
fn each_changed_byte_of_an_old_chain(rt: HostRuntime) {
    let alloc = rt.alloc();
    let dbd = root_database(alloc, 128, 26).expect(&rt, "a database");
    let stream = root_stream(alloc, &dbd, 26, 10, 0x0101).expect(&rt, "a stream");
    let mut image = old_chain();
    let (told, own) = judged(alloc, &dbd, b'b', &image).expect(&rt, "no changed byte");
    assert_eq!(rt; told, Ok((10, 12)));
    assert!(rt; own == stream);
    let (passed, faulty, wrong) = change_each(alloc, &dbd, b'b', WAYS, &mut image);
    assert!(rt;
        wrong.is_none() && passed > 0 && faulty > 0,
        "{passed}, {faulty}, {wrong:?}"
    );
}
