//! What loads and checks cost in accesses.

use crate::images::scattered;
use crate::trial::{CHECK, Job, outcome, reloaded};
use hd_dbd::FreeSpace;
use hd_sample::{root_database, root_stream, spaced_database, stream_of};
use std::alloc::{AllocError, Global};

/// A work over the volume of so many records of a kind, whose database leaves free space, of which so many blocks are kept in memory; how many blocks the volume has,
/// and how many accesses there are at most.
type Cost = (u8, u8, u32, u32, u32, usize, u32, u64);

const COSTS: [Cost; 9] = [
    // 127 roots of 16 bytes fill a data block, and 290 keys one of the index; above these 345 stand two, and the top. Where all
    // are kept in memory, each is added and written
    (b'r', b'R', 100_000, 0, 0, 8192, 1137, 2 * 1137 + 1),
    // each block is read for its extents; each data block once more by the walk along the pointers, and once or twice for the entries that name its roots;
    // each index block at most eight times more; and 64 roots are looked at to tell whether they lie scattered
    (
        b'c',
        b'R',
        100_000,
        0,
        0,
        0,
        1137,
        1137 + 3 * 788 + 8 * 348 + 64,
    ),
    // 51 roots of 40 bytes fill a data block, and 67 keys one of the index. Where keys agree in eight bytes the walk reads their segments as well
    (b'c', b'K', 2000, 0, 0, 0, 1 + 40 + 30 + 1, 10 * 72),
    // three families fill two data blocks, and 16 keys one of the index. The children that each segment names are looked for where the walk comes to it
    (b'c', b'F', 250, 0, 0, 0, 1 + 167 + 16 + 1, 6 * 185),
    // of scattered segments 64 are looked at to tell it; each block is read as it is loaded, for its extents, and for what its segments say
    (b'c', b'S', 0, 0, 0, 0, 1 + 51 + 1, 3 * 53 + 64),
    // each book goes to its block, to the book before it and to its course, each read and written; a block that keeps its bytes free is not looked at again.
    // Seven books fill a data block; five leave 32 bytes of it, and four 51; of ten blocks one stays free, or of two
    (b'r', b'B', 2000, 0, 0, 0, 1 + 1 + 286, 8 * 2001),
    (b'r', b'B', 2000, 10, 25, 0, 1 + 1 + 401 + 44, 8 * 2001),
    (b'r', b'B', 2000, 0, 40, 0, 1 + 1 + 501, 8 * 2001),
    (b'r', b'B', 2000, 2, 0, 0, 1 + 1 + 286 + 286, 8 * 2001),
];

/// The stream of so many families, each of another course, with a class and a student; or of a course with so many books.
fn stream_for(alloc: Global, kind: u8, count: u32) -> Result<Vec<u8>, AllocError> {
    let mut stream = stream_of(alloc, b"")?;
    let mut segments = count.wrapping_mul(3);
    if kind == b'B' {
        stream.extend_from_slice(b"\x01\0\x08101ALGEB")?;
        segments = count.wrapping_add(1);
    }
    for number in 0..count {
        if kind == b'B' {
            stream.extend_from_slice(b"\x04\0\x05EULER")?;
        } else {
            let [_, _, high, low] = number.to_be_bytes();
            stream.extend_from_slice(&[1, 0, 8, b'0', high, low])?;
            stream.extend_from_slice(b"TITLE\x02\0\x0401AB\x03\0\x06ADAM01")?;
        }
    }
    stream.push(0)?;
    stream.extend_from_slice(&segments.to_be_bytes())?;
    Ok(stream)
}

/// The accesses of a work, and the blocks of its volume.
fn cost_of(alloc: Global, cost: Cost) -> Option<(u64, u32)> {
    let (work, kind, count, fbff, fspf, kept, _, _) = cost;
    let key_length = if kind == b'R' { 3 } else { 26 };
    let is_of_roots = kind == b'R' || kind == b'K';
    let dbd = if is_of_roots {
        root_database(alloc, 2048, key_length).ok()?
    } else {
        spaced_database(alloc, FreeSpace { fbff, fspf }).ok()?
    };
    let stream = if is_of_roots {
        root_stream(alloc, &dbd, key_length, count, 1).ok()?
    } else {
        stream_for(alloc, kind, count).ok()?
    };
    let image = match (work, kind) {
        (b'r', _) => Vec::new(alloc),
        (_, b'S') => scattered().to_vec(alloc).ok()?,
        _ => reloaded(alloc, &dbd, &stream)?,
    };
    let job = Job {
        work,
        kept,
        ..CHECK
    };
    let done = outcome(alloc, &dbd, job, &stream, image);
    match done.told {
        Ok(counts) => Some((done.accesses, counts.1)),
        Err(_) => None,
    }
}

#[test]
fn a_work_makes_few_accesses(rt: HostRuntime) {
    for (number, cost) in COSTS.iter().enumerate() {
        let (accesses, blocks) = cost_of(rt.alloc(), *cost).expect(&rt, "a volume");
        assert_eq!(rt; blocks, cost.6, "cost {number}");
        assert!(rt; accesses <= cost.7, "cost {number}: {accesses}");
    }
}
