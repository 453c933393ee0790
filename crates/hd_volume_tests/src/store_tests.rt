//! Tests of stores in memory and in files, and of fuses.
ghost use Rattle.std.specs.Prelude.{◌≡◌, ◌<◌};

use crate::stores::{answers_of, parts_of};
use crate::text::is_end;
use hd_dbd::Refused;
use hd_stores::{BlockStore, FileStore, FuseStore, MemStore, RunStore};
use std::alloc::{AllocError, Global};
use std::fs::{self, File, OpenOptions};
use std::io;
use std::marker::Brand;
use std::sync::ledger::{Blank, Ledger};
use std::test::Fail;

/// A store in memory of three blocks of zeros.
fn three_blocks(alloc: Global) -> Result<MemStore, AllocError> {
    let mut bytes = Vec::new(alloc);
    bytes.resize(12, 0)?;
    Ok(MemStore::new(4, bytes))
}

#[test]
fn keeps_blocks_in_memory(rt: HostRuntime) -> Result<(), Fail> {
    let mut store = three_blocks(rt.alloc())?;
    let answers = answers_of(&mut store, b"v2 g2 w37r3 r4 ");
    assert!(rt; answers == *b"..77\0   ");
    assert!(rt; (store.block_size(), store.length()) == (4, 20));
    let want = b"\0\0\0\0\0\0\0\0\0\0\0\x007777\0\0\0\0";
    assert!(rt; store.into_bytes().as_slice() == want.as_slice());
    Ok(())
}

#[test]
fn finds_no_memory_for_all_blocks(rt: HostRuntime) -> Result<(), Fail> {
    let mut bytes = Vec::new(rt.alloc());
    bytes.push(5)?;
    let mut store = MemStore::new(32768, bytes);
    assert!(rt; store.reserve(u32::MAX) == Err(Refused::Memory));
    assert!(rt; store.grow(u32::MAX) == Err(Refused::Memory));
    assert!(rt; store.into_bytes().as_slice() == [5].as_slice());
    Ok(())
}

/// A fuse fails the access behind so many, which leaves the store below as it was, and passes all others.
#[test]
fn fails_one_access(rt: HostRuntime) -> Result<(), Fail> {
    let cases = b"d1212;.d2\x002;.1d1\0;.12d2;.121d;.1212";
    for (passes, wanted) in cases.split(is_end).enumerate() {
        let mut store = FuseStore::new(three_blocks(rt.alloc())?, passes as u64);
        let answers = answers_of(&mut store, b"g3 w01w22r0 r2 ");
        assert!(rt; answers.get(..5) == Some(wanted));
        assert!(rt; store.accesses() == 5);
        let bytes = store.into_inner().into_bytes();
        assert!(rt; bytes.len() == if passes == 0 { 12 } else { 24 });
        assert!(rt; bytes.first() == Some(&if passes == 1 { 0 } else { b'1' }));
        assert!(rt; bytes.get(8) == Some(&if passes == 2 { 0 } else { b'2' }));
    }
    Ok(())
}

/// Takes a step in a store of a file's blocks of four bytes, where `R` reads the first four at once, and says how many bytes were read.
fn take_step<L: Ledger>(
    store: &mut FileStore<L>,
    step: &[u8],
    read: &mut [u8; 16],
) -> Result<usize, Refused> {
    if store.block_size() != 4 {
        return Err(Refused::Broken);
    }
    let (verb, n, byte) = parts_of(step);
    match verb {
        b'v' => store.reserve(n)?,
        b'g' => store.grow(n)?,
        b'w' => store.write(n, &[byte; 4])?,
        b'r' => {
            store.read(n, &mut read[..4])?;
            return Ok(4);
        }
        _ => {
            store.read_run(0, read)?;
            return Ok(16);
        }
    }
    Ok(0)
}

/// Takes steps in the store of a file's blocks, and adds to a text a point for each and the bytes that were read, or `d` for `Device`. Says the
/// length of the store.
fn take_steps<L: Ledger>(
    file: File,
    blank: Blank,
    steps: &[u8],
    text: &mut Vec<u8>,
) -> io::Result<u64>
    requires name { blank.name ≡ L.name }
    requires parts { blank.parts ≡ L.parts }
    requires share { 0 < blank.parts }
{
    let mut store: FileStore<L> = FileStore::over(file, 4, blank)?;
    for step in steps.chunks(3) {
        let mut read = [7; 16];
        match take_step(&mut store, step, &mut read) {
            Ok(count) => {
                text.push(b'.')?;
                text.extend_from_slice(read.get(..count).unwrap_or(&[]))?;
            }
            Err(Refused::Device) => text.push(b'd')?,
            Err(_) => text.push(b'?')?,
        }
    }
    Ok(store.length())
}

fn play(file: File, steps: &[u8], text: &mut Vec<u8>) -> io::Result<u64> {
    take_steps::<Brand>(file, Blank::new(1), steps, text)
}

/// The names of files, how many bytes each has at first, where it is new, and steps; then what is answered, and how long the store is and the file,
/// of which a block that was not written at the end is no part, and zeros.
const FILES: [(&str, u64, &[u8], &[u8], u64, usize); 5] = [
    ("blocks", 0, b"v2 g2 w19r1 r3 ", b"....9999d", 8, 8),
    ("blocks", 0, b"v2 g2 w19r1 r3 ", b"....9999.\0\0\0\0", 16, 8),
    (
        "grown",
        0,
        b"g1 g3 w29R0 ",
        b"....\0\0\0\0\0\0\0\09999\0\0\0\0",
        16,
        12,
    ),
    (
        "passed",
        0,
        b"g1 g4 w39r1 r4 r5 ",
        b"....\0\0\0\0.\0\0\0\0d",
        20,
        16,
    ),
    ("odd", 5, b"v2 g2 w19r1 r3 ", b"....9999d", 13, 13),
];

#[test]
fn keeps_blocks_in_a_file(rt: HostRuntime) -> Result<(), Fail> {
    let mut options = OpenOptions::new();
    options.read(true).write(true).create(true);
    for (name, start, steps, answers, length, end) in FILES {
        let file = options.open(&rt, name)?;
        if start > 0 {
            file.set_len(start)?;
        }
        let mut text = Vec::new(rt.alloc());
        let told = play(file, steps, &mut text)?;
        assert!(rt; text.as_slice() == answers, "{name}");
        assert!(rt;
            (told, fs::read(&rt, name)?.len()) == (length, end),
            "{name}"
        );
    }
    assert!(rt; fs::read(&rt, "blocks")?.as_slice() == b"\0\0\0\x009999".as_slice());
    for name in ["blocks", "grown", "passed", "odd"] {
        fs::remove_file(&rt, name)?;
    }
    Ok(())
}

#[test]
fn tells_of_a_full_device(rt: HostRuntime) -> Result<(), Fail> {
    let mut old = OpenOptions::new();
    old.read(true).write(true);
    let mut text = Vec::new(rt.alloc());
    let length = play(old.open(&rt, "/dev/full")?, b"v2 g2 w19r1 r3 ", &mut text)?;
    assert!(rt; text.as_slice() == b".dd.\0\0\0\0.\0\0\0\0".as_slice());
    assert!(rt; length == 0);
    Ok(())
}
