//! What calls of a journal write and read.

use crate::disks::{THREE_BLOCKS, committed, look_once, play_once};
use crate::torn_disk::TornDisk;
use std::test::Fail;

/// An opening takes two syncs, and one more where the log has no gate; a commit two, and a write behind it none. A copy takes five: the log is synced,
/// the volume's first byte is shut, the frames are copied, it is opened, and the gate is shut. Besides its frames a commit writes a shut gate, what it
/// has, and the open gate; the first of a log a frame of block 0 too. What waits in the log is seen by a program that only reads. The volume stays until
/// the copy.
#[test]
fn adds_commits_to_a_log(rt: HostRuntime) -> Result<(), Fail> {
    let alloc = rt.alloc();
    let disk = TornDisk::over(alloc, &[], THREE_BLOCKS, 1000)?;
    let steps = b"#..w1\tc..#..c..#..w1\x07#..c..#..v1.s..c..#..v1.";
    let mut told = Vec::new(alloc);
    let (_, unopened) = play_once(alloc, disk, 16, steps, &mut told);
    assert!(rt; unopened.is_none());
    // syncs, writes to the log, and whether it counts: after the opening, a commit, another with nothing written, a write, a commit of it, and a copy with
    // a commit of nothing behind it
    let wanted = [
        3, 2, 0, 5, 7, 1, 5, 7, 1, 5, 8, 1, 7, 11, 1, 101, 12, 12, 0, 7,
    ];
    assert!(rt; told.as_slice() == wanted.as_slice());
    Ok(())
}

/// A log of more than 4 MiB of slots is copied at the first write behind a commit, and not before: each commit has a frame and a gate, of 32,772 bytes.
#[test]
fn copies_a_log_above_its_limit(rt: HostRuntime) -> Result<(), Fail> {
    let alloc = rt.alloc();
    let mut first = Vec::new(alloc);
    first.resize(32768, 100)?;
    let disk = TornDisk::over(alloc, &[], &first, 1000)?;
    let (mut steps, mut wanted, mut told) = (Vec::new(alloc), Vec::new(alloc), Vec::new(alloc));
    for commits in 0..66u8 {
        steps.extend_from_slice(b"w0\x07v0.c..")?;
        wanted.push(if commits < 64 { 100 } else { 7 })?;
    }
    play_once(alloc, disk, 32768, &steps, &mut told);
    assert!(rt; told == wanted);
    Ok(())
}

/// Runs are read from frames and from the volume, with zeros behind it, and with a part of a block at the end.
#[test]
fn reads_runs(rt: HostRuntime) -> Result<(), Fail> {
    let alloc = rt.alloc();
    let mut first = THREE_BLOCKS.to_vec(alloc)?;
    first.extend_from_slice(b"ggggg")?;
    let disk = TornDisk::over(alloc, &[], &first, 1000)?;
    let mut told = Vec::new(alloc);
    play_once(alloc, disk, 16, b"r0.w1\tr0.g1.r3.", &mut told);
    let wanted =
        b"ddddddddddddddddeeeeeeeeeeeeeeeeffffffffffffffffgggggdddddddddddddddd\t\t\t\t\t\t\t\t\t\t\t\t\t\t\t\tffffffffffffffffgggggggggg\0\0\0\0\0\0\0\0\0\0\0\0\0\0\0\0";
    assert!(rt; told.as_slice() == wanted.as_slice());
    Ok(())
}

/// Behind a call that failed all others are refused, and those that were committed are there at the next opening.
#[test]
fn refuses_all_behind_a_failed_call(rt: HostRuntime) -> Result<(), Fail> {
    let alloc = rt.alloc();
    let mut disk = committed(alloc)?;
    disk.calls_left = 12;
    let (mut told, mut found) = (Vec::new(alloc), Vec::new(alloc));
    let (disk, _) = play_once(alloc, disk, 16, b"w1?l.?g1?c.?s.?", &mut told);
    assert!(rt; told.as_slice() == b"ddddd".as_slice());
    let (_, unopened) = look_once(alloc, disk.crash(1, 1000)?, &mut found);
    assert!(rt; unopened.is_none());
    assert!(rt; found.as_slice() == [100, 9, 102].as_slice());
    Ok(())
}
