//! A disk stops after each call in turn, and loses or tears what was not synced.

use crate::disks::{THREE_BLOCKS, has_bytes, look_once, play_once};
use crate::torn_disk::TornDisk;
use std::test::Fail;

/// Four commits, with a mark behind each: the first three in one log, the second of which also grows, by a block that is written and two that are not; the fourth
/// was begun before the log was copied. Between the first two, and at the end, changes that are given up.
const WORK: &[u8] =
    b"w1\x07w2\x08w1\tc..m..c..w2Mg2.w3Bb..w0\x01g3.w4\x05c..m..w2\x06w2\x03c..m..w1\x0bs..c..m..w2\x04g1.b..";

/// The first bytes of the blocks before the work, and behind each of its commits.
const STAGES: [&[u8]; 5] = [
    &[100, 101, 102],
    &[100, 9, 8],
    &[1, 9, 8, 0, 5, 0],
    &[1, 9, 3, 0, 5, 0],
    &[1, 11, 3, 0, 5, 0],
];

/// Whether these are the blocks behind so many commits.
fn is_stage(found: &[u8], done: usize) -> bool {
    match STAGES.get(done) {
        Some(bytes) => found == *bytes,
        None => false,
    }
}

/// Whether a volume by itself has the bytes of a stage but for its first, or 0 as its first.
fn is_whole_or_shut(volume: &[u8]) -> bool {
    if volume.first() == Some(&0) {
        return true;
    }
    for stage in &STAGES {
        if has_bytes(volume, stage) {
            return true;
        }
    }
    false
}

/// A run that stops after each call in turn, a restart that stops too, and another: the blocks are those of the last commit that was told, or of
/// the next; and the volume by itself is that of a commit, or its first byte is 0.
#[test]
fn leaves_a_commit_whatever_call_is_the_last(rt: HostRuntime) -> Result<(), Fail> {
    let alloc = rt.alloc();
    let mut kept = [0u32; 5];
    for calls in 0..60u64 {
        for seed in 0..27u64 {
            for again in 0..12u64 {
                let disk = TornDisk::over(alloc, &[], THREE_BLOCKS, calls)?;
                let mut marks = Vec::new(alloc);
                let (disk, _) = play_once(alloc, disk, 16, WORK, &mut marks);
                let done = marks.len();
                let second = disk.crash(seed, again)?;
                let mut unread = Vec::new(alloc);
                assert!(rt; is_whole_or_shut(&second.volume.now));
                let (disk, _) = look_once(alloc, second, &mut unread);
                let third = disk.crash(seed * 5 + again, 1000)?;
                assert!(rt; is_whole_or_shut(&third.volume.now));
                let mut found = Vec::new(alloc);
                let (_, unopened) = look_once(alloc, third, &mut found);
                assert!(rt; unopened.is_none());
                let next = done.saturating_add(1).min(4);
                assert!(rt; is_stage(&found, done) || is_stage(&found, next));
                if let Some(count) = kept.get_mut(done) {
                    *count = count.saturating_add(1);
                }
            }
        }
    }
    for count in &kept {
        assert!(rt; *count > 100);
    }
    Ok(())
}
