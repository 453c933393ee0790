//! Works of which each access, and each write, fails in turn; and an unload of a volume that is changed meanwhile.

use crate::stores::{Page, Turning};
use crate::trial::{CHECK, DEVICE, Ended, Job, outcome, over};
use hd_check::{CheckFault, Fault, Line};
use hd_dbd::Dbd;
use hd_sample::{RECORDS, database, image, put, spread_image, stream_of, widened};
use hd_unload::UnloadFault;
use std::alloc::Global;

/// A work, over what it is done, how many blocks are kept in memory, and whether writes fail in its place; then how many accesses or writes there are at least,
/// and at most.
type Trial = (u8, u8, usize, bool, u64, u64);

/// A `c`heck, an `u`nload, a `w`rite without a check and a `r`eload: over the sample in nine blocks (0), over a ring in eight (1), and over nothing (2). Each
/// block is read at least once, or is added and written; and each of eight records is written.
const TRIALS: [Trial; 11] = [
    (b'c', 0, 0, false, 9, 40),
    (b'c', 0, 64, false, 9, 40),
    (b'c', 1, 0, false, 8, 28),
    (b'u', 0, 0, false, 9, 80),
    (b'u', 0, 64, false, 9, 80),
    (b'u', 1, 64, false, 8, 28),
    (b'w', 0, 0, false, 9, 80),
    (b'r', 2, 0, false, 8, 80),
    (b'r', 2, 64, false, 8, 80),
    (b'u', 0, 0, true, 8, 80),
    (b'w', 0, 64, true, 8, 80),
];

/// The bytes over which a trial is made. The ring is of two books that name each other, and that nothing else names.
fn image_of(alloc: Global, trial: Trial) -> Option<Vec<u8>> {
    if trial.1 == 0 {
        return spread_image().to_vec(alloc).ok();
    }
    if trial.1 == 2 {
        return Some(Vec::new(alloc));
    }
    let mut ring = image();
    put(&mut ring, 257, b"\x60");
    put(&mut ring, 320, b"\x04\0\0\0\x01\x50\0\0\x01\x50ONE  \0");
    put(&mut ring, 336, b"\x04\0\0\0\x01\x40\0\0\x01\x40TWO  \0");
    put(&mut ring, 352, b"\0\0\0\x20");
    widened(&ring).to_vec(alloc).ok()
}

/// Whether a trial told and wrote what it should where nothing failed: the sample's seven segments and its stream, or the ring and nothing.
fn is_right(trial: Trial, done: &Ended, stream: &[u8]) -> bool {
    if trial.1 == 1 {
        let fault = Fault {
            line: Line::NotReached,
            address: 320,
            other: 0,
        };
        return done.written.is_empty()
            && done.told == Err(UnloadFault::Check(CheckFault::Fault(fault)));
    }
    match trial.0 {
        b'r' => done.told == Ok((7, 4)) && done.written.is_empty(),
        b'c' => done.told == Ok((7, 9)) && done.written.is_empty(),
        _ => done.told == Ok((7, 9)) && done.written.as_slice() == stream,
    }
}

/// How many accesses or writes a trial makes, where each that fails is told, and what is right where none does.
fn count_of(alloc: Global, dbd: &Dbd, trial: Trial, stream: &[u8]) -> Option<u64> {
    for passes in 0..100 {
        let mut job = Job {
            work: trial.0,
            kept: trial.2,
            ..CHECK
        };
        let mut refusal = DEVICE;
        if trial.3 {
            job.pieces = passes;
            refusal = UnloadFault::Write;
        } else {
            job.accesses = passes;
        }
        let done = outcome(alloc, dbd, job, stream, image_of(alloc, trial)?);
        if !done.has_failed {
            return if is_right(trial, &done, stream) {
                Some(passes)
            } else {
                None
            };
        }
        if done.told != Err(refusal) {
            return None;
        }
    }
    None
}

#[test]
fn each_access_or_write_that_fails_is_told(rt: HostRuntime) {
    let dbd = database(rt.alloc()).expect(&rt, "a database");
    let stream = stream_of(rt.alloc(), RECORDS).expect(&rt, "a stream");
    for (number, trial) in TRIALS.iter().enumerate() {
        let count = count_of(rt.alloc(), &dbd, *trial, &stream).unwrap_or(0);
        assert!(rt;
            trial.4 <= count && count <= trial.5,
            "trial {number}: {count}"
        );
    }
}

#[test]
fn an_unload_tells_of_a_volume_that_is_changed_meanwhile(rt: HostRuntime) {
    let alloc = rt.alloc();
    let dbd = database(alloc).expect(&rt, "a database");
    let stream = stream_of(alloc, RECORDS).expect(&rt, "a stream");
    let (mut whole, mut changed, mut faulty) = (0u32, 0u32, 0u32);
    for reads in 0..100 {
        let store = Turning {
            image: spread_image(),
            reads,
        };
        let mut page = Page {
            bytes: Vec::new(alloc),
            pieces: u64::MAX,
            is_full: false,
        };
        let (told, _store) = over(alloc, &dbd, b'u', 0, &[], store, &mut page);
        match told {
            Ok(counts) => {
                assert!(rt; counts == (7, 9) && page.bytes == stream, "{reads}");
                whole = whole.saturating_add(1);
            }
            Err(UnloadFault::Changed) => changed = changed.saturating_add(1),
            Err(UnloadFault::Check(CheckFault::Fault(_))) => {
                assert!(rt; page.bytes.is_empty(), "{reads}");
                faulty = faulty.saturating_add(1);
            }
            Err(_) => assert!(rt; false, "{reads}: {told:?}"),
        }
    }
    assert!(rt;
        whole > 0 && changed > 0 && faulty > 0,
        "{whole} {changed} {faulty}"
    );
}
