//! Writes of standard output and standard error that fail, and reads of frames that come in pieces or fail.

use crate::acts::{Act, DONE, End};
use crate::rows::{FAILED, ROWS};
use crate::serve_act::{ANSWERS, FRAMES};
use crate::trial::{Bench, Refusing, bench_of, nothing, outcome};
use hd_commands::Refusal;
use hd_dbd::Refused;
use hd_serve::FrameFault;
use std::process::Abort;

/// Where standard output has room for so many bytes and no more these are taken, and it is told that the write failed. An act that changes nothing else
/// changes nothing then.
fn expect_write<R: AllocGlobal + Abort>(rt: &R, bench: &Bench<'_>, room: usize, is_still: bool) {
    let row = bench.row;
    let refusing = Refusing {
        room: [room, usize::MAX],
        ..nothing(row.act)
    };
    let made = outcome(rt.alloc(), bench, refusing).expect(rt, "memory");
    let (end, line) = if row.act.is_command() {
        (End::Status(3, true), FAILED)
    } else {
        (End::Write, b"".as_slice())
    };
    assert_eq!(rt; made.end, end);
    assert_eq!(rt; made.err.as_slice(), line);
    assert_eq!(rt; Some(made.out.as_slice()), row.lines.get(..room));
    assert!(rt; !is_still || made.bytes == bench.bytes);
}

/// Each byte of standard output is refused in turn, of lines each seventh.
fn refuse_each<R: AllocGlobal + Abort>(rt: &R, bench: &Bench<'_>) {
    let made = outcome(rt.alloc(), bench, nothing(bench.row.act)).expect(rt, "memory");
    assert_eq!(rt; made.end, DONE);
    let is_still = made.bytes == bench.bytes;
    let is_served = matches!(bench.row.act, Act::Serve { .. });
    for room in 0..bench.row.lines.len() {
        if is_served || room % 7 == 0 {
            expect_write(rt, bench, room, is_still);
        }
    }
}

#[test]
fn tells_of_each_write_that_fails(rt: HostRuntime) {
    for row in ROWS {
        if !matches!(row.act, Act::Session { .. }) {
            let bench = bench_of(rt.alloc(), row).expect(&rt, "a volume");
            refuse_each(&rt, &bench);
            if row.act.is_command() {
                let refusing = Refusing {
                    room: [0, 0],
                    ..nothing(row.act)
                };
                let made = outcome(rt.alloc(), &bench, refusing).expect(&rt, "memory");
                assert_eq!(rt; (made.end, made.err.len()), (End::Status(3, false), 0));
            }
        }
    }
}

/// Frames come byte by byte, with an interruption before each, and a read fails behind so many bytes: what was asked before is answered.
#[test]
fn reads_frames_in_pieces(rt: HostRuntime) {
    let mut all = 0usize;
    for frame in FRAMES {
        all = all.saturating_add(frame.len());
    }
    let row = ROWS.last().expect(&rt, "frames");
    let bench = bench_of(rt.alloc(), row).expect(&rt, "a volume");
    for left in 0..all.saturating_add(1) {
        let act = Act::Serve {
            is_slow: true,
            left,
        };
        let made = outcome(rt.alloc(), &bench, nothing(act)).expect(&rt, "memory");
        assert_eq!(rt; made.end, if left < all { End::Read } else { DONE });
        assert!(rt; ANSWERS.starts_with(&made.out));
        assert!(rt; left < all || made.out.as_slice() == ANSWERS);
    }
}

/// What is said where only want of memory, or a read that fails, leads to it.
#[test]
fn words_refusals_to_which_no_command_leads(rt: HostRuntime) {
    let refusal = Refusal::of_refused(Refused::Memory);
    let line = refusal.to_string(rt.alloc()).expect(&rt, "memory");
    assert_eq!(rt; (line.as_str(), refusal.status()), ("no memory", 4));
    for (fault, text) in [
        (FrameFault::Memory, "no memory"),
        (FrameFault::Read, "device failed"),
    ] {
        let line = fault.to_string(rt.alloc()).expect(&rt, "memory");
        assert_eq!(rt; line.as_str(), text);
    }
}
