//! Each access to the store that fails, in each of the acts of a table.

use crate::acts::{Act, DONE, End};
use crate::rows::{FAILED, ROWS};
use crate::serve_act::DEVICE;
use crate::trial::{
    Bench, Refusing, Told, are_told, bench_of, is_judged, lines_in, nothing, outcome,
};
use std::process::Abort;

/// The act comes to its end, and prints just the lines of its row; where there are none it changes nothing. The letters of its accesses.
fn expect_done<R: AllocGlobal + Abort>(rt: &R, bench: &Bench<'_>, kept: usize) -> Vec<u8> {
    let row = bench.row;
    let refusing = Refusing {
        kept,
        ..nothing(row.act)
    };
    let made = outcome(rt.alloc(), bench, refusing).expect(rt, "memory");
    assert_eq!(rt; (made.end, made.is_told, made.err.len()), (DONE, false, 0));
    assert_eq!(rt; made.out.as_slice(), row.lines);
    assert!(rt; !row.lines.is_empty() || made.bytes == bench.bytes);
    assert!(rt; made.log.len() >= row.least, "{} accesses", made.log.len());
    made.log
}

/// The number of the call whose answer says that an access failed; 0 where none says so, and then all was printed, or nothing. `None` where
/// something else was printed than what comes before the access.
fn failed_call(act: Act, whole: &[u8], out: &[u8]) -> Option<usize> {
    let is_served = matches!(act, Act::Serve { .. });
    let end = if is_served { DEVICE } else { b"!!] Device\n" };
    match out.strip_suffix(end) {
        Some(before) => {
            if !whole.starts_with(before) || !(is_served || before.ends_with(b"[")) {
                return None;
            }
            Some(lines_in(before).saturating_add(1))
        }
        None => {
            if out.is_empty() || out == whole {
                Some(0)
            } else {
                None
            }
        }
    }
}

/// The failed access is told once, by the call in which it failed if it was one of a call, and the volume that is left is one that a check can judge. The number of
/// that call.
fn expect_told<R: AllocGlobal + Abort>(rt: &R, bench: &Bench<'_>, made: &Told) -> usize {
    let row = bench.row;
    assert!(rt; made.is_told, "{:?}: {:?}", row.act, made.end);
    let is_said = row.act.is_command() && made.end != DONE;
    let line = if is_said { FAILED } else { b"" };
    assert_eq!(rt; made.err.as_slice(), line);
    let end = if row.act.is_command() {
        End::Status(3, true)
    } else {
        End::Device
    };
    assert!(rt;
        made.end == end || made.end == DONE,
        "{:?}: {:?}",
        row.act,
        made.end
    );
    let is_left = is_judged(rt.alloc(), bench, &made.bytes);
    assert_eq!(rt; is_left, Some(true));
    failed_call(row.act, row.lines, &made.out).expect(rt, "what comes before it")
}

/// Each access of the act fails in turn. The calls in which one did, each with the letter of the access.
fn refuse_each<R: AllocGlobal + Abort>(rt: &R, bench: &Bench<'_>, kept: usize) -> Vec<(usize, u8)> {
    let log = expect_done(rt, bench, kept);
    let mut told = Vec::new(rt.alloc());
    let mut refusing = Refusing {
        kept,
        ..nothing(bench.row.act)
    };
    for (passes, letter) in log.iter().enumerate() {
        refusing.passes = passes as u64;
        let made = outcome(rt.alloc(), bench, refusing).expect(rt, "memory");
        let call = expect_told(rt, bench, &made);
        if call > 0 {
            told.push((call, *letter)).expect(rt, "memory");
        }
    }
    told
}

#[test]
fn tells_of_each_access_that_fails(rt: HostRuntime) {
    for (number, row) in ROWS.iter().enumerate() {
        let bench = bench_of(rt.alloc(), row).expect(&rt, "a volume");
        let plain = refuse_each(&rt, &bench, 3);
        let wider = refuse_each(&rt, &bench, 5);
        let [least, least_wider] = row.in_calls;
        assert!(rt;
            plain.len() >= least && wider.len() >= least_wider,
            "row {number}: {} and {}",
            plain.len(),
            wider.len()
        );
        let is_met = are_told(&plain, row.calls, b'r') && are_told(&plain, row.calls, b'w');
        assert!(rt; is_met, "row {number}: {plain:?}");
    }
}
