//! Tests that compare the answers and bytes of a store that reads ahead with a plain store's; that count the accesses of the store below; and in which those fail.
use crate::chance::Chance;
use crate::stores::{answers_of, failures_of, take_step, zeros};
use hd_dbd::Refused;
use hd_stores::ReadAhead;
use std::alloc::{AllocError, Global};
use std::test::Fail;

/// So many steps by chance at one of twelve blocks: mostly reads, half of them in order, and writes; here and there a growth, or a reservation.
fn random_steps(alloc: Global, seed: u64, count: u32) -> Result<Vec<u8>, AllocError> {
    let mut chance = Chance::new(seed);
    let mut steps = Vec::new(alloc);
    let mut next = 0u8;
    for _ in 0..count {
        let n = (chance.below(12) % 12) as u8;
        next = if chance.below(2) == 0 {
            n
        } else {
            next % 12 + 1
        };
        let (verb, digit) = match chance.below(40) {
            0 => (b'g', n % 3),
            1 => (b'v', n % 3),
            2..=20 => (b'r', next % 13),
            _ => (b'w', n),
        };
        steps.extend_from_slice(&[verb, b'0' + digit, (chance.below(100) % 100) as u8])?;
    }
    Ok(steps)
}

/// Whether a store that reads ahead answers steps as a plain store does, and leaves the same bytes, where the access to the store below after so many
/// fails, and the step is taken again. Says how many steps failed too.
fn ahead_agrees(alloc: Global, steps: &[u8], passes: u64) -> Option<u32> {
    let mut plain = zeros(alloc, 8, u64::MAX).ok()?;
    let mut ahead = ReadAhead::new(alloc, zeros(alloc, 8, passes).ok()?);
    let failures = failures_of(&mut ahead, &mut plain, steps)?;
    if ahead.into_store().bytes == plain.bytes {
        Some(failures)
    } else {
        None
    }
}

#[test]
fn a_store_that_reads_ahead_answers_as_a_plain_store_does(rt: HostRuntime) -> Result<(), Fail> {
    for seed in 0..60 {
        let steps = random_steps(rt.alloc(), seed, 400)?;
        assert!(rt;
            ahead_agrees(rt.alloc(), &steps, u64::MAX) == Some(0),
            "{seed}"
        );
    }
    Ok(())
}

/// Nothing is lost by an access that fails, each in turn.
#[test]
fn a_store_that_reads_ahead_loses_nothing_by_a_failed_access(rt: HostRuntime) -> Result<(), Fail> {
    let steps = random_steps(rt.alloc(), 7, 100)?;
    let mut end = 0u64;
    for passes in 0..1000 {
        let failures = ahead_agrees(rt.alloc(), &steps, passes);
        assert!(rt; matches!(failures, Some(0 | 1)), "{passes}");
        if failures == Some(0) {
            end = passes;
            break;
        }
    }
    assert!(rt; end > 8, "{end}");
    Ok(())
}

/// How often a store of 100 blocks is read for one block and for several, where it is asked for so many blocks, from the first on and so far apart;
/// and how often `Device` is answered, where the access after so many fails.
fn reads_of(alloc: Global, first: u8, apart: u8, count: u8, passes: u64) -> Option<[u32; 3]> {
    let mut ahead = ReadAhead::new(alloc, zeros(alloc, 100, passes).ok()?);
    let mut refusals = 0u32;
    let mut digit = b'0'.saturating_add(first);
    for _ in 0..count {
        let step = [b'r', digit, b' '];
        let answer = take_step(&mut ahead, &step);
        if answer == Err(Refused::Device) {
            refusals = refusals.saturating_add(1);
        } else if answer != Ok([0; 4]) {
            return None;
        }
        digit = digit.saturating_add(apart);
    }
    let store = ahead.into_store();
    Some([store.alone, store.runs, refusals])
}

#[test]
fn reads_ahead_where_blocks_come_in_order(rt: HostRuntime) -> Result<(), Fail> {
    let alloc = rt.alloc();
    // 2, 4, 8, 16, 32 and the 38 that are left
    assert!(rt; reads_of(alloc, 0, 1, 100, u64::MAX) == Some([0, 6, 0]));
    // each fourth, of which the first comes in order
    assert!(rt; reads_of(alloc, 0, 4, 25, u64::MAX) == Some([24, 1, 0]));
    // the same block again and again
    assert!(rt; reads_of(alloc, 7, 0, 50, u64::MAX) == Some([50, 0, 0]));
    // 30 blocks in order take accesses for 2, 4, 8 and 16 of them, of which each in turn fails, and then none
    for passes in 0..5u8 {
        let told = reads_of(alloc, 0, 1, 30, u64::from(passes)).expect(&rt, "reads");
        assert!(rt; told[2] == if passes < 4 { 1 } else { 0 }, "{passes}");
    }
    // a block is read anew behind a write
    let mut ahead = ReadAhead::new(alloc, zeros(alloc, 8, u64::MAX)?);
    let answers = answers_of(&mut ahead, b"r0 r1 r2 w49r3 r4 r5 ");
    assert!(rt; answers == *b"\0\0\x009\x009\0 ");
    Ok(())
}
