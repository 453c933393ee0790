//! What comes of an act over a volume, where an access, a growth, a read or a write is refused.

use crate::acts::{Act, End, perform};
use crate::sources::{Base, Holds, bytes_of, sources_of};
use crate::stores::Sparing;
use crate::streams::Page;
use hd_check::{CheckFault, check};
use hd_dbd::{Dbd, Psb};
use hd_gen::{read_dbd, read_psb};
use hd_stores::{FuseStore, MemStore};
use hd_volume::Volume;
use std::alloc::Global;
use std::cell::Cell;

/// An act over a volume, and what it prints where nothing is refused.
#[derive(Drop)]
pub struct Row {
    pub act: Act,
    pub base: Base,
    pub holds: Holds,
    /// The deck, or the stream.
    pub given: &'static [u8],
    pub lines: &'static [u8],
    /// How many accesses, or growths, it makes at least.
    pub least: usize,
    /// How many accesses at least fail in a call: where three blocks are kept in memory, and where five are.
    pub in_calls: [usize; 2],
    /// The calls, by number, in which a read and a write must be refused, or a growth.
    pub calls: &'static [usize],
}

/// What an act is made over.
#[derive(Drop)]
pub struct Bench<'r> {
    pub row: &'r Row,
    pub dbd: Dbd,
    psb: Psb,
    pub bytes: Vec<u8>,
}

/// What the act of a row is made over.
pub fn bench_of(alloc: Global, row: &Row) -> Option<Bench<'_>> {
    let (source, program) = sources_of(row.base);
    let dbd = read_dbd(alloc, source).ok()?;
    let psb = read_psb(alloc, program, &dbd).ok()?;
    let bytes = bytes_of(alloc, &dbd, row.holds)?;
    Some(Bench {
        row,
        dbd,
        psb,
        bytes,
    })
}

/// What is refused, and of which act.
#[derive(Clone, Copy)]
pub struct Refusing {
    pub act: Act,
    /// How many blocks of a volume are kept in memory.
    pub kept: usize,
    /// How many accesses pass before the one that fails.
    pub passes: u64,
    /// The growth that finds no memory.
    pub growth: u32,
    /// How many bytes standard output takes, and standard error.
    pub room: [usize; 2],
}

/// Nothing is refused of an act.
pub fn nothing(act: Act) -> Refusing {
    Refusing {
        act,
        kept: 3,
        passes: u64::MAX,
        growth: u32::MAX,
        room: [usize::MAX; 2],
    }
}

/// What came of an act.
#[derive(Drop)]
pub struct Told {
    pub end: End,
    /// Whether a failed access was told by the act.
    pub is_told: bool,
    pub out: Vec<u8>,
    pub err: Vec<u8>,
    /// The bytes of the volume, a letter for each access to it that passed, and how many growths were asked for.
    pub bytes: Vec<u8>,
    pub log: Vec<u8>,
    pub growths: u32,
}

/// What comes of an act where something is refused; `None` where there is no memory for it.
pub fn outcome(alloc: Global, bench: &Bench<'_>, refusing: Refusing) -> Option<Told> {
    let sent = Cell::new(0);
    let told = Cell::new(0);
    let mut out = Page::new(alloc, refusing.room[0], &sent);
    let mut err = Page::new(alloc, refusing.room[1], &told);
    let bytes = bench.bytes.to_vec(alloc).ok()?;
    let store = Sparing::new(alloc, bytes, refusing.growth);
    let fuse = FuseStore::new(store, refusing.passes);
    let (dbd, psb, given) = (&bench.dbd, &bench.psb, bench.row.given);
    let (fuse, end) = perform(
        alloc,
        dbd,
        psb,
        refusing.act,
        given,
        refusing.kept,
        fuse,
        &mut out,
        &mut err,
    )?;
    let Sparing {
        bytes,
        log,
        growths,
        ..
    } = fuse.into_inner();
    Some(Told {
        end,
        is_told: matches!(end, End::Device | End::Status(3, true)),
        out: out.taken,
        err: err.taken,
        bytes,
        log,
        growths,
    })
}

/// Whether a check passes some bytes, or names their fault.
pub fn is_judged(alloc: Global, bench: &Bench<'_>, bytes: &[u8]) -> Option<bool> {
    let store = MemStore::new(bench.dbd.block_size() as usize, bytes.to_vec(alloc).ok()?);
    let Ok(mut volume) = Volume::load(alloc, store, &bench.dbd) else {
        return None;
    };
    Some(matches!(
        check(alloc, &mut volume, &bench.dbd),
        Ok(_) | Err(CheckFault::Fault(_))
    ))
}

/// Whether a letter was told of each of the calls.
pub fn are_told(told: &[(usize, u8)], calls: &[usize], letter: u8) -> bool {
    for call in calls {
        if !told.contains(&(*call, letter)) {
            return false;
        }
    }
    true
}

/// How many lines a text has.
pub fn lines_in(text: &[u8]) -> usize {
    let mut count = 0usize;
    for byte in text {
        if *byte == b'\n' {
            count = count.saturating_add(1);
        }
    }
    count
}
