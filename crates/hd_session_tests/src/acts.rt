//! What is done over the volume in a store, and how it ends.

ghost use Rattle.std.specs.Prelude.{◌≡◌, ◌≤◌, false, length, All, IfSome};
ghost use Rattle.hd_dbd.specs.ProgramRules.{type_names};
ghost use Rattle.hd_deck.specs.StepText.{StepFits};

use crate::serve_act::serve_calls;
use crate::session_act::call_in_session;
use crate::streams::Page;
use hd_commands::*;
use hd_dbd::{Dbd, Psb};
use hd_deck::{RunFault, Step, read_deck, run};
use hd_sample::{RECORDS, stream_of};
use hd_session::OpenFault;
use hd_stores::BlockStore;
use hd_volume::Volume;
use std::alloc::Global;

/// What is done.
#[derive(Clone, Copy, Debug, PartialEq, Eq)]
pub enum Act {
    Check,
    Unload,
    Reload,
    /// A deck is played, as by `hd deck`.
    Deck,
    /// A deck is run.
    Run,
    /// The calls of a deck are made in a session, of which the first so many at most: one that finds no memory is made again, or is the last.
    Session { most: usize, again: bool },
    /// Frames are served: in one piece each, or byte by byte, and then a read fails behind so many.
    Serve { is_slow: bool, left: usize },
}

/// How it ended.
#[derive(Clone, Copy, Debug, PartialEq, Eq)]
pub enum End {
    /// With the status of a command; whether standard error took its line, if there was one.
    Status(u8, bool),
    Device,
    Write,
    Read,
    /// Otherwise than it may.
    Other,
}

/// All was done.
pub const DONE: End = End::Status(0, true);

/// All calls were made, and one found no memory.
pub const NO_MEMORY: End = End::Status(4, true);

impl Act {
    /// Whether standard error says why it ended.
    pub fn is_command(self) -> bool {
        matches!(self, Act::Check | Act::Unload | Act::Reload | Act::Deck)
    }
}

/// A check, or else an unload of the sample's rows.
fn judge<S: BlockStore + Drop>(
    alloc: Global,
    dbd: &Dbd,
    act: Act,
    kept: usize,
    store: S,
    out: &mut Page<'_>,
    err: &mut Page<'_>,
) -> Option<(S, End)>
    requires size { S.size store ≡ dbd.now.block_size }
{
    let mut volume = match Volume::load_keeping(alloc, store, dbd, kept) {
        Ok(volume) => volume,
        Err((store, refused)) => {
            let ended = refuse(Refusal::of_refused(refused), err);
            return Some((store, End::Status(ended.status, ended.told)));
        }
    };
    let rows = stream_of(alloc, RECORDS).ok()?;
    let mut stream = Vec::new(alloc);
    let ended = if act == Act::Check {
        check_volume(alloc, &mut volume, dbd, out, err)
    } else {
        unload_volume(alloc, &mut volume, dbd, &mut stream, out, err)
    };
    let is_whole = act == Act::Check || stream == rows;
    let end = if ended.status == 0 && !is_whole {
        End::Other
    } else {
        End::Status(ended.status, ended.told)
    };
    Some((volume.into_store(), end))
}

/// The steps of a deck for a program; `None` where it is refused, or where there is no memory for them.
pub fn steps_of<'t>(alloc: Global, deck: &'t [u8], psb: &Psb) -> Option<Vec<Step<'t>>>
    ensures fit { IfSome result (λ steps. All (StepFits (length psb.now.pcbs)) steps.items) }
    ensures few { IfSome result (λ steps. length steps.items ≤ 4000) }
{
    let pcbs = psb.pcbs();
    if deck.len() > 4000 {
        return None;
    }
    match read_deck(alloc, deck, pcbs.len() as u8) {
        Ok(steps) => Some(steps),
        Err(_) => None,
    }
}

/// A deck is played.
fn play<S: BlockStore + Drop>(
    alloc: Global,
    dbd: &Dbd,
    psb: &Psb,
    deck: &[u8],
    kept: usize,
    store: S,
    out: &mut Page<'_>,
    err: &mut Page<'_>,
) -> Option<(S, End)>
    requires size { S.size store ≡ dbd.now.block_size }
    requires matches { psb.now.made_for ≡ type_names dbd.now.types }
{
    let steps = steps_of(alloc, deck, psb)?;
    let (store, played) = play_deck(alloc, dbd, psb, kept, &steps, store, out, err);
    let end = match played {
        Ok(memory) => End::Status(status_of_calls(memory), true),
        Err(ended) => End::Status(ended.status, ended.told),
    };
    Some((store, end))
}

/// A deck is run.
fn run_calls<S: BlockStore + Drop>(
    alloc: Global,
    dbd: &Dbd,
    psb: &Psb,
    deck: &[u8],
    kept: usize,
    store: S,
    out: &mut Page<'_>,
) -> Option<(S, End)>
    requires size { S.size store ≡ dbd.now.block_size }
    requires matches { psb.now.made_for ≡ type_names dbd.now.types }
{
    let steps = steps_of(alloc, deck, psb)?;
    match run(alloc, store, dbd, psb, kept, &steps, out) {
        Ok(end) => Some((end.store, End::Status(status_of_calls(end.memory), true))),
        Err((store, RunFault::Device | RunFault::Open(OpenFault::Device))) => Some((
            store,
            End::Device,
        )),
        Err((store, RunFault::Write)) => Some((store, End::Write)),
        Err((store, _)) => Some((store, End::Other)),
    }
}

/// Does what is asked over a store of which no contract says anything, with so many blocks of a volume kept in memory. `None` where there is no memory for it, or where what is given is refused.
pub fn perform<S: BlockStore + Drop>(
    alloc: Global,
    dbd: &Dbd,
    psb: &Psb,
    act: Act,
    given: &[u8],
    kept: usize,
    store: S,
    out: &mut Page<'_>,
    err: &mut Page<'_>,
) -> Option<(S, End)>
    requires unsound { S.is_sound store ≡ false }
{
    if !psb.matches(dbd) || store.block_size() != dbd.block_size() as usize {
        return None;
    }
    match act {
        Act::Check | Act::Unload => judge(alloc, dbd, act, kept, store, out, err),
        Act::Reload => {
            let (store, ended) = reload_store(alloc, dbd, given, store, 16, kept, out, err);
            Some((store, End::Status(ended.status, ended.told)))
        }
        Act::Deck => play(alloc, dbd, psb, given, kept, store, out, err),
        Act::Run => run_calls(alloc, dbd, psb, given, kept, store, out),
        Act::Session { most, again } => {
            let steps = steps_of(alloc, given, psb)?;
            let steps = steps.get(..most).unwrap_or(&steps);
            call_in_session(alloc, dbd, psb, steps, again, kept, store, out)
        }
        Act::Serve { is_slow, left } => serve_calls(
            alloc, dbd, psb, is_slow, left, kept, store, out,
        ),
    }
}
