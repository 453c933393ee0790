ghost use Rattle.std.specs.Prelude.{◌≡◌, ◌<◌, ◌≤◌, ◌^◌, length, All, IsTrue, IfOk};
ghost use Rattle.hd_dbd.specs.ProgramRules.{type_names};
ghost use Rattle.hd_deck.specs.StepText.{StepFits};

use crate::compared::{Compared, Expectations};
use crate::console::{Console, Further, NOTHING_FURTHER};
use crate::dbd_source::{blocks_for_changes, read_database};
use crate::deck_lines::{committed_calls, held_lines};
use crate::lines::{DEVICE_FAILED, DIFFERS};
use crate::stop::Stop;
use crate::volume_store::{
    close_files, close_store, not_opened, open_files, open_store, tell_waiting,
};
use hd_commands::{Ended, Refusal, play_unit, status_of_calls};
use hd_dbd::{Dbd, Psb};
use hd_deck::{Step, read_deck};
use hd_files::{Held, Identity, Left, Named, VolumeFiles, open_volume, read_file};
use hd_gen::read_psb;
use hd_journal::{Disk, Journaled, Unopened};
use hd_output::{Answers, Progress};
use std::alloc::Global;
use std::fs::File;
use std::io::{self, Write};
use std::marker::Brand;
use std::rt::Files;
use std::sync::ledger::{Blank, Ledger};

/// How a deck ended that was played: its calls made, so many of which found no memory, or refused.
pub fn end_of(played: Result<u64, Ended>) -> Ended {
    match played {
        Ok(memory) => Ended::with_status(status_of_calls(memory)),
        Err(ended) => ended,
    }
}

/// The program over a database that a file of its source describes.
pub fn read_program<R: Files<File = File>>(
    rt: &R,
    alloc: Global,
    dbd: &Dbd,
    name: &str,
) -> Result<(Psb, Identity), Stop>
    ensures { IfOk result (λ p. p.0.made_for ≡ type_names dbd.now.types) }
{
    let (source, identity) = read_file(rt, alloc, name, Named::Psb)?;
    match read_psb(alloc, &source, dbd) {
        Ok(psb) => Ok((psb, identity)),
        Err(fault) => Err(Stop::program(fault, source)),
    }
}

/// What a deck expects of its calls, if that is to be compared.
fn read_expectations(
    alloc: Global,
    text: &[u8],
    steps: &[Step<'_>],
    compares: bool,
) -> Result<Expectations, Stop> {
    if compares {
        Expectations::read(alloc, text, steps)
    } else {
        Ok(Expectations::none(alloc))
    }
}

/// What came of a deck that was played over a volume and its log: how it ended and what is said of that, how many of its calls have a line and how many were
/// answered Full, what it expects, whether the last lines went out, and whether all commits are in the volume.
#[derive(Drop)]
struct Played {
    ended: Ended,
    said: Vec<u8>,
    answered: u64,
    full: u64,
    expectations: Expectations,
    released: io::Result<()>,
    settled: Result<(), ()>,
}

/// Why a deck was not played over a volume and its log.
#[derive(Clone, Copy)]
enum Unplayed {
    Unopened(Unopened),
    Memory,
}

/// Plays a deck over a store, with so many blocks of its volume kept in memory, as one unit, or with a commit behind every so many calls. What its calls
/// changed is then committed.
fn play_store<D: Disk, L: Ledger, P: Progress, O: Write>(
    alloc: Global,
    dbd: &Dbd,
    psb: &Psb,
    steps: &[Step<'_>],
    every: Option<u32>,
    store: Journaled<D, L>,
    cache: u32,
    progress: &P,
    out: &mut O,
    said: &mut Vec<u8>,
) -> (Journaled<D, L>, Ended)
    requires size { store.size ≡ dbd.now.block_size }
    requires matches { psb.now.made_for ≡ type_names dbd.now.types }
    requires steps { All (StepFits (length psb.now.pcbs)) steps.now }
    requires count { length steps.now ≤ 2 ^ 30 }
{
    let kept = cache as usize;
    let (store, played) = play_unit(
        alloc, dbd, psb, steps, every, store, kept, progress, out, said,
    );
    (store, end_of(played))
}

/// Plays a deck over a store, as one unit or with commits on its way. Only when what its calls changed is committed the last of its lines go out.
fn play_held<D: Disk, L: Ledger, P: Progress, O: Write + Drop>(
    alloc: Global,
    dbd: &Dbd,
    psb: &Psb,
    steps: &[Step<'_>],
    every: Option<u32>,
    store: Journaled<D, L>,
    cache: u32,
    progress: &P,
    lines: Held<Compared<Answers<'_, O, P>>>,
    said: Vec<u8>,
) -> (D, Played)
    requires size { store.size ≡ dbd.now.block_size }
    requires matches { psb.now.made_for ≡ type_names dbd.now.types }
    requires steps { All (StepFits (length psb.now.pcbs)) steps.now }
    requires count { length steps.now ≤ 2 ^ 30 }
{
    let (mut lines, mut said) = (lines, said);
    let (store, ended) = play_store(
        alloc, dbd, psb, steps, every, store, cache, progress, &mut lines, &mut said,
    );
    let released = lines.release();
    let (disk, settled) = close_store(store);
    let lines = lines.into_inner();
    let played = Played {
        ended,
        said,
        answered: lines.inner().answered(),
        full: lines.full(),
        expectations: lines.into_expectations(),
        released,
        settled,
    };
    (disk, played)
}

/// Plays a deck over a volume and its log, in which a program left this, as one unit or with commits on its way, with a ledger for the accesses that fail.
fn play_disk<D: Disk, L: Ledger, P: Progress, O: Write, E: Write>(
    alloc: Global,
    dbd: &Dbd,
    psb: &Psb,
    steps: &[Step<'_>],
    every: Option<u32>,
    expectations: Expectations,
    disk: D,
    left: Left,
    cache: u32,
    blank: Blank,
    progress: &P,
    out: &mut O,
    err: &mut E,
) -> (D, Result<Played, Unplayed>)
    requires usable { IsTrue (D.is_usable disk) }
    requires name { blank.name ≡ L.name }
    requires parts { blank.parts ≡ L.parts }
    requires share { 0 < blank.parts }
    requires matches { psb.now.made_for ≡ type_names dbd.now.types }
    requires steps { All (StepFits (length psb.now.pcbs)) steps.now }
    requires count { length steps.now ≤ 2 ^ 30 }
{
    let store: Journaled<D, L> = match open_store(alloc, dbd, disk, left, blank, err) {
        Ok(store) => store,
        Err((disk, unopened)) => return (disk, Err(Unplayed::Unopened(unopened))),
    };
    let Ok((lines, said)) = held_lines(alloc, out, steps, expectations, progress) else {
        return (store.into_disk(), Err(Unplayed::Memory));
    };
    let (disk, played) = play_held(
        alloc, dbd, psb, steps, every, store, cache, progress, lines, said,
    );
    (disk, Ok(played))
}

/// How a deck ended over files of which the system said this, if it refused an access. One that was played, and whose calls were answered something else than it
/// expects, ends with 1.
fn ended_with<E: Write>(
    played: Played,
    error: Option<io::Error>,
    err: &mut E,
) -> Result<Ended, Stop> {
    match (played.ended.status, error) {
        (DEVICE_FAILED, Some(error)) => return Err(Stop::File(Named::Volume, error)),
        (DEVICE_FAILED, None) => {}
        _ => {
            played.released?;
            tell_waiting(played.settled, err);
        }
    }
    let _ = err.write_all(&played.said);
    let is_played = played.ended.refusal.is_none();
    if is_played && played.expectations.tell(err) && played.ended.status == 0 {
        return Ok(Ended::with_status(DIFFERS));
    }
    Ok(played.ended)
}

/// How a deck ended that was played over files, and what is to be said behind that.
#[derive(Drop)]
struct Unit {
    ended: Result<Ended, Stop>,
    further: Further,
}

impl Unit {
    /// A deck of which no call was made.
    fn not_played(stop: Stop) -> Unit {
        Unit {
            ended: Err(stop),
            further: NOTHING_FURTHER,
        }
    }
}

/// What is to be said behind the line that says how a deck ended.
fn further_of(played: &Played, every: Option<u32>) -> Further {
    let committed = match played.ended.status {
        DEVICE_FAILED => committed_calls(every, played.answered),
        _ => None,
    };
    Further {
        committed,
        full: played.full,
    }
}

/// Plays a deck over the files of a volume, in whose log a program left this, as one unit or with commits on its way, with a ledger for the accesses that
/// fail. What its calls changed is then committed, on the disk if that is wanted; only then the last lines of its calls go out.
fn play_over<L: Ledger, R: Files<File = File>, P: Progress, O: Write, E: Write>(
    alloc: Global,
    dbd: &Dbd,
    psb: &Psb,
    steps: &[Step<'_>],
    every: Option<u32>,
    expectations: Expectations,
    files: VolumeFiles<'_, R>,
    left: Left,
    cache: u32,
    blank: Blank,
    progress: &P,
    out: &mut O,
    err: &mut E,
) -> Unit
    requires name { blank.name ≡ L.name }
    requires parts { blank.parts ≡ L.parts }
    requires share { 0 < blank.parts }
    requires matches { psb.now.made_for ≡ type_names dbd.now.types }
    requires steps { All (StepFits (length psb.now.pcbs)) steps.now }
    requires count { length steps.now ≤ 2 ^ 30 }
{
    let (files, played) = play_disk::<VolumeFiles<'_, R>, L, P, O, E>(
        alloc,
        dbd,
        psb,
        steps,
        every,
        expectations,
        files,
        left,
        cache,
        blank,
        progress,
        out,
        err,
    );
    match played {
        Ok(played) => {
            let error = close_files(files, played.settled);
            let further = further_of(&played, every);
            let ended = ended_with(played, error, err);
            Unit { ended, further }
        }
        Err(Unplayed::Unopened(unopened)) => Unit::not_played(not_opened(files, unopened)),
        Err(Unplayed::Memory) => Unit::not_played(Stop::from(Refusal::Memory)),
    }
}

/// As `play_over`, with a ledger of its own.
fn play_own<R: Files<File = File>, P: Progress, O: Write, E: Write>(
    alloc: Global,
    dbd: &Dbd,
    psb: &Psb,
    steps: &[Step<'_>],
    every: Option<u32>,
    expectations: Expectations,
    files: VolumeFiles<'_, R>,
    left: Left,
    cache: u32,
    progress: &P,
    out: &mut O,
    err: &mut E,
) -> Unit
    requires matches { psb.now.made_for ≡ type_names dbd.now.types }
    requires steps { All (StepFits (length psb.now.pcbs)) steps.now }
    requires count { length steps.now ≤ 2 ^ 30 }
{
    let blank = Blank::new(1);
    play_over::<Brand, R, P, O, E>(
        alloc,
        dbd,
        psb,
        steps,
        every,
        expectations,
        files,
        left,
        cache,
        blank,
        progress,
        out,
        err,
    )
}

/// Plays the deck in a file over the volume in another, as one unit, or with a commit behind every so many calls, and compares what is answered with
/// what the deck expects, if that is wanted. The DBD, the PSB and the deck are read and judged first,
/// in this order, then the volume is opened; only then is it judged. Says how it ended.
pub fn play_file<R, P, O, E>(
    console: &mut Console<'_, R, P, O, E>,
    dbd: &str,
    psb: &str,
    volume: &str,
    deck: &str,
    every: Option<u32>,
    compares: bool,
    cache: Option<u32>,
    syncs: bool,
) -> Result<Ended, Stop>
where
    R: Files<File = File>,
    P: Progress,
    O: Write,
    E: Write,
{
    let (rt, alloc) = (console.rt, console.alloc);
    let (dbd, source) = read_database(rt, alloc, dbd)?;
    let (psb, program) = read_program(rt, alloc, &dbd, psb)?;
    let pcbs = psb.pcbs().len() as u8;
    let (text, identity) = read_file(rt, alloc, deck, Named::Deck)?;
    let read = read_deck(alloc, &text, pcbs);
    let steps = match read {
        Ok(steps) => steps,
        Err(fault) => {
            drop(read);
            return Err(Stop::deck(fault, text, Named::Deck));
        }
    };
    let expectations = read_expectations(alloc, &text, &steps, compares)?;
    let volume = open_volume(rt, volume, &[source, program, identity])?;
    let cache = cache.unwrap_or(blocks_for_changes(&dbd));
    let (files, left) = open_files(alloc, volume, syncs)?;
    let played = play_own(
        alloc,
        &dbd,
        &psb,
        &steps,
        every,
        expectations,
        files,
        left,
        cache,
        console.progress,
        &mut *console.out,
        &mut *console.err,
    );
    console.further = played.further;
    played.ended
}
