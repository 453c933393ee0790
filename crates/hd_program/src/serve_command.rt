ghost use Rattle.std.specs.Prelude.{◌≡◌, ◌<◌, IsTrue};
ghost use Rattle.hd_dbd.specs.ProgramRules.{type_names};
ghost use Rattle.hd_serve.specs.Serves.{IsServiceFor};

use crate::console::Console;
use crate::dbd_source::{blocks_for_changes, read_database};
use crate::deck_command::read_program;
use crate::stop::Stop;
use crate::volume_store::{
    close_files, close_store, not_opened, open_files, open_store, tell_waiting,
};
use hd_commands::{Ended, Refusal, refuse, status_of_calls};
use hd_dbd::{Dbd, Psb};
use hd_deck::RunFault;
use hd_files::{Left, Named, VolumeFiles, open_volume};
use hd_journal::{Disk, Journaled, Unopened};
use hd_output::Progress;
use hd_serve::{Ending, FrameFault, ServeFault, Service};
use hd_stores::{CommitStore, ReadAhead, RunStore};
use std::alloc::Global;
use std::fs::File;
use std::io::{self, Read, Write};
use std::marker::Brand;
use std::rt::Files;
use std::sync::ledger::{Blank, Ledger};

/// How serving ended that did not go on to the end of its input: a volume that is refused is told as a deck tells it.
fn end_of<E: Write>(fault: ServeFault, err: &mut E) -> Result<Ended, Stop> {
    match fault {
        ServeFault::Open(fault) => Ok(refuse(Refusal::of_run(RunFault::Open(fault)), err)),
        ServeFault::Hello => Err(Stop::Fields),
        ServeFault::Memory | ServeFault::Frame(FrameFault::Memory) => Err(Stop::from(
            Refusal::Memory,
        )),
        ServeFault::Device | ServeFault::Write | ServeFault::Frame(FrameFault::Read) => Err(
            Stop::from(Refusal::Device),
        ),
        ServeFault::Frame(fault) => Err(Stop::Frame(fault)),
    }
}

/// Whether an access of the volume or of its log failed.
fn is_device(fault: ServeFault) -> bool {
    match fault {
        ServeFault::Device => true,
        ServeFault::Open(fault) => Refusal::of_run(RunFault::Open(fault)) == Refusal::Device,
        _ => false,
    }
}

/// One session over a store: why it ended, and how many of its calls found no memory.
fn serve_session<S: CommitStore, I: Read, O: Write>(
    alloc: Global,
    dbd: &Dbd,
    psb: &Psb,
    service: &mut Service,
    store: S,
    kept: usize,
    input: &mut I,
    out: &mut O,
) -> (S, Result<(Ending, u64), ServeFault>)
    requires size { S.size store ≡ dbd.now.block_size }
    requires matches { psb.now.made_for ≡ type_names dbd.now.types }
    requires made_for { IsServiceFor dbd.now psb.now.pcbs service.old }
    ensures size { S.size result.0 ≡ S.size store }
    ensures made_for { IsServiceFor dbd.now psb.now.pcbs service.new }
{
    match service.serve(alloc, store, dbd, psb, kept, input, out) {
        Ok(end) => (end.store, Ok((end.ending, end.memory))),
        Err((store, fault)) => (store, Err(fault)),
    }
}

/// One session over a store whose blocks are read ahead, with so many of its volume kept in memory.
fn serve_ahead<S: RunStore + CommitStore, I: Read, O: Write>(
    alloc: Global,
    dbd: &Dbd,
    psb: &Psb,
    service: &mut Service,
    store: S,
    cache: u32,
    input: &mut I,
    out: &mut O,
) -> (S, Result<(Ending, u64), ServeFault>)
    requires size { S.size store ≡ dbd.now.block_size }
    requires matches { psb.now.made_for ≡ type_names dbd.now.types }
    requires made_for { IsServiceFor dbd.now psb.now.pcbs service.old }
    ensures size { S.size result.0 ≡ S.size store }
    ensures made_for { IsServiceFor dbd.now psb.now.pcbs service.new }
{
    let ahead = ReadAhead::new(alloc, store);
    let kept = cache as usize;
    let (ahead, served) = serve_session(alloc, dbd, psb, service, ahead, kept, input, out);
    (ahead.into_store(), served)
}

/// Session after session over a store, until the input ends: behind a roll back the next goes on over what was committed, and the end commits what is not yet,
/// if that is wanted. Gives the store back with the number of calls that found no memory.
fn serve_sessions<D: Disk, L: Ledger, I: Read, O: Write>(
    alloc: Global,
    dbd: &Dbd,
    psb: &Psb,
    service: &mut Service,
    store: Journaled<D, L>,
    end_commits: bool,
    cache: u32,
    input: &mut I,
    out: &mut O,
) -> (Journaled<D, L>, Result<u64, ServeFault>)
    requires size { store.size ≡ dbd.now.block_size }
    requires matches { psb.now.made_for ≡ type_names dbd.now.types }
    requires made_for { IsServiceFor dbd.now psb.now.pcbs service.old }
{
    let mut store = store;
    let mut memory = 0u64;
    'sessions: for _ in 0..u64::MAX {
        let (mut given, ended) = serve_ahead(alloc, dbd, psb, service, store, cache, input, out);
        match ended {
            Ok((Ending::RollBack, lacking)) => {
                given.roll_back();
                memory = memory.saturating_add(lacking);
                store = given;
            }
            Ok((Ending::Input, lacking)) => {
                let memory = memory.saturating_add(lacking);
                if end_commits && given.commit().is_err() {
                    return (given, Err(ServeFault::Device));
                }
                return (given, Ok(memory));
            }
            Err(fault) => return (given, Err(fault)),
        }
    }
    (store, Err(ServeFault::Frame(FrameFault::Read)))
}

/// Takes back what was changed since the last commit, and says so if there is any.
fn take_back<D: Disk, L: Ledger, E: Write>(store: &mut Journaled<D, L>, err: &mut E) {
    if store.is_changed() {
        let _ = err.write_all(b"taken back: what was changed since the last commit is gone\n");
    }
    store.roll_back();
}

/// What came of serving over a volume and its log: the number of calls that found no memory, or why it ended before the input, and whether all commits are in
/// the volume.
#[derive(Clone, Copy, Drop)]
struct Served {
    memory: Result<u64, ServeFault>,
    settled: Result<(), ()>,
}

/// Serves a program over a volume and its log, in which a program left this, with a ledger for the accesses that fail. What its calls changed lasts, on the disk
/// if that is wanted, once a commit is asked for, or the input ends and that commits too; behind a frame that is no right one, or an answer that was not
/// written, it is taken back.
fn serve_disk<D: Disk, L: Ledger, I: Read, O: Write, E: Write>(
    alloc: Global,
    dbd: &Dbd,
    psb: &Psb,
    disk: D,
    left: Left,
    end_commits: bool,
    cache: u32,
    blank: Blank,
    input: &mut I,
    out: &mut O,
    err: &mut E,
) -> (D, Result<Served, Unopened>)
    requires usable { IsTrue (D.is_usable disk) }
    requires name { blank.name ≡ L.name }
    requires parts { blank.parts ≡ L.parts }
    requires share { 0 < blank.parts }
    requires matches { psb.now.made_for ≡ type_names dbd.now.types }
{
    let store: Journaled<D, L> = match open_store(alloc, dbd, disk, left, blank, err) {
        Ok(store) => store,
        Err((disk, unopened)) => return (disk, Err(unopened)),
    };
    let (mut store, memory) = match Service::new(alloc, dbd, psb) {
        Ok(mut service) => serve_sessions(
            alloc,
            dbd,
            psb,
            &mut service,
            store,
            end_commits,
            cache,
            input,
            out,
        ),
        Err(fault) => (store, Err(fault)),
    };
    take_back(&mut store, err);
    let (disk, settled) = close_store(store);
    (disk, Ok(Served { memory, settled }))
}

/// Serves a program over the files of a volume, in whose log a program left this, with a ledger for the accesses that fail.
fn serve_over<L: Ledger, R: Files<File = File>, I: Read, O: Write, E: Write>(
    alloc: Global,
    dbd: &Dbd,
    psb: &Psb,
    files: VolumeFiles<'_, R>,
    left: Left,
    end_commits: bool,
    cache: u32,
    blank: Blank,
    input: &mut I,
    out: &mut O,
    err: &mut E,
) -> Result<Ended, Stop>
    requires name { blank.name ≡ L.name }
    requires parts { blank.parts ≡ L.parts }
    requires share { 0 < blank.parts }
    requires matches { psb.now.made_for ≡ type_names dbd.now.types }
{
    let (files, served) = serve_disk::<VolumeFiles<'_, R>, L, I, O, E>(
        alloc,
        dbd,
        psb,
        files,
        left,
        end_commits,
        cache,
        blank,
        input,
        out,
        err,
    );
    match served {
        Ok(served) => ended_with(served, close_files(files, served.settled), err),
        Err(unopened) => Err(not_opened(files, unopened)),
    }
}

/// How serving ended over files of which the system said this, if it refused an access.
fn ended_with<E: Write>(
    served: Served,
    said: Option<io::Error>,
    err: &mut E,
) -> Result<Ended, Stop> {
    if matches!(served.memory, Err(fault) if is_device(fault)) {
        return Err(Stop::device(Named::Volume, said));
    }
    tell_waiting(served.settled, err);
    match served.memory {
        Err(fault) => end_of(fault, err),
        Ok(memory) => Ok(Ended::with_status(status_of_calls(memory))),
    }
}

/// As `serve_over`, with a ledger of its own.
fn serve_own<R: Files<File = File>, I: Read, O: Write, E: Write>(
    alloc: Global,
    dbd: &Dbd,
    psb: &Psb,
    files: VolumeFiles<'_, R>,
    left: Left,
    end_commits: bool,
    cache: u32,
    input: &mut I,
    out: &mut O,
    err: &mut E,
) -> Result<Ended, Stop>
    requires matches { psb.now.made_for ≡ type_names dbd.now.types }
{
    let blank = Blank::new(1);
    serve_over::<Brand, R, I, O, E>(
        alloc,
        dbd,
        psb,
        files,
        left,
        end_commits,
        cache,
        blank,
        input,
        out,
        err,
    )
}

/// Serves a program's calls over the volume in a file, and its requests to commit and to roll back: they come as frames from `input`, and each is answered
/// by a frame on `out`. The DBD and the PSB are read and judged first, then the volume is opened, and no other program opens it until the end of the input; only
/// then is it judged. The end of the input commits too, where that is wanted. Says how it ended.
pub fn serve_file<R, P, I, O, E>(
    console: &mut Console<'_, R, P, O, E>,
    dbd: &str,
    psb: &str,
    volume: &str,
    end_commits: bool,
    cache: Option<u32>,
    syncs: bool,
    input: &mut I,
) -> Result<Ended, Stop>
where
    R: Files<File = File>,
    P: Progress,
    I: Read,
    O: Write,
    E: Write,
{
    let (rt, alloc) = (console.rt, console.alloc);
    let (dbd, source) = read_database(rt, alloc, dbd)?;
    let (psb, program) = read_program(rt, alloc, &dbd, psb)?;
    let volume = open_volume(rt, volume, &[source, program])?;
    let cache = cache.unwrap_or(blocks_for_changes(&dbd));
    let (files, left) = open_files(alloc, volume, syncs)?;
    serve_own(
        alloc,
        &dbd,
        &psb,
        files,
        left,
        end_commits,
        cache,
        input,
        &mut *console.out,
        &mut *console.err,
    )
}
