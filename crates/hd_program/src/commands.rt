use crate::advice::{advise_full, advise_refusal, advise_stop};
use crate::check_command::{Faults, check_file};
use crate::console::{Console, Further, NOTHING_FURTHER};
use crate::copy_command::copy_file;
use crate::deck_command::play_file;
use crate::explain_command::explain_word;
use crate::operands_command::list_operands;
use crate::recover_command::recover_file;
use crate::reload_command::reload_file;
use crate::rows_command::list_rows;
use crate::salvage_command::salvage_file;
use crate::sample_command::play_sample;
use crate::serve_command::serve_file;
use crate::show_command::{show_database, show_volume};
use crate::sights::see_refused;
use crate::stop::{COMMAND_LINE, Stop};
use crate::stream_command::{make_of_rows, make_of_tables};
use crate::tables_command::list_tables;
use crate::unload_command::unload_file;
use clap::error::ErrorKind;
use hd_commands::{Ended, Refusal};
use hd_files::{Named, Watched};
use hd_output::{Progress, Unmixed};
use hd_rows::Values;
use hd_words::{Explains, Request, read_words};
use std::alloc::Global;
use std::fs::File;
use std::io::{self, Read, Write};
use std::rt::Files;

/// Does what the words behind the program's name ask for, and gives the status of the program: 0 done; 1 a fault in a volume or a
/// stream, no room for it, or a volume that is not empty for a load; 2 a text refused; 3 a failed read or write; 4 no memory, in a deck also
/// for one call; 64 a command line that is not understood, help among them, whose text is `clap`'s, or one that would write over what it
/// reads.
///
/// Without words it reads a deck from `input` and plays it over the sample database, in memory. `deck` plays one over a volume, `serve` answers
/// the calls that come as frames from `input`, `check` judges
/// a volume, `recover` copies into one what stands in its log alone, `unload` writes its unload stream, and `reload` makes a volume of one; `show` draws a database or a volume, `rows` writes a volume's
/// rows, and `stream` makes an unload stream of rows; `explain` says what a fault, status or refusal means. What the calls answer, and what was
/// done, goes to `out`; why the program ended early goes to `err`, a line, and where that is a terminal or the words say so, further lines that
/// say more. How far a long command is goes to `progress`, and is taken away before a line and at the end.
pub fn play<R, P, I, O, E>(
    rt: &R,
    words: &[String],
    is_terminal: bool,
    progress: &P,
    input: &mut I,
    out: &mut O,
    err: &mut E,
) -> u8
where
    R: Files<File = File> + AllocGlobal,
    P: Progress,
    I: Read,
    O: Write,
    E: Write,
{
    let (request, explains) = match asked_by(rt.alloc(), words, err) {
        Ok(asked) => asked,
        Err(status) => return status,
    };
    let says_more = match explains {
        Explains::Always => true,
        Explains::Never => false,
        Explains::Auto => is_terminal,
    };
    let mut out = Watched::over(Unmixed::output(out, progress));
    let mut err = Unmixed::errors(err, progress);
    let (performed, further) = perform(rt, request, progress, input, &mut out, &mut err);
    progress.end();
    let status = match &performed {
        Ok(ended) => ended.status,
        Err(stop) => stopped(stop, &mut err),
    };
    if let Some(calls) = further.committed {
        let _ = writeln!(err, "committed: at least the first {calls} calls");
    }
    if says_more {
        advise_full(further.full, &mut err);
        say_more(rt, performed, out.last_error(), &request, &mut err);
    }
    status
}

/// What the words ask for, and when more is said of a stop; or the status of the program where they are not understood, which is said.
#[inline(never)] // What this one needs of the stack is no more taken when a command is at work.
fn asked_by<'a, E: Write>(
    alloc: Global,
    words: &'a [String],
    err: &mut E,
) -> Result<(Request<'a>, Explains), u8> {
    match read_words(alloc, words) {
        Ok(asked) => Ok(asked),
        Err(error) if error.kind() == ErrorKind::OutOfMemory => {
            Err(stopped(&Stop::from(Refusal::Memory), err))
        }
        Err(error) => {
            let _ = write!(err, "{error}");
            Err(COMMAND_LINE)
        }
    }
}

/// Says more of why a command did not do its work: of a failed access of which nothing else is known, what the system said of standard output.
#[inline(never)] // As above.
fn say_more<R, E>(
    rt: &R,
    performed: Result<Ended, Stop>,
    said: Option<io::Error>,
    request: &Request<'_>,
    err: &mut E,
)
where
    R: Files<File = File> + AllocGlobal,
    E: Write,
{
    let stop = match performed {
        Ok(Ended { refusal: None, .. }) => return,
        Ok(
            Ended {
                refusal: Some(refusal),
                ..
            },
        ) => Stop::Refused(refusal),
        Err(stop) => stop,
    };
    match (stop, said) {
        (Stop::Refused(Refusal::Device), Some(error)) => {
            advise_stop(
                rt,
                rt.alloc(),
                &Stop::File(Named::Output, error),
                request,
                err,
            )
        }
        (Stop::Refused(refusal), _) => {
            let seen = see_refused(rt, rt.alloc(), request, refusal);
            advise_refusal(rt.alloc(), refusal, seen.as_ref(), request, err)
        }
        (stop, _) => advise_stop(rt, rt.alloc(), &stop, request, err),
    }
}

/// Does what is asked for, with these streams, and says how it ended, and what is to be said behind that.
fn perform<'c, R, P, I, O, E>(
    rt: &'c R,
    request: Request<'_>,
    progress: &'c P,
    input: &mut I,
    out: &'c mut O,
    err: &'c mut E,
) -> (Result<Ended, Stop>, Further)
where
    R: Files<File = File> + AllocGlobal,
    P: Progress,
    I: Read,
    O: Write,
    E: Write,
{
    let mut console = Console {
        rt,
        alloc: rt.alloc(),
        progress,
        out,
        err,
        further: NOTHING_FURTHER,
    };
    let ended = command(&mut console, request, input);
    (ended, console.further)
}

/// The command that is asked for.
fn command<R, P, I, O, E>(
    console: &mut Console<'_, R, P, O, E>,
    request: Request<'_>,
    input: &mut I,
) -> Result<Ended, Stop>
where
    R: Files<File = File>,
    P: Progress,
    I: Read,
    O: Write,
    E: Write,
{
    let (rt, alloc) = (console.rt, console.alloc);
    match request {
        Request::Sample => play_sample(alloc, input, &mut *console.out, &mut *console.err),
        Request::Deck {
            dbd,
            psb,
            volume,
            deck,
            every,
            compares,
            cache,
            syncs,
        } => play_file(
            console, dbd, psb, volume, deck, every, compares, cache, syncs,
        ),
        Request::Serve {
            dbd,
            psb,
            volume,
            end_commits,
            cache,
            syncs,
        } => serve_file(console, dbd, psb, volume, end_commits, cache, syncs, input),
        Request::Check {
            dbd,
            volume,
            is_whole,
            cache,
        } => check_file(console, dbd, volume, faults_of(is_whole), cache),
        Request::Recover {
            dbd,
            volume,
            log,
            cache,
        } => recover_file(console, dbd, volume, log, cache),
        Request::Unload {
            dbd,
            volume,
            out: stream,
            cache,
            syncs,
        } => unload_file(console, dbd, volume, stream, cache, syncs),
        Request::Copy {
            dbd,
            volume,
            out: copy,
            cache,
            syncs,
        } => copy_file(console, dbd, volume, copy, cache, syncs),
        Request::Salvage {
            dbd,
            volume,
            out: stream,
            orphans,
            cache,
            syncs,
        } => salvage_file(console, dbd, volume, stream, orphans, cache, syncs),
        Request::Reload {
            dbd,
            input,
            volume,
            blocks,
            cache,
            syncs,
        } => reload_file(console, dbd, input, volume, blocks, cache, syncs),
        Request::Show {
            dbd,
            volume: None,
            ..
        } => show_database(rt, alloc, dbd, &mut *console.out),
        Request::Show {
            dbd,
            volume: Some(volume),
            picture,
            cache,
            syncs,
        } => show_volume(console, dbd, volume, picture, cache, syncs),
        Request::Rows {
            dbd,
            volume,
            table,
            folder: None,
            is_typed,
            cache,
            ..
        } => list_rows(console, dbd, volume, table, values_of(is_typed), cache),
        Request::Rows {
            dbd,
            volume,
            folder: Some(folder),
            is_typed,
            cache,
            syncs,
            ..
        } => {
            let values = values_of(is_typed);
            list_tables(console, dbd, volume, folder, values, cache, syncs)
        }
        Request::Stream {
            dbd,
            rows,
            out: stream,
            is_tables: false,
            is_typed,
            syncs,
        } => {
            let values = values_of(is_typed);
            make_of_rows(
                rt,
                alloc,
                dbd,
                rows,
                stream,
                values,
                syncs,
                &mut *console.out,
            )
        }
        Request::Stream {
            dbd,
            rows,
            out: stream,
            is_tables: true,
            is_typed,
            syncs,
        } => {
            let values = values_of(is_typed);
            make_of_tables(
                rt,
                alloc,
                dbd,
                rows,
                stream,
                values,
                syncs,
                &mut *console.out,
            )
        }
        Request::Operands { source } => list_operands(rt, alloc, source, &mut *console.out),
        Request::Explain { word } => explain_word(word, &mut *console.out, &mut *console.err),
    }
}

/// Which faults of a volume are told.
fn faults_of(is_whole: bool) -> Faults {
    if is_whole { Faults::All } else { Faults::First }
}

/// How values are written and read.
fn values_of(is_typed: bool) -> Values {
    if is_typed {
        Values::Typed
    } else {
        Values::Bytes
    }
}

/// Says why the program stops, and gives its status.
pub fn stopped<E: Write>(stop: &Stop, err: &mut E) -> u8 {
    let _ = writeln!(err, "{stop}");
    stop.status()
}
