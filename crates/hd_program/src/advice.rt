use crate::beginning::Beginning;
use crate::dbd_source::read_database;
use crate::ink::Ink;
use crate::places::line_at;
use crate::row_advice::{advise_row, put_table};
use crate::sight_advice::{put_fault, put_stream};
use crate::sights::{Sight, written_file};
use crate::source_advice::{SourceText, advise_source};
use crate::stop::Stop;
use crate::stream_command::text_of;
use hd_commands::Refusal;
use hd_dbd::Dbd;
use hd_deck::DeckFault;
use hd_explain::{Explanation, explain};
use hd_files::{ENDING as NEW_ENDING, LOG_ENDING, Named};
use hd_gen::GenFault;
use hd_words::Request;
use std::alloc::Global;
use std::fs::File;
use std::io::{self, ErrorKind, Write};
use std::rt::Files;

/// Writes the lines that say more of why the program stops: the file, and what the system said of it, or the line of a text that is refused;
/// and what the fault's word means.
pub fn advise_stop<R: Files<File = File>, E: Write>(
    rt: &R,
    alloc: Global,
    stop: &Stop,
    request: &Request<'_>,
    err: &mut E,
) {
    let mut ink = Ink::new(err);
    match stop {
        Stop::Database(fault, source) => {
            let text = source_text(request, Named::Dbd, source);
            advise_source(alloc, *fault, text, None, &mut ink);
        }
        Stop::Source(fault, source) => {
            let text = source_text(request, Named::Dbd, source);
            advise_source(alloc, GenFault::Line(*fault), text, None, &mut ink);
        }
        Stop::Program(fault, source) => {
            let text = source_text(request, Named::Psb, source);
            let dbd = database_of(rt, alloc, request);
            advise_source(alloc, *fault, text, dbd.as_ref(), &mut ink);
        }
        Stop::Deck(fault, text, file) => {
            advise_deck(alloc, *fault, request.name_of(*file), text, &mut ink);
        }
        Stop::Rows(fault, line, column, text) => {
            let number = usize::try_from(*line).unwrap_or(usize::MAX);
            put_place(
                request.name_of(Named::Rows),
                number,
                *column,
                text,
                &mut ink,
            );
            advise_row(*fault, &mut ink);
        }
        Stop::File(Named::Volume, error) => {
            let file = written_file(rt, alloc, request, error);
            advise_error(alloc, &Stop::File(file, *error), error, request, &mut ink);
        }
        Stop::File(_, error) | Stop::Beside(_, error) | Stop::Waiting(error) => {
            advise_error(alloc, stop, error, request, &mut ink);
        }
        Stop::InUse(file) => {
            ink.name(request.name_of(*file));
            ink.put(": another program uses it; try again when that one has ended\n");
        }
        Stop::OneOutput => {
            ink.name(request.name_of(Named::Rows));
            ink.put(": OUT is this file too\n");
        }
        Stop::OtherVolume => {
            put_file(request, Named::Log, &mut ink);
            ink.put(
                ": it was written beside another file; if the two belong together, name it to hd recover, and else remove it\n",
            );
        }
        Stop::OtherVersion => {
            put_file(request, Named::Log, &mut ink);
            ink.put(": another version of hd wrote it, which can copy it into the volume\n");
        }
        Stop::Table(table) => put_table(request.name_of(Named::Rows), table, &mut ink),
        Stop::NoType => {
            if let Some(dbd) = database_of(rt, alloc, request) {
                put_types(request.name_of(Named::Dbd), &dbd, &mut ink);
            }
        }
        Stop::OverInput => put_over_input(request.name_of(written_by(request)), &mut ink),
        Stop::OrphansOverInput => put_over_input(request.name_of(Named::Rows), &mut ink),
        Stop::Frame(_) => put_named("standard input", "frame refused", &mut ink),
        Stop::Fields => put_named(
            request.name_of(Named::Dbd),
            "more than 255 fields",
            &mut ink,
        ),
        Stop::Words => put_named("the command line", "is not UTF-8", &mut ink),
        Stop::Refused(refusal) => advise(alloc, *refusal, None, request, &mut ink),
    }
}

/// The source of one of a command's files.
fn source_text<'a>(request: &Request<'a>, file: Named, source: &'a [u8]) -> SourceText<'a> {
    SourceText {
        file,
        name: request.name_of(file),
        source,
    }
}

/// Writes the line that says how many calls of a deck were answered Full, if any were.
pub fn advise_full<E: Write>(calls: u64, err: &mut E) {
    if calls > 0 {
        let _ = writeln!(
            err,
            "calls answered Full: {calls}; the volume has no room for their rows: unload it, and reload it with more BLOCKS"
        );
    }
}

/// Writes the line that says what the word of a refusal means, and what is seen where it tells of a file.
pub fn advise_refusal<E: Write>(
    alloc: Global,
    refusal: Refusal,
    seen: Option<&Sight>,
    request: &Request<'_>,
    err: &mut E,
) {
    advise(alloc, refusal, seen, request, &mut Ink::new(err));
}

/// As `advise_refusal`.
fn advise<E: Write>(
    alloc: Global,
    refusal: Refusal,
    seen: Option<&Sight>,
    request: &Request<'_>,
    ink: &mut Ink<'_, E>,
) {
    match seen {
        Some(Sight::Kind(file, beginning)) => {
            put_kind(request.name_of(*file), *file, *beginning, ink);
            return;
        }
        Some(Sight::Stream(head)) => put_stream(request.name_of(Named::Stream), head, ink),
        _ => {}
    }
    let volume = request.name_of(Named::Volume);
    let stream = request.name_of(Named::Stream);
    match refusal {
        Refusal::Fault(fault) => {
            if let Ok(number) = format!(in alloc; "{}", fault.number()) {
                put_fault(volume, &number, seen, ink);
            }
        }
        Refusal::Record(fault, _) => {
            if let Ok(name) = format!(in alloc; "{fault}") {
                put_named(stream, &name, ink);
            }
        }
        Refusal::Full(_) => put_named(stream, "Full", ink),
        Refusal::Old(_) => put_named(volume, "volume of version", ink),
        Refusal::NotEmpty => put_named(volume, "volume is not empty", ink),
        Refusal::Device => put_word("exit3", ink),
        Refusal::Memory => put_word("exit4", ink),
    }
}

/// Writes that a file for a result is read too.
fn put_over_input<E: Write>(name: &str, ink: &mut Ink<'_, E>) {
    ink.name(name);
    ink.put(": the command reads it too; name another file for the result\n");
}

/// The file of a command that is written.
fn written_by(request: &Request<'_>) -> Named {
    match request {
        Request::Unload { .. } | Request::Copy { .. } => Named::Out,
        Request::Salvage { .. } | Request::Stream { .. } => Named::Out,
        Request::Show { .. } => Named::Picture,
        _ => Named::Volume,
    }
}

/// Writes the names of a database's types.
fn put_types<E: Write>(name: &str, dbd: &Dbd, ink: &mut Ink<'_, E>) {
    ink.name(name);
    let mut between = ": its types are ";
    for segment in dbd.types() {
        ink.put(between);
        ink.put(text_of(&segment.name));
        between = ", ";
    }
    ink.put("\n");
}

/// Writes what a word means, behind the name of the file of which it tells.
fn put_named<E: Write>(name: &str, word: &str, ink: &mut Ink<'_, E>) {
    if let Some(entry) = explain(word) {
        put_entry_of(name, entry, ink);
        put_more(entry, ink);
    }
}

/// Writes a word and what it means, behind the name of the file of which it tells.
pub fn put_entry_of<E: Write>(name: &str, entry: &Explanation, ink: &mut Ink<'_, E>) {
    ink.name(name);
    ink.put(": ");
    ink.put(entry.word);
    ink.put(": ");
    ink.put(entry.summary);
}

/// The database that a command names, read once more.
fn database_of<R: Files<File = File>>(rt: &R, alloc: Global, request: &Request<'_>) -> Option<Dbd> {
    match read_database(rt, alloc, request.name_of(Named::Dbd)) {
        Ok((dbd, _)) => Some(dbd),
        Err(_) => None,
    }
}

/// Writes the line that says more of what the system refused. Who closed a pipe wants no more of what goes there.
fn advise_error<E: Write>(
    alloc: Global,
    stop: &Stop,
    error: &io::Error,
    request: &Request<'_>,
    ink: &mut Ink<'_, E>,
) {
    let Ok(said) = format!(in alloc; "{error}") else {
        return;
    };
    let behind = match stop {
        Stop::File(_, _) if error.kind() == ErrorKind::BrokenPipe => return,
        Stop::File(file, _) => {
            put_file(request, *file, ink);
            "\n"
        }
        Stop::Beside(file, _) => {
            ink.name(request.name_of(*file));
            ink.put(NEW_ENDING);
            "\n"
        }
        _ => {
            put_file(request, Named::Volume, ink);
            "; who may write it copies the log by hd recover\n"
        }
    };
    ink.put(": ");
    ink.put(without_number(&said));
    ink.put(behind);
}

/// Writes the name of one of a command's files at the beginning of a line; a log that was not named has that of the volume.
fn put_file<E: Write>(request: &Request<'_>, file: Named, ink: &mut Ink<'_, E>) {
    match (file, request) {
        (Named::Log, Request::Recover { log: Some(log), .. }) => ink.name(log),
        (Named::Log, _) => {
            ink.name(request.name_of(Named::Volume));
            ink.put(LOG_ENDING);
        }
        _ => ink.name(request.name_of(file)),
    }
}

/// Writes that a file is something else than what its word wants.
fn put_kind<E: Write>(name: &str, file: Named, beginning: Beginning, ink: &mut Ink<'_, E>) {
    let Some(found) = beginning.words() else {
        return;
    };
    let wanted = match file {
        Named::Dbd => "DBD source",
        Named::Psb => "PSB source",
        Named::Volume => "volume",
        Named::Stream => "unload stream",
        _ => "deck",
    };
    ink.name(name);
    ink.put(": this is ");
    ink.put(found);
    ink.put(", and no ");
    ink.put(wanted);
    ink.put("\n");
}

/// Writes the line of a deck that a fault names, and what the fault's word means; or that it is no deck but a volume or a stream.
fn advise_deck<E: Write>(
    alloc: Global,
    fault: DeckFault,
    name: &str,
    text: &[u8],
    ink: &mut Ink<'_, E>,
) {
    if put_other_kind(name, Named::Deck, text, ink) {
        return;
    }
    let Ok(said) = format!(in alloc; "{fault}") else {
        return;
    };
    if let Some(number) = line_of(&said) {
        put_line(name, number, text, ink);
    }
    put_word(word_of(&said), ink);
}

/// Writes that a text is none but a volume or a stream, where it is one.
pub fn put_other_kind<E: Write>(
    name: &str,
    file: Named,
    text: &[u8],
    ink: &mut Ink<'_, E>,
) -> bool {
    match Beginning::of(text) {
        Beginning::Volume | Beginning::Stream => {
            put_kind(name, file, Beginning::of(text), ink);
            true
        }
        Beginning::Text | Beginning::Unknown => false,
    }
}

/// Writes a line of a text, behind the name of the text's file and the line's number.
pub fn put_line<E: Write>(name: &str, number: usize, text: &[u8], ink: &mut Ink<'_, E>) {
    put_place(name, number, 0, text, ink);
}

/// Writes a line of a text, behind the name of the text's file, the line's number, and the column of which it tells, 0 for none.
pub fn put_place<E: Write>(
    name: &str,
    number: usize,
    column: usize,
    text: &[u8],
    ink: &mut Ink<'_, E>,
) {
    ink.name(name);
    ink.put(":");
    ink.number(number as u64);
    if column > 0 {
        ink.put(":");
        ink.number(column as u64);
    }
    ink.put(": ");
    ink.shown(line_at(text, number));
    ink.put("\n");
}

/// Writes what a word means, where that is known.
pub fn put_word<E: Write>(word: &str, ink: &mut Ink<'_, E>) {
    if let Some(entry) = explain(word) {
        put_entry(entry, ink);
        put_more(entry, ink);
    }
}

/// Writes a word and what it means.
pub fn put_entry<E: Write>(entry: &Explanation, ink: &mut Ink<'_, E>) {
    ink.put("  ");
    ink.put(entry.word);
    ink.put(": ");
    ink.put(entry.summary);
}

/// Writes which command says more of a word.
pub fn put_more<E: Write>(entry: &Explanation, ink: &mut Ink<'_, E>) {
    let quote = if entry.word.contains(' ') { "\"" } else { "" };
    ink.put("; hd explain ");
    ink.put(quote);
    ink.put(entry.word);
    ink.put(quote);
    ink.put(" says more\n");
}

/// The word of a text's fault, which stands last, as in `line 10, M4` and `type 1, B6`.
pub fn word_of(fault: &str) -> &str {
    match fault.split_once(", ") {
        Some((_, word)) => word,
        None => fault,
    }
}

/// The number of the line that a text's fault names; none where it names a type or a PCB.
fn line_of(fault: &str) -> Option<usize> {
    let (place, _) = fault.split_once(", ")?;
    let (kind, number) = place.split_once(' ')?;
    if kind != "line" {
        return None;
    }
    number.parse::<usize>().ok()
}

/// What the system said of a file, without the number of its error.
fn without_number(said: &str) -> &str {
    match said.split_once(" (os error ") {
        Some((text, _)) => text,
        None => said,
    }
}
