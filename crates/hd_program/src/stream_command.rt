use crate::dbd_source::read_database;
use crate::places::line_at;
use crate::stop::{Stop, TableFault};
use hd_commands::{Ended, Refusal};
use hd_dbd::{Dbd, Name8, SegType};
use hd_files::{FileFault, Identity, Named, Output, Wanted, Watched, read_file, read_whole};
use hd_output::Pieces;
use hd_rows::{
    RowFault, TextFault, Values, code_named, column_name, fault_column, header_of, stream_of_rows,
    stream_of_tables,
};
use std::alloc::{AllocError, Global};
use std::fs::File;
use std::io::{self, ErrorKind, Write};
use std::rt::Files;

/// A stream that was made, once all of its records are handed on. What a refusal leaves gathered is not.
fn handed_on<W: Write>(
    made: Result<u32, TextFault>,
    records: &mut Pieces<W>,
) -> Result<u32, TextFault> {
    let segments = made?;
    match records.flush() {
        Ok(()) => Ok(segments),
        Err(_) => Err(TextFault::Write),
    }
}

/// Gives a stream's file the name, and says how many segments the stream has.
fn end_stream<R: Files<File = File>, O: Write>(
    segments: u32,
    output: &mut Output<'_, R>,
    out: &mut O,
) -> Result<Ended, Stop> {
    output.publish()?;
    writeln!(out, "made a stream of {segments} segments")?;
    Ok(Ended::with_status(0))
}

/// Where a stream is to go.
fn wanted(stream: &str, syncs: bool) -> Wanted<'_> {
    Wanted {
        name: stream,
        word: Named::Out,
        is_read: false,
        syncs,
    }
}

/// Makes a stream of a text of rows.
fn write_rows<W: Write>(
    alloc: Global,
    dbd: &Dbd,
    text: &[u8],
    values: Values,
    stream: &mut W,
) -> Result<u32, TextFault> {
    let Ok(mut records) = Pieces::new(alloc, stream) else {
        return Err(TextFault::Memory);
    };
    let made = stream_of_rows(alloc, dbd, text, values, &mut records);
    handed_on(made, &mut records)
}

/// Makes an unload stream, in a file, of a text of rows in another. The DBD is read and judged first, then the text is read, then the
/// stream's file is opened; only when the whole stream is written does it take the place of that file. Values are bytes, or are read by the TYPEs of
/// their fields. Says how many segments the stream has.
pub fn make_of_rows<R, O>(
    rt: &R,
    alloc: Global,
    dbd: &str,
    rows: &str,
    stream: &str,
    values: Values,
    syncs: bool,
    out: &mut O,
) -> Result<Ended, Stop>
where
    R: Files<File = File>,
    O: Write,
{
    let (dbd, source) = read_database(rt, alloc, dbd)?;
    let (text, given) = read_file(rt, alloc, rows, Named::Rows)?;
    let mut output = Output::open(rt, alloc, wanted(stream, syncs), &[source, given])?;
    let mut file = Watched::over(&mut output);
    let made = write_rows(alloc, &dbd, &text, values, &mut file);
    let said = file.last_error();
    drop(file);
    match made {
        Ok(segments) => end_stream(segments, &mut output, out),
        Err(fault) => Err(rows_refused(alloc, &dbd, values, fault, text, said)),
    }
}

/// Why a text of rows makes no stream.
fn rows_refused(
    alloc: Global,
    dbd: &Dbd,
    values: Values,
    fault: TextFault,
    text: Vec<u8>,
    said: Option<io::Error>,
) -> Stop {
    match fault {
        TextFault::Row(fault, line) | TextFault::Table(fault, _, line, _) => {
            let number = usize::try_from(line).unwrap_or(usize::MAX);
            let column = fault_column(alloc, dbd, line_at(&text, number), values);
            Stop::Rows(fault, line, column, text)
        }
        TextFault::Memory => Stop::from(Refusal::Memory),
        TextFault::Write => Stop::device(Named::Out, said),
    }
}

/// The tables in a folder: for each the code of its type and the bytes of its file; and all files that the command reads.
#[derive(Drop)]
struct Tables {
    codes: Vec<u8>,
    texts: Vec<Vec<u8>>,
    files: Vec<Identity>,
}

/// The name of a type without its padding.
pub fn text_of(name: &Name8) -> &str {
    match str::from_utf8(name.bytes()) {
        Ok(text) => text.trim_end(),
        Err(_) => "",
    }
}

/// The bytes of a file, if it is there.
fn read_if_there<R: Files<File = File>>(
    rt: &R,
    alloc: Global,
    name: &str,
) -> Result<Option<(Vec<u8>, Identity)>, Stop> {
    match read_file(rt, alloc, name, Named::Rows) {
        Ok(read) => Ok(Some(read)),
        Err(FileFault::File(file, error)) => {
            if error.kind() == ErrorKind::NotFound {
                return Ok(None);
            }
            Err(Stop::File(file, error))
        }
        Err(fault) => Err(Stop::from(fault)),
    }
}

/// The names of the files in a folder, behind each of which stands a zero.
fn names_in<R: Files<File = File>>(rt: &R, alloc: Global, folder: &str) -> Result<Vec<u8>, Stop> {
    let mut files = match rt.open_dir(folder) {
        Ok(files) => files,
        Err(error) => return Err(Stop::file(Named::Rows, error)),
    };
    match read_whole(alloc, &mut files) {
        Ok(names) => Ok(names),
        Err(error) => Err(Stop::file(Named::Rows, error)),
    }
}

/// The name of a table's file without its ending; `None` of another file, and of a hidden one.
fn table_name(file: &[u8]) -> Option<&[u8]> {
    match file {
        [b'.', ..] => None,
        [name @ .., b'.', b'c', b's', b'v'] => Some(name),
        _ => None,
    }
}

/// Of the names of files, the first of a table that is of no type of the database.
fn unknown_table<'n>(dbd: &Dbd, names: &'n [u8]) -> Option<&'n [u8]> {
    let mut first: Option<&[u8]> = None;
    for file in names.split(|byte| *byte == 0) {
        let Some(name) = table_name(file) else {
            continue;
        };
        if code_named(dbd, name).is_none() && first.is_none_or(|before| name < before) {
            first = Some(name);
        }
    }
    first
}

/// A name as a text, with `?` for what is no character of ASCII.
fn plain(alloc: Global, name: &[u8]) -> Result<String, AllocError> {
    let mut text = String::new(alloc);
    for byte in name {
        let character = if matches!(*byte, b' '..=b'~') {
            char::from(*byte)
        } else {
            '?'
        };
        text.push(character)?;
    }
    Ok(text)
}

/// The names of a database's types, with a comma between.
fn type_names(alloc: Global, dbd: &Dbd) -> Result<Vec<u8>, AllocError> {
    let mut names = Vec::new(alloc);
    for segment in dbd.types() {
        if !names.is_empty() {
            names.extend_from_slice(b", ")?;
        }
        names.extend_from_slice(text_of(&segment.name).as_bytes())?;
    }
    Ok(names)
}

/// Refuses a table in a folder that is of no type of the database.
fn know_tables<R: Files<File = File>>(
    rt: &R,
    alloc: Global,
    dbd: &Dbd,
    folder: &str,
) -> Result<(), Stop> {
    let names = names_in(rt, alloc, folder)?;
    match unknown_table(dbd, &names) {
        Some(name) => Err(Stop::Table(TableFault {
            fault: RowFault::Type,
            name: plain(alloc, name)?,
            line: 1,
            column: Vec::new(alloc),
            names: type_names(alloc, dbd)?,
            text: Vec::new(alloc),
        })),
        None => Ok(()),
    }
}

/// Adds the table of a type in a folder, if there is one.
fn add_table<R: Files<File = File>>(
    rt: &R,
    alloc: Global,
    tables: &mut Tables,
    segment: &SegType,
    code: u8,
    folder: &str,
) -> Result<(), Stop> {
    let name = text_of(&segment.name);
    let file = format!(in alloc; "{folder}/{name}.csv")?;
    if let Some((text, identity)) = read_if_there(rt, alloc, &file)? {
        tables.codes.push(code)?;
        tables.texts.push(text)?;
        tables.files.push(identity)?;
    }
    Ok(())
}

/// The tables in a folder, each of a type of a database.
fn read_tables<R: Files<File = File>>(
    rt: &R,
    alloc: Global,
    dbd: &Dbd,
    source: Identity,
    folder: &str,
) -> Result<Tables, Stop> {
    know_tables(rt, alloc, dbd, folder)?;
    let mut tables = Tables {
        codes: Vec::new(alloc),
        texts: Vec::new(alloc),
        files: Vec::new(alloc),
    };
    tables.files.push(source)?;
    let mut code = 0u8;
    for segment in dbd.types() {
        code = code.saturating_add(1);
        add_table(rt, alloc, &mut tables, segment, code, folder)?;
    }
    if tables.codes.is_empty() {
        let error = io::Error::from(ErrorKind::NotFound);
        return Err(Stop::File(Named::Rows, error));
    }
    Ok(tables)
}

/// The codes of tables, each with the bytes of its table.
fn pairs_of<'a>(alloc: Global, tables: &'a Tables) -> Result<Vec<(u8, &'a [u8])>, AllocError> {
    let mut pairs = Vec::new(alloc);
    for (code, text) in tables.codes.iter().zip(&tables.texts) {
        pairs.push((*code, text.as_slice()))?;
    }
    Ok(pairs)
}

/// Makes a stream of tables, each with the code of its type.
fn write_tables<W: Write>(
    alloc: Global,
    dbd: &Dbd,
    tables: &[(u8, &[u8])],
    values: Values,
    stream: &mut W,
) -> Result<u32, TextFault> {
    let Ok(mut records) = Pieces::new(alloc, stream) else {
        return Err(TextFault::Memory);
    };
    let made = stream_of_tables(alloc, dbd, tables, values, &mut records);
    handed_on(made, &mut records)
}

/// Makes an unload stream, in a file, of the tables in a folder, each in a file that has the name of its type and the ending `.csv`; a table of another
/// name is refused. All else is as with a text of rows.
pub fn make_of_tables<R, O>(
    rt: &R,
    alloc: Global,
    dbd: &str,
    folder: &str,
    stream: &str,
    values: Values,
    syncs: bool,
    out: &mut O,
) -> Result<Ended, Stop>
where
    R: Files<File = File>,
    O: Write,
{
    let (dbd, source) = read_database(rt, alloc, dbd)?;
    let tables = read_tables(rt, alloc, &dbd, source, folder)?;
    let mut output = Output::open(rt, alloc, wanted(stream, syncs), &tables.files)?;
    let pairs = pairs_of(alloc, &tables)?;
    let mut file = Watched::over(&mut output);
    let made = write_tables(alloc, &dbd, &pairs, values, &mut file);
    let said = file.last_error();
    drop(file);
    drop(pairs);
    match made {
        Ok(segments) => end_stream(segments, &mut output, out),
        Err(fault) => Err(tables_refused(alloc, &dbd, fault, tables, said)),
    }
}

/// Why tables make no stream.
fn tables_refused(
    alloc: Global,
    dbd: &Dbd,
    fault: TextFault,
    tables: Tables,
    said: Option<io::Error>,
) -> Stop {
    match fault {
        TextFault::Row(fault, line) => Stop::Rows(fault, line, 0, Vec::new(alloc)),
        TextFault::Table(fault, code, line, column) => {
            let text = text_of_table(alloc, tables, code);
            match table_refused(alloc, dbd, fault, code, line, column, text) {
                Ok(table) => Stop::Table(table),
                Err(_) => Stop::from(Refusal::Memory),
            }
        }
        TextFault::Memory => Stop::from(Refusal::Memory),
        TextFault::Write => Stop::device(Named::Out, said),
    }
}

/// The text of the table of a type.
fn text_of_table(alloc: Global, tables: Tables, code: u8) -> Vec<u8> {
    let Tables { codes, texts, .. } = tables;
    for (own, text) in codes.iter().zip(texts) {
        if *own == code {
            return text;
        }
    }
    Vec::new(alloc)
}

/// Why the table of a type is refused.
fn table_refused(
    alloc: Global,
    dbd: &Dbd,
    fault: RowFault,
    code: u8,
    line: u64,
    column: Option<usize>,
    text: Vec<u8>,
) -> Result<TableFault, AllocError> {
    let name = match dbd.type_of(code) {
        Some(segment) => String::from_str(alloc, text_of(&segment.name))?,
        None => String::new(alloc),
    };
    let own = match column {
        Some(column) => column_name(alloc, &text, column),
        None => None,
    };
    Ok(TableFault {
        fault,
        name,
        line,
        column: own.unwrap_or(Vec::new(alloc)),
        names: header_of(alloc, dbd, code)?,
        text,
    })
}
