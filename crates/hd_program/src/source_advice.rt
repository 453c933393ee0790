use crate::advice::{put_entry, put_line, put_more, put_other_kind, put_place, put_word, word_of};
use crate::culprits::{Culprit, culprit_of_database, is, name_in};
use crate::ink::Ink;
use crate::places::{byte_at, line_at, operand_at, operand_before, other_byte_at, unblank_at};
use crate::program_culprits::{culprit_of_program, pcb_of};
use hd_dbd::Dbd;
use hd_explain::explain;
use hd_files::Named;
use hd_gen::{GenFault, refused_operand_of_dbd, refused_operand_of_psb};
use hd_macro::{LineFault, Operand, Statement, fault_column, statements};
use std::alloc::Global;
use std::io::Write;

/// The source of a file, with the file's name.
#[derive(Clone, Copy)]
pub struct SourceText<'a> {
    pub file: Named,
    pub name: &'a str,
    pub source: &'a [u8],
}

/// Writes the lines that say more of a source that is refused: its line, with the column where one is known, and what the fault's word means, with the
/// operand, the segment type, the field or the PCB that it is of. A PSB's database is given, where it can be read. The source is read once more.
pub fn advise_source<E: Write>(
    alloc: Global,
    fault: GenFault,
    text: SourceText<'_>,
    dbd: Option<&Dbd>,
    ink: &mut Ink<'_, E>,
) {
    if put_other_kind(text.name, text.file, text.source, ink) {
        return;
    }
    let Ok(said) = format!(in alloc; "{fault}") else {
        return;
    };
    let word = word_of(&said);
    match fault {
        GenFault::Line(fault) => advise_line(alloc, fault, word, text, ink),
        GenFault::G1(line) => advise_label(line, word, text, ink),
        GenFault::G2(line) => {
            put_line(text.name, line, text.source, ink);
            put_word(word, ink);
        }
        GenFault::G5(line) => advise_missing(alloc, line, word, text, ink),
        GenFault::G3(line) | GenFault::G4(line) => {
            advise_operand(alloc, line, word, text, dbd, ink);
        }
        GenFault::Dbd(_) | GenFault::Psb(_) => {
            advise_statement(alloc, fault, word, text, dbd, ink);
        }
        GenFault::Memory => {}
    }
}

/// Writes the line of a statement that a source does not have, and whether what was taken for a label stands in front.
fn advise_label<E: Write>(line: usize, word: &str, text: SourceText<'_>, ink: &mut Ink<'_, E>) {
    put_line(text.name, line, text.source, ink);
    if begins_in_column_1(line_at(text.source, line)) {
        ink.put("  what begins in column 1 is a label: put a blank in front of the operation\n");
    }
    put_word(word, ink);
}

/// Whether a statement's line begins with a label, or with what is taken for one.
fn begins_in_column_1(line: &[u8]) -> bool {
    !matches!(line.first(), None | Some(b' ' | b'*'))
}

/// The number of the line that a fault of a line names, and the column, 0 where none is known.
fn place_of(alloc: Global, fault: LineFault, source: &[u8]) -> (usize, usize) {
    match fault {
        LineFault::M1(line) => (line, 81),
        LineFault::M2(line) => (line, other_byte_at(line_at(source, line))),
        LineFault::M3(line) => (line, unblank_at(line_at(source, line))),
        LineFault::M4(line) => (line, fault_column(alloc, source, line).unwrap_or(0)),
        LineFault::Memory => (0, 0),
    }
}

/// Writes a line that is none, with the column from which it is none, and what stands there.
fn advise_line<E: Write>(
    alloc: Global,
    fault: LineFault,
    word: &str,
    text: SourceText<'_>,
    ink: &mut Ink<'_, E>,
) {
    let (line, column) = place_of(alloc, fault, text.source);
    put_place(text.name, line, column, text.source, ink);
    let Some(entry) = explain(word) else {
        return;
    };
    put_entry(entry, ink);
    if let LineFault::M4(_) = fault {
        if column > 0 {
            put_unread(line_at(text.source, line), column, ink);
        }
    }
    put_more(entry, ink);
}

/// Writes why the operand text of a line can't be read on in a column.
fn put_unread<E: Write>(line: &[u8], column: usize, ink: &mut Ink<'_, E>) {
    let before = operand_before(line, column);
    match byte_at(line, column) {
        Some(byte) => {
            ink.put("; \"");
            ink.shown(&[byte]);
            ink.put("\" ");
            if before.is_empty() {
                ink.put("begins no operand");
            } else {
                ink.put("can't stand behind ");
                put_front(before, ink);
            }
        }
        None if before.is_empty() => ink.put("; an operand is lacking"),
        None => {
            ink.put("; ");
            put_front(before, ink);
            ink.put(" is not whole");
        }
    }
}

/// The most bytes of an operand that are written.
const MOST_BYTES: usize = 60;

/// Writes bytes, of many the first.
fn put_front<E: Write>(bytes: &[u8], ink: &mut Ink<'_, E>) {
    match bytes.get(..MOST_BYTES) {
        Some(front) if bytes.len() > MOST_BYTES => {
            ink.shown(front);
            ink.put("..");
        }
        _ => ink.shown(bytes),
    }
}

/// How many operands of the statement that is refused stand before the one that it is refused for.
fn refused_operand(alloc: Global, text: SourceText<'_>, dbd: Option<&Dbd>) -> Option<usize> {
    let refused = match (text.file, dbd) {
        (Named::Psb, Some(dbd)) => refused_operand_of_psb(alloc, text.source, dbd.name()),
        (Named::Psb, None) => return None,
        _ => refused_operand_of_dbd(alloc, text.source),
    };
    refused.ok()?
}

/// The statement that begins on a line.
fn statement_on(statements: &[Statement], line: usize) -> Option<&Statement> {
    for statement in statements {
        if statement.line == line {
            return Some(statement);
        }
    }
    None
}

/// Writes the line on which the operand stands that a statement is refused for, with its column, and the operand.
fn advise_operand<E: Write>(
    alloc: Global,
    line: usize,
    word: &str,
    text: SourceText<'_>,
    dbd: Option<&Dbd>,
    ink: &mut Ink<'_, E>,
) {
    let Ok(statements) = statements(alloc, text.source) else {
        return;
    };
    let count = refused_operand(alloc, text, dbd).unwrap_or(usize::MAX);
    let found = statement_on(&statements, line);
    let operand = match found {
        Some(statement) => statement.operands.get(count),
        None => None,
    };
    let (line, column) = match (found, operand) {
        (Some(statement), Some(_)) => match operand_at(text.source, statement, count) {
            Some(position) => (position.line, position.column),
            None => (line, 0),
        },
        _ => (line, 0),
    };
    put_place(text.name, line, column, text.source, ink);
    let Some(entry) = explain(word) else {
        return;
    };
    put_entry(entry, ink);
    if let Some(operand) = operand {
        put_operand(operand, ink);
    }
    put_more(entry, ink);
}

/// Whether a statement has an operand of a keyword.
fn has(statement: &Statement, keyword: &[u8]) -> bool {
    for operand in &statement.operands {
        if operand.keyword.as_slice() == keyword {
            return true;
        }
    }
    false
}

/// The keyword of the first operand that a PCB needs and has not; none where it has all.
fn missing_in_pcb(statement: &Statement) -> Option<&'static str> {
    if !has(statement, b"TYPE") {
        return Some("TYPE");
    }
    if !has(statement, b"DBDNAME") && !has(statement, b"NAME") {
        return Some("DBDNAME");
    }
    if !has(statement, b"PROCOPT") {
        return Some("PROCOPT");
    }
    None
}

/// The keyword of the first operand that a statement needs and has not; none where it has all.
fn missing_in(statement: &Statement) -> Option<&'static str> {
    if is(statement, b"PCB") {
        return missing_in_pcb(statement);
    }
    if !has(statement, b"NAME") {
        return Some("NAME");
    }
    if is(statement, b"DBD") && !has(statement, b"ACCESS") {
        return Some("ACCESS");
    }
    let is_field = is(statement, b"FIELD");
    if (is_field || is(statement, b"SEGM")) && !has(statement, b"BYTES") {
        return Some("BYTES");
    }
    if is_field && !has(statement, b"START") {
        return Some("START");
    }
    None
}

/// Writes the line of a statement that lacks an operand, and the operand's keyword.
fn advise_missing<E: Write>(
    alloc: Global,
    line: usize,
    word: &str,
    text: SourceText<'_>,
    ink: &mut Ink<'_, E>,
) {
    put_line(text.name, line, text.source, ink);
    let Some(entry) = explain(word) else {
        return;
    };
    put_entry(entry, ink);
    if let Ok(statements) = statements(alloc, text.source) {
        if let Some(statement) = statement_on(&statements, line) {
            put_missing(statement, ink);
        }
    }
    put_more(entry, ink);
}

/// Writes which operand a statement lacks.
fn put_missing<E: Write>(statement: &Statement, ink: &mut Ink<'_, E>) {
    let Some(keyword) = missing_in(statement) else {
        return;
    };
    ink.put("; the ");
    put_named(statement, ink);
    ink.put(" has no ");
    ink.put(keyword);
}

/// Writes an operand.
fn put_operand<E: Write>(operand: &Operand, ink: &mut Ink<'_, E>) {
    ink.put("; the operand is ");
    put_front(&operand.keyword, ink);
    ink.put("=");
    put_front(&operand.value, ink);
}

/// The statement that a fault of a database or of a program is of.
fn culprit_of<'s>(
    alloc: Global,
    fault: GenFault,
    dbd: Option<&Dbd>,
    statements: &'s [Statement],
) -> Option<Culprit<'s>> {
    match fault {
        GenFault::Dbd(fault) => culprit_of_database(alloc, fault, statements),
        GenFault::Psb(fault) => culprit_of_program(alloc, dbd?, fault, statements),
        _ => None,
    }
}

/// Writes the line of the statement that a fault of a database or of a program is of, and its name.
fn advise_statement<E: Write>(
    alloc: Global,
    fault: GenFault,
    word: &str,
    text: SourceText<'_>,
    dbd: Option<&Dbd>,
    ink: &mut Ink<'_, E>,
) {
    let Ok(statements) = statements(alloc, text.source) else {
        return;
    };
    let pcb = match fault {
        GenFault::Psb(fault) => pcb_of(fault),
        _ => 0,
    };
    let culprit = culprit_of(alloc, fault, dbd, &statements);
    if let Some(culprit) = culprit {
        let statement = culprit.statement;
        put_line(text.name, statement.line, text.source, ink);
    } else {
        ink.name(text.name);
        ink.put("\n");
    }
    let Some(entry) = explain(word) else {
        return;
    };
    put_entry(entry, ink);
    if let Some(culprit) = culprit {
        put_culprit(culprit, pcb, ink);
    }
    put_more(entry, ink);
}

/// Writes which statement it is that a fault is of.
fn put_culprit<E: Write>(culprit: Culprit<'_>, pcb: usize, ink: &mut Ink<'_, E>) {
    ink.put("; it is ");
    put_statement(culprit.statement, pcb, ink);
    if let Some(above) = culprit.above {
        ink.put(" of ");
        put_statement(above, pcb, ink);
    }
}

/// Writes the operation of a statement and its name; a PCB has a number.
fn put_statement<E: Write>(statement: &Statement, pcb: usize, ink: &mut Ink<'_, E>) {
    if is(statement, b"PCB") {
        ink.put("PCB ");
        ink.number(pcb as u64);
        return;
    }
    put_named(statement, ink);
}

/// Writes the operation of a statement and its name, where it has one.
fn put_named<E: Write>(statement: &Statement, ink: &mut Ink<'_, E>) {
    ink.shown(&statement.operation);
    let name = name_in(statement);
    if !name.is_empty() {
        ink.put(" ");
        ink.shown(name);
    }
}
