ghost use Rattle.std.specs.Prelude.{◌≡◌, ◌≢◌, [], option_to_list, Ok, Err, IfOk, IfErr};
ghost use Rattle.hd_macro.specs.Cards.{word, behind_word};
ghost use Rattle.hd_macro.specs.Source.{nothing, operands, begin_statement, ending, finished, go_on, is_cut, read_line, read_open, skip_remarks, with_piece};
ghost use Rattle.hd_macro.specs.Views.{open_of, reading_of, step_of};

use crate::card::{
    card, goes_on, has_other_byte, is_ignored, is_indented, is_listing, split_word, text_columns,
};
use crate::operand::{ended, read_text, unread};
use crate::reading::Reading;
use crate::source::LineFault;
use crate::statement::Statement;
use hd_lines::unpadded;
use std::alloc::Global;

/// What stands open behind a line.
#[derive(Drop)]
pub(crate) enum Open {
    Nothing,
    /// A statement whose operands go on, as far as they are read.
    Operands(Statement, Reading),
    /// A statement whose remarks go on.
    Remarks(Statement),
}

/// What a line gives: the statement that ends with it, if one does, and what stands open behind it.
#[derive(Drop)]
pub(crate) struct Step {
    pub done: Option<Statement>,
    pub open_behind: Open,
}

/// Reads a line behind what stands open, or finds its first fault.
pub(crate) fn read_line(
    alloc: Global,
    standing: Open,
    number: usize,
    line: &[u8],
) -> Result<Step, LineFault>
    ensures step { IfOk result (λ s. read_line (open_of standing) number line.now ≡ Ok (step_of s)) }
    ensures fault { IfErr result (λ e. e ≢ LineFault.Memory → read_line (open_of standing) number line.now ≡ Err e) }
{
    if line.len() > 80 {
        return Err(LineFault::M1(number));
    }
    if has_other_byte(line) {
        return Err(LineFault::M2(number));
    }
    read_open(alloc, standing, number, &card(line))
}

fn read_open(
    alloc: Global,
    standing: Open,
    number: usize,
    columns: &[u8; 80],
) -> Result<Step, LineFault>
    ensures step { IfOk result (λ s. read_open (open_of standing) number columns.now ≡ Ok (step_of s)) }
    ensures fault { IfErr result (λ e. e ≢ LineFault.Memory → read_open (open_of standing) number columns.now ≡ Err e) }
{
    match standing {
        Open::Nothing => begin(alloc, number, columns),
        Open::Operands(statement, reading) => go_on(alloc, statement, reading, number, columns),
        Open::Remarks(statement) => skip_remarks(statement, number, columns),
    }
}

/// Reads a line behind which nothing stands open.
fn begin(alloc: Global, number: usize, columns: &[u8; 80]) -> Result<Step, LineFault>
    ensures step { IfOk result (λ s. read_open nothing number columns.now ≡ Ok (step_of s)) }
    ensures fault { IfErr result (λ e. e ≢ LineFault.Memory → read_open nothing number columns.now ≡ Err e) }
{
    if is_ignored(columns) {
        return Ok(Step {
            done: None,
            open_behind: Open::Nothing,
        });
    }
    begin_statement(alloc, number, columns)
}

/// Reads a label, if there is one, an operation and operands.
fn begin_statement(alloc: Global, number: usize, columns: &[u8; 80]) -> Result<Step, LineFault>
    ensures step { IfOk result (λ s. begin_statement number columns.now ≡ Ok (step_of s)) }
    ensures fault { IfErr result (λ e. e ≢ LineFault.Memory → begin_statement number columns.now ≡ Err e) }
{
    let (label, behind_label) = split_word(text_columns(columns));
    let (operation, behind_operation) = split_word(unpadded(behind_label));
    let statement = Statement {
        label: copied(alloc, label)?,
        operation: copied(alloc, operation)?,
        operands: Vec::new(alloc),
        line: number,
    };
    let reading = unread(alloc);
    with_text(
        alloc,
        statement,
        reading,
        number,
        columns,
        unpadded(behind_operation),
    )
}

fn copied(alloc: Global, bytes: &[u8]) -> Result<Vec<u8>, LineFault>
    ensures bytes { IfOk result (λ v. v.items ≡ bytes.now) }
    ensures memory { IfErr result (λ e. e ≡ LineFault.Memory) }
{
    Vec::from_slice(alloc, bytes).map_err(|_| LineFault::Memory)
}

/// Reads operands that go on in column 16, behind blanks.
fn go_on(
    alloc: Global,
    statement: Statement,
    reading: Reading,
    number: usize,
    columns: &[u8; 80],
) -> Result<Step, LineFault>
    ensures step { IfOk result (λ s. go_on statement (reading_of reading) number columns.now ≡ Ok (step_of s)) }
    ensures fault { IfErr result (λ e. e ≢ LineFault.Memory → go_on statement (reading_of reading) number columns.now ≡ Err e) }
{
    if !is_indented(columns) || columns[15] == b' ' {
        return Err(LineFault::M3(number));
    }
    with_text(
        alloc,
        statement,
        reading,
        number,
        columns,
        &text_columns(columns)[15..],
    )
}

/// Reads remarks that go on behind blanks in columns 1 to 15.
fn skip_remarks(statement: Statement, number: usize, columns: &[u8; 80]) -> Result<Step, LineFault>
    ensures step { IfOk result (λ s. skip_remarks statement number columns.now ≡ Ok (step_of s)) }
    ensures fault { IfErr result (λ e. (e ≢ LineFault.Memory) × (skip_remarks statement number columns.now ≡ Err e)) }
{
    if is_indented(columns) {
        Ok(ending(statement, columns))
    } else {
        Err(LineFault::M3(number))
    }
}

/// Reads the text of a card from its operands on. That of a statement that lays out the listing is not judged.
fn with_text(
    alloc: Global,
    mut statement: Statement,
    reading: Reading,
    number: usize,
    columns: &[u8; 80],
    text: &[u8],
) -> Result<Step, LineFault>
    ensures step { IfOk result (λ s. with_piece statement (reading_of reading) number columns.now (word text.now) (behind_word text.now) ≡ Ok (step_of s)) }
    ensures fault { IfErr result (λ e. e ≢ LineFault.Memory → with_piece statement (reading_of reading) number columns.now (word text.now) (behind_word text.now) ≡ Err e) }
{
    let (piece, behind) = split_word(text);
    let goes_on = goes_on(columns) && is_cut(piece, behind);
    if is_listing(&statement.operation) {
        return Ok(if goes_on {
            going_on(statement, reading)
        } else {
            ending(statement, columns)
        });
    }
    let reading = read_text(alloc, reading, piece, number)?;
    if goes_on {
        return Ok(going_on(statement, reading));
    }
    statement.operands = ended(reading, number)?;
    Ok(ending(statement, columns))
}

/// A statement whose operands go on.
fn going_on(statement: Statement, reading: Reading) -> Step
    ensures { step_of result ≡ record { done = []; open_behind = operands statement (reading_of reading) } }
{
    Step {
        done: None,
        open_behind: Open::Operands(statement, reading),
    }
}

/// A statement that ends with a card, or whose remarks go on.
fn ending(statement: Statement, columns: &[u8; 80]) -> Step
    ensures { step_of result ≡ ending statement columns.now }
{
    if goes_on(columns) {
        Step {
            done: None,
            open_behind: Open::Remarks(statement),
        }
    } else {
        Step {
            done: finished(statement),
            open_behind: Open::Nothing,
        }
    }
}

/// A statement that ends; one that only lays out a listing is dropped.
fn finished(statement: Statement) -> Option<Statement>
    ensures { option_to_list result ≡ finished statement }
{
    if is_listing(&statement.operation) {
        None
    } else {
        Some(statement)
    }
}

/// Whether operand text ends with a comma, or nothing stands behind it.
fn is_cut(piece: &[u8], behind: &[u8]) -> bool
    ensures { result ≡ is_cut piece.now behind.now }
{
    piece.len() > 0 && (piece[piece.len() - 1] == b',' || behind.len() == 0)
}
