ghost use Rattle.std.specs.Prelude.{◌≡◌, ◌≤◌, drop, length, IfOk, IfErr};
ghost use Rattle.hd_lines.specs.Blanks.{unpadded};
ghost use Rattle.hd_macro.specs.Cards.{behind_word, text_columns};
ghost use Rattle.hd_macro.specs.FaultColumns.{readable, column_behind, column_in, column_of, fault_column};
ghost use Rattle.hd_macro.specs.Views.{open_of, reading_of};

use crate::card::{card, split_word, text_columns};
use crate::line::{Open, read_line};
use crate::operand::{read_byte, unread};
use crate::reading::Reading;
use crate::source::LineFault;
use hd_lines::{next_line, unpadded};
use std::alloc::Global;

/// The column, from 1, from which the operand text of a line of a source is none, where M4 names the line: that of the first byte that may not stand
/// where it stands, or else the one behind the text, which then ends too early. The source is read again up to that line. `Memory` is the one error.
pub fn fault_column(alloc: Global, bytes: &[u8], number: usize) -> Result<usize, LineFault>
    ensures column { IfOk result (λ c. c ≡ fault_column bytes.now number) }
    ensures memory { IfErr result (λ e. e ≡ LineFault.Memory) }
{
    let mut rest = bytes;
    let mut here = 1;
    let mut standing = Open::Nothing;
    'lines: while !rest.is_empty() {
        let (line, after) = next_line(rest);
        if here == number {
            return column_of(alloc, standing, line);
        }
        match read_line(alloc, standing, here, line) {
            Ok(step) => standing = step.open_behind,
            Err(LineFault::Memory) => return Err(LineFault::Memory),
            Err(_) => return Ok(0),
        }
        here += 1;
        rest = after;
    }
    Ok(0)
}

/// The column of a line, behind what stands open.
fn column_of(alloc: Global, standing: Open, line: &[u8]) -> Result<usize, LineFault>
    ensures column { IfOk result (λ c. c ≡ column_of (open_of standing) line.now) }
    ensures memory { IfErr result (λ e. e ≡ LineFault.Memory) }
{
    if line.len() > 80 {
        return Ok(0);
    }
    column_in(alloc, standing, &card(line))
}

fn column_in(alloc: Global, standing: Open, columns: &[u8; 80]) -> Result<usize, LineFault>
    ensures column { IfOk result (λ c. c ≡ column_in (open_of standing) columns.now) }
    ensures memory { IfErr result (λ e. e ≡ LineFault.Memory) }
{
    match standing {
        Open::Nothing => column_behind(alloc, unread(alloc), first_text(columns)),
        Open::Operands(_, reading) => column_behind(alloc, reading, next_text(columns)),
        Open::Remarks(_) => Ok(0),
    }
}

/// What stands behind the operation of a statement's first card.
fn first_text(columns: &[u8; 80]) -> &[u8]
    ensures { result.now ≡ unpadded (behind_word (unpadded (behind_word (text_columns columns.now)))) }
{
    let (_, behind_label) = split_word(text_columns(columns));
    let (_, behind_operation) = split_word(unpadded(behind_label));
    unpadded(behind_operation)
}

/// What stands from column 16 on.
fn next_text(columns: &[u8; 80]) -> &[u8]
    ensures { result.now ≡ drop 15 (text_columns columns.now) }
{
    &text_columns(columns)[15..]
}

/// The column behind the operand text that can be read, which ends in column 71.
fn column_behind(alloc: Global, reading: Reading, text: &[u8]) -> Result<usize, LineFault>
    ensures column { IfOk result (λ c. c ≡ column_behind (reading_of reading) text.now) }
    ensures memory { IfErr result (λ e. e ≡ LineFault.Memory) }
{
    let (piece, _) = split_word(text);
    let count = readable(alloc, reading, piece)?;
    Ok(72usize.saturating_sub(text.len()) + count)
}

/// How many bytes can be read behind what is read.
fn readable(alloc: Global, reading: Reading, piece: &[u8]) -> Result<usize, LineFault>
    ensures count { IfOk result (λ n. n ≡ readable (reading_of reading) piece.now) }
    ensures bound { IfOk result (λ n. n ≤ length piece.now) }
    ensures memory { IfErr result (λ e. e ≡ LineFault.Memory) }
{
    let mut now = reading;
    for (place, byte) in piece.iter().enumerate() {
        match read_byte(alloc, now, *byte, 0) {
            Ok(next) => now = next,
            Err(LineFault::Memory) => return Err(LineFault::Memory),
            Err(_) => return Ok(place),
        }
    }
    Ok(piece.len())
}
