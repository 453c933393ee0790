ghost use Rattle.std.specs.Prelude.{◌≡◌, ◌≢◌, ◌+◌, ◌≤◌, length, IfOk, IfErr, Some, None};
ghost use Rattle.hd_macro.specs.Operands.{unread, with_keyword, with_value, next_operand, operands_of, read_at, read_text, read_behind, is_keyword_byte, is_value_byte, is_whole, ended, in_keyword, at_value, in_value, at_member, in_member};
ghost use Rattle.hd_macro.specs.Views.{place_of, reading_of};

use crate::reading::{Place, Reading};
use crate::source::LineFault;
use crate::statement::Operand;
use std::alloc::Global;

/// Nothing is read.
pub(crate) fn unread(alloc: Global) -> Reading
    ensures { reading_of result ≡ unread }
{
    Reading {
        whole: Vec::new(alloc),
        keyword: Vec::new(alloc),
        value: Vec::new(alloc),
        place: Place::InKeyword,
        depth: 0,
    }
}

/// Reads on, byte by byte.
pub(crate) fn read_text(
    alloc: Global,
    reading: Reading,
    piece: &[u8],
    number: usize,
) -> Result<Reading, LineFault>
    ensures read { IfOk result (λ r. read_text (reading_of reading) piece.now ≡ Some (reading_of r)) }
    ensures fault { IfErr result (λ e. e ≢ LineFault.Memory → (e ≡ LineFault.M4 number) × (read_text (reading_of reading) piece.now ≡ None)) }
{
    let mut now = reading;
    for byte in piece {
        now = read_byte(alloc, now, *byte, number)?;
    }
    Ok(now)
}

/// Reads one more byte, if it may stand where it stands.
pub(crate) fn read_byte(
    alloc: Global,
    reading: Reading,
    byte: u8,
    number: usize,
) -> Result<Reading, LineFault>
    ensures read { IfOk result (λ r. read_at (place_of reading.place reading.depth) (reading_of reading) byte ≡ Some (reading_of r)) }
    ensures fault { IfErr result (λ e. e ≢ LineFault.Memory → (e ≡ LineFault.M4 number) × (read_at (place_of reading.place reading.depth) (reading_of reading) byte ≡ None)) }
{
    match reading.place {
        Place::InKeyword => read_keyword(reading, byte, number),
        Place::AtValue => read_first(reading, byte, number),
        Place::InValue => read_value(alloc, reading, byte, number),
        Place::AtMember => read_first_of_member(reading, byte, number),
        Place::InMember => read_member(reading, byte, number),
        Place::BehindList => read_behind(alloc, reading, byte, number),
    }
}

/// Reads a byte of a keyword, or the equals sign behind it.
fn read_keyword(reading: Reading, byte: u8, number: usize) -> Result<Reading, LineFault>
    ensures read { IfOk result (λ r. read_at in_keyword (reading_of reading) byte ≡ Some (reading_of r)) }
    ensures fault { IfErr result (λ e. e ≢ LineFault.Memory → (e ≡ LineFault.M4 number) × (read_at in_keyword (reading_of reading) byte ≡ None)) }
{
    if is_keyword_byte(byte) {
        return with_keyword(reading, byte);
    }
    if byte == b'=' && reading.keyword.len() > 0 {
        return Ok(at_value(reading));
    }
    Err(LineFault::M4(number))
}

/// Reads the first byte of a value.
fn read_first(reading: Reading, byte: u8, number: usize) -> Result<Reading, LineFault>
    ensures read { IfOk result (λ r. read_at at_value (reading_of reading) byte ≡ Some (reading_of r)) }
    ensures fault { IfErr result (λ e. e ≢ LineFault.Memory → (e ≡ LineFault.M4 number) × (read_at at_value (reading_of reading) byte ≡ None)) }
{
    if is_value_byte(byte) {
        return with_value(reading, byte, Place::InValue, 0);
    }
    match byte {
        b'(' => with_value(reading, byte, Place::AtMember, 1),
        _ => Err(LineFault::M4(number)),
    }
}

/// Reads a byte of a plain value, or the comma behind it.
fn read_value(
    alloc: Global,
    reading: Reading,
    byte: u8,
    number: usize,
) -> Result<Reading, LineFault>
    ensures read { IfOk result (λ r. read_at in_value (reading_of reading) byte ≡ Some (reading_of r)) }
    ensures fault { IfErr result (λ e. e ≢ LineFault.Memory → (e ≡ LineFault.M4 number) × (read_at in_value (reading_of reading) byte ≡ None)) }
{
    if is_value_byte(byte) {
        return with_value(reading, byte, Place::InValue, 0);
    }
    match byte {
        b',' => next_operand(alloc, reading),
        _ => Err(LineFault::M4(number)),
    }
}

/// Reads a byte at the front of a member, or the comma or bracket behind an empty one.
fn read_first_of_member(reading: Reading, byte: u8, number: usize) -> Result<Reading, LineFault>
    ensures read { IfOk result (λ r. read_at (at_member reading.depth) (reading_of reading) byte ≡ Some (reading_of r)) }
    ensures fault { IfErr result (λ e. e ≢ LineFault.Memory → (e ≡ LineFault.M4 number) × (read_at (at_member reading.depth) (reading_of reading) byte ≡ None)) }
{
    if byte == b'(' {
        let depth = reading.depth + 1;
        return with_value(reading, byte, Place::AtMember, depth);
    }
    read_member(reading, byte, number)
}

/// Reads a byte of a member, or the comma or bracket behind it.
fn read_member(reading: Reading, byte: u8, number: usize) -> Result<Reading, LineFault>
    ensures read { IfOk result (λ r. read_at (in_member reading.depth) (reading_of reading) byte ≡ Some (reading_of r)) }
    ensures fault { IfErr result (λ e. e ≢ LineFault.Memory → (e ≡ LineFault.M4 number) × (read_at (in_member reading.depth) (reading_of reading) byte ≡ None)) }
{
    let depth = reading.depth;
    if is_value_byte(byte) {
        return with_value(reading, byte, Place::InMember, depth);
    }
    match byte {
        b',' => with_value(reading, byte, Place::AtMember, depth),
        b')' => with_value(reading, byte, Place::BehindList, depth.saturating_sub(1)),
        _ => Err(LineFault::M4(number)),
    }
}

/// Reads the byte behind a bracket that closes.
fn read_behind(
    alloc: Global,
    reading: Reading,
    byte: u8,
    number: usize,
) -> Result<Reading, LineFault>
    ensures read { IfOk result (λ r. read_behind (reading_of reading) reading.depth byte ≡ Some (reading_of r)) }
    ensures fault { IfErr result (λ e. e ≢ LineFault.Memory → (e ≡ LineFault.M4 number) × (read_behind (reading_of reading) reading.depth byte ≡ None)) }
{
    match (byte, reading.depth) {
        (b',', 0) => next_operand(alloc, reading),
        (_, 0) => Err(LineFault::M4(number)),
        (b',', depth) => with_value(reading, byte, Place::AtMember, depth),
        (b')', depth) => with_value(reading, byte, Place::BehindList, depth - 1),
        _ => Err(LineFault::M4(number)),
    }
}

/// Adds a byte to the keyword.
fn with_keyword(mut reading: Reading, byte: u8) -> Result<Reading, LineFault>
    ensures read { IfOk result (λ r. reading_of r ≡ with_keyword (reading_of reading) byte) }
    ensures memory { IfErr result (λ e. e ≡ LineFault.Memory) }
{
    reading.keyword.push(byte).map_err(|_| LineFault::Memory)?;
    Ok(reading)
}

/// Reads the equals sign.
fn at_value(mut reading: Reading) -> Reading
    ensures { reading_of result ≡ record (reading_of reading) { place = at_value } }
{
    reading.place = Place::AtValue;
    reading
}

/// Adds a byte to the value, which leads to a place with so many brackets open.
fn with_value(
    mut reading: Reading,
    byte: u8,
    place: Place,
    depth: usize,
) -> Result<Reading, LineFault>
    requires { depth ≤ length reading.value.items + 1 }
    ensures read { IfOk result (λ r. reading_of r ≡ with_value (reading_of reading) byte (place_of place depth)) }
    ensures memory { IfErr result (λ e. e ≡ LineFault.Memory) }
{
    reading.value.push(byte).map_err(|_| LineFault::Memory)?;
    reading.place = place;
    reading.depth = depth;
    Ok(reading)
}

/// A comma between operands: the one that is read is whole.
fn next_operand(alloc: Global, reading: Reading) -> Result<Reading, LineFault>
    ensures read { IfOk result (λ r. reading_of r ≡ next_operand (reading_of reading)) }
    ensures memory { IfErr result (λ e. e ≡ LineFault.Memory) }
{
    let mut next = unread(alloc);
    next.whole = operands_of(reading)?;
    Ok(next)
}

/// The operands with the one that is read.
fn operands_of(reading: Reading) -> Result<Vec<Operand>, LineFault>
    ensures operands { IfOk result (λ v. v.items ≡ operands_of (reading_of reading)) }
    ensures memory { IfErr result (λ e. e ≡ LineFault.Memory) }
{
    let Reading {
        mut whole,
        keyword,
        value,
        ..
    } = reading;
    whole
        .push(Operand { keyword, value })
        .map_err(|_| LineFault::Memory)?;
    Ok(whole)
}

/// The operands, where the text may end here.
pub(crate) fn ended(reading: Reading, number: usize) -> Result<Vec<Operand>, LineFault>
    ensures operands { IfOk result (λ v. ended (reading_of reading) ≡ Some v.items) }
    ensures fault { IfErr result (λ e. e ≢ LineFault.Memory → (e ≡ LineFault.M4 number) × (ended (reading_of reading) ≡ None)) }
{
    if is_whole(&reading) {
        return operands_of(reading);
    }
    if reading.whole.len() == 0 && reading.keyword.len() == 0 && reading.value.len() == 0 {
        return Ok(reading.whole);
    }
    Err(LineFault::M4(number))
}

/// Whether the last operand is whole.
fn is_whole(reading: &Reading) -> bool
    ensures { result ≡ is_whole (place_of reading.now.place reading.now.depth) }
{
    match reading.place {
        Place::InValue => true,
        Place::BehindList => reading.depth == 0,
        _ => false,
    }
}

fn is_keyword_byte(byte: u8) -> bool
    ensures { result ≡ is_keyword_byte byte }
{
    matches!(byte, b'A'..=b'Z' | b'0'..=b'9' | b'$' | b'#' | b'@')
}

fn is_value_byte(byte: u8) -> bool
    ensures { result ≡ is_value_byte byte }
{
    is_keyword_byte(byte) || byte == b'.'
}
