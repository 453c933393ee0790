ghost use Rattle.std.specs.Prelude.{◌≡◌, ◌==◌, ◌<◌, ◌≤◌, ◌-◌, min, length, drop, option_map, Ok, Err, IfOk, IfErr, IfSome};
ghost use Rattle.std.specs.List.{prefix_len};
ghost use Rattle.hd_dbd.specs.Naming.{is_letter};
ghost use Rattle.hd_deck.specs.Deck.{belongs_to_call, call, call_in, column, columns, has_function, is_function, number_in, read_call, read_hex, read_line, read_part, read_select, repeat_in, select};
ghost use Rattle.hd_lines.specs.Blanks.{is_blank};
ghost use Rattle.hd_lines.specs.Digits.{is_digit, value_of};
ghost use Rattle.hd_deck.specs.Lines.{kind_in, KindFits};

use crate::deck::DeckFault;
use crate::hex::are_hex_bytes;
use hd_lines::{is_blank, unpadded};

/// Four blanks as one number.
const FOUR_BLANKS: u32 = 0x2020_2020;

/// What a line of a deck says. What it says of a call is read when the call is made.
#[derive(Clone, Copy)]
pub(crate) enum Statement {
    Comment,
    /// The PCB of the calls that follow.
    Select(u8),
    /// A call, and how often it is made.
    Call(u16),
    /// A segment search argument more for the call before.
    Argument,
    /// Bytes behind the area of the call before.
    Bytes,
}

/// What a line says, where a call is open before it or not, or its first fault.
pub(crate) fn read_line(
    line: &[u8],
    number: usize,
    pcbs: u8,
    is_open: bool,
) -> Result<Statement, DeckFault>
    ensures says { IfOk result (λ s. kind_in (read_line pcbs number is_open line.now) ≡ Ok s) }
    ensures fault { IfErr result (λ e. read_line pcbs number is_open line.now ≡ Err e) }
    ensures fit { IfOk result (λ s. KindFits pcbs s) }
{
    if line.len() > 255 {
        return Err(DeckFault::K6(number));
    }
    match column(line, 1) {
        b' ' if is_blank(line) => Ok(Statement::Comment),
        b'*' => Ok(Statement::Comment),
        b'S' => Ok(Statement::Select(read_select(line, number, pcbs)?)),
        b'L' => Ok(Statement::Call(read_call(line, number)?)),
        _ if !belongs_to_call(line) => Err(DeckFault::K1(number)),
        _ if !is_open => Err(DeckFault::K4(number)),
        _ => read_part(line, number),
    }
}

/// Whether a line has a C, a D or an H in front.
fn belongs_to_call(line: &[u8]) -> bool
    ensures { result ≡ belongs_to_call line.now }
{
    column(line, 1) == b'C' || column(line, 1) == b'D' || column(line, 1) == b'H'
}

/// What a line with a C, a D or an H in front adds to the call before. It fits a program without PCBs, and so any other.
fn read_part(line: &[u8], number: usize) -> Result<Statement, DeckFault>
    ensures says { IfOk result (λ s. kind_in (read_part number line.now) ≡ Ok s) }
    ensures fault { IfErr result (λ e. read_part number line.now ≡ Err e) }
    ensures fit { IfOk result (λ s. KindFits 0 s) }
{
    match column(line, 1) {
        b'C' => Ok(Statement::Argument),
        b'D' => Ok(Statement::Bytes),
        _ => read_hex(line, number),
    }
}

/// What a line with an H in front adds to the call before, likewise.
fn read_hex(line: &[u8], number: usize) -> Result<Statement, DeckFault>
    ensures says { IfOk result (λ s. kind_in (read_hex number line.now) ≡ Ok s) }
    ensures fault { IfErr result (λ e. read_hex number line.now ≡ Err e) }
    ensures fit { IfOk result (λ s. KindFits 0 s) }
{
    if are_hex_bytes(from_column(line, 2)) {
        Ok(Statement::Bytes)
    } else {
        Err(DeckFault::K7(number))
    }
}

/// The bytes from a column on, counted from 1: none where the line is shorter.
pub(crate) fn from_column(line: &[u8], number: usize) -> &[u8]
    requires { 0 < number }
    ensures { result.now ≡ drop (number - 1) line.now }
{
    line.get(number - 1..).unwrap_or(&[])
}

/// The PCB that a line with an S in front selects, one of so many.
fn read_select(line: &[u8], number: usize, pcbs: u8) -> Result<u8, DeckFault>
    requires { 0 < length line.now }
    ensures says { IfOk result (λ k. read_select pcbs number line.now ≡ Ok (select k)) }
    ensures fault { IfErr result (λ e. read_select pcbs number line.now ≡ Err e) }
    ensures fit { IfOk result (λ k. (0 < k) × (k ≤ pcbs)) }
{
    match number_in(&line[1..]) {
        Some(pcb) if 0 < pcb && pcb <= pcbs as u32 => Ok(pcb as u8),
        _ => Err(DeckFault::K3(number)),
    }
}

/// How often the call of a line with an L in front is made.
fn read_call(line: &[u8], number: usize) -> Result<u16, DeckFault>
    ensures says { IfOk result (λ k. read_call number line.now ≡ Ok (call k (call_in line.now))) }
    ensures fault { IfErr result (λ e. read_call number line.now ≡ Err e) }
    ensures fit { IfOk result (λ k. (0 < k) × (k ≤ 9999)) }
{
    let Some(repeat) = repeat_in(line) else {
        return Err(DeckFault::K5(number));
    };
    if !has_function(line) {
        return Err(DeckFault::K2(number));
    }
    Ok(repeat)
}

/// Whether four bytes are blanks: they are compared at once.
fn are_blanks(bytes: [u8; 4]) -> bool
    ensures { result ≡ is_blank bytes }
{
    u32::from_be_bytes(bytes) == FOUR_BLANKS
}

/// How often an L line's call is made, by columns 2 to 5.
fn repeat_in(line: &[u8]) -> Option<u16>
    ensures value { result ≡ repeat_in line.now }
    ensures fit { IfSome result (λ k. (0 < k) × (k ≤ 9999)) }
{
    let columns = four_columns(line, 2);
    if are_blanks(columns) {
        return Some(1);
    }
    match number_in(&columns)? {
        0 => None,
        repeat => Some(repeat as u16),
    }
}

/// Whether an L line has a function in columns 7 to 10, between blanks.
fn has_function(line: &[u8]) -> bool
    ensures { result ≡ has_function line.now }
{
    column(line, 6) == b' ' && is_function(&four_columns(line, 7)) && column(line, 11) == b' '
}

/// Whether letters stand in front, one at the least, and blanks alone behind them.
fn is_function(bytes: &[u8]) -> bool
    ensures { result ≡ is_function bytes.now }
{
    let letters = letters_in_front(bytes);
    letters > 0 && is_blank(&bytes[letters..])
}

/// The number that the bytes spell between blanks, or 10,000 where it is more.
fn number_in(bytes: &[u8]) -> Option<u32>
    ensures { result ≡ option_map (λ n. min n 10000) (number_in bytes.now) }
{
    let bytes = unpadded(bytes);
    let digits = digits_in_front(bytes);
    if digits > 0 && is_blank(&bytes[digits..]) {
        Some(value_of(&bytes[..digits]))
    } else {
        None
    }
}

/// The number that digits spell, or 10,000 where it is more.
fn value_of(digits: &[u8]) -> u32
    ensures { result ≡ min (value_of digits.now) 10000 }
{
    let mut value: u32 = 0;
    for digit in digits {
        value = (10 * value + digit.saturating_sub(b'0') as u32).min(10_000);
    }
    value
}

fn digits_in_front(bytes: &[u8]) -> usize
    ensures value { result ≡ prefix_len is_digit bytes.now }
    ensures bound { result ≤ length bytes.now }
{
    bytes.iter().take_while(|b| b.is_ascii_digit()).count()
}

fn letters_in_front(bytes: &[u8]) -> usize
    ensures value { result ≡ prefix_len is_letter bytes.now }
    ensures bound { result ≤ length bytes.now }
{
    bytes.iter().take_while(|b| b.is_ascii_uppercase()).count()
}

/// The byte in a column, counted from 1.
pub(crate) fn column(line: &[u8], number: usize) -> u8
    requires { 0 < number }
    ensures { result ≡ column line.now number }
{
    line.get(number - 1).copied().unwrap_or(b' ')
}

/// Four bytes from a column on, counted from 1.
pub(crate) fn four_columns(line: &[u8], number: usize) -> [u8; 4]
    requires above { 0 < number }
    requires below { number ≤ 252 }
    ensures value { result ≡ columns line.now number 4 }
    ensures len { length result ≡ 4 }
{
    if number + 3 <= line.len() {
        return [
            line[number - 1],
            line[number],
            line[number + 1],
            line[number + 2],
        ];
    }
    [
        column(line, number),
        column(line, number + 1),
        column(line, number + 2),
        column(line, number + 3),
    ]
}
