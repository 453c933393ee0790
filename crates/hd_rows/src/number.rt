use crate::fault::{RowFault, Wrong};
use crate::part::Part;
use hd_dbd::DataType;
use itoa::Buffer;
use std::alloc::AllocError;
use std::io::{self, Write};

/// The half byte behind the digits of a packed number from zero on, and of one below it.
const PLUS: u8 = 0x0c;

const MINUS: u8 = 0x0d;

/// The number that a field's bytes are.
#[derive(Clone, Copy)]
pub enum Number<'b> {
    /// Packed decimal: whether it is below zero, and its bytes, which have a digit in each half but the last.
    Packed(bool, &'b [u8]),
    /// Binary.
    Binary(i64),
}

/// Whether a part is a field that holds numbers, by its TYPE.
pub fn holds_numbers(part: &Part) -> bool {
    match part.data_type {
        DataType::Packed | DataType::Fullword | DataType::Halfword => true,
        DataType::Character | DataType::Hexadecimal => false,
    }
}

/// Whether a packed number is below zero. `None` where the bytes are no packed number, or not those that a reader makes of its digits: a sign but C and D,
/// or a zero below zero.
fn packed_sign(bytes: &[u8]) -> Option<bool> {
    let (last, front) = bytes.split_last()?;
    let mut is_zero = last / 16 == 0;
    for byte in front {
        if *byte / 16 > 9 || *byte % 16 > 9 {
            return None;
        }
        is_zero = is_zero && *byte == 0;
    }
    match (last / 16, last % 16) {
        (0..=9, PLUS) => Some(false),
        (0..=9, MINUS) if !is_zero => Some(true),
        _ => None,
    }
}

/// The number that bytes are in binary, signed, the greatest first; `None` where it takes more than eight of them.
fn binary_of(bytes: &[u8]) -> Option<i64> {
    let mut number = if *bytes.first()? >= 128 { -1i64 } else { 0 };
    for byte in bytes {
        number = number.checked_mul(256)?.checked_add(i64::from(*byte))?;
    }
    Some(number)
}

/// Writes a digit, unless it is a zero before the first other one.
fn put_digit<W: Write>(out: &mut W, digit: u8, is_begun: &mut bool) -> io::Result<()> {
    if digit == 0 && !*is_begun {
        return Ok(());
    }
    *is_begun = true;
    out.write_all(&[b'0'.saturating_add(digit)])
}

/// Writes a packed number.
fn put_packed<W: Write>(out: &mut W, is_negative: bool, bytes: &[u8]) -> io::Result<()> {
    let Some((last, front)) = bytes.split_last() else {
        return Ok(());
    };
    if is_negative {
        out.write_all(b"-")?;
    }
    let mut is_begun = false;
    for byte in front {
        put_digit(out, *byte / 16, &mut is_begun)?;
        put_digit(out, *byte % 16, &mut is_begun)?;
    }
    out.write_all(&[b'0'.saturating_add(*last / 16)])
}

impl<'b> Number<'b> {
    /// The number that a field's bytes are, by its TYPE. `None` where they are none, or a reader would not make the same bytes of it.
    pub fn of(part: &Part, bytes: &'b [u8]) -> Option<Number<'b>> {
        match part.data_type {
            DataType::Packed => Some(Number::Packed(packed_sign(bytes)?, bytes)),
            DataType::Fullword | DataType::Halfword => Some(Number::Binary(binary_of(bytes)?)),
            DataType::Character | DataType::Hexadecimal => None,
        }
    }

    /// Writes the number in decimal.
    pub fn put<W: Write>(self, out: &mut W) -> io::Result<()> {
        match self {
            Number::Packed(is_negative, bytes) => put_packed(out, is_negative, bytes),
            Number::Binary(number) => {
                let mut digits = Buffer::new();
                out.write_all(digits.format(number).as_bytes())
            }
        }
    }
}

/// A number in decimal: whether it has a minus, and its digits without the zeros before the first other one.
#[derive(Clone, Copy)]
struct Decimal<'t> {
    is_negative: bool,
    digits: &'t [u8],
}

/// The digits without the zeros at their front; `None` where one is none.
fn without_zeros(digits: &[u8]) -> Option<&[u8]> {
    let mut first = digits.len();
    for place in 0..digits.len() {
        match digits[place] {
            b'0' => {}
            b'1'..=b'9' => first = first.min(place),
            _ => return None,
        }
    }
    digits.get(first..)
}

impl<'t> Decimal<'t> {
    /// The number that a text spells, with a sign or without; an empty text is zero.
    fn of(text: &'t [u8]) -> Option<Decimal<'t>> {
        let (is_negative, digits) = match text.split_first() {
            Some((b'-', behind)) => (true, behind),
            Some((b'+', behind)) => (false, behind),
            _ => (false, text),
        };
        if digits.is_empty() && !text.is_empty() {
            return None;
        }
        Some(Decimal {
            is_negative,
            digits: without_zeros(digits)?,
        })
    }

    /// The half byte of the packed number that has so many halves behind it.
    fn half(&self, behind: usize) -> u8 {
        let Some(before) = behind.checked_sub(1) else {
            let is_below = self.is_negative && !self.digits.is_empty();
            return if is_below { MINUS } else { PLUS };
        };
        match self.digits.iter().rev().nth(before) {
            Some(digit) => digit.saturating_sub(b'0'),
            None => 0,
        }
    }

    /// Makes the packed number of so many bytes; says whether it has room.
    fn pack(&self, length: usize, value: &mut Vec<u8>) -> Result<bool, AllocError> {
        value.clear();
        for place in 0..length {
            let behind = (length - 1 - place).saturating_mul(2);
            let high = self.half(behind.saturating_add(1));
            value.push(high.saturating_mul(16).saturating_add(self.half(behind)))?;
        }
        Ok(self.digits.len() < length.saturating_mul(2))
    }

    /// The number, where it is one of eight bytes.
    fn number(&self) -> Option<i64> {
        let mut number = 0i64;
        for digit in self.digits {
            let digit = i64::from(digit.saturating_sub(b'0'));
            let tens = number.checked_mul(10)?;
            number = if self.is_negative {
                tens.checked_sub(digit)?
            } else {
                tens.checked_add(digit)?
            };
        }
        Some(number)
    }
}

/// Makes the binary number of so many bytes; says whether it has room.
fn make_binary(number: i64, length: usize, value: &mut Vec<u8>) -> Result<bool, AllocError> {
    value.clear();
    let own = number.to_be_bytes();
    let filling = if number < 0 { 0xff } else { 0 };
    for place in 0..length {
        let behind = length - 1 - place;
        let byte = own.iter().rev().nth(behind).copied();
        value.push(byte.unwrap_or(filling))?;
    }
    Ok(binary_of(value) == Some(number))
}

/// Makes, of the text of a number, the bytes of a field that holds numbers. An empty text is zero.
pub fn read_number(part: &Part, text: &[u8], value: &mut Vec<u8>) -> Result<(), Wrong> {
    let Some(decimal) = Decimal::of(text) else {
        return Err(Wrong::Row(RowFault::Number));
    };
    let length = part.length as usize;
    let has_room = match (part.data_type, decimal.number()) {
        (DataType::Packed, _) => decimal.pack(length, value)?,
        (_, Some(number)) => make_binary(number, length, value)?,
        (_, None) => false,
    };
    if has_room {
        Ok(())
    } else {
        Err(Wrong::Row(RowFault::Number))
    }
}

/// The byte of zero at a place of a field that holds numbers, the last one or another.
pub fn zero_byte(part: &Part, is_last: bool) -> u8 {
    match part.data_type {
        DataType::Packed if is_last => PLUS,
        _ => 0,
    }
}
