//! Lines of a text, and the numbers in them.

/// Whether a line of a text ends before a byte.
pub fn is_end(byte: &u8) -> bool {
    *byte == b'\n'
}

/// Whether a list of a text ends before a byte.
pub fn is_list_end(byte: &u8) -> bool {
    *byte == b'%'
}

/// Whether a part of a list ends before a byte.
pub fn is_part_end(byte: &u8) -> bool {
    *byte == b'#'
}

/// Whether a byte parts what a line has several of: arguments, rows and numbers.
pub fn is_slash(byte: &u8) -> bool {
    *byte == b'/'
}

/// Whether a byte parts the answers of a line.
pub fn is_comma(byte: &u8) -> bool {
    *byte == b','
}

/// What a text has before a byte, and what behind it: all of it and nothing, where the byte is not there.
pub fn cut(text: &[u8], byte: u8) -> (&[u8], &[u8]) {
    for place in 0..text.len() {
        if text[place] == byte {
            return (&text[..place], &text[place + 1..]);
        }
    }
    (text, &[])
}

/// The number that the digits of a text are.
pub fn number_of(text: &[u8]) -> u32 {
    let mut number = 0u32;
    for byte in text {
        if byte.is_ascii_digit() {
            let digit = u32::from(byte.wrapping_sub(b'0'));
            number = number.wrapping_mul(10).wrapping_add(digit);
        }
    }
    number
}
