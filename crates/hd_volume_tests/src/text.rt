//! Lines of a text, with the words and numbers in them.

use memchr::memchr;

/// Whether a line of a text ends before a byte.
pub fn is_end(byte: &u8) -> bool {
    *byte == b'\n' || *byte == b';'
}

/// Whether a list of a text ends before a byte.
pub fn is_list_end(byte: &u8) -> bool {
    *byte == b'%'
}

/// What a text has before a byte, and what behind it: all of it and nothing, where the byte is not there.
pub fn cut(text: &[u8], byte: u8) -> (&[u8], &[u8]) {
    match memchr(byte, text) {
        Some(end) => (&text[..end], &text[end + 1..]),
        None => (text, &[]),
    }
}

/// The numbers of a text, a blank between each two; those that are missing are 0, and `^` is a number that is known.
pub fn numbers_in(text: &[u8], known: u32) -> [u32; 6] {
    let mut numbers = [0u32; 6];
    let mut place = 0usize;
    for byte in text {
        if *byte == b' ' {
            place = place.saturating_add(1);
        } else if let Some(number) = numbers.get_mut(place) {
            let digit = u32::from(byte.wrapping_sub(b'0'));
            *number = if *byte == b'^' {
                known
            } else {
                number.wrapping_mul(10).wrapping_add(digit)
            };
        }
    }
    numbers
}

/// A line `word 1 2:bytes=3 4`: the first byte of its word, its numbers, its bytes, and the numbers that it is to answer, if it says any.
#[derive(Clone, Copy)]
pub struct Line<'t> {
    pub word: u8,
    pub numbers: [u32; 6],
    pub bytes: &'t [u8],
    pub is_asked: bool,
    pub wanted: [u32; 6],
}

/// The parts of a line; a number `^` in it is one that is known.
pub fn line_of(text: &[u8], known: u32) -> Line<'_> {
    let (call, wanted) = cut(text, b'=');
    let (words, bytes) = cut(call, b':');
    Line {
        word: words.first().copied().unwrap_or(b' '),
        numbers: numbers_in(words, known),
        bytes,
        is_asked: !wanted.is_empty(),
        wanted: numbers_in(wanted, 0),
    }
}
