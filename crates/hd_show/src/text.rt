//! Texts and numbers that are padded to columns.

use hd_dbd::Name8;

/// How many digits a number has.
pub fn digits(number: u64) -> usize {
    let mut rest = number;
    for count in 1..20 {
        if rest < 10 {
            return count;
        }
        rest /= 10;
    }
    20
}

/// A name without the blanks behind it.
pub fn name_text(name: &Name8) -> &[u8] {
    let bytes = name.bytes();
    for end in 0..bytes.len() {
        if bytes[end] == b' ' {
            return &bytes[..end];
        }
    }
    bytes
}

/// How often a whole goes into a part, times a scale and rounded; 0 for no whole.
pub fn tenths(part: u64, whole: u64, scale: u64) -> u64 {
    if whole == 0 {
        return 0;
    }
    part.saturating_mul(scale).saturating_add(whole / 2) / whole
}

/// The share of a part in tenths of a percent, rounded; 0 of nothing.
pub fn share(part: u64, whole: u64) -> u64 {
    tenths(part, whole, 1000)
}
