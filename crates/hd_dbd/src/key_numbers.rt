//! Keys of at most eight bytes, compared as the numbers that they make with zeros behind them.
ghost use Rattle.std.specs.Prelude.{◌≡◌, ◌+◌, ◌≤◌, length, take, drop, IfSome};
ghost use Rattle.std.specs.Int.{from_be_bytes, w64};
ghost use Rattle.std.specs.Ordering.{nat_cmp, is_lt};
ghost use Rattle.std.specs.Cmp.Lexicographic.{slice_cmp};
ghost use Rattle.hd_dbd.specs.KeyNumbers.{with_zeros, IsNumberOf};

use crate::keys::{number_of_eight, number_of_four};

/// A key with zeros behind it up to eight bytes.
fn with_zeros(key: &[u8]) -> [u8; 8]
    requires { length key.now ≤ 8 }
    ensures { result ≡ with_zeros key.now }
{
    let mut eight = [0; 8];
    eight[..key.len()].copy_from_slice(key);
    eight
}

/// The number of a key of four to eight bytes with zeros behind it, by its first four bytes and its last four, which may be some of those too.
fn number_of_ends(key: &[u8]) -> u64
    requires four { 4 ≤ length key.now }
    requires eight { length key.now ≤ 8 }
    ensures { result ≡ from_be_bytes w64 (take 8 (with_zeros key.now)) }
{
    let first = number_of_four(key) as u64;
    let last = number_of_four(&key[key.len() - 4..]) as u64;
    let behind = 8 * (8 - key.len());
    (first << 32) + (last << behind) % (1 << 32)
}

/// The number of a key with zeros behind it; `None` where it has more than eight bytes, or not as many as the keys that it is compared with.
pub fn number_of_key(key: &[u8], count: usize) -> Option<u64>
    ensures { IfSome result (λ number. IsNumberOf count key.now number) }
{
    if key.len() != count || key.len() > 8 {
        return None;
    }
    if key.len() < 4 {
        return Some(number_of_eight(&with_zeros(key)));
    }
    Some(number_of_ends(key))
}

/// The number that the eight bytes at a place make.
fn number_at(bytes: &[u8], place: usize) -> u64
    requires { place + 8 ≤ length bytes.now }
    ensures { result ≡ from_be_bytes w64 (take 8 (drop place bytes.now)) }
{
    number_of_eight(&bytes[place..])
}

/// Whether the key at a place is below another, as numbers, since eight bytes stand there.
pub fn is_number_below(bytes: &[u8], place: usize, count: usize, key: &[u8], number: u64) -> bool
    requires within { place + 8 ≤ length bytes.now }
    requires number { IsNumberOf count key.now number }
    ensures { result ≡ is_lt (slice_cmp nat_cmp (take count (drop place bytes.now)) key.now) }
{
    let _ = count;
    let _ = key;
    number_at(bytes, place) < number
}
