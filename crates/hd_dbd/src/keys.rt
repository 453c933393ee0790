ghost use Rattle.std.specs.Prelude.{◌≡◌, ◌≤◌, ◌<◌, length, take};
ghost use Rattle.std.specs.Int.{from_be_bytes, w32, w64};
ghost use Rattle.std.specs.Cmp.Lexicographic.{slice_cmp};
ghost use Rattle.std.specs.Ordering.{nat_cmp};
ghost use Rattle.hd_dbd.specs.Hierarchy.{key_in};

use crate::hierarchy::SegType;
use std::cmp::Ordering;

/// The key in a segment of the type, without bytes where the type has none.
pub fn key_in<'a>(segment: &SegType, bytes: &'a [u8]) -> &'a [u8]
    ensures { result.now ≡ key_in segment.now bytes.now }
{
    match &segment.key {
        Some(key) => {
            let start = (key.start as usize).saturating_sub(1).min(bytes.len());
            let end = (start + key.length as usize).min(bytes.len());
            &bytes[start..end]
        }
        None => &[],
    }
}

/// The order of two keys: that of the first bytes that differ. Of keys of one length, four bytes or more, eight or four are compared at once,
/// as the numbers that they make; the last eight or four may overlap those before.
pub fn compare_keys(one: &[u8], other: &[u8]) -> Ordering
    ensures { result ≡ slice_cmp nat_cmp one.now other.now }
{
    if one.len() != other.len() {
        return compare_bytes(one, other);
    }
    if one.len() < 8 {
        return compare_few(one, other);
    }
    compare_many(one, other)
}

/// The order of two keys of one length, eight bytes or more.
fn compare_many(one: &[u8], other: &[u8]) -> Ordering
    requires same { length one.now ≡ length other.now }
    requires many { 8 ≤ length one.now }
    ensures { result ≡ slice_cmp nat_cmp one.now other.now }
{
    let order = compare_eight(one, other);
    if order.is_ne() {
        return order;
    }
    if one.len() > 16 {
        return compare_many(&one[8..], &other[8..]);
    }
    let last = one.len() - 8;
    compare_eight(&one[last..], &other[last..])
}

/// The order of two keys of one length, less than eight bytes.
fn compare_few(one: &[u8], other: &[u8]) -> Ordering
    requires same { length one.now ≡ length other.now }
    requires few { length one.now < 8 }
    ensures { result ≡ slice_cmp nat_cmp one.now other.now }
{
    if one.len() < 4 {
        return compare_bytes(one, other);
    }
    let order = compare_four(one, other);
    if order.is_ne() {
        return order;
    }
    let last = one.len() - 4;
    compare_four(&one[last..], &other[last..])
}

/// The order of the first eight bytes.
fn compare_eight(one: &[u8], other: &[u8]) -> Ordering
    requires one { 8 ≤ length one.now }
    requires other { 8 ≤ length other.now }
    ensures { result ≡ slice_cmp nat_cmp (take 8 one.now) (take 8 other.now) }
{
    number_of_eight(one).cmp(&number_of_eight(other))
}

/// The order of the first four bytes.
fn compare_four(one: &[u8], other: &[u8]) -> Ordering
    requires one { 4 ≤ length one.now }
    requires other { 4 ≤ length other.now }
    ensures { result ≡ slice_cmp nat_cmp (take 4 one.now) (take 4 other.now) }
{
    number_of_four(one).cmp(&number_of_four(other))
}

/// The number that the first eight bytes make, the highest first.
pub(crate) fn number_of_eight(bytes: &[u8]) -> u64
    requires { 8 ≤ length bytes.now }
    ensures { result ≡ from_be_bytes w64 (take 8 bytes.now) }
{
    u64::from_be_bytes([
        bytes[0], bytes[1], bytes[2], bytes[3], bytes[4], bytes[5], bytes[6], bytes[7],
    ])
}

/// The number that the first four bytes make, the highest first.
pub(crate) fn number_of_four(bytes: &[u8]) -> u32
    requires { 4 ≤ length bytes.now }
    ensures { result ≡ from_be_bytes w32 (take 4 bytes.now) }
{
    u32::from_be_bytes([bytes[0], bytes[1], bytes[2], bytes[3]])
}

/// The order of two keys, byte by byte.
fn compare_bytes(one: &[u8], other: &[u8]) -> Ordering
    ensures { result ≡ slice_cmp nat_cmp one.now other.now }
{
    one.partial_cmp(other).unwrap_or(Ordering::Equal)
}
