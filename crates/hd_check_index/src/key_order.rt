//! The order of two keys.
ghost use Rattle.std.specs.Prelude.{◌≡◌, ◌≤◌, length, take};
ghost use Rattle.std.specs.Int.{from_be_bytes, w32};
ghost use Rattle.std.specs.Ordering.{nat_cmp};
ghost use Rattle.std.specs.Cmp.Lexicographic.{slice_cmp};

use hd_dbd::compare_keys;
use std::cmp::Ordering;

/// The number that the first four bytes make, the highest first.
fn number_of(bytes: &[u8]) -> u32
    requires { 4 ≤ length bytes.now }
    ensures { result ≡ from_be_bytes w32 (take 4 bytes.now) }
{
    u32::from_be_bytes([bytes[0], bytes[1], bytes[2], bytes[3]])
}

/// The order of the first four bytes.
fn order_of_four(one: &[u8], other: &[u8]) -> Ordering
    requires one { 4 ≤ length one.now }
    requires other { 4 ≤ length other.now }
    ensures { result ≡ slice_cmp nat_cmp (take 4 one.now) (take 4 other.now) }
{
    number_of(one).cmp(&number_of(other))
}

/// The order of two keys. Nothing is called for keys of one length, four to eight bytes: it is that of their first four bytes, or else of their last four, which
/// may be some of those too.
pub fn order_of(one: &[u8], other: &[u8]) -> Ordering
    ensures { result ≡ slice_cmp nat_cmp one.now other.now }
{
    if one.len() != other.len() || one.len() < 4 || one.len() > 8 {
        return compare_keys(one, other);
    }
    let order = order_of_four(one, other);
    if order.is_ne() {
        return order;
    }
    let last = one.len() - 4;
    order_of_four(&one[last..], &other[last..])
}
