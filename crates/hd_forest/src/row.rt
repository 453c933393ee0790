ghost use Rattle.std.specs.Prelude.{◌≡◌};
ghost use Rattle.hd_prefix.specs.Fields.{code_of, bytes_of, IsWhole};

use crate::read::code_in;
use hd_dbd::Dbd;
use hd_prefix::Layout;

/// A lent segment's own bytes, without its prefix; none where it is shorter than these.
pub fn bytes_in<'a>(dbd: &Dbd, segment: &'a [u8]) -> &'a [u8]
    ensures { IsWhole dbd.now.types (code_of segment.now) segment.now → result.now ≡ bytes_of dbd.now.types (code_of segment.now) segment.now }
{
    match Layout::of(dbd, code_in(segment)).own_bytes(segment) {
        Some(bytes) => bytes,
        None => &[],
    }
}
