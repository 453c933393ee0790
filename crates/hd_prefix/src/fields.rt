ghost use Rattle.std.specs.Prelude.{◌≡◌, ◌<◌, ◌≤◌, length};
ghost use Rattle.hd_prefix.specs.Fields.{code_of, delete_byte_of, twin_forward_of};

use hd_bytes::read_u32;

/// The code of a stored segment's type.
pub fn code_of(segment: &[u8]) -> u8
    requires { 0 < length segment.now }
    ensures { result ≡ code_of segment.now }
{
    segment[0]
}

/// The delete byte of a stored segment, which is 0 in a sound volume.
pub fn delete_byte_of(segment: &[u8]) -> u8
    requires { 1 < length segment.now }
    ensures { result ≡ delete_byte_of segment.now }
{
    segment[1]
}

/// The address in twin forward of a stored segment, which those of every type keep behind the delete byte; 0 for none.
pub fn twin_forward_of(segment: &[u8]) -> u32
    requires { 6 ≤ length segment.now }
    ensures { result ≡ twin_forward_of segment.now }
{
    read_u32(segment, 2)
}
