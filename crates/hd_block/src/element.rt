ghost use Rattle.std.specs.Prelude.{◌≡◌, ◌+◌, ◌≤◌, length};
ghost use Rattle.hd_bytes.specs.Ranges.{ChangesOnly};
ghost use Rattle.hd_bytes.specs.Numbers.{number_at};

use hd_bytes::write_u32;

/// Writes a free element: where the next begins and its length as one number, and a task identifier of 0.
pub fn write_element(bytes: &mut [u8], place: usize, next: u16, len: u16)
    requires { place + 8 ≤ length bytes.old }
    ensures size { length bytes.new ≡ length bytes.old }
    ensures next { number_at 2 bytes.new place ≡ next }
    ensures len { number_at 2 bytes.new (place + 2) ≡ len }
    ensures task { number_at 4 bytes.new (place + 4) ≡ 0 }
    ensures changes { ChangesOnly place 8 bytes.old bytes.new }
{
    write_u32(bytes, place, u32::from(next) * 65536 + u32::from(len));
    write_u32(bytes, place + 4, 0);
}
