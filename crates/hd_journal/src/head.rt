ghost use Rattle.std.specs.Prelude.{◌≡◌, ◌≤◌, ◌+◌, length};
ghost use Rattle.byteorder.specs.Endian.{big_bytes};
ghost use Rattle.hd_bytes.specs.Ranges.{with_bytes, ChangesOnly};
ghost use Rattle.hd_bytes.specs.Numbers.{number_at};
ghost use Rattle.hd_journal.specs.Log.{frame_at, IsHeadAt};

use byteorder::{BigEndian, ByteOrder};
use hd_bytes::{read_u32, write_u16, write_u32};

/// The bytes of a head, the gate among them.
pub const HEAD_LEN: usize = 51;

/// The bytes of a head behind the gate.
pub const SHUT_LEN: usize = HEAD_LEN - 1;

/// The bytes of the gate, the mark and the version.
pub const STAMP_LEN: usize = 11;

/// The bytes of a head behind them.
pub const NUMBERS_LEN: usize = HEAD_LEN - STAMP_LEN;

/// The bytes of a gate's slot that mean something.
pub const GATE_LEN: usize = 17;

/// The gate of a log that counts, or of a commit. Of one that does not it is any other byte.
pub const OPEN: u8 = 1;

/// What stands behind the gate: HDVOLLOG.
pub const MARK: u64 = 5207381967729610567;

/// The version of the log's form.
pub const VERSION: u16 = 2;

/// The fewest bytes of a block. A gate's slot needs them.
pub const LEAST_SIZE: u32 = 16;

/// What the slot of a gate has in place of a block's number. No block has it.
pub const NO_BLOCK: u32 = u32::MAX;

/// What the head of a log tells, and the gates of the commits behind the first.
#[derive(Clone, Copy, Debug, PartialEq, Eq)]
pub struct Head {
    /// The bytes of a block.
    pub size: u32,
    /// How many slots there are.
    pub count: u32,
    /// How many bytes of the volume count.
    pub base: u64,
    /// How many bytes the image has.
    pub len: u64,
    /// The device of the volume's file.
    pub device: u64,
    /// The file's number there.
    pub number: u64,
}

/// Where slot `i` begins in a log.
pub fn frame_place(head: Head, i: u32) -> u64
    requires small { head.size ≤ 32768 }
    ensures { result ≡ frame_at head.size i }
{
    HEAD_LEN as u64 + u64::from(i) * (u64::from(head.size) + 4)
}

/// The number in the eight bytes at a place.
#[tactic(auto, unfolding(hd_bytes::specs::Numbers::number_at))]
pub fn read_u64(bytes: &[u8], place: usize) -> u64
    requires { place + 8 ≤ length bytes.now }
    ensures { result ≡ number_at 8 bytes.now place }
{
    BigEndian::read_u64(&bytes[place..place + 8])
}

/// The head whose numbers stand in these bytes, which are those of a log from byte 11 on.
pub fn read_head(bytes: &[u8]) -> Head
    requires { 40 ≤ length bytes.now }
    ensures size { result.size ≡ number_at 4 bytes.now 0 }
    ensures count { result.count ≡ number_at 4 bytes.now 4 }
    ensures base { result.base ≡ number_at 8 bytes.now 8 }
    ensures len { result.len ≡ number_at 8 bytes.now 16 }
    ensures device { result.device ≡ number_at 8 bytes.now 24 }
    ensures number { result.number ≡ number_at 8 bytes.now 32 }
{
    Head {
        size: read_u32(bytes, 0),
        count: read_u32(bytes, 4),
        base: read_u64(bytes, 8),
        len: read_u64(bytes, 16),
        device: read_u64(bytes, 24),
        number: read_u64(bytes, 32),
    }
}

/// Writes the bytes of a head behind its gate.
pub fn put_head(bytes: &mut [u8], head: Head)
    requires { length bytes.old ≡ 50 }
    ensures len { length bytes.new ≡ 50 }
    ensures numbers { IsHeadAt bytes.new head }
{
    write_u64(bytes, 0, MARK);
    write_u16(bytes, 8, VERSION);
    write_u32(bytes, 10, head.size);
    write_u32(bytes, 14, head.count);
    write_u64(bytes, 18, head.base);
    write_u64(bytes, 26, head.len);
    write_u64(bytes, 34, head.device);
    write_u64(bytes, 42, head.number);
}

/// Writes a number into the eight bytes at a place.
pub fn write_u64(bytes: &mut [u8], place: usize, number: u64)
    requires { place + 8 ≤ length bytes.old }
    ensures changes { ChangesOnly place 8 bytes.old bytes.new }
    ensures reads_back { number_at 8 bytes.new place ≡ number }
{
    put_u64(bytes, place, number);
}

fn put_u64(bytes: &mut [u8], place: usize, number: u64)
    requires { place + 8 ≤ length bytes.old }
    ensures { bytes.new ≡ with_bytes bytes.old place (big_bytes 8 number) }
{
    BigEndian::write_u64(&mut bytes[place..place + 8], number);
}
