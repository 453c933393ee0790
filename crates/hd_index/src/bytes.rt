ghost use Rattle.std.specs.Prelude.{◌≡◌, ◌+◌, ◌≤◌, IsTrue, length, take, OnOk};
ghost use Rattle.hd_bytes.specs.Numbers.{number_at};
ghost use Rattle.hd_bytes.specs.Blocks.{HasBlock};
ghost use Rattle.hd_bytes.specs.Ranges.{bytes_at, with_bytes};
ghost use Rattle.hd_dbd.specs.Refusals.{OnlyDevice};
ghost use Rattle.hd_volume.specs.Volumes.{IsFormatted, IsKind, block_at};
ghost use Rattle.hd_volume.specs.Calls.{IsCall, IsRead};
ghost use Rattle.hd_index.specs.Edits.{HasNewBytes};

use hd_bytes::{write_u16, write_u32};
use hd_dbd::Refused;
use hd_stores::BlockStore;
use hd_volume::Volume;

/// How many bytes are moved at once.
const CHUNK: usize = 1024;

/// The two bytes of a number.
pub fn two_bytes(number: u16) -> [u8; 2]
    ensures len { length result ≡ 2 }
    ensures value { number_at 2 result 0 ≡ number }
{
    let mut bytes = [0; 2];
    write_u16(&mut bytes, 0, number);
    bytes
}

/// The four bytes of a number.
pub fn four_bytes(number: u32) -> [u8; 4]
    ensures len { length result ≡ 4 }
    ensures value { number_at 4 result 0 ≡ number }
{
    let mut bytes = [0; 4];
    write_u32(&mut bytes, 0, number);
    bytes
}

/// Copies so many bytes of a block from a place on to the front of a chunk.
fn read_chunk<S: BlockStore>(
    volume: &mut Volume<S>,
    n: u32,
    from: usize,
    len: usize,
    chunk: &mut [u8; 1024],
) -> Result<(), Refused>
    requires there { IsTrue volume.old.is_sound → HasBlock volume.old.size volume.old.image n }
    requires within { from + len ≤ volume.old.size }
    requires short { len ≤ 1024 }
    ensures read { IsRead volume.old result volume.new }
    ensures value { OnOk result (IsTrue volume.old.is_sound → take len chunk.new ≡ bytes_at (block_at volume.old n) from len) }
    ensures refusal { OnlyDevice result }
{
    let block = volume.block(n)?;
    if from <= block.len() && len <= block.len() - from {
        chunk[..len].copy_from_slice(&block[from..from + len]);
    }
    Ok(())
}

/// Writes bytes into an index block, behind its kind and level.
pub fn write_part<S: BlockStore>(
    volume: &mut Volume<S>,
    n: u32,
    place: usize,
    part: &[u8],
) -> Result<(), Refused>
    requires formatted { IsTrue volume.old.is_sound → IsFormatted volume.old }
    requires there { IsTrue volume.old.is_sound → IsKind volume.old 2 n }
    requires behind { 4 ≤ place }
    requires within { place + length part.now ≤ volume.old.size }
    ensures call { IsCall volume.old result volume.new }
    ensures written { OnOk result (IsTrue volume.old.is_sound → HasNewBytes volume.old n (with_bytes (block_at volume.old n) place part.now) volume.new) }
    ensures refusal { OnlyDevice result }
    ensures room { volume.new.room ≡ volume.old.room }
{
    volume.write_block(n, place, part)?;
    Ok(())
}

/// Copies a few bytes of an index block to another or to itself.
fn copy_chunk<S: BlockStore>(
    volume: &mut Volume<S>,
    source: u32,
    from: usize,
    target: u32,
    to: usize,
    len: usize,
) -> Result<(), Refused>
    requires formatted { IsTrue volume.old.is_sound → IsFormatted volume.old }
    requires source { IsTrue volume.old.is_sound → IsKind volume.old 2 source }
    requires target { IsTrue volume.old.is_sound → IsKind volume.old 2 target }
    requires behind { 4 ≤ to }
    requires from_within { from + len ≤ volume.old.size }
    requires to_within { to + len ≤ volume.old.size }
    requires short { len ≤ 1024 }
    ensures call { IsCall volume.old result volume.new }
    ensures copied { OnOk result (IsTrue volume.old.is_sound → HasNewBytes volume.old target (with_bytes (block_at volume.old target) to (bytes_at (block_at volume.old source) from len)) volume.new) }
    ensures refusal { OnlyDevice result }
    ensures room { volume.new.room ≡ volume.old.room }
{
    let mut chunk = [0; CHUNK];
    read_chunk(volume, source, from, len, &mut chunk)?;
    write_part(volume, target, to, &chunk[..len])?;
    Ok(())
}

/// Copies bytes of an index block to another, or to a place in front of them in the same block.
pub fn copy_down<S: BlockStore>(
    volume: &mut Volume<S>,
    source: u32,
    from: usize,
    target: u32,
    to: usize,
    len: usize,
) -> Result<(), Refused>
    requires formatted { IsTrue volume.old.is_sound → IsFormatted volume.old }
    requires source { IsTrue volume.old.is_sound → IsKind volume.old 2 source }
    requires target { IsTrue volume.old.is_sound → IsKind volume.old 2 target }
    requires behind { 4 ≤ to }
    requires from_within { from + len ≤ volume.old.size }
    requires to_within { to + len ≤ volume.old.size }
    requires order { source ≡ target → to ≤ from }
    requires small { volume.old.size ≤ 32768 }
    ensures call { IsCall volume.old result volume.new }
    ensures copied { OnOk result (IsTrue volume.old.is_sound → HasNewBytes volume.old target (with_bytes (block_at volume.old target) to (bytes_at (block_at volume.old source) from len)) volume.new) }
    ensures refusal { OnlyDevice result }
    ensures room { volume.new.room ≡ volume.old.room }
{
    let mut done = 0;
    while done < len {
        let part = (len - done).min(CHUNK);
        copy_chunk(volume, source, from + done, target, to + done, part)?;
        done += part;
    }
    Ok(())
}

/// Copies bytes of an index block to a place behind them in the same block.
pub fn move_up<S: BlockStore>(
    volume: &mut Volume<S>,
    n: u32,
    from: usize,
    to: usize,
    len: usize,
) -> Result<(), Refused>
    requires formatted { IsTrue volume.old.is_sound → IsFormatted volume.old }
    requires there { IsTrue volume.old.is_sound → IsKind volume.old 2 n }
    requires behind { 4 ≤ to }
    requires order { from ≤ to }
    requires within { to + len ≤ volume.old.size }
    requires small { volume.old.size ≤ 32768 }
    ensures call { IsCall volume.old result volume.new }
    ensures moved { OnOk result (IsTrue volume.old.is_sound → HasNewBytes volume.old n (with_bytes (block_at volume.old n) to (bytes_at (block_at volume.old n) from len)) volume.new) }
    ensures refusal { OnlyDevice result }
    ensures room { volume.new.room ≡ volume.old.room }
{
    let mut left = len;
    while left > 0 {
        let part = left.min(CHUNK);
        left -= part;
        copy_chunk(volume, n, from + left, n, to + left, part)?;
    }
    Ok(())
}
