ghost use Rattle.std.specs.Prelude.{◌≡◌, ◌≢◌, ◌+◌, ◌≤◌, IsTrue, take, drop, [], IfOk, IfErr, OnOk};
ghost use Rattle.hd_bytes.specs.Numbers.{number_at};
ghost use Rattle.hd_dbd.specs.Refusals.{OnlyDevice};
ghost use Rattle.hd_volume.specs.Volumes.{IsFormatted, block_at};
ghost use Rattle.hd_volume.specs.Calls.{IsCall};
ghost use Rattle.hd_volume.specs.Entries.{entries_in};
ghost use Rattle.hd_index_blocks.specs.Fields.{entry_place};
ghost use Rattle.hd_index.specs.EditedBlocks.{level_of, IsLevelBlock, IsIndexBlock, Bears};
ghost use Rattle.hd_index.specs.Edits.{HasNewEntries, IsHalved, IsRefused};

use crate::bytes::{copy_down, four_bytes, two_bytes, write_part};
use hd_dbd::Refused;
use hd_index_blocks::{ADDRESS, COUNT, FIRST, NEXT, entry_place};
use hd_stores::BlockStore;
use hd_volume::Volume;

/// Copies the entries of a block from an index on into an empty block, which names a block behind it.
fn fill_upper<S: BlockStore>(
    volume: &mut Volume<S>,
    key_length: usize,
    n: u32,
    m: u32,
    half: usize,
    count: usize,
    next: u32,
) -> Result<(), Refused>
    requires formatted { IsTrue volume.old.is_sound → IsFormatted volume.old }
    requires block { IsTrue volume.old.is_sound → IsIndexBlock key_length volume.old n }
    requires empty { IsTrue volume.old.is_sound → Bears key_length volume.old (level_of (block_at volume.old m)) m [] 0 }
    requires apart { IsTrue volume.old.is_sound → m ≢ n }
    requires count { IsTrue volume.old.is_sound → number_at 2 (block_at volume.old n) 4 ≡ count }
    requires half { half ≤ count }
    requires short { key_length ≤ 255 }
    requires small { count ≤ 65535 }
    requires least { 128 ≤ volume.old.size }
    requires most { volume.old.size ≤ 32768 }
    requires fits { entry_place key_length count ≤ volume.old.size }
    ensures call { IsCall volume.old result volume.new }
    ensures filled { OnOk result (IsTrue volume.old.is_sound → HasNewEntries key_length volume.old m (drop half (entries_in key_length (block_at volume.old n))) next volume.new) }
    ensures refusal { OnlyDevice result }
    ensures room { volume.new.room ≡ volume.old.room }
{
    let len = (count - half) * (key_length + ADDRESS);
    copy_down(volume, n, entry_place(key_length, half), m, FIRST, len)?;
    write_part(volume, m, COUNT, &two_bytes((count - half) as u16))?;
    write_part(volume, m, NEXT, &four_bytes(next))
}

/// Leaves a block its first entries, and another block behind it.
fn keep_lower<S: BlockStore>(
    volume: &mut Volume<S>,
    key_length: usize,
    n: u32,
    m: u32,
    half: usize,
    count: usize,
) -> Result<(), Refused>
    requires formatted { IsTrue volume.old.is_sound → IsFormatted volume.old }
    requires block { IsTrue volume.old.is_sound → IsIndexBlock key_length volume.old n }
    requires count { IsTrue volume.old.is_sound → number_at 2 (block_at volume.old n) 4 ≡ count }
    requires half { half ≤ count }
    requires small { count ≤ 65535 }
    requires least { 128 ≤ volume.old.size }
    requires fits { entry_place key_length count ≤ volume.old.size }
    ensures call { IsCall volume.old result volume.new }
    ensures kept { OnOk result (IsTrue volume.old.is_sound → HasNewEntries key_length volume.old n (take half (entries_in key_length (block_at volume.old n))) m volume.new) }
    ensures refusal { OnlyDevice result }
    ensures room { volume.new.room ≡ volume.old.room }
{
    write_part(volume, n, NEXT, &four_bytes(m))?;
    write_part(volume, n, COUNT, &two_bytes(half as u16))
}

/// Moves the entries of a block of a level from an index on into a new block behind it, and says its number.
pub fn divide<S: BlockStore>(
    volume: &mut Volume<S>,
    key_length: usize,
    level: u8,
    n: u32,
    half: usize,
    count: usize,
    next: u32,
) -> Result<u32, Refused>
    requires formatted { IsTrue volume.old.is_sound → IsFormatted volume.old }
    requires block { IsTrue volume.old.is_sound → IsLevelBlock key_length volume.old level n }
    requires count { IsTrue volume.old.is_sound → number_at 2 (block_at volume.old n) 4 ≡ count }
    requires half { half ≤ count }
    requires short { key_length ≤ 255 }
    requires small { count ≤ 65535 }
    requires least { 128 ≤ volume.old.size }
    requires most { volume.old.size ≤ 32768 }
    requires fits { entry_place key_length count ≤ volume.old.size }
    ensures call { IsCall volume.old result volume.new }
    ensures halved { IfOk result (λ m. IsTrue volume.old.is_sound → IsHalved key_length volume.old level n m half next volume.new) }
    ensures refused { IfErr result (λ e. IsRefused volume.old e volume.new) }
    ensures room { IsTrue volume.new.is_sound → volume.old.room ≤ volume.new.room + 1 }
{
    let m = volume.take_block(level)?;
    fill_upper(volume, key_length, n, m, half, count, next)?;
    keep_lower(volume, key_length, n, m, half, count)?;
    Ok(m)
}
