//! The rows of an index set, from the top down.
ghost use Rattle.std.specs.Prelude.{◌≡◌, ◌≢◌, ◌⊎◌, ℕ, ◌-◌, ◌≤◌, ◌<◌, ◌++◌, [], suc, length, IsTrue, OnOk};
ghost use Rattle.hd_dbd.specs.Refusals.{OnlyDeviceOrMemory, OnlyMemory};
ghost use Rattle.hd_volume.specs.Headers.{header_of};
ghost use Rattle.hd_volume.specs.Volumes.{IsKind};
ghost use Rattle.hd_volume.specs.Calls.{IsRead};
ghost use Rattle.hd_index_blocks.specs.Levels.{named};
ghost use Rattle.hd_index_blocks.specs.IndexSets.{index_blocks};
ghost use Rattle.hd_index_blocks.specs.Faultless.{AreFormsRight};
ghost use Rattle.hd_check_index.specs.Rows.{row_of, AreRows};
ghost use Rattle.hd_check_index.specs.Standings.{all_rows, AreNotedTo};
ghost use Rattle.hd_check_index.specs.Counted.{OfEntries, OfFitting};
ghost use Rattle.hd_check_index.specs.EntryOrders.{standing_at};

use hd_dbd::Refused;
use hd_index_blocks::{FIRST, IndexBlock};
use hd_stores::BlockStore;
use hd_volume::Volume;

/// An index has at most so many levels.
const MOST_LEVELS: u32 = 64;

/// An index block and the level on which it stands.
#[derive(Clone, Copy, Debug)]
pub struct Standing {
    pub number: u32,
    pub level: u8,
}

/// Notes the blocks of a level that the entries of a block name.
fn note_named(rows: &mut Vec<Standing>, block: &IndexBlock, level: u8) -> Result<(), Refused>
    ensures longer { OnOk result (length rows.old.items ≤ length rows.new.items) }
    ensures named { OnOk result (OfEntries block.now (λ es. rows.new.items ≡ rows.old.items ++ row_of level (named es))) }
    ensures refusal { OnlyMemory result }
{
    for index in 0..block.count() {
        let number = block.address(index);
        rows.push(Standing { number, level })
            .map_err(|_| Refused::Memory)?;
    }
    Ok(())
}

/// Notes the blocks of a level that block n names.
fn note_below<S: BlockStore>(
    rows: &mut Vec<Standing>,
    volume: &mut Volume<S>,
    key_length: usize,
    n: u32,
    level: u8,
) -> Result<(), Refused>
    requires short { key_length ≤ 255 }
    requires block { IsTrue volume.old.is_sound → IsKind volume.old 2 n }
    requires least { 12 ≤ volume.old.size }
    ensures read { IsRead volume.old result volume.new }
    ensures longer { OnOk result (length rows.old.items ≤ length rows.new.items) }
    ensures named { OnOk result (IsTrue volume.old.is_sound → OfFitting key_length volume.old n (λ es. rows.new.items ≡ rows.old.items ++ row_of level (named es))) }
    ensures refusal { OnlyDeviceOrMemory result }
{
    let bytes = volume.block(n)?;
    if bytes.len() < FIRST {
        return Ok(());
    }
    note_named(rows, &IndexBlock { bytes, key_length }, level)
}

/// Notes the row of a level behind the others, of which the last, from an index on, names its blocks.
fn note_row<S: BlockStore>(
    rows: &mut Vec<Standing>,
    volume: &mut Volume<S>,
    key_length: usize,
    from: usize,
    level: u8,
) -> Result<(), Refused>
    requires short { key_length ≤ 255 }
    requires forms { IsTrue volume.old.is_sound → AreFormsRight key_length volume.old }
    requires noted { IsTrue volume.old.is_sound → AreNotedTo (index_blocks key_length volume.old) (all_rows key_length volume.old) (suc level) from rows.old.items }
    ensures read { IsRead volume.old result volume.new }
    ensures noted { OnOk result (IsTrue volume.old.is_sound → AreNotedTo (index_blocks key_length volume.old) (all_rows key_length volume.old) level (length rows.old.items) rows.new.items) }
    ensures refusal { OnlyDeviceOrMemory result }
{
    let least = volume.block_size();
    let to = rows.len();
    for i in from..to {
        let row = rows[i];
        note_below(rows, volume, key_length, row.number, level)?;
    }
    Ok(())
}

/// Notes the blocks of an index set row by row from the top down, each row from left to right.
pub fn rows_down<S: BlockStore>(
    rows: &mut Vec<Standing>,
    volume: &mut Volume<S>,
    key_length: usize,
    top: u32,
    height: u32,
) -> Result<(), Refused>
    requires empty { rows.old.items ≡ [] }
    requires short { key_length ≤ 255 }
    requires forms { IsTrue volume.old.is_sound → AreFormsRight key_length volume.old }
    requires top { IsTrue volume.old.is_sound → top ≡ (header_of volume.old.image).top }
    requires height { IsTrue volume.old.is_sound → height ≡ (header_of volume.old.image).height }
    ensures read { IsRead volume.old result volume.new }
    ensures rows { OnOk result (IsTrue volume.old.is_sound → AreRows key_length volume.old rows.new.items) }
    ensures refusal { OnlyDeviceOrMemory result }
{
    if top == 0 || height == 0 || height > MOST_LEVELS {
        return Ok(());
    }
    let mut level = (height - 1) as u8;
    rows.push(Standing { number: top, level })
        .map_err(|_| Refused::Memory)?;
    let mut from = 0;
    while level > 0 {
        let to = rows.len();
        level -= 1;
        note_row(rows, volume, key_length, from, level)?;
        from = to;
    }
    Ok(())
}

/// Where the row begins that ends at an index.
pub fn row_start(rows: &[Standing], end: usize) -> usize
    requires some { 0 < end }
    requires within { end ≤ length rows.now }
    ensures before { result < end }
    ensures same { (i : ℕ) → result ≤ i → i < end → (standing_at rows.now i).level ≡ (standing_at rows.now (end - 1)).level }
    ensures other { (result ≡ 0) ⊎ ((standing_at rows.now (result - 1)).level ≢ (standing_at rows.now (end - 1)).level) }
{
    let last = rows[end - 1];
    let mut start = end - 1;
    while start > 0 {
        let block = rows[start - 1];
        if block.level != last.level {
            return start;
        }
        start -= 1;
    }
    start
}
