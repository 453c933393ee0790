ghost use Rattle.std.specs.Prelude.{◌≡◌, ◌⊎◌, ◌+◌, ◌<◌, ◌≤◌, length, true, false, IsTrue, IfOk};
ghost use Rattle.hd_dbd.specs.DatabaseRules.{well_formed};
ghost use Rattle.hd_dbd.specs.Prefixes.{size_with};
ghost use Rattle.hd_dbd.specs.Refusals.{OnlyDevice};
ghost use Rattle.hd_dbd.specs.Rows.{row_fits};
ghost use Rattle.hd_volume.specs.Calls.{IsRead};
ghost use Rattle.hd_volume.specs.Rooms.{spare, HasHole};
ghost use Rattle.hd_volume.specs.Volumes.{IsFormatted};
ghost use Rattle.hd_index_blocks.specs.Needs.{entry_growth, IsHighest};
ghost use Rattle.hd_index.specs.Changes.{IsIndexOf};
ghost use Rattle.hd_changes.specs.Rooms.{HasRootRoom};

use hd_dbd::{Dbd, Refused};
use hd_index::{blocks_needed, growth, is_highest};
use hd_stores::BlockStore;
use hd_volume::Volume;

/// The bytes that a row takes in a block, with its prefix and rounded up.
pub fn row_size(dbd: &Dbd, code: u8, bytes: &[u8]) -> u32
    requires fits { row_fits dbd.now.types (record { code = code; bytes = bytes.now }) ≡ true }
    ensures value { result ≡ size_with dbd.now.types code (length bytes.now) }
    ensures small { result ≤ 65535 }
    ensures fit { IsTrue (well_formed dbd.now.block_size dbd.now.frspc dbd.now.types) }
{
    let _ = dbd.types();
    dbd.size_with(code, bytes.len()) as u32
}

/// Whether some data block has a hole of at least so many bytes; none is as large as 65,536.
pub fn has_hole<S: BlockStore>(volume: &mut Volume<S>, size: u32) -> Result<bool, Refused>
    requires formatted { IsTrue volume.old.is_sound → IsFormatted volume.old }
    requires small { volume.old.size ≤ 32768 }
    ensures read { IsRead volume.old result volume.new }
    ensures found { IfOk result (λ f. IsTrue volume.old.is_sound → f ≡ true → HasHole volume.old size) }
    ensures none { IfOk result (λ f. IsTrue volume.old.is_sound → f ≡ false → HasHole volume.old size → ⊥) }
    ensures refusal { OnlyDevice result }
{
    if size > 65_535 {
        return Ok(false);
    }
    volume.has_hole(size as u16)
}

/// Whether a volume lacks room for so many rows of one path, which take so many bytes together, of which the first is a root of a key: the
/// index may have no level more, or its entry may need blocks, and the rows need one each where no hole is as large as all together. Where the
/// volume keeps something free the rows may take blocks though there is a hole: the hole counts only where the entry needs none.
pub fn lacks_room<S: BlockStore>(
    volume: &mut Volume<S>,
    dbd: &Dbd,
    key: &[u8],
    count: u32,
    total: u32,
) -> Result<bool, Refused>
    requires index { IsTrue volume.old.is_sound → IsIndexOf dbd.now volume.old }
    requires small { volume.old.size ≤ 32768 }
    ensures read { IsRead volume.old result volume.new }
    ensures lacks { IfOk result (λ b. IsTrue volume.old.is_sound → b ≡ true → (spare volume.old < count + entry_growth volume.old) ⊎ IsHighest volume.old) }
    ensures room { IfOk result (λ b. IsTrue volume.old.is_sound → b ≡ false → HasRootRoom dbd.now key.now count total volume.old) }
    ensures refusal { OnlyDevice result }
{
    if is_highest(volume) {
        return Ok(true);
    }
    let leaves = volume.leaves_space();
    let spare = volume.spare();
    let most = u64::from(growth(volume));
    let rows = u64::from(count);
    let free = u64::from(spare);
    if most + rows <= free {
        return Ok(false);
    }
    let entry = blocks_needed(volume, dbd, key)?;
    if spare < entry {
        return Ok(true);
    }
    if count <= spare - entry {
        return Ok(false);
    }
    if leaves && entry > 0 {
        return Ok(true);
    }
    Ok(!has_hole(volume, total)?)
}
