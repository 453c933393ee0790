//! Phase 11: the next block of each is the one that follows on its level.
ghost use Rattle.std.specs.Prelude.{◌≡◌, ◌≢◌, ◌<◌, ℕ, length, min, true, false};
ghost use Rattle.std.specs.Option.{option_map_or};
ghost use Rattle.hd_volume.specs.Volumes.{VolumeState, IsKind};
ghost use Rattle.hd_index_blocks.specs.IndexSets.{next_in};
ghost use Rattle.hd_index_blocks.specs.Faultless.{AreFormsRight};
ghost use Rattle.hd_index_blocks.specs.LevelFaults.{IsWrongNext};
ghost use Rattle.hd_check_index.specs.Tables.{AreIndexBlocks};
ghost use Rattle.hd_check_index.specs.Rows.{AreRows};
ghost use Rattle.hd_check_index.specs.Judging.{IsFoundAt};
ghost use Rattle.hd_check_index.specs.Standings.{standing_at, follower};

use crate::rows::Standing;
use crate::table::{NotedBlock, position_of};

/// The block that follows one in a row, 0 for none.
fn follower_of(rows: &[Standing], i: usize) -> u32
    requires within { i < length rows.now }
    ensures { result ≡ follower rows.now i }
{
    let row = rows[i];
    if i + 1 >= rows.len() {
        return 0;
    }
    let behind = rows[i + 1];
    if behind.level == row.level {
        behind.number
    } else {
        0
    }
}

/// Whether a block in a row names another one as the next than the one that follows.
pub fn is_next_wrong(blocks: &[NotedBlock], rows: &[Standing], i: usize) -> bool
    requires within { i < length rows.now }
    ensures wrong { result ≡ true → (v : VolumeState) → AreIndexBlocks v blocks.now → next_in v (standing_at rows.now i).number ≢ follower rows.now i }
    ensures right { result ≡ false → (v : VolumeState) → AreIndexBlocks v blocks.now → IsKind v 2 (standing_at rows.now i).number → next_in v (standing_at rows.now i).number ≡ follower rows.now i }
{
    let row = rows[i];
    match position_of(blocks, row.number) {
        None => false,
        Some(at) => {
            let block = blocks[at];
            block.next != follower_of(rows, i)
        }
    }
}

/// The lesser of a number that was found, if one was, and another.
fn lesser(found: Option<u32>, number: u32) -> u32
    ensures { result ≡ option_map_or (λ n. min n number) found number }
{
    match found {
        None => number,
        Some(n) => n.min(number),
    }
}

/// The first index block whose next one is not the one that follows on its level.
pub fn wrong_next(blocks: &[NotedBlock], rows: &[Standing]) -> Option<u32>
    ensures found { (k : ℕ) (v : VolumeState) → AreIndexBlocks v blocks.now → AreFormsRight k v → AreRows k v rows.now → IsFoundAt v (IsWrongNext k v) result }
{
    let mut found = None;
    for i in 0..rows.len() {
        if is_next_wrong(blocks, rows, i) {
            let row = rows[i];
            found = Some(lesser(found, row.number));
        }
    }
    found
}
