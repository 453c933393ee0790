//! Phase 2: the chain of free elements of a data block.
ghost use Rattle.std.specs.Prelude.{◌≡◌, ◌≤◌, ◌<◌, ◌+◌, ℕ, List, length, true, false};
ghost use Rattle.hd_image.specs.BlockFaults.{IsElementAt, HasFreeElements};

use hd_bytes::{read_u16, read_u32};

/// Whether a free element stands at a place of a data block.
fn is_element(block: &[u8], place: usize) -> bool
    requires { length block.now ≤ 32768 }
    ensures right { result ≡ true → IsElementAt block.now place }
    ensures wrong { result ≡ false → IsElementAt block.now place → ⊥ }
{
    if place % 8 != 0 || place >= block.len() || block.len() - place < 8 {
        return false;
    }
    let length = read_u16(block, place + 2) as usize;
    length % 8 == 0
        && length >= 8
        && length <= block.len() - place
        && read_u32(block, place + 4) == 0
}

/// Whether the free elements of a data block are a right chain.
pub fn is_chain_right(block: &[u8]) -> bool
    requires { (8 ≤ length block.now) × (length block.now ≤ 32768) }
    ensures right { result ≡ true → (places : List ℕ) × HasFreeElements block.now places }
    ensures wrong { result ≡ false → (places : List ℕ) → HasFreeElements block.now places → ⊥ }
{
    let mut end = 7;
    let mut next = read_u16(block, 0) as usize;
    for _turn in 0..block.len() {
        if next == 0 {
            return true;
        }
        if next <= end {
            return false;
        }
        if !is_element(block, next) {
            return false;
        }
        end = next + read_u16(block, next + 2) as usize;
        next = read_u16(block, next) as usize;
    }
    false
}
