ghost use Rattle.std.specs.Prelude.{◌≡◌, ◌≤◌, true, false, None, IsTrue, IfOk};
ghost use Rattle.hd_bytes.specs.Blocks.{HasBlock};
ghost use Rattle.hd_bytes.specs.Numbers.{number_at};
ghost use Rattle.hd_dbd.specs.Refusals.{OnlyDevice};
ghost use Rattle.hd_volume.specs.Volumes.{block_at};
ghost use Rattle.hd_volume.specs.Calls.{IsRead};
ghost use Rattle.hd_volume.specs.Entries.{entries_in};
ghost use Rattle.hd_index_blocks.specs.Searches.{IfInOrder};
ghost use Rattle.hd_index_blocks.specs.Maps.{address_of, address_from};
ghost use Rattle.hd_index_blocks.specs.Ways.{child_of};
ghost use Rattle.hd_index.specs.Blocks.{IsInOrder};

use hd_dbd::Refused;
use hd_index_blocks::{FIRST, IndexBlock};
use hd_stores::BlockStore;
use hd_volume::Volume;

/// What a block says of a key: the address at the key, that at the least key that is not below it, and the next block on
/// the level, 0 for none.
#[derive(Clone, Copy, Debug)]
pub struct Sight {
    pub equal: Option<u32>,
    pub from: Option<u32>,
    pub next: u32,
}

/// A block is one of the volume's.
pub fn has_block<S: BlockStore>(volume: &Volume<S>, n: u32) -> bool
    ensures there { IsTrue volume.now.is_sound → result ≡ true → HasBlock volume.now.size volume.now.image n }
    ensures missing { IsTrue volume.now.is_sound → result ≡ false → HasBlock volume.now.size volume.now.image n → ⊥ }
    ensures least { 128 ≤ volume.now.size }
{
    let size = volume.block_size() as u64;
    u64::from(n) * size + size <= volume.length()
}

/// The block that a key leads to from an upper block; 0 where that has no entry.
fn child_in(block: &IndexBlock, key: &[u8]) -> u32
    ensures { IfInOrder block.now.key_length block.now.bytes.now (result ≡ child_of key.now (entries_in block.now.key_length block.now.bytes.now)) }
{
    let count = block.count();
    if count == 0 {
        return 0;
    }
    let index = block.place_of(key).min(count - 1);
    block.address(index)
}

/// What a block says of a key.
fn look_in(block: &IndexBlock, key: &[u8]) -> Sight
    ensures equal { IfInOrder block.now.key_length block.now.bytes.now (result.equal ≡ address_of key.now (entries_in block.now.key_length block.now.bytes.now)) }
    ensures from { IfInOrder block.now.key_length block.now.bytes.now (result.from ≡ address_from key.now (entries_in block.now.key_length block.now.bytes.now)) }
    ensures next { result.next ≡ number_at 4 block.now.bytes.now 8 }
{
    let next = block.next();
    let index = block.place_of(key);
    if index >= block.count() {
        return Sight {
            equal: None,
            from: None,
            next,
        };
    }
    let address = block.address(index);
    let equal = if block.key(index) == key {
        Some(address)
    } else {
        None
    };
    Sight {
        equal,
        from: Some(address),
        next,
    }
}

/// The block that a key leads to from an upper block of the volume; 0 where the volume does not have that.
pub fn child<S: BlockStore>(
    volume: &mut Volume<S>,
    key_length: usize,
    n: u32,
    key: &[u8],
) -> Result<u32, Refused>
    requires short { key_length ≤ 255 }
    ensures read { IsRead volume.old result volume.new }
    ensures value { IfOk result (λ m. IsTrue volume.old.is_sound → IsInOrder key_length volume.old n → m ≡ child_of key.now (entries_in key_length (block_at volume.old n))) }
    ensures refusal { OnlyDevice result }
{
    if !has_block(volume, n) {
        return Ok(0);
    }
    let bytes = volume.block(n)?;
    if bytes.len() < FIRST {
        return Ok(0);
    }
    Ok(child_in(&IndexBlock { bytes, key_length }, key))
}

/// What a block of the volume says of a key. A block that the volume does not have has no entry.
pub fn look<S: BlockStore>(
    volume: &mut Volume<S>,
    key_length: usize,
    n: u32,
    key: &[u8],
) -> Result<Sight, Refused>
    requires short { key_length ≤ 255 }
    ensures read { IsRead volume.old result volume.new }
    ensures equal { IfOk result (λ sight. IsTrue volume.old.is_sound → IsInOrder key_length volume.old n → sight.equal ≡ address_of key.now (entries_in key_length (block_at volume.old n))) }
    ensures from { IfOk result (λ sight. IsTrue volume.old.is_sound → IsInOrder key_length volume.old n → sight.from ≡ address_from key.now (entries_in key_length (block_at volume.old n))) }
    ensures next { IfOk result (λ sight. IsTrue volume.old.is_sound → IsInOrder key_length volume.old n → sight.next ≡ number_at 4 (block_at volume.old n) 8) }
    ensures refusal { OnlyDevice result }
{
    if !has_block(volume, n) {
        return Ok(no_sight());
    }
    let bytes = volume.block(n)?;
    if bytes.len() < FIRST {
        return Ok(no_sight());
    }
    Ok(look_in(&IndexBlock { bytes, key_length }, key))
}

/// What is seen where there is no block.
pub fn no_sight() -> Sight
    ensures equal { result.equal ≡ None }
    ensures from { result.from ≡ None }
    ensures next { result.next ≡ 0 }
{
    Sight {
        equal: None,
        from: None,
        next: 0,
    }
}
