ghost use Rattle.std.specs.Prelude.{◌≡◌, ℕ, ◌+◌, ◌*◌, ◌≤◌, ◌<◌, IsTrue};
ghost use Rattle.hd_dbd.specs.DatabaseRules.{well_formed};
ghost use Rattle.hd_volume.specs.Indexes.{root_key_length, entry_room};
ghost use Rattle.hd_index_blocks.specs.Fields.{entry_place};

use hd_dbd::Dbd;

/// Where an index block has its level, its count of entries, the number of the block behind it, and its first entry.
pub const LEVEL: usize = 3;

pub const COUNT: usize = 4;

pub const NEXT: usize = 8;

pub const FIRST: usize = 12;

/// What an entry takes behind its key: a root's address, or on an upper level the number of a block.
pub const ADDRESS: usize = 4;

/// The bytes of an index's keys, three of which find room in a block.
pub fn root_key_length(dbd: &Dbd) -> usize
    ensures value { result ≡ root_key_length dbd.now.types }
    ensures short { result ≤ 255 }
    ensures three { entry_place result 3 ≤ dbd.now.block_size }
{
    key_length_of_root(dbd)
}

/// The bytes of the key of the root, 0 where it has none.
fn key_length_of_root(dbd: &Dbd) -> usize
    ensures value { result ≡ root_key_length dbd.now.types }
    ensures fit { IsTrue (well_formed dbd.now.block_size dbd.now.frspc dbd.now.types) }
{
    match dbd.type_of(1) {
        None => 0,
        Some(root) => match root.key {
            None => 0,
            Some(key) => key.length as usize,
        },
    }
}

/// Where an entry stands in its block.
pub fn entry_place(key_length: usize, index: usize) -> usize
    requires short { key_length ≤ 255 }
    requires small { index ≤ 65535 }
    ensures { result ≡ entry_place key_length index }
{
    FIRST + index * (key_length + ADDRESS)
}

/// How many entries find room in a block.
pub fn entry_room(key_length: usize, size: usize) -> usize
    requires short { key_length ≤ 255 }
    requires least { 12 ≤ size }
    ensures value { result ≡ entry_room key_length size }
    ensures within { entry_place key_length result ≤ size }
    ensures most { (count : ℕ) → entry_place key_length count ≤ size → count ≤ result }
    ensures more { (count : ℕ) → count < result → entry_place key_length (count + 1) ≤ size }
{
    (size - FIRST) / (key_length + ADDRESS)
}
