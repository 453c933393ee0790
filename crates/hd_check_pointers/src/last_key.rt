//! The key that was read last.
ghost use Rattle.std.specs.Prelude.{◌≡◌, ◌≤◌, length, take};

/// The most bytes that a key has.
const LONGEST_KEY: usize = 255;

/// The key of the segment at an address, at the front; of none at address 0.
#[derive(Drop)]
pub struct LastKey {
    pub address: u32,
    pub key: [u8; LONGEST_KEY],
    pub length: usize,
    ghost short: { length ≤ 255 },
}

/// The key of no segment.
pub fn no_key() -> LastKey
    ensures { result.address ≡ 0 }
{
    LastKey {
        address: 0,
        key: [0; LONGEST_KEY],
        length: 0,
    }
}

/// Copies a key, as far as there is room for it, and answers its length.
fn copy_key(room: &mut [u8; LONGEST_KEY], key: &[u8]) -> usize
    ensures bound { result ≤ 255 }
    ensures key { length key.now ≤ 255 → take result room.new ≡ key.now }
{
    let count = key.len().min(LONGEST_KEY);
    room[..count].copy_from_slice(&key[..count]);
    count
}

/// Keeps the key of the segment at an address.
pub fn keep_key(last: &mut LastKey, address: u32, key: &[u8])
    ensures address { last.new.address ≡ address }
    ensures key { length key.now ≤ 255 → take last.new.length last.new.key ≡ key.now }
{
    last.length = copy_key(&mut last.key, key);
    last.address = address;
}
