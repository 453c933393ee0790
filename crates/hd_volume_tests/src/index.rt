//! Calls of the root index, beside a map of numbers, and what they cost.

use crate::text::Line;
use crate::trial::Trial;
use hd_dbd::{Dbd, Refused};
use hd_index::{find, next_from, remove, set};
use hd_index_blocks::root_key_length;
use std::alloc::Global;
use std::collections::BTreeMap;

/// The addresses of numbers.
pub type Map = BTreeMap<u32, u32>;

/// The key of a number in so many bytes, at the front. Its last byte is the number's lowest, that in the middle the next, and from three bytes on the first is
/// the third: so the keys ascend as the numbers do.
fn key_of(n: u32, length: usize) -> [u8; 255] {
    let [_, high, middle, low] = n.to_be_bytes();
    let last = length.saturating_sub(1).min(254);
    let mut key = [7; 255];
    if length > 2 {
        key[0] = high;
    }
    key[last / 2] = middle;
    key[last] = low;
    key
}

/// The address of the root of the least key that is not below a key.
fn address_from(trial: &mut Trial<'_>, key: &[u8]) -> Result<Option<u32>, Refused> {
    match next_from(&mut trial.volume, trial.dbd, key)? {
        Some(root) => Ok(Some(root.address)),
        None => Ok(None),
    }
}

/// Makes a call, as a word names it, with the key of a number: `find` it, the `next` from it on, the `least`, `remove` it, `set` its address, and else
/// enter it. Says the address that was asked for.
pub fn make(trial: &mut Trial<'_>, word: u8, n: u32) -> Result<Option<u32>, Refused> {
    let length = root_key_length(trial.dbd);
    let bytes = key_of(n, length);
    let key = &bytes[..length.min(255)];
    match word {
        b'f' => return find(&mut trial.volume, trial.dbd, key),
        b'n' => return address_from(trial, key),
        b'l' => return address_from(trial, &[]),
        b'r' => remove(&mut trial.volume, trial.dbd, key)?,
        b's' => set(&mut trial.volume, trial.dbd, key, n.wrapping_add(70_000))?,
        _ => trial.enter(key, n.wrapping_add(1))?,
    }
    Ok(None)
}

/// What the call answers by a map of the numbers, and the map behind it. The least key is sought from 0 on.
fn wanted(map: &mut Map, word: u8, n: u32) -> Option<u32> {
    match word {
        b'f' => map.get(&n).copied(),
        b'n' | b'l' => match map.range(n..).next() {
            Some((_, address)) => Some(*address),
            None => None,
        },
        b'r' => {
            map.remove(&n);
            None
        }
        b's' => {
            if let Some(address) = map.get_mut(&n) {
                *address = n.wrapping_add(70_000);
            }
            None
        }
        _ => None,
    }
}

/// Makes a call with the key of a number in an index and in a map. Whether they answer the same.
pub fn agree(trial: &mut Trial<'_>, map: &mut Map, word: u8, n: u32) -> Result<bool, Refused> {
    let told = make(trial, word, n)?;
    if matches!(word, b'b' | b'i') && map.insert(n, n.wrapping_add(1)).is_err() {
        return Err(Refused::Memory);
    }
    Ok(told == wanted(map, word, n))
}

/// Makes a call with the keys of so many numbers, from the first on, each so much more than the one before, less a modulus where it reaches that. Whether
/// index and map agree at each.
pub fn agree_at_all(
    trial: &mut Trial<'_>,
    map: &mut Map,
    word: u8,
    numbers: [u32; 4],
) -> Result<bool, Refused> {
    let [first, step, count, modulus] = numbers;
    let mut n = first;
    for _ in 0..count {
        if !agree(trial, map, word, n)? {
            return Ok(false);
        }
        n = n.wrapping_add(step) % modulus.max(1);
    }
    Ok(true)
}

/// Whether what is told of the root from the key of a number on, that its key is that one, is so by the map; of so many numbers, from 0 on.
fn tells_of_keys(trial: &mut Trial<'_>, map: &Map, count: u32) -> Result<bool, Refused> {
    let length = root_key_length(trial.dbd).min(255);
    for n in 0..count {
        let bytes = key_of(n, length);
        if let Some(root) = next_from(&mut trial.volume, trial.dbd, &bytes[..length])? {
            if root.is_equal != map.get(&n).is_some() {
                return Ok(false);
            }
        }
    }
    Ok(true)
}

/// Enters the keys of so many numbers in an order, and takes some out between. Whether index and map agree then, at each key and from each on.
pub fn agree_when_mixed(
    trial: &mut Trial<'_>,
    map: &mut Map,
    step: u32,
    count: u32,
) -> Result<bool, Refused> {
    for i in 0..count {
        agree(trial, map, b'i', i.wrapping_mul(step) % count)?;
        if i % 3 == 2 {
            agree(trial, map, b'r', (i / 2).wrapping_mul(step) % count)?;
        }
    }
    let numbers = [0, 1, count, u32::MAX];
    Ok(
        agree_at_all(trial, map, b'f', numbers)?
            && agree_at_all(trial, map, b'n', numbers)?
            && tells_of_keys(trial, map, count)?,
    )
}

/// Whether a line of a list is answered as it says: of the `height` of the index, of the blocks of the volume or `>` how many these are, and else of
/// calls; `end` writes all that is changed.
pub fn is_right(trial: &mut Trial<'_>, map: &mut Map, line: &Line<'_>) -> Result<bool, Refused> {
    let [_, first, step, count, modulus, _] = line.numbers;
    let wanted = line.wanted[0];
    match line.word {
        b'e' => {
            trial.volume.flush()?;
            Ok(true)
        }
        b'h' => Ok(trial.volume.height() == wanted),
        b'c' => Ok(trial.volume.block_count() == wanted),
        b'>' => Ok(trial.volume.block_count() > wanted),
        word => agree_at_all(trial, map, word, [first, step, count, modulus]),
    }
}

/// The accesses that a call may make, as the ways that it goes have them.
///
/// A search reads one block of each level, and `next_from` at most one more.
///
/// An insert that takes no block goes down at most three times. The first time it looks for the greatest key below the new one, and reads of a
/// level the block and perhaps its left neighbour; then, where the block to which it came has no key below the new one, it reads each block for
/// its count; then it reads and writes each: five accesses a level.
/// One that takes blocks always makes this way too, and goes down once more, to see whether the key is above all others; that makes six. For
/// each block it goes down twice, and makes nine accesses besides: it adds the block, copies entries to it by three for each 1,024 bytes, and
/// reads and writes the block that is divided and the one above. These are not more than six a level, save in an index of two levels, of which
/// some blocks are still in hand where they would be read.
/// One between two keys of a block that has room goes down twice and writes that block alone, of which it reads no left neighbour: three
/// accesses a level. A way more would make at least one more than these, save in an index of at most four levels, of which the blocks are
/// still in hand.
///
/// A removal reads of a level the block and perhaps its left neighbour, and of a block that is emptied seven more: the block itself three
/// times, and its neighbour twice, which both are written.
fn most(word: u8, height: u32, taken: u32) -> u64 {
    let height = u64::from(height);
    match word {
        b'f' => height,
        b'n' => height + 1,
        b'b' => 3 * height,
        b'r' => 9 * height,
        _ if taken == 0 => 5 * height,
        _ => (6 * height).saturating_mul(u64::from(taken) + 1),
    }
}

/// Makes a call over the volume of these bytes, and writes all that is changed. The volume is loaded by an access of each block, which does not
/// count; its last block is then in hand. Gives the bytes then, and the height of the index, before it or after it the greater; `None` where the call is
/// answered otherwise than by the map, or makes too many accesses.
fn count_one(
    alloc: Global,
    dbd: &Dbd,
    bytes: Vec<u8>,
    map: &mut Map,
    word: u8,
    n: u32,
) -> Option<(Vec<u8>, u32)> {
    let mut trial = Trial::over(alloc, dbd, bytes, 65536, u64::MAX).ok()?;
    let blocks = trial.volume.length() / trial.volume.block_size() as u64;
    let height = trial.volume.height();
    let spare = trial.volume.spare();
    if agree(&mut trial, map, word, n) != Ok(true) || trial.volume.flush().is_err() {
        return None;
    }
    let height = height.max(trial.volume.height());
    let taken = spare.saturating_sub(trial.volume.spare());
    let (bytes, accesses) = trial.close();
    if accesses.saturating_sub(blocks) > most(word, height, taken) {
        return None;
    }
    Some((bytes, height))
}

/// Makes a call with the keys of numbers, each over the volume as it was left by the one before. Gives the bytes then, and the greatest height; `None`
/// where one is answered otherwise than by the map, or makes too many accesses.
pub fn count_at_all(
    alloc: Global,
    dbd: &Dbd,
    start: Vec<u8>,
    map: &mut Map,
    word: u8,
    numbers: [u32; 4],
) -> Option<(Vec<u8>, u32)> {
    let [mut n, step, count, modulus] = numbers;
    let mut bytes = start;
    let mut greatest = 0;
    for _ in 0..count {
        let (next, height) = count_one(alloc, dbd, bytes, map, word, n)?;
        bytes = next;
        greatest = height.max(greatest);
        n = n.wrapping_add(step) % modulus.max(1);
    }
    Some((bytes, greatest))
}

/// The bytes of a new volume.
pub fn new_bytes(alloc: Global, dbd: &Dbd) -> Option<Vec<u8>> {
    let mut trial = Trial::over(alloc, dbd, Vec::new(alloc), 65536, u64::MAX).ok()?;
    trial.volume.flush().ok()?;
    Some(trial.close().0)
}
