ghost use Rattle.std.specs.Prelude.{◌≡◌, ◌+◌, ◌-◌, ◌≤◌, ◌<◌, true, false, length, slice_index};
ghost use Rattle.hd_bytes.specs.Numbers.{number_at};
ghost use Rattle.hd_bytes.specs.Ranges.{bytes_at};
ghost use Rattle.hd_volume.specs.Entries.{entries_in};
ghost use Rattle.hd_dbd.specs.KeyNumbers.{IsNumberOf};
ghost use Rattle.hd_volume.specs.Indexes.{entry_room, key_less};
ghost use Rattle.hd_index_blocks.specs.Fields.{entry_place, entry_count, below_count};

use crate::format::{COUNT, LEVEL, NEXT, entry_place, entry_room};
use hd_bytes::{read_u16, read_u32};
use hd_dbd::{compare_keys, is_number_below, number_of_key};
use std::cmp::Ordering;

/// An index block whose entries have keys of so many bytes: a view over its bytes, whatever they are.
#[derive(Clone, Copy)]
pub struct IndexBlock<'b> {
    pub bytes: &'b [u8],
    pub key_length: usize,
    ghost short: { key_length ≤ 255 },
    ghost front: { 12 ≤ length bytes.now },
}

/// How many entries of a block are below a key, and the block behind it, or 0 where not all are.
#[derive(Clone, Copy, Debug)]
pub struct Seen {
    pub index: usize,
    pub next: u32,
}

impl<'b> IndexBlock<'b> {
    ghost use Rattle.hd_index_blocks.specs.Searches.{seen_in, IfInOrder};

    /// Its level; 0 is that of the roots' entries.
    pub fn level(&self) -> u8
        ensures { result ≡ slice_index self.now.bytes.now 3 }
    {
        self.bytes[LEVEL]
    }

    /// How many entries it says that it has.
    pub fn stated_count(&self) -> u16
        ensures { result ≡ number_at 2 self.now.bytes.now 4 }
    {
        read_u16(self.bytes, COUNT)
    }

    /// The block behind it on its level, 0 for none.
    pub fn next(&self) -> u32
        ensures { result ≡ number_at 4 self.now.bytes.now 8 }
    {
        read_u32(self.bytes, NEXT)
    }

    /// Its entries, no more than find room.
    pub fn count(&self) -> usize
        ensures value { result ≡ entry_count self.now.key_length self.now.bytes.now }
        ensures within { entry_place self.now.key_length result ≤ length self.now.bytes.now }
        ensures small { result ≤ 65535 }
    {
        let stated = self.stated_count() as usize;
        if entry_place(self.key_length, stated) <= self.bytes.len() {
            return stated;
        }
        entry_room(self.key_length, self.bytes.len())
    }

    /// Where one of its entries stands.
    fn place(&self, index: usize) -> usize
        requires { index < entry_count self.now.key_length self.now.bytes.now }
        ensures value { result ≡ entry_place self.now.key_length index }
        ensures within { result + (self.now.key_length + 4) ≤ length self.now.bytes.now }
    {
        let _count = self.count();
        entry_place(self.key_length, index)
    }

    /// The key of one of its entries.
    pub fn key(&self, index: usize) -> &'b [u8]
        requires { index < entry_count self.now.key_length self.now.bytes.now }
        ensures value { result.now ≡ bytes_at self.now.bytes.now (entry_place self.now.key_length index) self.now.key_length }
        ensures len { length result.now ≡ self.now.key_length }
    {
        let place = self.place(index);
        &self.bytes[place..place + self.key_length]
    }

    /// The address in one of its entries; on an upper level the number of a block.
    pub fn address(&self, index: usize) -> u32
        requires { index < entry_count self.now.key_length self.now.bytes.now }
        ensures { result ≡ number_at 4 self.now.bytes.now (entry_place self.now.key_length index + self.now.key_length) }
    {
        read_u32(self.bytes, self.place(index) + self.key_length)
    }

    /// How many of its first entries are below a key. The last two are looked at first: new keys often come behind all others, and the way to
    /// them goes by the last. Keys of four to eight bytes are compared as numbers.
    pub fn place_of(&self, key: &[u8]) -> usize
        ensures most { result ≤ entry_count self.now.key_length self.now.bytes.now }
        ensures value { IfInOrder self.now.key_length self.now.bytes.now (result ≡ below_count key.now (entries_in self.now.key_length self.now.bytes.now)) }
    {
        if self.key_length >= 4 {
            if let Some(number) = number_of_key(key, self.key_length) {
                return self.place_of_number(key, number);
            }
        }
        self.place_of_key(key)
    }

    /// The same, by the order of keys.
    #[inline(never)] // What this one keeps over its calls is not put aside where keys have numbers.
    fn place_of_key(&self, key: &[u8]) -> usize
        ensures most { result ≤ entry_count self.now.key_length self.now.bytes.now }
        ensures value { IfInOrder self.now.key_length self.now.bytes.now (result ≡ below_count key.now (entries_in self.now.key_length self.now.bytes.now)) }
    {
        let count = self.count();
        let mut low = 0;
        let mut high = count;
        while low < high {
            let middle = middle_of(low, high, count);
            match compare_keys(self.key(middle), key) {
                Ordering::Less => low = middle + 1,
                Ordering::Equal => return middle,
                Ordering::Greater => high = middle,
            }
        }
        low
    }

    /// The same, of a key that has a number, where eight bytes stand at each entry. Nothing is called on the way, so that a step is short.
    fn place_of_number(&self, key: &[u8], number: u64) -> usize
        requires number { IsNumberOf self.now.key_length key.now number }
        requires eight { 4 ≤ self.now.key_length }
        ensures most { result ≤ entry_count self.now.key_length self.now.bytes.now }
        ensures value { IfInOrder self.now.key_length self.now.bytes.now (result ≡ below_count key.now (entries_in self.now.key_length self.now.bytes.now)) }
    {
        let count = self.count();
        if self.ends_below(count, key, number) {
            return count;
        }
        if self.ends_below(count - 1, key, number) {
            return count - 1;
        }
        let mut low = 0;
        let mut high = count - 2;
        while low < high {
            let middle = (low + high) / 2;
            if self.is_below(middle, key, number) {
                low = middle + 1;
            } else {
                high = middle;
            }
        }
        low
    }

    /// Whether the last of so many first entries is below a key that has a number; also where there are none.
    fn ends_below(&self, index: usize, key: &[u8], number: u64) -> bool
        requires index { index ≤ entry_count self.now.key_length self.now.bytes.now }
        requires number { IsNumberOf self.now.key_length key.now number }
        requires eight { 4 ≤ self.now.key_length }
        ensures below { result ≡ true → 0 < index → key_less (bytes_at self.now.bytes.now (entry_place self.now.key_length (index - 1)) self.now.key_length) key.now ≡ true }
        ensures some { result ≡ false → 0 < index }
        ensures above { result ≡ false → key_less (bytes_at self.now.bytes.now (entry_place self.now.key_length (index - 1)) self.now.key_length) key.now ≡ false }
    {
        if index == 0 {
            return true;
        }
        self.is_below(index - 1, key, number)
    }

    /// Whether the key of one of its entries is below another that has a number.
    fn is_below(&self, index: usize, key: &[u8], number: u64) -> bool
        requires index { index < entry_count self.now.key_length self.now.bytes.now }
        requires number { IsNumberOf self.now.key_length key.now number }
        requires eight { 4 ≤ self.now.key_length }
        ensures { result ≡ key_less (bytes_at self.now.bytes.now (entry_place self.now.key_length index) self.now.key_length) key.now }
    {
        is_number_below(self.bytes, self.place(index), self.key_length, key, number)
    }

    /// Looks for a key.
    pub fn look(&self, key: &[u8]) -> Seen
        ensures { IfInOrder self.now.key_length self.now.bytes.now (result ≡ seen_in self.now.key_length key.now self.now.bytes.now) }
    {
        let index = self.place_of(key);
        let next = if index < self.count() { 0 } else { self.next() };
        Seen { index, next }
    }
}

/// Which of the entries from one to before another is looked at next: the last two of all at first, else one in the middle.
fn middle_of(low: usize, high: usize, count: usize) -> usize
    requires { low < high }
    ensures { (low ≤ result) × (result < high) }
{
    if high >= count.saturating_sub(1) {
        high - 1
    } else {
        low + (high - low) / 2
    }
}
