//! What a scan of a volume finds.
use crate::record::Record;
use hd_dbd::Dbd;
use hd_prefix::{Layout, Pointer};
use std::alloc::Global;

/// What a scan notes beside the segments, in flat tables: the pointers of their prefixes; where each block's segments begin among all; the roots,
/// and their keys one behind the other; the entries of the lowest level of the index, and their keys; and the blocks that the index names as its own.
#[derive(Drop)]
pub struct Tables {
    pub pointers: Vec<u32>,
    pub firsts: Vec<u32>,
    pub roots: Vec<u32>,
    pub root_keys: Vec<u8>,
    pub entries: Vec<Entry>,
    pub entry_keys: Vec<u8>,
    pub names: Vec<u32>,
    pub block_size: u32,
    pub key_length: usize,
}

/// An entry of the index: the block that it stands in, and the address that it names.
#[derive(Clone, Copy)]
pub struct Entry {
    pub block: u32,
    pub address: u32,
}

impl Tables {
    /// Nothing yet, of a volume of blocks of a size whose roots have keys of a length.
    pub fn new(alloc: Global, block_size: u32, key_length: usize) -> Tables {
        Tables {
            pointers: Vec::new(alloc),
            firsts: Vec::new(alloc),
            roots: Vec::new(alloc),
            root_keys: Vec::new(alloc),
            entries: Vec::new(alloc),
            entry_keys: Vec::new(alloc),
            names: Vec::new(alloc),
            block_size,
            key_length,
        }
    }
}

/// The segments that a scan found, by address, and what it noted beside them.
#[derive(Clone, Copy)]
pub struct Found<'a> {
    pub records: &'a [Record],
    pub tables: &'a Tables,
}

impl<'a> Found<'a> {
    /// The address of a record; 0 for none.
    pub fn address_of(&self, number: usize) -> u32 {
        match self.records.get(number) {
            Some(record) => record
                .block
                .wrapping_mul(self.tables.block_size)
                .wrapping_add(u32::from(record.place)),
            None => 0,
        }
    }

    /// The number of the record of a type at an address, if one was read there.
    pub fn number_of(&self, address: u32, code: u8) -> Option<usize> {
        let number = self.number_at(address)?;
        let record = self.records.get(number)?;
        if record.code == code {
            Some(number)
        } else {
            None
        }
    }

    /// The number of the record at an address, if one was read there.
    pub fn number_at(&self, address: u32) -> Option<usize> {
        let block = address.checked_div(self.tables.block_size)? as usize;
        let place = address.wrapping_sub((block as u32).wrapping_mul(self.tables.block_size));
        let mut low = *self.tables.firsts.get(block)? as usize;
        let mut high = match self.tables.firsts.get(block.saturating_add(1)) {
            Some(next) => *next as usize,
            None => self.records.len(),
        };
        while low < high {
            let middle = low + (high - low) / 2;
            let at = u32::from(self.records.get(middle)?.place);
            if at == place {
                return Some(middle);
            }
            if at < place {
                low = middle + 1;
            } else {
                high = middle;
            }
        }
        None
    }

    /// The address in a pointer of a record; 0 for none.
    pub fn pointer(&self, dbd: &Dbd, number: usize, pointer: Pointer) -> u32 {
        let Some(record) = self.records.get(number) else {
            return 0;
        };
        let Some(place) = Layout::of(dbd, record.code).place_of(pointer) else {
            return 0;
        };
        let at = (record.pointers as usize).saturating_add(place as usize / 4);
        self.tables.pointers.get(at).copied().unwrap_or(0)
    }

    /// The key of a root, by its number among the roots.
    pub fn root_key(&self, ordinal: usize) -> &'a [u8] {
        key_at(&self.tables.root_keys, ordinal, self.tables.key_length)
    }

    /// The key of an entry of the index, by its number among the entries.
    pub fn entry_key(&self, ordinal: usize) -> &'a [u8] {
        key_at(&self.tables.entry_keys, ordinal, self.tables.key_length)
    }

    /// The number among the roots of a record.
    pub fn ordinal_of(&self, number: usize) -> Option<usize> {
        self.tables.roots.binary_search(&narrowed(number)).ok()
    }
}

/// A count of segments or of pointers, or a number among them, which are fewer than 2 to the 32.
pub fn narrowed(count: usize) -> u32 {
    count.min(u32::MAX as usize) as u32
}

/// The key of a number among keys of a length that stand one behind the other.
fn key_at(keys: &[u8], ordinal: usize, length: usize) -> &[u8] {
    let start = ordinal.saturating_mul(length).min(keys.len());
    let end = start.saturating_add(length).min(keys.len());
    &keys[start..end]
}
