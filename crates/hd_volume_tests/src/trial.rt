//! A volume of a database over a store of which no contract speaks.
ghost use Rattle.std.specs.Prelude.{◌≡◌, ◌≤◌, ◌<◌, length, true, false};
ghost use Rattle.hd_dbd.specs.Facts.{stored_sizes};
ghost use Rattle.hd_block.specs.Sizes.{size_at};

use crate::stores::TestStore;
use hd_dbd::{Dbd, Refused};
use hd_forest::{Path, link, replace};
use hd_index::{growth, insert};
use hd_index_blocks::root_key_length;
use hd_volume::Volume;
use std::alloc::Global;

/// A volume of a database over such a store.
#[derive(Drop)]
pub struct Trial<'a> {
    pub volume: Volume<TestStore>,
    pub dbd: &'a Dbd,
    ghost unsound: { volume.is_sound ≡ false },
    ghost size: { volume.size ≡ dbd.now.block_size },
    ghost sizes: { volume.sizes ≡ stored_sizes dbd.now.types },
}

/// A segment has its type's size, where no type's segments vary in length.
fn is_whole(dbd: &Dbd, bytes: &[u8]) -> bool
    ensures { result ≡ true → (0 < length bytes.now) × (size_at (stored_sizes dbd.now.types) bytes.now 0 ≡ length bytes.now) }
{
    if dbd.some_vary() {
        return false;
    }
    if bytes.is_empty() {
        return false;
    }
    bytes.len() == dbd.stored_size(bytes[0]) as usize
}

impl<'a> Trial<'a> {
    /// The volume that these bytes are, or a new one of so many blocks at most where there are none, whose store fails the access behind so many.
    /// A refusal gives the bytes back, and how many accesses came.
    pub fn over(
        alloc: Global,
        dbd: &'a Dbd,
        bytes: Vec<u8>,
        largest: u32,
        passes: u64,
    ) -> Result<Trial<'a>, (Vec<u8>, u64, Refused)>
        requires { (0 < largest) × (largest ≤ 65536) }
    {
        let is_new = bytes.is_empty();
        let store = TestStore::new(dbd.block_size() as usize, bytes, passes);
        let (store, refused) = if is_new {
            match Volume::create(alloc, store, dbd, largest) {
                Ok(volume) => return Ok(Trial { volume, dbd }),
                Err(given) => given,
            }
        } else {
            match Volume::load(alloc, store, dbd) {
                Ok(volume) => return Ok(Trial { volume, dbd }),
                Err(given) => given,
            }
        };
        Err((store.bytes, store.accesses, refused))
    }

    /// The bytes of the store, and how many accesses came to it.
    pub fn close(self) -> (Vec<u8>, u64) {
        let Trial { volume, dbd: _ } = self;
        let store = volume.into_store();
        (store.bytes, store.accesses)
    }

    /// Puts a segment of its type's size, or writes it over the one at an address; `Area` says that it has another.
    pub fn put(&mut self, address: Option<u32>, bytes: &[u8]) -> Result<u32, Refused> {
        if !is_whole(self.dbd, bytes) {
            return Err(Refused::Area);
        }
        match address {
            Some(address) => self.volume.rewrite(address, bytes),
            None => self.volume.put(bytes),
        }
    }

    /// Links a row; `Area` says that it does not fit its type.
    pub fn link(
        &mut self,
        parent: u32,
        after: u32,
        code: u8,
        bytes: &[u8],
    ) -> Result<u32, Refused> {
        if !self.dbd.row_fits(code, bytes) {
            return Err(Refused::Area);
        }
        link(&mut self.volume, self.dbd, parent, after, code, bytes)
    }

    /// Gives the last row of a path other bytes, and says where it then stands; `Area` says that they do not fit its type.
    pub fn replace(&mut self, path: &Path, code: u8, bytes: &[u8]) -> Result<u32, Refused> {
        if !self.dbd.row_fits(code, bytes) {
            return Err(Refused::Area);
        }
        replace(&mut self.volume, self.dbd, path, code, bytes)
    }

    /// Enters a key into the root index, once there is room; `Area` says that it has not the length of the roots' keys.
    pub fn enter(&mut self, key: &[u8], address: u32) -> Result<(), Refused> {
        if key.len() != root_key_length(self.dbd) {
            return Err(Refused::Area);
        }
        let blocks = growth(&self.volume);
        self.volume.reserve(blocks)?;
        insert(&mut self.volume, self.dbd, key, address)
    }
}
