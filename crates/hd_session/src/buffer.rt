ghost use Rattle.std.specs.Prelude.{◌≡◌, ◌+◌, ◌≤◌, [], ◌++◌, length, IfOk};
ghost use Rattle.hd_dbd.specs.Hierarchy.{longest_path};
ghost use Rattle.hd_session.specs.Buffer.{Buffer, KEY_ROOM};

use hd_dbd::Dbd;
use std::alloc::{AllocError, Global};
use std::marker::Model;

/// The bytes of a key of 255 bytes on each of 15 levels, and of one more.
pub(crate) const KEY_ROOM: usize = 4080;

/// The bytes of an answer: the concatenated key and the area. Their room is made before the first call.
#[derive(Debug, Drop)]
pub struct IoArea {
    key: Vec<u8>,
    key_end: usize,
    area: Vec<u8>,
    area_end: usize,
}

impl Model for IoArea {
    ghost use Rattle.std.specs.Prelude.{◌≡◌, ◌≤◌, length, take};
    ghost use Rattle.hd_session.specs.Buffer.{Buffer, KEY_ROOM};

    ghost Value = { Buffer };

    ghost view = { λ b. record { key = take b.key_end b.key.items; area = take b.area_end b.area.items; room = length b.area.items } };

    ghost invariant = { λ b. (length b.key.items ≡ KEY_ROOM) × (b.key_end ≤ KEY_ROOM) × (b.area_end ≤ length b.area.items) };
}

impl IoArea {
    /// An empty area with room for the longest path of the database and its key.
    pub fn new(alloc: Global, dbd: &Dbd) -> Result<IoArea, AllocError>
        ensures { IfOk result (λ b. b ≡ record { key = []; area = []; room = longest_path dbd.now.types }) }
    {
        let key = vec![in alloc; 0; KEY_ROOM]?;
        let area = vec![in alloc; 0; dbd.longest_path()]?;
        Ok(IoArea {
            key,
            key_end: 0,
            area,
            area_end: 0,
        })
    }

    /// The keys on the path of the segment given, root first.
    pub fn key(&self) -> &[u8]
        ensures { result.now ≡ self.now.key }
    {
        &self.key[..self.key_end]
    }

    /// The bytes of the segments given.
    pub fn area(&self) -> &[u8]
        ensures { result.now ≡ self.now.area }
    {
        &self.area[..self.area_end]
    }

    /// Empties key and area.
    pub(crate) fn clear(&mut self)
        ensures { self.new ≡ record { key = []; area = []; room = self.old.room } }
    {
        self.key_end = 0;
        self.area_end = 0;
    }

    /// Adds to the key.
    pub(crate) fn push_key(&mut self, bytes: &[u8])
        requires { length self.old.key + length bytes.now ≤ KEY_ROOM }
        ensures { self.new ≡ record self.old { key = self.old.key ++ bytes.now } }
    {
        let end = self.key_end + bytes.len();
        self.key[self.key_end..end].copy_from_slice(bytes);
        self.key_end = end;
    }

    /// Adds to the key, where there is room.
    pub(crate) fn add_key(&mut self, bytes: &[u8])
        ensures added { length self.old.key + length bytes.now ≤ KEY_ROOM → self.new ≡ record self.old { key = self.old.key ++ bytes.now } }
        ensures same_room { self.new.room ≡ self.old.room }
    {
        if bytes.len() <= KEY_ROOM - self.key_end {
            self.push_key(bytes);
        }
    }

    /// Adds to the area, where there is room.
    pub(crate) fn add_area(&mut self, bytes: &[u8])
        ensures added { length self.old.area + length bytes.now ≤ self.old.room → self.new ≡ record self.old { area = self.old.area ++ bytes.now } }
        ensures same_room { self.new.room ≡ self.old.room }
    {
        if bytes.len() <= self.area.len() - self.area_end {
            self.push_area(bytes);
        }
    }

    /// Adds to the area.
    pub(crate) fn push_area(&mut self, bytes: &[u8])
        requires { length self.old.area + length bytes.now ≤ self.old.room }
        ensures { self.new ≡ record self.old { area = self.old.area ++ bytes.now } }
    {
        let end = self.area_end + bytes.len();
        self.area[self.area_end..end].copy_from_slice(bytes);
        self.area_end = end;
    }
}
