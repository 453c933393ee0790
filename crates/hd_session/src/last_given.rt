ghost use Rattle.std.specs.Prelude.{◌≡◌, ◌≤◌, ◌<◌, length, Some, IfSome};
ghost use Rattle.hd_session.specs.LastGiven.{nothing_given, is_begun_by, AreNoted};
ghost use Rattle.hd_session.specs.Buffer.{KEY_ROOM};

use crate::buffer::KEY_ROOM;
use hd_forest::{Ahead, Path};
use std::alloc::Global;
use std::marker::Model;

/// What is known of the row that was given last. The rows above it, and their keys: where the next answer is of a row below them, they need not be read again.
/// And what a row names ahead of it: where a get goes on from there, that row need not be read again.
///
/// Room for the keys is made at once; where there was none, no rows above are ever noted.
#[derive(Drop)]
pub struct LastGiven {
    path: Path,
    keys: Vec<u8>,
    seen: Option<(u32, Ahead)>,
}

impl Model for LastGiven {
    ghost use Rattle.std.specs.Prelude.{◌≤◌, length};
    ghost use Rattle.hd_session.specs.LastGiven.{Given};
    ghost use Rattle.hd_session.specs.Buffer.{KEY_ROOM};

    ghost Value = { Given };

    ghost view = { λ k. record { path = k.path; keys = k.keys.items; seen = k.seen } };

    ghost invariant = { λ k. length k.keys.items ≤ KEY_ROOM };
}

impl LastGiven {
    /// No row is known.
    pub fn new(alloc: Global) -> LastGiven
        ensures { result ≡ nothing_given }
    {
        let keys = match Vec::with_capacity(alloc, KEY_ROOM) {
            Ok(keys) => keys,
            Err(_) => Vec::new(alloc),
        };
        LastGiven {
            path: Path::new(),
            keys,
            seen: None,
        }
    }

    /// The keys, root first.
    pub fn keys(&self) -> &[u8]
        ensures value { result.now ≡ self.now.keys }
        ensures short { length result.now ≤ KEY_ROOM }
    {
        &self.keys
    }

    /// The level of the last of the rows, 0 for no row.
    pub fn level(&self) -> u8
        ensures value { result ≡ length self.now.path }
        ensures few { result ≤ 15 }
    {
        self.path.level()
    }

    /// Whether a path begins with the rows, and goes on below them.
    pub fn begin(&self, path: &Path) -> bool
        ensures { result ≡ is_begun_by path.now self.now }
    {
        self.path.level() < path.level() && path.addresses().starts_with(self.path.addresses())
    }

    /// Forgets what is known.
    pub fn forget(&mut self)
        ensures { self.new ≡ nothing_given }
    {
        self.path.clear();
        self.keys.clear();
        self.seen = None;
    }

    /// What the row at an address names ahead of it, where that is known.
    pub fn ahead_of(&self, address: u32) -> Option<Ahead>
        ensures { IfSome result (λ ahead. (0 < address) × (self.now.seen ≡ Some (address, ahead))) }
    {
        match self.seen {
            Some((row, ahead)) if row == address && row > 0 => Some(ahead),
            _ => None,
        }
    }

    /// Notes what the row at an address names ahead of it.
    pub fn see(&mut self, address: u32, ahead: Ahead)
        ensures { self.new ≡ record self.old { seen = Some (address, ahead) } }
    {
        self.seen = Some((address, ahead));
    }

    /// Notes the rows above the last of a path, and their keys, where there is room. No memory is taken.
    pub fn note(&mut self, path: &Path, keys: &[u8])
        ensures { AreNoted path.now keys.now self.new }
    {
        self.forget();
        if keys.len() > KEY_ROOM || keys.len() > self.keys.capacity() {
            return;
        }
        if self.keys.extend_from_slice(keys).is_ok() {
            self.path = path.copy();
            self.path.up();
        }
    }
}
