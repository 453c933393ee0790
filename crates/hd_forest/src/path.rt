ghost use Rattle.std.specs.Prelude.{◌≡◌, ◌-◌, ◌≤◌, ◌<◌, [], ◌∷◌, ◌++◌, length, map, take};
ghost use Rattle.hd_links.specs.Moves.{moved_to};

use std::marker::Model;

/// The most levels of a database.
const MOST_LEVELS: usize = 15;

/// The addresses of a row and its parents, root first; none before the first row and behind the last.
#[derive(Clone, Debug, Drop)]
pub struct Path {
    addresses: [u32; 15],
    count: usize,
}

impl Model for Path {
    ghost use Rattle.std.specs.Prelude.{ℕ, List, take, ◌≤◌};

    ghost Value = { List ℕ };

    ghost view = { λ p. take p.count p.addresses };

    ghost invariant = { λ p. p.count ≤ 15 };
}

impl Path {
    /// The path of no row.
    pub fn new() -> Path
        ensures { result ≡ [] }
    {
        Path {
            addresses: [0; 15],
            count: 0,
        }
    }

    /// The addresses, root first; at most 15.
    pub fn addresses(&self) -> &[u32]
        ensures value { result.now ≡ self.now }
        ensures few { length self.now ≤ 15 }
    {
        &self.addresses[..self.count]
    }

    /// The level of the last row, 0 for no row: how many rows are on the path.
    pub fn level(&self) -> u8
        ensures value { result ≡ length self.now }
        ensures few { result ≤ 15 }
    {
        self.count as u8
    }

    /// The same path once more. No memory is taken.
    pub fn copy(&self) -> Path
        ensures { result ≡ self.now }
    {
        Path {
            addresses: self.addresses,
            count: self.count,
        }
    }

    /// Goes to no row.
    pub fn clear(&mut self)
        ensures { self.new ≡ [] }
    {
        self.count = 0;
    }

    /// Goes to a row of a level, from 1 to 15: what is above the level stays.
    pub fn step(&mut self, level: u8, address: u32)
        requires { level ≤ 15 }
        ensures { self.new ≡ take (level - 1) self.old ++ address ∷ [] }
    {
        let kept = (level as usize).saturating_sub(1).min(self.count);
        self.addresses[kept] = address;
        self.count = kept + 1;
    }

    /// Goes to a row just below the row of a level: the rows down to that level stay. A path has at most 15.
    pub fn step_below(&mut self, level: u8, address: u32)
        ensures { level < 15 → self.new ≡ take level self.old ++ address ∷ [] }
    {
        let kept = (level as usize).min(self.count).min(MOST_LEVELS - 1);
        self.addresses[kept] = address;
        self.count = kept + 1;
    }

    /// Goes down to a row below the last; at most 15 are kept.
    pub fn push(&mut self, address: u32)
        ensures { length self.old < 15 → self.new ≡ self.old ++ address ∷ [] }
    {
        let kept = self.count.min(MOST_LEVELS - 1);
        self.addresses[kept] = address;
        self.count = kept + 1;
    }

    /// Goes up to the row above the last.
    pub fn up(&mut self)
        ensures value { self.new ≡ take (length self.old - 1) self.old }
        ensures few { length self.new < 15 }
    {
        self.count = self.count.saturating_sub(1);
    }

    /// Names the row at an address by another, to which it moved.
    pub fn move_row(&mut self, from: u32, to: u32)
        ensures { self.new ≡ map (λ x. moved_to from to x) self.old }
    {
        for own in self.addresses.iter_mut() {
            if *own == from {
                *own = to;
            }
        }
    }
}
