ghost use Rattle.std.specs.Prelude.{◌≡◌, ◌<◌, ◌≤◌, [], ◌∷◌, ◌++◌, length, nat_le};
ghost use Rattle.std.specs.List.{list_any};

use std::marker::Model;

/// Levels on a path, at most 15: those of the held rows.
#[derive(Debug, Drop)]
pub struct Levels {
    levels: [u8; 15],
    count: usize,
}

impl Model for Levels {
    ghost use Rattle.std.specs.Prelude.{ℕ, List, take, ◌≤◌};

    ghost Value = { List ℕ };

    ghost view = { λ v. take v.count v.levels };

    ghost invariant = { λ v. v.count ≤ 15 };
}

impl Levels {
    /// No level.
    pub fn new() -> Levels
        ensures { result ≡ [] }
    {
        Levels {
            levels: [0; 15],
            count: 0,
        }
    }

    /// The same levels.
    pub fn copy(&self) -> Levels
        ensures { result ≡ self.now }
    {
        Levels {
            levels: self.levels,
            count: self.count,
        }
    }

    /// The levels; at most 15.
    pub fn as_slice(&self) -> &[u8]
        ensures value { result.now ≡ self.now }
        ensures few { length self.now ≤ 15 }
    {
        &self.levels[..self.count]
    }

    /// Adds a level behind the others. There is room for 15; one more takes the place of the last.
    pub fn push(&mut self, level: u8)
        ensures { length self.old < 15 → self.new ≡ self.old ++ level ∷ [] }
    {
        let kept = self.count.min(14);
        self.levels[kept] = level;
        self.count = kept + 1;
    }

    /// Whether a level is this one or below it.
    pub fn reach(&self, level: u8) -> bool
        ensures { result ≡ list_any (λ l. nat_le level l) self.now }
    {
        self.as_slice().iter().any(|own| *own >= level)
    }
}
