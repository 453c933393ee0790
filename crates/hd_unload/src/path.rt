ghost use Rattle.std.specs.Prelude.{◌≡◌, ◌-◌, ◌≤◌, ◌<◌, [], ◌∷◌, ◌++◌, ◌==◌, length, take, option_map, slice_get};
ghost use Rattle.std.specs.List.{list_any};
ghost use Rattle.hd_links.specs.LastRows.{segments_of};
ghost use Rattle.hd_unload.specs.Paths.{placed_of};

use std::marker::Model;

/// A row that was loaded: its address in the volume, its code, and its bytes where they lie in the stream.
#[derive(Clone, Copy)]
pub struct Loaded<'a> {
    pub address: u32,
    pub code: u8,
    pub bytes: &'a [u8],
}

/// The row loaded last and its parents, root first.
#[derive(Drop)]
pub struct LoadPath<'a> {
    rows: [Loaded<'a>; 15],
    count: usize,
}

impl<'a> Model for LoadPath<'a> {
    ghost use Rattle.std.specs.Prelude.{List, take, map, length, ◌≤◌, ◌≡◌};
    ghost use Rattle.hd_links.specs.Placed.{Placed};
    ghost use Rattle.hd_unload.specs.Paths.{placed_of};

    ghost Value = { List Placed };

    ghost view = { λ p. map (λ r. placed_of r) (take p.count p.rows) };

    ghost invariant = { λ p. (p.count ≤ 15) × (length p.rows ≡ 15) };
}

/// Whether one of some rows is of a type.
fn any_of_type(rows: &[Loaded<'_>], code: u8) -> bool
    ensures { result ≡ list_any (λ r. r.code == code) rows.now }
{
    for row in rows {
        if row.code == code {
            return true;
        }
    }
    false
}

impl<'a> LoadPath<'a> {
    /// The path before the first row.
    pub fn new() -> LoadPath<'a>
        ensures { result ≡ [] }
    {
        LoadPath {
            rows: [Loaded {
                address: 0,
                code: 0,
                bytes: &[],
            }; 15],
            count: 0,
        }
    }

    /// The row of a place on the path, root first, from 0.
    pub fn row(&self, place: usize) -> Option<Loaded<'a>>
        ensures { option_map placed_of result ≡ slice_get self.now place }
    {
        if place < self.count {
            Some(self.rows[place])
        } else {
            None
        }
    }

    /// Whether a row on the path is of a type.
    pub fn has_type(&self, code: u8) -> bool
        ensures { result ≡ list_any (λ q. q.code == code) (segments_of self.now) }
    {
        any_of_type(&self.rows[..self.count], code)
    }

    /// Goes to a row of a level, from 1 to 15: what is above the level stays.
    pub fn step(&mut self, level: u8, row: Loaded<'a>)
        requires { (0 < level) × (level ≤ 15) }
        ensures { self.new ≡ take (level - 1) self.old ++ placed_of row.entry ∷ [] }
    {
        let kept = (level as usize - 1).min(self.count);
        self.rows[kept] = row;
        self.count = kept + 1;
    }
}
