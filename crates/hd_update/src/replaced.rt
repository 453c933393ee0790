ghost use Rattle.std.specs.Prelude.{◌≡◌, ◌<◌, ◌≤◌, [], ◌∷◌, ◌++◌, length};

use std::marker::Model;

/// A row that got new bytes: the address where it stood, and that where it stands then.
#[derive(Clone, Copy, Debug)]
pub struct ReplacedRow {
    pub from: u32,
    pub to: u32,
}

/// Rows of one path that got new bytes, root first; at most 15.
#[derive(Debug, Drop)]
pub struct ReplacedRows {
    rows: [ReplacedRow; 15],
    count: usize,
}

impl Model for ReplacedRows {
    ghost use Rattle.std.specs.Prelude.{List, take, ◌≤◌};
    ghost use Rattle.hd_update.specs.declared.replaced.ReplacedRow.{ReplacedRow};

    ghost Value = { List ReplacedRow };

    ghost view = { λ v. take v.count v.rows };

    ghost invariant = { λ v. v.count ≤ 15 };
}

impl ReplacedRows {
    /// No row.
    pub fn new() -> ReplacedRows
        ensures { result ≡ [] }
    {
        ReplacedRows {
            rows: [ReplacedRow { from: 0, to: 0 }; 15],
            count: 0,
        }
    }

    /// The rows; at most 15.
    pub fn as_slice(&self) -> &[ReplacedRow]
        ensures value { result.now ≡ self.now }
        ensures few { length self.now ≤ 15 }
    {
        &self.rows[..self.count]
    }

    /// Adds a row behind the others. There is room for 15; one more takes the place of the last.
    pub fn push(&mut self, row: ReplacedRow)
        ensures { length self.old < 15 → self.new ≡ self.old ++ row ∷ [] }
    {
        let kept = self.count.min(14);
        self.rows[kept] = row;
        self.count = kept + 1;
    }
}
