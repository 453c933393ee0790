ghost use Rattle.std.specs.Prelude.{◌≡◌, ◌≤◌, ◌-◌, ◌++◌, ◌∷◌, [], take, option_map};
ghost use Rattle.hd_position.specs.Kept.{kept_start, row_on, without_hold, is_held, after_rewrite, is_on, without_level, without_row, moved_row};
ghost use Rattle.hd_position.specs.LastTypes.{place_of};
ghost use Rattle.hd_position.specs.Standing.{standing_on};
ghost use Rattle.hd_position.specs.Behind.{standing_alone};

use crate::levels::Levels;
use hd_calls::GetKind;
use hd_forest::Path;
use std::marker::Model;

/// The level and the code of the type of the row that a PCB's call last returned or inserted.
#[derive(Clone, Copy, Debug, PartialEq, Eq)]
pub struct LastType {
    pub level: u8,
    pub code: u8,
}

/// Where a PCB is in a volume: the path of the last row passed, by addresses; on it, by their levels, the row on which it stands
/// and its parentage row, 0 for none, and the rows that it holds; and the type of the row last returned or inserted.
#[derive(Debug, Drop)]
pub struct Position {
    path: Path,
    standing: u8,
    last: Option<LastType>,
    parent: u8,
    held: Levels,
}

impl Model for Position {
    ghost use Rattle.std.specs.Prelude.{option_map};
    ghost use Rattle.hd_position.specs.Kept.{Kept};
    ghost use Rattle.hd_position.specs.LastTypes.{place_of};

    ghost Value = { Kept };

    ghost view = { λ p. record { path = p.path; standing = p.standing; last = option_map place_of p.last; parent = p.parent; held = p.held } };
}

/// The address on a path at a level, from 1 on for the root; none at level 0 and below the last row.
pub fn row_on(path: &Path, level: u8) -> Option<u32>
    ensures { result ≡ row_on path.now level }
{
    let place = (level as usize).checked_sub(1)?;
    path.addresses().get(place).copied()
}

impl Position {
    /// Before all rows.
    pub fn start() -> Position
        ensures { result ≡ kept_start }
    {
        Position {
            path: Path::new(),
            standing: 0,
            last: None,
            parent: 0,
            held: Levels::new(),
        }
    }

    /// The same place.
    pub fn copy(&self) -> Position
        ensures { result ≡ self.now }
    {
        Position {
            path: self.path.copy(),
            standing: self.standing,
            last: self.last,
            parent: self.parent,
            held: self.held.copy(),
        }
    }

    /// The path of the last row passed, empty before all rows.
    pub fn path(&self) -> &Path
        ensures { result.now ≡ self.now.path }
    {
        &self.path
    }

    /// The level on the path of the row on which the PCB stands, 0 for none.
    pub fn standing(&self) -> u8
        ensures { result ≡ self.now.standing }
    {
        self.standing
    }

    /// The type of the row last returned or inserted.
    pub fn last(&self) -> Option<LastType>
        ensures { option_map place_of result ≡ self.now.last }
    {
        self.last
    }

    /// The level on the path of the parentage row, 0 for none.
    pub fn parent(&self) -> u8
        ensures { result ≡ self.now.parent }
    {
        self.parent
    }

    /// The levels on the path of the held rows, ascending.
    pub fn held(&self) -> &Levels
        ensures { result.now ≡ self.now.held }
    {
        &self.held
    }

    /// Whether one of the held rows stands at an address.
    pub fn holds(&self, address: u32) -> bool
        ensures { result ≡ is_held self.now address }
    {
        let path = &self.path;
        self.held
            .as_slice()
            .iter()
            .any(|level| row_on(path, *level) == Some(address))
    }

    /// Ends the hold, as the next call of the PCB does.
    pub fn unhold(&mut self)
        ensures { self.new ≡ without_hold self.old }
    {
        self.held = Levels::new();
    }

    /// Ends a hold of the row at an address, which got new bytes by another PCB's call.
    pub fn end_hold_of(&mut self, address: u32)
        ensures { self.new ≡ after_rewrite address self.old }
    {
        if self.holds(address) {
            self.unhold();
        }
    }

    /// Stands on the last row of a path, of a type, as a get of a kind leaves it, with the rows of some levels held.
    pub(crate) fn stand_on(&mut self, path: Path, last: LastType, kind: GetKind, held: Levels)
        ensures { self.new ≡ standing_on kind self.old path (place_of last) held }
    {
        let level = path.level();
        self.path = path;
        self.standing = level;
        self.last = Some(last);
        if kind != GetKind::NextInParent {
            self.parent = level;
        }
        self.held = held;
    }

    /// Stands on a row at an address, of a type, just behind the rows passed, as a get of a kind leaves it, and holds it where that is said.
    pub(crate) fn stand_behind(&mut self, address: u32, last: LastType, kind: GetKind, hold: bool)
        requires { last.level ≤ 15 }
        ensures { self.new ≡ standing_alone kind self.old (take (last.level - 1) self.old.path ++ address ∷ []) (place_of last) hold }
    {
        self.path.step(last.level, address);
        let level = self.path.level();
        self.standing = level;
        self.last = Some(last);
        if kind != GetKind::NextInParent {
            self.parent = level;
        }
        self.held = Levels::new();
        if hold {
            self.held.push(level);
        }
    }

    /// Whether the row at an address is the last one passed or one of its parents.
    fn is_below(&self, address: u32) -> bool
        ensures { result ≡ is_on self.now.path address }
    {
        self.path.addresses().iter().any(|own| *own == address)
    }

    /// Goes back to a path, from below a row of a level from 1 on that is on the own path.
    fn leave_level(&mut self, level: u8, before: &Path)
        ensures { self.new ≡ without_level level before.now self.old }
    {
        self.path = before.copy();
        if self.standing >= level {
            self.standing = level.saturating_sub(1);
        }
        if self.parent >= level {
            self.parent = 0;
        }
        if self.held.reach(level) {
            self.held = Levels::new();
        }
    }

    /// The span of the row at an address, of a level from 1 on, was taken out: a PCB that has the row on its path goes back to the
    /// row before it, whose path is given.
    pub fn leave_span(&mut self, address: u32, level: u8, before: &Path)
        ensures { self.new ≡ without_row address level before.now self.old }
    {
        if self.is_below(address) {
            self.leave_level(level, before);
        }
    }

    /// The row at an address moved to another: the path names it there.
    pub fn move_row(&mut self, from: u32, to: u32)
        ensures { self.new ≡ moved_row from to self.old }
    {
        self.path.move_row(from, to);
    }
}
