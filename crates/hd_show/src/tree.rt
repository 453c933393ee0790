//! The hierarchy of a database's types: the way through it, and its branches.

ghost use Rattle.std.specs.Iterator.{at_most};

use crate::ink::Ink;
use hd_dbd::Dbd;
use std::io::Write;

/// The most levels that a database has.
const LEVELS: usize = 15;

/// The next type below the same parent, if there is one.
fn later_sibling(dbd: &Dbd, code: u8) -> Option<u8> {
    let parent = dbd.parent_of(code)?;
    for child in dbd.children_of(parent) {
        if *child > code {
            return Some(*child);
        }
    }
    None
}

/// The codes of a database's types in hierarchic order: each type stands behind its parent, with all that is below it.
#[derive(Drop)]
pub struct Order<'a> {
    dbd: &'a Dbd,
    next: Option<u8>,
    left: usize,
}

impl<'a> Order<'a> {
    /// All types of a database.
    pub fn of(dbd: &'a Dbd) -> Order<'a> {
        Order {
            dbd,
            next: Some(1),
            left: dbd.types().len(),
        }
    }
}

impl<'a> Iterator for Order<'a> {
    type Item = u8;

    ghost remaining = { λ s. at_most s.left };

    fn next(&mut self) -> Option<u8> {
        if self.left == 0 {
            return None;
        }
        let code = self.next?;
        self.left -= 1;
        self.next = next_type(self.dbd, code);
        Some(code)
    }
}

/// The type behind a type in hierarchic order.
fn next_type(dbd: &Dbd, code: u8) -> Option<u8> {
    if let Some(child) = dbd.children_of(code).first() {
        return Some(*child);
    }
    let mut below = code;
    for _level in 0..LEVELS {
        let next = later_sibling(dbd, below);
        if next.is_some() {
            return next;
        }
        below = dbd.parent_of(below)?;
    }
    None
}

/// The type on a level that a type stands below, or that it is.
fn type_above(dbd: &Dbd, code: u8, level: u8) -> u8 {
    let mut above = code;
    for _level in level..dbd.level(code) {
        above = dbd.parent_of(above).unwrap_or(above);
    }
    above
}

/// Writes the branches that pass a type on the levels below the first, up to one, to its later siblings.
fn put_passing<W: Write>(dbd: &Dbd, code: u8, last: u8, ink: &mut Ink<'_, W>) {
    for level in 2..=last {
        let passes = later_sibling(dbd, type_above(dbd, code, level)).is_some();
        ink.put(if passes { b"|  " } else { b"   " });
    }
}

/// Writes the branches that lead to a type: three columns a level below the first.
pub fn put_branches<W: Write>(dbd: &Dbd, code: u8, ink: &mut Ink<'_, W>) {
    let own = dbd.level(code);
    if own >= 2 {
        put_passing(dbd, code, own - 1, ink);
        ink.put(b"+- ");
    }
}

/// Writes the branches that pass a further line of a type, padded to a width.
pub fn put_passing_all<W: Write>(dbd: &Dbd, code: u8, width: usize, ink: &mut Ink<'_, W>) {
    let own = dbd.level(code);
    put_passing(dbd, code, own, ink);
    let is_leaf = dbd.children_of(code).is_empty();
    ink.put(if is_leaf { b" " } else { b"|" });
    ink.blanks(width.saturating_sub(branch_width(own).saturating_add(1)));
}

/// The columns of the branches that lead to a type of a level.
pub fn branch_width(level: u8) -> usize {
    3 * (level as usize).saturating_sub(1)
}
