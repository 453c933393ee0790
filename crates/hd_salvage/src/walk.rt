//! The way along the pointers from the roots that are kept: it proposes rows, and is told which of them were kept.

use crate::found::{Found, narrowed};
use crate::scan::push_fault;
use hd_check_blocks::Fault;
use hd_dbd::{Dbd, Refused};
use hd_image::Line;
use hd_prefix::Pointer;
use std::alloc::Global;

/// What is known of a record: whether its row was kept, and whether a way back along a chain came by it.
#[derive(Clone, Copy)]
struct Mark {
    is_kept: bool,
    is_passed: bool,
}

/// A row that was kept, whose dependents are looked for: its record; which of its child types are done; of the next, whether it is begun, the last
/// row that was kept, 0 for none, where the chain leads on, and whether it is read from its back, out of those that wait from a number on.
#[derive(Clone, Copy)]
struct Parent {
    number: u32,
    child: usize,
    is_begun: bool,
    last: u32,
    ahead: u32,
    is_back: bool,
    waiting: usize,
}

/// The way from the roots down, in hierarchic sequence.
#[derive(Drop)]
pub struct Walk {
    roots: Vec<u32>,
    next: usize,
    parents: Vec<Parent>,
    waiting: Vec<u32>,
    marks: Vec<Mark>,
}

/// What comes next of the children of a parent.
#[derive(Clone, Copy)]
enum Turn {
    /// A record is proposed.
    Proposes(u32),
    /// Look again.
    Again,
    /// The parent has no more.
    Ended,
}

impl Walk {
    /// The way from some roots down, among so many records.
    pub fn new(alloc: Global, roots: Vec<u32>, records: usize) -> Result<Walk, Refused> {
        let none = Mark {
            is_kept: false,
            is_passed: false,
        };
        let Ok(marks) = vec![in alloc; none; records] else {
            return Err(Refused::Memory);
        };
        Ok(Walk {
            roots,
            next: 0,
            parents: Vec::new(alloc),
            waiting: Vec::new(alloc),
            marks,
        })
    }

    /// Whether the row of a record was kept.
    pub fn is_kept(&self, number: usize) -> bool {
        match self.marks.get(number) {
            Some(mark) => mark.is_kept,
            None => true,
        }
    }

    /// Whether a way back came by a record.
    fn is_passed(&self, number: usize) -> bool {
        match self.marks.get(number) {
            Some(mark) => mark.is_passed,
            None => true,
        }
    }

    /// The next record whose row may be kept; `None` at the end.
    pub fn propose(
        &mut self,
        found: Found<'_>,
        faults: &mut Vec<Fault>,
        dbd: &Dbd,
    ) -> Result<Option<u32>, Refused> {
        for _turn in 0..u64::MAX {
            let Some(parent) = self.parents.pop() else {
                return Ok(self.next_root());
            };
            match self.turn(found, faults, dbd, parent)? {
                Turn::Proposes(number) => return Ok(Some(number)),
                Turn::Again | Turn::Ended => {}
            }
        }
        Ok(None)
    }

    /// The next root that is not kept.
    fn next_root(&mut self) -> Option<u32> {
        for place in self.next..self.roots.len() {
            self.next = place + 1;
            let number = self.roots.get(place).copied()?;
            if !self.is_kept(number as usize) {
                return Some(number);
            }
        }
        None
    }

    /// What comes next of the children of the last parent, which was taken off; it is put back unless it has no more.
    fn turn(
        &mut self,
        found: Found<'_>,
        faults: &mut Vec<Fault>,
        dbd: &Dbd,
        parent: Parent,
    ) -> Result<Turn, Refused> {
        let code = match found.records.get(parent.number as usize) {
            Some(record) => record.code,
            None => 0,
        };
        let Some(child) = dbd.children_of(code).get(parent.child).copied() else {
            return Ok(Turn::Ended);
        };
        let mut parent = parent;
        if !parent.is_begun {
            parent = Parent {
                is_begun: true,
                last: 0,
                ahead: found.pointer(dbd, parent.number as usize, Pointer::FirstChild(child)),
                is_back: false,
                ..parent
            };
        }
        let turn = if parent.is_back {
            self.back_turn(&mut parent)
        } else {
            self.forward_turn(found, faults, dbd, &mut parent, child)?
        };
        match self.parents.push(parent) {
            Ok(()) => Ok(turn),
            Err(_) => Err(Refused::Memory),
        }
    }

    /// What comes next of a chain that is read from its back: the next of those that wait, and behind them the next child type.
    fn back_turn(&mut self, parent: &mut Parent) -> Turn {
        if self.waiting.len() > parent.waiting {
            return match self.waiting.pop() {
                Some(number) if !self.is_kept(number as usize) => Turn::Proposes(number),
                _ => Turn::Again,
            };
        }
        parent.child = parent.child.saturating_add(1);
        parent.is_begun = false;
        Turn::Again
    }

    /// What comes next of a chain that is read from its front: where it leads to, or, where that is no row of it, the way from its back.
    fn forward_turn(
        &mut self,
        found: Found<'_>,
        faults: &mut Vec<Fault>,
        dbd: &Dbd,
        parent: &mut Parent,
        child: u8,
    ) -> Result<Turn, Refused> {
        match found.number_of(parent.ahead, child) {
            Some(number) if !self.is_kept(number) => Ok(Turn::Proposes(narrowed(number))),
            _ => {
                self.note_break(found, faults, parent, child)?;
                self.turn_back(found, dbd, parent, child)?;
                Ok(Turn::Again)
            }
        }
    }

    /// Notes that a chain leads to no row of its own.
    fn note_break(
        &self,
        found: Found<'_>,
        faults: &mut Vec<Fault>,
        parent: &Parent,
        child: u8,
    ) -> Result<(), Refused> {
        if parent.ahead == 0 {
            return Ok(());
        }
        let holder = match parent.last {
            0 => found.address_of(parent.number as usize),
            last => last,
        };
        let fault = match found.number_at(parent.ahead) {
            None => Fault::at(Line::NamesNothing, holder, parent.ahead),
            Some(_) => match found.number_of(parent.ahead, child) {
                None => Fault::at(Line::NamesAnother, holder, parent.ahead),
                Some(_) => Fault::at(Line::TwoPredecessors, parent.ahead, holder),
            },
        };
        push_fault(faults, fault)
    }

    /// Goes from the last child back to what was kept, where both are known; what is met waits, the first of them last. Where the chain came to its
    /// end from the front, that holds only if the way back comes to the last row that was kept.
    fn turn_back(
        &mut self,
        found: Found<'_>,
        dbd: &Dbd,
        parent: &mut Parent,
        child: u8,
    ) -> Result<(), Refused> {
        parent.is_back = true;
        parent.waiting = self.waiting.len();
        let mut address = found.pointer(dbd, parent.number as usize, Pointer::LastChild(child));
        for _turn in 0..found.records.len() {
            if address == parent.last {
                return Ok(());
            }
            let Some(number) = self.pass(found, address, child) else {
                break;
            };
            if self.waiting.push(narrowed(number)).is_err() {
                return Err(Refused::Memory);
            }
            address = found.pointer(dbd, number, Pointer::TwinBackward);
        }
        if parent.ahead == 0 && address != parent.last {
            self.waiting.truncate(parent.waiting);
        }
        Ok(())
    }

    /// The record of a type at an address, if its row is not kept and no way back came by it; now one has.
    fn pass(&mut self, found: Found<'_>, address: u32, child: u8) -> Option<usize> {
        let number = found.number_of(address, child)?;
        if self.is_kept(number) || self.is_passed(number) {
            return None;
        }
        if let Some(mark) = self.marks.get_mut(number) {
            mark.is_passed = true;
        }
        Some(number)
    }

    /// The row of the record that was proposed last was kept: its dependents come next.
    pub fn go_to(&mut self, found: Found<'_>, dbd: &Dbd, number: u32) -> Result<(), Refused> {
        if let Some(mark) = self.marks.get_mut(number as usize) {
            mark.is_kept = true;
        }
        if let Some(parent) = self.parents.last_mut() {
            parent.last = found.address_of(number as usize);
            parent.ahead = found.pointer(dbd, number as usize, Pointer::TwinForward);
        }
        let parent = Parent {
            number,
            child: 0,
            is_begun: false,
            last: 0,
            ahead: 0,
            is_back: false,
            waiting: 0,
        };
        match self.parents.push(parent) {
            Ok(()) => Ok(()),
            Err(_) => Err(Refused::Memory),
        }
    }

    /// The row of the record that was proposed last was not kept: its chain breaks before it.
    pub fn pass_over(
        &mut self,
        found: Found<'_>,
        faults: &mut Vec<Fault>,
        dbd: &Dbd,
        number: u32,
    ) -> Result<(), Refused> {
        let address = found.address_of(number as usize);
        let Some(parent) = self.parents.pop() else {
            return push_fault(faults, Fault::at(Line::OutOfOrder, address, 0));
        };
        push_fault(faults, Fault::at(Line::OutOfOrder, address, parent.last))?;
        let mut parent = parent;
        if !parent.is_back {
            let code = match found.records.get(number as usize) {
                Some(record) => record.code,
                None => 0,
            };
            self.turn_back(found, dbd, &mut parent, code)?;
        }
        match self.parents.push(parent) {
            Ok(()) => Ok(()),
            Err(_) => Err(Refused::Memory),
        }
    }
}
