//! The row that was kept last, and its parents.
ghost use Rattle.std.specs.Prelude.{◌≡◌, ◌-◌, [], ◌∷◌, ◌++◌, take, None, option_copied, option_map, slice_get, IfOk, OnOk, ◌==◌};
ghost use Rattle.std.specs.List.{list_any};
ghost use Rattle.hd_dbd.specs.Loads.{lacks_parent, load_fault};
ghost use Rattle.hd_dbd.specs.Rows.{next_path};
ghost use Rattle.hd_salvage.specs.Paths.{row_of};

use hd_changes::order_fault;
use hd_dbd::{Dbd, LoadFault};
use std::alloc::{AllocError, Global};
use std::marker::Model;

/// A row with bytes of its own.
#[derive(Drop)]
pub struct Row {
    pub code: u8,
    pub bytes: Vec<u8>,
}

/// The row that was kept last with its parents, root first.
#[derive(Drop)]
pub struct RowPath {
    rows: Vec<Row>,
}

impl Model for RowPath {
    ghost use Rattle.std.specs.Prelude.{List, map};
    ghost use Rattle.hd_dbd.specs.Segment.{Segment};
    ghost use Rattle.hd_salvage.specs.Paths.{row_of};

    ghost Value = { List Segment };

    ghost view = { λ p. map (λ r. row_of r) p.rows.items };
}

/// Whether one of some rows is of a type.
fn any_of_type(rows: &[Row], code: u8) -> bool
    ensures { result ≡ list_any (λ r. r.code == code) rows.now }
{
    for row in rows {
        if row.code == code {
            return true;
        }
    }
    false
}

/// The row of a place among some.
fn row_in(rows: &[Row], place: usize) -> Option<&Row>
    ensures { option_copied result ≡ slice_get rows.now place }
{
    rows.get(place)
}

/// A copy of some bytes.
fn copy_of(alloc: Global, bytes: &[u8]) -> Result<Vec<u8>, AllocError>
    ensures { IfOk result (λ copy. copy.items ≡ bytes.now) }
{
    let mut copy = Vec::new(alloc);
    copy.extend_from_slice(bytes)?;
    Ok(copy)
}

impl RowPath {
    /// The path before the first row.
    pub fn new(alloc: Global) -> RowPath
        ensures { result ≡ [] }
    {
        RowPath {
            rows: Vec::new(alloc),
        }
    }

    /// Whether a row on the path is of a type.
    fn has_type(&self, code: u8) -> bool
        ensures { result ≡ list_any (λ q. q.code == code) self.now }
    {
        any_of_type(&self.rows, code)
    }

    /// The row of a place on the path, root first, from 0.
    fn row(&self, place: usize) -> Option<&Row>
        ensures { option_map (λ r. row_of r) (option_copied result) ≡ slice_get self.now place }
    {
        row_in(&self.rows, place)
    }

    /// Whether the parent type of a type is not on the path.
    fn lacks_parent(&self, dbd: &Dbd, code: u8) -> bool
        ensures { result ≡ lacks_parent dbd.now.types self.now (record { code = code; bytes = [] }) }
    {
        match dbd.parent_of(code) {
            None => false,
            Some(parent) => !self.has_type(parent),
        }
    }

    /// Why a row may not come behind the last, if there is a reason.
    pub fn fault_of(&self, dbd: &Dbd, code: u8, bytes: &[u8]) -> Option<LoadFault>
        ensures { result ≡ load_fault dbd.now.types self.now (record { code = code; bytes = bytes.now }) }
    {
        if self.lacks_parent(dbd, code) {
            return Some(LoadFault::LD);
        }
        let place = (dbd.level(code) as usize).saturating_sub(1);
        match self.row(place) {
            None => None,
            Some(before) => order_fault(dbd, before.code, &before.bytes, code, bytes),
        }
    }

    /// Goes on to a row.
    pub fn step(
        &mut self,
        alloc: Global,
        dbd: &Dbd,
        code: u8,
        bytes: &[u8],
    ) -> Result<(), AllocError>
        ensures { OnOk result (self.new ≡ next_path dbd.now.types self.old (record { code = code; bytes = bytes.now })) }
    {
        let bytes = copy_of(alloc, bytes)?;
        let above = (dbd.level(code) as usize).saturating_sub(1);
        self.rows.truncate(above);
        self.rows.push(Row { code, bytes })?;
        Ok(())
    }
}
