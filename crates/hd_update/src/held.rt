ghost use Rattle.std.specs.Prelude.{◌≡◌, ◌<◌, ◌≤◌, [], ◌∷◌, ◌++◌, length, IsTrue, IfOk};
ghost use Rattle.hd_dbd.specs.Refusals.{OnlyDevice};
ghost use Rattle.hd_volume.specs.Calls.{IsRead};
ghost use Rattle.hd_prefix.specs.Fields.{code_of, IsWhole};
ghost use Rattle.hd_image.specs.Records.{links_of};
ghost use Rattle.hd_get.specs.Gets.{HasPosition};
ghost use Rattle.hd_get.specs.Meeting.{IsStored};
ghost use Rattle.hd_get.specs.Searches.{IsOf};
ghost use Rattle.hd_update.specs.Held.{HasRowAt, IsRowAt, AreHeld, row_in_segment, row_stored};

use hd_dbd::{Dbd, Refused};
use hd_forest::{Path, bytes_in};
use hd_position::{Position, row_on};
use hd_stores::BlockStore;
use hd_volume::Volume;
use std::marker::Model;

/// A row that a PCB holds: its address, the code of its type, and how many bytes it has.
#[derive(Clone, Copy, Debug)]
pub struct HeldRow {
    pub address: u32,
    pub code: u8,
    pub length: usize,
}

/// The rows that a PCB holds, root first; at most 15.
#[derive(Debug, Drop)]
pub struct HeldRows {
    rows: [HeldRow; 15],
    count: usize,
}

impl Model for HeldRows {
    ghost use Rattle.std.specs.Prelude.{List, take, ◌≤◌};
    ghost use Rattle.hd_update.specs.declared.held.HeldRow.{HeldRow};

    ghost Value = { List HeldRow };

    ghost view = { λ v. take v.count v.rows };

    ghost invariant = { λ v. v.count ≤ 15 };
}

impl HeldRows {
    /// No row.
    pub fn new() -> HeldRows
        ensures { result ≡ [] }
    {
        let none = HeldRow {
            address: 0,
            code: 0,
            length: 0,
        };
        HeldRows {
            rows: [none; 15],
            count: 0,
        }
    }

    /// The rows; at most 15.
    pub fn as_slice(&self) -> &[HeldRow]
        ensures value { result.now ≡ self.now }
        ensures few { length self.now ≤ 15 }
    {
        &self.rows[..self.count]
    }

    /// Adds a row behind the others. There is room for 15; one more takes the place of the last.
    fn push(&mut self, row: HeldRow)
        ensures { length self.old < 15 → self.new ≡ self.old ++ row ∷ [] }
    {
        let kept = self.count.min(14);
        self.rows[kept] = row;
        self.count = kept + 1;
    }
}

/// The row at an address, of which this is the lent segment.
fn row_in(dbd: &Dbd, address: u32, segment: &[u8]) -> HeldRow
    ensures { IsWhole dbd.now.types (code_of segment.now) segment.now → result ≡ row_in_segment dbd.now.types address segment.now }
{
    HeldRow {
        address,
        code: segment.first().copied().unwrap_or(0),
        length: bytes_in(dbd, segment).len(),
    }
}

/// The row at an address. One access.
fn stored_row<S: BlockStore>(
    volume: &mut Volume<S>,
    dbd: &Dbd,
    address: u32,
) -> Result<HeldRow, Refused>
    requires of { IsOf dbd.now volume.old }
    requires there { IsStored dbd.now volume.old address }
    ensures read { IsRead volume.old result volume.new }
    ensures value { IfOk result (λ row. IsTrue volume.old.is_sound → row ≡ row_stored (links_of dbd.now.types volume.old) address) }
    ensures refusal { OnlyDevice result }
{
    let segment = volume.segment_at(address)?;
    Ok(row_in(dbd, address, segment))
}

/// The row at a level of a path, from 1 on for the root. One access.
pub fn row_at<S: BlockStore>(
    volume: &mut Volume<S>,
    dbd: &Dbd,
    path: &Path,
    level: u8,
) -> Result<HeldRow, Refused>
    requires of { IsOf dbd.now volume.old }
    requires there { HasRowAt dbd.now volume.old path.now level }
    ensures read { IsRead volume.old result volume.new }
    ensures value { IfOk result (λ row. IsRowAt dbd.now volume.old path.now level row) }
    ensures refusal { OnlyDevice result }
{
    let address = row_on(path, level).unwrap_or(0);
    stored_row(volume, dbd, address)
}

/// The rows that a PCB holds. One access for each.
pub fn held_rows<S: BlockStore>(
    volume: &mut Volume<S>,
    dbd: &Dbd,
    position: &Position,
) -> Result<HeldRows, Refused>
    requires of { IsOf dbd.now volume.old }
    requires there { HasPosition dbd.now volume.old position.now }
    ensures read { IsRead volume.old result volume.new }
    ensures value { IfOk result (λ rows. AreHeld dbd.now volume.old position.now rows) }
    ensures refusal { OnlyDevice result }
{
    let mut rows = HeldRows::new();
    let levels = position.held().as_slice();
    for place in 0..levels.len() {
        let row = row_at(volume, dbd, position.path(), levels[place])?;
        rows.push(row);
    }
    Ok(rows)
}
