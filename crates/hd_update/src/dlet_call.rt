ghost use Rattle.std.specs.Prelude.{◌≡◌, ◌<◌, ◌≤◌, ◌==◌, length, find, IfOk, IfErr};
ghost use Rattle.hd_dbd.specs.Refusals.{OnlyDevice};
ghost use Rattle.hd_volume.specs.Calls.{IsCall};
ghost use Rattle.hd_update.specs.States.{HasState, IsUndone};
ghost use Rattle.hd_update.specs.Deleting.{taken_row};
ghost use Rattle.hd_update.specs.Calls.{IsDeleteDone, HasPath, IsRowDeleted};

use crate::deletions::delete_span;
use crate::held::{HeldRow, held_rows};
use crate::paths::path_up_to;
use crate::positions::{end_hold, leave_spans};
use hd_dbd::{Dbd, Refused, Status};
use hd_forest::Path;
use hd_get::Outcome;
use hd_position::{Position, row_before};
use hd_ssa::ResolvedSsa;
use hd_stores::BlockStore;
use hd_volume::Volume;

/// DLET by the PCB of a number, counted from 1: the row that it holds of the argument's type, or the highest that it holds, leaves with
/// all that depends on it, seen or not. DJ where it holds no such row. Every PCB that was on one of these rows goes back, parentage and
/// hold there end, and so does the PCB's own hold. No memory is taken.
///
/// Each block of the rows that leave is read and written a few times, whatever their number. The twins before them are walked only where neither
/// twin backward nor last child leads to the one before, and the index only for a root.
pub fn dlet<S: BlockStore>(
    volume: &mut Volume<S>,
    dbd: &Dbd,
    positions: &mut [Position],
    number: usize,
    ssas: &[ResolvedSsa<'_>],
) -> Result<Outcome, Refused>
    requires number { (0 < number) × (number ≤ length positions.old) }
    requires state { HasState dbd.now volume.old positions.old }
    ensures call { IsCall volume.old result volume.new }
    ensures done { IfOk result (λ o. IsDeleteDone dbd.now volume.old positions.old number ssas.now o volume.new positions.new) }
    ensures undone { IfErr result (λ _. IsUndone volume.old positions.old volume.new positions.new) }
    ensures refusal { OnlyDevice result }
{
    let held = held_rows(volume, dbd, &positions[number - 1])?;
    let Some(row) = taken_row(ssas, held.as_slice()) else {
        end_hold(positions, number);
        return Ok(Outcome::Missing(Status::DJ));
    };
    let path = path_up_to(positions[number - 1].path(), row.address);
    delete_row(volume, dbd, positions, number, &path)
}

/// Of the held rows the first of a type.
fn first_of_type(held: &[HeldRow], code: u8) -> Option<HeldRow>
    ensures { result ≡ find (λ h. h.code == code) held.now }
{
    for row in held {
        if row.code == code {
            return Some(*row);
        }
    }
    None
}

/// Of the held rows the one that DLET takes: the first of the argument's type, or else the highest.
pub fn taken_row(ssas: &[ResolvedSsa<'_>], held: &[HeldRow]) -> Option<HeldRow>
    ensures { result ≡ taken_row ssas.now held.now }
{
    match ssas.first() {
        Some(ssa) => first_of_type(held, ssa.code()),
        None => held.first().copied(),
    }
}

/// DLET of the last row of a path.
fn delete_row<S: BlockStore>(
    volume: &mut Volume<S>,
    dbd: &Dbd,
    positions: &mut [Position],
    number: usize,
    path: &Path,
) -> Result<Outcome, Refused>
    requires number { (0 < number) × (number ≤ length positions.old) }
    requires state { HasPath dbd.now volume.old positions.old path.now }
    ensures call { IsCall volume.old result volume.new }
    ensures done { IfOk result (λ o. IsRowDeleted dbd.now volume.old positions.old number path.now o volume.new positions.new) }
    ensures undone { IfErr result (λ _. IsUndone volume.old positions.old volume.new positions.new) }
    ensures refusal { OnlyDevice result }
{
    let before = row_before(volume, dbd, path)?;
    delete_span(volume, dbd, path)?;
    leave_spans(positions, path, &before);
    end_hold(positions, number);
    Ok(Outcome::Found(Status::Blank))
}
