ghost use Rattle.std.specs.Prelude.{◌≡◌, ◌<◌, ◌≤◌, length};
ghost use Rattle.hd_forest.specs.Walks.{tip};
ghost use Rattle.hd_update.specs.Positions.{after_rewrites, all_after_rewrites, all_without_row, unheld_at};

use crate::replaced::ReplacedRow;
use hd_forest::{Path, tip_of};
use hd_position::Position;

/// Ends a PCB's hold of rows that got new bytes, and names each on its path where it stands then.
fn follow_rows(position: &mut Position, rows: &[ReplacedRow])
    ensures { position.new ≡ after_rewrites rows.now position.old }
{
    for place in 0..rows.len() {
        let row = rows[place];
        position.end_hold_of(row.from);
        position.move_row(row.from, row.to);
    }
}

/// Ends each PCB's hold of rows that got new bytes, and names each on its path where it stands then.
pub fn follow_all(positions: &mut [Position], rows: &[ReplacedRow])
    ensures { positions.new ≡ all_after_rewrites rows.now positions.old }
{
    for place in 0..positions.len() {
        follow_rows(&mut positions[place], rows);
    }
}

/// Lets each PCB go back from the span of the last row of a path, which was taken out, to the row before it, whose path is given.
pub fn leave_spans(positions: &mut [Position], path: &Path, before: &Path)
    ensures { positions.new ≡ all_without_row (tip path.now) (length path.now) before.now positions.old }
{
    let (address, level) = (tip_of(path), path.level());
    for place in 0..positions.len() {
        positions[place].leave_span(address, level, before);
    }
}

/// Ends the hold of the PCB of a number.
pub fn end_hold(positions: &mut [Position], number: usize)
    requires number { (0 < number) × (number ≤ length positions.old) }
    ensures { positions.new ≡ unheld_at number positions.old }
{
    positions[number - 1].unhold();
}
