ghost use Rattle.std.specs.Prelude.{◌≡◌, ◌<◌, ◌≤◌, [], ◌∷◌, length, take, Ok, Err, IfOk, IfErr};
ghost use Rattle.std.specs.Result.{result_err};
ghost use Rattle.hd_calls.specs.Steps.{new_row, front, front_fault, part_at};
ghost use Rattle.hd_update.specs.NewRows.{codes_of, parts_in};
ghost use Rattle.hd_update.specs.Positions.{unheld_at};

use crate::positions::end_hold;
use hd_calls::AreaFault;
use hd_dbd::{Dbd, Refused, Status};
use hd_get::Outcome;
use hd_position::Position;
use hd_ssa::ResolvedSsa;

/// The bytes at the front of an I/O area that a row of a type takes, or all of them where these are fewer.
pub fn front<'a>(dbd: &Dbd, code: u8, area: &'a [u8]) -> &'a [u8]
    ensures { result.now ≡ front dbd.now.types code area.now }
{
    let length = dbd.length_in(code, area).min(area.len());
    &area[..length]
}

/// What is wrong where no row of a type stands at the front of an I/O area.
fn front_fault(dbd: &Dbd, code: u8) -> AreaFault
    ensures { result ≡ front_fault dbd.now.types code }
{
    match dbd.type_of(code) {
        Some(segment) if segment.least.is_some() => AreaFault::Length,
        _ => AreaFault::Bytes,
    }
}

/// How many bytes the row of a type has that stands at the front of an I/O area, or what is wrong there.
pub fn row_length(dbd: &Dbd, code: u8, area: &[u8]) -> Result<usize, AreaFault>
    ensures part { IfOk result (λ n. (n ≤ length area.now) × (part_at dbd.now.types (new_row code) area.now ≡ Ok (take n area.now))) }
    ensures fault { IfErr result (λ f. part_at dbd.now.types (new_row code) area.now ≡ Err f) }
{
    let row = front(dbd, code, area);
    if !dbd.row_fits(code, row) {
        return Err(front_fault(dbd, code));
    }
    Ok(row.len())
}

/// Why an I/O area is not rows of the types of these arguments, one behind the other; `None` where it is.
pub fn area_fault(dbd: &Dbd, ssas: &[ResolvedSsa<'_>], area: &[u8]) -> Option<AreaFault>
    ensures { result ≡ result_err (parts_in dbd.now.types (codes_of ssas.now) area.now) }
{
    let mut start = 0;
    for place in 0..ssas.len() {
        match row_length(dbd, ssas[place].code(), &area[start..]) {
            Ok(length) => start += length,
            Err(fault) => return Some(fault),
        }
    }
    if start < area.len() {
        return Some(AreaFault::Bytes);
    }
    None
}

/// Why an I/O area is not one row of a type; `None` where it is.
pub fn row_fault(dbd: &Dbd, code: u8, area: &[u8]) -> Option<AreaFault>
    ensures { result ≡ result_err (parts_in dbd.now.types (code ∷ []) area.now) }
{
    match row_length(dbd, code, area) {
        Ok(length) if length < area.len() => Some(AreaFault::Bytes),
        Ok(_) => None,
        Err(fault) => Some(fault),
    }
}

/// What the call of the PCB of a number, counted from 1, comes to whose I/O area has a fault: V1, and the PCB's hold ends, for a row of a wrong
/// length; `Area` where bytes lack or are left over.
pub fn answer_fault(
    positions: &mut [Position],
    number: usize,
    fault: AreaFault,
) -> Result<Outcome, Refused>
    requires number { (0 < number) × (number ≤ length positions.old) }
    ensures length { IfOk result (λ o. (fault ≡ AreaFault.Length) × (o ≡ Outcome.Missing Status.V1) × (positions.new ≡ unheld_at number positions.old)) }
    ensures bytes { IfErr result (λ e. (fault ≡ AreaFault.Bytes) × (e ≡ Refused.Area) × (positions.new ≡ positions.old)) }
{
    match fault {
        AreaFault::Bytes => Err(Refused::Area),
        AreaFault::Length => {
            end_hold(positions, number);
            Ok(Outcome::Missing(Status::V1))
        }
    }
}
