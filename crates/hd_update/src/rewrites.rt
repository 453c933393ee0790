ghost use Rattle.std.specs.Prelude.{◌≡◌, ◌<◌, ◌≤◌, ◌+◌, [], ◌∷◌, ◌++◌, length, take, cond, Ok, Err, IfOk, IfErr};
ghost use Rattle.hd_calls.specs.Functions.{result_and_then};
ghost use Rattle.hd_calls.specs.Steps.{new_row, old_bytes, part_at, is_excepted};
ghost use Rattle.hd_update.specs.Replacing.{parts_held, new_bytes_from, part_for};

use crate::area::row_length;
use crate::held::HeldRow;
use hd_calls::AreaFault;
use hd_dbd::Dbd;
use hd_ssa::ResolvedSsa;
use std::marker::Model;

/// New bytes for a row: its address, the code of its type, how many bytes it has so far, where the new ones begin in the I/O area, and how
/// many they are.
#[derive(Clone, Copy, Debug)]
pub struct NewBytes {
    pub address: u32,
    pub code: u8,
    pub had: usize,
    pub start: usize,
    pub length: usize,
}

/// New bytes for rows of one path, root first; at most 15.
#[derive(Debug, Drop)]
pub struct Rewriting {
    rows: [NewBytes; 15],
    count: usize,
}

impl Model for Rewriting {
    ghost use Rattle.std.specs.Prelude.{List, take, ◌≤◌};
    ghost use Rattle.hd_update.specs.declared.rewrites.NewBytes.{NewBytes};

    ghost Value = { List NewBytes };

    ghost view = { λ v. take v.count v.rows };

    ghost invariant = { λ v. v.count ≤ 15 };
}

impl Rewriting {
    /// For no row.
    fn new() -> Rewriting
        ensures { result ≡ [] }
    {
        let none = NewBytes {
            address: 0,
            code: 0,
            had: 0,
            start: 0,
            length: 0,
        };
        Rewriting {
            rows: [none; 15],
            count: 0,
        }
    }

    /// The rows; at most 15.
    pub fn as_slice(&self) -> &[NewBytes]
        ensures value { result.now ≡ self.now }
        ensures few { length self.now ≤ 15 }
    {
        &self.rows[..self.count]
    }

    /// Adds a row behind the others. There is room for 15; one more takes the place of the last.
    fn push(&mut self, row: NewBytes)
        ensures { length self.old < 15 → self.new ≡ self.old ++ row ∷ [] }
    {
        let kept = self.count.min(14);
        self.rows[kept] = row;
        self.count = kept + 1;
    }
}

/// Whether an argument of a type has N.
pub fn is_excepted(ssas: &[ResolvedSsa<'_>], code: u8) -> bool
    ensures { result ≡ is_excepted ssas.now code }
{
    ssas.iter()
        .any(|ssa| ssa.commands().excepted && ssa.code() == code)
}

/// The part of an I/O area that has a row's new bytes, without bytes where it is shorter.
pub fn part_for<'a>(area: &'a [u8], row: &NewBytes) -> &'a [u8]
    ensures { row.now.start + row.now.length ≤ length area.now → result.now ≡ part_for area.now row.now }
{
    if row.start > area.len() || row.length > area.len() - row.start {
        return &[];
    }
    &area[row.start..row.start + row.length]
}

/// How many bytes the part of a held row has that stands at the front of an I/O area, or what is wrong there: as many as the row has, where N
/// excepts it, or else those of a new row of its type.
fn part_length(dbd: &Dbd, row: &HeldRow, excepted: bool, area: &[u8]) -> Result<usize, AreaFault>
    ensures part { IfOk result (λ n. (n ≤ length area.now) × (part_at dbd.now.types (cond excepted (old_bytes row.now.length) (new_row row.now.code)) area.now ≡ Ok (take n area.now))) }
    ensures fault { IfErr result (λ f. part_at dbd.now.types (cond excepted (old_bytes row.now.length) (new_row row.now.code)) area.now ≡ Err f) }
{
    if !excepted {
        return row_length(dbd, row.code, area);
    }
    if row.length > area.len() {
        return Err(AreaFault::Bytes);
    }
    Ok(row.length)
}

/// The new bytes that an I/O area has for held rows, but those that N excepts, or why it is not the rows' parts, one behind the other.
pub fn rewrites_of(
    dbd: &Dbd,
    ssas: &[ResolvedSsa<'_>],
    held: &[HeldRow],
    area: &[u8],
) -> Result<Rewriting, AreaFault>
    requires few { length held.now ≤ 15 }
    ensures { result ≡ result_and_then (parts_held dbd.now.types ssas.now held.now area.now) (λ parts. Ok (new_bytes_from ssas.now 0 held.now parts)) }
{
    let mut news = Rewriting::new();
    let mut start = 0;
    for place in 0..held.len() {
        let row = held[place];
        let excepted = is_excepted(ssas, row.code);
        let length = part_length(dbd, &row, excepted, &area[start..])?;
        if !excepted {
            news.push(NewBytes {
                address: row.address,
                code: row.code,
                had: row.length,
                start,
                length,
            });
        }
        start += length;
    }
    if start < area.len() {
        return Err(AreaFault::Bytes);
    }
    Ok(news)
}
