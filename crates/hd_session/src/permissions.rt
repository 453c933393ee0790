ghost use Rattle.std.specs.Prelude.{◌≡◌, ◌≤◌, ◌<◌, ℕ, List, Bool, Option, length, option_map};
ghost use Rattle.std.specs.List.{list_all};
ghost use Rattle.hd_dbd.specs.Segment.{Segment};
ghost use Rattle.hd_dbd.specs.Paths.{row_at};
ghost use Rattle.hd_dbd.specs.Views.{may};
ghost use Rattle.hd_dbd.specs.Letters.{gives_insert};
ghost use Rattle.hd_calls.specs.declared.call.GetKind.{GetKind};
ghost use Rattle.hd_calls.specs.declared.call.Function.TheVariants.{Get, Insert, Replace, Delete};
ghost use Rattle.hd_calls.specs.Steps.{path_allowed, is_allowed, deleted_row, has_parent};
ghost use Rattle.hd_session.specs.Tests.{AreHeldOf, all_replaceable};
ghost use Rattle.hd_session.specs.Accesses.{setting};

use hd_dbd::{Access, Dbd, Pcb, may};
use hd_get::target_code;
use hd_ssa::{ResolvedSsa, loads};
use hd_update::{HeldRow, first_inserted, is_excepted, taken_row};

/// Whether an argument asks for no path row, or its row may be returned on a path.
fn path_allowed(dbd: &Dbd, pcb: &Pcb, ssa: &ResolvedSsa<'_>) -> bool
    ensures { result ≡ path_allowed (setting dbd.now pcb.now) ssa.now }
{
    let code = ssa.code();
    !ssa.commands().path || (may(dbd, pcb, Access::Get, code) && may(dbd, pcb, Access::Path, code))
}

/// The same of each of some arguments.
fn paths_allowed(dbd: &Dbd, pcb: &Pcb, ssas: &[ResolvedSsa<'_>]) -> bool
    ensures { result ≡ list_all (λ a. path_allowed (setting dbd.now pcb.now) a) ssas.now }
{
    for ssa in ssas {
        if !path_allowed(dbd, pcb, ssa) {
            return false;
        }
    }
    true
}

/// Whether PROCOPT allows a get with these arguments.
pub fn get_allowed(dbd: &Dbd, pcb: &Pcb, ssas: &[ResolvedSsa<'_>]) -> bool
    ensures { (rows : List Segment) (held : List ℕ) (kind : GetKind) (hold : Bool) → result ≡ is_allowed (setting dbd.now pcb.now) rows held (Get kind hold) ssas.now }
{
    if loads(pcb) {
        return false;
    }
    if ssas.is_empty() {
        return pcb.reads_some();
    }
    may(dbd, pcb, Access::Get, target_code(ssas))
        && paths_allowed(dbd, pcb, &ssas[..ssas.len() - 1])
}

/// Whether rows of the types of these arguments may be inserted.
fn all_insertable(dbd: &Dbd, pcb: &Pcb, ssas: &[ResolvedSsa<'_>]) -> bool
    ensures { result ≡ list_all (λ a. may (setting dbd.now pcb.now) gives_insert a.code) ssas.now }
{
    for ssa in ssas {
        if !may(dbd, pcb, Access::Insert, ssa.code()) {
            return false;
        }
    }
    true
}

/// Whether PROCOPT allows an ISRT with these arguments.
pub fn insert_allowed(dbd: &Dbd, pcb: &Pcb, ssas: &[ResolvedSsa<'_>]) -> bool
    ensures { (rows : List Segment) (held : List ℕ) → result ≡ is_allowed (setting dbd.now pcb.now) rows held Insert ssas.now }
{
    loads(pcb) || all_insertable(dbd, pcb, &ssas[first_inserted(ssas)..])
}

/// Whether each of some types is excepted by N, or may be replaced.
fn all_replaceable(dbd: &Dbd, pcb: &Pcb, ssas: &[ResolvedSsa<'_>], held: &[HeldRow]) -> bool
    ensures { result ≡ all_replaceable (setting dbd.now pcb.now) ssas.now held.now }
{
    for row in held {
        if !is_excepted(ssas, row.code) && !may(dbd, pcb, Access::Replace, row.code) {
            return false;
        }
    }
    true
}

/// Whether PROCOPT allows a REPL of these held rows with these arguments.
pub fn replace_allowed(dbd: &Dbd, pcb: &Pcb, ssas: &[ResolvedSsa<'_>], held: &[HeldRow]) -> bool
    ensures { (rows : List Segment) (numbers : List ℕ) → AreHeldOf rows numbers held.now → result ≡ is_allowed (setting dbd.now pcb.now) rows numbers Replace ssas.now }
{
    !loads(pcb) && all_replaceable(dbd, pcb, ssas, held)
}

/// The type of the row that a DLET takes out: the one that its argument names, where such a row is held, or else the highest held.
pub fn deleted_code(ssas: &[ResolvedSsa<'_>], held: &[HeldRow]) -> Option<u8>
    ensures { (rows : List Segment) (numbers : List ℕ) → AreHeldOf rows numbers held.now → result ≡ option_map (λ i. (row_at rows i).code) (deleted_row rows ssas.now numbers) }
{
    match taken_row(ssas, held) {
        Some(row) => Some(row.code),
        None => None,
    }
}

/// Whether PROCOPT allows a DLET of one of these held rows with these arguments.
pub fn delete_allowed(dbd: &Dbd, pcb: &Pcb, ssas: &[ResolvedSsa<'_>], held: &[HeldRow]) -> bool
    ensures { (rows : List Segment) (numbers : List ℕ) → AreHeldOf rows numbers held.now → result ≡ is_allowed (setting dbd.now pcb.now) rows numbers Delete ssas.now }
{
    if loads(pcb) {
        return false;
    }
    match deleted_code(ssas, held) {
        Some(code) => may(dbd, pcb, Access::Delete, code),
        None => true,
    }
}

/// Whether there is a parentage row, of the type of this code, and the type that is looked for, if one is named, lies below it.
pub fn has_parent(dbd: &Dbd, ssas: &[ResolvedSsa<'_>], parent: Option<u8>) -> bool
    ensures { (rows : List Segment) (row : Option ℕ) → parent ≡ option_map (λ i. (row_at rows i).code) row → result ≡ has_parent dbd.now.types rows row ssas.now }
{
    match parent {
        Some(parent) => ssas.is_empty() || dbd.is_under(target_code(ssas), parent),
        None => false,
    }
}
