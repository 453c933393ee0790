ghost use Rattle.std.specs.Prelude.{◌≡◌, ◌<◌, ◌-◌, ◌||◌, not, true, length, IsTrue, IfSome, IsNone, bytes_eq, option_copied, option_map, slice_get, find, position};
ghost use Rattle.std.specs.Option.{option_map_or, option_eq};
ghost use Rattle.std.specs.List.{list_all};
ghost use Rattle.hd_dbd.specs.ProgramRules.{code_named, parent_named, sees, seen_names_fit, parents_fit, order_fits, own_procopt_fits, procopts_fit, load_fits, program_fits};
ghost use Rattle.hd_dbd.specs.ProgramFaults.{pcb_fault, program_fault};

use crate::naming::Name8;
use crate::procopt::{gives_load, is_procopt};
use crate::program::{Pcb, PsbFault, Sens, TypeName};

/// Where the type of a name stands among all.
fn place_named(names: &[TypeName], name: &Name8) -> Option<usize>
    ensures place { result ≡ position (λ t. bytes_eq t.name name.now) names.now }
    ensures bound { IfSome result (λ i. i < length names.now) }
{
    names.iter().position(|t| t.name == *name)
}

/// The code of the type of a name.
fn code_named(names: &[TypeName], name: &Name8) -> Option<usize>
    ensures { result ≡ code_named names.now name.now }
{
    Some(place_named(names, name)? + 1)
}

/// The type of a name.
fn type_named<'a>(names: &'a [TypeName], name: &Name8) -> Option<&'a TypeName>
    ensures { option_copied result ≡ find (λ t. bytes_eq t.name name.now) names.now }
{
    names.iter().find(|t| t.name == *name)
}

/// The name of the type of a code.
fn name_at(names: &[TypeName], code: u8) -> Option<Name8>
    ensures { result ≡ option_map (λ q. q.name) (slice_get names.now (code - 1)) }
{
    let place = usize::from(code).saturating_sub(1);
    Some(names.get(place)?.name)
}

/// The name of the parent of the type of a name.
fn parent_named(names: &[TypeName], name: &Name8) -> Option<Name8>
    ensures { result ≡ parent_named names.now name.now }
{
    name_at(names, type_named(names, name)?.parent?)
}

/// Whether the PCB sees the type of a name.
fn sees(pcb: &Pcb, name: &Name8) -> bool
    ensures { result ≡ sees pcb.now name.now }
{
    pcb.sens.iter().any(|s| s.name == *name)
}

/// Whether each SENSEG names a type of the database.
fn seen_names_fit(names: &[TypeName], pcb: &Pcb) -> bool
    ensures { result ≡ seen_names_fit names.now pcb.now }
{
    pcb.sens
        .iter()
        .all(|s| code_named(names, &s.name).is_some())
}

/// Whether a SENSEG has the parent of its type.
fn has_own_parent(names: &[TypeName], sens: &Sens) -> bool
    ensures { result ≡ option_eq bytes_eq sens.now.parent (parent_named names.now sens.now.name) }
{
    sens.parent == parent_named(names, &sens.name)
}

/// Whether each SENSEG has the parent of its type.
fn have_own_parents(names: &[TypeName], pcb: &Pcb) -> bool
    ensures { result ≡ list_all (λ s. option_eq bytes_eq s.parent (parent_named names.now s.name)) pcb.now.sens }
{
    pcb.sens.iter().all(|s| has_own_parent(names, s))
}

/// Whether the PCB sees the parent of a type, if it sees the type.
fn sees_parent(names: &[TypeName], pcb: &Pcb, name: &Name8) -> bool
    ensures { result ≡ option_map_or (λ q. not (sees pcb.now name.now) || sees pcb.now q) (parent_named names.now name.now) true }
{
    match parent_named(names, name) {
        Some(parent) => !sees(pcb, name) || sees(pcb, &parent),
        None => true,
    }
}

/// Whether the PCB sees the parent of each type that it sees. The types are gone through, of which there are few, and not the
/// SENSEGs.
fn sees_parents(names: &[TypeName], pcb: &Pcb) -> bool
    ensures { result ≡ list_all (λ t. option_map_or (λ q. not (sees pcb.now t.name) || sees pcb.now q) (parent_named names.now t.name) true) names.now }
{
    names.iter().all(|t| sees_parent(names, pcb, &t.name))
}

/// Whether each SENSEG has the parent of its type, and the PCB sees it.
fn parents_fit(names: &[TypeName], pcb: &Pcb) -> bool
    requires { IsTrue (seen_names_fit names.now pcb.now) }
    ensures { result ≡ parents_fit names.now pcb.now }
{
    have_own_parents(names, pcb) && sees_parents(names, pcb)
}

/// Whether the SENSEGs stand in the order of the database's types, and none twice.
fn order_fits(names: &[TypeName], pcb: &Pcb) -> bool
    ensures { result ≡ order_fits names.now pcb.now }
{
    let mut last = 0;
    for sens in &pcb.sens {
        let Some(code) = code_named(names, &sens.name) else {
            return false;
        };
        if code <= last {
            return false;
        }
        last = code;
    }
    true
}

/// Whether a SENSEG's own PROCOPT may stand beside the PCB's.
fn own_procopt_fits(pcb: &Pcb, sens: &Sens) -> bool
    ensures { result ≡ own_procopt_fits pcb.now sens.now }
{
    let Some(own) = &sens.procopt else {
        return true;
    };
    let loads = gives_load(pcb.procopt.as_bytes());
    is_procopt(own.as_bytes()) && gives_load(own.as_bytes()) == loads
}

/// Whether each SENSEG's own PROCOPT may stand beside the PCB's.
fn own_procopts_fit(pcb: &Pcb) -> bool
    ensures { result ≡ list_all (λ s. own_procopt_fits pcb.now s) pcb.now.sens }
{
    pcb.sens.iter().all(|s| own_procopt_fits(pcb, s))
}

/// Whether each PROCOPT may stand, and all of them load or none.
fn procopts_fit(pcb: &Pcb) -> bool
    ensures { result ≡ procopts_fit pcb.now }
{
    is_procopt(pcb.procopt.as_bytes()) && own_procopts_fit(pcb)
}

/// Whether the PCB stands alone, where it loads.
fn load_fits(count: usize, pcb: &Pcb) -> bool
    ensures { result ≡ load_fits count pcb.now }
{
    !gives_load(pcb.procopt.as_bytes()) || count == 1
}

/// The first of the rules P1 to P6 that a PCB breaks, one of so many, with its number.
fn pcb_fault(names: &[TypeName], count: usize, number: u8, pcb: &Pcb) -> Option<PsbFault>
    ensures { result ≡ pcb_fault names.now count number pcb.now }
{
    if !seen_names_fit(names, pcb) {
        return Some(PsbFault::P1(number));
    }
    if !parents_fit(names, pcb) {
        return Some(PsbFault::P2(number));
    }
    if !order_fits(names, pcb) {
        return Some(PsbFault::P3(number));
    }
    if !procopts_fit(pcb) {
        return Some(PsbFault::P4(number));
    }
    if !load_fits(count, pcb) {
        return Some(PsbFault::P5(number));
    }
    if pcb.sens.is_empty() {
        return Some(PsbFault::P6(number));
    }
    None
}

/// Why these PCBs are no program, if they are none.
pub fn program_fault(names: &[TypeName], pcbs: &[Pcb]) -> Option<PsbFault>
    ensures fault { result ≡ program_fault names.now pcbs.now }
    ensures none { IsNone result → IsTrue (program_fits names.now pcbs.now) }
{
    if pcbs.is_empty() || pcbs.len() > 255 {
        return Some(PsbFault::P6(0));
    }
    for (place, pcb) in pcbs.iter().enumerate() {
        let fault = pcb_fault(names, pcbs.len(), (place + 1) as u8, pcb);
        if fault.is_some() {
            return fault;
        }
    }
    None
}
