use crate::culprits::{Culprit, behind, is, name_in, place_of, value_of, word_in};
use crate::stream_command::text_of;
use hd_dbd::{Dbd, Pcb, Psb, PsbFault, SegType, Sens};
use hd_macro::Statement;
use std::alloc::Global;

/// The code of the type of a name, 0 where the database has none.
fn code_of(dbd: &Dbd, name: &[u8]) -> usize {
    for (place, segment) in dbd.types().iter().enumerate() {
        if text_of(&segment.name).as_bytes() == name {
            return place.saturating_add(1);
        }
    }
    0
}

/// The type of a name.
fn type_named<'d>(dbd: &'d Dbd, name: &[u8]) -> Option<&'d SegType> {
    dbd.types().get(code_of(dbd, name).checked_sub(1)?)
}

/// The name of the parent that a type has in the database, without bytes for the root.
fn parent_of<'d>(dbd: &'d Dbd, name: &[u8]) -> &'d [u8] {
    let Some(segment) = type_named(dbd, name) else {
        return &[];
    };
    match dbd.type_of(segment.parent.unwrap_or(0)) {
        Some(parent) => text_of(&parent.name).as_bytes(),
        None => &[],
    }
}

/// The name of the parent that a SENSEG gives, without bytes for none.
fn parent_in(sens: &Statement) -> &[u8] {
    match word_in(value_of(sens, b"PARENT"), 0) {
        b"0" => &[],
        name => name,
    }
}

/// Whether one of the SENSEGs is of a name.
fn is_seen(seen: &[Statement], name: &[u8]) -> bool {
    for sens in seen {
        if is(sens, b"SENSEG") && name_in(sens) == name {
            return true;
        }
    }
    false
}

/// Whether a SENSEG has the parent that its type has, which is seen too.
fn has_parent(dbd: &Dbd, seen: &[Statement], sens: &Statement) -> bool {
    let parent = parent_in(sens);
    parent == parent_of(dbd, name_in(sens)) && (parent.is_empty() || is_seen(seen, parent))
}

/// A text of one's own.
fn owned(alloc: Global, letters: &[u8]) -> Option<String> {
    let text = str::from_utf8(letters).ok()?;
    String::from_str(alloc, text).ok()
}

/// Whether a PROCOPT of a PCB, with one of a SENSEG of it if there is one, is none: a program of the root alone says it.
fn is_no_procopt(
    alloc: Global,
    dbd: &Dbd,
    pcb: &Statement,
    sens: Option<&Statement>,
) -> Option<()> {
    let own = match sens {
        Some(sens) if value_of(sens, b"PROCOPT").is_empty() => return None,
        Some(sens) => Some(owned(alloc, value_of(sens, b"PROCOPT"))?),
        None => None,
    };
    let mut seen = Vec::new(alloc);
    seen.push(Sens {
        name: dbd.types().first()?.name,
        parent: None,
        procopt: own,
    })
    .ok()?;
    let mut pcbs = Vec::new(alloc);
    pcbs.push(Pcb {
        procopt: owned(alloc, value_of(pcb, b"PROCOPT"))?,
        sens: seen,
    })
    .ok()?;
    match Psb::new(alloc, dbd, pcbs) {
        Err(PsbFault::P4(_)) => Some(()),
        _ => None,
    }
}

/// Whether a SENSEG of a PCB, behind one of a code, breaks the rule of a fault.
fn breaks(
    alloc: Global,
    dbd: &Dbd,
    fault: PsbFault,
    pcb: &Statement,
    seen: &[Statement],
    last: usize,
    sens: &Statement,
) -> bool {
    match fault {
        PsbFault::P1(_) => code_of(dbd, name_in(sens)) == 0,
        PsbFault::P2(_) => !has_parent(dbd, seen, sens),
        PsbFault::P3(_) => code_of(dbd, name_in(sens)) <= last,
        PsbFault::P4(_) => is_no_procopt(alloc, dbd, pcb, Some(sens)).is_some(),
        _ => false,
    }
}

/// The first SENSEG of a PCB that breaks the rule of a fault.
fn sens_at_fault<'s>(
    alloc: Global,
    dbd: &Dbd,
    fault: PsbFault,
    pcb: &Statement,
    seen: &'s [Statement],
) -> Option<&'s Statement> {
    let mut last = 0;
    for sens in seen {
        if !is(sens, b"SENSEG") {
            continue;
        }
        if breaks(alloc, dbd, fault, pcb, seen, last, sens) {
            return Some(sens);
        }
        last = code_of(dbd, name_in(sens));
    }
    None
}

/// The number of the PCB that a fault of a program names: of too many the first that is one.
pub fn pcb_of(fault: PsbFault) -> usize {
    match fault {
        PsbFault::P6(0) => 256,
        PsbFault::P1(number) | PsbFault::P2(number) | PsbFault::P3(number) => usize::from(number),
        PsbFault::P4(number) | PsbFault::P5(number) | PsbFault::P6(number) => usize::from(number),
        PsbFault::Memory => 0,
    }
}

/// The statement of a PSB source that a fault of its program is of.
pub fn culprit_of_program<'s>(
    alloc: Global,
    dbd: &Dbd,
    fault: PsbFault,
    statements: &'s [Statement],
) -> Option<Culprit<'s>> {
    let place = place_of(statements, b"PCB", pcb_of(fault))?;
    let pcb = statements.get(place)?;
    let own = Culprit {
        statement: pcb,
        above: None,
    };
    if let PsbFault::P4(_) = fault {
        if is_no_procopt(alloc, dbd, pcb, None).is_some() {
            return Some(own);
        }
    }
    match sens_at_fault(alloc, dbd, fault, pcb, behind(statements, place, b"PCB")) {
        Some(sens) => Some(Culprit {
            statement: sens,
            above: Some(pcb),
        }),
        None => Some(own),
    }
}
