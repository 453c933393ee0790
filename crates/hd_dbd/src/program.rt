ghost use Rattle.std.specs.Prelude.{◌≡◌, ◌⊎◌, ◌↔◌, ◌<◌, ◌≤◌, length, Some, None, IsTrue, IfOk, OnOk, IfErr};
ghost use Rattle.hd_dbd.specs.ProgramRules.{type_names, program_fits};
ghost use Rattle.hd_dbd.specs.ProgramFaults.{program_fault};

use crate::database::Dbd;
use crate::hierarchy::SegType;
use crate::naming::Name8;
use crate::procopt::gives_get;
use crate::program_rules::program_fault;
use std::alloc::{AllocError, Global};
use std::fmt;
use std::marker::Model;
use thiserror::Error;

/// SENSEG: a segment type that a PCB sees, its parent's name, and its own PROCOPT, if it has one.
#[derive(Drop)]
pub struct Sens {
    pub name: Name8,
    pub parent: Option<Name8>,
    pub procopt: Option<String>,
}

impl Model for Sens {
    ghost use Rattle.std.specs.Prelude.{option_map, string_bytes};
    ghost use Rattle.hd_dbd.specs.Types.{SeenType};

    ghost Value = { SeenType };

    ghost view = { λ s. record { name = s.name; parent = s.parent; procopt = option_map string_bytes s.procopt } };
}

/// PCB: one view of a database, with the PROCOPT of the types that have none of their own.
#[derive(Drop)]
pub struct Pcb {
    pub procopt: String,
    pub sens: Vec<Sens>,
}

impl Model for Pcb {
    ghost use Rattle.std.specs.Prelude.{string_bytes};
    ghost use Rattle.hd_dbd.specs.Types.{View};

    ghost Value = { View };

    ghost view = { λ p. record { procopt = string_bytes p.procopt; sens = p.sens.items } };
}

/// The name of a segment type, and the code of its parent.
#[derive(Clone, Copy, PartialEq, Eq)]
pub struct TypeName {
    pub name: Name8,
    pub parent: Option<u8>,
}

/// Why a PSB is refused: the rule that it breaks, with the number of the PCB that breaks it, from 1. `Memory` says
/// nothing of the PSB.
#[derive(Clone, Copy, Debug, Drop, PartialEq, Eq, Error)]
pub enum PsbFault {
    /// A SENSEG that names no segment of the DBD.
    P1(u8),
    /// A SENSEG whose parent is not the DBD's, or is not seen.
    P2(u8),
    /// SENSEGs that are not in the order of the DBD, or of which one stands twice.
    P3(u8),
    /// A PROCOPT without a letter, with another letter, with P alone, with L and a letter but S, or with L on only one
    /// of PCB and SENSEG.
    P4(u8),
    /// A PCB that loads beside others.
    P5(u8),
    /// A PCB without SENSEG; 0 where there is no PCB, or more than 255.
    P6(u8),
    /// No memory.
    Memory,
}

impl fmt::Display for PsbFault {
    fn fmt<W: fmt::Write>(&self, f: &mut fmt::Formatter<W>) -> fmt::Result {
        let (number, rule) = match *self {
            PsbFault::P1(number) => (number, 1),
            PsbFault::P2(number) => (number, 2),
            PsbFault::P3(number) => (number, 3),
            PsbFault::P4(number) => (number, 4),
            PsbFault::P5(number) => (number, 5),
            PsbFault::P6(number) => (number, 6),
            PsbFault::Memory => return f.write_str("no memory"),
        };
        write!(f, "pcb {number}, P{rule}")
    }
}

/// A well-formed program specification block: its PCBs, and the names and parents of the types that they were made
/// for.
#[derive(Drop)]
pub struct Psb {
    made_for: Vec<TypeName>,
    pcbs: Vec<Pcb>,
}

impl Model for Psb {
    ghost use Rattle.std.specs.Prelude.{IsTrue};
    ghost use Rattle.hd_dbd.specs.ProgramRules.{Program, program_fits};

    ghost Value = { Program };

    ghost view = { λ p. record { made_for = p.made_for.items; pcbs = p.pcbs.items } };

    ghost invariant = { λ p. IsTrue (program_fits p.made_for.items p.pcbs.items) };
}

impl Psb {
    /// A program of these PCBs over the database, where they keep to the rules that `PsbFault` names; else the first
    /// rule that the first PCB breaks that breaks one.
    pub fn new(alloc: Global, dbd: &Dbd, pcbs: Vec<Pcb>) -> Result<Psb, PsbFault>
        ensures ok { IfOk result (λ p. p ≡ record { made_for = type_names dbd.now.types; pcbs = pcbs.items }) }
        ensures well_formed { OnOk result (IsTrue (program_fits (type_names dbd.now.types) pcbs.items)) }
        ensures none { OnOk result (program_fault (type_names dbd.now.types) pcbs.items ≡ None) }
        ensures fault { IfErr result (λ f. (f ≡ PsbFault.Memory) ⊎ (program_fault (type_names dbd.now.types) pcbs.items ≡ Some f)) }
    {
        let Ok(made_for) = type_names(alloc, dbd.types()) else {
            return Err(PsbFault::Memory);
        };
        if let Some(fault) = program_fault(&made_for, &pcbs) {
            return Err(fault);
        }
        Ok(Psb { made_for, pcbs })
    }

    /// The PCBs, numbered from 1 to at most 255.
    pub fn pcbs(&self) -> &[Pcb]
        ensures pcbs { result.now ≡ self.now.pcbs }
        ensures count { (0 < length self.now.pcbs) × (length self.now.pcbs ≤ 255) }
        ensures fit { IsTrue (program_fits self.now.made_for self.now.pcbs) }
    {
        &self.pcbs
    }

    /// Whether the names and parents of the database's types are, in order, those that the program was made for.
    pub fn matches(&self, dbd: &Dbd) -> bool
        ensures { IsTrue result ↔ (self.now.made_for ≡ type_names dbd.now.types) }
    {
        are_names_of(&self.made_for, dbd.types())
    }
}

impl Pcb {
    ghost use Rattle.std.specs.Prelude.{option_copied};
    ghost use Rattle.hd_dbd.specs.Views.{letters_of, letters_for, reads_some};

    /// The letters of PROCOPT that hold for the type of a name, where the PCB sees it: its own, or else the PCB's.
    pub fn letters_for(&self, name: &Name8) -> Option<&[u8]>
        ensures { option_copied result ≡ letters_for self.now name.now }
    {
        for sens in &self.sens {
            if sens.name == *name {
                return Some(self.letters_of(sens));
            }
        }
        None
    }

    /// Whether some type that the PCB sees may be read.
    pub fn reads_some(&self) -> bool
        ensures { result ≡ reads_some self.now }
    {
        for sens in &self.sens {
            if gives_get(self.letters_of(sens)) {
                return true;
            }
        }
        false
    }

    /// The letters that hold for a type that the PCB sees.
    fn letters_of<'a>(&'a self, sens: &'a Sens) -> &'a [u8]
        ensures { result.now ≡ letters_of self.now sens.now }
    {
        match &sens.procopt {
            Some(own) => own.as_bytes(),
            None => self.procopt.as_bytes(),
        }
    }
}

/// The name and parent of a type.
fn type_name(segment: &SegType) -> TypeName
    ensures { result ≡ record { name = segment.now.name; parent = segment.now.parent } }
{
    TypeName {
        name: segment.name,
        parent: segment.parent,
    }
}

/// The names and parents of a database's types.
fn type_names(alloc: Global, types: &[SegType]) -> Result<Vec<TypeName>, AllocError>
    ensures { IfOk result (λ v. v.items ≡ type_names types.now) }
{
    let mut names = Vec::new(alloc);
    for segment in types {
        names.push(type_name(segment)).map_err(AllocError::from)?;
    }
    Ok(names)
}

/// Whether these are the names and parents of the types.
fn are_names_of(names: &[TypeName], types: &[SegType]) -> bool
    ensures { IsTrue result ↔ (names.now ≡ type_names types.now) }
{
    if names.len() != types.len() {
        return false;
    }
    for (place, segment) in types.iter().enumerate() {
        if names[place] != type_name(segment) {
            return false;
        }
    }
    true
}
