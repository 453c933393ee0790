//! The table of the pointers by which segments are named, which phase 3 notes.
ghost use Rattle.std.specs.Prelude.{◌≡◌, ◌≤◌, ◌++◌, ◌∷◌, [], length, OnOk};
ghost use Rattle.hd_dbd.specs.Refusals.{OnlyMemory};
ghost use Rattle.hd_dbd.specs.Prefixes.{prefix_length};
ghost use Rattle.hd_prefix.specs.Fields.{code_of};
ghost use Rattle.hd_check_pointers.specs.Namings.{naming_of, first_namings, segment_namings};
ghost use Rattle.hd_check_pointers.specs.Judging.{OfStoredAt, OfLentAt};

use hd_dbd::{Dbd, Refused};
use hd_prefix::{Layout, Pointer};

/// A pointer that names a segment: what it names, and the record that holds it, 0 for the header.
#[derive(Clone, Copy, Debug)]
pub struct Naming {
    pub target: u32,
    pub holder: u32,
}

/// Notes a pointer of a holder, if it names something.
pub fn note_naming(namings: &mut Vec<Naming>, target: u32, holder: u32) -> Result<(), Refused>
    ensures namings { OnOk result (namings.new.items ≡ namings.old.items ++ naming_of target holder) }
    ensures refusal { OnlyMemory result }
{
    if target != 0 {
        namings
            .push(Naming { target, holder })
            .map_err(|_| Refused::Memory)?;
    }
    Ok(())
}

/// Notes the pointers of a segment to its first children of some types.
fn note_first_children(
    namings: &mut Vec<Naming>,
    dbd: &Dbd,
    code: u8,
    address: u32,
    segment: &[u8],
    types: &[u8],
) -> Result<(), Refused>
    requires own { code ≡ code_of segment.now }
    requires whole { prefix_length dbd.now.types (code_of segment.now) ≤ length segment.now }
    ensures namings { OnOk result (OfStoredAt dbd.now.types address segment.now (λ m. namings.new.items ≡ namings.old.items ++ first_namings m address types.now)) }
    ensures refusal { OnlyMemory result }
{
    let layout = Layout::of(dbd, code);
    for child in types {
        let first = layout.read(segment, Pointer::FirstChild(*child));
        note_naming(namings, first, address)?;
    }
    Ok(())
}

/// Notes the twin forward pointer of a segment, and the pointers by which it names others.
pub fn note_pointers(
    forwards: &mut Vec<u32>,
    namings: &mut Vec<Naming>,
    dbd: &Dbd,
    address: u32,
    segment: &[u8],
) -> Result<(), Refused>
    ensures forwards { OnOk result (OfLentAt dbd.now.types address segment.now (λ m. forwards.new.items ≡ forwards.old.items ++ m.forward address ∷ [])) }
    ensures namings { OnOk result (OfLentAt dbd.now.types address segment.now (λ m. namings.new.items ≡ namings.old.items ++ segment_namings dbd.now.types m address)) }
    ensures refusal { OnlyMemory result }
{
    let code = segment.first().copied().unwrap_or(0);
    if segment.len() < dbd.prefix_length(code) as usize {
        return Ok(());
    }
    let forward = Layout::of(dbd, code).read(segment, Pointer::TwinForward);
    forwards.push(forward).map_err(|_| Refused::Memory)?;
    note_naming(namings, forward, address)?;
    note_first_children(namings, dbd, code, address, segment, dbd.children_of(code))
}
