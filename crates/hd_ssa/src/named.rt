ghost use Rattle.std.specs.Prelude.{◌≡◌, ◌≢◌, ◌↔◌, ◌<◌, ◌≤◌, IsTrue, IsSome, length, map, Err, Some, None, IfOk, IfErr, IfSome, option_map, position, bytes_eq};
ghost use Rattle.hd_dbd.specs.declared.answer.Status.TheVariants.{AJ};
ghost use Rattle.hd_dbd.specs.Naming.{is_name};
ghost use Rattle.hd_calls.specs.Access.{seen_code};
ghost use Rattle.hd_calls.specs.Ssas.{read_head};
ghost use Rattle.hd_ssa.specs.Named.{named, named_heads};

use crate::fault::SsaFault;
use crate::head::{Ssa, no_commands};
use hd_calls::Commands;
use hd_dbd::{Dbd, Name8, Pcb, SegType, Status};
use smallvec::SmallVec;
use std::alloc::Global;
use std::marker::Model;

/// A head without its name, and the code of the type of that name, where the PCB sees one.
#[derive(Drop)]
pub struct Named<'a> {
    pub code: Option<u8>,
    pub commands: Commands,
    pub qualification: Option<&'a [u8]>,
}

impl<'a> Model for Named<'a> {
    ghost use Rattle.std.specs.Prelude.{[], option_copied};
    ghost use Rattle.hd_ssa.specs.Named.{Named};

    ghost Value = { Named };

    ghost view = { λ n. record {
      code = n.code;
      head = record { name = []; commands = n.commands; qualification = option_copied n.qualification };
    } };
}

impl<'a> Default for Named<'a> {
    /// What stands in an unused place of a list.
    fn default() -> Named<'a> {
        Named {
            code: None,
            commands: no_commands(),
            qualification: None,
        }
    }
}

/// Where the type of the name of eight bytes stands among all.
fn place_named(types: &[SegType], name: &[u8; 8]) -> Option<usize>
    ensures place { result ≡ position (λ t. bytes_eq t.name name.now) types.now }
    ensures bound { IfSome result (λ i. i < length types.now) }
{
    types.iter().position(|segment| segment.name.is(name))
}

/// The code of the type of the name of eight bytes, where the PCB sees it.
pub(crate) fn seen_code(dbd: &Dbd, pcb: &Pcb, name: &[u8; 8]) -> Option<u8>
    ensures code { result ≡ seen_code (record { types = dbd.now.types; pcb = pcb.now }) name.now }
    ensures name { IfSome result (λ _. IsTrue (is_name name.now)) }
    ensures bound { IfSome result (λ c. (0 < c) × (c ≤ length dbd.now.types)) }
{
    let types = dbd.types();
    let place = place_named(types, name)?;
    let segment = &types[place];
    let _name = segment.name.bytes();
    pcb.letters_for(&segment.name)?;
    Some(place as u8 + 1)
}

/// The name that eight bytes are, if they are one: that of a type is found before it is spelled.
fn name_of(types: &[SegType], bytes: &[u8; 8]) -> Option<Name8>
    ensures found { IsSome result ↔ IsTrue (is_name bytes.now) }
    ensures same { IfSome result (λ n. n ≡ bytes.now) }
{
    match types.iter().find(|segment| segment.name.is(bytes)) {
        Some(segment) => {
            let _name = segment.name.bytes();
            Some(segment.name)
        }
        None => Name8::from_padded(*bytes),
    }
}

/// The head with which a text begins, with the code of its type.
pub(crate) fn named_head<'a>(dbd: &Dbd, pcb: &Pcb, text: &'a [u8]) -> Option<Named<'a>>
    ensures { result ≡ option_map (λ h. named (record { types = dbd.now.types; pcb = pcb.now }) h) (read_head text.now) }
{
    let (name, behind) = text.split_first_chunk::<8>()?;
    let head = Ssa::with_name(name_of(dbd.types(), name)?, behind)?;
    Some(Named {
        code: seen_code(dbd, pcb, head.name.bytes()),
        commands: head.commands,
        qualification: head.qualification,
    })
}

/// The heads of the arguments of a call, with the codes of their types; AJ where one has none.
pub fn named_heads<'a>(
    alloc: Global,
    dbd: &Dbd,
    pcb: &Pcb,
    ssas: &'a [Vec<u8>],
) -> Result<SmallVec<Named<'a>, 4>, SsaFault>
    ensures ok { IfOk result (λ v. named_heads (record { types = dbd.now.types; pcb = pcb.now }) (map (λ s. s.items) ssas.now) ≡ Some v.items) }
    ensures count { IfOk result (λ v. length v.items ≡ length ssas.now) }
    ensures status { (st : Status) → result ≡ Err (SsaFault.Status st) → (st ≡ AJ) × (named_heads (record { types = dbd.now.types; pcb = pcb.now }) (map (λ s. s.items) ssas.now) ≡ None) }
    ensures memory { length ssas.now ≤ 4 → IfErr result (λ e. e ≢ SsaFault.Memory) }
{
    let mut heads = SmallVec::new(alloc);
    for text in ssas {
        let Some(head) = named_head(dbd, pcb, text) else {
            return Err(SsaFault::Status(Status::AJ));
        };
        if heads.push(head).is_err() {
            return Err(SsaFault::Memory);
        }
    }
    Ok(heads)
}
