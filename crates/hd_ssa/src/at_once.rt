ghost use Rattle.std.specs.Prelude.{◌≡◌, ◌<◌, ◌≤◌, ◌++◌, IsTrue, IfSome, [], length, map, true, cond, Some, None, is_some, option_map};
ghost use Rattle.std.specs.Option.{option_map_or, option_to_list};
ghost use Rattle.smallvec.specs.SmallVec.{HasRoomFor};
ghost use Rattle.hd_dbd.specs.Naming.{is_name};
ghost use Rattle.hd_dbd.specs.Hierarchy.{is_under};
ghost use Rattle.hd_ssa.specs.AtOnce.{seen_below, read_behind, read_below, read_down};

use crate::head::{Ssa, no_commands};
use crate::named::seen_code;
use crate::qualification::Qualification;
use crate::resolution::ResolvedSsa;
use hd_dbd::{Dbd, Pcb, SegType};
use smallvec::SmallVec;

/// Whether a type is below another, if there is one above.
fn is_below(dbd: &Dbd, above: Option<u8>, code: u8) -> bool
    ensures { result ≡ option_map_or (λ p. is_under dbd.now.types code p) above true }
{
    let _types = dbd.types();
    match above {
        Some(above) => dbd.parent_of(code) == Some(above) || dbd.is_under(code, above),
        None => true,
    }
}

/// The code of the type of a name, where the PCB sees it and it is below another, if there is one above.
fn seen_below(dbd: &Dbd, pcb: &Pcb, above: Option<u8>, name: &[u8; 8]) -> Option<u8>
    ensures code { result ≡ seen_below (record { types = dbd.now.types; pcb = pcb.now }) above name.now }
    ensures name { IfSome result (λ _. IsTrue (is_name name.now)) }
    ensures bound { IfSome result (λ c. (0 < c) × (c ≤ length dbd.now.types)) }
{
    let code = seen_code(dbd, pcb, name)?;
    if is_below(dbd, above, code) {
        Some(code)
    } else {
        None
    }
}

/// The argument of a type with these bytes behind its name, where no part of them is refused.
fn read_behind<'a>(segment: &'a SegType, code: u8, behind: &'a [u8]) -> Option<ResolvedSsa<'a>>
    ensures { result ≡ read_behind segment.now code behind.now }
{
    let head = Ssa::with_name(segment.name, behind)?;
    let qualification = match head.qualification {
        Some(text) => Some(Qualification::read(segment, text).ok()?),
        None => None,
    };
    Some(ResolvedSsa {
        code,
        commands: head.commands,
        qualification,
    })
}

/// Adds the argument of a type with these bytes behind its name, where no part of them is refused; says whether it does.
fn add_read<'a>(
    segment: &'a SegType,
    code: u8,
    behind: &'a [u8],
    ssas: &mut SmallVec<ResolvedSsa<'a>, 4>,
) -> bool
    requires { HasRoomFor ssas.old 1 }
    ensures found { result ≡ is_some (read_behind segment.now code behind.now) }
    ensures items { ssas.new.items ≡ ssas.old.items ++ option_to_list (read_behind segment.now code behind.now) }
    ensures capacity { ssas.new.capacity ≡ ssas.old.capacity }
{
    match read_behind(segment, code, behind) {
        Some(ssa) => {
            ssas.push_reserved(ssa);
            true
        }
        None => false,
    }
}

/// Adds the argument whose text goes on so behind its type's name, if no part of it is refused, and says whether it did. Most that are met take few
/// steps: those without command codes and with at most one comparison.
fn add_behind<'a>(
    segment: &'a SegType,
    code: u8,
    behind: &'a [u8],
    ssas: &mut SmallVec<ResolvedSsa<'a>, 4>,
) -> bool
    requires { HasRoomFor ssas.old 1 }
    ensures found { result ≡ is_some (read_behind segment.now code behind.now) }
    ensures items { ssas.new.items ≡ ssas.old.items ++ option_to_list (read_behind segment.now code behind.now) }
    ensures capacity { ssas.new.capacity ≡ ssas.old.capacity }
{
    let qualification = match behind.split_first() {
        Some((b'(', text)) => match Qualification::single(segment, text) {
            None => return add_read(segment, code, behind, ssas),
            single => single,
        },
        None | Some((b' ', _)) => None,
        Some(_) => return add_read(segment, code, behind, ssas),
    };
    ssas.push_reserved(ResolvedSsa {
        code,
        commands: no_commands(),
        qualification,
    });
    true
}

/// Adds what a text means whose type is below another, if there is one above, where no part of it is refused; answers its type's code.
fn add_below<'a>(
    dbd: &'a Dbd,
    pcb: &Pcb,
    above: Option<u8>,
    text: &'a [u8],
    ssas: &mut SmallVec<ResolvedSsa<'a>, 4>,
) -> Option<u8>
    requires { HasRoomFor ssas.old 1 }
    ensures code { result ≡ option_map (λ a. a.code) (read_below (record { types = dbd.now.types; pcb = pcb.now }) above text.now) }
    ensures items { ssas.new.items ≡ ssas.old.items ++ option_to_list (read_below (record { types = dbd.now.types; pcb = pcb.now }) above text.now) }
    ensures capacity { ssas.new.capacity ≡ ssas.old.capacity }
{
    let (name, behind) = text.split_first_chunk::<8>()?;
    let code = seen_below(dbd, pcb, above, name)?;
    let segment = &dbd.types()[code as usize - 1];
    if add_behind(segment, code, behind, ssas) {
        Some(code)
    } else {
        None
    }
}

/// Adds what texts mean, as many as there is room for, each of which is read whole before the next; says whether no part of one is refused. Which
/// refusal comes first it does not say.
pub(crate) fn read_down<'a>(
    dbd: &'a Dbd,
    pcb: &Pcb,
    texts: &'a [Vec<u8>],
    ssas: &mut SmallVec<ResolvedSsa<'a>, 4>,
) -> bool
    requires empty { ssas.old.items ≡ [] }
    requires room { HasRoomFor ssas.old (length texts.now) }
    ensures { cond result (Some ssas.new.items) None ≡ read_down (record { types = dbd.now.types; pcb = pcb.now }) None (map (λ t. t.items) texts.now) }
{
    let mut above = None;
    for text in texts {
        let Some(code) = add_below(dbd, pcb, above, text, ssas) else {
            return false;
        };
        above = Some(code);
    }
    true
}
