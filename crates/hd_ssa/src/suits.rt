ghost use Rattle.std.specs.Prelude.{◌≡◌};
ghost use Rattle.hd_dbd.specs.Views.{Setting};
ghost use Rattle.hd_calls.specs.Ssas.{first_inserted};
ghost use Rattle.hd_ssa.specs.AtOnce.{are_unqualified, are_steps_down, suits_insert, suits};

use crate::resolution::{ResolvedSsa, loads};
use hd_calls::Function;
use hd_dbd::{Dbd, Pcb};

/// The place of the first inserted argument: the first with D, or else the last.
fn first_inserted(ssas: &[ResolvedSsa<'_>]) -> usize
    ensures { result ≡ first_inserted ssas.now }
{
    for place in 0..ssas.len() {
        let ssa = &ssas[place];
        if ssa.commands().path {
            return place;
        }
    }
    ssas.len().saturating_sub(1)
}

/// Whether no argument has a qualification.
fn are_unqualified(ssas: &[ResolvedSsa<'_>]) -> bool
    ensures { result ≡ are_unqualified ssas.now }
{
    for ssa in ssas {
        if ssa.is_qualified() {
            return false;
        }
    }
    true
}

/// Whether each argument's type is the child of the type of the one before it.
fn are_steps_down(dbd: &Dbd, ssas: &[ResolvedSsa<'_>]) -> bool
    ensures { result ≡ are_steps_down dbd.now.types ssas.now }
{
    let mut above = None;
    for ssa in ssas {
        let code = ssa.code();
        if let Some(above) = above {
            match dbd.parent_of(code) {
                Some(parent) => {
                    if parent != above {
                        return false;
                    }
                }
                None => return false,
            }
        }
        above = Some(code);
    }
    true
}

/// Whether an ISRT may have these arguments.
fn suits_insert(dbd: &Dbd, pcb: &Pcb, ssas: &[ResolvedSsa<'_>]) -> bool
    ensures { result ≡ suits_insert (record { types = dbd.now.types; pcb = pcb.now }) ssas.now }
{
    let first = first_inserted(ssas);
    are_unqualified(&ssas[first.min(ssas.len())..])
        && (!loads(pcb) || ssas.len() <= 1)
        && are_steps_down(dbd, &ssas[first.saturating_sub(1).min(ssas.len())..])
}

/// Whether a function may have these arguments.
pub(crate) fn suits(function: Function, dbd: &Dbd, pcb: &Pcb, ssas: &[ResolvedSsa<'_>]) -> bool
    ensures { result ≡ suits (record { types = dbd.now.types; pcb = pcb.now }) function ssas.now }
{
    match function {
        Function::Get(_, _) => true,
        Function::Insert => suits_insert(dbd, pcb, ssas),
        Function::Replace => are_unqualified(ssas),
        Function::Delete => are_unqualified(ssas) && ssas.len() <= 1,
    }
}
