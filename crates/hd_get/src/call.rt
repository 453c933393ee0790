use hd_calls::GetKind;
use hd_dbd::Pcb;
use hd_ssa::ResolvedSsa;
use std::marker::Model;

/// A get: whose it is, where it looks, whether it holds what it returns, and its segment search arguments.
#[derive(Drop)]
pub struct Get<'a> {
    pub pcb: &'a Pcb,
    pub kind: GetKind,
    pub hold: bool,
    pub ssas: &'a [ResolvedSsa<'a>],
}

impl<'a> Model for Get<'a> {
    ghost use Rattle.hd_get.specs.Gets.{GetCall};

    ghost Value = { GetCall };

    ghost view = { λ g. record { pcb = g.pcb.now; kind = g.kind; hold = g.hold; ssas = g.ssas.now } };
}
