use hd_calls::Function;
use hd_ssa::ResolvedSsa;
use std::marker::Model;

/// A call that passed its tests: what it does, and what its arguments mean to its PCB.
#[derive(Drop)]
pub struct Accepted<'a> {
    pub function: Function,
    pub ssas: &'a [ResolvedSsa<'a>],
}

impl<'a> Model for Accepted<'a> {
    ghost use Rattle.hd_calls.specs.Steps.{AcceptedCall};

    ghost Value = { AcceptedCall };

    ghost view = { λ a. record { function = a.function; ssas = a.ssas.now } };
}
