use std::marker::Model;

/// A call of a deck, the number of its PCB, from 1, and how often it is made, from 1 to 9,999 times. The call stands in the deck's text, which the step
/// borrows, until a `CallRoom` makes it.
#[derive(Drop)]
pub struct Step<'t> {
    pub pcb: u8,
    pub repeat: u16,
    /// How many lines with an argument belong to the call, for the room that it takes.
    pub(crate) arguments: u32,
    /// The deck, from the line of the call on.
    pub(crate) text: &'t [u8],
}

impl<'t> Model for Step<'t> {
    ghost use Rattle.std.specs.Str.Lines.{lines};
    ghost use Rattle.hd_deck.specs.StepText.{StepText};
    ghost use Rattle.hd_deck.specs.CallLines.{call_at};

    ghost Value = { StepText };

    ghost view = { λ s. record { pcb = s.pcb; repeat = s.repeat; call = call_at (lines s.text.now) } };
}
