ghost use Rattle.std.specs.Prelude.{◌≡◌, IfOk, IfErr};
ghost use Rattle.std.specs.Str.Lines.{lines};
ghost use Rattle.hd_deck.specs.Deck.{at_first_line};
ghost use Rattle.hd_deck.specs.Lines.{followed_by};

use crate::deck::DeckFault;
use crate::line::Statement;
use crate::step::Step;
use std::alloc::Global;
use std::marker::Model;

/// What the lines of a deck have said so far. A step has its whole call as soon as the line of the call is read.
#[derive(Drop)]
pub(crate) struct Reader<'t> {
    pcb: u8,
    is_open: bool,
    steps: Vec<Step<'t>>,
}

impl<'t> Model for Reader<'t> {
    ghost use Rattle.hd_deck.specs.Deck.{Reading};

    ghost Value = { Reading };

    ghost view = { λ r. record { pcb = r.pcb; is_open = r.is_open; steps = r.steps.items } };
}

impl<'t> Reader<'t> {
    pub(crate) fn new(alloc: Global) -> Reader<'t>
        ensures { result ≡ at_first_line }
    {
        Reader {
            pcb: 1,
            is_open: false,
            steps: Vec::new(alloc),
        }
    }

    /// Whether a call stands before, to which the next lines may belong.
    pub(crate) fn is_open(&self) -> bool
        ensures { result ≡ self.now.is_open }
    {
        self.is_open
    }

    pub(crate) fn into_steps(self) -> Vec<Step<'t>>
        ensures { result.items ≡ self.entry.steps }
    {
        self.steps
    }

    /// Adds what the first line of a text says. After `Memory` nothing is known of the steps.
    pub(crate) fn follow(&mut self, statement: Statement, text: &'t [u8]) -> Result<(), DeckFault>
        ensures next { IfOk result (λ _. self.new ≡ followed_by statement (lines text.now) self.old) }
        ensures memory { IfErr result (λ e. e ≡ DeckFault.Memory) }
    {
        match statement {
            Statement::Comment | Statement::Bytes => Ok(()),
            Statement::Select(pcb) => {
                self.pcb = pcb;
                self.is_open = false;
                Ok(())
            }
            Statement::Call(repeat) => {
                self.is_open = true;
                let step = Step {
                    pcb: self.pcb,
                    repeat,
                    arguments: 1,
                    text,
                };
                self.steps.push(step).map_err(|_| DeckFault::Memory)
            }
            Statement::Argument => {
                count_argument(&mut self.steps);
                Ok(())
            }
        }
    }
}

/// Counts one argument more for the call of the last step.
fn count_argument(steps: &mut Vec<Step<'_>>)
    ensures { steps.new.items ≡ steps.old.items }
{
    if let Some(step) = steps.last_mut() {
        step.arguments = step.arguments.saturating_add(1);
    }
}
