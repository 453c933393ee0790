ghost use Rattle.std.specs.Prelude.{◌≡◌, [], IfOk};
ghost use Rattle.std.specs.Str.Lines.{lines};
ghost use Rattle.hd_deck.specs.Deck.{call_in};
ghost use Rattle.hd_deck.specs.CallLines.{call_at, with_argument, with_bytes, with_line, with_parts, ends_call};

use crate::hex::put_hex_bytes;
use crate::line::{column, four_columns, from_column};
use crate::step::Step;
use hd_lines::next_line;
use hd_session::Call;
use std::alloc::{AllocError, Global};
use std::marker::Model;

/// An argument has so many bytes at most: what a line has from column 12 on.
const ARGUMENT: usize = 244;

/// The call that is made of one step after another.
#[derive(Drop)]
pub struct CallRoom {
    alloc: Global,
    call: Call,
    spare: Vec<Vec<u8>>,
}

impl Model for CallRoom {
    ghost use Rattle.hd_dbd.specs.Calls.{CallText};

    ghost Value = { CallText };

    ghost view = { λ r. r.call };
}

/// How many arguments a call of the steps has at most, and how many bytes its lines.
fn most_of(steps: &[Step<'_>]) -> (usize, usize) {
    let mut arguments = 0usize;
    let mut bytes = 0usize;
    let mut behind = 0usize;
    for step in steps.iter().rev() {
        arguments = arguments.max(step.arguments as usize);
        bytes = bytes.max(step.text.len().saturating_sub(behind));
        behind = step.text.len();
    }
    (arguments, bytes)
}

/// So many empty texts, each with room for so many bytes.
fn texts_with_room(alloc: Global, count: usize, bytes: usize) -> Result<Vec<Vec<u8>>, AllocError> {
    let mut texts = Vec::with_capacity(alloc, count)?;
    for _ in 0..count {
        texts.push(Vec::with_capacity(alloc, bytes)?)?;
    }
    Ok(texts)
}

impl CallRoom {
    /// Room in which each call of the steps can be made, the steps being all of a deck, or some that follow each other in it.
    pub fn new(alloc: Global, steps: &[Step<'_>]) -> Result<CallRoom, AllocError>
        ensures { IfOk result (λ r. r ≡ call_in []) }
    {
        let (arguments, bytes) = most_of(steps);
        Ok(CallRoom {
            alloc,
            call: Call {
                func: [b' '; 4],
                ssas: Vec::with_capacity(alloc, arguments)?,
                area: Vec::with_capacity(alloc, bytes)?,
            },
            spare: texts_with_room(alloc, arguments, bytes.min(ARGUMENT))?,
        })
    }

    /// The call that was made last.
    pub fn call(&self) -> &Call
        ensures { result.now ≡ self.now }
    {
        &self.call
    }

    /// Makes the call of a step.
    pub fn make(&mut self, step: &Step<'_>) -> Result<(), AllocError>
        ensures { IfOk result (λ _. self.new ≡ step.now.call) }
    {
        let (line, mut rest) = first_line(step.text);
        self.begin(line)?;
        'lines: while !rest.is_empty() {
            if ends_call(rest) {
                return Ok(());
            }
            let (line, after) = next_line(rest);
            self.add_line(line)?;
            rest = after;
        }
        Ok(())
    }

    /// Makes the call that an L line says by itself.
    fn begin(&mut self, line: &[u8]) -> Result<(), AllocError>
        ensures { IfOk result (λ _. self.new ≡ call_in line.now) }
    {
        self.empty()?;
        self.call.func = four_columns(line, 7);
        if line.len() > 11 {
            self.add_argument(&line[11..])?;
        }
        Ok(())
    }

    /// Takes the arguments and the area out of the call. What the arguments had of room is kept.
    fn empty(&mut self) -> Result<(), AllocError>
        ensures { IfOk result (λ _. (self.new.ssas ≡ []) × (self.new.area ≡ [])) }
    {
        self.call.area.clear();
        self.spare.append(&mut self.call.ssas)
    }

    /// Adds what a line says that belongs to the call.
    fn add_line(&mut self, line: &[u8]) -> Result<(), AllocError>
        ensures { IfOk result (λ _. self.new ≡ with_line line.now self.old) }
    {
        match column(line, 1) {
            b'C' => self.add_argument(from_column(line, 12)),
            b'D' => self.call.area.extend_from_slice(from_column(line, 2)),
            b'H' => put_hex_bytes(&mut self.call.area, from_column(line, 2)),
            _ => Ok(()),
        }
    }

    /// Gives the call one segment search argument more.
    #[inline(always)] // It is called for most lines, and the call would put aside more than the text has.
    fn add_argument(&mut self, text: &[u8]) -> Result<(), AllocError>
        ensures { IfOk result (λ _. self.new ≡ with_argument text.now self.old) }
    {
        let mut ssa = match self.spare.pop() {
            Some(ssa) => ssa,
            None => Vec::new(self.alloc),
        };
        ssa.clear();
        ssa.extend_from_slice(text)?;
        self.call.ssas.push(ssa).map_err(|_| AllocError)
    }
}

/// The first line of a text, an empty one where there is none, and what follows it.
fn first_line(text: &[u8]) -> (&[u8], &[u8])
    ensures { call_at (lines text.now) ≡ with_parts (lines result.1.now) (call_in result.0.now) }
{
    if text.is_empty() {
        return (&[], &[]);
    }
    next_line(text)
}

/// Whether a line selects a PCB, or is a call: so does a text that begins with it.
fn ends_call(line: &[u8]) -> bool
    ensures { result ≡ ends_call line.now }
{
    column(line, 1) == b'S' || column(line, 1) == b'L'
}
