ghost use Rattle.std.specs.Prelude.{◌≡◌, ◌≢◌, ◌<◌, ◌≤◌, length, All, IfOk, IfErr};
ghost use Rattle.hd_deck.specs.StepText.{StepFits};
ghost use Rattle.hd_deck.specs.Deck.{deck};

use crate::line::read_line;
use crate::reader::Reader;
use crate::step::Step;
use hd_lines::next_line;
use std::alloc::Global;
use std::fmt;
use thiserror::Error;

/// Why a deck is refused, with the number of the line, from 1. `Memory` says nothing of the deck.
#[derive(Clone, Copy, Debug, Drop, PartialEq, Eq, Error)]
pub enum DeckFault {
    /// A first column that begins no line of a deck.
    K1(usize),
    /// A function that is not one to four letters between blanks.
    K2(usize),
    /// A PCB number that is none of the program's.
    K3(usize),
    /// A line that belongs to a call, where no call is open.
    K4(usize),
    /// A repeat count that is not from 1 to 9,999.
    K5(usize),
    /// A line of more than 255 bytes.
    K6(usize),
    /// Bytes of an area that are not spelled by two hexadecimal digits each.
    K7(usize),
    /// No memory.
    Memory,
}

impl fmt::Display for DeckFault {
    fn fmt<W: fmt::Write>(&self, f: &mut fmt::Formatter<W>) -> fmt::Result {
        let (line, rule) = match *self {
            DeckFault::K1(line) => (line, 1),
            DeckFault::K2(line) => (line, 2),
            DeckFault::K3(line) => (line, 3),
            DeckFault::K4(line) => (line, 4),
            DeckFault::K5(line) => (line, 5),
            DeckFault::K6(line) => (line, 6),
            DeckFault::K7(line) => (line, 7),
            DeckFault::Memory => return f.write_str("no memory"),
        };
        write!(f, "line {line}, K{rule}")
    }
}

/// The steps of a deck over a program with so many PCBs, or the first line with a fault, and in it the first fault.
///
/// A line ends with a line feed, and a carriage return before it is dropped. S selects the PCB of the calls that
/// follow, L is a call. C, D and H belong to the call before: a segment search argument, bytes of the area, and bytes
/// in hexadecimal digits. A blank line and one with a star in front say nothing. A step takes a few words beside the text, in which its call is left.
pub fn read_deck<'t>(alloc: Global, bytes: &'t [u8], pcbs: u8) -> Result<Vec<Step<'t>>, DeckFault>
    requires { 0 < pcbs }
    ensures steps { IfOk result (λ v. deck pcbs bytes.now ≡ Ok v.items) }
    ensures fault { IfErr result (λ e. e ≢ DeckFault.Memory → deck pcbs bytes.now ≡ Err e) }
    ensures fit { IfOk result (λ v. All (StepFits pcbs) v.items) }
    ensures few { IfOk result (λ v. length v.items ≤ length bytes.now) }
{
    let mut reader = Reader::new(alloc);
    let mut rest = bytes;
    let mut number = 1;
    'lines: while !rest.is_empty() {
        let (line, after) = next_line(rest);
        let statement = read_line(line, number, pcbs, reader.is_open())?;
        reader.follow(statement, rest)?;
        number += 1;
        rest = after;
    }
    Ok(reader.into_steps())
}
