//! A fault of any phase.
ghost use Rattle.std.specs.Prelude.{◌≡◌};
ghost use Rattle.hd_image.specs.Standing.{number_of};

use hd_image::Line;
use std::fmt;

/// What is wrong with a volume: a line of the fault table, the address where it stands, and what else it names, 0 where
/// it names nothing.
#[derive(Clone, Copy, Debug, Drop, PartialEq, Eq)]
pub struct Fault {
    pub line: Line,
    pub address: u32,
    pub other: u32,
}

impl Fault {
    /// The fault of a line at an address.
    pub fn at(line: Line, address: u32, other: u32) -> Fault
        ensures { result ≡ record { line = line; address = address; other = other } }
    {
        Fault {
            line,
            address,
            other,
        }
    }

    /// Its number in the fault table, from 1 to 20.
    pub fn number(&self) -> u8
        ensures { result ≡ number_of self.now.line self.now.address }
    {
        self.line.number(self.address)
    }
}

impl fmt::Display for Fault {
    fn fmt<W: fmt::Write>(&self, f: &mut fmt::Formatter<W>) -> fmt::Result {
        let number = self.number();
        let address = self.address;
        let other = self.other;
        write!(f, "fault {number} at {address}, other {other}")
    }
}
