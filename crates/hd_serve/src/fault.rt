use std::alloc::AllocError;
use std::fmt;
use thiserror::Error;

/// Why no request is read from an input.
#[derive(Clone, Copy, Debug, Drop, PartialEq, Eq, Error)]
pub enum FrameFault {
    /// The input could not be read.
    Read,
    /// No memory for the request.
    Memory,
    /// The input ends inside a frame.
    Cut,
    /// The length of a body, in bytes, is more than that of any right one.
    Long(u32),
    /// A body ends before its parts do.
    Short,
    /// A commit's or a roll back's body, which has this kind, goes on behind it.
    Extra(u8),
    /// The first byte of a body, or of the body of a call in it, is none that may stand there.
    Kind(u8),
    /// The program has no PCB of this number.
    Pcb(u8),
    /// More than 15 segment search arguments.
    Ssas(u8),
    /// The length of an I/O area, in bytes, is more than that of any path of segments.
    Area(usize),
}

impl fmt::Display for FrameFault {
    fn fmt<W: fmt::Write>(&self, f: &mut fmt::Formatter<W>) -> fmt::Result {
        let (before, number, behind) = match *self {
            FrameFault::Read => return f.write_str("device failed"),
            FrameFault::Memory => return f.write_str("no memory"),
            FrameFault::Cut => return f.write_str("input ends inside a frame"),
            FrameFault::Long(bytes) => ("a body of ", bytes as usize, " bytes"),
            FrameFault::Short => return f.write_str("a body that ends before its parts"),
            FrameFault::Extra(kind) => (
                "a frame of kind ",
                usize::from(kind),
                " with further bytes",
            ),
            FrameFault::Kind(kind) => ("a frame of kind ", usize::from(kind), ""),
            FrameFault::Pcb(number) => ("no PCB ", usize::from(number), ""),
            FrameFault::Ssas(count) => ("", usize::from(count), " segment search arguments"),
            FrameFault::Area(bytes) => ("an area of ", bytes, " bytes"),
        };
        write!(f, "{before}{number}{behind}")
    }
}

impl From<AllocError> for FrameFault {
    ghost use Rattle.hd_serve.specs.declared.fault.FrameFault.TheVariants.{Memory};
    ghost use Rattle.std.specs.Prelude.{◌≡◌};

    ghost from_gives = { λ _ e. e ≡ Memory };

    fn from(_refused: AllocError) -> FrameFault {
        FrameFault::Memory
    }
}

/// Why a database and a program can't be told to the calling side.
#[derive(Clone, Copy, Debug, Drop, PartialEq, Eq, Error)]
pub enum HelloFault {
    /// A number has no room in its place: a type has more than 255 fields.
    #[error("a type with more than 255 fields")]
    Large,
    /// No memory.
    #[error("no memory")]
    Memory,
}

impl From<AllocError> for HelloFault {
    ghost use Rattle.hd_serve.specs.declared.fault.HelloFault.TheVariants.{Memory};
    ghost use Rattle.std.specs.Prelude.{◌≡◌};

    ghost from_gives = { λ _ e. e ≡ Memory };

    fn from(_refused: AllocError) -> HelloFault {
        HelloFault::Memory
    }
}

/// A frame was not written: the system refused it, it is too long for a frame, or there is no memory for it. How much of it went out is not
/// known.
#[derive(Clone, Copy, Debug, Drop, PartialEq, Eq, Error)]
#[error("write failed")]
pub struct WriteFault;
