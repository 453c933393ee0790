ghost use Rattle.std.specs.Prelude.{◌≡◌};
ghost use Rattle.hd_commands.specs.Lines.{status_of, name_of};
ghost use Rattle.hd_commands.specs.Refusals.{of_check, of_unload, of_reload, of_run, of_refused};

use hd_check::{CheckFault, Fault};
use hd_dbd::Refused;
use hd_deck::RunFault;
use hd_session::OpenFault;
use hd_unload::{RecordFault, ReloadFault, UnloadFault};
use std::fmt;

/// Why a command ends without having done its work. Its text is the line on standard error.
#[derive(Clone, Copy, Debug, Drop, PartialEq, Eq)]
pub enum Refusal {
    /// The volume does not pass, and this is its first fault.
    Fault(Fault),
    /// The volume is of this version, which is not the newest.
    Old(u16),
    /// A PCB loads, and the volume holds a segment.
    NotEmpty,
    /// The stream's record of this number is refused, the first with a fault.
    Record(RecordFault, u64),
    /// The volume has no room for the stream's record of this number.
    Full(u64),
    /// An access of a file failed.
    Device,
    /// No memory.
    Memory,
}

impl fmt::Display for Refusal {
    ghost use Rattle.std.specs.Prelude.{Some};
    ghost use Rattle.hd_commands.specs.Lines.{text_of};

    ghost output = { λ r. Some (text_of r) };

    fn fmt<W: fmt::Write>(&self, f: &mut fmt::Formatter<W>) -> fmt::Result {
        match self {
            Refusal::Fault(fault) => {
                let (number, address, other) = (fault.number(), fault.address, fault.other);
                write!(f, "fault {number} at {address}, other {other}")
            }
            Refusal::Old(version) => write!(f, "volume of version {version}: unload and reload"),
            Refusal::NotEmpty => f.write_str("volume is not empty"),
            Refusal::Record(fault, record) => {
                let name = name_of(*fault);
                write!(f, "reload refused: {name} at record {record}")
            }
            Refusal::Full(record) => write!(f, "reload refused: Full at record {record}"),
            Refusal::Device => f.write_str("device failed"),
            Refusal::Memory => f.write_str("no memory"),
        }
    }
}

/// The name of a record's fault.
fn name_of(fault: RecordFault) -> &'static str
    ensures { result.now ≡ name_of fault }
{
    match fault {
        RecordFault::U1 => "U1",
        RecordFault::U2 => "U2",
        RecordFault::U3 => "U3",
        RecordFault::U4 => "U4",
        RecordFault::LB => "LB",
        RecordFault::LC => "LC",
        RecordFault::LD => "LD",
        RecordFault::LE => "LE",
    }
}

impl Refusal {
    /// The status with which the program ends.
    pub fn status(&self) -> u8
        ensures { result ≡ status_of self.now }
    {
        match self {
            Refusal::Fault(_)
            | Refusal::Old(_)
            | Refusal::NotEmpty
            | Refusal::Record(_, _)
            | Refusal::Full(_) => 1,
            Refusal::Device => 3,
            Refusal::Memory => 4,
        }
    }

    /// The refusal that a check's is.
    pub fn of_check(fault: CheckFault) -> Refusal
        ensures { result ≡ of_check fault }
    {
        match fault {
            CheckFault::Fault(fault) => Refusal::Fault(fault),
            CheckFault::Memory => Refusal::Memory,
            CheckFault::Device => Refusal::Device,
        }
    }

    /// The refusal that an unload's is.
    pub fn of_unload(fault: UnloadFault) -> Refusal
        ensures { result ≡ of_unload fault }
    {
        match fault {
            UnloadFault::Check(fault) => Refusal::of_check(fault),
            UnloadFault::Write | UnloadFault::Changed => Refusal::Device,
        }
    }

    /// The refusal that a reload's is.
    pub fn of_reload(fault: ReloadFault) -> Refusal
        ensures { result ≡ of_reload fault }
    {
        match fault {
            ReloadFault::Record(fault, record) => Refusal::Record(fault, record),
            ReloadFault::Full(record) => Refusal::Full(record),
            ReloadFault::Memory => Refusal::Memory,
            ReloadFault::Device => Refusal::Device,
        }
    }

    /// The refusal that a run's is.
    pub fn of_run(fault: RunFault) -> Refusal
        ensures { result ≡ of_run fault }
    {
        match fault {
            RunFault::Open(OpenFault::Check(fault)) => Refusal::Fault(fault),
            RunFault::Open(OpenFault::Old(version)) => Refusal::Old(version),
            RunFault::Open(OpenFault::NotEmptyForLoad) => Refusal::NotEmpty,
            RunFault::Open(OpenFault::Memory) | RunFault::Memory => Refusal::Memory,
            RunFault::Open(OpenFault::Device) | RunFault::Device | RunFault::Write =>
                Refusal::Device,
        }
    }

    /// The refusal that a volume's is which could not be read into memory.
    pub fn of_refused(refused: Refused) -> Refusal
        ensures { result ≡ of_refused refused }
    {
        match refused {
            Refused::Memory => Refusal::Memory,
            _ => Refusal::Device,
        }
    }
}
