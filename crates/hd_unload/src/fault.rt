ghost use Rattle.std.specs.Prelude.{◌≡◌};
ghost use Rattle.hd_unload.specs.Streams.{refusal_of};

use hd_dbd::LoadFault;
use thiserror::Error;

/// What is wrong with a record of an unload stream. Of one record a fault of the spelling comes before one of the load.
#[derive(Clone, Copy, Debug, Drop, PartialEq, Eq, Error)]
pub enum RecordFault {
    /// The stream is none, or one of another database: its first 18 bytes are others.
    #[error("U1")]
    U1,
    /// The stream ends too early.
    #[error("U2")]
    U2,
    /// The database has no type of the code.
    #[error("U3")]
    U3,
    /// The length is none that the type allows, or not the one that the row says itself; or the end counts other records, or
    /// bytes follow it.
    #[error("U4")]
    U4,
    /// The twin before it has the same key, which is unique.
    #[error("LB")]
    LB,
    /// The twin before it has a greater key.
    #[error("LC")]
    LC,
    /// No row of the parent type is on the path of the row before it.
    #[error("LD")]
    LD,
    /// A row of a later type stands before it below the same parent.
    #[error("LE")]
    LE,
}

/// Why a stream is not loaded. Records count from 1; 0 is the header.
#[derive(Clone, Copy, Debug, Drop, PartialEq, Eq, Error)]
pub enum ReloadFault {
    /// A record is refused, the first with a fault.
    #[error("{0} at record {1}")]
    Record(RecordFault, u64),
    /// The volume has no room for a record.
    #[error("Full at record {0}")]
    Full(u64),
    /// No memory.
    #[error("no memory")]
    Memory,
    /// An access of the store failed.
    #[error("device failed")]
    Device,
}

/// Why the unload stream of a volume is not written whole. How much went out is not known.
#[derive(Clone, Copy, Debug, Drop, PartialEq, Eq, Error)]
pub enum StreamFault {
    /// An access of the volume's store failed.
    #[error("device failed")]
    Device,
    /// A write failed.
    #[error("write failed")]
    Write,
}

impl RecordFault {
    /// The fault of a record whose row may not be loaded.
    pub(crate) fn of_load(fault: LoadFault) -> RecordFault
        ensures { result ≡ refusal_of fault }
    {
        match fault {
            LoadFault::LB => RecordFault::LB,
            LoadFault::LC => RecordFault::LC,
            LoadFault::LD => RecordFault::LD,
            LoadFault::LE => RecordFault::LE,
        }
    }
}
