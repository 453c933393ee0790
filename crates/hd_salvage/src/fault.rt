use hd_dbd::Refused;
use thiserror::Error;

/// Why a salvage was not written whole. How much went out is not known.
#[derive(Clone, Copy, Debug, Drop, PartialEq, Eq, Error)]
pub enum SalvageFault {
    /// No memory.
    #[error("no memory")]
    Memory,
    /// An access of the volume's store failed.
    #[error("device failed")]
    Device,
    /// A write failed.
    #[error("write failed")]
    Write,
    /// The volume passed, and another has changed it behind its check.
    #[error("volume changed")]
    Changed,
}
