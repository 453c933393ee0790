//! The segments that are read in a volume, in order of their addresses.

/// A segment that was read in a data block: where it stands, the bytes that it takes, its code, and where in the table of pointers its own
/// begin.
#[derive(Clone, Copy, Debug, Drop, PartialEq, Eq)]
pub struct Record {
    pub block: u32,
    pub place: u16,
    pub size: u16,
    pub pointers: u32,
    pub code: u8,
}
