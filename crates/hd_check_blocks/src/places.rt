//! The table of the places of the segments, which phase 2 notes.

/// Where a segment stands, and its code.
#[derive(Clone, Copy, Debug)]
pub struct Place {
    pub address: u32,
    pub code: u8,
}
