use std::alloc::{AllocError, Global};

/// The records of the sample image's seven rows, and the end.
pub const RECORDS: &[u8] =
    b"\x01\0\x08101ALGEB\x02\0\x0401AB\x03\0\x06ADAM01\x03\0\x06EVE 02\x02\0\x0402CD\x04\0\x05EULER\x01\0\x08205LOGIC\0\0\0\0\x07";

/// An unload stream of the sample database: its header, and these records.
pub fn stream_of(alloc: Global, records: &[u8]) -> Result<Vec<u8>, AllocError> {
    let mut bytes = Vec::new(alloc);
    bytes.extend_from_slice(b"HDUNLOAD\0\x01EDU     ")?;
    bytes.extend_from_slice(records)?;
    Ok(bytes)
}
