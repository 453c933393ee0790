use crate::part::Part;
use hd_dbd::{Dbd, Name8};
use std::alloc::{AllocError, Global};

/// A type above another that has a key: its code, its name and its key.
#[derive(Clone, Copy)]
pub struct Above {
    pub code: u8,
    pub name: Name8,
    pub key: Part,
}

/// The types above a type that have a key, the root first.
pub fn keys_above(alloc: Global, dbd: &Dbd, code: u8) -> Result<Vec<Above>, AllocError> {
    let mut keys = Vec::new(alloc);
    for above in 1..code {
        if !dbd.is_under(code, above) {
            continue;
        }
        let Some(segment) = dbd.type_of(above) else {
            continue;
        };
        if let Some(key) = &segment.key {
            keys.push(Above {
                code: above,
                name: segment.name,
                key: Part::of_key(segment, key),
            })?;
        }
    }
    Ok(keys)
}
