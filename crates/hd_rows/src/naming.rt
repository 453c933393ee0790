use hd_dbd::{Dbd, Name8};

/// The bytes without the blanks at their end.
pub fn without_padding(bytes: &[u8]) -> &[u8] {
    let mut left = bytes;
    for _ in 0..bytes.len() {
        let [before @ .., b' '] = left else {
            return left;
        };
        left = before;
    }
    left
}

/// The name that the bytes spell without padding; `None` where they spell none.
pub fn name_of(bytes: &[u8]) -> Option<Name8> {
    if bytes.len() > 8 {
        return None;
    }
    let mut padded = [b' '; 8];
    padded[..bytes.len()].copy_from_slice(bytes);
    Name8::from_padded(padded)
}

/// The code of the type of a name, which is without padding; `None` where the database has no such type.
pub fn code_named(dbd: &Dbd, name: &[u8]) -> Option<u8> {
    let name = name_of(name)?;
    let mut code = 0u8;
    for segment in dbd.types() {
        code = code.saturating_add(1);
        if segment.name == name {
            return Some(code);
        }
    }
    None
}
