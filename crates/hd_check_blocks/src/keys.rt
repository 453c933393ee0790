//! The key of a stored segment.
ghost use Rattle.std.specs.Prelude.{◌≡◌, IfSome};
ghost use Rattle.hd_bytes.specs.Ranges.{bytes_at};
ghost use Rattle.hd_dbd.specs.Rows.{key_of};
ghost use Rattle.hd_prefix.specs.Fields.{bytes_of, IsWhole};
ghost use Rattle.hd_check_blocks.specs.Keys.{key_place};

use hd_dbd::Dbd;

/// The key of a stored segment of a type, without bytes where there is none.
pub fn stored_key<'s>(dbd: &Dbd, code: u8, segment: &'s [u8]) -> &'s [u8]
    ensures { IsWhole dbd.now.types code segment.now → result.now ≡ key_of dbd.now.types (record { code = code; bytes = bytes_of dbd.now.types code segment.now }) }
{
    let Some(behind) = segment.get(dbd.prefix_length(code) as usize..) else {
        return &[];
    };
    let length = dbd.length_in(code, behind);
    if length > behind.len() {
        return &[];
    }
    dbd.key_of(code, &behind[..length])
}

/// Where the segments of a type, which are all of one length, have their key, and how long it is.
#[derive(Clone, Copy)]
pub struct KeyPlace {
    start: usize,
    length: usize,
}

/// Where the segments of the type of a code have their key; `None` where they vary in length, and where there is no such type.
pub fn key_place(dbd: &Dbd, code: u8) -> Option<KeyPlace>
    ensures { result ≡ key_place dbd.now.types code }
{
    let own = dbd.type_of(code)?;
    if own.least.is_some() {
        return None;
    }
    let prefix = dbd.prefix_length(code) as usize;
    match own.key {
        Some(key) => Some(KeyPlace {
            start: prefix + (key.start as usize).saturating_sub(1),
            length: key.length as usize,
        }),
        None => Some(KeyPlace {
            start: prefix,
            length: 0,
        }),
    }
}

/// The bytes of a stored segment at the place of a key.
fn bytes_in(place: KeyPlace, segment: &[u8]) -> &[u8]
    ensures { result.now ≡ bytes_at segment.now place.start place.length }
{
    let start = place.start.min(segment.len());
    let count = place.length.min(segment.len() - start);
    &segment[start..start + count]
}

/// The key of a stored segment of a type, without bytes where there is none, by where the segments of the type have it.
pub fn key_at<'s>(place: Option<KeyPlace>, dbd: &Dbd, code: u8, segment: &'s [u8]) -> &'s [u8]
    requires { place ≡ key_place dbd.now.types code }
    ensures { IsWhole dbd.now.types code segment.now → result.now ≡ key_of dbd.now.types (record { code = code; bytes = bytes_of dbd.now.types code segment.now }) }
{
    let _types = dbd.types();
    let Some(place) = place else {
        return stored_key(dbd, code, segment);
    };
    bytes_in(place, segment)
}

/// The key of a stored segment with which some bytes begin, by where the segments of its type have it; `None` where there are fewer bytes.
pub fn whole_key(place: KeyPlace, bytes: &[u8]) -> Option<&[u8]>
    ensures { IfSome result (λ key. key.now ≡ bytes_at bytes.now place.start place.length) }
{
    let behind = bytes.get(place.start..)?;
    behind.get(..place.length)
}
