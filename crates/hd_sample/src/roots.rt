//! Databases of a root type alone, and streams of its segments.

ghost use Rattle.std.specs.Prelude.{◌≡◌, ◌≤◌, ◌<◌, IfOk};

use hd_dbd::{Dbd, DbdFault, FreeSpace, Key, Name8, Rule, SegType};
use std::alloc::{AllocError, Global};

/// The bytes of a segment behind its key.
const REST: u32 = 2;

/// A database of a root type, whose segments begin with a key of so many bytes and have two more.
pub fn root_database(alloc: Global, block_size: u32, key_length: u8) -> Result<Dbd, DbdFault>
    ensures size { IfOk result (λ dbd. dbd.block_size ≡ block_size) }
{
    let mut types = Vec::new(alloc);
    types
        .push(SegType {
            name: Name8::from_padded(*b"ROOT    ").unwrap(),
            parent: None,
            length: u32::from(key_length) + REST,
            least: None,
            key: Some(Key {
                start: 1,
                length: u32::from(key_length),
                unique: true,
            }),
            rule: Rule::Last,
            backward: true,
            last_pointer: false,
            fields: Vec::new(alloc),
        })
        .map_err(AllocError::from)?;
    let name = Name8::from_padded(*b"ROOTS   ").unwrap();
    Dbd::new(
        alloc,
        name,
        block_size,
        FreeSpace { fbff: 0, fspf: 0 },
        types,
    )
}

/// Adds the record of a root: its key is a number in its last three bytes, the highest first, behind blanks, and two more bytes follow.
fn add_root(stream: &mut Vec<u8>, key_length: u8, number: u32) -> Result<(), AllocError>
    requires { 3 ≤ key_length }
{
    let [_, high, middle, low] = number.to_be_bytes();
    stream.push(1)?;
    stream.extend_from_slice(&(u16::from(key_length) + 2).to_be_bytes())?;
    for _ in 3..key_length {
        stream.push(b' ')?;
    }
    stream.extend_from_slice(&[high, middle, low, b'.', b'.'])
}

/// The unload stream of so many roots, whose keys are the numbers from 1 on, each so much more than the one before.
pub fn root_stream(
    alloc: Global,
    dbd: &Dbd,
    key_length: u8,
    count: u32,
    step: u32,
) -> Result<Vec<u8>, AllocError>
    requires long { 3 ≤ key_length }
{
    let mut stream = Vec::new(alloc);
    stream.extend_from_slice(b"HDUNLOAD\0\x01")?;
    stream.extend_from_slice(dbd.name().bytes())?;
    for place in 0..count {
        add_root(
            &mut stream,
            key_length,
            place.wrapping_mul(step).wrapping_add(1),
        )?;
    }
    stream.push(0)?;
    stream.extend_from_slice(&count.to_be_bytes())?;
    Ok(stream)
}
