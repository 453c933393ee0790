ghost use Rattle.std.specs.Prelude.{◌≡◌, IfOk};

use hd_dbd::{Dbd, DbdFault, FreeSpace, Key, Name8, Rule, SegType};
use std::alloc::{AllocError, Global};

/// A type without fields. Its key stands first, has `key` bytes, and is unique where these are three or fewer; 0 is no key.
/// Twin backward is left out at a key of four bytes, and last child is kept at a key of two and without a key.
pub fn segment_type(
    alloc: Global,
    name: Name8,
    parent: Option<u8>,
    length: u32,
    key: u32,
) -> SegType {
    SegType {
        name,
        parent,
        length,
        least: None,
        key: if key == 0 {
            None
        } else {
            Some(Key {
                start: 1,
                length: key,
                unique: key <= 3,
            })
        },
        rule: Rule::Last,
        backward: key != 4,
        last_pointer: key == 2 || key == 0,
        fields: Vec::new(alloc),
    }
}

/// The types of the sample database: courses with their classes and books, and the students of each class.
fn sample_types(alloc: Global) -> Result<Vec<SegType>, AllocError> {
    let course = Name8::from_padded(*b"COURSE  ").unwrap();
    let class = Name8::from_padded(*b"CLASS   ").unwrap();
    let student = Name8::from_padded(*b"STUD    ").unwrap();
    let book = Name8::from_padded(*b"BOOK    ").unwrap();
    Ok(vec![in alloc;
        segment_type(alloc, course, None, 8, 3),
        segment_type(alloc, class, Some(1), 4, 2),
        segment_type(alloc, student, Some(2), 6, 4),
        segment_type(alloc, book, Some(1), 5, 0),
    ]?)
}

/// The sample database, without the fields of its types; the fault is `Memory` alone.
pub fn database(alloc: Global) -> Result<Dbd, DbdFault>
    ensures { IfOk result (λ dbd. dbd.block_size ≡ 128) }
{
    spaced_database(alloc, FreeSpace { fbff: 0, fspf: 0 })
}

/// The sample database of which a load leaves this free space.
pub fn spaced_database(alloc: Global, frspc: FreeSpace) -> Result<Dbd, DbdFault>
    ensures { IfOk result (λ dbd. dbd.block_size ≡ 128) }
{
    let name = Name8::from_padded(*b"EDU     ").unwrap();
    let types = sample_types(alloc)?;
    Dbd::new(alloc, name, 128, frspc, types)
}
