//! Databases, programs and volumes that the lists of calls begin with, by texts.

use crate::list_text::{cut, is_end, is_slash, number_of};
use crate::stores::{SIZE, Sparing};
use hd_dbd::{DataType, Dbd, DbdFault, Field, FreeSpace, Key, Name8, Pcb, Rule, SegType, Sens};
use hd_sample::{image, put, stream_of, widened};
use hd_unload::reload;
use std::alloc::{AllocError, Global};
use std::str;

/// The sample's types. A line has the name, the parent's code, the length of segments and of the key, whether the key is unique, whether twin backward and
/// the parent's last child are kept, and the name of the key's field.
const SAMPLE: &[u8] = b"COURSE  /0/8/3/1/1/0/NUM     
CLASS   /1/4/2/1/1/1/ED      
STUD    /2/6/4/0/0/0/SNAME   
BOOK    /1/5/0/0/1/1/NONE    ";

/// Below a root a type for each sort of key, unique, not unique and none, with twin backward and last child, and without.
const KINDS: &[u8] = b"ROOT    /0/8/3/1/1/0/KEY     
SINGLE  /1/8/2/1/1/1/KEY     
SINGLE1 /1/8/2/1/0/0/KEY     
MANY    /1/8/2/0/1/1/KEY     
MANY1   /1/8/2/0/0/0/KEY     
NOKEY   /1/8/0/0/1/1/NONE    
NOKEY1  /1/8/0/0/0/0/NONE    ";

/// Rows of the sample's types, with the code of their type.
const ROWS: &[u8] = b"1 101ALGEB/2 01AB/3 ADAM01/3 EVE 02/2 02CD/4 EULER/1 205LOGIC";

/// Three courses, 1, 20 and 39, each with four classes, which have three students each, and with two books.
const COURSES: &[u8] =
    b"1 101/2 01/3 ADAM/3 BETH/3 EVE /2 03/3 ADAM/3 BETH/3 EVE /2 05/3 ADAM/3 BETH/3 EVE /2 07/3 ADAM/3 BETH/3 EVE /4 EULER/4 GAUSS\
/1 205/2 01/3 ADAM/3 BETH/3 EVE /2 03/3 ADAM/3 BETH/3 EVE /2 05/3 ADAM/3 BETH/3 EVE /2 07/3 ADAM/3 BETH/3 EVE /4 EULER/4 GAUSS\
/1 309/2 01/3 ADAM/3 BETH/3 EVE /2 03/3 ADAM/3 BETH/3 EVE /2 05/3 ADAM/3 BETH/3 EVE /2 07/3 ADAM/3 BETH/3 EVE /4 EULER/4 GAUSS";

/// Ten courses, each of which fills a block with its four rows.
const FULL: &[u8] =
    b"1 100ALGEB/2 01AB/2 02CD/4 EULER/4 GAUSS/1 101ALGEB/2 01AB/2 02CD/4 EULER/4 GAUSS/1 102ALGEB/2 01AB/2 02CD/4 EULER/4 GAUSS\
/1 103ALGEB/2 01AB/2 02CD/4 EULER/4 GAUSS/1 104ALGEB/2 01AB/2 02CD/4 EULER/4 GAUSS/1 105ALGEB/2 01AB/2 02CD/4 EULER/4 GAUSS\
/1 106ALGEB/2 01AB/2 02CD/4 EULER/4 GAUSS/1 107ALGEB/2 01AB/2 02CD/4 EULER/4 GAUSS/1 108ALGEB/2 01AB/2 02CD/4 EULER/4 GAUSS\
/1 109ALGEB/2 01AB/2 02CD/4 EULER/4 GAUSS";

/// Four courses, each of which fills a block with its first three classes, and another with its other rows.
const SPREAD: &[u8] =
    b"1 100ALGEB/2 01AB/2 02CD/2 03EF/2 04GH/2 05IJ/2 06KL/4 EULER/4 GAUSS/4 ABEL \
/1 101ALGEB/2 01AB/2 02CD/2 03EF/2 04GH/2 05IJ/2 06KL/4 EULER/4 GAUSS/4 ABEL \
/1 102ALGEB/2 01AB/2 02CD/2 03EF/2 04GH/2 05IJ/2 06KL/4 EULER/4 GAUSS/4 ABEL \
/1 103ALGEB/2 01AB/2 02CD/2 03EF/2 04GH/2 05IJ/2 06KL/4 EULER/4 GAUSS/4 ABEL ";

/// Two roots, 1 and 26, and below the first four rows of each type: 2 to 5 of SINGLE, 6 to 9 of SINGLE1, 10 to 13 of MANY, 14 to 17 of MANY1, 18 to 21 of
/// NOKEY, and 22 to 25 of NOKEY1.
const TWINS: &[u8] =
    b"1 100/2 10/2 20/2 30/2 40/3 10/3 20/3 30/3 40/4 10/4 20/4 20/4 30/5 10/5 20/5 20/5 30\
/6 10/6 20/6 20/6 30/7 10/7 20/7 20/7 30/1 300";

/// The types and rows that a letter names, and how many bytes each segment has; where that is 0, those of its type.
fn texts_of(letter: u8) -> (&'static [u8], &'static [u8], usize) {
    match letter {
        b'K' => (KINDS, TWINS, 70),
        b'W' => (SAMPLE, COURSES, 90),
        b'X' => (SAMPLE, ROWS, 90),
        b'F' => (SAMPLE, FULL, 0),
        b'S' => (SAMPLE, SPREAD, 0),
        b'N' => (SAMPLE, b"", 0),
        _ => (SAMPLE, ROWS, 0),
    }
}

/// The name at a place of a line; `ODD` where there is none.
fn name_at(line: &[u8], place: usize) -> Name8 {
    let mut padded = *b"ODD     ";
    put(&mut padded, 0, line.get(place..).unwrap_or(b""));
    let odd = Name8::from_padded(*b"ODD     ").unwrap();
    Name8::from_padded(padded).unwrap_or(odd)
}

/// The type that a line says, whose segments have so many bytes, if that is not 0.
fn type_in(alloc: Global, line: &[u8], width: usize) -> Result<SegType, AllocError> {
    let mut numbers = [0u32; 8];
    for (place, word) in line.split(is_slash).enumerate() {
        if let Some(own) = numbers.get_mut(place) {
            *own = number_of(word);
        }
    }
    let [_, parent, length, key, unique, backward, last, _] = numbers;
    let mut own = SegType {
        name: name_at(line, 0),
        parent: None,
        length: if width == 0 {
            length
        } else {
            (width % 256) as u32
        },
        least: None,
        key: None,
        rule: Rule::Last,
        backward: backward == 1,
        last_pointer: last == 1,
        fields: Vec::new(alloc),
    };
    if parent > 0 {
        own.parent = Some((parent % 256) as u8);
    }
    if key > 0 {
        own.key = Some(Key {
            start: 1,
            length: key,
            unique: unique == 1,
        });
        own.fields.push(Field {
            name: name_at(line, 21),
            start: 1,
            length: key,
            data_type: DataType::Character,
        })?;
    }
    Ok(own)
}

/// The database of these types.
fn database_of(alloc: Global, text: &[u8], width: usize) -> Result<Dbd, DbdFault> {
    let mut types = Vec::new(alloc);
    for line in text.split(is_end) {
        let own = type_in(alloc, line, width)?;
        types.push(own).map_err(AllocError::from)?;
    }
    let frspc = FreeSpace { fbff: 0, fspf: 0 };
    Dbd::new(alloc, name_at(b"EDU     ", 0), SIZE as u32, frspc, types)
}

/// The PCB of a text: the letters of its PROCOPT, and behind a `:` the codes of the types that it sees.
fn pcb_of(alloc: Global, dbd: &Dbd, text: &[u8]) -> Result<Pcb, AllocError> {
    let (letters, codes) = cut(text, b':');
    let mut sens = Vec::new(alloc);
    for digit in codes {
        if let Some(own) = dbd.type_of(digit.wrapping_sub(b'0')) {
            let parent = match dbd.type_of(own.parent.unwrap_or(0)) {
                Some(parent) => Some(parent.name),
                None => None,
            };
            sens.push(Sens {
                name: own.name,
                parent,
                procopt: None,
            })?;
        }
    }
    Ok(Pcb {
        procopt: String::from_str(alloc, str::from_utf8(letters).unwrap_or(""))?,
        sens,
    })
}

/// The parts of a text one behind the other, each filled up with points to so many bytes.
pub fn filled(alloc: Global, text: &[u8], width: usize) -> Result<Vec<u8>, AllocError> {
    let mut bytes = Vec::new(alloc);
    for part in text.split(is_slash) {
        let end = bytes.len().saturating_add(width);
        bytes.extend_from_slice(part)?;
        if bytes.len() < end {
            bytes.resize(end, b'.')?;
        }
    }
    Ok(bytes)
}

/// The bytes of a volume of rows, which may have so many blocks; each row has so many bytes, if that is not 0.
fn volume_of(alloc: Global, dbd: &Dbd, rows: &[u8], width: usize, largest: u32) -> Option<Vec<u8>> {
    if dbd.block_size() != 128 || largest == 0 || largest > 65536 {
        return None;
    }
    let mut records = Vec::new(alloc);
    let mut count = 0u32;
    for row in rows.split(is_slash) {
        let (code, front) = cut(row, b' ');
        if !front.is_empty() {
            let bytes = filled(alloc, front, width).ok()?;
            let length = (bytes.len() % 65536) as u16;
            records.push((number_of(code) % 256) as u8).ok()?;
            records.extend_from_slice(&length.to_be_bytes()).ok()?;
            records.extend_from_slice(&bytes).ok()?;
            count = count.wrapping_add(1);
        }
    }
    records.push(0).ok()?;
    records.extend_from_slice(&count.to_be_bytes()).ok()?;
    let stream = stream_of(alloc, &records).ok()?;
    let store = Sparing::new(alloc, Vec::new(alloc), u32::MAX);
    match reload(alloc, dbd, &stream, store, largest, 3) {
        Ok(made) => Some(made.store.bytes),
        Err(_) => None,
    }
}

/// What a list of calls begins with: the database, the PCBs, the bytes of the volume, the addresses of its rows in hierarchic sequence, and the bytes to
/// which each part of an area is filled up.
#[derive(Drop)]
pub struct Base {
    pub dbd: Dbd,
    pub pcbs: Vec<Pcb>,
    pub bytes: Vec<u8>,
    pub rows: Vec<u32>,
    pub width: usize,
}

/// What the first line of a list says: the letter of types and rows, how many blocks the volume may have, and the PCBs. `E` is the volume of the sample whose
/// four blocks are not in memory when it is opened, for four free ones are. The addresses of its rows are still to come.
pub fn base_of(alloc: Global, head: &[u8]) -> Option<Base> {
    let (name, rest) = cut(head, b';');
    let letter = name.first().copied().unwrap_or(b' ');
    let (types, rows, width) = texts_of(letter);
    let dbd = database_of(alloc, types, width).ok()?;
    let bytes = if letter == b'E' {
        let mut image = widened(&image());
        image[9] = 3;
        Vec::from_slice(alloc, &image).ok()?
    } else {
        volume_of(alloc, &dbd, rows, width, number_of(name))?
    };
    let mut pcbs = Vec::new(alloc);
    for own in cut(rest, b';').0.split(is_slash) {
        pcbs.push(pcb_of(alloc, &dbd, own).ok()?).ok()?;
    }
    Some(Base {
        dbd,
        pcbs,
        bytes,
        rows: Vec::new(alloc),
        width,
    })
}
