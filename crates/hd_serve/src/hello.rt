ghost use Rattle.std.specs.Prelude.{◌≡◌, ◌⊎◌, ◌-◌, ◌<◌, ◌≤◌, ◌++◌, ◌∷◌, [], length, max, flat_map, get_or, slice_index, position, bytes_eq, true, false, IfOk, IfErr, OnOk};
ghost use Rattle.std.specs.List.{list_all};
ghost use Rattle.std.specs.Option.{option_map_or};
ghost use Rattle.std.specs.Int.{w16, to_be_bytes};
ghost use Rattle.hd_dbd.specs.Hierarchy.{longest_path};
ghost use Rattle.hd_serve.specs.Frames.{frame_bytes};
ghost use Rattle.hd_serve.specs.Hello.{field_bytes, type_bytes, types_bytes, key_lengths, length_for, longest_key, procopt_bytes, pcb_bytes, hello_bytes, field_fits, type_fits, pcb_fits, body_fits, hello_fits};

use crate::call::Limits;
use crate::fault::HelloFault;
use hd_dbd::{Dbd, Field, Name8, Pcb, Psb, SegType, Sens, least_length};
use std::alloc::{AllocError, Global};

/// What a right frame keeps to where calls are made by the PCBs of a program over a database.
pub fn limits_of(dbd: &Dbd, psb: &Psb) -> Limits
    ensures { result ≡ record { pcbs = length psb.now.pcbs; area = longest_path dbd.now.types } }
{
    Limits {
        pcbs: psb.pcbs().len() as u8,
        area: dbd.longest_path(),
    }
}

/// Adds a number in two bytes.
fn push_u16(bytes: &mut Vec<u8>, number: usize) -> Result<(), HelloFault>
    ensures bytes { OnOk result (bytes.new.items ≡ bytes.old.items ++ to_be_bytes w16 number) }
    ensures fits { OnOk result (number < 65536) }
    ensures large { IfErr result (λ e. e ≡ HelloFault.Large → 65536 ≤ number) }
{
    let Ok(number) = u16::try_from(number) else {
        return Err(HelloFault::Large);
    };
    bytes.extend_from_slice(&number.to_be_bytes())?;
    Ok(())
}

/// Adds a number in one byte.
fn push_u8(bytes: &mut Vec<u8>, number: usize) -> Result<(), HelloFault>
    ensures bytes { OnOk result (bytes.new.items ≡ bytes.old.items ++ number ∷ []) }
    ensures fits { OnOk result (number < 256) }
    ensures large { IfErr result (λ e. e ≡ HelloFault.Large → 256 ≤ number) }
{
    let Ok(number) = u8::try_from(number) else {
        return Err(HelloFault::Large);
    };
    bytes.extend_from_slice(&[number])?;
    Ok(())
}

/// Adds a field.
fn push_field(bytes: &mut Vec<u8>, field: &Field) -> Result<(), HelloFault>
    ensures bytes { OnOk result (bytes.new.items ≡ bytes.old.items ++ field_bytes field.now) }
    ensures fits { OnOk result (field_fits field.now ≡ true) }
    ensures large { IfErr result (λ e. e ≡ HelloFault.Large → field_fits field.now ≡ false) }
{
    bytes.extend_from_slice(field.name.bytes())?;
    push_u16(bytes, field.start as usize)?;
    push_u16(bytes, field.length as usize)?;
    bytes.extend_from_slice(&[field.data_type.letter()])?;
    Ok(())
}

/// Adds fields.
fn push_fields(bytes: &mut Vec<u8>, fields: &[Field]) -> Result<(), HelloFault>
    ensures bytes { OnOk result (bytes.new.items ≡ bytes.old.items ++ flat_map field_bytes fields.now) }
    ensures fits { OnOk result (list_all field_fits fields.now ≡ true) }
    ensures large { IfErr result (λ e. e ≡ HelloFault.Large → list_all field_fits fields.now ≡ false) }
{
    for field in fields {
        push_field(bytes, field)?;
    }
    Ok(())
}

/// Adds the type of a code.
fn push_type(bytes: &mut Vec<u8>, dbd: &Dbd, code: u8, segment: &SegType) -> Result<(), HelloFault>
    ensures bytes { OnOk result (bytes.new.items ≡ bytes.old.items ++ type_bytes dbd.now.types code segment.now) }
    ensures fits { OnOk result (type_fits segment.now ≡ true) }
    ensures large { IfErr result (λ e. e ≡ HelloFault.Large → type_fits segment.now ≡ false) }
{
    bytes.extend_from_slice(segment.name.bytes())?;
    bytes.extend_from_slice(&[dbd.level(code), u8::from(segment.least.is_some())])?;
    push_u16(bytes, segment.length as usize)?;
    push_u16(bytes, least_length(segment) as usize)?;
    push_u8(bytes, segment.fields.len())?;
    push_fields(bytes, &segment.fields)
}

/// Adds the types of a database.
fn push_types(bytes: &mut Vec<u8>, dbd: &Dbd) -> Result<(), HelloFault>
    requires { length dbd.now.types < 256 }
    ensures bytes { OnOk result (bytes.new.items ≡ bytes.old.items ++ types_bytes dbd.now.types 1 dbd.now.types) }
    ensures fits { OnOk result (list_all type_fits dbd.now.types ≡ true) }
    ensures large { IfErr result (λ e. e ≡ HelloFault.Large → list_all type_fits dbd.now.types ≡ false) }
{
    let types = dbd.types();
    for (place, segment) in types.iter().enumerate() {
        push_type(bytes, dbd, place as u8 + 1, segment)?;
    }
    Ok(())
}

/// What a table has for a type's parent; 0 where there is none.
fn length_above(lengths: &[usize], parent: Option<u8>) -> usize
    ensures { result ≡ option_map_or (λ p. slice_index lengths.now (p - 1)) parent 0 }
{
    match parent {
        Some(parent) => lengths
            .get((parent as usize).saturating_sub(1))
            .copied()
            .unwrap_or(0),
        None => 0,
    }
}

/// The bytes of a type's key.
fn key_length(segment: &SegType) -> u32
    ensures { result ≡ option_map_or (λ k. k.length) segment.now.key 0 }
{
    match &segment.key {
        Some(key) => key.length,
        None => 0,
    }
}

/// For each type, the bytes of the keys on the path down to it.
fn key_lengths(alloc: Global, types: &[SegType]) -> Result<Vec<usize>, AllocError>
    requires { length types.now < 256 }
    ensures { IfOk result (λ v. v.items ≡ key_lengths types.now) }
{
    let mut lengths = Vec::new(alloc);
    for segment in types {
        let above = length_above(&lengths, segment.parent);
        lengths.push(key_length(segment) as usize + above)?;
    }
    Ok(lengths)
}

/// Where the type of a name stands among all.
fn place_named(types: &[SegType], name: &Name8) -> Option<usize>
    ensures { result ≡ position (λ t. bytes_eq t.name name.now) types.now }
{
    types.iter().position(|segment| segment.name == *name)
}

/// What a table of the types has for the type of a name; 0 for no type.
fn length_for(types: &[SegType], lengths: &[usize], name: &Name8) -> usize
    ensures { result ≡ length_for types.now lengths.now name.now }
{
    match place_named(types, name) {
        Some(place) => lengths.get(place).copied().unwrap_or(0),
        None => 0,
    }
}

/// What a table of the types has for a type that a PCB sees.
fn length_seen(types: &[SegType], lengths: &[usize], sens: &Sens) -> usize
    ensures { result ≡ length_for types.now lengths.now sens.now.name }
{
    length_for(types, lengths, &sens.name)
}

fn greater(a: usize, b: usize) -> usize
    ensures { result ≡ max a b }
{
    a.max(b)
}

/// The bytes of the longest concatenated key of a type that the PCB sees.
fn longest_key(types: &[SegType], lengths: &[usize], pcb: &Pcb) -> usize
    requires { lengths.now ≡ key_lengths types.now }
    ensures { result ≡ longest_key types.now pcb.now }
{
    let mut most = 0;
    for sens in &pcb.sens {
        most = greater(most, length_seen(types, lengths, sens));
    }
    most
}

/// The letters of PROCOPT in four places.
fn procopt_bytes(letters: &[u8]) -> [u8; 4]
    ensures { result ≡ procopt_bytes letters.now }
{
    [
        letter_at(letters, 0),
        letter_at(letters, 1),
        letter_at(letters, 2),
        letter_at(letters, 3),
    ]
}

/// The letter at a place, a blank behind the last.
fn letter_at(letters: &[u8], place: usize) -> u8
    ensures { result ≡ get_or letters.now place 32 }
{
    letters.get(place).copied().unwrap_or(b' ')
}

/// Adds a PCB.
fn push_pcb(bytes: &mut Vec<u8>, dbd: &Dbd, lengths: &[usize], pcb: &Pcb) -> Result<(), HelloFault>
    requires { lengths.now ≡ key_lengths dbd.now.types }
    ensures bytes { OnOk result (bytes.new.items ≡ bytes.old.items ++ pcb_bytes dbd.now pcb.now) }
    ensures fits { OnOk result (pcb_fits dbd.now pcb.now ≡ true) }
    ensures large { IfErr result (λ e. e ≡ HelloFault.Large → pcb_fits dbd.now pcb.now ≡ false) }
{
    bytes.extend_from_slice(dbd.name().bytes())?;
    bytes.extend_from_slice(&procopt_bytes(pcb.procopt.as_bytes()))?;
    push_u16(bytes, pcb.sens.len())?;
    push_u16(bytes, longest_key(dbd.types(), lengths, pcb))
}

/// Adds PCBs.
fn push_pcbs(
    bytes: &mut Vec<u8>,
    dbd: &Dbd,
    lengths: &[usize],
    pcbs: &[Pcb],
) -> Result<(), HelloFault>
    requires { lengths.now ≡ key_lengths dbd.now.types }
    ensures bytes { OnOk result (bytes.new.items ≡ bytes.old.items ++ flat_map (pcb_bytes dbd.now) pcbs.now) }
    ensures fits { OnOk result (list_all (pcb_fits dbd.now) pcbs.now ≡ true) }
    ensures large { IfErr result (λ e. e ≡ HelloFault.Large → list_all (pcb_fits dbd.now) pcbs.now ≡ false) }
{
    for pcb in pcbs {
        push_pcb(bytes, dbd, lengths, pcb)?;
    }
    Ok(())
}

/// Adds the mark, the version, and how many PCBs and types follow.
fn push_head(bytes: &mut Vec<u8>, pcbs: usize, types: usize) -> Result<(), HelloFault>
    ensures bytes { OnOk result (bytes.new.items ≡ bytes.old.items ++ (72 ∷ 68 ∷ 0 ∷ 3 ∷ pcbs ∷ types ∷ [])) }
    ensures fits { OnOk result ((pcbs < 256) × (types < 256)) }
    ensures large { IfErr result (λ e. e ≡ HelloFault.Large → (256 ≤ pcbs) ⊎ (256 ≤ types)) }
{
    bytes.extend_from_slice(&[b'H', b'D', 0, 3])?;
    push_u8(bytes, pcbs)?;
    push_u8(bytes, types)
}

/// The body of the frame that a server writes first.
fn hello_body(alloc: Global, dbd: &Dbd, pcbs: &[Pcb]) -> Result<Vec<u8>, HelloFault>
    ensures bytes { IfOk result (λ v. v.items ≡ hello_bytes dbd.now pcbs.now) }
    ensures fits { OnOk result (body_fits dbd.now pcbs.now ≡ true) }
    ensures large { IfErr result (λ e. e ≡ HelloFault.Large → body_fits dbd.now pcbs.now ≡ false) }
{
    let mut bytes = Vec::new(alloc);
    push_head(&mut bytes, pcbs.len(), dbd.types().len())?;
    push_types(&mut bytes, dbd)?;
    let lengths = key_lengths(alloc, dbd.types())?;
    push_pcbs(&mut bytes, dbd, &lengths, pcbs)?;
    Ok(bytes)
}

/// The frame that a server writes first: the types of the database with their fields, and the PCBs of the program.
///
/// `Large` says that a number has no room in its place: a type has more than 255 fields.
pub fn hello_frame(alloc: Global, dbd: &Dbd, psb: &Psb) -> Result<Vec<u8>, HelloFault>
    ensures bytes { IfOk result (λ v. v.items ≡ frame_bytes (hello_bytes dbd.now psb.now.pcbs)) }
    ensures fits { OnOk result (hello_fits dbd.now psb.now.pcbs ≡ true) }
    ensures large { IfErr result (λ e. e ≡ HelloFault.Large → hello_fits dbd.now psb.now.pcbs ≡ false) }
{
    let body = hello_body(alloc, dbd, psb.pcbs())?;
    let Ok(size) = u32::try_from(body.len()) else {
        return Err(HelloFault::Large);
    };
    let mut frame = Vec::new(alloc);
    frame.extend_from_slice(&size.to_be_bytes())?;
    frame.extend_from_slice(&body)?;
    Ok(frame)
}
