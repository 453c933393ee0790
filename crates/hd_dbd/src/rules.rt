ghost use Rattle.std.specs.Prelude.{◌≡◌, ◌+◌, ◌*◌, ◌≤◌, ◌<◌, ◌||◌, IfOk, IsNone, IsTrue, bytes_eq, length, map, nat_le, not};
ghost use Rattle.std.specs.List.{list_any};
ghost use Rattle.hd_dbd.specs.Hierarchy.{levels_of};
ghost use Rattle.hd_dbd.specs.DatabaseRules.{block_size_fits, free_space_fits, parent_fits, part_fits, fields_fit, least_fits, parts_fit, root_key_fits, field_names_differ, names_fit, sizes_fit, key_length_fits, types_fit_from};
ghost use Rattle.hd_dbd.specs.IndexBlocks.{entry_place};
ghost use Rattle.hd_dbd.specs.DatabaseFaults.{type_fault, types_fault_from};

use crate::database::DbdFault;
use crate::facts::{level_at, stored_size};
use crate::hierarchy::{Field, FreeSpace, SegType};
use crate::lengths::least_length;
use crate::naming::Name8;
use std::alloc::{AllocError, Global};

pub fn block_size_fits(block_size: u32) -> bool
    ensures { result ≡ block_size_fits block_size }
{
    (128..=32768).contains(&block_size) && block_size % 8 == 0
}

pub fn free_space_fits(frspc: &FreeSpace) -> bool
    ensures { result ≡ free_space_fits frspc.now }
{
    (frspc.fbff == 0 || (2..=100).contains(&frspc.fbff)) && frspc.fspf <= 99
}

/// Whether the root has no parent, and any other type an earlier one.
fn parent_fits(code: u8, segment: &SegType) -> bool
    ensures { result ≡ parent_fits code segment.now }
{
    if code == 1 {
        segment.parent.is_none()
    } else {
        segment
            .parent
            .is_some_and(|parent| 0 < parent && parent < code)
    }
}

/// Whether a type is at most on level 15; a type without a right parent has no level to judge.
fn level_fits(level: u8, code: u8, segment: &SegType) -> bool
    ensures { result ≡ (not (parent_fits code segment.now) || nat_le level 15) }
{
    !parent_fits(code, segment) || level <= 15
}

/// Whether a part has a byte, and lies inside a segment of the length.
fn part_fits(length: u32, start: u32, own: u32) -> bool
    ensures { result ≡ part_fits length start own }
{
    0 < own && 0 < start && u64::from(start) + u64::from(own) <= u64::from(length) + 1
}

fn fields_fit(length: u32, fields: &[Field]) -> bool
    ensures { result ≡ fields_fit length fields.now }
{
    for field in fields {
        if !part_fits(length, field.start, field.length) {
            return false;
        }
    }
    true
}

/// Whether a least length holds the two bytes that say how many bytes a segment has, and is no longer than the longest.
fn least_fits(segment: &SegType) -> bool
    ensures { result ≡ least_fits segment.now }
{
    segment
        .least
        .is_none_or(|least| 2 <= least && least <= segment.length)
}

/// Whether the segment has a byte, a least length that fits if it has one, and its key and its fields lie inside that.
fn parts_fit(segment: &SegType) -> bool
    ensures { result ≡ parts_fit segment.now }
{
    let least = least_length(segment);
    0 < segment.length
        && least_fits(segment)
        && segment
            .key
            .is_none_or(|key| part_fits(least, key.start, key.length))
        && fields_fit(least, &segment.fields)
}

/// Whether the root has a unique key.
fn root_key_fits(code: u8, segment: &SegType) -> bool
    ensures { result ≡ root_key_fits code segment.now }
{
    code != 1 || segment.key.is_some_and(|key| key.unique)
}

/// The names of fields, in their order.
fn field_names(alloc: Global, fields: &[Field]) -> Result<Vec<[u8; 8]>, AllocError>
    ensures { IfOk result (λ names. names.items ≡ map (λ f. f.name) fields.now) }
{
    let mut names = Vec::with_capacity(alloc, fields.len())?;
    for field in fields {
        names.push(*field.name.bytes())?;
    }
    Ok(names)
}

/// Whether no two fields have one name: in order of the bytes, equal names stand side by side.
fn field_names_differ(alloc: Global, fields: &[Field]) -> Result<bool, AllocError>
    ensures { IfOk result (λ differ. differ ≡ field_names_differ fields.now) }
{
    let mut names = field_names(alloc, fields)?;
    names.sort_unstable();
    names.dedup();
    Ok(names.len() == fields.len())
}

fn has_type(types: &[SegType], name: &Name8) -> bool
    ensures { result ≡ list_any (λ t. bytes_eq t.name name.now) types.now }
{
    types.iter().any(|segment| segment.name == *name)
}

/// Whether no earlier type has the type's name, and no two of its fields have one name.
fn names_fit(
    alloc: Global,
    types: &[SegType],
    code: u8,
    segment: &SegType,
) -> Result<bool, AllocError>
    requires { (0 < code) × (code ≤ length types.now) }
    ensures { IfOk result (λ fit. fit ≡ names_fit types.now code segment.now) }
{
    if has_type(&types[..code as usize - 1], &segment.name) {
        return Ok(false);
    }
    field_names_differ(alloc, &segment.fields)
}

/// Whether three entries of the index, with a key each, fit into a block.
fn index_fits(block_size: u32, key_length: u32) -> bool
    ensures { result ≡ nat_le (entry_place key_length 3) block_size }
{
    12 + 3 * (u64::from(key_length) + 4) <= u64::from(block_size)
}

/// Whether a segment of the type, and for the root three entries of its index, fit into a block.
fn sizes_fit(block_size: u32, types: &[SegType], code: u8, segment: &SegType) -> bool
    requires { length types.now ≤ 255 }
    ensures { result ≡ sizes_fit block_size types.now code segment.now }
{
    stored_size(types, code) + 8 <= u64::from(block_size)
        && (code != 1
            || segment
                .key
                .is_none_or(|key| index_fits(block_size, key.length)))
}

fn key_length_fits(segment: &SegType) -> bool
    ensures { result ≡ key_length_fits segment.now }
{
    segment.key.is_none_or(|key| key.length <= 255)
}

/// The first of the rules B3 to B9 that the type of a code breaks.
fn type_fault(
    alloc: Global,
    block_size: u32,
    types: &[SegType],
    levels: &[u8],
    code: u8,
    segment: &SegType,
) -> Result<Option<DbdFault>, AllocError>
    requires count { length types.now ≤ 255 }
    requires levels { levels.now ≡ levels_of types.now }
    requires here { (0 < code) × (code ≤ length types.now) }
    ensures { IfOk result (λ fault. fault ≡ type_fault block_size types.now code segment.now) }
{
    if !level_fits(level_at(levels, code), code, segment) {
        return Ok(Some(DbdFault::B3(code)));
    }
    if !parent_fits(code, segment) {
        return Ok(Some(DbdFault::B4(code)));
    }
    if !parts_fit(segment) {
        return Ok(Some(DbdFault::B5(code)));
    }
    if !root_key_fits(code, segment) {
        return Ok(Some(DbdFault::B6(code)));
    }
    if !names_fit(alloc, types, code, segment)? {
        return Ok(Some(DbdFault::B7(code)));
    }
    if !sizes_fit(block_size, types, code, segment) {
        return Ok(Some(DbdFault::B8(code)));
    }
    if !key_length_fits(segment) {
        return Ok(Some(DbdFault::B9(code)));
    }
    Ok(None)
}

/// The first of the rules B3 to B9 that the first type breaks that breaks one.
pub fn types_fault(
    alloc: Global,
    block_size: u32,
    types: &[SegType],
    levels: &[u8],
) -> Result<Option<DbdFault>, AllocError>
    requires count { length types.now ≤ 255 }
    requires levels { levels.now ≡ levels_of types.now }
    ensures fault { IfOk result (λ fault. fault ≡ types_fault_from block_size types.now 1 types.now) }
    ensures none { IfOk result (λ fault. IsNone fault → IsTrue (types_fit_from block_size types.now 1 types.now)) }
{
    for (place, segment) in types.iter().enumerate() {
        let fault = type_fault(alloc, block_size, types, levels, place as u8 + 1, segment)?;
        if fault.is_some() {
            return Ok(fault);
        }
    }
    Ok(None)
}
