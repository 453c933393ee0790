ghost use Rattle.std.specs.Prelude.{◌≡◌, ℕ, ◌-◌, ◌*◌, ◌≤◌, ◌==◌, cond, IfOk, length, map, slice_index, slice_index_or, option_copied, []};
ghost use Rattle.std.specs.Option.{option_map_or};
ghost use Rattle.hd_dbd.specs.Hierarchy.{type_of, levels_of, weights, greatest, longest_path};
ghost use Rattle.hd_dbd.specs.Prefixes.{twin_part, child_part, is_child_of, child_parts, prefix_length, pointers_at, children_of, rounded_up, stored_size};
ghost use Rattle.hd_dbd.specs.Facts.{facts_at, facts_of, children_lists};

use crate::hierarchy::SegType;
use std::alloc::{AllocError, Global};

/// What layers ask of a type again and again: its level, the length of its prefix, where its pointers stand in its
/// parent's prefix, and the bytes that it takes in a block.
#[derive(Clone, Copy)]
pub struct TypeFacts {
    pub level: u8,
    pub prefix: u16,
    pub pointers: u16,
    pub size: u16,
}

/// The bytes that the segments of a type take in a block, prefix and padding included.
#[derive(Clone, Copy, PartialEq, Eq)]
pub enum SegmentSize {
    /// So many each; 0 where there is no type.
    Fixed(u16),
    /// As many as each says: the two bytes behind a prefix of so many bytes say how many bytes stand behind it, themselves
    /// counted, at least and at most so many.
    Varying(u16, u16, u16),
}

/// The type of a code, if there is one.
pub fn type_of(types: &[SegType], code: u8) -> Option<&SegType>
    ensures { option_copied result ≡ type_of types.now code }
{
    if code == 0 {
        return None;
    }
    types.get(code as usize - 1)
}

/// What the table has for a type's parent; 0 where there is none.
fn level_above(levels: &[u8], parent: Option<u8>) -> u8
    ensures { result ≡ option_map_or (λ p. slice_index levels.now (p - 1)) parent 0 }
{
    match parent {
        Some(parent) => levels
            .get((parent as usize).saturating_sub(1))
            .copied()
            .unwrap_or(0),
        None => 0,
    }
}

/// The levels of the types, in order.
pub fn levels_of(alloc: Global, types: &[SegType]) -> Result<Vec<u8>, AllocError>
    requires { length types.now ≤ 255 }
    ensures { IfOk result (λ v. v.items ≡ levels_of types.now) }
{
    let mut levels = Vec::new(alloc);
    for segment in types {
        let above = level_above(&levels, segment.parent);
        levels.push(1 + above)?;
    }
    Ok(levels)
}

/// The level of the type of a code in a table of levels; 0 for no type.
pub fn level_at(levels: &[u8], code: u8) -> u8
    ensures { result ≡ cond (code == 0) 0 (slice_index levels.now (code - 1)) }
{
    if code == 0 {
        return 0;
    }
    levels.get(code as usize - 1).copied().unwrap_or(0)
}

/// What the table has for a type's parent; 0 where there is none.
fn bytes_above(lengths: &[usize], parent: Option<u8>) -> usize
    ensures { result ≡ option_map_or (λ p. slice_index lengths.now (p - 1)) parent 0 }
{
    match parent {
        Some(parent) => lengths
            .get((parent as usize).saturating_sub(1))
            .copied()
            .unwrap_or(0),
        None => 0,
    }
}

/// For each type, the bytes of the path of segments from the root down to it.
fn path_lengths(alloc: Global, types: &[SegType]) -> Result<Vec<usize>, AllocError>
    requires { length types.now ≤ 255 }
    ensures { IfOk result (λ v. v.items ≡ weights (λ t. t.length) types.now) }
{
    let mut lengths = Vec::new(alloc);
    for segment in types {
        let above = bytes_above(&lengths, segment.parent);
        lengths.push(segment.length as usize + above)?;
    }
    Ok(lengths)
}

fn greatest(numbers: &[usize]) -> usize
    ensures { result ≡ greatest numbers.now }
{
    let mut most = 0;
    for number in numbers {
        most = most.max(*number);
    }
    most
}

/// The bytes of the longest path of segments, from a root down.
pub fn longest_path(alloc: Global, types: &[SegType]) -> Result<usize, AllocError>
    requires { length types.now ≤ 255 }
    ensures { IfOk result (λ n. n ≡ longest_path types.now) }
{
    let lengths = path_lengths(alloc, types)?;
    Ok(greatest(&lengths))
}

/// Code, delete byte and the twin pointers of the type of a code, in bytes.
fn twin_part(code: u8, segment: &SegType) -> u32
    ensures value { result ≡ twin_part code segment.now }
    ensures bound { result ≤ 10 }
{
    if code == 1 || segment.backward { 10 } else { 6 }
}

/// The bytes that a parent keeps for one child type.
fn child_part(segment: &SegType) -> u32
    ensures value { result ≡ child_part segment.now }
    ensures bound { result ≤ 8 }
{
    if segment.last_pointer { 8 } else { 4 }
}

fn is_child_of(parent: u8, segment: &SegType) -> bool
    ensures { result ≡ is_child_of parent segment.now }
{
    segment.parent.is_some_and(|code| code == parent)
}

/// The bytes that a parent keeps for those of these types that are its children.
fn child_parts(parent: u8, types: &[SegType]) -> u32
    requires { length types.now ≤ 255 }
    ensures value { result ≡ child_parts parent types.now }
    ensures bound { result ≤ 8 * length types.now }
{
    let mut total = 0;
    for segment in types {
        if is_child_of(parent, segment) {
            total += child_part(segment);
        }
    }
    total
}

/// The length of the prefix of the type of a code; 0 for no type.
fn prefix_length(types: &[SegType], code: u8) -> u32
    requires { length types.now ≤ 255 }
    ensures value { result ≡ prefix_length types.now code }
    ensures bound { result ≤ 2050 }
{
    match type_of(types, code) {
        Some(segment) => twin_part(code, segment) + child_parts(code, types),
        None => 0,
    }
}

/// The `twin_part` of the type of a code; 0 for no type.
fn twin_part_of(types: &[SegType], code: u8) -> u32
    ensures value { result ≡ option_map_or (λ t. twin_part code t) (type_of types.now code) 0 }
    ensures bound { result ≤ 10 }
{
    match type_of(types, code) {
        Some(segment) => twin_part(code, segment),
        None => 0,
    }
}

/// Where in the prefix of its parent the pointers to a type's twins stand; 0 for the root and for no type.
fn pointers_at(types: &[SegType], code: u8) -> u32
    requires { length types.now ≤ 255 }
    ensures value { result ≡ pointers_at types.now code }
    ensures bound { result ≤ 2050 }
{
    match type_of(types, code).and_then(|segment| segment.parent) {
        Some(parent) => {
            twin_part_of(types, parent) + child_parts(parent, &types[..code as usize - 1])
        }
        None => 0,
    }
}

/// The next multiple of 8.
fn rounded_up(bytes: u64) -> u64
    requires { bytes ≤ 4294969345 }
    ensures { result ≡ rounded_up bytes }
{
    (bytes + 7) / 8 * 8
}

/// The bytes that a segment of the type of a code takes in a block; 0 for no type.
pub fn stored_size(types: &[SegType], code: u8) -> u64
    requires { length types.now ≤ 255 }
    ensures value { result ≡ stored_size types.now code }
    ensures bound { result ≤ 4294969352 }
{
    match type_of(types, code) {
        Some(segment) => {
            rounded_up(u64::from(prefix_length(types, code)) + u64::from(segment.length))
        }
        None => 0,
    }
}

/// The codes of the child types of the type of a code, in order.
fn children_of(alloc: Global, types: &[SegType], code: u8) -> Result<Vec<u8>, AllocError>
    requires { length types.now ≤ 255 }
    ensures { IfOk result (λ v. v.items ≡ children_of types.now code) }
{
    let mut codes = Vec::new(alloc);
    for (place, segment) in types.iter().enumerate() {
        if is_child_of(code, segment) {
            codes.push(place as u8 + 1)?;
        }
    }
    Ok(codes)
}

/// The codes of the child types of each type.
pub fn children_lists(alloc: Global, types: &[SegType]) -> Result<Vec<Vec<u8>>, AllocError>
    requires { length types.now ≤ 255 }
    ensures { IfOk result (λ v. map (λ codes. codes.items) v.items ≡ children_lists types.now) }
{
    let mut lists = Vec::new(alloc);
    for place in 0..types.len() {
        let codes = children_of(alloc, types, place as u8 + 1)?;
        lists.push(codes)?;
    }
    Ok(lists)
}

/// What is kept of the type of a code; zeros for no type.
fn facts_at(types: &[SegType], levels: &[u8], code: u8) -> TypeFacts
    requires count { length types.now ≤ 255 }
    requires levels { levels.now ≡ levels_of types.now }
    requires size { stored_size types.now code ≤ 65535 }
    ensures { result ≡ facts_at types.now code }
{
    TypeFacts {
        level: level_at(levels, code),
        prefix: prefix_length(types, code) as u16,
        pointers: pointers_at(types, code) as u16,
        size: stored_size(types, code) as u16,
    }
}

/// What is kept of each type.
pub fn facts_of(
    alloc: Global,
    types: &[SegType],
    levels: &[u8],
) -> Result<Vec<TypeFacts>, AllocError>
    requires count { length types.now ≤ 255 }
    requires levels { levels.now ≡ levels_of types.now }
    requires sizes { (c : ℕ) → stored_size types.now c ≤ 65535 }
    ensures { IfOk result (λ v. v.items ≡ facts_of types.now) }
{
    let mut table = Vec::new(alloc);
    for place in 0..types.len() {
        table.push(facts_at(types, levels, place as u8 + 1))?;
    }
    Ok(table)
}

/// What a table has for the type of a code; zeros for no type.
pub fn facts_in(table: &[TypeFacts], code: u8) -> TypeFacts
    ensures { result ≡ cond (code == 0) (record { level = 0; prefix = 0; pointers = 0; size = 0 }) (slice_index_or table.now (code - 1) (record { level = 0; prefix = 0; pointers = 0; size = 0 })) }
{
    let none = TypeFacts {
        level: 0,
        prefix: 0,
        pointers: 0,
        size: 0,
    };
    if code == 0 {
        return none;
    }
    table.get(code as usize - 1).copied().unwrap_or(none)
}

/// What a table has for the type of a code; nothing for no type.
pub fn children_in(lists: &[Vec<u8>], code: u8) -> &[u8]
    ensures { result.now ≡ cond (code == 0) [] (slice_index_or (map (λ codes. codes.items) lists.now) (code - 1) []) }
{
    if code == 0 {
        return &[];
    }
    match lists.get(code as usize - 1) {
        Some(codes) => codes,
        None => &[],
    }
}
