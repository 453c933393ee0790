use hd_dbd::DbdFault;
use hd_macro::Statement;
use std::alloc::{AllocError, Global};

/// The bytes of a block where DATASET does not say them.
const USUAL_BLOCK_SIZE: u64 = 2048;

/// The statement that a fault of a database or of a program is of; and of a FIELD its SEGM, of a SENSEG its PCB.
#[derive(Clone, Copy)]
pub struct Culprit<'s> {
    pub statement: &'s Statement,
    pub above: Option<&'s Statement>,
}

/// Whether a statement has an operation.
pub fn is(statement: &Statement, operation: &[u8]) -> bool {
    statement.operation.as_slice() == operation
}

/// The value of an operand of a statement, without bytes where it has none.
pub fn value_of<'s>(statement: &'s Statement, keyword: &[u8]) -> &'s [u8] {
    for operand in &statement.operands {
        if operand.keyword.as_slice() == keyword {
            return operand.value.as_slice();
        }
    }
    &[]
}

/// The word of a number, from 0, in a value, whose words brackets and commas part; without bytes where there are fewer.
pub fn word_in(value: &[u8], number: usize) -> &[u8] {
    let mut left = number;
    for word in value.split(|byte| matches!(*byte, b'(' | b')' | b',')) {
        if word.is_empty() {
            continue;
        }
        if left == 0 {
            return word;
        }
        left = left.saturating_sub(1);
    }
    &[]
}

/// The name that a statement gives.
pub fn name_in(statement: &Statement) -> &[u8] {
    word_in(value_of(statement, b"NAME"), 0)
}

/// The number that a word of an operand spells; 0 where it spells none.
fn number_in(statement: &Statement, keyword: &[u8], number: usize) -> u64 {
    match str::from_utf8(word_in(value_of(statement, keyword), number)) {
        Ok(digits) => digits.parse::<u64>().unwrap_or(0),
        Err(_) => 0,
    }
}

/// The place of the statement of a number, from 1, among those of an operation.
pub fn place_of(statements: &[Statement], operation: &[u8], number: usize) -> Option<usize> {
    let mut left = number;
    for (place, statement) in statements.iter().enumerate() {
        if is(statement, operation) {
            left = left.checked_sub(1)?;
            if left == 0 {
                return Some(place);
            }
        }
    }
    None
}

/// The statements behind one at a place, up to the next of its operation.
pub fn behind<'s>(statements: &'s [Statement], place: usize, operation: &[u8]) -> &'s [Statement] {
    let rest = statements.get(place.saturating_add(1)..).unwrap_or(&[]);
    for (count, statement) in rest.iter().enumerate() {
        if is(statement, operation) {
            return rest.get(..count).unwrap_or(&[]);
        }
    }
    rest
}

/// A statement by its name, and its place among others.
#[derive(Clone, Copy, PartialEq, Eq, PartialOrd, Ord)]
struct NamedPlace<'s> {
    name: &'s [u8],
    place: usize,
}

/// The names of the FIELDs of a type, each with its place, in the order of the names.
fn names_of(alloc: Global, fields: &[Statement]) -> Result<Vec<NamedPlace<'_>>, AllocError> {
    let mut names = Vec::new(alloc);
    for (place, field) in fields.iter().enumerate() {
        if is(field, b"FIELD") {
            names.push(NamedPlace {
                name: name_in(field),
                place,
            })?;
        }
    }
    names.sort_unstable();
    Ok(names)
}

/// The first FIELD of a type that has the name of one before it.
fn repeated_field(alloc: Global, fields: &[Statement]) -> Option<&Statement> {
    let names = names_of(alloc, fields).ok()?;
    let mut first = usize::MAX;
    let mut last: Option<NamedPlace<'_>> = None;
    for named in &names {
        if last.is_some_and(|before| before.name == named.name) {
            first = first.min(named.place);
        }
        last = Some(*named);
    }
    fields.get(first)
}

/// The first FIELD of a type that has no byte, or lies outside its shortest segment; none where the SEGM's own BYTES are at fault.
fn outer_field<'s>(segm: &Statement, fields: &'s [Statement]) -> Option<&'s Statement> {
    let most = number_in(segm, b"BYTES", 0);
    let varies = !word_in(value_of(segm, b"BYTES"), 1).is_empty();
    let least = number_in(segm, b"BYTES", usize::from(varies));
    if most == 0 || varies && !(2..=most).contains(&least) {
        return None;
    }
    for field in fields {
        let (start, own) = (number_in(field, b"START", 0), number_in(field, b"BYTES", 0));
        let is_inside = start > 0
            && own > 0
            && start.saturating_add(own) <= least.saturating_add(1);
        if is(field, b"FIELD") && !is_inside {
            return Some(field);
        }
    }
    None
}

/// The sequence field of a type.
fn sequence_field(fields: &[Statement]) -> Option<&Statement> {
    for field in fields {
        if is(field, b"FIELD") && word_in(value_of(field, b"NAME"), 1) == b"SEQ".as_slice() {
            return Some(field);
        }
    }
    None
}

/// The bytes of a block.
fn block_size(statements: &[Statement]) -> u64 {
    let Some(place) = place_of(statements, b"DATASET", 1) else {
        return USUAL_BLOCK_SIZE;
    };
    match statements.get(place) {
        Some(dataset) if !value_of(dataset, b"SIZE").is_empty() => {
            number_in(dataset, b"SIZE", 0)
        }
        _ => USUAL_BLOCK_SIZE,
    }
}

/// The root's sequence field, where three entries of the index do not fit into a block for it.
fn indexed_field<'s>(
    statements: &[Statement],
    code: u8,
    fields: &'s [Statement],
) -> Option<&'s Statement> {
    let field = sequence_field(fields)?;
    let entry = number_in(field, b"BYTES", 0).saturating_add(4);
    let needed = entry.saturating_mul(3).saturating_add(12);
    if code == 1 && needed > block_size(statements) {
        Some(field)
    } else {
        None
    }
}

/// Whether one of these SEGMs has the name of another.
fn is_named_before(before: &[Statement], segm: &Statement) -> bool {
    for statement in before {
        if is(statement, b"SEGM") && name_in(statement) == name_in(segm) {
            return true;
        }
    }
    false
}

/// The FIELD of a type that a fault of the type is of; none where it is of the SEGM itself.
fn field_at_fault<'s>(
    alloc: Global,
    fault: DbdFault,
    statements: &'s [Statement],
    place: usize,
) -> Option<&'s Statement> {
    let segm = statements.get(place)?;
    let fields = behind(statements, place, b"SEGM");
    match fault {
        DbdFault::B5(_) => outer_field(segm, fields),
        DbdFault::B6(_) | DbdFault::B9(_) => sequence_field(fields),
        DbdFault::B7(_) if is_named_before(statements.get(..place).unwrap_or(&[]), segm) => None,
        DbdFault::B7(_) => repeated_field(alloc, fields),
        DbdFault::B8(code) => indexed_field(statements, code, fields),
        _ => None,
    }
}

/// The operation and the number of the statement that a fault of a database names.
fn named_by(fault: DbdFault) -> Option<(&'static [u8], usize)> {
    match fault {
        DbdFault::B10 => Some((b"DATASET", 1)),
        DbdFault::B2 => Some((b"SEGM", 256)),
        DbdFault::B3(code) | DbdFault::B4(code) | DbdFault::B5(code) | DbdFault::B6(code) => {
            Some((b"SEGM", usize::from(code)))
        }
        DbdFault::B7(code) | DbdFault::B8(code) | DbdFault::B9(code) => {
            Some((b"SEGM", usize::from(code)))
        }
        DbdFault::B1 | DbdFault::Memory => None,
    }
}

/// The statement of a DBD source that a fault of its database is of.
pub fn culprit_of_database<'s>(
    alloc: Global,
    fault: DbdFault,
    statements: &'s [Statement],
) -> Option<Culprit<'s>> {
    let (operation, number) = named_by(fault)?;
    let place = place_of(statements, operation, number)?;
    let statement = statements.get(place)?;
    match field_at_fault(alloc, fault, statements, place) {
        Some(field) => Some(Culprit {
            statement: field,
            above: Some(statement),
        }),
        None => Some(Culprit {
            statement,
            above: None,
        }),
    }
}
