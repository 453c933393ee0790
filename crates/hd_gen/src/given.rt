ghost use Rattle.std.specs.Prelude.{◌≡◌, ◌∷◌, [], Ok, Err, Some, bytes_eq, take, drop};
ghost use Rattle.std.specs.List.{list_any};
ghost use Rattle.hd_gen.specs.Operands.{nothing_given, with_field, with_value, fault_at, is_given, with_operand, given_from, given};
ghost use Rattle.hd_gen.specs.Refused.{count_read};
ghost use Rattle.hd_gen.specs.Shapes.{value_of};
ghost use Rattle.hd_gen.specs.Tables.{main_keyword};
ghost use Rattle.hd_gen.specs.Values.{only_if, value_in};
ghost use Rattle.hd_lines.specs.Reading.{then};

use crate::fault::GenFault;
use crate::operand::{
    FieldName, Parent, block_size_in, bytes_in, data_type_in, database_in, field_in, free_space_in,
    index_in, is_access, is_database_type, is_index_pointer, is_positioning, letters_in, name_in,
    number_in, parent_in, rule_in, seen_parent_in, twins_in,
};
use crate::table::{Meaning, Operation, main_keyword, meaning_of};
use crate::value::{Value, Wrong, value_in};
use hd_dbd::{DataType, FreeSpace, Name8, Rule};
use hd_macro::Operand;
use std::marker::Model;

/// Where a statement stands: whether a SEGM is the root, whether the type has a sequence field already, and the database
/// that a PSB is for.
#[derive(Clone, Copy)]
pub(crate) struct Context {
    pub is_root: bool,
    pub has_key: bool,
    pub database: Option<Name8>,
}

/// What the operands of a statement give.
#[derive(Drop)]
pub(crate) struct Given<'a> {
    pub name: Option<Name8>,
    pub has_access: bool,
    pub block_size: u32,
    pub frspc: FreeSpace,
    pub parent: Parent,
    /// The bytes, or of a SEGM whose segments vary the most of them, and the least.
    pub length: Option<u32>,
    pub least: Option<u32>,
    pub backward: bool,
    pub rule: Rule,
    /// For a sequence field, whether it is unique.
    pub unique: Option<bool>,
    pub start: Option<u32>,
    pub data_type: Option<DataType>,
    /// TYPE=DB stands in a PCB.
    pub has_type: bool,
    pub has_database_name: bool,
    pub procopt: Option<&'a str>,
}

impl<'a> Model for Given<'a> {
    ghost use Rattle.std.specs.Prelude.{option_copied};
    ghost use Rattle.hd_gen.specs.Operands.{Given};

    ghost Value = { Given };

    ghost view = { λ g. record {
      name = g.name;
      has_access = g.has_access;
      block_size = g.block_size;
      frspc = g.frspc;
      parent = g.parent;
      length = g.length;
      least = g.least;
      backward = g.backward;
      rule = g.rule;
      unique = g.unique;
      start = g.start;
      data_type = g.data_type;
      has_type = g.has_type;
      has_database_name = g.has_database_name;
      procopt = option_copied g.procopt;
    } };
}

/// Without operands: POINTER is TWIN, RULES is LAST, a PARENT is 0, the child pointer is SNGL, the block size is 2,048
/// bytes, and no space is left free.
fn nothing_given<'a>() -> Given<'a>
    ensures { result ≡ nothing_given }
{
    Given {
        name: None,
        has_access: false,
        block_size: 2048,
        frspc: FreeSpace { fbff: 0, fspf: 0 },
        parent: Parent {
            name: None,
            last_pointer: false,
        },
        length: None,
        least: None,
        backward: false,
        rule: Rule::Last,
        unique: None,
        start: None,
        data_type: None,
        has_type: false,
        has_database_name: false,
        procopt: None,
    }
}

fn only_if(supported: bool) -> Result<bool, Wrong>
    ensures { result ≡ only_if supported }
{
    if supported {
        Ok(true)
    } else {
        Err(Wrong::NotSupported)
    }
}

/// What is given, with a field's name, and whether it is a sequence field.
fn with_field(has_key: bool, given: Given<'_>, field: FieldName) -> Result<Given<'_>, Wrong>
    ensures { result ≡ with_field has_key given.entry field }
{
    if has_key && field.unique.is_some() {
        return Err(Wrong::IllFormed);
    }
    Ok(Given {
        name: Some(field.name),
        unique: field.unique,
        ..given
    })
}

/// What is given, with the value of an operand of this meaning.
fn with_value<'a>(
    context: &Context,
    meaning: Meaning,
    given: Given<'a>,
    value: Value<'a>,
) -> Result<Given<'a>, Wrong>
    ensures { result ≡ with_value context.now meaning given.entry (value_of value.entry) }
{
    let mut given = given;
    match meaning {
        Meaning::Name => given.name = Some(name_in(value)?),
        Meaning::Access => given.has_access = only_if(is_access(value))?,
        Meaning::BlockSize => given.block_size = block_size_in(value)?,
        Meaning::FreeSpace => given.frspc = free_space_in(value)?,
        Meaning::Parent => given.parent = parent_in(value)?,
        Meaning::SeenParent => given.parent = seen_parent_in(value)?,
        Meaning::Length => given.length = Some(number_in(value)?),
        Meaning::SegmentBytes => {
            let bytes = bytes_in(value)?;
            given.length = Some(bytes.length);
            given.least = bytes.least;
        }
        Meaning::Twins => given.backward = twins_in(context.is_root, value)?,
        Meaning::Rules => given.rule = rule_in(value)?,
        Meaning::FieldName => return with_field(context.has_key, given, field_in(value)?),
        Meaning::Start => given.start = Some(number_in(value)?),
        Meaning::DataType => given.data_type = Some(data_type_in(value)?),
        Meaning::IndexSegment => given.name = Some(index_in(value)?),
        Meaning::DatabaseType => given.has_type = only_if(is_database_type(value))?,
        Meaning::Procopt => given.procopt = Some(letters_in(value)?),
        Meaning::DatabaseName => {
            database_in(context.database, value)?;
            given.has_database_name = true;
        }
        Meaning::IndexPointer => {
            only_if(is_index_pointer(value))?;
        }
        Meaning::Positioning => {
            only_if(is_positioning(value))?;
        }
        Meaning::NotUsed => {}
    }
    Ok(given)
}

/// Why a statement is refused, by its line and what is wrong with a value.
fn fault_at(line: usize, wrong: Wrong) -> GenFault
    ensures { result ≡ fault_at line wrong }
{
    match wrong {
        Wrong::NotSupported => GenFault::G3(line),
        Wrong::IllFormed => GenFault::G4(line),
    }
}

/// Whether an operand stands among others, by this or its other keyword.
fn is_given(operation: Operation, before: &[Operand], operand: &Operand) -> bool
    ensures { result ≡ is_given operation before.now operand.now }
{
    let keyword = main_keyword(operation, &operand.keyword);
    for other in before {
        if main_keyword(operation, &other.keyword) == keyword {
            return true;
        }
    }
    false
}

/// What is given, with one operand more.
fn with_operand<'a>(
    context: &Context,
    operation: Operation,
    line: usize,
    before: &[Operand],
    given: Given<'a>,
    operand: &'a Operand,
) -> Result<Given<'a>, GenFault>
    ensures { result ≡ with_operand context.now operation line before.now given.entry operand.now }
{
    let Some(meaning) = meaning_of(operation, &operand.keyword) else {
        return Err(GenFault::G3(line));
    };
    if is_given(operation, before, operand) {
        return Err(GenFault::G4(line));
    }
    match with_value(context, meaning, given, value_in(&operand.value)) {
        Ok(given) => Ok(given),
        Err(wrong) => Err(fault_at(line, wrong)),
    }
}

/// What the operands of a statement give, read from left to right; or the first fault.
pub(crate) fn read_operands<'a>(
    context: &Context,
    operation: Operation,
    line: usize,
    operands: &'a [Operand],
) -> Result<Given<'a>, GenFault>
    ensures { result ≡ given context.now operation line operands.now }
{
    let mut given = nothing_given();
    for (place, operand) in operands.iter().enumerate() {
        given = with_operand(context, operation, line, &operands[..place], given, operand)?;
    }
    Ok(given)
}

/// How many operands of a statement are read, from left to right, before the first that is refused; all where none is.
pub(crate) fn count_read(
    context: &Context,
    operation: Operation,
    line: usize,
    operands: &[Operand],
) -> usize
    ensures { result ≡ count_read context.now operation line operands.now }
{
    let mut given = nothing_given();
    for (place, operand) in operands.iter().enumerate() {
        match with_operand(context, operation, line, &operands[..place], given, operand) {
            Ok(next) => given = next,
            Err(_) => return place,
        }
    }
    operands.len()
}
