ghost use Rattle.std.specs.Prelude.{◌≡◌, ◌∷◌, [], Some, Ok, codes, nat_lt};
ghost use Rattle.std.specs.List.{list_all};
ghost use Rattle.std.specs.Result.{result_map_both};
ghost use Rattle.hd_gen.specs.Shapes.{value_of, words_of};
ghost use Rattle.hd_gen.specs.Tables.{look_up, child_pointers, twins, twin_pointers, twin_rules, sequence_fields, access_methods, data_types, positionings};
ghost use Rattle.hd_gen.specs.Values.{word, name_of, is_one_of, name_in, number_in, bytes_in, is_access, block_size_in, free_space_in, parent_of_words, parent_in, seen_parent_in, twins_in, rule_in, field_in, data_type_in, index_in, is_word, database_in, letters_in};
ghost use Rattle.hd_lines.specs.Reading.{then};

use crate::value::{Value, Words, Wrong, name_of, number_of};
use hd_dbd::{DataType, FreeSpace, Name8, Rule};

/// A type's parent, if it has one, and whether its parent keeps last child.
#[derive(Clone, Copy)]
pub(crate) struct Parent {
    pub name: Option<Name8>,
    pub last_pointer: bool,
}

/// BYTES of a SEGM: the bytes of its segments, or the most of them, and the least where they vary.
#[derive(Clone, Copy)]
pub(crate) struct SegmentBytes {
    pub length: u32,
    pub least: Option<u32>,
}

/// A field's name; where it is a sequence field, whether that is unique.
#[derive(Clone, Copy)]
pub(crate) struct FieldName {
    pub name: Name8,
    pub unique: Option<bool>,
}

pub(crate) fn name_in(value: Value<'_>) -> Result<Name8, Wrong>
    ensures { result ≡ name_in (value_of value.entry) }
{
    match value {
        Value::Word(word) => name_of(word),
        _ => Err(Wrong::NotSupported),
    }
}

pub(crate) fn number_in(value: Value<'_>) -> Result<u32, Wrong>
    ensures { result ≡ number_in (value_of value.entry) }
{
    match value {
        Value::Word(word) => number_of(word),
        _ => Err(Wrong::NotSupported),
    }
}

/// BYTES of a SEGM: n, or (max,min) where its segments vary in length.
pub(crate) fn bytes_in(value: Value<'_>) -> Result<SegmentBytes, Wrong>
    ensures { result ≡ bytes_in (value_of value.entry) }
{
    match value {
        Value::Listed(Words::Two(most, least)) => Ok(SegmentBytes {
            length: number_of(most)?,
            least: Some(number_of(least)?),
        }),
        Value::Word(word) => Ok(SegmentBytes {
            length: number_of(word)?,
            least: None,
        }),
        _ => Err(Wrong::NotSupported),
    }
}

/// Whether this is ACCESS=HIDAM, (HIDAM), (HIDAM,VSAM) or (HIDAM,OSAM).
pub(crate) fn is_access(value: Value<'_>) -> bool
    ensures { result ≡ is_access (value_of value.entry) }
{
    match value {
        Value::Word(word) | Value::Listed(Words::One(word)) => word == b"HIDAM".as_slice(),
        Value::Listed(Words::Two(word, method)) => {
            word == b"HIDAM".as_slice() && is_access_method(method)
        }
        _ => false,
    }
}

fn is_access_method(word: &[u8]) -> bool
    ensures { result ≡ is_one_of access_methods word.now }
{
    matches!(word, b"VSAM" | b"OSAM")
}

/// The block size of SIZE=n, (n) or (n,m).
pub(crate) fn block_size_in(value: Value<'_>) -> Result<u32, Wrong>
    ensures { result ≡ block_size_in (value_of value.entry) }
{
    match value {
        Value::Word(n) | Value::Listed(Words::One(n) | Words::Two(n, _)) | Value::BesideList(n) =>
            number_of(n),
        _ => Err(Wrong::NotSupported),
    }
}

/// FRSPC=(fbff,fspf).
pub(crate) fn free_space_in(value: Value<'_>) -> Result<FreeSpace, Wrong>
    ensures { result ≡ free_space_in (value_of value.entry) }
{
    match value {
        Value::Listed(Words::Two(every, percent)) => Ok(FreeSpace {
            fbff: number_of(every)?,
            fspf: number_of(percent)?,
        }),
        _ => Err(Wrong::NotSupported),
    }
}

/// The parent of (name), (name,SNGL) or (name,DBLE).
fn parent_of_words(words: Words<'_>) -> Result<Parent, Wrong>
    ensures { result ≡ parent_of_words (words_of words.entry) }
{
    match words {
        Words::One(name) => named_parent(name, false),
        Words::Two(name, pointer) => {
            match child_pointer(pointer) {
                Some(last_pointer) => named_parent(name, last_pointer),
                None => Err(Wrong::NotSupported),
            }
        }
        _ => Err(Wrong::NotSupported),
    }
}

fn named_parent(word: &[u8], last_pointer: bool) -> Result<Parent, Wrong>
    ensures { result ≡ then (name_of word.now) (λ name. Ok (record { name = Some name; last_pointer = last_pointer })) }
{
    Ok(Parent {
        name: Some(name_of(word)?),
        last_pointer,
    })
}

/// Whether a child pointer of PARENT keeps last child.
fn child_pointer(word: &[u8]) -> Option<bool>
    ensures { result ≡ look_up child_pointers word.now }
{
    match word {
        b"SNGL" => Some(false),
        b"DBLE" => Some(true),
        _ => None,
    }
}

/// PARENT of a SEGM: 0 for none, a name, or that in one bracket or two.
pub(crate) fn parent_in(value: Value<'_>) -> Result<Parent, Wrong>
    ensures { result ≡ parent_in (value_of value.entry) }
{
    match value {
        Value::Word(b"0") => Ok(Parent {
            name: None,
            last_pointer: false,
        }),
        Value::Word(name) => named_parent(name, false),
        Value::Listed(words) | Value::DoublyListed(words) => parent_of_words(words),
        _ => Err(Wrong::NotSupported),
    }
}

/// PARENT of a SENSEG: 0 for none, or a name.
pub(crate) fn seen_parent_in(value: Value<'_>) -> Result<Parent, Wrong>
    ensures { result ≡ seen_parent_in (value_of value.entry) }
{
    match value {
        Value::Word(_) => parent_in(value),
        _ => Err(Wrong::NotSupported),
    }
}

/// POINTER of a SEGM, the root or not: whether twin backward is kept.
pub(crate) fn twins_in(is_root: bool, value: Value<'_>) -> Result<bool, Wrong>
    ensures { result ≡ twins_in is_root (value_of value.entry) }
{
    match value {
        Value::Word(word) | Value::Listed(Words::One(word)) => {
            twin_pointer(is_root, word).ok_or(Wrong::NotSupported)
        }
        _ => Err(Wrong::NotSupported),
    }
}

/// Whether a twin pointer of POINTER keeps twin backward; NOTWIN may stand on the root alone.
fn twin_pointer(is_root: bool, word: &[u8]) -> Option<bool>
    ensures { result ≡ look_up (twin_pointers is_root) word.now }
{
    if is_root && matches!(word, b"NOTWIN" | b"NT") {
        return Some(false);
    }
    twin(word)
}

fn twin(word: &[u8]) -> Option<bool>
    ensures { result ≡ look_up twins word.now }
{
    match word {
        b"TWIN" | b"T" => Some(false),
        b"TWINBWD" | b"TB" => Some(true),
        _ => None,
    }
}

/// RULES=(x,FIRST), (x,LAST) or (x,HERE); x has no effect.
pub(crate) fn rule_in(value: Value<'_>) -> Result<Rule, Wrong>
    ensures { result ≡ rule_in (value_of value.entry) }
{
    match value {
        Value::Listed(Words::Two(_, word)) => twin_rule(word).ok_or(Wrong::NotSupported),
        _ => Err(Wrong::NotSupported),
    }
}

fn twin_rule(word: &[u8]) -> Option<Rule>
    ensures { result ≡ look_up twin_rules word.now }
{
    match word {
        b"FIRST" => Some(Rule::First),
        b"LAST" => Some(Rule::Last),
        b"HERE" => Some(Rule::Here),
        _ => None,
    }
}

/// NAME of a FIELD: a name, (name), (name,SEQ), (name,SEQ,U) or (name,SEQ,M).
pub(crate) fn field_in(value: Value<'_>) -> Result<FieldName, Wrong>
    ensures { result ≡ field_in (value_of value.entry) }
{
    match value {
        Value::Word(name) | Value::Listed(Words::One(name)) => named_field(name, None),
        Value::Listed(Words::Two(name, b"SEQ")) => named_field(name, Some(true)),
        Value::Listed(Words::Three(name, b"SEQ", word)) => {
            match sequence_field(word) {
                Some(unique) => named_field(name, Some(unique)),
                None => Err(Wrong::NotSupported),
            }
        }
        _ => Err(Wrong::NotSupported),
    }
}

fn named_field(word: &[u8], unique: Option<bool>) -> Result<FieldName, Wrong>
    ensures { result ≡ then (name_of word.now) (λ name. Ok (record { name = name; unique = unique })) }
{
    Ok(FieldName {
        name: name_of(word)?,
        unique,
    })
}

/// Whether a sequence field is unique.
fn sequence_field(word: &[u8]) -> Option<bool>
    ensures { result ≡ look_up sequence_fields word.now }
{
    match word {
        b"U" => Some(true),
        b"M" => Some(false),
        _ => None,
    }
}

/// TYPE of a FIELD: C, X, P, F or H.
pub(crate) fn data_type_in(value: Value<'_>) -> Result<DataType, Wrong>
    ensures { result ≡ data_type_in (value_of value.entry) }
{
    match value {
        Value::Word(word) => data_type(word).ok_or(Wrong::NotSupported),
        _ => Err(Wrong::NotSupported),
    }
}

fn data_type(word: &[u8]) -> Option<DataType>
    ensures { result ≡ look_up data_types word.now }
{
    match word {
        b"C" => Some(DataType::Character),
        b"X" => Some(DataType::Hexadecimal),
        b"P" => Some(DataType::Packed),
        b"F" => Some(DataType::Fullword),
        b"H" => Some(DataType::Halfword),
        _ => None,
    }
}

/// The segment in NAME of an LCHILD, (segment,dbd).
pub(crate) fn index_in(value: Value<'_>) -> Result<Name8, Wrong>
    ensures { result ≡ index_in (value_of value.entry) }
{
    match value {
        Value::Listed(Words::Two(segment, database)) => {
            let name = name_of(segment)?;
            name_of(database)?;
            Ok(name)
        }
        _ => Err(Wrong::NotSupported),
    }
}

/// Whether this is POINTER of an LCHILD, INDX.
pub(crate) fn is_index_pointer(value: Value<'_>) -> bool
    ensures { result ≡ is_word (codes "INDX" ∷ []) (value_of value.entry) }
{
    matches!(value, Value::Word(b"INDX"))
}

/// Whether this is TYPE of a PCB, DB.
pub(crate) fn is_database_type(value: Value<'_>) -> bool
    ensures { result ≡ is_word (codes "DB" ∷ []) (value_of value.entry) }
{
    matches!(value, Value::Word(b"DB"))
}

/// Whether this is POS of a PCB, S or SINGLE.
pub(crate) fn is_positioning(value: Value<'_>) -> bool
    ensures { result ≡ is_word positionings (value_of value.entry) }
{
    matches!(value, Value::Word(b"S" | b"SINGLE"))
}

/// DBDNAME of a PCB: the database's own name.
pub(crate) fn database_in(database: Option<Name8>, value: Value<'_>) -> Result<Name8, Wrong>
    ensures { result ≡ database_in database (value_of value.entry) }
{
    let name = name_in(value)?;
    if database != Some(name) {
        return Err(Wrong::IllFormed);
    }
    Ok(name)
}

/// PROCOPT: its letters, which are judged with the program.
pub(crate) fn letters_in<'a>(value: Value<'a>) -> Result<&'a str, Wrong>
    ensures { result_map_both (λ w. w.now) (λ e. e) result ≡ letters_in (value_of value.entry) }
{
    match value {
        Value::Word(letters) => ascii_text(letters),
        _ => Err(Wrong::NotSupported),
    }
}

fn ascii_text(letters: &[u8]) -> Result<&str, Wrong>
    ensures { result_map_both (λ w. w.now) (λ e. e) result ≡ letters_in (word letters.now) }
{
    if !is_ascii(letters) {
        return Err(Wrong::IllFormed);
    }
    match str::from_utf8(letters) {
        Ok(text) => Ok(text),
        Err(_) => Err(Wrong::IllFormed),
    }
}

fn is_ascii(word: &[u8]) -> bool
    ensures { result ≡ list_all (λ b. nat_lt b 128) word.now }
{
    word.iter().all(|b| *b < 128)
}
