ghost use Rattle.std.specs.Prelude.{◌≡◌, ◌≢◌, ◌<◌, ◌≤◌, [], ◌∷◌, ◌++◌, ◌+◌, take, IfOk, IfErr, Ok, Err, bytes_eq, length, option_map, string_bytes};
ghost use Rattle.std.specs.List.{position, position_or_len};
ghost use Rattle.std.specs.Option.{option_map_or};
ghost use Rattle.hd_gen.specs.Drafts.{empty_draft, code_of, segment_type, with_last, with_type_field, with_seen, with_statement};

use crate::fault::GenFault;
use crate::given::Given;
use crate::table::Operation;
use hd_dbd::{DataType, Field, FreeSpace, Key, Name8, Pcb, SegType, Sens};
use std::alloc::Global;
use std::marker::Model;

/// What a source says so far: a database's name, once it is known, its block size and free space, and its types; or a
/// program's PCBs.
#[derive(Drop)]
pub(crate) struct Draft {
    pub name: Option<Name8>,
    pub block_size: u32,
    pub frspc: FreeSpace,
    pub types: Vec<SegType>,
    pub pcbs: Vec<Pcb>,
}

impl Model for Draft {
    ghost use Rattle.hd_gen.specs.Drafts.{Draft};

    ghost Value = { Draft };

    ghost view = { λ d. record {
      name = d.name;
      block_size = d.block_size;
      frspc = d.frspc;
      types = d.types.items;
      pcbs = d.pcbs.items;
    } };
}

pub(crate) fn empty_draft(alloc: Global) -> Draft
    ensures { result ≡ empty_draft }
{
    Draft {
        name: None,
        block_size: 2048,
        frspc: FreeSpace { fbff: 0, fspf: 0 },
        types: Vec::new(alloc),
        pcbs: Vec::new(alloc),
    }
}

/// The draft behind a statement, by what its operands give.
pub(crate) fn with_statement(
    alloc: Global,
    operation: Operation,
    line: usize,
    draft: Draft,
    given: &Given<'_>,
) -> Result<Draft, GenFault>
    ensures read { IfOk result (λ d. with_statement operation line draft given.now ≡ Ok d) }
    ensures fault { IfErr result (λ e. e ≢ GenFault.Memory → with_statement operation line draft given.now ≡ Err e) }
{
    match operation {
        Operation::Dbd => with_name(line, draft, given),
        Operation::Dataset => with_sizes(line, draft, given),
        Operation::Segm => with_segment(alloc, line, draft, given),
        Operation::Field => with_field(line, draft, given),
        Operation::Lchild => match given.name {
            Some(_) => Ok(draft),
            None => Err(GenFault::G5(line)),
        },
        Operation::Pcb => with_pcb(alloc, line, draft, given),
        Operation::Senseg => with_sens(alloc, line, draft, given),
        Operation::Dbdgen | Operation::Finish | Operation::Psbgen | Operation::End => Ok(draft),
    }
}

fn with_name(line: usize, mut draft: Draft, given: &Given<'_>) -> Result<Draft, GenFault>
    ensures { result ≡ with_statement Operation.Dbd line draft given.now }
{
    if given.name.is_none() || !given.has_access {
        return Err(GenFault::G5(line));
    }
    draft.name = given.name;
    Ok(draft)
}

fn with_sizes(line: usize, mut draft: Draft, given: &Given<'_>) -> Result<Draft, GenFault>
    ensures { result ≡ with_statement Operation.Dataset line draft given.now }
{
    draft.block_size = given.block_size;
    draft.frspc = given.frspc;
    Ok(draft)
}

fn with_segment(
    alloc: Global,
    line: usize,
    mut draft: Draft,
    given: &Given<'_>,
) -> Result<Draft, GenFault>
    ensures read { IfOk result (λ d. with_statement Operation.Segm line draft given.now ≡ Ok d) }
    ensures fault { IfErr result (λ e. e ≢ GenFault.Memory → with_statement Operation.Segm line draft given.now ≡ Err e) }
{
    let Some(name) = given.name else {
        return Err(GenFault::G5(line));
    };
    let Some(length) = given.length else {
        return Err(GenFault::G5(line));
    };
    let segment = segment_type(alloc, &draft.types, given, name, length);
    push(&mut draft.types, segment)?;
    Ok(draft)
}

/// The type of a SEGM behind other types.
fn segment_type(
    alloc: Global,
    types: &[SegType],
    given: &Given<'_>,
    name: Name8,
    length: u32,
) -> SegType
    ensures { result ≡ segment_type types.now given.now name length }
{
    SegType {
        name,
        parent: given.parent.name.map(|parent| code_of(types, &parent)),
        length,
        least: given.least,
        key: None,
        rule: given.rule,
        backward: given.backward,
        last_pointer: given.parent.last_pointer,
        fields: Vec::new(alloc),
    }
}

/// The code of the first type of a name, 0 where there is none.
fn code_of(types: &[SegType], name: &Name8) -> u8
    ensures { result ≡ code_of types.now name.now }
{
    code_among(front(types, 255), name)
}

/// At most so many from the front.
fn front<T>(items: &[T], count: usize) -> &[T]
    ensures value { result.now ≡ take count items.now }
    ensures bound { length result.now ≤ count }
{
    if items.len() <= count {
        return items;
    }
    &items[..count]
}

fn code_among(types: &[SegType], name: &Name8) -> u8
    requires { length types.now ≤ 255 }
    ensures { result ≡ option_map_or (λ i. i + 1) (position (λ t. bytes_eq t.name name.now) types.now) 0 }
{
    let place = named_or_end(types, name);
    if place < types.len() {
        place as u8 + 1
    } else {
        0
    }
}

/// Where the first type of a name stands, or the number of types.
fn named_or_end(types: &[SegType], name: &Name8) -> usize
    ensures value { result ≡ position_or_len (λ t. bytes_eq t.name name.now) types.now }
    ensures bound { result ≤ length types.now }
{
    types
        .iter()
        .take_while(|segment| segment.name != *name)
        .count()
}

fn with_field(line: usize, mut draft: Draft, given: &Given<'_>) -> Result<Draft, GenFault>
    ensures read { IfOk result (λ d. with_statement Operation.Field line draft given.now ≡ Ok d) }
    ensures fault { IfErr result (λ e. e ≢ GenFault.Memory → with_statement Operation.Field line draft given.now ≡ Err e) }
{
    let Some(name) = given.name else {
        return Err(GenFault::G5(line));
    };
    let Some(length) = given.length else {
        return Err(GenFault::G5(line));
    };
    let Some(start) = given.start else {
        return Err(GenFault::G5(line));
    };
    add_field(&mut draft.types, name, start, length, given)?;
    Ok(draft)
}

/// Gives the last type one field more.
#[tactic(auto, using(crate::proofs::Lasts::with_last_is))]
fn add_field(
    types: &mut Vec<SegType>,
    name: Name8,
    start: u32,
    length: u32,
    given: &Given<'_>,
) -> Result<(), GenFault>
    ensures types { IfOk result (λ _. types.new.items ≡ with_last (λ t. with_type_field given.now name start length t) types.old.items) }
    ensures memory { IfErr result (λ e. e ≡ GenFault.Memory) }
{
    let Some(segment) = types.pop() else {
        return Ok(());
    };
    let segment = with_type_field(segment, name, start, length, given)?;
    push(types, segment)
}

/// Adds an item behind the others.
fn push<T: Drop>(items: &mut Vec<T>, item: T) -> Result<(), GenFault>
    ensures items { IfOk result (λ _. items.new.items ≡ items.old.items ++ item ∷ []) }
    ensures memory { IfErr result (λ e. e ≡ GenFault.Memory) }
{
    match items.push(item) {
        Ok(()) => Ok(()),
        Err(_) => Err(GenFault::Memory),
    }
}

/// A type with one field more, which may be its key; without TYPE its bytes are characters.
fn with_type_field(
    mut segment: SegType,
    name: Name8,
    start: u32,
    length: u32,
    given: &Given<'_>,
) -> Result<SegType, GenFault>
    ensures field { IfOk result (λ t. t ≡ with_type_field given.now name start length segment) }
    ensures memory { IfErr result (λ e. e ≡ GenFault.Memory) }
{
    if let Some(unique) = given.unique {
        segment.key = Some(Key {
            start,
            length,
            unique,
        });
    }
    let field = Field {
        name,
        start,
        length,
        data_type: given.data_type.unwrap_or(DataType::Character),
    };
    push(&mut segment.fields, field)?;
    Ok(segment)
}

fn with_pcb(
    alloc: Global,
    line: usize,
    mut draft: Draft,
    given: &Given<'_>,
) -> Result<Draft, GenFault>
    ensures read { IfOk result (λ d. with_statement Operation.Pcb line draft given.now ≡ Ok d) }
    ensures fault { IfErr result (λ e. e ≢ GenFault.Memory → with_statement Operation.Pcb line draft given.now ≡ Err e) }
{
    let Some(letters) = given.procopt else {
        return Err(GenFault::G5(line));
    };
    if !given.has_type || !given.has_database_name {
        return Err(GenFault::G5(line));
    }
    let pcb = Pcb {
        procopt: text_of(alloc, letters)?,
        sens: Vec::new(alloc),
    };
    push(&mut draft.pcbs, pcb)?;
    Ok(draft)
}

fn with_sens(
    alloc: Global,
    line: usize,
    mut draft: Draft,
    given: &Given<'_>,
) -> Result<Draft, GenFault>
    ensures read { IfOk result (λ d. with_statement Operation.Senseg line draft given.now ≡ Ok d) }
    ensures fault { IfErr result (λ e. e ≢ GenFault.Memory → with_statement Operation.Senseg line draft given.now ≡ Err e) }
{
    let Some(name) = given.name else {
        return Err(GenFault::G5(line));
    };
    add_seen(alloc, &mut draft.pcbs, name, given)?;
    Ok(draft)
}

/// Lets the last PCB see one type more.
#[tactic(auto, using(crate::proofs::Lasts::with_last_is))]
fn add_seen(
    alloc: Global,
    pcbs: &mut Vec<Pcb>,
    name: Name8,
    given: &Given<'_>,
) -> Result<(), GenFault>
    ensures pcbs { IfOk result (λ _. pcbs.new.items ≡ with_last (λ pcb. with_seen given.now name pcb) pcbs.old.items) }
    ensures memory { IfErr result (λ e. e ≡ GenFault.Memory) }
{
    let Some(pcb) = pcbs.pop() else {
        return Ok(());
    };
    let pcb = with_seen(alloc, pcb, name, given)?;
    push(pcbs, pcb)
}

/// A PCB that sees one type more.
fn with_seen(alloc: Global, mut pcb: Pcb, name: Name8, given: &Given<'_>) -> Result<Pcb, GenFault>
    ensures seen { IfOk result (λ p. p ≡ with_seen given.now name pcb) }
    ensures memory { IfErr result (λ e. e ≡ GenFault.Memory) }
{
    let procopt = letters(alloc, given)?;
    let sens = Sens {
        name,
        parent: given.parent.name,
        procopt,
    };
    push(&mut pcb.sens, sens)?;
    Ok(pcb)
}

/// The letters of a PROCOPT, if there is one.
fn letters(alloc: Global, given: &Given<'_>) -> Result<Option<String>, GenFault>
    ensures letters { IfOk result (λ t. option_map string_bytes t ≡ given.now.procopt) }
    ensures memory { IfErr result (λ e. e ≡ GenFault.Memory) }
{
    match given.procopt {
        Some(letters) => Ok(Some(text_of(alloc, letters)?)),
        None => Ok(None),
    }
}

/// A text of one's own.
fn text_of(alloc: Global, text: &str) -> Result<String, GenFault>
    ensures text { IfOk result (λ t. string_bytes t ≡ text.now) }
    ensures memory { IfErr result (λ e. e ≡ GenFault.Memory) }
{
    match String::from_str(alloc, text) {
        Ok(text) => Ok(text),
        Err(_) => Err(GenFault::Memory),
    }
}
