ghost use Rattle.std.specs.Prelude.{◌≡◌, ◌≢◌, ◌≤◌, ℕ, length, map, drop, Ok, Err, Some, None, IfOk, IfErr, IfSome, option_copied};
ghost use Rattle.hd_dbd.specs.declared.answer.Status.TheVariants.{AC};
ghost use Rattle.hd_dbd.specs.Views.{Setting};
ghost use Rattle.hd_calls.specs.Access.{loads};
ghost use Rattle.hd_calls.specs.Ssas.{first_inserted_head, unqualified, heads_suit, steps_down, types_suit, read_ssa, read_ssas, resolve};
ghost use Rattle.hd_calls.specs.Satisfies.{qualifies};
ghost use Rattle.hd_calls.specs.SearchKeys.{is_key_past};
ghost use Rattle.hd_ssa.specs.LeastKeys.{least_key, NoneQualifiesBelow};
ghost use Rattle.hd_ssa.specs.EqualKeys.{key_asked, QualifiesByKey};
ghost use Rattle.hd_ssa.specs.Named.{heads_in, code_below, codes_down, resolve_named};

use crate::at_once::read_down;
use crate::fault::SsaFault;
use crate::named::{Named, named_heads};
use crate::qualification::Qualification;
use crate::suits::suits;
use hd_calls::{Commands, Function};
use hd_dbd::{Dbd, Key, Pcb, SegType, Status};
use smallvec::SmallVec;
use std::alloc::Global;
use std::marker::Model;

/// A segment search argument with its type. What it asks of a segment stays text of the call.
#[derive(Drop)]
pub struct ResolvedSsa<'a> {
    pub(crate) code: u8,
    pub(crate) commands: Commands,
    pub(crate) qualification: Option<Qualification<'a>>,
}

impl<'a> Model for ResolvedSsa<'a> {
    ghost use Rattle.hd_calls.specs.Ssas.{Ssa};

    ghost Value = { Ssa };

    ghost view = { λ a. record { code = a.code; commands = a.commands; groups = a.qualification } };
}

impl<'a> Default for ResolvedSsa<'a> {
    /// What stands in an unused place of a list.
    fn default() -> ResolvedSsa<'a> {
        let unused = Named::default();
        ResolvedSsa {
            code: 0,
            commands: unused.commands,
            qualification: None,
        }
    }
}

impl<'a> ResolvedSsa<'a> {
    ghost use Rattle.std.specs.Prelude.{not, is_none};

    /// The code of its type.
    pub fn code(&self) -> u8
        ensures { result ≡ self.now.code }
    {
        self.code
    }

    /// Its command codes.
    pub fn commands(&self) -> Commands
        ensures { result ≡ self.now.commands }
    {
        self.commands
    }

    /// Whether it has a qualification.
    pub fn is_qualified(&self) -> bool
        ensures { result ≡ not (is_none self.now.groups) }
    {
        self.qualification.is_some()
    }

    /// Whether a segment of its type with these bytes has its qualification; so has each where there is none.
    pub fn holds(&self, bytes: &[u8]) -> bool
        ensures { (code : ℕ) → result ≡ qualifies self.now (record { code = code; bytes = bytes.now }) }
    {
        match &self.qualification {
            Some(qualification) => qualification.holds(bytes),
            None => true,
        }
    }

    /// Whether the key of a segment of its type with these bytes is past what each group asks of the key, so that neither the segment
    /// nor a later twin has its qualification. Its type is to be given.
    pub fn is_past(&self, segment: &SegType, bytes: &[u8]) -> bool
        ensures { result ≡ is_key_past segment.now self.now bytes.now }
    {
        let Some(key) = segment.key else {
            return false;
        };
        match &self.qualification {
            Some(qualification) => qualification.is_past(key, bytes),
            None => false,
        }
    }

    /// A value of the key below which no segment has the qualification: of its groups, the least of the greatest values that stand in
    /// EQ, GE and GT of the whole key. `None` where there is no qualification, or a group has none of these. It is part of the call's
    /// text.
    pub fn least_key(&self, key: Key) -> Option<&'a [u8]>
        ensures value { option_copied result ≡ least_key key self.now }
        ensures below { IfSome result (λ v. NoneQualifiesBelow key self.now v.now) }
    {
        match &self.qualification {
            Some(qualification) => qualification.least_bound(key),
            None => None,
        }
    }

    /// The value of the key that is asked for, where the qualification is one comparison, EQ of the whole key: a segment has it just where it has
    /// that key. It is part of the call's text.
    pub fn key_asked(&self, key: Key) -> Option<&'a [u8]>
        ensures value { option_copied result ≡ key_asked key self.now }
        ensures qualifies { IfSome result (λ v. QualifiesByKey key self.now v.now) }
    {
        match &self.qualification {
            Some(qualification) => qualification.key_asked(key),
            None => None,
        }
    }
}

/// The segment search arguments of a call with their types. Up to four of them take no memory, and neither do their qualifications.
#[derive(Drop)]
pub struct Resolved<'a> {
    pub(crate) ssas: SmallVec<ResolvedSsa<'a>, 4>,
}

impl<'a> Model for Resolved<'a> {
    ghost use Rattle.std.specs.Prelude.{List};
    ghost use Rattle.hd_calls.specs.Ssas.{Ssa};

    ghost Value = { List Ssa };

    ghost view = { λ r. r.ssas.items };
}

impl<'a> Resolved<'a> {
    /// The arguments in their order, the topmost first.
    pub fn ssas(&self) -> &[ResolvedSsa<'a>]
        ensures { result.now ≡ self.now }
    {
        self.ssas.as_slice()
    }
}

/// The place of the first argument whose type is inserted: the first with D, or else the last.
fn first_inserted(heads: &[Named<'_>]) -> usize
    ensures { result ≡ first_inserted_head (heads_in heads.now) }
{
    for place in 0..heads.len() {
        let head = &heads[place];
        if head.commands.path {
            return place;
        }
    }
    heads.len().saturating_sub(1)
}

/// Whether no head has a qualification.
fn unqualified(heads: &[Named<'_>]) -> bool
    ensures { result ≡ unqualified (heads_in heads.now) }
{
    for head in heads {
        if head.qualification.is_some() {
            return false;
        }
    }
    true
}

/// Whether the PCB loads.
pub fn loads(pcb: &Pcb) -> bool
    ensures { result ≡ loads pcb.now }
{
    pcb.procopt.as_bytes().iter().any(|letter| *letter == b'L')
}

/// Whether no inserted type's head has a qualification.
fn inserted_unqualified(heads: &[Named<'_>]) -> bool
    ensures { result ≡ unqualified (drop (first_inserted_head (heads_in heads.now)) (heads_in heads.now)) }
{
    let place = first_inserted(heads).min(heads.len());
    unqualified(&heads[place..])
}

/// Whether a function may have such heads.
fn heads_suit(function: Function, pcb: &Pcb, heads: &[Named<'_>]) -> bool
    ensures { (s : Setting) → s.pcb ≡ pcb.now → result ≡ heads_suit s function (heads_in heads.now) }
{
    match function {
        Function::Get(_, _) => true,
        Function::Insert => { inserted_unqualified(heads) && (!loads(pcb) || heads.len() <= 1) }
        Function::Replace => unqualified(heads),
        Function::Delete => unqualified(heads) && heads.len() <= 1,
    }
}

/// The code of a head's type, where it is a proper descendant of the type above, if there is one.
pub(crate) fn code_below(dbd: &Dbd, above: Option<u8>, head: &Named<'_>) -> Option<u8>
    ensures { result ≡ code_below dbd.now.types above head.now }
{
    let code = head.code?;
    match above {
        Some(above) => {
            if dbd.is_under(code, above) {
                Some(code)
            } else {
                None
            }
        }
        None => Some(code),
    }
}

/// The codes of the types of the heads, each of them below the one before it; AC where one is not.
fn codes_down(alloc: Global, dbd: &Dbd, heads: &[Named<'_>]) -> Result<SmallVec<u8, 4>, SsaFault>
    ensures ok { IfOk result (λ v. codes_down dbd.now.types None heads.now ≡ Some v.items) }
    ensures count { IfOk result (λ v. length v.items ≡ length heads.now) }
    ensures status { (st : Status) → result ≡ Err (SsaFault.Status st) → (st ≡ AC) × (codes_down dbd.now.types None heads.now ≡ None) }
    ensures memory { length heads.now ≤ 4 → IfErr result (λ e. e ≢ SsaFault.Memory) }
{
    let mut codes = SmallVec::new(alloc);
    let mut above = None;
    for head in heads {
        let Some(code) = code_below(dbd, above, head) else {
            return Err(SsaFault::Status(Status::AC));
        };
        if codes.push(code).is_err() {
            return Err(SsaFault::Memory);
        }
        above = Some(code);
    }
    Ok(codes)
}

/// Whether each type is the child of the one before it.
fn steps_down(dbd: &Dbd, codes: &[u8]) -> bool
    ensures { result ≡ steps_down dbd.now.types None codes.now }
{
    let mut above = None;
    for code in codes {
        if let Some(above) = above {
            match dbd.parent_of(*code) {
                Some(parent) => {
                    if parent != above {
                        return false;
                    }
                }
                None => return false,
            }
        }
        above = Some(*code);
    }
    true
}

/// Whether a function may have arguments of these types.
fn types_suit(function: Function, dbd: &Dbd, heads: &[Named<'_>], codes: &[u8]) -> bool
    ensures { (s : Setting) → s.types ≡ dbd.now.types → result ≡ types_suit s function (heads_in heads.now) codes.now }
{
    match function {
        Function::Insert => {
            let place = first_inserted(heads).saturating_sub(1).min(codes.len());
            steps_down(dbd, &codes[place..])
        }
        _ => true,
    }
}

/// One argument with its type, its qualification read where it has one.
pub(crate) fn read_ssa<'a>(
    dbd: &'a Dbd,
    code: u8,
    head: &Named<'a>,
) -> Result<ResolvedSsa<'a>, Status>
    ensures { (s : Setting) → s.types ≡ dbd.now.types → result ≡ read_ssa s code head.now.head }
{
    let qualification = match head.qualification {
        Some(text) => match dbd.type_of(code) {
            Some(segment) => Some(Qualification::read(segment, text)?),
            None => return Err(Status::AC),
        },
        None => None,
    };
    Ok(ResolvedSsa {
        code,
        commands: head.commands,
        qualification,
    })
}

/// The arguments with their types, their qualifications read from left to right.
fn read_ssas<'a>(
    alloc: Global,
    dbd: &'a Dbd,
    codes: &[u8],
    heads: &[Named<'a>],
) -> Result<Resolved<'a>, SsaFault>
    requires { length codes.now ≡ length heads.now }
    ensures ok { (s : Setting) → s.types ≡ dbd.now.types → IfOk result (λ r. read_ssas s codes.now (heads_in heads.now) ≡ Ok r) }
    ensures status { (s : Setting) (st : Status) → s.types ≡ dbd.now.types → result ≡ Err (SsaFault.Status st) → read_ssas s codes.now (heads_in heads.now) ≡ Err st }
    ensures memory { length heads.now ≤ 4 → IfErr result (λ e. e ≢ SsaFault.Memory) }
{
    let mut ssas = SmallVec::new(alloc);
    for place in 0..heads.len() {
        let ssa = read_ssa(dbd, codes[place], &heads[place])?;
        if ssas.push(ssa).is_err() {
            return Err(SsaFault::Memory);
        }
    }
    Ok(Resolved { ssas })
}

/// What the heads of a call mean to a PCB that sees them.
fn resolve_heads<'a>(
    alloc: Global,
    function: Function,
    heads: &[Named<'a>],
    pcb: &Pcb,
    dbd: &'a Dbd,
) -> Result<Resolved<'a>, SsaFault>
    ensures ok { IfOk result (λ r. resolve_named (record { types = dbd.now.types; pcb = pcb.now }) function heads.now ≡ Ok r) }
    ensures status { (st : Status) → result ≡ Err (SsaFault.Status st) → resolve_named (record { types = dbd.now.types; pcb = pcb.now }) function heads.now ≡ Err st }
    ensures memory { length heads.now ≤ 4 → IfErr result (λ e. e ≢ SsaFault.Memory) }
{
    if !heads_suit(function, pcb, heads) {
        return Err(SsaFault::Status(Status::AJ));
    }
    if heads.len() > 15 {
        return Err(SsaFault::Status(Status::AC));
    }
    let codes = match codes_down(alloc, dbd, heads) {
        Ok(codes) => codes,
        Err(fault) => return Err(fault),
    };
    if !types_suit(function, dbd, heads, codes.as_slice()) {
        return Err(SsaFault::Status(Status::AC));
    }
    read_ssas(alloc, dbd, codes.as_slice(), heads)
}

/// What the texts of segment search arguments mean to a PCB.
#[inline(never)]
fn resolve_texts<'a>(
    alloc: Global,
    function: Function,
    ssas: &'a [Vec<u8>],
    pcb: &Pcb,
    dbd: &'a Dbd,
) -> Result<Resolved<'a>, SsaFault>
    ensures ok { IfOk result (λ r. resolve (record { types = dbd.now.types; pcb = pcb.now }) function (map (λ s. s.items) ssas.now) ≡ Ok r) }
    ensures status { (st : Status) → result ≡ Err (SsaFault.Status st) → resolve (record { types = dbd.now.types; pcb = pcb.now }) function (map (λ s. s.items) ssas.now) ≡ Err st }
    ensures memory { length ssas.now ≤ 4 → IfErr result (λ e. e ≢ SsaFault.Memory) }
{
    let heads = match named_heads(alloc, dbd, pcb, ssas) {
        Ok(heads) => heads,
        Err(fault) => return Err(fault),
    };
    resolve_heads(alloc, function, heads.as_slice(), pcb, dbd)
}

/// What the segment search arguments of a call mean to a PCB. Where they mean nothing it answers AJ for the heads, then AC for the
/// types, then AJ or AK for the qualifications. Want of memory may come with five or more.
pub fn resolve<'a>(
    alloc: Global,
    function: Function,
    ssas: &'a [Vec<u8>],
    pcb: &Pcb,
    dbd: &'a Dbd,
) -> Result<Resolved<'a>, SsaFault>
    ensures ok { IfOk result (λ r. resolve (record { types = dbd.now.types; pcb = pcb.now }) function (map (λ s. s.items) ssas.now) ≡ Ok r) }
    ensures status { (st : Status) → result ≡ Err (SsaFault.Status st) → resolve (record { types = dbd.now.types; pcb = pcb.now }) function (map (λ s. s.items) ssas.now) ≡ Err st }
    ensures memory { length ssas.now ≤ 4 → IfErr result (λ e. e ≢ SsaFault.Memory) }
{
    let mut few = Resolved {
        ssas: SmallVec::new(alloc),
    };
    if ssas.len() <= 4
        && read_down(dbd, pcb, ssas, &mut few.ssas)
        && suits(function, dbd, pcb, few.ssas.as_slice())
    {
        return Ok(few);
    }
    resolve_texts(alloc, function, ssas, pcb, dbd)
}
