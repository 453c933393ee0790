ghost use Rattle.std.specs.Prelude.{◌≡◌, ◌≢◌, Ok, Err, IfOk, IfErr};
ghost use Rattle.hd_gen.specs.Drafts.{empty_draft};
ghost use Rattle.hd_dbd.specs.ProgramRules.{type_names};
ghost use Rattle.hd_gen.specs.Sources.{operation_of, context_of, database_of_kind, has_key_last, is_lchild_below_root, placed, with_next, draft_from, line_behind, statements_in, draft_of, dbd_of, psb_of};

use crate::draft::{Draft, empty_draft, with_statement};
use crate::fault::GenFault;
use crate::given::{Context, read_operands};
use crate::table::{Operation, Stage, dbd_operation, is_complete, next_stage, psb_operation};
use hd_dbd::{Dbd, DbdFault, Name8, Psb, PsbFault};
use hd_lines::next_line;
use hd_macro::{LineFault, Statement, statements};
use std::alloc::Global;

/// A DBD source, or a PSB source for the database of a name.
#[derive(Clone, Copy)]
pub(crate) enum Kind {
    Dbd,
    Psb(Name8),
}

/// How far a source is read, and what it says so far.
#[derive(Drop)]
pub(crate) struct Progress {
    pub stage: Stage,
    pub draft: Draft,
}

/// The database of a DBD source; or its first fault: of its lines, then of its statements, then of the database. FRSPC is
/// kept, and operands that have no effect are dropped.
pub fn read_dbd(alloc: Global, bytes: &[u8]) -> Result<Dbd, GenFault>
    ensures database { IfOk result (λ d. dbd_of bytes.now ≡ Ok d) }
    ensures fault { IfErr result (λ e. e ≢ GenFault.Memory → dbd_of bytes.now ≡ Err e) }
{
    let draft = draft_of(alloc, &Kind::Dbd, bytes)?;
    let Some(name) = draft.name else {
        return Err(GenFault::G2(line_behind(bytes)));
    };
    let Draft {
        block_size,
        frspc,
        types,
        ..
    } = draft;
    match Dbd::new(alloc, name, block_size, frspc, types) {
        Ok(dbd) => Ok(dbd),
        Err(DbdFault::Memory) => Err(GenFault::Memory),
        Err(fault) => Err(GenFault::Dbd(fault)),
    }
}

/// The program of a PSB source, for a database; or its first fault: of its lines, then of its statements, then of the
/// program.
pub fn read_psb(alloc: Global, bytes: &[u8], dbd: &Dbd) -> Result<Psb, GenFault>
    ensures program { IfOk result (λ p. psb_of bytes.now dbd.now ≡ Ok p) }
    ensures made_for { IfOk result (λ p. p.made_for ≡ type_names dbd.now.types) }
    ensures fault { IfErr result (λ e. e ≢ GenFault.Memory → psb_of bytes.now dbd.now ≡ Err e) }
{
    let draft = draft_of(alloc, &Kind::Psb(*dbd.name()), bytes)?;
    match Psb::new(alloc, dbd, draft.pcbs) {
        Ok(psb) => Ok(psb),
        Err(PsbFault::Memory) => Err(GenFault::Memory),
        Err(fault) => Err(GenFault::Psb(fault)),
    }
}

/// What a source says.
fn draft_of(alloc: Global, kind: &Kind, bytes: &[u8]) -> Result<Draft, GenFault>
    ensures draft { IfOk result (λ d. draft_of kind.now bytes.now ≡ Ok d) }
    ensures fault { IfErr result (λ e. e ≢ GenFault.Memory → draft_of kind.now bytes.now ≡ Err e) }
{
    let statements = statements_in(alloc, bytes)?;
    read_statements(alloc, kind, bytes, &statements)
}

/// The statements of a source, or the first fault of its lines.
pub(crate) fn statements_in(alloc: Global, bytes: &[u8]) -> Result<Vec<Statement>, GenFault>
    ensures statements { IfOk result (λ v. statements_in bytes.now ≡ Ok v.items) }
    ensures fault { IfErr result (λ e. e ≢ GenFault.Memory → statements_in bytes.now ≡ Err e) }
{
    match statements(alloc, bytes) {
        Ok(statements) => Ok(statements),
        Err(LineFault::Memory) => Err(GenFault::Memory),
        Err(fault) => Err(GenFault::Line(fault)),
    }
}

/// The number of the line behind the last.
fn line_behind(bytes: &[u8]) -> usize
    ensures { result ≡ line_behind bytes.now }
{
    let mut rest = bytes;
    let mut number = 1;
    'lines: while !rest.is_empty() {
        let (_, after) = next_line(rest);
        rest = after;
        number += 1;
    }
    number
}

/// What the statements of a source say from the beginning on.
fn read_statements(
    alloc: Global,
    kind: &Kind,
    bytes: &[u8],
    statements: &[Statement],
) -> Result<Draft, GenFault>
    ensures draft { IfOk result (λ d. draft_from kind.now (line_behind bytes.now) (record { stage = Stage.Start; draft = empty_draft }) statements.now ≡ Ok d) }
    ensures fault { IfErr result (λ e. e ≢ GenFault.Memory → draft_from kind.now (line_behind bytes.now) (record { stage = Stage.Start; draft = empty_draft }) statements.now ≡ Err e) }
{
    let mut progress = Progress {
        stage: Stage::Start,
        draft: empty_draft(alloc),
    };
    for statement in statements {
        progress = with_next(alloc, kind, progress, statement)?;
    }
    if is_complete(progress.stage) {
        Ok(progress.draft)
    } else {
        Err(GenFault::G2(line_behind(bytes)))
    }
}

/// One statement more.
pub(crate) fn with_next(
    alloc: Global,
    kind: &Kind,
    progress: Progress,
    statement: &Statement,
) -> Result<Progress, GenFault>
    ensures progress { IfOk result (λ p. with_next kind.now progress statement.now ≡ Ok p) }
    ensures fault { IfErr result (λ e. e ≢ GenFault.Memory → with_next kind.now progress statement.now ≡ Err e) }
{
    let Progress { stage, draft } = progress;
    let Some(operation) = operation_of(kind, &statement.operation) else {
        return Err(GenFault::G1(statement.line));
    };
    let Some(stage) = next_stage(stage, operation) else {
        return Err(GenFault::G2(statement.line));
    };
    placed(alloc, kind, operation, stage, draft, statement)
}

/// A statement that may stand here.
fn placed(
    alloc: Global,
    kind: &Kind,
    operation: Operation,
    stage: Stage,
    draft: Draft,
    statement: &Statement,
) -> Result<Progress, GenFault>
    ensures progress { IfOk result (λ p. placed kind.now operation stage draft statement.now ≡ Ok p) }
    ensures fault { IfErr result (λ e. e ≢ GenFault.Memory → placed kind.now operation stage draft statement.now ≡ Err e) }
{
    if is_lchild_below_root(operation, &draft) {
        return Err(GenFault::G3(statement.line));
    }
    let context = context_of(kind, &draft);
    let given = read_operands(&context, operation, statement.line, &statement.operands)?;
    let draft = with_statement(alloc, operation, statement.line, draft, &given)?;
    Ok(Progress { stage, draft })
}

/// The statement of an operation, if the source has it.
pub(crate) fn operation_of(kind: &Kind, word: &[u8]) -> Option<Operation>
    ensures { result ≡ operation_of kind.now word.now }
{
    match kind {
        Kind::Dbd => dbd_operation(word),
        Kind::Psb(_) => psb_operation(word),
    }
}

/// Whether this is an LCHILD that does not stand at the root.
pub(crate) fn is_lchild_below_root(operation: Operation, draft: &Draft) -> bool
    ensures { result ≡ is_lchild_below_root operation draft.now }
{
    match operation {
        Operation::Lchild => draft.types.len() > 1,
        _ => false,
    }
}

/// Where a statement stands.
pub(crate) fn context_of(kind: &Kind, draft: &Draft) -> Context
    ensures { result ≡ context_of kind.now draft.now }
{
    Context {
        is_root: draft.types.is_empty(),
        has_key: has_key_last(draft),
        database: database_of_kind(kind),
    }
}

fn has_key_last(draft: &Draft) -> bool
    ensures { result ≡ has_key_last draft.now.types }
{
    match draft.types.last() {
        Some(segment) => segment.key.is_some(),
        None => false,
    }
}

fn database_of_kind(kind: &Kind) -> Option<Name8>
    ensures { result ≡ database_of_kind kind.now }
{
    match kind {
        Kind::Dbd => None,
        Kind::Psb(name) => Some(*name),
    }
}
