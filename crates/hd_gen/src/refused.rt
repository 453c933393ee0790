ghost use Rattle.std.specs.Prelude.{◌≡◌, IfOk, IfErr};
ghost use Rattle.hd_gen.specs.Drafts.{empty_draft};
ghost use Rattle.hd_gen.specs.Refused.{read_of, refused_from, refused_operand};

use crate::draft::empty_draft;
use crate::fault::GenFault;
use crate::given::count_read;
use crate::source::{
    Kind, Progress, context_of, is_lchild_below_root, operation_of, statements_in, with_next,
};
use crate::table::Stage;
use hd_dbd::Name8;
use hd_macro::Statement;
use std::alloc::Global;

/// Of the first statement that a DBD source is refused for, how many of its operands stand before the one that is refused (G3 and G4); all where none is.
/// `None` where no statement is refused. `Memory` is the one error.
pub fn refused_operand_of_dbd(alloc: Global, bytes: &[u8]) -> Result<Option<usize>, GenFault>
    ensures count { IfOk result (λ o. o ≡ refused_operand Kind.Dbd bytes.now) }
    ensures memory { IfErr result (λ e. e ≡ GenFault.Memory) }
{
    refused_operand(alloc, &Kind::Dbd, bytes)
}

/// The same of a PSB source, for the database of a name.
pub fn refused_operand_of_psb(
    alloc: Global,
    bytes: &[u8],
    database: &Name8,
) -> Result<Option<usize>, GenFault>
    ensures count { IfOk result (λ o. o ≡ refused_operand (Kind.Psb database.now) bytes.now) }
    ensures memory { IfErr result (λ e. e ≡ GenFault.Memory) }
{
    refused_operand(alloc, &Kind::Psb(*database), bytes)
}

fn refused_operand(alloc: Global, kind: &Kind, bytes: &[u8]) -> Result<Option<usize>, GenFault>
    ensures count { IfOk result (λ o. o ≡ refused_operand kind.now bytes.now) }
    ensures memory { IfErr result (λ e. e ≡ GenFault.Memory) }
{
    match statements_in(alloc, bytes) {
        Ok(statements) => refused_in(alloc, kind, &statements),
        Err(GenFault::Memory) => Err(GenFault::Memory),
        Err(_) => Ok(None),
    }
}

/// The same of statements from the beginning on.
fn refused_in(
    alloc: Global,
    kind: &Kind,
    statements: &[Statement],
) -> Result<Option<usize>, GenFault>
    ensures count { IfOk result (λ o. o ≡ refused_from kind.now (record { stage = Stage.Start; draft = empty_draft }) statements.now) }
    ensures memory { IfErr result (λ e. e ≡ GenFault.Memory) }
{
    let mut progress = Progress {
        stage: Stage::Start,
        draft: empty_draft(alloc),
    };
    for statement in statements {
        let count = read_of(kind, &progress, statement);
        match with_next(alloc, kind, progress, statement) {
            Ok(next) => progress = next,
            Err(GenFault::Memory) => return Err(GenFault::Memory),
            Err(_) => return Ok(Some(count)),
        }
    }
    Ok(None)
}

/// How many operands of one statement more are read.
fn read_of(kind: &Kind, progress: &Progress, statement: &Statement) -> usize
    ensures { result ≡ read_of kind.now progress.now statement.now }
{
    let Some(operation) = operation_of(kind, &statement.operation) else {
        return 0;
    };
    if is_lchild_below_root(operation, &progress.draft) {
        return statement.operands.len();
    }
    let context = context_of(kind, &progress.draft);
    count_read(&context, operation, statement.line, &statement.operands)
}
