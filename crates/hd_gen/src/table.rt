ghost use Rattle.std.specs.Prelude.{◌≡◌};
ghost use Rattle.hd_gen.specs.Tables.{look_up, dbd_operations, psb_operations, operands_of, main_keyword, next_stage, is_complete};

/// A statement of a source, by its operation.
#[derive(Clone, Copy)]
pub(crate) enum Operation {
    Dbd,
    Dataset,
    Segm,
    Field,
    Lchild,
    Dbdgen,
    Finish,
    Pcb,
    Senseg,
    Psbgen,
    End,
}

/// How far a source is read: the statement that came last, and what may follow it.
#[derive(Clone, Copy)]
pub(crate) enum Stage {
    Start,
    /// Behind DBD.
    Named,
    /// Behind DATASET.
    Sized,
    /// Behind a SEGM, a FIELD or an LCHILD.
    Types,
    /// Behind a PCB or a SENSEG.
    Pcbs,
    /// Behind DBDGEN or PSBGEN.
    Generated,
    Finished,
    Ended,
}

/// What an operand means.
#[derive(Clone, Copy)]
pub(crate) enum Meaning {
    Name,
    Access,
    BlockSize,
    FreeSpace,
    Parent,
    SeenParent,
    Length,
    SegmentBytes,
    Twins,
    Rules,
    FieldName,
    Start,
    DataType,
    IndexSegment,
    IndexPointer,
    DatabaseType,
    DatabaseName,
    Procopt,
    Positioning,
    NotUsed,
}

/// The statements of a DBD source.
pub(crate) fn dbd_operation(word: &[u8]) -> Option<Operation>
    ensures { result ≡ look_up dbd_operations word.now }
{
    match word {
        b"DBD" => Some(Operation::Dbd),
        b"DATASET" => Some(Operation::Dataset),
        b"SEGM" => Some(Operation::Segm),
        b"FIELD" => Some(Operation::Field),
        b"LCHILD" => Some(Operation::Lchild),
        b"DBDGEN" => Some(Operation::Dbdgen),
        b"FINISH" => Some(Operation::Finish),
        b"END" => Some(Operation::End),
        _ => None,
    }
}

/// The statements of a PSB source.
pub(crate) fn psb_operation(word: &[u8]) -> Option<Operation>
    ensures { result ≡ look_up psb_operations word.now }
{
    match word {
        b"PCB" => Some(Operation::Pcb),
        b"SENSEG" => Some(Operation::Senseg),
        b"PSBGEN" => Some(Operation::Psbgen),
        b"END" => Some(Operation::End),
        _ => None,
    }
}

/// How far a source is read behind a statement, if it may stand there.
pub(crate) fn next_stage(stage: Stage, operation: Operation) -> Option<Stage>
    ensures { result ≡ next_stage stage operation }
{
    match (stage, operation) {
        (Stage::Start, Operation::Dbd) => Some(Stage::Named),
        (Stage::Start, Operation::Pcb) => Some(Stage::Pcbs),
        (Stage::Named, Operation::Dataset) => Some(Stage::Sized),
        (Stage::Named | Stage::Sized, Operation::Segm) => Some(Stage::Types),
        (Stage::Types, Operation::Segm | Operation::Field | Operation::Lchild) => {
            Some(Stage::Types)
        }
        (Stage::Types, Operation::Dbdgen) => Some(Stage::Generated),
        (Stage::Pcbs, Operation::Pcb | Operation::Senseg) => Some(Stage::Pcbs),
        (Stage::Pcbs, Operation::Psbgen) => Some(Stage::Generated),
        (Stage::Generated, Operation::Finish) => Some(Stage::Finished),
        (Stage::Generated | Stage::Finished, Operation::End) => Some(Stage::Ended),
        _ => None,
    }
}

/// Whether a source may end here.
pub(crate) fn is_complete(stage: Stage) -> bool
    ensures { result ≡ is_complete stage }
{
    matches!(stage, Stage::Generated | Stage::Finished | Stage::Ended)
}

/// What an operand of a statement means, by its keyword; an operand with two keywords stands under each of them.
pub(crate) fn meaning_of(operation: Operation, keyword: &[u8]) -> Option<Meaning>
    ensures { result ≡ look_up (operands_of operation) keyword.now }
{
    match operation {
        Operation::Dbd => dbd_operand(keyword),
        Operation::Dataset => dataset_operand(keyword),
        Operation::Segm => segm_operand(keyword),
        Operation::Field => field_operand(keyword),
        Operation::Lchild => lchild_operand(keyword),
        Operation::Pcb => pcb_operand(keyword),
        Operation::Senseg => senseg_operand(keyword),
        Operation::Psbgen => psbgen_operand(keyword),
        Operation::Dbdgen | Operation::Finish | Operation::End => None,
    }
}

fn dbd_operand(keyword: &[u8]) -> Option<Meaning>
    ensures { result ≡ look_up (operands_of Operation.Dbd) keyword.now }
{
    match keyword {
        b"NAME" => Some(Meaning::Name),
        b"ACCESS" => Some(Meaning::Access),
        b"PASSWD" => Some(Meaning::NotUsed),
        _ => None,
    }
}

fn dataset_operand(keyword: &[u8]) -> Option<Meaning>
    ensures { result ≡ look_up (operands_of Operation.Dataset) keyword.now }
{
    match keyword {
        b"SIZE" => Some(Meaning::BlockSize),
        b"FRSPC" => Some(Meaning::FreeSpace),
        b"DD1" | b"DEVICE" | b"SCAN" | b"MODEL" => Some(Meaning::NotUsed),
        _ => None,
    }
}

fn segm_operand(keyword: &[u8]) -> Option<Meaning>
    ensures { result ≡ look_up (operands_of Operation.Segm) keyword.now }
{
    match keyword {
        b"NAME" => Some(Meaning::Name),
        b"PARENT" => Some(Meaning::Parent),
        b"BYTES" => Some(Meaning::SegmentBytes),
        b"POINTER" | b"PTR" => Some(Meaning::Twins),
        b"RULES" => Some(Meaning::Rules),
        b"FREQ" => Some(Meaning::NotUsed),
        _ => None,
    }
}

fn field_operand(keyword: &[u8]) -> Option<Meaning>
    ensures { result ≡ look_up (operands_of Operation.Field) keyword.now }
{
    match keyword {
        b"NAME" => Some(Meaning::FieldName),
        b"BYTES" => Some(Meaning::Length),
        b"START" => Some(Meaning::Start),
        b"TYPE" => Some(Meaning::DataType),
        _ => None,
    }
}

fn lchild_operand(keyword: &[u8]) -> Option<Meaning>
    ensures { result ≡ look_up (operands_of Operation.Lchild) keyword.now }
{
    match keyword {
        b"NAME" => Some(Meaning::IndexSegment),
        b"POINTER" | b"PTR" => Some(Meaning::IndexPointer),
        _ => None,
    }
}

fn pcb_operand(keyword: &[u8]) -> Option<Meaning>
    ensures { result ≡ look_up (operands_of Operation.Pcb) keyword.now }
{
    match keyword {
        b"TYPE" => Some(Meaning::DatabaseType),
        b"DBDNAME" | b"NAME" => Some(Meaning::DatabaseName),
        b"PROCOPT" => Some(Meaning::Procopt),
        b"POS" => Some(Meaning::Positioning),
        b"KEYLEN" | b"PCBNAME" => Some(Meaning::NotUsed),
        _ => None,
    }
}

fn senseg_operand(keyword: &[u8]) -> Option<Meaning>
    ensures { result ≡ look_up (operands_of Operation.Senseg) keyword.now }
{
    match keyword {
        b"NAME" => Some(Meaning::Name),
        b"PARENT" => Some(Meaning::SeenParent),
        b"PROCOPT" => Some(Meaning::Procopt),
        _ => None,
    }
}

fn psbgen_operand(keyword: &[u8]) -> Option<Meaning>
    ensures { result ≡ look_up (operands_of Operation.Psbgen) keyword.now }
{
    match keyword {
        b"LANG" | b"PSBNAME" | b"CMPAT" | b"IOASIZE" | b"SSASIZE" => Some(Meaning::NotUsed),
        _ => None,
    }
}

/// Of two keywords for one operand the one that stands for both.
pub(crate) fn main_keyword(operation: Operation, keyword: &[u8]) -> &[u8]
    ensures { result.now ≡ main_keyword operation keyword.now }
{
    match (operation, keyword) {
        (Operation::Pcb, b"NAME") => b"DBDNAME",
        (Operation::Pcb, _) => keyword,
        (_, b"PTR") => b"POINTER",
        _ => keyword,
    }
}
