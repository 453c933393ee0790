ghost use Rattle.std.specs.Prelude.{◌≤◌, vec_len};

use crate::statement::Operand;

/// How far an operand is read. The last three stand in a bracketed list, or behind a bracket that closes.
#[derive(Clone, Copy, Drop)]
pub(crate) enum Place {
    InKeyword,
    AtValue,
    InValue,
    AtMember,
    InMember,
    BehindList,
}

/// Operand text as far as it is read: the operands that are whole, keyword and value of the one that is not, and how many
/// brackets are open.
#[derive(Drop)]
pub(crate) struct Reading {
    pub whole: Vec<Operand>,
    pub keyword: Vec<u8>,
    pub value: Vec<u8>,
    pub place: Place,
    pub depth: usize,
    ghost shallow: { depth ≤ vec_len value },
}
