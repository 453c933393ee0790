/// Where a get looks: in the whole database, from the position on, or among the dependents of the parent.
#[derive(Clone, Copy, Debug, PartialEq, Eq)]
pub enum GetKind {
    Unique,
    Next,
    NextInParent,
}

/// What a call does. A get says whether it holds what it returns.
#[derive(Clone, Copy, Debug, PartialEq, Eq)]
pub enum Function {
    Get(GetKind, bool),
    Insert,
    Replace,
    Delete,
}

/// How a field is compared with a value.
#[derive(Clone, Copy, Debug, PartialEq, Eq)]
pub enum Operator {
    Equal,
    AtLeast,
    AtMost,
    Greater,
    Less,
    NotEqual,
}

/// The command codes of a segment search argument: D asks for the row of a path, F for the first occurrence, L for the last, and N
/// excepts a held row from a replace.
#[derive(Clone, Copy, Debug, PartialEq, Eq)]
pub struct Commands {
    pub path: bool,
    pub first: bool,
    pub last: bool,
    pub excepted: bool,
}

/// Why an area is not the rows that it should be, of which the first from its front answers.
#[derive(Clone, Copy, Debug, PartialEq, Eq)]
pub enum AreaFault {
    /// V1: a row of a type whose rows vary says no length that its type allows, or more bytes than are left.
    Length,
    /// Bytes lack for a row, or are left over.
    Bytes,
}
