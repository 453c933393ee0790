use std::marker::Model;

/// An operand `KEY=value`: its keyword, and what stands behind the equals sign, with its brackets and commas.
#[derive(Drop)]
pub struct Operand {
    pub keyword: Vec<u8>,
    pub value: Vec<u8>,
}

impl Model for Operand {
    ghost use Rattle.hd_macro.specs.Statements.{OperandText};

    ghost Value = { OperandText };

    ghost view = { λ o. record { keyword = o.keyword.items; value = o.value.items } };
}

/// A statement: its label and operation, either of which may be empty, its operands, and the number of its first line,
/// from 1.
#[derive(Drop)]
pub struct Statement {
    pub label: Vec<u8>,
    pub operation: Vec<u8>,
    pub operands: Vec<Operand>,
    pub line: usize,
}

impl Model for Statement {
    ghost use Rattle.hd_macro.specs.Statements.{StatementText};

    ghost Value = { StatementText };

    ghost view = { λ s. record { label = s.label.items; operation = s.operation.items; operands = s.operands.items; line = s.line } };
}
