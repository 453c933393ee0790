ghost use Rattle.hd_macro.specs.Laws.{OneListIsSpelled, OperandTextIsSpelled, SourceIsStatements};

/// A text is read as operands just where it is spelled by them: keywords and values with equals signs and commas between,
/// a value a word or members in brackets.
pub fn law_operand_text_is_spelled()
    ensures { OperandTextIsSpelled }
{}

/// A text spells one list of operands at the most.
pub fn law_one_list_is_spelled()
    ensures { OneListIsSpelled }
{}

/// A source is read just where its lines are comments, blank lines and the lines of statements, and as these statements. The
/// operands of a statement are those that its operand text spells: that of its first line, and of columns 16 to 71 of the
/// lines in which it goes on.
pub fn law_source_is_statements()
    ensures { SourceIsStatements }
{}
