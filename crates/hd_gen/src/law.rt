ghost use Rattle.hd_gen.specs.Laws.{StatementsStandInOrder};

/// Statements are read as a whole source just where they stand in the order of a DBD's or a PSB's.
pub fn law_statements_stand_in_order()
    ensures { StatementsStandInOrder }
{}
