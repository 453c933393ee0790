ghost use Rattle.hd_forest.specs.Laws.{WalkingGivesTheSequence, VolumesStepFromRowToRow};

/// The walk from row to row gives the hierarchic sequence.
pub fn law_walking_gives_the_sequence()
    ensures { WalkingGivesTheSequence }
{}

/// The steps from row to row, and over a row's span, go from the path of a row to that of the row there.
pub fn law_steps_go_to_rows()
    ensures { VolumesStepFromRowToRow }
{}
