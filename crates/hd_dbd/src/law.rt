ghost use Rattle.hd_dbd.specs.Laws.{LevelsFollowParents, SequencesAreValid, ValidRowsAreOneForest, TwinsAscend, ValidRowsAreInSequence, PathsFollowParents, LoadedRowsAreValid};

/// The level of a type is one more than its parent's, and the root's is 1.
pub fn law_levels_follow_parents()
    ensures { LevelsFollowParents }
{}

/// The hierarchic sequence of a forest of the database is a valid list of rows.
pub fn law_sequences_are_valid()
    ensures { SequencesAreValid }
{}

/// Each valid list of rows is the hierarchic sequence of exactly one forest of the database.
pub fn law_valid_rows_are_one_forest()
    ensures { ValidRowsAreOneForest }
{}

/// Of any two twins in a valid list of rows the earlier stands before the later in key order.
pub fn law_twins_ascend()
    ensures { TwinsAscend }
{}

/// The valid lists of rows are just those in hierarchic sequence, told without a walk.
pub fn law_valid_rows_are_in_sequence()
    ensures { ValidRowsAreInSequence }
{}

/// The path of a row is that of its parent, and the row.
pub fn law_paths_follow_parents()
    ensures { PathsFollowParents }
{}

/// A row of its type's length may be loaded behind valid rows just where they are valid with it.
pub fn law_loaded_rows_are_valid()
    ensures { LoadedRowsAreValid }
{}
