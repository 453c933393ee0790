ghost use Rattle.hd_position.specs.Laws.{TheStartIsBeforeAllRows, LinkingMovesPositions, LeavesGoInBelowLeaves, InsertionsAddUp, UnlinkingMovesPositions, ReplacingKeepsPositions, EndedHoldsHoldNothing, RewritingEndsHolds, RewritesAddUp, MovingKeepsPositions, TheRowBeforeIsOne, PathsAreLevels, RowsAreFew, RootsAreOfLevelOne, SpansAreOnPaths};
ghost use Rattle.hd_position.specs.Volumes.{ForestsOfVolumesAreHeld, LinkedRowsMovePositions, LinkedPathsGoInTogether, UnlinkedRowsMovePositions, LastPathsAreKept};

/// What is kept before all rows stands for the start.
pub fn law_the_start_is_before_all_rows()
    ensures { TheStartIsBeforeAllRows }
{}

/// A leaf that is linked leaves the path of each row as it was, and what is kept of each PCB; the position for which that stands is
/// renumbered.
pub fn law_linking_moves_positions()
    ensures { LinkingMovesPositions }
{}

/// A leaf that is linked below a leaf just linked goes in just behind it.
pub fn law_leaves_go_in_below_leaves()
    ensures { LeavesGoInBelowLeaves }
{}

/// Rows that go in one behind the other move each position as they do together.
pub fn law_insertions_add_up()
    ensures { InsertionsAddUp }
{}

/// A span that is unlinked changes what is kept of a PCB only where the span's row is on its path; the position for which that stands
/// is renumbered.
pub fn law_unlinking_moves_positions()
    ensures { UnlinkingMovesPositions }
{}

/// Bytes that are replaced change nothing that is kept.
pub fn law_replacing_keeps_positions()
    ensures { ReplacingKeepsPositions }
{}

/// A hold that is ended holds no row, and all else that is kept stays.
pub fn law_ended_holds_hold_nothing()
    ensures { EndedHoldsHoldNothing }
{}

/// A row that gets new bytes ends the holds of it.
pub fn law_rewriting_ends_holds()
    ensures { RewritingEndsHolds }
{}

/// Rows that get new bytes one by one end the holds that they do together.
pub fn law_rewrites_add_up()
    ensures { RewritesAddUp }
{}

/// A row that moves to another address changes the path that is kept, and no position.
pub fn law_moving_keeps_positions()
    ensures { MovingKeepsPositions }
{}

/// A path that leads down, and behind whose last row stands a row, is that of the row before it.
pub fn law_the_row_before_is_one()
    ensures { TheRowBeforeIsOne }
{}

/// A path is as long as its row's level, which is at most 15.
pub fn law_paths_are_levels()
    ensures { PathsAreLevels }
{}

/// The rows are fewer than a bound of their addresses.
pub fn law_rows_are_few()
    ensures { RowsAreFew }
{}

/// A row is a root just where its level is 1.
pub fn law_roots_are_of_level_one()
    ensures { RootsAreOfLevelOne }
{}

/// A row is in the span of another just where the other's address is on its path, at the other's level.
pub fn law_spans_are_on_paths()
    ensures { SpansAreOnPaths }
{}

/// Each law of held forests is one of the forests that volumes hold.
pub fn law_forests_of_volumes_are_held()
    ensures { ForestsOfVolumesAreHeld }
{}

/// A row that was linked renumbers positions from the number where it went in.
pub fn law_linked_rows_move_positions()
    ensures { LinkedRowsMovePositions }
{}

/// A row that was linked below a row just linked went in just behind it.
pub fn law_linked_paths_go_in_together()
    ensures { LinkedPathsGoInTogether }
{}

/// A row whose span was unlinked renumbers positions from its number on.
pub fn law_unlinked_rows_move_positions()
    ensures { UnlinkedRowsMovePositions }
{}

/// The path of the last row passed, behind all rows, is that of the last row, as a load keeps it.
pub fn law_last_paths_are_kept()
    ensures { LastPathsAreKept }
{}
