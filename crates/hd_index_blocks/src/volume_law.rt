ghost use Rattle.hd_index_blocks.specs.Faultless.{IndexSetsAreFaultless};
ghost use Rattle.hd_index_blocks.specs.LevelFaults.{FormsAreJudged, NamesAreJudged, ReachIsJudged, LevelsAreJudged, FaultsAreAll};
ghost use Rattle.hd_index_blocks.specs.Neighbours.{LeftNeighboursAreNamed};
ghost use Rattle.hd_index_blocks.specs.Parents.{IndexBlocksArePlaced, PlacedBlocksAreReached};
ghost use Rattle.hd_index_blocks.specs.VolumeLaws.{LevelsAreOfIndexBlocks, IndexBlocksAreRight, TopsAreRight, ChildrenAreRight, BlocksAreNamedOnce};
ghost use Rattle.hd_index_blocks.specs.VolumeLaws.{EntriesAreBelow, EntriesAscend, LeavesAnswerForAll, FewBlocksAreNeeded, IndexSetsStay, IndexesStay};
ghost use Rattle.hd_index_blocks.specs.WorkedVolume.{SampleHasIndexSet, OneLevelHasIndexSet};

/// The left neighbour of a block stands before it in the upper block, or last in what the upper block's left neighbour names.
pub fn law_left_neighbours_are_named()
    ensures { LeftNeighboursAreNamed }
{}

/// Each index block but the top is named by a block of the level above.
pub fn law_index_blocks_are_placed()
    ensures { IndexBlocksArePlaced }
{}

/// Where each block of an index set is the top or has a parent, the top leads to each.
pub fn law_placed_blocks_are_reached()
    ensures { PlacedBlocksAreReached }
{}

/// The blocks of a volume that have a level are its index blocks.
pub fn law_levels_are_of_index_blocks()
    ensures { LevelsAreOfIndexBlocks }
{}

/// Each index block of a volume that has an index set is right by itself.
pub fn law_index_blocks_are_right()
    ensures { IndexBlocksAreRight }
{}

/// The top of a volume's index set is a right block of the highest level.
pub fn law_index_tops_are_right()
    ensures { TopsAreRight }
{}

/// An upper block of a volume's index set leads to a right block of the level below.
pub fn law_children_are_right()
    ensures { ChildrenAreRight }
{}

/// The top and the upper entries of a volume's index set name each block once.
pub fn law_blocks_are_named_once()
    ensures { BlocksAreNamedOnce }
{}

/// The entries of an index are those of the chain in version 1, and those of the sequence set below the top later.
pub fn law_index_entries_are_below()
    ensures { EntriesAreBelow }
{}

/// The keys of an index ascend, whatever its version.
pub fn law_index_entries_ascend()
    ensures { EntriesAscend }
{}

/// What is found of a key in the whole index of a volume is found in the block that it leads to, or first in the next.
pub fn law_leaves_answer_for_all()
    ensures { LeavesAnswerForAll }
{}

/// A new key needs no more blocks than an entry may need.
pub fn law_few_blocks_are_needed()
    ensures { FewBlocksAreNeeded }
{}

/// The index set of a volume depends on its index blocks, and on the header's top and height, alone.
pub fn law_index_sets_stay()
    ensures { IndexSetsStay }
{}

/// The index of a volume of any version depends on its index blocks, and on the header's top and height, alone.
pub fn law_indexes_stay()
    ensures { IndexesStay }
{}

/// The volumes that have an index set are those in which a check finds nothing wrong with the index.
pub fn law_index_sets_are_faultless()
    ensures { IndexSetsAreFaultless }
{}

/// Just where top, height and each index block are right, no fault of the form stands.
pub fn law_forms_are_judged()
    ensures { FormsAreJudged }
{}

/// Just where no index block is named twice, no such fault stands.
pub fn law_names_are_judged()
    ensures { NamesAreJudged }
{}

/// Just where each index block is reached from the top, no fault of an unreached one stands.
pub fn law_reach_is_judged()
    ensures { ReachIsJudged }
{}

/// Phase 11 finds nothing just where each level is a chain from left to right, and the keys are right.
pub fn law_levels_are_judged()
    ensures { LevelsAreJudged }
{}

/// A formatted volume of version 2 or later has an index set just where no line of the fault table stands.
pub fn law_faults_are_all()
    ensures { FaultsAreAll }
{}

/// The sample of the documents, in a volume of version 2 with an index of two levels, has an index set.
pub fn law_sample_has_index_set()
    ensures { SampleHasIndexSet }
{}

/// The documents' own image, in version 2, has an index set; with no entry in its index block, or with a ring, it has none.
pub fn law_one_level_has_index_set()
    ensures { OneLevelHasIndexSet }
{}
