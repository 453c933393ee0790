ghost use Rattle.hd_index_blocks.specs.Chains.{ChainsHaveBlocksOnce, ChainsTakeBlocks, ChainsLoseBlocks};
ghost use Rattle.hd_index_blocks.specs.Laws.{KeysOfALevelAscend, BlocksStandOnce, LastKeysBound, TopsAreAround, StepsStayAround, KeysLeadToLeaves};
ghost use Rattle.hd_index_blocks.specs.Laws.{LeavesAnswer, GreatestKeysAreNear, NewKeysComeIn, LowerLevelsStay, WaysDownStay};
ghost use Rattle.hd_index_blocks.specs.Laws.{UpperKeysMayChange, BlocksMayBeDivided, TopsMayBeAdded, EntriesEnter, EntriesLeave};
ghost use Rattle.hd_index_blocks.specs.Linking.{DivisionsStayLinked, WaysStayLinked, ChainsStayLinked, LevelsStayLinked};
ghost use Rattle.hd_index_blocks.specs.Worked.{UpperKeysNeedNotAgree};

/// The keys of each level of an index set ascend, and those of its sequence set.
pub fn law_keys_of_a_level_ascend()
    ensures { KeysOfALevelAscend }
{}

/// No block of an index set stands twice on its level.
pub fn law_blocks_stand_once()
    ensures { BlocksStandOnce }
{}

/// The last key of a block may be its upper key.
pub fn law_last_keys_bound()
    ensures { LastKeysBound }
{}

/// The top of an index stands about every key.
pub fn law_tops_are_around()
    ensures { TopsAreAround }
{}

/// One step down by a key stays about the key.
pub fn law_steps_stay_around()
    ensures { StepsStayAround }
{}

/// A key leads from the top to the block of the sequence set that stands about it.
pub fn law_keys_lead_to_leaves()
    ensures { KeysLeadToLeaves }
{}

/// What is found of a key in the whole sequence set is found in the block about it, or first to its right.
pub fn law_leaves_answer()
    ensures { LeavesAnswer }
{}

/// The greatest key below a key stands in the block about the key, or last to its left.
pub fn law_greatest_keys_are_near()
    ensures { GreatestKeysAreNear }
{}

/// On the way down by the greatest key below it a new key may come in, once each upper key of the way is raised that is below it.
pub fn law_new_keys_come_in()
    ensures { NewKeysComeIn }
{}

/// An index set below the levels that change stays as it is.
pub fn law_lower_levels_stay()
    ensures { LowerLevelsStay }
{}

/// The way down to a level stays a way down where the level keeps the entries below each of its blocks.
pub fn law_ways_down_stay()
    ensures { WaysDownStay }
{}

/// An upper key may be any that bounds its block: at least all below it, less than the first key behind.
pub fn law_upper_keys_may_change()
    ensures { UpperKeysMayChange }
{}

/// A block may be divided under a parent that has room for an entry more.
pub fn law_blocks_may_be_divided()
    ensures { BlocksMayBeDivided }
{}

/// A new top may be set over the old one.
pub fn law_tops_may_be_added()
    ensures { TopsMayBeAdded }
{}

/// A new entry at the end of its way down comes into the index at its key, and nothing else changes there.
pub fn law_entries_enter()
    ensures { EntriesEnter }
{}

/// An entry that goes leaves the index without its key, and without the blocks that have no other entry.
pub fn law_entries_leave()
    ensures { EntriesLeave }
{}

/// A chain of blocks that ends has each of them once.
pub fn law_chains_have_blocks_once()
    ensures { ChainsHaveBlocksOnce }
{}

/// A new block comes into a chain behind another.
pub fn law_chains_take_blocks()
    ensures { ChainsTakeBlocks }
{}

/// A block goes from a chain behind another.
pub fn law_chains_lose_blocks()
    ensures { ChainsLoseBlocks }
{}

/// Upper keys of different levels need not agree: in such an index a new key leads elsewhere than the greatest key below it.
pub fn law_upper_keys_need_not_agree()
    ensures { UpperKeysNeedNotAgree }
{}

/// Where a block is divided, the blocks of each level stay a chain.
pub fn law_divisions_stay_linked()
    ensures { DivisionsStayLinked }
{}

/// Above levels that are chains the levels of a way down stay chains.
pub fn law_ways_stay_linked()
    ensures { WaysStayLinked }
{}

/// Where a block goes from its level, the others stay a chain.
pub fn law_chains_stay_linked()
    ensures { ChainsStayLinked }
{}

/// Where blocks go, each level stays a chain with those below it.
pub fn law_levels_stay_linked()
    ensures { LevelsStayLinked }
{}
