ghost use Rattle.hd_links.specs.LastRows.{LoadedRowsComeLast};
ghost use Rattle.hd_links.specs.Laws.{PointersDecide, HeldTwinsAscend, LiesByItsPlaces, LinkingAddsALeaf, UnlinkingTakesASpan, ReplacingChangesBytes, MovingKeepsTheForest, MovingWithNewBytes, AMoveKeepsRows, AddressesAreRows, PointersFollowRows, FaultyRecordsHoldNone, LeavesGoInBetweenRows, SpansAreRowsToTheirEnd, BytesChangeOneRow, BackwardNamesTheTwinBefore, ChainsEnd, LastChildEndsTheTwins};

/// The pointers of a database's records decide which forest they hold.
pub fn law_pointers_decide()
    ensures { PointersDecide }
{}

/// Each chain of twins from a first child ends, where each pointer is of its type and each segment has one predecessor:
/// what a walk along the twins may rest on before keys and paths are judged.
pub fn law_chains_end()
    ensures { ChainsEnd }
{}

/// Of any two twins of a forest that is held, the earlier stands before the later in key order.
pub fn law_held_twins_ascend()
    ensures { HeldTwinsAscend }
{}

/// Where a placed forest lies depends on the header and the placed addresses alone.
pub fn law_lies_by_its_places()
    ensures { LiesByItsPlaces }
{}

/// After a leaf was linked the records hold the forest with the leaf, all other addresses kept.
pub fn law_linking_adds_a_leaf()
    ensures { LinkingAddsALeaf }
{}

/// After a span was unlinked the records hold the forest without it, all other addresses kept.
pub fn law_unlinking_takes_a_span()
    ensures { UnlinkingTakesASpan }
{}

/// After a segment's bytes were replaced the records hold the forest with these bytes, all addresses kept.
pub fn law_replacing_changes_bytes()
    ensures { ReplacingChangesBytes }
{}

/// After a segment moved to an address where none stood the records hold the same forest, the row at its new address.
pub fn law_moving_keeps_the_forest()
    ensures { MovingKeepsTheForest }
{}

/// After a segment moved with other bytes, and was named where it stands then, the records hold the forest with these bytes, the row at
/// its new address.
pub fn law_moving_with_new_bytes()
    ensures { MovingWithNewBytes }
{}

/// A segment that moves leaves the rows as they were, and its new address stands wherever the old one stood.
pub fn law_a_move_keeps_rows()
    ensures { AMoveKeepsRows }
{}

/// Each placed address is that of one row, and each row has one address.
pub fn law_addresses_are_rows()
    ensures { AddressesAreRows }
{}

/// The path of a row by addresses, its first children, its next twin, the next row and the row behind its span are by
/// pointers what they are by rows.
pub fn law_pointers_follow_rows()
    ensures { PointersFollowRows }
{}

/// A leaf that is linked is one row more, at the number where it goes in.
pub fn law_leaves_go_in_between_rows()
    ensures { LeavesGoInBetweenRows }
{}

/// A span that is unlinked is the rows from its first to its end.
pub fn law_spans_are_rows_to_their_end()
    ensures { SpansAreRowsToTheirEnd }
{}

/// Where twin backward is kept it names the twin behind which a span is unlinked, or 0 for the first.
pub fn law_backward_names_the_twin_before()
    ensures { BackwardNamesTheTwinBefore }
{}

/// Where last child is kept it names the twin behind which a new last one is linked, or 0 for the first.
pub fn law_last_child_ends_the_twins()
    ensures { LastChildEndsTheTwins }
{}

/// Bytes that are replaced change one row, and no address.
pub fn law_bytes_change_one_row()
    ensures { BytesChangeOneRow }
{}

/// A ring of twins, a segment named twice, a last child in the middle of its chain, and a segment that is not reached are
/// in no forest.
pub fn law_faulty_records_hold_none()
    ensures { FaultyRecordsHoldNone }
{}

/// A row that may be loaded behind the last row of a forest goes in below its parent on that row's path, behind its twin there,
/// and comes last.
pub fn law_loaded_rows_come_last()
    ensures { LoadedRowsComeLast }
{}
