ghost use Rattle.hd_changes.specs.Found.{RootsAreOfTheFirstType, RootsStandAlone, RootKeysAreWhole, RootsAscend, IndexAnswersRoots, FirstRootsFollowLesser};
ghost use Rattle.hd_changes.specs.Laws.{ChangesBelowKeepEntries, ReplacingKeepsEntries, LinkingEntersRoots, UnlinkingRemovesRoots, HeldIsEntered, ForestChangesKeepEntries, IndexChangesKeepTheForest, LinkedBelowIsHeld, LinkedRootIsNew, LinkedRootIsHeld, EnteredRootIsHeld, UnlinkedBelowIsHeld, UnlinkedRootIsHeld, RemovedRootIsHeld};
ghost use Rattle.hd_changes.specs.Rooms.{FirstRowsFindRoom, RoomLasts, FirstRootsFindRoom, RootEntriesFindRoom, RootRoomLasts, SetRowsLeaveRoom, SameEntriesLeaveRoom, OneImageIsOneVolume};
ghost use Rattle.hd_changes.specs.VolumeImages.{VolumesHoldTheirRows, VolumesHaveTheirRoom, LackingRoomIsTheRule, VolumesFollow};
ghost use Rattle.hd_changes.specs.NewPaths.{LeavesTakeAChild, FirstChildrenGoInNext, PathsBeginBelowRows, PathsBeginWithRoots, PathsGoOn, PathsAreInsertions};
ghost use Rattle.hd_changes.specs.SetRows.{SetRowIsHeld, SetRootIsHeld, SettingBegins, SettingGoesOn, SettingFollows};
ghost use Rattle.hd_changes.specs.Deletions.{UnlinkedSpansAreDeleted, UnlinkedRootsAreDeleted};

/// Roots are the rows of the first level, the path of each is the root alone, and its key is as long as those of the index.
pub fn law_roots_are_of_the_first_type()
    ensures level { RootsAreOfTheFirstType }
    ensures path { RootsStandAlone }
    ensures whole { RootKeysAreWhole }
{}

/// The keys of roots ascend row by row.
pub fn law_roots_ascend()
    ensures { RootsAscend }
{}

/// What the index answers for a key is the address of the root with the key; from a key on, that of the first root whose
/// key is not below it.
pub fn law_the_index_answers_roots()
    ensures answers { IndexAnswersRoots }
    ensures lesser { FirstRootsFollowLesser }
{}

/// A change below a row, and bytes with the same key, change no root's entry.
pub fn law_changes_keep_entries()
    ensures below { ChangesBelowKeepEntries }
    ensures replacing { ReplacingKeepsEntries }
{}

/// A new root's key is new, and its entry goes in at the key; a root that is taken out leaves the entries without its key.
pub fn law_roots_change_entries()
    ensures linking { LinkingEntersRoots }
    ensures unlinking { UnlinkingRemovesRoots }
{}

/// A change of the forest keeps the index's entries, and one of the index keeps the forest, so that the two steps of a change
/// to a root may come in either order.
pub fn law_changes_are_apart()
    ensures held { HeldIsEntered }
    ensures forest { ForestChangesKeepEntries }
    ensures index { IndexChangesKeepTheForest }
{}

/// After each change a volume holds the forest so changed: a root's, once both of its steps are done.
pub fn law_changed_volumes_hold()
    ensures linked { LinkedBelowIsHeld }
    ensures linked_new { LinkedRootIsNew }
    ensures linked_root { LinkedRootIsHeld }
    ensures entered_root { EnteredRootIsHeld }
    ensures unlinked { UnlinkedBelowIsHeld }
    ensures unlinked_root { UnlinkedRootIsHeld }
    ensures removed_root { RemovedRootIsHeld }
{}

/// Room and memory for rows of which none is a root last from the link of one to that of the next: none is refused for want of
/// either.
pub fn law_room_lasts()
    ensures first { FirstRowsFindRoom }
    ensures lasts { RoomLasts }
{}

/// The same of a root, its entry in the index, and the rows below it.
pub fn law_room_lasts_for_roots()
    ensures first { FirstRootsFindRoom }
    ensures entry { RootEntriesFindRoom }
    ensures lasts { RootRoomLasts }
{}

/// Room and memory for rows that get other bytes last from one to the next, and a row that stays where it stands takes none.
pub fn law_set_rows_leave_room()
    ensures { SetRowsLeaveRoom }
{}

/// A change of the index that takes no block leaves the rows the room and memory that they had.
pub fn law_same_entries_leave_room()
    ensures { SameEntriesLeaveRoom }
{}

/// A volume's bytes hold the rows that it holds, and have its room.
pub fn law_volumes_are_images()
    ensures rows { VolumesHoldTheirRows }
    ensures room { VolumesHaveTheirRoom }
{}

/// Where an image lacks room for rows, and where it follows from the one before, told of volumes.
pub fn law_images_follow_volumes()
    ensures lacks { LackingRoomIsTheRule }
    ensures follows { VolumesFollow }
{}

/// Below a leaf that was linked any row of a child type may be linked, and goes in just behind it.
pub fn law_leaves_take_a_child()
    ensures takes { LeavesTakeAChild }
    ensures next { FirstChildrenGoInNext }
{}

/// Rows that are linked each below the one before stand together, from the number of the first on, and are an insertion of
/// these rows.
pub fn law_paths_go_in_together()
    ensures below { PathsBeginBelowRows }
    ensures roots { PathsBeginWithRoots }
    ensures more { PathsGoOn }
    ensures insertion { PathsAreInsertions }
{}

/// A row that got other bytes, in its place or elsewhere, is held with these: a root that moved, once its key has its address in the index.
pub fn law_set_rows_are_held()
    ensures row { SetRowIsHeld }
    ensures root { SetRootIsHeld }
{}

/// Rows that get other bytes one after the other are a replacement of them all, in which those that are made longer may move.
pub fn law_settings_add_up()
    ensures begin { SettingBegins }
    ensures more { SettingGoesOn }
    ensures follows { SettingFollows }
{}

/// A span that was unlinked, and for a root its key removed, is a deletion of its rows.
pub fn law_unlinked_spans_are_deleted()
    ensures below { UnlinkedSpansAreDeleted }
    ensures roots { UnlinkedRootsAreDeleted }
{}

/// A call that only looks, or only reserves memory, leaves the forest that a volume holds, and its room.
pub fn law_one_image_is_one_volume()
    ensures { OneImageIsOneVolume }
{}
