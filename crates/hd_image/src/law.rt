ghost use Rattle.hd_image.specs.Laws.{RecordsAreALinkGraph, RecordsStay, WritingSetsAPointer, SettingARootSetsAPointer, PuttingAddsARecord, FreeingTakesARecord, RewritingReplacesARecord, NewVolumesAreEmpty, AVolumeHoldsOneForest, RowsOfAVolumeAreFew};
ghost use Rattle.hd_image.specs.Exact.{RightVolumesHoldAForest, HeldForestsHaveNoFault};

/// The records of a database's volume are a link graph, whose addresses are places in its image.
pub fn law_records_are_a_link_graph()
    ensures { RecordsAreALinkGraph }
{}

/// Where all segments and the header's roots stay, the records stay.
pub fn law_records_stay()
    ensures { RecordsStay }
{}

/// An address that was written into a pointer of a segment changes that pointer of the records alone.
pub fn law_writing_sets_a_pointer()
    ensures { WritingSetsAPointer }
{}

/// A root that was set in the header is its first or last child.
pub fn law_setting_a_root_sets_a_pointer()
    ensures { SettingARootSetsAPointer }
{}

/// A segment that was put is one record more.
pub fn law_putting_adds_a_record()
    ensures { PuttingAddsARecord }
{}

/// A segment that was freed is one record less.
pub fn law_freeing_takes_a_record()
    ensures { FreeingTakesARecord }
{}

/// A segment that was replaced, in its place or elsewhere, is one record less and one more.
pub fn law_rewriting_replaces_a_record()
    ensures { RewritingReplacesARecord }
{}

/// A new volume holds the forest without rows.
pub fn law_new_volumes_are_empty()
    ensures { NewVolumesAreEmpty }
{}

/// A volume holds one forest of a database at most.
pub fn law_a_volume_holds_one_forest()
    ensures { AVolumeHoldsOneForest }
{}

/// The rows of a volume are fewer than the bytes of its image, and than 2 to the 32.
pub fn law_rows_of_a_volume_are_few()
    ensures { RowsOfAVolumeAreFew }
{}

/// A volume with which nothing is wrong holds a forest.
pub fn law_right_volumes_hold_a_forest()
    ensures { RightVolumesHoldAForest }
{}

/// In a volume that holds a forest no fault stands.
pub fn law_held_forests_have_no_fault()
    ensures { HeldForestsHaveNoFault }
{}
