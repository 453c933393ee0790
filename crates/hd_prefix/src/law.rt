ghost use Rattle.hd_prefix.specs.Laws.{PointersStandInside, PointersStandApart, PointersAreSet, NewSegmentsAreRows, SegmentsTakeOtherBytes, ChildrenAreListed, PointersAreNumbers};

/// Each pointer stands inside the prefix, behind code and delete byte.
pub fn law_pointers_stand_inside()
    ensures { PointersStandInside }
{}

/// No two pointers of a type have a byte in common.
pub fn law_pointers_stand_apart()
    ensures { PointersStandApart }
{}

/// Four bytes that are written at the place of a pointer are its address, and every other field stays.
pub fn law_pointers_are_set()
    ensures { PointersAreSet }
{}

/// A row that is made a stored segment has the size that it takes, and its fields are the row's and 0.
pub fn law_new_segments_are_rows()
    ensures { NewSegmentsAreRows }
{}

/// A stored segment with other bytes has these, the size that they take, and every other field as it was.
pub fn law_segments_take_other_bytes()
    ensures { SegmentsTakeOtherBytes }
{}

/// The child types of a type are those that its list of children has.
pub fn law_children_are_listed()
    ensures { ChildrenAreListed }
{}

/// The pointers of a segment are the numbers at their places, each where it is kept.
pub fn law_pointers_are_numbers()
    ensures { PointersAreNumbers }
{}
