ghost use Rattle.hd_block.specs.Laws.{OneDivision, WritesKeepDivision, RoomIsFilled, SegmentsShrink, SegmentsAreApart};

/// A block has at most one division into free elements and segments.
pub fn law_one_division()
    ensures { OneDivision }
{}

/// A change inside a segment that leaves it its size keeps the division.
pub fn law_writes_keep_division()
    ensures { WritesKeepDivision }
{}

/// A segment that is put where room of its size was handed out takes that room.
pub fn law_room_is_filled()
    ensures { RoomIsFilled }
{}

/// A shorter segment that is written where one stood leaves the rest as room that was handed out.
pub fn law_segments_shrink()
    ensures { SegmentsShrink }
{}

/// Two segments of a block are one, or apart.
pub fn law_segments_are_apart()
    ensures { SegmentsAreApart }
{}
