ghost use Rattle.hd_volume.specs.Laws.{SegmentsFrame, IndexStays};

/// Segments depend on the data blocks alone.
pub fn law_segments_depend_on_data_blocks()
    ensures { SegmentsFrame }
{}

/// The index depends on the index blocks, and on the header's top and height, alone.
pub fn law_an_index_stays()
    ensures { IndexStays }
{}
