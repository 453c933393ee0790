ghost use Rattle.hd_unload.specs.Laws.{StreamsSpellOneList, StreamsAreNotRefused, HeldRowsHaveAStream};

/// A stream of a database spells one list of rows.
pub fn law_streams_spell_one_list()
    ensures { StreamsSpellOneList }
{}

/// Of a stream that spells rows no record is refused, of a database whose name has its eight bytes.
pub fn law_streams_are_not_refused()
    ensures { StreamsAreNotRefused }
{}

/// The rows that a volume holds have a stream, so what is unloaded can be reloaded.
pub fn law_held_rows_have_a_stream()
    ensures { HeldRowsHaveAStream }
{}
