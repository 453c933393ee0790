ghost use Rattle.std.specs.Prelude.{◌≡◌};
ghost use Rattle.std.specs.Option.{option_or};
ghost use Rattle.hd_explain.specs.Entries.{plain_found, plains, entry_of};
ghost use Rattle.hd_explain.specs.Tables.{all_entries};

use crate::calls::{REFUSALS, STATUS_CODES};
use crate::decks::{DECK_FAULTS, STREAM_FAULTS};
use crate::entry::Explanation;
use crate::exits::EXIT_STATUSES;
use crate::lines::LINES;
use crate::sources::SOURCE_FAULTS;
use crate::table::entry_in;
use crate::volumes::VOLUME_FAULTS;

/// The entry of a word, or of the words of a line, in upper or lower case; none where nothing is known of it.
pub fn explain(word: &str) -> Option<&'static Explanation>
    ensures { plain_found result ≡ entry_of word.now all_entries }
{
    let found = entry_or(None, VOLUME_FAULTS, word);
    let found = entry_or(found, SOURCE_FAULTS, word);
    let found = entry_or(found, DECK_FAULTS, word);
    let found = entry_or(found, STREAM_FAULTS, word);
    let found = entry_or(found, STATUS_CODES, word);
    let found = entry_or(found, REFUSALS, word);
    let found = entry_or(found, EXIT_STATUSES, word);
    entry_or(found, LINES, word)
}

/// What was found before, or else the entry of a word in a table.
fn entry_or<'a>(
    found: Option<&'a Explanation>,
    entries: &'a [Explanation],
    word: &str,
) -> Option<&'a Explanation>
    ensures { plain_found result ≡ option_or (plain_found found.entry) (entry_of word.now (plains entries.now (λ text. text.now))) }
{
    match found {
        Some(entry) => Some(entry),
        None => entry_in(entries, word),
    }
}
