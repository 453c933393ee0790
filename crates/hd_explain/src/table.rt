ghost use Rattle.std.specs.Prelude.{◌≡◌, find, position, option_copied};
ghost use Rattle.std.specs.Str.{str_eq_ignore_ascii_case};

use crate::entry::Explanation;

/// The place of the first entry of a table whose word is this one, in upper or lower case.
pub fn place_of(entries: &[Explanation], word: &str) -> Option<usize>
    ensures { result ≡ position (λ entry. str_eq_ignore_ascii_case entry.word.now word.now) entries.now }
{
    entries
        .iter()
        .position(|entry| entry.word.eq_ignore_ascii_case(word))
}

/// The first entry of a table whose word is this one, in upper or lower case.
pub fn entry_in<'a>(entries: &'a [Explanation], word: &str) -> Option<&'a Explanation>
    ensures { option_copied result ≡ find (λ entry. str_eq_ignore_ascii_case entry.word.now word.now) entries.now }
{
    entries
        .iter()
        .find(|entry| entry.word.eq_ignore_ascii_case(word))
}
