ghost use Rattle.std.specs.Prelude.{◌≡◌, ◌==◌, ◌≤◌, length, not, take};
ghost use Rattle.std.specs.List.{prefix_len};
ghost use Rattle.hd_lines.specs.Blanks.{is_blank};
ghost use Rattle.hd_macro.specs.Cards.{card, goes_on, has_other_byte, is_ignored, is_listing, text_columns, word, behind_word};

use hd_lines::is_blank;

/// The eighty columns of a line.
pub(crate) fn card(line: &[u8]) -> [u8; 80]
    requires { length line.now ≤ 80 }
    ensures value { result ≡ card line.now }
    ensures len { length result ≡ 80 }
{
    let mut columns = [b' '; 80];
    columns[..line.len()].copy_from_slice(line);
    columns
}

/// The columns of a card that may have text, from column 1 to 71.
pub(crate) fn text_columns(columns: &[u8; 80]) -> &[u8]
    ensures { result.now ≡ text_columns columns.now }
{
    &columns[..71]
}

/// Whether column 72 of a card is not blank.
pub(crate) fn goes_on(columns: &[u8; 80]) -> bool
    ensures { result ≡ goes_on columns.now }
{
    columns[71] != b' '
}

/// Whether a card has a star in column 1, or blanks in columns 1 to 72.
pub(crate) fn is_ignored(columns: &[u8; 80]) -> bool
    ensures { result ≡ is_ignored columns.now }
{
    columns[0] == b'*' || is_blank(&columns[..72])
}

/// Whether columns 1 to 15 of a card are blank.
pub(crate) fn is_indented(columns: &[u8; 80]) -> bool
    ensures { result ≡ is_blank (take 15 (card columns.now)) }
{
    is_blank(&columns[..15])
}

/// Whether a line has a byte that is not ASCII.
pub(crate) fn has_other_byte(line: &[u8]) -> bool
    ensures { result ≡ has_other_byte line.now }
{
    line.iter().any(|b| *b >= 128)
}

/// The bytes up to the first blank, and those from it on.
pub(crate) fn split_word(bytes: &[u8]) -> (&[u8], &[u8])
    ensures word { result.0.now ≡ word bytes.now }
    ensures behind { result.1.now ≡ behind_word bytes.now }
{
    let end = word_len(bytes);
    (&bytes[..end], &bytes[end..])
}

fn word_len(bytes: &[u8]) -> usize
    ensures value { result ≡ prefix_len (λ b. not (b == 32)) bytes.now }
    ensures bound { result ≤ length bytes.now }
{
    bytes.iter().take_while(|b| **b != b' ').count()
}

/// Whether an operation only lays out the listing of an assembler.
pub(crate) fn is_listing(operation: &[u8]) -> bool
    ensures { result ≡ is_listing operation.now }
{
    operation == b"PRINT".as_slice()
        || operation == b"TITLE".as_slice()
        || operation == b"SPACE".as_slice()
        || operation == b"EJECT".as_slice()
}
