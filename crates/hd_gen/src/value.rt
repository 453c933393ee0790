ghost use Rattle.std.specs.Prelude.{◌≡◌, ◌∷◌, [], ◌==◌, ◌+◌, ◌≤◌, ◌<◌, ◌^◌, drop, length, option_copied, min};
ghost use Rattle.std.specs.Option.{option_map_or};
ghost use Rattle.std.specs.List.{slice_split, list_all, position_or_len};
ghost use Rattle.hd_lines.specs.Digits.{is_digit, value_of};
ghost use Rattle.hd_gen.specs.Values.{word, doubly_listed, words, has_bracket, unbracketed, flat, depth_behind, is_list, nested, listed_in, value_in, padded, name_of, number_of};
ghost use Rattle.hd_gen.specs.Shapes.{words_of, value_of as shape_of};

use hd_dbd::Name8;

/// Why a value is refused: the tables do not show it, or it is no name or number.
#[derive(Clone, Copy)]
pub(crate) enum Wrong {
    NotSupported,
    IllFormed,
}

/// Words between commas, of which any may be empty.
#[derive(Clone, Copy)]
pub(crate) enum Words<'a> {
    One(&'a [u8]),
    Two(&'a [u8], &'a [u8]),
    Three(&'a [u8], &'a [u8], &'a [u8]),
    Many,
}

/// The value of an operand: a word, words in brackets or in two brackets, a word and a list behind it, or brackets in another way.
#[derive(Clone, Copy)]
pub(crate) enum Value<'a> {
    Word(&'a [u8]),
    Listed(Words<'a>),
    DoublyListed(Words<'a>),
    /// The word of a word and a list, as A of (A,(B,C)).
    BesideList(&'a [u8]),
    Other,
}

/// The value that an operand's text is.
pub(crate) fn value_in(text: &[u8]) -> Value<'_>
    ensures { shape_of result ≡ value_in text.now }
{
    let Some(inner) = unbracketed(text) else {
        return flat_word(text);
    };
    match unbracketed(inner) {
        Some(innermost) => flat_double(innermost),
        None => listed_in(inner),
    }
}

fn flat_word(text: &[u8]) -> Value<'_>
    ensures { shape_of result ≡ flat word text.now }
{
    if has_bracket(text) {
        return Value::Other;
    }
    Value::Word(text)
}

/// What stands between brackets.
fn listed_in(text: &[u8]) -> Value<'_>
    ensures { shape_of result ≡ listed_in text.now }
{
    if has_bracket(text) {
        return nested(text);
    }
    Value::Listed(words_in(text))
}

/// A word and a list behind it, or brackets in another way.
fn nested(text: &[u8]) -> Value<'_>
    ensures { shape_of result ≡ nested text.now }
{
    let end = comma_or_end(text);
    let word = &text[..end];
    let rest = behind_comma(text, end);
    if has_bracket(word) || !is_list(rest) {
        return Value::Other;
    }
    Value::BesideList(word)
}

/// What stands behind the comma at a place, if one stands there.
fn behind_comma(text: &[u8], place: usize) -> &[u8]
    requires { place ≤ length text.now }
    ensures { result.now ≡ drop (place + 1) text.now }
{
    if place == text.len() {
        return &text[place..];
    }
    &text[place + 1..]
}

/// Whether a text is one bracketed list: behind each byte but the last a bracket is open, and behind the last none.
fn is_list(text: &[u8]) -> bool
    ensures { result ≡ is_list 0 text.now }
{
    let mut depth: usize = 0;
    let mut rest = text;
    'bytes: while let [byte, behind @ ..] = rest {
        depth = depth_behind(depth, *byte);
        if depth == 0 && !behind.is_empty() {
            return false;
        }
        rest = behind;
    }
    depth == 0
}

/// How many brackets stand open behind a byte.
fn depth_behind(depth: usize, byte: u8) -> usize
    requires { depth + 1 < 2 ^ 64 }
    ensures { result ≡ depth_behind depth byte }
{
    match byte {
        b'(' => depth + 1,
        b')' => depth.saturating_sub(1),
        _ => depth,
    }
}

fn flat_double(text: &[u8]) -> Value<'_>
    ensures { shape_of result ≡ flat (λ t. doubly_listed (words t)) text.now }
{
    if has_bracket(text) {
        return Value::Other;
    }
    Value::DoublyListed(words_in(text))
}

fn has_bracket(text: &[u8]) -> bool
    ensures { result ≡ has_bracket text.now }
{
    text.iter().any(|b| *b == b'(' || *b == b')')
}

/// The text between a bracket in front and one behind.
fn unbracketed(text: &[u8]) -> Option<&[u8]>
    ensures { option_copied result ≡ unbracketed text.now }
{
    match text {
        [b'(', inner @ .., b')'] => Some(inner),
        _ => None,
    }
}

/// The words of a text between its commas.
fn words_in(text: &[u8]) -> Words<'_>
    ensures { words_of result ≡ words text.now }
{
    let (first, rest) = cut(text);
    let Some(rest) = rest else {
        return Words::One(first);
    };
    let (second, rest) = cut(rest);
    let Some(rest) = rest else {
        return Words::Two(first, second);
    };
    match cut(rest) {
        (third, None) => Words::Three(first, second, third),
        (_, Some(_)) => Words::Many,
    }
}

/// The bytes up to the first comma, and those behind it, if there is one.
fn cut(text: &[u8]) -> (&[u8], Option<&[u8]>)
    ensures { slice_split (λ b. b == 44) text.now ≡ option_map_or (λ r. result.0.now ∷ slice_split (λ b. b == 44) r) (option_copied result.1) (result.0.now ∷ []) }
{
    let end = comma_or_end(text);
    if end == text.len() {
        return (text, None);
    }
    (&text[..end], Some(behind(text, end + 1)))
}

/// The bytes from a place on.
fn behind(text: &[u8], place: usize) -> &[u8]
    requires { place ≤ length text.now }
    ensures { result.now ≡ drop place text.now }
{
    &text[place..]
}

/// Where the first comma stands, or the length.
fn comma_or_end(text: &[u8]) -> usize
    ensures value { result ≡ position_or_len (λ b. b == 44) text.now }
    ensures bound { result ≤ length text.now }
{
    text.iter().take_while(|b| **b != b',').count()
}

/// The name that a word is.
pub(crate) fn name_of(word: &[u8]) -> Result<Name8, Wrong>
    ensures { result ≡ name_of word.now }
{
    if word.len() > 8 {
        return Err(Wrong::IllFormed);
    }
    Name8::from_padded(padded(word)).ok_or(Wrong::IllFormed)
}

/// A word with blanks behind it, up to eight bytes.
fn padded(word: &[u8]) -> [u8; 8]
    requires { length word.now ≤ 8 }
    ensures { result ≡ padded word.now }
{
    let mut bytes = [b' '; 8];
    bytes[..word.len()].copy_from_slice(word);
    bytes
}

/// The number that a word spells.
pub(crate) fn number_of(word: &[u8]) -> Result<u32, Wrong>
    ensures { result ≡ number_of word.now }
{
    if word.is_empty() || !are_digits(word) {
        return Err(Wrong::IllFormed);
    }
    match u32::try_from(value_of(word)) {
        Ok(number) => Ok(number),
        Err(_) => Err(Wrong::IllFormed),
    }
}

fn are_digits(word: &[u8]) -> bool
    ensures { result ≡ list_all is_digit word.now }
{
    word.iter().all(|b| b.is_ascii_digit())
}

/// The number that digits spell, or one that is too large where it is more.
fn value_of(digits: &[u8]) -> u64
    ensures { result ≡ min (value_of digits.now) 4294967296 }
{
    let mut value: u64 = 0;
    for digit in digits {
        value = (10 * value + digit.saturating_sub(b'0') as u64).min(4_294_967_296);
    }
    value
}
