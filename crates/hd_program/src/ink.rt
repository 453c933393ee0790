use hd_deck::put_shown;
use std::io::{self, Write};

/// A writer for lines that nobody needs, which says nothing of a failed write, and writes nothing behind one. So a line is written by several calls, none of
/// which answers.
#[derive(Drop)]
pub struct Ink<'w, W: Write> {
    out: &'w mut W,
    is_dry: bool,
}

impl<'w, W: Write> Ink<'w, W> {
    pub fn new(out: &'w mut W) -> Ink<'w, W> {
        Ink { out, is_dry: false }
    }

    /// Writes a text.
    pub fn put(&mut self, text: &str) {
        if !self.is_dry {
            self.is_dry = self.out.write_all(text.as_bytes()).is_err();
        }
    }

    /// Writes a number.
    pub fn number(&mut self, number: u64) {
        if !self.is_dry {
            self.is_dry = write!(self.out, "{number}").is_err();
        }
    }

    /// Writes bytes so that each is seen.
    pub fn shown(&mut self, bytes: &[u8]) {
        if !self.is_dry {
            self.is_dry = put_shown(&mut *self.out, bytes).is_err();
        }
    }

    /// Writes the name of a file at the beginning of a line.
    pub fn name(&mut self, name: &str) {
        if !self.is_dry {
            self.is_dry = put_name(name, &mut *self.out).is_err();
        }
    }
}

/// The most characters of a name that are looked at.
const MOST_CHARACTERS: usize = 65_536;

/// Writes the name of a file at the beginning of a line, so that each of its characters is seen: a control character as `\x` and hexadecimal digits.
fn put_name<W: Write>(name: &str, out: &mut W) -> io::Result<()> {
    write!(out, "  ")?;
    for character in name.chars().take(MOST_CHARACTERS) {
        if character.is_control() {
            write!(out, "\\x{:02x}", u32::from(character))?;
        } else {
            write!(out, "{character}")?;
        }
    }
    Ok(())
}
