ghost use Rattle.std.specs.Prelude.{◌≡◌, ◌++◌, OnOk, drop, length, codes, flat_map, map};
ghost use Rattle.std.specs.Io.KnownBytes.{Appends};
ghost use Rattle.hd_explain.specs.Entries.{plain, entry_text, list_line, name_of};

use crate::entry::Explanation;
use std::io::{self, Write};

/// Writes an entry: a line with the word, what it is and its summary, and then the lines of its text.
pub fn write_entry<W: Write>(entry: &Explanation, out: &mut W) -> io::Result<()>
    ensures { OnOk result (Appends (W.contents out.old) (W.contents out.new) (entry_text (plain entry.now (λ text. text.now)))) }
{
    write_word(entry, out)?;
    write_summary(entry, out)?;
    write_text(entry, out)
}

fn write_word<W: Write>(entry: &Explanation, out: &mut W) -> io::Result<()>
    ensures { OnOk result (Appends (W.contents out.old) (W.contents out.new) (entry.now.word.now ++ codes ", " ++ name_of entry.now.kind)) }
{
    put(out, entry.word)?;
    put(out, ", ")?;
    put(out, entry.kind.name())
}

fn write_summary<W: Write>(entry: &Explanation, out: &mut W) -> io::Result<()>
    ensures { OnOk result (Appends (W.contents out.old) (W.contents out.new) (codes ": " ++ entry.now.summary.now ++ codes "\n")) }
{
    put(out, ": ")?;
    put(out, entry.summary)?;
    put(out, "\n")
}

fn write_text<W: Write>(entry: &Explanation, out: &mut W) -> io::Result<()>
    ensures { OnOk result (Appends (W.contents out.old) (W.contents out.new) (entry.now.text.now ++ codes "\n")) }
{
    put(out, entry.text)?;
    put(out, "\n")
}

/// Writes a line for each entry of a table, in its order: the word in eight places, and its summary.
pub fn write_lines<W: Write>(entries: &[Explanation], out: &mut W) -> io::Result<()>
    ensures { OnOk result (Appends (W.contents out.old) (W.contents out.new)
        (flat_map list_line (map (λ entry. plain entry (λ text. text.now)) entries.now))) }
{
    for entry in entries {
        write_line(entry, out)?;
    }
    Ok(())
}

/// Writes a word in eight places, and its summary.
fn write_line<W: Write>(entry: &Explanation, out: &mut W) -> io::Result<()>
    ensures { OnOk result (Appends (W.contents out.old) (W.contents out.new) (list_line (plain entry.now (λ text. text.now)))) }
{
    write_place(entry.word, out)?;
    put(out, entry.summary)?;
    put(out, "\n")
}

/// Writes a word, and blanks up to eight places.
fn write_place<W: Write>(word: &str, out: &mut W) -> io::Result<()>
    ensures { OnOk result (Appends (W.contents out.old) (W.contents out.new) (word.now ++ drop (length word.now) (codes "        "))) }
{
    put(out, word)?;
    out.write_all(b"        ".get(word.len()..).unwrap_or(&[]))
}

/// Writes all of a text.
fn put<W: Write>(out: &mut W, text: &str) -> io::Result<()>
    ensures { OnOk result (Appends (W.contents out.old) (W.contents out.new) text.now) }
{
    out.write_all(text.as_bytes())
}
