use crate::stop::{COMMAND_LINE, Stop};
use hd_commands::Ended;
use hd_explain::{
    DECK_FAULTS, EXIT_STATUSES, Explanation, LINES, REFUSALS, SOURCE_FAULTS, STATUS_CODES,
    STREAM_FAULTS, VOLUME_FAULTS, explain, write_entry, write_lines,
};
use std::io::{self, Write};

/// The entry of a word, or of a line that `hd` prints: of the fault, the status or the words that the line has.
fn entry_of(word: &str) -> Option<&'static Explanation> {
    if let Some(entry) = explain(word) {
        return Some(entry);
    }
    if let Some(entry) = explain(word_of_line(word)) {
        return Some(entry);
    }
    for entry in LINES {
        if word.contains(entry.word) {
            return Some(entry);
        }
    }
    None
}

/// The word of a fault that a line has: `14` of `fault 14 at 320, other 0`, `LC` of `reload refused: LC at record 2`, `M2` of `DBD refused: line 3, M2`; of
/// another line what stands behind its last comma.
fn word_of_line(line: &str) -> &str {
    if let Some(rest) = line.strip_prefix("fault ") {
        return first_word(rest);
    }
    if let Some(rest) = line.strip_prefix("reload refused: ") {
        return first_word(rest);
    }
    match line.rsplit_once(", ") {
        Some((_, word)) => word,
        None => line,
    }
}

/// What stands before the first blank of a text.
fn first_word(text: &str) -> &str {
    match text.split_once(' ') {
        Some((word, _)) => word,
        None => text,
    }
}

/// Writes what a word or a line that `hd` prints means; without one, a line for each word that is known. A word of which nothing is known is one of the
/// command line that is not understood.
pub fn explain_word<O: Write, E: Write>(
    word: Option<&str>,
    out: &mut O,
    err: &mut E,
) -> Result<Ended, Stop> {
    let Some(word) = word else {
        write_list(out)?;
        return Ok(Ended::with_status(0));
    };
    let Some(entry) = entry_of(word) else {
        let _ = writeln!(err, "nothing is known of {word}; hd explain lists what is");
        return Ok(Ended::with_status(COMMAND_LINE));
    };
    write_entry(entry, out)?;
    Ok(Ended::with_status(0))
}

/// Writes a line for each word that is known, under what it is.
fn write_list<O: Write>(out: &mut O) -> io::Result<()> {
    write_table("Faults of a volume", VOLUME_FAULTS, out)?;
    write_table("\nFaults of a DBD or PSB source", SOURCE_FAULTS, out)?;
    write_table("\nFaults of a deck", DECK_FAULTS, out)?;
    write_table("\nFaults of an unload stream", STREAM_FAULTS, out)?;
    write_table("\nStatus codes", STATUS_CODES, out)?;
    write_table("\nRefusals", REFUSALS, out)?;
    write_table("\nExit statuses", EXIT_STATUSES, out)
}

/// Writes a heading, and a line for each word of a table.
fn write_table<O: Write>(heading: &str, entries: &[Explanation], out: &mut O) -> io::Result<()> {
    writeln!(out, "{heading}:")?;
    write_lines(entries, out)
}
