use crate::advice::{put_entry_of, put_more};
use crate::ink::Ink;
use crate::sights::{Sight, Sighted, StreamHead, VolumeLength};
use crate::stream_command::text_of;
use hd_explain::explain;
use std::io::Write;

/// The most blocks that a volume may have.
const MOST_BLOCKS: u32 = 65_536;

/// The version of unload streams.
const STREAM_VERSION: u16 = 1;

/// Writes what a fault of a volume means, behind the volume's name, and what is seen at its place.
pub fn put_fault<E: Write>(name: &str, word: &str, seen: Option<&Sight>, ink: &mut Ink<'_, E>) {
    let Some(entry) = explain(word) else {
        return;
    };
    put_entry_of(name, entry, ink);
    match seen {
        Some(Sight::Segment(segment)) => put_segment(segment, ink),
        Some(Sight::Length(length)) => put_length(*length, ink),
        Some(Sight::Mark) => ink.put("; the file does not begin with HDVOLUME"),
        Some(Sight::Kind(_, _) | Sight::Stream(_)) | None => {}
    }
    put_more(entry, ink);
}

/// Writes how long a volume's file should be, where it is not so long.
fn put_length<E: Write>(length: VolumeLength, ink: &mut Ink<'_, E>) {
    let VolumeLength {
        found,
        blocks,
        size,
        block_size,
        largest,
    } = length;
    let asked = u64::from(blocks).saturating_mul(u64::from(size));
    if found < u64::from(block_size) {
        ink.put("; the file has ");
        ink.number(found);
        ink.put(" bytes, and a block ");
        ink.number(u64::from(block_size));
    } else if size != block_size {
        ink.put("; the header tells of blocks of ");
        ink.number(u64::from(size));
        ink.put(" bytes, and the DBD of ");
        ink.number(u64::from(block_size));
    } else if asked != found {
        ink.put("; the header asks for ");
        ink.number(u64::from(blocks));
        ink.put(" blocks of ");
        ink.number(u64::from(size));
        ink.put(" bytes, ");
        ink.number(asked);
        ink.put(" in all, and the file has ");
        ink.number(found);
    } else if largest < blocks {
        ink.put("; the header tells of ");
        ink.number(u64::from(blocks));
        ink.put(" blocks, and that it has at most ");
        ink.number(u64::from(largest));
    } else if largest > MOST_BLOCKS {
        ink.put("; the header tells of at most ");
        ink.number(u64::from(largest));
        ink.put(" blocks, and a volume may have at most 65536");
    }
}

/// Writes of which version or database an unload stream is, and which is wanted.
pub fn put_stream<E: Write>(name: &str, head: &StreamHead, ink: &mut Ink<'_, E>) {
    ink.name(name);
    ink.put(": this is an unload stream of ");
    if head.version != STREAM_VERSION {
        ink.put("version ");
        ink.number(u64::from(head.version));
        ink.put(", and version 1 is wanted\n");
        return;
    }
    ink.put("the database \"");
    ink.shown(head.name.trim_ascii_end());
    ink.put("\", and one of \"");
    ink.put(text_of(&head.database));
    ink.put("\" is wanted\n");
}

/// Writes where a segment stands, and its type and key.
fn put_segment<E: Write>(seen: &Sighted, ink: &mut Ink<'_, E>) {
    ink.put("; the segment at ");
    ink.number(u64::from(seen.address));
    ink.put(" is of type ");
    ink.put(text_of(&seen.name));
    if seen.key.is_empty() {
        return;
    }
    ink.put(" with the key \"");
    ink.shown(&seen.key);
    ink.put("\"");
}
