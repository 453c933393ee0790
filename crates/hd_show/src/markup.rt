//! The elements of an SVG picture.

use crate::ink::Ink;
use std::io::Write;

/// So many steps behind a place.
pub fn along(start: u64, step: u64, count: u64) -> u64 {
    start.saturating_add(step.saturating_mul(count))
}

/// Writes a text with the characters escaped that XML has a use for.
pub fn put_escaped<W: Write>(text: &[u8], ink: &mut Ink<'_, W>) {
    for byte in text {
        match *byte {
            b'&' => ink.put(b"&amp;"),
            b'<' => ink.put(b"&lt;"),
            b'>' => ink.put(b"&gt;"),
            b'"' => ink.put(b"&quot;"),
            plain => ink.put(&[plain]),
        }
    }
}

/// Opens a text at a place.
pub fn put_text_start<W: Write>(x: u64, y: u64, ink: &mut Ink<'_, W>) {
    ink.fill(b"<text x=\"$\" y=\"$\">", &[x, y]);
}

/// Writes a rectangle of a colour, up to the end of its attributes.
pub fn put_rect<W: Write>(
    x: u64,
    y: u64,
    width: u64,
    height: u64,
    colour: &[u8],
    ink: &mut Ink<'_, W>,
) {
    let numbers = [x, y, width, height];
    ink.fill(
        b"<rect x=\"$\" y=\"$\" width=\"$\" height=\"$\" fill=\"",
        &numbers,
    );
    ink.put(colour);
    ink.put(b"\"");
}
