//! The bars of an SVG picture: the segments of each type.

use crate::ink::Ink;
use crate::markup::{along, put_escaped, put_rect, put_text_start};
use crate::survey::{Survey, TypeBytes, TypeUse};
use crate::text::{name_text, share, tenths};
use crate::tree::Order;
use hd_dbd::Dbd;
use std::io::Write;

/// The height of a type's row, the width of a whole bar, and what a level indents.
const ROW: u64 = 40;

const BAR: u64 = 300;

const INDENT: u64 = 14;

/// The height of the rows of all types, with that of their heading.
pub fn rows_height(dbd: &Dbd) -> u64 {
    along(40, ROW, dbd.types().len() as u64)
}

/// Where the bars begin, so that the names of all levels stand before them.
fn bars_left(dbd: &Dbd) -> u64 {
    let mut deepest = 1;
    for code in Order::of(dbd) {
        deepest = dbd.level(code).max(deepest);
    }
    along(108, INDENT, u64::from(deepest).saturating_sub(1))
}

/// Draws a row for each type in hierarchic order, from a height on.
pub fn put_bars<W: Write>(survey: &Survey, dbd: &Dbd, top: u64, ink: &mut Ink<'_, W>) {
    put_text_start(24, top, ink);
    ink.put(
        b"<tspan font-weight=\"bold\">Segments by type</tspan>: share of the bytes (wide bars) and of the number (narrow bars)</text>\n",
    );
    let all = survey.all_bytes(dbd);
    let left = bars_left(dbd);
    let mut y = top.saturating_add(20);
    for code in Order::of(dbd) {
        put_type(survey, dbd, code, &all, left, y, ink);
        y = y.saturating_add(ROW);
    }
}

/// Draws the row of a type.
fn put_type<W: Write>(
    survey: &Survey,
    dbd: &Dbd,
    code: u8,
    all: &TypeBytes,
    left: u64,
    y: u64,
    ink: &mut Ink<'_, W>,
) {
    let Some(segment) = dbd.type_of(code) else {
        return;
    };
    let own = survey.type_use(code);
    let bytes = own.bytes(dbd, code);
    let indent = u64::from(dbd.level(code)).saturating_sub(1);
    put_text_start(along(24, INDENT, indent), y.saturating_add(13), ink);
    put_escaped(name_text(&segment.name), ink);
    ink.put(b"</text>\n");
    put_bar(bytes.stored, all.stored, left, y, 14, b"#2f7ebc", ink);
    let below = y.saturating_add(15);
    put_bar(
        bytes.segments,
        all.segments,
        left,
        below,
        6,
        b"#8fbf6a",
        ink,
    );
    let right = along(left, BAR, 1).saturating_add(12);
    put_bytes(&bytes, all, right, y.saturating_add(10), ink);
    put_chains(&own, right, y.saturating_add(25), ink);
}

/// Draws a bar as long as the part of a whole, before the place of a whole one.
fn put_bar<W: Write>(
    part: u64,
    whole: u64,
    x: u64,
    y: u64,
    height: u64,
    colour: &[u8],
    ink: &mut Ink<'_, W>,
) {
    put_rect(x, y, BAR, height, b"#f0f0f0", ink);
    ink.put(b"/>\n");
    put_rect(x, y, tenths(part, whole, BAR), height, colour, ink);
    ink.put(b"/>\n");
}

/// Writes the bytes and the number of a type's segments, and their share of all.
fn put_bytes<W: Write>(own: &TypeBytes, all: &TypeBytes, x: u64, y: u64, ink: &mut Ink<'_, W>) {
    ink.fill(
        b"<text font-size=\"12\" x=\"$\" y=\"$\">$ bytes (",
        &[x, y, own.stored],
    );
    ink.tenths(share(own.stored, all.stored), 0);
    ink.fill(b"%), $ segments (", &[own.segments]);
    ink.tenths(share(own.segments, all.segments), 0);
    ink.put(b"%)</text>\n");
}

/// Writes how many twin chains a type has, and how many segments are in the longest.
fn put_chains<W: Write>(own: &TypeUse, x: u64, y: u64, ink: &mut Ink<'_, W>) {
    let numbers = [x, y, u64::from(own.chains), u64::from(own.longest)];
    ink.fill(
        b"<text font-size=\"12\" x=\"$\" y=\"$\">twin chains: $, longest: $",
        &numbers,
    );
    if own.is_damaged() {
        ink.put(b"; <tspan fill=\"#d62728\">damaged</tspan>");
    }
    ink.put(b"</text>\n");
}
