//! The picture of a volume in text.

use crate::cells::{Cell, LINE, blocks_of_cell, cell_of};
use crate::damage::put_damage;
use crate::ink::Ink;
use crate::survey::{BlockUse, Kind, Survey, Tally, TypeBytes};
use crate::text::{digits, name_text, share, tenths};
use crate::tree::Order;
use crate::warnings::put_warnings;
use hd_dbd::Dbd;
use std::io::{self, Write};

/// The glyphs of data blocks by tenths of their fill.
const FILLS: &[u8] = b".,:-=+*#%@";

/// Draws a volume that was surveyed: what its header says, its blocks by kind, a picture of the blocks in order, its segments by
/// type, what is damaged, and what asks for an unload and a reload.
pub fn draw_volume<W: Write>(survey: &Survey, dbd: &Dbd, out: &mut W) -> io::Result<()> {
    let mut ink = Ink::new(out);
    put_title(survey, dbd, &mut ink);
    put_kinds(survey, &mut ink);
    put_picture(survey, &mut ink);
    put_types(survey, dbd, &mut ink);
    put_damage(survey, dbd, &mut ink);
    put_warnings(survey, dbd, &mut ink);
    ink.finish()
}

fn put_title<W: Write>(survey: &Survey, dbd: &Dbd, ink: &mut Ink<'_, W>) {
    ink.put(b"Volume of ");
    ink.put(name_text(dbd.name()));
    let numbers = [
        u64::from(survey.version),
        survey.blocks.len() as u64,
        u64::from(survey.block_size),
        u64::from(survey.largest),
        u64::from(survey.height),
        u64::from(survey.top),
        u64::from(survey.first_root),
        u64::from(survey.last_root),
    ];
    ink.fill(
        b": version $, $ blocks of $ bytes, at most $ blocks\nIndex of height $, top block $; first root at $, last at $\n\n",
        &numbers,
    );
}

/// Writes the table of the kinds of blocks.
fn put_kinds<W: Write>(survey: &Survey, ink: &mut Ink<'_, W>) {
    ink.put(b"Kind             Blocks  Percent  Average fill\n");
    put_kind(survey, b"header", Kind::Header, ink);
    put_kind(survey, b"data", Kind::Data, ink);
    put_levels(survey, ink);
    put_kind(survey, b"free", Kind::Free, ink);
    put_kind(survey, b"damaged", Kind::Damaged, ink);
    ink.left(b"total", 15);
    put_share(survey.blocks.len() as u64, survey.blocks.len() as u64, ink);
    ink.put(b"\n\n");
}

/// Writes so many blocks and their share of all.
fn put_share<W: Write>(blocks: u64, all: u64, ink: &mut Ink<'_, W>) {
    ink.count(blocks, 8);
    ink.tenths(share(blocks, all), 8);
    ink.put(b"%");
}

/// Writes the line of a kind.
fn put_kind<W: Write>(survey: &Survey, name: &[u8], kind: Kind, ink: &mut Ink<'_, W>) {
    ink.left(name, 15);
    put_tally(survey, kind, survey.tally(kind), ink);
}

/// Writes the counts of a kind, and where bytes are counted in its blocks their average fill.
fn put_tally<W: Write>(survey: &Survey, kind: Kind, tally: Tally, ink: &mut Ink<'_, W>) {
    put_share(tally.blocks, survey.blocks.len() as u64, ink);
    let room = survey.room(kind).saturating_mul(tally.blocks);
    if room != 0 {
        ink.tenths(share(tally.used, room), 13);
        ink.put(b"%");
    }
    ink.put(b"\n");
}

/// Writes a line for each level of the index that has a block, its name in as many columns as that of a kind.
fn put_levels<W: Write>(survey: &Survey, ink: &mut Ink<'_, W>) {
    for level in 0..=survey.highest_level() {
        let tally = survey.tally(Kind::Index(level));
        if tally.blocks != 0 {
            let number = u64::from(level);
            ink.fill(b"index level $", &[number]);
            ink.blanks(3usize.saturating_sub(digits(number)));
            put_tally(survey, Kind::Index(level), tally, ink);
        }
    }
}

/// Writes the blocks in order, in lines of characters of one or more blocks each.
fn put_picture<W: Write>(survey: &Survey, ink: &mut Ink<'_, W>) {
    let size = blocks_of_cell(survey);
    if size == 1 {
        ink.put(b"Blocks in order, one a character:\n");
    } else {
        ink.fill(b"Blocks in order, $ a character:\n", &[size as u64]);
    }
    let mut first = 0u64;
    for blocks in survey.blocks.chunks(size.saturating_mul(LINE).max(1)) {
        ink.count(first, 6);
        ink.put(b"  ");
        put_cells(survey, blocks, size, ink);
        ink.put(b"\n");
        first = first.saturating_add(blocks.len() as u64);
    }
    ink.put(b"H header; data by tenths of its fill ");
    ink.put(FILLS);
    ink.put(b"; i index; _ free; ! damaged\n\n");
}

/// Writes a character for each so many blocks.
fn put_cells<W: Write>(survey: &Survey, blocks: &[BlockUse], size: usize, ink: &mut Ink<'_, W>) {
    for range in blocks.chunks(size.max(1)) {
        ink.put(&[glyph_of(cell_of(survey, range))]);
    }
}

fn glyph_of(cell: Cell) -> u8 {
    match cell {
        Cell::Header => b'H',
        Cell::Data(tenth) => FILLS.get(tenth as usize).copied().unwrap_or(b'@'),
        Cell::Index => b'i',
        Cell::Free => b'_',
        Cell::Damaged => b'!',
    }
}

/// Writes the table of the types.
fn put_types<W: Write>(survey: &Survey, dbd: &Dbd, ink: &mut Ink<'_, W>) {
    ink.put(
        b"Segment     Segments        Bytes  Percent     Prefixes         Data     Chains  Average  Longest\n",
    );
    let all = survey.all_bytes(dbd);
    for code in Order::of(dbd) {
        put_type(survey, dbd, code, &all, ink);
    }
    ink.left(b"total", 8);
    put_bytes(&all, &all, ink);
    ink.put(b"\n");
}

/// Writes the line of a type: behind its bytes how many twins a chain has, on average and at most.
fn put_type<W: Write>(survey: &Survey, dbd: &Dbd, code: u8, all: &TypeBytes, ink: &mut Ink<'_, W>) {
    let Some(segment) = dbd.type_of(code) else {
        return;
    };
    let own = survey.type_use(code);
    ink.left(name_text(&segment.name), 8);
    put_bytes(&own.bytes(dbd, code), all, ink);
    ink.tenths(
        tenths(u64::from(own.segments), u64::from(own.chains), 10),
        9,
    );
    ink.count(u64::from(own.longest), 9);
    ink.put(b"\n");
}

/// Writes segments, their bytes and their share of all, and the number of their twin chains.
fn put_bytes<W: Write>(own: &TypeBytes, all: &TypeBytes, ink: &mut Ink<'_, W>) {
    ink.count(own.segments, 12);
    ink.count(own.stored, 13);
    ink.tenths(share(own.stored, all.stored), 8);
    ink.put(b"%");
    ink.count(own.prefix, 13);
    ink.count(own.data, 13);
    ink.count(own.chains, 11);
}
