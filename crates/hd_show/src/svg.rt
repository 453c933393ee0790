//! The picture of a volume as SVG.

use crate::bars::{put_bars, rows_height};
use crate::cells::{Cell, blocks_of_cell, cell_of};
use crate::ink::Ink;
use crate::markup::{along, put_escaped, put_rect, put_text_start};
use crate::survey::{BlockUse, Kind, Survey};
use crate::text::name_text;
use hd_dbd::Dbd;
use std::io::{self, Write};

/// The width of the picture, where its grid begins, and how wide that is.
const WIDTH: u64 = 960;

const LEFT: u64 = 88;

const TOP: u64 = 98;

const GRID: u64 = 832;

/// The colours of data blocks by tenths of their fill, each of as many bytes as the next constant says.
const FILLS: &[u8] = b"#e3eef9#cfe1f2#b5d4e9#93c3df#6daed5#4b97c9#2f7ebc#1864aa#0a4a90#08306b";

const COLOUR: usize = 7;

/// How the grid is laid out: the blocks of a cell, the cells of a row, the width of a cell, and where the legend and the
/// bars stand.
#[derive(Clone, Copy)]
struct Plan {
    blocks: usize,
    columns: usize,
    pitch: u64,
    legend: u64,
    bars: u64,
}

/// Draws a volume that was surveyed as a standalone SVG picture: a grid of its blocks, coloured by kind and fill, and bars for the
/// segments of each type.
pub fn draw_svg<W: Write>(survey: &Survey, dbd: &Dbd, out: &mut W) -> io::Result<()> {
    let plan = plan_of(survey);
    let mut ink = Ink::new(out);
    put_head(along(plan.bars, rows_height(dbd), 1), &mut ink);
    put_title(survey, dbd, &mut ink);
    put_grid(survey, &plan, &mut ink);
    put_legend(plan.legend, &mut ink);
    put_bars(survey, dbd, plan.bars, &mut ink);
    ink.put(b"</svg>\n");
    ink.finish()
}

/// Few cells are drawn large.
fn plan_of(survey: &Survey) -> Plan {
    let blocks = blocks_of_cell(survey);
    let cells = survey.blocks.len().div_ceil(blocks.max(1));
    let columns: usize = if cells <= 64 {
        16
    } else if cells <= 256 {
        32
    } else {
        64
    };
    let pitch = GRID / (columns as u64).max(1);
    let rows = cells.div_ceil(columns.max(1)) as u64;
    let legend = along(TOP, pitch, rows).saturating_add(16);
    Plan {
        blocks,
        columns,
        pitch,
        legend,
        bars: legend.saturating_add(64),
    }
}

/// Opens the picture, of a height.
fn put_head<W: Write>(height: u64, ink: &mut Ink<'_, W>) {
    let numbers = [WIDTH, height, WIDTH, height];
    ink.fill(
        b"<svg xmlns=\"http://www.w3.org/2000/svg\" width=\"$\" height=\"$\" viewBox=\"0 0 $ $\"",
        &numbers,
    );
    ink.put(
        b" font-family=\"Helvetica, Arial, sans-serif\" font-size=\"13\" fill=\"#222222\">\n<rect width=\"100%\" height=\"100%\" fill=\"#ffffff\"/>\n",
    );
}

fn put_title<W: Write>(survey: &Survey, dbd: &Dbd, ink: &mut Ink<'_, W>) {
    ink.put(b"<text x=\"24\" y=\"38\" font-size=\"20\" font-weight=\"bold\">Volume of ");
    put_escaped(name_text(dbd.name()), ink);
    ink.put(b"</text>\n");
    put_text_start(24, 60, ink);
    let numbers = [
        u64::from(survey.version),
        survey.blocks.len() as u64,
        u64::from(survey.block_size),
        u64::from(survey.largest),
        u64::from(survey.height),
        blocks_of_cell(survey) as u64,
    ];
    ink.fill(
        b"Version $; $ blocks of $ bytes, at most $; index of height $; blocks a square: $</text>\n",
        &numbers,
    );
    let damaged = survey.tally(Kind::Damaged).blocks;
    if damaged != 0 {
        ink.fill(
            b"<text x=\"24\" y=\"80\" fill=\"#d62728\" font-weight=\"bold\">Damaged blocks: $</text>\n",
            &[damaged],
        );
    }
}

/// Draws the blocks in order, row by row.
fn put_grid<W: Write>(survey: &Survey, plan: &Plan, ink: &mut Ink<'_, W>) {
    let mut y = TOP;
    let mut first = 0u64;
    let row = plan.blocks.saturating_mul(plan.columns).max(1);
    for blocks in survey.blocks.chunks(row) {
        put_row(survey, plan, blocks, first, y, ink);
        y = y.saturating_add(plan.pitch);
        first = first.saturating_add(blocks.len() as u64);
    }
}

/// Draws a row of blocks, with the number of its first.
fn put_row<W: Write>(
    survey: &Survey,
    plan: &Plan,
    blocks: &[BlockUse],
    first: u64,
    y: u64,
    ink: &mut Ink<'_, W>,
) {
    let middle = y.saturating_add(plan.pitch / 2).saturating_add(4);
    ink.fill(
        b"<text text-anchor=\"end\" font-size=\"11\" fill=\"#777777\" x=\"$\" y=\"$\">$</text>\n",
        &[LEFT - 8, middle, first],
    );
    let mut x = LEFT;
    let mut next = first;
    for range in blocks.chunks(plan.blocks.max(1)) {
        put_cell(cell_of(survey, range), x, y, plan.pitch, ink);
        put_range(next, range.len() as u64, ink);
        x = x.saturating_add(plan.pitch);
        next = next.saturating_add(range.len() as u64);
    }
}

/// Opens a cell, and what its words are.
fn put_cell<W: Write>(cell: Cell, x: u64, y: u64, pitch: u64, ink: &mut Ink<'_, W>) {
    let side = pitch.saturating_sub(1);
    put_rect(x, y, side, side, colour_of(cell), ink);
    ink.put(b"><title>");
    match cell {
        Cell::Header => ink.put(b"header"),
        Cell::Data(tenth) => ink.fill(
            b"data, at least $% full",
            &[u64::from(tenth).saturating_mul(10)],
        ),
        Cell::Index => ink.put(b"index"),
        Cell::Free => ink.put(b"free"),
        Cell::Damaged => ink.put(b"damaged"),
    }
}

/// Closes a cell with the numbers of its blocks.
fn put_range<W: Write>(first: u64, count: u64, ink: &mut Ink<'_, W>) {
    if count == 1 {
        ink.fill(b": block $</title></rect>\n", &[first]);
    } else {
        let last = first.saturating_add(count).saturating_sub(1);
        ink.fill(b": blocks $ to $</title></rect>\n", &[first, last]);
    }
}

fn colour_of(cell: Cell) -> &'static [u8] {
    match cell {
        Cell::Header => b"#444444",
        Cell::Data(tenth) => fill_colour(tenth as usize),
        Cell::Index => b"#f0932b",
        Cell::Free => b"#eeeeee",
        Cell::Damaged => b"#d62728",
    }
}

/// The colour of data of a fill in tenths.
fn fill_colour(tenth: usize) -> &'static [u8] {
    let start = tenth.min(9) * COLOUR;
    &FILLS[start..start + COLOUR]
}

fn put_legend<W: Write>(y: u64, ink: &mut Ink<'_, W>) {
    put_key(Cell::Header, b"header", LEFT, y, ink);
    put_key(Cell::Index, b"index", LEFT + 90, y, ink);
    put_key(Cell::Free, b"free", LEFT + 180, y, ink);
    put_key(Cell::Damaged, b"damaged", LEFT + 260, y, ink);
    for tenth in 0..10u8 {
        let x = along(LEFT + 420, 16, u64::from(tenth));
        put_rect(x, y, 16, 14, colour_of(Cell::Data(tenth)), ink);
        ink.put(b"/>\n");
    }
    let below = y.saturating_add(12);
    put_text_start(LEFT + 378, below, ink);
    ink.put(b"data</text>\n");
    put_text_start(LEFT + 588, below, ink);
    ink.put(b"from empty to full</text>\n");
}

/// Draws a colour of the legend with its name.
fn put_key<W: Write>(cell: Cell, name: &[u8], x: u64, y: u64, ink: &mut Ink<'_, W>) {
    put_rect(x, y, 14, 14, colour_of(cell), ink);
    ink.put(b"/>\n");
    put_text_start(x.saturating_add(20), y.saturating_add(12), ink);
    ink.put(name);
    ink.put(b"</text>\n");
}
