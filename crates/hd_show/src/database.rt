//! The picture of a database: its types as a tree, one line each.

use crate::ink::Ink;
use crate::text::{digits, name_text};
use crate::tree::{Order, branch_width, put_branches, put_passing_all};
use hd_dbd::{Dbd, Field, Name8, Rule, SegType};
use std::io::{self, Write};

/// A line with fields has no more columns than these, where they are enough for one.
const LINE: usize = 120;

/// The columns of `not unique`, of the rule, of the twin pointers and of the parent's pointers.
const UNIQUE: usize = 10;

const RULE: usize = 5;

const TWINS: usize = 17;

const PARENT: usize = 11;

/// How wide the columns are whose width the database gives: the tree, the bytes, and the name and the place of a key.
#[derive(Clone, Copy)]
struct Widths {
    tree: usize,
    bytes: usize,
    name: usize,
    range: usize,
    has_fields: bool,
}

impl Widths {
    /// The columns of a key.
    fn key(&self) -> usize {
        self.name
            .saturating_add(self.range)
            .saturating_add(UNIQUE + 2)
    }

    /// The columns before the fields.
    fn before_fields(&self) -> usize {
        let fixed = 2 + 5 + 2 + 2 + 2 + RULE + 2 + TWINS + 2 + PARENT + 2;
        self.tree
            .saturating_add(self.bytes)
            .saturating_add(self.key())
            .saturating_add(fixed)
    }
}

/// Draws a database: a line with its name, its block size and the number of its types, and then a line for each type in
/// hierarchic order, indented below its parent. Further lines have the fields that do not fit into it.
pub fn draw_database<W: Write>(dbd: &Dbd, out: &mut W) -> io::Result<()> {
    let mut ink = Ink::new(out);
    put_title(dbd, &mut ink);
    let widths = widths_of(dbd);
    put_headings(&widths, &mut ink);
    for code in Order::of(dbd) {
        put_type(dbd, code, &widths, &mut ink);
    }
    ink.finish()
}

fn put_title<W: Write>(dbd: &Dbd, ink: &mut Ink<'_, W>) {
    ink.put(b"Database ");
    ink.put(name_text(dbd.name()));
    let types = dbd.types().len() as u64;
    ink.fill(
        b", blocks of $ bytes, $ segment type",
        &[u64::from(dbd.block_size()), types],
    );
    if types != 1 {
        ink.put(b"s");
    }
    ink.put(b"\n\n");
}

/// The name of a type's key, where one of its fields is the key.
fn key_name(segment: &SegType) -> Option<&Name8> {
    let key = segment.key?;
    for field in &segment.fields {
        if field.start == key.start && field.length == key.length {
            return Some(&field.name);
        }
    }
    None
}

/// Whether a field is another than the key.
fn is_other(segment: &SegType, field: &Field) -> bool {
    match key_name(segment) {
        Some(name) => *name != field.name,
        None => true,
    }
}

/// Whether a type has a field but its key.
fn has_others(segment: &SegType) -> bool {
    for field in &segment.fields {
        if is_other(segment, field) {
            return true;
        }
    }
    false
}

/// The last column of a field or key.
fn last_column(start: u32, length: u32) -> u64 {
    (u64::from(start) + u64::from(length)).saturating_sub(1)
}

/// How many columns the first and the last column of a field or key take.
fn range_width(start: u32, length: u32) -> usize {
    digits(u64::from(start))
        .saturating_add(digits(last_column(start, length)))
        .saturating_add(1)
}

fn put_range<W: Write>(start: u32, length: u32, ink: &mut Ink<'_, W>) {
    ink.fill(b"$-$", &[u64::from(start), last_column(start, length)]);
}

/// How many columns the bytes of a type's segments take.
fn bytes_width(segment: &SegType) -> usize {
    let most = digits(u64::from(segment.length));
    match segment.least {
        Some(least) => digits(u64::from(least))
            .saturating_add(most)
            .saturating_add(1),
        None => most,
    }
}

/// Writes how many bytes a type's segments have, and where they vary the fewest before.
fn put_bytes<W: Write>(segment: &SegType, widths: &Widths, ink: &mut Ink<'_, W>) {
    ink.blanks(widths.bytes.saturating_sub(bytes_width(segment)));
    if let Some(least) = segment.least {
        ink.fill(b"$-", &[u64::from(least)]);
    }
    ink.number(u64::from(segment.length));
}

/// The widths, with room for one type more.
fn widened(widths: Widths, level: u8, segment: &SegType) -> Widths {
    let tree = branch_width(level).saturating_add(name_text(&segment.name).len());
    let name = match key_name(segment) {
        Some(name) => name_text(name).len(),
        None => 0,
    };
    let range = match segment.key {
        Some(key) => range_width(key.start, key.length),
        None => 0,
    };
    Widths {
        tree: widths.tree.max(tree),
        bytes: widths.bytes.max(bytes_width(segment)),
        name: widths.name.max(name),
        range: widths.range.max(range),
        has_fields: widths.has_fields || has_others(segment),
    }
}

fn widths_of(dbd: &Dbd) -> Widths {
    let mut widths = Widths {
        tree: 7,
        bytes: 5,
        name: 3,
        range: 3,
        has_fields: false,
    };
    for code in Order::of(dbd) {
        if let Some(segment) = dbd.type_of(code) {
            widths = widened(widths, dbd.level(code), segment);
        }
    }
    widths
}

fn put_headings<W: Write>(widths: &Widths, ink: &mut Ink<'_, W>) {
    ink.left(b"Segment", widths.tree);
    ink.put(b"  Level  ");
    ink.blanks(widths.bytes.saturating_sub(5));
    ink.put(b"Bytes  ");
    ink.left(b"Key", widths.key());
    ink.put(b"  Rule   Twins              In parent");
    if widths.has_fields {
        ink.put(b"    Other fields");
    }
    ink.put(b"\n");
}

/// Writes the line of a type, and further lines for the fields that do not fit into it.
fn put_type<W: Write>(dbd: &Dbd, code: u8, widths: &Widths, ink: &mut Ink<'_, W>) {
    let Some(segment) = dbd.type_of(code) else {
        return;
    };
    put_tree(dbd, code, segment, widths, ink);
    put_key(segment, widths, ink);
    ink.put(rule_text(segment));
    put_pointers(dbd.keeps_backward(code), dbd.keeps_last_child(code), ink);
    put_fields(dbd, code, segment, widths, ink);
    ink.put(b"\n");
}

/// Writes the branches and the name of a type, its level and its bytes.
fn put_tree<W: Write>(
    dbd: &Dbd,
    code: u8,
    segment: &SegType,
    widths: &Widths,
    ink: &mut Ink<'_, W>,
) {
    let level = dbd.level(code);
    put_branches(dbd, code, ink);
    let width = widths.tree.saturating_sub(branch_width(level));
    ink.left(name_text(&segment.name), width);
    ink.count(u64::from(level), 7);
    ink.put(b"  ");
    put_bytes(segment, widths, ink);
    ink.put(b"  ");
}

fn put_key<W: Write>(segment: &SegType, widths: &Widths, ink: &mut Ink<'_, W>) {
    let Some(key) = segment.key else {
        ink.left(b"none", widths.key());
        return;
    };
    match key_name(segment) {
        Some(name) => ink.left(name_text(name), widths.name),
        None => ink.blanks(widths.name),
    }
    ink.put(b" ");
    put_range(key.start, key.length, ink);
    let width = range_width(key.start, key.length);
    ink.blanks(widths.range.saturating_sub(width));
    ink.put(if key.unique {
        b" unique    "
    } else {
        b" not unique"
    });
}

/// The rule for a new twin of equal key, which a type with a unique key has no use for.
fn rule_text(segment: &SegType) -> &'static [u8] {
    if let Some(key) = segment.key {
        if key.unique {
            return b"         ";
        }
    }
    match segment.rule {
        Rule::First => b"  FIRST  ",
        Rule::Last => b"  LAST   ",
        Rule::Here => b"  HERE   ",
    }
}

/// Writes which pointers twins have, and which their parent has.
fn put_pointers<W: Write>(backward: bool, last: bool, ink: &mut Ink<'_, W>) {
    ink.put(if backward {
        b"forward, backward"
    } else {
        b"forward          "
    });
    ink.put(b"  first");
    if last {
        ink.put(b", last");
    }
}

/// Writes the fields of a type but the key, as many as fit into a line.
fn put_fields<W: Write>(
    dbd: &Dbd,
    code: u8,
    segment: &SegType,
    widths: &Widths,
    ink: &mut Ink<'_, W>,
) {
    let mut used = 0;
    for field in &segment.fields {
        if is_other(segment, field) {
            put_gap(dbd, code, widths, field, used, ink);
            ink.put(name_text(&field.name));
            ink.put(b" ");
            put_range(field.start, field.length, ink);
            used = used_behind(widths, field, used);
        }
    }
}

/// The columns of a field.
fn field_width(field: &Field) -> usize {
    name_text(&field.name)
        .len()
        .saturating_add(range_width(field.start, field.length))
        .saturating_add(1)
}

/// Whether a field fits behind so many columns of fields.
fn fits_behind(widths: &Widths, field: &Field, used: usize) -> bool {
    widths
        .before_fields()
        .saturating_add(used)
        .saturating_add(2)
        .saturating_add(field_width(field))
        <= LINE
}

/// The columns of fields in the line once a field is written behind so many.
fn used_behind(widths: &Widths, field: &Field, used: usize) -> usize {
    let width = field_width(field);
    if used != 0 && fits_behind(widths, field, used) {
        used.saturating_add(2).saturating_add(width)
    } else {
        width
    }
}

/// Writes what stands before a field: blanks, a comma, or a comma and the front of a further line.
fn put_gap<W: Write>(
    dbd: &Dbd,
    code: u8,
    widths: &Widths,
    field: &Field,
    used: usize,
    ink: &mut Ink<'_, W>,
) {
    if used == 0 {
        ink.blanks(if dbd.keeps_last_child(code) { 2 } else { 8 });
    } else if fits_behind(widths, field, used) {
        ink.put(b", ");
    } else {
        ink.put(b",\n");
        put_passing_all(dbd, code, widths.before_fields(), ink);
    }
}
