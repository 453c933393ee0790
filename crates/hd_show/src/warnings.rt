//! What of a volume asks for an unload and a reload, in words.

use crate::ink::Ink;
use crate::survey::{Kind, Survey};
use crate::text::name_text;
use crate::tree::Order;
use hd_dbd::Dbd;
use hd_index_blocks::{ADDRESS, entry_room, root_key_length};
use std::io::Write;

/// Writes a line for each warning; nothing where all is well.
pub fn put_warnings<W: Write>(survey: &Survey, dbd: &Dbd, ink: &mut Ink<'_, W>) {
    put_nearly_full(survey, ink);
    put_levels(survey, dbd, ink);
    for code in Order::of(dbd) {
        put_twins(survey, dbd, code, ink);
    }
}

/// Warns of a volume that has more than nine tenths of the blocks that it may have.
fn put_nearly_full<W: Write>(survey: &Survey, ink: &mut Ink<'_, W>) {
    let blocks = survey.blocks.len() as u64;
    let largest = u64::from(survey.largest);
    if blocks <= largest && blocks.saturating_mul(10) > largest.saturating_mul(9) {
        ink.fill(
            b"warning: the volume has $ of at most $ blocks; an unload and a reload may give it more\n",
            &[blocks, largest],
        );
    }
}

/// Warns of an index of more levels than a reload makes of its entries.
fn put_levels<W: Write>(survey: &Survey, dbd: &Dbd, ink: &mut Ink<'_, W>) {
    let levels = u64::from(survey.levels());
    let entry = (root_key_length(dbd) + ADDRESS) as u64;
    let entries = survey.tally(Kind::Index(0)).used / entry;
    let needed = levels_of(entries, survey, dbd);
    if levels == u64::from(survey.height) && levels > needed {
        ink.fill(
            b"warning: the index has $ levels for $ entries, and needs $; an unload and a reload make it smaller\n",
            &[levels, entries, needed],
        );
    }
}

/// How many levels a reload makes of so many entries: it fills each block of a level up to one entry, but for the last, which it fills.
fn levels_of(entries: u64, survey: &Survey, dbd: &Dbd) -> u64 {
    let room = entry_room(root_key_length(dbd), dbd.block_size() as usize) as u64;
    let filled = room.saturating_sub(1).max(1);
    let mut blocks = entries;
    let mut levels = 0u64;
    for _level in 0..survey.levels() {
        if blocks == 0 || blocks == 1 && levels != 0 {
            return levels;
        }
        blocks = (blocks - 1).div_ceil(filled).max(1);
        levels = levels.saturating_add(1);
    }
    levels
}

/// Warns of a long twin chain of a type below the root; roots are found by the index.
fn put_twins<W: Write>(survey: &Survey, dbd: &Dbd, code: u8, ink: &mut Ink<'_, W>) {
    let own = survey.type_use(code);
    let (Some(segment), Some(parent)) = (dbd.type_of(code), dbd.parent_of(code)) else {
        return;
    };
    if !own.has_long_chain() {
        return;
    }
    ink.fill(b"warning: $ twins of ", &[u64::from(own.longest)]);
    ink.put(name_text(&segment.name));
    if own.longest_parent == 0 {
        ink.put(b" below no parent");
    } else {
        let above = match dbd.type_of(parent) {
            Some(above) => name_text(&above.name),
            None => &[],
        };
        ink.put(b" below the ");
        ink.put(above);
        ink.fill(b" at $", &[u64::from(own.longest_parent)]);
    }
    ink.put(b"; a search may pass over half of them\n");
}
