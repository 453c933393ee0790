//! What of a volume is damaged, in words.

use crate::ink::Ink;
use crate::survey::{Kind, Survey};
use crate::text::name_text;
use crate::tree::Order;
use hd_dbd::Dbd;
use std::io::Write;

/// How many damaged blocks are named.
const NAMED: usize = 8;

/// Writes what is damaged, a line each; nothing where nothing is.
pub fn put_damage<W: Write>(survey: &Survey, dbd: &Dbd, ink: &mut Ink<'_, W>) {
    put_count_fault(survey, ink);
    put_blocks(survey, ink);
    for code in Order::of(dbd) {
        put_type(survey, dbd, code, ink);
    }
}

/// Says where the header counts other blocks than there are.
fn put_count_fault<W: Write>(survey: &Survey, ink: &mut Ink<'_, W>) {
    if survey.counted as usize != survey.blocks.len() {
        let counted = u64::from(survey.counted);
        ink.fill(b"damaged: the header counts $ blocks\n", &[counted]);
    }
    if survey.behind != 0 {
        let behind = survey.behind;
        ink.fill(b"damaged: $ bytes behind the last whole block\n", &[behind]);
    }
}

/// Names the damaged blocks, the first of them where they are many.
fn put_blocks<W: Write>(survey: &Survey, ink: &mut Ink<'_, W>) {
    let all = survey.tally(Kind::Damaged).blocks;
    if all == 0 {
        return;
    }
    ink.put(b"damaged blocks:");
    let mut named = 0usize;
    for (n, block) in survey.blocks.iter().enumerate() {
        if block.kind == Kind::Damaged && named < NAMED {
            if named != 0 {
                ink.put(b",");
            }
            ink.fill(b" $", &[n as u64]);
            named = named.saturating_add(1);
        }
    }
    let more = all.saturating_sub(NAMED as u64);
    if more != 0 {
        ink.fill(b" and $ more", &[more]);
    }
    ink.put(b"\n");
}

/// Says what is wrong with the twin chains of a type.
fn put_type<W: Write>(survey: &Survey, dbd: &Dbd, code: u8, ink: &mut Ink<'_, W>) {
    let own = survey.type_use(code);
    let Some(segment) = dbd.type_of(code) else {
        return;
    };
    if own.is_damaged() {
        ink.put(b"damaged twins of ");
        ink.put(name_text(&segment.name));
        let numbers = [
            u64::from(own.chains),
            u64::from(own.parents),
            u64::from(own.looping),
            u64::from(own.nowhere),
        ];
        ink.fill(
            b": chains $, parents $, chains that loop $, pointers to no twin $\n",
            &numbers,
        );
    }
}
