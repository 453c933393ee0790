//! The rows that a salvage left out, which are told beside the stream.
ghost use Rattle.std.specs.Prelude.{◌≡◌, ◌≢◌, ◌<◌, ◌≤◌, ◌+◌, ◌*◌, true, length, IsTrue, IfErr};
ghost use Rattle.hd_bytes.specs.Blocks.{HasBlock};
ghost use Rattle.hd_dbd.specs.Refusals.{OnlyMemory, OnlyDeviceOrMemory};
ghost use Rattle.hd_volume.specs.Calls.{IsRead};
ghost use Rattle.hd_salvage.specs.Streams.{as_call};

use crate::fault::SalvageFault;
use crate::found::narrowed;
use crate::lost::Lost;
use crate::record::Record;
use crate::stream::{put_end, put_head, put_row};
use hd_dbd::{Dbd, Refused};
use hd_prefix::{Layout, Pointer};
use hd_stores::BlockStore;
use hd_volume::Volume;
use std::alloc::{AllocError, Global};
use std::io::Write;

/// Where a record hangs among others that were left out: where its pointers begin in the table of these; the number of the first record below it, from 1, 0 for
/// none; and that of the next one below the same record, 0 for none, and `TOP` where it hangs below none.
#[derive(Clone, Copy)]
struct Branch {
    pointers: u32,
    first: u32,
    next: u32,
}

/// The number that stands for the next record of one that hangs below none.
const TOP: u32 = u32::MAX;

/// The records that were left out, by address, and how they hang together. The pointers of each are its twin forward, and then the first child of each of
/// its child types.
#[derive(Drop)]
struct Trees<'a> {
    records: &'a [Record],
    block_size: u32,
    pointers: Vec<u32>,
    branches: Vec<Branch>,
}

/// Puts the records that were left out of a volume, which stand by address, into the order in which they are told: behind each those that hang below it by
/// its first children and their twin forward, as far as they were left out too; what hangs below none by address. Nothing is changed of the volume.
pub fn order_lost<S: BlockStore>(
    alloc: Global,
    volume: &mut Volume<S>,
    dbd: &Dbd,
    lost: &mut Lost,
) -> Result<(), Refused>
    ensures read { IsRead volume.old result volume.new }
    ensures refusal { OnlyDeviceOrMemory result }
{
    let order = order_of(alloc, volume, dbd, &lost.records)?;
    match ordered(alloc, &lost.records, &order) {
        Ok(records) => {
            lost.records = records;
            Ok(())
        }
        Err(_) => Err(Refused::Memory),
    }
}

/// Some records in the order of these numbers of theirs.
fn ordered(alloc: Global, records: &[Record], order: &[u32]) -> Result<Vec<Record>, AllocError> {
    let mut ordered = Vec::with_capacity(alloc, order.len())?;
    for number in order {
        if let Some(record) = records.get(*number as usize) {
            ordered.push(*record)?;
        }
    }
    Ok(ordered)
}

/// The numbers of records that were left out, each before those below it. What is kept of them is gone at the end.
fn order_of<S: BlockStore>(
    alloc: Global,
    volume: &mut Volume<S>,
    dbd: &Dbd,
    records: &[Record],
) -> Result<Vec<u32>, Refused>
    ensures read { IsRead volume.old result volume.new }
    ensures refusal { OnlyDeviceOrMemory result }
{
    let (Ok(mut pointers), Ok(mut branches)) = (
        Vec::with_capacity(alloc, pointers_of(dbd, records)),
        Vec::with_capacity(alloc, records.len()),
    ) else {
        return Err(Refused::Memory);
    };
    read_pointers(&mut pointers, &mut branches, volume, dbd, records)?;
    let mut trees = Trees {
        records,
        block_size: dbd.block_size(),
        pointers,
        branches,
    };
    for number in 0..records.len() {
        trees.hang_children(dbd, number);
    }
    match trees.in_order(alloc) {
        Ok(order) => Ok(order),
        Err(_) => Err(Refused::Memory),
    }
}

/// How many pointers of some records are read.
fn pointers_of(dbd: &Dbd, records: &[Record]) -> usize {
    let mut count = records.len();
    for record in records {
        count = count.saturating_add(dbd.children_of(record.code).len());
    }
    count
}

/// Reads the pointers of the records that were left out.
fn read_pointers<S: BlockStore>(
    pointers: &mut Vec<u32>,
    branches: &mut Vec<Branch>,
    volume: &mut Volume<S>,
    dbd: &Dbd,
    records: &[Record],
) -> Result<(), Refused>
    ensures read { IsRead volume.old result volume.new }
    ensures refusal { OnlyDeviceOrMemory result }
{
    for record in records {
        read_record(pointers, branches, volume, dbd, *record)?;
    }
    Ok(())
}

/// Reads the pointers of a record.
fn read_record<S: BlockStore>(
    pointers: &mut Vec<u32>,
    branches: &mut Vec<Branch>,
    volume: &mut Volume<S>,
    dbd: &Dbd,
    record: Record,
) -> Result<(), Refused>
    ensures read { IsRead volume.old result volume.new }
    ensures refusal { OnlyDeviceOrMemory result }
{
    if !has_block(volume, record.block) {
        return note_pointers(pointers, branches, dbd, record.code, &[]);
    }
    let block = volume.block(record.block)?;
    note_pointers(
        pointers,
        branches,
        dbd,
        record.code,
        segment_in(block, record),
    )
}

/// Block n is a whole one.
fn has_block<S: BlockStore>(volume: &Volume<S>, n: u32) -> bool
    ensures { result ≡ true → IsTrue volume.now.is_sound → HasBlock volume.now.size volume.now.image n }
{
    let size = volume.block_size() as u64;
    u64::from(n) * size + size <= volume.length()
}

/// The bytes of a record in its block, as far as this goes.
fn segment_in(block: &[u8], record: Record) -> &[u8] {
    let start = (record.place as usize).min(block.len());
    let end = start.saturating_add(record.size as usize).min(block.len());
    &block[start..end]
}

/// Notes the pointers of the next record, a segment of a code.
fn note_pointers(
    pointers: &mut Vec<u32>,
    branches: &mut Vec<Branch>,
    dbd: &Dbd,
    code: u8,
    segment: &[u8],
) -> Result<(), Refused>
    ensures refusal { OnlyMemory result }
{
    let branch = Branch {
        pointers: narrowed(pointers.len()),
        first: 0,
        next: TOP,
    };
    let pushed = branches.push(branch);
    if pushed.is_err() || push_pointers(pointers, dbd, code, segment).is_err() {
        return Err(Refused::Memory);
    }
    Ok(())
}

/// Puts the pointers of a segment of a code behind those in a table.
fn push_pointers(
    pointers: &mut Vec<u32>,
    dbd: &Dbd,
    code: u8,
    segment: &[u8],
) -> Result<(), AllocError> {
    pointers.push(pointer_in(dbd, code, segment, Pointer::TwinForward))?;
    for child in dbd.children_of(code) {
        pointers.push(pointer_in(dbd, code, segment, Pointer::FirstChild(*child)))?;
    }
    Ok(())
}

/// The address in a pointer of a segment of a code; 0 where the segment has not all of its prefix.
fn pointer_in(dbd: &Dbd, code: u8, segment: &[u8], pointer: Pointer) -> u32 {
    let layout = Layout::of(dbd, code);
    if segment.len() < layout.prefix_length() as usize {
        return 0;
    }
    layout.read(segment, pointer)
}

impl Trees<'_> {
    /// The number of the record of a type at an address, if one was left out there.
    fn number_of(&self, address: u32, code: u8) -> Option<usize> {
        let block = address.checked_div(self.block_size)?;
        let place = u16::try_from(address.checked_rem(self.block_size)?).ok()?;
        let number = self
            .records
            .binary_search_by_key(&(block, place), |record| (record.block, record.place))
            .ok()?;
        match self.records.get(number) {
            Some(record) if record.code == code => Some(number),
            _ => None,
        }
    }

    /// The address in a pointer of a record, by the pointer's number among those of the record.
    fn pointer(&self, number: usize, place: usize) -> u32 {
        let Some(branch) = self.branches.get(number) else {
            return 0;
        };
        let at = (branch.pointers as usize).saturating_add(place);
        self.pointers.get(at).copied().unwrap_or(0)
    }

    /// Hangs below a record its children, type by type.
    fn hang_children(&mut self, dbd: &Dbd, number: usize) {
        let Some(record) = self.records.get(number).copied() else {
            return;
        };
        let mut place = 0usize;
        let mut last = 0;
        for child in dbd.children_of(record.code) {
            place = place.saturating_add(1);
            last = self.hang_chain(number, self.pointer(number, place), *child, last);
        }
    }

    /// Hangs below a record the twins of a type from an address on, behind the last one that hangs there, whose number from 1 it is given, 0 for none. Answers
    /// the number of the last one now.
    fn hang_chain(&mut self, above: usize, address: u32, code: u8, last: u32) -> u32 {
        let mut address = address;
        let mut last = last;
        for _twin in 0..self.records.len() {
            match self.number_of(address, code) {
                Some(number) if self.hang(above, number, last) => {
                    last = narrowed(number.saturating_add(1));
                    address = self.pointer(number, 0);
                }
                _ => return last,
            }
        }
        last
    }

    /// Hangs a record below another, behind the last one there, unless it hangs below one; whether it does so now.
    fn hang(&mut self, above: usize, number: usize, last: u32) -> bool {
        match self.branches.get_mut(number) {
            Some(branch) if branch.next == TOP => branch.next = 0,
            _ => return false,
        }
        let named = narrowed(number.saturating_add(1));
        if last == 0 {
            if let Some(branch) = self.branches.get_mut(above) {
                branch.first = named;
            }
        } else if let Some(branch) = self.branches.get_mut((last as usize).saturating_sub(1)) {
            branch.next = named;
        }
        true
    }

    /// The numbers of the records, each before those below it.
    fn in_order(&self, alloc: Global) -> Result<Vec<u32>, AllocError> {
        let mut order = Vec::with_capacity(alloc, self.records.len())?;
        let mut waiting = Vec::new(alloc);
        for number in 0..self.branches.len() {
            if self.branches[number].next == TOP {
                waiting.push(narrowed(number.saturating_add(1)))?;
                self.put_tree(&mut waiting, &mut order)?;
            }
        }
        Ok(order)
    }

    /// Puts the numbers that wait, from 1, behind others, the last first, each with those of the records below it.
    fn put_tree(&self, waiting: &mut Vec<u32>, order: &mut Vec<u32>) -> Result<(), AllocError> {
        for _turn in 0..self.branches.len() {
            let Some(number) = waiting.pop() else {
                return Ok(());
            };
            self.put_number(number.saturating_sub(1), waiting, order)?;
        }
        Ok(())
    }

    /// Puts the number of a record behind others; the next one below the same record waits then, and before it the first below this one.
    fn put_number(
        &self,
        number: u32,
        waiting: &mut Vec<u32>,
        order: &mut Vec<u32>,
    ) -> Result<(), AllocError> {
        let Some(branch) = self.branches.get(number as usize) else {
            return Ok(());
        };
        order.push(number)?;
        if branch.next != 0 && branch.next != TOP {
            waiting.push(branch.next)?;
        }
        if branch.first != 0 {
            waiting.push(branch.first)?;
        }
        Ok(())
    }
}

/// Writes the rows that were left out of a volume, in the order in which they stand, in the form of an unload stream. It is none that reloads: rows may
/// stand in it without their parents. Nothing is changed of the volume.
pub fn write_lost<S: BlockStore, W: Write>(
    volume: &mut Volume<S>,
    dbd: &Dbd,
    lost: &Lost,
    out: &mut W,
) -> Result<(), SalvageFault>
    ensures read { IsRead volume.old (as_call result) volume.new }
{
    put_head(out, dbd)?;
    for record in &lost.records {
        write_record(volume, dbd, *record, out)?;
    }
    put_end(out, narrowed(lost.records.len()))
}

/// Writes the row of a record of a volume.
fn write_record<S: BlockStore, W: Write>(
    volume: &mut Volume<S>,
    dbd: &Dbd,
    record: Record,
    out: &mut W,
) -> Result<(), SalvageFault>
    ensures read { IsRead volume.old (as_call result) volume.new }
{
    if !has_block(volume, record.block) {
        return Err(SalvageFault::Changed);
    }
    match volume.block(record.block) {
        Ok(block) => put_segment(dbd, record.code, segment_in(block, record), out),
        Err(_) => Err(SalvageFault::Device),
    }
}

/// Writes the row of a stored segment of a code.
fn put_segment<W: Write>(
    dbd: &Dbd,
    code: u8,
    segment: &[u8],
    out: &mut W,
) -> Result<(), SalvageFault>
    ensures refusal { IfErr result (λ e. e ≢ SalvageFault.Device) }
{
    match Layout::of(dbd, code).own_bytes(segment) {
        Some(bytes) if bytes.len() < 65536 => put_row(out, code, bytes),
        _ => Err(SalvageFault::Changed),
    }
}
