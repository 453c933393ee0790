//! The list of the faults of a volume, as `hd check --all` writes it.
ghost use Rattle.std.specs.Prelude.{◌≡◌};
ghost use Rattle.hd_dbd.specs.Facts.{stored_sizes};

use crate::sights::segment_of;
use crate::stop::Stop;
use hd_check::{AllFaults, all_faults};
use hd_check_blocks::Fault;
use hd_commands::Refusal;
use hd_dbd::Dbd;
use hd_deck::put_shown;
use hd_output::Pieces;
use hd_show::see_segment;
use hd_stores::BlockStore;
use hd_volume::Volume;
use std::alloc::Global;
use std::io::{self, ErrorKind, Write};

/// The numbers of the fault table are below this one.
const NUMBERS: usize = 32;

/// A segment that is touched by faults: where it stands, and the code of its type.
#[derive(Clone, Copy, PartialEq, Eq, PartialOrd, Ord)]
struct Touched {
    address: u32,
    code: u8,
}

/// Writes the type of a segment that was seen, and its key, if it has one.
fn put_seen<W: Write>(dbd: &Dbd, code: u8, key: &[u8], out: &mut W) -> io::Result<()> {
    let Some(segment) = dbd.type_of(code) else {
        return Ok(());
    };
    out.write_all(b": ")?;
    out.write_all(segment.name.bytes().trim_ascii_end())?;
    if key.is_empty() {
        return Ok(());
    }
    out.write_all(b" with the key \"")?;
    if put_shown(out, key).is_err() {
        return Err(io::Error::from(ErrorKind::Other));
    }
    out.write_all(b"\"")
}

/// Writes the line of a fault, with the segment of which it tells, where that can be read, which is noted.
fn put_fault<S: BlockStore, W: Write>(
    alloc: Global,
    volume: &mut Volume<S>,
    dbd: &Dbd,
    fault: &Fault,
    touched: &mut Vec<Touched>,
    out: &mut W,
) -> Result<(), Stop>
    requires { volume.old.sizes ≡ stored_sizes dbd.now.types }
    ensures { volume.new.sizes ≡ volume.old.sizes }
{
    write!(out, "{fault}")?;
    if let Some(address) = segment_of(fault) {
        if let Some(seen) = see_segment(alloc, volume, dbd, address)? {
            let code = seen.code;
            put_seen(dbd, code, &seen.key, out)?;
            touched.push(Touched { address, code })?;
        }
    }
    writeln!(out)?;
    Ok(())
}

/// Writes the lines of faults in their order.
fn put_faults<S: BlockStore, W: Write>(
    alloc: Global,
    volume: &mut Volume<S>,
    dbd: &Dbd,
    faults: &[Fault],
    touched: &mut Vec<Touched>,
    out: &mut W,
) -> Result<(), Stop>
    requires { volume.old.sizes ≡ stored_sizes dbd.now.types }
    ensures { volume.new.sizes ≡ volume.old.sizes }
{
    for fault in faults {
        put_fault(alloc, volume, dbd, fault, touched, out)?;
    }
    Ok(())
}

/// Counts faults by their numbers.
fn count_numbers(counts: &mut [u64; NUMBERS], faults: &[Fault]) {
    for fault in faults {
        if let Some(count) = counts.get_mut(usize::from(fault.number())) {
            *count = count.saturating_add(1);
        }
    }
}

/// Writes how many faults there are of each number.
fn put_counts<W: Write>(faults: &AllFaults, out: &mut W) -> io::Result<()> {
    let mut counts = [0u64; NUMBERS];
    count_numbers(&mut counts, &faults.first);
    count_numbers(&mut counts, &faults.index);
    for number in 0..NUMBERS {
        let count = counts[number];
        if count > 0 {
            writeln!(out, "{count} of fault {number}")?;
        }
    }
    Ok(())
}

/// Writes how many segments of each type are touched, each counted once. They are put into order.
fn put_touched<W: Write>(dbd: &Dbd, touched: &mut [Touched], out: &mut W) -> io::Result<()> {
    touched.sort_unstable();
    let mut counts = [0u64; 256];
    let mut before = 0;
    for segment in &*touched {
        if segment.address != before {
            let count = &mut counts[usize::from(segment.code)];
            *count = count.saturating_add(1);
        }
        before = segment.address;
    }
    for code in 1..=255 {
        let count = counts[usize::from(code)];
        if count > 0 {
            put_count(dbd, code, count, out)?;
        }
    }
    Ok(())
}

/// Writes how many segments of a type are touched.
fn put_count<W: Write>(dbd: &Dbd, code: u8, count: u64, out: &mut W) -> io::Result<()> {
    let Some(segment) = dbd.type_of(code) else {
        return Ok(());
    };
    write!(out, "touched {count} of ")?;
    out.write_all(segment.name.bytes().trim_ascii_end())?;
    writeln!(out)
}

/// Writes the faults of the first phase that finds any, in the fault table's order, and those of the index behind faults of pointers; how many there are of each
/// number; and how many segments of each type they touch.
pub fn list_faults<S: BlockStore, O: Write>(
    alloc: Global,
    volume: &mut Volume<S>,
    dbd: &Dbd,
    out: &mut O,
) -> Result<(), Stop>
    requires { (volume.old.size ≡ dbd.now.block_size) × (volume.old.sizes ≡ stored_sizes dbd.now.types) }
{
    let faults = all_faults(alloc, volume, dbd)?;
    let Ok(mut lines) = Pieces::new(alloc, out) else {
        return Err(Stop::from(Refusal::Memory));
    };
    let mut touched = Vec::new(alloc);
    put_faults(alloc, volume, dbd, &faults.first, &mut touched, &mut lines)?;
    if !faults.index.is_empty() {
        lines.write_all(b"faults of the index:\n")?;
        put_faults(alloc, volume, dbd, &faults.index, &mut touched, &mut lines)?;
    }
    put_counts(&faults, &mut lines)?;
    put_touched(dbd, &mut touched, &mut lines)?;
    lines.flush()?;
    Ok(())
}
