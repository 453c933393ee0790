ghost use Rattle.std.specs.Prelude.{◌≡◌, ◌≢◌, ◌<◌, ◌⊎◌, length, All, IsTrue, IfOk, IfErr, IfSome, IfNone, OnOk};
ghost use Rattle.hd_dbd.specs.Facts.{stored_sizes};
ghost use Rattle.hd_volume.specs.Calls.{IsRead};
ghost use Rattle.hd_check.specs.Checks.{IsFaulty};
ghost use Rattle.hd_unload.specs.Unloads.{IsUnloaded};
ghost use Rattle.hd_salvage.specs.Records.{IsNoted};
ghost use Rattle.hd_salvage.specs.Streams.{IsSalvaged, KeepsOn, as_call};

use crate::fault::SalvageFault;
use crate::found::{Found, Tables, narrowed};
use crate::lost::Lost;
use crate::path::RowPath;
use crate::roots::{Ends, roots_kept};
use crate::scan::scan_volume;
use crate::stream::{keep, put_end, put_head};
use crate::walk::Walk;
use hd_check::CheckFault;
use hd_check_blocks::Fault;
use hd_dbd::{Dbd, Refused};
use hd_index_blocks::root_key_length;
use hd_stores::BlockStore;
use hd_unload::{UnloadFault, unload};
use hd_volume::{INDEX, MOST_BLOCKS, Volume};
use std::alloc::Global;
use std::io::Write;

/// A stream that was written: the least fault of the volume, none where it passes, and how many segments the stream has.
#[derive(Clone, Copy, Debug, Drop, PartialEq, Eq)]
pub struct Salvaged {
    pub fault: Option<Fault>,
    pub segments: u32,
}

/// Writes the unload stream of a volume that passes, and of one that does not a stream of the rows that are kept of it; what is left out, and the faults that
/// were met, are noted. No byte of the volume is changed.
pub fn salvage<S: BlockStore, W: Write>(
    alloc: Global,
    volume: &mut Volume<S>,
    dbd: &Dbd,
    out: &mut W,
    lost: &mut Lost,
) -> Result<Salvaged, SalvageFault>
    requires size { (volume.old.size ≡ dbd.now.block_size) × (volume.old.sizes ≡ stored_sizes dbd.now.types) }
    ensures read { IsRead volume.old (as_call result) volume.new }
    ensures unloaded { IfOk result (λ s. IfNone s.fault (IsTrue volume.old.is_sound → IsUnloaded dbd.now volume.old (W.contents out.old) (W.contents out.new) s.segments)) }
    ensures salvaged { IfOk result (λ s. IfSome s.fault (λ f. IsTrue volume.old.is_sound → IsFaulty dbd.now volume.old f × IsSalvaged dbd.now volume.old (W.contents out.old) (W.contents out.new) s.segments)) }
{
    match unload(alloc, volume, dbd, out) {
        Ok(segments) => Ok(Salvaged {
            fault: None,
            segments,
        }),
        Err(UnloadFault::Check(CheckFault::Fault(fault))) => {
            let segments = salvage_faulty(alloc, volume, dbd, out, lost)?;
            Ok(Salvaged {
                fault: Some(fault),
                segments,
            })
        }
        Err(UnloadFault::Check(CheckFault::Memory)) => Err(SalvageFault::Memory),
        Err(UnloadFault::Check(CheckFault::Device)) => Err(SalvageFault::Device),
        Err(UnloadFault::Write) => Err(SalvageFault::Write),
        Err(UnloadFault::Changed) => Err(SalvageFault::Changed),
    }
}

/// Why a scan came to no end.
fn fault_of(refused: Refused) -> SalvageFault
    requires { (refused ≡ Refused.Device) ⊎ (refused ≡ Refused.Memory) }
    ensures { ((refused ≡ Refused.Device) × (result ≡ SalvageFault.Device)) ⊎ ((refused ≡ Refused.Memory) × (result ≡ SalvageFault.Memory)) }
{
    match refused {
        Refused::Device => SalvageFault::Device,
        _ => SalvageFault::Memory,
    }
}

/// Writes a stream of the rows that are kept of a volume, whatever its bytes are.
fn salvage_faulty<S: BlockStore, W: Write>(
    alloc: Global,
    volume: &mut Volume<S>,
    dbd: &Dbd,
    out: &mut W,
    lost: &mut Lost,
) -> Result<u32, SalvageFault>
    requires size { (volume.old.size ≡ dbd.now.block_size) × (volume.old.sizes ≡ stored_sizes dbd.now.types) }
    ensures read { IsRead volume.old (as_call result) volume.new }
    ensures salvaged { IfOk result (λ n. IsTrue volume.old.is_sound → IsSalvaged dbd.now volume.old (W.contents out.old) (W.contents out.new) n) }
{
    let mut records = Vec::new(alloc);
    let mut tables = Tables::new(alloc, dbd.block_size(), root_key_length(dbd));
    let mut faults = Vec::new(alloc);
    if let Err(refused) = scan_volume(alloc, &mut records, &mut tables, &mut faults, volume, dbd) {
        return Err(fault_of(refused));
    }
    let ends = ends_of(volume, &tables);
    let found = Found {
        records: &records,
        tables: &tables,
    };
    let mut walk = walk_of(alloc, found, &mut faults, dbd, ends)?;
    let count = write_kept(alloc, volume, dbd, found, &mut faults, &mut walk, out)?;
    match lost.take(&records, &walk, faults) {
        Ok(()) => Ok(count),
        Err(_) => Err(SalvageFault::Memory),
    }
}

/// What the header and the index say of the roots.
fn ends_of<S: BlockStore>(volume: &Volume<S>, tables: &Tables) -> Ends {
    let top = volume.top();
    let has_top = tables.roots.is_empty() || top != 0 && volume.kind(top) == INDEX;
    Ends {
        first: volume.first_root(),
        last: volume.last_root(),
        is_index_whole: has_top && are_index_blocks(volume, &tables.names),
    }
}

/// Whether each of some numbers is that of an index block.
fn are_index_blocks<S: BlockStore>(volume: &Volume<S>, names: &[u32]) -> bool {
    for name in names {
        if volume.kind(*name) != INDEX {
            return false;
        }
    }
    true
}

/// The way from the roots that are kept.
fn walk_of(
    alloc: Global,
    found: Found<'_>,
    faults: &mut Vec<Fault>,
    dbd: &Dbd,
    ends: Ends,
) -> Result<Walk, SalvageFault>
    ensures { IfErr result (λ e. e ≢ SalvageFault.Device) }
{
    let Ok(roots) = roots_kept(alloc, found, faults, dbd, ends) else {
        return Err(SalvageFault::Memory);
    };
    match Walk::new(alloc, roots, found.records.len()) {
        Ok(walk) => Ok(walk),
        Err(_) => Err(SalvageFault::Memory),
    }
}

/// Writes the stream of the rows to which a walk leads and that may come behind the ones before, and says how many they are.
fn write_kept<S: BlockStore, W: Write>(
    alloc: Global,
    volume: &mut Volume<S>,
    dbd: &Dbd,
    found: Found<'_>,
    faults: &mut Vec<Fault>,
    walk: &mut Walk,
    out: &mut W,
) -> Result<u32, SalvageFault>
    requires size { (volume.old.size ≡ dbd.now.block_size) × (volume.old.sizes ≡ stored_sizes dbd.now.types) }
    requires noted { IsTrue volume.old.is_sound → All (IsNoted volume.old) found.records.now }
    ensures read { IsRead volume.old (as_call result) volume.new }
    ensures salvaged { IfOk result (λ n. IsTrue volume.old.is_sound → IsSalvaged dbd.now volume.old (W.contents out.old) (W.contents out.new) n) }
{
    let Ok(mut marks) = vec![in alloc; false; eighths_of(volume)] else {
        return Err(SalvageFault::Memory);
    };
    let mut path = RowPath::new(alloc);
    put_head(out, dbd)?;
    let count = write_rows(
        alloc, volume, dbd, found, faults, walk, &mut path, &mut marks, out,
    )?;
    put_end(out, count)?;
    Ok(count)
}

/// How many eights of bytes a volume has in the blocks that are read, and one more.
fn eighths_of<S: BlockStore>(volume: &Volume<S>) -> usize {
    let most = volume.block_size() as u64 * u64::from(MOST_BLOCKS);
    volume.length().min(most) as usize / 8 + 1
}

/// Writes the records of these rows, and says how many they are.
fn write_rows<S: BlockStore, W: Write>(
    alloc: Global,
    volume: &mut Volume<S>,
    dbd: &Dbd,
    found: Found<'_>,
    faults: &mut Vec<Fault>,
    walk: &mut Walk,
    path: &mut RowPath,
    marks: &mut Vec<bool>,
    out: &mut W,
) -> Result<u32, SalvageFault>
    requires size { (volume.old.size ≡ dbd.now.block_size) × (volume.old.sizes ≡ stored_sizes dbd.now.types) }
    requires noted { IsTrue volume.old.is_sound → All (IsNoted volume.old) found.records.now }
    ensures read { IsRead volume.old (as_call result) volume.new }
    ensures kept { IfOk result (λ n. IsTrue volume.old.is_sound → KeepsOn dbd.now volume.old (W.contents out.old) path.old marks.old.items 0 (W.contents out.new) path.new marks.new.items n) }
{
    let mut count = 0u32;
    for _turn in 0..u64::MAX {
        let goes_on = write_next(
            alloc, volume, dbd, found, faults, walk, path, marks, &mut count, out,
        )?;
        if !goes_on {
            break;
        }
    }
    Ok(count)
}

/// Writes the record of the next row, if it is kept; says whether there was one.
fn write_next<S: BlockStore, W: Write>(
    alloc: Global,
    volume: &mut Volume<S>,
    dbd: &Dbd,
    found: Found<'_>,
    faults: &mut Vec<Fault>,
    walk: &mut Walk,
    path: &mut RowPath,
    marks: &mut Vec<bool>,
    count: &mut u32,
    out: &mut W,
) -> Result<bool, SalvageFault>
    requires size { (volume.old.size ≡ dbd.now.block_size) × (volume.old.sizes ≡ stored_sizes dbd.now.types) }
    requires noted { IsTrue volume.old.is_sound → All (IsNoted volume.old) found.records.now }
    ensures read { IsRead volume.old (as_call result) volume.new }
    ensures kept { OnOk result (IsTrue volume.old.is_sound → KeepsOn dbd.now volume.old (W.contents out.old) path.old marks.old.items count.old (W.contents out.new) path.new marks.new.items count.new) }
{
    if *count == u32::MAX {
        return Ok(false);
    }
    let Some(number) = proposed(found, faults, walk, dbd)? else {
        return Ok(false);
    };
    let is_kept = keep(alloc, volume, dbd, path, marks, found.records[number], out)?;
    if is_kept {
        *count += 1;
    }
    tell(found, faults, walk, dbd, number, is_kept)?;
    Ok(true)
}

/// The number of the record that a walk proposes.
fn proposed(
    found: Found<'_>,
    faults: &mut Vec<Fault>,
    walk: &mut Walk,
    dbd: &Dbd,
) -> Result<Option<usize>, SalvageFault>
    ensures inside { IfOk result (λ o. IfSome o (λ number. number < length found.entry.records.now)) }
    ensures refusal { IfErr result (λ e. e ≢ SalvageFault.Device) }
{
    match walk.propose(found, faults, dbd) {
        Ok(Some(number)) if (number as usize) < found.records.len() => Ok(Some(number as usize)),
        Ok(_) => Ok(None),
        Err(_) => Err(SalvageFault::Memory),
    }
}

/// Tells a walk whether the row that it proposed was kept.
fn tell(
    found: Found<'_>,
    faults: &mut Vec<Fault>,
    walk: &mut Walk,
    dbd: &Dbd,
    number: usize,
    is_kept: bool,
) -> Result<(), SalvageFault>
    ensures { IfErr result (λ e. e ≢ SalvageFault.Device) }
{
    let told = if is_kept {
        walk.go_to(found, dbd, narrowed(number))
    } else {
        walk.pass_over(found, faults, dbd, narrowed(number))
    };
    match told {
        Ok(()) => Ok(()),
        Err(_) => Err(SalvageFault::Memory),
    }
}
