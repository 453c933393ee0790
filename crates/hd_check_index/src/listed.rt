//! Faults of index blocks that are listed one behind another.
ghost use Rattle.std.specs.Prelude.{◌≡◌, ◌*◌, ◌<◌, Option, None, IfOk, OnOk};
ghost use Rattle.std.specs.List.Sorted.{IsPermutation};
ghost use Rattle.hd_dbd.specs.Refusals.{OnlyMemory};
ghost use Rattle.hd_dbd.specs.Hierarchy.{Database};
ghost use Rattle.hd_volume.specs.Volumes.{VolumeState};
ghost use Rattle.hd_check_blocks.specs.Listing.{AreStanding};
ghost use Rattle.hd_check_index.specs.Listed.{fault_unless, fault_naming, top_fault, AreInOrder, repeats, unless_repeated, each_once, AreFound};

use crate::noted_blocks::block_address;
use hd_check_blocks::{Fault, list_fault};
use hd_dbd::Refused;
use hd_image::Line;
use std::alloc::Global;

/// The fault of the header, unless top and height are right.
pub fn top_fault(is_right: bool, top: u32) -> Option<Fault>
    ensures { result ≡ top_fault is_right top }
{
    if is_right {
        return None;
    }
    Some(Fault::at(Line::WrongTop, 0, top))
}

/// The fault of a line at a block, unless that is right.
pub fn fault_unless(is_right: bool, line: Line, number: u32, size: u32) -> Option<Fault>
    ensures { number * size < 4294967296 → result ≡ fault_unless is_right line (number * size) }
{
    if is_right {
        return None;
    }
    Some(Fault::at(line, block_address(number, size), 0))
}

/// The fault of a line at a block that names what was found in it, if something was.
pub fn fault_naming(found: Option<u32>, line: Line, number: u32, size: u32) -> Option<Fault>
    ensures { number * size < 4294967296 → result ≡ fault_naming found line (number * size) }
{
    match found {
        None => None,
        Some(other) => Some(Fault::at(line, block_address(number, size), other)),
    }
}

/// Whether a fault is of the address and the number of the one before it, if there is one.
fn repeats(before: Option<Fault>, fault: Fault) -> bool
    ensures { result ≡ repeats before fault }
{
    match before {
        None => false,
        Some(other) => other.address == fault.address && other.number() == fault.number(),
    }
}

/// The fault, unless it repeats the one before it.
fn unless_repeated(before: Option<Fault>, fault: Fault) -> Option<Fault>
    ensures { result ≡ unless_repeated before fault }
{
    if repeats(before, fault) {
        return None;
    }
    Some(fault)
}

/// Those of some faults that do not repeat the one before them.
fn each_once(alloc: Global, sorted: &[Fault]) -> Result<Vec<Fault>, Refused>
    ensures value { IfOk result (λ faults. faults.items ≡ each_once None sorted.now) }
    ensures refusal { OnlyMemory result }
{
    let mut faults = Vec::new(alloc);
    let mut before = None;
    for fault in sorted {
        list_fault(&mut faults, unless_repeated(before, *fault))?;
        before = Some(*fault);
    }
    Ok(faults)
}

/// Sorts faults by address, and at one address by number.
fn sort_faults(faults: &mut Vec<Fault>) -> Result<(), Refused>
    ensures sorted { OnOk result (AreInOrder faults.new.items) }
    ensures moved { OnOk result (IsPermutation faults.old.items faults.new.items) }
    ensures refusal { OnlyMemory result }
{
    let Ok(()) = faults.sort_by_key(|fault| fault.number()) else {
        return Err(Refused::Memory);
    };
    let Ok(()) = faults.sort_by_key(|fault| fault.address) else {
        return Err(Refused::Memory);
    };
    Ok(())
}

/// The faults of the eleventh phase that were found in any order, in their own, each once.
pub fn in_order(alloc: Global, found: Vec<Fault>) -> Result<Vec<Fault>, Refused>
    ensures faults { (d : Database) (v : VolumeState) → AreFound d v 11 found.items → IfOk result (λ faults. AreStanding d v 11 faults.items) }
    ensures refusal { OnlyMemory result }
{
    let mut sorted = found;
    sort_faults(&mut sorted)?;
    each_once(alloc, &sorted)
}
