//! Phase 4: each segment has one predecessor.
ghost use Rattle.std.specs.Prelude.{◌≡◌, ◌++◌, List, drop, length, replicate, true, IfOk, IfNone, IfSome, OnOk};
ghost use Rattle.std.specs.Ordering.{nat_cmp};
ghost use Rattle.std.specs.List.Sorted.{IsNonDecreasingBy, IsStableByKey};
ghost use Rattle.hd_dbd.specs.Refusals.{OnlyMemory};
ghost use Rattle.hd_links.specs.Pointers.{PredecessorsAreOne};
ghost use Rattle.hd_image.specs.Records.{links_of};
ghost use Rattle.hd_check_blocks.specs.Phases.{IsLeastOf};
ghost use Rattle.hd_check_blocks.specs.Listing.{AreStanding};
ghost use Rattle.hd_check_pointers.specs.Tables.{ArePredecessors};
ghost use Rattle.hd_check_pointers.specs.Namings.{match_fault, first_unmatched, NameTheirPlaces, HaveSameHolders};
ghost use Rattle.hd_check_pointers.specs.Listed.{behind, all_unmatched, AreSorted};
ghost use Rattle.hd_check_pointers.specs.Matched.{OfNamed};

use crate::namings::Naming;
use hd_check_blocks::{Directory, Fault, Place, list_fault, number_near};
use hd_dbd::Refused;
use hd_image::Line;
use std::alloc::Global;

/// What is wrong with the predecessors of the segment at an address, where those pointers that name it come first, from a
/// number on.
fn match_fault(namings: &[Naming], i: usize, address: u32) -> Option<Fault>
    ensures { result ≡ match_fault address (drop i namings.now) }
{
    if i >= namings.len() || namings[i].target != address {
        return Some(Fault::at(Line::NoPredecessor, address, 0));
    }
    let behind = i + 1;
    if behind < namings.len() && namings[behind].target == address {
        return Some(Fault::at(Line::TwoPredecessors, address, namings[behind].holder));
    }
    None
}

/// The first segment that is not named by just one of the pointers, which are in order of what they name.
fn first_unmatched(places: &[Place], namings: &[Naming]) -> Option<Fault>
    ensures { result ≡ first_unmatched places.now namings.now }
{
    for i in 0..places.len() {
        let fault = match_fault(namings, i, places[i].address);
        if fault.is_some() {
            return fault;
        }
    }
    None
}

/// The number of the first pointer behind those that name an address, from a number on.
fn behind(namings: &[Naming], first: usize, address: u32) -> usize
    ensures { drop result namings.now ≡ behind address (drop first namings.now) }
{
    for i in first..namings.len() {
        if namings[i].target != address {
            return i;
        }
    }
    namings.len()
}

/// Lists what is wrong with the predecessors of the segments at these places, where the pointers are in order of what they name.
fn list_unmatched(
    faults: &mut Vec<Fault>,
    places: &[Place],
    namings: &[Naming],
) -> Result<(), Refused>
    ensures faults { OnOk result (faults.new.items ≡ faults.old.items ++ all_unmatched places.now namings.now) }
    ensures refusal { OnlyMemory result }
{
    let mut i = 0;
    for place in places {
        list_fault(faults, match_fault(namings, i, place.address))?;
        i = behind(namings, i, place.address);
    }
    Ok(())
}

/// Puts pointers in order of what they name; those that name the same stay in order.
fn sort_namings(namings: &mut Vec<Naming>) -> Result<(), Refused>
    ensures sorted { OnOk result (IsNonDecreasingBy (λ (n : Naming). n.target) namings.new.items) }
    ensures stable { IsStableByKey (λ (n : Naming). n.target) nat_cmp namings.old.items namings.new.items }
    ensures refusal { OnlyMemory result }
{
    match namings.sort_by_key(|naming| naming.target) {
        Ok(()) => Ok(()),
        Err(_) => Err(Refused::Memory),
    }
}

/// Whether each pointer names the place of its number.
fn name_their_places(places: &[Place], namings: &[Naming]) -> bool
    requires { length namings.now ≡ length places.now }
    ensures { result ≡ true → NameTheirPlaces places.now namings.now }
{
    for number in 0..places.len() {
        if namings[number].target != places[number].address {
            return false;
        }
    }
    true
}

/// A table with nothing at so many numbers.
fn empty_table(alloc: Global, count: usize) -> Result<Vec<Naming>, Refused>
    ensures empty { IfOk result (λ table. table.items ≡ replicate count (record { target = 0; holder = 0 })) }
    ensures refusal { OnlyMemory result }
{
    let nothing = Naming {
        target: 0,
        holder: 0,
    };
    let Ok(table) = vec![in alloc; nothing; count] else {
        return Err(Refused::Memory);
    };
    Ok(table)
}

/// The pointers, each at the number of the place that it names, which spares a sort; nothing where a place is not named by just
/// one of them.
fn arrange(
    alloc: Global,
    namings: &[Naming],
    places: &[Place],
    directory: &Directory,
) -> Result<Option<Vec<Naming>>, Refused>
    ensures places { IfOk result (λ o. IfSome o (λ table. NameTheirPlaces places.now table.items)) }
    ensures holders { IfOk result (λ o. IfSome o (λ table. HaveSameHolders places.now namings.now table.items)) }
    ensures refusal { OnlyMemory result }
{
    let mut table = empty_table(alloc, places.len())?;
    let mut near = 0;
    for naming in namings {
        let Some(number) = number_near(places, directory, naming.target, near) else {
            return Ok(None);
        };
        if table[number].target != 0 {
            return Ok(None);
        }
        table[number] = *naming;
        near = number + 1;
    }
    if !name_their_places(places, &table) {
        return Ok(None);
    }
    Ok(Some(table))
}

/// What is wrong with the predecessors of the segments: each must have just one. The pointers are put in order of what they name.
pub fn predecessors_fault(
    alloc: Global,
    namings: &mut Vec<Naming>,
    places: &[Place],
    directory: &Directory,
) -> Result<Option<Fault>, Refused>
    ensures none { OfNamed places.now namings.old.items (λ d v. IfOk result (λ o. IfNone o (PredecessorsAreOne d.types (links_of d.types v)))) }
    ensures table { OfNamed places.now namings.old.items (λ d v. IfOk result (λ o. IfNone o (ArePredecessors d.types (links_of d.types v) places.now namings.new.items))) }
    ensures some { OfNamed places.now namings.old.items (λ d v. IfOk result (λ o. IfSome o (λ f. IsLeastOf d v 4 f))) }
    ensures sorted { IfOk result (λ o. IfSome o (λ f. AreSorted namings.old.items namings.new.items)) }
    ensures refusal { OnlyMemory result }
{
    if let Some(arranged) = arrange(alloc, namings, places, directory)? {
        *namings = arranged;
        return Ok(None);
    }
    sort_namings(namings)?;
    Ok(first_unmatched(places, namings))
}

/// All that is wrong with the predecessors of the segments, where the pointers are in order of what they name.
pub fn predecessors_faults(
    alloc: Global,
    places: &[Place],
    namings: &[Naming],
) -> Result<Vec<Fault>, Refused>
    ensures faults { (old : List Naming) → AreSorted old namings.now → OfNamed places.now old (λ d v. IfOk result (λ faults. AreStanding d v 4 faults.items)) }
    ensures refusal { OnlyMemory result }
{
    let mut faults = Vec::new(alloc);
    list_unmatched(&mut faults, places, namings)?;
    Ok(faults)
}
