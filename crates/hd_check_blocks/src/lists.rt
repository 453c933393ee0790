//! Faults that are listed one behind another.
ghost use Rattle.std.specs.Prelude.{◌≡◌, ◌++◌, OnOk};
ghost use Rattle.hd_dbd.specs.Refusals.{OnlyMemory};
ghost use Rattle.hd_check_blocks.specs.Listing.{faults_of, fault_if, fault_unless};

use crate::fault::Fault;
use hd_dbd::Refused;
use hd_image::Line;

/// The fault of a line at an address that names something, if that is not 0.
pub fn fault_if(line: Line, address: u32, other: u32) -> Option<Fault>
    ensures { result ≡ fault_if line address other }
{
    if other == 0 {
        return None;
    }
    Some(Fault::at(line, address, other))
}

/// The fault of a line at the header, unless that is right.
pub(crate) fn fault_unless(right: bool, line: Line, other: u32) -> Option<Fault>
    ensures { result ≡ fault_unless right line other }
{
    if right {
        return None;
    }
    Some(Fault::at(line, 0, other))
}

/// Lists a fault, if one is found.
pub fn list_fault(faults: &mut Vec<Fault>, found: Option<Fault>) -> Result<(), Refused>
    ensures faults { OnOk result (faults.new.items ≡ faults.old.items ++ faults_of found) }
    ensures refusal { OnlyMemory result }
{
    if let Some(fault) = found {
        faults.push(fault).map_err(|_| Refused::Memory)?;
    }
    Ok(())
}
