ghost use Rattle.std.specs.Prelude.{◌≡◌, IsTrue, IfOk, IfErr, OnOk};
ghost use Rattle.hd_dbd.specs.Facts.{stored_sizes};
ghost use Rattle.hd_volume.specs.Calls.{IsRead};
ghost use Rattle.hd_session.specs.Opening.{IsReadyFor, IsOpenFaultOf, has_loader, all_at_start, opening_call};

use hd_check::{CheckFault, Fault, check};
use hd_dbd::{Dbd, Pcb};
use hd_position::Position;
use hd_ssa::loads;
use hd_stores::BlockStore;
use hd_volume::{NEWEST_VERSION, Volume};
use std::alloc::{AllocError, Global};

/// Why a session is not opened.
#[derive(Clone, Copy, Debug, Drop, PartialEq, Eq)]
pub enum OpenFault {
    /// The volume does not pass: it has this fault, and no other comes before it.
    Check(Fault),
    /// The volume passes, and is of this version, which is not the newest: it is to be unloaded and reloaded.
    Old(u16),
    /// A PCB loads, and the volume holds a segment.
    NotEmptyForLoad,
    /// No memory.
    Memory,
    /// An access of the store failed.
    Device,
}

/// Whether one of the PCBs loads.
fn has_loader(pcbs: &[Pcb]) -> bool
    ensures { result ≡ has_loader pcbs.now }
{
    pcbs.iter().any(|pcb| loads(pcb))
}

/// Each PCB before all rows.
pub fn start_positions(alloc: Global, pcbs: &[Pcb]) -> Result<Vec<Position>, AllocError>
    ensures start { IfOk result (λ positions. positions.items ≡ all_at_start pcbs.now) }
{
    let mut positions = Vec::new(alloc);
    for _pcb in pcbs {
        positions.push(Position::start())?;
    }
    Ok(positions)
}

/// Whether a volume passes a check, is of the newest version, and is empty where a PCB loads. It is only read.
pub fn test_volume<S: BlockStore>(
    alloc: Global,
    volume: &mut Volume<S>,
    dbd: &Dbd,
    pcbs: &[Pcb],
) -> Result<(), OpenFault>
    requires size { (volume.old.size ≡ dbd.now.block_size) × (volume.old.sizes ≡ stored_sizes dbd.now.types) }
    ensures read { IsRead volume.old (opening_call result) volume.new }
    ensures ready { OnOk result (IsTrue volume.old.is_sound → IsReadyFor dbd.now pcbs.now volume.old) }
    ensures fault { IfErr result (λ e. IsTrue volume.old.is_sound → IsOpenFaultOf dbd.now pcbs.now volume.old e) }
{
    match check(alloc, volume, dbd) {
        Ok(passed) => {
            let version = volume.version();
            if version != NEWEST_VERSION {
                return Err(OpenFault::Old(version));
            }
            if passed.segments > 0 && has_loader(pcbs) {
                return Err(OpenFault::NotEmptyForLoad);
            }
            Ok(())
        }
        Err(CheckFault::Fault(fault)) => Err(OpenFault::Check(fault)),
        Err(CheckFault::Memory) => Err(OpenFault::Memory),
        Err(CheckFault::Device) => Err(OpenFault::Device),
    }
}
