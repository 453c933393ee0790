ghost use Rattle.std.specs.Prelude.{◌≡◌, IsTrue, IfOk, IfErr};
ghost use Rattle.hd_dbd.specs.Facts.{stored_sizes};
ghost use Rattle.hd_volume.specs.Calls.{IsRead};
ghost use Rattle.hd_unload.specs.Unloads.{IsUnloaded, IsUnloadFaultOf, ComesFirst, unload_call};

use crate::fault::StreamFault;
use crate::stream::write_stream;
use hd_check::{CheckFault, check};
use hd_dbd::Dbd;
use hd_output::Work;
use hd_stores::BlockStore;
use hd_volume::Volume;
use std::alloc::Global;
use std::io::Write;
use thiserror::Error;

/// Why a volume is not unloaded. After a fault, or where memory was wanting, nothing is written; after a failed access or a failed
/// write, or where the volume was changed meanwhile, it is not known what went out.
#[derive(Clone, Copy, Debug, Drop, PartialEq, Eq, Error)]
pub enum UnloadFault {
    /// The volume does not pass, or the check came to no end.
    #[error("{0}")]
    Check(CheckFault),
    /// A write failed.
    #[error("write failed")]
    Write,
    /// So many segments were written as the check did not count: another has changed the volume meanwhile.
    #[error("volume changed")]
    Changed,
}

/// Checks a volume, and writes the unload stream of the one forest that it holds; says how many segments that are. No byte of the
/// volume is changed.
pub fn unload<S: BlockStore, W: Write>(
    alloc: Global,
    volume: &mut Volume<S>,
    dbd: &Dbd,
    out: &mut W,
) -> Result<u32, UnloadFault>
    requires size { (volume.old.size ≡ dbd.now.block_size) × (volume.old.sizes ≡ stored_sizes dbd.now.types) }
    ensures read { IsRead volume.old (unload_call result) volume.new }
    ensures unloaded { IfOk result (λ n. IsTrue volume.old.is_sound → IsUnloaded dbd.now volume.old (W.contents out.old) (W.contents out.new) n) }
    ensures fault { IfErr result (λ e. IsTrue volume.old.is_sound → IsUnloadFaultOf dbd.now volume.old e) }
    ensures nothing { IfErr result (λ e. ComesFirst e → out.new ≡ out.old) }
{
    match check(alloc, volume, dbd) {
        Ok(passed) => {
            volume.begin_work(u64::from(passed.segments), Work::Segments);
            match write_stream(volume, dbd, out) {
                Ok(segments) if segments == passed.segments => Ok(segments),
                Ok(_) => Err(UnloadFault::Changed),
                Err(StreamFault::Device) => Err(UnloadFault::Check(CheckFault::Device)),
                Err(StreamFault::Write) => Err(UnloadFault::Write),
            }
        }
        Err(fault) => Err(UnloadFault::Check(fault)),
    }
}
