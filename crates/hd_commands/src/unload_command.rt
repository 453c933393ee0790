ghost use Rattle.std.specs.Prelude.{◌≡◌, ◌≢◌, IsTrue, IfErr, OnOk};
ghost use Rattle.hd_dbd.specs.Facts.{stored_sizes};
ghost use Rattle.hd_commands.specs.Commands.{UnloadsInPrint, IsRefused, VolumeSays};

use crate::ended::{DONE, Ended, refuse};
use crate::lines::print_unloaded;
use crate::refusal::Refusal;
use hd_dbd::Dbd;
use hd_stores::BlockStore;
use hd_unload::unload;
use hd_volume::Volume;
use std::alloc::Global;
use std::io::Write;

/// Checks and unloads a volume, and prints how many segments it has.
fn unload_and_print<S: BlockStore, W: Write, O: Write>(
    alloc: Global,
    volume: &mut Volume<S>,
    dbd: &Dbd,
    stream: &mut W,
    out: &mut O,
) -> Result<(), Refusal>
    requires size { (volume.old.size ≡ dbd.now.block_size) × (volume.old.sizes ≡ stored_sizes dbd.now.types) }
    ensures same { IsTrue volume.new.is_sound → volume.new.image ≡ volume.old.image }
    ensures sizes { (volume.new.size ≡ volume.old.size) × (volume.new.sizes ≡ volume.old.sizes) }
    ensures unloaded { OnOk result (IsTrue volume.old.is_sound → UnloadsInPrint dbd.now volume.old (W.contents stream.old) (W.contents stream.new) (O.contents out.old) (O.contents out.new)) }
    ensures refused { IfErr result (λ e. VolumeSays dbd.now volume.old volume.new e) }
    ensures nothing { IfErr result (λ e. e ≢ Refusal.Device → stream.new ≡ stream.old) }
    ensures silent { IfErr result (λ e. e ≢ Refusal.Device → out.new ≡ out.old) }
{
    let segments = match unload(alloc, volume, dbd, stream) {
        Ok(segments) => segments,
        Err(fault) => return Err(Refusal::of_unload(fault)),
    };
    let Ok(()) = stream.flush() else {
        return Err(Refusal::Device);
    };
    match print_unloaded(out, segments) {
        Ok(()) => Ok(()),
        Err(_) => Err(Refusal::Device),
    }
}

/// Checks a volume and writes its unload stream, and says on `out` how many segments it has, or on `err` why there is no stream; and
/// the status of the program. Nothing is written to the stream before the volume has passed.
pub fn unload_volume<S: BlockStore, W: Write, O: Write, E: Write>(
    alloc: Global,
    volume: &mut Volume<S>,
    dbd: &Dbd,
    stream: &mut W,
    out: &mut O,
    err: &mut E,
) -> Ended
    requires size { (volume.old.size ≡ dbd.now.block_size) × (volume.old.sizes ≡ stored_sizes dbd.now.types) }
    ensures same { IsTrue volume.new.is_sound → volume.new.image ≡ volume.old.image }
    ensures sizes { (volume.new.size ≡ volume.old.size) × (volume.new.sizes ≡ volume.old.sizes) }
    ensures unloaded { result.status ≡ 0 → IsTrue volume.old.is_sound → UnloadsInPrint dbd.now volume.old (W.contents stream.old) (W.contents stream.new) (O.contents out.old) (O.contents out.new) }
    ensures refused { result.status ≢ 0 → IsRefused (VolumeSays dbd.now volume.old volume.new) result (E.contents err.old) (E.contents err.new) }
    ensures quiet { result.status ≡ 0 → err.new ≡ err.old }
    ensures nothing { result.status ≢ 0 → result.status ≢ 3 → stream.new ≡ stream.old }
    ensures silent { result.status ≢ 0 → result.status ≢ 3 → out.new ≡ out.old }
{
    match unload_and_print(alloc, volume, dbd, stream, out) {
        Ok(()) => DONE,
        Err(refusal) => refuse(refusal, err),
    }
}
