ghost use Rattle.std.specs.Prelude.{◌≡◌, ◌≢◌, IsTrue, IfErr, OnOk};
ghost use Rattle.hd_dbd.specs.Facts.{stored_sizes};
ghost use Rattle.hd_commands.specs.Commands.{PassesInPrint, IsRefused, VolumeSays};

use crate::ended::{DONE, Ended, refuse};
use crate::lines::print_passed;
use crate::refusal::Refusal;
use hd_check::check;
use hd_dbd::Dbd;
use hd_stores::BlockStore;
use hd_volume::Volume;
use std::alloc::Global;
use std::io::Write;

/// Checks a volume, and prints what it has where it passes.
fn check_and_print<S: BlockStore, O: Write>(
    alloc: Global,
    volume: &mut Volume<S>,
    dbd: &Dbd,
    out: &mut O,
) -> Result<(), Refusal>
    requires size { (volume.old.size ≡ dbd.now.block_size) × (volume.old.sizes ≡ stored_sizes dbd.now.types) }
    ensures same { IsTrue volume.new.is_sound → volume.new.image ≡ volume.old.image }
    ensures sizes { (volume.new.size ≡ volume.old.size) × (volume.new.sizes ≡ volume.old.sizes) }
    ensures passed { OnOk result (IsTrue volume.old.is_sound → PassesInPrint dbd.now volume.old (O.contents out.old) (O.contents out.new)) }
    ensures refused { IfErr result (λ e. VolumeSays dbd.now volume.old volume.new e) }
    ensures silent { IfErr result (λ e. e ≢ Refusal.Device → out.new ≡ out.old) }
{
    match check(alloc, volume, dbd) {
        Ok(passed) => match print_passed(out, dbd.name().bytes(), &passed) {
            Ok(()) => Ok(()),
            Err(_) => Err(Refusal::Device),
        },
        Err(fault) => Err(Refusal::of_check(fault)),
    }
}

/// Checks a volume, and says on `out` what it has where it passes, on `err` why it does not; and the status of the program.
pub fn check_volume<S: BlockStore, O: Write, E: Write>(
    alloc: Global,
    volume: &mut Volume<S>,
    dbd: &Dbd,
    out: &mut O,
    err: &mut E,
) -> Ended
    requires size { (volume.old.size ≡ dbd.now.block_size) × (volume.old.sizes ≡ stored_sizes dbd.now.types) }
    ensures same { IsTrue volume.new.is_sound → volume.new.image ≡ volume.old.image }
    ensures sizes { (volume.new.size ≡ volume.old.size) × (volume.new.sizes ≡ volume.old.sizes) }
    ensures passed { result.status ≡ 0 → IsTrue volume.old.is_sound → PassesInPrint dbd.now volume.old (O.contents out.old) (O.contents out.new) }
    ensures refused { result.status ≢ 0 → IsRefused (VolumeSays dbd.now volume.old volume.new) result (E.contents err.old) (E.contents err.new) }
    ensures quiet { result.status ≡ 0 → err.new ≡ err.old }
    ensures silent { result.status ≢ 0 → result.status ≢ 3 → out.new ≡ out.old }
{
    match check_and_print(alloc, volume, dbd, out) {
        Ok(()) => DONE,
        Err(refusal) => refuse(refusal, err),
    }
}
