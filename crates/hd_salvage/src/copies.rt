//! A copy of a volume that passes.
ghost use Rattle.std.specs.Prelude.{◌≡◌, ◌⊎◌, ◌*◌, ◌≤◌, length, take, IsTrue, IfOk, IfErr, OnOk};
ghost use Rattle.std.specs.Io.KnownBytes.{Appends};
ghost use Rattle.hd_bytes.specs.Blocks.{HasBlock, block_of};
ghost use Rattle.hd_dbd.specs.Facts.{stored_sizes};
ghost use Rattle.hd_volume.specs.Calls.{IsRead};
ghost use Rattle.hd_check.specs.Checks.{IsPassed};
ghost use Rattle.hd_unload.specs.Unloads.{IsUnloadFaultOf, ComesFirst, unload_call};

use hd_check::{CheckFault, Passed, check};
use hd_dbd::Dbd;
use hd_stores::BlockStore;
use hd_unload::UnloadFault;
use hd_volume::Volume;
use std::alloc::Global;
use std::io::Write;

/// Checks a volume, and writes its bytes. No byte of it is changed.
pub fn copy_volume<S: BlockStore, W: Write>(
    alloc: Global,
    volume: &mut Volume<S>,
    dbd: &Dbd,
    out: &mut W,
) -> Result<Passed, UnloadFault>
    requires size { (volume.old.size ≡ dbd.now.block_size) × (volume.old.sizes ≡ stored_sizes dbd.now.types) }
    ensures read { IsRead volume.old (unload_call result) volume.new }
    ensures copied { IfOk result (λ p. IsTrue volume.old.is_sound → IsPassed dbd.now volume.old p × Appends (W.contents out.old) (W.contents out.new) volume.old.image) }
    ensures fault { IfErr result (λ e. IsTrue volume.old.is_sound → IsUnloadFaultOf dbd.now volume.old e) }
    ensures nothing { IfErr result (λ e. ComesFirst e → out.new ≡ out.old) }
{
    match check(alloc, volume, dbd) {
        Ok(passed) => {
            put_blocks(volume, passed.blocks, out)?;
            Ok(passed)
        }
        Err(fault) => Err(UnloadFault::Check(fault)),
    }
}

/// Writes the first blocks of a volume, so many.
fn put_blocks<S: BlockStore, W: Write>(
    volume: &mut Volume<S>,
    count: u32,
    out: &mut W,
) -> Result<(), UnloadFault>
    requires there { IsTrue volume.old.is_sound → count * volume.old.size ≤ length volume.old.image }
    ensures read { IsRead volume.old (unload_call result) volume.new }
    ensures blocks { OnOk result (IsTrue volume.old.is_sound → Appends (W.contents out.old) (W.contents out.new) (take (count * volume.old.size) volume.old.image)) }
    ensures refusal { IfErr result (λ e. (e ≡ UnloadFault.Write) ⊎ (e ≡ UnloadFault.Check CheckFault.Device)) }
{
    for n in 0..count {
        put_block(volume, n, out)?;
    }
    Ok(())
}

/// Writes a block of a volume.
fn put_block<S: BlockStore, W: Write>(
    volume: &mut Volume<S>,
    n: u32,
    out: &mut W,
) -> Result<(), UnloadFault>
    requires there { IsTrue volume.old.is_sound → HasBlock volume.old.size volume.old.image n }
    ensures read { IsRead volume.old (unload_call result) volume.new }
    ensures block { OnOk result (IsTrue volume.old.is_sound → Appends (W.contents out.old) (W.contents out.new) (block_of volume.old.size volume.old.image n)) }
    ensures refusal { IfErr result (λ e. (e ≡ UnloadFault.Write) ⊎ (e ≡ UnloadFault.Check CheckFault.Device)) }
{
    let Ok(block) = volume.block(n) else {
        return Err(UnloadFault::Check(CheckFault::Device));
    };
    match out.write_all(block) {
        Ok(()) => Ok(()),
        Err(_) => Err(UnloadFault::Write),
    }
}
