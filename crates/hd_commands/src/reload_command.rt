ghost use Rattle.std.specs.Prelude.{◌≡◌, ◌≢◌, ◌<◌, ◌≤◌, [], IsTrue};
ghost use Rattle.hd_unload.specs.Loads.{HasNoHeader};
ghost use Rattle.hd_commands.specs.Commands.{ReloadsInPrint, IsRefused, StoreSays};
ghost use Rattle.hd_volume.specs.declared.load.TheConstants.{MOST_BLOCKS};

use crate::ended::{DONE, Ended, refuse};
use crate::lines::print_reloaded;
use crate::refusal::Refusal;
use hd_dbd::Dbd;
use hd_stores::BlockStore;
use hd_unload::reload;
use std::alloc::Global;
use std::io::Write;

/// Makes a volume of a stream in an empty store, and says on `out` what it has, or on `err` why there is none; and the status of the
/// program. The store is given back.
pub fn reload_store<S: BlockStore, O: Write, E: Write>(
    alloc: Global,
    dbd: &Dbd,
    stream: &[u8],
    store: S,
    largest: u32,
    kept: usize,
    out: &mut O,
    err: &mut E,
) -> (S, Ended)
    requires size { S.size store ≡ dbd.now.block_size }
    requires empty { IsTrue (S.is_sound store) → S.contents store ≡ [] }
    requires bounds { (0 < largest) × (largest ≤ MOST_BLOCKS) }
    ensures reloaded { result.1.status ≡ 0 → IsTrue (S.is_sound store) → ReloadsInPrint dbd.now stream.now largest (S.contents result.0) (O.contents out.old) (O.contents out.new) }
    ensures refused { result.1.status ≢ 0 → IsRefused (StoreSays S.is_sound S.failures S.contents dbd.now stream.now largest store result.0) result.1 (E.contents err.old) (E.contents err.new) }
    ensures quiet { result.1.status ≡ 0 → err.new ≡ err.old }
    ensures silent { result.1.status ≢ 0 → result.1.status ≢ 3 → out.new ≡ out.old }
    ensures none { result.1.status ≢ 0 → result.1.status ≢ 3 → IsTrue (S.is_sound store) → HasNoHeader (S.size store) (S.contents result.0) }
{
    match reload(alloc, dbd, stream, store, largest, kept) {
        Ok(loaded) => match print_reloaded(out, loaded.segments, loaded.blocks) {
            Ok(()) => (loaded.store, DONE),
            Err(_) => (loaded.store, refuse(Refusal::Device, err)),
        },
        Err((store, fault)) => (store, refuse(Refusal::of_reload(fault), err)),
    }
}
