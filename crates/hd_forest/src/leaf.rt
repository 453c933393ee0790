ghost use Rattle.std.specs.Prelude.{◌≡◌, ◌+◌, ◌≤◌, true, length, IsTrue, IfOk, IfErr};
ghost use Rattle.hd_dbd.specs.Rows.{row_fits};
ghost use Rattle.hd_dbd.specs.Facts.{stored_sizes};
ghost use Rattle.hd_dbd.specs.Prefixes.{size_with};
ghost use Rattle.hd_dbd.specs.DatabaseRules.{well_formed};
ghost use Rattle.hd_dbd.specs.Refusals.{OnlyRoomOrDevice};
ghost use Rattle.hd_volume.specs.Rooms.{spare, HasHole, HasFreeBlock};
ghost use Rattle.hd_volume.specs.Calls.{IsCall};
ghost use Rattle.hd_image.specs.Records.{IsVolumeOf};
ghost use Rattle.hd_forest.specs.Leaves.{IsLeaf, IsLeafPut};

use hd_dbd::{Dbd, Refused};
use hd_prefix::{Layout, Pointer};
use hd_stores::BlockStore;
use hd_volume::Volume;

/// The most bytes of a block, and so of a segment.
pub const LARGEST_BLOCK: usize = 32768;

/// The most bytes of a segment that is laid out in little room, so that a load of small ones does not clear a largest block for each.
pub const SMALL_SEGMENT: usize = 512;

/// Puts a new leaf, which names its twins and has no child, and says its address.
pub fn put_leaf<S: BlockStore>(
    volume: &mut Volume<S>,
    dbd: &Dbd,
    after: u32,
    behind: u32,
    code: u8,
    bytes: &[u8],
) -> Result<u32, Refused>
    requires fits { row_fits dbd.now.types (record { code = code; bytes = bytes.now }) ≡ true }
    requires sizes { volume.old.sizes ≡ stored_sizes dbd.now.types }
    requires of { IsTrue volume.old.is_sound → IsVolumeOf dbd.now volume.old }
    ensures call { IsCall volume.old result volume.new }
    ensures put { IfOk result (λ a. IsTrue volume.old.is_sound → IsLeafPut dbd.now volume.old (record { code = code; bytes = bytes.now }) after behind a volume.new) }
    ensures kept { IfErr result (λ _. IsTrue volume.new.is_sound → volume.new.image ≡ volume.old.image) }
    ensures full { IfErr result (λ e. e ≡ Refused.Full → IsTrue volume.old.is_sound → (spare volume.old ≡ 0) × (HasHole volume.old (size_with dbd.now.types code (length bytes.now)) → ⊥)) }
    ensures memory { IfErr result (λ e. e ≡ Refused.Memory → volume.old.room ≡ 0) }
    ensures no_free { IfErr result (λ e. e ≡ Refused.Memory → IsTrue volume.old.is_sound → HasFreeBlock volume.old → ⊥) }
    ensures no_hole { IfErr result (λ e. e ≡ Refused.Memory → IsTrue volume.old.is_sound → HasHole volume.old (size_with dbd.now.types code (length bytes.now)) → ⊥) }
    ensures refusal { OnlyRoomOrDevice result }
    ensures room { IsTrue volume.new.is_sound → volume.old.room ≤ volume.new.room + 1 }
{
    let size = size_of(dbd, code, bytes);
    if size > SMALL_SEGMENT {
        return put_large_leaf(volume, dbd, after, behind, code, bytes);
    }
    let mut segment = [0; SMALL_SEGMENT];
    put_laid_out(
        volume,
        dbd,
        &mut segment[..size],
        after,
        behind,
        code,
        bytes,
    )
}

/// Puts a new leaf of any size.
fn put_large_leaf<S: BlockStore>(
    volume: &mut Volume<S>,
    dbd: &Dbd,
    after: u32,
    behind: u32,
    code: u8,
    bytes: &[u8],
) -> Result<u32, Refused>
    requires fits { row_fits dbd.now.types (record { code = code; bytes = bytes.now }) ≡ true }
    requires sizes { volume.old.sizes ≡ stored_sizes dbd.now.types }
    requires of { IsTrue volume.old.is_sound → IsVolumeOf dbd.now volume.old }
    ensures call { IsCall volume.old result volume.new }
    ensures put { IfOk result (λ a. IsTrue volume.old.is_sound → IsLeafPut dbd.now volume.old (record { code = code; bytes = bytes.now }) after behind a volume.new) }
    ensures kept { IfErr result (λ _. IsTrue volume.new.is_sound → volume.new.image ≡ volume.old.image) }
    ensures full { IfErr result (λ e. e ≡ Refused.Full → IsTrue volume.old.is_sound → (spare volume.old ≡ 0) × (HasHole volume.old (size_with dbd.now.types code (length bytes.now)) → ⊥)) }
    ensures memory { IfErr result (λ e. e ≡ Refused.Memory → volume.old.room ≡ 0) }
    ensures no_free { IfErr result (λ e. e ≡ Refused.Memory → IsTrue volume.old.is_sound → HasFreeBlock volume.old → ⊥) }
    ensures no_hole { IfErr result (λ e. e ≡ Refused.Memory → IsTrue volume.old.is_sound → HasHole volume.old (size_with dbd.now.types code (length bytes.now)) → ⊥) }
    ensures refusal { OnlyRoomOrDevice result }
    ensures room { IsTrue volume.new.is_sound → volume.old.room ≤ volume.new.room + 1 }
{
    let mut segment = [0; LARGEST_BLOCK];
    let size = size_of(dbd, code, bytes);
    put_laid_out(
        volume,
        dbd,
        &mut segment[..size],
        after,
        behind,
        code,
        bytes,
    )
}

/// Lays a new leaf out and puts it.
fn put_laid_out<S: BlockStore>(
    volume: &mut Volume<S>,
    dbd: &Dbd,
    segment: &mut [u8],
    after: u32,
    behind: u32,
    code: u8,
    bytes: &[u8],
) -> Result<u32, Refused>
    requires size { length segment.old ≡ size_with dbd.now.types code (length bytes.now) }
    requires fits { row_fits dbd.now.types (record { code = code; bytes = bytes.now }) ≡ true }
    requires sizes { volume.old.sizes ≡ stored_sizes dbd.now.types }
    requires of { IsTrue volume.old.is_sound → IsVolumeOf dbd.now volume.old }
    ensures call { IsCall volume.old result volume.new }
    ensures put { IfOk result (λ a. IsTrue volume.old.is_sound → IsLeafPut dbd.now volume.old (record { code = code; bytes = bytes.now }) after behind a volume.new) }
    ensures kept { IfErr result (λ _. IsTrue volume.new.is_sound → volume.new.image ≡ volume.old.image) }
    ensures full { IfErr result (λ e. e ≡ Refused.Full → IsTrue volume.old.is_sound → (spare volume.old ≡ 0) × (HasHole volume.old (size_with dbd.now.types code (length bytes.now)) → ⊥)) }
    ensures memory { IfErr result (λ e. e ≡ Refused.Memory → volume.old.room ≡ 0) }
    ensures no_free { IfErr result (λ e. e ≡ Refused.Memory → IsTrue volume.old.is_sound → HasFreeBlock volume.old → ⊥) }
    ensures no_hole { IfErr result (λ e. e ≡ Refused.Memory → IsTrue volume.old.is_sound → HasHole volume.old (size_with dbd.now.types code (length bytes.now)) → ⊥) }
    ensures refusal { OnlyRoomOrDevice result }
    ensures room { IsTrue volume.new.is_sound → volume.old.room ≤ volume.new.room + 1 }
{
    lay_out(dbd, segment, after, behind, code, bytes);
    volume.put(segment)
}

/// Lays a new leaf out in room of the size that it takes.
fn lay_out(dbd: &Dbd, segment: &mut [u8], after: u32, behind: u32, code: u8, bytes: &[u8])
    requires fits { row_fits dbd.now.types (record { code = code; bytes = bytes.now }) ≡ true }
    requires size { length segment.old ≡ size_with dbd.now.types code (length bytes.now) }
    ensures leaf { IsLeaf dbd.now.types (record { code = code; bytes = bytes.now }) after behind segment.new }
    ensures fit { IsTrue (well_formed dbd.now.block_size dbd.now.frspc dbd.now.types) }
{
    let _ = dbd.types();
    let layout = Layout::of(dbd, code);
    layout.write_new(segment, bytes);
    layout.write(segment, Pointer::TwinForward, behind);
    layout.write(segment, Pointer::TwinBackward, after);
}

/// The bytes that a row takes as a segment, at most those of a block.
pub fn size_of(dbd: &Dbd, code: u8, bytes: &[u8]) -> usize
    requires fits { row_fits dbd.now.types (record { code = code; bytes = bytes.now }) ≡ true }
    ensures value { result ≡ size_with dbd.now.types code (length bytes.now) }
    ensures bound { result ≤ 32768 }
    ensures fit { IsTrue (well_formed dbd.now.block_size dbd.now.frspc dbd.now.types) }
{
    let _ = dbd.types();
    dbd.size_with(code, bytes.len())
}
