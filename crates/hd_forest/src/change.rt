ghost use Rattle.std.specs.Prelude.{◌≡◌, ◌+◌, ◌≤◌, true, length, IsTrue, IfOk, IfErr, OnOk};
ghost use Rattle.hd_dbd.specs.Rows.{row_fits};
ghost use Rattle.hd_dbd.specs.Facts.{stored_sizes};
ghost use Rattle.hd_dbd.specs.Prefixes.{size_with};
ghost use Rattle.hd_dbd.specs.Refusals.{OnlyDevice, OnlyRoomOrDevice};
ghost use Rattle.hd_volume.specs.Rooms.{spare, HasHole, HasFreeBlock};
ghost use Rattle.hd_volume.specs.Calls.{IsCall, IsRead};
ghost use Rattle.hd_links.specs.Changes.{twin_behind};
ghost use Rattle.hd_image.specs.Records.{links_of, IsVolumeOf};
ghost use Rattle.hd_forest.specs.Walks.{HasForest};
ghost use Rattle.hd_forest.specs.Sets.{named, IsTwinPlace, IsRecorded};
ghost use Rattle.hd_forest.specs.Updates.{MayLink, IsLinked};

use crate::leaf::put_leaf;
use crate::read::{first_child, next_twin};
use crate::write::{set_following, set_preceding};
use hd_dbd::{Dbd, Refused};
use hd_stores::BlockStore;
use hd_volume::Volume;

/// Links a new row below a parent, 0 for a root, behind its preceding twin, 0 for none, and says its address. No memory is
/// taken but what the volume may grow by.
///
/// `Full` says that there is no block to spare and no hole of its size; `Memory` comes only where the volume would have to
/// grow and no room is reserved.
pub fn link<S: BlockStore>(
    volume: &mut Volume<S>,
    dbd: &Dbd,
    parent: u32,
    after: u32,
    code: u8,
    bytes: &[u8],
) -> Result<u32, Refused>
    requires fits { row_fits dbd.now.types (record { code = code; bytes = bytes.now }) ≡ true }
    requires sizes { volume.old.sizes ≡ stored_sizes dbd.now.types }
    requires of { IsTrue volume.old.is_sound → IsVolumeOf dbd.now volume.old }
    requires holds { IsTrue volume.old.is_sound → HasForest dbd.now volume.old }
    requires place { IsTrue volume.old.is_sound → MayLink dbd.now.types (links_of dbd.now.types volume.old) parent after (record { code = code; bytes = bytes.now }) }
    ensures call { IsCall volume.old result volume.new }
    ensures linked { IfOk result (λ a. IsTrue volume.old.is_sound → IsLinked dbd.now volume.old parent after (record { code = code; bytes = bytes.now }) a volume.new) }
    ensures kept { IfErr result (λ _. IsTrue volume.new.is_sound → volume.new.image ≡ volume.old.image) }
    ensures full { IfErr result (λ e. e ≡ Refused.Full → IsTrue volume.old.is_sound → (spare volume.old ≡ 0) × (HasHole volume.old (size_with dbd.now.types code (length bytes.now)) → ⊥)) }
    ensures memory { IfErr result (λ e. e ≡ Refused.Memory → volume.old.room ≡ 0) }
    ensures no_free { IfErr result (λ e. e ≡ Refused.Memory → IsTrue volume.old.is_sound → HasFreeBlock volume.old → ⊥) }
    ensures no_hole { IfErr result (λ e. e ≡ Refused.Memory → IsTrue volume.old.is_sound → HasHole volume.old (size_with dbd.now.types code (length bytes.now)) → ⊥) }
    ensures refusal { OnlyRoomOrDevice result }
    ensures room { IsTrue volume.new.is_sound → volume.old.room ≤ volume.new.room + 1 }
{
    let behind = twin_behind(volume, dbd, parent, after, code)?;
    let address = put_leaf(volume, dbd, after, behind, code, bytes)?;
    name_leaf(volume, dbd, parent, after, behind, code, address)?;
    Ok(address)
}

/// The twin behind a twin, or the first child of a type where the twin is 0; 0 for none.
fn twin_behind<S: BlockStore>(
    volume: &mut Volume<S>,
    dbd: &Dbd,
    parent: u32,
    twin: u32,
    code: u8,
) -> Result<u32, Refused>
    requires of { IsTrue volume.old.is_sound → IsVolumeOf dbd.now volume.old }
    requires there { IsTrue volume.old.is_sound → IsTwinPlace dbd.now.types (links_of dbd.now.types volume.old) parent code twin }
    ensures read { IsRead volume.old result volume.new }
    ensures value { IfOk result (λ r. IsTrue volume.old.is_sound → r ≡ twin_behind (links_of dbd.now.types volume.old) parent code twin) }
    ensures refusal { OnlyDevice result }
{
    if twin == 0 {
        first_child(volume, dbd, parent, code)
    } else {
        next_twin(volume, dbd, twin)
    }
}

/// Names a new leaf between its twins: by the one before it and the one behind it, or by the parent where there is none.
pub fn name_leaf<S: BlockStore>(
    volume: &mut Volume<S>,
    dbd: &Dbd,
    parent: u32,
    after: u32,
    behind: u32,
    code: u8,
    address: u32,
) -> Result<(), Refused>
    requires of { IsTrue volume.old.is_sound → IsVolumeOf dbd.now volume.old }
    requires before { IsTrue volume.old.is_sound → IsTwinPlace dbd.now.types (links_of dbd.now.types volume.old) parent code after }
    requires behind { IsTrue volume.old.is_sound → IsTwinPlace dbd.now.types (links_of dbd.now.types volume.old) parent code behind }
    ensures call { IsCall volume.old result volume.new }
    ensures named { OnOk result (IsTrue volume.old.is_sound → IsRecorded dbd.now volume.old (named (links_of dbd.now.types volume.old) parent code after behind address) volume.new) }
    ensures refusal { OnlyDevice result }
    ensures room { volume.new.room ≡ volume.old.room }
{
    set_following(volume, dbd, parent, after, code, address)?;
    set_preceding(volume, dbd, parent, behind, code, address)
}
