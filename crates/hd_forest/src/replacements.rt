ghost use Rattle.std.specs.Prelude.{◌≡◌, ◌≢◌, ◌+◌, ◌≤◌, ◌<◌, true, length, nat_lt, IsTrue, IfOk, IfErr, OnOk};
ghost use Rattle.hd_dbd.specs.DatabaseRules.{well_formed};
ghost use Rattle.hd_dbd.specs.Rows.{row_fits};
ghost use Rattle.hd_dbd.specs.Facts.{stored_sizes};
ghost use Rattle.hd_dbd.specs.Prefixes.{prefix_length, size_with};
ghost use Rattle.hd_dbd.specs.Refusals.{OnlyDevice, OnlyRoomOrDevice};
ghost use Rattle.hd_volume.specs.Rooms.{spare, HasHole, HasFreeBlock};
ghost use Rattle.hd_volume.specs.Calls.{IsCall, IsRead};
ghost use Rattle.hd_prefix.specs.Fields.{code_of, IsSegmentWith};
ghost use Rattle.hd_links.specs.Changes.{CanReplace};
ghost use Rattle.hd_links.specs.Links.{IsSegment};
ghost use Rattle.hd_links.specs.Steps.{LeadsDown};
ghost use Rattle.hd_image.specs.Records.{links_of, stored_at, IsVolumeOf};
ghost use Rattle.hd_forest.specs.Walks.{HasForest, tip};
ghost use Rattle.hd_forest.specs.Replacing.{IsRowSegment, IsSegmentSet, IsRowSet, Outgrows};

use crate::change::name_leaf;
use crate::leaf::{LARGEST_BLOCK, SMALL_SEGMENT, size_of};
use crate::path::Path;
use crate::read::{next_twin, parent_on, prev_twin, tip_of};
use hd_dbd::{Dbd, Refused};
use hd_prefix::Layout;
use hd_stores::BlockStore;
use hd_volume::Volume;

/// Gives the last row of a path, of the type of a code, other bytes with the same key, and says where it then stands: in its place if that has
/// room for them, else elsewhere, and what named it names it there.
///
/// `Full` says that there is no block to spare and no hole of its size; `Memory` comes only where the volume would have to
/// grow and no room is reserved.
pub fn replace<S: BlockStore>(
    volume: &mut Volume<S>,
    dbd: &Dbd,
    path: &Path,
    code: u8,
    bytes: &[u8],
) -> Result<u32, Refused>
    requires fits { row_fits dbd.now.types (record { code = code; bytes = bytes.now }) ≡ true }
    requires sizes { volume.old.sizes ≡ stored_sizes dbd.now.types }
    requires of { IsTrue volume.old.is_sound → IsVolumeOf dbd.now volume.old }
    requires holds { IsTrue volume.old.is_sound → HasForest dbd.now volume.old }
    requires there { IsTrue volume.old.is_sound → (0 < length path.now) × LeadsDown dbd.now.types (links_of dbd.now.types volume.old) 0 path.now }
    requires typed { IsTrue volume.old.is_sound → (links_of dbd.now.types volume.old).code (tip path.now) ≡ code }
    requires can { IsTrue volume.old.is_sound → CanReplace dbd.now.types (links_of dbd.now.types volume.old) (tip path.now) bytes.now }
    ensures call { IsCall volume.old result volume.new }
    ensures set { IfOk result (λ to. IsTrue volume.old.is_sound → IsRowSet dbd.now volume.old path.now (record { code = code; bytes = bytes.now }) to volume.new) }
    ensures kept { IfErr result (λ _. IsTrue volume.new.is_sound → volume.new.image ≡ volume.old.image) }
    ensures full { IfErr result (λ e. e ≡ Refused.Full → IsTrue volume.old.is_sound → (spare volume.old ≡ 0) × (HasHole volume.old (size_with dbd.now.types code (length bytes.now)) → ⊥)) }
    ensures memory { IfErr result (λ e. e ≡ Refused.Memory → volume.old.room ≡ 0) }
    ensures no_free { IfErr result (λ e. e ≡ Refused.Memory → IsTrue volume.old.is_sound → HasFreeBlock volume.old → ⊥) }
    ensures no_hole { IfErr result (λ e. e ≡ Refused.Memory → IsTrue volume.old.is_sound → HasHole volume.old (size_with dbd.now.types code (length bytes.now)) → ⊥) }
    ensures refusal { OnlyRoomOrDevice result }
    ensures room { IsTrue volume.new.is_sound → volume.old.room ≤ volume.new.room + 1 }
    ensures still { IfOk result (λ to. to ≡ tip path.now → IsTrue volume.new.is_sound → volume.old.room ≤ volume.new.room) }
    ensures outgrown { IfErr result (λ e. e ≢ Refused.Device → IsTrue volume.old.is_sound → Outgrows dbd.now volume.old (tip path.now) (record { code = code; bytes = bytes.now })) }
{
    let address = tip_of(path);
    if outgrows(volume, dbd, address, code, bytes)? {
        return move_row(volume, dbd, path, code, bytes);
    }
    set_segment(volume, dbd, address, code, bytes)
}

/// Gives the last row of a path bytes for which its place has no room, and mends what named it.
fn move_row<S: BlockStore>(
    volume: &mut Volume<S>,
    dbd: &Dbd,
    path: &Path,
    code: u8,
    bytes: &[u8],
) -> Result<u32, Refused>
    requires fits { row_fits dbd.now.types (record { code = code; bytes = bytes.now }) ≡ true }
    requires sizes { volume.old.sizes ≡ stored_sizes dbd.now.types }
    requires of { IsTrue volume.old.is_sound → IsVolumeOf dbd.now volume.old }
    requires holds { IsTrue volume.old.is_sound → HasForest dbd.now volume.old }
    requires there { IsTrue volume.old.is_sound → (0 < length path.now) × LeadsDown dbd.now.types (links_of dbd.now.types volume.old) 0 path.now }
    requires typed { IsTrue volume.old.is_sound → (links_of dbd.now.types volume.old).code (tip path.now) ≡ code }
    requires can { IsTrue volume.old.is_sound → CanReplace dbd.now.types (links_of dbd.now.types volume.old) (tip path.now) bytes.now }
    requires outgrows { IsTrue volume.old.is_sound → length (stored_at volume.old (tip path.now)) < size_with dbd.now.types code (length bytes.now) }
    ensures call { IsCall volume.old result volume.new }
    ensures set { IfOk result (λ to. IsTrue volume.old.is_sound → IsRowSet dbd.now volume.old path.now (record { code = code; bytes = bytes.now }) to volume.new) }
    ensures kept { IfErr result (λ _. IsTrue volume.new.is_sound → volume.new.image ≡ volume.old.image) }
    ensures full { IfErr result (λ e. e ≡ Refused.Full → IsTrue volume.old.is_sound → (spare volume.old ≡ 0) × (HasHole volume.old (size_with dbd.now.types code (length bytes.now)) → ⊥)) }
    ensures memory { IfErr result (λ e. e ≡ Refused.Memory → volume.old.room ≡ 0) }
    ensures no_free { IfErr result (λ e. e ≡ Refused.Memory → IsTrue volume.old.is_sound → HasFreeBlock volume.old → ⊥) }
    ensures no_hole { IfErr result (λ e. e ≡ Refused.Memory → IsTrue volume.old.is_sound → HasHole volume.old (size_with dbd.now.types code (length bytes.now)) → ⊥) }
    ensures refusal { OnlyRoomOrDevice result }
    ensures room { IsTrue volume.new.is_sound → volume.old.room ≤ volume.new.room + 1 }
{
    let (parent, address) = (parent_on(path), tip_of(path));
    let before = prev_twin(volume, dbd, path)?;
    let behind = next_twin(volume, dbd, address)?;
    let to = set_segment(volume, dbd, address, code, bytes)?;
    name_leaf(volume, dbd, parent, before, behind, code, to)?;
    Ok(to)
}

/// Whether a row of a type takes more room than the segment at an address.
fn outgrows<S: BlockStore>(
    volume: &mut Volume<S>,
    dbd: &Dbd,
    address: u32,
    code: u8,
    bytes: &[u8],
) -> Result<bool, Refused>
    requires fits { row_fits dbd.now.types (record { code = code; bytes = bytes.now }) ≡ true }
    requires of { IsTrue volume.old.is_sound → IsVolumeOf dbd.now volume.old }
    requires there { IsTrue volume.old.is_sound → IsSegment (links_of dbd.now.types volume.old) address }
    ensures read { IsRead volume.old result volume.new }
    ensures value { IfOk result (λ r. IsTrue volume.old.is_sound → r ≡ nat_lt (length (stored_at volume.old address)) (size_with dbd.now.types code (length bytes.now))) }
    ensures refusal { OnlyDevice result }
{
    let size = size_of(dbd, code, bytes);
    let segment = volume.segment_at(address)?;
    Ok(segment.len() < size)
}

/// Gives the segment at an address, of the type of a code, other bytes, and says where it then stands.
fn set_segment<S: BlockStore>(
    volume: &mut Volume<S>,
    dbd: &Dbd,
    address: u32,
    code: u8,
    bytes: &[u8],
) -> Result<u32, Refused>
    requires fits { row_fits dbd.now.types (record { code = code; bytes = bytes.now }) ≡ true }
    requires sizes { volume.old.sizes ≡ stored_sizes dbd.now.types }
    requires of { IsTrue volume.old.is_sound → IsVolumeOf dbd.now volume.old }
    requires there { IsTrue volume.old.is_sound → IsSegment (links_of dbd.now.types volume.old) address }
    requires typed { IsTrue volume.old.is_sound → (links_of dbd.now.types volume.old).code address ≡ code }
    ensures call { IsCall volume.old result volume.new }
    ensures set { IfOk result (λ to. IsTrue volume.old.is_sound → IsSegmentSet dbd.now volume.old address (record { code = code; bytes = bytes.now }) to volume.new) }
    ensures kept { IfErr result (λ _. IsTrue volume.new.is_sound → volume.new.image ≡ volume.old.image) }
    ensures full { IfErr result (λ e. e ≡ Refused.Full → IsTrue volume.old.is_sound → (spare volume.old ≡ 0) × (HasHole volume.old (size_with dbd.now.types code (length bytes.now)) → ⊥)) }
    ensures memory { IfErr result (λ e. e ≡ Refused.Memory → volume.old.room ≡ 0) }
    ensures no_free { IfErr result (λ e. e ≡ Refused.Memory → IsTrue volume.old.is_sound → HasFreeBlock volume.old → ⊥) }
    ensures no_hole { IfErr result (λ e. e ≡ Refused.Memory → IsTrue volume.old.is_sound → HasHole volume.old (size_with dbd.now.types code (length bytes.now)) → ⊥) }
    ensures refusal { OnlyRoomOrDevice result }
    ensures room { IsTrue volume.new.is_sound → volume.old.room ≤ volume.new.room + 1 }
    ensures still { IfOk result (λ to. to ≡ address → IsTrue volume.new.is_sound → volume.old.room ≤ volume.new.room) }
    ensures outgrown { IfErr result (λ e. e ≢ Refused.Device → IsTrue volume.old.is_sound → Outgrows dbd.now volume.old address (record { code = code; bytes = bytes.now })) }
{
    let size = size_of(dbd, code, bytes);
    if size > SMALL_SEGMENT {
        return set_large_segment(volume, dbd, address, code, bytes);
    }
    let mut room = [0; SMALL_SEGMENT];
    set_laid_out(volume, dbd, &mut room[..size], address, code, bytes)
}

/// Gives a segment of any size other bytes.
fn set_large_segment<S: BlockStore>(
    volume: &mut Volume<S>,
    dbd: &Dbd,
    address: u32,
    code: u8,
    bytes: &[u8],
) -> Result<u32, Refused>
    requires fits { row_fits dbd.now.types (record { code = code; bytes = bytes.now }) ≡ true }
    requires sizes { volume.old.sizes ≡ stored_sizes dbd.now.types }
    requires of { IsTrue volume.old.is_sound → IsVolumeOf dbd.now volume.old }
    requires there { IsTrue volume.old.is_sound → IsSegment (links_of dbd.now.types volume.old) address }
    requires typed { IsTrue volume.old.is_sound → (links_of dbd.now.types volume.old).code address ≡ code }
    ensures call { IsCall volume.old result volume.new }
    ensures set { IfOk result (λ to. IsTrue volume.old.is_sound → IsSegmentSet dbd.now volume.old address (record { code = code; bytes = bytes.now }) to volume.new) }
    ensures kept { IfErr result (λ _. IsTrue volume.new.is_sound → volume.new.image ≡ volume.old.image) }
    ensures full { IfErr result (λ e. e ≡ Refused.Full → IsTrue volume.old.is_sound → (spare volume.old ≡ 0) × (HasHole volume.old (size_with dbd.now.types code (length bytes.now)) → ⊥)) }
    ensures memory { IfErr result (λ e. e ≡ Refused.Memory → volume.old.room ≡ 0) }
    ensures no_free { IfErr result (λ e. e ≡ Refused.Memory → IsTrue volume.old.is_sound → HasFreeBlock volume.old → ⊥) }
    ensures no_hole { IfErr result (λ e. e ≡ Refused.Memory → IsTrue volume.old.is_sound → HasHole volume.old (size_with dbd.now.types code (length bytes.now)) → ⊥) }
    ensures refusal { OnlyRoomOrDevice result }
    ensures room { IsTrue volume.new.is_sound → volume.old.room ≤ volume.new.room + 1 }
    ensures still { IfOk result (λ to. to ≡ address → IsTrue volume.new.is_sound → volume.old.room ≤ volume.new.room) }
    ensures outgrown { IfErr result (λ e. e ≢ Refused.Device → IsTrue volume.old.is_sound → Outgrows dbd.now volume.old address (record { code = code; bytes = bytes.now })) }
{
    let mut room = [0; LARGEST_BLOCK];
    let size = size_of(dbd, code, bytes);
    set_laid_out(volume, dbd, &mut room[..size], address, code, bytes)
}

/// Lays a segment out with other bytes, and puts it in the place of the one at an address, or elsewhere.
fn set_laid_out<S: BlockStore>(
    volume: &mut Volume<S>,
    dbd: &Dbd,
    room: &mut [u8],
    address: u32,
    code: u8,
    bytes: &[u8],
) -> Result<u32, Refused>
    requires size { length room.old ≡ size_with dbd.now.types code (length bytes.now) }
    requires fits { row_fits dbd.now.types (record { code = code; bytes = bytes.now }) ≡ true }
    requires sizes { volume.old.sizes ≡ stored_sizes dbd.now.types }
    requires of { IsTrue volume.old.is_sound → IsVolumeOf dbd.now volume.old }
    requires there { IsTrue volume.old.is_sound → IsSegment (links_of dbd.now.types volume.old) address }
    requires typed { IsTrue volume.old.is_sound → (links_of dbd.now.types volume.old).code address ≡ code }
    ensures call { IsCall volume.old result volume.new }
    ensures set { IfOk result (λ to. IsTrue volume.old.is_sound → IsSegmentSet dbd.now volume.old address (record { code = code; bytes = bytes.now }) to volume.new) }
    ensures kept { IfErr result (λ _. IsTrue volume.new.is_sound → volume.new.image ≡ volume.old.image) }
    ensures full { IfErr result (λ e. e ≡ Refused.Full → IsTrue volume.old.is_sound → (spare volume.old ≡ 0) × (HasHole volume.old (size_with dbd.now.types code (length bytes.now)) → ⊥)) }
    ensures memory { IfErr result (λ e. e ≡ Refused.Memory → volume.old.room ≡ 0) }
    ensures no_free { IfErr result (λ e. e ≡ Refused.Memory → IsTrue volume.old.is_sound → HasFreeBlock volume.old → ⊥) }
    ensures no_hole { IfErr result (λ e. e ≡ Refused.Memory → IsTrue volume.old.is_sound → HasHole volume.old (size_with dbd.now.types code (length bytes.now)) → ⊥) }
    ensures refusal { OnlyRoomOrDevice result }
    ensures room { IsTrue volume.new.is_sound → volume.old.room ≤ volume.new.room + 1 }
    ensures still { IfOk result (λ to. to ≡ address → IsTrue volume.new.is_sound → volume.old.room ≤ volume.new.room) }
    ensures outgrown { IfErr result (λ e. e ≢ Refused.Device → IsTrue volume.old.is_sound → Outgrows dbd.now volume.old address (record { code = code; bytes = bytes.now })) }
{
    lay_out_over(volume, dbd, room, address, code, bytes)?;
    volume.rewrite(address, room)
}

/// Lays the segment at an address out with other bytes, in room of the size that these take.
fn lay_out_over<S: BlockStore>(
    volume: &mut Volume<S>,
    dbd: &Dbd,
    room: &mut [u8],
    address: u32,
    code: u8,
    bytes: &[u8],
) -> Result<(), Refused>
    requires size { length room.old ≡ size_with dbd.now.types code (length bytes.now) }
    requires fits { row_fits dbd.now.types (record { code = code; bytes = bytes.now }) ≡ true }
    requires of { IsTrue volume.old.is_sound → IsVolumeOf dbd.now volume.old }
    requires there { IsTrue volume.old.is_sound → IsSegment (links_of dbd.now.types volume.old) address }
    requires typed { IsTrue volume.old.is_sound → (links_of dbd.now.types volume.old).code address ≡ code }
    ensures read { IsRead volume.old result volume.new }
    ensures row { OnOk result (IsRowSegment dbd.now.types (record { code = code; bytes = bytes.now }) room.new) }
    ensures fit { OnOk result (IsTrue (well_formed dbd.now.block_size dbd.now.frspc dbd.now.types)) }
    ensures laid { OnOk result (IsTrue volume.old.is_sound → IsSegmentWith dbd.now.types code bytes.now (stored_at volume.old address) room.new) }
    ensures refusal { OnlyDevice result }
{
    let segment = volume.segment_at(address)?;
    lay_out_with(dbd, room, segment, code, bytes);
    Ok(())
}

/// Lays a segment out with other bytes, or a new one where it is none of the type.
fn lay_out_with(dbd: &Dbd, room: &mut [u8], segment: &[u8], code: u8, bytes: &[u8])
    requires size { length room.old ≡ size_with dbd.now.types code (length bytes.now) }
    requires fits { row_fits dbd.now.types (record { code = code; bytes = bytes.now }) ≡ true }
    ensures row { IsRowSegment dbd.now.types (record { code = code; bytes = bytes.now }) room.new }
    ensures laid { code_of segment.now ≡ code → 0 < length segment.now → prefix_length dbd.now.types code ≤ length segment.now → IsSegmentWith dbd.now.types code bytes.now segment.now room.new }
    ensures fit { IsTrue (well_formed dbd.now.block_size dbd.now.frspc dbd.now.types) }
{
    let _ = dbd.types();
    let layout = Layout::of(dbd, code);
    if segment.first() == Some(&code) && layout.prefix_length() as usize <= segment.len() {
        layout.write_with(room, segment, bytes);
    } else {
        layout.write_new(room, bytes);
    }
}
